ghost use Rattle.std.specs.Prelude.{◌≡◌, OnOk, IfOk};
ghost use Rattle.select_lang.specs.Formula.{formula_of};
ghost use Rattle.select_lang.specs.Machine.{seen, start, read, ended, Takes, opened_in, closed_in, tested_in};
ghost use Rattle.select_lang.specs.Machine.{turned_in, not_read_in, column_read_in, test_in, operator_read_in};
ghost use Rattle.select_lang.specs.Machine.{behind_not_in, value_read_in, join_read_in};
ghost use Rattle.std.specs.Option.{option_map};

use crate::level::Level;
use crate::predicate::{Comparison, Predicate};
use crate::words::{cell_at, column_at, comparison_at};
use row_value::{ColumnKind, Schema};
use std::alloc::{AllocError, Global};
use std::mem;

/// What may come next.
#[derive(Clone, Copy)]
pub(crate) enum Next {
    /// A test begins.
    Test,
    /// `not` was read, which is the name of a column too: a test begins, or the operator behind that column.
    NotOrColumn(u32, ColumnKind),
    /// The operator behind a column.
    Operator(u32, ColumnKind),
    /// The value behind an operator.
    Value(u32, ColumnKind, Comparison),
    /// Behind a test: `and`, `or`, a closing parenthesis, or the end.
    Join,
}

/// A reader of predicates that takes one word after another. Where memory is refused it isn't to be used again.
#[derive(Drop)]
pub(crate) struct Reader {
    /// The predicates that stand around the one that is read, the outermost first.
    outer: Vec<Level>,
    inner: Level,
    next: Next,
    alloc: Global,
}

impl Reader {
    /// One in which `not` and parentheses nest so deep.
    pub(crate) fn new(alloc: Global, room: u32) -> Self
        ensures { seen result ≡ start room }
    {
        Reader {
            outer: Vec::new(alloc),
            inner: Level::new(alloc, room),
            next: Next::Test,
            alloc,
        }
    }

    fn open(&mut self) -> Result<bool, AllocError>
        ensures { IfOk result (λ taken. Takes (opened_in (seen self.old)) taken (seen self.new)) }
    {
        let Some(inside) = self.inner.inside(self.alloc) else {
            return Ok(false);
        };
        let inner = mem::replace(&mut self.inner, inside);
        self.outer.push(inner)?;
        self.next = Next::Test;
        Ok(true)
    }

    fn close(&mut self) -> Result<bool, AllocError>
        ensures { IfOk result (λ taken. Takes (closed_in (seen self.old)) taken (seen self.new)) }
    {
        let Some(outer) = self.outer.pop() else {
            return Ok(false);
        };
        let inner = mem::replace(&mut self.inner, outer);
        self.end_test(inner.into_predicate()?)?;
        Ok(true)
    }

    fn end_test(&mut self, test: Predicate) -> Result<(), AllocError>
        ensures { OnOk result (seen self.new ≡ tested_in (seen self.old) (formula_of test)) }
    {
        self.inner.end_test(self.alloc, test)?;
        self.next = Next::Join;
        Ok(())
    }

    fn turn(&mut self) -> bool
        ensures { Takes (turned_in (seen self.old)) result (seen self.new) }
    {
        self.next = Next::Test;
        self.inner.turn()
    }

    fn read_not(&mut self, column: Option<(u32, ColumnKind)>) -> bool
        ensures { Takes (not_read_in (seen self.old) column) result (seen self.new) }
    {
        let Some((number, kind)) = column else {
            return self.turn();
        };
        self.next = if self.inner.has_room() {
            Next::NotOrColumn(number, kind)
        } else {
            Next::Operator(number, kind)
        };
        true
    }

    fn read_column(&mut self, column: Option<(u32, ColumnKind)>) -> bool
        ensures { Takes (column_read_in (seen self.old) column) result (seen self.new) }
    {
        let Some((number, kind)) = column else {
            return false;
        };
        self.next = Next::Operator(number, kind);
        true
    }

    fn read_test(&mut self, schema: &Schema, word: &[u8]) -> Result<bool, AllocError>
        ensures { IfOk result (λ taken. Takes (test_in schema.now (seen self.old) word.now) taken (seen self.new)) }
    {
        match word {
            b"(" => self.open(),
            b"not" => Ok(self.read_not(column_at(schema, word))),
            _ => Ok(self.read_column(column_at(schema, word))),
        }
    }

    fn read_operator(&mut self, number: u32, kind: ColumnKind, word: &[u8]) -> bool
        ensures { Takes (operator_read_in (seen self.old) number kind word.now) result (seen self.new) }
    {
        let Some(comparison) = comparison_at(word) else {
            return false;
        };
        self.next = Next::Value(number, kind, comparison);
        true
    }

    fn read_behind_not(
        &mut self,
        schema: &Schema,
        number: u32,
        kind: ColumnKind,
        word: &[u8],
    ) -> Result<bool, AllocError>
        ensures { IfOk result (λ taken.
            Takes (behind_not_in schema.now (seen self.old) number kind word.now) taken (seen self.new)) }
    {
        if let Some(comparison) = comparison_at(word) {
            self.next = Next::Value(number, kind, comparison);
            return Ok(true);
        }
        if !self.turn() {
            return Ok(false);
        }
        self.read_test(schema, word)
    }

    fn read_value(
        &mut self,
        column: u32,
        kind: ColumnKind,
        comparison: Comparison,
        word: &[u8],
    ) -> Result<bool, AllocError>
        ensures { IfOk result (λ taken.
            Takes (value_read_in (seen self.old) column kind comparison word.now) taken (seen self.new)) }
    {
        let Some(value) = cell_at(self.alloc, kind, word)? else {
            return Ok(false);
        };
        self.end_test(Predicate::Test {
            column,
            comparison,
            value,
        })?;
        Ok(true)
    }

    fn read_join(&mut self, word: &[u8]) -> Result<bool, AllocError>
        ensures { IfOk result (λ taken. Takes (join_read_in (seen self.old) word.now) taken (seen self.new)) }
    {
        match word {
            b"and" => self.next = Next::Test,
            b"or" => {
                self.inner.end_all(self.alloc)?;
                self.next = Next::Test;
            }
            b")" => return self.close(),
            _ => return Ok(false),
        }
        Ok(true)
    }

    /// Takes the next word; false is one that can't come there.
    #[tactic(auto, unfolding(crate::specs::Machine::read))]
    pub(crate) fn take(&mut self, schema: &Schema, word: &[u8]) -> Result<bool, AllocError>
        ensures { IfOk result (λ taken. Takes (read schema.now (seen self.old) word.now) taken (seen self.new)) }
    {
        match self.next {
            Next::Test => self.read_test(schema, word),
            Next::NotOrColumn(number, kind) => self.read_behind_not(schema, number, kind, word),
            Next::Operator(number, kind) => Ok(self.read_operator(number, kind, word)),
            Next::Value(number, kind, comparison) => self.read_value(
                number, kind, comparison, word,
            ),
            Next::Join => self.read_join(word),
        }
    }

    /// The predicate, where it may end here.
    #[tactic(auto, unfolding(crate::specs::Machine::ended))]
    pub(crate) fn finish(self) -> Result<Option<Predicate>, AllocError>
        ensures { IfOk result (λ made. option_map formula_of made ≡ ended (seen self)) }
    {
        match self.next {
            Next::Join if self.outer.is_empty() => Ok(Some(self.inner.into_predicate()?)),
            _ => Ok(None),
        }
    }
}
