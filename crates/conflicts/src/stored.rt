ghost use Rattle.std.specs.Prelude.{◌≡◌, IfOk};
ghost use Rattle.conflicts.specs.Stored.{int_in, int_at, larger_of, chosen};

use crate::pair::{Choice, Pair};
use crate::resolver::Resolver;
use row_value::{Cell, Content, Schema};
use std::alloc::AllocError;

/// A way to resolve every conflict that needs no function of the caller's.
#[derive(Debug, Clone, Copy, PartialEq, Eq)]
pub enum Stored {
    /// By the client's write.
    Mine,
    /// By the Store's row.
    Theirs,
    /// By the side whose number in this column, counted from 0, is greater.
    Larger { column: usize },
}

fn int_in(cell: &Cell) -> Option<i64>
    ensures { result ≡ int_in cell.now }
{
    match cell {
        Cell::Int(number) => Some(*number),
        Cell::Bool(_) | Cell::Text(_) => None,
    }
}

fn int_at(content: &Content, column: usize) -> Option<i64>
    ensures { result ≡ int_at content.now column }
{
    match content {
        Content::Gone => None,
        Content::Row { cells, objects: _ } => int_in(cells.get(column)?),
    }
}

fn larger_of(pair: &Pair, column: usize) -> Choice
    ensures { result ≡ larger_of column pair.now }
{
    match (int_at(&pair.mine, column), int_at(&pair.theirs, column)) {
        (Some(mine), Some(theirs)) if theirs < mine => Choice::Mine,
        _ => Choice::Theirs,
    }
}

impl Stored {
    /// How it resolves a conflict. Theirs is taken where the numbers are equal, where a side is deleted, and where the
    /// column has no number.
    pub fn choose(self, pair: &Pair) -> Choice
        ensures { result ≡ chosen self pair.now }
    {
        match self {
            Stored::Mine => Choice::Mine,
            Stored::Theirs => Choice::Theirs,
            Stored::Larger { column } => larger_of(pair, column),
        }
    }
}

/// A stored resolver for the rows of a schema.
#[derive(Drop)]
pub struct StoredResolver<'s> {
    pub schema: &'s Schema,
    pub stored: Stored,
}

impl<'s> Resolver for StoredResolver<'s> {
    ghost use Rattle.std.specs.Prelude.{◌≡◌, Ok};
    ghost use Rattle.conflicts.specs.Stored.{chosen};

    ghost schema_of = { λ s. s.schema.now };

    ghost answers = { λ s pair answer. answer ≡ Ok (chosen s.stored pair) };

    fn choose(&self, pair: &Pair) -> Result<Choice, AllocError> {
        Ok(self.stored.choose(pair))
    }
}
