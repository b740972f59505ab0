ghost use Rattle.std.specs.Prelude.{◌≡◌, ◌<◌, ◌^◌, ◌++◌, ◌∷◌, [], ◌||◌, ◌&&◌, not, List, IfOk};
ghost use Rattle.row_value.specs.Fit.{is_object};
ghost use Rattle.script_words.specs.Words.{texts};
ghost use Rattle.script_words.specs.Codes.{Judges};
ghost use Rattle.script_text.specs.Names.{texts_of, IsSetOf};
ghost use Rattle.script_text.specs.Places.{names_of, has_object, new_column_at};
ghost use Rattle.script_text.specs.Reading.{Reads, placed, columns_in, some_columns_in};
ghost use Rattle.row_value.specs.declared.schema.Column.{Column};

use crate::declared::put_name;
use crate::fault::{ScriptFault, bad};
use crate::next::next_word;
use row_value::{Bytes, Column, ColumnKind, Columns, Sequence};
use script_words::{Code, ValueFault, column_of};
use std::alloc::Global;
use std::collections::BTreeSet;

fn is_object(kind: ColumnKind) -> bool
    ensures { result ≡ is_object kind }
{
    matches!(kind, ColumnKind::Object)
}

// Whether a cell column stands behind an object column.
fn is_late(objects: bool, kind: ColumnKind) -> bool
    ensures { result ≡ (objects && not (is_object kind)) }
{
    objects && !is_object(kind)
}

// Whether objects stand among columns of which this one is the last.
fn with_object(objects: bool, kind: ColumnKind) -> bool
    ensures { result ≡ (objects || is_object kind) }
{
    objects || is_object(kind)
}

// A column behind others, whose name is added to those that were named.
fn new_column(
    alloc: Global,
    named: &mut BTreeSet<Vec<u8>>,
    objects: bool,
    word: &str,
) -> Result<Column, ValueFault>
    ensures judged { (before : List Column) → IsSetOf (texts_of named.old) (names_of before)
        → objects ≡ has_object before → Judges result (new_column_at before word.now) }
    ensures named { (before : List Column) → IsSetOf (texts_of named.old) (names_of before)
        → IfOk result (λ column. IsSetOf (texts_of named.new) (names_of (before ++ column ∷ []))) }
{
    let Some((name, kind)) = column_of(word) else {
        return Err(Code::NoName.into());
    };
    if !put_name(alloc, named, name.as_bytes())? {
        return Err(Code::Twice.into());
    }
    if is_late(objects, kind) {
        return Err(Code::NoValue.into());
    }
    let name = Bytes::from_slice(alloc, name.as_bytes())?;
    Ok(Column { name, kind })
}

fn column_at(
    alloc: Global,
    named: &mut BTreeSet<Vec<u8>>,
    objects: bool,
    word: &str,
    at: usize,
) -> Result<Column, ScriptFault>
    ensures read { (before : List Column) → IsSetOf (texts_of named.old) (names_of before) → objects ≡ has_object before
        → Reads result (placed at (new_column_at before word.now)) }
    ensures named { (before : List Column) → IsSetOf (texts_of named.old) (names_of before)
        → IfOk result (λ column. IsSetOf (texts_of named.new) (names_of (before ++ column ∷ []))) }
{
    match new_column(alloc, named, objects, word) {
        Ok(column) => Ok(column),
        Err(ValueFault::Code(code)) => Err(ScriptFault::BadLine(bad(code, at))),
        Err(ValueFault::Memory) => Err(ScriptFault::Memory),
    }
}

fn columns_of(alloc: Global, words: &[&str], at: usize) -> Result<Columns, ScriptFault>
    requires { at < 2 ^ 32 }
    ensures { Reads result (columns_in at [] (texts words.now)) }
{
    let mut named = BTreeSet::new(alloc);
    let mut objects = false;
    let mut columns = Sequence::new(alloc);
    for (i, word) in words.iter().enumerate() {
        let column = column_at(alloc, &mut named, objects, word, at + i)?;
        objects = with_object(objects, column.kind);
        columns.push(column)?;
    }
    Ok(columns)
}

#[tactic(auto, unfolding(crate::specs::Reading::some_columns_in))]
pub(crate) fn some_columns(alloc: Global, words: &[&str], at: usize) -> Result<Columns, ScriptFault>
    requires { at < 2 ^ 32 }
    ensures { Reads result (some_columns_in at (texts words.now)) }
{
    let _first = next_word(words, at)?;
    columns_of(alloc, words, at)
}
