ghost use Rattle.std.specs.Prelude.{◌≡◌, ◌≤◌, length, position, slice_get, IfOk};
ghost use Rattle.row_value.specs.Fit.{is_object, cell_count};
ghost use Rattle.select_lang.specs.Words.{comparison_at, number_of, with_kind, column_at, is_kind, cell_in};
ghost use Rattle.select_lang.specs.Words.{value_of, cell_at};
ghost use Rattle.script_words.specs.Words.{is_name};
ghost use Rattle.script_words.specs.Values.{value_at};

use crate::predicate::Comparison;
use row_value::{Cell, Column, ColumnKind, Schema};
use script_words::{Value, ValueFault, is_name, value_at};
use std::alloc::{AllocError, Global};
use std::str;

#[tactic(auto, unfolding(crate::specs::Words::comparison_at))]
pub(crate) fn comparison_at(word: &[u8]) -> Option<Comparison>
    ensures { result ≡ comparison_at word.now }
{
    match word {
        b"=" => Some(Comparison::Equal),
        b"!=" => Some(Comparison::NotEqual),
        b"<" => Some(Comparison::Less),
        b"<=" => Some(Comparison::LessOrEqual),
        b">" => Some(Comparison::Greater),
        b">=" => Some(Comparison::GreaterOrEqual),
        _ => None,
    }
}

fn first_object(columns: &[Column]) -> Option<usize>
    ensures value { result ≡ position (λ column. is_object column.kind) columns.now }
{
    columns
        .iter()
        .position(|column| matches!(column.kind, ColumnKind::Object))
}

/// How many columns stand before the first of objects.
fn cell_count(columns: &[Column]) -> usize
    ensures count { result ≡ cell_count columns.now }
    ensures within { result ≤ length columns.now }
{
    match first_object(columns) {
        Some(place) => place,
        None => columns.len(),
    }
}

fn number_of(columns: &[Column], word: &[u8]) -> Option<usize>
    ensures { result ≡ number_of columns.now word.now }
{
    columns[..cell_count(columns)]
        .iter()
        .position(|column| column.name.as_slice() == word)
}

fn numbered(columns: &[Column], number: usize) -> Option<(u32, ColumnKind)>
    ensures { result ≡ with_kind number (slice_get columns.now number) }
{
    let column = columns.get(number)?;
    let number = u32::try_from(number).ok()?;
    Some((number, column.kind))
}

fn is_name_word(word: &[u8]) -> bool
    ensures { result ≡ is_name word.now }
{
    match str::from_utf8(word) {
        Ok(word) => is_name(word),
        Err(_) => false,
    }
}

/// The number and the kind of the cell column that a word names.
#[tactic(auto, unfolding(crate::specs::Words::column_at))]
pub(crate) fn column_at(schema: &Schema, word: &[u8]) -> Option<(u32, ColumnKind)>
    ensures { result ≡ column_at schema.now word.now }
{
    if !is_name_word(word) {
        return None;
    }
    let columns = schema.columns.as_slice();
    numbered(columns, number_of(columns, word)?)
}

fn is_kind(kind: ColumnKind, cell: &Cell) -> bool
    ensures { result ≡ is_kind kind cell.now }
{
    matches!(
        (kind, cell),
        (ColumnKind::Int, Cell::Int(_))
            | (ColumnKind::Bool, Cell::Bool(_))
            | (ColumnKind::Text, Cell::Text(_))
    )
}

fn of_kind(kind: ColumnKind, value: Value) -> Option<Cell>
    ensures { result ≡ cell_in kind value }
{
    match value {
        Value::OfCell(cell) => {
            if is_kind(kind, &cell) {
                Some(cell)
            } else {
                None
            }
        }
        Value::OfObject(_object) => None,
    }
}

fn value_of(alloc: Global, word: &str) -> Result<Option<Value>, AllocError>
    ensures { IfOk result (λ found. found ≡ value_of (value_at word.now)) }
{
    match value_at(alloc, word) {
        Ok(value) => Ok(Some(value)),
        Err(ValueFault::Code(_code)) => Ok(None),
        Err(ValueFault::Memory) => Err(AllocError),
    }
}

/// The cell of a kind that a word spells.
#[tactic(auto, unfolding(crate::specs::Words::cell_at))]
pub(crate) fn cell_at(
    alloc: Global,
    kind: ColumnKind,
    word: &[u8],
) -> Result<Option<Cell>, AllocError>
    ensures { IfOk result (λ found. found ≡ cell_at kind word.now) }
{
    let Ok(word) = str::from_utf8(word) else {
        return Ok(None);
    };
    match value_of(alloc, word)? {
        Some(value) => Ok(of_kind(kind, value)),
        None => Ok(None),
    }
}
