ghost use Rattle.std.specs.Prelude.{◌≡◌};
ghost use Rattle.select_lang.specs.Meets.{order_of, passes, is_met_by, tests, meets, holds};

use crate::predicate::{Comparison, Predicate};
use row_value::{Cell, Content, Schema};
use std::cmp::Ordering;

fn order_of(cell: &Cell, value: &Cell) -> Option<Ordering>
    ensures { result ≡ order_of cell.now value.now }
{
    match (cell, value) {
        (Cell::Int(a), Cell::Int(b)) => Some(a.cmp(b)),
        (Cell::Bool(a), Cell::Bool(b)) => Some(a.cmp(b)),
        (Cell::Text(a), Cell::Text(b)) => Some(a.as_slice().cmp(&b.as_slice())),
        _ => None,
    }
}

fn passes(comparison: Comparison, order: Ordering) -> bool
    ensures { result ≡ passes comparison order }
{
    match comparison {
        Comparison::Equal => order.is_eq(),
        Comparison::NotEqual => order.is_ne(),
        Comparison::Less => order.is_lt(),
        Comparison::LessOrEqual => order.is_le(),
        Comparison::Greater => order.is_gt(),
        Comparison::GreaterOrEqual => order.is_ge(),
    }
}

fn is_met_by(comparison: Comparison, cell: &Cell, value: &Cell) -> bool
    ensures { result ≡ is_met_by comparison cell.now value.now }
{
    match order_of(cell, value) {
        None => false,
        Some(order) => passes(comparison, order),
    }
}

fn tests(cells: &[Cell], column: u32, comparison: Comparison, value: &Cell) -> bool
    ensures { result ≡ tests cells.now column comparison value.now }
{
    match cells.get(column as usize) {
        None => false,
        Some(cell) => is_met_by(comparison, cell, value),
    }
}

fn meets(predicate: &Predicate, cells: &[Cell]) -> bool
    ensures { result ≡ meets cells.now predicate.now }
{
    match predicate {
        Predicate::Any(some) => {
            'any: for part in some {
                if meets(part, cells) {
                    return true;
                }
            }
            false
        }
        Predicate::All(all) => {
            'all: for part in all {
                if !meets(part, cells) {
                    return false;
                }
            }
            true
        }
        Predicate::Not(part) => !meets(part, cells),
        Predicate::Test {
            column,
            comparison,
            value,
        } => tests(cells, *column, *comparison, value),
    }
}

/// Whether a row of the table meets the predicate. A deleted row meets none. Numbers compare as numbers, `false` is
/// below `true`, and text compares by its bytes; a cell of another kind than the value, and one that isn't there, meet
/// no test.
pub fn holds(_schema: &Schema, predicate: &Predicate, content: &Content) -> bool
    ensures { result ≡ holds predicate.now content.now }
{
    match content {
        Content::Gone => false,
        Content::Row { cells, objects: _ } => meets(predicate, cells.as_slice()),
    }
}
