//! A table's state as its record has it, and whether a record is there.
ghost use Rattle.std.specs.Prelude.{◌≡◌, ◌↔◌, IsTrue, Some};
ghost use Rattle.device_laws.specs.Stands.{state_number};
ghost use Rattle.store_node.specs.Devices.{state_of, state_in};

use row_value::{Column, Schema};
use table_model::TableState;

/// A state as the record of a table has it.
pub(crate) fn number_of(state: TableState) -> u8
    ensures { result ≡ state_number state }
{
    match state {
        TableState::Draft => 1,
        TableState::Live => 2,
        TableState::Dropped => 3,
    }
}

fn state_of(number: u8) -> TableState
    ensures { result ≡ state_of number }
{
    if number == 1 {
        return TableState::Draft;
    }
    if number == 2 {
        return TableState::Live;
    }
    TableState::Dropped
}

/// The state that a record has.
pub(crate) fn state_in(found: &Option<(Schema, u8)>) -> TableState
    ensures { result ≡ state_in found.now }
{
    match found {
        Some((_, number)) => state_of(*number),
        None => TableState::Draft,
    }
}

fn is_column(found: &Column, column: &Column) -> bool
    ensures { IsTrue result ↔ (found.now ≡ column.now) }
{
    found.kind == column.kind && found.name.as_slice() == column.name.as_slice()
}

fn are_columns(found: &[Column], columns: &[Column]) -> bool
    ensures { IsTrue result ↔ (found.now ≡ columns.now) }
{
    if found.len() != columns.len() {
        return false;
    }
    for (place, column) in columns.iter().enumerate() {
        if !is_column(&found[place], column) {
            return false;
        }
    }
    true
}

fn is_schema(found: &Schema, schema: &Schema) -> bool
    ensures { IsTrue result ↔ (found.now ≡ schema.now) }
{
    found.scheme == schema.scheme
        && found.chunk == schema.chunk
        && found.name.as_slice() == schema.name.as_slice()
        && are_columns(found.columns.as_slice(), schema.columns.as_slice())
}

/// Whether this is the record of a table with this schema, in this state.
pub(crate) fn is_put(found: &Option<(Schema, u8)>, schema: &Schema, state: TableState) -> bool
    ensures { IsTrue result ↔ (found.now ≡ Some (schema.now, state_number state)) }
{
    match found {
        Some((found, number)) => *number == number_of(state) && is_schema(found, schema),
        None => false,
    }
}
