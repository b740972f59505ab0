//! Slots of rows and records of tables in payloads.
ghost use Rattle.std.specs.Prelude.{◌≡◌, ◌≤◌, length, drop, IfOk};
ghost use Rattle.value_codec.specs.Reading.{Gives, whole};
ghost use Rattle.value_codec.specs.SchemaReading.{schema_at};
ghost use Rattle.held_codec.specs.Reading.{slots_at};
ghost use Rattle.slot_store.specs.Reading.{row_fields_at, is_row, row_at, record_fields_at, is_record, record_at};
ghost use Rattle.slot_store.specs.Reading.{tag_at, row_in, record_in, schema_in};

use crate::held::{RowSlots, TABLE_MAX, TableRecord};
use held_codec::take_slots;
use held_value::Slots;
use row_value::Schema;
use stab_base::NUMBER_MAX;
use std::alloc::Global;
use value_codec::{SpellFault, take_byte, take_eight, take_four, take_id, take_schema};

// ---- slots of rows

fn read_slots(alloc: Global, bytes: &[u8], at: usize) -> Result<(Slots, usize), SpellFault>
    requires { at ≤ length bytes.now }
    ensures value { Gives bytes.now (λ x. (x.0, drop x.1 bytes.now)) result (slots_at (drop at bytes.now)) }
    ensures within { IfOk result (λ x. x.1 ≤ length bytes.now) }
{
    take_slots(alloc, bytes, at)
}

#[tactic(auto, unfolding(crate::specs::Reading::row_fields_at))]
fn take_row_fields(alloc: Global, bytes: &[u8], at: usize) -> Result<(RowSlots, usize), SpellFault>
    requires { at ≤ length bytes.now }
    ensures value { Gives bytes.now (λ x. (x.0, drop x.1 bytes.now)) result (row_fields_at (drop at bytes.now)) }
    ensures within { IfOk result (λ x. x.1 ≤ length bytes.now) }
{
    let (table, behind) = take_four(bytes, at)?;
    let (row, behind) = take_id(bytes, behind)?;
    let (last, behind) = take_eight(bytes, behind)?;
    let (slots, behind) = read_slots(alloc, bytes, behind)?;
    let row = RowSlots {
        table,
        row,
        last,
        slots,
    };
    Ok((row, behind))
}

fn is_row(row: &RowSlots) -> bool
    ensures { result ≡ is_row row.now }
{
    1 <= row.table && row.table <= TABLE_MAX && row.last <= NUMBER_MAX
}

#[tactic(auto, unfolding(crate::specs::Reading::row_at))]
fn take_row(alloc: Global, bytes: &[u8], at: usize) -> Result<(RowSlots, usize), SpellFault>
    requires { at ≤ length bytes.now }
    ensures value { Gives bytes.now (λ x. (x.0, drop x.1 bytes.now)) result (row_at (drop at bytes.now)) }
    ensures within { IfOk result (λ x. x.1 ≤ length bytes.now) }
{
    let (row, behind) = take_row_fields(alloc, bytes, at)?;
    if is_row(&row) {
        Ok((row, behind))
    } else {
        Err(SpellFault::Bad { at })
    }
}

// ---- records of tables

fn read_schema(alloc: Global, bytes: &[u8], at: usize) -> Result<(Schema, usize), SpellFault>
    requires { at ≤ length bytes.now }
    ensures value { Gives bytes.now (λ x. (x.0, drop x.1 bytes.now)) result (schema_at (drop at bytes.now)) }
    ensures within { IfOk result (λ x. x.1 ≤ length bytes.now) }
{
    take_schema(alloc, bytes, at)
}

#[tactic(auto, unfolding(crate::specs::Reading::record_fields_at))]
fn take_record_fields(
    alloc: Global,
    bytes: &[u8],
    at: usize,
) -> Result<(TableRecord, usize), SpellFault>
    requires { at ≤ length bytes.now }
    ensures value { Gives bytes.now (λ x. (x.0, drop x.1 bytes.now)) result (record_fields_at (drop at bytes.now)) }
    ensures within { IfOk result (λ x. x.1 ≤ length bytes.now) }
{
    let (table, behind) = take_four(bytes, at)?;
    let (state, behind) = take_byte(bytes, behind)?;
    let (schema, behind) = read_schema(alloc, bytes, behind)?;
    let (position, behind) = take_eight(bytes, behind)?;
    let table = TableRecord {
        table,
        state,
        schema,
        position,
    };
    Ok((table, behind))
}

fn is_record(table: &TableRecord) -> bool
    ensures { result ≡ is_record table.now }
{
    1 <= table.table && table.table <= TABLE_MAX && (1 <= table.state && table.state <= 2)
}

#[tactic(auto, unfolding(crate::specs::Reading::record_at))]
fn take_record(alloc: Global, bytes: &[u8], at: usize) -> Result<(TableRecord, usize), SpellFault>
    requires { at ≤ length bytes.now }
    ensures value { Gives bytes.now (λ x. (x.0, drop x.1 bytes.now)) result (record_at (drop at bytes.now)) }
    ensures within { IfOk result (λ x. x.1 ≤ length bytes.now) }
{
    let (table, behind) = take_record_fields(alloc, bytes, at)?;
    if is_record(&table) {
        Ok((table, behind))
    } else {
        Err(SpellFault::Bad { at })
    }
}

// ---- whole payloads

#[tactic(auto, unfolding(crate::specs::Reading::tag_at))]
fn skip_tag(payload: &[u8], tag: u8) -> Result<usize, SpellFault>
    ensures value { Gives payload.now (λ at. drop at payload.now) result (tag_at tag payload.now) }
    ensures within { IfOk result (λ at. at ≤ length payload.now) }
{
    let (first, at) = take_byte(payload, 0)?;
    if first == tag {
        Ok(at)
    } else {
        Err(SpellFault::Bad { at: 0 })
    }
}

/// The slots of a row in a payload.
#[tactic(auto, unfolding(crate::specs::Reading::row_in, value_codec::specs::Reading::whole))]
pub(crate) fn row_in(alloc: Global, payload: &[u8]) -> Result<RowSlots, SpellFault>
    ensures { Gives payload.now (λ x. x) result (row_in payload.now) }
{
    let at = skip_tag(payload, 1)?;
    let (row, end) = take_row(alloc, payload, at)?;
    if end < payload.len() {
        return Err(SpellFault::Bad { at: end });
    }
    Ok(row)
}

/// The record of a table in a payload.
#[tactic(auto, unfolding(crate::specs::Reading::record_in, value_codec::specs::Reading::whole))]
pub(crate) fn record_in(alloc: Global, payload: &[u8]) -> Result<TableRecord, SpellFault>
    ensures { Gives payload.now (λ x. x) result (record_in payload.now) }
{
    let at = skip_tag(payload, 2)?;
    let (table, end) = take_record(alloc, payload, at)?;
    if end < payload.len() {
        return Err(SpellFault::Bad { at: end });
    }
    Ok(table)
}

/// The schema that these bytes spell.
#[tactic(auto, unfolding(crate::specs::Reading::schema_in, value_codec::specs::Reading::whole))]
pub(crate) fn schema_in(alloc: Global, bytes: &[u8]) -> Result<Schema, SpellFault>
    ensures { Gives bytes.now (λ x. x) result (schema_in bytes.now) }
{
    let (schema, end) = read_schema(alloc, bytes, 0)?;
    if end < bytes.len() {
        return Err(SpellFault::Bad { at: end });
    }
    Ok(schema)
}
