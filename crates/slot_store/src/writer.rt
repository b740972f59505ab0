//! Payloads of rows' slots and of tables' records.
ghost use Rattle.std.specs.Prelude.{◌≡◌, ◌+◌, ◌<◌, ◌≤◌, ◌++◌, length, IfOk, OnOk, OnErr};
ghost use Rattle.std.specs.Vec.{vec_capacity, vec_len};
ghost use Rattle.slot_store.specs.Spelling.{HasRowSpelling, row_payload, HasRecordSpelling, record_payload};

use crate::held::{RowSlots, TableRecord};
use field_codec::{put_eight, put_four, put_id};
use held_codec::put_slots;
use stab_base::put_u8;
use std::alloc::{AllocError, Global};
use value_codec::put_schema;

// Appends the payload of a row's slots, and a part of it where memory is refused.
fn put_row(out: &mut Vec<u8>, row: &RowSlots) -> Result<(), AllocError>
    requires { HasRowSpelling row.now }
    ensures ok { OnOk result (out.new.items ≡ out.old.items ++ row_payload row.now) }
    ensures full { OnErr result (vec_capacity out.old < vec_len out.old + length (row_payload row.now)) }
    ensures capacity { vec_capacity out.old ≤ vec_capacity out.new }
{
    put_u8(out, 1)?;
    put_four(out, row.table)?;
    put_id(out, &row.row)?;
    put_eight(out, row.last)?;
    put_slots(out, &row.slots)
}

// Appends the payload of a table's record, and a part of it where memory is refused.
fn put_record(out: &mut Vec<u8>, table: &TableRecord) -> Result<(), AllocError>
    requires { HasRecordSpelling table.now }
    ensures ok { OnOk result (out.new.items ≡ out.old.items ++ record_payload table.now) }
    ensures full { OnErr result (vec_capacity out.old < vec_len out.old + length (record_payload table.now)) }
    ensures capacity { vec_capacity out.old ≤ vec_capacity out.new }
{
    put_u8(out, 2)?;
    put_four(out, table.table)?;
    put_u8(out, table.state)?;
    put_schema(out, &table.schema)?;
    put_eight(out, table.position)
}

/// How many bytes the payload of a row's slots has. It spells it once, in memory of its own.
pub fn slots_size(alloc: Global, row: &RowSlots) -> Result<usize, AllocError>
    requires { HasRowSpelling row.now }
    ensures { IfOk result (λ size. size ≡ length (row_payload row.now)) }
{
    let mut payload = Vec::new(alloc);
    put_row(&mut payload, row)?;
    Ok(payload.len())
}

/// How many bytes the payload of a table's record has. It spells it once, in memory of its own.
pub fn record_size(alloc: Global, table: &TableRecord) -> Result<usize, AllocError>
    requires { HasRecordSpelling table.now }
    ensures { IfOk result (λ size. size ≡ length (record_payload table.now)) }
{
    let mut payload = Vec::new(alloc);
    put_record(&mut payload, table)?;
    Ok(payload.len())
}

/// Writes the slots of a row, in a buffer that has room for them.
pub(crate) fn write_row(payload: &mut Vec<u8>, row: &RowSlots)
    requires spelled { HasRowSpelling row.now }
    requires room { length (row_payload row.now) ≤ vec_capacity payload.old }
    ensures items { payload.new.items ≡ row_payload row.now }
    ensures capacity { vec_capacity payload.old ≤ vec_capacity payload.new }
{
    payload.clear();
    put_row(payload, row).unwrap();
}

/// Writes the record of a table, in a buffer that has room for it.
pub(crate) fn write_record(payload: &mut Vec<u8>, table: &TableRecord)
    requires spelled { HasRecordSpelling table.now }
    requires room { length (record_payload table.now) ≤ vec_capacity payload.old }
    ensures items { payload.new.items ≡ record_payload table.now }
    ensures capacity { vec_capacity payload.old ≤ vec_capacity payload.new }
{
    payload.clear();
    put_record(payload, table).unwrap();
}
