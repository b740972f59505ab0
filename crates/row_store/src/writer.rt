//! Payloads of rows, tables and subscriptions.
ghost use Rattle.std.specs.Prelude.{◌≡◌, ◌+◌, ◌*◌, ◌<◌, ◌≤◌, ◌++◌, length};
ghost use Rattle.std.specs.Vec.{vec_capacity, vec_len};
ghost use Rattle.value_codec.specs.Spelling.{list_spelling};
ghost use Rattle.value_codec.specs.SchemaSpelling.{HasSchemaSpelling};
ghost use Rattle.row_store.specs.Spelling.{last_spelling, HasStoredSpelling, row_payload, IsState, table_payload};
ghost use Rattle.row_store.specs.Spelling.{sub_payload};

use crate::stored::{LastWrite, StoredRow, Terms};
use row_value::Schema;
use stab_base::{ClientNo, put_u8, put_u32, put_u64};
use value_codec::{put_content, put_schema};

fn write_last(payload: &mut Vec<u8>, last: LastWrite)
    requires room { vec_len payload.old + 20 ≤ vec_capacity payload.old }
    ensures items { payload.new.items ≡ payload.old.items ++ last_spelling last }
    ensures len { vec_len payload.new ≡ vec_len payload.old + 20 }
    ensures capacity { vec_capacity payload.old ≤ vec_capacity payload.new }
{
    put_u32(payload, last.client).unwrap();
    put_u64(payload, last.number).unwrap();
    put_u64(payload, last.version).unwrap();
}

fn write_lasts(payload: &mut Vec<u8>, lasts: &[LastWrite])
    requires count { length lasts.now ≤ 64 }
    requires room { vec_len payload.old + 4 + 20 * length lasts.now ≤ vec_capacity payload.old }
    ensures items { payload.new.items ≡ payload.old.items ++ list_spelling last_spelling lasts.now }
    ensures capacity { vec_capacity payload.old ≤ vec_capacity payload.new }
{
    put_u32(payload, lasts.len() as u32).unwrap();
    for last in lasts {
        write_last(payload, *last);
    }
}

/// Writes a row, in a buffer that has room for it.
pub(crate) fn write_row(payload: &mut Vec<u8>, stored: &StoredRow)
    requires spelled { HasStoredSpelling stored.now }
    requires room { length (row_payload stored.now) ≤ vec_capacity payload.old }
    ensures items { payload.new.items ≡ row_payload stored.now }
    ensures capacity { vec_capacity payload.old ≤ vec_capacity payload.new }
{
    payload.clear();
    put_u8(payload, 1).unwrap();
    payload.extend_from_slice(&stored.row.to_bytes()).unwrap();
    put_u64(payload, stored.version).unwrap();
    put_content(payload, &stored.content).unwrap();
    write_lasts(payload, stored.pairs.as_slice());
}

/// Writes a table, in a buffer that has room for it.
pub(crate) fn write_table(payload: &mut Vec<u8>, schema: &Schema, state: u8)
    requires spelled { HasSchemaSpelling schema.now }
    requires room { length (table_payload schema.now state) ≤ vec_capacity payload.old }
    ensures items { payload.new.items ≡ table_payload schema.now state }
    ensures capacity { vec_capacity payload.old ≤ vec_capacity payload.new }
{
    payload.clear();
    put_u8(payload, 2).unwrap();
    put_schema(payload, schema).unwrap();
    put_u8(payload, state).unwrap();
}

/// Writes a subscription, in a buffer that has room for it.
pub(crate) fn write_sub(payload: &mut Vec<u8>, client: ClientNo, on: bool, terms: Terms)
    requires room { 18 ≤ vec_capacity payload.old }
    ensures items { payload.new.items ≡ sub_payload client on terms }
    ensures len { length payload.new.items ≡ 18 }
    ensures capacity { vec_capacity payload.old ≤ vec_capacity payload.new }
{
    payload.clear();
    put_u8(payload, 3).unwrap();
    put_u32(payload, client).unwrap();
    put_u8(payload, if on { 1 } else { 0 }).unwrap();
    put_u32(payload, terms.gate).unwrap();
    put_u32(payload, terms.period).unwrap();
    put_u32(payload, terms.tolerance).unwrap();
}
