//! Where the spellings of schemas stand that are kept.
ghost use Rattle.std.specs.Prelude.{◌≡◌, ◌+◌, ◌≤◌, length, take, IfOk, IsOk, IsTrue};
ghost use Rattle.std.specs.Vec.{vec_capacity, vec_len};
ghost use Rattle.slot_store.specs.Memory.{IsWithin, between, schema_part};

use stab_base::{TableNo, Version};
use std::alloc::AllocError;

/// What is kept of the record of a table: its state and position, and where the spelling of its schema stands.
#[derive(Clone, Copy)]
pub struct RecordPlace {
    pub(crate) table: TableNo,
    pub(crate) state: u8,
    pub(crate) position: Version,
    pub(crate) start: usize,
    pub(crate) end: usize,
}

/// The bytes from one place up to another; none where they aren't there.
pub(crate) fn part(bytes: &[u8], start: usize, end: usize) -> &[u8]
    ensures { IsWithin start end bytes.now → result.now ≡ between start end bytes.now }
{
    if start <= end && end <= bytes.len() {
        &bytes[start..end]
    } else {
        &bytes[..0]
    }
}

// Whether these bytes stand from one place up to another.
fn stands(bytes: &[u8], start: usize, end: usize, spelled: &[u8]) -> bool
    ensures within { IsTrue result → IsWithin start end bytes.now }
    ensures same { IsTrue result → between start end bytes.now ≡ spelled.now }
{
    start <= end && end <= bytes.len() && &bytes[start..end] == spelled
}

/// Where the payload of a table spells the schema.
pub(crate) fn schema_part(payload: &[u8]) -> &[u8]
    requires { 14 ≤ length payload.now }
    ensures value { result.now ≡ schema_part payload.now }
    ensures shorter { length result.now ≤ length payload.now }
{
    &payload[6..payload.len() - 8]
}

/// Keeps the spelling of a schema, and answers where it stands: where the one before it does, if that is the same, or
/// behind all others.
pub(crate) fn keep_schema(
    schemas: &mut Vec<u8>,
    before: Option<RecordPlace>,
    spelled: &[u8],
) -> Result<(usize, usize), AllocError>
    ensures within { IfOk result (λ place. IsWithin place.0 place.1 schemas.new.items) }
    ensures same { IfOk result (λ place. between place.0 place.1 schemas.new.items ≡ spelled.now) }
    ensures others { take (length schemas.old.items) schemas.new.items ≡ schemas.old.items }
    ensures no_memory { vec_len schemas.old + length spelled.now ≤ vec_capacity schemas.old → IsOk result }
    ensures room { vec_len schemas.new ≤ vec_len schemas.old + length spelled.now }
    ensures capacity { vec_capacity schemas.old ≤ vec_capacity schemas.new }
{
    if let Some(place) = before {
        if stands(schemas, place.start, place.end, spelled) {
            return Ok((place.start, place.end));
        }
    }
    let start = schemas.len();
    schemas.extend_from_slice(spelled)?;
    Ok((start, schemas.len()))
}
