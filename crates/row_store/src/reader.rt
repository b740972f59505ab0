//! Rows, tables and subscriptions in payloads.
ghost use Rattle.std.specs.Prelude.{◌≡◌, ◌≤◌, ◌+◌, length, take, drop, IfOk, IfErr};
ghost use Rattle.std.specs.List.{list_all};
ghost use Rattle.value_codec.specs.Reading.{Gives, content_at, items_at, list_at, whole};
ghost use Rattle.value_codec.specs.SchemaReading.{schema_at};
ghost use Rattle.value_codec.specs.FirstBad.{TellsPlace};
ghost use Rattle.row_store.specs.Spelling.{is_keep, all_keep};
ghost use Rattle.row_store.specs.Reading.{id_at, last_in, after_last, is_allowed, stored_at, table_at, terms_if};
ghost use Rattle.row_store.specs.Reading.{sub_at, tag_at, row_in, table_in, sub_in};

use crate::stored::{LastWrite, LastWrites, StoredRow, SubChange, Terms};
use row_value::{Piece, PieceContent, PieceObject, Schema};
use stab_base::{ClientNo, NUMBER_MAX, RowId, Sequence};
use std::alloc::Global;
use value_codec::{
    SpellFault, take_byte, take_content, take_eight, take_flag, take_four, take_schema,
};

// ---- rows

fn id_of(front: &[u8]) -> RowId
    requires { 16 ≤ length front.now }
    ensures { result ≡ take 16 front.now }
{
    let mut id = [0u8; 16];
    id.copy_from_slice(&front[..16]);
    RowId::from_bytes(id)
}

#[tactic(auto, using(stab_base::proofs::Places::after), unfolding(crate::specs::Reading::id_at))]
fn take_id(bytes: &[u8], at: usize) -> Result<(RowId, usize), SpellFault>
    requires { at ≤ length bytes.now }
    ensures value { Gives bytes.now (λ x. (x.0, drop x.1 bytes.now)) result (id_at (drop at bytes.now)) }
    ensures within { IfOk result (λ x. x.1 ≤ length bytes.now) }
    ensures place { IfErr result TellsPlace }
{
    let rest = &bytes[at..];
    if rest.len() < 16 {
        return Err(SpellFault::Bad { at: bytes.len() });
    }
    let id = id_of(rest);
    Ok((id, at + 16))
}

#[tactic(auto, unfolding(crate::specs::Reading::last_in))]
fn take_last(bytes: &[u8], at: usize, before: ClientNo) -> Result<(LastWrite, usize), SpellFault>
    requires { at ≤ length bytes.now }
    ensures value { Gives bytes.now (λ x. (x.0, drop x.1 bytes.now)) result (last_in before (drop at bytes.now)) }
    ensures within { IfOk result (λ x. x.1 ≤ length bytes.now) }
{
    let (client, behind) = take_four(bytes, at)?;
    let (number, behind) = take_eight(bytes, behind)?;
    let (version, behind) = take_eight(bytes, behind)?;
    if before < client && client <= 64 {
        let last = LastWrite {
            client,
            number,
            version,
        };
        Ok((last, behind))
    } else {
        Err(SpellFault::Bad { at })
    }
}

fn take_last_items(
    alloc: Global,
    bytes: &[u8],
    at: usize,
    count: u32,
) -> Result<(LastWrites, usize), SpellFault>
    requires { at ≤ length bytes.now }
    ensures value { Gives bytes.now (λ x. (x.0, drop x.1 bytes.now))
        result (items_at after_last last_in 0 count (drop at bytes.now)) }
    ensures within { IfOk result (λ x. x.1 ≤ length bytes.now) }
{
    let mut lasts = Sequence::new(alloc);
    let mut place = at;
    let mut before = 0;
    for _ in 0..count {
        let (last, behind) = take_last(bytes, place, before)?;
        before = last.client;
        lasts.push(last)?;
        place = behind;
    }
    Ok((lasts, place))
}

#[tactic(auto, unfolding(value_codec::specs::Reading::list_at))]
fn take_lasts(alloc: Global, bytes: &[u8], at: usize) -> Result<(LastWrites, usize), SpellFault>
    requires { at ≤ length bytes.now }
    ensures value { Gives bytes.now (λ x. (x.0, drop x.1 bytes.now))
        result (list_at after_last last_in 0 (drop at bytes.now)) }
    ensures within { IfOk result (λ x. x.1 ≤ length bytes.now) }
{
    let (count, begin) = take_four(bytes, at)?;
    take_last_items(alloc, bytes, begin, count)
}

fn read_content(alloc: Global, bytes: &[u8], at: usize) -> Result<(PieceContent, usize), SpellFault>
    requires { at ≤ length bytes.now }
    ensures value { Gives bytes.now (λ x. (x.0, drop x.1 bytes.now)) result (content_at (drop at bytes.now)) }
    ensures within { IfOk result (λ x. x.1 ≤ length bytes.now) }
{
    take_content(alloc, bytes, at)
}

fn is_keep(piece: &Piece) -> bool
    ensures { result ≡ is_keep piece.now }
{
    match piece {
        Piece::Keep(_) => true,
        Piece::Fresh(_) => false,
    }
}

fn keeps(object: &PieceObject) -> bool
    ensures { result ≡ list_all is_keep object.now.pieces }
{
    object.pieces.iter().all(is_keep)
}

fn each_keeps(objects: &[PieceObject]) -> bool
    ensures { result ≡ list_all (λ object. list_all is_keep object.pieces) objects.now }
{
    objects.iter().all(keeps)
}

/// Whether each piece of a content names a chunk.
pub fn all_keep(content: &PieceContent) -> bool
    ensures { result ≡ all_keep content.now }
{
    match content {
        PieceContent::Gone => true,
        PieceContent::Row { objects, .. } => each_keeps(objects.as_slice()),
    }
}

fn is_allowed(stored: &StoredRow) -> bool
    ensures { result ≡ is_allowed stored.now }
{
    all_keep(&stored.content) && stored.version <= NUMBER_MAX
}

#[tactic(auto, unfolding(crate::specs::Reading::stored_at))]
fn take_stored(alloc: Global, bytes: &[u8], at: usize) -> Result<(StoredRow, usize), SpellFault>
    requires { at ≤ length bytes.now }
    ensures value { Gives bytes.now (λ x. (x.0, drop x.1 bytes.now)) result (stored_at (drop at bytes.now)) }
    ensures within { IfOk result (λ x. x.1 ≤ length bytes.now) }
{
    let (row, behind) = take_id(bytes, at)?;
    let (version, behind) = take_eight(bytes, behind)?;
    let (content, behind) = read_content(alloc, bytes, behind)?;
    let (pairs, behind) = take_lasts(alloc, bytes, behind)?;
    let stored = StoredRow {
        row,
        version,
        content,
        pairs,
    };
    if is_allowed(&stored) {
        Ok((stored, behind))
    } else {
        Err(SpellFault::Bad { at })
    }
}

// ---- tables and subscriptions

fn read_schema(alloc: Global, bytes: &[u8], at: usize) -> Result<(Schema, usize), SpellFault>
    requires { at ≤ length bytes.now }
    ensures value { Gives bytes.now (λ x. (x.0, drop x.1 bytes.now)) result (schema_at (drop at bytes.now)) }
    ensures within { IfOk result (λ x. x.1 ≤ length bytes.now) }
{
    take_schema(alloc, bytes, at)
}

#[tactic(auto, unfolding(crate::specs::Reading::table_at))]
fn take_table(alloc: Global, bytes: &[u8], at: usize) -> Result<((Schema, u8), usize), SpellFault>
    requires { at ≤ length bytes.now }
    ensures value { Gives bytes.now (λ x. (x.0, drop x.1 bytes.now)) result (table_at (drop at bytes.now)) }
    ensures within { IfOk result (λ x. x.1 ≤ length bytes.now) }
{
    let (schema, begin) = read_schema(alloc, bytes, at)?;
    let (state, behind) = take_byte(bytes, begin)?;
    if 1 <= state && state <= 3 {
        Ok(((schema, state), behind))
    } else {
        Err(SpellFault::Bad { at: begin })
    }
}

/// The terms of a client that subscribes.
pub(crate) fn terms_if(on: bool, terms: Terms) -> Option<Terms>
    ensures { result ≡ terms_if on terms }
{
    if on { Some(terms) } else { None }
}

#[tactic(auto, unfolding(crate::specs::Reading::sub_at))]
fn take_sub(bytes: &[u8], at: usize) -> Result<(SubChange, usize), SpellFault>
    requires { at ≤ length bytes.now }
    ensures value { Gives bytes.now (λ x. (x.0, drop x.1 bytes.now)) result (sub_at (drop at bytes.now)) }
    ensures within { IfOk result (λ x. x.1 ≤ length bytes.now) }
{
    let (client, behind) = take_four(bytes, at)?;
    let (on, behind) = take_flag(bytes, behind)?;
    let (gate, behind) = take_four(bytes, behind)?;
    let (period, behind) = take_four(bytes, behind)?;
    let (tolerance, behind) = take_four(bytes, behind)?;
    if 1 <= client && client <= 64 {
        let terms = Terms {
            gate,
            period,
            tolerance,
        };
        let change = SubChange {
            client,
            terms: terms_if(on, terms),
        };
        Ok((change, behind))
    } else {
        Err(SpellFault::Bad { at })
    }
}

// ---- whole payloads

#[tactic(auto, unfolding(crate::specs::Reading::tag_at))]
fn skip_tag(payload: &[u8], tag: u8) -> Result<usize, SpellFault>
    ensures value { Gives payload.now (λ at. drop at payload.now) result (tag_at tag payload.now) }
    ensures within { IfOk result (λ at. at ≤ length payload.now) }
{
    let (first, at) = take_byte(payload, 0)?;
    if first == tag {
        Ok(at)
    } else {
        Err(SpellFault::Bad { at: 0 })
    }
}

/// The row in a payload.
#[tactic(auto, unfolding(crate::specs::Reading::row_in, value_codec::specs::Reading::whole))]
pub(crate) fn row_in(alloc: Global, payload: &[u8]) -> Result<StoredRow, SpellFault>
    ensures { Gives payload.now (λ x. x) result (row_in payload.now) }
{
    let at = skip_tag(payload, 1)?;
    let (stored, end) = take_stored(alloc, payload, at)?;
    if end < payload.len() {
        return Err(SpellFault::Bad { at: end });
    }
    Ok(stored)
}

/// The table's schema and state in a payload.
#[tactic(auto, unfolding(crate::specs::Reading::table_in, value_codec::specs::Reading::whole))]
pub(crate) fn table_in(alloc: Global, payload: &[u8]) -> Result<(Schema, u8), SpellFault>
    ensures { Gives payload.now (λ x. x) result (table_in payload.now) }
{
    let at = skip_tag(payload, 2)?;
    let (table, end) = take_table(alloc, payload, at)?;
    if end < payload.len() {
        return Err(SpellFault::Bad { at: end });
    }
    Ok(table)
}

/// The subscription in a payload.
#[tactic(auto, unfolding(crate::specs::Reading::sub_in, value_codec::specs::Reading::whole))]
pub(crate) fn sub_in(payload: &[u8]) -> Result<SubChange, SpellFault>
    ensures { Gives payload.now (λ x. x) result (sub_in payload.now) }
{
    let at = skip_tag(payload, 3)?;
    let (change, end) = take_sub(payload, at)?;
    if end < payload.len() {
        return Err(SpellFault::Bad { at: end });
    }
    Ok(change)
}
