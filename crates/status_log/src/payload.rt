//! The payloads of openings and closes.
ghost use Rattle.std.specs.Prelude.{◌≡◌, ◌+◌, ◌*◌, ◌<◌, ◌≤◌, ◌∷◌, length, take, drop, Some, None, IfOk, Ok};
ghost use Rattle.std.specs.Vec.{vec_capacity};
ghost use Rattle.stab_base.specs.Codec.{Reads, byte_at};
ghost use Rattle.status_log.specs.Entry.{entry_of, size_of, HasSpelling};
ghost use Rattle.status_log.specs.Payload.{open_payload, close_payload, opening_of, id_at, opening_at, is_whole, opens};
ghost use Rattle.status_log.specs.Payload.{closes};
ghost use Rattle.status_log.specs.Memory.{Says};

use crate::LogEntry;
use crate::names::write_names;
use stab_base::{
    ClientNo, NUMBER_MAX, RowId, TakeFault, Version, WriteNo, put_u8, put_u32, put_u64, take_u8,
    take_u32, take_u64,
};

/// What stands before the names of an opening.
#[derive(Clone, Copy)]
pub struct Opening {
    pub(crate) version: Version,
    pub(crate) row: RowId,
    pub(crate) client: ClientNo,
    pub(crate) number: WriteNo,
    pub(crate) base: Version,
    pub(crate) fresh: u32,
    // how many names follow
    pub(crate) count: u32,
}

/// What a payload does.
#[derive(Clone, Copy)]
pub enum Change {
    /// An entry is opened.
    Open(Opening),
    /// The entry of this version is closed.
    Close(Version),
    /// The payload is passed over.
    Nothing,
}

// How many bytes go before the names.
const HEAD_LEN: usize = 53;

fn id_of(front: &[u8]) -> RowId
    requires { 16 ≤ length front.now }
    ensures { result ≡ take 16 front.now }
{
    let mut id = [0u8; 16];
    id.copy_from_slice(&front[..16]);
    RowId::from_bytes(id)
}

#[tactic(auto, using(stab_base::proofs::Places::after))]
fn take_id(bytes: &[u8], at: usize) -> Result<(RowId, usize), TakeFault>
    requires { at ≤ length bytes.now }
    ensures value { Reads (λ x. (x.0, drop x.1 bytes.now)) result (id_at (drop at bytes.now)) }
    ensures behind { IfOk result (λ x. (x.1 ≡ at + 16) × (x.1 ≤ length bytes.now)) }
{
    let rest = &bytes[at..];
    if rest.len() < 16 {
        return Err(TakeFault::Short {
            need: 16,
            have: rest.len(),
        });
    }
    let id = id_of(rest);
    Ok((id, at + 16))
}

#[tactic(auto, unfolding(crate::specs::Payload::opening_at))]
fn take_opening(bytes: &[u8], at: usize) -> Result<(Opening, usize), TakeFault>
    requires { at ≤ length bytes.now }
    ensures value { Reads (λ x. (x.0, drop x.1 bytes.now)) result (opening_at (drop at bytes.now)) }
    ensures behind { IfOk result (λ x. (x.1 ≡ at + 52) × (x.1 ≤ length bytes.now)) }
{
    let (version, at) = take_u64(bytes, at)?;
    let (row, at) = take_id(bytes, at)?;
    let (client, at) = take_u32(bytes, at)?;
    let (number, at) = take_u64(bytes, at)?;
    let (base, at) = take_u64(bytes, at)?;
    let (fresh, at) = take_u32(bytes, at)?;
    let (count, at) = take_u32(bytes, at)?;
    let opening = Opening {
        version,
        row,
        client,
        number,
        base,
        fresh,
        count,
    };
    Ok((opening, at))
}

// Whether so many bytes are the names of an opening, and its client and version are within their limits.
fn is_whole(opening: &Opening, len: usize) -> bool
    ensures { result ≡ is_whole opening.now len }
{
    len == 12 * opening.count as usize
        && (1 <= opening.client && opening.client <= 64 && opening.version <= NUMBER_MAX)
}

#[tactic(auto, unfolding(crate::specs::Payload::opens, crate::specs::Payload::closes))]
fn opening_in(payload: &[u8]) -> Change
    requires some { 1 ≤ length payload.now }
    requires tag { byte_at payload.now ≡ Ok (1, drop 1 payload.now) }
    ensures { Says payload.now result }
{
    let Ok((opening, at)) = take_opening(payload, 1) else {
        return Change::Nothing;
    };
    if is_whole(&opening, payload.len() - at) {
        Change::Open(opening)
    } else {
        Change::Nothing
    }
}

#[tactic(auto, unfolding(crate::specs::Payload::opens, crate::specs::Payload::closes))]
fn close_in(payload: &[u8]) -> Change
    requires some { 1 ≤ length payload.now }
    requires tag { byte_at payload.now ≡ Ok (2, drop 1 payload.now) }
    ensures { Says payload.now result }
{
    match take_u64(payload, 1) {
        Ok((version, at)) if at == payload.len() && version <= NUMBER_MAX => Change::Close(version),
        _ => Change::Nothing,
    }
}

/// What this payload does.
#[tactic(auto, unfolding(crate::specs::Payload::opens, crate::specs::Payload::closes))]
pub(crate) fn change_in(payload: &[u8]) -> Change
    ensures { Says payload.now result }
{
    match take_u8(payload, 0) {
        Ok((1, _)) => opening_in(payload),
        Ok((2, _)) => close_in(payload),
        _ => Change::Nothing,
    }
}

/// What stands before the names of an entry.
pub(crate) fn opening_of(entry: &LogEntry) -> Opening
    requires { HasSpelling (entry_of entry.now) }
    ensures { result ≡ opening_of (entry_of entry.now) }
{
    Opening {
        version: entry.version,
        row: entry.row,
        client: entry.client,
        number: entry.number,
        base: entry.base,
        fresh: entry.fresh,
        count: entry.old.len() as u32,
    }
}

/// Writes an opening, in a buffer that has room for it.
pub(crate) fn write_open(payload: &mut Vec<u8>, entry: &LogEntry)
    requires spelled { HasSpelling (entry_of entry.now) }
    requires room { size_of (entry_of entry.now) ≤ vec_capacity payload.old }
    ensures items { payload.new.items ≡ open_payload (entry_of entry.now) }
    ensures len { length payload.new.items ≡ size_of (entry_of entry.now) }
    ensures capacity { vec_capacity payload.old ≤ vec_capacity payload.new }
{
    payload.clear();
    put_u8(payload, 1).unwrap();
    put_u64(payload, entry.version).unwrap();
    payload.extend_from_slice(&entry.row.to_bytes()).unwrap();
    put_u32(payload, entry.client).unwrap();
    put_u64(payload, entry.number).unwrap();
    put_u64(payload, entry.base).unwrap();
    put_u32(payload, entry.fresh).unwrap();
    write_names(payload, &entry.old);
}

/// Writes a close, in a buffer that has room for it.
pub(crate) fn write_close(payload: &mut Vec<u8>, version: Version)
    requires room { 9 ≤ vec_capacity payload.old }
    ensures items { payload.new.items ≡ close_payload version }
    ensures len { length payload.new.items ≡ 9 }
    ensures capacity { vec_capacity payload.old ≤ vec_capacity payload.new }
{
    payload.clear();
    put_u8(payload, 2).unwrap();
    put_u64(payload, version).unwrap();
}
