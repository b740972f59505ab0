//! The payloads of puts and drops.
ghost use Rattle.std.specs.Prelude.{◌≡◌, ◌+◌, ◌-◌, ◌<◌, ◌≤◌, ◌∷◌, ◌^◌, length, drop, Some, None};
ghost use Rattle.std.specs.Prelude.{IfOk};
ghost use Rattle.std.specs.Vec.{vec_capacity};
ghost use Rattle.stab_base.specs.Codec.{Reads};
ghost use Rattle.chunk_store.specs.Payload.{put_payload, drop_payload, head_at, change_of, spelled};
ghost use Rattle.chunk_store.specs.Index.{shape_of};

use stab_base::{
    Bytes, ChunkName, NUMBER_MAX, TakeFault, put_u8, put_u32, put_u64, take_u8, take_u32, take_u64,
};
use std::alloc::{AllocError, Global};

/// What a payload does.
#[derive(Clone, Copy)]
pub enum Change {
    /// The name's chunk is the bytes behind the name.
    Put(ChunkName),
    /// The name has no chunk.
    Gone(ChunkName),
}

// How many bytes go before a chunk's own.
const HEAD_LEN: usize = 13;

fn write_head(payload: &mut Vec<u8>, tag: u8, name: ChunkName)
    requires room { 13 ≤ vec_capacity payload.old }
    ensures items { payload.new.items ≡ tag ∷ spelled name }
    ensures ordinal { name.ordinal < 2 ^ 32 }
    ensures capacity { vec_capacity payload.old ≤ vec_capacity payload.new }
{
    payload.clear();
    put_u8(payload, tag).unwrap();
    put_u64(payload, name.version).unwrap();
    put_u32(payload, name.ordinal).unwrap();
}

/// Writes a put, in a buffer that has room for it.
pub(crate) fn write_put(payload: &mut Vec<u8>, name: ChunkName, bytes: &[u8])
    requires version { name.version ≤ NUMBER_MAX }
    requires room { 13 + length bytes.now ≤ vec_capacity payload.old }
    ensures items { payload.new.items ≡ put_payload name bytes.now }
    ensures change { change_of payload.new.items ≡ Some (name, Some bytes.now) }
    ensures len { length payload.new.items ≡ 13 + length bytes.now }
    ensures capacity { vec_capacity payload.old ≤ vec_capacity payload.new }
{
    write_head(payload, 1, name);
    payload.extend_from_slice(bytes).unwrap();
}

/// Writes a drop, in a buffer that has room for it.
pub(crate) fn write_drop(payload: &mut Vec<u8>, name: ChunkName)
    requires version { name.version ≤ NUMBER_MAX }
    requires room { 13 ≤ vec_capacity payload.old }
    ensures items { payload.new.items ≡ drop_payload name }
    ensures change { change_of payload.new.items ≡ Some (name, None) }
    ensures len { length payload.new.items ≡ 13 }
    ensures capacity { vec_capacity payload.old ≤ vec_capacity payload.new }
{
    write_head(payload, 2, name);
}

/// How many bytes the chunk has in the payload of a put.
pub(crate) fn chunk_len(payload: &[u8]) -> u64
    ensures { result ≡ length payload.now - 13 }
{
    payload.len().saturating_sub(HEAD_LEN) as u64
}

/// A copy of the chunk in the payload of a put.
pub(crate) fn chunk_behind(alloc: Global, payload: &[u8]) -> Result<Bytes, AllocError>
    requires { 13 ≤ length payload.now }
    ensures { IfOk result (λ bytes. bytes ≡ drop 13 payload.now) }
{
    Bytes::from_slice(alloc, &payload[HEAD_LEN..])
}

// The first byte and the name, and the place behind them.
#[tactic(auto, unfolding(crate::specs::Payload::head_at))]
fn take_head(payload: &[u8]) -> Result<(u8, ChunkName, usize), TakeFault>
    ensures value { Reads (λ x. (x.0, x.1, drop x.2 payload.now)) result (head_at payload.now) }
    ensures behind { IfOk result (λ x. (x.2 ≡ 13) × (13 ≤ length payload.now)) }
{
    let (tag, at) = take_u8(payload, 0)?;
    let (version, at) = take_u64(payload, at)?;
    let (ordinal, at) = take_u32(payload, at)?;
    Ok((tag, ChunkName { version, ordinal }, at))
}

/// What this payload does, or None where it is passed over.
#[tactic(auto, unfolding(crate::specs::Payload::change_of))]
pub(crate) fn change_in(payload: &[u8]) -> Option<Change>
    ensures { result ≡ shape_of (change_of payload.now) }
{
    let Ok((tag, name, at)) = take_head(payload) else {
        return None;
    };
    if name.version > NUMBER_MAX {
        return None;
    }
    match tag {
        1 => Some(Change::Put(name)),
        2 if at == payload.len() => Some(Change::Gone(name)),
        _ => None,
    }
}
