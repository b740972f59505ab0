ghost use Rattle.std.specs.Prelude.{◌≡◌, ◌≤◌, ◌+◌, ◌-◌, ◌<◌, ◌^◌, ◌++◌, ◌∷◌, [], ℕ, List, length, take, drop, IfOk};
ghost use Rattle.std.specs.Prelude.{IfErr, Ok};
ghost use Rattle.std.specs.Int.{w32, w64};
ghost use Rattle.value_codec.specs.Reading.{Gives, byte_at, number_at, flag_at, id_at, utf8_at, text_at, exactly_at};
ghost use Rattle.value_codec.specs.FirstBad.{TellsPlace};

use crate::spell_fault::SpellFault;
use crate::utf8::skip_utf8;
use stab_base::{Bytes, RowId, take_u8, take_u32, take_u64};
use std::alloc::Global;

/// The byte at a place, and the place behind it.
#[tactic(auto, unfolding(crate::specs::Reading::byte_at, stab_base::specs::Codec::byte_at))]
pub fn take_byte(bytes: &[u8], at: usize) -> Result<(u8, usize), SpellFault>
    requires { at ≤ length bytes.now }
    ensures value { Gives bytes.now (λ x. (x.0, drop x.1 bytes.now)) result (byte_at (drop at bytes.now)) }
    ensures within { IfOk result (λ x. (x.1 ≡ at + 1) × (x.1 ≤ length bytes.now)) }
    ensures place { IfErr result TellsPlace }
{
    take_u8(bytes, at).map_err(|_| SpellFault::Bad { at: bytes.len() })
}

/// The number of four bytes at a place, and the place behind it.
pub fn take_four(bytes: &[u8], at: usize) -> Result<(u32, usize), SpellFault>
    requires { at ≤ length bytes.now }
    ensures value { Gives bytes.now (λ x. (x.0, drop x.1 bytes.now)) result (number_at w32 (drop at bytes.now)) }
    ensures within { IfOk result (λ x. (x.1 ≡ at + 4) × (x.1 ≤ length bytes.now)) }
    ensures place { IfErr result TellsPlace }
{
    match take_u32(bytes, at) {
        Ok(found) => Ok(found),
        Err(_) => Err(SpellFault::Bad { at: bytes.len() }),
    }
}

/// The number of eight bytes at a place, and the place behind it.
pub fn take_eight(bytes: &[u8], at: usize) -> Result<(u64, usize), SpellFault>
    requires { at ≤ length bytes.now }
    ensures value { Gives bytes.now (λ x. (x.0, drop x.1 bytes.now)) result (number_at w64 (drop at bytes.now)) }
    ensures within { IfOk result (λ x. (x.1 ≡ at + 8) × (x.1 ≤ length bytes.now)) }
    ensures place { IfErr result TellsPlace }
{
    match take_u64(bytes, at) {
        Ok(found) => Ok(found),
        Err(_) => Err(SpellFault::Bad { at: bytes.len() }),
    }
}

fn id_of(front: &[u8]) -> RowId
    requires { 16 ≤ length front.now }
    ensures { result ≡ take 16 front.now }
{
    let mut id = [0; 16];
    id.copy_from_slice(&front[..16]);
    RowId::from_bytes(id)
}

/// The row id at a place, and the place behind it.
#[tactic(auto, using(stab_base::proofs::Places::after), unfolding(crate::specs::Reading::id_at))]
pub fn take_id(bytes: &[u8], at: usize) -> Result<(RowId, usize), SpellFault>
    requires { at ≤ length bytes.now }
    ensures value { Gives bytes.now (λ x. (x.0, drop x.1 bytes.now)) result (id_at (drop at bytes.now)) }
    ensures within { IfOk result (λ x. (x.1 ≡ at + 16) × (x.1 ≤ length bytes.now)) }
    ensures place { IfErr result TellsPlace }
{
    let rest = &bytes[at..];
    if rest.len() < 16 {
        return Err(SpellFault::Bad { at: bytes.len() });
    }
    let id = id_of(rest);
    Ok((id, at + 16))
}

/// The flag at a place, and the place behind it.
#[tactic(auto, unfolding(crate::specs::Reading::flag_at))]
pub fn take_flag(bytes: &[u8], at: usize) -> Result<(bool, usize), SpellFault>
    requires { at ≤ length bytes.now }
    ensures value { Gives bytes.now (λ x. (x.0, drop x.1 bytes.now)) result (flag_at (drop at bytes.now)) }
    ensures within { IfOk result (λ x. x.1 ≤ length bytes.now) }
{
    let (flag, behind) = take_byte(bytes, at)?;
    match flag {
        0 => Ok((false, behind)),
        1 => Ok((true, behind)),
        _ => Err(SpellFault::Bad { at }),
    }
}

#[tactic(auto, unfolding(crate::specs::Reading::text_at, crate::specs::Reading::utf8_at))]
pub(crate) fn take_text(
    alloc: Global,
    bytes: &[u8],
    at: usize,
) -> Result<(Bytes, usize), SpellFault>
    requires { at ≤ length bytes.now }
    ensures value { Gives bytes.now (λ x. (x.0, drop x.1 bytes.now)) result (text_at (drop at bytes.now)) }
    ensures within { IfOk result (λ x. x.1 ≤ length bytes.now) }
{
    let (len, begin) = take_four(bytes, at)?;
    let end = skip_utf8(bytes, begin, len)?;
    let text = Bytes::from_slice(alloc, &bytes[begin..end])?;
    Ok((text, end))
}

/// The place behind these bytes, where they and no others stand. No memory is taken.
pub fn skip_exactly(bytes: &[u8], at: usize, text: &[u8]) -> Result<usize, SpellFault>
    requires { at ≤ length bytes.now }
    ensures value { Gives bytes.now (λ x. drop x bytes.now) result (exactly_at text.now (drop at bytes.now)) }
    ensures within { IfOk result (λ x. x ≤ length bytes.now) }
{
    let mut place = at;
    for byte in text {
        if place == bytes.len() {
            return Err(SpellFault::Bad { at: place });
        }
        if bytes[place] != *byte {
            return Err(SpellFault::Bad { at: place });
        }
        place += 1;
    }
    Ok(place)
}
