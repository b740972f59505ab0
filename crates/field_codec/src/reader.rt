ghost use Rattle.std.specs.Prelude.{◌≡◌, ◌≤◌, ◌<◌, ◌+◌, ◌*◌, ◌^◌, length, drop, IfOk};
ghost use Rattle.value_codec.specs.Reading.{Gives};
ghost use Rattle.field_codec.specs.Fields.{byte_if, may_be, ranged_at, bytes_at};

use stab_base::Bytes;
use std::alloc::Global;
use value_codec::{SpellFault, take_byte};

/// Whether a number from `least` to `most` begins with these digits, of which the last is worth so much.
fn may_be(least: u32, most: u32, worth: u32, digits: u64) -> bool
    requires { digits < 2 ^ 32 }
    ensures { result ≡ may_be least most worth digits }
{
    let worth = u64::from(worth);
    digits * worth <= u64::from(most) && u64::from(least) < (digits + 1) * worth
}

/// The digits with one more, where a number from `least` to `most` begins so.
#[tactic(auto, unfolding(crate::specs::Fields::byte_if))]
fn take_digit(
    bytes: &[u8],
    at: usize,
    digits: u64,
    worth: u32,
    least: u32,
    most: u32,
) -> Result<(u8, usize), SpellFault>
    requires within { at ≤ length bytes.now }
    requires few { digits < 2 ^ 24 }
    ensures value { Gives bytes.now (λ x. (x.0, drop x.1 bytes.now)) result
        (byte_if (λ b. may_be least most worth (digits * 256 + b)) (drop at bytes.now)) }
    ensures behind { IfOk result (λ x. x.1 ≤ length bytes.now) }
{
    let (digit, behind) = take_byte(bytes, at)?;
    if may_be(least, most, worth, digits * 256 + digit as u64) {
        Ok((digit, behind))
    } else {
        Err(SpellFault::Bad { at })
    }
}

/// A number from `least` to `most`, in four bytes.
#[tactic(auto, unfolding(crate::specs::Fields::ranged_at))]
pub fn take_ranged(
    bytes: &[u8],
    at: usize,
    least: u32,
    most: u32,
) -> Result<(u32, usize), SpellFault>
    requires { at ≤ length bytes.now }
    ensures value { Gives bytes.now (λ x. (x.0, drop x.1 bytes.now)) result
        (ranged_at least most (drop at bytes.now)) }
    ensures within { IfOk result (λ x. x.1 ≤ length bytes.now) }
{
    let (a, behind) = take_digit(bytes, at, 0, 16_777_216, least, most)?;
    let digits = a as u64;
    let (b, behind) = take_digit(bytes, behind, digits, 65_536, least, most)?;
    let digits = digits * 256 + b as u64;
    let (c, behind) = take_digit(bytes, behind, digits, 256, least, most)?;
    let digits = digits * 256 + c as u64;
    let (d, behind) = take_digit(bytes, behind, digits, 1, least, most)?;
    Ok(((digits * 256 + d as u64) as u32, behind))
}

/// So many bytes.
#[tactic(auto, using(stab_base::proofs::Places::after), unfolding(crate::specs::Fields::bytes_at))]
pub fn take_bytes_of(
    alloc: Global,
    bytes: &[u8],
    at: usize,
    len: u32,
) -> Result<(Bytes, usize), SpellFault>
    requires { at ≤ length bytes.now }
    ensures value { Gives bytes.now (λ x. (x.0, drop x.1 bytes.now)) result (bytes_at len (drop at bytes.now)) }
    ensures within { IfOk result (λ x. x.1 ≤ length bytes.now) }
{
    let size = len as usize;
    let rest = &bytes[at..];
    if rest.len() < size {
        return Err(SpellFault::Bad { at: bytes.len() });
    }
    Ok((Bytes::from_slice(alloc, &rest[..size])?, at + size))
}
