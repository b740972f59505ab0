//! Numbers and counted bytes, as they are spelled in every file and message: numbers big-endian, bytes behind a
//! `u32` of their length.
ghost use Rattle.std.specs.Prelude.{ℕ, List, Ok, ◌≡◌, ◌+◌, ◌-◌, ◌≤◌, ◌<◌, ◌^◌, ◌++◌, ◌∷◌, [], length, take, drop, IfOk};
ghost use Rattle.std.specs.Prelude.{OnOk, OnErr};
ghost use Rattle.std.specs.Vec.{vec_capacity, vec_len};
ghost use Rattle.std.specs.Int.{w32, w64, from_be_bytes, to_be_bytes};
ghost use Rattle.stab_base.specs.Codec.{Reads, byte_at, number_at, counted_at, counted, IsBytes};

use std::alloc::AllocError;
use thiserror::Error;

/// Why the bytes at a place aren't what is asked for.
#[derive(Debug, Drop, Clone, Copy, PartialEq, Eq, Error)]
pub enum TakeFault {
    /// Fewer than `need` bytes are left there.
    #[error("{need} bytes are needed and {have} are left")]
    Short { need: usize, have: usize },
    /// The length that stands there is above what is allowed.
    #[error("a length of {len} is above the limit")]
    TooLong { len: u32 },
}

/// Appends one byte.
pub fn put_u8(out: &mut Vec<u8>, n: u8) -> Result<(), AllocError>
    ensures ok { OnOk result (out.new.items ≡ out.old.items ++ n ∷ []) }
    ensures err { OnErr result (out.new.items ≡ out.old.items) }
    ensures full { OnErr result (vec_capacity out.old < vec_len out.old + 1) }
    ensures capacity { vec_capacity out.old ≤ vec_capacity out.new }
{
    out.push(n)?;
    Ok(())
}

/// Appends four bytes.
pub fn put_u32(out: &mut Vec<u8>, n: u32) -> Result<(), AllocError>
    ensures ok { OnOk result (out.new.items ≡ out.old.items ++ to_be_bytes w32 n) }
    ensures err { OnErr result (out.new.items ≡ out.old.items) }
    ensures full { OnErr result (vec_capacity out.old < vec_len out.old + 4) }
    ensures capacity { vec_capacity out.old ≤ vec_capacity out.new }
{
    out.extend_from_slice(&n.to_be_bytes())
}

/// Appends eight bytes.
pub fn put_u64(out: &mut Vec<u8>, n: u64) -> Result<(), AllocError>
    ensures ok { OnOk result (out.new.items ≡ out.old.items ++ to_be_bytes w64 n) }
    ensures err { OnErr result (out.new.items ≡ out.old.items) }
    ensures full { OnErr result (vec_capacity out.old < vec_len out.old + 8) }
    ensures capacity { vec_capacity out.old ≤ vec_capacity out.new }
{
    out.extend_from_slice(&n.to_be_bytes())
}

/// Appends four bytes of length, and the bytes.
pub fn put_bytes(out: &mut Vec<u8>, bytes: &[u8]) -> Result<(), AllocError>
    requires { length bytes.now < 2 ^ 32 }
    ensures ok { OnOk result (out.new.items ≡ out.old.items ++ counted bytes.now) }
    ensures err { OnErr result (out.new.items ≡ out.old.items) }
    ensures full { OnErr result (vec_capacity out.old < vec_len out.old + (4 + length bytes.now)) }
    ensures capacity { vec_capacity out.old ≤ vec_capacity out.new }
{
    out.reserve(bytes.len() + 4)?;
    let len = bytes.len() as u32;
    out.extend_from_slice(&len.to_be_bytes()).unwrap();
    out.extend_from_slice(bytes).unwrap();
    Ok(())
}

/// The byte at a place, and the place behind it.
#[tactic(auto, using(crate::proofs::Places::after), unfolding(crate::specs::Codec::byte_at))]
pub fn take_u8(bytes: &[u8], at: usize) -> Result<(u8, usize), TakeFault>
    requires { at ≤ length bytes.now }
    ensures value { Reads (λ x. (x.0, drop x.1 bytes.now)) result (byte_at (drop at bytes.now)) }
    ensures behind { IfOk result (λ x. (x.1 ≡ at + 1) × (x.1 ≤ length bytes.now)) }
{
    let rest = &bytes[at..];
    if rest.is_empty() {
        return Err(TakeFault::Short { need: 1, have: 0 });
    }
    Ok((rest[0], at + 1))
}

/// The number that four bytes spell at a place, and the place behind them.
#[tactic(auto, using(crate::proofs::Places::after))]
pub fn take_u32(bytes: &[u8], at: usize) -> Result<(u32, usize), TakeFault>
    requires { at ≤ length bytes.now }
    ensures value { Reads (λ x. (x.0, drop x.1 bytes.now)) result (number_at w32 (drop at bytes.now)) }
    ensures behind { IfOk result (λ x. (x.1 ≡ at + 4) × (x.1 ≤ length bytes.now)) }
{
    let rest = &bytes[at..];
    if rest.len() < 4 {
        return Err(TakeFault::Short {
            need: 4,
            have: rest.len(),
        });
    }
    let n = u32::from_be_bytes([rest[0], rest[1], rest[2], rest[3]]);
    Ok((n, at + 4))
}

fn u64_of(front: &[u8]) -> u64
    requires { 8 ≤ length front.now }
    ensures { result ≡ from_be_bytes w64 (take 8 front.now) }
{
    u64::from_be_bytes([
        front[0], front[1], front[2], front[3], front[4], front[5], front[6], front[7],
    ])
}

/// The number that eight bytes spell at a place, and the place behind them.
#[tactic(auto, using(crate::proofs::Places::after))]
pub fn take_u64(bytes: &[u8], at: usize) -> Result<(u64, usize), TakeFault>
    requires { at ≤ length bytes.now }
    ensures value { Reads (λ x. (x.0, drop x.1 bytes.now)) result (number_at w64 (drop at bytes.now)) }
    ensures behind { IfOk result (λ x. (x.1 ≡ at + 8) × (x.1 ≤ length bytes.now)) }
{
    let rest = &bytes[at..];
    if rest.len() < 8 {
        return Err(TakeFault::Short {
            need: 8,
            have: rest.len(),
        });
    }
    let n = u64_of(rest);
    Ok((n, at + 8))
}

/// Where the bytes that stand behind their length begin, and the place behind them. A length above `most` is
/// `TooLong`, whatever follows it.
#[tactic(auto, using(crate::proofs::Places::after), unfolding(crate::specs::Codec::counted_at))]
pub fn take_bytes(bytes: &[u8], at: usize, most: u32) -> Result<(usize, usize), TakeFault>
    requires { at ≤ length bytes.now }
    ensures value { Reads (λ x. (take (x.1 - x.0) (drop x.0 bytes.now), drop x.1 bytes.now)) result
        (counted_at most (drop at bytes.now)) }
    ensures begin { IfOk result (λ x. x.0 ≡ at + 4) }
    ensures behind { IfOk result (λ x. (x.0 ≤ x.1) × (x.1 ≤ length bytes.now)) }
{
    let (len, begin) = take_u32(bytes, at)?;
    if len > most {
        return Err(TakeFault::TooLong { len });
    }
    let need = len as usize;
    let have = bytes.len() - begin;
    if have < need {
        return Err(TakeFault::Short { need, have });
    }
    Ok((begin, begin + need))
}

/// A number that was put is the number that is taken, whatever follows it. (Does nothing: its clauses are laws.)
pub fn number_is_read_again()
    ensures byte { (n : ℕ) (rest : List ℕ) → byte_at (n ∷ rest) ≡ Ok (n, rest) }
    ensures four { (n : ℕ) (rest : List ℕ) → n < 2 ^ 32 → number_at w32 (to_be_bytes w32 n ++ rest) ≡ Ok (n, rest) }
    ensures eight { (n : ℕ) (rest : List ℕ) → n < 2 ^ 64 → number_at w64 (to_be_bytes w64 n ++ rest) ≡ Ok (n, rest) }
{}

/// Bytes that were put are the bytes that are taken, whatever follows them, where they are no more than is
/// allowed. (Does nothing: its clause is a law.)
pub fn counted_bytes_are_read_again()
    ensures { (most : ℕ) (text rest : List ℕ) → length text ≤ most → length text < 2 ^ 32
        → counted_at most (counted text ++ rest) ≡ Ok (text, rest) }
{}

/// What is taken stood there as it is put, so each value has one spelling. (Does nothing: its clauses are laws.)
pub fn what_is_read_was_spelled_so()
    ensures byte { (bytes rest : List ℕ) (n : ℕ) → byte_at bytes ≡ Ok (n, rest) → bytes ≡ n ∷ rest }
    ensures four { (bytes rest : List ℕ) (n : ℕ) → IsBytes bytes → number_at w32 bytes ≡ Ok (n, rest)
        → bytes ≡ to_be_bytes w32 n ++ rest }
    ensures eight { (bytes rest : List ℕ) (n : ℕ) → IsBytes bytes → number_at w64 bytes ≡ Ok (n, rest)
        → bytes ≡ to_be_bytes w64 n ++ rest }
    ensures counted { (most : ℕ) (bytes text rest : List ℕ) → IsBytes bytes → counted_at most bytes ≡ Ok (text, rest)
        → (bytes ≡ counted text ++ rest) × (length text ≤ most) }
{}

#[cfg(test)]
mod tests {
    use super::*;
    use std::test::Fail;

    #[test]
    fn fields_stand_one_behind_the_other(rt: HostRuntime) -> Result<(), Fail> {
        let mut out = Vec::new(rt.alloc());
        put_u8(&mut out, 7)?;
        put_u32(&mut out, 0x0102_0304)?;
        put_u64(&mut out, 0x1112_1314_1516_1718)?;
        put_bytes(&mut out, b"abc")?;
        let spelled = [
            7, 1, 2, 3, 4, 0x11, 0x12, 0x13, 0x14, 0x15, 0x16, 0x17, 0x18, 0, 0, 0, 3, 97, 98, 99,
        ];
        assert_eq!(rt; out.as_slice(), spelled.as_slice());
        Ok(())
    }

    #[test]
    fn fields_are_taken(rt: HostRuntime) {
        let bytes = [
            7, 1, 2, 3, 4, 0x11, 0x12, 0x13, 0x14, 0x15, 0x16, 0x17, 0x18, 0, 0, 0, 3, 97, 98, 99,
        ];
        assert_eq!(rt; take_u8(&bytes, 0), Ok((7, 1)));
        assert_eq!(rt; take_u32(&bytes, 1), Ok((0x0102_0304, 5)));
        assert_eq!(rt; take_u64(&bytes, 5), Ok((0x1112_1314_1516_1718, 13)));
        assert_eq!(rt; take_bytes(&bytes, 13, 3), Ok((17, 20)));
        assert_eq!(rt;
            take_bytes(&bytes, 13, 2),
            Err(TakeFault::TooLong { len: 3 })
        );
        assert_eq!(rt;
            take_bytes(&bytes[..19], 13, 3),
            Err(TakeFault::Short { need: 3, have: 2 })
        );
        assert_eq!(rt;
            take_u8(&bytes, 20),
            Err(TakeFault::Short { need: 1, have: 0 })
        );
    }
}
