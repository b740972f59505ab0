ghost use Rattle.std.specs.Prelude.{◌≡◌, ◌≤◌, ◌<◌, ◌+◌, ◌*◌, ◌^◌, Bool, ℕ, List, length, drop, IfOk};
ghost use Rattle.std.specs.Int.{w32, w64};
ghost use Rattle.value_codec.specs.Reading.{Gives, number_at};
ghost use Rattle.field_codec.specs.Fields.{Reader, byte_if, may_be, ranged_at, bytes_at};
ghost use Rattle.sync_msgs.specs.Fields.{client_at, period_if};
ghost use Rattle.sync_msgs.specs.Fields.{chunk_bytes_at};

use field_codec::{take_bytes_of, take_ranged};
use stab_base::Bytes;
use std::alloc::Global;
use value_codec::{SpellFault, take_four};

/// The number of a client.
pub(crate) fn take_client(bytes: &[u8], at: usize) -> Result<(u32, usize), SpellFault>
    requires { at ≤ length bytes.now }
    ensures value { Gives bytes.now (λ x. (x.0, drop x.1 bytes.now)) result (client_at (drop at bytes.now)) }
    ensures within { IfOk result (λ x. x.1 ≤ length bytes.now) }
{
    take_ranged(bytes, at, 1, 64)
}

/// The period of a subscription, which may be 0 where there is none.
pub(crate) fn take_period(bytes: &[u8], at: usize, on: bool) -> Result<(u32, usize), SpellFault>
    requires { at ≤ length bytes.now }
    ensures value { Gives bytes.now (λ x. (x.0, drop x.1 bytes.now)) result (period_if on (drop at bytes.now)) }
    ensures within { IfOk result (λ x. x.1 ≤ length bytes.now) }
{
    if on {
        take_ranged(bytes, at, 1, u32::MAX)
    } else {
        take_four(bytes, at)
    }
}

/// The bytes of a chunk, behind their number.
#[tactic(auto, unfolding(crate::specs::Fields::chunk_bytes_at))]
pub(crate) fn take_chunk(
    alloc: Global,
    bytes: &[u8],
    at: usize,
) -> Result<(Bytes, usize), SpellFault>
    requires { at ≤ length bytes.now }
    ensures value { Gives bytes.now (λ x. (x.0, drop x.1 bytes.now)) result (chunk_bytes_at (drop at bytes.now)) }
    ensures within { IfOk result (λ x. x.1 ≤ length bytes.now) }
{
    let (len, begin) = take_ranged(bytes, at, 1, 65_536)?;
    take_bytes_of(alloc, bytes, begin, len)
}
