//! The bytes of one record: a gate, a length, a payload.
ghost use Rattle.std.specs.Prelude.{◌≡◌, ◌+◌, ◌<◌, ◌≤◌, true, false, length, take, drop, IfNone, IfSome};
ghost use Rattle.std.specs.Int.{w32, to_be_bytes, from_be_bytes};
ghost use Rattle.std.specs.Vec.{vec_capacity};
ghost use Rattle.vault.specs.Limit.{payload_most};
ghost use Rattle.vault.specs.Head.{head_opens};
ghost use Rattle.vault.specs.File.{frame_of};

use stab_base::{put_bytes, put_u8, take_u32};

/// The longest payload, in bytes. It is `payload_most` of the definitions.
pub const PAYLOAD_MAX: u32 = 8_388_608;

/// Only this byte is an open gate.
pub(crate) const OPEN: u8 = 0xa5;

/// What is written for a closed gate.
pub(crate) const CLOSED: u8 = 0;

/// Length, payload and a closed gate, in a buffer that has room for them.
pub(crate) fn write_frame(frame: &mut Vec<u8>, payload: &[u8])
    requires short { length payload.now ≤ payload_most }
    requires room { length payload.now + 5 ≤ vec_capacity frame.old }
    ensures items { frame.new.items ≡ frame_of payload.now }
    ensures capacity { vec_capacity frame.old ≤ vec_capacity frame.new }
{
    frame.clear();
    put_bytes(frame, payload).unwrap();
    put_u8(frame, CLOSED).unwrap();
}

/// The length of the record that begins with these five bytes where so many bytes are left from there on, or
/// None where no record is there.
pub(crate) fn record_len(head: &[u8], left: u64) -> Option<u64>
    requires { length head.now ≡ 5 }
    ensures none { IfNone result (head_opens head.now left ≡ false) }
    ensures some { IfSome result (λ n. head_opens head.now left ≡ true) }
    ensures len { IfSome result (λ n. n ≡ 5 + from_be_bytes w32 (take 4 (drop 1 head.now))) }
    ensures spelled { IfSome result (λ n. to_be_bytes w32 (from_be_bytes w32 (take 4 (drop 1 head.now)))
        ≡ take 4 (drop 1 head.now)) }
{
    let len = u32::from_be_bytes([head[1], head[2], head[3], head[4]]);
    let is_there = head[0] == OPEN && len <= PAYLOAD_MAX && 5 + (len as u64) < left;
    if is_there { Some(5 + len as u64) } else { None }
}
