ghost use Rattle.std.specs.Prelude.{◌≡◌, ◌+◌, ◌≤◌, ◌<◌, ◌++◌, length, OnOk, OnErr};
ghost use Rattle.std.specs.Vec.{vec_capacity, vec_len};
ghost use Rattle.value_codec.specs.Spelling.{flag_spelling};
ghost use Rattle.field_codec.specs.Forms.{four, eight};

use stab_base::{RowId, put_u8, put_u32, put_u64};
use std::alloc::AllocError;

/// Appends the four bytes of a number.
#[tactic(auto, unfolding(crate::specs::Forms::four))]
pub fn put_four(out: &mut Vec<u8>, n: u32) -> Result<(), AllocError>
    ensures ok { OnOk result (out.new.items ≡ out.old.items ++ four n) }
    ensures full { OnErr result (vec_capacity out.old < vec_len out.old + length (four n)) }
    ensures capacity { vec_capacity out.old ≤ vec_capacity out.new }
{
    put_u32(out, n)
}

/// Appends the eight bytes of a number.
#[tactic(auto, unfolding(crate::specs::Forms::eight))]
pub fn put_eight(out: &mut Vec<u8>, n: u64) -> Result<(), AllocError>
    ensures ok { OnOk result (out.new.items ≡ out.old.items ++ eight n) }
    ensures full { OnErr result (vec_capacity out.old < vec_len out.old + length (eight n)) }
    ensures capacity { vec_capacity out.old ≤ vec_capacity out.new }
{
    put_u64(out, n)
}

/// Appends the 16 bytes of a row's id.
pub fn put_id(out: &mut Vec<u8>, id: &RowId) -> Result<(), AllocError>
    ensures ok { OnOk result (out.new.items ≡ out.old.items ++ id.now) }
    ensures full { OnErr result (vec_capacity out.old < vec_len out.old + length id.now) }
    ensures capacity { vec_capacity out.old ≤ vec_capacity out.new }
{
    out.extend_from_slice(&id.to_bytes())
}

/// Appends the byte of a flag.
pub fn put_flag(out: &mut Vec<u8>, flag: bool) -> Result<(), AllocError>
    ensures ok { OnOk result (out.new.items ≡ out.old.items ++ flag_spelling flag) }
    ensures full { OnErr result (vec_capacity out.old < vec_len out.old + length (flag_spelling flag)) }
    ensures capacity { vec_capacity out.old ≤ vec_capacity out.new }
{
    put_u8(out, if flag { 1 } else { 0 })
}
