ghost use Rattle.std.specs.Prelude.{◌≡◌, ◌<◌, length, IfOk};
ghost use Rattle.sim_frame.specs.Stream.{frame_spelling};
ghost use Rattle.sim_frame.specs.declared.frame.FrameFault.TheVariants as faults;

use stab_base::{Bytes, put_u8, put_u32};
use std::alloc::{AllocError, AllocFailed, Global};
use thiserror::Error;

/// The greatest length of a frame: of its kind and its body.
pub const FRAME_MAX: u32 = 1_048_576;

/// A frame: what kind of message its body spells, and the body.
#[derive(Debug, Drop)]
pub struct Frame {
    pub kind: u8,
    pub body: Bytes,
}

/// Why a stream gives no frames.
#[derive(Debug, Drop, Clone, Copy, PartialEq, Eq, Error)]
pub enum FrameFault {
    /// 5: this stands where a frame's length is to stand, and is 0 or above `FRAME_MAX`.
    #[error("no frame has a length of {len}")]
    BadLength { len: u32 },
    /// Memory ran out.
    #[error("out of memory")]
    Memory,
}

impl From<AllocError> for FrameFault {
    ghost from_gives = { λ _ e. e ≡ faults.Memory };

    fn from(_e: AllocError) -> FrameFault {
        FrameFault::Memory
    }
}

impl<T: Drop> From<AllocFailed<T>> for FrameFault {
    ghost from_gives = { λ _ e. e ≡ faults.Memory };

    fn from(_e: AllocFailed<T>) -> FrameFault {
        FrameFault::Memory
    }
}

/// The bytes of the frame of this kind and body: four bytes of length, big-endian, the kind, and the body.
pub fn frame_bytes(alloc: Global, kind: u8, body: &[u8]) -> Result<Vec<u8>, AllocError>
    requires { length body.now < 1_048_576 }
    ensures { IfOk result (λ made. made.items ≡ frame_spelling (record { kind = kind; body = body.now })) }
{
    let mut out = Vec::with_capacity(alloc, body.len() + 5)?;
    put_u32(&mut out, body.len() as u32 + 1)?;
    put_u8(&mut out, kind)?;
    out.extend_from_slice(body)?;
    Ok(out)
}
