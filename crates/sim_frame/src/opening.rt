ghost use Rattle.std.specs.Prelude.{◌≡◌};
ghost use Rattle.sim_frame.specs.Opening.{Opens};

use crate::frame::FRAME_MAX;
use stab_base::take_u32;

/// What the front of a stream says of its first frame.
#[derive(Clone, Copy)]
pub(crate) enum Opening {
    /// The four bytes of a length aren't there yet.
    Short,
    /// This length is that of no frame.
    Bad { len: u32 },
    /// The frame's kind and body have so many bytes.
    Sized { len: u32 },
}

/// What these bytes begin with.
pub(crate) fn opening_of(bytes: &[u8]) -> Opening
    ensures { Opens bytes.now result }
{
    match take_u32(bytes, 0) {
        Err(_) => Opening::Short,
        Ok((len, _)) if len == 0 || len > FRAME_MAX => Opening::Bad { len },
        Ok((len, _)) => Opening::Sized { len },
    }
}
