ghost use Rattle.std.specs.Prelude.{◌≡◌};
ghost use Rattle.stab_io.specs.declared.line_fault.LineFault.TheVariants.{Memory};

use std::alloc::AllocError;
use thiserror::Error;

/// Why a reader of lines gave no line.
#[derive(Debug, Drop, Clone, Copy, PartialEq, Eq, Error)]
pub enum LineFault {
    /// The source failed.
    #[error("the input can't be read")]
    Read,
    /// A line has more bytes than a line may have; `len` is the limit plus 1.
    #[error("a line has {len} bytes or more")]
    LineLimit { len: u64 },
    /// The input has more bytes than an input may have; `len` is the limit plus 1.
    #[error("the input has {len} bytes or more")]
    InputLimit { len: u64 },
    #[error("out of memory")]
    Memory,
}

impl From<AllocError> for LineFault {
    ghost from_gives = { λ _ e. e ≡ Memory };

    fn from(_error: AllocError) -> LineFault {
        LineFault::Memory
    }
}
