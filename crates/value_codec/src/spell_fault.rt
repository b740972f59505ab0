ghost use Rattle.std.specs.Prelude.{◌≡◌};
ghost use Rattle.value_codec.specs.declared.spell_fault.SpellFault.TheVariants as faults;

use std::alloc::{AllocError, AllocFailed};
use thiserror::Error;

/// Why no value is read.
#[derive(Debug, Drop, Clone, Copy, PartialEq, Eq, Error)]
pub enum SpellFault {
    /// The bytes are no spelling: at this place, counted from the first of all bytes, is the first byte with which no
    /// spelling goes on. Where bytes are missing, it is the place behind the last byte.
    #[error("no spelling goes on at byte {at}")]
    Bad { at: usize },
    /// Memory ran out.
    #[error("out of memory")]
    Memory,
}

impl From<AllocError> for SpellFault {
    ghost from_gives = { λ _ e. e ≡ faults.Memory };

    fn from(_e: AllocError) -> SpellFault {
        SpellFault::Memory
    }
}

impl<T: Drop> From<AllocFailed<T>> for SpellFault {
    ghost from_gives = { λ _ e. e ≡ faults.Memory };

    fn from(_e: AllocFailed<T>) -> SpellFault {
        SpellFault::Memory
    }
}
