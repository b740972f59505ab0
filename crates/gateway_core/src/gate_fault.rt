ghost use Rattle.std.specs.Prelude.{◌≡◌};
ghost use Rattle.gateway_core.specs.declared.gate_fault.GateFault.TheVariants.{Memory};

use std::alloc::{AllocError, AllocFailed};
use thiserror::Error;

/// Why a gateway didn't do what it was asked for.
#[derive(Debug, Drop, Clone, Copy, PartialEq, Eq, Error)]
pub enum GateFault {
    /// The last token since the start, the one of number `last`, is drawn.
    #[error("the last token, {last}, is drawn")]
    Spent { last: u64 },
    #[error("out of memory")]
    Memory,
}

impl From<AllocError> for GateFault {
    ghost from_gives = { λ _ e. e ≡ Memory };

    fn from(_: AllocError) -> Self {
        GateFault::Memory
    }
}

impl<T: Drop> From<AllocFailed<T>> for GateFault {
    ghost from_gives = { λ _ e. e ≡ Memory };

    fn from(_refused: AllocFailed<T>) -> Self {
        GateFault::Memory
    }
}
