ghost use Rattle.std.specs.Prelude.{◌≡◌};
ghost use Rattle.journal_host.specs.declared.fault.ClientFault.TheVariants.{Memory};

use std::alloc::{AllocError, AllocFailed};
use thiserror::Error;

/// Why a call of a world's client isn't answered.
#[derive(Debug, Drop, Clone, Copy, PartialEq, Eq, Error)]
pub enum ClientFault {
    /// The last number of a write or of a plan is given.
    #[error("the client's last number is given")]
    Spent,
    #[error("out of memory")]
    Memory,
}

impl From<AllocError> for ClientFault {
    ghost from_gives = { λ _ e. e ≡ Memory };

    fn from(_: AllocError) -> Self {
        ClientFault::Memory
    }
}

impl<T: Drop> From<AllocFailed<T>> for ClientFault {
    ghost from_gives = { λ _ e. e ≡ Memory };

    fn from(_refused: AllocFailed<T>) -> Self {
        ClientFault::Memory
    }
}
