ghost use Rattle.std.specs.Prelude.{◌≡◌};
ghost use Rattle.part_network.specs.declared.fault.NetworkFault.TheVariants as faults;

use std::alloc::{AllocError, AllocFailed};
use thiserror::Error;

/// Why a message isn't sent.
#[derive(Debug, Drop, Clone, Copy, PartialEq, Eq, Error)]
pub enum NetworkFault {
    /// The frames of all packets would have this many bytes, more than a run may send.
    #[error("the frames of all packets would have {bytes} bytes")]
    Limit { bytes: u64 },
    /// Memory ran out.
    #[error("out of memory")]
    Memory,
}

impl From<AllocError> for NetworkFault {
    ghost from_gives = { λ _ e. e ≡ faults.Memory };

    fn from(_e: AllocError) -> NetworkFault {
        NetworkFault::Memory
    }
}

impl<T: Drop> From<AllocFailed<T>> for NetworkFault {
    ghost from_gives = { λ _ e. e ≡ faults.Memory };

    fn from(_e: AllocFailed<T>) -> NetworkFault {
        NetworkFault::Memory
    }
}
