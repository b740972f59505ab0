ghost use Rattle.std.specs.Prelude.{◌≡◌};
ghost use Rattle.node_steps.specs.declared.fault.WorldFault.TheVariants.{Memory};

use std::alloc::{AllocError, AllocFailed};
use thiserror::Error;

/// Why the run of a world ends.
#[derive(Debug, Drop, Clone, Copy, PartialEq, Eq, Error)]
pub enum WorldFault {
    /// The limit of this code would be passed by this number. 11: versions and numbers of writes.
    #[error("limit {code} would be passed by {count}")]
    Limit { code: u32, count: u64 },
    /// The depot handed out no disk.
    #[error("the depot failed")]
    Depot,
    #[error("out of memory")]
    Memory,
}

impl From<AllocError> for WorldFault {
    ghost from_gives = { λ _ e. e ≡ Memory };

    fn from(_: AllocError) -> Self {
        WorldFault::Memory
    }
}

impl<T: Drop> From<AllocFailed<T>> for WorldFault {
    ghost from_gives = { λ _ e. e ≡ Memory };

    fn from(_refused: AllocFailed<T>) -> Self {
        WorldFault::Memory
    }
}
