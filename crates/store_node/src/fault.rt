ghost use Rattle.std.specs.Prelude.{◌≡◌};
ghost use Rattle.store_node.specs.declared.fault.NodeFault.TheVariants.{Memory};
ghost use Rattle.store_node.specs.Fault.{fault_of};

use stab_base::{NUMBER_MAX, Version};
use std::alloc::{AllocError, AllocFailed};
use store_commit::CommitFault;
use thiserror::Error;

/// Why a table's node didn't do what it was asked for.
#[derive(Debug, Drop, Clone, Copy, PartialEq, Eq, Error)]
pub enum NodeFault {
    /// The row has no version.
    #[error("the row has no version")]
    NoRow,
    /// Writes are still to be done; `with` is the version at work, or 0.
    #[error("version {with} is at work")]
    Busy { with: Version },
    /// The last version of the table, `last`, is given.
    #[error("the last version, {last}, is given")]
    Spent { last: Version },
    /// A disk failed in this call. The node is down.
    #[error("a disk failed")]
    Disk,
    #[error("out of memory")]
    Memory,
}

impl From<AllocError> for NodeFault {
    ghost from_gives = { λ _ e. e ≡ Memory };

    fn from(_: AllocError) -> Self {
        NodeFault::Memory
    }
}

impl<T: Drop> From<AllocFailed<T>> for NodeFault {
    ghost from_gives = { λ _ e. e ≡ Memory };

    fn from(_refused: AllocFailed<T>) -> Self {
        NodeFault::Memory
    }
}

impl From<CommitFault> for NodeFault {
    ghost from_gives = { λ f e. e ≡ fault_of f };

    fn from(fault: CommitFault) -> Self {
        match fault {
            CommitFault::Busy { with } => NodeFault::Busy { with },
            CommitFault::Spent => NodeFault::Spent { last: NUMBER_MAX },
            CommitFault::Disk | CommitFault::Down => NodeFault::Disk,
            CommitFault::Memory => NodeFault::Memory,
        }
    }
}
