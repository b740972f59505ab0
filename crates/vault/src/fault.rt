//! Why a vault didn't do what it was asked for.
ghost use Rattle.std.specs.Prelude.{◌≡◌};
ghost use Rattle.vault.specs.declared.fault.VaultFault.TheVariants.{Disk, Memory};
ghost use Rattle.vault.specs.Cause.{fault_of};

use disk_trait::{DiskFault, RoomFault};
use std::alloc::{AllocError, AllocFailed};
use thiserror::Error;

#[derive(Debug, Drop, Clone, Copy, PartialEq, Eq, Error)]
pub enum VaultFault {
    /// The disk failed in this call. From now on the vault is down.
    #[error("the disk failed")]
    Disk,
    /// The disk failed in an earlier call. A vault is down until its disk was restarted and looked at again.
    #[error("the vault is down")]
    Down,
    #[error("out of memory")]
    Memory,
}

impl From<AllocError> for VaultFault {
    ghost from_gives = { λ _ e. e ≡ Memory };

    fn from(_: AllocError) -> Self {
        VaultFault::Memory
    }
}

impl<T: Drop> From<AllocFailed<T>> for VaultFault {
    ghost from_gives = { λ _ e. e ≡ Memory };

    fn from(_: AllocFailed<T>) -> Self {
        VaultFault::Memory
    }
}

impl From<DiskFault> for VaultFault {
    ghost from_gives = { λ _ e. e ≡ Disk };

    fn from(_: DiskFault) -> Self {
        VaultFault::Disk
    }
}

impl From<RoomFault> for VaultFault {
    ghost from_gives = { λ f e. e ≡ fault_of f };

    fn from(fault: RoomFault) -> Self {
        match fault {
            RoomFault::Failed => VaultFault::Disk,
            RoomFault::Memory => VaultFault::Memory,
        }
    }
}
