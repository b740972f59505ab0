//! Why a device of slots didn't do what it was asked for.
ghost use Rattle.std.specs.Prelude.{◌≡◌};
ghost use Rattle.slot_store.specs.declared.fault.SlotFault.TheVariants.{Memory};
ghost use Rattle.vault.specs.Calls.{answer_as};
ghost use Rattle.slot_store.specs.Fault.{fault_of};

use std::alloc::AllocError;
use thiserror::Error;
use vault::VaultFault;

#[derive(Debug, Drop, Clone, Copy, PartialEq, Eq, Error)]
pub enum SlotFault {
    /// Nothing is kept of the row.
    #[error("no such row")]
    NoRow,
    /// The disk failed in this call. From now on the device is down.
    #[error("the disk failed")]
    Disk,
    /// The disk failed in an earlier call. A device is down until its disk was restarted and looked at again.
    #[error("the device is down")]
    Down,
    #[error("out of memory")]
    Memory,
}

impl From<AllocError> for SlotFault {
    ghost from_gives = { λ _ e. e ≡ Memory };

    fn from(_: AllocError) -> Self {
        SlotFault::Memory
    }
}

impl From<VaultFault> for SlotFault {
    ghost from_gives = { λ f e. e ≡ fault_of f };

    fn from(fault: VaultFault) -> Self {
        match fault {
            VaultFault::Disk => SlotFault::Disk,
            VaultFault::Down => SlotFault::Down,
            VaultFault::Memory => SlotFault::Memory,
        }
    }
}

/// A vault's answer as the device's.
pub(crate) fn told(answer: Result<(), VaultFault>) -> Result<(), SlotFault>
    ensures { result ≡ answer_as fault_of answer }
{
    match answer {
        Ok(()) => Ok(()),
        Err(fault) => Err(SlotFault::from(fault)),
    }
}
