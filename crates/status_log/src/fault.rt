//! Why a status log didn't do what it was asked for.
ghost use Rattle.std.specs.Prelude.{◌≡◌};
ghost use Rattle.status_log.specs.declared.fault.LogFault.TheVariants.{Memory};
ghost use Rattle.vault.specs.Calls.{answer_as};
ghost use Rattle.status_log.specs.Fault.{fault_of};

use stab_base::Version;
use std::alloc::AllocError;
use thiserror::Error;
use vault::VaultFault;

#[derive(Debug, Drop, Clone, Copy, PartialEq, Eq, Error)]
pub enum LogFault {
    /// The entry of this version is open.
    #[error("the entry of version {version} is open")]
    Pending { version: Version },
    /// The disk failed in this call. From now on the device is down.
    #[error("the disk failed")]
    Disk,
    /// The disk failed in an earlier call. A device is down until its disk was restarted and looked at again.
    #[error("the device is down")]
    Down,
    #[error("out of memory")]
    Memory,
}

impl From<AllocError> for LogFault {
    ghost from_gives = { λ _ e. e ≡ Memory };

    fn from(_: AllocError) -> Self {
        LogFault::Memory
    }
}

impl From<VaultFault> for LogFault {
    ghost from_gives = { λ f e. e ≡ fault_of f };

    fn from(fault: VaultFault) -> Self {
        match fault {
            VaultFault::Disk => LogFault::Disk,
            VaultFault::Down => LogFault::Down,
            VaultFault::Memory => LogFault::Memory,
        }
    }
}

/// A vault's answer as the device's.
pub(crate) fn told(answer: Result<(), VaultFault>) -> Result<(), LogFault>
    ensures { result ≡ answer_as fault_of answer }
{
    match answer {
        Ok(()) => Ok(()),
        Err(fault) => Err(LogFault::from(fault)),
    }
}
