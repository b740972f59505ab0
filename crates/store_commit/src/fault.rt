//! Why a table's devices didn't do what they were asked for.
ghost use Rattle.std.specs.Prelude.{◌≡◌};
ghost use Rattle.store_commit.specs.declared.fault.CommitFault.TheVariants.{Memory};
ghost use Rattle.store_commit.specs.Fault.{disk_or, caused, chunk_cause, row_cause, log_cause, found_of, chunk_found};

use chunk_store::ChunkFault;
use row_store::{RowFault, StoredRow};
use stab_base::{Bytes, Version};
use status_log::LogFault;
use std::alloc::AllocError;
use thiserror::Error;

#[derive(Debug, Drop, Clone, Copy, PartialEq, Eq, Error)]
pub enum CommitFault {
    /// The writes of an earlier call are still to be done; `with` is the version at work, or 0.
    #[error("version {with} is at work")]
    Busy { with: Version },
    /// The versions of the table are used up.
    #[error("no version is left")]
    Spent,
    /// A disk failed in this call. From now on its device is down.
    #[error("a disk failed")]
    Disk,
    /// A disk failed in an earlier call. A device is down until its disk was restarted and looked at again.
    #[error("a device is down")]
    Down,
    #[error("out of memory")]
    Memory,
}

/// The answer of a device that can only have failed by its disk.
pub(crate) fn told<E: Drop>(answer: Result<(), E>) -> Result<(), CommitFault>
    ensures { result ≡ disk_or answer }
{
    match answer {
        Ok(()) => Ok(()),
        Err(_) => Err(CommitFault::Disk),
    }
}

impl From<AllocError> for CommitFault {
    ghost from_gives = { λ _ e. e ≡ Memory };

    fn from(_: AllocError) -> Self {
        CommitFault::Memory
    }
}

impl From<ChunkFault> for CommitFault {
    ghost from_gives = { λ f e. e ≡ chunk_cause f };

    fn from(fault: ChunkFault) -> Self {
        match fault {
            ChunkFault::Absent | ChunkFault::Disk => CommitFault::Disk,
            ChunkFault::Down => CommitFault::Down,
            ChunkFault::Memory => CommitFault::Memory,
        }
    }
}

impl From<RowFault> for CommitFault {
    ghost from_gives = { λ f e. e ≡ row_cause f };

    fn from(fault: RowFault) -> Self {
        match fault {
            RowFault::NoRow | RowFault::Disk => CommitFault::Disk,
            RowFault::Down => CommitFault::Down,
            RowFault::Memory => CommitFault::Memory,
        }
    }
}

impl From<LogFault> for CommitFault {
    ghost from_gives = { λ f e. e ≡ log_cause f };

    fn from(fault: LogFault) -> Self {
        match fault {
            LogFault::Pending { .. } | LogFault::Disk => CommitFault::Disk,
            LogFault::Down => CommitFault::Down,
            LogFault::Memory => CommitFault::Memory,
        }
    }
}

/// The answer of the device of the chunks.
pub(crate) fn of_chunks<T>(answer: Result<T, ChunkFault>) -> Result<T, CommitFault>
    ensures { result ≡ caused chunk_cause answer }
{
    match answer {
        Ok(x) => Ok(x),
        Err(fault) => Err(fault.into()),
    }
}

/// The answer of the device of the rows.
pub(crate) fn of_rows<T>(answer: Result<T, RowFault>) -> Result<T, CommitFault>
    ensures { result ≡ caused row_cause answer }
{
    match answer {
        Ok(x) => Ok(x),
        Err(fault) => Err(fault.into()),
    }
}

/// The answer of the log.
pub(crate) fn of_log<T>(answer: Result<T, LogFault>) -> Result<T, CommitFault>
    ensures { result ≡ caused log_cause answer }
{
    match answer {
        Ok(x) => Ok(x),
        Err(fault) => Err(fault.into()),
    }
}

/// The row of a look-up, if there is one.
pub(crate) fn found_row(
    answer: Result<StoredRow, RowFault>,
) -> Result<Option<StoredRow>, CommitFault>
    ensures { result ≡ found_of answer }
{
    match answer {
        Ok(stored) => Ok(Some(stored)),
        Err(RowFault::NoRow) => Ok(None),
        Err(fault) => Err(fault.into()),
    }
}

/// The chunk of a look-up, if there is one.
pub(crate) fn found_chunk(answer: Result<Bytes, ChunkFault>) -> Result<Option<Bytes>, CommitFault>
    ensures { result ≡ chunk_found answer }
{
    match answer {
        Ok(bytes) => Ok(Some(bytes)),
        Err(ChunkFault::Absent) => Ok(None),
        Err(fault) => Err(fault.into()),
    }
}
