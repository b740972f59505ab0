//! Why a client's devices didn't do what they were asked for.
ghost use Rattle.std.specs.Prelude.{◌≡◌};
ghost use Rattle.client_journal.specs.declared.fault.JournalFault.TheVariants.{Memory};
ghost use Rattle.client_journal.specs.Fault.{disk_or, caused, chunk_cause, slot_cause, journal_cause};
ghost use Rattle.client_journal.specs.Fault.{slots_found, chunk_found};

use chunk_store::ChunkFault;
use plan_log::PlanFault;
use slot_store::{RowSlots, SlotFault};
use stab_base::Bytes;
use std::alloc::AllocError;
use thiserror::Error;

#[derive(Debug, Drop, Clone, Copy, PartialEq, Eq, Error)]
pub enum JournalFault {
    /// The writes of an earlier call are still to be done; `with` is the number of the plan at work, or 0.
    #[error("plan {with} is at work")]
    Busy { with: u64 },
    /// The numbers of plans are used up; `last` is the last one.
    #[error("no plan is left behind {last}")]
    Spent { last: u64 },
    /// A disk failed in this call. From now on its device is down.
    #[error("a disk failed")]
    Disk,
    /// A disk failed in an earlier call. A device is down until its disk was restarted and looked at again.
    #[error("a device is down")]
    Down,
    #[error("out of memory")]
    Memory,
}

/// The answer of a device that can only have failed by its disk.
pub(crate) fn told<E: Drop>(answer: Result<(), E>) -> Result<(), JournalFault>
    ensures { result ≡ disk_or answer }
{
    match answer {
        Ok(()) => Ok(()),
        Err(_) => Err(JournalFault::Disk),
    }
}

impl From<AllocError> for JournalFault {
    ghost from_gives = { λ _ e. e ≡ Memory };

    fn from(_: AllocError) -> Self {
        JournalFault::Memory
    }
}

impl From<ChunkFault> for JournalFault {
    ghost from_gives = { λ f e. e ≡ chunk_cause f };

    fn from(fault: ChunkFault) -> Self {
        match fault {
            ChunkFault::Absent | ChunkFault::Disk => JournalFault::Disk,
            ChunkFault::Down => JournalFault::Down,
            ChunkFault::Memory => JournalFault::Memory,
        }
    }
}

impl From<SlotFault> for JournalFault {
    ghost from_gives = { λ f e. e ≡ slot_cause f };

    fn from(fault: SlotFault) -> Self {
        match fault {
            SlotFault::NoRow | SlotFault::Disk => JournalFault::Disk,
            SlotFault::Down => JournalFault::Down,
            SlotFault::Memory => JournalFault::Memory,
        }
    }
}

impl From<PlanFault> for JournalFault {
    ghost from_gives = { λ f e. e ≡ journal_cause f };

    fn from(fault: PlanFault) -> Self {
        match fault {
            PlanFault::Disk => JournalFault::Disk,
            PlanFault::Down => JournalFault::Down,
            PlanFault::Memory => JournalFault::Memory,
        }
    }
}

/// The answer of the device of the chunks.
pub(crate) fn of_chunks<T>(answer: Result<T, ChunkFault>) -> Result<T, JournalFault>
    ensures { result ≡ caused chunk_cause answer }
{
    match answer {
        Ok(x) => Ok(x),
        Err(fault) => Err(fault.into()),
    }
}

/// The answer of the device of the slots.
pub(crate) fn of_slots<T>(answer: Result<T, SlotFault>) -> Result<T, JournalFault>
    ensures { result ≡ caused slot_cause answer }
{
    match answer {
        Ok(x) => Ok(x),
        Err(fault) => Err(fault.into()),
    }
}

/// The answer of the journal of plans.
pub(crate) fn of_journal<T>(answer: Result<T, PlanFault>) -> Result<T, JournalFault>
    ensures { result ≡ caused journal_cause answer }
{
    match answer {
        Ok(x) => Ok(x),
        Err(fault) => Err(fault.into()),
    }
}

/// The slots of a look-up, if there are some.
pub(crate) fn found_slots(
    answer: Result<RowSlots, SlotFault>,
) -> Result<Option<RowSlots>, JournalFault>
    ensures { result ≡ slots_found answer }
{
    match answer {
        Ok(stored) => Ok(Some(stored)),
        Err(SlotFault::NoRow) => Ok(None),
        Err(fault) => Err(fault.into()),
    }
}

/// The chunk of a look-up, if there is one.
pub(crate) fn found_chunk(answer: Result<Bytes, ChunkFault>) -> Result<Option<Bytes>, JournalFault>
    ensures { result ≡ chunk_found answer }
{
    match answer {
        Ok(bytes) => Ok(Some(bytes)),
        Err(ChunkFault::Absent) => Ok(None),
        Err(fault) => Err(fault.into()),
    }
}
