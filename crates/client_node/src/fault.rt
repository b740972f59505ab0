ghost use Rattle.std.specs.Prelude.{◌≡◌};
ghost use Rattle.client_node.specs.declared.fault.CallFault.TheVariants.{Memory};
ghost use Rattle.client_node.specs.Fault.{fault_of, fit_fault_of};

use client_journal::JournalFault;
use row_value::FitFault;
use stab_base::{Version, WriteNo};
use std::alloc::{AllocError, AllocFailed};
use thiserror::Error;

/// Why a client's node didn't do what it was asked for.
#[derive(Debug, Drop, Clone, Copy, PartialEq, Eq, Error)]
pub enum CallFault {
    /// The client hasn't opened the table.
    #[error("the table isn't opened")]
    NoTable,
    /// The first cell column that the content doesn't fit.
    #[error("column {column} has no cell of its kind")]
    BadCell { column: usize },
    /// The first object column that the content doesn't fit, and the object's length in bytes.
    #[error("column {column} is not one for an object of {len} bytes")]
    BadObject { column: usize, len: usize },
    /// The cells and objects have more bytes than a row may have.
    #[error("a row of {len} bytes is too large")]
    RowTooLarge { len: usize },
    /// The objects have more chunks than a row may have.
    #[error("{count} chunks are too many")]
    TooManyChunks { count: usize },
    /// Nothing is shown of the row, or nothing that could be edited.
    #[error("the row shows nothing")]
    NoRow,
    /// Writes are still to be done; `with` is the plan at work, or 0.
    #[error("plan {with} is at work")]
    Busy { with: u64 },
    /// The client doesn't resolve the table's conflicts.
    #[error("the table's conflicts aren't being resolved")]
    NotInResolution,
    /// The client resolves the table's conflicts.
    #[error("the table's conflicts are being resolved")]
    InResolution,
    /// The row isn't in conflict.
    #[error("the row isn't in conflict")]
    NoConflict,
    /// The row is in conflict with version `now`, and not with the one that was seen.
    #[error("the row is in conflict with version {now}, not {seen}")]
    Moved { seen: Version, now: Version },
    /// The client's link is down.
    #[error("the link is down")]
    Offline,
    /// The client's write of this number, in the same strong table, waits for its answer.
    #[error("write {number} waits for its answer")]
    Outstanding { number: WriteNo },
    /// The row is in conflict with this version.
    #[error("the row is in conflict with version {version}")]
    Conflicted { version: Version },
    /// The last number of a write or of a plan, `last`, is given.
    #[error("the last number, {last}, is given")]
    Spent { last: WriteNo },
    /// A disk failed in this call. The node is down.
    #[error("a disk failed")]
    Disk,
    #[error("out of memory")]
    Memory,
}

impl From<AllocError> for CallFault {
    ghost from_gives = { λ _ e. e ≡ Memory };

    fn from(_: AllocError) -> Self {
        CallFault::Memory
    }
}

impl<T: Drop> From<AllocFailed<T>> for CallFault {
    ghost from_gives = { λ _ e. e ≡ Memory };

    fn from(_refused: AllocFailed<T>) -> Self {
        CallFault::Memory
    }
}

impl From<FitFault> for CallFault {
    ghost from_gives = { λ f e. e ≡ fit_fault_of f };

    fn from(fault: FitFault) -> Self {
        match fault {
            FitFault::BadCell { column } => CallFault::BadCell { column },
            FitFault::BadObject { column, len } => CallFault::BadObject { column, len },
            FitFault::RowTooLarge { len } => CallFault::RowTooLarge { len },
            FitFault::TooManyChunks { count } => CallFault::TooManyChunks { count },
        }
    }
}

impl From<JournalFault> for CallFault {
    ghost from_gives = { λ f e. e ≡ fault_of f };

    fn from(fault: JournalFault) -> Self {
        match fault {
            JournalFault::Busy { with } => CallFault::Busy { with },
            JournalFault::Spent { last } => CallFault::Spent { last },
            JournalFault::Disk | JournalFault::Down => CallFault::Disk,
            JournalFault::Memory => CallFault::Memory,
        }
    }
}
