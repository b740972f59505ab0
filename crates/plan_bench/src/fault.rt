//! Why a measure stopped.
use client_journal::JournalFault;
use std::alloc::AllocError;
use thiserror::Error;

#[derive(Debug, Drop, Clone, Copy, PartialEq, Eq, Error)]
pub enum BenchFault {
    /// A row has slots that no plan of this program puts.
    #[error("a row has other slots than a plan put")]
    Slots,
    #[error("{0}")]
    Journal(JournalFault),
}

impl From<JournalFault> for BenchFault {
    fn from(fault: JournalFault) -> Self {
        BenchFault::Journal(fault)
    }
}

impl From<AllocError> for BenchFault {
    fn from(_: AllocError) -> Self {
        BenchFault::Journal(JournalFault::Memory)
    }
}
