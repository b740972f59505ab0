//! One write of one device, with all that it needs.
ghost use Rattle.std.specs.Prelude.{◌≡◌};
ghost use Rattle.store_commit.specs.Standing.{write_of, step_of};
ghost use Rattle.store_commit.specs.Update.{version_opened};

use chunk_store::{Bytes, ChunkName};
use row_store::StoredRow;
use row_value::Schema;
use stab_base::{ClientNo, GateNo, Step, Version};
use status_log::LogEntry;

#[derive(Debug, Drop)]
pub enum Task {
    OpenChunks,
    OpenRows,
    OpenLog,
    OpenEntry(LogEntry),
    PutChunk(ChunkName, Bytes),
    PutRow(StoredRow),
    DropChunk(ChunkName),
    CloseEntry,
    /// The table's schema and state.
    PutTable(Schema, u8),
    PutSub {
        client: ClientNo,
        on: bool,
        gate: GateNo,
        period: u32,
        tolerance: u32,
    },
}

impl Task {
    /// What the write is called.
    pub(crate) fn step(&self) -> Step
        ensures { result ≡ step_of (write_of self.now) }
    {
        match self {
            Task::OpenChunks => Step::OpenChunks,
            Task::OpenRows => Step::OpenRows,
            Task::OpenLog => Step::OpenLog,
            Task::OpenEntry(_) => Step::LogOpen,
            Task::PutChunk(_, _) => Step::ChunkPut,
            Task::PutRow(_) => Step::RowPut,
            Task::DropChunk(_) => Step::ChunkDrop,
            Task::CloseEntry => Step::LogClose,
            Task::PutTable(_, _) => Step::TablePut,
            Task::PutSub { .. } => Step::SubPut,
        }
    }

    /// The version of the entry that the write opens.
    pub(crate) fn opens(&self) -> Option<Version>
        ensures { result ≡ version_opened (write_of self.now) }
    {
        match self {
            Task::OpenEntry(entry) => Some(entry.version),
            _ => None,
        }
    }
}
