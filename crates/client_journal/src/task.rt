//! One write of one device, with all that it needs.
ghost use Rattle.std.specs.Prelude.{◌≡◌};
ghost use Rattle.client_journal.specs.Plan.{plan_begun};
ghost use Rattle.client_journal.specs.Standing.{write_of, step_of};

use held_value::LocalName;
use plan_log::{Commit, Intend};
use slot_store::{RowSlots, TableRecord};
use stab_base::{Bytes, Step};

#[derive(Debug, Drop)]
pub enum Task {
    OpenJournal,
    OpenSlots,
    OpenChunks,
    PutIntend(Intend),
    PutChunk(LocalName, Bytes),
    PutCommit(Commit),
    PutSlots(RowSlots),
    PutRecord(TableRecord),
    DropChunk(LocalName),
    PutDone,
}

impl Task {
    /// What the write is called.
    pub(crate) fn step(&self) -> Step
        ensures { result ≡ step_of (write_of self.now) }
    {
        match self {
            Task::OpenJournal => Step::OpenJournal,
            Task::OpenSlots => Step::OpenSlots,
            Task::OpenChunks => Step::OpenChunks,
            Task::PutIntend(_) => Step::Intend,
            Task::PutChunk(_, _) => Step::ChunkPut,
            Task::PutCommit(_) => Step::Commit,
            Task::PutSlots(_) => Step::SlotPut,
            Task::PutRecord(_) => Step::TablePut,
            Task::DropChunk(_) => Step::ChunkDrop,
            Task::PutDone => Step::Done,
        }
    }

    /// The plan that the write begins, brings a chunk of, or commits.
    pub(crate) fn begins(&self) -> Option<u64>
        ensures { result ≡ plan_begun (write_of self.now) }
    {
        match self {
            Task::PutIntend(intend) => Some(intend.plan),
            Task::PutChunk(name, _) => Some(name.plan),
            Task::PutCommit(commit) => Some(commit.plan),
            _ => None,
        }
    }
}
