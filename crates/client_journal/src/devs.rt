//! The three devices of a client.
ghost use Rattle.std.specs.Prelude.{◌≡◌, ◌↔◌, ◌+◌, ◌≤◌, ℕ, List, [], ◌∷◌, IsErrOf, OnOk};
ghost use Rattle.std.specs.Bool.{MatchBool};
ghost use Rattle.vault.specs.Standing.{disk_of};
ghost use Rattle.vault.specs.Calls.{IsEither};
ghost use Rattle.held_value.specs.declared.local_name.LocalName.{LocalName};
ghost use Rattle.chunk_store.specs.Standing as chunks;
ghost use Rattle.slot_store.specs.Data.{SlotData};
ghost use Rattle.slot_store.specs.Standing as slots;
ghost use Rattle.plan_log.specs.declared.plan.Commit.{Commit};
ghost use Rattle.plan_log.specs.Standing as journals;
ghost use Rattle.client_journal.specs.Devs.{ClientDevs, Write, OpenJournal, OpenSlots, OpenChunks, PutIntend};
ghost use Rattle.client_journal.specs.Devs.{PutChunk, PutCommit, PutSlots, PutRecord, DropChunk, PutDone};
ghost use Rattle.client_journal.specs.Asking.{AllLeave};
ghost use Rattle.client_journal.specs.Agenda.{Runs, IsMoment, IsRedoing};
ghost use Rattle.client_journal.specs.Causes.{HasCause};
ghost use Rattle.client_journal.specs.Standing.{write_of, writes_of, AreUp, IsOneDown, IsReady, Works, WorksOn, devs};
ghost use Rattle.client_journal.specs.Standing.{DevsLeave, AreLookedAt, AreSound, AreSynced, AreBlank, HaveOpenings};
ghost use Rattle.client_journal.specs.Standing.{all_stops, nothing, GoesOn};
ghost use Rattle.client_journal.specs.Unset.{KeepsUnset};

use crate::fault::{JournalFault, told};
use crate::task::Task;
use chunk_store::ChunkDev;
use disk_trait::Disk;
use held_value::LocalName;
use plan_log::{Commit, Intend, PlanLog};
use slot_store::{RowSlots, SlotDev, TableRecord};
use stab_base::{ChunkName, Step};
use std::alloc::Global;
use std::collections::VecDeque;

/// A client's journal of plans, the slots of its rows and the records of its tables, and its chunks, each on a disk of
/// its own, and the writes that are still to be done.
///
/// A plan changes them as one. Each write is one payload of one device. After a fault of a disk its device is down:
/// each call answers `Down`, until the disks have been restarted and looked at again.
#[derive(Drop)]
pub struct Journal<D: Disk> {
    pub(crate) journal: PlanLog<D>,
    pub(crate) slots: SlotDev<D>,
    pub(crate) chunks: ChunkDev<D>,
    pub(crate) agenda: VecDeque<Task>,
    pub(crate) alloc: Global,
}

impl<D: Disk + Drop> Journal<D> {
    /// Devices that haven't been looked at, with no write to be done.
    pub fn new(alloc: Global, journal_disk: D, slot_disk: D, chunk_disk: D) -> Journal<D>
        ensures journal { disk_of (journals.vault_of result.journal) ≡ journal_disk }
        ensures slots { disk_of (slots.vault_of result.slots) ≡ slot_disk }
        ensures chunks { disk_of (chunks.vault_of result.chunks) ≡ chunk_disk }
        ensures up { AreUp result }
        ensures idle { writes_of result ≡ [] }
    {
        Journal {
            journal: PlanLog::new(alloc, journal_disk),
            slots: SlotDev::new(alloc, slot_disk),
            chunks: ChunkDev::new(alloc, chunk_disk),
            agenda: VecDeque::new(alloc),
            alloc,
        }
    }

    /// The disks of the journal, the slots and the chunks.
    pub fn into_disks(self) -> (D, D, D)
        ensures journal { result.0 ≡ disk_of (journals.vault_of self.journal) }
        ensures slots { result.1 ≡ disk_of (slots.vault_of self.slots) }
        ensures chunks { result.2 ≡ disk_of (chunks.vault_of self.chunks) }
    {
        let Journal {
            journal,
            slots,
            chunks,
            ..
        } = self;
        (journal.into_disk(), slots.into_disk(), chunks.into_disk())
    }

    /// Whether one of the disks has failed, and has not been restarted since.
    pub fn is_down(&self) -> bool
        ensures { MatchBool result (IsOneDown self.now) (AreUp self.now) }
    {
        self.chunks.is_down() || self.slots.is_down() || self.journal.is_down()
    }

    /// Whether no write is still to be done.
    pub fn idle(&self) -> bool
        ensures { MatchBool result (writes_of self.now ≡ []) (writes_of self.now ≡ [] → ⊥) }
    {
        self.agenda.is_empty()
    }

    fn open_journal(&mut self) -> Result<(), JournalFault>
        requires up { AreUp self.old }
        requires ready { IsReady D.state self.old (OpenJournal ∷ writes_of self.old) }
        ensures fuse { KeepsUnset D.state self.old self.new }
        ensures once { all_stops D.state self.new ≤ all_stops D.state self.old + 1 }
        ensures works { Works D.state D.images OpenJournal (writes_of self.old) self.old self.new result }
        ensures agenda { self.new.agenda ≡ self.old.agenda }
    {
        told(self.journal.open_write())
    }

    fn open_slots(&mut self) -> Result<(), JournalFault>
        requires up { AreUp self.old }
        requires ready { IsReady D.state self.old (OpenSlots ∷ writes_of self.old) }
        ensures fuse { KeepsUnset D.state self.old self.new }
        ensures once { all_stops D.state self.new ≤ all_stops D.state self.old + 1 }
        ensures works { Works D.state D.images OpenSlots (writes_of self.old) self.old self.new result }
        ensures agenda { self.new.agenda ≡ self.old.agenda }
    {
        told(self.slots.open_write())
    }

    fn open_chunks(&mut self) -> Result<(), JournalFault>
        requires up { AreUp self.old }
        requires ready { IsReady D.state self.old (OpenChunks ∷ writes_of self.old) }
        ensures fuse { KeepsUnset D.state self.old self.new }
        ensures once { all_stops D.state self.new ≤ all_stops D.state self.old + 1 }
        ensures works { Works D.state D.images OpenChunks (writes_of self.old) self.old self.new result }
        ensures agenda { self.new.agenda ≡ self.old.agenda }
    {
        told(self.chunks.open_write())
    }

    fn put_intend(&mut self, intend: &Intend) -> Result<(), JournalFault>
        requires up { AreUp self.old }
        requires ready { IsReady D.state self.old (PutIntend intend.now ∷ writes_of self.old) }
        ensures fuse { KeepsUnset D.state self.old self.new }
        ensures once { all_stops D.state self.new ≤ all_stops D.state self.old + 1 }
        ensures works { Works D.state D.images (PutIntend intend.now) (writes_of self.old) self.old self.new result }
        ensures agenda { self.new.agenda ≡ self.old.agenda }
    {
        told(self.journal.intend(intend))
    }

    fn put_chunk(&mut self, name: LocalName, bytes: &[u8]) -> Result<(), JournalFault>
        requires up { AreUp self.old }
        requires ready { IsReady D.state self.old (PutChunk name bytes.now ∷ writes_of self.old) }
        ensures fuse { KeepsUnset D.state self.old self.new }
        ensures once { all_stops D.state self.new ≤ all_stops D.state self.old + 1 }
        ensures works { Works D.state D.images (PutChunk name bytes.now) (writes_of self.old) self.old self.new result }
        ensures agenda { self.new.agenda ≡ self.old.agenda }
    {
        let name = ChunkName {
            version: name.plan,
            ordinal: name.ordinal,
        };
        told(self.chunks.put(name, bytes))
    }

    fn put_commit(&mut self, commit: &Commit) -> Result<(), JournalFault>
        requires up { AreUp self.old }
        requires ready { IsReady D.state self.old (PutCommit commit.now ∷ writes_of self.old) }
        ensures fuse { KeepsUnset D.state self.old self.new }
        ensures once { all_stops D.state self.new ≤ all_stops D.state self.old + 1 }
        ensures works { Works D.state D.images (PutCommit commit.now) (writes_of self.old) self.old self.new result }
        ensures agenda { self.new.agenda ≡ self.old.agenda }
    {
        told(self.journal.commit(commit))
    }

    fn put_slots(&mut self, row: &RowSlots) -> Result<(), JournalFault>
        requires up { AreUp self.old }
        requires ready { IsReady D.state self.old (PutSlots row.now ∷ writes_of self.old) }
        ensures fuse { KeepsUnset D.state self.old self.new }
        ensures once { all_stops D.state self.new ≤ all_stops D.state self.old + 1 }
        ensures works { Works D.state D.images (PutSlots row.now) (writes_of self.old) self.old self.new result }
        ensures agenda { self.new.agenda ≡ self.old.agenda }
    {
        told(self.slots.put_slots(row))
    }

    pub(crate) fn put_record(&mut self, table: &TableRecord) -> Result<(), JournalFault>
        requires up { AreUp self.old }
        requires ready { IsReady D.state self.old (PutRecord table.now ∷ writes_of self.old) }
        ensures fuse { KeepsUnset D.state self.old self.new }
        ensures once { all_stops D.state self.new ≤ all_stops D.state self.old + 1 }
        ensures works { Works D.state D.images (PutRecord table.now) (writes_of self.old) self.old self.new result }
        ensures agenda { self.new.agenda ≡ self.old.agenda }
    {
        told(self.slots.put_record(table))
    }

    fn drop_chunk(&mut self, name: LocalName) -> Result<(), JournalFault>
        requires up { AreUp self.old }
        requires ready { IsReady D.state self.old (DropChunk name ∷ writes_of self.old) }
        ensures fuse { KeepsUnset D.state self.old self.new }
        ensures once { all_stops D.state self.new ≤ all_stops D.state self.old + 1 }
        ensures works { Works D.state D.images (DropChunk name) (writes_of self.old) self.old self.new result }
        ensures agenda { self.new.agenda ≡ self.old.agenda }
    {
        let name = ChunkName {
            version: name.plan,
            ordinal: name.ordinal,
        };
        told(self.chunks.drop_chunk(name))
    }

    fn put_done(&mut self) -> Result<(), JournalFault>
        requires up { AreUp self.old }
        requires ready { IsReady D.state self.old (PutDone ∷ writes_of self.old) }
        ensures fuse { KeepsUnset D.state self.old self.new }
        ensures once { all_stops D.state self.new ≤ all_stops D.state self.old + 1 }
        ensures works { Works D.state D.images PutDone (writes_of self.old) self.old self.new result }
        ensures agenda { self.new.agenda ≡ self.old.agenda }
    {
        told(self.journal.done())
    }

    // Does one write, which is no longer among those to come.
    fn perform(&mut self, task: Task) -> Result<(), JournalFault>
        requires up { AreUp self.old }
        requires ready { IsReady D.state self.old (write_of task ∷ writes_of self.old) }
        ensures fuse { KeepsUnset D.state self.old self.new }
        ensures once { all_stops D.state self.new ≤ all_stops D.state self.old + 1 }
        ensures works { Works D.state D.images (write_of task) (writes_of self.old) self.old self.new result }
        ensures agenda { self.new.agenda ≡ self.old.agenda }
    {
        match task {
            Task::OpenJournal => self.open_journal(),
            Task::OpenSlots => self.open_slots(),
            Task::OpenChunks => self.open_chunks(),
            Task::PutIntend(intend) => self.put_intend(&intend),
            Task::PutChunk(name, bytes) => self.put_chunk(name, bytes.as_slice()),
            Task::PutCommit(commit) => self.put_commit(&commit),
            Task::PutSlots(row) => self.put_slots(&row),
            Task::PutRecord(table) => self.put_record(&table),
            Task::DropChunk(name) => self.drop_chunk(name),
            Task::PutDone => self.put_done(),
        }
    }

    /// Does the next write, if there is one. It takes no memory.
    pub fn work(&mut self) -> Result<Step, JournalFault>
        requires ready { AreUp self.old → IsReady D.state self.old (writes_of self.old) }
        // A fuse that isn't set stops nothing.
        ensures fuse { KeepsUnset D.state self.old self.new }
        // It stops one call at most.
        ensures once { all_stops D.state self.new ≤ all_stops D.state self.old + 1 }
        ensures works { AreUp self.old → WorksOn D.state D.images self.old self.new result (writes_of self.old) }
        ensures down { IsErrOf result JournalFault.Down ↔ IsOneDown self.old }
        ensures unchanged { IsErrOf result JournalFault.Down → self.new ≡ self.old }
        // What was promised of every moment of a plan still is, and a crash of this call leaves one of them.
        ensures updating { (meaning : LocalName → List ℕ) (before : SlotData) (commit : Commit) → AreUp self.old
            → Runs (IsMoment meaning before commit) (devs D.state self.old) (writes_of self.old)
            → GoesOn D.state D.images (IsMoment meaning before commit) self.old self.new result }
        // And so of a recovery.
        ensures redoing { (meaning : LocalName → List ℕ) (before : SlotData) → AreUp self.old
            → Runs (IsRedoing meaning before) (devs D.state self.old) (writes_of self.old)
            → GoesOn D.state D.images (IsRedoing meaning before) self.old self.new result }
    {
        if self.is_down() {
            return Err(JournalFault::Down);
        }
        if self.agenda.is_empty() {
            return Ok(Step::Idle);
        }
        let task = self.agenda.pop_front().unwrap();
        let step = task.step();
        match self.perform(task) {
            Ok(()) => Ok(step),
            Err(fault) => Err(fault),
        }
    }

    /// Crashes the three disks and starts them again. What the devices hold is known once they are looked at, and no
    /// write is to be done.
    pub fn restart(&mut self, pick: u64)
        ensures journal { journals.Restarts D.state D.images self.old.journal self.new.journal }
        ensures slots { slots.Restarts D.state D.images self.old.slots self.new.slots }
        ensures chunks { chunks.Restarts D.state D.images self.old.chunks self.new.chunks }
        ensures up { AreUp self.new }
        ensures synced { AreSynced D.state self.new }
        ensures idle { writes_of self.new ≡ [] }
        // What was promised of each crash since an earlier moment holds of what is there now.
        ensures left { (start : Journal D) (a b : ClientDevs)
            → DevsLeave D.state D.images start self.old (IsEither a b)
            → IsEither a b (devs D.state self.new) × AreSound D.state self.new }
        // And each crash since then leaves one of them.
        ensures since { (start : Journal D) (a b : ClientDevs)
            → DevsLeave D.state D.images start self.old (IsEither a b)
            → DevsLeave D.state D.images start self.new (IsEither a b) }
        // Where nothing was at work, all is as it was.
        ensures rests { AreUp self.old → AreSynced D.state self.old → AreSound D.state self.old
            → (devs D.state self.new ≡ devs D.state self.old) × AreSound D.state self.new }
    {
        self.agenda.clear();
        self.chunks.restart(pick);
        self.slots.restart(pick);
        self.journal.restart(pick);
    }

    /// Finds what the three disks hold, whatever their bytes are. It reads each payload once and writes nothing. The
    /// vaults are then unopened.
    pub fn look(&mut self) -> Result<(), JournalFault>
        requires synced { AreSynced D.state self.old }
        ensures fuse { KeepsUnset D.state self.old self.new }
        ensures cause { AreUp self.old → HasCause D.state self.old self.new result }
        ensures looked { OnOk result (AreLookedAt D.state self.new) }
        ensures same { OnOk result (devs D.state self.new ≡ devs D.state self.old) }
        ensures sound { OnOk result (AreSound D.state self.old → AreSound D.state self.new) }
        ensures room { OnOk result (HaveOpenings D.state self.new) }
        // Where the files stand for what is held, each crash at any moment leaves it.
        ensures any_moment { AreUp self.old → AreSound D.state self.old
            → DevsLeave D.state D.images self.old self.new (λ d. d ≡ devs D.state self.old) }
        // So calls can be put together, one after the other.
        ensures leave { AreUp self.old → AreSound D.state self.old → AllLeave D.state D.images self.old self.new }
        ensures agenda { self.new.agenda ≡ self.old.agenda }
    {
        self.chunks.look()?;
        self.slots.look()?;
        self.journal.look()?;
        Ok(())
    }

    /// Makes the three disks those of no table. The devices are then at rest.
    pub fn format(&mut self) -> Result<(), JournalFault>
        ensures fuse { AreUp self.old → KeepsUnset D.state self.old self.new }
        ensures cause { AreUp self.old → HasCause D.state self.old self.new result }
        ensures rests { OnOk result (IsReady D.state self.new []) }
        ensures empty { OnOk result (devs D.state self.new ≡ nothing) }
        // Of blank disks a crash at any moment leaves nothing.
        ensures blank { AreUp self.old → AreBlank D.state self.old
            → DevsLeave D.state D.images self.old self.new (λ d. d ≡ nothing) }
        ensures idle { writes_of self.new ≡ [] }
    {
        self.agenda.clear();
        self.chunks.format()?;
        self.slots.format()?;
        self.journal.format()?;
        Ok(())
    }
}
