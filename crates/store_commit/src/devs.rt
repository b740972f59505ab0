//! The three devices of a table.
ghost use Rattle.std.specs.Prelude.{◌≡◌, ◌↔◌, ◌+◌, ◌≤◌, ℕ, List, [], ◌∷◌, IsErrOf, OnOk};
ghost use Rattle.std.specs.Bool.{MatchBool};
ghost use Rattle.vault.specs.Standing.{disk_of};
ghost use Rattle.vault.specs.Calls.{IsEither};
ghost use Rattle.stab_base.specs.declared.chunk_name.ChunkName.{ChunkName};
ghost use Rattle.chunk_store.specs.Standing as chunks;
ghost use Rattle.row_store.specs.declared.stored.StoredRow.{StoredRow};
ghost use Rattle.row_store.specs.Data.{TableData};
ghost use Rattle.row_store.specs.Reading.{terms_if};
ghost use Rattle.row_store.specs.Standing as rows;
ghost use Rattle.status_log.specs.Entry.{entry_of};
ghost use Rattle.status_log.specs.Standing as logs;
ghost use Rattle.store_commit.specs.Devs.{Write, OpenChunks, OpenRows, OpenLog, OpenEntry, PutChunk, PutRow, DropChunk};
ghost use Rattle.store_commit.specs.Devs.{CloseEntry, PutTable, PutSub, Devs};
ghost use Rattle.store_commit.specs.Agenda.{Runs, IsMoment, IsRecovering, IsKeeping, IsKeepingWhole, IsStill};
ghost use Rattle.store_commit.specs.Standing.{write_of, writes_of, AreUp, IsOneDown, IsReady, Works, WorksOn, devs};
ghost use Rattle.store_commit.specs.Standing.{DevsLeave, RowsLeave, AreLookedAt, AreSound, AreSynced, AreBlank};
ghost use Rattle.store_commit.specs.Standing.{HaveOpenings};
ghost use Rattle.store_commit.specs.Standing.{all_stops, nothing, GoesOn, NothingHidden, NothingSpared, seen};
ghost use Rattle.store_commit.specs.Standing.{spared_of};
ghost use Rattle.store_commit.specs.Fused.{device_of, OthersStay, StayBeside};
ghost use Rattle.store_commit.specs.Shows.{behind_first, ShowsAlike};
ghost use Rattle.store_commit.specs.TakesOn.{AllLeave, NoneLeave};
ghost use Rattle.store_commit.specs.Unset.{KeepsUnset, HasCause};

use crate::fault::{CommitFault, told};
use crate::scanned::Scanned;
use crate::task::Task;
use chunk_store::{ChunkDev, ChunkName};
use disk_trait::Disk;
use row_store::{RowDev, StoredRow};
use row_value::Schema;
use stab_base::{ClientNo, GateNo, Step};
use status_log::{LogEntry, StatusLog};
use std::alloc::Global;
use std::collections::VecDeque;

/// The chunks of a table, its rows and its log, each on a disk of its own, and the writes that are still to be done.
///
/// Each write is one payload of one device. After a fault of a disk its device is down: each call answers `Down`, until
/// the disks have been restarted and looked at again.
#[derive(Drop)]
pub struct TableDevs<D: Disk> {
    pub(crate) chunks: ChunkDev<D>,
    pub(crate) rows: RowDev<D>,
    pub(crate) log: StatusLog<D>,
    pub(crate) agenda: VecDeque<Task>,
    // what a start takes as not there, and its recovery spares
    pub(crate) scanned: Scanned,
    pub(crate) alloc: Global,
}

impl<D: Disk + Drop> TableDevs<D> {
    /// Devices that haven't been looked at, with no write to be done.
    pub fn new(alloc: Global, chunk_disk: D, row_disk: D, log_disk: D) -> TableDevs<D>
        ensures chunks { disk_of (chunks.vault_of result.chunks) ≡ chunk_disk }
        ensures rows { disk_of (rows.vault_of result.rows) ≡ row_disk }
        ensures log { disk_of (logs.vault_of result.log) ≡ log_disk }
        ensures up { AreUp result }
        ensures idle { writes_of result ≡ [] }
        ensures hidden { NothingHidden result }
        ensures spared { NothingSpared result }
    {
        TableDevs {
            chunks: ChunkDev::new(alloc, chunk_disk),
            rows: RowDev::new(alloc, row_disk),
            log: StatusLog::new(alloc, log_disk),
            agenda: VecDeque::new(alloc),
            scanned: Scanned::nothing(alloc),
            alloc,
        }
    }

    /// The disks of the chunks, the rows and the log.
    pub fn into_disks(self) -> (D, D, D)
        ensures chunks { result.0 ≡ disk_of (chunks.vault_of self.chunks) }
        ensures rows { result.1 ≡ disk_of (rows.vault_of self.rows) }
        ensures log { result.2 ≡ disk_of (logs.vault_of self.log) }
    {
        let TableDevs {
            chunks,
            rows,
            log,
            ..
        } = self;
        (chunks.into_disk(), rows.into_disk(), log.into_disk())
    }

    /// Whether one of the disks has failed, and has not been restarted since.
    pub fn is_down(&self) -> bool
        ensures { MatchBool result (IsOneDown self.now) (AreUp self.now) }
    {
        self.chunks.is_down() || self.rows.is_down() || self.log.is_down()
    }

    /// Whether no write is still to be done.
    pub fn idle(&self) -> bool
        ensures { MatchBool result (writes_of self.now ≡ []) (writes_of self.now ≡ [] → ⊥) }
    {
        self.agenda.is_empty()
    }

    fn open_chunks(&mut self) -> Result<(), CommitFault>
        requires up { AreUp self.old }
        requires ready { IsReady D.state self.old (OpenChunks ∷ writes_of self.old) }
        ensures fuse { KeepsUnset D.state self.old self.new }
        ensures once { all_stops D.state self.new ≤ all_stops D.state self.old + 1 }
        ensures works { Works D.state D.images OpenChunks (writes_of self.old) self.old self.new result }
        ensures agenda { self.new.agenda ≡ self.old.agenda }
        ensures scanned { self.new.scanned ≡ self.old.scanned }
        ensures others { OthersStay (device_of OpenChunks) self.old self.new }
    {
        told(self.chunks.open_write())
    }

    fn open_rows(&mut self) -> Result<(), CommitFault>
        requires up { AreUp self.old }
        requires ready { IsReady D.state self.old (OpenRows ∷ writes_of self.old) }
        ensures fuse { KeepsUnset D.state self.old self.new }
        ensures once { all_stops D.state self.new ≤ all_stops D.state self.old + 1 }
        ensures works { Works D.state D.images OpenRows (writes_of self.old) self.old self.new result }
        ensures agenda { self.new.agenda ≡ self.old.agenda }
        ensures scanned { self.new.scanned ≡ self.old.scanned }
        ensures others { OthersStay (device_of OpenRows) self.old self.new }
    {
        told(self.rows.open_write())
    }

    fn open_log(&mut self) -> Result<(), CommitFault>
        requires up { AreUp self.old }
        requires ready { IsReady D.state self.old (OpenLog ∷ writes_of self.old) }
        ensures fuse { KeepsUnset D.state self.old self.new }
        ensures once { all_stops D.state self.new ≤ all_stops D.state self.old + 1 }
        ensures works { Works D.state D.images OpenLog (writes_of self.old) self.old self.new result }
        ensures agenda { self.new.agenda ≡ self.old.agenda }
        ensures scanned { self.new.scanned ≡ self.old.scanned }
        ensures others { OthersStay (device_of OpenLog) self.old self.new }
    {
        told(self.log.open_write())
    }

    fn open_entry(&mut self, entry: &LogEntry) -> Result<(), CommitFault>
        requires up { AreUp self.old }
        requires ready { IsReady D.state self.old (OpenEntry (entry_of entry.now) ∷ writes_of self.old) }
        ensures fuse { KeepsUnset D.state self.old self.new }
        ensures once { all_stops D.state self.new ≤ all_stops D.state self.old + 1 }
        ensures works { Works D.state D.images (OpenEntry (entry_of entry.now))
            (writes_of self.old) self.old self.new result }
        ensures agenda { self.new.agenda ≡ self.old.agenda }
        ensures scanned { self.new.scanned ≡ self.old.scanned }
        ensures others { OthersStay (device_of (OpenEntry (entry_of entry.now))) self.old self.new }
    {
        told(self.log.open_entry(entry))
    }

    fn put_chunk(&mut self, name: ChunkName, bytes: &[u8]) -> Result<(), CommitFault>
        requires up { AreUp self.old }
        requires ready { IsReady D.state self.old (PutChunk name bytes.now ∷ writes_of self.old) }
        ensures fuse { KeepsUnset D.state self.old self.new }
        ensures once { all_stops D.state self.new ≤ all_stops D.state self.old + 1 }
        ensures works { Works D.state D.images (PutChunk name bytes.now) (writes_of self.old) self.old self.new result }
        ensures agenda { self.new.agenda ≡ self.old.agenda }
        ensures scanned { self.new.scanned ≡ self.old.scanned }
        ensures others { OthersStay (device_of (PutChunk name bytes.now)) self.old self.new }
    {
        told(self.chunks.put(name, bytes))
    }

    fn put_row(&mut self, stored: StoredRow) -> Result<(), CommitFault>
        requires up { AreUp self.old }
        requires ready { IsReady D.state self.old (PutRow stored ∷ writes_of self.old) }
        ensures fuse { KeepsUnset D.state self.old self.new }
        ensures once { all_stops D.state self.new ≤ all_stops D.state self.old + 1 }
        ensures works { Works D.state D.images (PutRow stored) (writes_of self.old) self.old self.new result }
        ensures agenda { self.new.agenda ≡ self.old.agenda }
        ensures scanned { self.new.scanned ≡ self.old.scanned }
        ensures others { OthersStay (device_of (PutRow stored)) self.old self.new }
    {
        told(self.rows.put_row(stored))
    }

    fn drop_chunk(&mut self, name: ChunkName) -> Result<(), CommitFault>
        requires up { AreUp self.old }
        requires ready { IsReady D.state self.old (DropChunk name ∷ writes_of self.old) }
        ensures fuse { KeepsUnset D.state self.old self.new }
        ensures once { all_stops D.state self.new ≤ all_stops D.state self.old + 1 }
        ensures works { Works D.state D.images (DropChunk name) (writes_of self.old) self.old self.new result }
        ensures agenda { self.new.agenda ≡ self.old.agenda }
        ensures scanned { self.new.scanned ≡ self.old.scanned }
        ensures others { OthersStay (device_of (DropChunk name)) self.old self.new }
    {
        told(self.chunks.drop_chunk(name))
    }

    fn close_entry(&mut self) -> Result<(), CommitFault>
        requires up { AreUp self.old }
        requires ready { IsReady D.state self.old (CloseEntry ∷ writes_of self.old) }
        ensures fuse { KeepsUnset D.state self.old self.new }
        ensures once { all_stops D.state self.new ≤ all_stops D.state self.old + 1 }
        ensures works { Works D.state D.images CloseEntry (writes_of self.old) self.old self.new result }
        ensures agenda { self.new.agenda ≡ self.old.agenda }
        ensures scanned { self.new.scanned ≡ self.old.scanned }
        ensures others { OthersStay (device_of CloseEntry) self.old self.new }
    {
        told(self.log.close_entry())
    }

    fn put_table(&mut self, schema: &Schema, state: u8) -> Result<(), CommitFault>
        requires up { AreUp self.old }
        requires ready { IsReady D.state self.old (PutTable schema.now state ∷ writes_of self.old) }
        ensures fuse { KeepsUnset D.state self.old self.new }
        ensures once { all_stops D.state self.new ≤ all_stops D.state self.old + 1 }
        ensures works { Works D.state D.images (PutTable schema.now state)
            (writes_of self.old) self.old self.new result }
        ensures agenda { self.new.agenda ≡ self.old.agenda }
        ensures scanned { self.new.scanned ≡ self.old.scanned }
        ensures others { OthersStay (device_of (PutTable schema.now state)) self.old self.new }
    {
        told(self.rows.put_table(schema, state))
    }

    fn put_sub(
        &mut self,
        client: ClientNo,
        on: bool,
        gate: GateNo,
        period: u32,
        tolerance: u32,
    ) -> Result<(), CommitFault>
        requires up { AreUp self.old }
        requires ready { IsReady D.state self.old
            (PutSub client (terms_if on (record { gate = gate; period = period; tolerance = tolerance }))
            ∷ writes_of self.old) }
        ensures fuse { KeepsUnset D.state self.old self.new }
        ensures once { all_stops D.state self.new ≤ all_stops D.state self.old + 1 }
        ensures works { Works D.state D.images
            (PutSub client (terms_if on (record { gate = gate; period = period; tolerance = tolerance })))
            (writes_of self.old)
            self.old self.new result }
        ensures agenda { self.new.agenda ≡ self.old.agenda }
        ensures scanned { self.new.scanned ≡ self.old.scanned }
        ensures others { OthersStay (device_of
            (PutSub client (terms_if on (record { gate = gate; period = period; tolerance = tolerance }))))
            self.old self.new }
    {
        told(self.rows.put_sub(client, on, gate, period, tolerance))
    }

    // Does one write, which is no longer among those to come.
    fn perform(&mut self, task: Task) -> Result<(), CommitFault>
        requires up { AreUp self.old }
        requires ready { IsReady D.state self.old (write_of task ∷ writes_of self.old) }
        ensures fuse { KeepsUnset D.state self.old self.new }
        ensures once { all_stops D.state self.new ≤ all_stops D.state self.old + 1 }
        ensures works { Works D.state D.images (write_of task) (writes_of self.old) self.old self.new result }
        ensures agenda { self.new.agenda ≡ self.old.agenda }
        ensures scanned { self.new.scanned ≡ self.old.scanned }
        ensures others { OthersStay (device_of (write_of task)) self.old self.new }
    {
        match task {
            Task::OpenChunks => self.open_chunks(),
            Task::OpenRows => self.open_rows(),
            Task::OpenLog => self.open_log(),
            Task::OpenEntry(entry) => self.open_entry(&entry),
            Task::PutChunk(name, bytes) => self.put_chunk(name, bytes.as_slice()),
            Task::PutRow(stored) => self.put_row(stored),
            Task::DropChunk(name) => self.drop_chunk(name),
            Task::CloseEntry => self.close_entry(),
            Task::PutTable(schema, state) => self.put_table(&schema, state),
            Task::PutSub {
                client,
                on,
                gate,
                period,
                tolerance,
            } => self.put_sub(client, on, gate, period, tolerance),
        }
    }

    /// Does the next write, if there is one. It takes no memory.
    pub fn work(&mut self) -> Result<Step, CommitFault>
        requires ready { AreUp self.old → IsReady D.state self.old (writes_of self.old) }
        // A fuse that isn't set stops nothing.
        ensures fuse { KeepsUnset D.state self.old self.new }
        // It stops one call at most.
        ensures once { all_stops D.state self.new ≤ all_stops D.state self.old + 1 }
        ensures works { AreUp self.old → WorksOn D.state D.images self.old self.new result (writes_of self.old) }
        // The devices beside the write's own stay.
        ensures others { AreUp self.old → StayBeside (writes_of self.old) self.old self.new }
        ensures down { IsErrOf result CommitFault.Down ↔ IsOneDown self.old }
        ensures unchanged { IsErrOf result CommitFault.Down → self.new ≡ self.old }
        // What was promised of every moment of an update still is, and a crash of this call leaves one of them.
        ensures updating { (meaning : ChunkName → List ℕ) (before : TableData) (stored : StoredRow) → AreUp self.old
            → Runs (IsMoment meaning before stored) (devs D.state self.old) (writes_of self.old)
            → GoesOn D.state D.images (IsMoment meaning before stored) self.old self.new result }
        // And so of a recovery.
        ensures recovering { (meaning : ChunkName → List ℕ) (before : TableData) → AreUp self.old
            → Runs (IsRecovering meaning before) (devs D.state self.old) (writes_of self.old)
            → GoesOn D.state D.images (IsRecovering meaning before) self.old self.new result }
        // And so of the put of a subscription or of the table.
        ensures keeping { (meaning : ChunkName → List ℕ) → AreUp self.old
            → Runs (IsKeeping meaning) (devs D.state self.old) (writes_of self.old)
            → GoesOn D.state D.images (IsKeeping meaning) self.old self.new result }
        ensures keeping_whole { (meaning : ChunkName → List ℕ) → AreUp self.old
            → Runs (IsKeepingWhole meaning) (devs D.state self.old) (writes_of self.old)
            → GoesOn D.state D.images (IsKeepingWhole meaning) self.old self.new result }
        ensures still { (before : Devs) → AreUp self.old
            → Runs (IsStill before) (devs D.state self.old) (writes_of self.old)
            → GoesOn D.state D.images (IsStill before) self.old self.new result }
        // What is seen changes as what is held does: a row that is put is no more hidden.
        ensures shows { AreUp self.old → OnOk result
            (ShowsAlike (behind_first (writes_of self.old) (seen D.state self.old)) (seen D.state self.new)) }
        // Where nothing is hidden, nothing is behind the write.
        ensures hidden { NothingHidden self.old → NothingHidden self.new }
        ensures spared { spared_of self.new ≡ spared_of self.old }
    {
        if self.is_down() {
            return Err(CommitFault::Down);
        }
        if self.agenda.is_empty() {
            return Ok(Step::Idle);
        }
        let task = self.agenda.pop_front().unwrap();
        let step = task.step();
        self.scanned.put(&task);
        match self.perform(task) {
            Ok(()) => Ok(step),
            Err(fault) => Err(fault),
        }
    }

    /// Crashes the three disks and starts them again. What the devices hold is known once they are looked at, and no
    /// write is to be done.
    pub fn restart(&mut self, pick: u64)
        ensures chunks { chunks.Restarts D.state D.images self.old.chunks self.new.chunks }
        ensures rows { rows.Restarts D.state D.images self.old.rows self.new.rows }
        ensures log { logs.Restarts D.state D.images self.old.log self.new.log }
        ensures up { AreUp self.new }
        ensures synced { AreSynced D.state self.new }
        ensures idle { writes_of self.new ≡ [] }
        ensures hidden { NothingHidden self.new }
        ensures spared { NothingSpared self.new }
        // What was promised of each crash since an earlier moment holds of what is there now.
        ensures left { (start : TableDevs D) (a b : Devs) → DevsLeave D.state D.images start self.old (IsEither a b)
            → IsEither a b (devs D.state self.new) × AreSound D.state self.new }
        // And each crash since then leaves one of them.
        ensures since { (start : TableDevs D) (a b : Devs) → DevsLeave D.state D.images start self.old (IsEither a b)
            → DevsLeave D.state D.images start self.new (IsEither a b) }
        // Where nothing was at work, all is as it was.
        ensures rests { AreUp self.old → AreSynced D.state self.old → AreSound D.state self.old
            → (devs D.state self.new ≡ devs D.state self.old) × AreSound D.state self.new }
        ensures rows_left { (start : TableDevs D) (a b : TableData)
            → RowsLeave D.state D.images start self.old (IsEither a b)
            → IsEither a b (devs D.state self.new).held × RowsLeave D.state D.images start self.new (IsEither a b) }
    {
        self.agenda.clear();
        self.scanned = Scanned::nothing(self.alloc);
        self.chunks.restart(pick);
        self.rows.restart(pick);
        self.log.restart(pick);
    }

    /// Finds what the three disks hold, whatever their bytes are. It reads each payload once and writes nothing. The
    /// vaults are then unopened.
    pub fn look(&mut self) -> Result<(), CommitFault>
        requires synced { AreSynced D.state self.old }
        ensures fuse { AreUp self.old → KeepsUnset D.state self.old self.new }
        ensures cause { AreUp self.old → HasCause D.state self.old self.new result }
        ensures looked { OnOk result (AreLookedAt D.state self.new) }
        ensures same { OnOk result (devs D.state self.new ≡ devs D.state self.old) }
        ensures sound { OnOk result (AreSound D.state self.old → AreSound D.state self.new) }
        ensures room { OnOk result (HaveOpenings D.state self.new) }
        // Where the files stand for what is held, each crash at any moment leaves it.
        ensures any_moment { AreUp self.old → AreSound D.state self.old
            → DevsLeave D.state D.images self.old self.new (λ d. d ≡ devs D.state self.old) }
        ensures rows_left { AreUp self.old → AreSound D.state self.old
            → RowsLeave D.state D.images self.old self.new (λ held. held ≡ (devs D.state self.old).held) }
        ensures leave { AreUp self.old → AreSound D.state self.old → AllLeave D.state D.images self.old self.new }
        ensures agenda { self.new.agenda ≡ self.old.agenda }
        ensures hidden { OnOk result (NothingHidden self.new) }
        ensures spared { OnOk result (NothingSpared self.new) }
    {
        self.chunks.look()?;
        self.rows.look()?;
        self.log.look()?;
        self.scanned = Scanned::nothing(self.alloc);
        Ok(())
    }

    /// Makes the three disks those of no table. The devices are then at rest.
    pub fn format(&mut self) -> Result<(), CommitFault>
        ensures fuse { AreUp self.old → KeepsUnset D.state self.old self.new }
        ensures cause { AreUp self.old → HasCause D.state self.old self.new result }
        ensures rests { OnOk result (IsReady D.state self.new []) }
        ensures empty { OnOk result (devs D.state self.new ≡ nothing) }
        // Of blank disks a crash at any moment leaves nothing.
        ensures blank { AreUp self.old → AreBlank D.state self.old
            → DevsLeave D.state D.images self.old self.new (λ d. d ≡ nothing) }
        // And so it does of each by itself, whatever goes before or comes behind.
        ensures none_left { AreUp self.old → AreBlank D.state self.old
            → NoneLeave D.state D.images self.old self.new }
        ensures idle { writes_of self.new ≡ [] }
        ensures hidden { NothingHidden self.new }
        ensures spared { NothingSpared self.new }
    {
        self.agenda.clear();
        self.scanned = Scanned::nothing(self.alloc);
        self.chunks.format()?;
        self.rows.format()?;
        self.log.format()?;
        Ok(())
    }
}
