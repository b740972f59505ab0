//! The end of a plan that was cut short.
ghost use Rattle.std.specs.Prelude.{◌≡◌, ◌↔◌, ◌+◌, ◌*◌, ◌≤◌, ◌++◌, ◌∷◌, [], List, length, map, IfOk, OnOk, IsErrOf};
ghost use Rattle.std.specs.Prelude.{option_map, IsSome, IfSome, None, ◌==◌, ◌&&◌, nat_lt, filter};
ghost use Rattle.std.specs.BTreeSet.{keys};
ghost use Rattle.std.specs.Map.{keys_of};
ghost use Rattle.std.specs.List.Sorted.{IsStrictlySortedBy};
ghost use Rattle.vault.specs.Limit.{payload_most};
ghost use Rattle.vault.specs.Standing.{IsUp};
ghost use Rattle.held_value.specs.declared.local_name.LocalName.{LocalName};
ghost use Rattle.chunk_store.specs.Payload.{name_cmp};
ghost use Rattle.chunk_store.specs.Standing as chunks;
ghost use Rattle.slot_store.specs.Data.{record_of};
ghost use Rattle.slot_store.specs.Spelling.{HasRowSpelling, HasRecordSpelling};
ghost use Rattle.slot_store.specs.Standing as slots;
ghost use Rattle.plan_log.specs.Spelling.{HasCommit, commit_payload};
ghost use Rattle.plan_log.specs.Journal.{Idle, Intended, Committed, intend_of, committed_plan};
ghost use Rattle.plan_log.specs.Standing as journals;
ghost use Rattle.client_journal.specs.Devs.{local_of, OpenJournal, OpenSlots, OpenChunks, PutDone};
ghost use Rattle.client_journal.specs.Redone.{row_behind, record_for};
ghost use Rattle.client_journal.specs.NamedSlots.{IsNotCommitted};
ghost use Rattle.client_journal.specs.Asking.{AllLeave};
ghost use Rattle.client_journal.specs.Agenda.{drops, slot_writes, record_writes, AreLeftovers};
ghost use Rattle.client_journal.specs.Made.{bytes_of_row, bytes_of_record, IsOld};
ghost use Rattle.client_journal.specs.Recover.{rolled_of, AreStillThere, AreRecoveryWrites, IsStarting, Starts};
ghost use Rattle.client_journal.specs.Recover.{Recovers};
ghost use Rattle.client_journal.specs.Standing.{devs, write_of, AreUp, IsOneDown, IsReady};
ghost use Rattle.client_journal.specs.Unset.{KeepsUnset};

use crate::Journal;
use crate::fault::{JournalFault, of_chunks, of_journal, of_slots};
use crate::made::{add_drops, add_redo, bytes_of_record, bytes_of_row, row_slots};
use crate::numbering::record_from;
use crate::rolled::{Redone, Rolled};
use crate::task::Task;
use chunk_store::{ChunkDev, Names};
use disk_trait::Disk;
use held_value::LocalName;
use plan_log::{Commit, Intend, RowChange};
use slot_store::{RowSlots, TableRecord};
use stab_base::{ChunkName, RowId, TableNo};
use std::alloc::{AllocError, Global};
use std::collections::{BTreeSet, VecDeque};

// For how many drops there is room at once.
const DROPS_MAX: usize = 16_777_216;

fn local_names(alloc: Global, names: &[ChunkName]) -> Result<Vec<LocalName>, AllocError>
    ensures { IfOk result (λ made. made.items ≡ map local_of names.now) }
{
    names
        .iter()
        .map(|name| LocalName {
            plan: name.version,
            ordinal: name.ordinal,
        })
        .collect(alloc)
}

// Notes a name that has a chunk.
fn note_there<D: Disk + Drop>(
    device: &ChunkDev<D>,
    name: LocalName,
    found: &mut BTreeSet<ChunkName>,
) -> Result<(), AllocError>
    requires up { IsUp (chunks.vault_of device.now) }
    requires looked { chunks.IsLookedAt D.state device.now }
    ensures { OnOk result ((old : List LocalName)
        → AreStillThere (chunks.chunks D.state device.now) old (keys found.old)
        → AreStillThere (chunks.chunks D.state device.now) (old ++ name ∷ []) (keys found.new)) }
{
    let name = ChunkName {
        version: name.plan,
        ordinal: name.ordinal,
    };
    if device.has(name) {
        found.insert(name)?;
    }
    Ok(())
}

/// Those of these names that have a chunk, each once, in rising order.
fn still_there<D: Disk + Drop>(
    alloc: Global,
    device: &ChunkDev<D>,
    old: &[LocalName],
) -> Result<Names, AllocError>
    requires up { IsUp (chunks.vault_of device.now) }
    requires looked { chunks.IsLookedAt D.state device.now }
    ensures names { IfOk result (AreStillThere (chunks.chunks D.state device.now) old.now) }
    ensures rising { IfOk result (λ names. IsStrictlySortedBy name_cmp names) }
{
    let mut found = BTreeSet::new(alloc);
    for name in old {
        note_there(device, *name, &mut found)?;
    }
    let names: Vec<ChunkName> = found.iter().copied().collect(alloc)?;
    Ok(Names::from_vec(names))
}

fn row_of(change: &Option<RowChange>) -> Option<RowId>
    ensures { result ≡ option_map (λ change. change.row) change.now }
{
    change.as_ref().map(|change| change.row)
}

fn torn_by(intend: &Intend) -> Option<(TableNo, RowId)>
    ensures { record { redone = None; torn = result } ≡ rolled_of (Intended intend.now) }
{
    if intend.server {
        Some((intend.table, intend.row))
    } else {
        None
    }
}

fn opening_tasks(alloc: Global) -> Result<VecDeque<Task>, AllocError>
    ensures { IfOk result (λ tasks. map write_of tasks.items ≡ OpenJournal ∷ (OpenSlots ∷ (OpenChunks ∷ []))) }
{
    let mut tasks = VecDeque::new(alloc);
    tasks.push_back(Task::OpenJournal)?;
    tasks.push_back(Task::OpenSlots)?;
    tasks.push_back(Task::OpenChunks)?;
    Ok(tasks)
}

// The openings, and the drops of these names.
fn undoing_tasks(alloc: Global, names: &[LocalName]) -> Result<VecDeque<Task>, AllocError>
    ensures { IfOk result (λ tasks. map write_of tasks.items
        ≡ OpenJournal ∷ (OpenSlots ∷ (OpenChunks ∷ drops names.now))) }
{
    let mut tasks = opening_tasks(alloc)?;
    add_drops(&mut tasks, names)?;
    Ok(tasks)
}

// The openings, and what is behind a commit.
fn redoing_tasks(
    alloc: Global,
    row: Option<RowSlots>,
    table: Option<TableRecord>,
    names: &[LocalName],
) -> Result<VecDeque<Task>, AllocError>
    ensures { IfOk result (λ tasks. map write_of tasks.items ≡ OpenJournal ∷ (OpenSlots ∷ (OpenChunks
        ∷ slot_writes row (record_writes table (drops names.now ++ PutDone ∷ []))))) }
{
    let mut tasks = opening_tasks(alloc)?;
    add_redo(&mut tasks, row, table, names)?;
    Ok(tasks)
}

// How many bytes are put in the slots behind a commit.
fn held_bytes(
    alloc: Global,
    row: &Option<RowSlots>,
    table: &Option<TableRecord>,
) -> Result<u64, AllocError>
    requires row { IfSome row.now HasRowSpelling }
    requires row_short { bytes_of_row row.now ≤ payload_most }
    requires table { IfSome table.now HasRecordSpelling }
    requires table_short { bytes_of_record table.now ≤ payload_most }
    ensures { IfOk result (λ size. size ≡ bytes_of_row row.now + bytes_of_record table.now) }
{
    let row = bytes_of_row(alloc, row)?;
    let table = bytes_of_record(alloc, table)?;
    Ok(row + table)
}

fn redone_of(commit: Commit) -> Rolled
    ensures { result ≡ rolled_of (Committed commit) }
{
    let redone = Redone {
        table: commit.table,
        row: row_of(&commit.row),
        tells: commit.tells,
    };
    Rolled {
        redone: Some(redone),
        torn: None,
    }
}

impl<D: Disk + Drop> Journal<D> {
    fn start_chunks(&mut self, puts: u64, bytes: u64) -> Result<(), JournalFault>
        requires starting { IsStarting D.state self.old }
        requires puts { puts ≤ 16777216 }
        requires bytes { bytes ≤ 8388608 * puts }
        ensures starts { Starts D.state D.images self.old self.new result }
        ensures room { OnOk result (chunks.HasRoom D.state self.new.chunks 1 puts bytes) }
    {
        of_chunks(self.chunks.reserve(puts, bytes))
    }

    fn start_slots(&mut self, puts: u64, bytes: u64) -> Result<(), JournalFault>
        requires starting { IsStarting D.state self.old }
        requires puts { puts ≤ 16777216 }
        requires bytes { bytes ≤ 8388608 * puts }
        ensures starts { Starts D.state D.images self.old self.new result }
        ensures room { OnOk result (slots.HasRoom D.state self.new.slots 1 puts bytes) }
        ensures chunks { self.new.chunks ≡ self.old.chunks }
    {
        of_slots(self.slots.reserve(puts, bytes))
    }

    fn start_journal(&mut self, puts: u64, bytes: u64) -> Result<(), JournalFault>
        requires starting { IsStarting D.state self.old }
        requires puts { puts ≤ 16777216 }
        requires bytes { bytes ≤ 8388608 * puts }
        ensures starts { Starts D.state D.images self.old self.new result }
        ensures room { OnOk result (journals.HasRoom D.state self.new.journal 1 puts bytes) }
        ensures chunks { self.new.chunks ≡ self.old.chunks }
        ensures slots { self.new.slots ≡ self.old.slots }
    {
        of_journal(self.journal.reserve(puts, bytes))
    }

    // Room for so many drops, for slots and a record of so many bytes, and for the end of a plan.
    fn start_room(&mut self, drops: usize, held: u64) -> Result<(), JournalFault>
        requires starting { IsStarting D.state self.old }
        requires held { held ≤ 16777216 }
        ensures starts { Starts D.state D.images self.old self.new result }
        ensures chunk_room { OnOk result (chunks.HasRoom D.state self.new.chunks 1 drops (13 * drops)) }
        ensures slot_room { OnOk result (slots.HasRoom D.state self.new.slots 1 2 held) }
        ensures journal_room { OnOk result (journals.HasRoom D.state self.new.journal 1 1 9) }
    {
        if drops > DROPS_MAX {
            return Err(JournalFault::Memory);
        }
        self.start_chunks(drops as u64, 13 * drops as u64)?;
        self.start_slots(2, held)?;
        self.start_journal(1, 9)
    }

    // The commit at work.
    fn read_commit(&mut self) -> Result<Commit, JournalFault>
        requires starting { IsStarting D.state self.old }
        requires at_work { IsSome (committed_plan (devs D.state self.old).journal.at_work) }
        ensures starts { Starts D.state D.images self.old self.new result }
        ensures commit { IfOk result (λ commit. (devs D.state self.old).journal.at_work ≡ Committed commit) }
        ensures spelled { IfOk result HasCommit }
        ensures short { IfOk result (λ commit. length (commit_payload commit) ≤ payload_most) }
    {
        of_journal(self.journal.committed())
    }

    // The names of an intend that have a chunk.
    fn told_names(&mut self, intend: &Intend) -> Result<Names, JournalFault>
        requires starting { IsStarting D.state self.old }
        ensures starts { Starts D.state D.images self.old self.new result }
        ensures names { IfOk result (λ names. names
            ≡ filter (λ name. (name.version == intend.now.plan) && nat_lt name.ordinal intend.now.chunks)
            (keys_of (devs D.state self.old).chunks)) }
        ensures rising { IfOk result (λ names. IsStrictlySortedBy name_cmp names) }
    {
        of_chunks(self.chunks.names_below(intend.plan, intend.chunks))
    }

    // The chunks of an intend that are there.
    fn brought_names(&mut self, intend: &Intend) -> Result<Vec<LocalName>, JournalFault>
        requires starting { IsStarting D.state self.old }
        requires at_work { (devs D.state self.old).journal.at_work ≡ Intended intend.now }
        ensures starts { Starts D.state D.images self.old self.new result }
        ensures left { IfOk result (λ names. AreLeftovers (devs D.state self.old) names.items) }
    {
        let there = self.told_names(intend)?;
        let names = local_names(self.alloc, there.as_slice())?;
        Ok(names)
    }
}

impl<D: Disk + Drop> Journal<D> {
    fn intended(&self) -> Option<Intend>
        requires up { IsUp (journals.vault_of self.now.journal) }
        requires looked { journals.IsLookedAt D.state self.now.journal }
        ensures { result ≡ intend_of (devs D.state self.now).journal.at_work }
    {
        self.journal.intended().copied()
    }

    // No plan is at work.
    fn rest(&mut self) -> Result<(Rolled, VecDeque<Task>), JournalFault>
        requires starting { IsStarting D.state self.old }
        requires at_work { (devs D.state self.old).journal.at_work ≡ Idle }
        ensures starts { Starts D.state D.images self.old self.new result }
        ensures answer { IfOk result (λ p. p.0 ≡ rolled_of (devs D.state self.old).journal.at_work) }
        ensures tasks { IfOk result (λ p. AreRecoveryWrites (devs D.state self.old) (map write_of p.1.items)) }
        ensures ready { IfOk result (λ p. IsReady D.state self.new (map write_of p.1.items)) }
    {
        let tasks = opening_tasks(self.alloc)?;
        let rolled = Rolled {
            redone: None,
            torn: None,
        };
        Ok((rolled, tasks))
    }

    // What is left over of an intend, and the writes that drop it.
    fn undo_intend(&mut self, intend: &Intend) -> Result<(Rolled, VecDeque<Task>), JournalFault>
        requires starting { IsStarting D.state self.old }
        requires at_work { (devs D.state self.old).journal.at_work ≡ Intended intend.now }
        ensures starts { Starts D.state D.images self.old self.new result }
        ensures answer { IfOk result (λ p. p.0 ≡ rolled_of (devs D.state self.old).journal.at_work) }
        ensures tasks { IfOk result (λ p. AreRecoveryWrites (devs D.state self.old) (map write_of p.1.items)) }
        ensures ready { IfOk result (λ p. IsReady D.state self.new (map write_of p.1.items)) }
    {
        let names = self.brought_names(intend)?;
        self.start_room(names.len(), 0)?;
        let tasks = undoing_tasks(self.alloc, &names)?;
        let rolled = Rolled {
            redone: None,
            torn: torn_by(intend),
        };
        Ok((rolled, tasks))
    }

    // What is left over of an intend, if one is at work, and the writes that drop it.
    fn undo(&mut self) -> Result<(Rolled, VecDeque<Task>), JournalFault>
        requires starting { IsStarting D.state self.old }
        requires not_committed { IsNotCommitted (devs D.state self.old).journal.at_work }
        ensures starts { Starts D.state D.images self.old self.new result }
        ensures answer { IfOk result (λ p. p.0 ≡ rolled_of (devs D.state self.old).journal.at_work) }
        ensures tasks { IfOk result (λ p. AreRecoveryWrites (devs D.state self.old) (map write_of p.1.items)) }
        ensures ready { IfOk result (λ p. IsReady D.state self.new (map write_of p.1.items)) }
    {
        match self.intended() {
            Some(intend) => self.undo_intend(&intend),
            None => self.rest(),
        }
    }

    // The drops of a commit that are still there.
    fn left_of(&self, commit: &Commit) -> Result<Vec<LocalName>, AllocError>
        requires up { IsUp (chunks.vault_of self.now.chunks) }
        requires looked { chunks.IsLookedAt D.state self.now.chunks }
        requires at_work { (devs D.state self.now).journal.at_work ≡ Committed commit.now }
        ensures { IfOk result (λ names. AreLeftovers (devs D.state self.now) names.items) }
    {
        let left = still_there(self.alloc, &self.chunks, commit.drops.as_slice())?;
        let names = local_names(self.alloc, left.as_slice())?;
        Ok(names)
    }

    // The slots of a commit's row, and its table's record.
    fn changed_by(
        &self,
        commit: &Commit,
    ) -> Result<(Option<RowSlots>, Option<TableRecord>), AllocError>
        requires up { IsUp (slots.vault_of self.now.slots) }
        requires looked { slots.IsLookedAt D.state self.now.slots }
        ensures row { IfOk result (λ p. p.0 ≡ row_behind commit.now) }
        ensures table { IfOk result (λ p. p.1
            ≡ record_for (record_of (devs D.state self.now).held commit.now.table) commit.now) }
        ensures old { OnOk result (IsOld (record_of (devs D.state self.now).held commit.now.table)) }
    {
        let old = self.slots.record(commit.table)?;
        let table = record_from(commit.table, &commit.new_record, commit.position, old)?;
        let row = row_slots(commit.table, commit.last, &commit.row)?;
        Ok((row, table))
    }

    // Makes ready the writes that redo a commit.
    fn redo_tasks(&mut self, commit: &Commit) -> Result<VecDeque<Task>, JournalFault>
        requires starting { IsStarting D.state self.old }
        requires at_work { (devs D.state self.old).journal.at_work ≡ Committed commit.now }
        requires spelled { HasCommit commit.now }
        requires short { length (commit_payload commit.now) ≤ payload_most }
        ensures starts { Starts D.state D.images self.old self.new result }
        ensures tasks { IfOk result (λ tasks. AreRecoveryWrites (devs D.state self.old) (map write_of tasks.items)) }
        ensures ready { IfOk result (λ tasks. IsReady D.state self.new (map write_of tasks.items)) }
    {
        let names = self.left_of(commit)?;
        let (row, table) = self.changed_by(commit)?;
        let held = held_bytes(self.alloc, &row, &table)?;
        self.start_room(names.len(), held)?;
        let tasks = redoing_tasks(self.alloc, row, table, &names)?;
        Ok(tasks)
    }

    // The commit at work, and the writes that redo it.
    fn redo(&mut self) -> Result<(Rolled, VecDeque<Task>), JournalFault>
        requires starting { IsStarting D.state self.old }
        requires at_work { IsSome (committed_plan (devs D.state self.old).journal.at_work) }
        ensures starts { Starts D.state D.images self.old self.new result }
        ensures answer { IfOk result (λ p. p.0 ≡ rolled_of (devs D.state self.old).journal.at_work) }
        ensures tasks { IfOk result (λ p. AreRecoveryWrites (devs D.state self.old) (map write_of p.1.items)) }
        ensures ready { IfOk result (λ p. IsReady D.state self.new (map write_of p.1.items)) }
    {
        let commit = self.read_commit()?;
        let tasks = self.redo_tasks(&commit)?;
        Ok((redone_of(commit), tasks))
    }

    // What is made of the plan at work, and the writes of it.
    pub(crate) fn rolled(&mut self) -> Result<(Rolled, VecDeque<Task>), JournalFault>
        requires starting { IsStarting D.state self.old }
        ensures starts { Starts D.state D.images self.old self.new result }
        ensures answer { IfOk result (λ p. p.0 ≡ rolled_of (devs D.state self.old).journal.at_work) }
        ensures tasks { IfOk result (λ p. AreRecoveryWrites (devs D.state self.old) (map write_of p.1.items)) }
        ensures ready { IfOk result (λ p. IsReady D.state self.new (map write_of p.1.items)) }
    {
        match self.journal.committed_plan() {
            Some(_) => self.redo(),
            None => self.undo(),
        }
    }

    /// Takes on the end of a plan that was cut short, if one was: each vault is opened; the chunks of an intend that
    /// are there are dropped; of a commit the slots of its row and the record of its table are put again, its drops
    /// that are still there are dropped, and it is done. These writes are then to be done, and take no memory. It is
    /// called once the devices were looked at, and reads the commit.
    pub fn recover(&mut self) -> Result<Rolled, JournalFault>
        requires { AreUp self.old → IsStarting D.state self.old }
        ensures fuse { KeepsUnset D.state self.old self.new }
        ensures recovers { AreUp self.old → Recovers D.state D.images self.old self.new result }
        // So a call that reads can stand before or behind it.
        ensures leave { AreUp self.old → AllLeave D.state D.images self.old self.new }
        ensures down { IsErrOf result JournalFault.Down ↔ IsOneDown self.old }
        ensures unchanged { IsErrOf result JournalFault.Down → self.new ≡ self.old }
    {
        if self.is_down() {
            return Err(JournalFault::Down);
        }
        let (rolled, tasks) = self.rolled()?;
        self.agenda = tasks;
        Ok(rolled)
    }
}
