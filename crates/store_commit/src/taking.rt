//! How a table's devices take writes on. Nothing is written here: what the writes need is made ready.
ghost use Rattle.std.specs.Prelude.{◌≡◌, ◌+◌, ◌*◌, ◌<◌, ◌≤◌, ◌⊎◌, ℕ, List, [], ◌∷◌, length, map, sum_by, IfOk, OnOk};
ghost use Rattle.std.specs.Prelude.{IsErrOf, IsOk};
ghost use Rattle.std.specs.List.{AllByRecursion};
ghost use Rattle.std.specs.BTreeSet.{contains};
ghost use Rattle.vault.specs.Limit.{payload_most};
ghost use Rattle.vault.specs.Standing.{IsUp};
ghost use Rattle.stab_base.specs.declared.chunk_name.ChunkName.{ChunkName};
ghost use Rattle.stab_base.specs.declared.limits.TheConstants.{NUMBER_MAX};
ghost use Rattle.chunk_store.specs.Standing as chunks;
ghost use Rattle.row_store.specs.Data.{row_of, id_cmp, IsTableVersion};
ghost use Rattle.row_store.specs.Reading.{terms_if};
ghost use Rattle.row_store.specs.Spelling.{HasStoredSpelling, row_payload, table_payload, IsState, IsClient};
ghost use Rattle.row_store.specs.Standing as rows;
ghost use Rattle.status_log.specs.Entry.{entry_of, HasSpelling};
ghost use Rattle.status_log.specs.Standing as logs;
ghost use Rattle.value_codec.specs.SchemaSpelling.{HasSchemaSpelling};
ghost use Rattle.store_commit.specs.Devs.{PutTable, PutSub};
ghost use Rattle.store_commit.specs.NamedChunks.{NamedChunks};
ghost use Rattle.store_commit.specs.Agenda.{update_writes, Replaces, meaning_with, IsMoment, IsKeeping, Runs};
ghost use Rattle.store_commit.specs.Agenda.{IsKeepingWhole, IsStill};
ghost use Rattle.store_commit.specs.There.{WholeRows, MayBeWhole, HasNoOther};
ghost use Rattle.store_commit.specs.Standing.{write_of, writes_of, AreUp, IsReady, devs, seen, NothingHidden};
ghost use Rattle.store_commit.specs.TakesOn.{Waits, IsStanding, IsFree, TakesOn, IsPlan, IsNewestOf};
ghost use Rattle.store_commit.specs.Update.{entry_for, stored_for, IsNextVersion, IsUpdate, at_work, opened_first};
ghost use Rattle.store_commit.specs.Unset.{KeepsUnset};

use crate::TableDevs;
use crate::fault::{CommitFault, found_row, of_chunks, of_log, of_rows};
use crate::plan::{
    Plan, bytes_of, lasts_of, named_content, names_of, old_names, standing_names, update_tasks,
    with_last,
};
use crate::task::Task;
use crate::update::Update;
use disk_trait::Disk;
use row_store::{LastWrite, LastWrites, StoredRow, row_size};
use row_value::Schema;
use stab_base::{ClientNo, GateNo, NUMBER_MAX, RowId, RowVersion, Version};
use status_log::LogEntry;
use std::alloc::{AllocError, Global};
use std::collections::{BTreeSet, VecDeque};
use value_codec::put_schema;

fn one_task(alloc: Global, task: Task) -> Result<VecDeque<Task>, AllocError>
    ensures { IfOk result (λ tasks. tasks.items ≡ task ∷ []) }
{
    let mut tasks = VecDeque::new(alloc);
    tasks.push_back(task)?;
    Ok(tasks)
}

fn table_task(alloc: Global, schema: &Schema, state: u8) -> Result<VecDeque<Task>, AllocError>
    ensures { IfOk result (λ tasks. map write_of tasks.items ≡ PutTable schema.now state ∷ []) }
{
    one_task(alloc, Task::PutTable(schema.copy()?, state))
}

// How many bytes the payload of a table has.
fn table_size(alloc: Global, schema: &Schema, state: u8) -> Result<u64, AllocError>
    requires spelled { HasSchemaSpelling schema.now }
    requires short { length (table_payload schema.now state) ≤ payload_most }
    ensures { IfOk result (λ size. size ≡ length (table_payload schema.now state)) }
{
    let mut payload = vec![in alloc; 2u8]?;
    put_schema(&mut payload, schema)?;
    payload.push(state)?;
    Ok(payload.len() as u64)
}

/// The greatest version of these rows but the hidden ones, else 0.
pub(crate) fn newest_of(hidden: &BTreeSet<RowId>, rows: &[RowVersion]) -> Version
    ensures { IsNewestOf (contains id_cmp hidden.now) rows.now result }
{
    let mut newest = 0;
    for row in rows {
        if !hidden.contains(&row.row) {
            newest = row.version.max(newest);
        }
    }
    newest
}

impl<D: Disk + Drop> TableDevs<D> {
    // The version of the entry that is opened next.
    fn next_opened(&self) -> Option<Version>
        ensures { result ≡ opened_first (writes_of self.now) }
    {
        match self.agenda.front() {
            Some(task) => task.opens(),
            None => None,
        }
    }

    /// The version of the entry that is opened next or is open, else 0. It takes no memory.
    pub fn at_work(&self) -> Version
        requires up { IsUp (logs.vault_of self.now.log) }
        requires looked { logs.IsLookedAt D.state self.now.log }
        ensures { result ≡ at_work (devs D.state self.now) (writes_of self.now) }
    {
        if let Some(version) = self.next_opened() {
            return version;
        }
        match self.log.pending() {
            Some(entry) => entry.version,
            None => 0,
        }
    }

    // Whether writes can be taken on.
    fn free(&self) -> Result<(), CommitFault>
        requires ready { AreUp self.now → IsReady D.state self.now (writes_of self.now) }
        ensures { IsFree D.state self.now result }
    {
        if self.is_down() {
            return Err(CommitFault::Down);
        }
        if !self.idle() {
            return Err(CommitFault::Busy {
                with: self.at_work(),
            });
        }
        Ok(())
    }

    // The row that stands, if one does and isn't hidden. It is one read of the disk.
    fn standing(&mut self, row: &RowId) -> Result<Option<StoredRow>, CommitFault>
        requires up { AreUp self.old }
        requires rests { IsReady D.state self.old [] }
        ensures waits { Waits D.state D.images self.old self.new result }
        ensures row { IfOk result (IsStanding (seen D.state self.old).held row.now) }
        ensures scanned { self.new.scanned ≡ self.old.scanned }
    {
        if self.scanned.hidden.contains(row) {
            return Ok(None);
        }
        found_row(self.rows.get_row(row))
    }

    // The greatest version of the rows that are there.
    fn newest(&mut self) -> Result<Version, CommitFault>
        requires up { AreUp self.old }
        requires rests { IsReady D.state self.old [] }
        ensures waits { Waits D.state D.images self.old self.new result }
        ensures greatest { IfOk result (IsTableVersion (seen D.state self.old).held) }
        ensures most { IfOk result (λ version. version ≤ NUMBER_MAX) }
        ensures scanned { self.new.scanned ≡ self.old.scanned }
        ensures unchanged { NothingHidden self.old → self.new ≡ self.old }
        ensures known { NothingHidden self.old → IsOk result }
    {
        let most = self.rows.table_version();
        if self.scanned.hidden.is_empty() {
            return Ok(most);
        }
        let rows = of_rows(self.rows.changed_since(0))?;
        Ok(newest_of(&self.scanned.hidden, rows.as_slice()))
    }

    fn reserve_chunks(&mut self, puts: u64, bytes: u64) -> Result<(), CommitFault>
        requires up { AreUp self.old }
        requires rests { IsReady D.state self.old [] }
        requires puts { puts ≤ 16777216 }
        requires bytes { bytes ≤ 8388608 * puts }
        ensures waits { Waits D.state D.images self.old self.new result }
        ensures scanned { self.new.scanned ≡ self.old.scanned }
        ensures room { OnOk result (chunks.HasRoom D.state self.new.chunks 1 puts bytes) }
    {
        of_chunks(self.chunks.reserve(puts, bytes))
    }

    fn reserve_rows(&mut self, puts: u64, bytes: u64) -> Result<(), CommitFault>
        requires up { AreUp self.old }
        requires rests { IsReady D.state self.old [] }
        requires puts { puts ≤ 16777216 }
        requires bytes { bytes ≤ 8388608 * puts }
        ensures fuse { KeepsUnset D.state self.old self.new }
        ensures waits { Waits D.state D.images self.old self.new result }
        ensures scanned { self.new.scanned ≡ self.old.scanned }
        ensures room { OnOk result (rows.HasRoom D.state self.new.rows 1 puts bytes) }
        ensures chunks { self.new.chunks ≡ self.old.chunks }
    {
        of_rows(self.rows.reserve(puts, bytes))
    }

    fn reserve_log(&mut self, puts: u64, bytes: u64) -> Result<(), CommitFault>
        requires up { AreUp self.old }
        requires rests { IsReady D.state self.old [] }
        requires puts { puts ≤ 16777216 }
        requires bytes { bytes ≤ 8388608 * puts }
        ensures waits { Waits D.state D.images self.old self.new result }
        ensures scanned { self.new.scanned ≡ self.old.scanned }
        ensures room { OnOk result (logs.HasRoom D.state self.new.log 1 puts bytes) }
        ensures chunks { self.new.chunks ≡ self.old.chunks }
        ensures rows { self.new.rows ≡ self.old.rows }
    {
        of_log(self.log.reserve(puts, bytes))
    }

    // Makes room for all writes of an update.
    fn reserve_for(&mut self, plan: &Plan) -> Result<(), CommitFault>
        requires up { AreUp self.old }
        requires rests { IsReady D.state self.old [] }
        requires plan { IsPlan (entry_of plan.now.entry) plan.now.fresh.items plan.now.stored }
        ensures waits { Waits D.state D.images self.old self.new result }
        ensures scanned { self.new.scanned ≡ self.old.scanned }
        ensures chunk_room { OnOk result (chunks.HasRoom D.state self.new.chunks 1
            (length plan.now.fresh.items + length plan.now.entry.old.items)
            (13 * (length plan.now.fresh.items + length plan.now.entry.old.items)
            + sum_by length plan.now.fresh.items)) }
        ensures row_room { OnOk result (rows.HasRoom D.state self.new.rows 1 1
            (length (row_payload plan.now.stored))) }
        ensures log_room { OnOk result (logs.HasRoom D.state self.new.log 1 2
            (62 + 12 * length plan.now.entry.old.items)) }
    {
        let puts = (plan.fresh.len() + plan.entry.old.len()) as u64;
        let size = row_size(&plan.stored).unwrap() as u64;
        self.reserve_chunks(puts, 13 * puts + bytes_of(&plan.fresh))?;
        self.reserve_rows(1, size)?;
        self.reserve_log(2, 62 + 12 * plan.entry.old.len() as u64)
    }

    // What an update makes of the row that stands.
    fn plan(
        &self,
        version: Version,
        standing: &Option<StoredRow>,
        update: Update,
    ) -> Result<Plan, AllocError>
        requires up { AreUp self.now }
        requires looked { chunks.IsLookedAt D.state self.now.chunks }
        requires standing { row_of (seen D.state self.now).held update.row ≡ standing.now }
        requires few { length update.fresh < 4294967296 }
        ensures entry { IfOk result (λ plan. entry_of plan.entry ≡ entry_for (seen D.state self.now) version update) }
        ensures fresh { IfOk result (λ plan. plan.fresh.items ≡ update.fresh) }
        ensures stored { IfOk result (λ plan. plan.stored ≡ stored_for (seen D.state self.now) version update) }
        ensures row { length update.row ≡ 16 }
        ensures number { update.number < 18446744073709551616 }
        ensures base { update.base < 18446744073709551616 }
    {
        // An id has sixteen bytes.
        let _id = update.row.to_bytes();
        let alloc = self.alloc;
        let names = standing_names(alloc, standing)?;
        let kept = names_of(alloc, &update.content)?;
        let old = old_names(alloc, &self.chunks, &names, &kept)?;
        let last = LastWrite {
            client: update.client,
            number: update.number,
            version,
        };
        let pairs = with_last(alloc, lasts_of(standing), last)?;
        let fresh = update.fresh.into_vec();
        Ok(Plan {
            entry: LogEntry {
                version,
                row: update.row,
                client: update.client,
                number: update.number,
                base: update.base,
                fresh: fresh.len() as u32,
                old,
            },
            fresh,
            stored: StoredRow {
                row: update.row,
                version,
                content: named_content(alloc, version, update.content)?,
                pairs: LastWrites::from_vec(pairs),
            },
        })
    }

    // Works an update out, and makes room for its writes.
    fn prepare(&mut self, version: Version, update: Update) -> Result<VecDeque<Task>, CommitFault>
        requires up { AreUp self.old }
        requires rests { IsReady D.state self.old [] }
        requires closed { (devs D.state self.old).pending ≡ None }
        requires version { version ≤ NUMBER_MAX }
        requires update { IsUpdate (seen D.state self.old) update }
        ensures waits { Waits D.state D.images self.old self.new result }
        ensures scanned { self.new.scanned ≡ self.old.scanned }
        ensures tasks { IfOk result (λ tasks. map write_of tasks.items
            ≡ update_writes (entry_for (seen D.state self.old) version update) update.fresh
            (stored_for (seen D.state self.old) version update)) }
        ensures ready { IfOk result (λ tasks. IsReady D.state self.new (map write_of tasks.items)) }
    {
        let standing = self.standing(&update.row)?;
        let plan = self.plan(version, &standing, update)?;
        self.reserve_for(&plan)?;
        let Plan {
            entry,
            fresh,
            stored,
        } = plan;
        let tasks = update_tasks(self.alloc, entry, fresh, stored)?;
        Ok(tasks)
    }

    /// Takes on a client's write to a row, and gives it the version above the table's. Its writes are then to be done,
    /// and take no memory: the entry is opened, each new chunk is put, then the row, each chunk that the row no more
    /// names is dropped, and the entry is closed. It reads the row that stands. A hidden row counts as one that isn't
    /// there.
    pub fn begin(&mut self, update: Update) -> Result<Version, CommitFault>
        requires ready { AreUp self.old → IsReady D.state self.old (writes_of self.old) }
        requires closed { AreUp self.old → writes_of self.old ≡ [] → (devs D.state self.old).pending ≡ None }
        requires update { AreUp self.old → writes_of self.old ≡ [] → IsUpdate (seen D.state self.old) update }
        ensures takes { TakesOn D.state D.images (IsTableVersion (seen D.state self.old).held NUMBER_MAX)
            (λ version. update_writes (entry_for (seen D.state self.old) version update) update.fresh
            (stored_for (seen D.state self.old) version update)) self.old self.new result }
        ensures version { IfOk result (IsNextVersion (seen D.state self.old).held) }
        // Where nothing is hidden, no memory is asked for before it is known whether the versions are used up.
        ensures spent { NothingHidden self.old → AreUp self.old → writes_of self.old ≡ []
            → IsTableVersion (seen D.state self.old).held NUMBER_MAX → IsErrOf result CommitFault.Spent }
        ensures spent_unchanged { NothingHidden self.old → IsErrOf result CommitFault.Spent → self.new ≡ self.old }
        ensures scanned { self.new.scanned ≡ self.old.scanned }
        // Where the devices have named chunks and nothing is hidden, the row may take the place of the one that stands,
        // and they have them at every moment of the update.
        ensures replaces { IfOk result (λ version. (meaning : ChunkName → List ℕ) → NothingHidden self.old
            → NamedChunks meaning (devs D.state self.old)
            → Replaces (devs D.state self.old) (entry_for (devs D.state self.old) version update) update.fresh
            (stored_for (devs D.state self.old) version update)) }
        ensures moments { IfOk result (λ version. (meaning : ChunkName → List ℕ) → NothingHidden self.old
            → NamedChunks meaning (devs D.state self.old)
            → Runs (IsMoment (meaning_with meaning version update.fresh) (devs D.state self.old).held
            (stored_for (devs D.state self.old) version update)) (devs D.state self.new) (writes_of self.new)) }
        // And where each row is whole, the new one is.
        ensures whole { IfOk result (λ version. (meaning : ChunkName → List ℕ) → NothingHidden self.old
            → NamedChunks meaning (devs D.state self.old) → WholeRows meaning (devs D.state self.old).held
            → MayBeWhole (meaning_with meaning version update.fresh) (devs D.state self.old).held
            (stored_for (devs D.state self.old) version update)) }
    {
        self.free()?;
        let last = self.newest()?;
        if last == NUMBER_MAX {
            return Err(CommitFault::Spent);
        }
        let version = last + 1;
        let tasks = self.prepare(version, update)?;
        self.agenda = tasks;
        Ok(version)
    }

    /// Takes on the put of a client's subscription, or that it is taken away where `on` is false; period and tolerance
    /// are in ticks. Its one write is then to be done, and takes no memory.
    pub fn begin_sub(
        &mut self,
        client: ClientNo,
        on: bool,
        gate: GateNo,
        period: u32,
        tolerance: u32,
    ) -> Result<(), CommitFault>
        requires ready { AreUp self.old → IsReady D.state self.old (writes_of self.old) }
        requires client { IsClient client }
        ensures takes { TakesOn D.state D.images ⊥ (λ _.
            PutSub client (terms_if on (record { gate = gate; period = period; tolerance = tolerance })) ∷ [])
            self.old self.new result }
        ensures scanned { self.new.scanned ≡ self.old.scanned }
        // Where the devices have named chunks, they have them at every moment of the put.
        ensures moments { OnOk result ((meaning : ChunkName → List ℕ) → NamedChunks meaning (devs D.state self.old)
            → Runs (IsKeeping meaning) (devs D.state self.new) (writes_of self.new)) }
        // And each row is whole, where each is before.
        ensures whole { OnOk result ((meaning : ChunkName → List ℕ) → NamedChunks meaning (devs D.state self.old)
            → WholeRows meaning (devs D.state self.old).held
            → Runs (IsKeepingWhole meaning) (devs D.state self.new) (writes_of self.new)) }
        // The chunks, the rows and the open entry stay at every moment of the put, and so do those that are seen.
        ensures still { OnOk result (Runs (IsStill (devs D.state self.old))
            (devs D.state self.new) (writes_of self.new)) }
        ensures seen { OnOk result (Runs (IsStill (seen D.state self.old))
            (seen D.state self.new) (writes_of self.new)) }
    {
        self.free()?;
        let task = Task::PutSub {
            client,
            on,
            gate,
            period,
            tolerance,
        };
        let tasks = one_task(self.alloc, task)?;
        self.reserve_rows(1, 18)?;
        self.agenda = tasks;
        Ok(())
    }

    /// Takes on the put of the table's schema and its state: 1 draft, 2 live, 3 dropped. Its one write is then to be
    /// done, and takes no memory.
    pub fn begin_table(&mut self, schema: &Schema, state: u8) -> Result<(), CommitFault>
        requires ready { AreUp self.old → IsReady D.state self.old (writes_of self.old) }
        requires spelled { HasSchemaSpelling schema.now }
        requires state { IsState state }
        requires short { length (table_payload schema.now state) ≤ payload_most }
        ensures fuse { KeepsUnset D.state self.old self.new }
        ensures takes { TakesOn D.state D.images ⊥ (λ _. PutTable schema.now state ∷ []) self.old self.new result }
        ensures scanned { self.new.scanned ≡ self.old.scanned }
        // Where the devices have named chunks, they have them at every moment of the put.
        ensures moments { OnOk result ((meaning : ChunkName → List ℕ) → NamedChunks meaning (devs D.state self.old)
            → Runs (IsKeeping meaning) (devs D.state self.new) (writes_of self.new)) }
        // And each row is whole, where each is before and the schema is the table's own or its first. (Rows may not fit
        // another schema.)
        ensures whole { OnOk result ((meaning : ChunkName → List ℕ) → NamedChunks meaning (devs D.state self.old)
            → WholeRows meaning (devs D.state self.old).held → HasNoOther (devs D.state self.old).held schema.now
            → Runs (IsKeepingWhole meaning) (devs D.state self.new) (writes_of self.new)) }
        // The chunks, the rows and the open entry stay at every moment of the put, and so do those that are seen.
        ensures still { OnOk result (Runs (IsStill (devs D.state self.old))
            (devs D.state self.new) (writes_of self.new)) }
        ensures seen { OnOk result (Runs (IsStill (seen D.state self.old))
            (seen D.state self.new) (writes_of self.new)) }
    {
        self.free()?;
        let tasks = table_task(self.alloc, schema, state)?;
        let size = table_size(self.alloc, schema, state)?;
        self.reserve_rows(1, size)?;
        self.agenda = tasks;
        Ok(())
    }
}
