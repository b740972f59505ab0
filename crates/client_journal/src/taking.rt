//! How a client's devices take a plan on. Nothing is written here: what the writes need is made ready.
ghost use Rattle.std.specs.Prelude.{◌≡◌, ◌⊎◌, ◌+◌, ◌*◌, ◌<◌, ◌≤◌, ℕ, List, [], length, map, sum_by, IfOk, IfErr, OnOk};
ghost use Rattle.std.specs.Prelude.{IsErrOf};
ghost use Rattle.vault.specs.Limit.{payload_most};
ghost use Rattle.slot_store.specs.Spelling.{HasRecordSpelling, record_payload};
ghost use Rattle.client_journal.specs.Devs.{PutRecord, changed_by};
ghost use Rattle.vault.specs.Standing.{IsUp};
ghost use Rattle.stab_base.specs.declared.limits.TheConstants.{NUMBER_MAX};
ghost use Rattle.held_value.specs.declared.local_name.LocalName.{LocalName};
ghost use Rattle.chunk_store.specs.Standing as chunks;
ghost use Rattle.slot_store.specs.Data.{record_of};
ghost use Rattle.slot_store.specs.Standing as slots;
ghost use Rattle.plan_log.specs.Spelling.{commit_payload};
ghost use Rattle.plan_log.specs.Standing as journals;
ghost use Rattle.client_journal.specs.Redone.{row_behind, record_for};
ghost use Rattle.client_journal.specs.NamedSlots.{NamedSlots, IsNotCommitted, IsAtRest};
ghost use Rattle.client_journal.specs.Agenda.{plan_writes, Commits, meaning_with, IsMoment, Runs};
ghost use Rattle.client_journal.specs.Standing.{write_of, writes_of, all_faults, AreUp, IsReady, devs};
ghost use Rattle.client_journal.specs.Plan.{commit_for, intend_for, id_or, IsPlan, plan_at_work, begun_first};
ghost use Rattle.client_journal.specs.Made.{bytes_of_row, bytes_of_record, IsMade, IsOld};
ghost use Rattle.client_journal.specs.TakesOn.{IsNotDisk, Waits, IsFree, TakesOn};
ghost use Rattle.client_journal.specs.Asking.{AllLeave};
ghost use Rattle.client_journal.specs.Unset.{KeepsUnset};

use crate::Journal;
use crate::fault::{JournalFault, of_chunks, of_journal, of_slots};
use crate::made::{Made, bytes_of, bytes_of_record, bytes_of_row, plan_tasks, row_slots};
use crate::numbering::{numbered_row, record_from};
use crate::plan::Plan;
use crate::task::Task;
use disk_trait::Disk;
use plan_log::{Commit, Intend, RowChange, commit_size};
use slot_store::{TableRecord, record_size};
use stab_base::{NUMBER_MAX, RowId};
use std::alloc::AllocError;
use std::collections::VecDeque;

fn id_or(row: &Option<RowChange>) -> RowId
    ensures { result ≡ id_or row.now }
{
    match row {
        None => RowId::from_bytes([0; 16]),
        Some(change) => change.row,
    }
}

impl<D: Disk + Drop> Journal<D> {
    // The plan that the next write begins, brings a chunk of, or commits.
    fn next_begun(&self) -> Option<u64>
        ensures { result ≡ begun_first (writes_of self.now) }
    {
        match self.agenda.front() {
            Some(task) => task.begins(),
            None => None,
        }
    }

    /// The plan that the next write begins, brings a chunk of, or commits; else the committed one that is at work; else
    /// 0, as where a start drops the chunks of a plan that wasn't committed.
    pub fn plan_at_work(&self) -> u64
        requires up { IsUp (journals.vault_of self.now.journal) }
        requires looked { journals.IsLookedAt D.state self.now.journal }
        ensures { result ≡ plan_at_work (devs D.state self.now) (writes_of self.now) }
    {
        if let Some(plan) = self.next_begun() {
            return plan;
        }
        self.journal.committed_plan().unwrap_or(0)
    }

    // Whether writes can be taken on.
    fn free(&self) -> Result<(), JournalFault>
        requires ready { AreUp self.now → IsReady D.state self.now (writes_of self.now) }
        ensures { IsFree D.state self.now result }
    {
        if self.is_down() {
            return Err(JournalFault::Down);
        }
        if !self.idle() {
            return Err(JournalFault::Busy {
                with: self.plan_at_work(),
            });
        }
        Ok(())
    }

    fn reserve_chunks(&mut self, puts: u64, bytes: u64) -> Result<(), JournalFault>
        requires up { AreUp self.old }
        requires rests { IsReady D.state self.old [] }
        requires puts { puts ≤ 16777216 }
        requires bytes { bytes ≤ 8388608 * puts }
        ensures waits { Waits D.state D.images self.old self.new result }
        ensures room { OnOk result (chunks.HasRoom D.state self.new.chunks 1 puts bytes) }
    {
        of_chunks(self.chunks.reserve(puts, bytes))
    }

    fn reserve_slots(&mut self, puts: u64, bytes: u64) -> Result<(), JournalFault>
        requires up { AreUp self.old }
        requires rests { IsReady D.state self.old [] }
        requires puts { puts ≤ 16777216 }
        requires bytes { bytes ≤ 8388608 * puts }
        ensures waits { Waits D.state D.images self.old self.new result }
        ensures room { OnOk result (slots.HasRoom D.state self.new.slots 1 puts bytes) }
        ensures chunks { self.new.chunks ≡ self.old.chunks }
    {
        of_slots(self.slots.reserve(puts, bytes))
    }

    fn reserve_journal(&mut self, puts: u64, bytes: u64) -> Result<(), JournalFault>
        requires up { AreUp self.old }
        requires rests { IsReady D.state self.old [] }
        requires puts { puts ≤ 16777216 }
        requires bytes { bytes ≤ 8388608 * puts }
        ensures waits { Waits D.state D.images self.old self.new result }
        ensures room { OnOk result (journals.HasRoom D.state self.new.journal 1 puts bytes) }
        ensures chunks { self.new.chunks ≡ self.old.chunks }
        ensures slots { self.new.slots ≡ self.old.slots }
    {
        of_journal(self.journal.reserve(puts, bytes))
    }

    // Makes room for all writes of a plan whose parts have so many bytes.
    fn reserve_for(&mut self, made: &Made, held: u64, planned: u64) -> Result<(), JournalFault>
        requires up { AreUp self.old }
        requires rests { IsReady D.state self.old [] }
        requires made { IsMade made.now }
        requires held { held ≡ bytes_of_row made.now.row + bytes_of_record made.now.table }
        requires planned { planned ≡ length (commit_payload made.now.commit) }
        ensures waits { Waits D.state D.images self.old self.new result }
        ensures chunk_room { OnOk result (chunks.HasRoom D.state self.new.chunks 1
            (length made.now.brought.items + length made.now.commit.drops)
            (13 * (length made.now.brought.items + length made.now.commit.drops)
            + sum_by length made.now.brought.items)) }
        ensures slot_room { OnOk result (slots.HasRoom D.state self.new.slots 1 2
            (bytes_of_row made.now.row + bytes_of_record made.now.table)) }
        ensures journal_room { OnOk result (journals.HasRoom D.state self.new.journal 1 3
            (43 + length (commit_payload made.now.commit))) }
    {
        let puts = (made.brought.len() + made.commit.drops.len()) as u64;
        self.reserve_chunks(puts, 13 * puts + bytes_of(&made.brought))?;
        self.reserve_slots(2, held)?;
        self.reserve_journal(3, 43 + planned)
    }

    // Works a plan out under its number.
    fn made(&self, number: u64, plan: Plan) -> Result<Made, AllocError>
        requires up { AreUp self.now }
        requires looked { slots.IsLookedAt D.state self.now.slots }
        requires few { length plan.brought < 4294967296 }
        ensures intend { IfOk result (λ made. made.intend ≡ intend_for number plan) }
        ensures brought { IfOk result (λ made. made.brought.items ≡ plan.brought) }
        ensures commit { IfOk result (λ made. made.commit ≡ commit_for number plan) }
        ensures row { IfOk result (λ made. made.row ≡ row_behind (commit_for number plan)) }
        ensures table { IfOk result (λ made. made.table
            ≡ record_for (record_of (devs D.state self.now).held plan.table) (commit_for number plan)) }
        ensures old { OnOk result (IsOld (record_of (devs D.state self.now).held plan.table)) }
    {
        let alloc = self.alloc;
        let old = self.slots.record(plan.table)?;
        let table = record_from(plan.table, &plan.new_record, plan.position, old)?;
        let brought = plan.brought.into_vec();
        let intend = Intend {
            plan: number,
            table: plan.table,
            row: id_or(&plan.row),
            server: plan.server,
            chunks: brought.len() as u32,
        };
        let change = numbered_row(alloc, number, plan.row)?;
        let row = row_slots(plan.table, plan.last, &change)?;
        Ok(Made {
            intend,
            brought,
            commit: Commit {
                plan: number,
                last: plan.last,
                table: plan.table,
                row: change,
                position: plan.position,
                new_record: plan.new_record,
                drops: plan.drops,
                tells: plan.tells,
            },
            row,
            table,
        })
    }

    // Works a plan out, and makes room for its writes.
    fn prepare(&mut self, number: u64, plan: Plan) -> Result<VecDeque<Task>, JournalFault>
        requires up { AreUp self.old }
        requires rests { IsReady D.state self.old [] }
        requires not_committed { IsNotCommitted (devs D.state self.old).journal.at_work }
        requires newest { (devs D.state self.old).journal.greatest < number }
        requires number { number ≤ NUMBER_MAX }
        requires plan { IsPlan (devs D.state self.old) plan }
        ensures waits { Waits D.state D.images self.old self.new result }
        ensures tasks { IfOk result (λ tasks. map write_of tasks.items
            ≡ plan_writes (devs D.state self.old).held (intend_for number plan) plan.brought
            (commit_for number plan)) }
        ensures ready { IfOk result (λ tasks. IsReady D.state self.new (map write_of tasks.items)) }
    {
        let made = self.made(number, plan)?;
        let row = bytes_of_row(self.alloc, &made.row)?;
        let table = bytes_of_record(self.alloc, &made.table)?;
        let planned = commit_size(self.alloc, &made.commit)? as u64;
        self.reserve_for(&made, row + table, planned)?;
        let tasks = plan_tasks(self.alloc, made)?;
        Ok(tasks)
    }

    /// Puts the record of a table on devices that are at rest. It is one write, which no plan stands for.
    ///
    /// After `Memory` nothing is done.
    pub fn declare(&mut self, table: &TableRecord) -> Result<(), JournalFault>
        requires up { AreUp self.old }
        requires rests { IsReady D.state self.old [] }
        requires idle { writes_of self.old ≡ [] }
        requires spelled { HasRecordSpelling table.now }
        requires short { length (record_payload table.now) ≤ payload_most }
        ensures fuse { KeepsUnset D.state self.old self.new }
        ensures put { OnOk result (devs D.state self.new ≡ changed_by (devs D.state self.old) (PutRecord table.now)) }
        ensures up { OnOk result (AreUp self.new) }
        ensures rests { OnOk result (IsReady D.state self.new []) }
        ensures idle { OnOk result (writes_of self.new ≡ []) }
        ensures counted { IsNotDisk result → all_faults D.state self.new ≡ all_faults D.state self.old }
        ensures disk { IsErrOf result JournalFault.Disk → all_faults D.state self.old < all_faults D.state self.new }
        ensures only { IfErr result (λ e. (e ≡ JournalFault.Disk) ⊎ (e ≡ JournalFault.Memory)) }
    {
        let size = record_size(self.alloc, table)? as u64;
        self.reserve_slots(1, size)?;
        self.put_record(table)
    }

    /// Takes a plan on, and gives it the number above the greatest. Its writes are then to be done, and take no memory:
    /// where chunks are brought the intend is put, and each of them; then the commit, the slots of the row, the record
    /// of the table where it changes; each chunk is dropped that the plan drops, and the plan is done.
    pub fn begin(&mut self, plan: Plan) -> Result<u64, JournalFault>
        requires ready { AreUp self.old → IsReady D.state self.old (writes_of self.old) }
        requires rests { AreUp self.old → writes_of self.old ≡ []
            → IsNotCommitted (devs D.state self.old).journal.at_work }
        requires plan { AreUp self.old → writes_of self.old ≡ [] → IsPlan (devs D.state self.old) plan }
        ensures takes { TakesOn D.state D.images ((devs D.state self.old).journal.greatest ≡ NUMBER_MAX)
            (λ number. plan_writes (devs D.state self.old).held (intend_for number plan) plan.brought
            (commit_for number plan)) self.old self.new result }
        // So a call that reads can stand before it.
        ensures leave { AreUp self.old → AllLeave D.state D.images self.old self.new }
        ensures number { IfOk result (λ number. number ≡ (devs D.state self.old).journal.greatest + 1) }
        // Where the devices have named slots and nothing is at work, they have them at every moment of the plan.
        ensures commits { IfOk result (λ number. (meaning : LocalName → List ℕ)
            → NamedSlots meaning (devs D.state self.old)
            → Commits (devs D.state self.old) (intend_for number plan) plan.brought (commit_for number plan)) }
        ensures moments { IfOk result (λ number. (meaning : LocalName → List ℕ)
            → NamedSlots meaning (devs D.state self.old) → IsAtRest (devs D.state self.old)
            → Runs (IsMoment (meaning_with meaning number plan.brought) (devs D.state self.old).held
            (commit_for number plan)) (devs D.state self.new) (writes_of self.new)) }
    {
        self.free()?;
        let last = self.journal.greatest();
        if last == NUMBER_MAX {
            return Err(JournalFault::Spent { last });
        }
        let number = last + 1;
        let tasks = self.prepare(number, plan)?;
        self.agenda = tasks;
        Ok(number)
    }
}
