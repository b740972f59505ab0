//! What a client's devices tell, with the commit at work applied to what is held.
ghost use Rattle.std.specs.Prelude.{◌≡◌, ◌&&◌, ◌++◌, ◌∷◌, [], ℕ, List, Some, is_none, IfOk, IfSome, IfNone, IsSome};
ghost use Rattle.std.specs.Prelude.{OnOk};
ghost use Rattle.std.specs.Bool.{MatchBool};
ghost use Rattle.std.specs.BTreeSet.{keys};
ghost use Rattle.std.specs.List.Sorted.{IsStrictlySortedBy};
ghost use Rattle.vault.specs.Standing.{gets};
ghost use Rattle.slot_store.specs.Data.{SlotData, id_cmp, slots_of, record_of, AreRowsOf};
ghost use Rattle.slot_store.specs.Standing as slots;
ghost use Rattle.plan_log.specs.Journal.{Committed, committed_plan};
ghost use Rattle.plan_log.specs.Standing as journals;
ghost use Rattle.client_journal.specs.Devs.{local_in};
ghost use Rattle.client_journal.specs.Redone.{applied, redone};
ghost use Rattle.client_journal.specs.NamedSlots.{IsRow};
ghost use Rattle.client_journal.specs.Asking.{commit_of, applied_if, HaveSameIds, HasRowMore, Reads, Asks};
ghost use Rattle.client_journal.specs.Asking.{IsOnceMore, ReadsOnce};
ghost use Rattle.client_journal.specs.Standing.{devs, AreUp, AreLookedAt};

use crate::Journal;
use crate::fault::{JournalFault, found_chunk, found_slots, of_journal, of_slots};
use crate::numbering::record_from;
use disk_trait::Disk;
use held_value::LocalName;
use plan_log::Commit;
use slot_store::{RowIds, RowSlots, TableRecord};
use stab_base::{Bytes, ChunkName, RowId, TableNo, WriteNo};
use std::alloc::{AllocError, Global};
use std::collections::BTreeSet;

// Whether a commit changes the slots of this row.
pub(crate) fn is_row(commit: &Commit, table: TableNo, row: &RowId) -> bool
    ensures { MatchBool result (IsRow commit.now.table commit.now.row table row.now)
        (IsRow commit.now.table commit.now.row table row.now → ⊥) }
{
    match &commit.row {
        None => false,
        Some(change) => commit.table == table && change.row == *row,
    }
}

// The slots of this row that a commit puts, if it does.
fn row_put(commit: Commit, table: TableNo, row: &RowId) -> Option<RowSlots>
    ensures its { IfSome result (λ stored. (held : SlotData)
        → slots_of (applied commit held) table row.now ≡ Some stored) }
    ensures others { IfNone result ((held : SlotData)
        → slots_of (applied commit held) table row.now ≡ slots_of held table row.now) }
{
    if !is_row(&commit, table, row) {
        return None;
    }
    let Commit { row, last, .. } = commit;
    match row {
        None => None,
        Some(change) => Some(RowSlots {
            table,
            row: change.row,
            last,
            slots: change.slots,
        }),
    }
}

// The slots of this row that the commit at work puts, if there is one that does.
fn put_by(commit: Option<Commit>, table: TableNo, row: &RowId) -> Option<RowSlots>
    ensures its { IfSome result (λ stored. (held : SlotData)
        → slots_of (applied_if commit held) table row.now ≡ Some stored) }
    ensures others { IfNone result ((held : SlotData)
        → slots_of (applied_if commit held) table row.now ≡ slots_of held table row.now) }
{
    match commit {
        None => None,
        Some(commit) => row_put(commit, table, row),
    }
}

// Whether a commit leaves its table's record as it is.
fn is_still(commit: &Commit) -> bool
    ensures { result ≡ is_none commit.now.new_record && is_none commit.now.position }
{
    commit.new_record.is_none() && commit.position.is_none()
}

// The record of a commit's table behind it.
fn record_behind(
    commit: &Commit,
    old: Option<TableRecord>,
) -> Result<Option<TableRecord>, AllocError>
    ensures { IfOk result (λ found. (held : SlotData) → record_of held commit.now.table ≡ old
        → record_of (applied commit.now held) commit.now.table ≡ found) }
{
    if is_still(commit) {
        return Ok(old);
    }
    record_from(commit.table, &commit.new_record, commit.position, old)
}

// The record of a table behind a commit.
fn record_at(
    commit: &Commit,
    table: TableNo,
    old: Option<TableRecord>,
) -> Result<Option<TableRecord>, AllocError>
    ensures { IfOk result (λ found. (held : SlotData) → record_of held table ≡ old
        → record_of (applied commit.now held) table ≡ found) }
{
    if commit.table == table {
        record_behind(commit, old)
    } else {
        Ok(old)
    }
}

// The record of a table, once it is known of what is held.
pub(crate) fn record_with(
    commit: &Option<Commit>,
    table: TableNo,
    old: Option<TableRecord>,
) -> Result<Option<TableRecord>, AllocError>
    ensures { IfOk result (λ found. (held : SlotData) → record_of held table ≡ old
        → record_of (applied_if commit.now held) table ≡ found) }
{
    match commit {
        None => Ok(old),
        Some(commit) => record_at(commit, table, old),
    }
}

fn add_row(ids: &mut BTreeSet<RowId>, row: RowId) -> Result<(), AllocError>
    ensures { OnOk result ((list : List (List ℕ)) → HaveSameIds (keys ids.old) list
        → HaveSameIds (keys ids.new) (list ++ row ∷ [])) }
{
    ids.insert(row)?;
    Ok(())
}

fn ids_in(alloc: Global, ids: &BTreeSet<RowId>) -> Result<Vec<RowId>, AllocError>
    ensures ids { IfOk result (λ made. made.items ≡ keys ids.now) }
    ensures rising { IfOk result (λ made. IsStrictlySortedBy id_cmp made.items) }
{
    ids.iter().copied().collect(alloc)
}

// These ids and one more, in rising order.
fn with_row(alloc: Global, rows: &[RowId], row: RowId) -> Result<Vec<RowId>, AllocError>
    ensures same { IfOk result (λ made. HaveSameIds made.items (rows.now ++ row ∷ [])) }
    ensures rising { IfOk result (λ made. IsStrictlySortedBy id_cmp made.items) }
{
    let mut ids = BTreeSet::new(alloc);
    for id in rows {
        add_row(&mut ids, *id)?;
    }
    add_row(&mut ids, row)?;
    ids_in(alloc, &ids)
}

// The row of this table whose slots a commit puts.
fn row_in(commit: &Commit, table: TableNo) -> Option<RowId>
    ensures some { IfSome result (λ row. (held : SlotData)
        → HasRowMore held (applied commit.now held) table row) }
    ensures others { IfNone result ((held : SlotData) (id : List ℕ)
        → slots_of (applied commit.now held) table id ≡ slots_of held table id) }
{
    if commit.table != table {
        return None;
    }
    match &commit.row {
        None => None,
        Some(change) => Some(change.row),
    }
}

// The row of this table whose slots the commit at work puts.
fn row_of(commit: &Option<Commit>, table: TableNo) -> Option<RowId>
    ensures some { IfSome result (λ row. (held : SlotData)
        → HasRowMore held (applied_if commit.now held) table row) }
    ensures others { IfNone result ((held : SlotData) (id : List ℕ)
        → slots_of (applied_if commit.now held) table id ≡ slots_of held table id) }
{
    match commit {
        None => None,
        Some(commit) => row_in(commit, table),
    }
}

// The ids of a table's rows, once they are known of what is held.
fn rows_with(
    alloc: Global,
    commit: &Option<Commit>,
    table: TableNo,
    rows: RowIds,
) -> Result<RowIds, AllocError>
    ensures { IfOk result (λ made. (held : SlotData) → AreRowsOf held table rows
        → AreRowsOf (applied_if commit.now held) table made) }
{
    match row_of(commit, table) {
        None => Ok(rows),
        Some(row) => {
            let ids = with_row(alloc, rows.as_slice(), row)?;
            Ok(RowIds::from_vec(ids))
        }
    }
}

// The greatest number of a last write, once it is known of what is held.
fn last_with(commit: &Option<Commit>, last: WriteNo) -> WriteNo
    ensures { (held : SlotData) → held.last ≡ last → (applied_if commit.now held).last ≡ result }
{
    match commit {
        Some(commit) if commit.row.is_some() => last.max(commit.last),
        _ => last,
    }
}

impl<D: Disk + Drop> Journal<D> {
    fn committed(&mut self) -> Result<Commit, JournalFault>
        requires up { AreUp self.old }
        requires looked { AreLookedAt D.state self.old }
        requires at_work { IsSome (committed_plan (devs D.state self.old).journal.at_work) }
        ensures reads { Reads D.state D.images self.old self.new result }
        ensures commit { IfOk result (λ commit. (devs D.state self.old).journal.at_work ≡ Committed commit) }
        ensures once { IsOnceMore (gets (journals.vault_of self.old.journal))
            (gets (journals.vault_of self.new.journal)) }
        ensures slots { self.new.slots ≡ self.old.slots }
        ensures chunks { self.new.chunks ≡ self.old.chunks }
    {
        of_journal(self.journal.committed())
    }

    // The commit at work, if one is.
    pub(crate) fn commit_at_work(&mut self) -> Result<Option<Commit>, JournalFault>
        requires up { AreUp self.old }
        requires looked { AreLookedAt D.state self.old }
        ensures reads { Reads D.state D.images self.old self.new result }
        ensures commit { IfOk result (λ found. found ≡ commit_of (devs D.state self.old).journal.at_work) }
        ensures once { IsOnceMore (gets (journals.vault_of self.old.journal))
            (gets (journals.vault_of self.new.journal)) }
        ensures slots { self.new.slots ≡ self.old.slots }
        ensures chunks { self.new.chunks ≡ self.old.chunks }
    {
        match self.journal.committed_plan() {
            None => Ok(None),
            Some(_) => {
                let commit = self.committed()?;
                Ok(Some(commit))
            }
        }
    }

    // The slots of a row that are held.
    pub(crate) fn held_slots(
        &mut self,
        table: TableNo,
        row: &RowId,
    ) -> Result<Option<RowSlots>, JournalFault>
        requires up { AreUp self.old }
        requires looked { AreLookedAt D.state self.old }
        ensures reads { Reads D.state D.images self.old self.new result }
        ensures slots { IfOk result (λ found. slots_of (devs D.state self.old).held table row.now ≡ found) }
        ensures once { IsOnceMore (gets (slots.vault_of self.old.slots)) (gets (slots.vault_of self.new.slots)) }
        ensures journal { self.new.journal ≡ self.old.journal }
        ensures chunks { self.new.chunks ≡ self.old.chunks }
    {
        found_slots(self.slots.get_slots(table, row))
    }

    fn read_slots(&mut self, table: TableNo, row: &RowId) -> Result<Option<RowSlots>, JournalFault>
        requires up { AreUp self.old }
        requires looked { AreLookedAt D.state self.old }
        ensures reads { Reads D.state D.images self.old self.new result }
        ensures slots { IfOk result (λ found. slots_of (redone (devs D.state self.old)) table row.now ≡ found) }
        ensures once { ReadsOnce self.old self.new }
    {
        let commit = self.commit_at_work()?;
        match put_by(commit, table, row) {
            Some(stored) => Ok(Some(stored)),
            None => self.held_slots(table, row),
        }
    }

    fn read_record(&mut self, table: TableNo) -> Result<Option<TableRecord>, JournalFault>
        requires up { AreUp self.old }
        requires looked { AreLookedAt D.state self.old }
        ensures reads { Reads D.state D.images self.old self.new result }
        ensures record_ { IfOk result (λ found. record_of (redone (devs D.state self.old)) table ≡ found) }
        ensures once { ReadsOnce self.old self.new }
    {
        let commit = self.commit_at_work()?;
        let old = self.slots.record(table)?;
        let found = record_with(&commit, table, old)?;
        Ok(found)
    }

    // The ids of a table's rows that are held.
    fn held_rows(&mut self, table: TableNo) -> Result<RowIds, JournalFault>
        requires up { AreUp self.old }
        requires looked { AreLookedAt D.state self.old }
        ensures reads { Reads D.state D.images self.old self.new result }
        ensures rows { IfOk result (AreRowsOf (devs D.state self.old).held table) }
        ensures vault { slots.vault_of self.new.slots ≡ slots.vault_of self.old.slots }
        ensures journal { self.new.journal ≡ self.old.journal }
        ensures chunks { self.new.chunks ≡ self.old.chunks }
    {
        of_slots(self.slots.rows_of(table))
    }

    fn read_rows(&mut self, table: TableNo) -> Result<RowIds, JournalFault>
        requires up { AreUp self.old }
        requires looked { AreLookedAt D.state self.old }
        ensures reads { Reads D.state D.images self.old self.new result }
        ensures rows { IfOk result (AreRowsOf (redone (devs D.state self.old)) table) }
        ensures once { ReadsOnce self.old self.new }
    {
        let commit = self.commit_at_work()?;
        let rows = self.held_rows(table)?;
        let found = rows_with(self.alloc, &commit, table, rows)?;
        Ok(found)
    }

    fn read_last(&mut self) -> Result<WriteNo, JournalFault>
        requires up { AreUp self.old }
        requires looked { AreLookedAt D.state self.old }
        ensures reads { Reads D.state D.images self.old self.new result }
        ensures last { IfOk result (λ last. last ≡ (redone (devs D.state self.old)).last) }
        ensures once { ReadsOnce self.old self.new }
    {
        let commit = self.commit_at_work()?;
        Ok(last_with(&commit, self.slots.last_number()))
    }

    fn read_chunk(&mut self, name: LocalName) -> Result<Option<Bytes>, JournalFault>
        requires up { AreUp self.old }
        requires looked { AreLookedAt D.state self.old }
        ensures reads { Reads D.state D.images self.old self.new result }
        ensures chunk { IfOk result (λ found. local_in (devs D.state self.old).chunks name ≡ found) }
    {
        let name = ChunkName {
            version: name.plan,
            ordinal: name.ordinal,
        };
        found_chunk(self.chunks.get(name))
    }
}

impl<D: Disk + Drop> Journal<D> {
    /// The slots of a row, if it has some. It reads them once from the disk, or else the commit at work.
    pub fn slots(&mut self, table: TableNo, row: &RowId) -> Result<Option<RowSlots>, JournalFault>
        requires { AreUp self.old → AreLookedAt D.state self.old }
        ensures asks { Asks D.state D.images self.old self.new result }
        ensures slots { IfOk result (λ found. slots_of (redone (devs D.state self.old)) table row.now ≡ found) }
        ensures once { ReadsOnce self.old self.new }
    {
        if self.is_down() {
            return Err(JournalFault::Down);
        }
        self.read_slots(table, row)
    }

    /// The record of a table, if it has one. Of the disks it reads the commit at work alone.
    pub fn record(&mut self, table: TableNo) -> Result<Option<TableRecord>, JournalFault>
        requires { AreUp self.old → AreLookedAt D.state self.old }
        ensures asks { Asks D.state D.images self.old self.new result }
        ensures record_ { IfOk result (λ found. record_of (redone (devs D.state self.old)) table ≡ found) }
        ensures once { ReadsOnce self.old self.new }
    {
        if self.is_down() {
            return Err(JournalFault::Down);
        }
        self.read_record(table)
    }

    /// The ids of a table's rows that have slots, in rising order. Of the disks it reads the commit at work alone.
    pub fn rows_of(&mut self, table: TableNo) -> Result<RowIds, JournalFault>
        requires { AreUp self.old → AreLookedAt D.state self.old }
        ensures asks { Asks D.state D.images self.old self.new result }
        ensures rows { IfOk result (AreRowsOf (redone (devs D.state self.old)) table) }
        ensures once { ReadsOnce self.old self.new }
    {
        if self.is_down() {
            return Err(JournalFault::Down);
        }
        self.read_rows(table)
    }

    /// The greatest number of a last write that was put with slots, 0 where there is none. Of the disks it reads the
    /// commit at work alone.
    pub fn last_number(&mut self) -> Result<WriteNo, JournalFault>
        requires { AreUp self.old → AreLookedAt D.state self.old }
        ensures asks { Asks D.state D.images self.old self.new result }
        ensures last { IfOk result (λ last. last ≡ (redone (devs D.state self.old)).last) }
        ensures once { ReadsOnce self.old self.new }
    {
        if self.is_down() {
            return Err(JournalFault::Down);
        }
        self.read_last()
    }

    /// The bytes of a chunk, if its name has one. It is one read of the disk.
    pub fn chunk(&mut self, name: LocalName) -> Result<Option<Bytes>, JournalFault>
        requires { AreUp self.old → AreLookedAt D.state self.old }
        ensures asks { Asks D.state D.images self.old self.new result }
        ensures chunk { IfOk result (λ found. local_in (devs D.state self.old).chunks name ≡ found) }
    {
        if self.is_down() {
            return Err(JournalFault::Down);
        }
        self.read_chunk(name)
    }
}
