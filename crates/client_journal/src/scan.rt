//! What of a client's rows a start takes as there.
ghost use Rattle.std.specs.Prelude.{◌≡◌, ◌++◌, ◌∷◌, [], ℕ, List, Some, IfOk, IfSome, IfNone, OnOk};
ghost use Rattle.std.specs.Map.{keys_of};
ghost use Rattle.std.specs.BTreeSet.{keys, insert_key};
ghost use Rattle.std.specs.List.Sorted.{IsStrictlySortedBy};
ghost use Rattle.held_value.specs.declared.local_name.LocalName.{LocalName};
ghost use Rattle.slot_store.specs.declared.held.RowKey.{RowKey};
ghost use Rattle.slot_store.specs.declared.held.RowSlots.{RowSlots};
ghost use Rattle.slot_store.specs.Data.{SlotData, key_cmp, slots_of};
ghost use Rattle.slot_store.specs.Standing as slots;
ghost use Rattle.client_journal.specs.Redone.{redone};
ghost use Rattle.client_journal.specs.NamedSlots.{NamedSlots};
ghost use Rattle.client_journal.specs.There.{WholeSlots};
ghost use Rattle.client_journal.specs.Asking.{applied_if, Reads, Asks};
ghost use Rattle.client_journal.specs.Scan.{put_or, with_waiting, NotesRow, IsScanned, IsFound};
ghost use Rattle.client_journal.specs.Standing.{devs, AreUp, AreLookedAt};

use crate::Journal;
use crate::fault::{JournalFault, of_slots};
use crate::made::row_slots;
use crate::reading::{is_row, record_with};
use crate::scanned::Scanned;
use crate::there::note_row;
use disk_trait::Disk;
use held_value::Slots;
use plan_log::Commit;
use slot_store::{RowKey, RowKeys, RowSlots};
use std::alloc::{AllocError, Global};
use std::cmp::Ordering;

// ---- the rows behind a commit

// A copy of the slots that a commit puts, if they are of this row.
fn put_copied(commit: &Commit, key: &RowKey) -> Result<Option<RowSlots>, AllocError>
    ensures { IfOk result (λ found. (held : SlotData)
        → slots_of (applied_if (Some commit.now) held) key.now.table key.now.row
        ≡ put_or found (slots_of held key.now.table key.now.row)) }
{
    if !is_row(commit, key.table, &key.row) {
        return Ok(None);
    }
    row_slots(commit.table, commit.last, &commit.row)
}

// A copy of the slots that the commit at work puts, if there is one and they are of this row.
fn put_in(commit: &Option<Commit>, key: &RowKey) -> Result<Option<RowSlots>, AllocError>
    ensures { IfOk result (λ found. (held : SlotData) → slots_of (applied_if commit.now held) key.now.table key.now.row
        ≡ put_or found (slots_of held key.now.table key.now.row)) }
{
    match commit {
        None => Ok(None),
        Some(commit) => put_copied(commit, key),
    }
}

// The key of the row whose slots the commit at work puts.
fn key_put(commit: &Option<Commit>) -> Option<RowKey>
    ensures some { IfSome result (λ key. (held : SlotData)
        → keys_of (applied_if commit.now held).rows ≡ insert_key key_cmp (keys_of held.rows) key) }
    ensures none { IfNone result ((held : SlotData) → keys_of (applied_if commit.now held).rows ≡ keys_of held.rows) }
{
    match commit {
        None => None,
        Some(commit) => match &commit.row {
            None => None,
            Some(change) => Some(RowKey {
                table: commit.table,
                row: change.row,
            }),
        },
    }
}

// Adds the next key, and before it the one that waits for its place.
fn add_between(
    made: &mut Vec<RowKey>,
    waits: &mut Option<RowKey>,
    next: RowKey,
) -> Result<(), AllocError>
    ensures { OnOk result ((rest : List RowKey) → made.new.items ++ with_waiting waits.new rest
        ≡ made.old.items ++ with_waiting waits.old (next ∷ rest)) }
{
    let Some(key) = *waits else {
        made.push(next)?;
        return Ok(());
    };
    match key.cmp(&next) {
        Ordering::Less => {
            made.push(key)?;
            made.push(next)?;
            *waits = None;
            Ok(())
        }
        Ordering::Equal => {
            made.push(next)?;
            *waits = None;
            Ok(())
        }
        Ordering::Greater => {
            made.push(next)?;
            Ok(())
        }
    }
}

fn add_last(made: &mut Vec<RowKey>, waits: Option<RowKey>) -> Result<(), AllocError>
    ensures { OnOk result (made.new.items ≡ made.old.items ++ with_waiting waits []) }
{
    if let Some(key) = waits {
        made.push(key)?;
    }
    Ok(())
}

// These keys and one more, in rising order.
fn with_key(alloc: Global, keys: &[RowKey], key: RowKey) -> Result<Vec<RowKey>, AllocError>
    ensures { IfOk result (λ made. made.items ≡ insert_key key_cmp keys.now key) }
{
    let mut made = Vec::new(alloc);
    let mut waits = Some(key);
    for next in keys {
        add_between(&mut made, &mut waits, *next)?;
    }
    add_last(&mut made, waits)?;
    Ok(made)
}

// The keys of all rows, once they are known of what is held.
fn keys_with(alloc: Global, commit: &Option<Commit>, keys: RowKeys) -> Result<RowKeys, AllocError>
    ensures keys { IfOk result (λ made. (held : SlotData) → keys ≡ keys_of held.rows
        → made ≡ keys_of (applied_if commit.now held).rows) }
    ensures rising { IfOk result (λ made. IsStrictlySortedBy key_cmp keys → IsStrictlySortedBy key_cmp made) }
{
    match key_put(commit) {
        None => Ok(keys),
        Some(key) => {
            let made = with_key(alloc, keys.as_slice(), key)?;
            Ok(RowKeys::from_vec(made))
        }
    }
}

// ---- the scan

impl<D: Disk + Drop> Journal<D> {
    // The slots of a row, once the commit at work is known.
    fn slots_with(
        &mut self,
        commit: &Option<Commit>,
        key: &RowKey,
    ) -> Result<Option<RowSlots>, JournalFault>
        requires up { AreUp self.old }
        requires looked { AreLookedAt D.state self.old }
        ensures reads { Reads D.state D.images self.old self.new result }
        ensures slots { IfOk result (λ found.
            slots_of (applied_if commit.now (devs D.state self.old).held) key.now.table key.now.row ≡ found) }
    {
        let put = put_in(commit, key)?;
        match put {
            Some(stored) => Ok(Some(stored)),
            None => self.held_slots(key.table, &key.row),
        }
    }

    // Notes the slots of a row.
    fn note_slots(
        &self,
        commit: &Option<Commit>,
        key: &RowKey,
        slots: &Slots,
        found: &mut Scanned,
    ) -> Result<(), AllocError>
        requires up { AreUp self.now }
        requires looked { AreLookedAt D.state self.now }
        ensures { OnOk result (NotesRow (devs D.state self.now).chunks
            (applied_if commit.now (devs D.state self.now).held) (devs D.state self.now).journal.greatest key.now
            slots.now found.old found.new) }
    {
        let old = self.slots.record(key.table)?;
        let table = record_with(commit, key.table, old)?;
        note_row(
            self.alloc,
            &self.chunks,
            &table,
            self.journal.greatest(),
            key,
            slots,
            found,
        )
    }

    // Reads the slots of one row more, and notes them.
    fn scan_row(
        &mut self,
        commit: &Option<Commit>,
        key: &RowKey,
        found: &mut Scanned,
    ) -> Result<(), JournalFault>
        requires up { AreUp self.old }
        requires looked { AreLookedAt D.state self.old }
        ensures reads { Reads D.state D.images self.old self.new result }
        ensures noted { OnOk result ((stored : RowSlots)
            → slots_of (applied_if commit.now (devs D.state self.old).held) key.now.table key.now.row ≡ Some stored
            → NotesRow (devs D.state self.old).chunks (applied_if commit.now (devs D.state self.old).held)
            (devs D.state self.old).journal.greatest key.now stored.slots found.old found.new) }
    {
        let stored = self.slots_with(commit, key)?;
        match stored {
            None => Ok(()),
            Some(stored) => {
                self.note_slots(commit, key, &stored.slots, found)?;
                Ok(())
            }
        }
    }

    // Reads the slots of these rows, which are all.
    fn scan_rows(
        &mut self,
        commit: &Option<Commit>,
        keys: &[RowKey],
    ) -> Result<Scanned, JournalFault>
        requires up { AreUp self.old }
        requires looked { AreLookedAt D.state self.old }
        requires keys { keys.now ≡ keys_of (applied_if commit.now (devs D.state self.old).held).rows }
        requires rising { IsStrictlySortedBy key_cmp keys.now }
        ensures reads { Reads D.state D.images self.old self.new result }
        ensures found { IfOk result (IsScanned (devs D.state self.old).chunks
            (applied_if commit.now (devs D.state self.old).held) (devs D.state self.old).journal.greatest []) }
    {
        let mut found = Scanned::nothing(self.alloc);
        for key in keys {
            self.scan_row(commit, key, &mut found)?;
        }
        Ok(found)
    }

    // The keys of the rows that are held.
    fn held_keys(&mut self) -> Result<RowKeys, JournalFault>
        requires up { AreUp self.old }
        requires looked { AreLookedAt D.state self.old }
        ensures reads { Reads D.state D.images self.old self.new result }
        ensures keys { IfOk result (λ keys. keys ≡ keys_of (devs D.state self.old).held.rows) }
        ensures rising { IfOk result (λ keys. IsStrictlySortedBy key_cmp keys) }
    {
        of_slots(self.slots.keys())
    }

    // Reads the slots of each row once.
    fn find_rows(&mut self) -> Result<Scanned, JournalFault>
        requires up { AreUp self.old }
        requires looked { AreLookedAt D.state self.old }
        ensures reads { Reads D.state D.images self.old self.new result }
        ensures found { IfOk result (IsFound (devs D.state self.old)) }
    {
        let commit = self.commit_at_work()?;
        let held = self.held_keys()?;
        let keys = keys_with(self.alloc, &commit, held)?;
        self.scan_rows(&commit, keys.as_slice())
    }

    /// Reads the slots of each row once, and takes as not there each row that a disk of this program's own never holds:
    /// one of whose four contents doesn't fit the schema of the table's record, or names a chunk which isn't there or
    /// hasn't the length of its place, or names one twice; or that names a chunk which a row before it names too, by
    /// rising table and id, or a plan above the greatest in the journal. It writes nothing, and is called once the
    /// devices were looked at.
    pub fn scan(&mut self) -> Result<Scanned, JournalFault>
        requires { AreUp self.old → AreLookedAt D.state self.old }
        ensures asks { Asks D.state D.images self.old self.new result }
        // exactly these rows are hidden, and exactly these chunks are named
        ensures found { IfOk result (IsFound (devs D.state self.old)) }
        // Where the devices have named slots, and those of each row are whole, all rows are there.
        ensures whole { IfOk result (λ scanned. (meaning : LocalName → List ℕ)
            → NamedSlots meaning (devs D.state self.old) → WholeSlots meaning (redone (devs D.state self.old))
            → keys scanned.hidden ≡ []) }
    {
        if self.is_down() {
            return Err(JournalFault::Down);
        }
        self.find_rows()
    }
}
