//! What a table's devices tell of the rows that are there.
ghost use Rattle.std.specs.Prelude.{◌≡◌, ◌↔◌, ◌⊎◌, filter, not, IfOk, IfErr, IfSome, IsErrOf};
ghost use Rattle.std.specs.BTreeSet.{contains};
ghost use Rattle.std.specs.Map.{keys_of};
ghost use Rattle.std.specs.List.Sorted.{IsStrictlySortedBy};
ghost use Rattle.chunk_store.specs.Payload.{name_cmp};
ghost use Rattle.chunk_store.specs.Standing.{chunk_in};
ghost use Rattle.row_store.specs.Data.{row_of, version_of, id_cmp, IsTableVersion, AreChangedSince, IsNextChanged};
ghost use Rattle.row_store.specs.Data.{subs_of};
ghost use Rattle.row_store.specs.Spelling.{HasStoredSpelling};
ghost use Rattle.store_commit.specs.Standing.{devs, seen, AreUp, IsOneDown, AreLookedAt};
ghost use Rattle.store_commit.specs.Scan.{Asks};

use crate::TableDevs;
use crate::fault::{CommitFault, found_chunk, found_row, of_rows};
use crate::taking::newest_of;
use chunk_store::ChunkName;
use disk_trait::Disk;
use row_store::{StoredRow, Subs};
use row_value::Schema;
use stab_base::{Bytes, Names, RowId, RowVersion, Rows, Version};
use std::alloc::{AllocError, Global};
use std::collections::BTreeSet;

// Those of these rows that aren't hidden.
fn shown_of(
    alloc: Global,
    hidden: &BTreeSet<RowId>,
    rows: &[RowVersion],
) -> Result<Vec<RowVersion>, AllocError>
    ensures { IfOk result (λ made. made.items
        ≡ filter (λ each. not (contains id_cmp hidden.now each.row)) rows.now) }
{
    rows.iter()
        .copied()
        .filter(|each| !hidden.contains(&each.row))
        .collect(alloc)
}

impl<D: Disk + Drop> TableDevs<D> {
    /// The row of an id, if it is there. It is one read of the disk.
    pub fn row(&mut self, row: &RowId) -> Result<Option<StoredRow>, CommitFault>
        requires { AreUp self.old → AreLookedAt D.state self.old }
        ensures asks { Asks D.state D.images self.old self.new result }
        ensures scanned { self.new.scanned ≡ self.old.scanned }
        ensures row { IfOk result (λ found. row_of (seen D.state self.old).held row.now ≡ found) }
        ensures spelled { IfOk result (λ found. IfSome found HasStoredSpelling) }
    {
        if self.is_down() {
            return Err(CommitFault::Down);
        }
        if self.scanned.hidden.contains(row) {
            return Ok(None);
        }
        found_row(self.rows.get_row(row))
    }

    /// The version of a row, 0 where it isn't there or a device is down. It reads nothing from the disk and takes no
    /// memory.
    pub fn version_of(&self, row: &RowId) -> Version
        requires { AreUp self.now → AreLookedAt D.state self.now }
        ensures { AreUp self.now → result ≡ version_of (seen D.state self.now).held row.now }
    {
        if self.is_down() {
            return 0;
        }
        if self.scanned.hidden.contains(row) {
            return 0;
        }
        self.rows.version_of(row)
    }

    /// The greatest version of the rows that are there, 0 where there is none. It reads nothing from the disk and takes
    /// memory only where a row is hidden.
    pub fn table_version(&mut self) -> Result<Version, CommitFault>
        requires { AreUp self.old → AreLookedAt D.state self.old }
        ensures asks { Asks D.state D.images self.old self.new result }
        ensures scanned { self.new.scanned ≡ self.old.scanned }
        ensures greatest { IfOk result (IsTableVersion (seen D.state self.old).held) }
    {
        if self.is_down() {
            return Err(CommitFault::Down);
        }
        if self.scanned.hidden.is_empty() {
            return Ok(self.rows.table_version());
        }
        let rows = of_rows(self.rows.changed_since(0))?;
        Ok(newest_of(&self.scanned.hidden, rows.as_slice()))
    }

    /// The rows that are there with a version above a position, by rising version. It reads nothing from the disk.
    pub fn changed_since(&mut self, position: Version) -> Result<Rows, CommitFault>
        requires { AreUp self.old → AreLookedAt D.state self.old }
        ensures asks { Asks D.state D.images self.old self.new result }
        ensures scanned { self.new.scanned ≡ self.old.scanned }
        ensures changed { IfOk result (AreChangedSince (seen D.state self.old).held position) }
    {
        if self.is_down() {
            return Err(CommitFault::Down);
        }
        let rows = of_rows(self.rows.changed_since(position))?;
        let shown = shown_of(self.alloc, &self.scanned.hidden, rows.as_slice())?;
        Ok(Rows::from_vec(shown))
    }

    /// The row that is there with the least version above a position, if there is one. It reads nothing from the disk.
    /// Where no row is hidden it is logarithmic, besides what `reserve` left in the queue.
    pub fn next_changed(&mut self, position: Version) -> Result<Option<RowVersion>, CommitFault>
        requires { AreUp self.old → AreLookedAt D.state self.old }
        ensures asks { Asks D.state D.images self.old self.new result }
        ensures scanned { self.new.scanned ≡ self.old.scanned }
        ensures next { IfOk result (IsNextChanged (seen D.state self.old).held position) }
    {
        if self.is_down() {
            return Err(CommitFault::Down);
        }
        if self.scanned.hidden.is_empty() {
            return of_rows(self.rows.next_changed(position));
        }
        let rows = self.changed_since(position)?;
        Ok(rows.as_slice().first().copied())
    }

    /// The subscriptions, by rising client.
    pub fn subs(&self) -> Result<Subs, CommitFault>
        requires { AreUp self.now → AreLookedAt D.state self.now }
        ensures subs { IfOk result (λ subs. subs ≡ subs_of (seen D.state self.now).held) }
        ensures down { IsErrOf result CommitFault.Down ↔ IsOneDown self.now }
        ensures only { IfErr result (λ e. (e ≡ CommitFault.Down) ⊎ (e ≡ CommitFault.Memory)) }
    {
        if self.is_down() {
            return Err(CommitFault::Down);
        }
        let subs = self.rows.subs()?;
        Ok(subs)
    }

    /// The table's schema and state, if it was put.
    pub fn table_state(&self) -> Result<Option<(Schema, u8)>, CommitFault>
        requires { AreUp self.now → AreLookedAt D.state self.now }
        ensures table { IfOk result (λ table. table ≡ (seen D.state self.now).held.table) }
        ensures down { IsErrOf result CommitFault.Down ↔ IsOneDown self.now }
        ensures only { IfErr result (λ e. (e ≡ CommitFault.Down) ⊎ (e ≡ CommitFault.Memory)) }
    {
        if self.is_down() {
            return Err(CommitFault::Down);
        }
        let table = self.rows.table_state()?;
        Ok(table)
    }

    /// The bytes of a chunk, if its name has one. It is one read of the disk.
    pub fn chunk(&mut self, name: ChunkName) -> Result<Option<Bytes>, CommitFault>
        requires { AreUp self.old → AreLookedAt D.state self.old }
        ensures asks { Asks D.state D.images self.old self.new result }
        ensures scanned { self.new.scanned ≡ self.old.scanned }
        ensures chunk { IfOk result (λ found. chunk_in (devs D.state self.old).chunks name ≡ found) }
    {
        if self.is_down() {
            return Err(CommitFault::Down);
        }
        found_chunk(self.chunks.get(name))
    }

    /// The names that have a chunk, in rising order.
    pub fn chunk_names(&self) -> Result<Names, CommitFault>
        requires { AreUp self.now → AreLookedAt D.state self.now }
        ensures names { IfOk result (λ names. names ≡ keys_of (devs D.state self.now).chunks) }
        ensures rising { IfOk result (λ names. IsStrictlySortedBy name_cmp names) }
        ensures down { IsErrOf result CommitFault.Down ↔ IsOneDown self.now }
        ensures only { IfErr result (λ e. (e ≡ CommitFault.Down) ⊎ (e ≡ CommitFault.Memory)) }
    {
        if self.is_down() {
            return Err(CommitFault::Down);
        }
        let names = self.chunks.names()?;
        Ok(names)
    }
}
