//! What of a table a start takes as there.
ghost use Rattle.std.specs.Prelude.{◌≡◌, ℕ, List, [], IfOk, OnOk, OnErr, IsSome, Some, filter};
ghost use Rattle.std.specs.Bool.{MatchBool};
ghost use Rattle.std.specs.BTreeSet.{contains};
ghost use Rattle.std.specs.Map.{keys_of};
ghost use Rattle.std.specs.List.Sorted.{IsStrictlySortedBy};
ghost use Rattle.vault.specs.Standing.{IsUp};
ghost use Rattle.stab_base.specs.declared.chunk_name.ChunkName.{ChunkName};
ghost use Rattle.chunk_store.specs.Payload.{name_cmp};
ghost use Rattle.chunk_store.specs.Standing as chunks;
ghost use Rattle.row_store.specs.declared.stored.StoredRow.{StoredRow};
ghost use Rattle.row_store.specs.Data.{id_cmp, row_of};
ghost use Rattle.row_store.specs.Standing as rows;
ghost use Rattle.store_commit.specs.NamedChunks.{NamedChunks, names_of};
ghost use Rattle.store_commit.specs.There.{is_not_there, hidden_rows, HasIds, WholeRows};
ghost use Rattle.store_commit.specs.Update.{HasNames};
ghost use Rattle.store_commit.specs.Standing.{devs, AreUp, AreLookedAt, hidden_of, spared_of};
ghost use Rattle.store_commit.specs.Standing.{NothingHidden, NothingSpared};
ghost use Rattle.store_commit.specs.Unset.{KeepsUnset};
ghost use Rattle.store_commit.specs.Scan.{ReadsRows, IsScanned, IsFound, Asks, AreSpared, NotesRow};

use crate::devs::TableDevs;
use crate::fault::{CommitFault, of_rows};
use crate::plan::set_of;
use crate::scanned::Scanned;
use crate::there::{Found, note_row};
use chunk_store::ChunkDev;
use disk_trait::Disk;
use row_store::{RowDev, RowFault};
use row_value::Schema;
use stab_base::{ChunkName, RowId};
use std::alloc::{AllocError, Global};
use std::collections::BTreeSet;

// Reads one row more, and notes it.
fn scan_row<D: Disk + Drop>(
    alloc: Global,
    row_dev: &mut RowDev<D>,
    chunk_dev: &ChunkDev<D>,
    table: &Option<(Schema, u8)>,
    row: RowId,
    found: &mut Found,
) -> Result<(), RowFault>
    requires chunk_up { IsUp (chunks.vault_of chunk_dev.now) }
    requires chunk_looked { chunks.IsLookedAt D.state chunk_dev.now }
    requires row_up { IsUp (rows.vault_of row_dev.old) }
    requires row_looked { rows.IsLookedAt D.state row_dev.old }
    requires there { IsSome (row_of (rows.held D.state row_dev.old) row) }
    ensures reads { ReadsRows D.state D.images row_dev.old row_dev.new result }
    ensures noted { OnOk result ((stored : StoredRow) → row_of (rows.held D.state row_dev.old) row ≡ Some stored
        → NotesRow (chunks.chunks D.state chunk_dev.now) table.now row stored found.old found.new) }
{
    let stored = row_dev.get_row(&row)?;
    note_row(alloc, chunk_dev, table, row, &stored, found)?;
    Ok(())
}

// Reads these rows, which are all.
fn scan_rows<D: Disk + Drop>(
    alloc: Global,
    row_dev: &mut RowDev<D>,
    chunk_dev: &ChunkDev<D>,
    table: &Option<(Schema, u8)>,
    ids: &[RowId],
) -> Result<Found, RowFault>
    requires chunk_up { IsUp (chunks.vault_of chunk_dev.now) }
    requires chunk_looked { chunks.IsLookedAt D.state chunk_dev.now }
    requires row_up { IsUp (rows.vault_of row_dev.old) }
    requires row_looked { rows.IsLookedAt D.state row_dev.old }
    requires ids { ids.now ≡ keys_of (rows.held D.state row_dev.old).rows }
    requires rising { IsStrictlySortedBy id_cmp ids.now }
    ensures reads { ReadsRows D.state D.images row_dev.old row_dev.new result }
    ensures found { IfOk result (IsScanned (chunks.chunks D.state chunk_dev.now) table.now
        (rows.held D.state row_dev.old).rows []) }
{
    let mut found = Found::nothing(alloc);
    for row in ids {
        scan_row(alloc, row_dev, chunk_dev, table, *row, &mut found)?;
    }
    Ok(found)
}

// Reads each row once.
fn find_rows<D: Disk + Drop>(
    alloc: Global,
    row_dev: &mut RowDev<D>,
    chunk_dev: &ChunkDev<D>,
) -> Result<Found, RowFault>
    requires chunk_up { IsUp (chunks.vault_of chunk_dev.now) }
    requires chunk_looked { chunks.IsLookedAt D.state chunk_dev.now }
    requires row_up { IsUp (rows.vault_of row_dev.old) }
    requires row_looked { rows.IsLookedAt D.state row_dev.old }
    ensures reads { ReadsRows D.state D.images row_dev.old row_dev.new result }
    ensures found { IfOk result (IsFound (chunks.chunks D.state chunk_dev.now) (rows.held D.state row_dev.old)) }
{
    let ids = row_dev.ids()?;
    let table = row_dev.table_state()?;
    scan_rows(alloc, row_dev, chunk_dev, &table, ids.as_slice())
}

// Those of these names that are in the set.
fn named_of(
    alloc: Global,
    names: &[ChunkName],
    named: &BTreeSet<ChunkName>,
) -> Result<Vec<ChunkName>, AllocError>
    ensures { IfOk result (λ made. made.items ≡ filter (λ name. contains name_cmp named.now name) names.now) }
{
    names
        .iter()
        .copied()
        .filter(|name| named.contains(name))
        .collect(alloc)
}

impl<D: Disk + Drop> TableDevs<D> {
    /// Reads each row once, and takes as not there each that a disk of this program's own never holds: one that doesn't
    /// fit the table's schema, that names a chunk which isn't there or hasn't the length of its place, that names one
    /// twice, that names one which a row before it names too, by rising id, or that names a version above its own.
    /// What a row that is there names is spared by the recovery. It writes nothing, and is called once the devices
    /// were looked at.
    pub fn scan(&mut self) -> Result<(), CommitFault>
        requires { AreUp self.old → AreLookedAt D.state self.old }
        ensures fuse { KeepsUnset D.state self.old self.new }
        ensures asks { Asks D.state D.images self.old self.new result }
        // exactly these rows are hidden
        ensures hidden { OnOk result (HasIds (hidden_rows (devs D.state self.old)) (hidden_of self.new)) }
        ensures spared { OnOk result (AreSpared (devs D.state self.old) (spared_of self.new)) }
        // Where the devices have named chunks, and each row is whole, all rows are there and nothing is spared.
        ensures whole { OnOk result ((meaning : ChunkName → List ℕ) → NamedChunks meaning (devs D.state self.old)
            → WholeRows meaning (devs D.state self.old).held → NothingHidden self.new × NothingSpared self.new) }
        ensures kept { OnErr result (self.new.scanned ≡ self.old.scanned) }
    {
        if self.is_down() {
            return Err(CommitFault::Down);
        }
        let found = of_rows(find_rows(self.alloc, &mut self.rows, &self.chunks))?;
        let (_recovery, left) = self.left_over()?;
        let named = named_of(self.alloc, left.as_slice(), &found.named)?;
        let spared = set_of(self.alloc, &named)?;
        self.scanned = Scanned {
            hidden: found.hidden,
            spared,
        };
        Ok(())
    }
}
