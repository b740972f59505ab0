//! What a client's devices tell of the rows that are there.
ghost use Rattle.std.specs.Prelude.{◌≡◌, filter, not, List, ℕ, IfOk};
ghost use Rattle.std.specs.BTreeSet.{contains};
ghost use Rattle.slot_store.specs.Data.{key_cmp, key_at, slots_of, AreRowsOf};
ghost use Rattle.client_journal.specs.Redone.{redone};
ghost use Rattle.client_journal.specs.There.{shown};
ghost use Rattle.client_journal.specs.Asking.{Asks};
ghost use Rattle.client_journal.specs.Standing.{devs, AreUp, AreLookedAt};

use crate::Journal;
use crate::fault::JournalFault;
use crate::scanned::Scanned;
use disk_trait::Disk;
use slot_store::{RowIds, RowKey, RowSlots};
use stab_base::{RowId, TableNo};
use std::alloc::{AllocError, Global};
use std::collections::BTreeSet;

fn is_hidden(hidden: &BTreeSet<RowKey>, table: TableNo, row: RowId) -> bool
    ensures { result ≡ contains key_cmp hidden.now (key_at table row) }
{
    hidden.contains(&RowKey { table, row })
}

// Those of these rows that aren't hidden.
fn shown_of(
    alloc: Global,
    hidden: &BTreeSet<RowKey>,
    table: TableNo,
    rows: &[RowId],
) -> Result<Vec<RowId>, AllocError>
    ensures { IfOk result (λ made. made.items
        ≡ filter (λ row. not (contains key_cmp hidden.now (key_at table row))) rows.now) }
{
    rows.iter()
        .copied()
        .filter(|row| !is_hidden(hidden, table, *row))
        .collect(alloc)
}

impl<D: Disk + Drop> Journal<D> {
    /// The slots of a row that is there, if it has some. It reads them once from the disk, or else the commit at work.
    pub fn shown_slots(
        &mut self,
        scanned: &Scanned,
        table: TableNo,
        row: &RowId,
    ) -> Result<Option<RowSlots>, JournalFault>
        requires { AreUp self.old → AreLookedAt D.state self.old }
        ensures asks { Asks D.state D.images self.old self.new result }
        ensures slots { IfOk result (λ found. slots_of (shown (contains key_cmp scanned.now.hidden)
            (redone (devs D.state self.old))) table row.now ≡ found) }
    {
        if self.is_down() {
            return Err(JournalFault::Down);
        }
        if is_hidden(&scanned.hidden, table, *row) {
            return Ok(None);
        }
        self.slots(table, row)
    }

    /// The ids of a table's rows that are there, in rising order. Of the disks it reads the commit at work alone.
    pub fn shown_rows_of(
        &mut self,
        scanned: &Scanned,
        table: TableNo,
    ) -> Result<RowIds, JournalFault>
        requires { AreUp self.old → AreLookedAt D.state self.old }
        ensures asks { Asks D.state D.images self.old self.new result }
        ensures rows { IfOk result (AreRowsOf (shown (contains key_cmp scanned.now.hidden)
            (redone (devs D.state self.old))) table) }
    {
        let rows = self.rows_of(table)?;
        let shown = shown_of(self.alloc, &scanned.hidden, table, rows.as_slice())?;
        Ok(RowIds::from_vec(shown))
    }
}
