//! The rows that wait.
ghost use Rattle.std.specs.Prelude.{◌≡◌, [], length, true, OnOk};
ghost use Rattle.std.specs.BTreeSet.{contains, keys};
ghost use Rattle.slot_store.specs.Data.{key_cmp, key_at};
ghost use Rattle.client_node.specs.Waiting.{IsMore, IsNotedTwice, NoneNoted, TakesOff};

use crate::noted::of_16_bytes;
use slot_store::RowKey;
use stab_base::{RowId, TableNo};
use std::alloc::{AllocError, Global};
use std::collections::BTreeSet;

/// The rows whose write waits for an answer, those that have one to send, and those in conflict; and maybe some more.
#[derive(Drop)]
pub(crate) struct Waiting {
    pub(crate) outs: BTreeSet<RowKey>,
    pub(crate) ready: BTreeSet<RowKey>,
    pub(crate) conflicts: BTreeSet<RowKey>,
}

/// Rows of a table that are noted without need: those that wait for no answer, and those that have nothing to send.
#[derive(Drop)]
pub(crate) struct Stale {
    pub(crate) outs: Vec<RowId>,
    pub(crate) ready: Vec<RowId>,
}

// Takes rows of a table off a set.
fn take_off(set: &mut BTreeSet<RowKey>, table: TableNo, rows: &[RowId])
    ensures { TakesOff table rows.now set.old set.new }
{
    for row in rows {
        let key = RowKey { table, row: *row };
        set.remove(&key);
    }
}

impl Waiting {
    /// No row waits.
    pub(crate) fn new(alloc: Global) -> Waiting
        ensures { NoneNoted result }
    {
        Waiting {
            outs: BTreeSet::new(alloc),
            ready: BTreeSet::new(alloc),
            conflicts: BTreeSet::new(alloc),
        }
    }

    /// Notes a row whose write waits for an answer.
    pub(crate) fn note_out(&mut self, table: TableNo, row: RowId) -> Result<(), AllocError>
        ensures more { IsMore self.old self.new }
        ensures noted { OnOk result (contains key_cmp self.new.outs (key_at table row) ≡ true) }
    {
        self.outs.insert(RowKey { table, row })?;
        Ok(())
    }

    /// Notes a row that has a write to send.
    pub(crate) fn note_ready(&mut self, table: TableNo, row: RowId) -> Result<(), AllocError>
        ensures more { IsMore self.old self.new }
        ensures noted { OnOk result (contains key_cmp self.new.ready (key_at table row) ≡ true) }
    {
        self.ready.insert(RowKey { table, row })?;
        Ok(())
    }

    /// Notes a row in conflict.
    pub(crate) fn note_conflict(&mut self, table: TableNo, row: RowId) -> Result<(), AllocError>
        ensures more { IsMore self.old self.new }
        ensures noted { OnOk result (contains key_cmp self.new.conflicts (key_at table row) ≡ true) }
        ensures sized { length row ≡ 16 }
    {
        let row = of_16_bytes(row);
        self.conflicts.insert(RowKey { table, row })?;
        Ok(())
    }

    /// Notes a row of a table as one that may wait for an answer, may have a write to send, and may be in conflict.
    pub(crate) fn note(&mut self, table: TableNo, row: RowId) -> Result<(), AllocError>
        ensures more { IsMore self.old self.new }
        ensures noted { OnOk result (IsNotedTwice self.new table row) }
    {
        self.note_out(table, row)?;
        self.note_ready(table, row)?;
        self.note_conflict(table, row)?;
        Ok(())
    }

    /// Takes rows of a table that wait for no answer off.
    pub(crate) fn forget_outs(&mut self, table: TableNo, rows: &[RowId])
        ensures outs { TakesOff table rows.now self.old.outs self.new.outs }
        ensures ready { self.new.ready ≡ self.old.ready }
        ensures conflicts { self.new.conflicts ≡ self.old.conflicts }
    {
        take_off(&mut self.outs, table, rows);
    }

    /// Takes stale rows of a table off.
    pub(crate) fn forget(&mut self, table: TableNo, stale: &Stale)
        ensures outs { TakesOff table stale.now.outs.items self.old.outs self.new.outs }
        ensures ready { TakesOff table stale.now.ready.items self.old.ready self.new.ready }
        ensures conflicts { self.new.conflicts ≡ self.old.conflicts }
    {
        take_off(&mut self.outs, table, stale.outs.as_slice());
        take_off(&mut self.ready, table, stale.ready.as_slice());
    }

    /// Takes rows of a table that are in no conflict off.
    pub(crate) fn forget_conflicts(&mut self, table: TableNo, rows: &[RowId])
        ensures outs { self.new.outs ≡ self.old.outs }
        ensures ready { self.new.ready ≡ self.old.ready }
        ensures conflicts { TakesOff table rows.now self.old.conflicts self.new.conflicts }
    {
        take_off(&mut self.conflicts, table, rows);
    }
}
