//! Which rows of a table a client has in conflict.
ghost use Rattle.std.specs.Prelude.{◌≡◌, ◌++◌, ◌⊎◌, ℕ, true, false, None, Some, option_to_list};
ghost use Rattle.std.specs.Prelude.{List, length, slice_get, IsSome, IfSome, IfOk, IfErr, OnOk, IsErrOf};
ghost use Rattle.disk_trait.specs.Fuse.{behind};
ghost use Rattle.plan_log.specs.Spelling.{IsTable};
ghost use Rattle.client_journal.specs.Plan.{plan_at_work};
ghost use Rattle.client_journal.specs.Standing.{devs as held_by, writes_of, AreUp, IsReady};
ghost use Rattle.step_tables.specs.ClientMoves.{Client, ClientDisk, ClientTask, Conflicts, ResolveAll};
ghost use Rattle.step_tables.specs.ClientMoves.{table_at, seen, is_int, can_resolve};
ghost use Rattle.step_tables.specs.Facts.{Pairs, Number};
ghost use Rattle.client_node.specs.Answers.{record_at, held_at, IsFault, IsAnswered};
ghost use Rattle.client_node.specs.Does.{Does};
ghost use Rattle.client_node.specs.Listing.{pair_held, pairs_held, calm_held, listed, counted, AreCalm, AreContended};
ghost use Rattle.client_node.specs.Looks.{Looks};
ghost use Rattle.client_node.specs.Node.{StandsFor, IsClient, IsNode};
ghost use Rattle.client_node.specs.Phases.{KeepsPhases};
ghost use Rattle.client_node.specs.Resolving.{IsUnphased};
ghost use Rattle.client_node.specs.Sending.{AreTasksOf};
ghost use Rattle.client_node.specs.Steady.{IsSteady};

use crate::calls::phases::check_open;
use crate::fault::CallFault;
use crate::looking::{check_idle, open_table, row_slots};
use crate::node::ClientNode;
use crate::noted::rows_in;
use crate::waiting::Waiting;
use client_journal::Journal;
use conflicts::Stored;
use disk_trait::Disk;
use held_value::Slots;
use row_value::{ColumnKind, FitFault, Schema};
use stab_base::{RowId, Sequence, TableNo};
use std::alloc::{AllocError, Global};
use table_model::{RowPair, RowPairs};

// A row, where it is in conflict.
fn pair_of(row: &RowId, slots: &Slots) -> Option<RowPair>
    ensures { result ≡ pair_held row.now slots.now.main slots.now.conflict }
{
    match (&slots.main, &slots.conflict) {
        (Some(main), Some(theirs)) => Some(RowPair {
            row: *row,
            number: main.number,
            version: theirs.version,
        }),
        _ => None,
    }
}

// Adds a row, where it is in conflict.
fn add_pair(pairs: &mut Vec<RowPair>, row: &RowId, slots: &Slots) -> Result<(), AllocError>
    ensures { OnOk result (pairs.new.items
        ≡ pairs.old.items ++ option_to_list (pair_held row.now slots.now.main slots.now.conflict)) }
{
    match pair_of(row, slots) {
        None => Ok(()),
        Some(pair) => {
            pairs.push(pair)?;
            Ok(())
        }
    }
}

// Adds a row to the calm ones, where it is in no conflict.
fn add_calm(calm: &mut Vec<RowId>, row: &RowId, slots: &Slots) -> Result<(), AllocError>
    ensures { OnOk result (calm.new.items ≡ calm.old.items ++ calm_held row.now slots.now.conflict) }
{
    match &slots.conflict {
        None => {
            calm.push(*row)?;
            Ok(())
        }
        Some(_) => Ok(()),
    }
}

// Those of these rows that are in conflict. The others are added to the calm ones.
fn pairs_of<D: Disk + Drop>(
    alloc: Global,
    devs: &mut Journal<D>,
    table: TableNo,
    rows: &[RowId],
    calm: &mut Vec<RowId>,
) -> Result<Vec<RowPair>, CallFault>
    requires up { AreUp devs.old }
    requires ready { IsReady D.state devs.old (writes_of devs.old) }
    ensures looks { Looks D.state D.images devs.old devs.new result }
    ensures pairs { IfOk result (λ pairs. pairs.items ≡ pairs_held (held_by D.state devs.old) table rows.now) }
    ensures calm { OnOk result (AreCalm (held_by D.state devs.old) table calm.old.items
        → AreCalm (held_by D.state devs.old) table calm.new.items) }
    ensures refused { IfErr result IsFault }
{
    let mut pairs = Vec::new(alloc);
    for row in rows {
        let slots = row_slots(devs, table, row)?;
        add_pair(&mut pairs, row, &slots)?;
        add_calm(calm, row, &slots)?;
    }
    Ok(pairs)
}

// The rows in conflict of a table whose conflicts are resolved. The rows that are noted without need are added to the
// calm ones.
fn list<D: Disk + Drop>(
    alloc: Global,
    devs: &mut Journal<D>,
    waiting: &Waiting,
    table: TableNo,
    is_open: bool,
    calm: &mut Vec<RowId>,
) -> Result<RowPairs, CallFault>
    requires up { AreUp devs.old }
    requires ready { IsReady D.state devs.old (writes_of devs.old) }
    requires numbered { IfSome (record_at (held_by D.state devs.old) table) (λ opened. IsTable table) }
    ensures looks { Looks D.state D.images devs.old devs.new result }
    ensures answered { (c : ℕ) (disk : ClientDisk) → StandsFor c (held_by D.state devs.old) disk
        → IsSteady waiting.now disk
        → IsAnswered (λ pairs. Pairs pairs) (listed is_open (table_at (seen disk) table)) result }
    ensures calm { OnOk result (AreCalm (held_by D.state devs.old) table calm.old.items
        → AreCalm (held_by D.state devs.old) table calm.new.items) }
    ensures refused { IfErr result (λ e. (e ≡ CallFault.NoTable) ⊎ ((e ≡ CallFault.NotInResolution) ⊎ IsFault e)) }
{
    let _opened = open_table(devs, table)?;
    check_open(is_open)?;
    let rows = rows_in(alloc, &waiting.conflicts, table)?;
    let pairs = pairs_of(alloc, devs, table, rows.as_slice(), calm)?;
    Ok(Sequence::from_vec(pairs))
}

// Whether the column of a schema has numbers.
fn has_numbers(schema: &Schema, column: usize) -> bool
    ensures { result ≡ is_int (slice_get schema.now.columns column) }
{
    match schema.columns.get(column) {
        Some(found) => matches!(found.kind, ColumnKind::Int),
        None => false,
    }
}

// Whether the rows of a schema can be resolved so.
fn check_way(schema: &Schema, by: Stored) -> Result<(), FitFault>
    ensures { result ≡ can_resolve schema.now by }
{
    match by {
        Stored::Mine | Stored::Theirs => Ok(()),
        Stored::Larger { column } => {
            if has_numbers(schema, column) {
                Ok(())
            } else {
                Err(FitFault::BadCell { column })
            }
        }
    }
}

// The rows in conflict of a table, where they may all be resolved so.
fn list_all<D: Disk + Drop>(
    alloc: Global,
    devs: &mut Journal<D>,
    waiting: &Waiting,
    table: TableNo,
    by: Stored,
    is_open: bool,
    calm: &mut Vec<RowId>,
) -> Result<RowPairs, CallFault>
    requires up { AreUp devs.old }
    requires ready { IsReady D.state devs.old (writes_of devs.old) }
    requires numbered { IfSome (record_at (held_by D.state devs.old) table) (λ opened. IsTable table) }
    ensures looks { Looks D.state D.images devs.old devs.new result }
    ensures answered { (c : ℕ) (disk : ClientDisk) (tasks : List ClientTask) → StandsFor c (held_by D.state devs.old) disk
        → IsSteady waiting.now disk → AreTasksOf (writes_of devs.old) tasks
        → IsAnswered (λ pairs. Number (length pairs)) (counted is_open (plan_at_work (held_by D.state devs.old)
        (writes_of devs.old)) tasks by (table_at (seen disk) table)) result }
    ensures pairs { (c : ℕ) (disk : ClientDisk) → StandsFor c (held_by D.state devs.old) disk
        → IsSteady waiting.now disk → IfOk result (AreContended disk table) }
    ensures calm { OnOk result (AreCalm (held_by D.state devs.old) table calm.old.items
        → AreCalm (held_by D.state devs.old) table calm.new.items) }
    ensures unspent { (last : ℕ) → IsErrOf result (CallFault.Spent last) → ⊥ }
{
    let opened = open_table(devs, table)?;
    check_way(&opened.schema, by)?;
    check_idle(devs)?;
    list(alloc, devs, waiting, table, is_open, calm)
}

impl<D: Disk + Drop> ClientNode<D> {
    // Takes rows of a table off that are in no conflict, where no write is to be done: one of those may bring a conflict.
    fn forget_calm(&mut self, table: TableNo, calm: &[RowId])
        requires { self.old.is_up ≡ true }
        ensures kept { AreCalm (held_by (behind D.state) self.old.devs) table calm.now
            → (s : Client) → IsClient D.state self.old s → IsClient D.state self.new s }
        ensures same { self.new ≡ record self.old { waiting = self.new.waiting } }
    {
        if self.devs.idle() {
            self.waiting.forget_conflicts(table, calm);
        }
    }

    /// The rows of a table that are in conflict, by rising id, with the number of the client's write and the version of
    /// the Store's row, in a phase of the table. It may be asked for whatever is still to be done. Where nothing is, rows
    /// that it passes over, since they are in no conflict any longer, are taken off those that are noted: each is passed
    /// over once.
    ///
    /// # Errors
    ///
    /// `NoTable`, then `NotInResolution`.
    pub fn conflicted(&mut self, table: TableNo) -> Result<RowPairs, CallFault>
        requires node { IsNode D.state self.old }
        requires up { self.old.is_up ≡ true }
        ensures does { (s : Client) → IsClient D.state self.old s
            → Does D.state D.images s (Conflicts table) (λ pairs. Pairs pairs) self.old self.new result }
        ensures node { IsNode D.state self.new }
        ensures declared { self.new.is_declared ≡ self.old.is_declared }
        ensures phases { KeepsPhases self.old self.new }
    {
        let is_open = self.phases.contains(&table);
        let mut calm = Vec::new(self.alloc);
        let found = list(
            self.alloc,
            &mut self.devs,
            &self.waiting,
            table,
            is_open,
            &mut calm,
        );
        let pairs = self.settle(found)?;
        self.forget_calm(table, calm.as_slice());
        Ok(pairs)
    }

    /// The rows of a table that are in conflict, as `conflicted` has them, where they may all be resolved in this way now.
    ///
    /// # Errors
    ///
    /// `NoTable`, then `BadCell` where the column has no numbers, then `Busy`, then `NotInResolution`.
    pub fn resolvable(&mut self, table: TableNo, by: Stored) -> Result<RowPairs, CallFault>
        requires node { IsNode D.state self.old }
        requires up { self.old.is_up ≡ true }
        ensures does { (s : Client) → IsClient D.state self.old s
            → Does D.state D.images s (ResolveAll table by) (λ pairs. Number (length pairs)) self.old self.new result }
        ensures pairs { (s : Client) → IsClient D.state self.old s → IfOk result (AreContended s.disk table) }
        ensures node { IsNode D.state self.new }
        ensures declared { self.new.is_declared ≡ self.old.is_declared }
        ensures phases { KeepsPhases self.old self.new }
    {
        let is_open = self.phases.contains(&table);
        let mut calm = Vec::new(self.alloc);
        let found = list_all(
            self.alloc,
            &mut self.devs,
            &self.waiting,
            table,
            by,
            is_open,
            &mut calm,
        );
        let pairs = self.settle(found)?;
        self.forget_calm(table, calm.as_slice());
        Ok(pairs)
    }
}
