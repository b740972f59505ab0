//! How a node takes a prepared plan on.
ghost use Rattle.std.specs.Prelude.{◌≡◌, [], true, length, map, OnOk, IsSome};
ghost use Rattle.std.specs.BTreeSet.{contains};
ghost use Rattle.disk_trait.specs.Fuse.{behind};
ghost use Rattle.slot_store.specs.Data.{key_cmp, key_at};
ghost use Rattle.client_tables.specs.Transitions.{can_send};
ghost use Rattle.client_journal.specs.NamedSlots.{IsAtRest};
ghost use Rattle.client_journal.specs.Plan.{IsPlan};
ghost use Rattle.client_journal.specs.Standing.{devs as held_by, writes_of, AreUp, IsReady};
ghost use Rattle.step_tables.specs.Travels.{send_of};
ghost use Rattle.client_node.specs.Carrying.{Carries, IsNotedRow, NotesPlan};
ghost use Rattle.client_node.specs.Phases.{KeepsPhases};
ghost use Rattle.client_node.specs.Waiting.{IsMore};

use crate::fault::CallFault;
use crate::node::ClientNode;
use crate::planning::{Planned, begin};
use crate::waiting::Waiting;
use client_journal::Plan;
use client_tables::can_send;
use disk_trait::Disk;
use plan_log::RowChange;
use stab_base::TableNo;
use std::alloc::AllocError;
use step_tables::Addressed;

// Notes a row whose slots have a write that waits for an answer.
fn note_out(waiting: &mut Waiting, table: TableNo, change: &RowChange) -> Result<(), AllocError>
    ensures more { IsMore waiting.old waiting.new }
    ensures noted { OnOk result (IsSome change.now.slots.out
        → contains key_cmp waiting.new.outs (key_at table change.now.row) ≡ true) }
{
    if change.slots.out.is_some() {
        waiting.note_out(table, change.row)
    } else {
        Ok(())
    }
}

// Notes a row whose slots have a write to send.
fn note_ready(waiting: &mut Waiting, table: TableNo, change: &RowChange) -> Result<(), AllocError>
    ensures more { IsMore waiting.old waiting.new }
    ensures noted { OnOk result (can_send change.now.slots ≡ true
        → contains key_cmp waiting.new.ready (key_at table change.now.row) ≡ true) }
{
    if can_send(&change.slots) {
        waiting.note_ready(table, change.row)
    } else {
        Ok(())
    }
}

// Notes a row that its slots have in conflict.
fn note_conflict(
    waiting: &mut Waiting,
    table: TableNo,
    change: &RowChange,
) -> Result<(), AllocError>
    ensures more { IsMore waiting.old waiting.new }
    ensures noted { OnOk result (IsSome change.now.slots.conflict
        → contains key_cmp waiting.new.conflicts (key_at table change.now.row) ≡ true) }
    ensures sized { IsSome change.now.slots.conflict → length change.now.row ≡ 16 }
{
    if change.slots.conflict.is_some() {
        waiting.note_conflict(table, change.row)
    } else {
        Ok(())
    }
}

/// Notes a row where its slots have a write that waits for an answer, or one to send, and where it is in conflict.
pub(crate) fn note_row(
    waiting: &mut Waiting,
    table: TableNo,
    change: &RowChange,
) -> Result<(), AllocError>
    ensures more { IsMore waiting.old waiting.new }
    ensures noted { OnOk result (IsNotedRow waiting.new table change.now) }
{
    note_out(waiting, table, change)?;
    note_ready(waiting, table, change)?;
    note_conflict(waiting, table, change)?;
    Ok(())
}

/// Notes the row of a plan where it comes to wait.
pub(crate) fn note_plan(waiting: &mut Waiting, plan: &Plan) -> Result<(), AllocError>
    ensures { NotesPlan waiting.old waiting.new plan.now result }
{
    match &plan.row {
        None => Ok(()),
        Some(change) => note_row(waiting, plan.table, change),
    }
}

impl<D: Disk + Drop> ClientNode<D> {
    // Takes a plan on, and sends messages at once.
    pub(crate) fn carry_out(
        &mut self,
        planned: Planned,
        mut again: Vec<Addressed>,
    ) -> Result<(), CallFault>
        requires up { AreUp self.old.devs }
        requires idle { writes_of self.old.devs ≡ [] }
        requires ready { IsReady (behind D.state) self.old.devs (writes_of self.old.devs) }
        requires rests { IsAtRest (held_by (behind D.state) self.old.devs) }
        requires plan { IsPlan (held_by (behind D.state) self.old.devs) planned.plan }
        ensures carries { Carries D.state D.images self.old self.new planned (map send_of again.items) result }
        ensures phases { KeepsPhases self.old self.new }
    {
        self.facts.reserve(planned.facts.len())?;
        self.messages.reserve(again.len() + planned.messages.len())?;
        note_plan(&mut self.waiting, &planned.plan)?;
        let begun = begin(&mut self.devs, planned);
        self.owed = self.settle(begun)?;
        self.messages.put_all(&mut again);
        Ok(())
    }
}
