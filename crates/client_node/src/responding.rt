//! What a client makes of the Store's answer to a request.
ghost use Rattle.std.specs.Prelude.{◌≡◌, ℕ, List, map, Some, option_copied, IfOk, IfErr};
ghost use Rattle.held_value.specs.declared.local_name.LocalName.{LocalName};
ghost use Rattle.client_journal.specs.Standing.{devs as held_by, writes_of, AreUp, IsReady};
ghost use Rattle.step_tables.specs.declared.message.Message.TheVariants.{SyncResponse as ResponseMessage};
ghost use Rattle.step_tables.specs.Travels.{send_of};
ghost use Rattle.plan_limits.specs.Fit.{IsFitOutcome};
ghost use Rattle.client_node.specs.Answering.{outcome_in, IsThere, out_behind, request_behind, asked_by};
ghost use Rattle.client_node.specs.Answers.{record_at, IsFault};
ghost use Rattle.client_node.specs.Looks.{Looks};
ghost use Rattle.client_node.specs.Readied.{IsIdle, Reacts};

use crate::calls::pulling::request_from;
use crate::fault::CallFault;
use crate::looking::row_slots;
use crate::planning::{Reaction, begins};
use crate::requesting::request_of;
use crate::row_plan::{find_table, last_write, plan_of_row};
use client_journal::Journal;
use client_tables::{Change, Sending, plan_response};
use disk_trait::Disk;
use held_value::{Out, Slots};
use slot_store::TableRecord;
use stab_base::{ClientNo, RowId, TableNo, Version};
use std::alloc::Global;
use step_tables::{Addressed, SyncResponse};
use table_model::Outcome;

// The outcome as one of a row's slots.
fn outcome_in(outcome: step_tables::Outcome) -> Outcome
    ensures same { result ≡ outcome_in outcome }
    ensures fit { IsFitOutcome result }
{
    match outcome {
        step_tables::Outcome::Accepted { version } => Outcome::Accepted { version },
        step_tables::Outcome::Again { version } => Outcome::Again { version },
        step_tables::Outcome::Late { last } => Outcome::Late { last },
        step_tables::Outcome::Stale { latest } => Outcome::Stale { latest },
        step_tables::Outcome::Conflict { latest } => Outcome::Conflict { latest },
        step_tables::Outcome::NeedWhole => Outcome::NeedWhole,
    }
}

fn out_behind(slots: &Option<Slots>) -> Option<&Out>
    ensures { option_copied result ≡ out_behind slots.now }
{
    match slots {
        None => None,
        Some(slots) => match &slots.out {
            None => None,
            Some(out) => Some(out),
        },
    }
}

// The request of a write that waits for its answer, if there is one.
fn request_behind<D: Disk + Drop>(
    alloc: Global,
    client: ClientNo,
    devs: &mut Journal<D>,
    table: TableNo,
    row: &RowId,
    out: Option<&Out>,
) -> Result<Vec<Addressed>, CallFault>
    requires up { AreUp devs.old }
    requires ready { IsReady D.state devs.old (writes_of devs.old) }
    ensures looks { Looks D.state D.images devs.old devs.new result }
    ensures requests { IfOk result (λ asked. (meaning : LocalName → List ℕ)
        → IsThere meaning (held_by D.state devs.old) (option_copied out.entry)
        → map send_of asked.items ≡ request_behind meaning client table row.now (option_copied out.entry)) }
    ensures refused { IfErr result IsFault }
{
    match out {
        None => Ok(Vec::new(alloc)),
        Some(out) => {
            let request = request_of(alloc, client, devs, table, row, out)?;
            let asked = vec![in alloc; request]?;
            Ok(asked)
        }
    }
}

// What a change of a row's slots asks the Store for, at this position of the table.
fn asked_by<D: Disk + Drop>(
    alloc: Global,
    client: ClientNo,
    devs: &mut Journal<D>,
    table: TableNo,
    row: &RowId,
    position: Version,
    change: &Change,
) -> Result<Vec<Addressed>, CallFault>
    requires up { AreUp devs.old }
    requires ready { IsReady D.state devs.old (writes_of devs.old) }
    ensures looks { Looks D.state D.images devs.old devs.new result }
    ensures asks { IfOk result (λ asked. (meaning : LocalName → List ℕ)
        → IsThere meaning (held_by D.state devs.old) (out_behind change.now.slots)
        → map send_of asked.items ≡ asked_by meaning client table row.now position change.now) }
    ensures refused { IfErr result IsFault }
{
    match change.sends {
        Sending::Nothing => Ok(Vec::new(alloc)),
        Sending::Request => {
            request_behind(alloc, client, devs, table, row, out_behind(&change.slots))
        }
        Sending::Pull => Ok(request_from(alloc, client, table, position)?),
    }
}

// What an answer to a request of an opened table's row comes to.
fn answer_row<D: Disk + Drop>(
    alloc: Global,
    client: ClientNo,
    devs: &mut Journal<D>,
    opened: &TableRecord,
    response: &SyncResponse,
) -> Result<Reaction, CallFault>
    requires up { AreUp devs.old }
    requires ready { IsReady D.state devs.old (writes_of devs.old) }
    requires idle { IsIdle (held_by D.state devs.old) client }
    requires opened { record_at (held_by D.state devs.old) response.now.table ≡ Some opened.now }
    ensures looks { Looks D.state D.images devs.old devs.new result }
    ensures reacts { IfOk result
        (Reacts (held_by D.state devs.old) client (ResponseMessage response.now)) }
    ensures refused { IfErr result IsFault }
{
    let slots = row_slots(devs, response.table, &response.row)?;
    let last = last_write(devs)?;
    let outcome = outcome_in(response.outcome);
    let made = plan_response(alloc, &slots, response.number, outcome)?;
    let asked = asked_by(
        alloc,
        client,
        devs,
        response.table,
        &response.row,
        opened.position,
        &made.change,
    )?;
    if made.change.slots.is_none() {
        return Ok(Reaction::Sends(asked));
    }
    let found = plan_of_row(
        alloc,
        client,
        response.table,
        &response.row,
        last,
        false,
        None,
        made,
        asked,
    )?;
    Ok(begins(found))
}

/// What the Store's answer to a request comes to.
pub(crate) fn answer<D: Disk + Drop>(
    alloc: Global,
    client: ClientNo,
    devs: &mut Journal<D>,
    response: &SyncResponse,
) -> Result<Reaction, CallFault>
    requires up { AreUp devs.old }
    requires ready { IsReady D.state devs.old (writes_of devs.old) }
    requires idle { IsIdle (held_by D.state devs.old) client }
    ensures looks { Looks D.state D.images devs.old devs.new result }
    ensures reacts { IfOk result
        (Reacts (held_by D.state devs.old) client (ResponseMessage response.now)) }
    ensures refused { IfErr result IsFault }
{
    let found = find_table(devs, response.table)?;
    match &found {
        None => Ok(Reaction::Nothing),
        Some(opened) => answer_row(alloc, client, devs, opened, response),
    }
}
