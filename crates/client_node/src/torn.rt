//! What a client makes of a row that it asked for whole.
ghost use Rattle.std.specs.Prelude.{◌≡◌, Some, IfOk, IfErr};
ghost use Rattle.client_journal.specs.Standing.{devs as held_by, writes_of, AreUp, IsReady};
ghost use Rattle.step_tables.specs.declared.message.Message.TheVariants.{TornRowResponse as ResponseMessage};
ghost use Rattle.client_node.specs.Answers.{record_at, IsFault};
ghost use Rattle.client_node.specs.Looks.{Looks};
ghost use Rattle.client_node.specs.Placing.{IsWhole};
ghost use Rattle.client_node.specs.Readied.{IsIdle, Reacts};

use crate::calls::pulling::request_from;
use crate::fault::CallFault;
use crate::looking::row_slots;
use crate::placing::{is_old, is_whole, plan_row};
use crate::planning::{Reaction, begins};
use crate::row_plan::find_table;
use client_journal::Journal;
use disk_trait::Disk;
use slot_store::TableRecord;
use stab_base::ClientNo;
use std::alloc::Global;
use step_tables::{RowHeader, TornRowResponse};

// What a row that fits an opened table and is named comes to.
fn place_row<D: Disk + Drop>(
    alloc: Global,
    client: ClientNo,
    devs: &mut Journal<D>,
    opened: &TableRecord,
    answer: &TornRowResponse,
    header: &RowHeader,
) -> Result<Reaction, CallFault>
    requires up { AreUp devs.old }
    requires ready { IsReady D.state devs.old (writes_of devs.old) }
    requires idle { IsIdle (held_by D.state devs.old) client }
    requires opened { record_at (held_by D.state devs.old) answer.now.table ≡ Some opened.now }
    requires header { answer.now.header ≡ Some header.now }
    requires whole { IsWhole opened.now header.now }
    ensures looks { Looks D.state D.images devs.old devs.new result }
    ensures reacts { IfOk result (Reacts (held_by D.state devs.old) client (ResponseMessage answer.now)) }
    ensures refused { IfErr result IsFault }
{
    let slots = row_slots(devs, answer.table, &header.row)?;
    let next = request_from(alloc, client, answer.table, opened.position)?;
    if is_old(header.version, &slots) {
        return Ok(Reaction::Sends(next));
    }
    let found = plan_row(
        alloc,
        client,
        devs,
        opened,
        answer.table,
        &slots,
        header,
        None,
        next,
    )?;
    Ok(begins(found))
}

// What a row of an opened table comes to.
fn place_whole<D: Disk + Drop>(
    alloc: Global,
    client: ClientNo,
    devs: &mut Journal<D>,
    opened: &TableRecord,
    answer: &TornRowResponse,
    header: &RowHeader,
) -> Result<Reaction, CallFault>
    requires up { AreUp devs.old }
    requires ready { IsReady D.state devs.old (writes_of devs.old) }
    requires idle { IsIdle (held_by D.state devs.old) client }
    requires opened { record_at (held_by D.state devs.old) answer.now.table ≡ Some opened.now }
    requires header { answer.now.header ≡ Some header.now }
    ensures looks { Looks D.state D.images devs.old devs.new result }
    ensures reacts { IfOk result (Reacts (held_by D.state devs.old) client (ResponseMessage answer.now)) }
    ensures refused { IfErr result IsFault }
{
    let whole = is_whole(alloc, opened, header)?;
    if !whole {
        return Ok(Reaction::Nothing);
    }
    place_row(alloc, client, devs, opened, answer, header)
}

// What an answer for an opened table comes to.
fn place_header<D: Disk + Drop>(
    alloc: Global,
    client: ClientNo,
    devs: &mut Journal<D>,
    opened: &TableRecord,
    answer: &TornRowResponse,
) -> Result<Reaction, CallFault>
    requires up { AreUp devs.old }
    requires ready { IsReady D.state devs.old (writes_of devs.old) }
    requires idle { IsIdle (held_by D.state devs.old) client }
    requires opened { record_at (held_by D.state devs.old) answer.now.table ≡ Some opened.now }
    ensures looks { Looks D.state D.images devs.old devs.new result }
    ensures reacts { IfOk result (Reacts (held_by D.state devs.old) client (ResponseMessage answer.now)) }
    ensures refused { IfErr result IsFault }
{
    match &answer.header {
        None => {
            let next = request_from(alloc, client, answer.table, opened.position)?;
            Ok(Reaction::Sends(next))
        }
        Some(header) => place_whole(alloc, client, devs, opened, answer, header),
    }
}

/// What a row that was asked for whole comes to: the plan of the row, where it is newer than the one that was read, and
/// behind it the request for the next change.
pub(crate) fn place_torn<D: Disk + Drop>(
    alloc: Global,
    client: ClientNo,
    devs: &mut Journal<D>,
    answer: &TornRowResponse,
) -> Result<Reaction, CallFault>
    requires up { AreUp devs.old }
    requires ready { IsReady D.state devs.old (writes_of devs.old) }
    requires idle { IsIdle (held_by D.state devs.old) client }
    ensures looks { Looks D.state D.images devs.old devs.new result }
    ensures reacts { IfOk result (Reacts (held_by D.state devs.old) client (ResponseMessage answer.now)) }
    ensures refused { IfErr result IsFault }
{
    let found = find_table(devs, answer.table)?;
    match &found {
        None => Ok(Reaction::Nothing),
        Some(opened) => place_header(alloc, client, devs, opened, answer),
    }
}
