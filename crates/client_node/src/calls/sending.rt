//! How a client sends its writes.
ghost use Rattle.std.specs.Prelude.{◌≡◌, ◌+◌, ◌<◌, ◌^◌, true, [], Some, IfOk, IfErr, OnOk};
ghost use Rattle.client_tables.specs.Transitions.{can_send};
ghost use Rattle.client_tables.specs.Change.{version_in};
ghost use Rattle.client_journal.specs.Standing.{devs as held_by, writes_of, AreUp, IsReady};
ghost use Rattle.step_tables.specs.ClientMoves.{Client, Sync};
ghost use Rattle.step_tables.specs.Facts.{Number};
ghost use Rattle.client_node.specs.Answers.{record_at, held_at, IsFault};
ghost use Rattle.client_node.specs.Does.{Does};
ghost use Rattle.client_node.specs.Looks.{Looks};
ghost use Rattle.client_node.specs.Node.{IsClient, IsNode};
ghost use Rattle.client_node.specs.Readied.{IsIdle};
ghost use Rattle.client_node.specs.Requesting.{NoneSends};
ghost use Rattle.client_node.specs.Syncing.{Syncs, AreStale, IsSendOf, IsNextIn, SendsAgain};
ghost use Rattle.client_node.specs.Phases.{KeepsPhases};

use crate::calls::pulling::check_link;
use crate::fault::CallFault;
use crate::looking::{check_idle, open_table};
use crate::node::ClientNode;
use crate::noted::rows_in;
use crate::planning::Planned;
use crate::requesting::{first_ready, request_with, requests};
use crate::row_plan::{last_write, plan_of_row};
use crate::spelling::{Spelled, spell_held};
use crate::waiting::{Stale, Waiting};
use client_journal::Journal;
use client_tables::plan_send;
use disk_trait::Disk;
use held_contents::pieces_by_object;
use held_value::{Main, Shadow, Slots};
use slot_store::{RowKey, TableRecord};
use stab_base::{ClientNo, RowId, TableNo, Version};
use std::alloc::Global;
use std::collections::BTreeSet;
use step_tables::Addressed;

/// What a synchronization sends: requests that are sent again at once, and the plan of the next, if there is one. It
/// passes over rows that are noted without need.
#[derive(Drop)]
pub(crate) struct Synced {
    pub(crate) again: Vec<Addressed>,
    pub(crate) next: Option<Planned>,
    pub(crate) stale: Stale,
}

fn version_in(shadow: &Option<Shadow>) -> Version
    ensures { result ≡ version_in shadow.now }
{
    match shadow {
        None => 0,
        Some(row) => row.version,
    }
}

// The plan of the sending of a row's last write, whose own last write sends the request.
fn plan_of_main<D: Disk + Drop>(
    alloc: Global,
    client: ClientNo,
    devs: &mut Journal<D>,
    opened: &TableRecord,
    table: TableNo,
    row: &RowId,
    slots: &Slots,
    main: &Main,
) -> Result<Option<Planned>, CallFault>
    requires up { AreUp devs.old }
    requires ready { IsReady D.state devs.old (writes_of devs.old) }
    requires idle { IsIdle (held_by D.state devs.old) client }
    requires sends { can_send slots.now ≡ true }
    requires held { slots.now ≡ held_at (held_by D.state devs.old) table row.now }
    requires main { slots.now.main ≡ Some main.now }
    requires opened { record_at (held_by D.state devs.old) table ≡ Some opened.now }
    ensures looks { Looks D.state D.images devs.old devs.new result }
    ensures plan { IfOk result (IsSendOf (held_by D.state devs.old) client table row.now) }
    ensures refused { IfErr result IsFault }
{
    let last = last_write(devs)?;
    let size = opened.schema.chunk;
    let spelled = spell_held(alloc, devs, size, &slots.shadow, &main.content)?;
    let Spelled { content, pieces } = spelled;
    let parted = pieces_by_object(alloc, &main.content, &pieces)?;
    let made = plan_send(alloc, slots, pieces)?;
    let base = version_in(&slots.shadow);
    let request = request_with(client, table, row, main.number, base, content, parted);
    let messages = vec![in alloc; request]?;
    let found = plan_of_row(alloc, client, table, row, last, false, None, made, messages)?;
    Ok(found)
}

// The plan of a row's sending.
fn plan_of_send<D: Disk + Drop>(
    alloc: Global,
    client: ClientNo,
    devs: &mut Journal<D>,
    opened: &TableRecord,
    table: TableNo,
    row: &RowId,
    slots: &Slots,
) -> Result<Option<Planned>, CallFault>
    requires up { AreUp devs.old }
    requires ready { IsReady D.state devs.old (writes_of devs.old) }
    requires idle { IsIdle (held_by D.state devs.old) client }
    requires sends { can_send slots.now ≡ true }
    requires held { slots.now ≡ held_at (held_by D.state devs.old) table row.now }
    requires opened { record_at (held_by D.state devs.old) table ≡ Some opened.now }
    ensures looks { Looks D.state D.images devs.old devs.new result }
    ensures plan { IfOk result (IsSendOf (held_by D.state devs.old) client table row.now) }
    ensures refused { IfErr result IsFault }
{
    match &slots.main {
        None => Ok(None),
        Some(main) => plan_of_main(alloc, client, devs, opened, table, row, slots, main),
    }
}

// The plan of the first row of a table in a set that has something to send, if one has. The rows before it are added to
// those that have nothing.
fn next_plan<D: Disk + Drop>(
    alloc: Global,
    client: ClientNo,
    devs: &mut Journal<D>,
    opened: &TableRecord,
    table: TableNo,
    set: &BTreeSet<RowKey>,
    stale: &mut Vec<RowId>,
) -> Result<Option<Planned>, CallFault>
    requires up { AreUp devs.old }
    requires ready { IsReady D.state devs.old (writes_of devs.old) }
    requires idle { IsIdle (held_by D.state devs.old) client }
    requires opened { record_at (held_by D.state devs.old) table ≡ Some opened.now }
    requires small { table + 1 < 2 ^ 32 }
    ensures looks { Looks D.state D.images devs.old devs.new result }
    ensures next { IfOk result (IsNextIn (held_by D.state devs.old) client table set.now) }
    ensures stale { OnOk result (NoneSends (held_by D.state devs.old) table stale.old.items
        → NoneSends (held_by D.state devs.old) table stale.new.items) }
    ensures refused { IfErr result IsFault }
{
    let first = first_ready(devs, table, set, stale)?;
    match &first {
        None => Ok(None),
        Some((row, slots)) => plan_of_send(alloc, client, devs, opened, table, row, slots),
    }
}

// What a synchronization of an opened table sends.
fn sync_opened<D: Disk + Drop>(
    alloc: Global,
    client: ClientNo,
    devs: &mut Journal<D>,
    opened: &TableRecord,
    waiting: &Waiting,
    table: TableNo,
) -> Result<Synced, CallFault>
    requires up { AreUp devs.old }
    requires ready { IsReady D.state devs.old (writes_of devs.old) }
    requires idle { IsIdle (held_by D.state devs.old) client }
    requires opened { record_at (held_by D.state devs.old) table ≡ Some opened.now }
    ensures looks { Looks D.state D.images devs.old devs.new result }
    ensures syncs { IfOk result (Syncs (held_by D.state devs.old) client table waiting.now) }
    ensures stale { IfOk result (λ synced. AreStale (held_by D.state devs.old) table synced.stale) }
    ensures refused { IfErr result IsFault }
{
    let rows = rows_in(alloc, &waiting.outs, table)?;
    let mut outs = Vec::new(alloc);
    let again = requests(alloc, client, devs, table, rows.as_slice(), &mut outs)?;
    let mut ready = Vec::new(alloc);
    let next = next_plan(
        alloc,
        client,
        devs,
        opened,
        table,
        &waiting.ready,
        &mut ready,
    )?;
    Ok(Synced {
        again,
        next,
        stale: Stale { outs, ready },
    })
}

// What a synchronization sends.
fn sync<D: Disk + Drop>(
    alloc: Global,
    client: ClientNo,
    is_linked: bool,
    devs: &mut Journal<D>,
    waiting: &Waiting,
    table: TableNo,
) -> Result<Synced, CallFault>
    requires up { AreUp devs.old }
    requires ready { IsReady D.state devs.old (writes_of devs.old) }
    requires idle { writes_of devs.old ≡ [] → IsIdle (held_by D.state devs.old) client }
    ensures looks { Looks D.state D.images devs.old devs.new result }
    ensures sends { SendsAgain D.state devs.old is_linked client table waiting.now result }
    ensures idle { OnOk result (writes_of devs.old ≡ []) }
{
    let opened = open_table(devs, table)?;
    check_idle(devs)?;
    check_link(is_linked)?;
    sync_opened(alloc, client, devs, &opened, waiting, table)
}

impl<D: Disk + Drop> ClientNode<D> {
    /// Sends the table's requests that wait for their answers again, by rising row, and begins the plan that sends the
    /// next row that has something to send. The number is how many requests these are. Rows that it passes over, since
    /// they wait no longer, are taken off those that are noted: each is passed over once.
    ///
    /// # Errors
    ///
    /// `NoTable`, then `Busy`, then `Offline`.
    pub fn sync_now(&mut self, table: TableNo) -> Result<u64, CallFault>
        requires node { IsNode D.state self.old }
        requires up { self.old.is_up ≡ true }
        ensures does { (s : Client) → IsClient D.state self.old s
            → Does D.state D.images s (Sync table) (λ count. Number count) self.old self.new result }
        ensures node { IsNode D.state self.new }
        ensures declared { self.new.is_declared ≡ self.old.is_declared }
        ensures phases { KeepsPhases self.old self.new }
    {
        let found = sync(
            self.alloc,
            self.number,
            self.is_linked,
            &mut self.devs,
            &self.waiting,
            table,
        );
        let synced = self.settle(found)?;
        let Synced { again, next, stale } = synced;
        self.waiting.forget(table, &stale);
        let count = again.len() as u64;
        match next {
            None => {
                self.send(again)?;
                Ok(count)
            }
            Some(planned) => {
                self.carry_out(planned, again)?;
                Ok(count + 1)
            }
        }
    }
}
