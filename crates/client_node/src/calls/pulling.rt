//! How a client asks for what has changed.
ghost use Rattle.std.specs.Prelude.{◌≡◌, ◌≢◌, ◌∷◌, ◌++◌, ℕ, List, [], true, false, map, IfOk, IfErr, OnOk};
ghost use Rattle.client_journal.specs.Standing.{writes_of, AreUp, IsReady};
ghost use Rattle.step_tables.specs.ClientMoves.{Client, Next, pull_from, torn_from, next_from};
ghost use Rattle.step_tables.specs.Facts.{Done, Torn};
ghost use Rattle.step_tables.specs.Lines.{fact_of};
ghost use Rattle.step_tables.specs.Travels.{send_of};
ghost use Rattle.client_node.specs.Does.{Does};
ghost use Rattle.client_node.specs.Looks.{Looks};
ghost use Rattle.client_node.specs.Node.{IsClient, IsNode};
ghost use Rattle.client_node.specs.Sending.{Sends};
ghost use Rattle.client_node.specs.Phases.{KeepsPhases};

use crate::fault::CallFault;
use crate::looking::{check_idle, open_table};
use crate::node::ClientNode;
use client_journal::Journal;
use disk_trait::Disk;
use slot_store::TableRecord;
use stab_base::{ClientNo, RowId, TableNo, Version};
use std::alloc::{AllocError, Global};
use step_tables::{Addressed, Message, PullRequest, TornRowRequest};
use table_model::Fact;

/// What is told of torn rows, and what asks for rows whole.
#[derive(Drop)]
pub(crate) struct TornRows {
    pub(crate) facts: Vec<Fact>,
    pub(crate) requests: Vec<Addressed>,
}

/// Whether the client's link is up.
pub(crate) fn check_link(is_linked: bool) -> Result<(), CallFault>
    ensures up { OnOk result (is_linked ≡ true) }
    ensures down { IfErr result (λ e. (is_linked ≡ false) × (e ≡ CallFault.Offline)) }
{
    if is_linked {
        Ok(())
    } else {
        Err(CallFault::Offline)
    }
}

/// A request for the next change of a table above this position.
pub(crate) fn request_from(
    alloc: Global,
    client: ClientNo,
    table: TableNo,
    position: Version,
) -> Result<Vec<Addressed>, AllocError>
    ensures { IfOk result (λ sends. map send_of sends.items ≡ pull_from client table position ∷ []) }
{
    let request = PullRequest {
        client,
        token: 0,
        table,
        position,
    };
    Ok(vec![in alloc; (None, Message::PullRequest(request))]?)
}

// The record of a table that a client asks the Store for: it is opened, nothing is to be done, and the link is up.
fn open_linked<D: Disk + Drop>(
    devs: &mut Journal<D>,
    is_linked: bool,
    table: TableNo,
) -> Result<TableRecord, CallFault>
    requires up { AreUp devs.old }
    requires ready { IsReady D.state devs.old (writes_of devs.old) }
    ensures looks { Looks D.state D.images devs.old devs.new result }
    ensures sends { (c : ℕ) (tears asks : List (List ℕ))
        → Sends D.state devs.old is_linked c (Next table tears asks) (λ opened. Done)
        (λ opened. map (Torn c table) tears) (λ opened. next_from c table opened.position asks) result }
    ensures idle { OnOk result (writes_of devs.old ≡ []) }
{
    let opened = open_table(devs, table)?;
    check_idle(devs)?;
    check_link(is_linked)?;
    Ok(opened)
}

// What a pull sends.
fn pull<D: Disk + Drop>(
    alloc: Global,
    client: ClientNo,
    is_linked: bool,
    devs: &mut Journal<D>,
    table: TableNo,
) -> Result<Vec<Addressed>, CallFault>
    requires up { AreUp devs.old }
    requires ready { IsReady D.state devs.old (writes_of devs.old) }
    ensures looks { Looks D.state D.images devs.old devs.new result }
    ensures sends { Sends D.state devs.old is_linked client (Next table [] []) (λ sends. Done)
        (λ sends. []) (λ sends. map send_of sends.items) result }
    ensures idle { OnOk result (writes_of devs.old ≡ []) }
{
    let opened = open_linked(devs, is_linked, table)?;
    let sends = request_from(alloc, client, table, opened.position)?;
    Ok(sends)
}

fn add_torn(
    facts: &mut Vec<Fact>,
    client: ClientNo,
    table: TableNo,
    row: &RowId,
) -> Result<(), AllocError>
    ensures { OnOk result (map fact_of facts.new.items
        ≡ map fact_of facts.old.items ++ Torn client table row.now ∷ []) }
{
    let row = *row;
    facts.push(Fact::Torn { client, table, row })?;
    Ok(())
}

// That these rows are torn.
fn facts_torn(
    alloc: Global,
    client: ClientNo,
    table: TableNo,
    tears: &[RowId],
) -> Result<Vec<Fact>, AllocError>
    ensures { IfOk result (λ facts. map fact_of facts.items ≡ map (Torn client table) tears.now) }
{
    let mut facts = Vec::new(alloc);
    for row in tears {
        add_torn(&mut facts, client, table, row)?;
    }
    Ok(facts)
}

fn add_whole(
    requests: &mut Vec<Addressed>,
    client: ClientNo,
    table: TableNo,
    row: &RowId,
) -> Result<(), AllocError>
    ensures { OnOk result (map send_of requests.new.items
        ≡ map send_of requests.old.items ++ torn_from client table row.now ∷ []) }
{
    let request = TornRowRequest {
        client,
        token: 0,
        table,
        row: *row,
    };
    requests.push((None, Message::TornRowRequest(request)))?;
    Ok(())
}

// The requests for these rows whole.
fn requests_whole(
    alloc: Global,
    client: ClientNo,
    table: TableNo,
    asks: &[RowId],
) -> Result<Vec<Addressed>, AllocError>
    ensures { IfOk result (λ sends. map send_of sends.items ≡ map (torn_from client table) asks.now) }
{
    let mut requests = Vec::new(alloc);
    for row in asks {
        add_whole(&mut requests, client, table, row)?;
    }
    Ok(requests)
}

// What is told of torn rows, and what asks for rows whole.
fn torn_rows<D: Disk + Drop>(
    alloc: Global,
    client: ClientNo,
    is_linked: bool,
    devs: &mut Journal<D>,
    table: TableNo,
    tears: &[RowId],
    asks: &[RowId],
) -> Result<TornRows, CallFault>
    requires up { AreUp devs.old }
    requires ready { IsReady D.state devs.old (writes_of devs.old) }
    requires some { asks.now ≢ [] }
    ensures looks { Looks D.state D.images devs.old devs.new result }
    ensures sends { Sends D.state devs.old is_linked client (Next table tears.now asks.now) (λ torn. Done)
        (λ torn. map fact_of torn.facts.items) (λ torn. map send_of torn.requests.items) result }
    ensures idle { OnOk result (writes_of devs.old ≡ []) }
{
    let _opened = open_linked(devs, is_linked, table)?;
    let facts = facts_torn(alloc, client, table, tears)?;
    let requests = requests_whole(alloc, client, table, asks)?;
    Ok(TornRows { facts, requests })
}

impl<D: Disk + Drop> ClientNode<D> {
    /// Asks for the next change of the table above the position.
    ///
    /// # Errors
    ///
    /// `NoTable`, then `Busy`, then `Offline`.
    pub fn pull_now(&mut self, table: TableNo) -> Result<(), CallFault>
        requires node { IsNode D.state self.old }
        requires up { self.old.is_up ≡ true }
        ensures does { (s : Client) → IsClient D.state self.old s
            → Does D.state D.images s (Next table [] []) (λ value. Done) self.old self.new result }
        ensures node { IsNode D.state self.new }
        ensures declared { self.new.is_declared ≡ self.old.is_declared }
        ensures phases { KeepsPhases self.old self.new }
    {
        let found = pull(
            self.alloc,
            self.number,
            self.is_linked,
            &mut self.devs,
            table,
        );
        let sends = self.settle(found)?;
        self.send(sends)?;
        Ok(())
    }

    /// Tells that rows of the table are torn, and asks for rows whole in place of the next change, in these orders. What
    /// is asked for needn't be what is torn.
    ///
    /// # Errors
    ///
    /// `NoTable`, then `Busy`, then `Offline`.
    pub fn ask_whole(
        &mut self,
        table: TableNo,
        tears: &[RowId],
        asks: &[RowId],
    ) -> Result<(), CallFault>
        requires node { IsNode D.state self.old }
        requires up { self.old.is_up ≡ true }
        requires some { asks.now ≢ [] }
        ensures does { (s : Client) → IsClient D.state self.old s → Does D.state D.images s
            (Next table tears.now asks.now) (λ value. Done) self.old self.new result }
        ensures node { IsNode D.state self.new }
        ensures declared { self.new.is_declared ≡ self.old.is_declared }
        ensures phases { KeepsPhases self.old self.new }
    {
        let found = torn_rows(
            self.alloc,
            self.number,
            self.is_linked,
            &mut self.devs,
            table,
            tears,
            asks,
        );
        let torn = self.settle(found)?;
        self.tell_and_send(torn.facts, torn.requests)?;
        Ok(())
    }
}
