//! How a client opens a table, and closes one for good.
ghost use Rattle.std.specs.Prelude.{◌≡◌, ℕ, [], true, IfOk, IfErr, IfSome, OnOk};
ghost use Rattle.disk_trait.specs.Fuse.{behind, inner_of};
ghost use Rattle.client_journal.specs.Redone.{redone};
ghost use Rattle.client_journal.specs.Standing.{devs as held_by, writes_of, AreUp, IsReady};
ghost use Rattle.step_tables.specs.ClientMoves.{TableChange, Client, Alter, Opens, Closes};
ghost use Rattle.step_tables.specs.Facts.{Done};
ghost use Rattle.client_node.specs.declared.node.ClientNode.{ClientNode as Node};
ghost use Rattle.client_node.specs.Altering.{open_record, IsOfTable, IsUnaltered, Alters, MayTake};
ghost use Rattle.client_node.specs.Answers.{record_at, IsFault};
ghost use Rattle.client_node.specs.Does.{Does};
ghost use Rattle.client_node.specs.Looks.{Looks};
ghost use Rattle.client_node.specs.Node.{IsToOpen, IsClient, IsNode};
ghost use Rattle.client_node.specs.Phases.{KeepsPhases};

use crate::devices::{CLOSED, OPENED};
use crate::fault::CallFault;
use crate::looking::check_idle;
use crate::node::ClientNode;
use crate::planning::Planned;
use crate::row_plan::{find_table, last_write};
use client_journal::{Journal, Plan};
use disk_trait::Disk;
use held_value::Tell;
use plan_log::RecordChange;
use row_value::Schema;
use slot_store::TableRecord;
use stab_base::{ClientNo, Sequence, TableNo, WriteNo};
use std::alloc::{AllocError, Global};
use table_model::{ClientFact, Fact};

// The record of a table that isn't closed.
fn open_record(found: Option<TableRecord>) -> Option<TableRecord>
    ensures { result ≡ open_record found }
{
    match found {
        None => None,
        Some(opened) => {
            if opened.state == CLOSED {
                None
            } else {
                Some(opened)
            }
        }
    }
}

// The record of a table, where nothing is to be done.
fn find_idle<D: Disk + Drop>(
    devs: &mut Journal<D>,
    table: TableNo,
) -> Result<Option<TableRecord>, CallFault>
    requires up { AreUp devs.old }
    requires ready { IsReady D.state devs.old (writes_of devs.old) }
    ensures looks { Looks D.state D.images devs.old devs.new result }
    ensures idle { OnOk result (writes_of devs.old ≡ []) }
    ensures found { IfOk result (λ found. record_at (held_by D.state devs.old) table ≡ found) }
    ensures refused { IfErr result (IsUnaltered (held_by D.state devs.old) (writes_of devs.old)) }
{
    check_idle(devs)?;
    find_table(devs, table)
}

// The plan that changes the record of a table, and tells this.
fn plan_of_table(
    alloc: Global,
    table: TableNo,
    last: WriteNo,
    change: RecordChange,
    tell: Tell,
    fact: ClientFact,
) -> Result<Planned, AllocError>
    ensures { IfOk result (IsOfTable table last change tell fact) }
{
    let mut tells = Sequence::new(alloc);
    tells.push(tell)?;
    Ok(Planned {
        plan: Plan {
            server: false,
            table,
            last,
            row: None,
            position: None,
            new_record: Some(change),
            brought: Sequence::new(alloc),
            drops: Sequence::new(alloc),
            tells,
        },
        facts: vec![in alloc; Fact::Client(fact)]?,
        messages: Vec::new(alloc),
    })
}

// The same, with the number of the client's last write.
fn plan_change<D: Disk + Drop>(
    alloc: Global,
    devs: &mut Journal<D>,
    table: TableNo,
    change: RecordChange,
    tell: Tell,
    fact: ClientFact,
) -> Result<Planned, CallFault>
    requires up { AreUp devs.old }
    requires ready { IsReady D.state devs.old (writes_of devs.old) }
    ensures looks { Looks D.state D.images devs.old devs.new result }
    ensures plan { IfOk result (IsOfTable table (redone (held_by D.state devs.old)).last change tell fact) }
    ensures refused { IfErr result IsFault }
{
    let last = last_write(devs)?;
    let planned = plan_of_table(alloc, table, last, change, tell, fact)?;
    Ok(planned)
}

// The plan that opens a table; None where it is there, open or closed.
fn prepare_open<D: Disk + Drop>(
    alloc: Global,
    client: ClientNo,
    devs: &mut Journal<D>,
    table: TableNo,
    schema: Schema,
) -> Result<Option<Planned>, CallFault>
    requires up { AreUp devs.old }
    requires ready { IsReady D.state devs.old (writes_of devs.old) }
    requires opens { IsToOpen (table, schema) }
    ensures looks { Looks D.state D.images devs.old devs.new result }
    ensures alters { Alters D.state devs.old client table (Opens schema) result }
{
    let found = find_idle(devs, table)?;
    match found {
        Some(_) => Ok(None),
        None => {
            let change = RecordChange {
                state: OPENED,
                schema,
            };
            let fact = ClientFact::Opened { client, table };
            let planned = plan_change(alloc, devs, table, change, Tell::Opened, fact)?;
            Ok(Some(planned))
        }
    }
}

// The plan that closes a table; None where it isn't open.
fn prepare_close<D: Disk + Drop>(
    alloc: Global,
    client: ClientNo,
    devs: &mut Journal<D>,
    table: TableNo,
) -> Result<Option<Planned>, CallFault>
    requires up { AreUp devs.old }
    requires ready { IsReady D.state devs.old (writes_of devs.old) }
    ensures looks { Looks D.state D.images devs.old devs.new result }
    ensures alters { Alters D.state devs.old client table Closes result }
{
    let there = find_idle(devs, table)?;
    match open_record(there) {
        None => Ok(None),
        Some(opened) => {
            let change = RecordChange {
                state: CLOSED,
                schema: opened.schema,
            };
            let fact = ClientFact::Dropped { client, table };
            let planned = plan_change(alloc, devs, table, change, Tell::Dropped, fact)?;
            Ok(Some(planned))
        }
    }
}

impl<D: Disk + Drop> ClientNode<D> {
    // Takes the plan of a table's change on, if there is one, or hands over why none was prepared.
    fn alter(&mut self, found: Result<Option<Planned>, CallFault>) -> Result<(), CallFault>
        requires { IfOk found (λ made. IfSome made (MayTake (behind D.state) self.old.devs)) }
        ensures does { (old : Node D) (s : Client) (table : ℕ) (change : TableChange)
            → self.old ≡ record old { devs = self.old.devs } → IsClient D.state old s → old.is_up ≡ true
            → Looks (behind D.state) (λ f. D.images (inner_of f)) old.devs self.old.devs found
            → Alters (behind D.state) old.devs old.number table change found
            → Does D.state D.images s (Alter table change) (λ value. Done) old self.new result }
        ensures declared { self.new.is_declared ≡ self.old.is_declared }
        ensures phases { KeepsPhases self.old self.new }
    {
        let made = self.settle(found)?;
        match made {
            None => Ok(()),
            Some(planned) => {
                let none = Vec::new(self.alloc);
                self.carry_out(planned, none)
            }
        }
    }

    /// Opens a table that isn't there. One that is there, open or closed, stays as it is. What this takes to write is
    /// then to be done; the table is there, and that is told, from the commit on.
    ///
    /// # Errors
    ///
    /// `Busy`, then `Spent`.
    pub fn open_table(&mut self, table: TableNo, schema: Schema) -> Result<(), CallFault>
        requires node { IsNode D.state self.old }
        requires up { self.old.is_up ≡ true }
        requires opens { IsToOpen (table, schema) }
        ensures does { (s : Client) → IsClient D.state self.old s
            → Does D.state D.images s (Alter table (Opens schema)) (λ value. Done) self.old self.new result }
        ensures node { IsNode D.state self.new }
        ensures declared { self.new.is_declared ≡ self.old.is_declared }
        ensures phases { KeepsPhases self.old self.new }
    {
        let found = prepare_open(self.alloc, self.number, &mut self.devs, table, schema);
        self.alter(found)
    }

    /// Closes a table that is open, for good. A closed one, or one that isn't there, stays as it is. What this takes to
    /// write is then to be done; the table is closed, and that is told, from the commit on.
    ///
    /// # Errors
    ///
    /// `Busy`, then `Spent`.
    pub fn close_table(&mut self, table: TableNo) -> Result<(), CallFault>
        requires node { IsNode D.state self.old }
        requires up { self.old.is_up ≡ true }
        ensures does { (s : Client) → IsClient D.state self.old s
            → Does D.state D.images s (Alter table Closes) (λ value. Done) self.old self.new result }
        ensures node { IsNode D.state self.new }
        ensures declared { self.new.is_declared ≡ self.old.is_declared }
        ensures phases { KeepsPhases self.old self.new }
    {
        let found = prepare_close(self.alloc, self.number, &mut self.devs, table);
        self.alter(found)
    }
}
