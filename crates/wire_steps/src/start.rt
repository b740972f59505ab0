//! Events of the nodes alone. What is in memory of a node is lost where it is started.
ghost use Rattle.std.specs.Prelude.{◌≡◌, ◌≢◌, ◌⊎◌, ◌+◌, ℕ, None, IfErr, IfOk, OnOk, if◌then◌else◌};
ghost use Rattle.std.specs.BTreeMap as tree;
ghost use Rattle.std.specs.Ordering.{nat_cmp};
ghost use Rattle.disk_trait.specs.Calls.{IsCounted};
ghost use Rattle.step_tables.specs.Lines.{fact_of};
ghost use Rattle.world_tables.specs.World.{World as AWorld, hosted_at};
ghost use Rattle.world_laws.specs.Begun.{IsSingle};
ghost use Rattle.fair_laws.specs.Reached.{IsBuilt};
ghost use Rattle.journal_host.specs.Holds as hosts;
ghost use Rattle.part_tables.specs.Arriving as arrivals;
ghost use Rattle.part_client.specs.Keeping.{Keeps};
ghost use Rattle.wire_tables.specs.Wire.{Wire, noting, torn_by_fact, torn_told, is_hosted_up};
ghost use Rattle.node_steps.specs.declared.fault.WorldFault.TheVariants.{Depot as DepotFailed, Memory};
ghost use Rattle.node_steps.specs.declared.fault.WorldFault.TheVariants.{Limit as LimitPassed};
ghost use Rattle.node_steps.specs.Fits.{IsOwn};
ghost use Rattle.node_steps.specs.Holds.{AreOut, Holds as NodesHold};
ghost use Rattle.wire_steps.specs.Holds.{Holds, IsWorld};
ghost use Rattle.wire_steps.specs.Kinds.{started};
ghost use Rattle.wire_steps.specs.Reached.{IsReached};
ghost use Rattle.wire_steps.specs.Sending.{outs_of};
ghost use Rattle.wire_steps.specs.Starting.{if_down, HasForgotten, Forgets, Notes, NotesOf, NotesTorn, noted_in};
ghost use Rattle.wire_steps.specs.Steps.{HavePlansBelow, IsStep, IsOver, IsUndone, Spends, may_begin};

use crate::kinds::started;
use crate::world::World;
use disk_trait::{Depot, Disk};
use journal_host::ClientOut;
use node_steps::{Lines, Outs, World as Nodes, WorldFault};
use part_client::Arriving;
use part_store::Gatherings;
use stab_base::{ClientNo, Node, TableNo};
use std::alloc::AllocError;
use std::collections::BTreeMap;
use table_model::{Event, Fact};

// ---- the rows that a client tells as torn

fn note_fact(it: &mut Arriving, fact: &Fact) -> Result<(), AllocError>
    ensures { (a : arrivals.Arriving) → Keeps it.old a
        → OnOk result (Keeps it.new (noting (torn_by_fact (fact_of fact.now)) a)) }
{
    match fact {
        Fact::Torn { table, row, .. } => it.tear(*table, *row),
        Fact::Sent { .. }
        | Fact::Client(_)
        | Fact::Redone(_)
        | Fact::ClientRecovered { .. }
        | Fact::Accepted { .. }
        | Fact::Forward { .. }
        | Fact::Back { .. }
        | Fact::StoreRecovered { .. }
        | Fact::Made { .. }
        | Fact::Unmade { .. }
        | Fact::Saved { .. }
        | Fact::Notified { .. } => Ok(()),
    }
}

fn note_facts(it: &mut Arriving, facts: &[Fact]) -> Result<(), AllocError>
    ensures { (a : arrivals.Arriving) → Keeps it.old a → OnOk result (Keeps it.new (noted_in facts.now a)) }
{
    for fact in facts {
        note_fact(it, fact)?;
    }
    Ok(())
}

fn note_moves(it: &mut Arriving, moves: &[ClientOut]) -> Result<(), AllocError>
    ensures { (owners : ℕ → ℕ) (a : arrivals.Arriving) → Keeps it.old a
        → OnOk result (Keeps it.new (noting (torn_told (hosts.outs_in owners moves.now)) a)) }
{
    for out in moves {
        note_facts(it, out.out.facts.as_slice())?;
    }
    Ok(())
}

// Stores tell none.
fn note_outs(it: &mut Arriving, outs: &Outs) -> Result<(), AllocError>
    ensures { (owners : ℕ → ℕ) (a : arrivals.Arriving) → Keeps it.old a
        → OnOk result (Keeps it.new (noting (torn_told (outs_of owners outs.now)) a)) }
{
    match outs {
        Outs::Nothing => Ok(()),
        Outs::OfStore(_) => Ok(()),
        Outs::OfClients(moves) => note_moves(it, moves.as_slice()),
    }
}

// Keeps what tables that are up have gathered.
fn keep_up<D: Disk + Drop>(nodes: &Nodes<D>, gathered: &mut BTreeMap<TableNo, Gatherings>)
    ensures { (w : AWorld) → NodesHold D.state w nodes.now → (table : ℕ) → tree.get nat_cmp gathered.new table
        ≡ (if is_hosted_up (hosted_at w table) then tree.get nat_cmp gathered.old table else None) }
{
    gathered.retain(|table, _| nodes.is_table_up(*table));
}

impl<D: Disk + Drop> World<D> {
    // What tables that are down had gathered is forgotten.
    fn forget_gathered(&mut self)
        ensures held { (v : Wire) → Holds D.state v self.old
            → Holds D.state v self.new × HasForgotten v.world self.new }
        ensures nodes { self.new.nodes ≡ self.old.nodes }
    {
        keep_up(&self.nodes, &mut self.gathered);
    }

    // Before a node is started.
    fn forget(&mut self, node: Option<Node>)
        ensures held { (v : Wire) → Holds D.state v self.old
            → Holds D.state v self.new × Forgets node v.world self.new }
        ensures nodes { self.new.nodes ≡ self.old.nodes }
    {
        if let Some(Node::Store(_)) = node {
            self.forget_gathered();
        }
    }

    // A client that is started keeps the rows that it tells as torn.
    fn note_torn(&mut self, client: ClientNo, outs: &Outs) -> Result<(), AllocError>
        ensures notes { OnOk result (NotesTorn client outs.now self.old self.new) }
        ensures nodes { self.new.nodes ≡ self.old.nodes }
    {
        let mut it = Arriving::new(self.alloc);
        note_outs(&mut it, outs)?;
        self.arriving.insert(client, it)?;
        Ok(())
    }

    // Behind a start.
    fn note_start(&mut self, node: Option<Node>, outs: &Outs) -> Result<(), AllocError>
        ensures notes { OnOk result (NotesOf node outs.now self.old self.new) }
        ensures nodes { self.new.nodes ≡ self.old.nodes }
    {
        match node {
            Some(Node::Client(client)) => self.note_torn(client, outs),
            _ => Ok(()),
        }
    }

    // Behind an event. Where a Store joins what was gathered is lost.
    fn note(&mut self, event: &Event, node: Option<Node>, outs: &Outs) -> Result<(), AllocError>
        ensures notes { OnOk result (Notes event.now node outs.now self.old self.new) }
        ensures nodes { self.new.nodes ≡ self.old.nodes }
    {
        if let Event::Store { .. } = event {
            self.gathered.clear();
            return Ok(());
        }
        self.note_start(node, outs)
    }

    // The node that is down and to be started.
    fn restarted(&self, event: &Event) -> Option<Node>
        ensures { (w : AWorld) → NodesHold D.state w self.now.nodes → result ≡ if_down w (started event.now) }
    {
        let node = started(event)?;
        if self.nodes.is_down(node) {
            Some(node)
        } else {
            None
        }
    }

    /// Carries out an event that is neither a delivery nor a pull.
    pub(crate) fn carry_out<P: Depot<Disk = D>>(
        &mut self,
        depot: &mut P,
        event: &Event,
    ) -> Result<Lines, WorldFault>
        requires built { IsBuilt event.now }
        requires own { IsOwn event.now }
        requires held { IsWorld D.state (P.state depot.old).is_out self.old }
        ensures done { (v : Wire) → IsReached v → Holds D.state v self.old
            → AreOut (P.state depot.old).is_out v.world
            → IfOk result (λ lines. IsStep D.state D.images v event.now lines (P.state depot.new).is_out self.old
            self.new) }
        ensures over { (v : Wire) → IsReached v → Holds D.state v self.old
            → AreOut (P.state depot.old).is_out v.world
            → IfErr result (λ e. (count : ℕ) → e ≡ LimitPassed 10 count
            → IsOver D.state D.images v event.now (P.state depot.new).is_out self.old self.new) }
        ensures limit { (v : Wire) (n : ℕ) → IsReached v → Holds D.state v self.old
            → HavePlansBelow D.state n self.old → IfErr result (λ e. (code count : ℕ) → e ≡ LimitPassed code count
            → (code ≡ 10) ⊎ ((code ≡ 11) × Spends n v.world event.now)) }
        ensures plans { (v : Wire) (n : ℕ) → IsReached v → Holds D.state v self.old
            → HavePlansBelow D.state n self.old → HavePlansBelow D.state (may_begin v.world event.now + n) self.new }
        ensures left { (v : Wire) → IsReached v → Holds D.state v self.old
            → AreOut (P.state depot.old).is_out v.world
            → IfErr result (λ e. e ≢ Memory → ((count : ℕ) → e ≢ LimitPassed 10 count)
            → IsSingle event.now ⊎ (e ≡ DepotFailed)
            → IsUndone D.state v (P.state depot.new).is_out self.old self.new) }
        ensures depot { IsCounted DepotFailed (P.state depot.old).faults (P.state depot.new).faults result }
    {
        let restarted = self.restarted(event);
        self.forget(restarted);
        let told = self.nodes.step(depot, event)?;
        self.note(event, restarted, &told.outs)?;
        self.tell(told)
    }
}
