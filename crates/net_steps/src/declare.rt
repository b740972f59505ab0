//! A Store, a table or a gateway is declared: every gateway knows of it.
ghost use Rattle.std.specs.Prelude.{◌≡◌, ℕ, ◌+◌, List, OnOk};
ghost use Rattle.disk_trait.specs.Calls.{IsCounted};
ghost use Rattle.gated_tables.specs.Net.{Net};
ghost use Rattle.fair_laws.specs.Reached.{IsBuilt};
ghost use Rattle.node_steps.specs.declared.fault.WorldFault.TheVariants.{Depot as DepotFailed};
ghost use Rattle.net_steps.specs.Holds.{IsAt, IsFramedEvent};
ghost use Rattle.net_steps.specs.Calls.{Comes, Overruns, IsLimited, Leaves};
ghost use Rattle.net_steps.specs.Steps.{HavePlansBelow, may_begin};
ghost use Rattle.net_steps.specs.declared.kinds.Kind.TheVariants as kinds;
ghost use Rattle.net_steps.specs.Kinds.{kind_of};
ghost use Rattle.net_steps.specs.Through.{stores_with, schemas_with, gates_with};
ghost use Rattle.row_value.specs.declared.schema.Schema.{Schema as ASchema};
ghost use Rattle.gate_tables.specs.Gate.{Gateway as AGateway};
ghost use Rattle.gate_host.specs.Holds.{HoldsGates};

use crate::world::World;
use disk_trait::{Depot, Disk};
use node_steps::{Lines, WorldFault};
use std::alloc::AllocError;
use table_model::Event;

impl<D: Disk + Drop> World<D> {
    // What a declaration is to the gateways.
    fn tell_gates(&mut self, event: &Event) -> Result<(), AllocError>
        ensures told { (stores : List ℕ) (schemas : List (ℕ × ASchema)) (gates : List (ℕ × AGateway))
            → HoldsGates stores schemas gates self.old.gates → OnOk result (HoldsGates (stores_with event.now stores)
            (schemas_with event.now schemas) (gates_with event.now gates) self.new.gates) }
        ensures rest { self.new ≡ record self.old { gates = self.new.gates } }
    {
        match event {
            Event::Store { store } => self.gates.add_store(*store),
            Event::Table { table, schema } => self.gates.add_table(*table, schema),
            Event::Draft { table, schema } => self.gates.add_table(*table, schema),
            Event::Gate { gate } => self.gates.add_gate(*gate),
            _ => Ok(()),
        }
    }

    /// A Store, a table or a gateway is declared.
    pub(crate) fn declare<P: Depot<Disk = D>>(
        &mut self,
        depot: &mut P,
        event: &Event,
    ) -> Result<Lines, WorldFault>
        requires built { IsBuilt event.now }
        requires framed { IsFramedEvent event.now }
        requires kind { kind_of event.now ≡ kinds.Declare }
        requires held { (n : Net) × IsAt D.state (P.state depot.old).is_out event.now n self.old }
        ensures done { (n : Net) → IsAt D.state (P.state depot.old).is_out event.now n self.old
            → Comes D.state D.images n event.now (P.state depot.new).is_out result self.old self.new }
        ensures over { (n : Net) → IsAt D.state (P.state depot.old).is_out event.now n self.old
            → Overruns D.state D.images n event.now (P.state depot.new).is_out result self.old self.new }
        ensures limit { (n : Net) (m : ℕ) → IsAt D.state (P.state depot.old).is_out event.now n self.old
            → HavePlansBelow D.state m self.old → IsLimited m n event.now result }
        ensures plans { (n : Net) (m : ℕ) → IsAt D.state (P.state depot.old).is_out event.now n self.old
            → HavePlansBelow D.state m self.old → HavePlansBelow D.state (may_begin n event.now + m) self.new }
        ensures left { (n : Net) → IsAt D.state (P.state depot.old).is_out event.now n self.old
            → Leaves D.state n event.now (P.state depot.new).is_out result self.old self.new }
        ensures depot { IsCounted DepotFailed (P.state depot.old).faults (P.state depot.new).faults result }
    {
        let lines = self.go_through(depot, event)?;
        self.tell_gates(event)?;
        Ok(lines)
    }
}
