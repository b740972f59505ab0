//! A client is declared: it is wired to the Stores, or has a gateway.
ghost use Rattle.std.specs.Prelude.{◌≡◌, ℕ, ◌+◌, Bool, true, is_some, None, Option, IfOk, OnOk};
ghost use Rattle.disk_trait.specs.Calls.{IsCounted};
ghost use Rattle.row_store.specs.Spelling.{IsClient};
ghost use Rattle.table_model.specs.declared.event.Event.TheVariants as events;
ghost use Rattle.gated_tables.specs.Net.{Net};
ghost use Rattle.world_tables.specs.World.{client_at};
ghost use Rattle.fair_laws.specs.Reached.{IsBuilt};
ghost use Rattle.node_steps.specs.declared.fault.WorldFault.TheVariants.{Depot as DepotFailed};
ghost use Rattle.net_steps.specs.Holds.{Holds, IsAt};
ghost use Rattle.net_steps.specs.Calls.{Comes, Overruns, IsLimited, Leaves};
ghost use Rattle.net_steps.specs.Steps.{HavePlansBelow, all_faults, may_begin};
ghost use Rattle.net_steps.specs.declared.kinds.Kind.TheVariants as kinds;
ghost use Rattle.net_steps.specs.Kinds.{kind_of};
ghost use Rattle.net_steps.specs.Through.{joined_unless};

use crate::device::Device;
use crate::world::World;
use disk_trait::{Depot, Disk};
use node_steps::{Lines, WorldFault};
use stab_base::{ClientNo, GateNo, Sequence};
use std::alloc::{AllocError, Global};
use table_model::{Event, Tables};

fn copy_tables(alloc: Global, tables: &Tables) -> Result<Tables, AllocError>
    ensures { IfOk result (λ made. made ≡ tables.now) }
{
    let items = Vec::from_slice(alloc, tables.as_slice())?;
    Ok(Sequence::from_vec(items))
}

impl<D: Disk + Drop> World<D> {
    // A client that wasn't there has this gateway, and no session.
    fn give_gate(
        &mut self,
        client: ClientNo,
        gate: Option<GateNo>,
        is_there: bool,
    ) -> Result<(), AllocError>
        ensures held { (n : Net) → Holds D.state n self.old → is_some (client_at n.wire.world client) ≡ true
            → IsClient client → OnOk result (Holds D.state (joined_unless is_there client gate n) self.new) }
        ensures store { self.new.wire.nodes.store ≡ self.old.wire.nodes.store }
        ensures faults { all_faults D.state self.new ≡ all_faults D.state self.old }
        ensures plans { (m : ℕ) → HavePlansBelow D.state m self.old → HavePlansBelow D.state m self.new }
    {
        if is_there {
            return Ok(());
        }
        match gate {
            Some(gate) => self.set_device(client, Device::new(gate)),
            None => Ok(()),
        }
    }

    fn join_by<P: Depot<Disk = D>>(
        &mut self,
        depot: &mut P,
        client: ClientNo,
        gate: Option<GateNo>,
        tables: &Tables,
    ) -> Result<Lines, WorldFault>
        requires client { IsClient client }
        requires held { (n : Net)
            × IsAt D.state (P.state depot.old).is_out (events.Client client gate tables.now) n self.old }
        ensures done { (n : Net)
            → IsAt D.state (P.state depot.old).is_out (events.Client client gate tables.now) n self.old
            → Comes D.state D.images n (events.Client client gate tables.now) (P.state depot.new).is_out result self.old
            self.new }
        ensures over { (n : Net)
            → IsAt D.state (P.state depot.old).is_out (events.Client client gate tables.now) n self.old
            → Overruns D.state D.images n (events.Client client gate tables.now) (P.state depot.new).is_out result
            self.old self.new }
        ensures limit { (n : Net) (m : ℕ)
            → IsAt D.state (P.state depot.old).is_out (events.Client client gate tables.now) n self.old
            → HavePlansBelow D.state m self.old → IsLimited m n (events.Client client gate tables.now) result }
        ensures plans { (n : Net) (m : ℕ)
            → IsAt D.state (P.state depot.old).is_out (events.Client client gate tables.now) n self.old
            → HavePlansBelow D.state m self.old
            → HavePlansBelow D.state (may_begin n (events.Client client gate tables.now) + m) self.new }
        ensures left { (n : Net)
            → IsAt D.state (P.state depot.old).is_out (events.Client client gate tables.now) n self.old
            → Leaves D.state n (events.Client client gate tables.now) (P.state depot.new).is_out result self.old
            self.new }
        ensures depot { IsCounted DepotFailed (P.state depot.old).faults (P.state depot.new).faults result }
    {
        let is_there = self.wire.has_client(client);
        let tables = copy_tables(self.alloc, tables)?;
        let event = Event::Client {
            client,
            gate: None,
            tables,
        };
        let lines = self.go_through(depot, &event)?;
        self.give_gate(client, gate, is_there)?;
        Ok(lines)
    }

    /// A client is declared: it is wired to the Stores, or has a gateway, its link down. One that is there already
    /// stays as it is.
    pub(crate) fn join<P: Depot<Disk = D>>(
        &mut self,
        depot: &mut P,
        event: &Event,
    ) -> Result<Lines, WorldFault>
        requires built { IsBuilt event.now }
        requires kind { kind_of event.now ≡ kinds.Join }
        requires held { (n : Net) × IsAt D.state (P.state depot.old).is_out event.now n self.old }
        ensures done { (n : Net) → IsAt D.state (P.state depot.old).is_out event.now n self.old
            → Comes D.state D.images n event.now (P.state depot.new).is_out result self.old self.new }
        ensures over { (n : Net) → IsAt D.state (P.state depot.old).is_out event.now n self.old
            → Overruns D.state D.images n event.now (P.state depot.new).is_out result self.old self.new }
        ensures limit { (n : Net) (m : ℕ) → IsAt D.state (P.state depot.old).is_out event.now n self.old
            → HavePlansBelow D.state m self.old → IsLimited m n event.now result }
        ensures plans { (n : Net) (m : ℕ) → IsAt D.state (P.state depot.old).is_out event.now n self.old
            → HavePlansBelow D.state m self.old → HavePlansBelow D.state (may_begin n event.now + m) self.new }
        ensures left { (n : Net) → IsAt D.state (P.state depot.old).is_out event.now n self.old
            → Leaves D.state n event.now (P.state depot.new).is_out result self.old self.new }
        ensures depot { IsCounted DepotFailed (P.state depot.old).faults (P.state depot.new).faults result }
    {
        match event {
            Event::Client {
                client,
                gate,
                tables,
            } => self.join_by(depot, *client, *gate, tables),
            _ => unreachable!(),
        }
    }
}
