//! Deliveries. A part that comes to a client or to a Store is that of a packet of the wire; other messages are between
//! gateways and the others.
ghost use Rattle.std.specs.Prelude.{◌≡◌, ℕ, ◌+◌, List, Some, false, slice_get, option_map, IfOk};
ghost use Rattle.disk_trait.specs.Calls.{IsCounted};
ghost use Rattle.stab_base.specs.declared.node.Node.{Node as ANode};
ghost use Rattle.stab_base.specs.declared.node.Node.TheVariants as nodes;
ghost use Rattle.table_model.specs.declared.event.Event.TheVariants as events;
ghost use Rattle.message_parts.specs.Parts.{part_of};
ghost use Rattle.wire_tables.specs.Wire.{Wire};
ghost use Rattle.gate_tables.specs.Gate as gate;
ghost use Rattle.gated_tables.specs.Net.{Net, Sent as AMessage, device_at, is_node_down, net_step, to_client, to_store};
ghost use Rattle.net_network.specs.Packets.{IsWayAt, IsWayOf};
ghost use Rattle.node_steps.specs.declared.fault.WorldFault.TheVariants.{Depot as DepotFailed};
ghost use Rattle.net_steps.specs.Devices.{device_of};
ghost use Rattle.net_steps.specs.Holds.{Holds, IsAt};
ghost use Rattle.net_steps.specs.Calls.{Comes, Overruns, IsLimited, Leaves};
ghost use Rattle.net_steps.specs.Steps.{HavePlansBelow, may_begin};
ghost use Rattle.net_steps.specs.Delivering.{IsToBring, Brings, IsLinkedIn, IsComing, IsGateUp};
ghost use Rattle.net_steps.specs.Delivering.{ComesTo, Delivers, step_linked};
ghost use Rattle.net_steps.specs.Handing.{HasGone};

use crate::device::Device;
use crate::world::World;
use disk_trait::{Depot, Disk};
use gate_tables::{Asked, asked_of};
use net_network::Way;
use node_steps::{Lines, WorldFault};
use stab_base::{ClientNo, Node, StoreNo};
use std::alloc::AllocError;
use table_model::{Answer, Event, Refusal};

impl<D: Disk + Drop> World<D> {
    /// The part of a packet comes to the node that it goes to.
    pub(crate) fn bring<P: Depot<Disk = D>>(
        &mut self,
        depot: &mut P,
        packet: u64,
    ) -> Result<Lines, WorldFault>
        requires here { (n : Net) × (v : Wire) × IsToBring D.state (P.state depot.old).is_out n v self.old }
        ensures brings { (n : Net) (v : Wire) → IsToBring D.state (P.state depot.old).is_out n v self.old
            → Brings D.state D.images n v packet result (P.state depot.new).is_out self.old self.new }
        ensures depot { IsCounted DepotFailed (P.state depot.old).faults (P.state depot.new).faults result }
    {
        let lines = self.wire.step(depot, &Event::Deliver { packet })?;
        self.carry(lines)
    }

    // To a client with a gateway: its link decides whether it takes a part, and not its session.
    fn bring_linked<P: Depot<Disk = D>>(
        &mut self,
        depot: &mut P,
        client: ClientNo,
        device: Device,
        packet: u64,
    ) -> Result<Lines, WorldFault>
        requires here { (n : Net) × IsLinkedIn D.state (P.state depot.old).is_out client (device_of device) n self.old }
        ensures delivers { (n : Net)
            → IsLinkedIn D.state (P.state depot.old).is_out client (device_of device) n self.old
            → Delivers D.state D.images n (step_linked n client (device_of device) packet) result
            (P.state depot.new).is_out self.old self.new }
        ensures depot { IsCounted DepotFailed (P.state depot.old).faults (P.state depot.new).faults result }
    {
        self.wire.set_link(client, device.linked);
        let result = self.bring(depot, packet);
        self.wire.set_link(client, device.is_online());
        result
    }

    /// What a client has of its gateway, where it has one.
    pub(crate) fn device(&self, client: ClientNo) -> Option<Device>
        ensures { (n : Net) → Holds D.state n self.now → option_map device_of result ≡ device_at n client }
    {
        self.devices.get(&client).copied()
    }

    fn bring_client<P: Depot<Disk = D>>(
        &mut self,
        depot: &mut P,
        client: ClientNo,
        part: (u64, u64),
    ) -> Result<Lines, WorldFault>
        requires coming { (number : ℕ) × (from : ANode) × IsComing D.state (P.state depot.old).is_out number from
            (nodes.Client client) (Some part) self.old }
        ensures delivers { (number : ℕ) (from : ANode) (x : IsComing D.state (P.state depot.old).is_out number from
            (nodes.Client client) (Some part) self.old) → Delivers D.state D.images x.n
            (λ lucks. to_client x.n client x.one lucks (part_of x.one.message)) result
            (P.state depot.new).is_out self.old self.new }
        ensures depot { IsCounted DepotFailed (P.state depot.old).faults (P.state depot.new).faults result }
    {
        match self.device(client) {
            Some(device) => self.bring_linked(depot, client, device, part.0),
            None => self.bring(depot, part.0),
        }
    }

    fn to_client<P: Depot<Disk = D>>(
        &mut self,
        depot: &mut P,
        number: u64,
        client: ClientNo,
        way: Way,
    ) -> Result<Lines, WorldFault>
        requires coming { IsComing D.state (P.state depot.old).is_out number way.from (nodes.Client client) way.part
            self.old }
        ensures comes { (x : IsComing D.state (P.state depot.old).is_out number way.from (nodes.Client client)
            way.part
            self.old) → ComesTo D.state D.images x.n
            (λ lucks. to_client x.n client x.one lucks (part_of x.one.message)) result
            (P.state depot.new).is_out self.old self.new }
        ensures depot { IsCounted DepotFailed (P.state depot.old).faults (P.state depot.new).faults result }
    {
        match way.part {
            Some(part) => self.bring_client(depot, client, part),
            None => self.tell_client(depot, number, client),
        }
    }

    // What the message of a part asks of its table's owner.
    fn asked(&self, number: u64, way: Way) -> Result<Option<Asked>, AllocError>
        ensures { (v : Wire) (sent : List AMessage) (one : AMessage) → HasGone D.state v sent self.now
            → slice_get sent number ≡ Some one → IsWayOf v.packets way one
            → IfOk result (λ found. found ≡ gate.asked one.message) }
    {
        match self.message(number, way)? {
            Some(message) => Ok(asked_of(&message)),
            None => Ok(None),
        }
    }

    fn to_store<P: Depot<Disk = D>>(
        &mut self,
        depot: &mut P,
        number: u64,
        store: StoreNo,
        way: Way,
    ) -> Result<Lines, WorldFault>
        requires coming { IsComing D.state (P.state depot.old).is_out number way.from (nodes.Store store) way.part
            self.old }
        requires to { way.to ≡ nodes.Store store }
        ensures comes { (x : IsComing D.state (P.state depot.old).is_out number way.from (nodes.Store store) way.part
            self.old) → ComesTo D.state D.images x.n
            (λ lucks. to_store x.n store x.one lucks (part_of x.one.message)) result
            (P.state depot.new).is_out self.old self.new }
        ensures depot { IsCounted DepotFailed (P.state depot.old).faults (P.state depot.new).faults result }
    {
        match way.part {
            Some(part) => {
                let asked = self.asked(number, way)?;
                self.take_part(depot, store, way.from, part, asked)
            }
            None => self.tell_store(depot, number, way.from, store),
        }
    }

    // Whether a node is down. A gateway that isn't declared is.
    fn is_node_down(&self, node: Node) -> bool
        ensures down { (n : Net) → Holds D.state n self.now → result ≡ is_node_down n node }
        ensures gate { result ≡ false → IsGateUp self.now.gates node }
    {
        match node {
            Node::Gate(gate) => !self.gates.is_up(gate),
            other => self.wire.is_down(other),
        }
    }

    // To a node that is up.
    fn deliver_to<P: Depot<Disk = D>>(
        &mut self,
        depot: &mut P,
        number: u64,
        way: Way,
    ) -> Result<Lines, WorldFault>
        requires way { (n : Net) → Holds D.state n self.old
            → IsWayAt n.wire.packets (Some way) (slice_get n.sent number) }
        requires up { (n : Net) → Holds D.state n self.old → is_node_down n way.to ≡ false }
        requires gate { IsGateUp self.old.gates way.to }
        requires held { (n : Net) × IsAt D.state (P.state depot.old).is_out (events.Deliver number) n self.old }
        ensures comes { (n : Net) → IsAt D.state (P.state depot.old).is_out (events.Deliver number) n self.old
            → ComesTo D.state D.images n (net_step n (events.Deliver number)) result (P.state depot.new).is_out
            self.old self.new }
        ensures depot { IsCounted DepotFailed (P.state depot.old).faults (P.state depot.new).faults result }
    {
        match way.to {
            Node::Store(store) => self.to_store(depot, number, store, way),
            Node::Client(client) => self.to_client(depot, number, client, way),
            Node::Gate(gate) => self.hand(number, gate, way),
        }
    }

    // Unless the node is down.
    fn deliver_by<P: Depot<Disk = D>>(
        &mut self,
        depot: &mut P,
        number: u64,
        way: Way,
    ) -> Result<Lines, WorldFault>
        requires way { (n : Net) → Holds D.state n self.old
            → IsWayAt n.wire.packets (Some way) (slice_get n.sent number) }
        requires held { (n : Net) × IsAt D.state (P.state depot.old).is_out (events.Deliver number) n self.old }
        ensures comes { (n : Net) → IsAt D.state (P.state depot.old).is_out (events.Deliver number) n self.old
            → ComesTo D.state D.images n (net_step n (events.Deliver number)) result (P.state depot.new).is_out
            self.old self.new }
        ensures depot { IsCounted DepotFailed (P.state depot.old).faults (P.state depot.new).faults result }
    {
        if self.is_node_down(way.to) {
            return self.only(Answer::Refused(Refusal::Down { node: way.to }));
        }
        self.deliver_to(depot, number, way)
    }

    /// The network delivers a message.
    pub(crate) fn deliver<P: Depot<Disk = D>>(
        &mut self,
        depot: &mut P,
        number: u64,
    ) -> Result<Lines, WorldFault>
        requires held { (n : Net) × IsAt D.state (P.state depot.old).is_out (events.Deliver number) n self.old }
        ensures done { (n : Net) → IsAt D.state (P.state depot.old).is_out (events.Deliver number) n self.old
            → Comes D.state D.images n (events.Deliver number) (P.state depot.new).is_out result self.old self.new }
        ensures over { (n : Net) → IsAt D.state (P.state depot.old).is_out (events.Deliver number) n self.old
            → Overruns D.state D.images n (events.Deliver number) (P.state depot.new).is_out result self.old self.new }
        ensures limit { (n : Net) (m : ℕ) → IsAt D.state (P.state depot.old).is_out (events.Deliver number) n self.old
            → HavePlansBelow D.state m self.old → IsLimited m n (events.Deliver number) result }
        ensures plans { (n : Net) (m : ℕ) → IsAt D.state (P.state depot.old).is_out (events.Deliver number) n self.old
            → HavePlansBelow D.state m self.old
            → HavePlansBelow D.state (may_begin n (events.Deliver number) + m) self.new }
        ensures left { (n : Net) → IsAt D.state (P.state depot.old).is_out (events.Deliver number) n self.old
            → Leaves D.state n (events.Deliver number) (P.state depot.new).is_out result self.old self.new }
        ensures depot { IsCounted DepotFailed (P.state depot.old).faults (P.state depot.new).faults result }
    {
        let Some(way) = self.network.way(number) else {
            let sent = self.network.sent();
            return self.only(Answer::Refused(Refusal::NoPacket { sent }));
        };
        self.deliver_by(depot, number, way)
    }
}
