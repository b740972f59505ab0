//! A client's link and its session, and its start.
ghost use Rattle.std.specs.Prelude.{◌≡◌, ◌≢◌, ℕ, ◌+◌, Bool, true, false, Some, IfErr, OnOk, is_some};
ghost use Rattle.disk_trait.specs.Calls.{IsCounted};
ghost use Rattle.stab_base.specs.declared.node.Node.TheVariants as nodes;
ghost use Rattle.table_model.specs.declared.event.Event.TheVariants as events;
ghost use Rattle.gated_tables.specs.Net.{Net};
ghost use Rattle.node_steps.specs.declared.fault.WorldFault.TheVariants.{Depot as DepotFailed};
ghost use Rattle.net_steps.specs.Holds.{IsAt};
ghost use Rattle.net_steps.specs.Calls.{Comes, Overruns, IsLimited, Leaves};
ghost use Rattle.net_steps.specs.Steps.{HavePlansBelow, may_begin, all_faults};
ghost use Rattle.world_tables.specs.World.{World as AWorld, client_at, is_client_down};
ghost use Rattle.step_tables.specs.ClientMoves.{Client as AClient};
ghost use Rattle.row_store.specs.Spelling.{IsClient};
ghost use Rattle.gated_tables.specs.Devices.{is_online};
ghost use Rattle.gated_tables.specs.Net.{with_device};
ghost use Rattle.node_steps.specs.Holds.{Holds as NodesHold};
ghost use Rattle.node_steps.specs.Links.{link_set};
ghost use Rattle.net_steps.specs.Devices.{device_of, HoldsDevices};
ghost use Rattle.net_steps.specs.Holds.{Holds};
ghost use Rattle.gated_tables.specs.Net.{linked, relinked};
ghost use Rattle.wire_steps.specs.Sending.{IsSendFault};
ghost use Rattle.net_steps.specs.Delivering.{Delivers, IsLinkedIn};
ghost use Rattle.net_steps.specs.Through.{IsGated, IsThere, restarted_if};

use crate::device::Device;
use crate::world::World;
use disk_trait::{Depot, Disk};
use node_steps::{Lines, WorldFault};
use stab_base::{ClientNo, Node};
use std::alloc::AllocError;
use table_model::{Answer, Event, Refusal};

impl<D: Disk + Drop> World<D> {
    /// What a client has of its gateway is this: a client that is up is cut off from the Stores where it isn't online.
    pub(crate) fn set_device(&mut self, client: ClientNo, device: Device) -> Result<(), AllocError>
        ensures held { (n : Net) → Holds D.state n self.old → is_some (client_at n.wire.world client) ≡ true
            → IsClient client → OnOk result (Holds D.state (with_device client (device_of device) n) self.new) }
        ensures nodes { (w : AWorld) (node : AClient) → NodesHold D.state w self.old.wire.nodes
            → client_at w client ≡ Some node → OnOk result
            (NodesHold D.state (link_set client (is_online (device_of device)) w) self.new.wire.nodes) }
        ensures store { self.new.wire.nodes.store ≡ self.old.wire.nodes.store }
        ensures faults { all_faults D.state self.new ≡ all_faults D.state self.old }
        ensures network { self.new.network ≡ self.old.network }
        ensures plans { (m : ℕ) → HavePlansBelow D.state m self.old → HavePlansBelow D.state m self.new }
    {
        self.devices.insert(client, device)?;
        self.wire.set_link(client, device.is_online());
        Ok(())
    }

    // The link of a client with a gateway goes up: it asks for a session.
    fn link_up(&mut self, client: ClientNo, device: Device) -> Result<Lines, WorldFault>
        requires here { (is_out : ℕ → Bool) × (n : Net)
            × IsLinkedIn D.state is_out client (device_of device) n self.old }
        ensures done { (is_out : ℕ → Bool) (n : Net) → IsLinkedIn D.state is_out client (device_of device) n self.old
            → Delivers D.state D.images n (λ lucks. relinked n client true (device_of device)) result is_out
            self.old self.new }
        ensures only { IfErr result IsSendFault }
        ensures plans { (m : ℕ) → HavePlansBelow D.state m self.old → HavePlansBelow D.state m self.new }
    {
        let mut lines = self.only(Answer::Done)?;
        if device.linked {
            return Ok(lines);
        }
        let device = Device {
            linked: true,
            ..device
        };
        self.set_device(client, device)?;
        self.ask(client, device, &mut lines)?;
        Ok(lines)
    }

    // And down: it keeps its session.
    fn link_down(&mut self, client: ClientNo, device: Device) -> Result<Lines, WorldFault>
        requires here { (is_out : ℕ → Bool) × (n : Net)
            × IsLinkedIn D.state is_out client (device_of device) n self.old }
        ensures done { (is_out : ℕ → Bool) (n : Net) → IsLinkedIn D.state is_out client (device_of device) n self.old
            → Delivers D.state D.images n (λ lucks. relinked n client false (device_of device)) result is_out
            self.old self.new }
        ensures only { IfErr result IsSendFault }
        ensures plans { (m : ℕ) → HavePlansBelow D.state m self.old → HavePlansBelow D.state m self.new }
    {
        let device = Device {
            linked: false,
            ..device
        };
        self.set_device(client, device)?;
        self.only(Answer::Done)
    }

    fn relink(&mut self, client: ClientNo, up: bool, device: Device) -> Result<Lines, WorldFault>
        requires here { (is_out : ℕ → Bool) × (n : Net)
            × IsLinkedIn D.state is_out client (device_of device) n self.old }
        ensures done { (is_out : ℕ → Bool) (n : Net) → IsLinkedIn D.state is_out client (device_of device) n self.old
            → Delivers D.state D.images n (λ lucks. relinked n client up (device_of device)) result is_out
            self.old self.new }
        ensures only { IfErr result IsSendFault }
        ensures plans { (m : ℕ) → HavePlansBelow D.state m self.old → HavePlansBelow D.state m self.new }
    {
        if up {
            return self.link_up(client, device);
        }
        self.link_down(client, device)
    }

    // A client with a gateway that is down is left alone.
    fn link_gated(
        &mut self,
        client: ClientNo,
        up: bool,
        device: Device,
    ) -> Result<Lines, WorldFault>
        requires here { (is_out : ℕ → Bool) × (n : Net) × IsGated D.state is_out client (device_of device) n self.old }
        ensures done { (is_out : ℕ → Bool) (n : Net) → IsGated D.state is_out client (device_of device) n self.old
            → Delivers D.state D.images n (λ lucks. linked n client up lucks (Some (device_of device))) result is_out
            self.old self.new }
        ensures only { IfErr result IsSendFault }
        ensures plans { (m : ℕ) → HavePlansBelow D.state m self.old → HavePlansBelow D.state m self.new }
    {
        let node = Node::Client(client);
        if self.wire.is_down(node) {
            return self.only(Answer::Refused(Refusal::Down { node }));
        }
        self.relink(client, up, device)
    }

    /// A client's link goes up or down.
    pub(crate) fn link<P: Depot<Disk = D>>(
        &mut self,
        depot: &mut P,
        client: ClientNo,
        up: bool,
    ) -> Result<Lines, WorldFault>
        requires held { (n : Net) × IsAt D.state (P.state depot.old).is_out (events.Link client up) n self.old }
        ensures done { (n : Net) → IsAt D.state (P.state depot.old).is_out (events.Link client up) n self.old
            → Comes D.state D.images n (events.Link client up) (P.state depot.new).is_out result self.old self.new }
        ensures over { (n : Net) → IsAt D.state (P.state depot.old).is_out (events.Link client up) n self.old
            → Overruns D.state D.images n (events.Link client up) (P.state depot.new).is_out result self.old self.new }
        ensures limit { (n : Net) (m : ℕ) → IsAt D.state (P.state depot.old).is_out (events.Link client up) n self.old
            → HavePlansBelow D.state m self.old → IsLimited m n (events.Link client up) result }
        ensures plans { (n : Net) (m : ℕ) → IsAt D.state (P.state depot.old).is_out (events.Link client up) n self.old
            → HavePlansBelow D.state m self.old
            → HavePlansBelow D.state (may_begin n (events.Link client up) + m) self.new }
        ensures left { (n : Net) → IsAt D.state (P.state depot.old).is_out (events.Link client up) n self.old
            → Leaves D.state n (events.Link client up) (P.state depot.new).is_out result self.old self.new }
        ensures depot { IsCounted DepotFailed (P.state depot.old).faults (P.state depot.new).faults result }
    {
        match self.device(client) {
            Some(device) => self.link_gated(client, up, device),
            None => self.carry_out(depot, &Event::Link { client, up }),
        }
    }

    // A client that was down has no session once it is started.
    fn forget_session(&mut self, client: ClientNo, was_down: bool) -> Result<(), AllocError>
        ensures held { (n : Net) → Holds D.state n self.old → IsThere client n
            → OnOk result (Holds D.state (restarted_if was_down client n) self.new) }
        ensures store { self.new.wire.nodes.store ≡ self.old.wire.nodes.store }
        ensures faults { all_faults D.state self.new ≡ all_faults D.state self.old }
        ensures plans { (m : ℕ) → HavePlansBelow D.state m self.old → HavePlansBelow D.state m self.new }
    {
        if !was_down {
            return Ok(());
        }
        match self.device(client) {
            Some(device) => self.set_device(
                client,
                Device {
                    token: None,
                    ..device
                },
            ),
            None => Ok(()),
        }
    }

    // Where the world ends with too much sent, it is cut off all the same; one that is still down stays as it is.
    fn cut_off(&mut self, client: ClientNo, was_down: bool)
        ensures held { (n : Net) → Holds D.state n self.old → IsThere client n
            → (was_down ≡ true → is_client_down (client_at n.wire.world client) ≡ true) → Holds D.state n self.new }
        ensures nodes { (n : Net) → HoldsDevices n.devices self.old.devices
            → NodesHold D.state n.wire.world self.old.wire.nodes → IsThere client n
            → NodesHold D.state (restarted_if was_down client n).wire.world self.new.wire.nodes }
        ensures store { self.new.wire.nodes.store ≡ self.old.wire.nodes.store }
        ensures faults { all_faults D.state self.new ≡ all_faults D.state self.old }
        ensures plans { (m : ℕ) → HavePlansBelow D.state m self.old → HavePlansBelow D.state m self.new }
    {
        if !was_down {
            return;
        }
        if !self.devices.contains_key(&client) {
            return;
        }
        self.wire.set_link(client, false);
    }

    /// A client is started.
    pub(crate) fn wake<P: Depot<Disk = D>>(
        &mut self,
        depot: &mut P,
        client: ClientNo,
    ) -> Result<Lines, WorldFault>
        requires held { (n : Net)
            × IsAt D.state (P.state depot.old).is_out (events.Start (nodes.Client client)) n self.old }
        ensures done { (n : Net)
            → IsAt D.state (P.state depot.old).is_out (events.Start (nodes.Client client)) n self.old
            → Comes D.state D.images n (events.Start (nodes.Client client)) (P.state depot.new).is_out result self.old
            self.new }
        ensures over { (n : Net)
            → IsAt D.state (P.state depot.old).is_out (events.Start (nodes.Client client)) n self.old
            → Overruns D.state D.images n (events.Start (nodes.Client client)) (P.state depot.new).is_out result
            self.old self.new }
        ensures limit { (n : Net) (m : ℕ)
            → IsAt D.state (P.state depot.old).is_out (events.Start (nodes.Client client)) n self.old
            → HavePlansBelow D.state m self.old → IsLimited m n (events.Start (nodes.Client client)) result }
        ensures plans { (n : Net) (m : ℕ)
            → IsAt D.state (P.state depot.old).is_out (events.Start (nodes.Client client)) n self.old
            → HavePlansBelow D.state m self.old
            → HavePlansBelow D.state (may_begin n (events.Start (nodes.Client client)) + m) self.new }
        ensures left { (n : Net)
            → IsAt D.state (P.state depot.old).is_out (events.Start (nodes.Client client)) n self.old
            → Leaves D.state n (events.Start (nodes.Client client)) (P.state depot.new).is_out result self.old
            self.new }
        ensures depot { IsCounted DepotFailed (P.state depot.old).faults (P.state depot.new).faults result }
    {
        let node = Node::Client(client);
        let was_down = self.wire.is_down(node);
        match self.go_through(depot, &Event::Start { node }) {
            Ok(lines) => {
                self.forget_session(client, was_down)?;
                Ok(lines)
            }
            Err(fault) => {
                self.cut_off(client, was_down);
                Err(fault)
            }
        }
    }
}
