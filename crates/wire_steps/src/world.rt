//! The world: the nodes, and the network between them, whose packets are parts of messages.
ghost use Rattle.std.specs.Prelude.{◌≡◌, ◌≢◌, ◌⊎◌, ℕ, ◌+◌, List, IfOk, IfErr};
ghost use Rattle.disk_trait.specs.Calls.{IsCounted};
ghost use Rattle.world_tables.specs.Turns.{Happening};
ghost use Rattle.wire_tables.specs.Wire.{Wire, start};
ghost use Rattle.wire_tables.specs.Runs.{wire_from};
ghost use Rattle.wire_laws.specs.Runs.{AreBuilt};
ghost use Rattle.node_steps.specs.declared.fault.WorldFault.TheVariants.{Depot as DepotFailed, Memory};
ghost use Rattle.node_steps.specs.declared.fault.WorldFault.TheVariants.{Limit as LimitPassed};
ghost use Rattle.fair_laws.specs.Reached.{IsBuilt};
ghost use Rattle.node_steps.specs.Fits.{IsOwn};
ghost use Rattle.node_steps.specs.Holds.{AreOut};
ghost use Rattle.wire_steps.specs.Reached.{IsReached};
ghost use Rattle.wire_steps.specs.Holds.{Holds, IsWorld};
ghost use Rattle.wire_steps.specs.Sounds.{GoesOnSound};
ghost use Rattle.wire_steps.specs.Steps.{HavePlansBelow, IsStep, IsOver, IsUndone, IsWhole, Spends, may_begin};

use crate::kinds::{Kind, kind_of};
use disk_trait::{Depot, Disk};
use node_steps::{Lines, WorldFault};
use part_client::Arriving;
use part_network::Network;
use part_store::Gatherings;
use stab_base::{ClientNo, TableNo};
use std::alloc::Global;
use std::collections::BTreeMap;
use table_model::Event;

/// The declared tables on their disks, the clients, every packet that was ever sent, and what nodes keep in memory of
/// messages that come in parts.
#[derive(Drop)]
pub struct World<D: Disk> {
    pub(crate) nodes: node_steps::World<D>,
    pub(crate) network: Network,
    pub(crate) gathered: BTreeMap<TableNo, Gatherings>,
    pub(crate) arriving: BTreeMap<ClientNo, Arriving>,
    pub(crate) alloc: Global,
}

impl<D: Disk + Drop> World<D> {
    /// A world in which nothing is declared.
    pub fn new(alloc: Global) -> World<D>
        ensures held { Holds D.state start result }
        ensures plans { (n : ℕ) → HavePlansBelow D.state n result }
    {
        World {
            nodes: node_steps::World::new(alloc),
            network: Network::new(alloc),
            gathered: BTreeMap::new(alloc),
            arriving: BTreeMap::new(alloc),
            alloc,
        }
    }

    /// Carries out an event: the lines that it writes. Disks come from the depot: of table T those of the numbers
    /// 3(T-1), 3(T-1)+1 and 3(T-1)+2, for its chunks, its rows and its log; of client C those of the numbers
    /// 192+3(C-1), 192+3(C-1)+1 and 192+3(C-1)+2, for its journal, its slots and its chunks.
    ///
    /// `Limit` 10 where the frames of all packets would have more bytes than may be sent: the nodes are behind the
    /// event then. `Limit` 11 where a client has made its last write or has begun its last plan, or a table has given
    /// its last version; `Depot` where the depot handed out no disk: either leaves the world as it was, but that it
    /// isn't said what limit 11 leaves where all conflicts of a table are resolved, or a part is delivered. What want
    /// of memory leaves isn't said. Each ends the run. A part that is delivered, or pulled for, takes no disk.
    pub fn step<P: Depot<Disk = D>>(
        &mut self,
        depot: &mut P,
        event: &Event,
    ) -> Result<Lines, WorldFault>
        requires built { IsBuilt event.now }
        requires held { IsWorld D.state (P.state depot.old).is_out self.old }
        ensures done { (v : Wire) → IsReached v → Holds D.state v self.old
            → AreOut (P.state depot.old).is_out v.world
            → IfOk result (λ lines. IsStep D.state D.images v event.now lines (P.state depot.new).is_out self.old
            self.new) }
        ensures sound { (run : List Happening) → AreBuilt run → Holds D.state (wire_from start run) self.old
            → AreOut (P.state depot.old).is_out (wire_from start run).world
            → IfOk result (λ lines. GoesOnSound run event.now lines) }
        ensures over { (v : Wire) → IsReached v → Holds D.state v self.old
            → AreOut (P.state depot.old).is_out v.world
            → IfErr result (λ e. (count : ℕ) → e ≡ LimitPassed 10 count
            → IsOver D.state D.images v event.now (P.state depot.new).is_out self.old self.new) }
        ensures limit { (v : Wire) (n : ℕ) → IsReached v → Holds D.state v self.old
            → HavePlansBelow D.state n self.old → IfErr result (λ e. (code count : ℕ) → e ≡ LimitPassed code count
            → (code ≡ 10) ⊎ ((code ≡ 11) × Spends n v.world event.now)) }
        ensures plans { (v : Wire) (n : ℕ) → IsReached v → Holds D.state v self.old
            → HavePlansBelow D.state n self.old → HavePlansBelow D.state (may_begin v.world event.now + n) self.new }
        ensures left { (v : Wire) → IsReached v → Holds D.state v self.old
            → AreOut (P.state depot.old).is_out v.world
            → IfErr result (λ e. e ≢ Memory → ((count : ℕ) → e ≢ LimitPassed 10 count)
            → IsWhole event.now ⊎ (e ≡ DepotFailed)
            → IsUndone D.state v (P.state depot.new).is_out self.old self.new) }
        ensures depot { IsCounted DepotFailed (P.state depot.old).faults (P.state depot.new).faults result }
        ensures apart { (IsOwn event.now → ⊥) → IfErr result (λ e. e ≢ DepotFailed) }
    {
        match kind_of(event) {
            Kind::Deliver(packet) => self.deliver(packet),
            Kind::Pull(client, table) => self.pull(client, table),
            Kind::Ask(client, table) => self.ask(client, table),
            Kind::Other => self.carry_out(depot, event),
        }
    }
}
