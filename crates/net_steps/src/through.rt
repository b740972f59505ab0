//! A step of the wire with what it sends on its way, whatever the event is to the world.
ghost use Rattle.std.specs.Prelude.{◌≡◌, ℕ, ◌+◌, IfOk, IfErr};
ghost use Rattle.disk_trait.specs.Calls.{IsCounted};
ghost use Rattle.fair_laws.specs.Reached.{IsBuilt};
ghost use Rattle.world_tables.specs.World.{Lucks};
ghost use Rattle.gated_tables.specs.Net.{Net};
ghost use Rattle.node_steps.specs.declared.fault.WorldFault.TheVariants.{Depot as DepotFailed};
ghost use Rattle.node_steps.specs.declared.fault.WorldFault.TheVariants.{Limit as LimitPassed};
ghost use Rattle.wire_steps.specs.Calls.{IsLimitedBy};
ghost use Rattle.wire_steps.specs.Steps as wires;
ghost use Rattle.net_steps.specs.Calls.{Leaves};
ghost use Rattle.net_steps.specs.Steps.{HavePlansBelow, may_begin};
ghost use Rattle.net_steps.specs.Through.{IsStood, IsThrough, IsBeyond};

use crate::world::World;
use disk_trait::{Depot, Disk};
use node_steps::{Lines, WorldFault};
use table_model::Event;

impl<D: Disk + Drop> World<D> {
    /// What the wire makes of an event, with its packets on their way.
    pub(crate) fn go_through<P: Depot<Disk = D>>(
        &mut self,
        depot: &mut P,
        event: &Event,
    ) -> Result<Lines, WorldFault>
        requires built { IsBuilt event.now }
        requires held { (n : Net) × IsStood D.state (P.state depot.old).is_out n self.old }
        ensures done { (n : Net) → IsStood D.state (P.state depot.old).is_out n self.old
            → IfOk result (λ lines. (lucks : Lucks)
            × IsThrough D.state D.images n event.now lucks lines (P.state depot.new).is_out self.old self.new) }
        ensures over { (n : Net) → IsStood D.state (P.state depot.old).is_out n self.old
            → IfErr result (λ e. (count : ℕ) → e ≡ LimitPassed 10 count → (lucks : Lucks)
            × IsBeyond D.state D.images n event.now lucks (P.state depot.new).is_out self.old self.new) }
        ensures limit { (n : Net) (m : ℕ) → IsStood D.state (P.state depot.old).is_out n self.old
            → HavePlansBelow D.state m self.old
            → IsLimitedBy (wires.Spends m n.wire.world event.now) result }
        ensures plans { (n : Net) (m : ℕ) → IsStood D.state (P.state depot.old).is_out n self.old
            → HavePlansBelow D.state m self.old → HavePlansBelow D.state (may_begin n event.now + m) self.new }
        ensures left { (n : Net) → IsStood D.state (P.state depot.old).is_out n self.old
            → Leaves D.state n event.now (P.state depot.new).is_out result self.old self.new }
        ensures depot { IsCounted DepotFailed (P.state depot.old).faults (P.state depot.new).faults result }
        ensures rest { self.new ≡ record self.old { wire = self.new.wire; network = self.new.network } }
    {
        let lines = self.wire.step(depot, event)?;
        self.carry(lines)
    }
}
