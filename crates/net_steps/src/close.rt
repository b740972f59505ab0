//! The end of a world: its disks go back.
ghost use Rattle.std.specs.Prelude.{◌≡◌, ℕ, false, IfSome};
ghost use Rattle.node_steps.specs.Faults.{all_faults_back};
ghost use Rattle.node_steps.specs.Rows.{AreRowsBack};
ghost use Rattle.node_steps.specs.Holds.{IsWorld, Holds as NodesHold};
ghost use Rattle.world_tables.specs.World.{World as AWorld};
ghost use Rattle.fair_laws.specs.Reached.{IsReached};
ghost use Rattle.net_steps.specs.Steps.{all_faults};

use crate::world::World;
use disk_trait::{Depot, Disk};

impl<D: Disk + Drop> World<D> {
    /// Gives each disk back to the depot under its number. It takes no memory.
    pub fn close<P: Depot<Disk = D>>(self, depot: &mut P)
        requires held { IsWorld D.state (P.state depot.old).is_out self.wire.nodes }
        ensures back { (k : ℕ) → (P.state depot.new).is_out k ≡ false }
        ensures told { (w : AWorld) → NodesHold D.state w self.wire.nodes → IfSome (P.returned depot.new)
            (λ disks. all_faults_back D.state disks w ≡ all_faults D.state self) }
        ensures rows { (w : AWorld) → IsReached w → NodesHold D.state w self.wire.nodes
            → IfSome (P.returned depot.new) (λ disks. AreRowsBack D.state disks w) }
        ensures faults { (P.state depot.new).faults ≡ (P.state depot.old).faults }
    {
        let World { wire, .. } = self;
        wire.close(depot);
    }
}
