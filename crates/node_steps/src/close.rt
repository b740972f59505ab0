//! The end of a world: its disks go back.
ghost use Rattle.std.specs.Prelude.{◌≡◌, ◌+◌, ◌<◌, ◌≤◌, ℕ, false, true, Some, is_some, IfSome};
ghost use Rattle.std.specs.Ordering.{nat_cmp};
ghost use Rattle.std.specs.BTreeMap as tree;
ghost use Rattle.world_tables.specs.World.{World as AWorld, client_at};
ghost use Rattle.node_steps.specs.Closes.{TellsThree, StayBelow, AreBack, AreClientBack, without_three};
ghost use Rattle.node_steps.specs.Faults.{all_faults, all_faults_back};
ghost use Rattle.fair_laws.specs.Reached.{IsReached};
ghost use Rattle.node_steps.specs.Holds.{Holds, IsWorld, AreOut, first_client_disk};
ghost use Rattle.node_steps.specs.Numbers.{AreNumbered};
ghost use Rattle.store_host.specs.declared.hosted.Hosted.{Hosted as Kept};
ghost use Rattle.store_host.specs.Holds.{HoldsStore};
ghost use Rattle.client_node.specs.declared.node.ClientNode.{ClientNode};
ghost use Rattle.journal_host.specs.Holds.{HoldsClients};
ghost use Rattle.node_steps.specs.Rows.{AreRowsBack};

use crate::world::World;
use disk_trait::{Depot, Disk};
use journal_host::ClientHost;
use store_host::StoreHost;

// Gives the three disks of a table or of a client, which begin at this number, back to the depot.
fn give_back<P: Depot>(depot: &mut P, first: u32, disks: (P::Disk, P::Disk, P::Disk))
    requires small { first < 1000 }
    requires out { (k : ℕ) → k < 3 → (P.state depot.old).is_out (first + k) ≡ true }
    ensures back { (k : ℕ) → (P.state depot.new).is_out k ≡ without_three first (P.state depot.old).is_out k }
    ensures told { TellsThree (P.returned depot.old) (P.returned depot.new) first disks }
    ensures faults { (P.state depot.new).faults ≡ (P.state depot.old).faults }
{
    let (disk, other, last) = disks;
    depot.back(first, disk);
    depot.back(first + 1, other);
    depot.back(first + 2, last);
}

// Gives back the disks of all tables.
fn close_tables<P: Depot>(depot: &mut P, mut store: StoreHost<P::Disk>)
    requires held { (w : AWorld) × AreNumbered w × HoldsStore P.Disk.state w store
        × AreOut (P.state depot.old).is_out w }
    ensures back { (k : ℕ) → k < 192 → (P.state depot.new).is_out k ≡ false }
    ensures others { (k : ℕ) → 192 ≤ k → (P.state depot.new).is_out k ≡ (P.state depot.old).is_out k }
    ensures told { IfSome (P.returned depot.new)
        (λ disks. (table : ℕ) (it : Kept P.Disk) → tree.get nat_cmp store.tables table ≡ Some it
        → AreBack disks table it) }
    ensures faults { (P.state depot.new).faults ≡ (P.state depot.old).faults }
{
    'tables: while let Some((table, disks)) = store.take_disks() {
        give_back(depot, 3 * (table - 1), disks);
    }
}

// Gives back the disks of all clients.
fn close_clients<P: Depot>(depot: &mut P, mut clients: ClientHost<P::Disk>)
    requires held { (w : AWorld) × AreNumbered w × HoldsClients P.Disk.state w clients
        × ((c k : ℕ) → 1 ≤ c → k < 3 → (P.state depot.old).is_out (first_client_disk c + k) ≡ is_some (client_at w c)) }
    ensures back { (k : ℕ) → 192 ≤ k → (P.state depot.new).is_out k ≡ false }
    ensures others { (k : ℕ) → k < 192 → (P.state depot.new).is_out k ≡ (P.state depot.old).is_out k }
    ensures told { IfSome (P.returned depot.new)
        (λ disks. (c : ℕ) (node : ClientNode P.Disk) → tree.get nat_cmp clients.clients c ≡ Some node
        → AreClientBack disks c node) }
    ensures kept { StayBelow (P.returned depot.old) (P.returned depot.new) 192 }
    ensures faults { (P.state depot.new).faults ≡ (P.state depot.old).faults }
{
    'clients: while let Some((client, disks)) = clients.take_disks() {
        give_back(depot, 192 + 3 * (client - 1), disks);
    }
}

impl<D: Disk + Drop> World<D> {
    /// Gives each disk back to the depot under its number. It takes no memory.
    pub fn close<P: Depot<Disk = D>>(self, depot: &mut P)
        requires held { IsWorld D.state (P.state depot.old).is_out self }
        ensures back { (k : ℕ) → (P.state depot.new).is_out k ≡ false }
        ensures told { (w : AWorld) → Holds D.state w self → IfSome (P.returned depot.new)
            (λ disks. all_faults_back D.state disks w ≡ all_faults D.state self) }
        ensures rows { (w : AWorld) → IsReached w → Holds D.state w self
            → IfSome (P.returned depot.new) (λ disks. AreRowsBack D.state disks w) }
        ensures faults { (P.state depot.new).faults ≡ (P.state depot.old).faults }
    {
        let World { store, clients, .. } = self;
        close_tables(depot, store);
        close_clients(depot, clients);
    }
}
