//! The declarations of Stores, of tables and of clients.
ghost use Rattle.std.specs.Prelude.{◌≡◌, ◌≢◌, ◌⊎◌, ◌==◌, ◌||◌, ◌+◌, ◌*◌, ◌-◌, ◌<◌, ℕ, false, Option, None};
ghost use Rattle.std.specs.Prelude.{IfOk, IfErr, OnOk, OnErr};
ghost use Rattle.std.specs.Ordering.{nat_cmp};
ghost use Rattle.std.specs.BTreeMap as tree;
ghost use Rattle.disk_trait.specs.Calls.{IsCounted};
ghost use Rattle.table_model.specs.declared.event.Event.{Event};
ghost use Rattle.table_model.specs.declared.event.Event.TheVariants as events;
ghost use Rattle.world_tables.specs.World.{World as AWorld, step};
ghost use Rattle.node_steps.specs.declared.fault.WorldFault.TheVariants.{Depot as DepotFailed, Memory};
ghost use Rattle.row_store.specs.Spelling.{IsClient};
ghost use Rattle.fair_laws.specs.Reached.{IsMade, IsReached};
ghost use Rattle.fair_laws.specs.Worlds.{IsFair};
ghost use Rattle.node_steps.specs.Declaring.{Declares};
ghost use Rattle.node_steps.specs.Holds.{Holds, AreOut};
ghost use Rattle.store_host.specs.Holds.{AreLeft};
ghost use Rattle.store_host.specs.Steps.{faults_of};
ghost use Rattle.node_steps.specs.Faults.{IsUndone, ComesCounted};
ghost use Rattle.node_steps.specs.Steps.{HavePlansBelow, IsStep};

use crate::fault::WorldFault;
use crate::moves::add;
use crate::told::Told;
use crate::world::World;
use disk_trait::{Depot, DepotFault, Disk};
use row_value::{ClientNo, Schema, TableNo};
use stab_base::StoreNo;
use table_model::TableState;

// A disk of the depot.
fn hand_out<P: Depot>(depot: &mut P, number: u32) -> Result<P::Disk, WorldFault>
    requires { (P.state depot.old).is_out number ≡ false }
    ensures out { OnOk result ((k : ℕ) → (P.state depot.new).is_out k
        ≡ ((k == number) || (P.state depot.old).is_out k)) }
    ensures sound { IfOk result (λ disk. (P.Disk.state disk).faults ≡ 0) }
    ensures refused { OnErr result ((k : ℕ) → (P.state depot.new).is_out k ≡ (P.state depot.old).is_out k) }
    ensures cause { IsCounted DepotFailed (P.state depot.old).faults (P.state depot.new).faults result }
    ensures only { IfErr result (λ e. (e ≡ DepotFailed) ⊎ (e ≡ Memory)) }
{
    match depot.disk(number) {
        Ok(disk) => Ok(disk),
        Err(DepotFault::Failed) => Err(WorldFault::Depot),
        Err(DepotFault::Memory) => Err(WorldFault::Memory),
    }
}

// Two disks, or none.
fn hand_out_two<P: Depot>(
    depot: &mut P,
    first: u32,
    second: u32,
) -> Result<(P::Disk, P::Disk), WorldFault>
    requires first { (P.state depot.old).is_out first ≡ false }
    requires second { (P.state depot.old).is_out second ≡ false }
    requires apart { (second == first) ≡ false }
    ensures out { OnOk result ((k : ℕ) → (P.state depot.new).is_out k
        ≡ ((k == second) || ((k == first) || (P.state depot.old).is_out k))) }
    ensures sound { IfOk result (λ disks. ((P.Disk.state disks.0).faults ≡ 0) × ((P.Disk.state disks.1).faults ≡ 0)) }
    ensures refused { OnErr result ((k : ℕ) → (P.state depot.new).is_out k ≡ (P.state depot.old).is_out k) }
    ensures cause { IsCounted DepotFailed (P.state depot.old).faults (P.state depot.new).faults result }
    ensures only { IfErr result (λ e. (e ≡ DepotFailed) ⊎ (e ≡ Memory)) }
{
    let disk = hand_out(depot, first)?;
    match hand_out(depot, second) {
        Ok(other) => Ok((disk, other)),
        Err(fault) => {
            depot.back(first, disk);
            Err(fault)
        }
    }
}

// The three disks of a table or of a client, or none.
fn hand_out_three<P: Depot>(
    depot: &mut P,
    first: u32,
) -> Result<(P::Disk, P::Disk, P::Disk), WorldFault>
    requires small { first < 1000 }
    requires free { (k : ℕ) → k < 3 → (P.state depot.old).is_out (first + k) ≡ false }
    ensures out { OnOk result ((k : ℕ) → (P.state depot.new).is_out k ≡ ((k == first + 2)
        || ((k == first + 1) || ((k == first) || (P.state depot.old).is_out k)))) }
    ensures sound { IfOk result (λ disks. faults_of P.Disk.state disks.0 disks.1 disks.2 ≡ 0) }
    ensures refused { OnErr result ((k : ℕ) → (P.state depot.new).is_out k ≡ (P.state depot.old).is_out k) }
    ensures cause { IsCounted DepotFailed (P.state depot.old).faults (P.state depot.new).faults result }
    ensures only { IfErr result (λ e. (e ≡ DepotFailed) ⊎ (e ≡ Memory)) }
{
    let (disk, other) = hand_out_two(depot, first, first + 1)?;
    match hand_out(depot, first + 2) {
        Ok(last) => Ok((disk, other, last)),
        Err(fault) => {
            depot.back(first, disk);
            depot.back(first + 1, other);
            Err(fault)
        }
    }
}

impl<D: Disk + Drop> World<D> {
    /// Declares a Store: it keeps the tables whose owner it becomes.
    pub(crate) fn declare_store(&mut self, store: StoreNo) -> Result<Told, WorldFault>
        requires held { (w : AWorld) × Holds D.state w self.old }
        ensures done { (w : AWorld) → Holds D.state w self.old
            → ComesCounted D.state w (step w (events.Store store)) (λ lucks. false) result self.old self.new }
        ensures rows { (w : AWorld) → Holds D.state w self.old → IfOk result (λ told.
            AreLeft D.state D.images w self.old.store.tables self.new.store.tables) }
        ensures clients { self.new.clients ≡ self.old.clients }
        ensures memory { IfErr result (λ e. e ≡ Memory) }
    {
        match self.store.declare_store(store) {
            Ok(()) => Ok(self.silent()),
            Err(_) => Err(WorldFault::Memory),
        }
    }

    /// Declares a table in this state; one that is there stays as it is.
    pub(crate) fn declare<P: Depot<Disk = D>>(
        &mut self,
        depot: &mut P,
        table: TableNo,
        schema: &Schema,
        state: TableState,
    ) -> Result<Told, WorldFault>
        requires made { IsMade table schema.now }
        requires held { (w : AWorld) × Holds D.state w self.old × AreOut (P.state depot.old).is_out w }
        ensures done { (w : AWorld) (event : Event) → Declares event table schema.now state → IsReached w
            → Holds D.state w self.old → AreOut (P.state depot.old).is_out w
            → IfOk result (λ told. IsStep D.state D.images w event told (P.state depot.new).is_out self.old
            self.new) }
        ensures left { (w : AWorld) → Holds D.state w self.old → AreOut (P.state depot.old).is_out w
            → IfErr result (λ e. e ≢ Memory → IsUndone D.state w (P.state depot.new).is_out self.old self.new) }
        ensures clients { self.new.clients ≡ self.old.clients }
        ensures depot { IsCounted DepotFailed (P.state depot.old).faults (P.state depot.new).faults result }
        ensures only { IfErr result (λ e. (e ≡ DepotFailed) ⊎ (e ≡ Memory)) }
    {
        if self.store.has(table) {
            return Ok(self.silent());
        }
        self.add_table(depot, table, schema, state)
    }

    fn add_table<P: Depot<Disk = D>>(
        &mut self,
        depot: &mut P,
        table: TableNo,
        schema: &Schema,
        state: TableState,
    ) -> Result<Told, WorldFault>
        requires made { IsMade table schema.now }
        requires held { (w : AWorld) × Holds D.state w self.old × AreOut (P.state depot.old).is_out w }
        requires absent { tree.get nat_cmp self.old.store.tables table ≡ None }
        ensures done { (w : AWorld) (event : Event) → Declares event table schema.now state → IsReached w
            → Holds D.state w self.old → AreOut (P.state depot.old).is_out w
            → IfOk result (λ told. IsStep D.state D.images w event told (P.state depot.new).is_out self.old
            self.new) }
        ensures left { (w : AWorld) → Holds D.state w self.old → AreOut (P.state depot.old).is_out w
            → IfErr result (λ e. e ≢ Memory → IsUndone D.state w (P.state depot.new).is_out self.old self.new) }
        ensures clients { self.new.clients ≡ self.old.clients }
        ensures depot { IsCounted DepotFailed (P.state depot.old).faults (P.state depot.new).faults result }
        ensures only { IfErr result (λ e. (e ≡ DepotFailed) ⊎ (e ≡ Memory)) }
    {
        let known = schema.copy()?;
        let own = schema.copy()?;
        let disks = hand_out_three(depot, 3 * (table - 1))?;
        self.schemas.insert(table, known)?;
        add(&mut self.store, table, own, state, disks)?;
        Ok(self.silent())
    }

    /// Adds a client that opens these tables, as far as they are declared; one that is there stays as it is.
    pub(crate) fn join<P: Depot<Disk = D>>(
        &mut self,
        depot: &mut P,
        client: ClientNo,
        tables: &[TableNo],
    ) -> Result<Told, WorldFault>
        requires numbered { IsClient client }
        requires held { (w : AWorld) × Holds D.state w self.old × AreOut (P.state depot.old).is_out w × IsFair w }
        ensures done { (w : AWorld) (gate : Option ℕ) → IsReached w → Holds D.state w self.old
            → AreOut (P.state depot.old).is_out w
            → IfOk result (λ told. IsStep D.state D.images w (events.Client client gate tables.now) told
            (P.state depot.new).is_out self.old self.new) }
        ensures left { (w : AWorld) → Holds D.state w self.old → AreOut (P.state depot.old).is_out w
            → IfErr result (λ e. e ≢ Memory → IsUndone D.state w (P.state depot.new).is_out self.old self.new) }
        ensures plans { (n : ℕ) → HavePlansBelow D.state n self.old → HavePlansBelow D.state n self.new }
        ensures depot { IsCounted DepotFailed (P.state depot.old).faults (P.state depot.new).faults result }
        ensures only { IfErr result (λ e. (e ≡ DepotFailed) ⊎ (e ≡ Memory)) }
    {
        if self.clients.has(client) {
            return Ok(self.silent());
        }
        self.add_client(depot, client, tables)
    }

    fn add_client<P: Depot<Disk = D>>(
        &mut self,
        depot: &mut P,
        client: ClientNo,
        tables: &[TableNo],
    ) -> Result<Told, WorldFault>
        requires numbered { IsClient client }
        requires held { (w : AWorld) × Holds D.state w self.old × AreOut (P.state depot.old).is_out w × IsFair w }
        requires absent { tree.get nat_cmp self.old.clients.clients client ≡ None }
        ensures done { (w : AWorld) (gate : Option ℕ) → IsReached w → Holds D.state w self.old
            → AreOut (P.state depot.old).is_out w
            → IfOk result (λ told. IsStep D.state D.images w (events.Client client gate tables.now) told
            (P.state depot.new).is_out self.old self.new) }
        ensures left { (w : AWorld) → Holds D.state w self.old → AreOut (P.state depot.old).is_out w
            → IfErr result (λ e. e ≢ Memory → IsUndone D.state w (P.state depot.new).is_out self.old self.new) }
        ensures plans { (n : ℕ) → HavePlansBelow D.state n self.old → HavePlansBelow D.state n self.new }
        ensures depot { IsCounted DepotFailed (P.state depot.old).faults (P.state depot.new).faults result }
        ensures only { IfErr result (λ e. (e ≡ DepotFailed) ⊎ (e ≡ Memory)) }
    {
        let disks = hand_out_three(depot, 192 + 3 * (client - 1))?;
        match self.clients.join(client, tables, &self.schemas, disks) {
            Ok(()) => Ok(self.silent()),
            Err(_) => Err(WorldFault::Memory),
        }
    }
}
