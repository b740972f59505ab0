//! Tables that are made and dropped, at their Store and at clients, and subscriptions that a Store keeps.
ghost use Rattle.std.specs.Prelude.{◌≡◌, ◌≢◌, ℕ, suc, true, IfOk, IfErr};
ghost use Rattle.stab_base.specs.declared.node.Node.TheVariants as nodes;
ghost use Rattle.table_model.specs.declared.event.Event.TheVariants as events;
ghost use Rattle.table_model.specs.declared.table_state.TableState.TheVariants as states;
ghost use Rattle.step_tables.specs.ClientMoves.{Alter, Opens, Closes};
ghost use Rattle.step_tables.specs.StoreMoves.{Place, PutState};
ghost use Rattle.world_tables.specs.World.{World as AWorld, step, opens, puts_beside, to_hosted, hosted_at, hosted_by};
ghost use Rattle.world_tables.specs.World.{schema_at, move_table};
ghost use Rattle.world_tables.specs.World as calls;
ghost use Rattle.fair_laws.specs.Worlds.{IsFair};
ghost use Rattle.store_host.specs.Holds.{is_up_at, owner_at};
ghost use Rattle.store_node.specs.Sides.{IsOfClient, put_of};
ghost use Rattle.client_node.specs.Node.{IsToOpen};
ghost use Rattle.node_steps.specs.declared.fault.WorldFault.TheVariants.{Memory, Limit as LimitPassed};
ghost use Rattle.node_steps.specs.declared.fault.WorldFault.TheVariants.{Depot as DepotFailed};
ghost use Rattle.node_steps.specs.Calls.{Comes, by_lucks};
ghost use Rattle.node_steps.specs.Faults.{AreCounted};
ghost use Rattle.node_steps.specs.Holds.{Holds};
ghost use Rattle.node_steps.specs.Rows.{AreLeftOver};
ghost use Rattle.node_steps.specs.Steps.{SpendsAt, SpendsNumber, IsStill, HavePlansBelow};

use crate::fault::WorldFault;
use crate::moves::place;
use crate::told::Told;
use crate::world::World;
use client_events::{close, open};
use disk_trait::Disk;
use row_value::{ClientNo, Schema, TableNo};
use stab_base::{Node, StoreNo};
use store_node::SidePut;
use table_model::{Answer, TableState};

impl<D: Disk + Drop> World<D> {
    /// Makes a table at a node: its Store puts it live, and a client opens it. A gateway has no tables.
    ///
    /// `Limit` where the client has begun its last plan; it leaves the nodes as they were.
    pub(crate) fn create(&mut self, node: Node, table: TableNo) -> Result<Told, WorldFault>
        requires held { (w : AWorld) × Holds D.state w self.old × IsFair w }
        ensures done { (w : AWorld) → Holds D.state w self.old
            → Comes D.state w (step w (events.Create node table)) result self.new }
        ensures counted { AreCounted D.state result self.old self.new }
        ensures rows { (w : AWorld) → Holds D.state w self.old → IfOk result (λ told.
            AreLeftOver D.state D.images w (move_table table (Place (PutState states.Live)) w).world
            self.old.store.tables self.new.store.tables) }
        ensures left { (w : AWorld) → Holds D.state w self.old
            → IfErr result (λ e. e ≢ Memory → IsStill D.state w self.old self.new) }
        ensures limit { (w : AWorld) (n : ℕ) → Holds D.state w self.old → HavePlansBelow D.state n self.old
            → IfErr result (λ e. (code count : ℕ) → e ≡ LimitPassed code count
            → (code ≡ 11) × SpendsAt n w node) }
        ensures plans { (n : ℕ) → HavePlansBelow D.state n self.old → HavePlansBelow D.state (suc n) self.new }
        ensures only { IfErr result (λ e. e ≢ DepotFailed) }
    {
        match node {
            Node::Store(store) => self.put_beside(store, table, SidePut::State(TableState::Live)),
            Node::Client(client) => self.open_table(client, table),
            Node::Gate(_) => self.only(Answer::Done),
        }
    }

    /// Drops a table at a node: its Store puts it so, and a client closes it. A gateway has no tables.
    ///
    /// `Limit` as `create`.
    pub(crate) fn drop_table(&mut self, node: Node, table: TableNo) -> Result<Told, WorldFault>
        requires held { (w : AWorld) × Holds D.state w self.old }
        ensures done { (w : AWorld) → Holds D.state w self.old
            → Comes D.state w (step w (events.Drop node table)) result self.new }
        ensures counted { AreCounted D.state result self.old self.new }
        ensures rows { (w : AWorld) → Holds D.state w self.old → IfOk result (λ told.
            AreLeftOver D.state D.images w (move_table table (Place (PutState states.Dropped)) w).world
            self.old.store.tables self.new.store.tables) }
        ensures left { (w : AWorld) → Holds D.state w self.old
            → IfErr result (λ e. e ≢ Memory → IsStill D.state w self.old self.new) }
        ensures limit { (w : AWorld) (n : ℕ) → Holds D.state w self.old → HavePlansBelow D.state n self.old
            → IfErr result (λ e. (code count : ℕ) → e ≡ LimitPassed code count
            → (code ≡ 11) × SpendsAt n w node) }
        ensures plans { (n : ℕ) → HavePlansBelow D.state n self.old → HavePlansBelow D.state (suc n) self.new }
        ensures only { IfErr result (λ e. e ≢ DepotFailed) }
    {
        match node {
            Node::Store(store) => self.put_beside(
                store,
                table,
                SidePut::State(TableState::Dropped),
            ),
            Node::Client(client) => self.close_table(client, table),
            Node::Gate(_) => self.only(Answer::Done),
        }
    }

    // ---- a Store

    /// A Store puts something beside the rows of a table; one that it doesn't keep is passed over.
    pub(crate) fn put_beside(
        &mut self,
        store: StoreNo,
        table: TableNo,
        put: SidePut,
    ) -> Result<Told, WorldFault>
        requires held { (w : AWorld) × Holds D.state w self.old }
        requires client { IsOfClient put }
        ensures done { (w : AWorld) → Holds D.state w self.old → Comes D.state w
            (λ lucks. puts_beside w store table (put_of put) lucks.calls) result self.new }
        ensures counted { AreCounted D.state result self.old self.new }
        ensures rows { (w : AWorld) → Holds D.state w self.old → IfOk result (λ told.
            AreLeftOver D.state D.images w (move_table table (Place (put_of put)) w).world self.old.store.tables
            self.new.store.tables) }
        ensures clients { self.new.clients ≡ self.old.clients }
        ensures memory { IfErr result (λ e. e ≡ Memory) }
    {
        if self.is_down(Node::Store(store)) {
            return self.refuse(Node::Store(store));
        }
        self.put_up(store, table, put)
    }

    fn put_up(&mut self, store: StoreNo, table: TableNo, put: SidePut) -> Result<Told, WorldFault>
        requires held { (w : AWorld) × Holds D.state w self.old }
        requires up { is_up_at self.old.store store ≡ true }
        requires client { IsOfClient put }
        ensures done { (w : AWorld) → Holds D.state w self.old → Comes D.state w
            (λ lucks. to_hosted w table (Place (put_of put)) lucks.calls (hosted_by w store table)) result
            self.new }
        ensures counted { AreCounted D.state result self.old self.new }
        ensures rows { (w : AWorld) → Holds D.state w self.old → IfOk result (λ told.
            AreLeftOver D.state D.images w (move_table table (Place (put_of put)) w).world self.old.store.tables
            self.new.store.tables) }
        ensures clients { self.new.clients ≡ self.old.clients }
        ensures memory { IfErr result (λ e. e ≡ Memory) }
    {
        if self.owner(table) == store {
            return self.place(store, table, put);
        }
        self.only(Answer::Done)
    }

    fn place(&mut self, store: StoreNo, table: TableNo, put: SidePut) -> Result<Told, WorldFault>
        requires held { (w : AWorld) × Holds D.state w self.old }
        requires up { is_up_at self.old.store store ≡ true }
        requires client { IsOfClient put }
        requires owner { owner_at self.old.store.tables table ≡ store }
        ensures done { (w : AWorld) → Holds D.state w self.old → Comes D.state w
            (λ lucks. to_hosted w table (Place (put_of put)) lucks.calls (hosted_at w table)) result self.new }
        ensures counted { AreCounted D.state result self.old self.new }
        ensures rows { (w : AWorld) → Holds D.state w self.old → IfOk result (λ told.
            AreLeftOver D.state D.images w (move_table table (Place (put_of put)) w).world self.old.store.tables
            self.new.store.tables) }
        ensures clients { self.new.clients ≡ self.old.clients }
        ensures memory { IfErr result (λ e. e ≡ Memory) }
    {
        let is_held = self.is_held(Node::Store(store));
        let answer = place(&mut self.store, store, is_held, table, put)?;
        self.tell(answer)
    }

    // ---- a client

    // The schema of a declared table, copied.
    fn known(&self, table: TableNo) -> Result<Option<Schema>, WorldFault>
        ensures known { (w : AWorld) → Holds D.state w self.now → IfOk result (λ found. found ≡ schema_at w table) }
        ensures memory { IfErr result (λ e. e ≡ Memory) }
    {
        match self.schemas.get(&table) {
            Some(schema) => {
                let known = schema.copy()?;
                Ok(Some(known))
            }
            None => Ok(None),
        }
    }

    // A client opens a table; one that isn't declared is passed over.
    fn open_table(&mut self, client: ClientNo, table: TableNo) -> Result<Told, WorldFault>
        requires held { (w : AWorld) × Holds D.state w self.old × IsFair w }
        ensures done { (w : AWorld) → Holds D.state w self.old → Comes D.state w
            (by_lucks (λ shape lucks. opens w client table shape lucks (schema_at w table))) result self.new }
        ensures counted { AreCounted D.state result self.old self.new }
        ensures store { self.new.store ≡ self.old.store }
        ensures left { (w : AWorld) → Holds D.state w self.old
            → IfErr result (λ e. e ≢ Memory → IsStill D.state w self.old self.new) }
        ensures limit { (w : AWorld) (n : ℕ) → Holds D.state w self.old → HavePlansBelow D.state n self.old
            → IfErr result (λ e. (code count : ℕ) → e ≡ LimitPassed code count
            → (code ≡ 11) × SpendsNumber n w client) }
        ensures plans { (n : ℕ) → HavePlansBelow D.state n self.old → HavePlansBelow D.state (suc n) self.new }
        ensures only { IfErr result (λ e. e ≢ DepotFailed) }
    {
        match self.known(table)? {
            Some(schema) => self.open_known(client, table, schema),
            None => self.only(Answer::Done),
        }
    }

    fn open_known(
        &mut self,
        client: ClientNo,
        table: TableNo,
        schema: Schema,
    ) -> Result<Told, WorldFault>
        requires held { (w : AWorld) × Holds D.state w self.old }
        requires opens { IsToOpen (table, schema) }
        ensures done { (w : AWorld) → Holds D.state w self.old
            → Comes D.state w (by_lucks (calls.call w client (Alter table (Opens schema)))) result self.new }
        ensures counted { AreCounted D.state result self.old self.new }
        ensures store { self.new.store ≡ self.old.store }
        ensures left { (w : AWorld) → Holds D.state w self.old
            → IfErr result (λ e. e ≢ Memory → IsStill D.state w self.old self.new) }
        ensures limit { (w : AWorld) (n : ℕ) → Holds D.state w self.old → HavePlansBelow D.state n self.old
            → IfErr result (λ e. (code count : ℕ) → e ≡ LimitPassed code count
            → (code ≡ 11) × SpendsNumber n w client) }
        ensures plans { (n : ℕ) → HavePlansBelow D.state n self.old → HavePlansBelow D.state (suc n) self.new }
        ensures only { IfErr result (λ e. e ≢ DepotFailed) }
    {
        let is_held = self.is_held(Node::Client(client));
        let found = open(&mut self.clients, is_held, client, table, schema);
        self.end(found)
    }

    fn close_table(&mut self, client: ClientNo, table: TableNo) -> Result<Told, WorldFault>
        requires held { (w : AWorld) × Holds D.state w self.old }
        ensures done { (w : AWorld) → Holds D.state w self.old
            → Comes D.state w (by_lucks (calls.call w client (Alter table Closes))) result self.new }
        ensures counted { AreCounted D.state result self.old self.new }
        ensures store { self.new.store ≡ self.old.store }
        ensures left { (w : AWorld) → Holds D.state w self.old
            → IfErr result (λ e. e ≢ Memory → IsStill D.state w self.old self.new) }
        ensures limit { (w : AWorld) (n : ℕ) → Holds D.state w self.old → HavePlansBelow D.state n self.old
            → IfErr result (λ e. (code count : ℕ) → e ≡ LimitPassed code count
            → (code ≡ 11) × SpendsNumber n w client) }
        ensures plans { (n : ℕ) → HavePlansBelow D.state n self.old → HavePlansBelow D.state (suc n) self.new }
        ensures only { IfErr result (λ e. e ≢ DepotFailed) }
    {
        let is_held = self.is_held(Node::Client(client));
        let found = close(&mut self.clients, is_held, client, table);
        self.end(found)
    }
}
