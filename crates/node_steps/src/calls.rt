//! The calls of clients.
ghost use Rattle.std.specs.Prelude.{◌≡◌, ◌≢◌, ℕ, ◌+◌, [], suc, Ok, Err, IfOk, IfErr};
ghost use Rattle.step_tables.specs.Lines.{answer_of};
ghost use Rattle.table_model.specs.declared.line.Answer.{Answer as AnAnswer};
ghost use Rattle.table_model.specs.declared.event.Event.TheVariants as events;
ghost use Rattle.world_tables.specs.World.{World as AWorld, step};
ghost use Rattle.world_tables.specs.World as calls;
ghost use Rattle.journal_host.specs.Asks.{move_of};
ghost use Rattle.journal_host.specs.declared.fault.ClientFault.TheVariants.{Spent};
ghost use Rattle.node_steps.specs.declared.fault.WorldFault.TheVariants.{Memory, Limit as LimitPassed};
ghost use Rattle.node_steps.specs.declared.fault.WorldFault.TheVariants.{Depot as DepotFailed};
ghost use Rattle.node_steps.specs.Calls.{Comes, HasToldPairs, HasToldClients, by_lucks};
ghost use Rattle.node_steps.specs.Faults.{AreCounted};
ghost use Rattle.node_steps.specs.Holds.{Holds};
ghost use Rattle.node_steps.specs.Steps.{HavePlansBelow, IsStill, Spends, SpendsNumber, may_begin};

use crate::fault::WorldFault;
use crate::told::Told;
use crate::world::World;
use client_events::{call, conflicts, pull, resolve_all};
use conflicts::Stored;
use disk_trait::Disk;
use journal_host::{Ask, ClientFault};
use row_value::{ClientNo, RowId, Sequence, TableNo};
use stab_base::{NUMBER_MAX, Node};
use table_model::{Answer, RowPairs};

impl<D: Disk + Drop> World<D> {
    /// What a client's event comes to: its answer, with what the clients told and sent, or why the run ends.
    pub(crate) fn end(&mut self, found: Result<Answer, ClientFault>) -> Result<Told, WorldFault>
        ensures told { IfOk result (λ told. (answer : AnAnswer) × (found ≡ Ok answer)
            × HasToldClients D.state self.old self.new (answer_of answer) told) }
        ensures spent { IfErr result (λ e. (code count : ℕ) → e ≡ LimitPassed code count
            → (code ≡ 11) × (found ≡ Err Spent) × (self.new ≡ self.old)) }
        ensures only { IfErr result (λ e. e ≢ DepotFailed) }
        ensures store { self.new.store ≡ self.old.store }
        ensures nodes { self.new.clients.clients ≡ self.old.clients.clients }
    {
        match found {
            Ok(answer) => self.tell_clients(answer),
            Err(ClientFault::Spent) => Err(WorldFault::Limit {
                code: 11,
                count: NUMBER_MAX + 1,
            }),
            Err(ClientFault::Memory) => Err(WorldFault::Memory),
        }
    }

    // The same of one that lists the rows in conflict.
    fn end_pairs(
        &mut self,
        found: Result<Answer, ClientFault>,
        pairs: RowPairs,
    ) -> Result<Told, WorldFault>
        ensures told { IfOk result (λ told. (answer : AnAnswer) × (found ≡ Ok answer)
            × HasToldPairs D.state self.old self.new (answer_of answer) pairs told) }
        ensures spent { IfErr result (λ e. (code count : ℕ) → e ≡ LimitPassed code count
            → (code ≡ 11) × (found ≡ Err Spent) × (self.new ≡ self.old)) }
        ensures only { IfErr result (λ e. e ≢ DepotFailed) }
        ensures store { self.new.store ≡ self.old.store }
        ensures nodes { self.new.clients.clients ≡ self.old.clients.clients }
    {
        match found {
            Ok(answer) => self.tell_pairs(answer, pairs),
            Err(ClientFault::Spent) => Err(WorldFault::Limit {
                code: 11,
                count: NUMBER_MAX + 1,
            }),
            Err(ClientFault::Memory) => Err(WorldFault::Memory),
        }
    }

    /// A client lists the rows in conflict of a table.
    pub(crate) fn conflicts(&mut self, client: ClientNo, table: TableNo) -> Result<Told, WorldFault>
        requires held { (w : AWorld) × Holds D.state w self.old }
        ensures done { (w : AWorld) → Holds D.state w self.old
            → Comes D.state w (step w (events.Conflicts client table)) result self.new }
        ensures counted { AreCounted D.state result self.old self.new }
        ensures store { self.new.store ≡ self.old.store }
        ensures left { (w : AWorld) → Holds D.state w self.old
            → IfErr result (λ e. e ≢ Memory → IsStill D.state w self.old self.new) }
        ensures limit { (w : AWorld) (n : ℕ) → Holds D.state w self.old → HavePlansBelow D.state n self.old
            → IfErr result (λ e. (code count : ℕ) → e ≡ LimitPassed code count
            → (code ≡ 11) × SpendsNumber n w client) }
        ensures plans { (n : ℕ) → HavePlansBelow D.state n self.old → HavePlansBelow D.state (suc n) self.new }
        ensures only { IfErr result (λ e. e ≢ DepotFailed) }
    {
        let mut pairs = Sequence::new(self.alloc);
        let found = conflicts(&mut self.clients, client, table, &mut pairs);
        self.end_pairs(found, pairs)
    }

    /// A client resolves all conflicts of a table in one way.
    pub(crate) fn resolve_all(
        &mut self,
        client: ClientNo,
        table: TableNo,
        by: Stored,
    ) -> Result<Told, WorldFault>
        requires held { (w : AWorld) × Holds D.state w self.old }
        ensures done { (w : AWorld) → Holds D.state w self.old
            → Comes D.state w (step w (events.ResolveAll client table by)) result self.new }
        ensures counted { AreCounted D.state result self.old self.new }
        ensures store { self.new.store ≡ self.old.store }
        ensures limit { (w : AWorld) (n : ℕ) → Holds D.state w self.old → HavePlansBelow D.state n self.old
            → IfErr result (λ e. (code count : ℕ) → e ≡ LimitPassed code count
            → (code ≡ 11) × Spends n w (events.ResolveAll client table by)) }
        ensures plans { (w : AWorld) (n : ℕ) → Holds D.state w self.old → HavePlansBelow D.state n self.old
            → HavePlansBelow D.state (may_begin w (events.ResolveAll client table by) + n) self.new }
        ensures only { IfErr result (λ e. e ≢ DepotFailed) }
    {
        let found = resolve_all(self.alloc, &mut self.clients, client, table, by);
        self.end(found)
    }

    /// A client is asked, and does the work that follows.
    pub(crate) fn call(&mut self, client: ClientNo, ask: Ask) -> Result<Told, WorldFault>
        requires held { (w : AWorld) × Holds D.state w self.old }
        ensures done { (w : AWorld) → Holds D.state w self.old
            → Comes D.state w (by_lucks (calls.call w client (move_of ask))) result self.new }
        ensures counted { AreCounted D.state result self.old self.new }
        ensures store { self.new.store ≡ self.old.store }
        ensures left { (w : AWorld) → Holds D.state w self.old
            → IfErr result (λ e. e ≢ Memory → IsStill D.state w self.old self.new) }
        ensures limit { (w : AWorld) (n : ℕ) → Holds D.state w self.old → HavePlansBelow D.state n self.old
            → IfErr result (λ e. (code count : ℕ) → e ≡ LimitPassed code count
            → (code ≡ 11) × SpendsNumber n w client) }
        ensures plans { (n : ℕ) → HavePlansBelow D.state n self.old → HavePlansBelow D.state (suc n) self.new }
        ensures only { IfErr result (λ e. e ≢ DepotFailed) }
    {
        let is_held = self.is_held(Node::Client(client));
        let found = call(&mut self.clients, is_held, client, ask);
        self.end(found)
    }

    /// A client tells rows of a table as torn, and asks for rows whole, in these orders; where it asks for none, for
    /// the next change. It does the work that follows.
    ///
    /// `Limit` where the client has made its last write or has begun its last plan; it leaves the nodes as they were.
    /// What want of memory leaves of them isn't said.
    pub fn pull(
        &mut self,
        client: ClientNo,
        table: TableNo,
        tears: Sequence<RowId>,
        asks: Sequence<RowId>,
    ) -> Result<Told, WorldFault>
        requires held { (w : AWorld) × Holds D.state w self.old }
        requires none { asks ≡ [] → tears ≡ [] }
        ensures done { (w : AWorld) → Holds D.state w self.old → Comes D.state w
            (λ lucks. step w (events.Pull client table) (record lucks { tears = tears; asks = asks })) result self.new }
        ensures counted { AreCounted D.state result self.old self.new }
        ensures store { self.new.store ≡ self.old.store }
        ensures left { (w : AWorld) → Holds D.state w self.old
            → IfErr result (λ e. e ≢ Memory → IsStill D.state w self.old self.new) }
        ensures limit { (w : AWorld) (n : ℕ) → Holds D.state w self.old → HavePlansBelow D.state n self.old
            → IfErr result (λ e. (code count : ℕ) → e ≡ LimitPassed code count
            → (code ≡ 11) × SpendsNumber n w client) }
        ensures plans { (n : ℕ) → HavePlansBelow D.state n self.old → HavePlansBelow D.state (suc n) self.new }
        ensures only { IfErr result (λ e. e ≢ DepotFailed) }
    {
        let is_held = self.is_held(Node::Client(client));
        let found = pull(&mut self.clients, is_held, client, table, tears, asks);
        self.end(found)
    }
}
