//! Messages that are handed to nodes.
ghost use Rattle.std.specs.Prelude.{◌≡◌, ◌≢◌, ◌⊎◌, ℕ, suc, true, IfOk, IfErr};
ghost use Rattle.stab_base.specs.declared.node.Node.TheVariants as nodes;
ghost use Rattle.step_tables.specs.Messages.{table_of};
ghost use Rattle.step_tables.specs.StoreMoves.{Take};
ghost use Rattle.step_tables.specs.Travels.{message_of};
ghost use Rattle.world_tables.specs.World.{World as AWorld, carried, to_hosted, to_there, hosted_at};
ghost use Rattle.world_tables.specs.World.{hosted_by, client_at, move_table};
ghost use Rattle.world_tables.specs.Passed.{taken_by};
ghost use Rattle.store_host.specs.Calls.{FitsIn};
ghost use Rattle.store_host.specs.Holds.{is_up_at, owner_at};
ghost use Rattle.client_events.specs.Fits.{FitsMessage};
ghost use Rattle.node_steps.specs.declared.fault.WorldFault.TheVariants.{Memory, Limit as LimitPassed};
ghost use Rattle.node_steps.specs.declared.fault.WorldFault.TheVariants.{Depot as DepotFailed};
ghost use Rattle.node_steps.specs.Calls.{Comes, by_lucks};
ghost use Rattle.node_steps.specs.Faults.{AreCounted};
ghost use Rattle.node_steps.specs.Fits.{FitsNode, packet_with};
ghost use Rattle.node_steps.specs.Holds.{Holds};
ghost use Rattle.node_steps.specs.Rows.{AreLeftOver};
ghost use Rattle.node_steps.specs.Steps.{SpendsNumber, IsFull, IsStill, HavePlansBelow};

use crate::fault::WorldFault;
use crate::moves::take;
use crate::told::Told;
use crate::world::World;
use client_events::deliver;
use disk_trait::Disk;
use row_value::ClientNo;
use stab_base::{Node, StoreNo};
use step_tables::Message;
use store_node::table_of as table_in;
use table_model::Answer;

impl<D: Disk + Drop> World<D> {
    /// Hands a message to the node that it is for. Where that isn't there, or is a Store that doesn't keep the table,
    /// it is lost.
    ///
    /// `Limit` where a table has given its last version, or a client has made its last write or has begun its last
    /// plan; it leaves the nodes as they were. What want of memory leaves of them isn't said.
    pub fn carry(&mut self, from: Node, to: Node, message: Message) -> Result<Told, WorldFault>
        requires held { (w : AWorld) × Holds D.state w self.old × FitsNode w to message }
        ensures done { (w : AWorld) → Holds D.state w self.old → FitsNode w to message → Comes D.state w
            (λ lucks. carried w (packet_with from to message) lucks.shape lucks.calls to) result self.new }
        ensures counted { AreCounted D.state result self.old self.new }
        ensures rows { (w : AWorld) → Holds D.state w self.old → FitsNode w to message → IfOk result (λ told.
            AreLeftOver D.state D.images w (taken_by w (packet_with from to message) to) self.old.store.tables
            self.new.store.tables) }
        ensures left { (w : AWorld) → Holds D.state w self.old
            → IfErr result (λ e. e ≢ Memory → IsStill D.state w self.old self.new) }
        ensures limit { (w : AWorld) (n : ℕ) → Holds D.state w self.old → FitsNode w to message
            → HavePlansBelow D.state n self.old → IfErr result (λ e. (code count : ℕ) → e ≡ LimitPassed code count
            → (code ≡ 11) × (IsFull w ⊎ ((c : ℕ) × SpendsNumber n w c))) }
        ensures plans { (n : ℕ) → HavePlansBelow D.state n self.old → HavePlansBelow D.state (suc n) self.new }
        ensures only { IfErr result (λ e. e ≢ DepotFailed) }
    {
        match to {
            Node::Store(store) => self.carry_to_store(store, from, &message),
            Node::Client(client) => self.carry_to_client(client, message),
            Node::Gate(_) => self.only(Answer::Done),
        }
    }

    fn carry_to_client(&mut self, client: ClientNo, message: Message) -> Result<Told, WorldFault>
        requires held { (w : AWorld) × Holds D.state w self.old × FitsMessage w client message }
        ensures done { (w : AWorld) → Holds D.state w self.old → FitsMessage w client message → Comes D.state w
            (by_lucks (λ shape lucks. to_there w client (message_of message) shape lucks (client_at w client))) result
            self.new }
        ensures counted { AreCounted D.state result self.old self.new }
        ensures store { self.new.store ≡ self.old.store }
        ensures left { (w : AWorld) → Holds D.state w self.old
            → IfErr result (λ e. e ≢ Memory → IsStill D.state w self.old self.new) }
        ensures limit { (w : AWorld) (n : ℕ) → Holds D.state w self.old → FitsMessage w client message
            → HavePlansBelow D.state n self.old → IfErr result (λ e. (code count : ℕ) → e ≡ LimitPassed code count
            → (code ≡ 11) × SpendsNumber n w client) }
        ensures plans { (n : ℕ) → HavePlansBelow D.state n self.old → HavePlansBelow D.state (suc n) self.new }
        ensures only { IfErr result (λ e. e ≢ DepotFailed) }
    {
        let is_held = self.is_held(Node::Client(client));
        let found = deliver(&mut self.clients, is_held, client, message);
        self.end(found)
    }

    fn carry_to_store(
        &mut self,
        store: StoreNo,
        from: Node,
        message: &Message,
    ) -> Result<Told, WorldFault>
        requires held { (w : AWorld) × Holds D.state w self.old × FitsIn w message.now }
        ensures done { (w : AWorld) → Holds D.state w self.old → FitsIn w message.now → Comes D.state w
            (λ lucks. carried w (packet_with from (nodes.Store store) message.now) lucks.shape lucks.calls
            (nodes.Store store)) result self.new }
        ensures counted { AreCounted D.state result self.old self.new }
        ensures rows { (w : AWorld) → Holds D.state w self.old → FitsIn w message.now → IfOk result (λ told.
            AreLeftOver D.state D.images w (taken_by w (packet_with from (nodes.Store store) message.now)
            (nodes.Store store)) self.old.store.tables self.new.store.tables) }
        ensures left { (w : AWorld) → Holds D.state w self.old
            → IfErr result (λ e. e ≢ Memory → IsStill D.state w self.old self.new) }
        ensures limit { (w : AWorld) → Holds D.state w self.old → IfErr result (λ e. (code count : ℕ)
            → e ≡ LimitPassed code count → (code ≡ 11) × IsFull w) }
        ensures clients { self.new.clients ≡ self.old.clients }
        ensures only { IfErr result (λ e. e ≢ DepotFailed) }
    {
        if self.is_down(Node::Store(store)) {
            return self.refuse(Node::Store(store));
        }
        self.carry_up(store, from, message)
    }

    // A message to a Store that doesn't keep its table is lost.
    fn carry_up(
        &mut self,
        store: StoreNo,
        from: Node,
        message: &Message,
    ) -> Result<Told, WorldFault>
        requires held { (w : AWorld) × Holds D.state w self.old × FitsIn w message.now }
        requires up { is_up_at self.old.store store ≡ true }
        ensures done { (w : AWorld) → Holds D.state w self.old → FitsIn w message.now → Comes D.state w
            (λ lucks. to_hosted w (table_of (message_of message.now)) (Take from (message_of message.now)) lucks.calls
            (hosted_by w store (table_of (message_of message.now)))) result self.new }
        ensures counted { AreCounted D.state result self.old self.new }
        ensures rows { (w : AWorld) → Holds D.state w self.old → FitsIn w message.now → IfOk result (λ told.
            AreLeftOver D.state D.images w (taken_by w (packet_with from (nodes.Store store) message.now)
            (nodes.Store store)) self.old.store.tables self.new.store.tables) }
        ensures left { (w : AWorld) → Holds D.state w self.old
            → IfErr result (λ e. e ≢ Memory → IsStill D.state w self.old self.new) }
        ensures limit { (w : AWorld) → Holds D.state w self.old → IfErr result (λ e. (code count : ℕ)
            → e ≡ LimitPassed code count → (code ≡ 11) × IsFull w) }
        ensures clients { self.new.clients ≡ self.old.clients }
        ensures only { IfErr result (λ e. e ≢ DepotFailed) }
    {
        if self.owner(table_in(message)) == store {
            return self.take(store, from, message);
        }
        self.only(Answer::Done)
    }

    fn take(&mut self, store: StoreNo, from: Node, message: &Message) -> Result<Told, WorldFault>
        requires held { (w : AWorld) × Holds D.state w self.old × FitsIn w message.now }
        requires up { is_up_at self.old.store store ≡ true }
        requires owner { owner_at self.old.store.tables (table_of (message_of message.now)) ≡ store }
        ensures done { (w : AWorld) → Holds D.state w self.old → FitsIn w message.now → Comes D.state w
            (λ lucks. to_hosted w (table_of (message_of message.now)) (Take from (message_of message.now)) lucks.calls
            (hosted_at w (table_of (message_of message.now)))) result self.new }
        ensures counted { AreCounted D.state result self.old self.new }
        ensures rows { (w : AWorld) → Holds D.state w self.old → FitsIn w message.now → IfOk result (λ told.
            AreLeftOver D.state D.images w (move_table (table_of (message_of message.now))
            (Take from (message_of message.now)) w).world self.old.store.tables self.new.store.tables) }
        ensures left { (w : AWorld) → Holds D.state w self.old
            → IfErr result (λ e. e ≢ Memory → IsStill D.state w self.old self.new) }
        ensures limit { (w : AWorld) → Holds D.state w self.old → IfErr result (λ e. (code count : ℕ)
            → e ≡ LimitPassed code count → (code ≡ 11) × IsFull w) }
        ensures clients { self.new.clients ≡ self.old.clients }
        ensures only { IfErr result (λ e. e ≢ DepotFailed) }
    {
        let is_held = self.is_held(Node::Store(store));
        let answer = take(&mut self.store, store, is_held, from, message)?;
        self.tell(answer)
    }
}
