//! What is done to a node: its next write, all its writes, a crash, a start.
ghost use Rattle.std.specs.Prelude.{◌≡◌, ℕ, true, false, IsSome, IfOk, IfErr};
ghost use Rattle.std.specs.Ordering.{nat_cmp};
ghost use Rattle.std.specs.BTreeMap as tree;
ghost use Rattle.stab_base.specs.declared.node.Node.TheVariants as nodes;
ghost use Rattle.step_tables.specs.Lines.{answer_of};
ghost use Rattle.table_model.specs.declared.event.Event.TheVariants as events;
ghost use Rattle.world_tables.specs.World.{World as AWorld, step, worked, all_worked, crashed, started};
ghost use Rattle.world_tables.specs.Faults.{is_device_fault, fails_crash};
ghost use Rattle.world_tables.specs.Passed.{started_at, first_part};
ghost use Rattle.store_host.specs.Holds.{AreLeft, is_up_at};
ghost use Rattle.node_steps.specs.declared.fault.WorldFault.TheVariants.{Memory};
ghost use Rattle.node_steps.specs.Calls.{Comes, HasTold};
ghost use Rattle.node_steps.specs.Faults.{AreCounted, ComesCounted};
ghost use Rattle.node_steps.specs.Holds.{Holds, IsUpStore};
ghost use Rattle.node_steps.specs.Steps.{HavePlansBelow};
ghost use Rattle.node_steps.specs.Rows.{ComesLeft};

use crate::fault::WorldFault;
use crate::moves::{crash, start, work_all, work_once};
use crate::told::{Outs, Told};
use crate::world::World;
use disk_trait::Disk;
use stab_base::{Node, Step, StoreNo};
use table_model::Answer;

impl<D: Disk + Drop> World<D> {
    /// An answer, and then what the Stores told and sent.
    pub(crate) fn tell(&mut self, answer: Answer) -> Result<Told, WorldFault>
        ensures told { IfOk result (λ told. HasTold self.old self.new (answer_of answer) told) }
        ensures clients { self.new.clients ≡ self.old.clients }
        ensures memory { IfErr result (λ e. e ≡ Memory) }
    {
        let lines = self.answer_line(answer)?;
        let outs = Outs::OfStore(self.store.take_outs());
        Ok(Told { lines, outs })
    }

    /// The node does its next device write.
    pub(crate) fn work(&mut self, node: Node) -> Result<Told, WorldFault>
        requires held { (w : AWorld) × Holds D.state w self.old }
        ensures done { (w : AWorld) → Holds D.state w self.old
            → Comes D.state w (step w (events.Work node)) result self.new }
        ensures counted { AreCounted D.state result self.old self.new }
        ensures rows { (w : AWorld) → Holds D.state w self.old → IfOk result (λ told.
            AreLeft D.state D.images w self.old.store.tables self.new.store.tables) }
        ensures plans { (n : ℕ) → HavePlansBelow D.state n self.old → HavePlansBelow D.state n self.new }
        ensures memory { IfErr result (λ e. e ≡ Memory) }
    {
        if self.is_down(node) {
            return self.refuse(node);
        }
        self.work_up(node)
    }

    // A gateway has no devices.
    fn work_up(&mut self, node: Node) -> Result<Told, WorldFault>
        requires held { (w : AWorld) × Holds D.state w self.old }
        requires up { IsUpStore self.old.store node }
        ensures done { (w : AWorld) → Holds D.state w self.old
            → Comes D.state w (λ lucks. worked w lucks.calls node) result self.new }
        ensures counted { AreCounted D.state result self.old self.new }
        ensures rows { (w : AWorld) → Holds D.state w self.old → IfOk result (λ told.
            AreLeft D.state D.images w self.old.store.tables self.new.store.tables) }
        ensures plans { (n : ℕ) → HavePlansBelow D.state n self.old → HavePlansBelow D.state n self.new }
        ensures memory { IfErr result (λ e. e ≡ Memory) }
    {
        match node {
            Node::Store(store) => self.work_store(store),
            Node::Client(client) => self.work_client(client),
            Node::Gate(_) => self.only(Answer::Did(Step::Idle)),
        }
    }

    fn work_store(&mut self, store: StoreNo) -> Result<Told, WorldFault>
        requires held { (w : AWorld) × Holds D.state w self.old }
        requires up { is_up_at self.old.store store ≡ true }
        ensures done { (w : AWorld) → Holds D.state w self.old
            → Comes D.state w (λ lucks. worked w lucks.calls (nodes.Store store)) result self.new }
        ensures counted { AreCounted D.state result self.old self.new }
        ensures rows { (w : AWorld) → Holds D.state w self.old → IfOk result (λ told.
            AreLeft D.state D.images w self.old.store.tables self.new.store.tables) }
        ensures clients { self.new.clients ≡ self.old.clients }
        ensures memory { IfErr result (λ e. e ≡ Memory) }
    {
        let answer = work_once(&mut self.store, store)?;
        self.tell(answer)
    }

    /// The node does all its device writes.
    pub(crate) fn work_all(&mut self, node: Node) -> Result<Told, WorldFault>
        requires held { (w : AWorld) × Holds D.state w self.old }
        ensures done { (w : AWorld) → Holds D.state w self.old
            → Comes D.state w (step w (events.WorkAll node)) result self.new }
        ensures counted { AreCounted D.state result self.old self.new }
        ensures rows { (w : AWorld) → Holds D.state w self.old → IfOk result (λ told.
            AreLeft D.state D.images w self.old.store.tables self.new.store.tables) }
        ensures plans { (n : ℕ) → HavePlansBelow D.state n self.old → HavePlansBelow D.state n self.new }
        ensures memory { IfErr result (λ e. e ≡ Memory) }
    {
        if self.is_down(node) {
            return self.refuse(node);
        }
        self.work_all_up(node)
    }

    // A gateway has no devices.
    fn work_all_up(&mut self, node: Node) -> Result<Told, WorldFault>
        requires held { (w : AWorld) × Holds D.state w self.old }
        requires up { IsUpStore self.old.store node }
        ensures done { (w : AWorld) → Holds D.state w self.old
            → Comes D.state w (λ lucks. all_worked w lucks.calls node) result self.new }
        ensures counted { AreCounted D.state result self.old self.new }
        ensures rows { (w : AWorld) → Holds D.state w self.old → IfOk result (λ told.
            AreLeft D.state D.images w self.old.store.tables self.new.store.tables) }
        ensures plans { (n : ℕ) → HavePlansBelow D.state n self.old → HavePlansBelow D.state n self.new }
        ensures memory { IfErr result (λ e. e ≡ Memory) }
    {
        match node {
            Node::Store(store) => self.work_store_all(store),
            Node::Client(client) => self.work_client_all(client),
            Node::Gate(_) => self.only(Answer::Number(0)),
        }
    }

    fn work_store_all(&mut self, store: StoreNo) -> Result<Told, WorldFault>
        requires held { (w : AWorld) × Holds D.state w self.old }
        requires up { is_up_at self.old.store store ≡ true }
        ensures done { (w : AWorld) → Holds D.state w self.old
            → Comes D.state w (λ lucks. all_worked w lucks.calls (nodes.Store store)) result self.new }
        ensures counted { AreCounted D.state result self.old self.new }
        ensures rows { (w : AWorld) → Holds D.state w self.old → IfOk result (λ told.
            AreLeft D.state D.images w self.old.store.tables self.new.store.tables) }
        ensures clients { self.new.clients ≡ self.old.clients }
        ensures memory { IfErr result (λ e. e ≡ Memory) }
    {
        let answer = work_all(&mut self.store, store)?;
        self.tell(answer)
    }

    /// The node stops inside its next device write. A gateway has no devices, and goes on.
    pub(crate) fn crash(&mut self, node: Node, calls: u32, pick: u64) -> Result<Told, WorldFault>
        requires held { (w : AWorld) × Holds D.state w self.old }
        ensures done { (w : AWorld) → Holds D.state w self.old
            → ComesCounted D.state w (step w (events.Crash node calls pick))
            (λ lucks. is_device_fault w (events.Crash node calls pick) lucks) result self.old self.new }
        ensures rows { (w : AWorld) → Holds D.state w self.old → IfOk result (λ told.
            AreLeft D.state D.images w self.old.store.tables self.new.store.tables) }
        ensures plans { (n : ℕ) → HavePlansBelow D.state n self.old → HavePlansBelow D.state n self.new }
        ensures memory { IfErr result (λ e. e ≡ Memory) }
    {
        if self.is_down(node) {
            return self.refuse(node);
        }
        self.crash_up(node, calls, pick)
    }

    fn crash_up(&mut self, node: Node, calls: u32, pick: u64) -> Result<Told, WorldFault>
        requires held { (w : AWorld) × Holds D.state w self.old }
        requires up { IsUpStore self.old.store node }
        ensures done { (w : AWorld) → Holds D.state w self.old
            → ComesCounted D.state w (λ lucks. crashed w calls lucks.calls node)
            (λ lucks. fails_crash w lucks.calls node) result self.old self.new }
        ensures rows { (w : AWorld) → Holds D.state w self.old → IfOk result (λ told.
            AreLeft D.state D.images w self.old.store.tables self.new.store.tables) }
        ensures plans { (n : ℕ) → HavePlansBelow D.state n self.old → HavePlansBelow D.state n self.new }
        ensures memory { IfErr result (λ e. e ≡ Memory) }
    {
        match node {
            Node::Store(store) => self.crash_store(store, calls, pick),
            Node::Client(client) => self.crash_client(client, calls, pick),
            Node::Gate(_) => self.only(Answer::Done),
        }
    }

    fn crash_store(&mut self, store: StoreNo, calls: u32, pick: u64) -> Result<Told, WorldFault>
        requires held { (w : AWorld) × Holds D.state w self.old }
        requires up { is_up_at self.old.store store ≡ true }
        ensures done { (w : AWorld) → Holds D.state w self.old
            → ComesCounted D.state w (λ lucks. crashed w calls lucks.calls (nodes.Store store))
            (λ lucks. fails_crash w lucks.calls (nodes.Store store)) result self.old self.new }
        ensures rows { (w : AWorld) → Holds D.state w self.old → IfOk result (λ told.
            AreLeft D.state D.images w self.old.store.tables self.new.store.tables) }
        ensures clients { self.new.clients ≡ self.old.clients }
        ensures memory { IfErr result (λ e. e ≡ Memory) }
    {
        let answer = crash(&mut self.store, store, calls, pick);
        self.tell(answer)
    }

    /// A node that is down is started; one that is up goes on, and so does a gateway. A Store that isn't declared stays
    /// down.
    pub(crate) fn start(&mut self, node: Node) -> Result<Told, WorldFault>
        requires held { (w : AWorld) × Holds D.state w self.old }
        ensures done { (w : AWorld) → Holds D.state w self.old
            → ComesLeft D.state D.images w (step w (events.Start node)) (first_part w (events.Start node)) result
            self.old self.new }
        ensures counted { AreCounted D.state result self.old self.new }
        ensures plans { (n : ℕ) → HavePlansBelow D.state n self.old → HavePlansBelow D.state n self.new }
        ensures memory { IfErr result (λ e. e ≡ Memory) }
    {
        match node {
            Node::Store(store) => self.start_store(store),
            Node::Client(client) => self.start_client(client),
            Node::Gate(_) => self.only(Answer::Done),
        }
    }

    fn start_store(&mut self, store: StoreNo) -> Result<Told, WorldFault>
        requires held { (w : AWorld) × Holds D.state w self.old }
        ensures done { (w : AWorld) → Holds D.state w self.old
            → ComesLeft D.state D.images w (λ lucks. started w lucks.shape lucks.calls (nodes.Store store))
            (λ lucks. started_at w lucks.calls (nodes.Store store)) result self.old self.new }
        ensures counted { AreCounted D.state result self.old self.new }
        ensures clients { self.new.clients ≡ self.old.clients }
        ensures memory { IfErr result (λ e. e ≡ Memory) }
    {
        if self.store.has_store(store) {
            return self.start_declared(store);
        }
        self.only(Answer::Done)
    }

    fn start_declared(&mut self, store: StoreNo) -> Result<Told, WorldFault>
        requires held { (w : AWorld) × Holds D.state w self.old }
        requires declared { IsSome (tree.get nat_cmp self.old.store.stores store) }
        ensures done { (w : AWorld) → Holds D.state w self.old
            → ComesLeft D.state D.images w (λ lucks. started w lucks.shape lucks.calls (nodes.Store store))
            (λ lucks. started_at w lucks.calls (nodes.Store store)) result self.old self.new }
        ensures counted { AreCounted D.state result self.old self.new }
        ensures clients { self.new.clients ≡ self.old.clients }
        ensures memory { IfErr result (λ e. e ≡ Memory) }
    {
        if self.store.is_up(store) {
            return self.only(Answer::Done);
        }
        self.start_down(store)
    }

    fn start_down(&mut self, store: StoreNo) -> Result<Told, WorldFault>
        requires held { (w : AWorld) × Holds D.state w self.old }
        requires declared { IsSome (tree.get nat_cmp self.old.store.stores store) }
        requires down { is_up_at self.old.store store ≡ false }
        ensures done { (w : AWorld) → Holds D.state w self.old
            → ComesLeft D.state D.images w (λ lucks. started w lucks.shape lucks.calls (nodes.Store store))
            (λ lucks. started_at w lucks.calls (nodes.Store store)) result self.old self.new }
        ensures counted { AreCounted D.state result self.old self.new }
        ensures clients { self.new.clients ≡ self.old.clients }
        ensures memory { IfErr result (λ e. e ≡ Memory) }
    {
        let is_held = self.is_held(Node::Store(store));
        let answer = start(&mut self.store, store, is_held)?;
        self.tell(answer)
    }
}
