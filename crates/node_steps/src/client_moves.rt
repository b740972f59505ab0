//! What is done to a client: its next write, all its writes, a crash, a start, its link.
ghost use Rattle.std.specs.Prelude.{◌≡◌, ◌≢◌, ℕ, true, Some, Ok, IfOk, IfErr};
ghost use Rattle.stab_base.specs.declared.node.Node.TheVariants as nodes;
ghost use Rattle.step_tables.specs.ClientMoves.{Client as AClient};
ghost use Rattle.step_tables.specs.Lines.{answer_of};
ghost use Rattle.table_model.specs.declared.event.Event.TheVariants as events;
ghost use Rattle.table_model.specs.declared.line.Answer.{Answer as AnAnswer};
ghost use Rattle.world_tables.specs.World.{World as AWorld, step, worked, all_worked, crashed, started, is_down};
ghost use Rattle.world_tables.specs.World.{client_at};
ghost use Rattle.world_tables.specs.Faults.{fails_crash};
ghost use Rattle.journal_host.specs.declared.fault.ClientFault.TheVariants as fault;
ghost use Rattle.node_steps.specs.declared.fault.WorldFault.TheVariants.{Memory};
ghost use Rattle.node_steps.specs.Calls.{Comes, HasToldPairs, HasToldClients};
ghost use Rattle.node_steps.specs.Faults.{AreCounted, ComesCounted, all_faults};
ghost use Rattle.node_steps.specs.Holds.{Holds};
ghost use Rattle.node_steps.specs.Steps.{HavePlansBelow};
ghost use Rattle.node_steps.specs.Links.{link_set};

use crate::fault::WorldFault;
use crate::told::{Outs, Told, list};
use crate::world::World;
use client_events::start;
use disk_trait::Disk;
use journal_host::ClientFault;
use row_value::ClientNo;
use stab_base::Node;
use table_model::{Answer, RowPairs};

impl<D: Disk + Drop> World<D> {
    /// An answer, the rows in conflict that it counts, and then what the clients told and sent.
    pub(crate) fn tell_pairs(&mut self, answer: Answer, pairs: RowPairs) -> Result<Told, WorldFault>
        ensures told { IfOk result (λ told.
            HasToldPairs D.state self.old self.new (answer_of answer) pairs told) }
        ensures store { self.new.store ≡ self.old.store }
        ensures nodes { self.new.clients.clients ≡ self.old.clients.clients }
        ensures memory { IfErr result (λ e. e ≡ Memory) }
    {
        let mut lines = self.answer_line(answer)?;
        list(pairs, &mut lines)?;
        let outs = Outs::OfClients(self.clients.take_outs());
        Ok(Told { lines, outs })
    }

    /// An answer, and then what the clients told and sent.
    pub(crate) fn tell_clients(&mut self, answer: Answer) -> Result<Told, WorldFault>
        ensures told { IfOk result (λ told. HasToldClients D.state self.old self.new (answer_of answer) told) }
        ensures store { self.new.store ≡ self.old.store }
        ensures nodes { self.new.clients.clients ≡ self.old.clients.clients }
        ensures memory { IfErr result (λ e. e ≡ Memory) }
    {
        let lines = self.answer_line(answer)?;
        let outs = Outs::OfClients(self.clients.take_outs());
        Ok(Told { lines, outs })
    }

    // The same of an event that needs no number.
    fn end_well(&mut self, found: Result<Answer, ClientFault>) -> Result<Told, WorldFault>
        requires { IfErr found (λ e. e ≡ fault.Memory) }
        ensures told { IfOk result (λ told. (answer : AnAnswer) × (found ≡ Ok answer)
            × HasToldClients D.state self.old self.new (answer_of answer) told) }
        ensures store { self.new.store ≡ self.old.store }
        ensures nodes { self.new.clients.clients ≡ self.old.clients.clients }
        ensures memory { IfErr result (λ e. e ≡ Memory) }
    {
        match found {
            Ok(answer) => self.tell_clients(answer),
            Err(_) => Err(WorldFault::Memory),
        }
    }

    /// The client does its next device write.
    pub(crate) fn work_client(&mut self, client: ClientNo) -> Result<Told, WorldFault>
        requires held { (w : AWorld) × Holds D.state w self.old }
        ensures done { (w : AWorld) → Holds D.state w self.old
            → Comes D.state w (λ lucks. worked w lucks.calls (nodes.Client client)) result self.new }
        ensures counted { AreCounted D.state result self.old self.new }
        ensures store { self.new.store ≡ self.old.store }
        ensures plans { (n : ℕ) → HavePlansBelow D.state n self.old → HavePlansBelow D.state n self.new }
        ensures memory { IfErr result (λ e. e ≡ Memory) }
    {
        let found = self.clients.work(client);
        self.end_well(found)
    }

    /// The client does all its device writes.
    pub(crate) fn work_client_all(&mut self, client: ClientNo) -> Result<Told, WorldFault>
        requires held { (w : AWorld) × Holds D.state w self.old }
        ensures done { (w : AWorld) → Holds D.state w self.old
            → Comes D.state w (λ lucks. all_worked w lucks.calls (nodes.Client client)) result self.new }
        ensures counted { AreCounted D.state result self.old self.new }
        ensures store { self.new.store ≡ self.old.store }
        ensures plans { (n : ℕ) → HavePlansBelow D.state n self.old → HavePlansBelow D.state n self.new }
        ensures memory { IfErr result (λ e. e ≡ Memory) }
    {
        let found = self.clients.work_all(client);
        self.end_well(found)
    }

    /// The client stops inside its next device write.
    pub(crate) fn crash_client(
        &mut self,
        client: ClientNo,
        calls: u32,
        pick: u64,
    ) -> Result<Told, WorldFault>
        requires held { (w : AWorld) × Holds D.state w self.old }
        ensures done { (w : AWorld) → Holds D.state w self.old
            → ComesCounted D.state w (λ lucks. crashed w calls lucks.calls (nodes.Client client))
            (λ lucks. fails_crash w lucks.calls (nodes.Client client)) result self.old self.new }
        ensures store { self.new.store ≡ self.old.store }
        ensures plans { (n : ℕ) → HavePlansBelow D.state n self.old → HavePlansBelow D.state n self.new }
        ensures memory { IfErr result (λ e. e ≡ Memory) }
    {
        self.clients.crash(client, calls, pick);
        self.tell_clients(Answer::Done)
    }

    /// A client that is down is started.
    pub(crate) fn start_client(&mut self, client: ClientNo) -> Result<Told, WorldFault>
        requires held { (w : AWorld) × Holds D.state w self.old }
        ensures done { (w : AWorld) → Holds D.state w self.old
            → Comes D.state w (λ lucks. started w lucks.shape lucks.calls (nodes.Client client)) result self.new }
        ensures counted { AreCounted D.state result self.old self.new }
        ensures store { self.new.store ≡ self.old.store }
        ensures plans { (n : ℕ) → HavePlansBelow D.state n self.old → HavePlansBelow D.state n self.new }
        ensures memory { IfErr result (λ e. e ≡ Memory) }
    {
        let is_held = self.is_held(Node::Client(client));
        let found = start(&mut self.clients, is_held, client);
        self.end_well(found)
    }

    /// The client's link goes up or down.
    pub(crate) fn link(&mut self, client: ClientNo, up: bool) -> Result<Told, WorldFault>
        requires held { (w : AWorld) × Holds D.state w self.old }
        ensures done { (w : AWorld) → Holds D.state w self.old
            → Comes D.state w (step w (events.Link client up)) result self.new }
        ensures counted { AreCounted D.state result self.old self.new }
        ensures store { self.new.store ≡ self.old.store }
        ensures plans { (n : ℕ) → HavePlansBelow D.state n self.old → HavePlansBelow D.state n self.new }
        ensures memory { IfErr result (λ e. e ≡ Memory) }
    {
        let answer = self.clients.link(client, up);
        self.tell_clients(answer)
    }

    /// Takes the link of a client that is up up or down, without an answer. It takes no memory.
    pub fn set_link(&mut self, client: ClientNo, up: bool)
        ensures held { (w : AWorld) (node : AClient) → Holds D.state w self.old → client_at w client ≡ Some node
            → Holds D.state (link_set client up w) self.new }
        ensures store { self.new.store ≡ self.old.store }
        ensures faults { all_faults D.state self.new ≡ all_faults D.state self.old }
        ensures plans { (n : ℕ) → HavePlansBelow D.state n self.old → HavePlansBelow D.state n self.new }
    {
        let _answer = self.clients.link(client, up);
    }
}
