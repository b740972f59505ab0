//! Nodes on hold, and nodes that are down.
ghost use Rattle.std.specs.Prelude.{◌≡◌, ◌∷◌, [], false, map, IfOk, IfErr};
ghost use Rattle.step_tables.specs.Facts as moves;
ghost use Rattle.step_tables.specs.Facts.{AnswerLine};
ghost use Rattle.step_tables.specs.Lines.{answer_of, line_of};
ghost use Rattle.table_model.specs.declared.event.Event.TheVariants as events;
ghost use Rattle.world_tables.specs.World.{World as AWorld, step, is_down, has_node, answered, without_node};
ghost use Rattle.node_steps.specs.declared.fault.WorldFault.TheVariants.{Memory};
ghost use Rattle.node_steps.specs.Calls.{Comes};
ghost use Rattle.node_steps.specs.Holds.{Holds, IsUpStore};
ghost use Rattle.node_steps.specs.Told.{IsOnly};

use crate::fault::WorldFault;
use crate::told::{Lines, Told, only_lines};
use crate::world::World;
use disk_trait::Disk;
use row_value::Sequence;
use stab_base::Node;
use table_model::{Answer, Refusal, TextLine};

impl<D: Disk + Drop> World<D> {
    // The line of an answer.
    pub(crate) fn answer_line(&self, answer: Answer) -> Result<Lines, WorldFault>
        ensures line { IfOk result (λ lines. map line_of lines ≡ AnswerLine (answer_of answer) ∷ []) }
        ensures memory { IfErr result (λ e. e ≡ Memory) }
    {
        let mut lines = Sequence::new(self.alloc);
        lines.push(TextLine::Answer(answer))?;
        Ok(lines)
    }

    // An answer alone.
    pub(crate) fn only(&self, answer: Answer) -> Result<Told, WorldFault>
        ensures lines { IfOk result (IsOnly (AnswerLine (answer_of answer) ∷ [])) }
        ensures memory { IfErr result (λ e. e ≡ Memory) }
    {
        let lines = self.answer_line(answer)?;
        Ok(only_lines(lines))
    }

    // Nothing.
    pub(crate) fn silent(&self) -> Told
        ensures { IsOnly [] result }
    {
        only_lines(Sequence::new(self.alloc))
    }

    /// That the node is down.
    pub(crate) fn refuse(&self, node: Node) -> Result<Told, WorldFault>
        ensures lines { IfOk result (IsOnly (AnswerLine (moves.Refuses (moves.NodeDown node)) ∷ [])) }
        ensures memory { IfErr result (λ e. e ≡ Memory) }
    {
        self.only(Answer::Refused(Refusal::Down { node }))
    }

    /// Whether the node is down, or a Store that isn't declared. A gateway never is.
    pub fn is_down(&self, node: Node) -> bool
        ensures up { result ≡ false → IsUpStore self.now.store node }
        ensures held { (w : AWorld) → Holds D.state w self.now → result ≡ is_down w node }
    {
        match node {
            Node::Store(store) => !self.store.is_up(store),
            Node::Client(client) => self.clients.is_down(client),
            Node::Gate(_) => false,
        }
    }

    pub(crate) fn is_held(&self, node: Node) -> bool
        ensures { (w : AWorld) → Holds D.state w self.now → result ≡ has_node w.holds node }
    {
        self.held.has(node)
    }

    /// From now on the node does its device writes only where a line says so.
    pub(crate) fn hold(&mut self, node: Node) -> Result<Told, WorldFault>
        ensures done { (w : AWorld) → Holds D.state w self.old
            → Comes D.state w (step w (events.Hold node)) result self.new }
        ensures same { self.new.store ≡ self.old.store }
        ensures clients { self.new.clients ≡ self.old.clients }
        ensures memory { IfErr result (λ e. e ≡ Memory) }
    {
        if self.is_down(node) {
            return self.refuse(node);
        }
        self.hold_up(node)
    }

    fn hold_up(&mut self, node: Node) -> Result<Told, WorldFault>
        ensures done { (w : AWorld) → Holds D.state w self.old
            → Comes D.state w (λ lucks. answered (record w { holds = node ∷ w.holds }) moves.Done) result self.new }
        ensures same { self.new.store ≡ self.old.store }
        ensures clients { self.new.clients ≡ self.old.clients }
        ensures memory { IfErr result (λ e. e ≡ Memory) }
    {
        self.held.add(node)?;
        self.only(Answer::Done)
    }

    /// From now on the node does its device writes by itself.
    pub(crate) fn free(&mut self, node: Node) -> Result<Told, WorldFault>
        ensures done { (w : AWorld) → Holds D.state w self.old
            → Comes D.state w (step w (events.Free node)) result self.new }
        ensures same { self.new.store ≡ self.old.store }
        ensures clients { self.new.clients ≡ self.old.clients }
        ensures memory { IfErr result (λ e. e ≡ Memory) }
    {
        if self.is_down(node) {
            return self.refuse(node);
        }
        self.free_up(node)
    }

    fn free_up(&mut self, node: Node) -> Result<Told, WorldFault>
        ensures done { (w : AWorld) → Holds D.state w self.old → Comes D.state w
            (λ lucks. answered (record w { holds = without_node w.holds node }) moves.Done) result self.new }
        ensures same { self.new.store ≡ self.old.store }
        ensures clients { self.new.clients ≡ self.old.clients }
        ensures memory { IfErr result (λ e. e ≡ Memory) }
    {
        self.held.remove(node);
        self.only(Answer::Done)
    }
}
