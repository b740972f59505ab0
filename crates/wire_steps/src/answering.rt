//! Answers, and what the nodes tell where something is handed to them.
ghost use Rattle.std.specs.Prelude.{◌≡◌, ◌∷◌, [], ℕ, suc, map, IfOk, IfErr};
ghost use Rattle.step_tables.specs.Facts.{AnswerLine};
ghost use Rattle.step_tables.specs.Lines.{line_of, answer_of};
ghost use Rattle.step_tables.specs.Travels.{message_of};
ghost use Rattle.wire_tables.specs.Wire.{spread};
ghost use Rattle.node_steps.specs.declared.fault.WorldFault.TheVariants.{Memory};
ghost use Rattle.wire_steps.specs.Steps.{HavePlansBelow};
ghost use Rattle.wire_steps.specs.Sending.{IsToTell, IsTold, IsSendFault, IsOverFault};
ghost use Rattle.node_steps.specs.Steps.{SpendsNumber};
ghost use Rattle.wire_steps.specs.Calls.{Comes, Ends, IsLimited, IsLimitedBy, IsToCarry, IsToPull, bring_step};
ghost use Rattle.wire_steps.specs.Calls.{pull_step};

use crate::sending::tell_outs;
use crate::world::World;
use disk_trait::Disk;
use node_steps::{Lines, Told, WorldFault};
use stab_base::{ClientNo, Node, RowId, Sequence, TableNo};
use step_tables::Message;
use table_model::{Answer, TextLine};

impl<D: Disk + Drop> World<D> {
    /// An answer alone.
    pub(crate) fn only(&self, answer: Answer) -> Result<Lines, WorldFault>
        ensures lines { IfOk result (λ lines. map line_of lines ≡ AnswerLine (answer_of answer) ∷ []) }
        ensures memory { IfErr result (λ e. e ≡ Memory) }
    {
        let mut lines = Sequence::new(self.alloc);
        lines.push(TextLine::Answer(answer))?;
        Ok(lines)
    }

    /// What the nodes told, as lines. What they sent goes in parts.
    pub(crate) fn tell(&mut self, told: Told) -> Result<Lines, WorldFault>
        requires told { IsToTell D.state self.old told }
        ensures told { (x : IsToTell D.state self.old told)
            → IfOk result (λ lines. IsTold D.state x.kept x.s lines self.new) }
        ensures over { (x : IsToTell D.state self.old told)
            → IfErr result (IsOverFault (spread x.kept x.s).wire.packets) }
        ensures nodes { self.new.nodes ≡ self.old.nodes }
        ensures only { IfErr result IsSendFault }
    {
        let Told { mut lines, outs } = told;
        tell_outs(&self.nodes, &mut self.network, outs, &mut lines)?;
        Ok(lines)
    }

    /// Hands a message to the node it is for.
    pub(crate) fn bring(
        &mut self,
        from: Node,
        to: Node,
        message: Message,
    ) -> Result<Lines, WorldFault>
        requires carried { IsToCarry D.state self.old from to (message_of message) }
        ensures done { (x : IsToCarry D.state self.old from to (message_of message))
            → Comes D.state D.images x.kept (bring_step x.kept from to (message_of message)) result self.old self.new }
        ensures ends { (x : IsToCarry D.state self.old from to (message_of message))
            → Ends D.state D.images x.kept (bring_step x.kept from to (message_of message)) result self.old self.new }
        ensures limit { (x : IsToCarry D.state self.old from to (message_of message)) (n : ℕ)
            → HavePlansBelow D.state n self.old → IsLimited n x.kept.world result }
        ensures plans { (n : ℕ) → HavePlansBelow D.state n self.old → HavePlansBelow D.state (suc n) self.new }
    {
        let told = self.nodes.carry(from, to, message)?;
        self.tell(told)
    }

    /// A client tells rows as torn, and asks for rows whole; where it asks for none, for the next change.
    pub(crate) fn pull_rows(
        &mut self,
        client: ClientNo,
        table: TableNo,
        tears: Sequence<RowId>,
        asks: Sequence<RowId>,
    ) -> Result<Lines, WorldFault>
        requires held { IsToPull D.state self.old }
        requires none { asks ≡ [] → tears ≡ [] }
        ensures done { (x : IsToPull D.state self.old)
            → Comes D.state D.images x.kept (pull_step x.kept client table tears asks) result self.old self.new }
        ensures ends { (x : IsToPull D.state self.old)
            → Ends D.state D.images x.kept (pull_step x.kept client table tears asks) result self.old self.new }
        ensures limit { (x : IsToPull D.state self.old) (n : ℕ)
            → HavePlansBelow D.state n self.old → IsLimitedBy (SpendsNumber n x.kept.world client) result }
        ensures plans { (n : ℕ) → HavePlansBelow D.state n self.old → HavePlansBelow D.state (suc n) self.new }
    {
        let told = self.nodes.pull(client, table, tears, asks)?;
        self.tell(told)
    }
}
