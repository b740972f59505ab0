//! What is done to a gateway, which has no devices.
ghost use Rattle.std.specs.Prelude.{◌≡◌, ◌≢◌, ◌∷◌, [], ℕ, ◌+◌, map, Bool, true, IfOk, IfErr};
ghost use Rattle.stab_base.specs.declared.node.Node.TheVariants as nodes;
ghost use Rattle.table_model.specs.declared.event.Event.{Event as AnEvent};
ghost use Rattle.table_model.specs.declared.event.Event.TheVariants as events;
ghost use Rattle.disk_trait.specs.Calls.{IsCounted};
ghost use Rattle.gated_tables.specs.Net.{Net};
ghost use Rattle.step_tables.specs.Facts as facts;
ghost use Rattle.step_tables.specs.Facts.{AnswerLine};
ghost use Rattle.step_tables.specs.Lines.{line_of};
ghost use Rattle.node_steps.specs.declared.fault.WorldFault.TheVariants.{Memory, Depot as DepotFailed};
ghost use Rattle.net_steps.specs.Holds.{IsAt};
ghost use Rattle.net_steps.specs.Calls.{Comes, Overruns, IsLimited, Leaves};
ghost use Rattle.net_steps.specs.Steps.{HavePlansBelow, may_begin};
ghost use Rattle.net_steps.specs.declared.kinds.Kind.TheVariants as kinds;
ghost use Rattle.net_steps.specs.declared.kinds.Deed.TheVariants as deeds;
ghost use Rattle.net_steps.specs.Kinds.{kind_of};
ghost use Rattle.net_steps.specs.Alone.{Promises};
ghost use Rattle.net_steps.specs.Handing.{spent_of};
ghost use Rattle.gate_host.specs.Holds.{is_up_at};

use crate::kinds::Deed;
use crate::world::World;
use disk_trait::{Depot, Disk};
use gateway_core::GateFault;
use node_steps::{Lines, WorldFault};
use stab_base::{GateNo, Node, Step};
use table_model::{Answer, Event, Refusal};

/// Why a gateway ends the run.
pub(crate) fn spent_of(fault: GateFault) -> WorldFault
    ensures { result ≡ spent_of fault }
{
    match fault {
        GateFault::Spent { last } => WorldFault::Limit {
            code: 11,
            count: last,
        },
        GateFault::Memory => WorldFault::Memory,
    }
}

impl<D: Disk + Drop> World<D> {
    fn start_gate(&mut self, gate: GateNo) -> Result<Lines, WorldFault>
        ensures promises { (is_out : ℕ → Bool) (n : Net)
            → IsAt D.state is_out (events.Start (nodes.Gate gate)) n self.old
            → Promises D.state D.images n (events.Start (nodes.Gate gate)) is_out result self.old self.new }
        ensures apart { IfErr result (λ e. e ≢ DepotFailed) }
    {
        if let Err(fault) = self.gates.start(gate) {
            return Err(spent_of(fault));
        }
        self.only(Answer::Done)
    }

    // It is up.
    fn crash_gate(&mut self, gate: GateNo) -> Result<Lines, WorldFault>
        requires up { is_up_at self.old.gates gate ≡ true }
        ensures promises { (is_out : ℕ → Bool) (n : Net) (calls : ℕ) (pick : ℕ)
            → IsAt D.state is_out (events.Crash (nodes.Gate gate) calls pick) n self.old
            → Promises D.state D.images n (events.Crash (nodes.Gate gate) calls pick) is_out result self.old self.new }
        ensures apart { IfErr result (λ e. e ≢ DepotFailed) }
    {
        self.gates.crash(gate);
        self.only(Answer::Done)
    }

    // It is down, or not there.
    fn refuse_gate(&self, gate: GateNo) -> Result<Lines, WorldFault>
        ensures lines { IfOk result (λ lines.
            map line_of lines ≡ AnswerLine (facts.Refuses (facts.NodeDown (nodes.Gate gate))) ∷ []) }
        ensures memory { IfErr result (λ e. e ≡ Memory) }
    {
        let node = Node::Gate(gate);
        self.only(Answer::Refused(Refusal::Down { node }))
    }

    // What takes no disk.
    fn do_alone(&mut self, gate: GateNo, deed: Deed) -> Result<Lines, WorldFault>
        requires { deed ≢ deeds.Hold }
        ensures promises { (is_out : ℕ → Bool) (event : AnEvent) (n : Net) → kind_of event ≡ kinds.Gate gate deed
            → IsAt D.state is_out event n self.old
            → Promises D.state D.images n event is_out result self.old self.new }
        ensures apart { IfErr result (λ e. e ≢ DepotFailed) }
    {
        if let Deed::Start = deed {
            return self.start_gate(gate);
        }
        if !self.gates.is_up(gate) {
            return self.refuse_gate(gate);
        }
        match deed {
            Deed::Work => self.only(Answer::Did(Step::Idle)),
            Deed::WorkAll => self.only(Answer::Number(0)),
            Deed::Crash => self.crash_gate(gate),
            Deed::Hold | Deed::Start => unreachable!(),
        }
    }

    fn hold_gate<P: Depot<Disk = D>>(
        &mut self,
        depot: &mut P,
        event: &Event,
        gate: GateNo,
    ) -> Result<Lines, WorldFault>
        requires kind { kind_of event.now ≡ kinds.Gate gate deeds.Hold }
        requires held { (n : Net) × IsAt D.state (P.state depot.old).is_out event.now n self.old }
        ensures promises { (n : Net) → IsAt D.state (P.state depot.old).is_out event.now n self.old
            → Promises D.state D.images n event.now (P.state depot.new).is_out result self.old self.new }
        ensures depot { IsCounted DepotFailed (P.state depot.old).faults (P.state depot.new).faults result }
    {
        if !self.gates.is_up(gate) {
            return self.refuse_gate(gate);
        }
        self.carry_out(depot, event)
    }

    /// Something is done to a gateway. One that is down, or isn't declared, is only started.
    pub(crate) fn do_to_gate<P: Depot<Disk = D>>(
        &mut self,
        depot: &mut P,
        event: &Event,
        gate: GateNo,
        deed: Deed,
    ) -> Result<Lines, WorldFault>
        requires kind { kind_of event.now ≡ kinds.Gate gate deed }
        requires held { (n : Net) × IsAt D.state (P.state depot.old).is_out event.now n self.old }
        ensures done { (n : Net) → IsAt D.state (P.state depot.old).is_out event.now n self.old
            → Comes D.state D.images n event.now (P.state depot.new).is_out result self.old self.new }
        ensures over { (n : Net) → IsAt D.state (P.state depot.old).is_out event.now n self.old
            → Overruns D.state D.images n event.now (P.state depot.new).is_out result self.old self.new }
        ensures limit { (n : Net) (m : ℕ) → IsAt D.state (P.state depot.old).is_out event.now n self.old
            → HavePlansBelow D.state m self.old → IsLimited m n event.now result }
        ensures plans { (n : Net) (m : ℕ) → IsAt D.state (P.state depot.old).is_out event.now n self.old
            → HavePlansBelow D.state m self.old → HavePlansBelow D.state (may_begin n event.now + m) self.new }
        ensures left { (n : Net) → IsAt D.state (P.state depot.old).is_out event.now n self.old
            → Leaves D.state n event.now (P.state depot.new).is_out result self.old self.new }
        ensures depot { IsCounted DepotFailed (P.state depot.old).faults (P.state depot.new).faults result }
    {
        match deed {
            Deed::Hold => self.hold_gate(depot, event, gate),
            other => self.do_alone(gate, other),
        }
    }
}
