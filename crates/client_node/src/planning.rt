//! How a plan of a row is taken on.
ghost use Rattle.std.specs.Prelude.{◌≡◌, ◌⊎◌, [], IfOk, IfErr};
ghost use Rattle.stab_base.specs.declared.limits.TheConstants.{NUMBER_MAX};
ghost use Rattle.client_journal.specs.NamedSlots.{IsAtRest};
ghost use Rattle.client_journal.specs.Plan.{IsPlan};
ghost use Rattle.client_journal.specs.Standing.{devs as held_by, writes_of, AreUp, IsReady};
ghost use Rattle.client_node.specs.Answers.{IsFault};
ghost use Rattle.client_node.specs.Begins.{BeginsPlan};
ghost use Rattle.client_node.specs.Looks.{Serves};
ghost use Rattle.client_node.specs.Readied.{begins};
ghost use Rattle.client_node.specs.declared.owed.When.TheVariants.{AtCommit};

use crate::fault::CallFault;
use crate::owed::{Owed, When};
use client_journal::{Journal, Plan};
use disk_trait::Disk;
use step_tables::Addressed;
use table_model::Fact;

/// A plan, with what it tells at its commit and sends at its end.
#[derive(Drop)]
pub(crate) struct Planned {
    pub(crate) plan: Plan,
    pub(crate) facts: Vec<Fact>,
    pub(crate) messages: Vec<Addressed>,
}

/// What a message comes to: nothing, messages that are sent at once, or a plan.
#[derive(Drop)]
pub(crate) enum Reaction {
    Nothing,
    Sends(Vec<Addressed>),
    Begins(Planned),
}

/// A plan, if there is one, as what a message comes to.
pub(crate) fn begins(found: Option<Planned>) -> Reaction
    ensures { result ≡ begins found }
{
    match found {
        None => Reaction::Nothing,
        Some(planned) => Reaction::Begins(planned),
    }
}

/// Takes a plan on.
pub(crate) fn begin<D: Disk + Drop>(
    devs: &mut Journal<D>,
    planned: Planned,
) -> Result<Owed, CallFault>
    requires up { AreUp devs.old }
    requires idle { writes_of devs.old ≡ [] }
    requires ready { IsReady D.state devs.old (writes_of devs.old) }
    requires rests { IsAtRest (held_by D.state devs.old) }
    requires plan { IsPlan (held_by D.state devs.old) planned.plan }
    ensures serves { Serves D.state D.images devs.old devs.new result }
    ensures begins { IfOk result (λ owed. BeginsPlan D.state devs.old devs.new planned.plan) }
    ensures when { IfOk result (λ owed. owed.when ≡ AtCommit) }
    ensures facts { IfOk result (λ owed. owed.facts.items ≡ planned.facts.items) }
    ensures messages { IfOk result (λ owed. owed.messages.items ≡ planned.messages.items) }
    ensures refused { IfErr result (λ e. ((e ≡ CallFault.Spent NUMBER_MAX)
        × ((held_by D.state devs.old).journal.greatest ≡ NUMBER_MAX)) ⊎ IsFault e) }
{
    let Planned {
        plan,
        facts,
        messages,
    } = planned;
    devs.begin(plan)?;
    Ok(Owed {
        when: When::AtCommit,
        facts,
        messages,
    })
}
