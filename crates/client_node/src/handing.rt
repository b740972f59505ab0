//! How what is owed is gathered once a write is done.
ghost use Rattle.std.specs.Prelude.{◌≡◌, ◌++◌, map, length, false};
ghost use Rattle.step_tables.specs.Travels.{send_of};
ghost use Rattle.gathering.specs.Room.{HasRoom};
ghost use Rattle.step_tables.specs.Lines.{fact_of};
ghost use Rattle.client_node.specs.Due.{is_due, told_at, left_at, sent_at};
ghost use Rattle.client_node.specs.Node.{facts_owed, sends_owed};

use crate::owed::{Owed, When};
use gathering::Gathered;
use stab_base::Step;
use step_tables::Addressed;
use table_model::Fact;

/// Whether a write of this name tells what is owed.
pub(crate) fn is_due(when: When, step: Step, is_last: bool) -> bool
    ensures { result ≡ is_due when step is_last }
{
    match when {
        When::AtCommit => match step {
            Step::Commit => true,
            _ => false,
        },
        When::AtEnd => is_last,
    }
}

/// Gathers what a write tells. It takes no memory.
pub(crate) fn tell(facts: &mut Gathered<Fact>, owed: &mut Owed, step: Step, is_last: bool)
    requires { HasRoom facts.old (length owed.old.facts.items) }
    ensures told { map fact_of facts.new.items.items
        ≡ map fact_of facts.old.items.items ++ told_at owed.old.when (facts_owed owed.old) step is_last }
    ensures left { facts_owed owed.new ≡ left_at owed.old.when (facts_owed owed.old) step is_last }
    ensures room { HasRoom facts.new (length owed.new.facts.items) }
    ensures when { owed.new.when ≡ owed.old.when }
    ensures messages { owed.new.messages ≡ owed.old.messages }
{
    if is_due(owed.when, step, is_last) {
        facts.put_all(&mut owed.facts);
    }
}

/// Gathers what a write sends. It takes no memory.
pub(crate) fn send(messages: &mut Gathered<Addressed>, owed: &mut Owed, is_last: bool)
    requires { HasRoom messages.old (length owed.old.messages.items) }
    ensures sent { map send_of messages.new.items.items
        ≡ map send_of messages.old.items.items ++ sent_at (sends_owed owed.old) is_last }
    ensures left { is_last ≡ false → owed.new.messages ≡ owed.old.messages }
    ensures room { HasRoom messages.new (length owed.new.messages.items) }
    ensures when { owed.new.when ≡ owed.old.when }
    ensures facts { owed.new.facts ≡ owed.old.facts }
{
    if is_last {
        messages.put_all(&mut owed.messages);
    }
}
