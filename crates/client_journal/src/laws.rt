//! What a plan and a recovery leave at every moment.
ghost use Rattle.std.specs.Prelude.{◌≡◌, ℕ, List};
ghost use Rattle.held_value.specs.declared.local_name.LocalName.{LocalName};
ghost use Rattle.slot_store.specs.Data.{SlotData};
ghost use Rattle.plan_log.specs.declared.plan.Intend.{Intend};
ghost use Rattle.plan_log.specs.declared.plan.Commit.{Commit};
ghost use Rattle.client_journal.specs.Devs.{ClientDevs};
ghost use Rattle.client_journal.specs.Redone.{applied, redone};
ghost use Rattle.client_journal.specs.NamedSlots.{NamedSlots, IsAtRest};
ghost use Rattle.client_journal.specs.Agenda.{plan_writes, Commits, meaning_with, IsMoment, Runs, recovery_writes};
ghost use Rattle.client_journal.specs.Agenda.{IsRedoing, AreLeftovers};

/// Before and behind each write of a plan, the devices have named slots, and they stand for what was held before the
/// plan until its commit was put, and for all that it makes of it from then on. Behind the last nothing is at work.
/// (Does nothing: its clauses are laws.)
pub fn plans_are_whole()
    ensures moments { (meaning : LocalName → List ℕ) (d : ClientDevs) (intend : Intend) (brought : List (List ℕ))
        (commit : Commit)
        → NamedSlots meaning d → IsAtRest d → Commits d intend brought commit
        → Runs (IsMoment (meaning_with meaning commit.plan brought) d.held commit) d
        (plan_writes d.held intend brought commit) }
{}

/// Before and behind each write of a recovery, the devices have named slots, and they stand for what they stood for at
/// its start. Behind the last nothing is at work. (Does nothing: its clauses are laws.)
pub fn redoing_is_whole()
    ensures moments { (meaning : LocalName → List ℕ) (d : ClientDevs) (names : List LocalName) → NamedSlots meaning d
        → AreLeftovers d names
        → Runs (IsRedoing meaning (redone d)) d (recovery_writes d names) }
{}

/// A commit that is applied once more changes nothing. (Does nothing: its clause is a law.)
pub fn applied_twice_is_once()
    ensures { (commit : Commit) (held : SlotData) → applied commit (applied commit held) ≡ applied commit held }
{}
