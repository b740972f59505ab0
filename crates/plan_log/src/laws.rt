//! What payloads say, and what journals make of it, as laws.
ghost use Rattle.std.specs.Prelude.{◌≡◌, ◌<◌, ◌≤◌, ℕ, List, [], ◌∷◌};
ghost use Rattle.stab_base.specs.Codec.{IsBytes};
ghost use Rattle.plan_log.specs.declared.plan.Intend.{Intend};
ghost use Rattle.plan_log.specs.declared.plan.Commit.{Commit};
ghost use Rattle.plan_log.specs.Spelling.{IsPlan, HasIntend, intend_payload, HasCommit, commit_payload, done_payload};
ghost use Rattle.plan_log.specs.Reading.{said_by, SaysIntend, SaysCommit, SaysDone};
ghost use Rattle.plan_log.specs.Journal.{nothing_planned, intended, committed, rested, journal_of, IsSound};

/// What a payload of a journal says is an intend, a commit or the end of a plan whose one payload it is. (Does nothing:
/// its clauses are laws.)
pub fn plans_have_one_payload()
    // A plan's number is from 1 to the limit of numbers, a table's from 1 to 64.
    ensures intend { (x : Intend) → HasIntend x → said_by (intend_payload x) ≡ SaysIntend x }
    ensures only_intend { (payload : List ℕ) (x : Intend) → IsBytes payload → said_by payload ≡ SaysIntend x
        → HasIntend x × (payload ≡ intend_payload x) }
    ensures commit { (x : Commit) → HasCommit x → said_by (commit_payload x) ≡ SaysCommit x }
    ensures only_commit { (payload : List ℕ) (x : Commit) → IsBytes payload → said_by payload ≡ SaysCommit x
        → HasCommit x × (payload ≡ commit_payload x) }
    ensures done { (plan : ℕ) → IsPlan plan → said_by (done_payload plan) ≡ SaysDone plan }
    ensures only_done { (payload : List ℕ) (plan : ℕ) → IsBytes payload → said_by payload ≡ SaysDone plan
        → IsPlan plan × (payload ≡ done_payload plan) }
{}

/// What is at work behind a few payloads. (Does nothing: its clauses are laws.)
pub fn journals_follow_their_payloads()
    ensures empty { journal_of [] ≡ nothing_planned }
    ensures intend { (x : Intend) → HasIntend x → journal_of (intend_payload x ∷ []) ≡ intended x }
    // A commit needs no intend, and stands in place of that of its plan.
    ensures commit { (x : Commit) → HasCommit x → journal_of (commit_payload x ∷ []) ≡ committed x }
    ensures both { (x : Intend) (y : Commit) → HasIntend x → HasCommit y → x.plan ≡ y.plan
        → journal_of (intend_payload x ∷ commit_payload y ∷ []) ≡ committed y }
    ensures done { (x : Commit) → HasCommit x
        → journal_of (commit_payload x ∷ done_payload x.plan ∷ []) ≡ rested x.plan }
    // What comes behind a greater plan is passed over, and so is the end of a plan that isn't committed.
    ensures older { (x y : Intend) → HasIntend x → HasIntend y → y.plan ≤ x.plan
        → journal_of (intend_payload x ∷ intend_payload y ∷ []) ≡ intended x }
    ensures older_commit { (x : Intend) (y : Commit) → HasIntend x → HasCommit y → y.plan < x.plan
        → journal_of (intend_payload x ∷ commit_payload y ∷ []) ≡ intended x }
    ensures not_committed { (x : Intend) (plan : ℕ) → HasIntend x → IsPlan plan
        → journal_of (intend_payload x ∷ done_payload plan ∷ []) ≡ intended x }
    // Whatever the payloads are, the plan at work is the greatest, and that is within the limit of numbers.
    ensures sound { (payloads : List (List ℕ)) → IsSound (journal_of payloads) }
{}
