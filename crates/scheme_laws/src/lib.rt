//! What the decision on a write keeps of a table's history, as laws.
#![tactic(auto)]

ghost use Rattle.std.specs.Prelude.{◌≡◌, ◌<◌, ℕ, List, All};
ghost use Rattle.row_value.specs.declared.schema.Scheme.{Scheme};
ghost use Rattle.table_model.specs.declared.entry.Entry.{Entry};
ghost use Rattle.table_model.specs.Allowed.{IsAllowed};
ghost use Rattle.table_model.specs.History.{current};
ghost use Rattle.schemes.specs.declared.decision.Decision.TheVariants.{Accept};
ghost use Rattle.schemes.specs.Decide.{decision_of};
ghost use Rattle.scheme_laws.specs.Requests.{IsRising, RestsOn, IsLast};

/// What is accepted is an entry that the scheme allows behind the history, where versions rise along the history and
/// the request is one that the scheme's clients make. (Does nothing: its clause is a law.)
pub fn what_is_accepted_is_allowed()
    ensures { (scheme : Scheme) (history : List Entry) (entry : Entry) (read : ℕ) (last : ℕ × ℕ)
        → IsRising history → RestsOn scheme history entry read
        → decision_of scheme entry.base (current history entry.row) last entry.number ≡ Accept
        → IsAllowed scheme history entry read }
{}

/// What is accepted has a number above each write of the client that stands in the history on the row: no write has two
/// entries there. (Does nothing: its clause is a law.)
pub fn no_repeat_is_accepted()
    ensures { (scheme : Scheme) (history : List Entry) (entry : Entry) (now : ℕ) (last : ℕ × ℕ)
        → IsLast history entry last → decision_of scheme entry.base now last entry.number ≡ Accept
        → All (λ before. before.row ≡ entry.row → before.client ≡ entry.client → before.number < entry.number) history }
{}
