//! What every decision keeps, as laws.
ghost use Rattle.std.specs.Prelude.{◌≡◌, ◌≢◌, ◌<◌, ℕ};
ghost use Rattle.row_value.specs.declared.schema.Scheme.{Scheme};
ghost use Rattle.row_value.specs.declared.schema.Scheme.TheVariants.{Eventual};
ghost use Rattle.schemes.specs.declared.decision.Decision.TheVariants.{Accept, Again, Late};
ghost use Rattle.schemes.specs.Decide.{decision_of};

/// What is accepted has a number above each one of the client that was accepted on the row. (Does nothing: its clause
/// is a law.)
pub fn accepted_writes_are_new()
    ensures { (scheme : Scheme) (base current : ℕ) (last : ℕ × ℕ) (number : ℕ)
        → decision_of scheme base current last number ≡ Accept → last.0 < number }
{}

/// What is accepted in a strong or a causal table rests on the row's version. (Does nothing: its clause is a law.)
pub fn accepted_writes_rest_on_current()
    ensures { (scheme : Scheme) (base current : ℕ) (last : ℕ × ℕ) (number : ℕ)
        → decision_of scheme base current last number ≡ Accept → scheme ≢ Eventual → base ≡ current }
{}

/// Once a write was accepted, each repeat of it is answered by its version, and each earlier write of the client on the
/// row by its number, whatever they rest on. (Does nothing: its clauses are laws.)
pub fn repeats_are_told()
    ensures again { (scheme : Scheme) (base current number version : ℕ)
        → decision_of scheme base current (number, version) number ≡ Again version }
    ensures late { (scheme : Scheme) (base current number version earlier : ℕ)
        → earlier < number → decision_of scheme base current (number, version) earlier ≡ Late number }
{}
