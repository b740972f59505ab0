ghost use Rattle.std.specs.Prelude.{◌≡◌, ◌≤◌, ◌+◌, ◌*◌, ◌++◌, ◌∷◌, ℕ, List, length};
ghost use Rattle.std.specs.List.{AllByRecursion};
ghost use Rattle.load_script.specs.Script.{start, groups, script_of, IsShort};

/// The groups of a number's script, one behind the other, are the whole script, of 4,000 rounds; and nothing follows
/// the last one. (Does nothing: its clause is a law.)
pub fn groups_are_the_script()
    ensures { (number first last : ℕ) (sent more : List ℕ) → length sent ≡ 4000
        → groups (start number) (first ∷ (sent ++ last ∷ more)) ≡ script_of number sent }
{}

/// No line of a script is longer than 62 bytes, and a round has six lines at most: with the 69 declarations and the
/// end a script has up to 24,070 lines. (Does nothing: its clauses are laws.)
pub fn lines_are_short_and_few()
    ensures short { (number : ℕ) (sent : List ℕ) → AllByRecursion IsShort (script_of number sent) }
    ensures few { (number : ℕ) (sent : List ℕ) → length (script_of number sent) ≤ 70 + 6 * length sent }
{}
