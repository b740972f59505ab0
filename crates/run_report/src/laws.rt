ghost use Rattle.std.specs.Prelude.{◌≡◌, [], ◌∷◌, ◌++◌, ℕ, List, true};
ghost use Rattle.json.specs.Print.{quoted};
ghost use Rattle.run_report.specs.Plain.{is_plain};

/// A name of printed ASCII without quotes and backslashes stands in a report as it is. It has no code: its clause is
/// the law.
pub fn plain_names_stand_as_they_are()
    ensures { (name : List ℕ) → is_plain name ≡ true → quoted name ≡ 34 ∷ (name ++ 34 ∷ []) }
{}
