//! Which rows a start takes as not there, computed over small devices.
ghost use Rattle.std.specs.Prelude.{◌≡◌, [], ◌∷◌, None};
ghost use Rattle.row_value.specs.declared.pieces.PieceContent.TheVariants.{Gone};
ghost use Rattle.store_commit.specs.There.{hidden_rows};
ghost use Rattle.store_commit.specs.Small.{first, last, later, absent, row, one, two, small, small_with};

/// Each case hides its row, alone and with another one, and no other row. (Does nothing: its clauses are laws.)
pub fn each_case_hides_its_row()
    ensures whole { hidden_rows (small (one 1 1 3 (first ∷ last ∷ []) ∷ one 2 1 0 [] ∷ row 3 1 Gone ∷ [])) ≡ [] }
    ensures misfit { hidden_rows (small (two 1 1 (first ∷ []) ∷ [])) ≡ (1 ∷ []) ∷ [] }
    ensures absent { hidden_rows (small (one 1 1 2 (absent ∷ []) ∷ [])) ≡ (1 ∷ []) ∷ [] }
    ensures short { hidden_rows (small (one 1 1 3 (last ∷ first ∷ []) ∷ [])) ≡ (1 ∷ []) ∷ [] }
    ensures few { hidden_rows (small (one 1 1 3 (first ∷ []) ∷ [])) ≡ (1 ∷ []) ∷ [] }
    ensures many { hidden_rows (small (one 1 2 2 (first ∷ later ∷ []) ∷ [])) ≡ (1 ∷ []) ∷ [] }
    ensures twice { hidden_rows (small (one 1 1 4 (first ∷ first ∷ []) ∷ [])) ≡ (1 ∷ []) ∷ [] }
    ensures shared { hidden_rows (small (one 1 1 2 (first ∷ []) ∷ one 2 1 2 (first ∷ []) ∷ [])) ≡ (2 ∷ []) ∷ [] }
    ensures above { hidden_rows (small (one 1 1 2 (later ∷ []) ∷ [])) ≡ (1 ∷ []) ∷ [] }
    // A row that isn't there names nothing.
    ensures hidden_before { hidden_rows (small (two 1 1 (first ∷ []) ∷ one 2 1 2 (first ∷ []) ∷ [])) ≡ (1 ∷ []) ∷ [] }
    ensures twice_before { hidden_rows (small (one 1 1 4 (first ∷ first ∷ []) ∷ one 2 1 2 (first ∷ []) ∷ []))
        ≡ (1 ∷ []) ∷ [] }
    ensures above_before { hidden_rows (small (one 1 1 2 (later ∷ []) ∷ one 2 2 2 (later ∷ []) ∷ [])) ≡ (1 ∷ []) ∷ [] }
    // Two cases at once.
    ensures above_twice { hidden_rows (small (one 1 1 4 (later ∷ later ∷ []) ∷ [])) ≡ (1 ∷ []) ∷ [] }
    ensures absent_misfit { hidden_rows (small (two 1 1 (absent ∷ []) ∷ [])) ≡ (1 ∷ []) ∷ [] }
    ensures shared_above { hidden_rows (small (one 1 2 2 (later ∷ []) ∷ one 2 1 2 (later ∷ []) ∷ [])) ≡ (2 ∷ []) ∷ [] }
    ensures shared_short { hidden_rows (small (one 1 1 2 (first ∷ []) ∷ one 2 1 1 (first ∷ []) ∷ [])) ≡ (2 ∷ []) ∷ [] }
    // Nothing fits a schema that isn't there.
    ensures no_table { hidden_rows (small_with None (one 1 1 2 (first ∷ []) ∷ row 2 1 Gone ∷ []))
        ≡ (1 ∷ []) ∷ (2 ∷ []) ∷ [] }
{}
