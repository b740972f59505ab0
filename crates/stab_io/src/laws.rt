ghost use Rattle.std.specs.Prelude.{◌≡◌, ◌≤◌, ◌<◌, ◌+◌, ◌-◌, ◌⊎◌, ◌++◌, ◌∷◌, [], ℕ, List, length};
ghost use Rattle.stab_io.specs.declared.limits.Limits.{Limits};
ghost use Rattle.stab_io.specs.Lines.{lines_of, next_of, Line, End, LineTooLong, InputTooLong};

/// What comes next in the bytes of an input, told by its lines. It has no code: its clauses are the laws.
pub fn lines_of_next()
    ensures line { (limits : Limits) (used : ℕ) (bytes text rest : List ℕ) → next_of limits used bytes ≡ Line text rest
        → lines_of bytes ≡ text ∷ lines_of rest }
    ensures whole { (limits : Limits) (used : ℕ) (bytes text rest : List ℕ) → next_of limits used bytes ≡ Line text rest
        → (bytes ≡ text ++ 10 ∷ rest) ⊎ ((bytes ≡ text) × (rest ≡ [])) }
    ensures fits { (limits : Limits) (used : ℕ) (bytes text rest : List ℕ) → next_of limits used bytes ≡ Line text rest
        → (length text ≤ limits.line) × (used + (length bytes - length rest) ≤ limits.input) }
    ensures end { (limits : Limits) (used : ℕ) (bytes : List ℕ) → next_of limits used bytes ≡ End
        → lines_of bytes ≡ [] }
    ensures no_lines { (limits : Limits) (used : ℕ) (bytes : List ℕ) → lines_of bytes ≡ []
        → next_of limits used bytes ≡ End }
    ensures line_limit { (limits : Limits) (used : ℕ) (bytes : List ℕ) → next_of limits used bytes ≡ LineTooLong
        → (line : List ℕ) × (lines : List (List ℕ)) × (lines_of bytes ≡ line ∷ lines) × (limits.line < length line) }
    ensures input_limit { (limits : Limits) (used : ℕ) (bytes : List ℕ) → next_of limits used bytes ≡ InputTooLong
        → limits.input < used + length bytes }
{}
