//! Laws of the grammar of lines, which make `exactly` of the clauses of `parse_line`.
ghost use Rattle.std.specs.Prelude.{◌≡◌, List, ℕ};
ghost use Rattle.table_model.specs.declared.event.Event.{Event};
ghost use Rattle.script_text.specs.declared.fault.BadLine.{BadLine};
ghost use Rattle.script_text.specs.Grammar.{Names, IsPassed, Spells, IsFault, PassesLimit};

/// A line spells at most one event.
pub fn one_event()
    ensures { (names : Names) (line : List ℕ) (d e : Event) → Spells names line d → Spells names line e → d ≡ e }
{}

/// A line that is passed over spells no event and has no word at fault.
pub fn passed_apart()
    ensures event { (names : Names) (line : List ℕ) (e : Event) → IsPassed line → Spells names line e → ⊥ }
    ensures fault { (names : Names) (line : List ℕ) (f : BadLine) → IsPassed line → IsFault names line f → ⊥ }
{}

/// A line that spells an event has no word at fault.
pub fn fault_apart()
    ensures { (names : Names) (line : List ℕ) (e : Event) (f : BadLine) → Spells names line e → IsFault names line f
        → ⊥ }
{}

/// A line that passes a limit is not passed over, spells no event and has no word at fault.
pub fn limit_apart()
    ensures passed { (names : Names) (line : List ℕ) (limit : ℕ) → IsPassed line → PassesLimit names line limit → ⊥ }
    ensures event { (names : Names) (line : List ℕ) (e : Event) (limit : ℕ) → Spells names line e
        → PassesLimit names line limit → ⊥ }
    ensures fault { (names : Names) (line : List ℕ) (f : BadLine) (limit : ℕ) → IsFault names line f
        → PassesLimit names line limit → ⊥ }
{}

/// A line passes at most one limit first.
pub fn one_limit()
    ensures { (names : Names) (line : List ℕ) (l m : ℕ) → PassesLimit names line l → PassesLimit names line m → l ≡ m }
{}

/// A line has at most one first word at fault, with one code.
pub fn one_fault()
    ensures { (names : Names) (line : List ℕ) (f g : BadLine) → IsFault names line f → IsFault names line g → f ≡ g }
{}
