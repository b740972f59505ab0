//! What the spellings keep, as laws.
ghost use Rattle.std.specs.Prelude.{◌≡◌, ◌++◌, ℕ, List, Ok, Err};
ghost use Rattle.stab_base.specs.Codec.{IsBytes};
ghost use Rattle.value_codec.specs.FirstBad.{IsFirstBad};
ghost use Rattle.held_value.specs.declared.local_name.LocalName.{LocalName};
ghost use Rattle.held_value.specs.declared.slots.Slots.{Slots};
ghost use Rattle.held_value.specs.declared.tell.Tell.{Tell};
ghost use Rattle.held_codec.specs.Spelling.{local_spelling, HasLocalSpelling, slots_spelling, HasSlots};
ghost use Rattle.held_codec.specs.Spelling.{tell_spelling, HasTell};
ghost use Rattle.held_codec.specs.Reading.{local_at, slots_at, tell_at};

/// What was put is read again, whatever follows it. (Does nothing: its clauses are laws.)
pub fn held_values_are_read_again()
    ensures local { (x : LocalName) (rest : List ℕ) → HasLocalSpelling x
        → local_at (local_spelling x ++ rest) ≡ Ok (x, rest) }
    ensures slots { (x : Slots) (rest : List ℕ) → HasSlots x → slots_at (slots_spelling x ++ rest) ≡ Ok (x, rest) }
    ensures tell { (x : Tell) (rest : List ℕ) → HasTell x → tell_at (tell_spelling x ++ rest) ≡ Ok (x, rest) }
{}

/// What is read stood there as it is spelled. (Does nothing: its clauses are laws.)
pub fn held_values_were_spelled_so()
    ensures local { (bytes rest : List ℕ) (x : LocalName) → IsBytes bytes → local_at bytes ≡ Ok (x, rest)
        → HasLocalSpelling x × (bytes ≡ local_spelling x ++ rest) }
    ensures slots { (bytes rest : List ℕ) (x : Slots) → IsBytes bytes → slots_at bytes ≡ Ok (x, rest)
        → HasSlots x × (bytes ≡ slots_spelling x ++ rest) }
    ensures tell { (bytes rest : List ℕ) (x : Tell) → IsBytes bytes → tell_at bytes ≡ Ok (x, rest)
        → HasTell x × (bytes ≡ tell_spelling x ++ rest) }
    // A fault of reading is the first place at which no spelling goes on.
    ensures slots_fault { (bytes : List ℕ) (left : ℕ) → IsBytes bytes → slots_at bytes ≡ Err left
        → IsFirstBad HasSlots slots_spelling bytes left }
    ensures tell_fault { (bytes : List ℕ) (left : ℕ) → IsBytes bytes → tell_at bytes ≡ Err left
        → IsFirstBad HasTell tell_spelling bytes left }
{}
