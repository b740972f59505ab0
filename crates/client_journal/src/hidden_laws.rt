//! Which rows a start takes as not there.
ghost use Rattle.std.specs.Prelude.{◌≡◌, [], ◌∷◌, ℕ, List};
ghost use Rattle.std.specs.Map.{keys_of};
ghost use Rattle.std.specs.List.Sorted.{IsStrictlySortedBy};
ghost use Rattle.held_value.specs.declared.content.HeldContent.TheVariants.{Gone};
ghost use Rattle.held_value.specs.declared.local_name.LocalName.{LocalName};
ghost use Rattle.slot_store.specs.Data.{key_cmp};
ghost use Rattle.client_journal.specs.Devs.{ClientDevs};
ghost use Rattle.client_journal.specs.Redone.{redone};
ghost use Rattle.client_journal.specs.NamedSlots.{NamedSlots};
ghost use Rattle.client_journal.specs.There.{hidden_rows, WholeSlots};
ghost use Rattle.client_journal.specs.Small.{first, last, later, above, absent, one, two, no_slots, in_main, in_shadow};
ghost use Rattle.client_journal.specs.Small.{in_out, in_conflict, in_two, key, row, small, small_at, puts_slots};

/// Where the devices have named slots, and the contents of each row's slots fit, have the lengths of their places and
/// name each chunk once, no row is hidden. (Does nothing: its clause is a law.)
pub fn named_slots_are_there()
    ensures { (meaning : LocalName → List ℕ) (d : ClientDevs) → NamedSlots meaning d → WholeSlots meaning (redone d)
        → IsStrictlySortedBy key_cmp (keys_of (redone d).rows) → hidden_rows d ≡ [] }
{}

/// Each case hides its row, alone and with another one, and no other row. (Does nothing: its clauses are laws.)
pub fn each_case_hides_its_row()
    ensures whole { hidden_rows (small (row 1 1 (in_main (one 3 (first ∷ last ∷ [])))
        ∷ row 1 2 (in_out (one 2 (later ∷ []))) ∷ row 2 1 no_slots ∷ []))
        ≡ [] }
    ensures slots_share { hidden_rows (small (row 1 1 (in_two (one 2 (first ∷ [])) (one 2 (first ∷ []))) ∷ [])) ≡ [] }
    ensures misfit { hidden_rows (small (row 1 1 (in_main (two (first ∷ []))) ∷ [])) ≡ key 1 1 ∷ [] }
    ensures no_record { hidden_rows (small (row 3 1 (in_main Gone) ∷ [])) ≡ key 3 1 ∷ [] }
    ensures absent { hidden_rows (small (row 1 1 (in_main (one 2 (absent ∷ []))) ∷ [])) ≡ key 1 1 ∷ [] }
    ensures short { hidden_rows (small (row 1 1 (in_main (one 3 (last ∷ first ∷ []))) ∷ [])) ≡ key 1 1 ∷ [] }
    ensures few { hidden_rows (small (row 1 1 (in_main (one 3 (first ∷ []))) ∷ [])) ≡ key 1 1 ∷ [] }
    ensures twice { hidden_rows (small (row 1 1 (in_main (one 4 (first ∷ first ∷ []))) ∷ [])) ≡ key 1 1 ∷ [] }
    ensures above { hidden_rows (small (row 1 1 (in_main (one 2 (above ∷ []))) ∷ [])) ≡ key 1 1 ∷ [] }
    ensures shared { hidden_rows (small (row 1 1 (in_main (one 2 (first ∷ [])))
        ∷ row 1 2 (in_main (one 2 (first ∷ []))) ∷ []))
        ≡ key 1 2 ∷ [] }
    ensures shared_table { hidden_rows (small (row 1 2 (in_main (one 2 (first ∷ [])))
        ∷ row 2 1 (in_main (one 2 (first ∷ []))) ∷ []))
        ≡ key 2 1 ∷ [] }
    // Each of the four slots counts.
    ensures shadow_slot { hidden_rows (small (row 1 1 (in_shadow (one 2 (absent ∷ []))) ∷ [])) ≡ key 1 1 ∷ [] }
    ensures out_slot { hidden_rows (small (row 1 1 (in_out (one 2 (absent ∷ []))) ∷ [])) ≡ key 1 1 ∷ [] }
    ensures conflict_slot { hidden_rows (small (row 1 1 (in_conflict (one 2 (absent ∷ []))) ∷ [])) ≡ key 1 1 ∷ [] }
    ensures second_slot { hidden_rows (small (row 1 1 (in_two (one 2 (first ∷ [])) (two (later ∷ []))) ∷ []))
        ≡ key 1 1 ∷ [] }
    // A row that isn't there names nothing, and the rows behind it are looked at too.
    ensures hidden_before { hidden_rows (small (row 1 1 (in_main (two (first ∷ [])))
        ∷ row 1 2 (in_main (one 2 (first ∷ []))) ∷ []))
        ≡ key 1 1 ∷ [] }
    ensures hidden_twice { hidden_rows (small (row 1 1 (in_main (two (first ∷ [])))
        ∷ row 1 2 (in_main (one 2 (absent ∷ []))) ∷ []))
        ≡ key 1 1 ∷ key 1 2 ∷ [] }
    // The slots of a commit at work stand in place of those that are held.
    ensures committed { hidden_rows (small_at (puts_slots 2 (in_main (one 2 (absent ∷ []))))
        (row 1 1 (in_main (one 2 (first ∷ []))) ∷ []))
        ≡ key 1 2 ∷ [] }
    ensures replaced { hidden_rows (small_at (puts_slots 1 no_slots) (row 1 1 (in_main (one 2 (absent ∷ []))) ∷ []))
        ≡ [] }
{}
