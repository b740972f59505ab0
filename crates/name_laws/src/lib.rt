//! What the names of chunks at the Stores are, in every run of the world.
#![tactic(auto)]

ghost use Rattle.std.specs.Prelude.{◌≡◌, List, [], ◌∷◌};
ghost use Rattle.world_tables.specs.Quiet.{AreListed};
ghost use Rattle.world_tables.specs.Turns.{Happening, turns};
ghost use Rattle.world_laws.specs.Worked.{object_names, named};
ghost use Rattle.name_laws.specs.Worked.{replaced, replaced_written, failed_drop, failed_drop_written};
ghost use Rattle.name_laws.specs.Worked.{keeps_what_is_gone, keeps_what_is_gone_written, whole_names};

/// In every run, wherever packets are lost or repeated, device calls fail and Stores crash or join: where a table's
/// chunks are listed and its owner is quiet, so that nothing came to that Store while it was on hold that it hasn't
/// worked off since, the list has exactly the chunks that the table's rows name. They are different names in rising
/// order, each of an entry's version, and those of a row are as many as its current content has chunks.
pub fn a_quiet_store_holds_what_its_rows_name()
    ensures { (happenings : List Happening) → AreListed (turns happenings) }
{}

/// An object in place of another, with a crash of the held Store inside the drop of a chunk, computed. Behind the start
/// the chunk is still listed, and behind all writes no more. A list that still has it then is refused, and so is one
/// that lacks a chunk of the row.
pub fn a_crash_inside_a_chunks_drop()
    ensures run { turns replaced ≡ replaced_written object_names }
    ensures listed { AreListed (replaced_written object_names) }
    ensures left_over { AreListed (replaced_written (named 1 0 ∷ named 1 1 ∷ named 2 0 ∷ named 2 1 ∷ [])) → ⊥ }
    ensures lacking { AreListed (replaced_written (named 1 0 ∷ named 2 1 ∷ [])) → ⊥ }
{}

/// The same at a Store that isn't on hold, where the drop fails and takes it down, computed: its start drops the chunk.
pub fn a_failed_drop_is_made_up_for()
    ensures run { turns failed_drop ≡ failed_drop_written object_names }
    ensures listed { AreListed (failed_drop_written object_names) }
    ensures left_over { AreListed (failed_drop_written (named 1 0 ∷ named 1 1 ∷ named 2 0 ∷ named 2 1 ∷ [])) → ⊥ }
{}

/// An object over one that its client had read, of which it keeps a chunk that another client's write has done away
/// with since, computed: the Store takes it when it comes again with each chunk new.
pub fn a_kept_chunk_that_is_gone_comes_again()
    ensures run { turns keeps_what_is_gone ≡ keeps_what_is_gone_written whole_names }
    ensures listed { AreListed (keeps_what_is_gone_written whole_names) }
    ensures left_over { AreListed (keeps_what_is_gone_written (named 1 0 ∷ whole_names)) → ⊥ }
{}
