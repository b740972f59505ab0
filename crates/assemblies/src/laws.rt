//! What holds of contents in parts, as laws.
ghost use Rattle.std.specs.Prelude.{◌≡◌, ℕ, ◌<◌, Bool, true, List, map, slice_get, Some};
ghost use Rattle.std.specs.List.{AllByRecursion, list_all, list_any};
ghost use Rattle.stab_base.specs.declared.chunk_name.ChunkName.{ChunkName};
ghost use Rattle.row_value.specs.declared.content.Content.{Content};
ghost use Rattle.row_value.specs.declared.pieces.Piece.{Piece};
ghost use Rattle.row_value.specs.declared.pieces.PieceContent.{PieceContent};
ghost use Rattle.chunker.specs.Cut.{IsCut};
ghost use Rattle.assemblies.specs.declared.awaiting.Awaited.{Awaited};
ghost use Rattle.assemblies.specs.Places.{awaited_of};
ghost use Rattle.assemblies.specs.Gathering.{Slot, waiting, taken, takes, is_whole, chunks_of};
ghost use Rattle.assemblies.specs.Parts.{IsOf, joined, parts_of, parts_at, chunk_at, chunk_in, HasItsLen};
ghost use Rattle.assemblies.specs.Parts.{Fragment, gathered, brings, IsChunkOf, AreChunksOf};

/// The chunks that an object is cut into stand at their places.
pub fn chunks_stand_at_their_places()
    ensures { (size : ℕ) (object : List ℕ) (chunks : List (List ℕ)) (place : ℕ) (chunk : List ℕ)
        → IsCut size object chunks → slice_get chunks place ≡ Some chunk → chunk ≡ chunk_at size object place }
{}

/// Each chunk of a content that travels is as long as it is awaited, so that it is dropped only where it came before.
pub fn parts_have_their_lengths()
    ensures { (held : ChunkName → List ℕ) (sends : Piece → Bool) (size : ℕ) (content : PieceContent) (whole : Content)
        → IsOf held sends size content whole
        → AllByRecursion (HasItsLen size whole) (awaited_of sends size content) }
{}

/// The chunks that travelled, in the order in which they are awaited, and those that were held make the whole content.
pub fn parts_make_the_whole()
    ensures { (held : ChunkName → List ℕ) (sends : Piece → Bool) (size : ℕ) (content : PieceContent) (whole : Content)
        → 0 < size → IsOf held sends size content whole
        → joined held sends content (parts_of sends size content whole) ≡ whole }
{}

/// An assembly is whole exactly where each chunk came in one of the fragments, whatever their order.
pub fn whole_once_each_has_come()
    ensures { (awaited : List Awaited) (fragments : List Fragment)
        → is_whole (gathered fragments (waiting awaited)) ≡ list_all (λ it. list_any (brings it) fragments) awaited }
{}

/// Fragments of repeated sendings of one content mix freely: what has come is that content's, whichever of them came.
pub fn fragments_of_one_content_mix()
    ensures none { (size : ℕ) (whole : Content) (awaited : List Awaited)
        → AllByRecursion (IsChunkOf size whole) (waiting awaited) }
    ensures more { (size : ℕ) (whole : Content) (column place : ℕ) (bytes : List ℕ) (slots : List Slot)
        → (takes column place bytes slots ≡ true → bytes ≡ chunk_in size whole column place)
        → AllByRecursion (IsChunkOf size whole) slots
        → AllByRecursion (IsChunkOf size whole) (taken column place bytes slots) }
    ensures same { (column place : ℕ) (bytes : List ℕ) (slots : List Slot)
        → map (λ slot. slot.0) (taken column place bytes slots) ≡ map (λ slot. slot.0) slots }
    ensures whole { (size : ℕ) (whole : Content) (slots : List Slot) → is_whole slots ≡ true
        → AllByRecursion (IsChunkOf size whole) slots
        → chunks_of slots ≡ parts_at size whole (map (λ slot. slot.0) slots) }
{}

/// An assembly that is whole has exactly the parts of the content whose fragments it took.
pub fn chunks_of_fragments_are_the_parts()
    ensures { (sends : Piece → Bool) (size : ℕ) (content : PieceContent) (whole : Content) (fragments : List Fragment)
        → AreChunksOf size whole fragments (waiting (awaited_of sends size content))
        → is_whole (gathered fragments (waiting (awaited_of sends size content))) ≡ true
        → chunks_of (gathered fragments (waiting (awaited_of sends size content))) ≡ parts_of sends size content whole }
{}
