//! What holds of chunks and their pieces, as laws.
ghost use Rattle.std.specs.Prelude.{◌≡◌, ◌<◌, ℕ, List, length, map, Option, option_map, IfSome};
ghost use Rattle.row_value.specs.declared.content.Content.{Content};
ghost use Rattle.row_value.specs.declared.pieces.Piece.{Piece};
ghost use Rattle.held_value.specs.declared.local_name.LocalName.{LocalName};
ghost use Rattle.held_value.specs.declared.content.HeldContent.{HeldContent};
ghost use Rattle.held_value.specs.declared.slots.Shadow.{Shadow};
ghost use Rattle.client_journal.specs.Names.{names_of};
ghost use Rattle.step_tables.specs.Chunks.{cut, flat, objects_of};
ghost use Rattle.step_tables.specs.ClientMoves.{chunks_read};
ghost use Rattle.journal_laws.specs.Whole.{whole, whole_shadow};
ghost use Rattle.journal_laws.specs.Moves.{Spells};
ghost use Rattle.held_contents.specs.Reading.{chunks_in, chunks_shown, content_read};
ghost use Rattle.held_contents.specs.Request.{known_in, bytes_in, request_pieces, AreCutBy};

/// The chunks of a held content whose lengths are right are the cut of its objects, and what was read last is its
/// chunks with the Store's names that are known. (Does nothing: its clauses are laws.)
pub fn chunks_are_cuts()
    ensures cut { (meaning : LocalName → List ℕ) (size : ℕ) (held : HeldContent) → 0 < size
        → AreCutBy meaning size held
        → map (cut size) (objects_of (whole meaning held)) ≡ bytes_in (chunks_in meaning held) }
    ensures read { (meaning : LocalName → List ℕ) (size : ℕ) (shadow : Option Shadow) → 0 < size
        → IfSome shadow (λ read. AreCutBy meaning size read.content)
        → chunks_read size (option_map (whole_shadow meaning) shadow)
        ≡ known_in (chunks_shown meaning (content_read shadow)) }
    ensures count { (meaning : LocalName → List ℕ) (held : HeldContent)
        → length (flat (bytes_in (chunks_in meaning held))) ≡ length (names_of held) }
{}

/// The pieces of a held content against what was read last, by its own chunks or by those of the content that it holds,
/// spell it: they are as many as it has chunks, and object by object those of the whole contents. (Does nothing: its
/// clauses are laws.)
pub fn contents_are_spelled()
    ensures held { (meaning : LocalName → List ℕ) (size : ℕ) (shadow : Option Shadow) (held : HeldContent)
        (pieces : List Piece) → 0 < size
        → IfSome shadow (λ read. AreCutBy meaning size read.content) → AreCutBy meaning size held
        → pieces ≡ request_pieces (chunks_shown meaning (content_read shadow)) (bytes_in (chunks_in meaning held))
        → Spells meaning size shadow held pieces }
    ensures content { (meaning : LocalName → List ℕ) (size : ℕ) (shadow : Option Shadow) (held : HeldContent)
        (content : Content) (pieces : List Piece) → 0 < size
        → IfSome shadow (λ read. AreCutBy meaning size read.content) → AreCutBy meaning size held
        → whole meaning held ≡ content
        → pieces ≡ request_pieces (chunks_shown meaning (content_read shadow)) (map (cut size) (objects_of content))
        → Spells meaning size shadow held pieces }
    ensures count { (meaning : LocalName → List ℕ) (size : ℕ) (held : HeldContent) (content : Content) → 0 < size
        → AreCutBy meaning size held → whole meaning held ≡ content
        → length (flat (map (cut size) (objects_of content))) ≡ length (names_of held) }
{}
