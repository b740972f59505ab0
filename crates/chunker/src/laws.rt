//! What holds of cuts and of pieces, as laws.
ghost use Rattle.std.specs.Prelude.{◌≡◌, ◌<◌, ℕ, List, length, slice_get, Some};
ghost use Rattle.row_value.specs.Fit.{chunk_count};
ghost use Rattle.chunker.specs.Cut.{IsCut};
ghost use Rattle.chunker.specs.Against.{AreAgainst};
ghost use Rattle.chunker.specs.Sized.{count_of, len_at};
ghost use Rattle.stab_base.specs.declared.chunk_name.ChunkName.{ChunkName};
ghost use Rattle.row_value.specs.declared.pieces.Piece.{Piece};

/// An object is cut in one way alone.
pub fn one_cut()
    ensures { (size : ℕ) (object : List ℕ) (xs ys : List (List ℕ)) → 0 < size
        → IsCut size object xs → IsCut size object ys → xs ≡ ys }
{}

/// An object has as many chunks as the limit on a row's chunks counts.
pub fn chunks_are_counted()
    ensures { (size : ℕ) (object : List ℕ) (chunks : List (List ℕ)) → 0 < size
        → IsCut size object chunks → length chunks ≡ chunk_count size object }
{}

/// An object's chunks are as many as one of its length has, and each has the length of its place.
pub fn chunks_have_their_lengths()
    ensures count { (size : ℕ) (object : List ℕ) (chunks : List (List ℕ)) → 0 < size
        → IsCut size object chunks → length chunks ≡ count_of size (length object) }
    ensures each { (size : ℕ) (object : List ℕ) (chunks : List (List ℕ)) (place : ℕ) (chunk : List ℕ) → 0 < size
        → IsCut size object chunks → slice_get chunks place ≡ Some chunk
        → length chunk ≡ len_at size (length object) place }
{}

/// The pieces of an object are those alone.
pub fn one_list_of_pieces()
    ensures { (old : List (ChunkName × List ℕ)) (chunks : List (List ℕ)) (first : ℕ) (xs ys : List Piece)
        → AreAgainst old chunks first xs → AreAgainst old chunks first ys → xs ≡ ys }
{}
