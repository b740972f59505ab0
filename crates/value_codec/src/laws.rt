//! What the spellings keep, as laws.
ghost use Rattle.std.specs.Prelude.{◌≡◌, ◌++◌, ℕ, List, length, sum_by, Ok, Err};
ghost use Rattle.std.specs.List.{flat_map};
ghost use Rattle.row_value.specs.Fit.{spelled_len};
ghost use Rattle.stab_base.specs.Codec.{IsBytes};
ghost use Rattle.stab_base.specs.declared.chunk_name.ChunkName.{ChunkName};
ghost use Rattle.row_value.specs.declared.content.Cell.{Cell};
ghost use Rattle.row_value.specs.declared.pieces.Piece.{Piece};
ghost use Rattle.row_value.specs.declared.pieces.PieceContent.{PieceContent};
ghost use Rattle.value_codec.specs.Spelling.{HasCellSpelling, cell_spelling, HasNameSpelling, name_spelling};
ghost use Rattle.value_codec.specs.Spelling.{HasPieceSpelling, piece_spelling, HasContentSpelling, content_spelling};
ghost use Rattle.row_value.specs.declared.schema.Schema.{Schema};
ghost use Rattle.value_codec.specs.SchemaSpelling.{HasSchemaSpelling, schema_spelling};
ghost use Rattle.value_codec.specs.SchemaReading.{schema_at};
ghost use Rattle.value_codec.specs.FirstBad.{IsFirstBad};
ghost use Rattle.value_codec.specs.Reading.{cell_at, name_at, piece_at, content_at};

/// Two values with one spelling are the same. (Does nothing: its clauses are laws.)
pub fn one_spelling()
    ensures cell { (x y : Cell) → HasCellSpelling x → HasCellSpelling y → cell_spelling x ≡ cell_spelling y → x ≡ y }
    ensures name { (x y : ChunkName) → HasNameSpelling x
        → HasNameSpelling y → name_spelling x ≡ name_spelling y → x ≡ y }
    ensures piece { (x y : Piece) → HasPieceSpelling x
        → HasPieceSpelling y → piece_spelling x ≡ piece_spelling y → x ≡ y }
    ensures content { (x y : PieceContent) → HasContentSpelling x
        → HasContentSpelling y → content_spelling x ≡ content_spelling y → x ≡ y }
    ensures schema { (x y : Schema) → HasSchemaSpelling x
        → HasSchemaSpelling y → schema_spelling x ≡ schema_spelling y → x ≡ y }
{}

/// What was put is read again, whatever follows it. (Does nothing: its clauses are laws.)
pub fn values_are_read_again()
    ensures cell { (x : Cell) (rest : List ℕ) → HasCellSpelling x → cell_at (cell_spelling x ++ rest) ≡ Ok (x, rest) }
    ensures name { (x : ChunkName) (rest : List ℕ)
        → HasNameSpelling x → name_at (name_spelling x ++ rest) ≡ Ok (x, rest) }
    ensures piece { (x : Piece) (rest : List ℕ)
        → HasPieceSpelling x → piece_at (piece_spelling x ++ rest) ≡ Ok (x, rest) }
    ensures content { (x : PieceContent) (rest : List ℕ)
        → HasContentSpelling x → content_at (content_spelling x ++ rest) ≡ Ok (x, rest) }
    ensures schema { (x : Schema) (rest : List ℕ)
        → HasSchemaSpelling x → schema_at (schema_spelling x ++ rest) ≡ Ok (x, rest) }
{}

/// What is read stood there as it is spelled. (Does nothing: its clauses are laws.)
pub fn values_were_spelled_so()
    ensures cell { (bytes rest : List ℕ) (x : Cell) → IsBytes bytes → cell_at bytes ≡ Ok (x, rest)
        → HasCellSpelling x × (bytes ≡ cell_spelling x ++ rest) }
    ensures name { (bytes rest : List ℕ) (x : ChunkName) → IsBytes bytes → name_at bytes ≡ Ok (x, rest)
        → HasNameSpelling x × (bytes ≡ name_spelling x ++ rest) }
    ensures piece { (bytes rest : List ℕ) (x : Piece) → IsBytes bytes → piece_at bytes ≡ Ok (x, rest)
        → HasPieceSpelling x × (bytes ≡ piece_spelling x ++ rest) }
    ensures content { (bytes rest : List ℕ) (x : PieceContent) → IsBytes bytes → content_at bytes ≡ Ok (x, rest)
        → HasContentSpelling x × (bytes ≡ content_spelling x ++ rest) }
    ensures schema { (bytes rest : List ℕ) (x : Schema) → IsBytes bytes → schema_at bytes ≡ Ok (x, rest)
        → HasSchemaSpelling x × (bytes ≡ schema_spelling x ++ rest) }
{}

/// A fault of reading is the first place at which no spelling goes on. (Does nothing: its clauses are laws.)
pub fn faults_are_the_first_bad_places()
    ensures cell { (bytes : List ℕ) (left : ℕ) → IsBytes bytes → cell_at bytes ≡ Err left
        → IsFirstBad HasCellSpelling cell_spelling bytes left }
    ensures name { (bytes : List ℕ) (left : ℕ) → IsBytes bytes → name_at bytes ≡ Err left
        → IsFirstBad HasNameSpelling name_spelling bytes left }
    ensures piece { (bytes : List ℕ) (left : ℕ) → IsBytes bytes → piece_at bytes ≡ Err left
        → IsFirstBad HasPieceSpelling piece_spelling bytes left }
    ensures content { (bytes : List ℕ) (left : ℕ) → IsBytes bytes → content_at bytes ≡ Err left
        → IsFirstBad HasContentSpelling content_spelling bytes left }
    ensures schema { (bytes : List ℕ) (left : ℕ) → IsBytes bytes → schema_at bytes ≡ Err left
        → IsFirstBad HasSchemaSpelling schema_spelling bytes left }
{}

/// The limit on the cells of a row counts the bytes that spell them. (Does nothing: its clause is a law.)
pub fn cells_are_counted_as_spelled()
    ensures { (cells : List Cell) → length (flat_map cell_spelling cells) ≡ sum_by spelled_len cells }
{}
