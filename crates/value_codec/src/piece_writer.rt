ghost use Rattle.std.specs.Prelude.{◌≡◌, ◌≤◌, ◌<◌, ◌+◌, ◌++◌, length, take, OnOk, OnErr};
ghost use Rattle.std.specs.Vec.{vec_capacity, vec_len};
ghost use Rattle.value_codec.specs.Spelling.{HasNameSpelling, name_spelling, HasPieceSpelling, piece_spelling};

use crate::writer::{Spelled, put_whole};
use row_value::Piece;
use stab_base::{ChunkName, put_u8, put_u32, put_u64};
use std::alloc::AllocError;

impl Spelled for ChunkName {
    ghost use Rattle.value_codec.specs.Spelling.{HasNameSpelling, name_spelling};

    ghost spelling = { name_spelling };

    ghost has_spelling = { HasNameSpelling };

    fn put(&self, out: &mut Vec<u8>) -> Result<(), AllocError> {
        put_u64(out, self.version)?;
        put_u32(out, self.ordinal)
    }
}

impl Spelled for Piece {
    ghost use Rattle.value_codec.specs.Spelling.{HasPieceSpelling, piece_spelling};

    ghost spelling = { piece_spelling };

    ghost has_spelling = { HasPieceSpelling };

    fn put(&self, out: &mut Vec<u8>) -> Result<(), AllocError> {
        match self {
            Piece::Keep(name) => {
                put_u8(out, 0)?;
                name.put(out)
            }
            Piece::Fresh(ordinal) => {
                put_u8(out, 1)?;
                put_u32(out, *ordinal)
            }
        }
    }
}

/// Appends the name's spelling.
pub fn put_name(out: &mut Vec<u8>, name: ChunkName) -> Result<(), AllocError>
    requires { HasNameSpelling name }
    ensures ok { OnOk result (out.new.items ≡ out.old.items ++ name_spelling name) }
    ensures err { OnErr result (out.new.items ≡ out.old.items) }
    ensures full { OnErr result (vec_capacity out.old < vec_len out.old + length (name_spelling name)) }
    ensures capacity { vec_capacity out.old ≤ vec_capacity out.new }
{
    put_whole(out, &name)
}

/// Appends the piece's spelling.
pub fn put_piece(out: &mut Vec<u8>, piece: Piece) -> Result<(), AllocError>
    requires { HasPieceSpelling piece }
    ensures ok { OnOk result (out.new.items ≡ out.old.items ++ piece_spelling piece) }
    ensures err { OnErr result (out.new.items ≡ out.old.items) }
    ensures full { OnErr result (vec_capacity out.old < vec_len out.old + length (piece_spelling piece)) }
    ensures capacity { vec_capacity out.old ≤ vec_capacity out.new }
{
    put_whole(out, &piece)
}
