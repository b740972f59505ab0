ghost use Rattle.std.specs.Prelude.{◌≡◌, ◌≤◌, ◌<◌, ◌+◌, ◌++◌, length, take, OnOk, OnErr};
ghost use Rattle.std.specs.Vec.{vec_capacity, vec_len};
ghost use Rattle.value_codec.specs.Spelling.{HasContentSpelling, content_spelling};

use crate::writer::{Spelled, put_list, put_whole};
use row_value::{PieceContent, PieceObject};
use stab_base::{put_u8, put_u32};
use std::alloc::AllocError;

impl Spelled for PieceObject {
    ghost use Rattle.value_codec.specs.Spelling.{HasObjectSpelling, object_spelling};

    ghost spelling = { object_spelling };

    ghost has_spelling = { HasObjectSpelling };

    fn put(&self, out: &mut Vec<u8>) -> Result<(), AllocError> {
        put_u32(out, self.len)?;
        put_list(out, self.pieces.as_slice())
    }
}

impl Spelled for PieceContent {
    ghost use Rattle.value_codec.specs.Spelling.{HasContentSpelling, content_spelling};

    ghost spelling = { content_spelling };

    ghost has_spelling = { HasContentSpelling };

    fn put(&self, out: &mut Vec<u8>) -> Result<(), AllocError> {
        match self {
            PieceContent::Gone => put_u8(out, 0),
            PieceContent::Row { cells, objects } => {
                put_u8(out, 1)?;
                put_list(out, cells.as_slice())?;
                put_list(out, objects.as_slice())
            }
        }
    }
}

/// Appends the content's spelling.
pub fn put_content(out: &mut Vec<u8>, content: &PieceContent) -> Result<(), AllocError>
    requires { HasContentSpelling content.now }
    ensures ok { OnOk result (out.new.items ≡ out.old.items ++ content_spelling content.now) }
    ensures err { OnErr result (out.new.items ≡ out.old.items) }
    ensures full { OnErr result (vec_capacity out.old < vec_len out.old + length (content_spelling content.now)) }
    ensures capacity { vec_capacity out.old ≤ vec_capacity out.new }
{
    put_whole(out, content)
}
