ghost use Rattle.std.specs.Prelude.{◌≡◌, ◌≤◌, ◌<◌, ◌+◌, ◌++◌, length, take, OnOk, OnErr};
ghost use Rattle.std.specs.Vec.{vec_capacity, vec_len};
ghost use Rattle.value_codec.specs.Spelling.{HasCellSpelling, cell_spelling};

use crate::writer::{Spelled, put_whole};
use row_value::Cell;
use stab_base::{put_bytes, put_u8, put_u64};
use std::alloc::AllocError;

impl Spelled for Cell {
    ghost use Rattle.value_codec.specs.Spelling.{HasCellSpelling, cell_spelling};

    ghost spelling = { cell_spelling };

    ghost has_spelling = { HasCellSpelling };

    fn put(&self, out: &mut Vec<u8>) -> Result<(), AllocError> {
        match self {
            Cell::Int(n) => {
                put_u8(out, 1)?;
                put_u64(out, n.cast_unsigned())
            }
            Cell::Bool(b) => {
                put_u8(out, 2)?;
                put_u8(out, if *b { 1 } else { 0 })
            }
            Cell::Text(text) => {
                put_u8(out, 3)?;
                put_bytes(out, text.as_slice())
            }
        }
    }
}

/// Appends the cell's spelling.
pub fn put_cell(out: &mut Vec<u8>, cell: &Cell) -> Result<(), AllocError>
    requires { HasCellSpelling cell.now }
    ensures ok { OnOk result (out.new.items ≡ out.old.items ++ cell_spelling cell.now) }
    ensures err { OnErr result (out.new.items ≡ out.old.items) }
    ensures full { OnErr result (vec_capacity out.old < vec_len out.old + length (cell_spelling cell.now)) }
    ensures capacity { vec_capacity out.old ≤ vec_capacity out.new }
{
    put_whole(out, cell)
}
