//! How long payloads are.
ghost use Rattle.std.specs.Prelude.{◌≡◌, ◌+◌, ◌*◌, ◌<◌, ◌≤◌, true, length, Some};
ghost use Rattle.std.specs.List.{flat_map, list_all};
ghost use Rattle.vault.specs.Limit.{payload_most};
ghost use Rattle.value_codec.specs.Spelling.{cell_spelling, object_spelling, content_spelling};
ghost use Rattle.row_store.specs.Spelling.{is_keep, all_keep, HasStoredSpelling, row_payload};
ghost use Rattle.row_store.specs.Size.{IsSum};

use crate::stored::StoredRow;
use row_value::{Cell, PieceContent, PieceObject};
use vault::PAYLOAD_MAX;

// So many bytes more, up to the longest payload.
fn add(len: usize, more: usize) -> Option<usize>
    requires { len ≤ payload_most }
    ensures { IsSum (len + more) result }
{
    if more <= PAYLOAD_MAX as usize - len {
        Some(len + more)
    } else {
        None
    }
}

fn add_cell(len: usize, cell: &Cell) -> Option<usize>
    requires { len ≤ payload_most }
    ensures { IsSum (len + length (cell_spelling cell.now)) result }
{
    match cell {
        Cell::Int(_) => add(len, 9),
        Cell::Bool(_) => add(len, 2),
        Cell::Text(text) => add(add(len, 5)?, text.len()),
    }
}

fn add_cells(len: usize, cells: &[Cell]) -> Option<usize>
    requires { len ≤ payload_most }
    ensures { IsSum (len + length (flat_map cell_spelling cells.now)) result }
{
    let mut sum = len;
    for cell in cells {
        sum = add_cell(sum, cell)?;
    }
    Some(sum)
}

// Each of the object's pieces names a chunk.
fn add_object(len: usize, object: &PieceObject) -> Option<usize>
    requires within { len ≤ payload_most }
    requires keeps { list_all is_keep object.now.pieces ≡ true }
    ensures { IsSum (len + length (object_spelling object.now)) result }
{
    let count = object.pieces.len();
    if count > PAYLOAD_MAX as usize {
        return None;
    }
    add(len, 8 + 13 * count)
}

fn add_objects(len: usize, objects: &[PieceObject]) -> Option<usize>
    requires within { len ≤ payload_most }
    requires keeps { list_all (λ object. list_all is_keep object.pieces) objects.now ≡ true }
    ensures { IsSum (len + length (flat_map object_spelling objects.now)) result }
{
    let mut sum = len;
    for object in objects {
        sum = add_object(sum, object)?;
    }
    Some(sum)
}

fn add_content(len: usize, content: &PieceContent) -> Option<usize>
    requires within { len ≤ payload_most }
    requires keeps { all_keep content.now ≡ true }
    ensures { IsSum (len + length (content_spelling content.now)) result }
{
    match content {
        PieceContent::Gone => add(len, 1),
        PieceContent::Row { cells, objects } => {
            let sum = add_cells(add(len, 9)?, cells.as_slice())?;
            add_objects(sum, objects.as_slice())
        }
    }
}

/// How many bytes the payload of a row has, if they are at most `PAYLOAD_MAX`.
pub fn row_size(stored: &StoredRow) -> Option<usize>
    requires { HasStoredSpelling stored.now }
    ensures { IsSum (length (row_payload stored.now)) result }
{
    add_content(29 + 20 * stored.pairs.len(), &stored.content)
}
