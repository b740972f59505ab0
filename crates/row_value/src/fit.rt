ghost use Rattle.std.specs.Prelude.{◌≡◌, ◌↔◌, ◌<◌, ◌≤◌, ◌+◌, ◌-◌, ◌^◌, IfSome, IsTrue, IsUtf8, length, min, sum_by};
ghost use Rattle.std.specs.Prelude.{position, slice_get};
ghost use Rattle.row_value.specs.Fit.{is_text, is_of, is_object, cell_count, room_behind, room_at, has_cell};
ghost use Rattle.row_value.specs.Fit.{has_object, wrong_in};
ghost use Rattle.row_value.specs.Fit.{or_surplus, misfit, object_misfit, cell_len, len_of, chunk_count, chunks_of};
ghost use Rattle.row_value.specs.Fit.{size_fit, fit_of};

use crate::content::{Cell, Cells, Content, Objects};
use crate::schema::{Column, ColumnKind, Schema};
use simdutf8::basic::from_utf8;
use stab_base::SharedBytes;
use thiserror::Error;

/// The most bytes of a text.
const TEXT_MOST: usize = 65_535;

/// The most bytes that spell the cells of a row.
const SPELLED_MOST: usize = 524_288;

/// The most bytes of an object.
const OBJECT_MOST: usize = 4_194_304;

/// The most bytes of a row's cells and objects.
const ROW_MOST: usize = 16_777_216;

/// The most chunks of a row.
const CHUNKS_MOST: usize = 32_768;

/// Why a content isn't one of a table's rows.
#[derive(Debug, Drop, Clone, Copy, PartialEq, Eq, Error)]
pub enum FitFault {
    /// The first cell column whose cell is missing, of another kind, a text that is too long or not UTF-8, or brings
    /// the spelled cells above their limit. One cell too many names the number of cell columns.
    #[error("column {column} has no cell of its kind")]
    BadCell { column: usize },
    /// The first object column whose object is missing, with length 0, or too long. One object too many names the
    /// number of columns and the object's length in bytes.
    #[error("column {column} is not one for an object of {len} bytes")]
    BadObject { column: usize, len: usize },
    /// The cells and objects have more bytes than a row may have.
    #[error("a row of {len} bytes is too large")]
    RowTooLarge { len: usize },
    /// The objects have more chunks than a row may have.
    #[error("{count} chunks are too many")]
    TooManyChunks { count: usize },
}

fn is_utf8(bytes: &[u8]) -> bool
    ensures { IsTrue result ↔ IsUtf8 bytes.now }
{
    from_utf8(bytes).is_ok()
}

fn is_text(bytes: &[u8]) -> bool
    ensures { result ≡ is_text bytes.now }
{
    bytes.len() <= TEXT_MOST && is_utf8(bytes)
}

fn is_of(kind: ColumnKind, cell: &Cell) -> bool
    ensures { result ≡ is_of kind cell.now }
{
    match (kind, cell) {
        (ColumnKind::Int, Cell::Int(_)) => true,
        (ColumnKind::Bool, Cell::Bool(_)) => true,
        (ColumnKind::Text, Cell::Text(text)) => is_text(text.as_slice()),
        _ => false,
    }
}

/// What is left of the room for spelled cells behind a cell that is one of this column. None where it isn't one, or the
/// room is too small.
fn room_behind(room: usize, kind: ColumnKind, cell: &Cell) -> Option<usize>
    ensures { result ≡ room_behind room kind cell.now }
{
    if !is_of(kind, cell) {
        return None;
    }
    match cell {
        Cell::Int(_) => room.checked_sub(9),
        Cell::Bool(_) => room.checked_sub(2),
        Cell::Text(text) => room.checked_sub(5)?.checked_sub(text.len()),
    }
}

/// What is left of the room behind the cell at a place.
fn room_at(room: usize, kind: ColumnKind, cells: &Cells, place: usize) -> Option<usize>
    ensures { result ≡ room_at room kind (slice_get cells.now place) }
{
    match cells.get(place) {
        None => None,
        Some(cell) => room_behind(room, kind, cell),
    }
}

fn first_wrong_cell(columns: &[Column], cells: &Cells) -> Option<usize>
    ensures { result ≡ wrong_in (has_cell columns.now cells.now) (length columns.now) }
{
    let mut room = SPELLED_MOST;
    for (place, column) in columns.iter().enumerate() {
        match room_at(room, column.kind, cells, place) {
            None => return Some(place),
            Some(rest) => room = rest,
        }
    }
    None
}

/// The first of so many places that isn't right, else the place behind them where more are given.
fn or_surplus(places: usize, given: usize, wrong: Option<usize>) -> Option<usize>
    ensures { result ≡ or_surplus places given wrong }
{
    match wrong {
        Some(place) => Some(place),
        None if places < given => Some(places),
        None => None,
    }
}

fn misfit(columns: &[Column], cells: &Cells) -> Option<usize>
    ensures { result ≡ misfit columns.now cells.now }
{
    or_surplus(columns.len(), cells.len(), first_wrong_cell(columns, cells))
}

fn is_short(objects: &Objects, place: usize) -> bool
    ensures { result ≡ has_object objects.now place }
{
    match objects.get(place) {
        None => false,
        Some(object) => object.len() <= OBJECT_MOST,
    }
}

fn first_wrong_object(columns: usize, objects: &Objects) -> Option<usize>
    ensures within { IfSome result (λ place. place < columns) }
    ensures value { result ≡ wrong_in (has_object objects.now) columns }
{
    for place in 0..columns {
        if !is_short(objects, place) {
            return Some(place);
        }
    }
    None
}

fn object_misfit(columns: usize, objects: &Objects) -> Option<usize>
    ensures value { result ≡ object_misfit columns objects.now }
    ensures within { IfSome result (λ place. place ≤ columns) }
{
    or_surplus(columns, objects.len(), first_wrong_object(columns, objects))
}

fn is_object(kind: ColumnKind) -> bool
    ensures { result ≡ is_object kind }
{
    match kind {
        ColumnKind::Object => true,
        ColumnKind::Int | ColumnKind::Bool | ColumnKind::Text => false,
    }
}

fn first_object(columns: &[Column]) -> Option<usize>
    ensures value { result ≡ position (λ column. is_object column.kind) columns.now }
    ensures within { IfSome result (λ place. place < length columns.now) }
{
    columns.iter().position(|column| is_object(column.kind))
}

fn cell_count(columns: &[Column]) -> usize
    ensures count { result ≡ cell_count columns.now }
    ensures within { result ≤ length columns.now }
{
    match first_object(columns) {
        Some(place) => place,
        None => columns.len(),
    }
}

fn cell_len(cell: &Cell) -> usize
    ensures { result ≡ cell_len cell.now }
{
    match cell {
        Cell::Int(_) => 8,
        Cell::Bool(_) => 1,
        Cell::Text(text) => text.len(),
    }
}

fn len_of_cells(cells: &[Cell]) -> usize
    ensures { result ≡ min (sum_by cell_len cells.now) (2 ^ 64 - 1) }
{
    let mut len: usize = 0;
    for cell in cells {
        len = len.saturating_add(cell_len(cell));
    }
    len
}

fn len_of_objects(objects: &[SharedBytes]) -> usize
    ensures { result ≡ min (sum_by length objects.now) (2 ^ 64 - 1) }
{
    let mut len: usize = 0;
    for object in objects {
        len = len.saturating_add(object.len());
    }
    len
}

fn chunk_count(size: u32, object: &SharedBytes) -> usize
    ensures { result ≡ chunk_count size object.now }
{
    match size {
        0 => 0,
        _ => object.len().div_ceil(size as usize),
    }
}

fn chunks_of(size: u32, objects: &[SharedBytes]) -> usize
    requires { sum_by length objects.now < 2 ^ 64 }
    ensures { result ≡ chunks_of size objects.now }
{
    let mut count: usize = 0;
    for object in objects {
        count += chunk_count(size, object);
    }
    count
}

fn size_fit(size: u32, cells: &[Cell], objects: &[SharedBytes]) -> Result<(), FitFault>
    ensures { result ≡ size_fit size cells.now objects.now }
{
    let len = len_of_cells(cells).saturating_add(len_of_objects(objects));
    if len > ROW_MOST {
        return Err(FitFault::RowTooLarge { len });
    }
    let count = chunks_of(size, objects);
    if count > CHUNKS_MOST {
        return Err(FitFault::TooManyChunks { count });
    }
    Ok(())
}

fn len_at(objects: &Objects, place: usize) -> usize
    ensures { result ≡ len_of (slice_get objects.now place) }
{
    match objects.get(place) {
        None => 0,
        Some(object) => object.len(),
    }
}

/// Whether a content is a row of this table: a cell for each cell column, of its kind, and an object for each object
/// column, each text, the spelled cells, each object, the row and its chunks within their limits. A deleted row always
/// is. Of several faults the first column's is told, cells first, then objects, then the row's size, then its chunks.
pub fn fits(schema: &Schema, content: &Content) -> Result<(), FitFault>
    ensures { result ≡ fit_of schema.now content.now }
{
    let Content::Row { cells, objects } = content else {
        return Ok(());
    };
    let columns = schema.columns.as_slice();
    let count = cell_count(columns);
    if let Some(column) = misfit(&columns[..count], cells) {
        return Err(FitFault::BadCell { column });
    }
    if let Some(place) = object_misfit(columns.len() - count, objects) {
        return Err(FitFault::BadObject {
            column: count + place,
            len: len_at(objects, place),
        });
    }
    size_fit(schema.chunk, cells.as_slice(), objects.as_slice())
}
