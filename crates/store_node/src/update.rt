//! What a request is made into, once the chunks of its row are read.
ghost use Rattle.std.specs.Prelude.{◌≡◌, ◌<◌, ◌^◌, [], ◌∷◌, ◌++◌, length, sum_by, zip, IfOk, OnOk, option_copied, drop};
ghost use Rattle.std.specs.Prelude.{slice_get};
ghost use Rattle.std.specs.List.{AllByRecursion, list_all};
ghost use Rattle.chunk_store.specs.Standing.{chunk_in};
ghost use Rattle.store_commit.specs.NamedChunks.{AreDifferent};
ghost use Rattle.step_tables.specs.Chunks.{first_of, flat, each_chunk, objects_of, cut, names_of, has_kept};
ghost use Rattle.device_laws.specs.Stands.{IsWord, HaveWords, pieced_objects, pieced_content, fresh_bytes, update_for};
ghost use Rattle.store_node.specs.Finding.{values_by};
ghost use Rattle.store_node.specs.Update.{is_fresh, fresh_of, is_found, made_if, request_of};

use crate::finding::{FoundChunks, are_found, found_in};
use crate::reading::HeldChunks;
use chunker::{Chunks, cut};
use row_value::{Cell, Cells, Content, Piece, PieceContent, PieceObject, PieceObjects, Pieces};
use stab_base::{Bytes, Sequence, SharedBytes, WriteNo};
use std::alloc::{AllocError, Global};
use step_tables::{ObjectPieces, SyncRequest};
use store_commit::Update;

// Whether the piece at a place is there, and a new one.
fn is_fresh_at(pieces: &Pieces, place: usize) -> bool
    ensures { result ≡ is_fresh (slice_get pieces.now place) }
{
    match pieces.get(place) {
        Some(Piece::Fresh(_)) => true,
        Some(Piece::Keep(_)) | None => false,
    }
}

// Adds the chunk of a piece, where it is a new one.
fn add_fresh(
    alloc: Global,
    fresh: &mut Vec<Bytes>,
    pieces: &Pieces,
    place: usize,
    chunk: &Bytes,
) -> Result<(), AllocError>
    ensures { OnOk result (fresh.new.items
        ≡ fresh.old.items ++ fresh_of (drop place pieces.now) (chunk.now ∷ [])) }
{
    if is_fresh_at(pieces, place) {
        fresh.push(Bytes::from_slice(alloc, chunk.as_slice())?)?;
    }
    Ok(())
}

// Adds the chunks of the new pieces.
fn add_all_fresh(
    alloc: Global,
    fresh: &mut Vec<Bytes>,
    pieces: &Pieces,
    chunks: &Chunks,
) -> Result<(), AllocError>
    ensures { OnOk result (fresh.new.items ≡ fresh.old.items ++ fresh_of pieces.now chunks.now) }
{
    for (place, chunk) in chunks.as_slice().iter().enumerate() {
        add_fresh(alloc, fresh, pieces, place, chunk)?;
    }
    Ok(())
}

fn copied_pieces(alloc: Global, pieces: &Pieces) -> Result<Pieces, AllocError>
    ensures { IfOk result (λ made. made ≡ pieces.now) }
{
    let mut made = Pieces::new(alloc);
    for piece in pieces.as_slice() {
        made.push(*piece)?;
    }
    Ok(made)
}

// An object by its pieces, where each chunk that it keeps is found. Its new chunks are added.
fn piece_object(
    alloc: Global,
    size: u32,
    found: &FoundChunks<'_>,
    pieces: &Pieces,
    object: &SharedBytes,
    fresh: &mut Vec<Bytes>,
) -> Result<Option<PieceObject>, AllocError>
    requires size { 0 < size }
    requires len { length object.now < 2 ^ 32 }
    ensures object { IfOk result (λ made. made
        ≡ made_if (list_all (is_found (chunk_in (values_by found.now.entries (λ bytes. bytes.now))))
        (zip pieces.now (cut size object.now)))
        (record { len = length object.now; pieces = pieces.now })) }
    ensures fresh { OnOk result (fresh.new.items
        ≡ fresh.old.items ++ fresh_bytes (zip pieces.now (cut size object.now))) }
{
    let chunks = cut(alloc, object.as_slice(), size)?;
    add_all_fresh(alloc, fresh, pieces, &chunks)?;
    if !are_found(found, pieces, &chunks) {
        return Ok(None);
    }
    let pieces = copied_pieces(alloc, pieces)?;
    Ok(Some(PieceObject {
        len: object.len() as u32,
        pieces,
    }))
}

// The pieces of the object at a place, or none.
fn pieces_at<'a>(pieces: &'a ObjectPieces, none: &'a Pieces, place: usize) -> &'a Pieces
    requires { none.now ≡ [] }
    ensures { result.now ≡ first_of (drop place pieces.now) }
{
    match pieces.get(place) {
        Some(pieces) => pieces,
        None => none,
    }
}

// The objects of a row by their pieces, and the new chunks, where each chunk that is kept is found.
fn piece_objects(
    alloc: Global,
    size: u32,
    found: &FoundChunks<'_>,
    pieces: &ObjectPieces,
    objects: &[SharedBytes],
) -> Result<Option<(PieceObjects, Sequence<Bytes>)>, AllocError>
    requires size { 0 < size }
    requires len { sum_by length objects.now < 2 ^ 32 }
    ensures { IfOk result (λ made. made
        ≡ made_if (list_all (is_found (chunk_in (values_by found.now.entries (λ bytes. bytes.now))))
        (flat (each_chunk size pieces.now objects.now)))
        (pieced_objects objects.now pieces.now, fresh_bytes (flat (each_chunk size pieces.now objects.now)))) }
{
    let none = Pieces::new(alloc);
    let mut fresh = Vec::new(alloc);
    let mut made = PieceObjects::new(alloc);
    for (place, object) in objects.iter().enumerate() {
        let here = pieces_at(pieces, &none, place);
        match piece_object(alloc, size, found, here, object, &mut fresh)? {
            Some(object) => made.push(object)?,
            None => return Ok(None),
        }
    }
    Ok(Some((made, Sequence::from_vec(fresh))))
}

// A copy of a cell, whose number is one of 64 bits.
fn copied_cell(cell: &Cell) -> Result<Cell, AllocError>
    ensures copy { IfOk result (λ made. made ≡ cell.now) }
    ensures word { OnOk result (IsWord cell.now) }
{
    match cell {
        Cell::Int(number) => Ok(Cell::Int(*number)),
        Cell::Bool(flag) => Ok(Cell::Bool(*flag)),
        Cell::Text(text) => Ok(Cell::Text(text.clone()?)),
    }
}

fn copied_cells(alloc: Global, cells: &Cells) -> Result<Cells, AllocError>
    ensures copy { IfOk result (λ made. made ≡ cells.now) }
    ensures words { OnOk result (AllByRecursion IsWord cells.now) }
{
    let mut made = Cells::new(alloc);
    for cell in cells.as_slice() {
        made.push(copied_cell(cell)?)?;
    }
    Ok(made)
}

fn pieced(
    alloc: Global,
    size: u32,
    found: &FoundChunks<'_>,
    pieces: &ObjectPieces,
    content: &Content,
) -> Result<Option<(PieceContent, Sequence<Bytes>)>, AllocError>
    requires size { 0 < size }
    requires len { sum_by length (objects_of content.now) < 2 ^ 32 }
    ensures content { IfOk result (λ made. made ≡ made_if
        (list_all (is_found (chunk_in (values_by found.now.entries (λ bytes. bytes.now))))
        (flat (each_chunk size pieces.now (objects_of content.now)))) (
          pieced_content content.now pieces.now,
          fresh_bytes (flat (each_chunk size pieces.now (objects_of content.now))),
        )) }
    ensures words { OnOk result (HaveWords content.now) }
{
    match content {
        Content::Gone => Ok(Some((PieceContent::Gone, Sequence::new(alloc)))),
        Content::Row { cells, objects } => {
            let cells = copied_cells(alloc, cells)?;
            match piece_objects(alloc, size, found, pieces, objects.as_slice())? {
                Some((objects, fresh)) => Ok(Some((PieceContent::Row { cells, objects }, fresh))),
                None => Ok(None),
            }
        }
    }
}

/// A number that is known to have 64 bits.
pub(crate) fn of_64_bits(number: WriteNo) -> WriteNo
    ensures same { result ≡ number }
    ensures few { number < 2 ^ 64 }
{
    number
}

/// What a Store takes on for a request, where these are the chunks of its row; none where a chunk that the request
/// keeps isn't one of them.
pub(crate) fn update_of(
    alloc: Global,
    size: u32,
    held: &HeldChunks,
    request: &SyncRequest,
) -> Result<Option<Update>, AllocError>
    requires size { 0 < size }
    requires len { sum_by length (objects_of request.now.content) < 2 ^ 32 }
    requires different { AreDifferent (names_of held.now) }
    ensures update { IfOk result (λ made. made
        ≡ made_if (has_kept size held.now request.now.content request.now.pieces)
        (update_for size (request_of request.now))) }
    ensures words { OnOk result (HaveWords request.now.content) }
    ensures number { OnOk result (request.now.number < 2 ^ 64) }
{
    let number = of_64_bits(request.number);
    let found = found_in(alloc, held)?;
    match pieced(alloc, size, &found, &request.pieces, &request.content)? {
        Some((content, fresh)) => Ok(Some(Update {
            row: request.row,
            client: request.client,
            number,
            base: request.base,
            content,
            fresh,
        })),
        None => Ok(None),
    }
}
