//! An update of a row to new chunks alone.
ghost use Rattle.std.specs.Prelude.{◌≡◌, ◌≤◌, length, IfOk};
ghost use Rattle.new_rows.specs.NewRow.{new_pieces, new_content, AreNewChunks, IsNewUpdate};

use row_value::{Cells, Piece, PieceContent, PieceObject, PieceObjects, Pieces};
use stab_base::{Bytes, RowId, Sequence};
use std::alloc::{AllocError, Global};
use store_commit::Update;

/// The most chunks that a row has.
pub const CHUNKS_MAX: u32 = 32_768;

// The row's id: its number behind eight zeros.
fn id_of(row: u64) -> RowId {
    let mut bytes = [0u8; 16];
    bytes[8..].copy_from_slice(&row.to_be_bytes());
    RowId::from_bytes(bytes)
}

// What each byte of a chunk is: the update's number above the chunk's ordinal, four bits of each.
fn byte_of(number: u64, ordinal: u32) -> u8 {
    let high = (number % 16) as u8;
    let low = (ordinal % 16) as u8;
    16 * high + low
}

fn one_chunk(alloc: Global, byte: u8) -> Result<Bytes, AllocError>
    ensures { IfOk result (λ chunk. length chunk ≡ 64) }
{
    let bytes = vec![in alloc; byte; 64]?;
    Ok(Bytes::from_vec(bytes))
}

fn new_chunks(alloc: Global, number: u64, count: u32) -> Result<Sequence<Bytes>, AllocError>
    ensures { IfOk result (AreNewChunks count) }
{
    let mut chunks = Sequence::new(alloc);
    for ordinal in 0..count {
        let chunk = one_chunk(alloc, byte_of(number, ordinal))?;
        chunks.push(chunk)?;
    }
    Ok(chunks)
}

fn pieces_of(alloc: Global, count: u32) -> Result<Vec<Piece>, AllocError>
    ensures { IfOk result (λ made. made.items ≡ new_pieces count) }
{
    (0..count)
        .map(|ordinal| Piece::Fresh(ordinal))
        .collect(alloc)
}

fn content_of(alloc: Global, count: u32) -> Result<PieceContent, AllocError>
    requires { count ≤ 32768 }
    ensures { IfOk result (λ content. content ≡ new_content count) }
{
    let pieces = pieces_of(alloc, count)?;
    let mut objects = PieceObjects::new(alloc);
    objects.push(PieceObject {
        len: 64 * count,
        pieces: Pieces::from_vec(pieces),
    })?;
    Ok(PieceContent::Row {
        cells: Cells::new(alloc),
        objects,
    })
}

/// A client's write of a row: one object of so many new chunks.
pub(crate) fn update_of(
    alloc: Global,
    row: u64,
    number: u64,
    count: u32,
) -> Result<Update, AllocError>
    requires { count ≤ 32768 }
    ensures { IfOk result (IsNewUpdate count) }
{
    let content = content_of(alloc, count)?;
    let fresh = new_chunks(alloc, number, count)?;
    Ok(Update {
        row: id_of(row),
        client: 1,
        number,
        base: 0,
        content,
        fresh,
    })
}
