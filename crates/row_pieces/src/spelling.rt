ghost use Rattle.std.specs.Prelude.{◌≡◌, ◌<◌, ◌≤◌, ◌^◌, IfOk, IfSome, true};
ghost use Rattle.std.specs.List.{AllByRecursion};
ghost use Rattle.value_codec.specs.Spelling.{HasPieceSpelling};
ghost use Rattle.step_tables.specs.Chunks.{is_spelled, are_counted, kept_in};
ghost use Rattle.row_pieces.specs.Counted.{counted_by};

use crate::apart::are_apart;
use crate::counts::is_of_each;
use crate::flat::all_pieces;
use row_value::{Content, Piece};
use stab_base::ChunkName;
use std::alloc::{AllocError, Global};
use step_tables::ObjectPieces;

// The number of the next new chunk behind a piece, if the piece is as it is to be.
fn behind(next: u64, piece: Piece) -> Option<u64>
    requires { next ≤ 2 ^ 32 }
    ensures next { result ≡ counted_by next piece }
    ensures within { IfSome result (λ next. next ≤ 2 ^ 32) }
    ensures spelled { HasPieceSpelling piece }
{
    match piece {
        Piece::Keep(_) => Some(next),
        Piece::Fresh(ordinal) => {
            if ordinal as u64 == next {
                Some(next + 1)
            } else {
                None
            }
        }
    }
}

// Whether the new chunks are numbered in order.
fn are_counted(pieces: &[Piece]) -> bool
    ensures counted { result ≡ are_counted 0 pieces.now }
    ensures spelled { result ≡ true → AllByRecursion HasPieceSpelling pieces.now }
{
    let mut next = 0;
    for piece in pieces {
        match behind(next, *piece) {
            None => return false,
            Some(more) => next = more,
        }
    }
    true
}

// The names that are kept.
fn kept_in(alloc: Global, pieces: &[Piece]) -> Result<Vec<ChunkName>, AllocError>
    ensures { IfOk result (λ kept. kept.items ≡ kept_in pieces.now) }
{
    let mut kept = Vec::new(alloc);
    for piece in pieces {
        if let Piece::Keep(name) = piece {
            kept.push(*name)?;
        }
    }
    Ok(kept)
}

/// Whether these pieces spell a content in chunks of a size: one for each chunk of each object, the new ones numbered
/// from 0 in their order through all objects, and no name kept twice. Pieces that do have spellings.
pub fn is_spelled(
    alloc: Global,
    size: u32,
    content: &Content,
    pieces: &ObjectPieces,
) -> Result<bool, AllocError>
    requires size { 0 < size }
    ensures spells { IfOk result (λ is. is ≡ is_spelled size content.now pieces.now) }
    ensures spelled { IfOk result (λ is. is ≡ true → AllByRecursion (AllByRecursion HasPieceSpelling) pieces.now) }
{
    if !is_of_each(size, pieces.as_slice(), content) {
        return Ok(false);
    }
    let all = all_pieces(alloc, pieces.as_slice())?;
    if !are_counted(&all) {
        return Ok(false);
    }
    let kept = kept_in(alloc, &all)?;
    are_apart(alloc, &kept)
}
