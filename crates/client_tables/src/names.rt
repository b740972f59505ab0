ghost use Rattle.std.specs.Prelude.{◌≡◌, IfOk, ◌<◌, ◌^◌, length, take, drop};
ghost use Rattle.client_tables.specs.Names.{name_at, named_piece, named_pieces, named_object, named_objects, named};
ghost use Rattle.client_tables.specs.Names.{fresh_from};

use held_value::{HeldContent, HeldObject, HeldObjects, HeldPiece, HeldPieces};
use row_value::{Piece, Pieces};
use stab_base::{ChunkName, Sequence, Version};
use std::alloc::{AllocError, Global};

fn name_at(version: Version, piece: Piece) -> ChunkName
    ensures { result ≡ name_at version piece }
{
    match piece {
        Piece::Keep(name) => name,
        Piece::Fresh(ordinal) => ChunkName { version, ordinal },
    }
}

fn named_piece(version: Version, held: &HeldPiece, piece: Piece) -> HeldPiece
    ensures { result ≡ named_piece version held.now piece }
{
    HeldPiece {
        local: held.local,
        name: Some(name_at(version, piece)),
    }
}

fn collect_named(
    alloc: Global,
    version: Version,
    pieces: &[Piece],
    held: &[HeldPiece],
) -> Result<Vec<HeldPiece>, AllocError>
    ensures { IfOk result (λ made. made.items ≡ named_pieces version pieces.now held.now) }
{
    held.iter()
        .zip(pieces)
        .map(|(held, piece)| named_piece(version, held, *piece))
        .collect(alloc)
}

fn named_pieces(
    alloc: Global,
    version: Version,
    pieces: &[Piece],
    held: &[HeldPiece],
) -> Result<HeldPieces, AllocError>
    ensures { IfOk result (λ made. made ≡ named_pieces version pieces.now held.now) }
{
    Ok(Sequence::from_vec(collect_named(alloc, version, pieces, held)?))
}

fn parted(pieces: &[Piece], count: usize) -> (&[Piece], &[Piece])
    ensures front { result.0.now ≡ take count pieces.now }
    ensures behind { result.1.now ≡ drop count pieces.now }
{
    if count <= pieces.len() {
        pieces.split_at(count)
    } else {
        (pieces, &pieces[pieces.len()..])
    }
}

fn named_objects(
    alloc: Global,
    version: Version,
    pieces: &[Piece],
    objects: &[HeldObject],
) -> Result<HeldObjects, AllocError>
    ensures { IfOk result (λ made. made ≡ named_objects version pieces.now objects.now) }
{
    let mut named = Sequence::new(alloc);
    let mut rest = pieces;
    for object in objects {
        let (front, behind) = parted(rest, object.pieces.len());
        named.push(HeldObject {
            len: object.len,
            pieces: named_pieces(alloc, version, front, object.pieces.as_slice())?,
        })?;
        rest = behind;
    }
    Ok(named)
}

/// The content of a write that was accepted at this version, sent as these pieces, with the Store's names of its
/// chunks.
pub(crate) fn named(
    alloc: Global,
    version: Version,
    pieces: &[Piece],
    content: &HeldContent,
) -> Result<HeldContent, AllocError>
    ensures { IfOk result (λ made. made ≡ named version pieces.now content.now) }
{
    match content {
        HeldContent::Gone => Ok(HeldContent::Gone),
        HeldContent::Row { cells, objects } => Ok(HeldContent::Row {
            cells: cells.clone()?,
            objects: named_objects(alloc, version, pieces, objects.as_slice())?,
        }),
    }
}

/// So many new chunks, numbered from 0.
pub(crate) fn all_fresh(alloc: Global, pieces: &[Piece]) -> Result<Pieces, AllocError>
    requires { length pieces.now < 2 ^ 32 }
    ensures { IfOk result (λ made. made ≡ fresh_from 0 pieces.now) }
{
    let mut fresh = Sequence::new(alloc);
    let mut ordinal = 0u32;
    for _piece in pieces {
        fresh.push(Piece::Fresh(ordinal))?;
        ordinal += 1;
    }
    Ok(fresh)
}
