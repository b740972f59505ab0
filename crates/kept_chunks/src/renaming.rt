//! A content under other local names.
ghost use Rattle.std.specs.Prelude.{◌≡◌, map, IfOk};
ghost use Rattle.kept_chunks.specs.Kept.{local_for, piece_under, object_under, content_under};

use held_value::{HeldContent, HeldObject, HeldObjects, HeldPiece, HeldPieces, LocalName};
use stab_base::Sequence;
use std::alloc::{AllocError, Global};

fn local_for(locals: &[LocalName], name: LocalName) -> LocalName
    ensures { result ≡ local_for locals.now name }
{
    if name.plan == 0 {
        locals.get(name.ordinal as usize).copied().unwrap_or(name)
    } else {
        name
    }
}

fn with_local(locals: &[LocalName], piece: &HeldPiece) -> HeldPiece
    ensures { result ≡ piece_under (local_for locals.now) piece.now }
{
    HeldPiece {
        local: local_for(locals, piece.local),
        name: piece.name,
    }
}

fn collect_pieces(
    alloc: Global,
    locals: &[LocalName],
    pieces: &[HeldPiece],
) -> Result<Vec<HeldPiece>, AllocError>
    ensures { IfOk result (λ made. made.items ≡ map (piece_under (local_for locals.now)) pieces.now) }
{
    pieces
        .iter()
        .map(|piece| with_local(locals, piece))
        .collect(alloc)
}

fn renamed_pieces(
    alloc: Global,
    locals: &[LocalName],
    pieces: &[HeldPiece],
) -> Result<HeldPieces, AllocError>
    ensures { IfOk result (λ made. made ≡ map (piece_under (local_for locals.now)) pieces.now) }
{
    Ok(Sequence::from_vec(collect_pieces(alloc, locals, pieces)?))
}

fn renamed_objects(
    alloc: Global,
    locals: &[LocalName],
    objects: &[HeldObject],
) -> Result<HeldObjects, AllocError>
    ensures { IfOk result (λ made. made ≡ map (object_under (local_for locals.now)) objects.now) }
{
    let mut made = HeldObjects::new(alloc);
    for object in objects {
        made.push(HeldObject {
            len: object.len,
            pieces: renamed_pieces(alloc, locals, object.pieces.as_slice())?,
        })?;
    }
    Ok(made)
}

/// A content each of whose brought chunks has the local name of its number in a list.
pub(crate) fn renamed(
    alloc: Global,
    locals: &[LocalName],
    content: HeldContent,
) -> Result<HeldContent, AllocError>
    ensures { IfOk result (λ made. made ≡ content_under (local_for locals.now) content) }
{
    match content {
        HeldContent::Gone => Ok(HeldContent::Gone),
        HeldContent::Row { cells, objects } => {
            let objects = renamed_objects(alloc, locals, objects.as_slice())?;
            Ok(HeldContent::Row { cells, objects })
        }
    }
}
