//! Contents by their pieces.
ghost use Rattle.std.specs.Prelude.{◌≡◌, ◌<◌, ◌^◌, true, [], map, length, slice_index_or, IfOk};
ghost use Rattle.std.specs.List.{list_all};
ghost use Rattle.row_value.specs.declared.pieces.Piece.TheVariants.{Keep};
ghost use Rattle.part_tables.specs.Parts.{objects_by, spelled_by, kept};
ghost use Rattle.message_parts.specs.Splits.{is_short, has_words};

use row_value::{Content, Piece, PieceContent, PieceObject, PieceObjects, Pieces};
use stab_base::{Names, SharedBytes};
use std::alloc::{AllocError, Global};
use step_tables::{ObjectNames, ObjectPieces};

fn kept_object(alloc: Global, names: &Names) -> Result<Pieces, AllocError>
    ensures { IfOk result (λ made. made ≡ map (λ name. Keep name) names.now) }
{
    let mut pieces = Pieces::new(alloc);
    for name in names.as_slice() {
        pieces.push(Piece::Keep(*name))?;
    }
    Ok(pieces)
}

/// A kept piece for each name.
pub(crate) fn kept(alloc: Global, names: &ObjectNames) -> Result<ObjectPieces, AllocError>
    ensures { IfOk result (λ made. made ≡ kept names.now) }
{
    let mut pieces = ObjectPieces::new(alloc);
    for object in names.as_slice() {
        pieces.push(kept_object(alloc, object)?)?;
    }
    Ok(pieces)
}

// The pieces of the object of this number.
fn pieces_at(alloc: Global, pieces: &[Pieces], number: usize) -> Result<Pieces, AllocError>
    ensures { IfOk result (λ made. made ≡ slice_index_or pieces.now number []) }
{
    match pieces.get(number) {
        Some(pieces) => pieces.clone(),
        None => Ok(Pieces::new(alloc)),
    }
}

fn object_by(object: &SharedBytes, pieces: Pieces) -> PieceObject
    requires { length object.now < 2 ^ 32 }
    ensures { result ≡ record { len = length object.now; pieces = pieces } }
{
    PieceObject {
        len: object.len() as u32,
        pieces,
    }
}

fn objects_by(
    alloc: Global,
    objects: &[SharedBytes],
    pieces: &[Pieces],
) -> Result<PieceObjects, AllocError>
    requires { list_all is_short objects.now ≡ true }
    ensures { IfOk result (λ made. made ≡ objects_by objects.now pieces.now) }
{
    let mut made = PieceObjects::new(alloc);
    for (number, object) in objects.iter().enumerate() {
        let pieces = pieces_at(alloc, pieces, number)?;
        made.push(object_by(object, pieces))?;
    }
    Ok(made)
}

/// A content by these pieces. Its objects aren't copied.
pub(crate) fn spelled(
    alloc: Global,
    content: &Content,
    pieces: &ObjectPieces,
) -> Result<PieceContent, AllocError>
    requires { has_words content.now pieces.now ≡ true }
    ensures { IfOk result (λ made. made ≡ spelled_by content.now pieces.now) }
{
    match content {
        Content::Gone => Ok(PieceContent::Gone),
        Content::Row { cells, objects } => Ok(PieceContent::Row {
            cells: cells.clone()?,
            objects: objects_by(alloc, objects.as_slice(), pieces.as_slice())?,
        }),
    }
}
