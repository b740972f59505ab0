//! The header of a row, with a content.
ghost use Rattle.std.specs.Prelude.{◌≡◌, map, IfOk};
ghost use Rattle.step_tables.specs.Chunks.{kept_in};
ghost use Rattle.step_tables.specs.Travels.{header_of};
ghost use Rattle.part_tables.specs.ClientParts.{names_in, header_with};
ghost use Rattle.message_parts.specs.Parts.{row_head_of};

use assemblies::{Piece, PieceContent, PieceObject};
use row_value::Content;
use stab_base::Names;
use std::alloc::{AllocError, Global};
use step_tables::ObjectNames;
use table_model::RowHeader;

fn kept_in(alloc: Global, pieces: &[Piece]) -> Result<Names, AllocError>
    ensures { IfOk result (λ kept. kept ≡ kept_in pieces.now) }
{
    let mut kept = Names::new(alloc);
    for piece in pieces {
        if let Piece::Keep(name) = piece {
            kept.push(*name)?;
        }
    }
    Ok(kept)
}

fn names_for(alloc: Global, objects: &[PieceObject]) -> Result<ObjectNames, AllocError>
    ensures { IfOk result (λ names. names ≡ map (λ object. kept_in object.pieces) objects.now) }
{
    let mut names = ObjectNames::new(alloc);
    for object in objects {
        names.push(kept_in(alloc, object.pieces.as_slice())?)?;
    }
    Ok(names)
}

/// The names that the pieces of each object keep.
pub(crate) fn names_in(alloc: Global, content: &PieceContent) -> Result<ObjectNames, AllocError>
    ensures { IfOk result (λ names. names ≡ names_in content.now) }
{
    match content {
        PieceContent::Gone => Ok(ObjectNames::new(alloc)),
        PieceContent::Row { objects, .. } => names_for(alloc, objects.as_slice()),
    }
}

/// The header of a row with this content.
pub(crate) fn header_with(
    alloc: Global,
    row: &RowHeader,
    content: Content,
) -> Result<step_tables::RowHeader, AllocError>
    ensures { IfOk result (λ made. header_of made ≡ header_with (row_head_of row.now) content) }
{
    Ok(step_tables::RowHeader {
        row: row.row,
        version: row.version,
        yours: step_tables::Yours {
            number: row.yours.number,
            version: row.yours.version,
        },
        content,
        names: names_in(alloc, &row.content)?,
    })
}
