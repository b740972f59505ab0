//! The pieces of a content, one behind the other, and their names.
ghost use Rattle.std.specs.Prelude.{◌≡◌, ◌++◌, IfOk, OnOk};
ghost use Rattle.client_journal.specs.Devs.{chunk_of};
ghost use Rattle.client_journal.specs.Names.{names_of_pieces};
ghost use Rattle.client_journal.specs.There.{HasNames};
ghost use Rattle.held_contents.specs.Holding.{pieces_held};
ghost use Rattle.kept_chunks.specs.Anew.{up_to, names_up_to};
ghost use Rattle.kept_chunks.specs.Kept.{pieces_in};

use held_value::{HeldContent, HeldObject, HeldPiece, LocalName};
use stab_base::{ChunkName, Version};
use std::alloc::{AllocError, Global};
use std::collections::BTreeSet;

/// The name of the chunk that a local name stands for.
pub(crate) fn chunk_name(name: LocalName) -> ChunkName
    ensures { result ≡ chunk_of name }
{
    ChunkName {
        version: name.plan,
        ordinal: name.ordinal,
    }
}

fn pieces_in(alloc: Global, objects: &[HeldObject]) -> Result<Vec<HeldPiece>, AllocError>
    ensures { IfOk result (λ pieces. pieces.items ≡ pieces_in objects.now) }
{
    let mut pieces = Vec::new(alloc);
    for object in objects {
        pieces.extend_from_slice(object.pieces.as_slice())?;
    }
    Ok(pieces)
}

/// The pieces of each object of a content, one behind the other.
pub(crate) fn pieces_of(alloc: Global, content: &HeldContent) -> Result<Vec<HeldPiece>, AllocError>
    ensures { IfOk result (λ pieces. pieces.items ≡ pieces_held content.now) }
{
    match content {
        HeldContent::Gone => Ok(Vec::new(alloc)),
        HeldContent::Row { objects, .. } => pieces_in(alloc, objects.as_slice()),
    }
}

/// The local names of these pieces.
pub(crate) fn taken_by(
    alloc: Global,
    pieces: &[HeldPiece],
) -> Result<BTreeSet<ChunkName>, AllocError>
    ensures { IfOk result (HasNames (names_of_pieces pieces.now)) }
{
    let mut taken = BTreeSet::new(alloc);
    for piece in pieces {
        taken.insert(chunk_name(piece.local))?;
    }
    Ok(taken)
}

// A name up to a version.
fn up_to(name: Option<ChunkName>, version: Version) -> Option<ChunkName>
    ensures { result ≡ up_to version name }
{
    let name = name?;
    if name.version <= version {
        Some(name)
    } else {
        None
    }
}

/// The Store's names of the chunks that are brought, in order, as far as they are up to a version.
pub(crate) fn names_brought(
    alloc: Global,
    pieces: &[HeldPiece],
    version: Version,
) -> Result<Vec<Option<ChunkName>>, AllocError>
    ensures { IfOk result (λ names. names.items ≡ names_up_to version pieces.now) }
{
    pieces
        .iter()
        .copied()
        .filter(|piece| piece.local.plan == 0)
        .map(|piece| up_to(piece.name, version))
        .collect(alloc)
}
