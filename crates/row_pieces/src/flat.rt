//! What is said of the chunks of all objects, one behind the other.
ghost use Rattle.std.specs.Prelude.{◌≡◌, IfOk};
ghost use Rattle.step_tables.specs.Chunks.{flat};

use row_value::{Piece, Pieces};
use stab_base::{ChunkName, Names};
use std::alloc::{AllocError, Global};

pub(crate) fn all_pieces(alloc: Global, objects: &[Pieces]) -> Result<Vec<Piece>, AllocError>
    ensures { IfOk result (λ all. all.items ≡ flat objects.now) }
{
    let mut all = Vec::new(alloc);
    for object in objects {
        all.extend_from_slice(object.as_slice())?;
    }
    Ok(all)
}

pub(crate) fn all_names(alloc: Global, objects: &[Names]) -> Result<Vec<ChunkName>, AllocError>
    ensures { IfOk result (λ all. all.items ≡ flat objects.now) }
{
    let mut all = Vec::new(alloc);
    for object in objects {
        all.extend_from_slice(object.as_slice())?;
    }
    Ok(all)
}
