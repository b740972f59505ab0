ghost use Rattle.std.specs.Prelude.{◌≡◌, ◌+◌, ◌<◌, ◌^◌, length, slice_get, IfOk};
ghost use Rattle.chunker.specs.Against.{AreAgainst, IsKept};

use crate::cutting::Chunks;
use row_value::{Piece, Pieces};
use stab_base::{Bytes, ChunkName, Sequence};
use std::alloc::{AllocError, Global};

/// The chunks of an object in order, each with its name at the Store.
pub type NamedChunks = Sequence<(ChunkName, Bytes)>;

/// The name of the old chunk at this place, where it has these bytes.
fn kept(old: &NamedChunks, place: usize, chunk: &Bytes) -> Option<ChunkName>
    ensures { IsKept (slice_get old.now place) chunk.now result }
{
    let (name, bytes) = old.get(place)?;
    if bytes.as_slice() == chunk.as_slice() {
        Some(*name)
    } else {
        None
    }
}

/// What stands for each chunk of a new object: the old object's chunk at the same place where it has the same bytes,
/// else a new chunk. The new ones are numbered from `first` on.
pub fn pieces_against(
    alloc: Global,
    old: &NamedChunks,
    new: &Chunks,
    first: u32,
) -> Result<Pieces, AllocError>
    requires { first + length new.now < 2 ^ 32 }
    ensures { IfOk result (AreAgainst old.now new.now first) }
{
    let mut pieces = Pieces::new(alloc);
    let mut next = first;
    for (place, chunk) in new.as_slice().iter().enumerate() {
        match kept(old, place, chunk) {
            Some(name) => pieces.push(Piece::Keep(name))?,
            None => {
                pieces.push(Piece::Fresh(next))?;
                next += 1;
            }
        }
    }
    Ok(pieces)
}
