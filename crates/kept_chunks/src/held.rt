//! The chunks that are held of a row, by the Store's names.
ghost use Rattle.std.specs.Prelude.{◌≡◌, None, IfSome};
ghost use Rattle.kept_chunks.specs.Kept.{IsHeldAs};

use held_contents::ShownChunks;
use held_value::{HeldPiece, LocalName};
use stab_base::{Bytes, ChunkName};
use std::alloc::{AllocError, Global};
use std::collections::BTreeMap;

/// Where the chunk of each name stands: the number of its object, and its place in it.
pub(crate) type Places = BTreeMap<ChunkName, (usize, usize)>;

// Adds the places of an object's chunks.
fn add_places(
    places: &mut Places,
    object: usize,
    chunks: &[(HeldPiece, Bytes)],
) -> Result<(), AllocError> {
    for (place, (piece, _bytes)) in chunks.iter().enumerate() {
        if let Some(name) = piece.name {
            places.insert(name, (object, place))?;
        }
    }
    Ok(())
}

/// The places of the chunks that are held.
pub(crate) fn places_of(alloc: Global, held: &[ShownChunks]) -> Result<Places, AllocError> {
    let mut places = Places::new(alloc);
    for (object, chunks) in held.iter().enumerate() {
        add_places(&mut places, object, chunks.as_slice())?;
    }
    Ok(places)
}

/// The local name of the chunk that is held under this name with these bytes.
pub(crate) fn held_under(
    held: &[ShownChunks],
    places: &Places,
    name: Option<ChunkName>,
    bytes: &Bytes,
) -> Option<LocalName>
    ensures held { IfSome result (λ local. IsHeldAs held.now local bytes.now) }
    ensures unnamed { name ≡ None → result ≡ None }
{
    let (object, place) = *places.get(&name?)?;
    let chunks = held.get(object)?.as_slice();
    let (piece, before) = chunks.get(place)?;
    if before.as_slice() == bytes.as_slice() {
        Some(piece.local)
    } else {
        None
    }
}
