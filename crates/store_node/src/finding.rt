//! The chunks of a row by their names.
ghost use Rattle.std.specs.Prelude.{◌≡◌, ◌++◌, [], ◌∷◌, zip, IfOk, OnOk};
ghost use Rattle.std.specs.List.{list_all};
ghost use Rattle.chunk_store.specs.Standing.{chunk_in};
ghost use Rattle.step_tables.specs.Chunks.{flat};
ghost use Rattle.store_node.specs.Finding.{noted, values_by};
ghost use Rattle.store_node.specs.Update.{is_found};

use crate::reading::HeldChunks;
use chunker::{Chunks, NamedChunks};
use row_value::{Piece, Pieces};
use stab_base::{Bytes, ChunkName};
use std::alloc::{AllocError, Global};
use std::collections::BTreeMap;

/// The bytes of chunks by their names.
pub(crate) type FoundChunks<'a> = BTreeMap<ChunkName, &'a [u8]>;

// Notes the chunks of an object.
fn note_chunks<'a>(found: &mut FoundChunks<'a>, chunks: &'a NamedChunks) -> Result<(), AllocError>
    ensures { OnOk result (values_by found.new.entries (λ bytes. bytes.now)
        ≡ noted (values_by found.old.entries (λ bytes. bytes.now)) chunks.now) }
{
    for (name, bytes) in chunks.as_slice() {
        found.insert(*name, bytes.as_slice())?;
    }
    Ok(())
}

/// The chunks of a row by their names.
pub(crate) fn found_in<'a>(
    alloc: Global,
    held: &'a HeldChunks,
) -> Result<FoundChunks<'a>, AllocError>
    ensures { IfOk result (λ found. values_by found.entries (λ bytes. bytes.now) ≡ noted [] (flat held.now)) }
{
    let mut found = FoundChunks::new(alloc);
    for chunks in held.as_slice() {
        note_chunks(&mut found, chunks)?;
    }
    Ok(found)
}

// Whether the chunk of a piece is new, or one of these.
fn is_found(found: &FoundChunks<'_>, piece: Piece, chunk: &Bytes) -> bool
    ensures { result ≡ is_found (chunk_in (values_by found.now.entries (λ bytes. bytes.now))) (piece, chunk.now) }
{
    match piece {
        Piece::Keep(name) => match found.get(&name) {
            Some(bytes) => *bytes == chunk.as_slice(),
            None => false,
        },
        Piece::Fresh(_) => true,
    }
}

/// Whether each chunk of an object is new, or one of these.
pub(crate) fn are_found(found: &FoundChunks<'_>, pieces: &Pieces, chunks: &Chunks) -> bool
    ensures { result ≡ list_all (is_found (chunk_in (values_by found.now.entries (λ bytes. bytes.now))))
        (zip pieces.now chunks.now) }
{
    pieces
        .iter()
        .zip(chunks.iter())
        .all(|(piece, chunk)| is_found(found, *piece, chunk))
}
