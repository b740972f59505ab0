//! How a request spells the chunks of a content.
ghost use Rattle.std.specs.Prelude.{◌≡◌, ◌∷◌, ◌++◌, ◌+◌, ◌<◌, ◌^◌, [], IfOk, OnOk, length, map};
ghost use Rattle.std.specs.List.{AllByRecursion};
ghost use Rattle.field_codec.specs.Forms.{AreEach};
ghost use Rattle.value_codec.specs.Spelling.{HasPieceSpelling};
ghost use Rattle.step_tables.specs.Chunks.{first_of, flat, cut, objects_of, kept_as, piece_by, next_by};
ghost use Rattle.journal_laws.specs.Whole.{pieces_by, split_by};
ghost use Rattle.held_contents.specs.Request.{known_of, known_in, bytes_of, bytes_in, request_pieces, Spelled};

use crate::holding::behind;
use chunker::cut;
use client_tables::ShownChunks;
use held_value::{HeldContent, HeldObject, HeldPiece, LocalName};
use row_value::{Content, Piece, Pieces};
use stab_base::{Bytes, ChunkName, Sequence, SharedBytes};
use std::alloc::{AllocError, Global};
use step_tables::ObjectPieces;

// The Store's name of the chunk that was read first, where it has these bytes and its name is known.
fn kept(read: &[(HeldPiece, Bytes)], bytes: &Bytes) -> Option<ChunkName>
    ensures { result ≡ kept_as (known_of read.now) bytes.now }
{
    match read.first() {
        None => None,
        Some((piece, old)) => {
            if old.as_slice() == bytes.as_slice() {
                piece.name
            } else {
                None
            }
        }
    }
}

fn piece_by(next: u32, kept: Option<ChunkName>) -> Piece
    ensures value { result ≡ piece_by next kept }
    ensures spelled { HasPieceSpelling result }
{
    match kept {
        None => Piece::Fresh(next),
        Some(name) => Piece::Keep(name),
    }
}

fn next_by(next: u32, kept: Option<ChunkName>) -> u32
    requires { next + 1 < 2 ^ 32 }
    ensures { result ≡ next_by next kept }
{
    match kept {
        None => next + 1,
        Some(_) => next,
    }
}

// Adds the piece of a chunk; the number of the next new chunk behind it.
fn spell_chunk(
    read: &[(HeldPiece, Bytes)],
    bytes: &Bytes,
    next: u32,
    pieces: &mut Pieces,
) -> Result<u32, AllocError>
    requires { next + 1 < 2 ^ 32 }
    ensures next { IfOk result (λ after. after ≡ next_by next (kept_as (known_of read.now) bytes.now)) }
    ensures adds { OnOk result (pieces.new
        ≡ pieces.old ++ piece_by next (kept_as (known_of read.now) bytes.now) ∷ []) }
    ensures spelled { OnOk result (AllByRecursion HasPieceSpelling pieces.old
        → AllByRecursion HasPieceSpelling pieces.new) }
{
    let kept = kept(read, bytes);
    pieces.push(piece_by(next, kept))?;
    Ok(next_by(next, kept))
}

// Adds the pieces of an object.
fn spell_object(
    read: &[(HeldPiece, Bytes)],
    now: &[(HeldPiece, Bytes)],
    next: u32,
    pieces: &mut Pieces,
) -> Result<u32, AllocError>
    requires { next + length now.now < 2 ^ 32 }
    ensures { IfOk result (Spelled (known_of read.now) (bytes_of now.now) next pieces.old pieces.new) }
{
    let mut left = read;
    let mut number = next;
    for (_piece, bytes) in now {
        number = spell_chunk(left, bytes, number, pieces)?;
        left = behind(left);
    }
    Ok(number)
}

// The same against the first object that was read.
fn spell_first(
    read: &[ShownChunks],
    now: &[(HeldPiece, Bytes)],
    next: u32,
    pieces: &mut Pieces,
) -> Result<u32, AllocError>
    requires { next + length now.now < 2 ^ 32 }
    ensures { IfOk result (Spelled (first_of (known_in read.now)) (bytes_of now.now) next pieces.old pieces.new) }
{
    match read.first() {
        None => spell_object(&[], now, next, pieces),
        Some(first) => spell_object(first.as_slice(), now, next, pieces),
    }
}

fn spell_all(alloc: Global, read: &[ShownChunks], now: &[ShownChunks]) -> Result<Pieces, AllocError>
    requires { length (flat (bytes_in now.now)) < 2 ^ 32 }
    ensures pieces { IfOk result (λ pieces. pieces ≡ request_pieces read.now (bytes_in now.now)) }
    ensures spelled { IfOk result (AllByRecursion HasPieceSpelling) }
{
    let mut pieces = Pieces::new(alloc);
    let mut left = read;
    let mut next = 0;
    for object in now {
        next = spell_first(left, object.as_slice(), next, &mut pieces)?;
        left = behind(left);
    }
    Ok(pieces)
}

/// How a request spells the chunks of a content: a chunk that was read last at the same place of the object at the same
/// place is kept, where the Store's name of it is known, and the others are new, numbered from 0 in their order. Both
/// are as `read_chunks` gives them.
pub fn spell(
    alloc: Global,
    read: &Sequence<ShownChunks>,
    now: &Sequence<ShownChunks>,
) -> Result<Pieces, AllocError>
    requires { length (flat (bytes_in now.now)) < 2 ^ 32 }
    ensures pieces { IfOk result (λ pieces. pieces ≡ request_pieces read.now (bytes_in now.now)) }
    ensures count { IfOk result (λ pieces. length pieces ≡ length (flat (bytes_in now.now))) }
    ensures spelled { IfOk result (AreEach HasPieceSpelling) }
{
    spell_all(alloc, read.as_slice(), now.as_slice())
}

// A chunk that isn't held yet.
fn unheld(bytes: Bytes) -> (HeldPiece, Bytes)
    ensures { result.1 ≡ bytes }
{
    let local = LocalName {
        plan: 0,
        ordinal: 0,
    };
    (HeldPiece { local, name: None }, bytes)
}

fn cut_object(alloc: Global, size: u32, object: &SharedBytes) -> Result<ShownChunks, AllocError>
    requires { 0 < size }
    ensures { IfOk result (λ made. bytes_of made ≡ cut size object.now) }
{
    let chunks = cut(alloc, object.as_slice(), size)?;
    let mut made = ShownChunks::new(alloc);
    for bytes in chunks.into_vec() {
        made.push(unheld(bytes))?;
    }
    Ok(made)
}

fn cut_objects(
    alloc: Global,
    size: u32,
    objects: &[SharedBytes],
) -> Result<Sequence<ShownChunks>, AllocError>
    requires { 0 < size }
    ensures { IfOk result (λ made. bytes_in made ≡ map (cut size) objects.now) }
{
    let mut made = Sequence::new(alloc);
    for object in objects {
        made.push(cut_object(alloc, size, object)?)?;
    }
    Ok(made)
}

/// The chunks of each object of a content that isn't held yet, in chunks of a size. No name stands for them.
pub fn cut_content(
    alloc: Global,
    size: u32,
    content: &Content,
) -> Result<Sequence<ShownChunks>, AllocError>
    requires size { 0 < size }
    ensures { IfOk result (λ made. bytes_in made ≡ map (cut size) (objects_of content.now)) }
{
    match content {
        Content::Gone => Ok(Sequence::new(alloc)),
        Content::Row { objects, .. } => cut_objects(alloc, size, objects.as_slice()),
    }
}

fn split(
    alloc: Global,
    objects: &[HeldObject],
    pieces: &[Piece],
) -> Result<ObjectPieces, AllocError>
    ensures { IfOk result (λ made. made ≡ split_by objects.now pieces.now) }
{
    let mut made = ObjectPieces::new(alloc);
    let mut left = pieces;
    for object in objects {
        let (front, rest) = left.split_at(left.len().min(object.pieces.len()));
        made.push(Pieces::from_vec(Vec::from_slice(alloc, front)?))?;
        left = rest;
    }
    Ok(made)
}

/// Pieces one behind the other in a list an object: as many for each as it has chunks.
pub fn pieces_by_object(
    alloc: Global,
    content: &HeldContent,
    pieces: &Pieces,
) -> Result<ObjectPieces, AllocError>
    ensures { IfOk result (λ objects. objects ≡ pieces_by content.now pieces.now) }
{
    match content {
        HeldContent::Gone => Ok(ObjectPieces::new(alloc)),
        HeldContent::Row { objects, .. } => split(alloc, objects.as_slice(), pieces.as_slice()),
    }
}
