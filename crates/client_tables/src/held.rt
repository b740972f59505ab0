ghost use Rattle.std.specs.Prelude.{◌≡◌, ◌+◌, ◌<◌, ◌^◌, ◌++◌, IfOk, length, drop, option_copied};
ghost use Rattle.client_tables.specs.Held.{kept_in, piece_for, or_name, held_pieces, brought};

use held_value::{HeldPiece, HeldPieces, LocalName};
use stab_base::{Bytes, ChunkName, Sequence};
use std::alloc::{AllocError, Global};

/// The chunks of an object that a row shows, in order, and what holds them.
pub type ShownChunks = Sequence<(HeldPiece, Bytes)>;

/// The chunks of a new object in order, each with its name at the Store where it is known.
pub type NewChunks = Sequence<(Option<ChunkName>, Bytes)>;

/// What holds the chunks of a new object, and the chunks that are brought.
#[derive(Debug, Drop)]
pub struct HeldChunks {
    pub pieces: HeldPieces,
    pub brought: Sequence<Bytes>,
}

fn kept_in(shown: &[(HeldPiece, Bytes)], bytes: &Bytes) -> Option<HeldPiece>
    ensures { result ≡ kept_in shown.now bytes.now }
{
    let (kept, before) = shown.first()?;
    if before.as_slice() == bytes.as_slice() {
        Some(*kept)
    } else {
        None
    }
}

fn behind(shown: &[(HeldPiece, Bytes)]) -> &[(HeldPiece, Bytes)]
    ensures { result.now ≡ drop 1 shown.now }
{
    match shown.split_first() {
        None => shown,
        Some((_first, rest)) => rest,
    }
}

fn piece_for(next: u32, name: Option<ChunkName>, kept: Option<HeldPiece>) -> HeldPiece
    ensures { result ≡ piece_for next name kept }
{
    match kept {
        None => HeldPiece {
            local: LocalName {
                plan: 0,
                ordinal: next,
            },
            name,
        },
        Some(kept) => HeldPiece {
            local: kept.local,
            name: name.or(kept.name),
        },
    }
}

/// What holds the chunks of a new object: a chunk that equals the one that the row shows at its place keeps its local
/// name, and the others are brought, numbered from `first` on.
pub fn held_against(
    alloc: Global,
    shown: &ShownChunks,
    new: NewChunks,
    first: u32,
) -> Result<HeldChunks, AllocError>
    requires { first + length new < 2 ^ 32 }
    ensures pieces { IfOk result (λ held. held.pieces ≡ held_pieces shown.now new first) }
    ensures chunks { IfOk result (λ held. held.brought ≡ brought shown.now new) }
{
    let mut pieces = Sequence::new(alloc);
    let mut chunks = Sequence::new(alloc);
    let mut left = shown.as_slice();
    let mut next = first;
    for (name, bytes) in new.into_vec() {
        let kept = kept_in(left, &bytes);
        pieces.push(piece_for(next, name, kept))?;
        if kept.is_none() {
            chunks.push(bytes)?;
            next += 1;
        }
        left = behind(left);
    }
    Ok(HeldChunks {
        pieces,
        brought: chunks,
    })
}
