ghost use Rattle.std.specs.Prelude.{◌≡◌, ◌≤◌, ◌<◌, ◌+◌, ◌^◌, ◌++◌, ℕ, List, length, drop, IfOk, IfErr, Ok};
ghost use Rattle.value_codec.specs.Spelling.{fresh_in, HasNameSpelling, name_spelling, HasPieceSpelling};
ghost use Rattle.value_codec.specs.Spelling.{piece_spelling};
ghost use Rattle.value_codec.specs.Reading.{Gives, name_at, keep_at, fresh_at, piece_at, fresh_is_at, piece_in};
ghost use Rattle.value_codec.specs.Reading.{after_piece, items_at, list_at};
ghost use Rattle.value_codec.specs.FirstBad.{Refuses, TellsPlace};

use crate::field_reader::{skip_exactly, take_byte, take_eight, take_four};
use crate::spell_fault::SpellFault;
use row_value::{Piece, Pieces};
use stab_base::{ChunkName, Sequence};
use std::alloc::Global;

/// How many new chunks a content may have: one for each ordinal.
pub(crate) const FRESH_MAX: u64 = 1 << 32;

#[tactic(auto, unfolding(crate::specs::Reading::name_at))]
fn read_name(bytes: &[u8], at: usize) -> Result<(ChunkName, usize), SpellFault>
    requires { at ≤ length bytes.now }
    ensures value { Gives bytes.now (λ x. (x.0, drop x.1 bytes.now)) result (name_at (drop at bytes.now)) }
    ensures within { IfOk result (λ x. x.1 ≤ length bytes.now) }
    ensures place { IfErr result TellsPlace }
{
    let (version, behind) = take_eight(bytes, at)?;
    let (ordinal, behind) = take_four(bytes, behind)?;
    Ok((ChunkName { version, ordinal }, behind))
}

#[tactic(auto, unfolding(crate::specs::Reading::keep_at))]
fn take_keep(bytes: &[u8], at: usize) -> Result<(Piece, usize), SpellFault>
    requires { at ≤ length bytes.now }
    ensures value { Gives bytes.now (λ x. (x.0, drop x.1 bytes.now)) result (keep_at (drop at bytes.now)) }
    ensures within { IfOk result (λ x. x.1 ≤ length bytes.now) }
    ensures kept { (fresh : ℕ) → IfOk result (λ x. after_piece fresh x.0 ≡ fresh) }
    ensures place { IfErr result TellsPlace }
{
    let (name, behind) = read_name(bytes, at)?;
    Ok((Piece::Keep(name), behind))
}

#[tactic(auto, unfolding(crate::specs::Reading::fresh_at))]
fn take_fresh(bytes: &[u8], at: usize) -> Result<(Piece, usize), SpellFault>
    requires { at ≤ length bytes.now }
    ensures value { Gives bytes.now (λ x. (x.0, drop x.1 bytes.now)) result (fresh_at (drop at bytes.now)) }
    ensures within { IfOk result (λ x. x.1 ≤ length bytes.now) }
    ensures place { IfErr result TellsPlace }
{
    let (ordinal, behind) = take_four(bytes, at)?;
    Ok((Piece::Fresh(ordinal), behind))
}

#[tactic(auto, unfolding(crate::specs::Reading::piece_at))]
fn read_piece(bytes: &[u8], at: usize) -> Result<(Piece, usize), SpellFault>
    requires { at ≤ length bytes.now }
    ensures value { Gives bytes.now (λ x. (x.0, drop x.1 bytes.now)) result (piece_at (drop at bytes.now)) }
    ensures within { IfOk result (λ x. x.1 ≤ length bytes.now) }
    ensures place { IfErr result TellsPlace }
{
    let (tag, behind) = take_byte(bytes, at)?;
    match tag {
        0 => take_keep(bytes, behind),
        1 => take_fresh(bytes, behind),
        _ => Err(SpellFault::Bad { at }),
    }
}

#[tactic(auto, unfolding(crate::specs::Reading::fresh_is_at))]
fn take_fresh_is(bytes: &[u8], at: usize, fresh: u32) -> Result<(Piece, usize), SpellFault>
    requires { at ≤ length bytes.now }
    ensures value { Gives bytes.now (λ x. (x.0, drop x.1 bytes.now)) result (fresh_is_at fresh (drop at bytes.now)) }
    ensures within { IfOk result (λ x. x.1 ≤ length bytes.now) }
{
    let behind = skip_exactly(bytes, at, &fresh.to_be_bytes())?;
    Ok((Piece::Fresh(fresh), behind))
}

#[tactic(auto, unfolding(crate::specs::Reading::piece_in))]
fn take_piece_in(bytes: &[u8], at: usize, fresh: u64) -> Result<(Piece, usize), SpellFault>
    requires { at ≤ length bytes.now }
    ensures value { Gives bytes.now (λ x. (x.0, drop x.1 bytes.now)) result (piece_in fresh (drop at bytes.now)) }
    ensures within { IfOk result (λ x. x.1 ≤ length bytes.now) }
    ensures room { fresh ≤ 2 ^ 32 → IfOk result (λ x. after_piece fresh x.0 ≤ 2 ^ 32) }
{
    let (tag, behind) = take_byte(bytes, at)?;
    match tag {
        0 => take_keep(bytes, behind),
        1 if fresh < FRESH_MAX => take_fresh_is(bytes, behind, fresh as u32),
        _ => Err(SpellFault::Bad { at }),
    }
}

/// How many new chunks there are with this piece, where there were so many before it.
fn after_piece(fresh: u64, piece: Piece) -> u64
    requires { fresh < 2 ^ 63 }
    ensures { result ≡ after_piece fresh piece }
{
    match piece {
        Piece::Keep(_) => fresh,
        Piece::Fresh(_) => fresh + 1,
    }
}

fn take_piece_items(
    alloc: Global,
    bytes: &[u8],
    at: usize,
    count: u32,
    fresh: u64,
) -> Result<(Pieces, usize, u64), SpellFault>
    requires within { at ≤ length bytes.now }
    requires room { fresh ≤ 2 ^ 32 }
    ensures value { Gives bytes.now (λ x. (x.0, drop x.1 bytes.now))
        result (items_at after_piece piece_in fresh count (drop at bytes.now)) }
    ensures within { IfOk result (λ x. x.1 ≤ length bytes.now) }
    ensures fresh { IfOk result (λ x. (x.2 ≡ fresh + length (fresh_in x.0)) × (x.2 ≤ 2 ^ 32)) }
{
    let mut pieces = Sequence::new(alloc);
    let mut place = at;
    let mut next = fresh;
    for _ in 0..count {
        let (piece, behind) = take_piece_in(bytes, place, next)?;
        next = after_piece(next, piece);
        pieces.push(piece)?;
        place = behind;
    }
    Ok((pieces, place, next))
}

#[tactic(auto, unfolding(crate::specs::Reading::list_at))]
pub(crate) fn take_pieces(
    alloc: Global,
    bytes: &[u8],
    at: usize,
    fresh: u64,
) -> Result<(Pieces, usize, u64), SpellFault>
    requires within { at ≤ length bytes.now }
    requires room { fresh ≤ 2 ^ 32 }
    ensures value { Gives bytes.now (λ x. (x.0, drop x.1 bytes.now))
        result (list_at after_piece piece_in fresh (drop at bytes.now)) }
    ensures within { IfOk result (λ x. x.1 ≤ length bytes.now) }
    ensures fresh { IfOk result (λ x. (x.2 ≡ fresh + length (fresh_in x.0)) × (x.2 ≤ 2 ^ 32)) }
{
    let (count, begin) = take_four(bytes, at)?;
    take_piece_items(alloc, bytes, begin, count, fresh)
}

/// The name at a place, and the place behind it. No memory is taken.
pub fn take_name(bytes: &[u8], at: usize) -> Result<(ChunkName, usize), SpellFault>
    requires { at ≤ length bytes.now }
    ensures found { IfOk result (λ x. HasNameSpelling x.0
        × (drop at bytes.now ≡ name_spelling x.0 ++ drop x.1 bytes.now)) }
    ensures only { (name : ChunkName) (rest : List ℕ)
        → HasNameSpelling name → drop at bytes.now ≡ name_spelling name ++ rest
        → Gives {Y = ChunkName × List ℕ} bytes.now (λ x. (x.0, drop x.1 bytes.now)) result (Ok (name, rest)) }
    ensures refused { Refuses HasNameSpelling name_spelling bytes.now at result }
    ensures exact { Gives bytes.now (λ x. (x.0, drop x.1 bytes.now)) result (name_at (drop at bytes.now)) }
    ensures within { IfOk result (λ x. x.1 ≤ length bytes.now) }
    ensures place { IfErr result TellsPlace }
{
    read_name(bytes, at)
}

/// The piece at a place, a new chunk by any ordinal, and the place behind it. No memory is taken.
pub fn take_piece(bytes: &[u8], at: usize) -> Result<(Piece, usize), SpellFault>
    requires { at ≤ length bytes.now }
    ensures found { IfOk result (λ x. HasPieceSpelling x.0
        × (drop at bytes.now ≡ piece_spelling x.0 ++ drop x.1 bytes.now)) }
    ensures only { (piece : Piece) (rest : List ℕ)
        → HasPieceSpelling piece → drop at bytes.now ≡ piece_spelling piece ++ rest
        → Gives {Y = Piece × List ℕ} bytes.now (λ x. (x.0, drop x.1 bytes.now)) result (Ok (piece, rest)) }
    ensures refused { Refuses HasPieceSpelling piece_spelling bytes.now at result }
    ensures exact { Gives bytes.now (λ x. (x.0, drop x.1 bytes.now)) result (piece_at (drop at bytes.now)) }
    ensures within { IfOk result (λ x. x.1 ≤ length bytes.now) }
    ensures place { IfErr result TellsPlace }
{
    read_piece(bytes, at)
}
