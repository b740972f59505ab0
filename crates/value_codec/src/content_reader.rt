ghost use Rattle.std.specs.Prelude.{◌≡◌, ◌≤◌, ◌+◌, ◌^◌, ◌++◌, ℕ, List, length, drop, IfOk, Ok};
ghost use Rattle.value_codec.specs.Spelling.{fresh_in, HasContentSpelling, HasKeptSpelling, content_spelling};
ghost use Rattle.value_codec.specs.Reading.{Gives, object_in, after_object, row_from, content_from, content_at};
ghost use Rattle.value_codec.specs.Reading.{kept_content_at, whole, items_at, list_at};
ghost use Rattle.value_codec.specs.FirstBad.{Refuses};

use crate::cell_reader::take_cells;
use crate::field_reader::{take_byte, take_four};
use crate::piece_reader::{FRESH_MAX, take_pieces};
use crate::spell_fault::SpellFault;
use row_value::{PieceContent, PieceObject, PieceObjects};
use stab_base::Sequence;
use std::alloc::Global;

#[tactic(auto, unfolding(crate::specs::Reading::object_in))]
fn take_object_in(
    alloc: Global,
    bytes: &[u8],
    at: usize,
    fresh: u64,
) -> Result<(PieceObject, usize, u64), SpellFault>
    requires within { at ≤ length bytes.now }
    requires room { fresh ≤ 2 ^ 32 }
    ensures value { Gives bytes.now (λ x. (x.0, drop x.1 bytes.now)) result (object_in fresh (drop at bytes.now)) }
    ensures within { IfOk result (λ x. x.1 ≤ length bytes.now) }
    ensures fresh { IfOk result (λ x. (x.2 ≡ after_object fresh x.0) × (x.2 ≤ 2 ^ 32)) }
{
    let (len, begin) = take_four(bytes, at)?;
    let (pieces, behind, next) = take_pieces(alloc, bytes, begin, fresh)?;
    Ok((PieceObject { len, pieces }, behind, next))
}

fn take_object_items(
    alloc: Global,
    bytes: &[u8],
    at: usize,
    count: u32,
    from: u64,
) -> Result<(PieceObjects, usize), SpellFault>
    requires within { at ≤ length bytes.now }
    requires room { from ≤ 2 ^ 32 }
    ensures value { Gives bytes.now (λ x. (x.0, drop x.1 bytes.now))
        result (items_at after_object object_in from count (drop at bytes.now)) }
    ensures within { IfOk result (λ x. x.1 ≤ length bytes.now) }
{
    let mut objects = Sequence::new(alloc);
    let mut place = at;
    let mut fresh = from;
    for _ in 0..count {
        let (object, behind, next) = take_object_in(alloc, bytes, place, fresh)?;
        objects.push(object)?;
        place = behind;
        fresh = next;
    }
    Ok((objects, place))
}

#[tactic(auto, unfolding(crate::specs::Reading::list_at))]
fn take_objects(
    alloc: Global,
    bytes: &[u8],
    at: usize,
    fresh: u64,
) -> Result<(PieceObjects, usize), SpellFault>
    requires within { at ≤ length bytes.now }
    requires room { fresh ≤ 2 ^ 32 }
    ensures value { Gives bytes.now (λ x. (x.0, drop x.1 bytes.now))
        result (list_at after_object object_in fresh (drop at bytes.now)) }
    ensures within { IfOk result (λ x. x.1 ≤ length bytes.now) }
{
    let (count, begin) = take_four(bytes, at)?;
    take_object_items(alloc, bytes, begin, count, fresh)
}

#[tactic(auto, unfolding(crate::specs::Reading::row_from))]
fn take_row(
    alloc: Global,
    bytes: &[u8],
    at: usize,
    fresh: u64,
) -> Result<(PieceContent, usize), SpellFault>
    requires within { at ≤ length bytes.now }
    requires room { fresh ≤ 2 ^ 32 }
    ensures value { Gives bytes.now (λ x. (x.0, drop x.1 bytes.now)) result (row_from fresh (drop at bytes.now)) }
    ensures within { IfOk result (λ x. x.1 ≤ length bytes.now) }
{
    let (cells, behind) = take_cells(alloc, bytes, at)?;
    let (objects, behind) = take_objects(alloc, bytes, behind, fresh)?;
    Ok((PieceContent::Row { cells, objects }, behind))
}

#[tactic(auto, unfolding(crate::specs::Reading::content_from))]
fn read_content(
    alloc: Global,
    bytes: &[u8],
    at: usize,
    fresh: u64,
) -> Result<(PieceContent, usize), SpellFault>
    requires within { at ≤ length bytes.now }
    requires room { fresh ≤ 2 ^ 32 }
    ensures value { Gives bytes.now (λ x. (x.0, drop x.1 bytes.now))
        result (content_from fresh (drop at bytes.now)) }
    ensures within { IfOk result (λ x. x.1 ≤ length bytes.now) }
{
    let (tag, behind) = take_byte(bytes, at)?;
    match tag {
        0 => Ok((PieceContent::Gone, behind)),
        1 => take_row(alloc, bytes, behind, fresh),
        _ => Err(SpellFault::Bad { at }),
    }
}

/// The content at a place, and the place behind it. The ordinals of its new chunks are 0, 1, 2 and so on.
pub fn take_content(
    alloc: Global,
    bytes: &[u8],
    at: usize,
) -> Result<(PieceContent, usize), SpellFault>
    requires { at ≤ length bytes.now }
    // What is found stands there as it is spelled.
    ensures found { IfOk result (λ x. HasContentSpelling x.0
        × (drop at bytes.now ≡ content_spelling x.0 ++ drop x.1 bytes.now)) }
    // What is spelled there is found, whatever follows it.
    ensures only { (content : PieceContent) (rest : List ℕ)
        → HasContentSpelling content → drop at bytes.now ≡ content_spelling content ++ rest
        → Gives {Y = PieceContent × List ℕ} bytes.now (λ x. (x.0, drop x.1 bytes.now)) result (Ok (content, rest)) }
    // A fault tells the first place at which no spelling goes on.
    ensures refused { Refuses HasContentSpelling content_spelling bytes.now at result }
    ensures exact { Gives bytes.now (λ x. (x.0, drop x.1 bytes.now)) result (content_at (drop at bytes.now)) }
    ensures within { IfOk result (λ x. x.1 ≤ length bytes.now) }
{
    read_content(alloc, bytes, at, 0)
}

/// The content at a place, all of whose pieces are kept ones, and the place behind it.
pub fn take_kept_content(
    alloc: Global,
    bytes: &[u8],
    at: usize,
) -> Result<(PieceContent, usize), SpellFault>
    requires { at ≤ length bytes.now }
    ensures found { IfOk result (λ x. HasKeptSpelling x.0
        × (drop at bytes.now ≡ content_spelling x.0 ++ drop x.1 bytes.now)) }
    ensures only { (content : PieceContent) (rest : List ℕ)
        → HasKeptSpelling content → drop at bytes.now ≡ content_spelling content ++ rest
        → Gives {Y = PieceContent × List ℕ} bytes.now (λ x. (x.0, drop x.1 bytes.now)) result (Ok (content, rest)) }
    ensures refused { Refuses HasKeptSpelling content_spelling bytes.now at result }
    ensures exact { Gives bytes.now (λ x. (x.0, drop x.1 bytes.now)) result (kept_content_at (drop at bytes.now)) }
    ensures within { IfOk result (λ x. x.1 ≤ length bytes.now) }
{
    read_content(alloc, bytes, at, FRESH_MAX)
}

#[tactic(auto, unfolding(crate::specs::Reading::whole))]
fn whole_content(alloc: Global, bytes: &[u8]) -> Result<PieceContent, SpellFault>
    ensures { Gives bytes.now (λ x. x) result (whole (content_at bytes.now)) }
{
    let (content, end) = read_content(alloc, bytes, 0, 0)?;
    if end < bytes.len() {
        return Err(SpellFault::Bad { at: end });
    }
    Ok(content)
}

/// The content that these bytes spell, all of the bytes.
pub fn content_of(alloc: Global, bytes: &[u8]) -> Result<PieceContent, SpellFault>
    ensures found { IfOk result (λ x. HasContentSpelling x × (bytes.now ≡ content_spelling x)) }
    ensures only { (content : PieceContent) → HasContentSpelling content → bytes.now ≡ content_spelling content
        → Gives {Y = PieceContent} bytes.now (λ x. x) result (Ok content) }
    ensures refused { Refuses HasContentSpelling content_spelling bytes.now 0 result }
    ensures exact { Gives bytes.now (λ x. x) result (whole (content_at bytes.now)) }
{
    whole_content(alloc, bytes)
}
