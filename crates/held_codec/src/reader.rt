ghost use Rattle.std.specs.Prelude.{◌≡◌, ◌≤◌, ◌++◌, length, drop, IfOk};
ghost use Rattle.std.specs.Int.{w64};
ghost use Rattle.value_codec.specs.Reading.{Gives, number_at, name_at, cell_at, piece_at};
ghost use Rattle.value_codec.specs.Spelling.{list_spelling};
ghost use Rattle.value_codec.specs.FirstBad.{Refuses};
ghost use Rattle.field_codec.specs.Forms.{AreEach};
ghost use Rattle.held_codec.specs.Spelling.{local_spelling, HasLocalSpelling, slots_spelling, HasSlots};
ghost use Rattle.held_codec.specs.Spelling.{tell_spelling, HasTell};
ghost use Rattle.field_codec.specs.Fields.{then_at, option_at, inside_if, byte_if, all_at};
ghost use Rattle.held_codec.specs.Reading.{local_at, held_piece_at, held_object_at, held_at, main_at, shadow_at};
ghost use Rattle.held_codec.specs.Reading.{out_at};
ghost use Rattle.held_codec.specs.Reading.{slots_at, is_tell, has_first, has_second, number_or, tell_of, tell_at};

use crate::taken::{Taken, take_list, take_option};
use held_value::{
    HeldContent, HeldObject, HeldObjects, HeldPiece, LocalName, LocalNames, Main, Out, Shadow,
    Slots, Tell, Tells,
};
use row_value::{Cell, Cells, Piece};
use stab_base::ChunkName;
use std::alloc::Global;
use value_codec::{SpellFault, take_byte, take_eight, take_flag, take_four, take_name};

// ---- held contents

#[tactic(auto, unfolding(crate::specs::Reading::local_at))]
fn read_local(bytes: &[u8], at: usize) -> Result<(LocalName, usize), SpellFault>
    requires { at ≤ length bytes.now }
    ensures value { Gives bytes.now (λ x. (x.0, drop x.1 bytes.now)) result (local_at (drop at bytes.now)) }
    ensures within { IfOk result (λ x. x.1 ≤ length bytes.now) }
{
    let (plan, behind) = take_eight(bytes, at)?;
    let (ordinal, behind) = take_four(bytes, behind)?;
    Ok((LocalName { plan, ordinal }, behind))
}

/// The local name at a place, and the place behind it.
pub fn take_local(bytes: &[u8], at: usize) -> Result<(LocalName, usize), SpellFault>
    requires { at ≤ length bytes.now }
    ensures value { Gives bytes.now (λ x. (x.0, drop x.1 bytes.now)) result (local_at (drop at bytes.now)) }
    ensures within { IfOk result (λ x. x.1 ≤ length bytes.now) }
    // What is found stands there as it is spelled.
    ensures found { IfOk result (λ x. HasLocalSpelling x.0
        × (drop at bytes.now ≡ local_spelling x.0 ++ drop x.1 bytes.now)) }
    // A fault tells the first place at which no spelling goes on.
    ensures refused { Refuses HasLocalSpelling local_spelling bytes.now at result }
{
    read_local(bytes, at)
}

#[tactic(auto, unfolding(crate::specs::Reading::held_piece_at))]
fn take_held_piece(alloc: Global, bytes: &[u8], at: usize) -> Result<(HeldPiece, usize), SpellFault>
    requires { at ≤ length bytes.now }
    ensures value { Gives bytes.now (λ x. (x.0, drop x.1 bytes.now)) result (held_piece_at (drop at bytes.now)) }
    ensures within { IfOk result (λ x. x.1 ≤ length bytes.now) }
{
    let (local, behind) = read_local(bytes, at)?;
    let (name, behind) = take_option::<ChunkName>(alloc, bytes, behind)?;
    Ok((HeldPiece { local, name }, behind))
}

impl Taken for HeldPiece {
    ghost use Rattle.held_codec.specs.Reading.{held_piece_at};

    ghost reading = { held_piece_at };

    fn take(alloc: Global, bytes: &[u8], at: usize) -> Result<(HeldPiece, usize), SpellFault> {
        take_held_piece(alloc, bytes, at)
    }
}

#[tactic(auto, unfolding(crate::specs::Reading::held_object_at))]
fn take_held_object(
    alloc: Global,
    bytes: &[u8],
    at: usize,
) -> Result<(HeldObject, usize), SpellFault>
    requires { at ≤ length bytes.now }
    ensures value { Gives bytes.now (λ x. (x.0, drop x.1 bytes.now)) result (held_object_at (drop at bytes.now)) }
    ensures within { IfOk result (λ x. x.1 ≤ length bytes.now) }
{
    let (len, behind) = take_four(bytes, at)?;
    let (pieces, behind) = take_list::<HeldPiece>(alloc, bytes, behind)?;
    Ok((HeldObject { len, pieces }, behind))
}

impl Taken for HeldObject {
    ghost use Rattle.held_codec.specs.Reading.{held_object_at};

    ghost reading = { held_object_at };

    fn take(alloc: Global, bytes: &[u8], at: usize) -> Result<(HeldObject, usize), SpellFault> {
        take_held_object(alloc, bytes, at)
    }
}

// ---- contents

// The cells and objects of a row.
fn take_row(
    alloc: Global,
    bytes: &[u8],
    at: usize,
) -> Result<((Cells, HeldObjects), usize), SpellFault>
    requires { at ≤ length bytes.now }
    ensures value { Gives bytes.now (λ x. (x.0, drop x.1 bytes.now)) result
        (then_at (all_at cell_at) (λ some. all_at held_object_at) (drop at bytes.now)) }
    ensures within { IfOk result (λ x. x.1 ≤ length bytes.now) }
{
    let (cells, behind) = take_list::<Cell>(alloc, bytes, at)?;
    let (objects, behind) = take_list::<HeldObject>(alloc, bytes, behind)?;
    Ok(((cells, objects), behind))
}

#[tactic(auto, unfolding(crate::specs::Reading::held_at, field_codec::specs::Fields::option_at))]
fn take_held(alloc: Global, bytes: &[u8], at: usize) -> Result<(HeldContent, usize), SpellFault>
    requires { at ≤ length bytes.now }
    ensures value { Gives bytes.now (λ x. (x.0, drop x.1 bytes.now)) result (held_at (drop at bytes.now)) }
    ensures within { IfOk result (λ x. x.1 ≤ length bytes.now) }
{
    let (row, behind) = take_flag(bytes, at)?;
    if row {
        let ((cells, objects), behind) = take_row(alloc, bytes, behind)?;
        Ok((HeldContent::Row { cells, objects }, behind))
    } else {
        Ok((HeldContent::Gone, behind))
    }
}

// ---- slots

#[tactic(auto, unfolding(crate::specs::Reading::main_at))]
fn take_main(alloc: Global, bytes: &[u8], at: usize) -> Result<(Main, usize), SpellFault>
    requires { at ≤ length bytes.now }
    ensures value { Gives bytes.now (λ x. (x.0, drop x.1 bytes.now)) result (main_at (drop at bytes.now)) }
    ensures within { IfOk result (λ x. x.1 ≤ length bytes.now) }
{
    let (number, behind) = take_eight(bytes, at)?;
    let (read, behind) = take_eight(bytes, behind)?;
    let (content, behind) = take_held(alloc, bytes, behind)?;
    let main = Main {
        number,
        read,
        content,
    };
    Ok((main, behind))
}

impl Taken for Main {
    ghost use Rattle.held_codec.specs.Reading.{main_at};

    ghost reading = { main_at };

    fn take(alloc: Global, bytes: &[u8], at: usize) -> Result<(Main, usize), SpellFault> {
        take_main(alloc, bytes, at)
    }
}

#[tactic(auto, unfolding(crate::specs::Reading::shadow_at))]
fn take_shadow(alloc: Global, bytes: &[u8], at: usize) -> Result<(Shadow, usize), SpellFault>
    requires { at ≤ length bytes.now }
    ensures value { Gives bytes.now (λ x. (x.0, drop x.1 bytes.now)) result (shadow_at (drop at bytes.now)) }
    ensures within { IfOk result (λ x. x.1 ≤ length bytes.now) }
{
    let (version, behind) = take_eight(bytes, at)?;
    let (content, behind) = take_held(alloc, bytes, behind)?;
    Ok((Shadow { version, content }, behind))
}

impl Taken for Shadow {
    ghost use Rattle.held_codec.specs.Reading.{shadow_at};

    ghost reading = { shadow_at };

    fn take(alloc: Global, bytes: &[u8], at: usize) -> Result<(Shadow, usize), SpellFault> {
        take_shadow(alloc, bytes, at)
    }
}

#[tactic(auto, unfolding(crate::specs::Reading::out_at))]
fn take_out(alloc: Global, bytes: &[u8], at: usize) -> Result<(Out, usize), SpellFault>
    requires { at ≤ length bytes.now }
    ensures value { Gives bytes.now (λ x. (x.0, drop x.1 bytes.now)) result (out_at (drop at bytes.now)) }
    ensures within { IfOk result (λ x. x.1 ≤ length bytes.now) }
{
    let (number, behind) = take_eight(bytes, at)?;
    let (read, behind) = take_eight(bytes, behind)?;
    let (base, behind) = take_eight(bytes, behind)?;
    let (whole, behind) = take_flag(bytes, behind)?;
    let (content, behind) = take_held(alloc, bytes, behind)?;
    let (pieces, behind) = take_list::<Piece>(alloc, bytes, behind)?;
    let out = Out {
        number,
        read,
        base,
        whole,
        content,
        pieces,
    };
    Ok((out, behind))
}

impl Taken for Out {
    ghost use Rattle.held_codec.specs.Reading.{out_at};

    ghost reading = { out_at };

    fn take(alloc: Global, bytes: &[u8], at: usize) -> Result<(Out, usize), SpellFault> {
        take_out(alloc, bytes, at)
    }
}

#[tactic(auto, unfolding(crate::specs::Reading::slots_at))]
fn read_slots(alloc: Global, bytes: &[u8], at: usize) -> Result<(Slots, usize), SpellFault>
    requires { at ≤ length bytes.now }
    ensures value { Gives bytes.now (λ x. (x.0, drop x.1 bytes.now)) result (slots_at (drop at bytes.now)) }
    ensures within { IfOk result (λ x. x.1 ≤ length bytes.now) }
{
    let (main, behind) = take_option::<Main>(alloc, bytes, at)?;
    let (shadow, behind) = take_option::<Shadow>(alloc, bytes, behind)?;
    let (out, behind) = take_option::<Out>(alloc, bytes, behind)?;
    let (conflict, behind) = take_option::<Shadow>(alloc, bytes, behind)?;
    let slots = Slots {
        main,
        shadow,
        out,
        conflict,
    };
    Ok((slots, behind))
}

/// The four slots of a row at a place, and the place behind them.
pub fn take_slots(alloc: Global, bytes: &[u8], at: usize) -> Result<(Slots, usize), SpellFault>
    requires { at ≤ length bytes.now }
    ensures value { Gives bytes.now (λ x. (x.0, drop x.1 bytes.now)) result (slots_at (drop at bytes.now)) }
    ensures within { IfOk result (λ x. x.1 ≤ length bytes.now) }
    // What is found stands there as it is spelled.
    ensures found { IfOk result (λ x. HasSlots x.0 × (drop at bytes.now ≡ slots_spelling x.0 ++ drop x.1 bytes.now)) }
    // A fault tells the first place at which no spelling goes on.
    ensures refused { Refuses HasSlots slots_spelling bytes.now at result }
{
    read_slots(alloc, bytes, at)
}

// ---- tells

#[tactic(auto, unfolding(field_codec::specs::Fields::byte_if))]
fn take_tell_code(bytes: &[u8], at: usize) -> Result<(u8, usize), SpellFault>
    requires { at ≤ length bytes.now }
    ensures value { Gives bytes.now (λ x. (x.0, drop x.1 bytes.now)) result (byte_if is_tell (drop at bytes.now)) }
    ensures within { IfOk result (λ x. x.1 ≤ length bytes.now) }
{
    let (code, behind) = take_byte(bytes, at)?;
    if 1 <= code && code <= 9 {
        Ok((code, behind))
    } else {
        Err(SpellFault::Bad { at })
    }
}

fn take_number_if(bytes: &[u8], at: usize, some: bool) -> Result<(Option<u64>, usize), SpellFault>
    requires { at ≤ length bytes.now }
    ensures value { Gives bytes.now (λ x. (x.0, drop x.1 bytes.now)) result
        (inside_if some (number_at w64) (drop at bytes.now)) }
    ensures within { IfOk result (λ x. x.1 ≤ length bytes.now) }
{
    if some {
        let (number, behind) = take_eight(bytes, at)?;
        Ok((Some(number), behind))
    } else {
        Ok((None, at))
    }
}

fn tell_of(code: u8, a: u64, b: u64) -> Tell
    ensures { result ≡ tell_of code a b }
{
    match code {
        1 => Tell::Wrote { number: a, read: b },
        2 => Tell::Acked {
            number: a,
            version: b,
        },
        3 => Tell::Refused {
            number: a,
            latest: b,
        },
        4 => Tell::Conflict {
            number: a,
            version: b,
        },
        5 => Tell::Resolved {
            number: a,
            version: b,
        },
        6 => Tell::New { version: a },
        7 => Tell::Position { position: a },
        8 => Tell::Opened,
        _ => Tell::Dropped,
    }
}

fn number_or(number: Option<u64>) -> u64
    ensures { result ≡ number_or number }
{
    number.unwrap_or(0)
}

#[tactic(auto, unfolding(crate::specs::Reading::tell_at))]
fn take_tell(bytes: &[u8], at: usize) -> Result<(Tell, usize), SpellFault>
    requires { at ≤ length bytes.now }
    ensures value { Gives bytes.now (λ x. (x.0, drop x.1 bytes.now)) result (tell_at (drop at bytes.now)) }
    ensures within { IfOk result (λ x. x.1 ≤ length bytes.now) }
{
    let (code, behind) = take_tell_code(bytes, at)?;
    let (first, behind) = take_number_if(bytes, behind, code <= 7)?;
    let (second, behind) = take_number_if(bytes, behind, code <= 5)?;
    Ok((tell_of(code, number_or(first), number_or(second)), behind))
}

impl Taken for LocalName {
    ghost use Rattle.held_codec.specs.Reading.{local_at};

    ghost reading = { local_at };

    fn take(_alloc: Global, bytes: &[u8], at: usize) -> Result<(LocalName, usize), SpellFault> {
        read_local(bytes, at)
    }
}

impl Taken for Tell {
    ghost use Rattle.held_codec.specs.Reading.{tell_at};

    ghost reading = { tell_at };

    fn take(_alloc: Global, bytes: &[u8], at: usize) -> Result<(Tell, usize), SpellFault> {
        take_tell(bytes, at)
    }
}

/// The list of local names at a place, and the place behind it.
pub fn take_locals(
    alloc: Global,
    bytes: &[u8],
    at: usize,
) -> Result<(LocalNames, usize), SpellFault>
    requires { at ≤ length bytes.now }
    ensures value { Gives bytes.now (λ x. (x.0, drop x.1 bytes.now)) result (all_at local_at (drop at bytes.now)) }
    ensures within { IfOk result (λ x. x.1 ≤ length bytes.now) }
    // What is found stands there as it is spelled.
    ensures found { IfOk result (λ x. AreEach HasLocalSpelling x.0
        × (drop at bytes.now ≡ list_spelling local_spelling x.0 ++ drop x.1 bytes.now)) }
    // A fault tells the first place at which no spelling goes on.
    ensures refused { Refuses (AreEach HasLocalSpelling) (list_spelling local_spelling) bytes.now at result }
{
    take_list::<LocalName>(alloc, bytes, at)
}

/// The list of tells at a place, and the place behind it.
pub fn take_tells(alloc: Global, bytes: &[u8], at: usize) -> Result<(Tells, usize), SpellFault>
    requires { at ≤ length bytes.now }
    ensures value { Gives bytes.now (λ x. (x.0, drop x.1 bytes.now)) result (all_at tell_at (drop at bytes.now)) }
    ensures within { IfOk result (λ x. x.1 ≤ length bytes.now) }
    // What is found stands there as it is spelled.
    ensures found { IfOk result (λ x. AreEach HasTell x.0
        × (drop at bytes.now ≡ list_spelling tell_spelling x.0 ++ drop x.1 bytes.now)) }
    // A fault tells the first place at which no spelling goes on.
    ensures refused { Refuses (AreEach HasTell) (list_spelling tell_spelling) bytes.now at result }
{
    take_list::<Tell>(alloc, bytes, at)
}
