ghost use Rattle.std.specs.Prelude.{◌≡◌, ◌+◌, ◌≤◌, ◌<◌, ◌++◌, ◌∷◌, length, OnOk, OnErr};
ghost use Rattle.std.specs.Vec.{vec_capacity, vec_len};
ghost use Rattle.value_codec.specs.Spelling.{list_spelling, HasNameSpelling, name_spelling, HasCellSpelling};
ghost use Rattle.value_codec.specs.Spelling.{cell_spelling, HasPieceSpelling, piece_spelling};
ghost use Rattle.field_codec.specs.Forms.{eight, IsOption, option_spelling, AreEach};
ghost use Rattle.held_codec.specs.Spelling.{local_spelling, HasLocalSpelling, held_piece_spelling, HasHeldPiece};
ghost use Rattle.held_codec.specs.Spelling.{held_object_spelling, HasHeldObject, held_spelling, HasHeld, main_spelling};
ghost use Rattle.held_codec.specs.Spelling.{HasMain, shadow_spelling, HasShadow, out_spelling, HasOut, slots_spelling};
ghost use Rattle.held_codec.specs.Spelling.{HasSlots, tell_spelling, HasTell};

use field_codec::{put_eight, put_flag, put_four};
use held_value::{HeldContent, HeldObject, HeldPiece, LocalName, Main, Out, Shadow, Slots, Tell};
use row_value::{Cell, Piece};
use stab_base::{ChunkName, put_u8, put_u32};
use std::alloc::AllocError;
use value_codec::{put_cell, put_name, put_piece};

/// A value that has a spelling.
trait Spelled {
    ghost use Rattle.std.specs.Prelude.{◌≡◌, ◌+◌, ◌≤◌, ◌<◌, ◌++◌, ℕ, List, length, OnOk, OnErr};
    ghost use Rattle.std.specs.Vec.{vec_capacity, vec_len};

    ghost spelling: { Self → List ℕ };

    ghost has_spelling: { Self → Type 0 };

    /// Appends the spelling, and a part of it where memory is refused.
    fn put(&self, out: &mut Vec<u8>) -> Result<(), AllocError>
        requires { has_spelling self.now }
        ensures ok { OnOk result (out.new.items ≡ out.old.items ++ spelling self.now) }
        ensures full { OnErr result (vec_capacity out.old < vec_len out.old + length (spelling self.now)) }
        ensures capacity { vec_capacity out.old ≤ vec_capacity out.new };
}

fn put_list<T: Spelled>(out: &mut Vec<u8>, items: &[T]) -> Result<(), AllocError>
    requires { AreEach T.has_spelling items.now }
    ensures ok { OnOk result (out.new.items ≡ out.old.items ++ list_spelling T.spelling items.now) }
    ensures full { OnErr result (vec_capacity out.old < vec_len out.old + length (list_spelling T.spelling items.now)) }
    ensures capacity { vec_capacity out.old ≤ vec_capacity out.new }
{
    put_u32(out, items.len() as u32)?;
    for item in items {
        item.put(out)?;
    }
    Ok(())
}

fn put_option<T: Spelled>(out: &mut Vec<u8>, value: &Option<T>) -> Result<(), AllocError>
    requires { IsOption T.has_spelling value.now }
    ensures ok { OnOk result (out.new.items ≡ out.old.items ++ option_spelling T.spelling value.now) }
    ensures full { OnErr result (vec_capacity out.old
        < vec_len out.old + length (option_spelling T.spelling value.now)) }
    ensures capacity { vec_capacity out.old ≤ vec_capacity out.new }
{
    match value {
        None => put_u8(out, 0),
        Some(value) => {
            put_u8(out, 1)?;
            value.put(out)
        }
    }
}

impl Spelled for ChunkName {
    ghost use Rattle.value_codec.specs.Spelling.{name_spelling, HasNameSpelling};

    ghost spelling = { name_spelling };

    ghost has_spelling = { HasNameSpelling };

    fn put(&self, out: &mut Vec<u8>) -> Result<(), AllocError> {
        put_name(out, *self)
    }
}

impl Spelled for Cell {
    ghost use Rattle.value_codec.specs.Spelling.{cell_spelling, HasCellSpelling};

    ghost spelling = { cell_spelling };

    ghost has_spelling = { HasCellSpelling };

    fn put(&self, out: &mut Vec<u8>) -> Result<(), AllocError> {
        put_cell(out, self)
    }
}

impl Spelled for Piece {
    ghost use Rattle.value_codec.specs.Spelling.{piece_spelling, HasPieceSpelling};

    ghost spelling = { piece_spelling };

    ghost has_spelling = { HasPieceSpelling };

    fn put(&self, out: &mut Vec<u8>) -> Result<(), AllocError> {
        put_piece(out, *self)
    }
}

/// Appends the spelling of a local name.
pub fn put_local(out: &mut Vec<u8>, name: LocalName) -> Result<(), AllocError>
    ensures ok { OnOk result (out.new.items ≡ out.old.items ++ local_spelling name) }
    ensures full { OnErr result (vec_capacity out.old < vec_len out.old + length (local_spelling name)) }
    ensures capacity { vec_capacity out.old ≤ vec_capacity out.new }
{
    put_eight(out, name.plan)?;
    put_four(out, name.ordinal)
}

impl Spelled for LocalName {
    ghost use Rattle.held_codec.specs.Spelling.{local_spelling, HasLocalSpelling};

    ghost spelling = { local_spelling };

    ghost has_spelling = { HasLocalSpelling };

    fn put(&self, out: &mut Vec<u8>) -> Result<(), AllocError> {
        put_local(out, *self)
    }
}

fn put_held_piece(out: &mut Vec<u8>, piece: HeldPiece) -> Result<(), AllocError>
    requires { HasHeldPiece piece }
    ensures ok { OnOk result (out.new.items ≡ out.old.items ++ held_piece_spelling piece) }
    ensures full { OnErr result (vec_capacity out.old < vec_len out.old + length (held_piece_spelling piece)) }
    ensures capacity { vec_capacity out.old ≤ vec_capacity out.new }
{
    put_local(out, piece.local)?;
    put_option(out, &piece.name)
}

impl Spelled for HeldPiece {
    ghost use Rattle.held_codec.specs.Spelling.{held_piece_spelling, HasHeldPiece};

    ghost spelling = { held_piece_spelling };

    ghost has_spelling = { HasHeldPiece };

    fn put(&self, out: &mut Vec<u8>) -> Result<(), AllocError> {
        put_held_piece(out, *self)
    }
}

fn put_held_object(out: &mut Vec<u8>, object: &HeldObject) -> Result<(), AllocError>
    requires { HasHeldObject object.now }
    ensures ok { OnOk result (out.new.items ≡ out.old.items ++ held_object_spelling object.now) }
    ensures full { OnErr result (vec_capacity out.old < vec_len out.old + length (held_object_spelling object.now)) }
    ensures capacity { vec_capacity out.old ≤ vec_capacity out.new }
{
    put_four(out, object.len)?;
    put_list(out, object.pieces.as_slice())
}

impl Spelled for HeldObject {
    ghost use Rattle.held_codec.specs.Spelling.{held_object_spelling, HasHeldObject};

    ghost spelling = { held_object_spelling };

    ghost has_spelling = { HasHeldObject };

    fn put(&self, out: &mut Vec<u8>) -> Result<(), AllocError> {
        put_held_object(out, self)
    }
}

fn put_held(out: &mut Vec<u8>, content: &HeldContent) -> Result<(), AllocError>
    requires { HasHeld content.now }
    ensures ok { OnOk result (out.new.items ≡ out.old.items ++ held_spelling content.now) }
    ensures full { OnErr result (vec_capacity out.old < vec_len out.old + length (held_spelling content.now)) }
    ensures capacity { vec_capacity out.old ≤ vec_capacity out.new }
{
    match content {
        HeldContent::Gone => put_u8(out, 0),
        HeldContent::Row { cells, objects } => {
            put_u8(out, 1)?;
            put_list(out, cells.as_slice())?;
            put_list(out, objects.as_slice())
        }
    }
}

fn put_main(out: &mut Vec<u8>, main: &Main) -> Result<(), AllocError>
    requires { HasMain main.now }
    ensures ok { OnOk result (out.new.items ≡ out.old.items ++ main_spelling main.now) }
    ensures full { OnErr result (vec_capacity out.old < vec_len out.old + length (main_spelling main.now)) }
    ensures capacity { vec_capacity out.old ≤ vec_capacity out.new }
{
    put_eight(out, main.number)?;
    put_eight(out, main.read)?;
    put_held(out, &main.content)
}

impl Spelled for Main {
    ghost use Rattle.held_codec.specs.Spelling.{main_spelling, HasMain};

    ghost spelling = { main_spelling };

    ghost has_spelling = { HasMain };

    fn put(&self, out: &mut Vec<u8>) -> Result<(), AllocError> {
        put_main(out, self)
    }
}

fn put_shadow(out: &mut Vec<u8>, shadow: &Shadow) -> Result<(), AllocError>
    requires { HasShadow shadow.now }
    ensures ok { OnOk result (out.new.items ≡ out.old.items ++ shadow_spelling shadow.now) }
    ensures full { OnErr result (vec_capacity out.old < vec_len out.old + length (shadow_spelling shadow.now)) }
    ensures capacity { vec_capacity out.old ≤ vec_capacity out.new }
{
    put_eight(out, shadow.version)?;
    put_held(out, &shadow.content)
}

impl Spelled for Shadow {
    ghost use Rattle.held_codec.specs.Spelling.{shadow_spelling, HasShadow};

    ghost spelling = { shadow_spelling };

    ghost has_spelling = { HasShadow };

    fn put(&self, out: &mut Vec<u8>) -> Result<(), AllocError> {
        put_shadow(out, self)
    }
}

fn put_out(out: &mut Vec<u8>, sent: &Out) -> Result<(), AllocError>
    requires { HasOut sent.now }
    ensures ok { OnOk result (out.new.items ≡ out.old.items ++ out_spelling sent.now) }
    ensures full { OnErr result (vec_capacity out.old < vec_len out.old + length (out_spelling sent.now)) }
    ensures capacity { vec_capacity out.old ≤ vec_capacity out.new }
{
    put_eight(out, sent.number)?;
    put_eight(out, sent.read)?;
    put_eight(out, sent.base)?;
    put_flag(out, sent.whole)?;
    put_held(out, &sent.content)?;
    put_list(out, sent.pieces.as_slice())
}

impl Spelled for Out {
    ghost use Rattle.held_codec.specs.Spelling.{out_spelling, HasOut};

    ghost spelling = { out_spelling };

    ghost has_spelling = { HasOut };

    fn put(&self, out: &mut Vec<u8>) -> Result<(), AllocError> {
        put_out(out, self)
    }
}

/// Appends the spelling of a row's four slots, and a part of it where memory is refused.
pub fn put_slots(out: &mut Vec<u8>, slots: &Slots) -> Result<(), AllocError>
    requires { HasSlots slots.now }
    ensures ok { OnOk result (out.new.items ≡ out.old.items ++ slots_spelling slots.now) }
    ensures full { OnErr result (vec_capacity out.old < vec_len out.old + length (slots_spelling slots.now)) }
    ensures capacity { vec_capacity out.old ≤ vec_capacity out.new }
{
    put_option(out, &slots.main)?;
    put_option(out, &slots.shadow)?;
    put_option(out, &slots.out)?;
    put_option(out, &slots.conflict)
}

fn put_numbers(out: &mut Vec<u8>, code: u8, a: u64, b: u64) -> Result<(), AllocError>
    ensures ok { OnOk result (out.new.items ≡ out.old.items ++ code ∷ (eight a ++ eight b)) }
    ensures full { OnErr result (vec_capacity out.old < vec_len out.old + length (code ∷ (eight a ++ eight b))) }
    ensures capacity { vec_capacity out.old ≤ vec_capacity out.new }
{
    put_u8(out, code)?;
    put_eight(out, a)?;
    put_eight(out, b)
}

fn put_number(out: &mut Vec<u8>, code: u8, a: u64) -> Result<(), AllocError>
    ensures ok { OnOk result (out.new.items ≡ out.old.items ++ code ∷ eight a) }
    ensures full { OnErr result (vec_capacity out.old < vec_len out.old + length (code ∷ eight a)) }
    ensures capacity { vec_capacity out.old ≤ vec_capacity out.new }
{
    put_u8(out, code)?;
    put_eight(out, a)
}

fn put_tell(out: &mut Vec<u8>, tell: Tell) -> Result<(), AllocError>
    ensures ok { OnOk result (out.new.items ≡ out.old.items ++ tell_spelling tell) }
    ensures full { OnErr result (vec_capacity out.old < vec_len out.old + length (tell_spelling tell)) }
    ensures capacity { vec_capacity out.old ≤ vec_capacity out.new }
{
    match tell {
        Tell::Wrote { number, read } => put_numbers(out, 1, number, read),
        Tell::Acked { number, version } => put_numbers(out, 2, number, version),
        Tell::Refused { number, latest } => put_numbers(out, 3, number, latest),
        Tell::Conflict { number, version } => put_numbers(out, 4, number, version),
        Tell::Resolved { number, version } => put_numbers(out, 5, number, version),
        Tell::New { version } => put_number(out, 6, version),
        Tell::Position { position } => put_number(out, 7, position),
        Tell::Opened => put_u8(out, 8),
        Tell::Dropped => put_u8(out, 9),
    }
}

impl Spelled for Tell {
    ghost use Rattle.held_codec.specs.Spelling.{tell_spelling, HasTell};

    ghost spelling = { tell_spelling };

    ghost has_spelling = { HasTell };

    fn put(&self, out: &mut Vec<u8>) -> Result<(), AllocError> {
        put_tell(out, *self)
    }
}

/// Appends the spelling of a list of local names, and a part of it where memory is refused.
pub fn put_locals(out: &mut Vec<u8>, names: &[LocalName]) -> Result<(), AllocError>
    requires { AreEach HasLocalSpelling names.now }
    ensures ok { OnOk result (out.new.items ≡ out.old.items ++ list_spelling local_spelling names.now) }
    ensures full { OnErr result (vec_capacity out.old
        < vec_len out.old + length (list_spelling local_spelling names.now)) }
    ensures capacity { vec_capacity out.old ≤ vec_capacity out.new }
{
    put_list(out, names)
}

/// Appends the spelling of a list of tells, and a part of it where memory is refused.
pub fn put_tells(out: &mut Vec<u8>, tells: &[Tell]) -> Result<(), AllocError>
    requires { AreEach HasTell tells.now }
    ensures ok { OnOk result (out.new.items ≡ out.old.items ++ list_spelling tell_spelling tells.now) }
    ensures full { OnErr result (vec_capacity out.old
        < vec_len out.old + length (list_spelling tell_spelling tells.now)) }
    ensures capacity { vec_capacity out.old ≤ vec_capacity out.new }
{
    put_list(out, tells)
}
