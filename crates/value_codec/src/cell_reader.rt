ghost use Rattle.std.specs.Prelude.{◌≡◌, ◌≤◌, ◌++◌, ℕ, List, length, drop, IfOk, Ok};
ghost use Rattle.value_codec.specs.Spelling.{HasCellSpelling, cell_spelling};
ghost use Rattle.value_codec.specs.Reading.{Gives, int_at, bool_at, text_cell_at, cell_at, after_cell, cell_in};
ghost use Rattle.value_codec.specs.Reading.{items_at, list_at};
ghost use Rattle.value_codec.specs.FirstBad.{Refuses};

use crate::field_reader::{take_byte, take_eight, take_flag, take_four, take_text};
use crate::spell_fault::SpellFault;
use row_value::{Cell, Cells};
use stab_base::Sequence;
use std::alloc::Global;

#[tactic(auto, unfolding(crate::specs::Reading::int_at))]
fn take_int(bytes: &[u8], at: usize) -> Result<(Cell, usize), SpellFault>
    requires { at ≤ length bytes.now }
    ensures value { Gives bytes.now (λ x. (x.0, drop x.1 bytes.now)) result (int_at (drop at bytes.now)) }
    ensures within { IfOk result (λ x. x.1 ≤ length bytes.now) }
{
    let (n, behind) = take_eight(bytes, at)?;
    Ok((Cell::Int(n.cast_signed()), behind))
}

#[tactic(auto, unfolding(crate::specs::Reading::bool_at))]
fn take_bool(bytes: &[u8], at: usize) -> Result<(Cell, usize), SpellFault>
    requires { at ≤ length bytes.now }
    ensures value { Gives bytes.now (λ x. (x.0, drop x.1 bytes.now)) result (bool_at (drop at bytes.now)) }
    ensures within { IfOk result (λ x. x.1 ≤ length bytes.now) }
{
    let (flag, behind) = take_flag(bytes, at)?;
    Ok((Cell::Bool(flag), behind))
}

#[tactic(auto, unfolding(crate::specs::Reading::text_cell_at))]
fn take_text_cell(alloc: Global, bytes: &[u8], at: usize) -> Result<(Cell, usize), SpellFault>
    requires { at ≤ length bytes.now }
    ensures value { Gives bytes.now (λ x. (x.0, drop x.1 bytes.now)) result (text_cell_at (drop at bytes.now)) }
    ensures within { IfOk result (λ x. x.1 ≤ length bytes.now) }
{
    let (text, behind) = take_text(alloc, bytes, at)?;
    Ok((Cell::Text(text), behind))
}

#[tactic(auto, unfolding(crate::specs::Reading::cell_at))]
fn read_cell(alloc: Global, bytes: &[u8], at: usize) -> Result<(Cell, usize), SpellFault>
    requires { at ≤ length bytes.now }
    ensures value { Gives bytes.now (λ x. (x.0, drop x.1 bytes.now)) result (cell_at (drop at bytes.now)) }
    ensures within { IfOk result (λ x. x.1 ≤ length bytes.now) }
{
    let (tag, behind) = take_byte(bytes, at)?;
    match tag {
        1 => take_int(bytes, behind),
        2 => take_bool(bytes, behind),
        3 => take_text_cell(alloc, bytes, behind),
        _ => Err(SpellFault::Bad { at }),
    }
}

fn take_cell_items(
    alloc: Global,
    bytes: &[u8],
    at: usize,
    count: u32,
) -> Result<(Cells, usize), SpellFault>
    requires { at ≤ length bytes.now }
    ensures value { Gives bytes.now (λ x. (x.0, drop x.1 bytes.now))
        result (items_at after_cell cell_in tt count (drop at bytes.now)) }
    ensures within { IfOk result (λ x. x.1 ≤ length bytes.now) }
{
    let mut cells = Sequence::new(alloc);
    let mut place = at;
    for _ in 0..count {
        let (cell, behind) = read_cell(alloc, bytes, place)?;
        cells.push(cell)?;
        place = behind;
    }
    Ok((cells, place))
}

#[tactic(auto, unfolding(crate::specs::Reading::list_at))]
pub(crate) fn take_cells(
    alloc: Global,
    bytes: &[u8],
    at: usize,
) -> Result<(Cells, usize), SpellFault>
    requires { at ≤ length bytes.now }
    ensures value { Gives bytes.now (λ x. (x.0, drop x.1 bytes.now))
        result (list_at after_cell cell_in tt (drop at bytes.now)) }
    ensures within { IfOk result (λ x. x.1 ≤ length bytes.now) }
{
    let (count, begin) = take_four(bytes, at)?;
    take_cell_items(alloc, bytes, begin, count)
}

/// The cell at a place, and the place behind it.
pub fn take_cell(alloc: Global, bytes: &[u8], at: usize) -> Result<(Cell, usize), SpellFault>
    requires { at ≤ length bytes.now }
    // What is found stands there as it is spelled.
    ensures found { IfOk result (λ x. HasCellSpelling x.0
        × (drop at bytes.now ≡ cell_spelling x.0 ++ drop x.1 bytes.now)) }
    // What is spelled there is found, whatever follows it.
    ensures only { (cell : Cell) (rest : List ℕ)
        → HasCellSpelling cell → drop at bytes.now ≡ cell_spelling cell ++ rest
        → Gives {Y = Cell × List ℕ} bytes.now (λ x. (x.0, drop x.1 bytes.now)) result (Ok (cell, rest)) }
    // A fault tells the first place at which no spelling goes on.
    ensures refused { Refuses HasCellSpelling cell_spelling bytes.now at result }
    ensures exact { Gives bytes.now (λ x. (x.0, drop x.1 bytes.now)) result (cell_at (drop at bytes.now)) }
    ensures within { IfOk result (λ x. x.1 ≤ length bytes.now) }
{
    read_cell(alloc, bytes, at)
}
