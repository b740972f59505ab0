//! The values of a row, word by word.
ghost use Rattle.std.specs.Prelude.{◌≡◌, ◌<◌, ◌^◌, [], OnOk, IfOk};
ghost use Rattle.script_words.specs.Words.{texts};
ghost use Rattle.script_words.specs.Codes.{Judges};
ghost use Rattle.script_text.specs.Places.{in_order, value_behind, with_value};
ghost use Rattle.script_text.specs.Reading.{Reads, placed, values_in, content_in};

use crate::fault::{ScriptFault, bad};
use crate::next::next_word;
use row_value::{Cells, Content, Objects, SharedBytes};
use script_words::{Code, Value, ValueFault, value_at};
use std::alloc::{AllocError, Global};

// No cell stands behind an object.
fn in_order(objects: &Objects, value: Value) -> Result<Value, Code>
    ensures { result ≡ in_order objects.now value }
{
    match value {
        Value::OfCell(_) if objects.len() > 0 => Err(Code::NoValue),
        value => Ok(value),
    }
}

#[tactic(auto, unfolding(crate::specs::Places::value_behind))]
fn value_behind(
    alloc: Global,
    cells: &Cells,
    objects: &Objects,
    word: &str,
) -> Result<Value, ValueFault>
    ensures { Judges result (value_behind (cells.now, objects.now) word.now) }
{
    let _cells = cells;
    let value = value_at(alloc, word)?;
    Ok(in_order(objects, value)?)
}

fn value_placed(
    alloc: Global,
    cells: &Cells,
    objects: &Objects,
    word: &str,
    at: usize,
) -> Result<Value, ScriptFault>
    ensures { Reads result (placed at (value_behind (cells.now, objects.now) word.now)) }
{
    match value_behind(alloc, cells, objects, word) {
        Ok(value) => Ok(value),
        Err(ValueFault::Code(code)) => Err(ScriptFault::BadLine(bad(code, at))),
        Err(ValueFault::Memory) => Err(ScriptFault::Memory),
    }
}

fn put_value(cells: &mut Cells, objects: &mut Objects, value: Value) -> Result<(), AllocError>
    ensures { OnOk result ((cells.new, objects.new) ≡ with_value (cells.old, objects.old) value) }
{
    match value {
        Value::OfCell(cell) => cells.push(cell)?,
        Value::OfObject(object) => objects.push(SharedBytes::new(object)?)?,
    }
    Ok(())
}

fn values_of(alloc: Global, words: &[&str], at: usize) -> Result<(Cells, Objects), ScriptFault>
    requires { at < 2 ^ 32 }
    ensures { Reads result (values_in at ([], []) (texts words.now)) }
{
    let mut cells = Cells::new(alloc);
    let mut objects = Objects::new(alloc);
    for (i, word) in words.iter().enumerate() {
        let value = value_placed(alloc, &cells, &objects, word, at + i)?;
        put_value(&mut cells, &mut objects, value)?;
    }
    Ok((cells, objects))
}

/// The content of one value or more, the first of which stands at this place of its line.
#[tactic(auto, unfolding(crate::specs::Reading::content_in))]
pub(crate) fn some_content(alloc: Global, words: &[&str], at: usize) -> Result<Content, ScriptFault>
    requires { at < 2 ^ 32 }
    ensures { Reads result (content_in at (texts words.now)) }
{
    let _first = next_word(words, at)?;
    let (cells, objects) = values_of(alloc, words, at)?;
    Ok(Content::Row { cells, objects })
}
