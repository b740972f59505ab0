//! The lines that change a row as a client shows it.
ghost use Rattle.std.specs.Prelude.{◌≡◌, ◌<◌, ◌^◌, [], IfOk, OnOk};
ghost use Rattle.script_words.specs.Words.{texts};
ghost use Rattle.script_words.specs.Codes.{Judges};
ghost use Rattle.script_words.specs.Values.{bytes_at};
ghost use Rattle.script_text.specs.Names.{columns_of};
ghost use Rattle.script_text.specs.Places.{changed_to, change_at, with_change};
ghost use Rattle.script_text.specs.Reading.{Reads, placed, changes_in, update_in, patch_in, delete_in};
ghost use Rattle.script_text.specs.Reading.{change_in, edit_in};

use crate::declared::Declared;
use crate::fault::{BadLine, MOST_PLACE, ScriptFault, bad};
use crate::next::{end, next_word, placed};
use crate::places::{client_at, column_at, number_to, row_at, table_at};
use crate::verb::EditVerb;
use row_edits::{Changes, ColumnValue, Edit, Patch, Value};
use row_value::SharedBytes;
use script_words::{Code, Value as Spelled, ValueFault, bytes_at, sides_of, value_at};
use std::alloc::{AllocError, Global};
use table_model::Event;

fn changed_to(value: Spelled) -> Result<Value, AllocError>
    ensures { IfOk result (λ changed. changed ≡ changed_to value) }
{
    match value {
        Spelled::OfCell(cell) => Ok(Value::Cell(cell)),
        Spelled::OfObject(object) => Ok(Value::Object(SharedBytes::new(object)?)),
    }
}

// A column's name, `=` and a value.
#[tactic(auto, unfolding(crate::specs::Places::change_at))]
fn change_at(
    alloc: Global,
    names: &Declared,
    table: u32,
    word: &str,
) -> Result<ColumnValue, ValueFault>
    ensures { Judges result (change_at (columns_of names.now table) word.now) }
{
    let Some((name, value)) = sides_of(word) else {
        return Err(Code::NoName.into());
    };
    let column = column_at(names, table, name)?;
    let value = value_at(alloc, value)?;
    let value = changed_to(value)?;
    Ok(ColumnValue { column, value })
}

fn change_placed(
    alloc: Global,
    names: &Declared,
    table: u32,
    word: &str,
    at: usize,
) -> Result<ColumnValue, ScriptFault>
    ensures { Reads result (placed at (change_at (columns_of names.now table) word.now)) }
{
    match change_at(alloc, names, table, word) {
        Ok(change) => Ok(change),
        Err(ValueFault::Code(code)) => Err(ScriptFault::BadLine(bad(code, at))),
        Err(ValueFault::Memory) => Err(ScriptFault::Memory),
    }
}

fn changes_of(
    alloc: Global,
    names: &Declared,
    table: u32,
    words: &[&str],
    at: usize,
) -> Result<Changes, ScriptFault>
    requires { at < 2 ^ 32 }
    ensures { Reads result (changes_in (columns_of names.now table) at [] (texts words.now)) }
{
    let mut changes = Changes::new(alloc);
    for (i, word) in words.iter().enumerate() {
        let change = change_placed(alloc, names, table, word, at + i)?;
        changes.push(change)?;
    }
    Ok(changes)
}

#[tactic(auto, unfolding(crate::specs::Reading::update_in))]
fn update_of(
    alloc: Global,
    names: &Declared,
    table: u32,
    words: &[&str],
) -> Result<Edit, ScriptFault>
    ensures { Reads result (update_in (columns_of names.now table) (texts words.now)) }
{
    let _first = next_word(words, 4)?;
    let changes = changes_of(alloc, names, table, words, 4)?;
    Ok(Edit::Update(changes))
}

// The bytes of hex digits, two of them a byte.
fn bytes_placed(alloc: Global, word: &str, at: usize) -> Result<SharedBytes, ScriptFault>
    ensures { Reads result (placed at (bytes_at word.now)) }
{
    match bytes_at(alloc, word) {
        Ok(bytes) => Ok(SharedBytes::new(bytes)?),
        Err(ValueFault::Code(code)) => Err(ScriptFault::BadLine(bad(code, at))),
        Err(ValueFault::Memory) => Err(ScriptFault::Memory),
    }
}

#[tactic(auto, unfolding(crate::specs::Reading::patch_in, crate::specs::Reading::word_in))]
fn patch_of(
    alloc: Global,
    names: &Declared,
    table: u32,
    words: &[&str],
) -> Result<Edit, ScriptFault>
    ensures { Reads result (patch_in (columns_of names.now table) (texts words.now)) }
{
    let (word, rest) = next_word(words, 4)?;
    let column = placed(4, column_at(names, table, word))?;
    let (word, rest) = next_word(rest, 5)?;
    let at = placed(5, number_to(MOST_PLACE, word))?;
    let (word, rest) = next_word(rest, 6)?;
    let bytes = bytes_placed(alloc, word, 6)?;
    end(rest, 7)?;
    Ok(Edit::Patch(Patch { column, at, bytes }))
}

fn delete_of(words: &[&str]) -> Result<Edit, BadLine>
    ensures { result ≡ delete_in (texts words.now) }
{
    end(words, 4)?;
    Ok(Edit::Delete)
}

// What the words behind the row say.
fn change_of(
    alloc: Global,
    names: &Declared,
    verb: EditVerb,
    table: u32,
    words: &[&str],
) -> Result<Edit, ScriptFault>
    ensures { Reads result (change_in verb (columns_of names.now table) (texts words.now)) }
{
    match verb {
        EditVerb::Update => update_of(alloc, names, table, words),
        EditVerb::Patch => patch_of(alloc, names, table, words),
        EditVerb::Delete => Ok(delete_of(words)?),
    }
}

/// The event of a line that changes a row.
#[tactic(auto, unfolding(crate::specs::Reading::edit_in, crate::specs::Reading::word_in))]
pub(crate) fn edit_line(
    alloc: Global,
    names: &Declared,
    verb: EditVerb,
    words: &[&str],
) -> Result<Event, ScriptFault>
    ensures { Reads result (edit_in names.now verb (texts words.now)) }
{
    let (word, rest) = next_word(words, 1)?;
    let client = placed(1, client_at(names, word))?;
    let (word, rest) = next_word(rest, 2)?;
    let table = placed(2, table_at(names, word))?;
    let (word, rest) = next_word(rest, 3)?;
    let row = placed(3, row_at(word))?;
    let edit = change_of(alloc, names, verb, table, rest)?;
    Ok(Event::Edit {
        client,
        table,
        row,
        edit,
    })
}
