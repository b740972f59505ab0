ghost use Rattle.std.specs.Prelude.{◌≡◌, IfOk, IfErr, IfSome, IfNone, MatchOption, true, false};
ghost use Rattle.std.specs.Str.{is_utf8};
ghost use Rattle.script_words.specs.Words.{is_comment};
ghost use Rattle.script_text.specs.Reading.{Tells, line_in};
ghost use Rattle.script_text.specs.Grammar.{IsPassed, Spells, Blames};

use crate::declared::Declared;
use crate::fault::{ScriptFault, bad};
use crate::lines::event_line;
use script_words::{Code, words};
use std::alloc::Global;
use std::str;
use table_model::Event;

fn is_comment(line: &[u8]) -> bool
    ensures { result ≡ is_comment line.now }
{
    matches!(line, [b'#', ..])
}

fn text_of(line: &[u8]) -> Option<&str>
    ensures { MatchOption result (is_utf8 line.now ≡ false)
        (λ text. (text.now ≡ line.now) × (is_utf8 line.now ≡ true)) }
{
    str::from_utf8(line).ok()
}

#[tactic(auto, unfolding(crate::specs::Reading::line_in))]
fn read_line(alloc: Global, line: &[u8], names: &Declared) -> Result<Option<Event>, ScriptFault>
    ensures { Tells result (line_in names.now line.now) }
{
    if is_comment(line) {
        return Ok(None);
    }
    let Some(text) = text_of(line) else {
        return Err(bad(Code::NotUtf8, 0).into());
    };
    let words = words(alloc, text)?;
    match words.as_slice() {
        [] => Ok(None),
        [first, rest @ ..] => Ok(Some(event_line(alloc, names, first, rest)?)),
    }
}

/// The event that a line spells, without its newline. None where the line is passed over. A line is judged by its
/// grammar first, whole, and then by the limits on what it declares.
pub fn parse_line(
    alloc: Global,
    line: &[u8],
    names: &Declared,
) -> Result<Option<Event>, ScriptFault>
    ensures passed { IfOk result (λ found. IfNone found (IsPassed line.now)) }
    ensures event { IfOk result (λ found. IfSome found (Spells names.now line.now)) }
    ensures fault { IfErr result (Blames names.now line.now) }
{
    read_line(alloc, line, names)
}
