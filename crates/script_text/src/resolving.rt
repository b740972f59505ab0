//! The lines that resolve conflicts.
ghost use Rattle.std.specs.Prelude.{◌≡◌};
ghost use Rattle.script_words.specs.Words.{texts};
ghost use Rattle.script_text.specs.Names.{columns_of};
ghost use Rattle.script_text.specs.Places.{way_at, rule_at};
ghost use Rattle.script_text.specs.Reading.{Reads, new_in, chosen_in, choice_in, resolve_in};
ghost use Rattle.script_text.specs.Reading.{larger_in, ruled_in, rule_in, resolve_all_in};

use crate::contents::some_content;
use crate::declared::Declared;
use crate::fault::{BadLine, ScriptFault};
use crate::next::{end, next_word, placed};
use crate::places::{client_at, column_at, number_at, row_at, table_at};
use conflicts::{Choice, Stored};
use row_value::Content;
use script_words::Code;
use std::alloc::Global;
use table_model::Event;

/// The word that says how a conflict is resolved.
#[derive(Debug, Clone, Copy, PartialEq, Eq)]
pub(crate) enum Way {
    Mine,
    Theirs,
    New,
}

#[tactic(auto, unfolding(crate::specs::Places::way_at))]
fn way_at(word: &str) -> Result<Way, Code>
    ensures { result ≡ way_at word.now }
{
    match word {
        "mine" => Ok(Way::Mine),
        "theirs" => Ok(Way::Theirs),
        "new" => Ok(Way::New),
        _ => Err(Code::NoName),
    }
}

// The values of a row, or that it is deleted.
#[tactic(auto, unfolding(crate::specs::Reading::new_in))]
fn new_content(alloc: Global, words: &[&str]) -> Result<Content, ScriptFault>
    ensures { Reads result (new_in (texts words.now)) }
{
    let (word, rest) = next_word(words, 6)?;
    if word == "gone" {
        end(rest, 7)?;
        return Ok(Content::Gone);
    }
    some_content(alloc, words, 6)
}

// What the words behind the one that says how a conflict is resolved make of it.
fn chosen(alloc: Global, way: Way, words: &[&str]) -> Result<Choice, ScriptFault>
    ensures { Reads result (chosen_in way (texts words.now)) }
{
    match way {
        Way::Mine => {
            end(words, 6)?;
            Ok(Choice::Mine)
        }
        Way::Theirs => {
            end(words, 6)?;
            Ok(Choice::Theirs)
        }
        Way::New => Ok(Choice::New(new_content(alloc, words)?)),
    }
}

#[tactic(auto, unfolding(crate::specs::Reading::choice_in, crate::specs::Reading::word_in))]
fn choice_of(alloc: Global, words: &[&str]) -> Result<Choice, ScriptFault>
    ensures { Reads result (choice_in (texts words.now)) }
{
    let (word, rest) = next_word(words, 5)?;
    let way = placed(5, way_at(word))?;
    chosen(alloc, way, rest)
}

/// The event of a line that resolves a conflict.
#[tactic(auto, unfolding(crate::specs::Reading::resolve_in, crate::specs::Reading::word_in))]
pub(crate) fn resolve_line(
    alloc: Global,
    names: &Declared,
    words: &[&str],
) -> Result<Event, ScriptFault>
    ensures { Reads result (resolve_in names.now (texts words.now)) }
{
    let (word, rest) = next_word(words, 1)?;
    let client = placed(1, client_at(names, word))?;
    let (word, rest) = next_word(rest, 2)?;
    let table = placed(2, table_at(names, word))?;
    let (word, rest) = next_word(rest, 3)?;
    let row = placed(3, row_at(word))?;
    let (word, rest) = next_word(rest, 4)?;
    let seen = placed(4, number_at(word))?;
    let choice = choice_of(alloc, rest)?;
    Ok(Event::Resolve {
        client,
        table,
        row,
        seen,
        choice,
    })
}

/// The word that says how all conflicts of a table are resolved.
#[derive(Debug, Clone, Copy, PartialEq, Eq)]
pub(crate) enum Rule {
    Mine,
    Theirs,
    Larger,
}

#[tactic(auto, unfolding(crate::specs::Places::rule_at))]
fn rule_at(word: &str) -> Result<Rule, Code>
    ensures { result ≡ rule_at word.now }
{
    match word {
        "mine" => Ok(Rule::Mine),
        "theirs" => Ok(Rule::Theirs),
        "larger" => Ok(Rule::Larger),
        _ => Err(Code::NoName),
    }
}

#[tactic(auto, unfolding(crate::specs::Reading::larger_in, crate::specs::Reading::word_in))]
fn larger(names: &Declared, table: u32, words: &[&str]) -> Result<Stored, BadLine>
    ensures { result ≡ larger_in (columns_of names.now table) (texts words.now) }
{
    let (word, rest) = next_word(words, 4)?;
    let column = placed(4, column_at(names, table, word))?;
    end(rest, 5)?;
    Ok(Stored::Larger { column })
}

// What the words behind the one that says how all conflicts are resolved make of it.
fn ruled(names: &Declared, table: u32, rule: Rule, words: &[&str]) -> Result<Stored, BadLine>
    ensures { result ≡ ruled_in (columns_of names.now table) rule (texts words.now) }
{
    match rule {
        Rule::Mine => {
            end(words, 4)?;
            Ok(Stored::Mine)
        }
        Rule::Theirs => {
            end(words, 4)?;
            Ok(Stored::Theirs)
        }
        Rule::Larger => larger(names, table, words),
    }
}

#[tactic(auto, unfolding(crate::specs::Reading::rule_in, crate::specs::Reading::word_in))]
fn rule_of(names: &Declared, table: u32, words: &[&str]) -> Result<Stored, BadLine>
    ensures { result ≡ rule_in (columns_of names.now table) (texts words.now) }
{
    let (word, rest) = next_word(words, 3)?;
    let rule = placed(3, rule_at(word))?;
    ruled(names, table, rule, rest)
}

/// The event of a line that resolves all conflicts of a table.
#[tactic(auto, unfolding(crate::specs::Reading::resolve_all_in, crate::specs::Reading::word_in))]
pub(crate) fn resolve_all_line(names: &Declared, words: &[&str]) -> Result<Event, BadLine>
    ensures { result ≡ resolve_all_in names.now (texts words.now) }
{
    let (word, rest) = next_word(words, 1)?;
    let client = placed(1, client_at(names, word))?;
    let (word, rest) = next_word(rest, 2)?;
    let table = placed(2, table_at(names, word))?;
    let by = rule_of(names, table, rest)?;
    Ok(Event::ResolveAll { client, table, by })
}
