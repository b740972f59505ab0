//! The lines of what is done to a node, or to a client's link.
ghost use Rattle.std.specs.Prelude.{◌≡◌};
ghost use Rattle.script_words.specs.Words.{texts};
ghost use Rattle.script_text.specs.Reading.{node_in, hold_in, free_in, work_in, work_all_in, start_in, crash_in};
ghost use Rattle.script_text.specs.Reading.{link_in};

use crate::declared::Declared;
use crate::fault::{BadLine, MOST_CALLS};
use crate::next::{end, next_word, placed};
use crate::places::{client_at, direction_at, number_at, number_to, party_at};
use stab_base::Node;
use table_model::Event;

#[tactic(auto, unfolding(crate::specs::Reading::node_in, crate::specs::Reading::word_in))]
fn node_line(names: &Declared, words: &[&str]) -> Result<Node, BadLine>
    ensures { result ≡ node_in names.now (texts words.now) }
{
    let (word, rest) = next_word(words, 1)?;
    let node = placed(1, party_at(names, word))?;
    end(rest, 2)?;
    Ok(node)
}

pub(crate) fn hold_line(names: &Declared, words: &[&str]) -> Result<Event, BadLine>
    ensures { result ≡ hold_in names.now (texts words.now) }
{
    let node = node_line(names, words)?;
    Ok(Event::Hold { node })
}

pub(crate) fn free_line(names: &Declared, words: &[&str]) -> Result<Event, BadLine>
    ensures { result ≡ free_in names.now (texts words.now) }
{
    let node = node_line(names, words)?;
    Ok(Event::Free { node })
}

pub(crate) fn work_line(names: &Declared, words: &[&str]) -> Result<Event, BadLine>
    ensures { result ≡ work_in names.now (texts words.now) }
{
    let node = node_line(names, words)?;
    Ok(Event::Work { node })
}

pub(crate) fn work_all_line(names: &Declared, words: &[&str]) -> Result<Event, BadLine>
    ensures { result ≡ work_all_in names.now (texts words.now) }
{
    let node = node_line(names, words)?;
    Ok(Event::WorkAll { node })
}

pub(crate) fn start_line(names: &Declared, words: &[&str]) -> Result<Event, BadLine>
    ensures { result ≡ start_in names.now (texts words.now) }
{
    let node = node_line(names, words)?;
    Ok(Event::Start { node })
}

#[tactic(auto, unfolding(crate::specs::Reading::crash_in, crate::specs::Reading::word_in))]
pub(crate) fn crash_line(names: &Declared, words: &[&str]) -> Result<Event, BadLine>
    ensures { result ≡ crash_in names.now (texts words.now) }
{
    let (word, rest) = next_word(words, 1)?;
    let node = placed(1, party_at(names, word))?;
    let (word, rest) = next_word(rest, 2)?;
    let calls = placed(2, number_to(MOST_CALLS, word))?;
    let (word, rest) = next_word(rest, 3)?;
    let pick = placed(3, number_at(word))?;
    end(rest, 4)?;
    Ok(Event::Crash { node, calls, pick })
}

#[tactic(auto, unfolding(crate::specs::Reading::link_in, crate::specs::Reading::word_in))]
pub(crate) fn link_line(names: &Declared, words: &[&str]) -> Result<Event, BadLine>
    ensures { result ≡ link_in names.now (texts words.now) }
{
    let (word, rest) = next_word(words, 1)?;
    let client = placed(1, client_at(names, word))?;
    let (word, rest) = next_word(rest, 2)?;
    let up = placed(2, direction_at(word))?;
    end(rest, 3)?;
    Ok(Event::Link { client, up })
}
