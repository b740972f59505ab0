//! Which messages can travel in parts.
ghost use Rattle.std.specs.Prelude.{◌≡◌, ◌+◌, ◌^◌, nat_lt, option_map};
ghost use Rattle.std.specs.List.{list_all};
ghost use Rattle.step_tables.specs.Travels.{message_of, header_of};
ghost use Rattle.message_parts.specs.Splits.{is_short, has_words, row_has_words, may_split};

use row_value::Content;
use stab_base::{Sequence, SharedBytes};
use step_tables::{Message, RowHeader};

fn has_few_columns(cells: usize, objects: usize) -> bool
    ensures { result ≡ nat_lt (cells + objects) (2 ^ 32) }
{
    (cells.saturating_add(objects) as u64) < 1 << 32
}

fn is_short(object: &SharedBytes) -> bool
    ensures { result ≡ is_short object.now }
{
    (object.len() as u64) < 1 << 32
}

fn are_short(objects: &[SharedBytes]) -> bool
    ensures { result ≡ list_all is_short objects.now }
{
    objects.iter().all(is_short)
}

fn has_few<T>(said: &Sequence<T>) -> bool
    ensures { result ≡ is_short said.now }
{
    (said.len() as u64) < 1 << 32
}

fn have_few<T>(said: &[Sequence<T>]) -> bool
    ensures { result ≡ list_all is_short said.now }
{
    said.iter().all(has_few)
}

fn has_words<T>(content: &Content, said: &[Sequence<T>]) -> bool
    ensures { result ≡ has_words content.now said.now }
{
    match content {
        Content::Gone => true,
        Content::Row { cells, objects } => {
            has_few_columns(cells.len(), objects.len())
                && are_short(objects.as_slice())
                && have_few(said)
        }
    }
}

fn row_has_words(header: &Option<RowHeader>) -> bool
    ensures { result ≡ row_has_words (option_map header_of header.now) }
{
    match header {
        None => true,
        Some(header) => has_words(&header.content, header.names.as_slice()),
    }
}

/// Whether a message can travel in parts: the columns of its row, the bytes of each object, and the pieces or the names
/// of its chunks are fewer than 2^32 each.
pub fn may_split(message: &Message) -> bool
    ensures { result ≡ may_split (message_of message.now) }
{
    match message {
        Message::SyncRequest(request) => { has_words(&request.content, request.pieces.as_slice()) }
        Message::PullResponse(answer) => row_has_words(&answer.header),
        Message::TornRowResponse(answer) => row_has_words(&answer.header),
        Message::SyncResponse(_) | Message::PullRequest(_) | Message::TornRowRequest(_) => true,
    }
}
