//! Which messages a table's node takes, and what it answers.
ghost use Rattle.std.specs.Prelude.{◌≡◌, ◌+◌, ◌++◌, ◌<◌, Some};
ghost use Rattle.std.specs.Bool.{MatchBool};
ghost use Rattle.step_tables.specs.Messages.{table_of};
ghost use Rattle.step_tables.specs.StoreMoves.{responded};
ghost use Rattle.step_tables.specs.Travels.{message_of, outcome_of, send_of};
ghost use Rattle.store_node.specs.Node.{Fits};
ghost use Rattle.store_node.specs.Messages.{IsFor, entry_of};
ghost use Rattle.store_node.specs.Update.{request_of};

use row_value::{Schema, fits};
use stab_base::{Node, TableNo, Version};
use step_tables::{Addressed, Message, Outcome, SyncRequest, SyncResponse};
use table_model::Entry;

/// The table that a message is of.
pub fn table_of(message: &Message) -> TableNo
    ensures { result ≡ table_of (message_of message.now) }
{
    match message {
        Message::SyncRequest(request) => request.table,
        Message::SyncResponse(response) => response.table,
        Message::PullRequest(request) => request.table,
        Message::PullResponse(response) => response.table,
        Message::TornRowRequest(request) => request.table,
        Message::TornRowResponse(response) => response.table,
    }
}

// Whether a request is one of a client, and its content a row of the table.
fn is_fit(schema: &Schema, request: &SyncRequest) -> bool
    ensures { MatchBool result (Fits schema.now (Message.SyncRequest request.now))
        (Fits schema.now (Message.SyncRequest request.now) → ⊥) }
{
    fits(schema, &request.content).is_ok() && request.client >= 1 && request.client <= 64
}

fn may_be_taken(schema: &Schema, message: &Message) -> bool
    ensures { MatchBool result (Fits schema.now message.now) (Fits schema.now message.now → ⊥) }
{
    match message {
        Message::SyncRequest(request) => is_fit(schema, request),
        Message::SyncResponse(_)
        | Message::PullRequest(_)
        | Message::PullResponse(_)
        | Message::TornRowRequest(_)
        | Message::TornRowResponse(_) => true,
    }
}

/// Whether a message is one of this table, and one that it takes.
pub(crate) fn is_taken(table: TableNo, schema: &Schema, message: &Message) -> bool
    ensures { MatchBool result (IsFor table message.now × Fits schema.now message.now)
        (IsFor table message.now × Fits schema.now message.now → ⊥) }
{
    table_of(message) == table && may_be_taken(schema, message)
}

/// The answer to a request.
pub(crate) fn response(from: Node, request: &SyncRequest, outcome: Outcome) -> Addressed
    ensures { send_of result ≡ responded from (request_of request.now) (outcome_of outcome) }
{
    let response = SyncResponse {
        client: request.client,
        table: request.table,
        row: request.row,
        number: request.number,
        outcome,
    };
    (Some(from), Message::SyncResponse(response))
}

/// The entry of a request that is accepted at a version.
pub(crate) fn entry(request: &SyncRequest, version: Version) -> Entry
    ensures { result ≡ entry_of request.now version }
{
    Entry {
        row: request.row,
        version,
        client: request.client,
        number: request.number,
        base: request.base,
    }
}
