//! Whole messages in parts.
ghost use Rattle.std.specs.Prelude.{◌≡◌, ◌∷◌, [], true, map, IfOk};
ghost use Rattle.step_tables.specs.Travels as travels;
ghost use Rattle.step_tables.specs.Travels.{message_of};
ghost use Rattle.step_tables.specs.declared.message.Message.TheVariants as wholes;
ghost use Rattle.part_tables.specs.Parts.{parts_of, spelled_by};
ghost use Rattle.message_parts.specs.Parts.{message_at, outcome_at, first_part};
ghost use Rattle.message_parts.specs.Splits.{has_words, may_split};

use crate::fragments::{Way, fragments};
use crate::rows::row_parts;
use crate::spelled::spelled;
use assemblies::{Sent, awaited_of};
use std::alloc::{AllocError, Global};
use table_model::{
    Message, Outcome, PullRequest, PullResponse, SyncRequest, SyncResponse, TornRowRequest,
    TornRowResponse,
};

fn alone(alloc: Global, message: Message) -> Result<Vec<Message>, AllocError>
    ensures { IfOk result (λ made. made.items ≡ message ∷ []) }
{
    let mut parts = Vec::new(alloc);
    parts.push(message)?;
    Ok(parts)
}

// The chunks of a message behind its first part.
fn with_chunks(
    alloc: Global,
    first: Message,
    mut chunks: Vec<Message>,
) -> Result<Vec<Message>, AllocError>
    ensures { IfOk result (λ made. made.items ≡ first ∷ chunks.items) }
{
    let mut parts = Vec::new(alloc);
    parts.push(first)?;
    parts.append(&mut chunks)?;
    Ok(parts)
}

// ---- to the Store

fn request_head(
    alloc: Global,
    request: &step_tables::SyncRequest,
) -> Result<SyncRequest, AllocError>
    requires { has_words request.now.content request.now.pieces ≡ true }
    ensures head { IfOk result (λ made. Message.SyncRequest made
        ≡ message_at (first_part (message_of (wholes.SyncRequest request.now)))) }
    ensures content { IfOk result (λ made. made.content ≡ spelled_by request.now.content request.now.pieces) }
{
    Ok(SyncRequest {
        client: request.client,
        token: 0,
        table: request.table,
        row: request.row,
        number: request.number,
        base: request.base,
        content: spelled(alloc, &request.content, &request.pieces)?,
    })
}

fn request_parts(
    alloc: Global,
    chunk: u32,
    request: &step_tables::SyncRequest,
) -> Result<Vec<Message>, AllocError>
    requires { may_split (message_of (wholes.SyncRequest request.now)) ≡ true }
    ensures { IfOk result (λ made. made.items
        ≡ map message_at (parts_of chunk (message_of (wholes.SyncRequest request.now)))) }
{
    let head = request_head(alloc, request)?;
    let awaited = awaited_of(alloc, chunk, &head.content, Sent::Fresh)?;
    let way = Way {
        client: request.client,
        table: request.table,
        row: request.row,
        down: false,
        key: request.number,
    };
    let chunks = fragments(alloc, chunk, &way, &request.content, awaited.as_slice())?;
    with_chunks(alloc, Message::SyncRequest(head), chunks)
}

fn pull(pull: &step_tables::PullRequest) -> Message
    ensures { result ≡ message_at (first_part (message_of (wholes.PullRequest pull.now))) }
{
    Message::PullRequest(PullRequest {
        client: pull.client,
        token: 0,
        table: pull.table,
        position: pull.position,
    })
}

fn torn(torn: &step_tables::TornRowRequest) -> Message
    ensures { result ≡ message_at (first_part (message_of (wholes.TornRowRequest torn.now))) }
{
    Message::TornRowRequest(TornRowRequest {
        client: torn.client,
        token: 0,
        table: torn.table,
        row: torn.row,
    })
}

// ---- to a client

fn outcome(outcome: step_tables::Outcome) -> Outcome
    ensures { result ≡ outcome_at (travels.outcome_of outcome) }
{
    match outcome {
        step_tables::Outcome::Accepted { version } => Outcome::Accepted { version },
        step_tables::Outcome::Again { version } => Outcome::Again { version },
        step_tables::Outcome::Late { last } => Outcome::Late { last },
        step_tables::Outcome::Stale { latest } => Outcome::Stale { latest },
        step_tables::Outcome::Conflict { latest } => Outcome::Conflict { latest },
        step_tables::Outcome::NeedWhole => Outcome::NeedWhole,
    }
}

fn response(response: &step_tables::SyncResponse) -> Message
    ensures { result ≡ message_at (first_part (message_of (wholes.SyncResponse response.now))) }
{
    Message::SyncResponse(SyncResponse {
        client: response.client,
        table: response.table,
        row: response.row,
        number: response.number,
        outcome: outcome(response.outcome),
    })
}

fn pulled_parts(
    alloc: Global,
    chunk: u32,
    pulled: &step_tables::PullResponse,
) -> Result<Vec<Message>, AllocError>
    requires { may_split (message_of (wholes.PullResponse pulled.now)) ≡ true }
    ensures { IfOk result (λ made. made.items
        ≡ map message_at (parts_of chunk (message_of (wholes.PullResponse pulled.now)))) }
{
    let sent = Sent::Above(pulled.from);
    let (client, table) = (pulled.client, pulled.table);
    let (header, chunks) = row_parts(alloc, chunk, sent, client, table, &pulled.header)?;
    let first = Message::PullResponse(PullResponse {
        client,
        table,
        from: pulled.from,
        to: pulled.to,
        latest: pulled.latest,
        header,
    });
    with_chunks(alloc, first, chunks)
}

fn torn_parts(
    alloc: Global,
    chunk: u32,
    answer: &step_tables::TornRowResponse,
) -> Result<Vec<Message>, AllocError>
    requires { may_split (message_of (wholes.TornRowResponse answer.now)) ≡ true }
    ensures { IfOk result (λ made. made.items
        ≡ map message_at (parts_of chunk (message_of (wholes.TornRowResponse answer.now)))) }
{
    let (client, table) = (answer.client, answer.table);
    let (header, chunks) = row_parts(alloc, chunk, Sent::All, client, table, &answer.header)?;
    let first = Message::TornRowResponse(TornRowResponse {
        client,
        table,
        row: answer.row,
        header,
    });
    with_chunks(alloc, first, chunks)
}

/// A message in its parts, where chunks have this size: its header, and a message for each chunk that travels, of a
/// request the new ones, of an answer to a pull those of a version above the position, and of a row that was asked for
/// whole all. Tokens are 0. The bytes of objects are copied into their fragments, and nowhere else.
pub fn in_parts(
    alloc: Global,
    chunk: u32,
    message: &step_tables::Message,
) -> Result<Vec<Message>, AllocError>
    requires split { may_split (message_of message.now) ≡ true }
    ensures messages { IfOk result (λ made. made.items ≡ map message_at (parts_of chunk (message_of message.now))) }
{
    match message {
        step_tables::Message::SyncRequest(request) => request_parts(alloc, chunk, request),
        step_tables::Message::SyncResponse(answer) => alone(alloc, response(answer)),
        step_tables::Message::PullRequest(request) => alone(alloc, pull(request)),
        step_tables::Message::PullResponse(pulled) => pulled_parts(alloc, chunk, pulled),
        step_tables::Message::TornRowRequest(request) => alone(alloc, torn(request)),
        step_tables::Message::TornRowResponse(answer) => torn_parts(alloc, chunk, answer),
    }
}
