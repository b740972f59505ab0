//! The widths of a message's numbers, as the types of the program say them.
ghost use Rattle.std.specs.Prelude.{option_map};
ghost use Rattle.std.specs.List.{AllByRecursion};
ghost use Rattle.value_codec.specs.Spelling.{HasNameSpelling, HasPieceSpelling};
ghost use Rattle.field_codec.specs.Forms.{IsOption};
ghost use Rattle.step_tables.specs.Travels.{message_of, header_of, outcome_of};
ghost use Rattle.step_tables.specs.declared.message.Message.TheVariants as kinds;
ghost use Rattle.frame_laws.specs.Sizes.{IsWord, IsTable, IsRow, HasWord, HaveWords, IsSizedOutcome};
ghost use Rattle.send_laws.specs.Widths.{HaveNameWidths, HavePieceWidths, HasRowWidths, HasWidths};

use row_value::{Cell, Content, Piece, Pieces};
use stab_base::{ChunkName, Names, RowId, TableNo};
use step_tables::{
    Message, Outcome, PullRequest, PullResponse, RowHeader, SyncRequest, SyncResponse,
    TornRowRequest, TornRowResponse,
};

fn know_number(number: &u64)
    ensures { IsWord number.now }
{
    let _known: u64 = *number;
}

fn know_table(table: &TableNo)
    ensures { IsTable table.now }
{
    let _known: u32 = *table;
}

fn know_row(row: &RowId)
    ensures { IsRow row.now }
{
    let _known: [u8; 16] = row.to_bytes();
}

// ---- contents

fn know_cell(cell: &Cell)
    ensures { HasWord cell.now }
{
    match cell {
        Cell::Int(number) => {
            let _known: i64 = *number;
        }
        Cell::Bool(_) | Cell::Text(_) => {}
    }
}

fn know_cells(cells: &[Cell])
    ensures { AllByRecursion HasWord cells.now }
{
    for cell in cells {
        know_cell(cell);
    }
}

fn know_content(content: &Content)
    ensures { HaveWords content.now }
{
    if let Content::Row { cells, .. } = content {
        know_cells(cells.as_slice());
    }
}

// ---- the chunks of each object

fn know_name(name: &ChunkName)
    ensures { HasNameSpelling name.now }
{
    let _version: u64 = name.version;
    let _ordinal: u32 = name.ordinal;
}

fn know_names(names: &[ChunkName])
    ensures { AllByRecursion HasNameSpelling names.now }
{
    for name in names {
        know_name(name);
    }
}

fn know_object_names(names: &[Names])
    ensures { HaveNameWidths names.now }
{
    for object in names {
        know_names(object.as_slice());
    }
}

fn know_piece(piece: &Piece)
    ensures { HasPieceSpelling piece.now }
{
    match piece {
        Piece::Keep(name) => know_name(name),
        Piece::Fresh(ordinal) => {
            let _known: u32 = *ordinal;
        }
    }
}

fn know_pieces(pieces: &[Piece])
    ensures { AllByRecursion HasPieceSpelling pieces.now }
{
    for piece in pieces {
        know_piece(piece);
    }
}

fn know_object_pieces(pieces: &[Pieces])
    ensures { HavePieceWidths pieces.now }
{
    for object in pieces {
        know_pieces(object.as_slice());
    }
}

// ---- messages

fn know_header(header: &RowHeader)
    ensures { HasRowWidths (header_of header.now) }
{
    know_row(&header.row);
    know_number(&header.version);
    know_number(&header.yours.number);
    know_number(&header.yours.version);
    know_content(&header.content);
    know_object_names(header.names.as_slice());
}

fn know_header_if(header: &Option<RowHeader>)
    ensures { IsOption HasRowWidths (option_map header_of header.now) }
{
    match header {
        Some(header) => know_header(header),
        None => {}
    }
}

fn know_request(request: &SyncRequest)
    ensures { HasWidths (message_of (kinds.SyncRequest request.now)) }
{
    know_table(&request.table);
    know_row(&request.row);
    know_number(&request.number);
    know_number(&request.base);
    know_content(&request.content);
    know_object_pieces(request.pieces.as_slice());
}

fn know_outcome(outcome: &Outcome)
    ensures { IsSizedOutcome (outcome_of outcome.now) }
{
    match outcome {
        Outcome::Accepted { version } => know_number(version),
        Outcome::Again { version } => know_number(version),
        Outcome::Late { last } => know_number(last),
        Outcome::Stale { latest } => know_number(latest),
        Outcome::Conflict { latest } => know_number(latest),
        Outcome::NeedWhole => {}
    }
}

fn know_response(response: &SyncResponse)
    ensures { HasWidths (message_of (kinds.SyncResponse response.now)) }
{
    know_table(&response.table);
    know_row(&response.row);
    know_number(&response.number);
    know_outcome(&response.outcome);
}

fn know_pull(pull: &PullRequest)
    ensures { HasWidths (message_of (kinds.PullRequest pull.now)) }
{
    know_table(&pull.table);
    know_number(&pull.position);
}

fn know_pulled(pulled: &PullResponse)
    ensures { HasWidths (message_of (kinds.PullResponse pulled.now)) }
{
    know_table(&pulled.table);
    know_number(&pulled.from);
    know_number(&pulled.to);
    know_number(&pulled.latest);
    know_header_if(&pulled.header);
}

fn know_torn(torn: &TornRowRequest)
    ensures { HasWidths (message_of (kinds.TornRowRequest torn.now)) }
{
    know_table(&torn.table);
    know_row(&torn.row);
}

fn know_torn_answer(answer: &TornRowResponse)
    ensures { HasWidths (message_of (kinds.TornRowResponse answer.now)) }
{
    know_table(&answer.table);
    know_row(&answer.row);
    know_header_if(&answer.header);
}

/// Tells that the numbers of a message have the widths of their types. (Does nothing.)
pub fn know_widths(message: &Message)
    ensures { HasWidths (message_of message.now) }
{
    match message {
        Message::SyncRequest(request) => know_request(request),
        Message::SyncResponse(response) => know_response(response),
        Message::PullRequest(pull) => know_pull(pull),
        Message::PullResponse(pulled) => know_pulled(pulled),
        Message::TornRowRequest(torn) => know_torn(torn),
        Message::TornRowResponse(answer) => know_torn_answer(answer),
    }
}
