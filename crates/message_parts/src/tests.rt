use super::*;
use row_value::{Cell, Cells, Content, Objects, Piece, PieceContent, Pieces};
use stab_base::{ChunkName, Names, RowId, SharedBytes};
use std::alloc::Global;
use std::test::Fail;
use step_tables::{ObjectNames, ObjectPieces, Outcome, RowHeader, Yours};
use table_model::{Message, MessageName};

/// Column, place and bytes of a chunk.
const NEW: [(u32, u32, &[u8]); 3] = [(1, 0, b"ab"), (1, 2, b"e"), (2, 0, b"fg")];

const ABOVE: [(u32, u32, &[u8]); 2] = [(1, 0, b"ab"), (2, 0, b"fg")];

const ALL: [(u32, u32, &[u8]); 4] = [(1, 0, b"ab"), (1, 1, b"cd"), (1, 2, b"e"), (2, 0, b"fg")];

/// The length of each object, and how many chunks of 2 bytes it has.
const OBJECTS: [(u32, usize); 2] = [(5, 3), (2, 1)];

fn name(version: u64) -> ChunkName {
    ChunkName {
        version,
        ordinal: 0,
    }
}

fn row_id() -> RowId {
    RowId::from_bytes([7; 16])
}

/// A row of one cell and two objects.
fn content(alloc: Global) -> Result<Content, Fail> {
    let mut cells = Cells::new(alloc);
    cells.push(Cell::Bool(true))?;
    let mut objects = Objects::new(alloc);
    objects.push(SharedBytes::from_slice(alloc, b"abcde")?)?;
    objects.push(SharedBytes::from_slice(alloc, b"fg")?)?;
    Ok(Content::Row { cells, objects })
}

/// New ones, and one between them that is kept.
fn pieces(alloc: Global) -> Result<ObjectPieces, Fail> {
    let mut first = Pieces::new(alloc);
    first.push(Piece::Fresh(0))?;
    first.push(Piece::Keep(name(1)))?;
    first.push(Piece::Fresh(1))?;
    let mut second = Pieces::new(alloc);
    second.push(Piece::Fresh(2))?;
    let mut pieces = ObjectPieces::new(alloc);
    pieces.push(first)?;
    pieces.push(second)?;
    Ok(pieces)
}

/// Of versions 8, 1, 2 and 9.
fn names(alloc: Global) -> Result<ObjectNames, Fail> {
    let mut first = Names::new(alloc);
    first.push(name(8))?;
    first.push(name(1))?;
    first.push(name(2))?;
    let mut second = Names::new(alloc);
    second.push(name(9))?;
    let mut names = ObjectNames::new(alloc);
    names.push(first)?;
    names.push(second)?;
    Ok(names)
}

fn request(alloc: Global) -> Result<step_tables::Message, Fail> {
    Ok(step_tables::Message::SyncRequest(step_tables::SyncRequest {
        client: 3,
        token: 0,
        table: 2,
        row: row_id(),
        number: 4,
        base: 1,
        content: content(alloc)?,
        pieces: pieces(alloc)?,
    }))
}

fn header(alloc: Global) -> Result<RowHeader, Fail> {
    Ok(RowHeader {
        row: row_id(),
        version: 9,
        yours: Yours {
            number: 4,
            version: 2,
        },
        content: content(alloc)?,
        names: names(alloc)?,
    })
}

fn pulled(header: Option<RowHeader>) -> step_tables::Message {
    step_tables::Message::PullResponse(step_tables::PullResponse {
        client: 3,
        table: 2,
        from: 2,
        to: 9,
        latest: 9,
        header,
    })
}

fn torn(header: Option<RowHeader>) -> step_tables::Message {
    step_tables::Message::TornRowResponse(step_tables::TornRowResponse {
        client: 3,
        table: 2,
        row: row_id(),
        header,
    })
}

fn is_chunk(part: &Message, down: bool, key: u64, chunk: &(u32, u32, &[u8])) -> bool {
    match part {
        Message::ObjectFragment(it) => {
            let is_there = it.down == down && it.key == key;
            let is_it = it.column == chunk.0 && it.place == chunk.1;
            is_there && is_it && it.bytes.as_slice() == chunk.2
        }
        _ => false,
    }
}

fn are_chunks(parts: &[Message], down: bool, key: u64, chunks: &[(u32, u32, &[u8])]) -> bool {
    let same = parts
        .iter()
        .skip(1)
        .zip(chunks)
        .all(|(part, chunk)| is_chunk(part, down, key, chunk));
    same && parts.len() == chunks.len() + 1
}

fn has_objects(content: &PieceContent) -> bool {
    match content {
        PieceContent::Gone => false,
        PieceContent::Row { cells, objects } => {
            let same = objects.iter().zip(&OBJECTS).all(|(object, (len, count))| object.len == *len
                && object.pieces.len() == *count);
            same && cells.len() == 1 && objects.len() == 2
        }
    }
}

fn head_has_objects(parts: &[Message]) -> bool {
    match parts.first() {
        Some(Message::SyncRequest(head)) => has_objects(&head.content),
        Some(Message::PullResponse(head)) => match &head.header {
            Some(header) => has_objects(&header.content),
            None => false,
        },
        Some(Message::TornRowResponse(head)) => match &head.header {
            Some(header) => has_objects(&header.content),
            None => false,
        },
        _ => false,
    }
}

/// Whether a message of a row goes as its header and these chunks.
fn goes_as(
    alloc: Global,
    message: &step_tables::Message,
    down: bool,
    key: u64,
    chunks: &[(u32, u32, &[u8])],
) -> Result<bool, Fail> {
    if !may_split(message) {
        return Ok(false);
    }
    let parts = in_parts(alloc, 2, message)?;
    Ok(head_has_objects(&parts) && are_chunks(&parts, down, key, chunks))
}

fn request_goes(alloc: Global) -> Result<bool, Fail> {
    let message = request(alloc)?;
    goes_as(alloc, &message, false, 4, &NEW)
}

fn pulled_goes(alloc: Global) -> Result<bool, Fail> {
    let message = pulled(Some(header(alloc)?));
    goes_as(alloc, &message, true, 9, &ABOVE)
}

fn torn_goes(alloc: Global) -> Result<bool, Fail> {
    let message = torn(Some(header(alloc)?));
    goes_as(alloc, &message, true, 9, &ALL)
}

#[test]
fn rows_go_as_a_header_and_chunks(rt: HostRuntime) -> Result<(), Fail> {
    let goes = request_goes(rt.alloc())?;
    assert!(rt; goes);
    let goes = pulled_goes(rt.alloc())?;
    assert!(rt; goes);
    let goes = torn_goes(rt.alloc())?;
    assert!(rt; goes);
    Ok(())
}

/// The name of the only part of a message.
fn only_part(alloc: Global, message: &step_tables::Message) -> Result<Option<MessageName>, Fail> {
    if !may_split(message) {
        return Ok(None);
    }
    let parts = in_parts(alloc, 2, message)?;
    match parts.as_slice() {
        [part] => Ok(Some(part.name())),
        _ => Ok(None),
    }
}

#[test]
fn other_messages_go_whole(rt: HostRuntime) -> Result<(), Fail> {
    let pull = step_tables::Message::PullRequest(step_tables::PullRequest {
        client: 3,
        token: 0,
        table: 2,
        position: 2,
    });
    let name = only_part(rt.alloc(), &pull)?;
    assert_eq!(rt; name, Some(MessageName::PullRequest));
    let answer = step_tables::Message::SyncResponse(step_tables::SyncResponse {
        client: 3,
        table: 2,
        row: row_id(),
        number: 4,
        outcome: Outcome::Stale { latest: 9 },
    });
    let name = only_part(rt.alloc(), &answer)?;
    assert_eq!(rt; name, Some(MessageName::SyncResponse));
    let asks = step_tables::Message::TornRowRequest(step_tables::TornRowRequest {
        client: 3,
        token: 0,
        table: 2,
        row: row_id(),
    });
    let name = only_part(rt.alloc(), &asks)?;
    assert_eq!(rt; name, Some(MessageName::TornRowRequest));
    Ok(())
}

#[test]
fn answers_without_a_row_go_whole(rt: HostRuntime) -> Result<(), Fail> {
    let name = only_part(rt.alloc(), &pulled(None))?;
    assert_eq!(rt; name, Some(MessageName::PullResponse));
    let name = only_part(rt.alloc(), &torn(None))?;
    assert_eq!(rt; name, Some(MessageName::TornRowResponse));
    Ok(())
}
