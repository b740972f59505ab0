use super::*;
use row_value::{
    Cell, Cells, Content, Piece, PieceContent, PieceObject, PieceObjects, Pieces, Scheme,
};
use stab_base::RowId;
use std::alloc::Global;
use std::test::Fail;
use table_model::{ObjectFragment, PullRequest, SyncRequest, TornRowRequest};

const KEPT: ChunkName = ChunkName {
    version: 6,
    ordinal: 0,
};

fn row_id() -> RowId {
    RowId::from_bytes([7; 16])
}

/// A row of one cell and an object of 5 bytes in chunks of 2, the second of which is kept.
fn content(alloc: Global) -> Result<PieceContent, Fail> {
    let mut cells = Cells::new(alloc);
    cells.push(Cell::Bool(true))?;
    let mut pieces = Pieces::new(alloc);
    pieces.push(Piece::Fresh(0))?;
    pieces.push(Piece::Keep(KEPT))?;
    pieces.push(Piece::Fresh(1))?;
    let mut objects = PieceObjects::new(alloc);
    objects.push(PieceObject { len: 5, pieces })?;
    Ok(PieceContent::Row { cells, objects })
}

/// Write 4 of client 3 over version 6.
fn request(alloc: Global) -> Result<Message, Fail> {
    Ok(Message::SyncRequest(SyncRequest {
        client: 3,
        token: 0,
        table: 2,
        row: row_id(),
        number: 4,
        base: 6,
        content: content(alloc)?,
    }))
}

fn fragment(alloc: Global, key: u64, place: u32, bytes: &[u8]) -> Result<Message, Fail> {
    Ok(Message::ObjectFragment(ObjectFragment {
        client: 3,
        token: 0,
        table: 2,
        row: row_id(),
        down: false,
        key,
        column: 1,
        place,
        bytes: Bytes::from_slice(alloc, bytes)?,
    }))
}

/// The row at version 6, where the client's last write on it has this number.
fn view(alloc: Global, number: u64) -> Result<RowView, Fail> {
    let mut chunks = Vec::new(alloc);
    chunks.push((Some(KEPT), Bytes::from_slice(alloc, b"cd")?))?;
    Ok(RowView {
        version: 6,
        yours: Yours { number, version: 6 },
        chunks,
    })
}

fn has_object(content: &Content, bytes: &[u8]) -> bool {
    match content {
        Content::Gone => false,
        Content::Row { objects, .. } => match objects.get(0) {
            Some(object) => object.as_slice() == bytes,
            None => false,
        },
    }
}

/// Whether a part made a request with this object.
fn is_request(taken: &Taken, bytes: &[u8]) -> bool {
    match taken {
        Taken::Whole(step_tables::Message::SyncRequest(made)) => {
            made.number == 4 && has_object(&made.content, bytes)
        }
        _ => false,
    }
}

fn waits(taken: &Taken) -> bool {
    match taken {
        Taken::Whole(_) => false,
        Taken::Waits => true,
    }
}

/// Whether the row's view is needed, and what a part comes to: a request with this object, or it waits.
fn comes_to(
    it: &mut Gatherings,
    view: &RowView,
    part: Message,
    needs: bool,
    object: Option<&[u8]>,
) -> Result<bool, Fail> {
    if !may_gather(&part) || it.needs_row(&part) != needs {
        return Ok(false);
    }
    let taken = it.take(Scheme::Strong, 2, view, part)?;
    Ok(match object {
        Some(bytes) => is_request(&taken, bytes),
        None => waits(&taken),
    })
}

/// The key, the place and the bytes of a fragment, whether a view is needed, and whether the request is complete then.
const FRAGMENTS: [(u64, u32, &[u8], bool, bool); 5] = [
    (5, 0, b"ab", false, false),
    (4, 0, b"ab", false, false),
    (4, 0, b"xy", true, false),
    (4, 2, b"e", true, true),
    (4, 2, b"e", false, false),
];

fn gathers(alloc: Global) -> Result<bool, Fail> {
    let mut it = Gatherings::new(alloc);
    let view = view(alloc, 3)?;
    if !comes_to(&mut it, &view, request(alloc)?, true, None)? {
        return Ok(false);
    }
    for (key, place, bytes, needs, whole) in FRAGMENTS {
        let part = fragment(alloc, key, place, bytes)?;
        let object = if whole { Some(&b"abcde"[..]) } else { None };
        if !comes_to(&mut it, &view, part, needs, object)? {
            return Ok(false);
        }
    }
    Ok(true)
}

#[test]
fn a_request_waits_for_its_new_chunks(rt: HostRuntime) -> Result<(), Fail> {
    let gathers = gathers(rt.alloc())?;
    assert!(rt; gathers);
    Ok(())
}

fn is_at_once(alloc: Global, number: u64) -> Result<bool, Fail> {
    let mut it = Gatherings::new(alloc);
    let view = view(alloc, number)?;
    comes_to(&mut it, &view, request(alloc)?, true, Some(b"\0\0\0\0\0"))
}

#[test]
fn a_repeat_and_a_late_one_are_taken_at_once(rt: HostRuntime) -> Result<(), Fail> {
    for (number, at_once) in [(3, false), (4, true), (5, true)] {
        let is = is_at_once(rt.alloc(), number)?;
        assert_eq!(rt; is, at_once);
    }
    Ok(())
}

fn goes_whole(alloc: Global, part: Message) -> Result<bool, Fail> {
    let mut it = Gatherings::new(alloc);
    let view = view(alloc, 3)?;
    if !may_gather(&part) {
        return Ok(false);
    }
    let taken = it.take(Scheme::Strong, 2, &view, part)?;
    Ok(!waits(&taken))
}

#[test]
fn what_asks_for_rows_goes_whole(rt: HostRuntime) -> Result<(), Fail> {
    let pull = Message::PullRequest(PullRequest {
        client: 3,
        token: 0,
        table: 2,
        position: 6,
    });
    let whole = goes_whole(rt.alloc(), pull)?;
    assert!(rt; whole);
    let torn = Message::TornRowRequest(TornRowRequest {
        client: 3,
        token: 0,
        table: 2,
        row: row_id(),
    });
    let whole = goes_whole(rt.alloc(), torn)?;
    assert!(rt; whole);
    Ok(())
}
