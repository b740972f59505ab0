use super::*;
use chunker::{ChunkName, join};
use row_value::{Cell, Cells, PieceObjects, Pieces};
use stab_base::Bytes;
use std::alloc::Global;
use std::test::Fail;

const FIRST: Awaited = Awaited {
    column: 2,
    place: 0,
    len: 2,
};

const SECOND: Awaited = Awaited {
    column: 2,
    place: 1,
    len: 2,
};

const LAST: Awaited = Awaited {
    column: 2,
    place: 2,
    len: 1,
};

const AWAITED: [(Sent, &[Awaited]); 4] = [
    (Sent::Fresh, &[FIRST, LAST]),
    (Sent::Above(7), &[FIRST, LAST]),
    (Sent::Above(6), &[FIRST, SECOND, LAST]),
    (Sent::All, &[FIRST, SECOND, LAST]),
];

/// A row of one cell, an empty object, and an object of 5 bytes in chunks of 2, the second of which is named 7.0.
fn row(alloc: Global) -> Result<PieceContent, Fail> {
    let mut cells = Cells::new(alloc);
    cells.push(Cell::Bool(true))?;
    let mut pieces = Pieces::new(alloc);
    pieces.push(Piece::Fresh(0))?;
    pieces.push(Piece::Keep(ChunkName {
        version: 7,
        ordinal: 0,
    }))?;
    pieces.push(Piece::Fresh(1))?;
    let mut objects = PieceObjects::new(alloc);
    objects.push(PieceObject {
        len: 0,
        pieces: Pieces::new(alloc),
    })?;
    objects.push(PieceObject { len: 5, pieces })?;
    Ok(PieceContent::Row { cells, objects })
}

fn are_awaited(alloc: Global, sent: Sent, expected: &[Awaited]) -> Result<bool, Fail> {
    let content = row(alloc)?;
    if !has_places(&content) {
        return Ok(false);
    }
    let list = awaited_of(alloc, 2, &content, sent)?;
    Ok(list.as_slice() == expected)
}

#[test]
fn chunks_that_travel_are_awaited(rt: HostRuntime) -> Result<(), Fail> {
    for (sent, expected) in AWAITED {
        let same = are_awaited(rt.alloc(), sent, expected)?;
        assert!(rt; same);
    }
    Ok(())
}

fn complete_at(alloc: Global, chunk: u32) -> Result<bool, Fail> {
    let content = row(alloc)?;
    Ok(is_complete(chunk, &content))
}

#[test]
fn each_chunk_has_a_piece(rt: HostRuntime) -> Result<(), Fail> {
    for (chunk, complete) in [(0, false), (1, false), (2, true), (3, false)] {
        let is = complete_at(rt.alloc(), chunk)?;
        assert_eq!(rt; is, complete);
    }
    Ok(())
}

/// Column, place and bytes of a fragment, whether it is taken, and whether each chunk has come then.
const FRAGMENTS: [(u32, u32, &[u8], bool, bool); 8] = [
    (2, 2, b"e", true, false),
    (2, 2, b"x", false, false),
    (2, 1, b"cd", true, false),
    (1, 0, b"ab", false, false),
    (2, 0, b"a", false, false),
    (2, 3, b"ab", false, false),
    (2, 0, b"ab", true, true),
    (2, 0, b"xy", false, true),
];

fn takes(
    alloc: Global,
    assembly: &mut Assembly,
    column: u32,
    place: u32,
    bytes: &[u8],
) -> Result<bool, Fail> {
    let bytes = Bytes::from_slice(alloc, bytes)?;
    Ok(assembly.take(column, place, bytes))
}

fn gather(alloc: Global, assembly: &mut Assembly) -> Result<bool, Fail> {
    for (column, place, bytes, taken, whole) in FRAGMENTS {
        let took = takes(alloc, assembly, column, place, bytes)?;
        if took != taken || assembly.is_whole() != whole {
            return Ok(false);
        }
    }
    Ok(true)
}

fn started(alloc: Global) -> Result<Option<Assembly>, Fail> {
    let content = row(alloc)?;
    if !has_places(&content) {
        return Ok(None);
    }
    let list = awaited_of(alloc, 2, &content, Sent::All)?;
    Ok(Some(Assembly::new(alloc, list)?))
}

fn made(alloc: Global, assembly: Assembly) -> Result<bool, Fail> {
    if !assembly.is_whole() {
        return Ok(false);
    }
    let object = join(alloc, &assembly.into_chunks())?;
    Ok(object.as_slice() == b"abcde".as_slice())
}

fn gathered(alloc: Global) -> Result<(bool, bool), Fail> {
    let Some(mut assembly) = started(alloc)? else {
        return Ok((false, false));
    };
    let same = gather(alloc, &mut assembly)?;
    let whole = made(alloc, assembly)?;
    Ok((same, whole))
}

#[test]
fn fragments_come_in_any_order_and_repeated(rt: HostRuntime) -> Result<(), Fail> {
    let gathered = gathered(rt.alloc())?;
    assert_eq!(rt; gathered, (true, true));
    Ok(())
}
