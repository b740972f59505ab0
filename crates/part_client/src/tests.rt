use super::*;
use assemblies::{Piece, PieceContent, PieceObject};
use row_value::{Cells, PieceObjects, Pieces};
use stab_base::{Bytes, ChunkName, RowId};
use std::alloc::Global;
use std::test::Fail;
use table_model::{Message, ObjectFragment, PullResponse, RowHeader, TornRowResponse, Yours};

fn row() -> RowId {
    RowId::from_bytes([7; 16])
}

/// A row of one object of 5 bytes in chunks of 4, which are named 2.0 and 3.0.
fn header(alloc: Global) -> Result<RowHeader, Fail> {
    let mut pieces = Pieces::new(alloc);
    for version in [2, 3] {
        pieces.push(Piece::Keep(ChunkName {
            version,
            ordinal: 0,
        }))?;
    }
    let mut objects = PieceObjects::new(alloc);
    objects.push(PieceObject { len: 5, pieces })?;
    Ok(RowHeader {
        row: row(),
        version: 3,
        yours: Yours {
            number: 0,
            version: 0,
        },
        content: PieceContent::Row {
            cells: Cells::new(alloc),
            objects,
        },
    })
}

/// The answer to a pull from this position.
fn pulled(alloc: Global, from: u64) -> Result<Message, Fail> {
    Ok(Message::PullResponse(PullResponse {
        client: 1,
        table: 1,
        from,
        to: 3,
        latest: 3,
        header: Some(header(alloc)?),
    }))
}

fn whole(alloc: Global) -> Result<Message, Fail> {
    Ok(Message::TornRowResponse(TornRowResponse {
        client: 1,
        table: 1,
        row: row(),
        header: Some(header(alloc)?),
    }))
}

fn fragment(alloc: Global, place: u32, bytes: &[u8]) -> Result<Message, Fail> {
    Ok(Message::ObjectFragment(ObjectFragment {
        client: 1,
        token: 0,
        table: 1,
        row: row(),
        down: true,
        key: 3,
        column: 0,
        place,
        bytes: Bytes::from_slice(alloc, bytes)?,
    }))
}

/// A client that holds nothing of the row.
fn held(alloc: Global, position: u64) -> RowHeld {
    RowHeld {
        position,
        chunk: 4,
        read: 0,
        held: Vec::new(alloc),
    }
}

/// What a part came to, by its first letter, and whether what is held of the row decided it.
fn take(
    alloc: Global,
    arriving: &mut Arriving,
    position: u64,
    part: Message,
) -> Result<(char, bool), Fail> {
    let needs = arriving.needs_row(&part);
    if !may_gather(&part) {
        return Ok(('?', needs));
    }
    let held = held(alloc, position);
    if held.chunk == 0 {
        return Ok(('?', needs));
    }
    let letter = match arriving.take(&held, part)? {
        Taken::Whole(_) => 'w',
        Taken::Tears(_) => 't',
        Taken::Waits => '-',
    };
    Ok((letter, needs))
}

/// How many rows are told as torn, and how many are asked for whole.
fn asks(arriving: &mut Arriving) -> Result<(usize, usize), Fail> {
    let asks = arriving.ask(1)?;
    Ok((asks.tears.len(), asks.asks.len()))
}

fn come(alloc: Global, arriving: &mut Arriving, head: Message) -> Result<[(char, bool); 3], Fail> {
    let first = take(alloc, arriving, 0, head)?;
    let front = fragment(alloc, 0, b"abcd")?;
    let front = take(alloc, arriving, 0, front)?;
    let last = fragment(alloc, 1, b"e")?;
    let last = take(alloc, arriving, 0, last)?;
    Ok([first, front, last])
}

const COMES: [(char, bool); 3] = [('-', true), ('-', false), ('w', true)];

fn pull_comes(alloc: Global) -> Result<[(char, bool); 3], Fail> {
    let mut arriving = Arriving::new(alloc);
    let head = pulled(alloc, 0)?;
    come(alloc, &mut arriving, head)
}

#[test]
fn an_answer_to_a_pull_comes_in_parts(rt: HostRuntime) -> Result<(), Fail> {
    let comes = pull_comes(rt.alloc())?;
    assert_eq!(rt; comes, COMES);
    Ok(())
}

fn row_comes(alloc: Global) -> Result<([(char, bool); 3], (usize, usize), (usize, usize)), Fail> {
    let mut arriving = Arriving::new(alloc);
    arriving.tear(1, row())?;
    let before = asks(&mut arriving)?;
    let head = whole(alloc)?;
    let comes = come(alloc, &mut arriving, head)?;
    let behind = asks(&mut arriving)?;
    Ok((comes, before, behind))
}

#[test]
fn a_torn_row_comes_whole(rt: HostRuntime) -> Result<(), Fail> {
    let comes = row_comes(rt.alloc())?;
    assert_eq!(rt; comes, (COMES, (0, 1), (0, 0)));
    Ok(())
}

fn tears(alloc: Global) -> Result<((char, bool), (usize, usize)), Fail> {
    let mut arriving = Arriving::new(alloc);
    let head = pulled(alloc, 2)?;
    let torn = take(alloc, &mut arriving, 2, head)?;
    let asked = asks(&mut arriving)?;
    Ok((torn, asked))
}

#[test]
fn an_answer_that_keeps_what_isnt_held_tears_its_row(rt: HostRuntime) -> Result<(), Fail> {
    let torn = tears(rt.alloc())?;
    assert_eq!(rt; torn, (('t', true), (0, 1)));
    Ok(())
}

fn asked(alloc: Global) -> Result<[(usize, usize); 3], Fail> {
    let mut arriving = Arriving::new(alloc);
    let head = pulled(alloc, 0)?;
    take(alloc, &mut arriving, 0, head)?;
    let first = asks(&mut arriving)?;
    let next = asks(&mut arriving)?;
    arriving.clear();
    let last = asks(&mut arriving)?;
    Ok([first, next, last])
}

#[test]
fn an_answer_that_waits_is_torn_by_the_next_pull(rt: HostRuntime) -> Result<(), Fail> {
    let asked = asked(rt.alloc())?;
    assert_eq!(rt; asked, [(1, 1), (0, 1), (0, 0)]);
    Ok(())
}
