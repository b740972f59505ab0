use super::*;
use assemblies::{awaited_of, has_places};
use chunker::Chunks;
use row_value::{Cell, Cells, Content, PieceObjects, Pieces};
use stab_base::{Bytes, ChunkName};
use std::alloc::Global;
use std::test::Fail;

const KEPT: ChunkName = ChunkName {
    version: 7,
    ordinal: 0,
};

/// A row of one cell, an empty object, and an object of 5 bytes in chunks of 2, the second of which is kept.
fn row(alloc: Global) -> Result<PieceContent, Fail> {
    let mut cells = Cells::new(alloc);
    cells.push(Cell::Bool(true))?;
    let mut pieces = Pieces::new(alloc);
    pieces.push(Piece::Fresh(0))?;
    pieces.push(Piece::Keep(KEPT))?;
    pieces.push(Piece::Fresh(1))?;
    let mut objects = PieceObjects::new(alloc);
    objects.push(PieceObject {
        len: 0,
        pieces: Pieces::new(alloc),
    })?;
    objects.push(PieceObject { len: 5, pieces })?;
    Ok(PieceContent::Row { cells, objects })
}

/// One chunk that is held, under this name.
fn held(
    alloc: Global,
    name: Option<ChunkName>,
    bytes: &[u8],
) -> Result<Vec<(Option<ChunkName>, Bytes)>, Fail> {
    let mut held = Vec::new(alloc);
    held.push((name, Bytes::from_slice(alloc, bytes)?))?;
    Ok(held)
}

/// Whether the objects of a content are these.
fn has_objects(content: &Content, expected: &[&[u8]]) -> bool {
    match content {
        Content::Gone => false,
        Content::Row { objects, .. } => {
            let same = objects
                .iter()
                .zip(expected)
                .all(|(object, bytes)| object.as_slice() == *bytes);
            same && objects.len() == expected.len()
        }
    }
}

fn sized_has(alloc: Global) -> Result<bool, Fail> {
    let content = row(alloc)?;
    let made = sized(alloc, &content)?;
    Ok(has_objects(&made, &[b"", b"\0\0\0\0\0"]))
}

fn joined_has(alloc: Global) -> Result<bool, Fail> {
    let content = row(alloc)?;
    let held = held(alloc, Some(KEPT), b"cd")?;
    let mut came = Chunks::new(alloc);
    came.push(Bytes::from_slice(alloc, b"ab")?)?;
    came.push(Bytes::from_slice(alloc, b"e")?)?;
    let made = joined(alloc, &held, Sent::Fresh, &content, &came)?;
    Ok(has_objects(&made, &[b"", b"abcde"]))
}

#[test]
fn contents_are_made_of_their_chunks(rt: HostRuntime) -> Result<(), Fail> {
    let has = sized_has(rt.alloc())?;
    assert!(rt; has);
    let has = joined_has(rt.alloc())?;
    assert!(rt; has);
    Ok(())
}

/// A chunk that is held, and whether that is enough where new ones travel, and where all do.
const HELD: [(Option<ChunkName>, &[u8], bool, bool); 3] = [
    (Some(KEPT), b"cd", true, true),
    (Some(KEPT), b"c", false, true),
    (None, b"cd", false, true),
];

fn is_held(alloc: Global, name: Option<ChunkName>, bytes: &[u8], sent: Sent) -> Result<bool, Fail> {
    let content = row(alloc)?;
    let held = held(alloc, name, bytes)?;
    Ok(has_held(alloc, &held, sent, 2, &content)?)
}

#[test]
fn chunks_that_stay_are_looked_for(rt: HostRuntime) -> Result<(), Fail> {
    for (name, bytes, fresh, all) in HELD {
        let is = is_held(rt.alloc(), name, bytes, Sent::Fresh)?;
        assert_eq!(rt; is, fresh);
        let is = is_held(rt.alloc(), name, bytes, Sent::All)?;
        assert_eq!(rt; is, all);
    }
    Ok(())
}

/// Place and bytes of a chunk of column 2; whether it is taken, whether one lacks at most then, and whether none does.
const CHUNKS: [(u32, &[u8], bool, bool, bool); 4] = [
    (2, b"ee", false, false, false),
    (2, b"e", true, true, false),
    (2, b"e", false, true, false),
    (0, b"ab", true, true, true),
];

fn counted(alloc: Global) -> Result<Option<Counted>, Fail> {
    let content = row(alloc)?;
    if !has_places(&content) {
        return Ok(None);
    }
    let awaited = awaited_of(alloc, 2, &content, Sent::Fresh)?;
    Ok(Some(Counted::new(alloc, awaited)?))
}

fn takes(
    alloc: Global,
    counted: &mut Counted,
    chunk: (u32, &[u8], bool, bool, bool),
) -> Result<bool, Fail> {
    let (place, bytes, took, few, whole) = chunk;
    let bytes = Bytes::from_slice(alloc, bytes)?;
    let same = counted.take(2, place, bytes) == took && counted.lacks_few() == few;
    Ok(same && counted.is_whole() == whole)
}

fn counts(alloc: Global) -> Result<bool, Fail> {
    let Some(mut counted) = counted(alloc)? else {
        return Ok(false);
    };
    for chunk in CHUNKS {
        if !takes(alloc, &mut counted, chunk)? {
            return Ok(false);
        }
    }
    Ok(counted.is_whole() && counted.into_chunks().len() == 2)
}

#[test]
fn chunks_that_lack_are_counted(rt: HostRuntime) -> Result<(), Fail> {
    let counts = counts(rt.alloc())?;
    assert!(rt; counts);
    Ok(())
}
