use super::*;
use row_value::{Cells, Content, Objects, Piece, Pieces, SharedBytes};
use stab_base::{ChunkName, Names};
use std::alloc::{AllocError, Global};
use std::mem;
use std::test::Fail;

/// The pieces of two objects of two chunks and of one: a digit is a new chunk's number, and a letter the name of one
/// that is kept. Each object ends with a bar.
const PIECES: [(&[u8], bool); 10] = [
    // all are new, all are kept, and some are
    (b"01|2|", true),
    (b"AB|C|", true),
    (b"A0|1|", true),
    // a name is kept twice
    (b"0A|A|", false),
    // the new ones aren't in order, and one is left out
    (b"10|2|", false),
    (b"02|3|", false),
    // a piece too few, and one too many
    (b"0|1|", false),
    (b"01|23|", false),
    // an object too few, and one too many
    (b"01|", false),
    (b"01|2||", false),
];

/// The same of names.
const NAMES: [(&[u8], bool); 6] = [
    (b"AB|C|", true),
    // a name twice, in an object and in two
    (b"AA|B|", false),
    (b"AB|A|", false),
    // a name too few, one too many, and an object too few
    (b"A|B|", false),
    (b"AB|CD|", false),
    (b"AB|", false),
];

fn name_of(letter: u8) -> ChunkName {
    ChunkName {
        version: 1,
        ordinal: letter as u32,
    }
}

fn piece_of(letter: u8) -> Piece {
    if letter.is_ascii_digit() {
        Piece::Fresh((letter % 16) as u32)
    } else {
        Piece::Keep(name_of(letter))
    }
}

fn pieces_of(alloc: Global, spelled: &[u8]) -> Result<ObjectPieces, AllocError> {
    let mut objects = ObjectPieces::new(alloc);
    let mut object = Pieces::new(alloc);
    for letter in spelled {
        if *letter == b'|' {
            objects.push(mem::replace(&mut object, Pieces::new(alloc)))?;
        } else {
            object.push(piece_of(*letter))?;
        }
    }
    Ok(objects)
}

fn names_of(alloc: Global, spelled: &[u8]) -> Result<ObjectNames, AllocError> {
    let mut objects = ObjectNames::new(alloc);
    let mut object = Names::new(alloc);
    for letter in spelled {
        if *letter == b'|' {
            objects.push(mem::replace(&mut object, Names::new(alloc)))?;
        } else {
            object.push(name_of(*letter))?;
        }
    }
    Ok(objects)
}

fn two_objects(alloc: Global) -> Result<Content, AllocError> {
    let mut objects = Objects::new(alloc);
    objects.push(SharedBytes::from_slice(alloc, b"abc")?)?;
    objects.push(SharedBytes::from_slice(alloc, b"de")?)?;
    Ok(Content::Row {
        cells: Cells::new(alloc),
        objects,
    })
}

#[test]
fn pieces_spell_each_chunk_in_order(rt: HostRuntime) -> Result<(), Fail> {
    let content = two_objects(rt.alloc())?;
    for (spelled, wanted) in PIECES {
        let pieces = pieces_of(rt.alloc(), spelled)?;
        let found = is_spelled(rt.alloc(), 2, &content, &pieces)?;
        assert_eq!(rt; found, wanted);
    }
    Ok(())
}

#[test]
fn names_stand_for_each_chunk_once(rt: HostRuntime) -> Result<(), Fail> {
    let content = two_objects(rt.alloc())?;
    for (spelled, wanted) in NAMES {
        let names = names_of(rt.alloc(), spelled)?;
        let found = is_named(rt.alloc(), 2, &content, &names)?;
        assert_eq!(rt; found, wanted);
    }
    Ok(())
}

#[test]
fn a_row_that_is_gone_has_no_chunks(rt: HostRuntime) -> Result<(), Fail> {
    let gone = Content::Gone;
    for (spelled, wanted) in [(&b""[..], true), (&b"|"[..], false)] {
        let pieces = pieces_of(rt.alloc(), spelled)?;
        let names = names_of(rt.alloc(), spelled)?;
        let found = is_spelled(rt.alloc(), 2, &gone, &pieces)?;
        assert_eq!(rt; found, wanted);
        let found = is_named(rt.alloc(), 2, &gone, &names)?;
        assert_eq!(rt; found, wanted);
    }
    Ok(())
}
