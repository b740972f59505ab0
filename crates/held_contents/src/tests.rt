ghost use Rattle.std.specs.Prelude.{◌≡◌, ◌<◌, IfSome, length};
ghost use Rattle.step_tables.specs.Chunks.{flat};
ghost use Rattle.held_contents.specs.Request.{bytes_in};

use super::*;
use chunker::cut;
use held_value::{HeldContent, HeldObject, HeldPiece, LocalName};
use row_pieces::is_named;
use row_value::{
    Cells, Column, ColumnKind, Columns, Content, Objects, Piece, Schema, Scheme, SharedBytes, fits,
};
use stab_base::{Bytes, ChunkName, Names, Sequence};
use std::alloc::{AllocError, Global};
use std::test::Fail;

/// Two objects that are shown, two that are written, what holds these, and how many chunks they bring. Chunks have two
/// bytes. The shown ones are A, B and so on, from object to object, where the Store's names are kept too; the brought
/// ones are 0, 1 and so on.
const CASES: [(&[u8], &[u8], &[u8], &[u8], &[u8], usize); 5] = [
    // nothing is shown
    (b"", b"", b"abc", b"de", b"01|2|", 3),
    // the same is written
    (b"abc", b"de", b"abc", b"de", b"AB|C|", 0),
    // one chunk changes
    (b"abc", b"de", b"abx", b"de", b"A0|C|", 1),
    // the objects change places
    (b"abc", b"de", b"de", b"abc", b"0|12|", 3),
    // the numbers go on from object to object
    (b"abc", b"de", b"xy", b"dez", b"0|C1|", 2),
];

fn add_column(alloc: Global, columns: &mut Columns) -> Result<(), AllocError> {
    columns.push(Column {
        name: Bytes::new(alloc),
        kind: ColumnKind::Object,
    })?;
    Ok(())
}

fn two_objects(alloc: Global) -> Result<Schema, AllocError> {
    let mut columns = Columns::new(alloc);
    add_column(alloc, &mut columns)?;
    add_column(alloc, &mut columns)?;
    Ok(Schema {
        name: Bytes::new(alloc),
        scheme: Scheme::Eventual,
        chunk: 2,
        columns,
    })
}

fn content_of(alloc: Global, first: &[u8], second: &[u8]) -> Result<Content, AllocError> {
    let mut objects = Objects::new(alloc);
    objects.push(SharedBytes::from_slice(alloc, first)?)?;
    objects.push(SharedBytes::from_slice(alloc, second)?)?;
    Ok(Content::Row {
        cells: Cells::new(alloc),
        objects,
    })
}

fn named(ordinal: u32) -> HeldPiece {
    HeldPiece {
        local: LocalName { plan: 1, ordinal },
        name: Some(ChunkName {
            version: 7,
            ordinal,
        }),
    }
}

fn chunks_of(alloc: Global, object: &[u8], first: u32) -> Result<ShownChunks, AllocError> {
    let mut made = ShownChunks::new(alloc);
    let mut ordinal = first;
    for bytes in cut(alloc, object, 2)?.into_vec() {
        made.push((named(ordinal), bytes))?;
        ordinal = ordinal.wrapping_add(1);
    }
    Ok(made)
}

fn shown_of(
    alloc: Global,
    first: &[u8],
    second: &[u8],
) -> Result<Sequence<ShownChunks>, AllocError> {
    let mut made = Sequence::new(alloc);
    let chunks = chunks_of(alloc, first, 0)?;
    let count = (chunks.len() % 1000) as u32;
    made.push(chunks)?;
    made.push(chunks_of(alloc, second, count)?)?;
    Ok(made)
}

fn hold_fit(
    alloc: Global,
    schema: &Schema,
    shown: &Sequence<ShownChunks>,
    content: &Content,
) -> Result<Option<HeldNew>, AllocError> {
    if schema.chunk == 0 {
        return Ok(None);
    }
    match fits(schema, content) {
        Ok(()) => Ok(Some(hold(alloc, schema.chunk, shown, content)?)),
        Err(_) => Ok(None),
    }
}

fn letter(piece: &HeldPiece) -> u8 {
    let from = match (piece.local.plan, piece.name) {
        (0, None) => b'0',
        (1, Some(name)) if name.ordinal == piece.local.ordinal => b'A',
        _ => b'?',
    };
    from.wrapping_add((piece.local.ordinal % 10) as u8)
}

fn spell_object(object: &HeldObject, spelled: &mut Bytes) -> Result<(), AllocError> {
    for piece in object.pieces.as_slice() {
        spelled.push(letter(piece))?;
    }
    spelled.push(b'|')?;
    Ok(())
}

fn spell_held(alloc: Global, content: &HeldContent) -> Result<Bytes, AllocError> {
    let mut spelled = Bytes::new(alloc);
    if let HeldContent::Row { objects, .. } = content {
        for object in objects.as_slice() {
            spell_object(object, &mut spelled)?;
        }
    }
    Ok(spelled)
}

fn held_of(
    alloc: Global,
    schema: &Schema,
    shown: &Sequence<ShownChunks>,
    content: &Content,
) -> Result<(Bytes, usize), AllocError> {
    match hold_fit(alloc, schema, shown, content)? {
        None => Ok((Bytes::new(alloc), 0)),
        Some(made) => Ok((spell_held(alloc, &made.content)?, made.brought.len())),
    }
}

#[test]
fn chunks_are_kept_and_brought_by_their_places(rt: HostRuntime) -> Result<(), Fail> {
    let schema = two_objects(rt.alloc())?;
    for (shown, next, new, last, spelled, brought) in CASES {
        let shown = shown_of(rt.alloc(), shown, next)?;
        let content = content_of(rt.alloc(), new, last)?;
        let (held, count) = held_of(rt.alloc(), &schema, &shown, &content)?;
        assert!(rt; held.as_slice() == spelled);
        assert_eq!(rt; count, brought);
    }
    Ok(())
}

// How many chunks there are, where they are few.
fn count_in(now: &[ShownChunks]) -> Option<u32>
    ensures { IfSome result (λ count. length (flat (bytes_in now.now)) ≡ count) }
{
    let mut count: u32 = 0;
    for object in now {
        if object.len() > 1000 {
            return None;
        }
        count = count.checked_add(object.len() as u32)?;
    }
    Some(count)
}

fn piece_letter(piece: &Piece) -> u8 {
    match piece {
        Piece::Keep(name) => b'A'.wrapping_add((name.ordinal % 10) as u8),
        Piece::Fresh(ordinal) => b'0'.wrapping_add((*ordinal % 10) as u8),
    }
}

fn pieces_in(alloc: Global, objects: &ObjectPieces) -> Result<Bytes, AllocError> {
    let mut spelled = Bytes::new(alloc);
    for object in objects.as_slice() {
        for piece in object.as_slice() {
            spelled.push(piece_letter(piece))?;
        }
        spelled.push(b'|')?;
    }
    Ok(spelled)
}

// The pieces of a content against what is shown, split by what holds it.
fn pieces_of(
    alloc: Global,
    shown: &Sequence<ShownChunks>,
    content: &Content,
    held: &HeldContent,
) -> Result<Bytes, AllocError> {
    let now = cut_content(alloc, 2, content)?;
    match count_in(now.as_slice()) {
        None => Ok(Bytes::new(alloc)),
        Some(_) => {
            let pieces = spell(alloc, shown, &now)?;
            pieces_in(alloc, &pieces_by_object(alloc, held, &pieces)?)
        }
    }
}

fn spelled_of(
    alloc: Global,
    schema: &Schema,
    shown: &Sequence<ShownChunks>,
    content: &Content,
) -> Result<Bytes, AllocError> {
    match hold_fit(alloc, schema, shown, content)? {
        None => Ok(Bytes::new(alloc)),
        Some(made) => pieces_of(alloc, shown, content, &made.content),
    }
}

#[test]
fn chunks_that_were_read_are_kept_by_their_names(rt: HostRuntime) -> Result<(), Fail> {
    let schema = two_objects(rt.alloc())?;
    for (read, next, new, last, spelled, _brought) in CASES {
        let read = shown_of(rt.alloc(), read, next)?;
        let content = content_of(rt.alloc(), new, last)?;
        let pieces = spelled_of(rt.alloc(), &schema, &read, &content)?;
        assert!(rt; pieces.as_slice() == spelled);
    }
    Ok(())
}

fn add_names(alloc: Global, object: &[u8], first: u32) -> Result<Names, AllocError> {
    let mut names = Names::new(alloc);
    let mut ordinal = first;
    for _bytes in cut(alloc, object, 2)?.into_vec() {
        names.push(ChunkName {
            version: 9,
            ordinal,
        })?;
        ordinal = ordinal.wrapping_add(1);
    }
    Ok(names)
}

fn names_of(alloc: Global, first: &[u8], second: &[u8]) -> Result<ObjectNames, AllocError> {
    let mut names = ObjectNames::new(alloc);
    let object = add_names(alloc, first, 0)?;
    let count = (object.len() % 1000) as u32;
    names.push(object)?;
    names.push(add_names(alloc, second, count)?)?;
    Ok(names)
}

fn hold_row(
    alloc: Global,
    schema: &Schema,
    shown: &Sequence<ShownChunks>,
    content: &Content,
    names: &ObjectNames,
) -> Result<Option<HeldNew>, AllocError> {
    if schema.chunk == 0 {
        return Ok(None);
    }
    if !is_named(alloc, schema.chunk, content, names)? {
        return Ok(None);
    }
    match fits(schema, content) {
        Ok(()) => Ok(Some(hold_named(alloc, schema.chunk, shown, content, names)?)),
        Err(_) => Ok(None),
    }
}

fn local_letter(piece: &HeldPiece) -> u8 {
    let from = match piece.local.plan {
        0 => b'0',
        _ => b'A',
    };
    from.wrapping_add((piece.local.ordinal % 10) as u8)
}

fn name_letter(piece: &HeldPiece) -> u8 {
    match piece.name {
        Some(name) if name.version == 9 => b'a'.wrapping_add((name.ordinal % 10) as u8),
        _ => b'?',
    }
}

fn spell_named(alloc: Global, content: &HeldContent) -> Result<(Bytes, Bytes), AllocError> {
    let mut locals = Bytes::new(alloc);
    let mut names = Bytes::new(alloc);
    if let HeldContent::Row { objects, .. } = content {
        for object in objects.as_slice() {
            for piece in object.pieces.as_slice() {
                locals.push(local_letter(piece))?;
                names.push(name_letter(piece))?;
            }
            locals.push(b'|')?;
        }
    }
    Ok((locals, names))
}

fn named_of(
    alloc: Global,
    schema: &Schema,
    shown: &Sequence<ShownChunks>,
    content: &Content,
    names: &ObjectNames,
) -> Result<(Bytes, Bytes), AllocError> {
    match hold_row(alloc, schema, shown, content, names)? {
        None => Ok((Bytes::new(alloc), Bytes::new(alloc))),
        Some(made) => spell_named(alloc, &made.content),
    }
}

#[test]
fn a_row_from_the_store_has_its_names(rt: HostRuntime) -> Result<(), Fail> {
    let schema = two_objects(rt.alloc())?;
    for (read, next, new, last, spelled, _brought) in CASES {
        let shown = shown_of(rt.alloc(), read, next)?;
        let content = content_of(rt.alloc(), new, last)?;
        let names = names_of(rt.alloc(), new, last)?;
        let (locals, named) = named_of(rt.alloc(), &schema, &shown, &content, &names)?;
        assert!(rt; locals.as_slice() == spelled);
        assert!(rt; named.as_slice() == b"abc".as_slice());
    }
    Ok(())
}
