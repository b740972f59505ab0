use super::*;
use chunker::cut;
use held_contents::{HeldNew, ShownChunks};
use held_value::{HeldContent, HeldPiece, LocalName};
use row_pieces::is_named;
use row_value::{
    Cells, Column, ColumnKind, Columns, Content, Objects, Schema, Scheme, SharedBytes, fits,
};
use stab_base::{Bytes, ChunkName, Names, Sequence, Version};
use std::alloc::{AllocError, Global};
use std::test::Fail;
use step_tables::ObjectNames;

/// The chunks of an object that are shown, without names of the Store's, those that were read last and those of the row
/// in conflict, each under the name of its first letter; a new object, the names of its chunks, and the local names
/// that hold it. Chunks have two bytes. The shown ones are A, B and so on, those that were read K, L and so on, those
/// in conflict U, V and so on; the brought ones are 0, 1 and so on.
const CASES: [(&[u8], &[u8], &[u8], &[u8], &[u8], &[u8]); 6] = [
    // nothing is held
    (b"", b"", b"", b"aabb", b"ab", b"01"),
    // what was read stands at other places
    (b"", b"aabb", b"", b"bbaa", b"ba", b"LK"),
    // other bytes stand under the name
    (b"", b"aabb", b"", b"axbb", b"ab", b"0L"),
    // what is shown at the place comes first
    (b"aabb", b"aa", b"", b"aabb", b"ab", b"AB"),
    // a chunk of the row in conflict
    (b"xx", b"aa", b"ccdd", b"zzdd", b"zd", b"0V"),
    // the brought ones are numbered one behind the other
    (b"", b"aa", b"", b"xxaayy", b"xay", b"0K1"),
];

fn one_object(alloc: Global) -> Result<Schema, AllocError> {
    let mut columns = Columns::new(alloc);
    columns.push(Column {
        name: Bytes::new(alloc),
        kind: ColumnKind::Object,
    })?;
    Ok(Schema {
        name: Bytes::new(alloc),
        scheme: Scheme::Eventual,
        chunk: 2,
        columns,
    })
}

fn content_of(alloc: Global, object: &[u8]) -> Result<Content, AllocError> {
    let mut objects = Objects::new(alloc);
    objects.push(SharedBytes::from_slice(alloc, object)?)?;
    Ok(Content::Row {
        cells: Cells::new(alloc),
        objects,
    })
}

fn name_of(letter: u8) -> ChunkName {
    ChunkName {
        version: 7,
        ordinal: letter as u32,
    }
}

fn names_of(alloc: Global, letters: &[u8]) -> Result<ObjectNames, AllocError> {
    let mut object = Names::new(alloc);
    for letter in letters {
        object.push(name_of(*letter))?;
    }
    let mut names = ObjectNames::new(alloc);
    names.push(object)?;
    Ok(names)
}

fn first_letter(bytes: &Bytes) -> u8 {
    match bytes.as_slice().first() {
        None => b'?',
        Some(letter) => *letter,
    }
}

fn piece_of(plan: u64, ordinal: u32, bytes: &Bytes) -> HeldPiece {
    let name = if plan == 1 {
        None
    } else {
        Some(name_of(first_letter(bytes)))
    };
    HeldPiece {
        local: LocalName { plan, ordinal },
        name,
    }
}

fn held_of(alloc: Global, plan: u64, object: &[u8]) -> Result<Sequence<ShownChunks>, AllocError> {
    let mut chunks = ShownChunks::new(alloc);
    let mut ordinal: u32 = 0;
    for bytes in cut(alloc, object, 2)?.into_vec() {
        chunks.push((piece_of(plan, ordinal, &bytes), bytes))?;
        ordinal = ordinal.wrapping_add(1);
    }
    let mut held = Sequence::new(alloc);
    held.push(chunks)?;
    Ok(held)
}

fn hold_row(
    alloc: Global,
    schema: &Schema,
    version: Version,
    held: (
        Sequence<ShownChunks>,
        Sequence<ShownChunks>,
        Sequence<ShownChunks>,
    ),
    content: &Content,
    names: &ObjectNames,
) -> Result<Option<HeldNew>, AllocError> {
    if schema.chunk == 0 {
        return Ok(None);
    }
    if !is_named(alloc, schema.chunk, content, names)? {
        return Ok(None);
    }
    let (shown, read, conflict) = held;
    match fits(schema, content) {
        Ok(()) => Ok(Some(hold_kept(
            alloc,
            schema.chunk,
            version,
            shown,
            read,
            conflict,
            content,
            names,
        )?)),
        Err(_) => Ok(None),
    }
}

fn letter(piece: &HeldPiece) -> u8 {
    let from = match piece.local.plan {
        0 => b'0',
        1 => b'A',
        2 => b'K',
        _ => b'U',
    };
    from.wrapping_add((piece.local.ordinal % 10) as u8)
}

fn spell_held(alloc: Global, content: &HeldContent) -> Result<Bytes, AllocError> {
    let mut spelled = Bytes::new(alloc);
    if let HeldContent::Row { objects, .. } = content {
        for object in objects.as_slice() {
            for piece in object.pieces.as_slice() {
                spelled.push(letter(piece))?;
            }
        }
    }
    Ok(spelled)
}

fn spelled_of(
    alloc: Global,
    schema: &Schema,
    version: Version,
    held: (
        Sequence<ShownChunks>,
        Sequence<ShownChunks>,
        Sequence<ShownChunks>,
    ),
    content: &Content,
    names: &ObjectNames,
) -> Result<Bytes, AllocError> {
    match hold_row(alloc, schema, version, held, content, names)? {
        None => Ok(Bytes::new(alloc)),
        Some(made) => spell_held(alloc, &made.content),
    }
}

#[test]
fn chunks_that_are_held_under_their_names_are_kept(rt: HostRuntime) -> Result<(), Fail> {
    let schema = one_object(rt.alloc())?;
    for (shown, read, conflict, object, names, spelled) in CASES {
        let shown = held_of(rt.alloc(), 1, shown)?;
        let read = held_of(rt.alloc(), 2, read)?;
        let conflict = held_of(rt.alloc(), 3, conflict)?;
        let content = content_of(rt.alloc(), object)?;
        let names = names_of(rt.alloc(), names)?;
        let held = (shown, read, conflict);
        let locals = spelled_of(rt.alloc(), &schema, 7, held, &content, &names)?;
        assert!(rt; locals.as_slice() == spelled);
    }
    Ok(())
}

#[test]
fn a_chunk_that_travels_is_brought_though_it_is_held(rt: HostRuntime) -> Result<(), Fail> {
    let schema = one_object(rt.alloc())?;
    let held = (
        held_of(rt.alloc(), 1, b"")?,
        held_of(rt.alloc(), 2, b"aabb")?,
        held_of(rt.alloc(), 3, b"")?,
    );
    let content = content_of(rt.alloc(), b"bbaa")?;
    let names = names_of(rt.alloc(), b"ba")?;
    // the names have version 7
    let locals = spelled_of(rt.alloc(), &schema, 6, held, &content, &names)?;
    assert!(rt; locals.as_slice() == b"01".as_slice());
    Ok(())
}
