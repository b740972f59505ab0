use super::*;
use row_value::{
    Cell, Column, ColumnKind, Content, Piece, PieceContent, PieceObject, Schema, Scheme,
};
use stab_base::ChunkName;
use std::test::Fail;

/// A row of the cells 5, true and "hi", and of one object of 65 bytes: a chunk that is kept and a new one.
const ROW: [u8; 54] = [
    1, 0, 0, 0, 3, 1, 0, 0, 0, 0, 0, 0, 0, 5, 2, 1, 3, 0, 0, 0, 2, 104, 105, 0, 0, 0, 1, 0, 0, 0,
    65, 0, 0, 0, 2, 0, 0, 0, 0, 0, 0, 0, 0, 7, 0, 0, 0, 3, 1, 0, 0, 0, 0, 9,
];

/// The causal table "t" of a number "a" and an object "o", in chunks of 1024 bytes.
const TABLE: [u8; 26] = [
    0, 0, 0, 1, 116, 2, 0, 0, 4, 0, 0, 0, 0, 2, 0, 0, 0, 1, 97, 1, 0, 0, 0, 1, 111, 4,
];

#[test]
fn cells_are_put_behind_their_tags(rt: HostRuntime) -> Result<(), Fail> {
    let mut out = Vec::new(rt.alloc());
    put_cell(&mut out, &Cell::Int(-1))?;
    put_cell(&mut out, &Cell::Bool(false))?;
    put_cell(&mut out, &Cell::Int(5))?;
    let spelled = [
        1, 255, 255, 255, 255, 255, 255, 255, 255, 2, 0, 1, 0, 0, 0, 0, 0, 0, 0, 5,
    ];
    assert_eq!(rt; out.as_slice(), spelled.as_slice());
    let (cell, behind) = take_cell(rt.alloc(), &spelled, 0)?;
    assert!(rt; matches!(&cell, Cell::Int(-1)));
    assert_eq!(rt; behind, 9);
    Ok(())
}

#[test]
fn names_and_pieces_are_put_and_taken(rt: HostRuntime) -> Result<(), Fail> {
    let name = ChunkName {
        version: 7,
        ordinal: 3,
    };
    let mut out = Vec::new(rt.alloc());
    put_name(&mut out, name)?;
    put_piece(&mut out, Piece::Keep(name))?;
    put_piece(&mut out, Piece::Fresh(258))?;
    let spelled = [
        0, 0, 0, 0, 0, 0, 0, 7, 0, 0, 0, 3, 0, 0, 0, 0, 0, 0, 0, 0, 7, 0, 0, 0, 3, 1, 0, 0, 1, 2,
    ];
    assert_eq!(rt; out.as_slice(), spelled.as_slice());
    assert!(rt;
        name < ChunkName {
            version: 8,
            ordinal: 0
        }
    );
    assert_eq!(rt; take_name(&spelled, 0), Ok((name, 12)));
    assert_eq!(rt; take_piece(&spelled, 12), Ok((Piece::Keep(name), 25)));
    assert_eq!(rt; take_piece(&spelled, 25), Ok((Piece::Fresh(258), 30)));
    Ok(())
}

#[test]
fn a_row_is_read_and_put_again(rt: HostRuntime) -> Result<(), Fail> {
    let (row, behind) = take_content(rt.alloc(), &ROW, 0)?;
    assert_eq!(rt; behind, 53);
    let mut out = Vec::new(rt.alloc());
    put_content(&mut out, &row)?;
    assert_eq!(rt; out.as_slice(), &ROW[..53]);
    let gone = content_of(rt.alloc(), &[0])?;
    assert!(rt; matches!(&gone, PieceContent::Gone));
    Ok(())
}

#[test]
fn each_cut_of_a_row_is_refused_at_its_end(rt: HostRuntime) {
    for len in 0..53 {
        let cut = content_of(rt.alloc(), &ROW[..len]);
        assert_eq!(rt; cut.err(), Some(SpellFault::Bad { at: len }));
    }
    let behind = content_of(rt.alloc(), &ROW);
    assert_eq!(rt; behind.err(), Some(SpellFault::Bad { at: 53 }));
}

#[test]
fn contents_are_refused_at_the_first_bad_byte(rt: HostRuntime) {
    let table: [(&[u8], usize); 8] = [
        (&[2], 0),
        (&[1, 0, 0, 0, 1, 4], 5),
        (&[1, 0, 0, 0, 1, 2, 2], 6),
        (&[1, 0, 0, 0, 1, 3, 0, 0, 0, 2, 0xC3, 40], 11),
        (&[1, 0, 0, 0, 1, 3, 0, 0, 0, 2, 0xE2, 0x82], 10),
        (&[1, 0, 0, 0, 1, 3, 0, 0, 0, 4, 104, 0xED, 0xA0], 12),
        (
            &[
                1, 0, 0, 0, 0, 0, 0, 0, 1, 0, 0, 0, 9, 0, 0, 0, 1, 1, 0, 0, 0, 1,
            ],
            21,
        ),
        (&[1, 0, 0, 0, 0, 0, 0, 0, 1, 0, 0, 0, 9, 0, 0, 0, 1, 2], 17),
    ];
    for (bytes, at) in &table {
        assert_eq!(rt;
            content_of(rt.alloc(), bytes).err(),
            Some(SpellFault::Bad { at: *at })
        );
    }
}

#[test]
fn a_schema_is_read_and_put_again(rt: HostRuntime) -> Result<(), Fail> {
    let schema = schema_of(rt.alloc(), &TABLE)?;
    assert_eq!(rt; schema.scheme, Scheme::Causal);
    assert_eq!(rt; schema.chunk, 1024);
    let mut out = Vec::new(rt.alloc());
    put_schema(&mut out, &schema)?;
    assert_eq!(rt; out.as_slice(), TABLE.as_slice());
    let (_schema, behind) = take_schema(rt.alloc(), &TABLE, 0)?;
    assert_eq!(rt; behind, 26);
    Ok(())
}

#[test]
fn schemas_are_refused_at_the_first_bad_byte(rt: HostRuntime) {
    // The place of a byte of the table, another byte there, and the place that is told.
    let table: [(usize, u8, usize); 8] = [
        (4, 0xFF, 4),
        (5, 4, 5),
        (7, 1, 8),
        (8, 0, 9),
        (9, 128, 9),
        (13, 0, 13),
        (13, 33, 13),
        (25, 5, 25),
    ];
    for (place, byte, at) in &table {
        let mut bytes = TABLE;
        bytes[*place] = *byte;
        let read = schema_of(rt.alloc(), &bytes);
        assert_eq!(rt; read.err(), Some(SpellFault::Bad { at: *at }));
    }
    let behind_object = [
        0, 0, 0, 0, 1, 0, 0, 0, 64, 0, 0, 0, 2, 0, 0, 0, 0, 4, 0, 0, 0, 0, 1,
    ];
    let read = schema_of(rt.alloc(), &behind_object);
    assert_eq!(rt; read.err(), Some(SpellFault::Bad { at: 22 }));
}
