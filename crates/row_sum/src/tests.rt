use crate::{clean_sum, conflict_sum, mine_sum};
use row_value::{Cell, Content, Sequence, SharedBytes};
use std::alloc::Global;
use std::test::Fail;
use table_model::{Answer, Shown, ShownSum};

const OF_ABC: [u8; 32] = [
    0xba, 0x78, 0x16, 0xbf, 0x8f, 0x01, 0xcf, 0xea, 0x41, 0x41, 0x40, 0xde, 0x5d, 0xae, 0x22, 0x23,
    0xb0, 0x03, 0x61, 0xa3, 0x96, 0x17, 0x7a, 0x9c, 0xb4, 0x10, 0xff, 0x61, 0xf2, 0x00, 0x15, 0xad,
];

const OF_NOTHING: [u8; 32] = [
    0xe3, 0xb0, 0xc4, 0x42, 0x98, 0xfc, 0x1c, 0x14, 0x9a, 0xfb, 0xf4, 0xc8, 0x99, 0x6f, 0xb9, 0x24,
    0x27, 0xae, 0x41, 0xe4, 0x64, 0x9b, 0x93, 0x4c, 0xa4, 0x95, 0x99, 0x1b, 0x78, 0x52, 0xb8, 0x55,
];

/// A row with a cell, and these objects.
fn row_of(alloc: Global, objects: &[&[u8]]) -> Result<Content, Fail> {
    let mut cells = Sequence::new(alloc);
    cells.push(Cell::Int(7))?;
    let mut some = Sequence::new(alloc);
    for object in objects {
        some.push(SharedBytes::from_slice(alloc, object)?)?;
    }
    Ok(Content::Row {
        cells,
        objects: some,
    })
}

/// The length and the digest of the first object, where the answer has them.
fn first_of(answer: &Answer) -> Option<(usize, [u8; 32])> {
    let row = match answer {
        Answer::Sums(ShownSum::Clean { row, .. }) => row,
        Answer::Sums(ShownSum::Mine { row, .. }) => row,
        Answer::Sums(ShownSum::Conflict { row, .. }) => row,
        _ => return None,
    };
    row.objects.get(0).map(|object| (object.len, object.sha256))
}

#[test]
fn objects_have_the_digests_of_the_standard(rt: HostRuntime) -> Result<(), Fail> {
    let alloc = rt.alloc();
    let abc = mine_sum(alloc, 1, &row_of(alloc, &[b"abc", b""])?)?;
    assert_eq!(rt; first_of(&abc), Some((3, OF_ABC)));
    let nothing = clean_sum(alloc, 4, &row_of(alloc, &[b""])?)?;
    assert_eq!(rt; first_of(&nothing), Some((0, OF_NOTHING)));
    Ok(())
}

#[test]
fn a_row_without_objects_is_shown_as_it_is(rt: HostRuntime) -> Result<(), Fail> {
    let alloc = rt.alloc();
    let plain = clean_sum(alloc, 4, &row_of(alloc, &[])?)?;
    assert!(rt; matches!(&plain, Answer::Shown(_)));
    let gone = mine_sum(alloc, 1, &Content::Gone)?;
    assert!(rt; matches!(&gone, Answer::Shown(_)));
    Ok(())
}

/// The number of the write and the version of the Store's row, where the answer shows a row in conflict.
fn conflict_of(answer: &Answer) -> Option<(u64, u64)> {
    match answer {
        Answer::Shown(
            Shown::Conflict {
                number,
                version,
                ..
            },
        ) => Some((*number, *version)),
        Answer::Sums(
            ShownSum::Conflict {
                number,
                version,
                ..
            },
        ) => Some((*number, *version)),
        _ => None,
    }
}

#[test]
fn a_row_in_conflict_has_its_write_and_its_version(rt: HostRuntime) -> Result<(), Fail> {
    let alloc = rt.alloc();
    let abc = conflict_sum(alloc, 1, 4, &row_of(alloc, &[b"abc"])?)?;
    assert_eq!(rt; first_of(&abc), Some((3, OF_ABC)));
    assert_eq!(rt; conflict_of(&abc), Some((1, 4)));
    let gone = conflict_sum(alloc, 2, 5, &Content::Gone)?;
    assert!(rt; matches!(&gone, Answer::Shown(_)));
    assert_eq!(rt; conflict_of(&gone), Some((2, 5)));
    Ok(())
}
