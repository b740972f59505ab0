use super::{Words, parse};
use crate::{SelectFault, holds};
use row_value::{Cell, Column, ColumnKind, Content, Schema, Scheme};
use stab_base::{Bytes, Sequence, SharedBytes};
use std::alloc::{AllocError, Global};
use std::test::Fail;

type Columns = &'static [(&'static [u8], ColumnKind)];

const COLUMNS: Columns = &[
    (b"n", ColumnKind::Int),
    (b"flag", ColumnKind::Bool),
    (b"t", ColumnKind::Text),
    (b"or", ColumnKind::Int),
    (b"photo", ColumnKind::Object),
];

const WITH_NOT: Columns = &[(b"n", ColumnKind::Int), (b"not", ColumnKind::Int)];

const OBJECTS: Columns = &[(b"photo", ColumnKind::Object)];

fn schema_of(alloc: Global, columns: Columns) -> Result<Schema, AllocError> {
    let mut made = Sequence::new(alloc);
    for (name, kind) in columns {
        made.push(Column {
            name: Bytes::from_slice(alloc, name)?,
            kind: *kind,
        })?;
    }
    Ok(Schema {
        name: Bytes::new(alloc),
        scheme: Scheme::Causal,
        chunk: 64,
        columns: made,
    })
}

fn words_of(alloc: Global, line: &[u8]) -> Result<Words, AllocError> {
    let mut words = Sequence::new(alloc);
    for word in line.split(|b| *b == b' ') {
        words.push(Bytes::from_slice(alloc, word)?)?;
    }
    Ok(words)
}

// Where the words are refused.
fn refused_at(alloc: Global, columns: Columns, words: &Words) -> Result<Option<usize>, AllocError> {
    match parse(alloc, &schema_of(alloc, columns)?, words) {
        Ok(_predicate) => Ok(None),
        Err(SelectFault::BadSelection { at }) => Ok(Some(at)),
        Err(SelectFault::Memory) => Err(AllocError),
    }
}

fn line_refused_at(
    alloc: Global,
    columns: Columns,
    line: &[u8],
) -> Result<Option<usize>, AllocError> {
    refused_at(alloc, columns, &words_of(alloc, line)?)
}

const CASES: [(&[u8], Option<usize>); 44] = [
    (b"n > 4", None),
    (b"not ( n = 1 or flag = true ) and t = t:%20", None),
    (b"( n > 4 )", None),
    (b"not not n = 1", None),
    (b"flag != true", None),
    (b"t <= t:", None),
    (b"t >= t:%", None),
    (b"n < -1", None),
    (b"or = 1 or or = 2", None),
    // words are missing
    (b"n", Some(1)),
    (b"n >", Some(2)),
    (b"n > 4 or", Some(4)),
    (b"( n > 4", Some(4)),
    (b"not", Some(1)),
    (b"(", Some(1)),
    // no test begins
    (b"m > 4", Some(0)),
    (b"photo = h:00", Some(0)),
    (b"( )", Some(1)),
    (b"NOT n = 1", Some(0)),
    (b"n = 1 and and n = 1", Some(4)),
    (b"n > 4 or )", Some(4)),
    (b"= n 1", Some(0)),
    // no operator
    (b"n == 1", Some(1)),
    (b"n => 1", Some(1)),
    (b"n 1", Some(1)),
    // no value of the column's kind
    (b"n > x", Some(2)),
    (b"n = t:1", Some(2)),
    (b"n = h:00", Some(2)),
    (b"n = -0", Some(2)),
    (b"n = 01", Some(2)),
    (b"n = 9223372036854775808", Some(2)),
    (b"flag = 1", Some(2)),
    (b"t = true", Some(2)),
    (b"t = t:%ff", Some(2)),
    // nothing joins
    (b"n > 4 n", Some(3)),
    (b"n > 4 )", Some(3)),
    (b"( n > 4 ) )", Some(5)),
    (b"n > 4 AND n > 4", Some(3)),
    // an empty word, and words that aren't UTF-8
    (b"", Some(0)),
    (b"n  > 4", Some(1)),
    (b"n > \xff", Some(2)),
    (b"t = t:\xc3%a9", Some(2)),
    (b"\xc3\xa9 = 1", Some(0)),
    (
        b"aaaaaaaaaaaaaaaaaaaaaaaaaaaaaaaaaaaaaaaaaaaaaaaaaaaaaaaaaaaaaaaaaaaaaaaaaaaaaaaa = 1",
        Some(0),
    ),
];

#[test]
fn the_first_bad_word_is_told(rt: HostRuntime) -> Result<(), Fail> {
    for (line, at) in CASES {
        assert_eq!(rt; line_refused_at(rt.alloc(), COLUMNS, line)?, at);
    }
    Ok(())
}

#[test]
fn no_words_are_refused_at_their_count(rt: HostRuntime) -> Result<(), Fail> {
    let words = Sequence::new(rt.alloc());
    assert_eq!(rt; refused_at(rt.alloc(), COLUMNS, &words)?, Some(0));
    assert_eq!(rt; line_refused_at(rt.alloc(), OBJECTS, b"( n = 1")?, Some(0));
    Ok(())
}

// So many words, a test, and so many words behind it.
fn nested(alloc: Global, depth: u32, front: &[u8], back: u32) -> Result<Words, AllocError> {
    let mut words = Sequence::new(alloc);
    for _ in 0..depth {
        words.push(Bytes::from_slice(alloc, front)?)?;
    }
    words.push(Bytes::from_slice(alloc, b"n")?)?;
    words.push(Bytes::from_slice(alloc, b"=")?)?;
    words.push(Bytes::from_slice(alloc, b"1")?)?;
    for _ in 0..back {
        words.push(Bytes::from_slice(alloc, b")")?)?;
    }
    Ok(words)
}

fn nested_at(
    alloc: Global,
    columns: Columns,
    depth: u32,
    front: &[u8],
    back: u32,
) -> Result<Option<usize>, AllocError> {
    refused_at(alloc, columns, &nested(alloc, depth, front, back)?)
}

#[test]
fn tests_nest_64_deep(rt: HostRuntime) -> Result<(), Fail> {
    let alloc = rt.alloc();
    assert_eq!(rt; nested_at(alloc, COLUMNS, 64, b"not", 0)?, None);
    assert_eq!(rt; nested_at(alloc, COLUMNS, 65, b"not", 0)?, Some(64));
    assert_eq!(rt; nested_at(alloc, COLUMNS, 64, b"(", 64)?, None);
    assert_eq!(rt; nested_at(alloc, COLUMNS, 65, b"(", 65)?, Some(64));
    assert_eq!(rt; nested_at(alloc, COLUMNS, 64, b"(", 65)?, Some(131));
    // where a column is named `not`, the 65th may be that column
    assert_eq!(rt; nested_at(alloc, WITH_NOT, 65, b"not", 0)?, Some(65));
    Ok(())
}

const NOT_CASES: [(&[u8], Option<usize>); 6] = [
    (b"not = 1", None),
    (b"not not = 1", None),
    (b"not n = 1", None),
    (b"not ( not = 1 and n = 1 )", None),
    (b"not", Some(1)),
    (b"not and n = 1", Some(1)),
];

#[test]
fn a_column_may_be_named_not(rt: HostRuntime) -> Result<(), Fail> {
    for (line, at) in NOT_CASES {
        assert_eq!(rt; line_refused_at(rt.alloc(), WITH_NOT, line)?, at);
    }
    Ok(())
}

// A row of a number 5, a flag, a text and a number 7.
fn row_of(alloc: Global) -> Result<Content, AllocError> {
    let mut cells = Sequence::new(alloc);
    cells.push(Cell::Int(5))?;
    cells.push(Cell::Bool(true))?;
    cells.push(Cell::Text(Bytes::from_slice(alloc, b" b")?))?;
    cells.push(Cell::Int(7))?;
    let mut objects = Sequence::new(alloc);
    objects.push(SharedBytes::from_slice(alloc, b"")?)?;
    Ok(Content::Row { cells, objects })
}

fn is_met(alloc: Global, line: &[u8]) -> Result<Option<bool>, AllocError> {
    let schema = schema_of(alloc, COLUMNS)?;
    match parse(alloc, &schema, &words_of(alloc, line)?) {
        Ok(predicate) => Ok(Some(holds(&schema, &predicate, &row_of(alloc)?))),
        Err(SelectFault::BadSelection { at: _ }) => Ok(None),
        Err(SelectFault::Memory) => Err(AllocError),
    }
}

const MET: [(&[u8], bool); 12] = [
    (b"n > 4", true),
    (b"n >= 5", true),
    (b"n > 5", false),
    (b"n != 5", false),
    (b"t = t:%20b", true),
    (b"or = 7", true),
    (b"n = 5 or n = 5 and flag = false", true),
    (b"( n = 5 or n = 5 ) and flag = false", false),
    (b"n = 4 and n = 4 or flag = true", true),
    (b"not n = 4 and flag = false", false),
    (b"not ( n = 4 and flag = false )", true),
    (b"not not not n = 5", false),
];

#[test]
fn rows_meet_what_words_spell(rt: HostRuntime) -> Result<(), Fail> {
    for (line, met) in MET {
        assert_eq!(rt; is_met(rt.alloc(), line)?, Some(met));
    }
    Ok(())
}
