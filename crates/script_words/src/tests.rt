use super::*;
use row_value::Cell;
use std::alloc::Global;
use std::process::Abort;
use std::test::Fail;

/// What a word is read as: 1 and a number, 2 and a truth value, 3 and a text's bytes, 4 and an object's; 0 where it is
/// no value.
fn read(alloc: Global, word: &str) -> Result<(u8, i64, Vec<u8>), Fail> {
    let none = Vec::new(alloc);
    match value_at(alloc, word) {
        Ok(Value::OfCell(Cell::Int(n))) => Ok((1, n, none)),
        Ok(Value::OfCell(Cell::Bool(b))) => Ok((2, if b { 1 } else { 0 }, none)),
        Ok(Value::OfCell(Cell::Text(text))) => Ok((3, 0, text.into_vec())),
        Ok(Value::OfObject(object)) => Ok((4, 0, object.into_vec())),
        Err(ValueFault::Code(Code::NoValue)) => Ok((0, 0, none)),
        Err(_) => Err("no memory".into()),
    }
}

const VALUES: [(&str, u8, i64, &[u8]); 34] = [
    ("0", 1, 0, b""),
    ("-7", 1, -7, b""),
    ("9223372036854775807", 1, 9223372036854775807, b""),
    ("9223372036854775808", 0, 0, b""),
    ("-0", 0, 0, b""),
    ("+5", 0, 0, b""),
    ("05", 0, 0, b""),
    ("true", 2, 1, b""),
    ("false", 2, 0, b""),
    ("True", 0, 0, b""),
    ("t:", 3, 0, b""),
    ("t:Paris", 3, 0, b"Paris"),
    ("t:a:b", 3, 0, b"a:b"),
    ("t:a%20b", 3, 0, b"a b"),
    ("t:%41%4a%4A", 3, 0, b"AJJ"),
    ("t:a%", 3, 0, b"a%"),
    ("t:%4", 3, 0, b"%4"),
    ("t:%4g%%41", 3, 0, b"%4g%A"),
    ("t:%c3%a9", 3, 0, b"\xc3\xa9"),
    ("t:%c3", 0, 0, b""),
    ("t:%ff", 0, 0, b""),
    ("h:", 4, 0, b""),
    ("h:616263", 4, 0, b"abc"),
    ("h:aAfF", 4, 0, b"\xaa\xff"),
    ("h:abc", 0, 0, b""),
    ("h:0g", 0, 0, b""),
    ("r:5:abcd", 4, 0, b"\xab\xcd\xab\xcd\xab"),
    ("r:1:0102", 4, 0, b"\x01"),
    ("r:0:ff", 4, 0, b""),
    ("r:3:", 0, 0, b""),
    ("r:03:ff", 0, 0, b""),
    ("r:33554433:00", 0, 0, b""),
    ("r:3", 0, 0, b""),
    ("x:00", 0, 0, b""),
];

fn check(rt: &impl Abort, alloc: Global) -> Result<(), Fail> {
    for (word, kind, number, bytes) in VALUES {
        let (found, value, held) = read(alloc, word)?;
        assert_eq!(rt; (found, value), (kind, number), "{word}");
        assert!(rt; held.as_slice() == bytes, "{word}");
    }
    Ok(())
}

#[test]
fn words_are_read_as_values(rt: HostRuntime) -> Result<(), Fail> {
    check(&rt, rt.alloc())
}

#[test]
fn a_repeat_has_up_to_33554432_bytes(rt: HostRuntime) -> Result<(), Fail> {
    let (kind, _, bytes) = read(rt.alloc(), "r:33554432:0102")?;
    assert_eq!(rt; (kind, bytes.len()), (4, 33554432));
    assert_eq!(rt; bytes.last().copied(), Some(2));
    Ok(())
}

const SIDES: [(&str, Option<(&str, &str)>); 5] = [
    ("n=5", Some(("n", "5"))),
    ("n=t:a=b", Some(("n", "t:a=b"))),
    ("=", Some(("", ""))),
    ("n==", Some(("n", "="))),
    ("n:5", None),
];

#[test]
fn a_word_is_cut_at_its_first_sign(rt: HostRuntime) -> Result<(), Fail> {
    for (word, sides) in SIDES {
        assert!(rt; sides_of(word) == sides, "{word}");
    }
    Ok(())
}

fn digits(alloc: Global, word: &str) -> Result<Option<Vec<u8>>, Fail> {
    match bytes_at(alloc, word) {
        Ok(bytes) => Ok(Some(bytes.into_vec())),
        Err(ValueFault::Code(Code::NoValue)) => Ok(None),
        Err(_) => Err("no memory".into()),
    }
}

const DIGITS: [(&str, Option<&[u8]>); 5] = [
    ("00aF", Some(b"\x00\xaf")),
    ("a", None),
    ("0g", None),
    ("h:00", None),
    ("010203", Some(b"\x01\x02\x03")),
];

#[test]
fn digits_are_bytes(rt: HostRuntime) -> Result<(), Fail> {
    for (word, bytes) in DIGITS {
        assert!(rt; digits(rt.alloc(), word)?.as_deref() == bytes, "{word}");
    }
    Ok(())
}
