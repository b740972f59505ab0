//! Values of all kinds, written, sent, pulled and shown.
use crate::runs::{check, ends, texts};
use std::alloc::Global;
use std::test::Fail;

const KINDS: &str =
    "store S1\ntable T1 notes eventual 65536 n:int b:bool t:text o:object p:object\nclient C1 - T1\nclient C2 - T1\nwrite C1 T1 00000000-0000-4000-8000-000000000001 -5 true t:%00%01%02%03%04%05%06%07%08%09%0a%0b%0c%0d%0e%0f%10%11%12%13%14%15%16%17%18%19%1a%1b%1c%1d%1e%1f%20%21%22%23%24%25%26%27%28%29%2a%2b%2c%2d%2e%2f%30%31%32%33%34%35%36%37%38%39%3a%3b%3c%3d%3e%3f%40%41%42%43%44%45%46%47%48%49%4a%4b%4c%4d%4e%4f%50%51%52%53%54%55%56%57%58%59%5a%5b%5c%5d%5e%5f%60%61%62%63%64%65%66%67%68%69%6a%6b%6c%6d%6e%6f%70%71%72%73%74%75%76%77%78%79%7a%7b%7c%7d%7e%7f%c3%a9%e2%82%ac%f0%9d%84%9e h:000102030405060708090A0B0C0D0E0F101112131415161718191A1B1C1D1E1F202122232425262728292A2B2C2D2E2F303132333435363738393A3B3C3D3E3F404142434445464748494A4B4C4D4E4F505152535455565758595A5B5C5D5E5F606162636465666768696A6B6C6D6E6F707172737475767778797A7B7C7D7E7F808182838485868788898A8B8C8D8E8F909192939495969798999A9B9C9D9E9FA0A1A2A3A4A5A6A7A8A9AAABACADAEAFB0B1B2B3B4B5B6B7B8B9BABBBCBDBEBFC0C1C2C3C4C5C6C7C8C9CACBCCCDCECFD0D1D2D3D4D5D6D7D8D9DADBDCDDDEDFE0E1E2E3E4E5E6E7E8E9EAEBECEDEEEFF0F1F2F3F4F5F6F7F8F9FAFBFCFDFEFF r:7:0aF0\nshow C1 T1 00000000-0000-4000-8000-000000000001\nsync C1 T1\ndeliver 0\ndeliver 1\ndeliver 2\ndeliver 3\npull C2 T1\ndeliver 4\ndeliver 5\ndeliver 6\ndeliver 7\nshow C2 T1 00000000-0000-4000-8000-000000000001\nsshow T1 00000000-0000-4000-8000-000000000001\n";

const KINDS_SHOWN: &str =
    "ok 1\nwrote C1 1 T1 00000000-0000-4000-8000-000000000001 0 -5 true t:%00%01%02%03%04%05%06%07%08%09%0A%0B%0C%0D%0E%0F%10%11%12%13%14%15%16%17%18%19%1A%1B%1C%1D%1E%1F%20%21%22%23%24%25%26%27%28%29%2A%2B%2C-.%2F0123456789%3A%3B%3C%3D%3E%3F%40ABCDEFGHIJKLMNOPQRSTUVWXYZ%5B%5C%5D%5E_%60abcdefghijklmnopqrstuvwxyz%7B%7C%7D~%7F%C3%A9%E2%82%AC%F0%9D%84%9E h:000102030405060708090a0b0c0d0e0f101112131415161718191a1b1c1d1e1f202122232425262728292a2b2c2d2e2f303132333435363738393a3b3c3d3e3f404142434445464748494a4b4c4d4e4f505152535455565758595a5b5c5d5e5f606162636465666768696a6b6c6d6e6f707172737475767778797a7b7c7d7e7f808182838485868788898a8b8c8d8e8f909192939495969798999a9b9c9d9e9fa0a1a2a3a4a5a6a7a8a9aaabacadaeafb0b1b2b3b4b5b6b7b8b9babbbcbdbebfc0c1c2c3c4c5c6c7c8c9cacbcccdcecfd0d1d2d3d4d5d6d7d8d9dadbdcdddedfe0e1e2e3e4e5e6e7e8e9eaebecedeeeff0f1f2f3f4f5f6f7f8f9fafbfcfdfeff h:0af00af00af00a\nok mine 1 -5 true t:%00%01%02%03%04%05%06%07%08%09%0A%0B%0C%0D%0E%0F%10%11%12%13%14%15%16%17%18%19%1A%1B%1C%1D%1E%1F%20%21%22%23%24%25%26%27%28%29%2A%2B%2C-.%2F0123456789%3A%3B%3C%3D%3E%3F%40ABCDEFGHIJKLMNOPQRSTUVWXYZ%5B%5C%5D%5E_%60abcdefghijklmnopqrstuvwxyz%7B%7C%7D~%7F%C3%A9%E2%82%AC%F0%9D%84%9E h:000102030405060708090a0b0c0d0e0f101112131415161718191a1b1c1d1e1f202122232425262728292a2b2c2d2e2f303132333435363738393a3b3c3d3e3f404142434445464748494a4b4c4d4e4f505152535455565758595a5b5c5d5e5f606162636465666768696a6b6c6d6e6f707172737475767778797a7b7c7d7e7f808182838485868788898a8b8c8d8e8f909192939495969798999a9b9c9d9e9fa0a1a2a3a4a5a6a7a8a9aaabacadaeafb0b1b2b3b4b5b6b7b8b9babbbcbdbebfc0c1c2c3c4c5c6c7c8c9cacbcccdcecfd0d1d2d3d4d5d6d7d8d9dadbdcdddedfe0e1e2e3e4e5e6e7e8e9eaebecedeeeff0f1f2f3f4f5f6f7f8f9fafbfcfdfeff h:0af00af00af00a\nok 1\nsent 0 C1 S1 syncRequest\nsent 1 C1 S1 objectFragment\nsent 2 C1 S1 objectFragment\nok\nok\nok\naccepted T1 1 00000000-0000-4000-8000-000000000001 C1 1 0\nsent 3 S1 C1 syncResponse\nok\nacked C1 1 T1 00000000-0000-4000-8000-000000000001 1\nok\nsent 4 C2 S1 pullRequest\nok\nsent 5 S1 C2 pullResponse\nsent 6 S1 C2 objectFragment\nsent 7 S1 C2 objectFragment\nok\nok\nok\nnew C2 T1 00000000-0000-4000-8000-000000000001 1\nposition C2 T1 1\nok clean 1 -5 true t:%00%01%02%03%04%05%06%07%08%09%0A%0B%0C%0D%0E%0F%10%11%12%13%14%15%16%17%18%19%1A%1B%1C%1D%1E%1F%20%21%22%23%24%25%26%27%28%29%2A%2B%2C-.%2F0123456789%3A%3B%3C%3D%3E%3F%40ABCDEFGHIJKLMNOPQRSTUVWXYZ%5B%5C%5D%5E_%60abcdefghijklmnopqrstuvwxyz%7B%7C%7D~%7F%C3%A9%E2%82%AC%F0%9D%84%9E h:000102030405060708090a0b0c0d0e0f101112131415161718191a1b1c1d1e1f202122232425262728292a2b2c2d2e2f303132333435363738393a3b3c3d3e3f404142434445464748494a4b4c4d4e4f505152535455565758595a5b5c5d5e5f606162636465666768696a6b6c6d6e6f707172737475767778797a7b7c7d7e7f808182838485868788898a8b8c8d8e8f909192939495969798999a9b9c9d9e9fa0a1a2a3a4a5a6a7a8a9aaabacadaeafb0b1b2b3b4b5b6b7b8b9babbbcbdbebfc0c1c2c3c4c5c6c7c8c9cacbcccdcecfd0d1d2d3d4d5d6d7d8d9dadbdcdddedfe0e1e2e3e4e5e6e7e8e9eaebecedeeeff0f1f2f3f4f5f6f7f8f9fafbfcfdfeff h:0af00af00af00a\nok 1 -5 true t:%00%01%02%03%04%05%06%07%08%09%0A%0B%0C%0D%0E%0F%10%11%12%13%14%15%16%17%18%19%1A%1B%1C%1D%1E%1F%20%21%22%23%24%25%26%27%28%29%2A%2B%2C-.%2F0123456789%3A%3B%3C%3D%3E%3F%40ABCDEFGHIJKLMNOPQRSTUVWXYZ%5B%5C%5D%5E_%60abcdefghijklmnopqrstuvwxyz%7B%7C%7D~%7F%C3%A9%E2%82%AC%F0%9D%84%9E h:000102030405060708090a0b0c0d0e0f101112131415161718191a1b1c1d1e1f202122232425262728292a2b2c2d2e2f303132333435363738393a3b3c3d3e3f404142434445464748494a4b4c4d4e4f505152535455565758595a5b5c5d5e5f606162636465666768696a6b6c6d6e6f707172737475767778797a7b7c7d7e7f808182838485868788898a8b8c8d8e8f909192939495969798999a9b9c9d9e9fa0a1a2a3a4a5a6a7a8a9aaabacadaeafb0b1b2b3b4b5b6b7b8b9babbbcbdbebfc0c1c2c3c4c5c6c7c8c9cacbcccdcecfd0d1d2d3d4d5d6d7d8d9dadbdcdddedfe0e1e2e3e4e5e6e7e8e9eaebecedeeeff0f1f2f3f4f5f6f7f8f9fafbfcfdfeff h:0af00af00af00a\n";

#[test]
fn all_kinds_of_values_are_written_sent_and_shown(rt: HostRuntime) -> Result<(), Fail> {
    check(&rt, rt.alloc(), &[KINDS], 0, &[KINDS_SHOWN])
}

const DECLARED: &str =
    "store S1\ntable T1 notes eventual 65536 n:int b:bool t:text o:object p:object\nclient C1 - T1\nwrite C1 T1 00000000-0000-4000-8000-000000000001 ";

/// The values of a write, and what is answered.
const UNFIT: [(&str, &str); 8] = [
    ("-5 true t: h:", "no 11 4 0\n"),
    ("-5 true t: h: h: h:00", "no 11 5 1\n"),
    ("-5 t:a t: h: h:", "no 10 1\n"),
    ("-5 true t: true h: h:", "no 10 3\n"),
    ("-5 h: h:", "no 10 1\n"),
    ("h: h:", "no 10 0\n"),
    ("5 false t: r:4194305:00 h:", "no 11 3 4194305\n"),
    ("5 false t: h: r:33554432:00", "no 11 4 33554432\n"),
];

#[test]
fn values_that_do_not_fit_their_columns(rt: HostRuntime) -> Result<(), Fail> {
    for (values, answer) in UNFIT {
        check(&rt, rt.alloc(), &[DECLARED, values, "\n"], 0, &[answer])?;
    }
    Ok(())
}

/// So many times the byte `a`.
fn letters(alloc: Global, script: &mut Vec<u8>, len: usize) -> Result<(), Fail> {
    let letters = vec![in alloc; b'a'; len]?;
    script.extend_from_slice(b" t:")?;
    script.extend_from_slice(&letters)?;
    Ok(())
}

/// A write of eight texts of these lengths and of a number, in a table of such columns.
fn texts_of(alloc: Global, short: usize, last: usize) -> Result<Vec<u8>, Fail> {
    let mut script = Vec::from_slice(
        alloc,
        b"store S1\ntable T1 notes eventual 64 a:text b:text c:text d:text e:text f:text g:text h:text n:int\nclient C1 - T1\nwrite C1 T1 00000000-0000-4000-8000-000000000001",
    )?;
    for _ in 0..7 {
        letters(alloc, &mut script, short)?;
    }
    letters(alloc, &mut script, last)?;
    script.extend_from_slice(b" 1\n")?;
    Ok(script)
}

/// Seven texts, the eighth one, and how the answer begins: a text has up to 65,535 bytes, and the cells up to 524,288
/// as they are spelled, five bytes and the text each and nine for the number.
const TEXTS: [(usize, usize, &[u8]); 5] = [
    (65_531, 65_522, b"ok 1\nwrote "),
    (65_531, 65_523, b"no 10 8\n"),
    (65_531, 65_532, b"no 10 7\n"),
    (0, 65_535, b"ok 1\nwrote "),
    (0, 65_536, b"no 10 7\n"),
];

#[test]
fn texts_and_cells_have_limits(rt: HostRuntime) -> Result<(), Fail> {
    let alloc = rt.alloc();
    for (short, last, answer) in TEXTS {
        let (status, written) = ends(alloc, "run", texts_of(alloc, short, last)?, &[], &[])?;
        assert_eq!(rt; status, 0);
        assert!(rt; written.starts_with(answer), "{short} {last}");
    }
    Ok(())
}

const LARGE: &str =
    "store S1\ntable T1 notes eventual 64 n:int o:object p:object q:object r:object\nclient C1 - T1\nwrite C1 T1 00000000-0000-4000-8000-000000000001 1 r:4194304:00 r:4194304:00 r:4194304:00 r:4194304:00\nwrite C1 T1 00000000-0000-4000-8000-000000000001 1 r:4194304:00 r:4194304:00 r:4194304:00 r:4194296:00\nwrite C1 T1 00000000-0000-4000-8000-000000000001 1 r:2097152:00 r:1:00 h: h:\n";

#[test]
fn rows_and_their_chunks_have_limits(rt: HostRuntime) -> Result<(), Fail> {
    let answers = "no 12 16777224\nno 9 262144\nno 9 32769\n";
    check(&rt, rt.alloc(), &[LARGE], 0, &[answers])
}

/// An object of 4,194,304 zero bytes, the most that one may have: the write is printed whole.
#[test]
fn the_longest_object_is_written(rt: HostRuntime) -> Result<(), Fail> {
    let alloc = rt.alloc();
    let script =
        "store S1\ntable T1 notes eventual 65536 o:object\nclient C1 - T1\nwrite C1 T1 00000000-0000-4000-8000-000000000001 r:4194304:00\n";
    let (status, written) = ends(alloc, "run", texts(alloc, &[script])?, &[], &[])?;
    let mut answer = texts(
        alloc,
        &["ok 1\nwrote C1 1 T1 00000000-0000-4000-8000-000000000001 0 h:"],
    )?;
    let zeros = vec![in alloc; b'0'; 8_388_608]?;
    answer.extend_from_slice(&zeros)?;
    answer.push(b'\n')?;
    assert_eq!(rt; status, 0);
    assert!(rt; written.as_slice() == answer.as_slice());
    Ok(())
}
