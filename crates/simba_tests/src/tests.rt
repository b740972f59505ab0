use crate::runs::{check, ends, limited, texts};
use std::alloc::Global;
use std::process::Abort;
use std::test::Fail;

const FIRST: &str =
    "store S1\ntable T1 notes eventual 64 n:int\nclient C1 - T1\nwrite C1 T1 00000000-0000-4000-8000-000000000001 5\nshow C1 T1 00000000-0000-4000-8000-000000000001\nshow C1 T1 00000000-0000-4000-8000-000000000002\nwrite C1 T1 00000000-0000-4000-8000-000000000001 6 7\n";

const FIRST_LINES: [&str; 5] = [
    "ok 1\n",
    "wrote C1 1 T1 00000000-0000-4000-8000-000000000001 0 5\n",
    "ok mine 1 5\n",
    "no 27\n",
    "no 10 1\n",
];

const DECLARED: &str = "store S1\ntable T1 notes eventual 64 n:int\nclient C1 - T1\n";

#[test]
fn nothing_gives_nothing(rt: HostRuntime) -> Result<(), Fail> {
    check(&rt, rt.alloc(), &[], 0, &[])
}

#[test]
fn the_first_script(rt: HostRuntime) -> Result<(), Fail> {
    check(&rt, rt.alloc(), &[FIRST], 0, &FIRST_LINES)
}

#[test]
fn other_words_are_refused(rt: HostRuntime) -> Result<(), Fail> {
    for word in ["", "Run", "run ", "live", "-h", "--help"] {
        let (status, written) = ends(rt.alloc(), word, texts(rt.alloc(), &[FIRST])?, &[], &[])?;
        assert_eq!(rt; status, 2, "{word}");
        assert!(rt; written.is_empty());
    }
    Ok(())
}

const BAD_LINES: [(&str, &str); 6] = [
    ("frob\n", "stop 3 4 1\n"),
    ("write C1 T1\n", "stop 3 4 2\n"),
    ("\n# a remark\nshow C1 T1 1\n", "stop 3 6 6\n"),
    (
        "show C1 T1 00000000-0000-4000-8000-000000000001 x\n",
        "stop 3 4 3\n",
    ),
    ("client C2 G1 T1\n", "stop 3 4 8\n"),
    ("store S1\n", "stop 3 4 9\n"),
];

#[test]
fn the_first_bad_line_stops_the_run(rt: HostRuntime) -> Result<(), Fail> {
    for (line, output) in BAD_LINES {
        check(&rt, rt.alloc(), &[DECLARED, line, "frob\n"], 3, &[output])?;
    }
    Ok(())
}

#[test]
fn a_last_line_needs_no_newline(rt: HostRuntime) -> Result<(), Fail> {
    let show = "show C1 T1 00000000-0000-4000-8000-000000000001";
    check(&rt, rt.alloc(), &[DECLARED, show], 0, &["no 27\n"])
}

#[test]
fn row_ids_are_printed_in_lower_case(rt: HostRuntime) -> Result<(), Fail> {
    let write = "write  C1 T1   0000000A-00BC-4000-8000-00000000000F -9223372036854775808 ";
    check(
        &rt,
        rt.alloc(),
        &[DECLARED, write],
        0,
        &["ok 1\nwrote C1 1 T1 0000000a-00bc-4000-8000-00000000000f 0 -9223372036854775808\n"],
    )
}

// A source of 64 bytes a take that fails at one of its takes: the lines that it gave whole are carried out.
#[test]
fn a_source_that_fails(rt: HostRuntime) -> Result<(), Fail> {
    for (take, lines) in [(0, 0), (1, 0), (2, 2), (3, 3), (4, 4), (5, 5)] {
        let (status, written) = ends(
            rt.alloc(),
            "run",
            texts(rt.alloc(), &[FIRST])?,
            &[take],
            &[],
        )?;
        assert_eq!(rt; status, 4, "{take}");
        assert!(rt;
            written.as_slice() == texts(rt.alloc(), &FIRST_LINES[..lines])?.as_slice(),
            "{take}"
        );
    }
    Ok(())
}

// A sink that fails at one of its puts: the lines before, and half of the one that fails, rounded down.
#[test]
fn a_sink_that_fails(rt: HostRuntime) -> Result<(), Fail> {
    for (put, line) in FIRST_LINES.iter().enumerate() {
        let (status, written) = ends(
            rt.alloc(),
            "run",
            texts(rt.alloc(), &[FIRST])?,
            &[],
            &[put as u64],
        )?;
        assert_eq!(rt; status, 5, "{put}");
        let mut held = texts(rt.alloc(), &FIRST_LINES[..put])?;
        let half = line.as_bytes();
        held.extend_from_slice(&half[..half.len() / 2])?;
        assert!(rt; written.as_slice() == held.as_slice(), "{put}");
    }
    Ok(())
}

#[test]
fn a_stop_line_that_fails(rt: HostRuntime) -> Result<(), Fail> {
    let (status, written) = ends(rt.alloc(), "run", texts(rt.alloc(), &["frob"])?, &[], &[0])?;
    assert_eq!(rt; status, 5);
    assert!(rt; written.as_slice() == b"stop ".as_slice());
    Ok(())
}

// Behind how many lines of the declarations, the next line, and how the run ends.
const DECLARATION_LIMITS: [(usize, &str, u8, &str); 5] = [
    (0, "store S17\n", 7, "stop 7 1 7\n"),
    (1, "table T65 x eventual 64 n:int\n", 7, "stop 7 2 4\n"),
    (1, "table T65 X eventual 64 n:int\n", 3, "stop 3 2 5\n"),
    (2, "client C65 - T1\n", 7, "stop 7 3 5\n"),
    (2, "client C1 - T1,T1\n", 3, "stop 3 3 9\n"),
];

#[test]
fn numbers_of_declarations_above_their_limits(rt: HostRuntime) -> Result<(), Fail> {
    let declared = [
        "store S1\n",
        "table T1 notes eventual 64 n:int\n",
        "client C1 - T1\n",
    ];
    for (lines, line, status, output) in DECLARATION_LIMITS {
        let mut script = texts(rt.alloc(), &declared[..lines])?;
        script.extend_from_slice(line.as_bytes())?;
        limited(&rt, rt.alloc(), script, status, output)?;
    }
    Ok(())
}

#[test]
fn most_lines(rt: HostRuntime) -> Result<(), Fail> {
    limited(
        &rt,
        rt.alloc(),
        vec![in rt.alloc(); b'\n'; 1_048_576]?,
        0,
        "",
    )?;
    limited(
        &rt,
        rt.alloc(),
        vec![in rt.alloc(); b'\n'; 1_048_577]?,
        7,
        "stop 7 1048577 2\n",
    )
}

// As many empty lines as there may be, and then a line that fills up to so many bytes.
fn most_lines_and(alloc: Global, len: usize) -> Result<Vec<u8>, Fail> {
    let mut text = vec![in alloc; b'\n'; 1_048_576]?;
    text.resize(len, b'#')?;
    Ok(text)
}

// The line too many has 34,603,009 bytes, one more than a line may have.
#[test]
fn a_long_line_behind_the_most_lines(rt: HostRuntime) -> Result<(), Fail> {
    let text = most_lines_and(rt.alloc(), 35_651_585)?;
    limited(&rt, rt.alloc(), text, 7, "stop 7 1048577 2\n")
}

// Takes of 64 bytes: take 16,384 is the first behind the most lines.
#[test]
fn a_source_that_fails_behind_the_most_lines(rt: HostRuntime) -> Result<(), Fail> {
    for (take, status, output) in [(16_384, 4, ""), (16_385, 7, "stop 7 1048577 2\n")] {
        let text = most_lines_and(rt.alloc(), 1_049_216)?;
        let (ended, written) = ends(rt.alloc(), "run", text, &[take], &[])?;
        assert_eq!(rt; ended, status, "{take}");
        assert!(rt; written.as_slice() == output.as_bytes(), "{take}");
    }
    Ok(())
}

// The most lines, of as many bytes as an input may have: the next byte passes both limits.
#[test]
fn most_lines_of_the_longest_input(rt: HostRuntime) -> Result<(), Fail> {
    let mut text = vec![in rt.alloc(); b'\n'; 1_048_574]?;
    text.resize(34_078_718, b'#')?;
    text.push(b'\n')?;
    text.resize(67_108_863, b'#')?;
    text.extend_from_slice(b"\n#")?;
    limited(&rt, rt.alloc(), text, 7, "stop 7 1048577 1\n")
}

#[test]
fn longest_line(rt: HostRuntime) -> Result<(), Fail> {
    limited(
        &rt,
        rt.alloc(),
        vec![in rt.alloc(); b'#'; 34_603_008]?,
        0,
        "",
    )?;
    limited(
        &rt,
        rt.alloc(),
        vec![in rt.alloc(); b'#'; 34_603_009]?,
        7,
        "stop 7 1 3\n",
    )
}

// Two lines of half the most bytes, and then so many more.
fn two_lines(alloc: Global, more: usize) -> Result<Vec<u8>, Fail> {
    let mut line = vec![in alloc; b'#'; 33_554_431]?;
    line.push(b'\n')?;
    let mut text = Vec::from_slice(alloc, &line)?;
    text.extend_from_slice(&line)?;
    for _ in 0..more {
        text.push(b' ')?;
    }
    Ok(text)
}

#[test]
fn longest_input(rt: HostRuntime) -> Result<(), Fail> {
    limited(&rt, rt.alloc(), two_lines(rt.alloc(), 0)?, 0, "")?;
    limited(
        &rt,
        rt.alloc(),
        two_lines(rt.alloc(), 1)?,
        7,
        "stop 7 3 1\n",
    )
}
