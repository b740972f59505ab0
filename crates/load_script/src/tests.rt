use super::*;
use stab_base::Bytes;
use std::alloc::{AllocError, Global};
use std::process::Abort;
use std::test::Fail;

const DECLARED: [&str; 69] = [
    "store S1",
    "store S2",
    "table T1 a strong 64 n:int o:object",
    "table T2 b causal 64 n:int o:object",
    "table T3 bar eventual 64 n:int o:object",
    "client C1 - T1,T2,T3",
    "client C2 - T1,T2,T3",
    "client C3 - T1,T2,T3",
    "client C4 - T1,T2,T3",
    "client C5 - T1,T2,T3",
    "client C6 - T1,T2,T3",
    "client C7 - T1,T2,T3",
    "client C8 - T1,T2,T3",
    "client C9 - T1,T2,T3",
    "client C10 - T1,T2,T3",
    "client C11 - T1,T2,T3",
    "client C12 - T1,T2,T3",
    "client C13 - T1,T2,T3",
    "client C14 - T1,T2,T3",
    "client C15 - T1,T2,T3",
    "client C16 - T1,T2,T3",
    "client C17 - T1,T2,T3",
    "client C18 - T1,T2,T3",
    "client C19 - T1,T2,T3",
    "client C20 - T1,T2,T3",
    "client C21 - T1,T2,T3",
    "client C22 - T1,T2,T3",
    "client C23 - T1,T2,T3",
    "client C24 - T1,T2,T3",
    "client C25 - T1,T2,T3",
    "client C26 - T1,T2,T3",
    "client C27 - T1,T2,T3",
    "client C28 - T1,T2,T3",
    "client C29 - T1,T2,T3",
    "client C30 - T1,T2,T3",
    "client C31 - T1,T2,T3",
    "client C32 - T1,T2,T3",
    "client C33 - T1,T2,T3",
    "client C34 - T1,T2,T3",
    "client C35 - T1,T2,T3",
    "client C36 - T1,T2,T3",
    "client C37 - T1,T2,T3",
    "client C38 - T1,T2,T3",
    "client C39 - T1,T2,T3",
    "client C40 - T1,T2,T3",
    "client C41 - T1,T2,T3",
    "client C42 - T1,T2,T3",
    "client C43 - T1,T2,T3",
    "client C44 - T1,T2,T3",
    "client C45 - T1,T2,T3",
    "client C46 - T1,T2,T3",
    "client C47 - T1,T2,T3",
    "client C48 - T1,T2,T3",
    "client C49 - T1,T2,T3",
    "client C50 - T1,T2,T3",
    "client C51 - T1,T2,T3",
    "client C52 - T1,T2,T3",
    "client C53 - T1,T2,T3",
    "client C54 - T1,T2,T3",
    "client C55 - T1,T2,T3",
    "client C56 - T1,T2,T3",
    "client C57 - T1,T2,T3",
    "client C58 - T1,T2,T3",
    "client C59 - T1,T2,T3",
    "client C60 - T1,T2,T3",
    "client C61 - T1,T2,T3",
    "client C62 - T1,T2,T3",
    "client C63 - T1,T2,T3",
    "client C64 - T1,T2,T3",
];

const ZERO: [(u64, &str); 13] = [
    (1, "delete C64 T1 00000000-0000-4000-8000-000000000012\n"),
    (0, "pull C46 T3\n"),
    (
        10,
        "write C33 T1 00000000-0000-4000-8000-000000000010 382 r:277:34\n",
    ),
    (
        0,
        "write C31 T2 00000000-0000-4000-8000-000000000013 483 r:85:35\n",
    ),
    (
        18446744073709551615,
        "write C16 T3 00000000-0000-4000-8000-00000000000e 841 r:31:93\n",
    ),
    (
        18446744073709551615,
        "write C63 T3 00000000-0000-4000-8000-000000000011 884 r:250:bb\n",
    ),
    (18446744073709551615, "sync C19 T3\n"),
    (4294967296, "deliver 1102212541\n"),
    (3, "sync C9 T3\n"),
    (0, "pull C7 T2\n"),
    (
        18446744073709551615,
        "write C10 T3 00000000-0000-4000-8000-000000000018 932 r:14:0b\n",
    ),
    (0, "delete C17 T3 00000000-0000-4000-8000-000000000016\n"),
    (
        4294967296,
        "hold S1\ndeliver 1205087294\ncrash S1 2 0\nstart S1\ndo S1\nfree S1\n",
    ),
];

const UNSENT: [(u64, &str); 18] = [
    (0, "delete C64 T1 00000000-0000-4000-8000-000000000012\n"),
    (0, "pull C46 T3\n"),
    (
        0,
        "write C33 T1 00000000-0000-4000-8000-000000000010 382 r:277:34\n",
    ),
    (
        0,
        "write C31 T2 00000000-0000-4000-8000-000000000013 483 r:85:35\n",
    ),
    (
        0,
        "write C16 T3 00000000-0000-4000-8000-00000000000e 841 r:31:93\n",
    ),
    (
        0,
        "write C63 T3 00000000-0000-4000-8000-000000000011 884 r:250:bb\n",
    ),
    (0, "sync C19 T3\n"),
    (0, "pull C1 T1\n"),
    (0, "pull C62 T1\n"),
    (
        0,
        "write C21 T1 00000000-0000-4000-8000-000000000009 65 r:222:93\n",
    ),
    (0, "sync C56 T2\n"),
    (
        0,
        "write C12 T2 00000000-0000-4000-8000-00000000001f 406 r:25:ce\n",
    ),
    (0, "sync C3 T1\n"),
    (0, "pull C34 T2\n"),
    (0, "sync C29 T2\n"),
    (
        0,
        "write C42 T1 00000000-0000-4000-8000-000000000011 745 r:315:bd\n",
    ),
    (
        0,
        "write C37 T1 00000000-0000-4000-8000-000000000019 885 r:204:56\n",
    ),
    (0, "sync C48 T3\n"),
];

const SEVEN: [(u64, &str); 14] = [
    (
        0,
        "write C31 T3 00000000-0000-4000-8000-000000000012 545 r:395:e8\n",
    ),
    (0, "pull C21 T2\n"),
    (0, "sync C52 T3\n"),
    (
        1000,
        "write C62 T1 00000000-0000-4000-8000-00000000000d 936 r:376:36\n",
    ),
    (
        1,
        "write C51 T3 00000000-0000-4000-8000-000000000011 945 r:105:70\n",
    ),
    (10, "pull C41 T2\n"),
    (10, "deliver 2\n"),
    (
        3,
        "hold C41
write C41 T2 00000000-0000-4000-8000-000000000018 10 r:449:e8\ncrash C41 4 0\nstart C41\ndo C41\nfree C41\n",
    ),
    (0, "sync C19 T1\n"),
    (
        1,
        "write C14 T3 00000000-0000-4000-8000-00000000001b 808 r:264:b2\n",
    ),
    (
        4294967296,
        "write C44 T2 00000000-0000-4000-8000-000000000006 660 r:494:89\n",
    ),
    (
        4294967296,
        "hold C21
write C21 T3 00000000-0000-4000-8000-000000000019 921 r:182:46\ncrash C21 3 0\nstart C21\ndo C21\nfree C21\n",
    ),
    (
        1000,
        "write C14 T1 00000000-0000-4000-8000-000000000016 734 r:372:ef\n",
    ),
    (
        18446744073709551615,
        "hold S1\ndeliver 1570150867\ncrash S1 4 1\nstart S1\ndo S1\nfree S1\n",
    ),
];

const GREATEST: [(u64, &str); 14] = [
    (
        3,
        "write C41 T3 00000000-0000-4000-8000-000000000016 864 r:59:d5\n",
    ),
    (
        1,
        "write C24 T2 00000000-0000-4000-8000-00000000001d 162 r:158:5a\n",
    ),
    (
        1000,
        "write C47 T2 00000000-0000-4000-8000-00000000001a 178 r:36:f1\n",
    ),
    (18446744073709551615, "deliver 253834437\n"),
    (0, "pull C62 T3\n"),
    (
        0,
        "write C51 T3 00000000-0000-4000-8000-000000000019 484 r:85:5a\n",
    ),
    (18446744073709551615, "sync C5 T2\n"),
    (
        10,
        "write C20 T3 00000000-0000-4000-8000-00000000000b 731 r:23:d1\n",
    ),
    (
        3,
        "write C58 T3 00000000-0000-4000-8000-000000000007 846 r:119:09\n",
    ),
    (
        3,
        "write C8 T1 00000000-0000-4000-8000-000000000005 887 r:226:26\n",
    ),
    (
        18446744073709551615,
        "hold C64
write C64 T3 00000000-0000-4000-8000-00000000000c 794 r:10:06\ncrash C64 3 0\nstart C64\ndo C64\nfree C64\n",
    ),
    (
        18446744073709551615,
        "hold C48
write C48 T1 00000000-0000-4000-8000-00000000001a 948 r:395:b7\ncrash C48 3 0\nstart C48\ndo C48\nfree C48\n",
    ),
    (4294967296, "sync C32 T2\n"),
    (
        1,
        "write C41 T1 00000000-0000-4000-8000-000000000016 498 r:90:89\n",
    ),
];

/// A number, how many lines its script has where three packets more are sent before each round, and how many bytes.
const WHOLE: [(u64, usize, usize); 3] = [
    (0, 8175, 201967),
    (7, 8170, 208020),
    (18446744073709551615, 7745, 200670),
];

/// The lines, each with a newline.
fn text_of(alloc: Global, lines: &[Bytes]) -> Result<Vec<u8>, AllocError> {
    let mut text = Vec::new(alloc);
    for line in lines {
        text.extend_from_slice(line.as_slice())?;
        text.push(b'\n')?;
    }
    Ok(text)
}

fn next_text(alloc: Global, load: &mut Load, sent: u64) -> Result<Option<Vec<u8>>, AllocError> {
    match load.next(alloc, sent)? {
        Some(lines) => Ok(Some(text_of(alloc, lines.as_slice())?)),
        None => Ok(None),
    }
}

#[test]
fn a_script_begins_with_its_declarations(rt: HostRuntime) -> Result<(), Fail> {
    let mut load = Load::new(7);
    let lines = load.next(rt.alloc(), 0)?.unwrap_or(Vec::new(rt.alloc()));
    assert_eq!(rt; lines.len(), DECLARED.len());
    for (line, declared) in lines.iter().zip(DECLARED) {
        assert!(rt; line.as_slice() == declared.as_bytes(), "{declared}");
    }
    Ok(())
}

fn check(rt: &impl Abort, alloc: Global, number: u64, rounds: &[(u64, &str)]) -> Result<(), Fail> {
    let mut load = Load::new(number);
    load.next(alloc, 0)?;
    for (sent, lines) in rounds {
        let text = next_text(alloc, &mut load, *sent)?;
        assert!(rt; text.as_deref() == Some(lines.as_bytes()), "{sent} {lines}");
    }
    Ok(())
}

#[test]
fn rounds_are_drawn_from_the_number(rt: HostRuntime) -> Result<(), Fail> {
    check(&rt, rt.alloc(), 0, &ZERO)?;
    check(&rt, rt.alloc(), 7, &SEVEN)?;
    check(&rt, rt.alloc(), 18446744073709551615, &GREATEST)
}

#[test]
fn nothing_is_delivered_before_a_packet_was_sent(rt: HostRuntime) -> Result<(), Fail> {
    check(&rt, rt.alloc(), 0, &UNSENT)
}

/// How many groups, lines and bytes a script has where three packets more are sent before each round.
fn sizes(alloc: Global, number: u64) -> Result<(usize, usize, usize), AllocError> {
    let mut load = Load::new(number);
    let (mut groups, mut lines, mut bytes) = (0usize, 0usize, 0usize);
    for group in 0..5000u64 {
        let sent = if group == 0 { 0 } else { 3 * (group - 1) };
        let Some(made) = load.next(alloc, sent)? else {
            break;
        };
        groups = groups.saturating_add(1);
        lines = lines.saturating_add(made.len());
        bytes = bytes.saturating_add(text_of(alloc, made.as_slice())?.len());
    }
    Ok((groups, lines, bytes))
}

#[test]
fn a_script_has_4000_rounds(rt: HostRuntime) -> Result<(), Fail> {
    for (number, lines, bytes) in WHOLE {
        assert_eq!(rt; sizes(rt.alloc(), number)?, (4002, lines, bytes));
    }
    Ok(())
}

#[test]
fn a_script_ends_with_settle(rt: HostRuntime) -> Result<(), Fail> {
    let mut load = Load::new(7);
    for _ in 0..4001 {
        load.next(rt.alloc(), 0)?;
    }
    let last = next_text(rt.alloc(), &mut load, 0)?;
    assert!(rt; last.as_deref() == Some(b"settle\n".as_slice()));
    assert!(rt; load.next(rt.alloc(), 0)?.is_none());
    assert!(rt; load.next(rt.alloc(), 9)?.is_none());
    Ok(())
}
