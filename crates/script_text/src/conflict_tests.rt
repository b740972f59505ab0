use crate::parse_line;
use crate::tests::{CLIENT, ROW, SECOND, STORE, behind, check, judged};
use conflicts::{Choice, Stored};
use row_value::{Cell, Content};
use std::test::Fail;
use table_model::Event;

const TABLE: &str = "table T1 notes causal 64 n:int o:object";

const OF_CONFLICTS: [(&str, u32, usize); 24] = [
    ("begin_cr", 2, 1),
    ("begin_cr C2 T3", 8, 1),
    ("begin_cr T1 C1", 5, 1),
    ("begin_cr C1", 2, 2),
    ("begin_cr C1 T3", 8, 2),
    ("begin_cr C1 T2 T1", 3, 3),
    ("begin_cr C1 T2", 0, 0),
    ("begin C1 T2", 1, 0),
    ("conflicts", 2, 1),
    ("conflicts C65 T1", 8, 1),
    ("conflicts C1 C1", 5, 2),
    ("conflicts C1 T1 x", 3, 3),
    ("conflicts C1 T1", 0, 0),
    ("conflict C1 T1", 1, 0),
    ("end_cr", 2, 1),
    ("end_cr C2", 8, 1),
    ("end_cr C1 T65", 8, 2),
    ("end_cr C1 T2 x", 3, 3),
    ("end_cr C1 T2", 0, 0),
    ("resolve", 2, 1),
    ("resolve C2", 8, 1),
    ("resolve C1 T3 x", 8, 2),
    ("resolve C1 T1", 2, 3),
    ("resolve C1 T1 x y z", 6, 3),
];

#[test]
fn refusals_of_conflicts(rt: HostRuntime) -> Result<(), Fail> {
    let names = behind(rt.alloc(), &[STORE, TABLE, SECOND, CLIENT])?;
    check(&rt, rt.alloc(), &names, &OF_CONFLICTS)
}

// What stands behind a row, the code of its fault and its place.
const OF_CHOICES: [(&str, u32, usize); 28] = [
    ("", 2, 4),
    (" x", 4, 4),
    (" 01 mine", 4, 4),
    (" -1", 4, 4),
    (" 18446744073709551616 mine", 4, 4),
    (" 18446744073709551615 mine", 0, 0),
    (" 0", 2, 5),
    (" 0 ours", 5, 5),
    (" 0 Mine x", 5, 5),
    (" 0 larger n", 5, 5),
    (" 0 gone", 5, 5),
    (" 0 mine", 0, 0),
    (" 0 mine 5", 3, 6),
    (" 0 theirs", 0, 0),
    (" 0 theirs theirs", 3, 6),
    (" 0 new", 2, 6),
    (" 0 new gone", 0, 0),
    (" 0 new gone gone", 3, 7),
    (" 0 new gone x", 3, 7),
    (" 0 new 5", 0, 0),
    (" 0 new 5 gone", 7, 7),
    (" 0 new Gone", 7, 6),
    (" 0 new 05", 7, 6),
    (" 0 new 5 x", 7, 7),
    (" 0 new 5 h:00 h:aB", 0, 0),
    (" 0 new h:00 5", 7, 7),
    (" 0 new t:gone", 0, 0),
    (" 0 new 5 5 5 5 5 5", 0, 0),
];

#[test]
fn refusals_of_choices(rt: HostRuntime) -> Result<(), Fail> {
    let alloc = rt.alloc();
    let names = behind(alloc, &[STORE, TABLE, SECOND, CLIENT])?;
    for (choice, code, word) in OF_CHOICES {
        let line = format!(in alloc; "resolve C1 T1 00000000-0000-4000-8000-00000000000a{choice}")?;
        assert_eq!(rt;
            judged(alloc, line.as_bytes(), &names)?,
            (code, word),
            "{choice}"
        );
    }
    Ok(())
}

// What stands behind the client, the code of its fault and its place.
const OF_RULES: [(&str, u32, usize); 24] = [
    ("", 2, 2),
    (" T3 x", 8, 2),
    (" C1 mine", 5, 2),
    (" T1", 2, 3),
    (" T1 ours", 5, 3),
    (" T1 Mine", 5, 3),
    (" T1 new 5", 5, 3),
    (" T1 largest n", 5, 3),
    (" T1 mine", 0, 0),
    (" T1 mine mine", 3, 4),
    (" T1 theirs", 0, 0),
    (" T1 theirs n", 3, 4),
    (" T1 larger", 2, 4),
    (" T1 larger n", 0, 0),
    (" T1 larger o", 0, 0),
    (" T1 larger n n", 3, 5),
    (" T1 larger x", 8, 4),
    (" T1 larger x x", 8, 4),
    (" T1 larger 0", 5, 4),
    (" T1 larger N", 5, 4),
    (" T1 larger n=1", 5, 4),
    (" T2 larger n", 0, 0),
    (" T2 larger o", 8, 4),
    (" T2 00000000-0000-4000-8000-00000000000a mine", 5, 3),
];

#[test]
fn refusals_of_rules(rt: HostRuntime) -> Result<(), Fail> {
    let alloc = rt.alloc();
    let names = behind(alloc, &[STORE, TABLE, SECOND, CLIENT])?;
    check(
        &rt,
        alloc,
        &names,
        &[("resolve_all", 2, 1), ("resolve_all C2 T1 mine", 8, 1)],
    )?;
    for (rule, code, word) in OF_RULES {
        let line = format!(in alloc; "resolve_all C1{rule}")?;
        assert_eq!(rt;
            judged(alloc, line.as_bytes(), &names)?,
            (code, word),
            "{rule}"
        );
    }
    Ok(())
}

const LINES: [&str; 11] = [
    "begin_cr C1 T2",
    "conflicts C1 T2",
    "end_cr C1 T2",
    "resolve C1 T1 00000000-0000-4000-8000-00000000000A 0 mine",
    "resolve C1 T1 00000000-0000-4000-8000-00000000000A 1 theirs",
    "resolve C1 T1 00000000-0000-4000-8000-00000000000A 2 new -7 h:aB",
    "resolve C1 T1 00000000-0000-4000-8000-00000000000A 18446744073709551615 new gone",
    "resolve_all C1 T1 mine",
    "resolve_all C1 T2 theirs",
    "resolve_all C1 T1 larger n",
    "resolve_all C1 T1 larger o",
];

// Whether this is the content of the sixth line.
fn is_new(content: &Content) -> bool {
    match content {
        Content::Row { cells, objects } => match (cells.as_slice(), objects.as_slice()) {
            ([Cell::Int(-7)], [object]) => object.as_slice() == b"\xab".as_slice(),
            _ => false,
        },
        Content::Gone => false,
    }
}

// Whether the choice is the one that the line spells, and the version is the one that it names.
fn is_choice(index: usize, seen: u64, choice: &Choice) -> bool {
    match (index, seen, choice) {
        (3, 0, Choice::Mine) => true,
        (4, 1, Choice::Theirs) => true,
        (5, 2, Choice::New(content)) => is_new(content),
        (6, 18446744073709551615, Choice::New(Content::Gone)) => true,
        _ => false,
    }
}

// Whether the rule is the one that the line spells, of the table that it names.
fn is_rule(index: usize, table: u32, by: Stored) -> bool {
    match (index, table, by) {
        (7, 1, Stored::Mine) => true,
        (8, 2, Stored::Theirs) => true,
        (9, 1, Stored::Larger { column: 0 }) => true,
        (10, 1, Stored::Larger { column: 1 }) => true,
        _ => false,
    }
}

// Whether the event is the one that the line spells.
fn is_due(index: usize, event: &Event) -> bool {
    match event {
        Event::BeginCr {
            client: 1,
            table: 2,
        } => index == 0,
        Event::Conflicts {
            client: 1,
            table: 2,
        } => index == 1,
        Event::EndCr {
            client: 1,
            table: 2,
        } => index == 2,
        Event::Resolve {
            client: 1,
            table: 1,
            row,
            seen,
            choice,
        } => row.to_bytes() == ROW && is_choice(index, *seen, choice),
        Event::ResolveAll {
            client: 1,
            table,
            by,
        } => is_rule(index, *table, *by),
        _ => false,
    }
}

#[test]
fn lines_say_how_conflicts_are_resolved(rt: HostRuntime) -> Result<(), Fail> {
    let alloc = rt.alloc();
    let names = behind(alloc, &[STORE, TABLE, SECOND, CLIENT])?;
    for (index, line) in LINES.iter().enumerate() {
        let event = parse_line(alloc, line.as_bytes(), &names)?.ok_or("passed over")?;
        assert!(rt; is_due(index, &event), "{line}");
    }
    Ok(())
}

#[test]
fn conflicts_end_the_declarations(rt: HostRuntime) -> Result<(), Fail> {
    let alloc = rt.alloc();
    for event in [LINES[0], LINES[1], LINES[2], LINES[3], LINES[7]] {
        let names = behind(alloc, &[STORE, TABLE, SECOND, CLIENT, event])?;
        assert_eq!(rt;
            judged(alloc, b"client C2 - -", &names)?,
            (11, 0),
            "{event}"
        );
    }
    Ok(())
}
