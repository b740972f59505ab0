use crate::parse_line;
use crate::tests::{CLIENT, ROW, SECOND, STORE, behind, check, judged};
use row_edits::{Edit, Value};
use row_value::Cell;
use std::test::Fail;
use table_model::Event;

const TABLE: &str = "table T1 notes eventual 64 n:int t:text o:object p:object";

const OF_EDITS: [(&str, u32, usize); 47] = [
    ("update", 2, 1),
    ("update C2 T1 x", 8, 1),
    ("update T1 C1", 5, 1),
    ("Update C1 T1", 1, 0),
    ("updates C1 T1", 1, 0),
    ("update C1 x", 5, 2),
    ("update C1 T3 x", 8, 2),
    ("update C1 T1 x", 6, 3),
    ("update C1 T1 00000000-0000-4000-8000-00000000000a", 2, 4),
    ("update C1 T1 00000000-0000-4000-8000-00000000000a n", 5, 4),
    ("update C1 T1 00000000-0000-4000-8000-00000000000a =5", 5, 4),
    (
        "update C1 T1 00000000-0000-4000-8000-00000000000a N=x",
        5,
        4,
    ),
    (
        "update C1 T1 00000000-0000-4000-8000-00000000000a m=x",
        8,
        4,
    ),
    (
        "update C1 T2 00000000-0000-4000-8000-00000000000a o=h:",
        8,
        4,
    ),
    ("update C1 T1 00000000-0000-4000-8000-00000000000a n=", 7, 4),
    (
        "update C1 T1 00000000-0000-4000-8000-00000000000a n=05",
        7,
        4,
    ),
    (
        "update C1 T1 00000000-0000-4000-8000-00000000000a n=5 m=5",
        8,
        5,
    ),
    (
        "update C1 T1 00000000-0000-4000-8000-00000000000a n=5",
        0,
        0,
    ),
    (
        "update C1 T1 00000000-0000-4000-8000-00000000000a n=h:00",
        0,
        0,
    ),
    (
        "update C1 T1 00000000-0000-4000-8000-00000000000a n=5 n=5",
        0,
        0,
    ),
    (
        "update C1 T1 00000000-0000-4000-8000-00000000000a t=t:a=b",
        0,
        0,
    ),
    ("patch", 2, 1),
    ("patch C2", 8, 1),
    ("patch C1 T1 00000000-0000-4000-8000-00000000000a", 2, 4),
    (
        "patch C1 T1 00000000-0000-4000-8000-00000000000a O x 0",
        5,
        4,
    ),
    (
        "patch C1 T1 00000000-0000-4000-8000-00000000000a q x 0",
        8,
        4,
    ),
    (
        "patch C1 T1 00000000-0000-4000-8000-00000000000a o 01 0",
        4,
        5,
    ),
    (
        "patch C1 T1 00000000-0000-4000-8000-00000000000a o 4294967296 0",
        4,
        5,
    ),
    ("patch C1 T1 00000000-0000-4000-8000-00000000000a o 0", 2, 6),
    (
        "patch C1 T1 00000000-0000-4000-8000-00000000000a o 0 0",
        7,
        6,
    ),
    (
        "patch C1 T1 00000000-0000-4000-8000-00000000000a o 0 h:00",
        7,
        6,
    ),
    (
        "patch C1 T1 00000000-0000-4000-8000-00000000000a o 0 00 00",
        3,
        7,
    ),
    (
        "patch C1 T1 00000000-0000-4000-8000-00000000000a o 0 00",
        0,
        0,
    ),
    (
        "patch C1 T1 00000000-0000-4000-8000-00000000000a n 4294967295 aB",
        0,
        0,
    ),
    ("delete C65", 8, 1),
    ("delete S1", 5, 1),
    ("delete C1 T1 00000000-0000-4000-8000-00000000000a x", 3, 4),
    ("delete C1 T1 00000000-0000-4000-8000-00000000000a", 0, 0),
    ("link", 2, 1),
    ("link C2 up", 8, 1),
    ("link S1 up", 5, 1),
    ("link C1", 2, 2),
    ("link C1 Up y", 5, 2),
    ("link C1 up y", 3, 3),
    ("link C1 up", 0, 0),
    ("link C1 down", 0, 0),
    ("unlink C1", 1, 0),
];

#[test]
fn refusals_of_edits_and_links(rt: HostRuntime) -> Result<(), Fail> {
    let names = behind(rt.alloc(), &[STORE, TABLE, SECOND, CLIENT])?;
    check(&rt, rt.alloc(), &names, &OF_EDITS)
}

const LINES: [&str; 6] = [
    "update C1 T1 00000000-0000-4000-8000-00000000000A p=h:aB n=-7 t=t:a=b",
    "patch C1 T1 00000000-0000-4000-8000-00000000000A p 4294967295 00fF",
    "patch C1 T1 00000000-0000-4000-8000-00000000000A o 0 07",
    "delete C1 T2 00000000-0000-4000-8000-00000000000A",
    "link C1 up",
    "link C1 down",
];

// Whether these are the columns and the values of the first line.
fn is_updated(edit: &Edit) -> bool {
    let Edit::Update(changes) = edit else {
        return false;
    };
    let [object, number, text] = changes.as_slice() else {
        return false;
    };
    let told = match (&object.value, &number.value, &text.value) {
        (Value::Object(bytes), Value::Cell(Cell::Int(-7)), Value::Cell(Cell::Text(text))) => {
            bytes.as_slice() == b"\xab".as_slice() && text.as_slice() == b"a=b".as_slice()
        }
        _ => false,
    };
    told && object.column == 3 && number.column == 0 && text.column == 1
}

// The column, the place and the bytes of a patch.
fn is_patched(edit: &Edit, column: usize, at: u32, bytes: &[u8]) -> bool {
    match edit {
        Edit::Patch(patch) => {
            patch.column == column && patch.at == at && patch.bytes.as_slice() == bytes
        }
        _ => false,
    }
}

// Whether the edit is the one that the line spells.
fn is_edit(index: usize, edit: &Edit) -> bool {
    match index {
        0 => is_updated(edit),
        1 => is_patched(edit, 3, 4294967295, b"\x00\xff".as_slice()),
        2 => is_patched(edit, 2, 0, b"\x07".as_slice()),
        _ => matches!(edit, Edit::Delete),
    }
}

// Whether the event is the one that the line spells.
fn is_due(index: usize, event: &Event) -> bool {
    match event {
        Event::Edit {
            client,
            table,
            row,
            edit,
        } => {
            let named = *client == 1 && row.to_bytes() == ROW;
            let of_table = if index == 3 { *table == 2 } else { *table == 1 };
            index < 4 && named && of_table && is_edit(index, edit)
        }
        Event::Link {
            client: 1,
            up: true,
        } => index == 4,
        Event::Link {
            client: 1,
            up: false,
        } => index == 5,
        _ => false,
    }
}

#[test]
fn lines_say_how_a_row_and_a_link_change(rt: HostRuntime) -> Result<(), Fail> {
    let alloc = rt.alloc();
    let names = behind(alloc, &[STORE, TABLE, SECOND, CLIENT])?;
    for (index, line) in LINES.iter().enumerate() {
        let event = parse_line(alloc, line.as_bytes(), &names)?.ok_or("passed over")?;
        assert!(rt; is_due(index, &event), "{line}");
    }
    Ok(())
}

#[test]
fn an_edit_and_a_link_end_the_declarations(rt: HostRuntime) -> Result<(), Fail> {
    let alloc = rt.alloc();
    for event in [LINES[0], LINES[3], LINES[5]] {
        let names = behind(alloc, &[STORE, TABLE, SECOND, CLIENT, event])?;
        assert_eq!(rt;
            judged(alloc, b"client C2 - -", &names)?,
            (11, 0),
            "{event}"
        );
    }
    Ok(())
}
