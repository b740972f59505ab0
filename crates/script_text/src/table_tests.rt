use crate::parse_line;
use crate::tests::{CLIENT, SECOND, STORE, behind, check, passed};
use row_value::Scheme;
use stab_base::Node;
use std::alloc::Global;
use std::test::Fail;
use table_model::Event;

const DRAFT: &str = "draft T1 notes causal 64 n:int";

const AT_THE_START: [(&str, u32, usize); 9] = [
    ("draft", 8, 0),
    (DRAFT, 8, 0),
    ("draft x", 8, 0),
    ("Draft", 1, 0),
    ("create", 2, 1),
    ("create C1 T1", 8, 1),
    ("create T1 C1", 5, 1),
    ("drop", 2, 1),
    ("drops C1 T1", 1, 0),
];

#[test]
fn refusals_without_a_store(rt: HostRuntime) -> Result<(), Fail> {
    let names = behind(rt.alloc(), &[])?;
    check(&rt, rt.alloc(), &names, &AT_THE_START)
}

const BEHIND_A_STORE: [(&str, u32, usize); 16] = [
    (DRAFT, 0, 0),
    ("draft T64 notes strong 1024 n:int t:text o:object", 0, 0),
    ("draft", 2, 1),
    ("draft T1", 2, 2),
    ("draft T1 notes", 2, 3),
    ("draft T1 notes causal", 2, 4),
    ("draft T1 notes causal 64", 2, 5),
    ("draft t1 notes causal 64 n:int", 5, 1),
    ("draft T65 Notes causal 64 n:int", 5, 2),
    ("draft T1 notes live 64 n:int", 5, 3),
    ("draft T1 notes causal 65 n:int", 4, 4),
    ("draft T1 notes causal 64 n:float", 5, 5),
    ("draft T1 notes causal 64 o:object n:int", 7, 6),
    ("draft T65 notes causal 64 n:int n:text", 9, 6),
    ("client C1 - T1", 8, 3),
    ("create C1 T1", 8, 1),
];

#[test]
fn a_draft_is_judged_as_a_table_is(rt: HostRuntime) -> Result<(), Fail> {
    let names = behind(rt.alloc(), &[STORE])?;
    check(&rt, rt.alloc(), &names, &BEHIND_A_STORE)
}

const BEHIND_A_DRAFT: [(&str, u32, usize); 19] = [
    (DRAFT, 9, 1),
    ("draft T1 words causal 64 n:int", 9, 1),
    ("table T1 words causal 64 n:int", 9, 1),
    ("draft T2 notes causal 64 n:int", 9, 2),
    ("table T2 notes causal 64 n:int", 9, 2),
    ("draft T2 words causal 64 n:int", 0, 0),
    ("client C2 - T1", 0, 0),
    ("client C2 - T1,T2", 8, 3),
    ("create C1 T1", 0, 0),
    ("create C1", 2, 2),
    ("create C1 T1 T1", 3, 3),
    ("create C2 T1", 8, 1),
    ("create C1 T2", 8, 2),
    ("create C1 t1", 5, 2),
    ("create S1 T1", 5, 1),
    ("drop C1 T1", 0, 0),
    ("drop C1 T65", 8, 2),
    ("drop C1 T1 x", 3, 3),
    ("drop G1 T1", 5, 1),
];

#[test]
fn a_draft_is_a_table_that_is_declared(rt: HostRuntime) -> Result<(), Fail> {
    let names = behind(rt.alloc(), &[STORE, DRAFT, CLIENT])?;
    check(&rt, rt.alloc(), &names, &BEHIND_A_DRAFT)
}

// A `draft` line with so many columns.
fn wide(alloc: Global, table: &str, columns: u32) -> Result<Vec<u8>, Fail> {
    let mut line = String::from_str(alloc, "draft ")?;
    line.push_str(table)?;
    line.push_str(" wide eventual 64")?;
    for column in 0..columns {
        write!(&mut line, " c{column}:int")?;
    }
    Ok(line.into_bytes())
}

#[test]
fn a_draft_has_the_limits_of_a_table(rt: HostRuntime) -> Result<(), Fail> {
    let alloc = rt.alloc();
    let names = behind(alloc, &[STORE])?;
    for (table, columns, limit) in [
        ("T64", 32, 0),
        ("T64", 33, 8),
        ("T65", 32, 4),
        ("T65", 33, 4),
        ("T4294967297", 1, 4),
    ] {
        let line = wide(alloc, table, columns)?;
        assert_eq!(rt; passed(alloc, &line, &names)?, limit, "{table} {columns}");
    }
    Ok(())
}

#[test]
fn a_draft_has_the_schema_of_its_line(rt: HostRuntime) -> Result<(), Fail> {
    let alloc = rt.alloc();
    let names = behind(alloc, &[STORE])?;
    let line = b"draft T9 notes strong 1024 b:int a:object";
    let Some(Event::Draft { table, schema }) = parse_line(alloc, line, &names)? else {
        return Err("no draft".into());
    };
    assert_eq!(rt; table, 9);
    assert_eq!(rt; schema.scheme, Scheme::Strong);
    assert_eq!(rt; schema.chunk, 1024);
    assert!(rt; schema.name.as_slice() == b"notes".as_slice());
    let columns = schema.columns.as_slice();
    assert_eq!(rt; columns.len(), 2);
    assert!(rt; columns[1].name.as_slice() == b"a".as_slice());
    Ok(())
}

// Whether the event is the one that the line spells.
fn is_due(index: usize, event: &Event) -> bool {
    match (index, event) {
        (
            0,
            Event::Create {
                node: Node::Client(1),
                table: 2,
            },
        ) => true,
        (
            1,
            Event::Drop {
                node: Node::Client(64),
                table: 1,
            },
        ) => true,
        _ => false,
    }
}

#[test]
fn clients_make_and_drop_tables(rt: HostRuntime) -> Result<(), Fail> {
    let alloc = rt.alloc();
    let names = behind(alloc, &[STORE, DRAFT, SECOND, CLIENT, "client C64 - -"])?;
    for (index, line) in ["create C1 T2", "drop C64 T1"].iter().enumerate() {
        let event = parse_line(alloc, line.as_bytes(), &names)?.ok_or("passed over")?;
        assert!(rt; is_due(index, &event), "{line}");
    }
    Ok(())
}
