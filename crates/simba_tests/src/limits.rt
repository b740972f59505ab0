//! Each limit on what a script declares and names, at its value and one above.
use crate::runs::{ends, limited, texts};
use simba_top::MOST_ROWS;
use std::alloc::Global;
use std::test::Fail;

// So many tables and clients.
fn declared(alloc: Global, tables: u32, clients: u32) -> Result<Vec<u8>, Fail> {
    let mut script = texts(alloc, &["store S1\n"])?;
    for n in 1..=tables {
        let line = format!(in alloc; "table T{n} t{n} eventual 64 n:int\n")?;
        script.extend_from_slice(line.as_bytes())?;
    }
    for n in 1..=clients {
        let line = format!(in alloc; "client C{n} - T1,T{tables}\n")?;
        script.extend_from_slice(line.as_bytes())?;
    }
    Ok(script)
}

#[test]
fn most_tables_and_clients(rt: HostRuntime) -> Result<(), Fail> {
    let mut script = declared(rt.alloc(), 64, 64)?;
    script.extend_from_slice(b"sync C64 T64\n")?;
    limited(&rt, rt.alloc(), script, 0, "ok 0\n")?;
    let tables = declared(rt.alloc(), 65, 0)?;
    limited(&rt, rt.alloc(), tables, 7, "stop 7 66 4\n")?;
    let clients = declared(rt.alloc(), 64, 65)?;
    limited(&rt, rt.alloc(), clients, 7, "stop 7 130 5\n")
}

// So many gateways, with a client each.
fn gated(alloc: Global, gates: u32) -> Result<Vec<u8>, Fail> {
    let mut script = Vec::new(alloc);
    for n in 1..=gates {
        let line = format!(in alloc; "gate G{n}\nclient C{n} G{n} -\n")?;
        script.extend_from_slice(line.as_bytes())?;
    }
    Ok(script)
}

#[test]
fn most_gateways(rt: HostRuntime) -> Result<(), Fail> {
    let mut script = gated(rt.alloc(), 16)?;
    script.extend_from_slice(b"link C16 up\n")?;
    limited(
        &rt,
        rt.alloc(),
        script,
        0,
        "ok\nsent 0 C16 G16 registerDevice\n",
    )?;
    limited(&rt, rt.alloc(), gated(rt.alloc(), 17)?, 7, "stop 7 33 6\n")?;
    let script = texts(rt.alloc(), &["client C1 G17 T1\n"])?;
    limited(&rt, rt.alloc(), script, 3, "stop 3 1 8\n")
}

// A table of so many columns, and a write of as many numbers.
fn wide(alloc: Global, columns: u32) -> Result<Vec<u8>, Fail> {
    let mut script = texts(alloc, &["store S1\ntable T1 notes eventual 64"])?;
    for n in 1..=columns {
        let column = format!(in alloc; " c{n}:int")?;
        script.extend_from_slice(column.as_bytes())?;
    }
    script.extend_from_slice(
        b"\nclient C1 - T1\nwrite C1 T1 00000000-0000-4000-8000-000000000001",
    )?;
    for _ in 0..columns {
        script.extend_from_slice(b" 1")?;
    }
    script.push(b'\n')?;
    Ok(script)
}

#[test]
fn most_columns(rt: HostRuntime) -> Result<(), Fail> {
    let (status, _) = ends(rt.alloc(), "run", wide(rt.alloc(), 32)?, &[], &[])?;
    assert_eq!(rt; status, 0);
    limited(&rt, rt.alloc(), wide(rt.alloc(), 33)?, 7, "stop 7 2 8\n")
}

// As many rows as a script may name in a table, the first of them twice.
fn crowded(alloc: Global) -> Result<Vec<u8>, Fail> {
    let mut script = texts(
        alloc,
        &["store S1\ntable T1 notes eventual 64 n:int\nclient C1 - T1\n"],
    )?;
    for n in 1_000_000..1_000_000 + MOST_ROWS {
        let line = format!(in alloc; "show C1 T1 00000000-0000-4000-8000-00000{n}\n")?;
        script.extend_from_slice(line.as_bytes())?;
    }
    script.extend_from_slice(b"show C1 T1 00000000-0000-4000-8000-000001000000\n")?;
    Ok(script)
}

#[test]
fn most_rows(rt: HostRuntime) -> Result<(), Fail> {
    let mut answers = Vec::new(rt.alloc());
    for _ in 0..=MOST_ROWS {
        answers.extend_from_slice(b"no 27\n")?;
    }
    let (status, written) = ends(rt.alloc(), "run", crowded(rt.alloc())?, &[], &[])?;
    assert_eq!(rt; status, 0);
    assert!(rt; written.as_slice() == answers.as_slice());
    let mut more = crowded(rt.alloc())?;
    more.extend_from_slice(b"sshow T1 00000000-0000-4000-8000-000000000001\n")?;
    answers.extend_from_slice(b"stop 7 65541 9\n")?;
    let (status, written) = ends(rt.alloc(), "run", more, &[], &[])?;
    assert_eq!(rt; status, 7);
    assert!(rt; written.as_slice() == answers.as_slice());
    Ok(())
}
