ghost use Rattle.std.specs.Prelude.{IfOk, OnOk};
ghost use Rattle.std.specs.Str.{IsUtf8};
ghost use Rattle.run_report.specs.Text.{AreNamed};

use super::*;
use row_value::Scheme;
use stab_base::{Bytes, RowId, Sequence, TableNo, Version};
use std::alloc::{AllocError, Global};
use std::test::Fail;
use table_model::Entry;

fn table(
    alloc: Global,
    table: TableNo,
    name: &str,
    scheme: Scheme,
    rows: u64,
    version: Version,
) -> Result<TableReport, AllocError>
    ensures { IfOk result (λ made. IsUtf8 made.name) }
{
    Ok(TableReport {
        table,
        name: Bytes::from_slice(alloc, name.as_bytes())?,
        scheme,
        rows,
        version,
    })
}

/// Whether the report of these tables is this text.
fn is_text(
    alloc: Global,
    lines: u64,
    tables: Vec<TableReport>,
    text: &str,
) -> Result<bool, AllocError>
    requires { AreNamed tables.items }
{
    let report = Report {
        lines,
        tables: Sequence::from_vec(tables),
    };
    Ok(report.text(alloc)?.as_str() == text)
}

fn is_text_of_one(
    alloc: Global,
    lines: u64,
    one: TableReport,
    text: &str,
) -> Result<bool, AllocError>
    requires { IsUtf8 one.name }
{
    let mut tables = Vec::new(alloc);
    tables.push(one)?;
    is_text(alloc, lines, tables, text)
}

#[test]
fn a_run_without_tables(rt: HostRuntime) -> Result<(), Fail> {
    let alloc = rt.alloc();
    assert!(rt; is_text(alloc, 0, Vec::new(alloc), "{\"lines\":0,\"tables\":[]}\n")?);
    Ok(())
}

#[test]
fn one_table(rt: HostRuntime) -> Result<(), Fail> {
    let alloc = rt.alloc();
    let notes = table(alloc, 1, "notes", Scheme::Causal, 1, 3)?;
    assert!(rt;
        is_text_of_one(
            alloc,
            12,
            notes,
            "{\"lines\":12,\"tables\":[{\"name\":\"notes\",\
\"rows\":1,\"scheme\":\"causal\",\"table\":1,\"version\":3}]}\n",
        )?
    );
    Ok(())
}

#[test]
fn a_name_of_64_characters(rt: HostRuntime) -> Result<(), Fail> {
    let alloc = rt.alloc();
    let long = table(
        alloc,
        1,
        "nnnnnnnnnnnnnnnnnnnnnnnnnnnnnnnnnnnnnnnnnnnnnnnnnnnnnnnnnnnnnnnn",
        Scheme::Causal,
        0,
        0,
    )?;
    assert!(rt;
        is_text_of_one(
            alloc,
            1,
            long,
            "{\"lines\":1,\"tables\":[{\"name\":\"nnnnnnnnnnnnnnnnnnnnnnnnnnnnnnnnnnnnnnnnnnnnnnnnnnnnnnnnnnnnnnnn\",\
\"rows\":0,\"scheme\":\"causal\",\"table\":1,\"version\":0}]}\n",
        )?
    );
    Ok(())
}

#[test]
fn the_greatest_numbers(rt: HostRuntime) -> Result<(), Fail> {
    let alloc = rt.alloc();
    let most = table(alloc, u32::MAX, "max", Scheme::Strong, u64::MAX, u64::MAX)?;
    assert!(rt;
        is_text_of_one(
            alloc,
            u64::MAX,
            most,
            "{\"lines\":18446744073709551615,\"tables\":[{\"name\":\"max\",\"rows\":18446744073709551615,\
\"scheme\":\"strong\",\"table\":4294967295,\"version\":18446744073709551615}]}\n",
        )?
    );
    Ok(())
}

#[test]
fn three_tables_of_three_schemes(rt: HostRuntime) -> Result<(), Fail> {
    let alloc = rt.alloc();
    let mut tables = Vec::new(alloc);
    tables.push(table(alloc, 1, "a", Scheme::Strong, 0, 0)?)?;
    tables.push(table(alloc, 2, "b-2", Scheme::Causal, 3, 7)?)?;
    tables.push(table(alloc, 64, "c_3", Scheme::Eventual, 1, 1)?)?;
    assert!(rt;
        is_text(
            alloc,
            40,
            tables,
            "{\"lines\":40,\"tables\":[{\"name\":\"a\",\"rows\":0,\"scheme\":\"strong\",\"table\":1,\"version\":0},\
{\"name\":\"b-2\",\"rows\":3,\"scheme\":\"causal\",\"table\":2,\"version\":7},\
{\"name\":\"c_3\",\"rows\":1,\"scheme\":\"eventual\",\"table\":64,\"version\":1}]}\n",
        )?
    );
    Ok(())
}

fn entry(row: u8, version: Version) -> Entry {
    Entry {
        row: RowId::from_bytes([row; 16]),
        version,
        client: 1,
        number: version,
        base: 0,
    }
}

/// The rows and the version that are told of a history.
fn told(alloc: Global, history: &[Entry]) -> Result<(u64, Version), AllocError> {
    let made = TableReport::new(alloc, 5, b"t", Scheme::Eventual, history)?;
    Ok((made.rows, made.version))
}

#[test]
fn rows_are_counted_once(rt: HostRuntime) -> Result<(), Fail> {
    let alloc = rt.alloc();
    assert_eq!(rt; told(alloc, &[])?, (0, 0));
    assert_eq!(rt; told(alloc, &[entry(7, 1)])?, (1, 1));
    let repeats = [
        entry(7, 1),
        entry(3, 2),
        entry(7, 3),
        entry(9, 4),
        entry(3, 5),
        entry(7, 6),
    ];
    assert_eq!(rt; told(alloc, &repeats)?, (3, 6));
    Ok(())
}

#[test]
fn a_table_is_told_with_its_name(rt: HostRuntime) -> Result<(), Fail> {
    let made = TableReport::new(rt.alloc(), 5, b"todo", Scheme::Eventual, &[entry(1, 1)])?;
    assert_eq!(rt; made.table, 5);
    assert_eq!(rt; made.name.as_slice(), b"todo".as_slice());
    assert!(rt; made.scheme == Scheme::Eventual);
    Ok(())
}
