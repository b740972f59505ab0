ghost use Rattle.std.specs.Prelude.{◌≡◌, length, IfOk};
ghost use Rattle.run_report.specs.Rows.{rows_in, last_version, table_report};

use row_value::Scheme;
use stab_base::{Bytes, TableNo, Version};
use std::alloc::{AllocError, Global};
use std::collections::BTreeSet;
use table_model::Entry;

/// What is told of a table.
#[derive(Debug, Drop)]
pub struct TableReport {
    /// Its number.
    pub table: TableNo,
    /// Its name.
    pub name: Bytes,
    /// How it keeps its rows consistent.
    pub scheme: Scheme,
    /// How many different rows its history has.
    pub rows: u64,
    /// The version of its history's last entry, 0 where there is none.
    pub version: Version,
}

/// How many different rows a history has.
fn row_count(alloc: Global, history: &[Entry]) -> Result<u64, AllocError>
    ensures { IfOk result (λ count. count ≡ length (rows_in history.now)) }
{
    let mut rows = BTreeSet::new(alloc);
    for entry in history {
        rows.insert(entry.row)?;
    }
    Ok(rows.len() as u64)
}

/// The version of a history's last entry, 0 where there is none.
fn last_version(history: &[Entry]) -> Version
    ensures { result ≡ last_version history.now }
{
    match history.last() {
        Some(entry) => entry.version,
        None => 0,
    }
}

impl TableReport {
    /// What is told of a table with this history.
    pub fn new(
        alloc: Global,
        table: TableNo,
        name: &[u8],
        scheme: Scheme,
        history: &[Entry],
    ) -> Result<Self, AllocError>
        ensures { IfOk result (λ made. made ≡ table_report table name.now scheme history.now) }
    {
        Ok(TableReport {
            table,
            name: Bytes::from_slice(alloc, name)?,
            scheme,
            rows: row_count(alloc, history)?,
            version: last_version(history),
        })
    }
}
