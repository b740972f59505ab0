ghost use Rattle.std.specs.Prelude.{◌≡◌, [], ◌∷◌, ◌++◌, ℕ, List, IfOk, Some, map, string_bytes};
ghost use Rattle.std.specs.Str.{IsUtf8};
ghost use Rattle.serde_json.specs.Read.{read};
ghost use Rattle.serde_json.specs.View.{view};
ghost use Rattle.run_report.specs.Text.{scheme_word, report_line, report_text, AreNamed};
ghost use Rattle.run_report.specs.Meaning.{table_data, report_data};

use crate::table::TableReport;
use row_value::Scheme;
use serde_json::{Value, json};
use stab_base::{Bytes, Sequence};
use std::alloc::{AllocError, Global};

/// What is told of a run.
#[derive(Debug, Drop)]
pub struct Report {
    /// How many lines its transcript has.
    pub lines: u64,
    /// Its tables, by rising number.
    pub tables: Sequence<TableReport>,
}

fn scheme_word(scheme: Scheme) -> &'static str
    ensures { result.now ≡ scheme_word scheme }
{
    match scheme {
        Scheme::Strong => "strong",
        Scheme::Causal => "causal",
        Scheme::Eventual => "eventual",
    }
}

fn name_text(name: &Bytes) -> &str
    requires { IsUtf8 name.now }
    ensures { result.now ≡ name.now }
{
    match str::from_utf8(name.as_slice()) {
        Ok(text) => text,
        Err(_) => unreachable!(),
    }
}

fn table_value(alloc: Global, table: &TableReport) -> Result<Value, AllocError>
    requires { IsUtf8 table.now.name }
    ensures { IfOk result (λ value. view value ≡ table_data table.now) }
{
    json!(in alloc; {
        "name": name_text(&table.name),
        "rows": table.rows,
        "scheme": scheme_word(table.scheme),
        "table": table.table,
        "version": table.version
    })
}

fn table_values(alloc: Global, tables: &[TableReport]) -> Result<Vec<Value>, AllocError>
    requires { AreNamed tables.now }
    ensures { IfOk result (λ values. map view values.items ≡ map table_data tables.now) }
{
    let mut values = Vec::new(alloc);
    for table in tables {
        values.push(table_value(alloc, table)?)?;
    }
    Ok(values)
}

fn report_value(alloc: Global, report: &Report) -> Result<Value, AllocError>
    requires { AreNamed report.now.tables }
    ensures { IfOk result (λ value. view value ≡ report_data report.now) }
{
    let tables = table_values(alloc, report.tables.as_slice())?;
    json!(in alloc; {"lines": report.lines, "tables": tables})
}

fn report_line(alloc: Global, report: &Report) -> Result<String, AllocError>
    requires { AreNamed report.now.tables }
    ensures line { IfOk result (λ text. string_bytes text ≡ report_line report.now) }
    ensures meaning { IfOk result (λ text. read (string_bytes text) ≡ Some (report_data report.now)) }
{
    report_value(alloc, report)?.to_string(alloc)
}

impl Report {
    /// The report as one JSON object in compact form (RFC 8259), and a newline. The tables stand in the order of the
    /// list.
    pub fn text(&self, alloc: Global) -> Result<String, AllocError>
        requires { AreNamed self.now.tables }
        ensures text { IfOk result (λ text. string_bytes text ≡ report_text self.now) }
        ensures meaning { IfOk result (λ text. (line : List ℕ) × (string_bytes text ≡ line ++ 10 ∷ [])
            × (read line ≡ Some (report_data self.now))) }
    {
        let mut text = report_line(alloc, self)?;
        text.push('\n')?;
        Ok(text)
    }
}
