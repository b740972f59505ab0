//! The report of a run.
ghost use Rattle.std.specs.Prelude.{◌≡◌, ◌++◌, ℕ, Bool, IfOk, OnOk, IfSome, option_to_list};
ghost use Rattle.std.specs.Str.{IsUtf8};
ghost use Rattle.std.specs.String.{string_bytes};
ghost use Rattle.world_tables.specs.World.{World as AWorld, hosted_at, schema_at};
ghost use Rattle.node_steps.specs.Holds.{IsWorld};
ghost use Rattle.node_steps.specs.Holds as nodes;
ghost use Rattle.run_report.specs.Text.{report_text, AreNamed};
ghost use Rattle.simba_top.specs.Outputs.{history_in, table_told, tables_told};

use crate::turn::Run;
use disk_trait::Disk;
use run_report::{Report, TableReport};
use stab_base::{Sequence, TableNo};
use std::alloc::AllocError;
use table_model::Entry;

// The last number of a table.
const LAST_TABLE: u32 = 64;

fn add(tables: &mut Sequence<TableReport>, found: Option<TableReport>) -> Result<(), AllocError>
    requires tables { AreNamed tables.old }
    requires found { IfSome found (λ report. IsUtf8 report.name) }
    ensures told { OnOk result (tables.new ≡ tables.old ++ option_to_list found) }
    ensures named { OnOk result (AreNamed tables.new) }
{
    if let Some(report) = found {
        tables.push(report)?;
    }
    Ok(())
}

impl<D: Disk + Drop> Run<D> {
    // What a table has told.
    fn entries(&self, table: TableNo) -> &[Entry]
        ensures { (w : AWorld) → nodes.Holds D.state w self.now.world.wire.nodes
            → result.now ≡ history_in (hosted_at w table) }
    {
        match self.world.entries(table) {
            Some(history) => history.as_slice(),
            None => &[],
        }
    }

    // What is told of a table, if it is declared.
    fn table_report(&self, table: TableNo) -> Result<Option<TableReport>, AllocError>
        requires { (is_out : ℕ → Bool) × IsWorld D.state is_out self.now.world.wire.nodes }
        ensures told { (w : AWorld) → nodes.Holds D.state w self.now.world.wire.nodes
            → IfOk result (λ found. found ≡ table_told table (history_in (hosted_at w table)) (schema_at w table)) }
        ensures named { IfOk result (λ found. IfSome found (λ report. IsUtf8 report.name)) }
    {
        let Some(schema) = self.world.schema(table) else {
            return Ok(None);
        };
        let report = TableReport::new(
            self.alloc,
            table,
            schema.name.as_slice(),
            schema.scheme,
            self.entries(table),
        )?;
        Ok(Some(report))
    }

    // What is told of the declared tables.
    fn table_reports(&self) -> Result<Sequence<TableReport>, AllocError>
        requires { (is_out : ℕ → Bool) × IsWorld D.state is_out self.now.world.wire.nodes }
        ensures told { (w : AWorld) → nodes.Holds D.state w self.now.world.wire.nodes
            → IfOk result (λ tables. tables ≡ tables_told w (λ table. history_in (hosted_at w table))) }
        ensures named { IfOk result AreNamed }
    {
        let mut tables = Sequence::new(self.alloc);
        for table in 1..=LAST_TABLE {
            add(&mut tables, self.table_report(table)?)?;
        }
        Ok(tables)
    }

    /// The report of the run so far.
    pub(crate) fn report(&self) -> Result<String, AllocError>
        requires { (is_out : ℕ → Bool) × IsWorld D.state is_out self.now.world.wire.nodes }
        ensures { (w : AWorld) → nodes.Holds D.state w self.now.world.wire.nodes
            → IfOk result (λ text. string_bytes text ≡ report_text (record {
              lines = self.now.told;
              tables = tables_told w (λ table. history_in (hosted_at w table));
            })) }
    {
        let report = Report {
            lines: self.told,
            tables: self.table_reports()?,
        };
        report.text(self.alloc)
    }
}
