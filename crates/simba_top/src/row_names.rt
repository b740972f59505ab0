//! The rows that a script names, table by table.
ghost use Rattle.std.specs.Prelude.{◌≡◌, ◌≢◌, ◌⊎◌, ◌++◌, ◌∷◌, [], ◌<◌, ◌≤◌, ℕ, List, length, Some, IfOk, IfErr, OnOk};
ghost use Rattle.std.specs.Ordering.{nat_cmp};
ghost use Rattle.std.specs.Cmp.Lexicographic.{slice_cmp};
ghost use Rattle.std.specs.BTreeSet.{insert_key};
ghost use Rattle.table_model.specs.declared.event.Event.{Event as AnEvent};
ghost use Rattle.simba_top.specs.RowNames.{row_in, seen, rows_in, with_row, rows_named, HasRows, FewRows, IsRowCause};

use crate::stop::Stop;
use row_value::{RowId, TableNo};
use std::alloc::Global;
use std::collections::{BTreeMap, BTreeSet};
use table_model::Event;

/// The most different rows that a script may name in one table.
pub const MOST_ROWS: usize = 65_536;

/// The rows that the lines so far have named.
#[derive(Drop)]
pub(crate) struct RowNames {
    tables: BTreeMap<TableNo, BTreeSet<RowId>>,
    alloc: Global,
}

fn row_in(event: &Event) -> Option<(TableNo, &RowId)>
    ensures { seen result ≡ row_in event.now }
{
    match event {
        Event::Write { table, row, .. }
        | Event::Edit { table, row, .. }
        | Event::Show { table, row, .. }
        | Event::Sum { table, row, .. }
        | Event::Resolve { table, row, .. }
        | Event::StoreShow { table, row } => Some((*table, row)),
        Event::Store { .. }
        | Event::Gate { .. }
        | Event::Table { .. }
        | Event::Draft { .. }
        | Event::Client { .. }
        | Event::Link { .. }
        | Event::Create { .. }
        | Event::Drop { .. }
        | Event::Save { .. }
        | Event::Ask { .. }
        | Event::Net(_)
        | Event::Sync { .. }
        | Event::Pull { .. }
        | Event::BeginCr { .. }
        | Event::Conflicts { .. }
        | Event::EndCr { .. }
        | Event::ResolveAll { .. }
        | Event::Deliver { .. }
        | Event::History { .. }
        | Event::Chunks { .. }
        | Event::Hold { .. }
        | Event::Free { .. }
        | Event::Work { .. }
        | Event::WorkAll { .. }
        | Event::Crash { .. }
        | Event::Start { .. } => None,
    }
}

impl RowNames {
    pub(crate) fn new(alloc: Global) -> RowNames
        ensures { HasRows [] result }
    {
        RowNames {
            tables: BTreeMap::new(alloc),
            alloc,
        }
    }

    // Adds a row of a table: how many rows the table has then.
    fn insert(&mut self, table: TableNo, row: RowId) -> Result<usize, Stop>
        ensures rows { OnOk result ((q : ℕ) → rows_in self.new q
            ≡ with_row (Some (table, row)) q (rows_in self.old q)) }
        ensures count { IfOk result (λ count. count ≡ length (rows_in self.new table)) }
        ensures memory { IfErr result (λ stop. stop ≡ Stop.Memory) }
    {
        if let Some(rows) = self.tables.get_mut(&table) {
            let _is_new = rows.insert(row)?;
            return Ok(rows.len());
        }
        let mut rows = BTreeSet::new(self.alloc);
        let _is_new = rows.insert(row)?;
        let count = rows.len();
        self.tables.insert(table, rows)?;
        Ok(count)
    }

    // Adds a row of a table. Limit 9 where the table has too many then.
    fn add_row(&mut self, table: TableNo, row: &RowId) -> Result<(), Stop>
        ensures rows { OnOk result ((q : ℕ) → rows_in self.new q
            ≡ with_row (Some (table, row.now)) q (rows_in self.old q)) }
        ensures few { OnOk result (length (rows_in self.new table) ≤ MOST_ROWS) }
        ensures fault { IfErr result (λ stop. (stop ≢ Stop.Read) × (stop ≢ Stop.Put) × (stop ≢ Stop.Depot)) }
        ensures cause { IfErr result (λ stop. (stop ≡ Stop.Memory)
            ⊎ ((stop ≡ Stop.Limit 9)
            × (MOST_ROWS < length (with_row (Some (table, row.now)) table (rows_in self.old table))))) }
    {
        if self.insert(table, *row)? > MOST_ROWS {
            return Err(Stop::Limit(9));
        }
        Ok(())
    }

    /// Adds the row that an event names. Limit 9 where its table has too many then.
    pub(crate) fn add(&mut self, event: &Event) -> Result<(), Stop>
        ensures rows { (script : List AnEvent) → HasRows script self.old
            → OnOk result (HasRows (script ++ event.now ∷ []) self.new) }
        ensures few { (script : List AnEvent) → HasRows script self.old → FewRows script
            → OnOk result (FewRows (script ++ event.now ∷ [])) }
        ensures cause { (script : List AnEvent) → HasRows script self.old → IfErr result (IsRowCause script event.now) }
        ensures fault { IfErr result (λ stop. (stop ≢ Stop.Read) × (stop ≢ Stop.Put) × (stop ≢ Stop.Depot)) }
    {
        match row_in(event) {
            Some((table, row)) => self.add_row(table, row),
            None => Ok(()),
        }
    }
}
