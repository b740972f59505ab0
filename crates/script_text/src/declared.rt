ghost use Rattle.std.specs.Prelude.{◌≡◌, OnOk, OnErr, IsTrue, ◌↔◌, [], not, IfOk, if◌then◌else◌};
ghost use Rattle.std.specs.Bool.{OnFalse};
ghost use Rattle.std.specs.Ordering.{nat_cmp};
ghost use Rattle.std.specs.Cmp.Lexicographic.{slice_cmp};
ghost use Rattle.std.specs.List.{list_any};
ghost use Rattle.std.specs.Set.{remove_key};
ghost use Rattle.std.specs.BTreeMap.{is_at};
ghost use Rattle.std.specs.BTreeSet.{insert_key};
ghost use Rattle.table_model.specs.declared.event.Event.TheVariants as events;
ghost use Rattle.script_text.specs.Names.{texts_of, no_names, with_event, has_store, has_gate, has_table, has_name};
ghost use Rattle.script_text.specs.Names.{has_client, has_no_store, columns_of, column_number};

use crate::declared_table::DeclaredTable;
use row_value::Schema;
use std::alloc::{AllocError, Global};
use std::collections::{BTreeMap, BTreeSet};
use std::marker::Model;
use table_model::Event;

/// What the lines of a script so far have declared, and whether an event was among them.
#[derive(Drop)]
pub struct Declared {
    stores: BTreeSet<u32>,
    gates: BTreeSet<u32>,
    tables: BTreeMap<u32, DeclaredTable>,
    names: BTreeSet<Vec<u8>>,
    clients: BTreeSet<u32>,
    started: bool,
    alloc: Global,
}

impl Model for Declared {
    ghost use Rattle.std.specs.Prelude.{map};
    ghost use Rattle.script_text.specs.Names.{Names};

    ghost Value = { Names };

    ghost view = { λ d. record {
      stores = d.stores.keys;
      gates = d.gates.keys;
      tables = d.tables.entries;
      names = map (λ v. v.items) d.names.keys;
      clients = d.clients.keys;
      started = d.started;
    } };
}

// Whether the name is new.
pub(crate) fn put_name(
    alloc: Global,
    names: &mut BTreeSet<Vec<u8>>,
    name: &[u8],
) -> Result<bool, AllocError>
    ensures added { IfOk result (λ added. added
        ≡ not (list_any (is_at (slice_cmp nat_cmp name.now)) (texts_of names.old))) }
    ensures put { OnOk result (texts_of names.new ≡ insert_key (slice_cmp nat_cmp) (texts_of names.old) name.now) }
    ensures kept { IfOk result (λ added. OnFalse added (texts_of names.new ≡ texts_of names.old)) }
    ensures err { OnErr result (texts_of names.new ≡ texts_of names.old) }
{
    let name = Vec::from_slice(alloc, name)?;
    let added = names.insert(name)?;
    Ok(added)
}

// Takes a name out again that was new.
fn take_name(names: &mut BTreeSet<Vec<u8>>, name: &[u8], added: bool)
    ensures { texts_of names.new ≡ (if added then remove_key (is_at (slice_cmp nat_cmp name.now)) (texts_of names.old)
        else texts_of names.old) }
{
    if added {
        let _removed = names.remove(name);
    }
}

impl Declared {
    /// Nothing declared and no event read.
    pub fn new(alloc: Global) -> Self
        ensures { result ≡ no_names }
    {
        Declared {
            stores: BTreeSet::new(alloc),
            gates: BTreeSet::new(alloc),
            tables: BTreeMap::new(alloc),
            names: BTreeSet::new(alloc),
            clients: BTreeSet::new(alloc),
            started: false,
            alloc,
        }
    }

    pub(crate) fn has_store(&self, store: u32) -> bool
        ensures { result ≡ has_store self.now store }
    {
        self.stores.contains(&store)
    }

    pub(crate) fn has_gate(&self, gate: u32) -> bool
        ensures { result ≡ has_gate self.now gate }
    {
        self.gates.contains(&gate)
    }

    pub(crate) fn has_table(&self, table: u32) -> bool
        ensures { result ≡ has_table self.now table }
    {
        self.tables.contains_key(&table)
    }

    /// The number of the column of this name in a table that is declared.
    pub(crate) fn column_number(&self, table: u32, name: &[u8]) -> Option<usize>
        ensures { result ≡ column_number (columns_of self.now table) name.now }
    {
        match self.tables.get(&table) {
            Some(table) => table.column_number(name),
            None => None,
        }
    }

    pub(crate) fn has_name(&self, name: &[u8]) -> bool
        ensures { result ≡ has_name self.now name.now }
    {
        self.names.contains(name)
    }

    pub(crate) fn has_client(&self, client: u32) -> bool
        ensures { result ≡ has_client self.now client }
    {
        self.clients.contains(&client)
    }

    /// Whether an event was read.
    pub(crate) fn has_started(&self) -> bool
        ensures { result ≡ self.now.started }
    {
        self.started
    }

    /// Whether no Store is declared.
    pub(crate) fn has_no_store(&self) -> bool
        ensures { result ≡ has_no_store self.now }
    {
        self.stores.is_empty()
    }

    fn add_table(&mut self, table: u32, schema: &Schema) -> Result<(), AllocError>
        ensures ok { OnOk result (self.new ≡ with_event self.old (events.Table table schema.now)) }
        ensures err { OnErr result (self.new ≡ self.old) }
    {
        let declared = DeclaredTable::new(self.alloc, schema)?;
        let added = put_name(self.alloc, &mut self.names, schema.name.as_slice())?;
        match self.tables.insert(table, declared) {
            Ok(_) => Ok(()),
            Err(_) => {
                take_name(&mut self.names, schema.name.as_slice(), added);
                Err(AllocError)
            }
        }
    }

    /// Adds the event's declaration, or that an event was read. Where memory is refused nothing changes.
    pub fn add(&mut self, event: &Event) -> Result<(), AllocError>
        ensures ok { OnOk result (self.new ≡ with_event self.old event.now) }
        ensures err { OnErr result (self.new ≡ self.old) }
    {
        match event {
            Event::Store { store } => {
                let _added = self.stores.insert(*store)?;
                Ok(())
            }
            Event::Gate { gate } => {
                let _added = self.gates.insert(*gate)?;
                Ok(())
            }
            Event::Table { table, schema } | Event::Draft { table, schema } => {
                self.add_table(*table, schema)
            }
            Event::Client { client, .. } => {
                let _added = self.clients.insert(*client)?;
                Ok(())
            }
            Event::Write { .. }
            | Event::Edit { .. }
            | Event::Link { .. }
            | Event::Create { .. }
            | Event::Drop { .. }
            | Event::Save { .. }
            | Event::Ask { .. }
            | Event::Net(_)
            | Event::Show { .. }
            | Event::Sum { .. }
            | Event::Sync { .. }
            | Event::Pull { .. }
            | Event::BeginCr { .. }
            | Event::Conflicts { .. }
            | Event::EndCr { .. }
            | Event::Resolve { .. }
            | Event::ResolveAll { .. }
            | Event::Deliver { .. }
            | Event::StoreShow { .. }
            | Event::History { .. }
            | Event::Chunks { .. }
            | Event::Hold { .. }
            | Event::Free { .. }
            | Event::Work { .. }
            | Event::WorkAll { .. }
            | Event::Crash { .. }
            | Event::Start { .. } => {
                self.started = true;
                Ok(())
            }
        }
    }
}
