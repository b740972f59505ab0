//! Where tables are.
ghost use Rattle.std.specs.Prelude.{◌≡◌, ◌==◌, ℕ, Option, Some, if◌then◌else◌, IfOk, OnOk, map};
ghost use Rattle.std.specs.Ordering.{nat_cmp};
ghost use Rattle.std.specs.BTreeMap as tree;
ghost use Rattle.std.specs.List.Sorted.{IsStrictlySortedBy};
ghost use Rattle.std.specs.Map.{keys_of};
ghost use Rattle.gate_tables.specs.Gate.{asks, placed, is_strong};
ghost use Rattle.gateway_core.specs.Directories.{IsPlacedBy, last_named, owners_of};

use crate::out::Sent;
use gate_tables::Placed;
use ring_map::Ring;
use row_value::Scheme;
use stab_base::{Bytes, ClientNo, GateNo, Node, Sequence, StoreNo, TableNo};
use std::alloc::{AllocError, Global};
use std::collections::{BTreeMap, BTreeSet};
use std::marker::Model;
use table_model::{Message, RestoreClientSubscriptions};

/// Each table's owner and scheme, and the Stores that own one. A look-up takes logarithmic time.
#[derive(Drop)]
pub struct Directory {
    tables: BTreeMap<TableNo, Placed>,
    owners: BTreeSet<StoreNo>,
}

impl Model for Directory {
    ghost use Rattle.gate_tables.specs.Gate as gate;

    ghost Value = { gate.Directory };

    ghost view = { λ d. record { tables = d.tables.entries; owners = d.owners.keys } };
}

// Asks a Store for a client's subscriptions.
fn ask(alloc: Global, number: GateNo, client: ClientNo, store: StoreNo) -> Sent
    ensures { result ≡ asks number client store }
{
    (
        Node::Store(store),
        Message::RestoreClientSubscriptions(RestoreClientSubscriptions {
            client,
            gate: number,
            reply: false,
            subscriptions: Sequence::new(alloc),
        }),
    )
}

/// A table by its name.
#[derive(Debug, Drop)]
pub struct NamedTable {
    pub table: TableNo,
    pub scheme: Scheme,
    /// By which the ring places it.
    pub name: Bytes,
}

// Puts a table at its owner, in place of what stood there by its number.
fn place(
    places: &mut BTreeMap<TableNo, Placed>,
    ring: &Ring,
    named: &NamedTable,
) -> Result<(), AllocError>
    ensures { OnOk result ((table : ℕ) (found : Option NamedTable)
        → IsPlacedBy ring.now found (tree.get nat_cmp places.old table)
        → IsPlacedBy ring.now (if named.now.table == table then Some named.now else found)
        (tree.get nat_cmp places.new table)) }
{
    if let Some(owner) = ring.owner(named.name.as_slice()) {
        let scheme = named.scheme;
        places.insert(named.table, Placed { owner, scheme })?;
    }
    Ok(())
}

fn place_all(
    alloc: Global,
    tables: &[NamedTable],
    ring: &Ring,
) -> Result<BTreeMap<TableNo, Placed>, AllocError>
    ensures { IfOk result (λ places. (table : ℕ)
        → IsPlacedBy ring.now (last_named table tables.now) (tree.get nat_cmp places table)) }
{
    let mut places = BTreeMap::new(alloc);
    for named in tables {
        place(&mut places, ring, named)?;
    }
    Ok(places)
}

fn owners_of(
    alloc: Global,
    places: &BTreeMap<TableNo, Placed>,
) -> Result<BTreeSet<StoreNo>, AllocError>
    ensures owners { IfOk result (λ owners. owners.keys ≡ owners_of places.now.entries) }
    ensures ordered { IsStrictlySortedBy nat_cmp (keys_of places.now.entries) }
{
    let mut owners = BTreeSet::new(alloc);
    for (_, place) in places {
        owners.insert(place.owner)?;
    }
    Ok(owners)
}

impl Directory {
    /// The directory of these tables, each at the Store that the ring says. Where two have one number, the last one
    /// counts. It is empty where no Store is on the ring.
    pub fn new(alloc: Global, tables: &[NamedTable], ring: &Ring) -> Result<Directory, AllocError>
        ensures placed { IfOk result (λ made. (table : ℕ)
            → IsPlacedBy ring.now (last_named table tables.now) (placed made table)) }
        ensures owners { IfOk result (λ made. made.owners ≡ owners_of made.tables) }
        ensures ordered { IfOk result (λ made. IsStrictlySortedBy nat_cmp (keys_of made.tables)) }
    {
        let tables = place_all(alloc, tables, ring)?;
        let owners = owners_of(alloc, &tables)?;
        Ok(Directory { tables, owners })
    }

    /// Where a table is. None where it isn't in the directory.
    pub fn placed(&self, table: TableNo) -> Option<Placed>
        ensures { result ≡ placed self.now table }
    {
        self.tables.get(&table).copied()
    }

    /// Whether a table is in the directory and is strong.
    pub fn is_strong(&self, table: TableNo) -> bool
        ensures { result ≡ is_strong (placed self.now table) }
    {
        match self.placed(table) {
            Some(place) => match place.scheme {
                Scheme::Strong => true,
                Scheme::Causal | Scheme::Eventual => false,
            },
            None => false,
        }
    }

    /// Asks each Store that owns a table, by rising number, for a client's subscriptions.
    pub(crate) fn ask_owners(
        &self,
        alloc: Global,
        number: GateNo,
        client: ClientNo,
    ) -> Result<Vec<Sent>, AllocError>
        ensures { IfOk result (λ sent. sent.items ≡ map (asks number client) self.now.owners) }
    {
        let mut sent = Vec::new(alloc);
        for store in &self.owners {
            sent.push(ask(alloc, number, client, *store))?;
        }
        Ok(sent)
    }
}
