//! A client that joins.
ghost use Rattle.std.specs.Prelude.{◌≡◌, ◌++◌, ◌∷◌, ℕ, List, [], false, IfOk, IfErr, OnOk};
ghost use Rattle.std.specs.Ordering.{nat_cmp};
ghost use Rattle.std.specs.BTreeMap as tree;
ghost use Rattle.row_value.specs.declared.schema.Schema.{Schema as ASchema};
ghost use Rattle.step_tables.specs.Messages.{Luck};
ghost use Rattle.client_node.specs.Node.{HasPlansBelow};
ghost use Rattle.client_node.specs.Phases.{is_open};
ghost use Rattle.world_tables.specs.World.{World as AWorld, new_client, open_all, first_agenda};
ghost use Rattle.journal_host.specs.declared.fault.ClientFault.TheVariants.{Memory};
ghost use Rattle.journal_host.specs.Holds.{IsHosted, HasSchemas, AreToOpen, node_faults};
ghost use Rattle.journal_host.specs.Opening.{declared_among, put_before, HasJoinLuck};

use crate::fault::ClientFault;
use client_node::{CallFault, ClientNode};
use disk_trait::Disk;
use row_value::Schema;
use stab_base::{ClientNo, TableNo};
use std::alloc::Global;
use std::collections::BTreeMap;

// Adds a table with a copy of this schema.
fn put_copy(
    found: &mut Vec<(TableNo, Schema)>,
    table: TableNo,
    schema: &Schema,
) -> Result<(), ClientFault>
    ensures put { OnOk result (found.new.items ≡ found.old.items ++ (table, schema.now) ∷ []) }
    ensures memory { IfErr result (λ e. e ≡ Memory) }
{
    let own = schema.copy()?;
    found.push((table, own))?;
    Ok(())
}

// Adds a table with its schema, if it is declared.
fn put(
    found: &mut Vec<(TableNo, Schema)>,
    table: TableNo,
    schemas: &BTreeMap<TableNo, Schema>,
) -> Result<(), ClientFault>
    ensures put { (rest : List (ℕ × ASchema)) → OnOk result (found.new.items ++ rest
        ≡ found.old.items ++ put_before table (tree.get nat_cmp schemas.now table) rest) }
    ensures memory { IfErr result (λ e. e ≡ Memory) }
{
    match schemas.get(&table) {
        Some(schema) => put_copy(found, table, schema),
        None => Ok(()),
    }
}

/// The declared ones among some tables, each with its schema.
pub(crate) fn declared_among(
    alloc: Global,
    tables: &[TableNo],
    schemas: &BTreeMap<TableNo, Schema>,
) -> Result<Vec<(TableNo, Schema)>, ClientFault>
    ensures found { IfOk result (λ found. found.items ≡ declared_among schemas.now tables.now) }
    ensures memory { IfErr result (λ e. e ≡ Memory) }
{
    let mut found = Vec::new(alloc);
    for table in tables {
        put(&mut found, *table, schemas)?;
    }
    Ok(found)
}

/// A client that is declared on its disks, with these tables opened as far as they are declared. Where a disk fails it
/// is down, and its next start declares it.
pub(crate) fn joining<D: Disk + Drop>(
    alloc: Global,
    client: ClientNo,
    tables: &[TableNo],
    schemas: &BTreeMap<TableNo, Schema>,
    disks: (D, D, D),
) -> Result<ClientNode<D>, ClientFault>
    requires { AreToOpen schemas.now }
    ensures joined { (w : AWorld) → HasSchemas w schemas.now → IfOk result (λ node. (luck : Luck)
        × IsHosted D.state false client (new_client (open_all w [] tables.now) (first_agenda luck)) node
        × HasJoinLuck D.state disks luck (node_faults D.state node)) }
    ensures phases { IfOk result (λ node. (table : ℕ) → is_open node table ≡ false) }
    ensures plans { IfOk result (λ node. (n : ℕ) → HasPlansBelow D.state n node) }
    ensures memory { IfErr result (λ e. e ≡ Memory) }
{
    let found = declared_among(alloc, tables, schemas)?;
    let (journal_disk, slot_disk, chunk_disk) = disks;
    let mut node = ClientNode::new(alloc, client, found, journal_disk, slot_disk, chunk_disk);
    match node.declare() {
        Ok(()) => Ok(node),
        Err(CallFault::Disk) => Ok(node),
        Err(_) => Err(ClientFault::Memory),
    }
}
