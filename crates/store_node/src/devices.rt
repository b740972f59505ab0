//! What a declaration and a start do to a table's devices.
ghost use Rattle.std.specs.Prelude.{◌≡◌, ◌≤◌, ℕ, List, [], length};
ghost use Rattle.stab_base.specs.declared.chunk_name.ChunkName.{ChunkName};
ghost use Rattle.vault.specs.Limit.{payload_most};
ghost use Rattle.value_codec.specs.SchemaSpelling.{HasSchemaSpelling};
ghost use Rattle.row_store.specs.Spelling.{table_payload};
ghost use Rattle.store_commit.specs.NamedChunks.{NamedChunks};
ghost use Rattle.store_commit.specs.There.{WholeRows};
ghost use Rattle.store_commit.specs.Standing.{devs, writes_of, AreUp, AreSynced, AreSound, AreBlank, IsReady};
ghost use Rattle.store_node.specs.Devices.{HoldNone, MakesTable, PutsRecord, BeginsStart, Resumes};

use crate::live::{is_put, number_of, state_in};
use disk_trait::Disk;
use row_value::Schema;
use store_commit::{CommitFault, Recovery, TableDevs};
use table_model::TableState;

// Puts the record of a table in this state.
fn put_record<D: Disk + Drop>(
    table: &mut TableDevs<D>,
    schema: &Schema,
    state: TableState,
) -> Result<(), CommitFault>
    requires rests { IsReady D.state table.old [] }
    requires idle { writes_of table.old ≡ [] }
    requires spelled { HasSchemaSpelling schema.now }
    requires short { length (table_payload schema.now 2) ≤ payload_most }
    ensures { PutsRecord D.state D.images schema.now state table.old table.new result }
{
    table.begin_table(schema, number_of(state))?;
    table.work()?;
    Ok(())
}

// Puts the record of a table in this state where it isn't there.
fn put_missing<D: Disk + Drop>(
    table: &mut TableDevs<D>,
    schema: &Schema,
    state: TableState,
) -> Result<(), CommitFault>
    requires rests { IsReady D.state table.old [] }
    requires idle { writes_of table.old ≡ [] }
    requires spelled { HasSchemaSpelling schema.now }
    requires short { length (table_payload schema.now 2) ≤ payload_most }
    ensures { PutsRecord D.state D.images schema.now state table.old table.new result }
{
    let found = table.table_state()?;
    if is_put(&found, schema, state) {
        return Ok(());
    }
    put_record(table, schema, state)
}

/// Makes the disks those of a table in this state with no rows, whatever they held.
pub(crate) fn make_table<D: Disk + Drop>(
    table: &mut TableDevs<D>,
    schema: &Schema,
    state: TableState,
) -> Result<(), CommitFault>
    requires up { AreUp table.old }
    requires spelled { HasSchemaSpelling schema.now }
    requires short { length (table_payload schema.now 2) ≤ payload_most }
    ensures { MakesTable D.state D.images (AreBlank D.state table.old)
        schema.now state table.old table.new result }
{
    table.format()?;
    put_record(table, schema, state)
}

/// Makes the disks those of a table in this state with no rows, whatever they held. It looks at them first, as a start
/// does, and formats them only where they hold more than the record of a table.
pub(crate) fn remake_table<D: Disk + Drop>(
    table: &mut TableDevs<D>,
    schema: &Schema,
    state: TableState,
) -> Result<(), CommitFault>
    requires up { AreUp table.old }
    requires spelled { HasSchemaSpelling schema.now }
    requires short { length (table_payload schema.now 2) ≤ payload_most }
    ensures { MakesTable D.state D.images (HoldNone D.state schema.now state table.old)
        schema.now state table.old table.new result }
{
    table.clear()?;
    put_missing(table, schema, state)
}

// Finds what the disks hold, and takes on the writes of a start.
fn begin_start<D: Disk + Drop>(table: &mut TableDevs<D>) -> Result<Recovery, CommitFault>
    requires up { AreUp table.old }
    requires synced { AreSynced D.state table.old }
    requires sound { AreSound D.state table.old }
    requires idle { writes_of table.old ≡ [] }
    requires whole { (meaning : ChunkName → List ℕ) × NamedChunks meaning (devs D.state table.old)
        × WholeRows meaning (devs D.state table.old).held }
    ensures { BeginsStart D.state D.images table.old table.new result }
{
    table.look()?;
    table.scan()?;
    table.recover()
}

/// What a start finds: what was cut short, and the table's state.
#[derive(Drop)]
pub(crate) struct Resumed {
    pub(crate) recovery: Recovery,
    pub(crate) state: TableState,
}

/// Finds what the disks hold, and takes on the writes of a start.
pub(crate) fn resume<D: Disk + Drop>(table: &mut TableDevs<D>) -> Result<Resumed, CommitFault>
    requires up { AreUp table.old }
    requires synced { AreSynced D.state table.old }
    requires sound { AreSound D.state table.old }
    requires idle { writes_of table.old ≡ [] }
    requires whole { (meaning : ChunkName → List ℕ) × NamedChunks meaning (devs D.state table.old)
        × WholeRows meaning (devs D.state table.old).held }
    ensures { Resumes D.state D.images table.old table.new result }
{
    let recovery = begin_start(table)?;
    let found = table.table_state()?;
    Ok(Resumed {
        recovery,
        state: state_in(&found),
    })
}
