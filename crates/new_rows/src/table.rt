//! A table of one column of objects.
ghost use Rattle.std.specs.Prelude.{◌≡◌, [], OnOk, IfOk};
ghost use Rattle.store_commit.specs.Standing.{devs, writes_of, nothing, IsReady};
ghost use Rattle.new_rows.specs.NewRow.{object_schema, RestsForRows};

use disk_trait::Disk;
use row_value::{Column, ColumnKind, Columns, Schema, Scheme};
use stab_base::Bytes;
use std::alloc::{AllocError, Global};
use store_commit::{CommitFault, TableDevs};

fn one_column(alloc: Global) -> Result<Columns, AllocError>
    ensures { IfOk result (λ columns. columns ≡ object_schema.columns) }
{
    let mut columns = Columns::new(alloc);
    columns.push(Column {
        name: Bytes::new(alloc),
        kind: ColumnKind::Object,
    })?;
    Ok(columns)
}

fn one_object(alloc: Global) -> Result<Schema, AllocError>
    ensures { IfOk result (λ schema. schema ≡ object_schema) }
{
    Ok(Schema {
        name: Bytes::new(alloc),
        scheme: Scheme::Eventual,
        chunk: 64,
        columns: one_column(alloc)?,
    })
}

/// Puts a table of one column of objects, in chunks of 64 bytes, on formatted devices.
pub fn put_table<D: Disk + Drop>(alloc: Global, table: &mut TableDevs<D>) -> Result<(), CommitFault>
    requires ready { IsReady D.state table.old [] }
    requires idle { writes_of table.old ≡ [] }
    requires empty { devs D.state table.old ≡ nothing }
    ensures { OnOk result (RestsForRows D.state table.new) }
{
    let schema = one_object(alloc)?;
    table.begin_table(&schema, 2)?;
    table.work()?;
    Ok(())
}
