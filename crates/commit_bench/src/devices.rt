//! The devices at the start, and what is counted at the end.
ghost use Rattle.std.specs.Prelude.{IfOk};
ghost use Rattle.store_commit.specs.Standing.{AreLookedAt};
ghost use Rattle.new_rows.specs.NewRow.{RestsForRows};

use disk_kit::MemDisk;
use disk_trait::Disk;
use new_rows::put_table;
use stab_base::Version;
use std::alloc::Global;
use store_commit::{CommitFault, TableDevs};

/// What a table has at the end: its rows, its chunks and its version. No contract pins them: they are printed beside a
/// time for a person to see that the work was done, and nothing rests on them.
#[derive(Clone, Copy)]
pub struct Counts {
    pub rows: usize,
    pub chunks: usize,
    pub version: Version,
}

/// Three devices of a table without rows.
pub fn new_table(alloc: Global) -> Result<TableDevs<MemDisk>, CommitFault>
    ensures { IfOk result (RestsForRows (⟦<MemDisk as Disk>⟧.state)) }
{
    let mut devs = TableDevs::new(
        alloc,
        MemDisk::new(alloc),
        MemDisk::new(alloc),
        MemDisk::new(alloc),
    );
    devs.format()?;
    put_table(alloc, &mut devs)?;
    Ok(devs)
}

/// Counts what the table has. No contract pins the counts: they are printed beside a time for a person to see that the
/// work was done, and nothing rests on them.
pub fn counted<D: Disk + Drop>(devs: &mut TableDevs<D>) -> Result<Counts, CommitFault>
    requires { AreLookedAt D.state devs.old }
{
    let chunks = devs.chunk_names()?.len();
    let version = devs.table_version()?;
    let rows = devs.changed_since(0)?.len();
    Ok(Counts {
        rows,
        chunks,
        version,
    })
}
