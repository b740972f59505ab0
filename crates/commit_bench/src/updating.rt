//! Many updates, one after the other.
ghost use Rattle.std.specs.Prelude.{◌≤◌, OnOk};
ghost use Rattle.new_rows.specs.NewRow.{RestsForRows};

use crate::devices::{Counts, counted, new_table};
use disk_trait::Disk;
use new_rows::{CHUNKS_MAX, begin, work_all};
use std::alloc::Global;
use store_commit::{CommitFault, TableDevs};

/// What a table has after so many updates, each of so many new chunks, that go round so many rows. No contract pins it,
/// as with `counted`.
pub fn update_often(
    alloc: Global,
    count: u64,
    chunks: u32,
    rows: u64,
) -> Result<Counts, CommitFault> {
    let mut devs = new_table(alloc)?;
    update_all(alloc, &mut devs, count, chunks.min(CHUNKS_MAX), rows.max(1))?;
    counted(&mut devs)
}

/// Does so many updates, each of so many new chunks, going round so many rows.
pub fn update_all<D: Disk + Drop>(
    alloc: Global,
    devs: &mut TableDevs<D>,
    count: u64,
    chunks: u32,
    rows: u64,
) -> Result<(), CommitFault>
    requires rests { RestsForRows D.state devs.old }
    requires few { chunks ≤ 32768 }
    requires rows { 1 ≤ rows }
    ensures { OnOk result (RestsForRows D.state devs.new) }
{
    for turn in 0..count {
        update_one(alloc, devs, turn % rows, turn, chunks)?;
    }
    Ok(())
}

fn update_one<D: Disk + Drop>(
    alloc: Global,
    devs: &mut TableDevs<D>,
    row: u64,
    number: u64,
    chunks: u32,
) -> Result<(), CommitFault>
    requires rests { RestsForRows D.state devs.old }
    requires few { chunks ≤ 32768 }
    ensures { OnOk result (RestsForRows D.state devs.new) }
{
    begin(alloc, devs, row, number, chunks)?;
    work_all(devs)
}
