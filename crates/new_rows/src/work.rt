//! Updates that are taken on and done.
ghost use Rattle.std.specs.Prelude.{◌≤◌, OnOk};
ghost use Rattle.store_commit.specs.Standing.{writes_of, AreUp, IsReady};
ghost use Rattle.new_rows.specs.NewRow.{RestsForRows, WorksForRows, AllDone};

use crate::update::update_of;
use disk_trait::Disk;
use std::alloc::Global;
use store_commit::{CommitFault, TableDevs};

/// Takes on an update of a row to so many new chunks of 64 bytes. The row's id is its number behind eight zeros, and
/// each byte of a chunk is the update's number above the chunk's ordinal, four bits of each.
pub fn begin<D: Disk + Drop>(
    alloc: Global,
    devs: &mut TableDevs<D>,
    row: u64,
    number: u64,
    count: u32,
) -> Result<(), CommitFault>
    requires rests { RestsForRows D.state devs.old }
    requires few { count ≤ 32768 }
    ensures { OnOk result (WorksForRows D.state devs.new) }
{
    let update = update_of(alloc, row, number, count)?;
    devs.begin(update)?;
    Ok(())
}

/// Does so many of the writes that are to come, or all where there are fewer.
pub fn work_some<D: Disk + Drop>(devs: &mut TableDevs<D>, count: usize) -> Result<(), CommitFault>
    requires up { AreUp devs.old }
    requires ready { IsReady D.state devs.old (writes_of devs.old) }
    ensures up { OnOk result (AreUp devs.new) }
    ensures ready { OnOk result (IsReady D.state devs.new (writes_of devs.new)) }
{
    for _ in 0..count {
        devs.work()?;
    }
    Ok(())
}

/// Does all writes that are to come.
pub fn work_all<D: Disk + Drop>(devs: &mut TableDevs<D>) -> Result<(), CommitFault>
    requires up { AreUp devs.old }
    requires ready { IsReady D.state devs.old (writes_of devs.old) }
    ensures { OnOk result (AllDone D.state devs.old devs.new) }
{
    while !devs.idle() {
        devs.work()?;
    }
    Ok(())
}
