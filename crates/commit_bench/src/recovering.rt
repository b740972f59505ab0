//! A crash inside an update, and its recovery.
ghost use Rattle.std.specs.Prelude.{◌≡◌, [], OnOk};
ghost use Rattle.store_commit.specs.Standing.{writes_of, AreSynced, AreSound, AreLookedAt};
ghost use Rattle.new_rows.specs.NewRow.{RestsForRows};

use crate::devices::{Counts, counted, new_table};
use crate::updating::update_all;
use disk_trait::Disk;
use new_rows::{CHUNKS_MAX, begin, start_again, work_all, work_some};
use std::alloc::Global;
use store_commit::{CommitFault, TableDevs};

/// How many chunks the update has that is cut short.
const CHUNKS: u32 = 256;

/// How many of its writes are done.
const DONE: usize = 200;

/// What a table has after so many updates, a crash inside one more, and its recovery. No contract pins it, as with
/// `counted`.
pub fn recover_once(
    alloc: Global,
    count: u64,
    chunks: u32,
    rows: u64,
) -> Result<Counts, CommitFault> {
    let mut devs = new_table(alloc)?;
    update_all(alloc, &mut devs, count, chunks.min(CHUNKS_MAX), rows.max(1))?;
    cut_short(alloc, &mut devs)?;
    recover(&mut devs)?;
    counted(&mut devs)
}

// Begins an update of the first row, and crashes between two of its writes.
fn cut_short<D: Disk + Drop>(alloc: Global, devs: &mut TableDevs<D>) -> Result<(), CommitFault>
    requires { RestsForRows D.state devs.old }
    ensures synced { OnOk result (AreSynced D.state devs.new) }
    ensures sound { OnOk result (AreSound D.state devs.new) }
    ensures idle { OnOk result (writes_of devs.new ≡ []) }
{
    begin(alloc, devs, 0, 1, CHUNKS)?;
    work_some(devs, DONE)?;
    devs.restart(0);
    Ok(())
}

fn recover<D: Disk + Drop>(devs: &mut TableDevs<D>) -> Result<(), CommitFault>
    requires synced { AreSynced D.state devs.old }
    requires sound { AreSound D.state devs.old }
    requires idle { writes_of devs.old ≡ [] }
    ensures { OnOk result (AreLookedAt D.state devs.new) }
{
    start_again(devs)?;
    work_all(devs)
}
