//! An update of a table's devices, cut short inside each of its writes.
ghost use Rattle.std.specs.Prelude.{◌≤◌, OnOk, IfOk};
ghost use Rattle.disk_trait.specs.Fuse.{behind};
ghost use Rattle.device_tests.specs.Standing.{AreWhole, AreWorking, AreKnown};
ghost use Rattle.new_rows.specs.NewRow.{RestsForRows};

use crate::updates::{lands, name_of, names_chunks, work_once, work_stopped};
use disk_kit::MemDisk;
use disk_trait::{Disk, FuseDisk};
use new_rows::{begin, put_table, start_again, work_all, work_some};
use row_store::Version;
use stab_base::RowId;
use std::alloc::Global;
use std::process::Abort;
use std::test::Fail;
use store_commit::{CommitFault, TableDevs};

/// The number of the row.
const ROW: u64 = 7;

/// A chunk of the row: its name, and what each of its 64 bytes is.
type Chunk = (Version, u32, u8);

/// The row's chunks before the update, and those behind it.
const BEFORE: [Chunk; 2] = [(1, 0, 0x10), (1, 1, 0x11)];

const BEHIND: [Chunk; 3] = [(2, 0, 0x20), (2, 1, 0x21), (2, 2, 0x22)];

/// The update's writes: an opening, three puts, the row, two drops and a close.
const WRITES: usize = 8;

/// The place of the row's write, with which the update is whole.
const TURN: usize = 4;

// A table of one row of two chunks.
fn put_row<D: Disk + Drop>(alloc: Global, devs: &mut TableDevs<D>) -> Result<(), CommitFault>
    ensures { OnOk result (RestsForRows D.state devs.new) }
{
    devs.format()?;
    put_table(alloc, devs)?;
    begin(alloc, devs, ROW, 1, 2)?;
    work_all(devs)
}

// Takes on an update of the row to three chunks, does so many of its writes, and is stopped inside the next.
fn update_stopped<D: Disk + Drop>(
    alloc: Global,
    devs: &mut TableDevs<FuseDisk<D>>,
    stopped: usize,
    calls: u32,
    pick: u64,
) -> Result<(), CommitFault>
    requires { RestsForRows (behind D.state) devs.old }
    ensures { OnOk result (AreWhole (behind D.state) devs.new) }
{
    begin(alloc, devs, ROW, 2, 3)?;
    work_some(devs, stopped)?;
    work_stopped(devs, calls, pick);
    Ok(())
}

// Recovers to the end.
fn recover<D: Disk + Drop>(devs: &mut TableDevs<D>) -> Result<(), CommitFault>
    requires { AreWhole D.state devs.old }
    ensures { OnOk result (AreKnown D.state devs.new) }
{
    start_again(devs)?;
    work_all(devs)
}

// Whether these chunks are there with their bytes, and no other.
fn has_chunks<D: Disk + Drop>(
    devs: &mut TableDevs<D>,
    chunks: &[Chunk],
) -> Result<bool, CommitFault>
    requires { AreKnown D.state devs.old }
    ensures { OnOk result (AreKnown D.state devs.new) }
{
    let mut same = devs.chunk_names()?.len() == chunks.len();
    for (version, ordinal, byte) in chunks {
        let found = devs.chunk(name_of((*version, *ordinal)))?;
        same = same && found.is_some_and(|bytes| bytes.as_slice() == [*byte; 64].as_slice());
    }
    Ok(same)
}

// Whether the row is there with a version and these chunks.
fn has_row<D: Disk + Drop>(
    devs: &mut TableDevs<D>,
    version: Version,
    names: &[(Version, u32)],
) -> Result<bool, CommitFault>
    requires { AreKnown D.state devs.old }
{
    let mut bytes = [0u8; 16];
    bytes[8..].copy_from_slice(&ROW.to_be_bytes());
    let Some(stored) = devs.row(&RowId::from_bytes(bytes))? else {
        return Ok(false);
    };
    Ok(stored.version == version && names_chunks(&stored.content, names))
}

// Whether the readers tell the row from before the update, or the one behind it, and nothing else.
fn tells<D: Disk + Drop>(devs: &mut TableDevs<D>, is_behind: bool) -> Result<bool, CommitFault>
    requires { AreKnown D.state devs.old }
{
    if is_behind {
        return Ok(has_chunks(devs, &BEHIND)? && has_row(devs, 2, &[(2, 0), (2, 1), (2, 2)])?);
    }
    Ok(has_chunks(devs, &BEFORE)? && has_row(devs, 1, &[(1, 0), (1, 1)])?)
}

// Whether a table whose update was stopped there has its row from before it, or behind it.
fn is_whole(
    alloc: Global,
    stopped: usize,
    calls: u32,
    pick: u64,
    is_behind: bool,
) -> Result<bool, CommitFault> {
    let mut devs = TableDevs::new(
        alloc,
        FuseDisk::new(MemDisk::new(alloc)),
        FuseDisk::new(MemDisk::new(alloc)),
        FuseDisk::new(MemDisk::new(alloc)),
    );
    put_row(alloc, &mut devs)?;
    update_stopped(alloc, &mut devs, stopped, calls, pick)?;
    recover(&mut devs)?;
    tells(&mut devs, is_behind)
}

#[test]
fn an_update_of_the_devices_cut_short_is_whole_or_not_there(rt: HostRuntime) -> Result<(), Fail> {
    for stopped in 0..WRITES {
        for calls in 0..5 {
            for pick in [0, 1, 1000] {
                let is_behind = stopped > TURN || (stopped == TURN && lands(calls, pick));
                assert!(rt;
                    is_whole(rt.alloc(), stopped, calls, pick, is_behind)?,
                    "{stopped} {calls} {pick}"
                );
            }
        }
    }
    Ok(())
}
