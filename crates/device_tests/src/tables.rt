//! A table's three devices together.
ghost use Rattle.std.specs.Prelude.{◌≡◌, [], OnOk};
ghost use Rattle.store_commit.specs.Standing.{devs, writes_of, IsReady, nothing};
ghost use Rattle.device_tests.specs.Standing.{HasTable, AreWorking};

use crate::hostile::SCHEMA;
use crate::updates::work_once;
use disk_kit::MemDisk;
use disk_trait::Disk;
use row_value::PieceContent;
use stab_base::{RowId, Sequence, Step, Version};
use std::alloc::Global;
use std::test::Fail;
use store_commit::{CommitFault, TableDevs, Update};
use value_codec::schema_of;

/// What is seen of a subscription's put: the write, whether another is to be done, and the lengths of the three disks.
type Seen = (Step, bool, usize, usize, usize);

// Formats three disks, puts a subscription, crashes and looks.
fn subscribe(alloc: Global) -> Result<Seen, CommitFault> {
    let mut devs = TableDevs::new(
        alloc,
        MemDisk::new(alloc),
        MemDisk::new(alloc),
        MemDisk::new(alloc),
    );
    devs.format()?;
    devs.begin_sub(3, true, 1, 5, 2)?;
    let step = devs.work()?;
    let is_idle = devs.idle();
    devs.restart(0);
    devs.look()?;
    let (chunks, rows, log) = devs.into_disks();
    Ok((
        step,
        is_idle,
        chunks.bytes().len(),
        rows.bytes().len(),
        log.bytes().len(),
    ))
}

// A subscription's payload has 18 bytes, its record six more with the gate behind it; an empty vault is one byte.
#[test]
fn a_subscription_is_one_write_of_the_rows(rt: HostRuntime) -> Result<(), Fail> {
    assert_eq!(rt; subscribe(rt.alloc())?, (Step::SubPut, true, 1, 24, 1));
    Ok(())
}

/// What is seen of a row's deletion: its version, its writes, and the lengths of the three disks.
type Deleted = (Version, [Step; 4], usize, usize, usize);

// Puts a table on three devices that hold nothing.
fn put_table<D: Disk + Drop>(alloc: Global, table: &mut TableDevs<D>) -> Result<(), Fail>
    requires ready { IsReady D.state table.old [] }
    requires idle { writes_of table.old ≡ [] }
    requires empty { devs D.state table.old ≡ nothing }
    ensures { OnOk result (HasTable D.state table.new) }
{
    let schema = schema_of(alloc, &SCHEMA)?;
    table.begin_table(&schema, 2)?;
    table.work()?;
    Ok(())
}

// Takes on the deletion of a row that isn't there.
fn begin_deletion<D: Disk + Drop>(
    alloc: Global,
    devs: &mut TableDevs<D>,
) -> Result<Version, CommitFault>
    requires { HasTable D.state devs.old }
    ensures { OnOk result (AreWorking D.state devs.new) }
{
    devs.begin(Update {
        row: RowId::from_bytes([7; 16]),
        client: 3,
        number: 1,
        base: 0,
        content: PieceContent::Gone,
        fresh: Sequence::new(alloc),
    })
}

// Formats three disks, puts a table and deletes a row that isn't there.
fn delete(alloc: Global) -> Result<Deleted, Fail> {
    let mut devs = TableDevs::new(
        alloc,
        MemDisk::new(alloc),
        MemDisk::new(alloc),
        MemDisk::new(alloc),
    );
    devs.format()?;
    put_table(alloc, &mut devs)?;
    let version = begin_deletion(alloc, &mut devs)?;
    let steps = [
        work_once(&mut devs)?,
        work_once(&mut devs)?,
        work_once(&mut devs)?,
        work_once(&mut devs)?,
    ];
    let (chunks, rows, log) = devs.into_disks();
    Ok((
        version,
        steps,
        chunks.bytes().len(),
        rows.bytes().len(),
        log.bytes().len(),
    ))
}

// The row's payload has 50 bytes: its kind, id, version, content, and the last write of one client. The log has an
// opening of 53 bytes and a close of 9. The table's payload has 22 bytes. A record has five bytes more than its
// payload, and a vault one.
#[test]
fn a_deletion_is_an_update_without_chunks(rt: HostRuntime) -> Result<(), Fail> {
    let steps = [Step::LogOpen, Step::RowPut, Step::LogClose, Step::Idle];
    assert_eq!(rt; delete(rt.alloc())?, (1, steps, 1, 83, 73));
    Ok(())
}
