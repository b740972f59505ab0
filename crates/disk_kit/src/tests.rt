// A disk in memory through its trait, a fuse before it, and a depot.
ghost use Rattle.std.specs.Prelude.{◌≡◌, ◌+◌, ◌≤◌, [], length};
ghost use Rattle.disk_trait.specs.Image.{settled};

use crate::{MemDepot, MemDisk};
use disk_trait::{
    Depot, DepotFault, Disk, DiskFault, FuseDisk, RoomFault, cut_durably, write_durably,
};
use std::test::Fail;

// What is left after one of each call.
fn one_of_each<D: Disk>(disk: &mut D) -> Result<[u8; 3], Fail>
    requires empty { (D.state disk.old).seen ≡ [] }
    requires durable { (D.state disk.old).pending ≡ settled [] }
{
    disk.room(8, 7, 7)?;
    write_durably(disk, 0, b"abcd")?;
    disk.write_at(2, b"xyz")?;
    disk.cut(4)?;
    disk.sync()?;
    cut_durably(disk, 3)?;
    let mut into = [0; 3];
    disk.read_at(0, &mut into)?;
    disk.restart(7);
    Ok(into)
}

#[test]
fn each_call_of_a_disk_does_its_work(rt: HostRuntime) -> Result<(), Fail> {
    let mut disk = MemDisk::new(rt.alloc());
    assert_eq!(rt; one_of_each(&mut disk)?, [b'a', b'b', b'x']);
    assert_eq!(rt; disk.len(), 3);
    assert_eq!(rt; disk.bytes(), b"abx".as_slice());
    assert_eq!(rt; disk.room(1 << 61, 0, 0), Err(RoomFault::Memory));
    let mut fused = FuseDisk::new(MemDisk::new(rt.alloc()));
    assert_eq!(rt; one_of_each(&mut fused)?, [b'a', b'b', b'x']);
    Ok(())
}

// A write, a cut and a sync, up to the first that fails.
fn edit<D: Disk>(disk: &mut D) -> Result<(), DiskFault>
    requires len { length (D.state disk.old).seen ≡ 3 }
    requires room { 4 ≤ (D.state disk.old).room }
    requires calls { 3 ≤ (D.state disk.old).calls }
    requires bytes { 3 ≤ (D.state disk.old).bytes }
{
    disk.write_at(1, b"XYZ")?;
    disk.cut(2)?;
    disk.sync()
}

#[test]
fn a_fuse_stops_in_mid_stream(rt: HostRuntime) -> Result<(), Fail> {
    let cases = [
        (0, 0, b"abc".as_slice()),
        (0, 1, b"aXc"),
        (0, 3, b"aXYZ"),
        (0, 9, b"aXYZ"),
        (1, 0, b"aXYZ"),
        (2, 0, b"aX"),
        (3, 0, b"aX"),
    ];
    for (calls, pick, left) in cases {
        let mut disk = FuseDisk::new(MemDisk::new(rt.alloc()));
        disk.room(8, 6, 8)?;
        write_durably(&mut disk, 0, b"abc")?;
        disk.stop_after(calls, pick);
        assert_eq!(rt; edit(&mut disk).is_err(), calls < 3, "at {calls}");
        disk.restart(0);
        assert_eq!(rt; disk.into_inner().bytes(), left, "at {calls}, {pick}");
    }
    Ok(())
}

#[test]
fn a_fuse_stops_until_the_restart(rt: HostRuntime) -> Result<(), Fail> {
    let mut disk = FuseDisk::new(MemDisk::new(rt.alloc()));
    disk.room(8, 6, 8)?;
    write_durably(&mut disk, 0, b"abc")?;
    disk.stop_after(0, 0);
    assert_eq!(rt; disk.cut(1), Err(DiskFault::Failed));
    assert_eq!(rt; disk.sync(), Err(DiskFault::Failed));
    disk.restart(0);
    assert_eq!(rt; disk.len(), 3);
    disk.room(8, 1, 0)?;
    assert_eq!(rt; disk.cut(1), Ok(()));
    Ok(())
}

#[test]
fn disks_go_out_and_come_back(rt: HostRuntime) -> Result<(), Fail> {
    let mut failing = Vec::new(rt.alloc());
    failing.push(1)?;
    let mut depot = MemDepot::new(rt.alloc(), failing);
    let mut first = depot.disk(40)?;
    assert_eq!(rt; depot.disk(7).err(), Some(DepotFault::Failed));
    first.room(2, 1, 2)?;
    first.write_at(0, b"hi")?;
    depot.back(40, first);
    let second = depot.disk(7)?;
    assert!(rt; depot.returned(7).is_none());
    depot.back(7, second);
    assert_eq!(rt; depot.returned(40).map(|disk| disk.bytes().len()), Some(2));
    assert_eq!(rt; depot.returned(7).map(|disk| disk.bytes().len()), Some(0));
    Ok(())
}
