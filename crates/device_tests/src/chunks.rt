//! A device of chunks against a map of the standard library.
ghost use Rattle.std.specs.Prelude.{◌≡◌, ◌+◌, ◌≤◌, OnOk, IfOk, length};
ghost use Rattle.disk_trait.specs.Fuse.{behind};
ghost use Rattle.stab_base.specs.declared.limits.TheConstants.{NUMBER_MAX};
ghost use Rattle.vault.specs.Standing.{IsUp};
ghost use Rattle.chunk_store.specs.Standing.{vault_of, IsLookedAt};

use crate::disks::disk_of_two;
use chunk_store::{ChunkDev, ChunkFault, ChunkName, NUMBER_MAX};
use disk_kit::MemDisk;
use disk_trait::{Disk, FuseDisk};
use std::alloc::{AllocError, Global};
use std::collections::BTreeMap;
use std::process::Abort;
use std::test::Fail;

/// What is done in turn: a name's version and ordinal, and its new bytes, or that it is dropped.
const STEPS: [(u64, u32, Option<&[u8]>); 8] = [
    (1, 0, Some(b"one")),
    (1, 1, Some(b"two")),
    (NUMBER_MAX, u32::MAX, Some(b"")),
    (1, 0, Some(b"three")),
    (0, 0, Some(b"zero")),
    (1, 1, None),
    (1, 1, Some(b"four")),
    (NUMBER_MAX, u32::MAX, None),
];

// Opens for writes, where a fuse stops it after so many calls of the disk; then crashes and looks.
fn stop_opening<D: Disk + Drop>(
    dev: &mut ChunkDev<FuseDisk<D>>,
    calls: u32,
    pick: u64,
) -> Result<(), ChunkFault>
    requires { IsLookedAt (behind D.state) dev.old }
    ensures { OnOk result (IsLookedAt (behind D.state) dev.new) }
{
    dev.reserve(0, 0)?;
    dev.stop_after(calls, pick);
    let _ = dev.open_write();
    dev.restart(0);
    dev.look()
}

// Does one step, where a fuse stops it after so many calls of the disk; then crashes and looks.
fn stop_step<D: Disk + Drop>(
    dev: &mut ChunkDev<FuseDisk<D>>,
    name: ChunkName,
    bytes: Option<&[u8]>,
    calls: u32,
    pick: u64,
) -> Result<(), ChunkFault>
    requires { IsLookedAt (behind D.state) dev.old }
    ensures { OnOk result (IsLookedAt (behind D.state) dev.new) }
{
    stop_opening(dev, calls, pick)?;
    match bytes {
        Some(bytes) => stop_put(dev, name, bytes, calls, pick)?,
        None => stop_drop(dev, name, calls, pick)?,
    }
    dev.restart(0);
    dev.look()
}

fn stop_put<D: Disk + Drop>(
    dev: &mut ChunkDev<FuseDisk<D>>,
    name: ChunkName,
    bytes: &[u8],
    calls: u32,
    pick: u64,
) -> Result<(), ChunkFault>
    requires { IsLookedAt (behind D.state) dev.old }
{
    if name.version > NUMBER_MAX || bytes.len() > 100 {
        return Ok(());
    }
    dev.reserve(1, 13 + bytes.len() as u64)?;
    dev.open_write()?;
    dev.stop_after(calls, pick);
    let _ = dev.put(name, bytes);
    Ok(())
}

fn stop_drop<D: Disk + Drop>(
    dev: &mut ChunkDev<FuseDisk<D>>,
    name: ChunkName,
    calls: u32,
    pick: u64,
) -> Result<(), ChunkFault>
    requires { IsLookedAt (behind D.state) dev.old }
{
    dev.reserve(1, 13)?;
    dev.open_write()?;
    dev.stop_after(calls, pick);
    if dev.has(name) {
        let _ = dev.drop_chunk(name);
    }
    Ok(())
}

// Does one step in a map.
fn step_map<'a>(
    map: &mut BTreeMap<ChunkName, &'a [u8]>,
    name: ChunkName,
    bytes: Option<&'a [u8]>,
) -> Result<(), AllocError> {
    match bytes {
        Some(bytes) => {
            map.insert(name, bytes)?;
        }
        None => {
            map.remove(&name);
        }
    }
    Ok(())
}

// Whether a device holds the chunks of a map.
fn holds<D: Disk + Drop>(
    dev: &mut ChunkDev<D>,
    map: &BTreeMap<ChunkName, &[u8]>,
) -> Result<bool, ChunkFault>
    requires { IsLookedAt D.state dev.old }
    ensures { OnOk result (IsLookedAt D.state dev.new) }
{
    let mut same = dev.names()?.len() == map.len();
    for (name, bytes) in map {
        let found = dev.get(*name)?;
        same = same && found.as_slice() == *bytes;
    }
    Ok(same)
}

// Does all steps, where a fuse stops one of them after so many calls of the disk.
fn run_steps<D: Disk + Drop>(
    rt: &impl Abort,
    alloc: Global,
    dev: &mut ChunkDev<FuseDisk<D>>,
    stopped: usize,
    calls: u32,
    pick: u64,
) -> Result<(), Fail>
    requires { IsLookedAt (behind D.state) dev.old }
{
    let mut map = BTreeMap::new(alloc);
    for (index, (version, ordinal, bytes)) in STEPS.iter().enumerate() {
        let name = ChunkName {
            version: *version,
            ordinal: *ordinal,
        };
        let all = index != stopped;
        stop_step(dev, name, *bytes, if all { 100 } else { calls }, pick)?;
        // The third call opens the new payload's gate, where it lands its one byte.
        if all || calls > 2 || (calls == 2 && pick > 0) {
            step_map(&mut map, name, *bytes)?;
        }
        assert!(rt; holds(dev, &map)?, "{stopped} {calls} {pick} {index}");
    }
    Ok(())
}

fn run<D: Disk + Drop>(
    rt: &impl Abort,
    alloc: Global,
    dev: &mut ChunkDev<FuseDisk<D>>,
    stopped: usize,
    calls: u32,
    pick: u64,
) -> Result<(), Fail>
    requires { IsUp (vault_of dev.old) }
{
    dev.format()?;
    run_steps(rt, alloc, dev, stopped, calls, pick)
}

#[test]
fn chunks_are_put_dropped_and_found_after_a_crash(rt: HostRuntime) -> Result<(), Fail> {
    for stopped in 0..STEPS.len() {
        for calls in 0..5 {
            for pick in [0, 1, 1000] {
                let mut dev = ChunkDev::new(rt.alloc(), FuseDisk::new(MemDisk::new(rt.alloc())));
                run(&rt, rt.alloc(), &mut dev, stopped, calls, pick)?;
            }
        }
    }
    Ok(())
}

/// A put of the chunk "abc" of version 7, ordinal 9, and a drop of it.
const PUT: [u8; 16] = [1, 0, 0, 0, 0, 0, 0, 0, 7, 0, 0, 0, 9, 97, 98, 99];

const DROP: [u8; 13] = [2, 0, 0, 0, 0, 0, 0, 0, 7, 0, 0, 0, 9];

const NAME: ChunkName = ChunkName {
    version: 7,
    ordinal: 9,
};

#[test]
fn cut_payloads_of_chunks_are_passed_over(rt: HostRuntime) -> Result<(), Fail> {
    let alloc = rt.alloc();
    for len in 0..17 {
        let mut dev = ChunkDev::new(alloc, disk_of_two(alloc, &PUT, len, &[3])?);
        dev.look()?;
        let found = dev.get(NAME);
        // A put that ends behind its name puts no bytes.
        if len < 13 {
            assert_eq!(rt; found.err(), Some(ChunkFault::Absent), "{len}");
        } else {
            assert_eq!(rt; found?.as_slice(), &PUT[13..len], "{len}");
        }
    }
    for len in 0..14 {
        let mut dev = ChunkDev::new(alloc, disk_of_two(alloc, &DROP, len, &PUT)?);
        dev.look()?;
        assert_eq!(rt; dev.get(NAME)?.as_slice(), b"abc".as_slice(), "{len}");
        let mut dev = ChunkDev::new(alloc, disk_of_two(alloc, &PUT, 16, &DROP[..len])?);
        dev.look()?;
        assert_eq!(rt; dev.has(NAME), len < 13, "{len}");
    }
    Ok(())
}
