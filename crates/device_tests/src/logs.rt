//! A status log against an option.
ghost use Rattle.std.specs.Prelude.{◌≡◌, ◌+◌, ◌≤◌, OnOk, IfOk, length};
ghost use Rattle.disk_trait.specs.Fuse.{behind};
ghost use Rattle.stab_base.specs.declared.limits.TheConstants.{NUMBER_MAX};
ghost use Rattle.status_log.specs.Entry.{entry_of, HasSpelling};
ghost use Rattle.vault.specs.Standing.{IsUp};
ghost use Rattle.status_log.specs.Standing.{vault_of, IsLookedAt};

use crate::disks::disk_of_two;
use disk_kit::MemDisk;
use disk_trait::{Disk, FuseDisk};
use stab_base::{ChunkName, NUMBER_MAX, RowId, Version};
use status_log::{LogEntry, LogFault, StatusLog};
use std::alloc::Global;
use std::process::Abort;
use std::test::Fail;

/// What is done in turn: an entry of a version is opened, or the open one is closed.
const STEPS: [Option<Version>; 7] = [
    Some(1),
    None,
    Some(NUMBER_MAX),
    None,
    Some(0),
    None,
    Some(2),
];

/// An opening of version 7 of client 2, with one old name, and a close of that version.
const OPEN: [u8; 65] = [
    1, 0, 0, 0, 0, 0, 0, 0, 7, 5, 5, 5, 5, 5, 5, 5, 5, 5, 5, 5, 5, 5, 5, 5, 5, 0, 0, 0, 2, 0, 0, 0,
    0, 0, 0, 0, 3, 0, 0, 0, 0, 0, 0, 0, 6, 0, 0, 0, 1, 0, 0, 0, 1, 0, 0, 0, 0, 0, 0, 0, 4, 0, 0, 0,
    8,
];

const CLOSE: [u8; 9] = [2, 0, 0, 0, 0, 0, 0, 0, 7];

fn entry_with(alloc: Global, version: Version) -> Result<LogEntry, Fail>
    requires { version ≤ NUMBER_MAX }
    ensures { IfOk result (λ entry. HasSpelling (entry_of entry)) }
{
    let mut old = Vec::new(alloc);
    old.push(ChunkName {
        version: 4,
        ordinal: u32::MAX,
    })?;
    Ok(LogEntry {
        version,
        row: RowId::from_bytes([5; 16]),
        client: 64,
        number: 3,
        base: 6,
        fresh: 1,
        old,
    })
}

fn stop_open<D: Disk + Drop>(
    log: &mut StatusLog<FuseDisk<D>>,
    entry: &LogEntry,
    calls: u32,
    pick: u64,
) -> Result<(), LogFault>
    requires looked { IsLookedAt (behind D.state) log.old }
    requires spelled { HasSpelling (entry_of entry.now) }
{
    log.reserve(1, 53 + 12 * entry.old.len() as u64)?;
    log.open_write()?;
    log.stop_after(calls, pick);
    let _ = log.open_entry(entry);
    Ok(())
}

fn stop_close<D: Disk + Drop>(
    log: &mut StatusLog<FuseDisk<D>>,
    calls: u32,
    pick: u64,
) -> Result<(), LogFault>
    requires { IsLookedAt (behind D.state) log.old }
{
    log.reserve(1, 9)?;
    log.open_write()?;
    log.stop_after(calls, pick);
    if log.pending().is_some() {
        let _ = log.close_entry();
    }
    Ok(())
}

// Opens for writes, where a fuse stops it after so many calls of the disk; then crashes and looks.
fn stop_opening<D: Disk + Drop>(
    log: &mut StatusLog<FuseDisk<D>>,
    calls: u32,
    pick: u64,
) -> Result<(), LogFault>
    requires { IsLookedAt (behind D.state) log.old }
    ensures { OnOk result (IsLookedAt (behind D.state) log.new) }
{
    log.reserve(0, 0)?;
    log.stop_after(calls, pick);
    let _ = log.open_write();
    log.restart(0);
    log.look()
}

// Does one step, where a fuse stops it after so many calls of the disk; then crashes and looks.
fn stop_step<D: Disk + Drop>(
    alloc: Global,
    log: &mut StatusLog<FuseDisk<D>>,
    step: Option<Version>,
    calls: u32,
    pick: u64,
) -> Result<(), Fail>
    requires { IsLookedAt (behind D.state) log.old }
    ensures { OnOk result (IsLookedAt (behind D.state) log.new) }
{
    stop_opening(log, calls, pick)?;
    match step {
        Some(version) if version <= NUMBER_MAX => {
            let entry = entry_with(alloc, version)?;
            stop_open(log, &entry, calls, pick)?;
        }
        _ => stop_close(log, calls, pick)?,
    }
    log.restart(0);
    log.look()?;
    Ok(())
}

// The version of the open entry, where the rest of it is what it was opened with.
fn version_open<D: Disk + Drop>(log: &StatusLog<D>, client: u32) -> Option<Version>
    requires { IsLookedAt D.state log.now }
{
    let entry = log.pending()?;
    let same = entry.client == client && entry.number == 3 && entry.base == 6 && entry.fresh == 1;
    if same && entry.row == RowId::from_bytes([5; 16]) && entry.old.len() == 1 {
        Some(entry.version)
    } else {
        None
    }
}

// Does all steps, where a fuse stops one of them after so many calls of the disk.
fn run_steps<D: Disk + Drop>(
    rt: &impl Abort,
    alloc: Global,
    log: &mut StatusLog<FuseDisk<D>>,
    stopped: usize,
    calls: u32,
    pick: u64,
) -> Result<(), Fail>
    requires { IsLookedAt (behind D.state) log.old }
{
    let mut model = None;
    for (index, step) in STEPS.iter().enumerate() {
        let all = index != stopped;
        stop_step(alloc, log, *step, if all { 100 } else { calls }, pick)?;
        // An open entry refuses another one; the third call opens the new payload's gate.
        let lands = all || calls > 2 || (calls == 2 && pick > 0);
        if lands && (model.is_none() || step.is_none()) {
            model = *step;
        }
        assert_eq!(rt;
            version_open(log, 64),
            model,
            "{stopped} {calls} {pick} {index}"
        );
    }
    Ok(())
}

fn run<D: Disk + Drop>(
    rt: &impl Abort,
    alloc: Global,
    log: &mut StatusLog<FuseDisk<D>>,
    stopped: usize,
    calls: u32,
    pick: u64,
) -> Result<(), Fail>
    requires { IsUp (vault_of log.old) }
{
    log.format()?;
    run_steps(rt, alloc, log, stopped, calls, pick)
}

#[test]
fn entries_are_opened_and_closed_after_a_crash(rt: HostRuntime) -> Result<(), Fail> {
    for stopped in 0..STEPS.len() {
        for calls in 0..5 {
            for pick in [0, 1, 1000] {
                let mut log = StatusLog::new(rt.alloc(), FuseDisk::new(MemDisk::new(rt.alloc())));
                run(&rt, rt.alloc(), &mut log, stopped, calls, pick)?;
            }
        }
    }
    Ok(())
}

#[test]
fn cut_payloads_of_a_log_are_passed_over(rt: HostRuntime) -> Result<(), Fail> {
    let alloc = rt.alloc();
    for len in 0..66 {
        let mut log = StatusLog::new(alloc, disk_of_two(alloc, &OPEN, len, &[9])?);
        log.look()?;
        assert_eq!(rt;
            version_open(&log, 2),
            if len == 65 { Some(7) } else { None },
            "{len}"
        );
    }
    for len in 0..10 {
        let mut log = StatusLog::new(alloc, disk_of_two(alloc, &CLOSE, len, &OPEN)?);
        log.look()?;
        assert_eq!(rt; version_open(&log, 2), Some(7), "{len}");
    }
    Ok(())
}
