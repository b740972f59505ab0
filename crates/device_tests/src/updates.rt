//! An update of a row, cut short at each place, and its recovery cut short too.
ghost use Rattle.std.specs.Prelude.{◌≤◌, OnOk, IfOk, length};
ghost use Rattle.disk_trait.specs.Fuse.{behind};
ghost use Rattle.stab_base.specs.declared.limits.TheConstants.{NUMBER_MAX};
ghost use Rattle.chunk_store.specs.Standing as chunk_devs;
ghost use Rattle.row_store.specs.Spelling.{HasStoredSpelling};
ghost use Rattle.status_log.specs.Entry.{entry_of, HasSpelling};
ghost use Rattle.device_tests.specs.Standing.{ChunksStand, RowsStand, LogStands, AreWhole, AreWorking};

use crate::rows::row_with;
use chunk_store::{ChunkDev, ChunkFault, ChunkName, NUMBER_MAX};
use disk_kit::MemDisk;
use disk_trait::{Disk, FuseDisk};
use row_store::{Piece, PieceContent, RowDev, RowFault, RowId, StoredRow, Version, row_size};
use stab_base::Step;
use status_log::{LogEntry, LogFault, StatusLog};
use std::alloc::{AllocError, Global};
use std::process::Abort;
use std::test::Fail;
use store_commit::{CommitFault, TableDevs};

/// The row's byte of id.
const ROW: u8 = 7;

/// The row's chunks before the update, and those behind it: one is kept, one dropped, and three are new.
const BEFORE: [(Version, u32); 2] = [(1, 0), (1, 1)];

const BEHIND: [(Version, u32); 4] = [(1, 1), (2, 0), (2, 1), (2, 2)];

/// One write of the update.
#[derive(Clone, Copy)]
enum Write {
    Open,
    Put(u32),
    Row,
    Drop,
    Close,
}

const UPDATE: [Write; 7] = [
    Write::Open,
    Write::Put(0),
    Write::Put(1),
    Write::Put(2),
    Write::Row,
    Write::Drop,
    Write::Close,
];

/// The place of the row's write, with which the update is whole.
const TURN: usize = 4;

fn bytes_of(name: ChunkName) -> [u8; 3] {
    [(name.version % 256) as u8, (name.ordinal % 256) as u8, 0xc4]
}

pub(crate) fn name_of(pair: (Version, u32)) -> ChunkName {
    ChunkName {
        version: pair.0,
        ordinal: pair.1,
    }
}

// A content of one object of these chunks.
fn content_with(alloc: Global, names: &[(Version, u32)]) -> Result<Vec<u8>, AllocError> {
    let mut bytes = Vec::new(alloc);
    bytes.extend_from_slice(&[1, 0, 0, 0, 0, 0, 0, 0, 1])?;
    let count = (names.len() % 256) as u8;
    bytes.extend_from_slice(&[0, 0, count, 0, 0, 0, 0, count])?;
    for (version, ordinal) in names {
        bytes.push(0)?;
        bytes.extend_from_slice(&version.to_be_bytes())?;
        bytes.extend_from_slice(&ordinal.to_be_bytes())?;
    }
    Ok(bytes)
}

fn entry_of_update(alloc: Global) -> Result<LogEntry, AllocError>
    ensures { IfOk result (λ entry. HasSpelling (entry_of entry)) }
{
    let mut old = Vec::new(alloc);
    old.push(ChunkName {
        version: 1,
        ordinal: 0,
    })?;
    Ok(LogEntry {
        version: 2,
        row: RowId::from_bytes([ROW; 16]),
        client: 1,
        number: 1,
        base: 1,
        fresh: 3,
        old,
    })
}

// Each of these does one write, where a fuse stops it after so many calls of the disk; then crashes and looks.
pub(crate) fn stop_put<D: Disk + Drop>(
    dev: &mut ChunkDev<FuseDisk<D>>,
    name: ChunkName,
    bytes: &[u8],
    calls: u32,
    pick: u64,
) -> Result<(), ChunkFault>
    requires stands { ChunksStand (behind D.state) dev.old }
    requires version { name.version ≤ NUMBER_MAX }
    requires short { length bytes.now ≤ 100 }
    ensures { OnOk result (ChunksStand (behind D.state) dev.new) }
{
    dev.reserve(1, 13 + bytes.len() as u64)?;
    dev.open_write()?;
    dev.stop_after(calls, pick);
    let _ = dev.put(name, bytes);
    dev.restart(0);
    dev.look()
}

fn stop_drop<D: Disk + Drop>(
    dev: &mut ChunkDev<FuseDisk<D>>,
    name: ChunkName,
    calls: u32,
    pick: u64,
) -> Result<(), ChunkFault>
    requires { ChunksStand (behind D.state) dev.old }
    ensures { OnOk result (ChunksStand (behind D.state) dev.new) }
{
    dev.reserve(1, 13)?;
    dev.open_write()?;
    dev.stop_after(calls, pick);
    if !dev.has(name) {
        return Ok(());
    }
    let _ = dev.drop_chunk(name);
    dev.restart(0);
    dev.look()
}

pub(crate) fn stop_row<D: Disk + Drop>(
    dev: &mut RowDev<FuseDisk<D>>,
    stored: StoredRow,
    calls: u32,
    pick: u64,
) -> Result<(), RowFault>
    requires stands { RowsStand (behind D.state) dev.old }
    requires spelled { HasStoredSpelling stored }
    ensures { OnOk result (RowsStand (behind D.state) dev.new) }
{
    let Some(size) = row_size(&stored) else {
        return Ok(());
    };
    dev.reserve(1, size as u64)?;
    dev.open_write()?;
    dev.stop_after(calls, pick);
    let _ = dev.put_row(stored);
    dev.restart(0);
    dev.look()
}

pub(crate) fn stop_open<D: Disk + Drop>(
    log: &mut StatusLog<FuseDisk<D>>,
    entry: &LogEntry,
    calls: u32,
    pick: u64,
) -> Result<(), LogFault>
    requires stands { LogStands (behind D.state) log.old }
    requires spelled { HasSpelling (entry_of entry.now) }
    ensures { OnOk result (LogStands (behind D.state) log.new) }
{
    log.reserve(1, 53 + 12 * entry.old.len() as u64)?;
    log.open_write()?;
    log.stop_after(calls, pick);
    if log.pending().is_some() {
        return Ok(());
    }
    let _ = log.open_entry(entry);
    log.restart(0);
    log.look()
}

fn stop_close<D: Disk + Drop>(
    log: &mut StatusLog<FuseDisk<D>>,
    calls: u32,
    pick: u64,
) -> Result<(), LogFault>
    requires { LogStands (behind D.state) log.old }
    ensures { OnOk result (LogStands (behind D.state) log.new) }
{
    log.reserve(1, 9)?;
    log.open_write()?;
    log.stop_after(calls, pick);
    if log.pending().is_none() {
        return Ok(());
    }
    let _ = log.close_entry();
    log.restart(0);
    log.look()
}

fn put_row<D: Disk + Drop>(
    alloc: Global,
    rows: &mut RowDev<FuseDisk<D>>,
    names: &[(Version, u32)],
    version: Version,
    calls: u32,
    pick: u64,
) -> Result<(), Fail>
    requires stands { RowsStand (behind D.state) rows.old }
    requires version { version ≤ NUMBER_MAX }
    ensures { OnOk result (RowsStand (behind D.state) rows.new) }
{
    let stored = row_with(alloc, ROW, version, &content_with(alloc, names)?)?;
    stop_row(rows, stored, calls, pick)?;
    Ok(())
}

fn write_one<D: Disk + Drop>(
    alloc: Global,
    chunks: &mut ChunkDev<FuseDisk<D>>,
    rows: &mut RowDev<FuseDisk<D>>,
    log: &mut StatusLog<FuseDisk<D>>,
    write: Write,
    calls: u32,
    pick: u64,
) -> Result<(), Fail>
    requires chunks { ChunksStand (behind D.state) chunks.old }
    requires rows { RowsStand (behind D.state) rows.old }
    requires log { LogStands (behind D.state) log.old }
    ensures chunks { OnOk result (ChunksStand (behind D.state) chunks.new) }
    ensures rows { OnOk result (RowsStand (behind D.state) rows.new) }
    ensures log { OnOk result (LogStands (behind D.state) log.new) }
{
    match write {
        Write::Open => {
            let entry = entry_of_update(alloc)?;
            stop_open(log, &entry, calls, pick)?;
        }
        Write::Put(ordinal) => {
            let name = ChunkName {
                version: 2,
                ordinal,
            };
            stop_put(chunks, name, &bytes_of(name), calls, pick)?;
        }
        Write::Row => put_row(alloc, rows, &BEHIND, 2, calls, pick)?,
        Write::Drop => {
            let name = ChunkName {
                version: 1,
                ordinal: 0,
            };
            stop_drop(chunks, name, calls, pick)?;
        }
        Write::Close => stop_close(log, calls, pick)?,
    }
    Ok(())
}

// Three disks of a table with one row of two chunks.
fn start_table<D: Disk + Drop>(
    alloc: Global,
    chunks: &mut ChunkDev<FuseDisk<D>>,
    rows: &mut RowDev<FuseDisk<D>>,
    log: &mut StatusLog<FuseDisk<D>>,
) -> Result<(), Fail>
    ensures chunks { OnOk result (ChunksStand (behind D.state) chunks.new) }
    ensures rows { OnOk result (RowsStand (behind D.state) rows.new) }
    ensures log { OnOk result (LogStands (behind D.state) log.new) }
{
    chunks.format()?;
    rows.format()?;
    log.format()?;
    for ordinal in 0..2 {
        let name = ChunkName {
            version: 1,
            ordinal,
        };
        stop_put(chunks, name, &bytes_of(name), 100, 0)?;
    }
    put_row(alloc, rows, &BEFORE, 1, 100, 0)?;
    Ok(())
}

// The writes of the update up to one that is stopped.
fn update<D: Disk + Drop>(
    alloc: Global,
    chunks: &mut ChunkDev<FuseDisk<D>>,
    rows: &mut RowDev<FuseDisk<D>>,
    log: &mut StatusLog<FuseDisk<D>>,
    stopped: usize,
    calls: u32,
    pick: u64,
) -> Result<(), Fail>
    requires chunks { ChunksStand (behind D.state) chunks.old }
    requires rows { RowsStand (behind D.state) rows.old }
    requires log { LogStands (behind D.state) log.old }
    ensures chunks { OnOk result (ChunksStand (behind D.state) chunks.new) }
    ensures rows { OnOk result (RowsStand (behind D.state) rows.new) }
    ensures log { OnOk result (LogStands (behind D.state) log.new) }
{
    for (index, write) in UPDATE.iter().enumerate() {
        if index < stopped {
            write_one(alloc, chunks, rows, log, *write, 100, 0)?;
        } else if index == stopped {
            write_one(alloc, chunks, rows, log, *write, calls, pick)?;
        }
    }
    Ok(())
}

// The three devices as one, still to be looked at.
pub(crate) fn joined<D: Disk + Drop>(
    alloc: Global,
    chunks: ChunkDev<FuseDisk<D>>,
    rows: RowDev<FuseDisk<D>>,
    log: StatusLog<FuseDisk<D>>,
) -> TableDevs<FuseDisk<D>>
    requires chunks { ChunksStand (behind D.state) chunks }
    requires rows { RowsStand (behind D.state) rows }
    requires log { LogStands (behind D.state) log }
    ensures { AreWhole (behind D.state) result }
{
    TableDevs::new(alloc, chunks.into_disk(), rows.into_disk(), log.into_disk())
}

// A table whose update was cut short.
fn cut_short(
    alloc: Global,
    stopped: usize,
    calls: u32,
    pick: u64,
) -> Result<TableDevs<FuseDisk<MemDisk>>, Fail>
    ensures { IfOk result (AreWhole (behind (⟦<MemDisk as Disk>⟧.state))) }
{
    let mut chunks = ChunkDev::new(alloc, FuseDisk::new(MemDisk::new(alloc)));
    let mut rows = RowDev::new(alloc, FuseDisk::new(MemDisk::new(alloc)));
    let mut log = StatusLog::new(alloc, FuseDisk::new(MemDisk::new(alloc)));
    start_table(alloc, &mut chunks, &mut rows, &mut log)?;
    update(
        alloc,
        &mut chunks,
        &mut rows,
        &mut log,
        stopped,
        calls,
        pick,
    )?;
    Ok(joined(alloc, chunks, rows, log))
}

// Takes the recovery on.
fn start_recovery<D: Disk + Drop>(devs: &mut TableDevs<D>) -> Result<(), CommitFault>
    requires { AreWhole D.state devs.old }
    ensures { OnOk result (AreWorking D.state devs.new) }
{
    devs.look()?;
    devs.recover()?;
    Ok(())
}

pub(crate) fn work_once<D: Disk + Drop>(devs: &mut TableDevs<D>) -> Result<Step, CommitFault>
    requires { AreWorking D.state devs.old }
    ensures { OnOk result (AreWorking D.state devs.new) }
{
    devs.work()
}

// Does the next write, where a fuse stops it after so many calls of the disk; then crashes.
pub(crate) fn work_stopped<D: Disk + Drop>(devs: &mut TableDevs<FuseDisk<D>>, calls: u32, pick: u64)
    requires { AreWorking (behind D.state) devs.old }
    ensures { AreWhole (behind D.state) devs.new }
{
    devs.stop_after(calls, pick);
    let _ = devs.work();
    devs.restart(0);
}

// Recovers, where a fuse stops one of the writes; then crashes.
fn recover_stopped<D: Disk + Drop>(
    devs: &mut TableDevs<FuseDisk<D>>,
    stopped: usize,
    calls: u32,
    pick: u64,
) -> Result<(), CommitFault>
    requires { AreWhole (behind D.state) devs.old }
    ensures { OnOk result (AreWhole (behind D.state) devs.new) }
{
    start_recovery(devs)?;
    for _ in 0..stopped {
        work_once(devs)?;
    }
    work_stopped(devs, calls, pick);
    Ok(())
}

// Recovers to the end.
fn recover<D: Disk + Drop>(devs: &mut TableDevs<D>) -> Result<(), CommitFault>
    requires { AreWhole D.state devs.old }
{
    start_recovery(devs)?;
    for _ in 0..20 {
        work_once(devs)?;
    }
    Ok(())
}

// Whether a device holds these chunks and no other.
fn has_chunks<D: Disk + Drop>(
    dev: &mut ChunkDev<D>,
    names: &[(Version, u32)],
) -> Result<bool, ChunkFault>
    requires { chunk_devs.IsLookedAt D.state dev.old }
{
    let mut same = dev.names()?.len() == names.len();
    for pair in names {
        let name = name_of(*pair);
        let found = dev.get(name)?;
        same = same && found.as_slice() == bytes_of(name).as_slice();
    }
    Ok(same)
}

fn holds_chunks(
    alloc: Global,
    disk: FuseDisk<MemDisk>,
    names: &[(Version, u32)],
) -> Result<bool, Fail> {
    let mut dev = ChunkDev::new(alloc, disk);
    dev.restart(0);
    dev.look()?;
    Ok(has_chunks(&mut dev, names)?)
}

// Whether a row's content is one object of these chunks.
pub(crate) fn names_chunks(content: &PieceContent, names: &[(Version, u32)]) -> bool {
    let PieceContent::Row { objects, .. } = content else {
        return false;
    };
    let Some(object) = objects.get(0) else {
        return false;
    };
    let pieces = object.pieces.as_slice();
    pieces.len() == names.len()
        && pieces
            .iter()
            .zip(names)
            .all(|(piece, pair)| *piece == Piece::Keep(name_of(*pair)))
}

fn holds_row(
    alloc: Global,
    disk: FuseDisk<MemDisk>,
    version: Version,
    names: &[(Version, u32)],
) -> Result<bool, Fail> {
    let mut dev = RowDev::new(alloc, disk);
    dev.restart(0);
    dev.look()?;
    let stored = dev.get_row(&RowId::from_bytes([ROW; 16]))?;
    Ok(stored.version == version && names_chunks(&stored.content, names))
}

fn has_no_entry(alloc: Global, disk: FuseDisk<MemDisk>) -> Result<bool, Fail> {
    let mut log = StatusLog::new(alloc, disk);
    log.restart(0);
    log.look()?;
    Ok(log.pending().is_none())
}

// Whether the three disks hold the row from before the update, or the one behind it, and nothing else.
fn holds(alloc: Global, devs: TableDevs<FuseDisk<MemDisk>>, is_behind: bool) -> Result<bool, Fail> {
    let (chunks, rows, log) = devs.into_disks();
    let names: &[(Version, u32)] = if is_behind { &BEHIND } else { &BEFORE };
    let version = if is_behind { 2 } else { 1 };
    Ok(
        holds_chunks(alloc, chunks, names)?
            && holds_row(alloc, rows, version, names)?
            && has_no_entry(alloc, log)?,
    )
}

// The third call of a write opens its payload's gate, where it lands its one byte.
pub(crate) fn lands(calls: u32, pick: u64) -> bool {
    calls > 2 || (calls == 2 && pick > 0)
}

#[test]
fn an_update_cut_short_is_whole_or_not_there(rt: HostRuntime) -> Result<(), Fail> {
    for stopped in 0..UPDATE.len() {
        for calls in 0..5 {
            for pick in [0, 1, 1000] {
                let mut devs = cut_short(rt.alloc(), stopped, calls, pick)?;
                recover(&mut devs)?;
                let is_behind = stopped > TURN || (stopped == TURN && lands(calls, pick));
                assert!(rt;
                    holds(rt.alloc(), devs, is_behind)?,
                    "{stopped} {calls} {pick}"
                );
            }
        }
    }
    Ok(())
}

#[test]
fn a_recovery_cut_short_is_recovered(rt: HostRuntime) -> Result<(), Fail> {
    for stopped in 0..UPDATE.len() {
        for again in 0..8 {
            for calls in 0..5 {
                for pick in [0, 1, 1000] {
                    let mut devs = cut_short(rt.alloc(), stopped, 4, 0)?;
                    recover_stopped(&mut devs, again, calls, pick)?;
                    recover(&mut devs)?;
                    assert!(rt;
                        holds(rt.alloc(), devs, stopped >= TURN)?,
                        "{stopped} {again} {calls} {pick}"
                    );
                }
            }
        }
    }
    Ok(())
}
