//! Disks that this program never wrote: which rows are there.
ghost use Rattle.std.specs.Prelude.{◌≡◌, ◌≤◌, OnOk, IfOk};
ghost use Rattle.disk_trait.specs.Fuse.{behind};
ghost use Rattle.stab_base.specs.declared.limits.TheConstants.{NUMBER_MAX};
ghost use Rattle.status_log.specs.Entry.{entry_of, HasSpelling};
ghost use Rattle.store_commit.specs.Standing.{AreSynced};
ghost use Rattle.device_tests.specs.Standing.{ChunksStand, RowsStand, LogStands, AreWhole, AreKnown, AreWorking};

use crate::disks::disk_of;
use crate::rows::row_with;
use crate::updates::{joined, stop_open, stop_put, stop_row, work_once};
use chunk_store::{ChunkDev, ChunkName, NUMBER_MAX};
use disk_kit::MemDisk;
use disk_trait::{Disk, FuseDisk};
use new_rows::start_again;
use row_store::{RowDev, RowId, Version};
use status_log::{LogEntry, StatusLog};
use std::alloc::{AllocError, Global};
use std::process::Abort;
use std::test::Fail;
use store_commit::{CommitFault, TableDevs};
use value_codec::schema_of;

/// A causal table "t" of one column "a" of objects, in chunks of 64 bytes.
pub(crate) const SCHEMA: [u8; 20] = [
    0, 0, 0, 1, 116, 2, 0, 0, 0, 64, 0, 0, 0, 1, 0, 0, 0, 1, 97, 4,
];

/// The chunks on the device: a name, and how many bytes it has.
const CHUNKS: [(Version, u32, usize); 4] = [(1, 0, 64), (1, 1, 36), (1, 2, 64), (2, 0, 64)];

/// A row: its byte of id, its version, how many cells it has, its object's length, and the names in it.
#[derive(Clone, Copy)]
struct Row(u8, Version, u8, u8, &'static [(Version, u32)]);

/// Rows, and whether each of the ids 1, 2 and 3 is there.
#[derive(Clone, Copy)]
struct Case(&'static [Row], [bool; 3]);

const CASES: [Case; 15] = [
    // whole rows, one of them without a chunk
    Case(
        &[
            Row(1, 1, 0, 100, &[(1, 0), (1, 1)]),
            Row(2, 2, 0, 64, &[(2, 0)]),
            Row(3, 1, 0, 0, &[]),
        ],
        [true, true, true],
    ),
    // a cell in a table without a column for it
    Case(&[Row(1, 1, 1, 64, &[(1, 0)])], [false, false, false]),
    // a name without a chunk
    Case(&[Row(1, 1, 0, 64, &[(1, 9)])], [false, false, false]),
    // a chunk shorter than its place, and one longer
    Case(&[Row(1, 1, 0, 64, &[(1, 1)])], [false, false, false]),
    Case(&[Row(1, 1, 0, 30, &[(1, 1)])], [false, false, false]),
    // a chunk too few, and one too many
    Case(&[Row(1, 1, 0, 100, &[(1, 0)])], [false, false, false]),
    Case(
        &[Row(1, 1, 0, 64, &[(1, 0), (1, 1)])],
        [false, false, false],
    ),
    // a name twice
    Case(
        &[Row(1, 1, 0, 128, &[(1, 0), (1, 0)])],
        [false, false, false],
    ),
    // a name that a row before it has
    Case(
        &[
            Row(2, 1, 0, 64, &[(1, 0)]),
            Row(1, 1, 0, 64, &[(1, 0)]),
            Row(3, 1, 0, 64, &[(1, 2)]),
        ],
        [true, false, true],
    ),
    // a name above the row's version
    Case(&[Row(1, 1, 0, 64, &[(2, 0)])], [false, false, false]),
    // what a row names that isn't there is free
    Case(
        &[Row(1, 1, 1, 64, &[(1, 0)]), Row(2, 1, 0, 64, &[(1, 0)])],
        [false, true, false],
    ),
    // two cases at once: twice and above, twice and shared
    Case(
        &[Row(1, 1, 0, 128, &[(2, 0), (2, 0)])],
        [false, false, false],
    ),
    Case(
        &[
            Row(1, 1, 0, 64, &[(1, 0)]),
            Row(2, 1, 0, 128, &[(1, 0), (1, 0)]),
        ],
        [true, false, false],
    ),
    // shared and shorter, above and without a chunk
    Case(
        &[Row(1, 1, 0, 36, &[(1, 1)]), Row(2, 1, 0, 64, &[(1, 1)])],
        [true, false, false],
    ),
    Case(&[Row(1, 1, 1, 64, &[(3, 9)])], [false, false, false]),
];

// A content of so many cells, and one object.
fn content_with(
    alloc: Global,
    cells: u8,
    len: u8,
    names: &[(Version, u32)],
) -> Result<Vec<u8>, AllocError> {
    let mut bytes = Vec::new(alloc);
    bytes.extend_from_slice(&[1, 0, 0, 0, cells])?;
    for _ in 0..cells {
        bytes.extend_from_slice(&[1, 0, 0, 0, 0, 0, 0, 0, 5])?;
    }
    let count = (names.len() % 256) as u8;
    bytes.extend_from_slice(&[0, 0, 0, 1, 0, 0, 0, len, 0, 0, 0, count])?;
    for (version, ordinal) in names {
        bytes.push(0)?;
        bytes.extend_from_slice(&version.to_be_bytes())?;
        bytes.extend_from_slice(&ordinal.to_be_bytes())?;
    }
    Ok(bytes)
}

fn put_table<D: Disk + Drop>(alloc: Global, rows: &mut RowDev<FuseDisk<D>>) -> Result<(), Fail>
    requires { RowsStand (behind D.state) rows.old }
    ensures { OnOk result (RowsStand (behind D.state) rows.new) }
{
    let table = schema_of(alloc, &SCHEMA)?;
    rows.reserve(1, 2 + SCHEMA.len() as u64)?;
    rows.open_write()?;
    let _ = rows.put_table(&table, 2);
    rows.restart(0);
    rows.look()?;
    Ok(())
}

fn put_row<D: Disk + Drop>(
    alloc: Global,
    rows: &mut RowDev<FuseDisk<D>>,
    row: Row,
) -> Result<(), Fail>
    requires { RowsStand (behind D.state) rows.old }
    ensures { OnOk result (RowsStand (behind D.state) rows.new) }
{
    let Row(id, version, cells, len, names) = row;
    if version > NUMBER_MAX {
        return Ok(());
    }
    let content = content_with(alloc, cells, len, names)?;
    let stored = row_with(alloc, id, version, &content)?;
    stop_row(rows, stored, 100, 0)?;
    Ok(())
}

// The device of the chunks, with all of them.
fn put_chunks<D: Disk + Drop>(alloc: Global, chunks: &mut ChunkDev<FuseDisk<D>>) -> Result<(), Fail>
    ensures { OnOk result (ChunksStand (behind D.state) chunks.new) }
{
    chunks.format()?;
    for (version, ordinal, len) in CHUNKS {
        let bytes = vec![in alloc; 7u8; len.min(100)]?;
        let name = ChunkName {
            version: version.min(NUMBER_MAX),
            ordinal,
        };
        stop_put(chunks, name, &bytes, 100, 0)?;
    }
    Ok(())
}

fn put_rows<D: Disk + Drop>(
    alloc: Global,
    rows: &mut RowDev<FuseDisk<D>>,
    has_table: bool,
    given: &[Row],
) -> Result<(), Fail>
    ensures { OnOk result (RowsStand (behind D.state) rows.new) }
{
    rows.format()?;
    if has_table {
        put_table(alloc, rows)?;
    }
    for row in given {
        put_row(alloc, rows, *row)?;
    }
    Ok(())
}

// An entry of the row with byte of id 3, and version 2, whose old chunks are two of those on the device.
fn entry_left(alloc: Global) -> Result<LogEntry, AllocError>
    ensures { IfOk result (λ entry. HasSpelling (entry_of entry)) }
{
    let mut old = Vec::new(alloc);
    old.push(ChunkName {
        version: 1,
        ordinal: 0,
    })?;
    old.push(ChunkName {
        version: 1,
        ordinal: 1,
    })?;
    Ok(LogEntry {
        version: 2,
        row: RowId::from_bytes([3; 16]),
        client: 1,
        number: 1,
        base: 1,
        fresh: 1,
        old,
    })
}

fn put_entry<D: Disk + Drop>(
    alloc: Global,
    log: &mut StatusLog<FuseDisk<D>>,
    is_open: bool,
) -> Result<(), Fail>
    ensures { OnOk result (LogStands (behind D.state) log.new) }
{
    log.format()?;
    if is_open {
        let entry = entry_left(alloc)?;
        stop_open(log, &entry, 100, 0)?;
    }
    Ok(())
}

fn table_with(
    alloc: Global,
    has_table: bool,
    given: &[Row],
    is_open: bool,
) -> Result<TableDevs<FuseDisk<MemDisk>>, Fail>
    ensures { IfOk result (AreWhole (behind (⟦<MemDisk as Disk>⟧.state))) }
{
    let mut chunks = ChunkDev::new(alloc, FuseDisk::new(MemDisk::new(alloc)));
    let mut rows = RowDev::new(alloc, FuseDisk::new(MemDisk::new(alloc)));
    let mut log = StatusLog::new(alloc, FuseDisk::new(MemDisk::new(alloc)));
    put_chunks(alloc, &mut chunks)?;
    put_rows(alloc, &mut rows, has_table, given)?;
    put_entry(alloc, &mut log, is_open)?;
    Ok(joined(alloc, chunks, rows, log))
}

fn start<D: Disk + Drop>(devs: &mut TableDevs<D>) -> Result<(), CommitFault>
    requires { AreSynced D.state devs.old }
    ensures { OnOk result (AreKnown D.state devs.new) }
{
    devs.look()?;
    devs.scan()
}

// Whether a row is answered, told as changed, and has a version: all three or none.
fn is_there<D: Disk + Drop>(devs: &mut TableDevs<D>, id: u8) -> Result<Option<bool>, CommitFault>
    requires { AreKnown D.state devs.old }
    ensures { OnOk result (AreKnown D.state devs.new) }
{
    let row = RowId::from_bytes([id; 16]);
    let is_answered = devs.row(&row)?.is_some();
    let is_told = devs
        .changed_since(0)?
        .as_slice()
        .iter()
        .any(|each| each.row == row);
    let has_version = devs.version_of(&row) > 0;
    if is_answered == is_told && is_told == has_version {
        Ok(Some(is_answered))
    } else {
        Ok(None)
    }
}

fn are_there<D: Disk + Drop>(devs: &mut TableDevs<D>, ids: [bool; 3]) -> Result<bool, CommitFault>
    requires { AreKnown D.state devs.old }
{
    let first = is_there(devs, 1)?;
    let second = is_there(devs, 2)?;
    let third = is_there(devs, 3)?;
    Ok(first == Some(ids[0]) && second == Some(ids[1]) && third == Some(ids[2]))
}

fn shows(alloc: Global, has_table: bool, case: Case) -> Result<bool, Fail> {
    let Case(given, ids) = case;
    let mut devs = table_with(alloc, has_table, given, false)?;
    start(&mut devs)?;
    Ok(are_there(&mut devs, ids)?)
}

#[test]
fn each_case_hides_its_row_alone_and_with_another(rt: HostRuntime) -> Result<(), Fail> {
    for (index, case) in CASES.iter().enumerate() {
        assert!(rt; shows(rt.alloc(), true, *case)?, "{index}");
    }
    Ok(())
}

#[test]
fn without_a_table_no_row_is_there(rt: HostRuntime) -> Result<(), Fail> {
    let Case(given, _) = CASES[0];
    let case = Case(given, [false; 3]);
    assert!(rt; shows(rt.alloc(), false, case)?);
    Ok(())
}

// A row's payload: its kind, id, version, content of one object without bytes, and no last write.
fn payload_of(alloc: Global, id: u8) -> Result<Vec<u8>, AllocError> {
    let mut bytes = Vec::new(alloc);
    bytes.push(1)?;
    bytes.extend_from_slice(&[id; 16])?;
    bytes.extend_from_slice(&1u64.to_be_bytes())?;
    bytes.extend_from_slice(&content_with(alloc, 0, 0, &[])?)?;
    bytes.extend_from_slice(&[0, 0, 0, 0])?;
    Ok(bytes)
}

// Whether the row of which so many bytes are there is hidden, and the one behind it is there.
fn shows_behind(alloc: Global, cut: &[u8], len: usize, is_whole: bool) -> Result<bool, Fail> {
    let mut table = Vec::new(alloc);
    table.push(2)?;
    table.extend_from_slice(&SCHEMA)?;
    table.push(2)?;
    let other = payload_of(alloc, 2)?;
    let rows = disk_of(alloc, &[&table, &cut[..len.min(cut.len())], &other])?;
    let mut devs = TableDevs::new(alloc, MemDisk::new(alloc), rows, MemDisk::new(alloc));
    devs.restart(0);
    start(&mut devs)?;
    Ok(are_there(&mut devs, [is_whole, true, false])?)
}

#[test]
fn a_row_cut_at_any_place_is_not_there(rt: HostRuntime) -> Result<(), Fail> {
    let cut = payload_of(rt.alloc(), 1)?;
    for len in 0..cut.len() {
        assert!(rt; shows_behind(rt.alloc(), &cut, len, false)?, "{len}");
    }
    assert!(rt; shows_behind(rt.alloc(), &cut, cut.len(), true)?);
    Ok(())
}

// Which of the four chunks are there behind the recovery.
fn left_behind<D: Disk + Drop>(devs: &mut TableDevs<D>) -> Result<[bool; 4], CommitFault>
    requires { AreWhole D.state devs.old }
{
    start_again(devs)?;
    for _ in 0..10 {
        work_once(devs)?;
    }
    let names = devs.chunk_names()?;
    let mut left = [false; 4];
    for (place, (version, ordinal, _)) in CHUNKS.iter().enumerate() {
        let name = ChunkName {
            version: *version,
            ordinal: *ordinal,
        };
        if place < 4 {
            left[place] = names.as_slice().iter().any(|each| *each == name);
        }
    }
    Ok(left)
}

#[test]
fn a_recovery_spares_what_a_row_names(rt: HostRuntime) -> Result<(), Fail> {
    let given = [Row(1, 1, 0, 64, &[(1, 0)]), Row(3, 2, 0, 64, &[(2, 0)])];
    let mut devs = table_with(rt.alloc(), true, &given, true)?;
    assert_eq!(rt; left_behind(&mut devs)?, [true, false, true, true]);
    let hidden = [Row(1, 1, 1, 64, &[(1, 0)]), Row(3, 2, 0, 64, &[(2, 0)])];
    let mut devs = table_with(rt.alloc(), true, &hidden, true)?;
    assert_eq!(rt; left_behind(&mut devs)?, [false, false, true, true]);
    Ok(())
}
