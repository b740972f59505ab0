//! A device of rows against maps of the standard library.
ghost use Rattle.std.specs.Prelude.{◌≡◌, ◌+◌, ◌≤◌, ◌<◌, OnOk, IfOk, length};
ghost use Rattle.disk_trait.specs.Fuse.{behind};
ghost use Rattle.stab_base.specs.declared.limits.TheConstants.{NUMBER_MAX};
ghost use Rattle.row_store.specs.Spelling.{HasStoredSpelling, IsState, IsClient};
ghost use Rattle.vault.specs.Standing.{IsUp};
ghost use Rattle.row_store.specs.Standing.{vault_of, IsLookedAt};

use crate::disks::disk_of_two;
use disk_kit::MemDisk;
use disk_trait::{Disk, FuseDisk};
use row_store::{
    LastWrite, LastWrites, NUMBER_MAX, PieceContent, RowDev, RowFault, RowId, StoredRow, Version,
    all_keep, row_size,
};
use row_value::Cell;
use std::alloc::{AllocError, Global};
use std::collections::BTreeMap;
use std::process::Abort;
use std::test::Fail;
use value_codec::{content_of, schema_of};

/// One write: a row's byte of id, its version, and its cell or that it is gone; the table's state; or a client, whether
/// it subscribes, and its period.
#[derive(Clone, Copy)]
enum Step {
    Row(u8, Version, Option<u8>),
    Table(u8),
    Sub(u32, bool, u32),
}

const STEPS: [Step; 11] = [
    Step::Table(1),
    Step::Row(7, 1, Some(10)),
    Step::Sub(64, true, 5),
    Step::Row(3, 2, Some(11)),
    Step::Row(7, 3, Some(12)),
    Step::Table(2),
    Step::Row(0, NUMBER_MAX, None),
    Step::Sub(1, true, 6),
    Step::Row(0, 2, Some(13)),
    Step::Sub(64, false, 7),
    Step::Sub(1, true, 8),
];

/// The bytes of a content in front of its cell, and behind it: an object of one chunk.
const FRONT: [u8; 13] = [1, 0, 0, 0, 1, 1, 0, 0, 0, 0, 0, 0, 0];

const BEHIND: [u8; 25] = [
    0, 0, 0, 1, 0, 0, 0, 5, 0, 0, 0, 1, 0, 0, 0, 0, 0, 0, 0, 0, 9, 0, 0, 0, 2,
];

/// A causal table "t" of one column "a" of numbers, in chunks of 64 bytes.
const SCHEMA: [u8; 20] = [
    0, 0, 0, 1, 116, 2, 0, 0, 0, 64, 0, 0, 0, 1, 0, 0, 0, 1, 97, 1,
];

/// What a device is to hold.
#[derive(Drop)]
struct Model {
    rows: BTreeMap<RowId, (Version, Option<u8>)>,
    state: Option<u8>,
    subs: BTreeMap<u32, u32>,
}

fn content_with(alloc: Global, cell: Option<u8>) -> Result<Vec<u8>, AllocError> {
    let mut bytes = Vec::new(alloc);
    match cell {
        None => bytes.push(0)?,
        Some(cell) => {
            bytes.extend_from_slice(&FRONT)?;
            bytes.push(cell)?;
            bytes.extend_from_slice(&BEHIND)?;
        }
    }
    Ok(bytes)
}

// A row of which two clients have written.
pub(crate) fn row_with(
    alloc: Global,
    id: u8,
    version: Version,
    content: &[u8],
) -> Result<StoredRow, Fail>
    requires { version ≤ NUMBER_MAX }
    ensures { IfOk result HasStoredSpelling }
{
    let content = content_of(alloc, content)?;
    if !all_keep(&content) {
        Err("a new piece")?;
    }
    let mut pairs = LastWrites::new(alloc);
    pairs.push(LastWrite {
        client: 1,
        number: 3,
        version: 4,
    })?;
    pairs.push(LastWrite {
        client: 64,
        number: u64::MAX,
        version: 5,
    })?;
    Ok(StoredRow {
        row: RowId::from_bytes([id; 16]),
        version,
        content,
        pairs,
    })
}

fn stop_row<D: Disk + Drop>(
    dev: &mut RowDev<FuseDisk<D>>,
    stored: StoredRow,
    calls: u32,
    pick: u64,
) -> Result<(), RowFault>
    requires looked { IsLookedAt (behind D.state) dev.old }
    requires spelled { HasStoredSpelling stored }
{
    let Some(size) = row_size(&stored) else {
        return Ok(());
    };
    dev.reserve(1, size as u64)?;
    dev.open_write()?;
    dev.stop_after(calls, pick);
    let _ = dev.put_row(stored);
    Ok(())
}

fn stop_table<D: Disk + Drop>(
    alloc: Global,
    dev: &mut RowDev<FuseDisk<D>>,
    schema: &[u8],
    state: u8,
    calls: u32,
    pick: u64,
) -> Result<(), Fail>
    requires looked { IsLookedAt (behind D.state) dev.old }
    requires state { IsState state }
{
    let table = schema_of(alloc, schema)?;
    if schema.len() > 100 {
        return Ok(());
    }
    dev.reserve(1, 2 + schema.len() as u64)?;
    dev.open_write()?;
    dev.stop_after(calls, pick);
    let _ = dev.put_table(&table, state);
    Ok(())
}

fn stop_sub<D: Disk + Drop>(
    dev: &mut RowDev<FuseDisk<D>>,
    client: u32,
    on: bool,
    period: u32,
    calls: u32,
    pick: u64,
) -> Result<(), RowFault>
    requires looked { IsLookedAt (behind D.state) dev.old }
    requires client { IsClient client }
{
    dev.reserve(1, 18)?;
    dev.open_write()?;
    dev.stop_after(calls, pick);
    let _ = dev.put_sub(client, on, 2, period, 9);
    Ok(())
}

// Opens for writes, where a fuse stops it after so many calls of the disk; then crashes and looks.
fn stop_opening<D: Disk + Drop>(
    dev: &mut RowDev<FuseDisk<D>>,
    calls: u32,
    pick: u64,
) -> Result<(), RowFault>
    requires { IsLookedAt (behind D.state) dev.old }
    ensures { OnOk result (IsLookedAt (behind D.state) dev.new) }
{
    dev.reserve(0, 0)?;
    dev.stop_after(calls, pick);
    let _ = dev.open_write();
    dev.restart(0);
    dev.look()
}

// Does one write, where a fuse stops it after so many calls of the disk; then crashes and looks.
fn stop_step<D: Disk + Drop>(
    alloc: Global,
    dev: &mut RowDev<FuseDisk<D>>,
    step: Step,
    calls: u32,
    pick: u64,
) -> Result<(), Fail>
    requires { IsLookedAt (behind D.state) dev.old }
    ensures { OnOk result (IsLookedAt (behind D.state) dev.new) }
{
    stop_opening(dev, calls, pick)?;
    match step {
        Step::Row(id, version, cell) if version <= NUMBER_MAX => {
            let stored = row_with(alloc, id, version, &content_with(alloc, cell)?)?;
            stop_row(dev, stored, calls, pick)?;
        }
        Step::Table(state) if 1 <= state && state <= 3 => {
            stop_table(alloc, dev, &SCHEMA, state, calls, pick)?;
        }
        Step::Sub(client, on, period) if 1 <= client && client <= 64 => {
            stop_sub(dev, client, on, period, calls, pick)?;
        }
        _ => {}
    }
    dev.restart(0);
    dev.look()?;
    Ok(())
}

// Does one write in a model.
fn step_model(model: &mut Model, step: Step) -> Result<(), AllocError> {
    match step {
        Step::Row(id, version, cell) => {
            model
                .rows
                .insert(RowId::from_bytes([id; 16]), (version, cell))?;
        }
        Step::Table(state) => model.state = Some(state),
        Step::Sub(client, true, period) => {
            model.subs.insert(client, period)?;
        }
        Step::Sub(client, false, _) => {
            model.subs.remove(&client);
        }
    }
    Ok(())
}

// The cell of a row, if it isn't gone.
fn cell_of(stored: &StoredRow) -> Option<i64> {
    match &stored.content {
        PieceContent::Gone => None,
        PieceContent::Row { cells, .. } => match cells.get(0) {
            Some(Cell::Int(n)) => Some(*n),
            _ => None,
        },
    }
}

// Whether a device holds the rows of a model.
fn holds_rows<D: Disk + Drop>(dev: &mut RowDev<D>, model: &Model) -> Result<bool, RowFault>
    requires { IsLookedAt D.state dev.old }
    ensures { OnOk result (IsLookedAt D.state dev.new) }
{
    let mut same = true;
    for (row, (version, cell)) in &model.rows {
        let stored = dev.get_row(row)?;
        same = same && stored.version == *version && dev.version_of(row) == *version;
        same = same && cell_of(&stored) == cell.map(i64::from) && stored.pairs.len() == 2;
    }
    Ok(same)
}

// Whether the rows above a position are those of a model, by rising version.
fn holds_changes<D: Disk + Drop>(
    dev: &mut RowDev<D>,
    model: &Model,
    position: Version,
) -> Result<bool, RowFault>
    requires { IsLookedAt D.state dev.old }
    ensures { OnOk result (IsLookedAt D.state dev.new) }
{
    let changed = dev.changed_since(position)?;
    let mut same = true;
    let mut before = position;
    for each in changed.iter() {
        same = same && before <= each.version && position < each.version;
        same = same
            && model
                .rows
                .get(&each.row)
                .is_some_and(|row| row.0 == each.version);
        before = each.version;
    }
    let mut left = changed.len();
    let mut most = 0;
    for (_, (version, _)) in &model.rows {
        same = same && (*version <= position || left > 0);
        if *version > position {
            left = left.saturating_sub(1);
        }
        most = most.max(*version);
    }
    Ok(same && left == 0 && dev.table_version() == most)
}

// Whether a device holds the subscriptions and the state of a model.
fn holds_table<D: Disk + Drop>(dev: &RowDev<D>, model: &Model) -> Result<bool, AllocError>
    requires { IsLookedAt D.state dev.now }
{
    let subs = dev.subs()?;
    let mut same = subs.len() == model.subs.len();
    for sub in subs.iter() {
        same = same && sub.gate == 2 && sub.tolerance == 9;
        same = same && model.subs.get(&sub.client).copied() == Some(sub.period);
    }
    let state = dev.table_state()?.map(|table| table.1);
    Ok(same && state == model.state)
}

// Whether a device holds what a model does.
fn holds<D: Disk + Drop>(dev: &mut RowDev<D>, model: &Model) -> Result<bool, RowFault>
    requires { IsLookedAt D.state dev.old }
    ensures { OnOk result (IsLookedAt D.state dev.new) }
{
    let rows = holds_rows(dev, model)?;
    let from_first = holds_changes(dev, model, 0)?;
    let from_third = holds_changes(dev, model, 2)?;
    Ok(rows && from_first && from_third && holds_table(dev, model)?)
}

// Does all writes, where a fuse stops one of them after so many calls of the disk.
fn run_steps<D: Disk + Drop>(
    rt: &impl Abort,
    alloc: Global,
    dev: &mut RowDev<FuseDisk<D>>,
    stopped: usize,
    calls: u32,
    pick: u64,
) -> Result<(), Fail>
    requires { IsLookedAt (behind D.state) dev.old }
{
    let mut model = Model {
        rows: BTreeMap::new(alloc),
        state: None,
        subs: BTreeMap::new(alloc),
    };
    for (index, step) in STEPS.iter().enumerate() {
        let all = index != stopped;
        stop_step(alloc, dev, *step, if all { 100 } else { calls }, pick)?;
        // The third call opens the new payload's gate, where it lands its one byte.
        if all || calls > 2 || (calls == 2 && pick > 0) {
            step_model(&mut model, *step)?;
        }
        assert!(rt; holds(dev, &model)?, "{stopped} {calls} {pick} {index}");
    }
    Ok(())
}

fn run<D: Disk + Drop>(
    rt: &impl Abort,
    alloc: Global,
    dev: &mut RowDev<FuseDisk<D>>,
    stopped: usize,
    calls: u32,
    pick: u64,
) -> Result<(), Fail>
    requires { IsUp (vault_of dev.old) }
{
    dev.format()?;
    run_steps(rt, alloc, dev, stopped, calls, pick)
}

#[test]
fn rows_tables_and_subscriptions_are_found_after_a_crash(rt: HostRuntime) -> Result<(), Fail> {
    for stopped in 0..STEPS.len() {
        for calls in 0..5 {
            for pick in [0, 1, 1000] {
                let mut dev = RowDev::new(rt.alloc(), FuseDisk::new(MemDisk::new(rt.alloc())));
                run(&rt, rt.alloc(), &mut dev, stopped, calls, pick)?;
            }
        }
    }
    Ok(())
}

/// A row of version 9, gone, with one last write; a live table; and a subscription of client 3.
const ROW: [u8; 50] = [
    1, 7, 7, 7, 7, 7, 7, 7, 7, 7, 7, 7, 7, 7, 7, 7, 7, 0, 0, 0, 0, 0, 0, 0, 9, 0, 0, 0, 0, 1, 0, 0,
    0, 2, 0, 0, 0, 0, 0, 0, 0, 3, 0, 0, 0, 0, 0, 0, 0, 8,
];

const TABLE: [u8; 22] = [
    2, 0, 0, 0, 1, 116, 2, 0, 0, 0, 64, 0, 0, 0, 1, 0, 0, 0, 1, 97, 1, 2,
];

const SUB: [u8; 18] = [3, 0, 0, 0, 3, 1, 0, 0, 0, 2, 0, 0, 0, 5, 0, 0, 0, 9];

// Which of a row, a table and a subscription a device finds behind a payload that is cut, and another one.
fn found(
    alloc: Global,
    cut: &[u8],
    len: usize,
    whole: &[u8],
) -> Result<(Version, bool, usize), Fail> {
    let mut dev = RowDev::new(alloc, disk_of_two(alloc, cut, len, whole)?);
    dev.look()?;
    let version = dev.version_of(&RowId::from_bytes([7; 16]));
    let is_put = dev.table_state()?.is_some();
    Ok((version, is_put, dev.subs()?.len()))
}

// The payload with another byte at a place.
fn with_byte(alloc: Global, payload: &[u8], place: usize, byte: u8) -> Result<Vec<u8>, AllocError> {
    let mut bytes = Vec::from_slice(alloc, payload)?;
    if place < bytes.len() {
        bytes[place] = byte;
    }
    Ok(bytes)
}

#[test]
fn cut_payloads_of_rows_are_passed_over(rt: HostRuntime) -> Result<(), Fail> {
    let alloc = rt.alloc();
    for len in 0..51 {
        let row = if len == 50 { 9 } else { 0 };
        assert_eq!(rt; found(alloc, &ROW, len, &SUB)?, (row, false, 1), "{len}");
        assert_eq!(rt; found(alloc, &TABLE, len, &ROW)?, (9, len > 21, 0), "{len}");
        let sub = if len > 17 { 1 } else { 0 };
        assert_eq!(rt; found(alloc, &SUB, len, &TABLE)?, (0, true, sub), "{len}");
    }
    Ok(())
}

/// A kind of payload, a place in it, and the byte with which it is no spelling: a version above the limit, a content, a
/// count, clients that aren't, a state, a flag.
const BAD: [(u8, usize, u8); 11] = [
    (1, 17, 0x40),
    (1, 25, 2),
    (1, 29, 0),
    (1, 29, 2),
    (1, 33, 0),
    (1, 33, 65),
    (2, 21, 0),
    (2, 21, 4),
    (3, 4, 0),
    (3, 4, 65),
    (3, 5, 2),
];

#[test]
fn payloads_in_no_spelling_are_passed_over(rt: HostRuntime) -> Result<(), Fail> {
    let alloc = rt.alloc();
    for (kind, place, byte) in BAD {
        let payload: &[u8] = match kind {
            1 => &ROW,
            2 => &TABLE,
            _ => &SUB,
        };
        let bad = with_byte(alloc, payload, place, byte)?;
        let none = (0, false, 0);
        assert_eq!(rt;
            found(alloc, &bad, 50, &[1])?,
            none,
            "{kind} {place} {byte}"
        );
    }
    Ok(())
}
