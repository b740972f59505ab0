//! A device of slots against maps of the standard library.
ghost use Rattle.std.specs.Prelude.{◌≤◌, OnOk, IfOk};
ghost use Rattle.disk_trait.specs.Fuse.{behind};
ghost use Rattle.stab_base.specs.declared.limits.TheConstants.{NUMBER_MAX};
ghost use Rattle.vault.specs.Standing.{IsUp};
ghost use Rattle.slot_store.specs.Spelling.{IsTable, IsState, HasRowSpelling, HasRecordSpelling};
ghost use Rattle.slot_store.specs.Standing.{vault_of, IsLookedAt};

use crate::disks::disk_of_two;
use disk_kit::MemDisk;
use disk_trait::{Disk, FuseDisk};
use held_codec::take_slots;
use slot_store::{
    NUMBER_MAX, RowId, RowSlots, SlotDev, SlotFault, TABLE_MAX, TableNo, TableRecord, Version,
    WriteNo, record_size, slots_size,
};
use std::alloc::{AllocError, Global};
use std::collections::BTreeMap;
use std::process::Abort;
use std::test::Fail;
use value_codec::schema_of;

/// One put: slots of a row, by its table, the byte of its id, the last number, and whether a write waits; or a table,
/// its state and its position.
#[derive(Clone, Copy)]
enum Step {
    Row(TableNo, u8, WriteNo, bool),
    Table(TableNo, u8, Version),
}

const STEPS: [Step; 11] = [
    Step::Table(2, 1, 0),
    Step::Row(1, 7, 3, true),
    Step::Row(2, 7, 5, false),
    Step::Row(1, 255, 4, true),
    Step::Table(64, 2, u64::MAX),
    Step::Row(1, 0, 0, true),
    Step::Row(1, 7, 6, false),
    Step::Table(2, 2, 9),
    Step::Row(64, 7, NUMBER_MAX, true),
    Step::Row(2, 1, 1, true),
    Step::Table(2, 1, 3),
];

/// Slots whose Main is write 3, over version 2, of a row that is gone; and slots of which there is none.
const MAIN: [u8; 21] = [
    1, 0, 0, 0, 0, 0, 0, 0, 3, 0, 0, 0, 0, 0, 0, 0, 2, 0, 0, 0, 0,
];

const NONE: [u8; 4] = [0, 0, 0, 0];

/// A causal table "t" of one column "a" of numbers, in chunks of 64 bytes.
const SCHEMA: [u8; 20] = [
    0, 0, 0, 1, 116, 2, 0, 0, 0, 64, 0, 0, 0, 1, 0, 0, 0, 1, 97, 1,
];

/// What a device is to hold: of each row whether a write waits, of each table its state and position, and the greatest
/// last number.
#[derive(Drop)]
struct Model {
    rows: BTreeMap<(TableNo, u8), bool>,
    tables: BTreeMap<TableNo, (u8, Version)>,
    last: WriteNo,
}

fn row_with(
    alloc: Global,
    table: TableNo,
    id: u8,
    last: WriteNo,
    slots: &[u8],
) -> Result<RowSlots, Fail>
    requires table { IsTable table }
    requires last { last ≤ NUMBER_MAX }
    ensures { IfOk result HasRowSpelling }
{
    let (slots, _) = take_slots(alloc, slots, 0)?;
    Ok(RowSlots {
        table,
        row: RowId::from_bytes([id; 16]),
        last,
        slots,
    })
}

fn record_with(
    alloc: Global,
    table: TableNo,
    state: u8,
    position: Version,
) -> Result<TableRecord, Fail>
    requires table { IsTable table }
    requires state { IsState state }
    ensures { IfOk result HasRecordSpelling }
{
    Ok(TableRecord {
        table,
        state,
        schema: schema_of(alloc, &SCHEMA)?,
        position,
    })
}

fn stop_row<D: Disk + Drop>(
    alloc: Global,
    dev: &mut SlotDev<FuseDisk<D>>,
    row: &RowSlots,
    calls: u32,
    pick: u64,
) -> Result<(), SlotFault>
    requires looked { IsLookedAt (behind D.state) dev.old }
    requires spelled { HasRowSpelling row.now }
{
    let size = slots_size(alloc, row)?;
    if size > 100 {
        return Ok(());
    }
    dev.reserve(1, size as u64)?;
    dev.open_write()?;
    dev.stop_after(calls, pick);
    let _ = dev.put_slots(row);
    Ok(())
}

fn stop_table<D: Disk + Drop>(
    alloc: Global,
    dev: &mut SlotDev<FuseDisk<D>>,
    table: &TableRecord,
    calls: u32,
    pick: u64,
) -> Result<(), SlotFault>
    requires looked { IsLookedAt (behind D.state) dev.old }
    requires spelled { HasRecordSpelling table.now }
{
    let size = record_size(alloc, table)?;
    if size > 100 {
        return Ok(());
    }
    dev.reserve(1, size as u64)?;
    dev.open_write()?;
    dev.stop_after(calls, pick);
    let _ = dev.put_record(table);
    Ok(())
}

// Opens for writes, where a fuse stops it after so many calls of the disk; then crashes and looks.
fn stop_opening<D: Disk + Drop>(
    dev: &mut SlotDev<FuseDisk<D>>,
    calls: u32,
    pick: u64,
) -> Result<(), SlotFault>
    requires { IsLookedAt (behind D.state) dev.old }
    ensures { OnOk result (IsLookedAt (behind D.state) dev.new) }
{
    dev.reserve(0, 0)?;
    dev.stop_after(calls, pick);
    let _ = dev.open_write();
    dev.restart(0);
    dev.look()
}

// Does one put, where a fuse stops it after so many calls of the disk; then crashes and looks.
fn stop_step<D: Disk + Drop>(
    alloc: Global,
    dev: &mut SlotDev<FuseDisk<D>>,
    step: Step,
    calls: u32,
    pick: u64,
) -> Result<(), Fail>
    requires { IsLookedAt (behind D.state) dev.old }
    ensures { OnOk result (IsLookedAt (behind D.state) dev.new) }
{
    stop_opening(dev, calls, pick)?;
    match step {
        Step::Row(table, id, last, waits)
            if 1 <= table && table <= TABLE_MAX && last <= NUMBER_MAX => {
            let slots: &[u8] = if waits { &MAIN } else { &NONE };
            let row = row_with(alloc, table, id, last, slots)?;
            stop_row(alloc, dev, &row, calls, pick)?;
        }
        Step::Table(table, state, position)
            if 1 <= table && table <= TABLE_MAX && 1 <= state && state <= 2 => {
            let record = record_with(alloc, table, state, position)?;
            stop_table(alloc, dev, &record, calls, pick)?;
        }
        _ => {}
    }
    dev.restart(0);
    dev.look()?;
    Ok(())
}

// Does one put in a model.
fn step_model(model: &mut Model, step: Step) -> Result<(), AllocError> {
    match step {
        Step::Row(table, id, last, waits) => {
            model.rows.insert((table, id), waits)?;
            model.last = model.last.max(last);
        }
        Step::Table(table, state, position) => {
            model.tables.insert(table, (state, position))?;
        }
    }
    Ok(())
}

// Whether a device holds the rows of a model.
fn holds_rows<D: Disk + Drop>(dev: &mut SlotDev<D>, model: &Model) -> Result<bool, SlotFault>
    requires { IsLookedAt D.state dev.old }
    ensures { OnOk result (IsLookedAt D.state dev.new) }
{
    let mut same = dev.last_number() == model.last;
    for ((table, id), waits) in &model.rows {
        let row = RowId::from_bytes([*id; 16]);
        let found = dev.get_slots(*table, &row)?;
        same = same && dev.has_slots(*table, &row) && found.slots.main.is_some() == *waits;
        same = same && found.slots.shadow.is_none() && found.slots.conflict.is_none();
    }
    Ok(same)
}

// Whether the ids of a table's rows are those of a model, in rising order.
fn holds_ids<D: Disk + Drop>(
    dev: &mut SlotDev<D>,
    model: &Model,
    table: TableNo,
) -> Result<bool, SlotFault>
    requires { IsLookedAt D.state dev.old }
    ensures { OnOk result (IsLookedAt D.state dev.new) }
{
    let rows = dev.rows_of(table)?;
    let mut same = true;
    let mut place = 0;
    for ((of_table, id), _) in &model.rows {
        if *of_table == table {
            same = same && rows.get(place) == Some(&RowId::from_bytes([*id; 16]));
            place = rows.len().min(place.saturating_add(1));
        }
    }
    Ok(same && place == rows.len())
}

// Whether a device holds the tables of a model, by rising number.
fn holds_tables<D: Disk + Drop>(dev: &SlotDev<D>, model: &Model) -> Result<bool, AllocError>
    requires { IsLookedAt D.state dev.now }
{
    let all = dev.records()?;
    let mut same = all.len() == model.tables.len();
    let mut before = 0;
    for each in all.iter() {
        let kept = model.tables.get(&each.table).copied();
        same = same && kept == Some((each.state, each.position)) && before < each.table;
        before = each.table;
        let found = dev.record(each.table)?;
        same = same && found.map(|one| (one.state, one.position)) == kept;
    }
    Ok(same && dev.record(3)?.is_none())
}

// Whether a device holds what a model does.
fn holds<D: Disk + Drop>(dev: &mut SlotDev<D>, model: &Model) -> Result<bool, SlotFault>
    requires { IsLookedAt D.state dev.old }
    ensures { OnOk result (IsLookedAt D.state dev.new) }
{
    let rows = holds_rows(dev, model)?;
    let first = holds_ids(dev, model, 1)?;
    let second = holds_ids(dev, model, 2)?;
    let last = holds_ids(dev, model, TABLE_MAX)?;
    let none = holds_ids(dev, model, u32::MAX)?;
    Ok(rows && first && second && last && none && holds_tables(dev, model)?)
}

// Does all puts, where a fuse stops one of them after so many calls of the disk.
fn run_steps<D: Disk + Drop>(
    rt: &impl Abort,
    alloc: Global,
    dev: &mut SlotDev<FuseDisk<D>>,
    stopped: usize,
    calls: u32,
    pick: u64,
) -> Result<(), Fail>
    requires { IsLookedAt (behind D.state) dev.old }
{
    let mut model = Model {
        rows: BTreeMap::new(alloc),
        tables: BTreeMap::new(alloc),
        last: 0,
    };
    for (index, step) in STEPS.iter().enumerate() {
        let all = index != stopped;
        stop_step(alloc, dev, *step, if all { 100 } else { calls }, pick)?;
        // The third call opens the new payload's gate, where it lands its one byte.
        if all || calls > 2 || (calls == 2 && pick > 0) {
            step_model(&mut model, *step)?;
        }
        assert!(rt; holds(dev, &model)?, "{stopped} {calls} {pick} {index}");
    }
    Ok(())
}

fn run<D: Disk + Drop>(
    rt: &impl Abort,
    alloc: Global,
    dev: &mut SlotDev<FuseDisk<D>>,
    stopped: usize,
    calls: u32,
    pick: u64,
) -> Result<(), Fail>
    requires { IsUp (vault_of dev.old) }
{
    dev.format()?;
    run_steps(rt, alloc, dev, stopped, calls, pick)
}

#[test]
fn slots_and_tables_are_found_after_a_crash(rt: HostRuntime) -> Result<(), Fail> {
    for stopped in 0..STEPS.len() {
        for calls in 0..5 {
            for pick in [0, 1, 1000] {
                let mut dev = SlotDev::new(rt.alloc(), FuseDisk::new(MemDisk::new(rt.alloc())));
                run(&rt, rt.alloc(), &mut dev, stopped, calls, pick)?;
            }
        }
    }
    Ok(())
}

/// The slots of row 7 of table 1, with last number 9 and a Shadow of version 2 that is gone; and a closed table 1 with
/// position 5.
const ROW: [u8; 42] = [
    1, 0, 0, 0, 1, 7, 7, 7, 7, 7, 7, 7, 7, 7, 7, 7, 7, 7, 7, 7, 7, 0, 0, 0, 0, 0, 0, 0, 9, 0, 1, 0,
    0, 0, 0, 0, 0, 0, 2, 0, 0, 0,
];

const TABLE: [u8; 34] = [
    2, 0, 0, 0, 1, 2, 0, 0, 0, 1, 116, 2, 0, 0, 0, 64, 0, 0, 0, 1, 0, 0, 0, 1, 97, 1, 0, 0, 0, 0,
    0, 0, 0, 5,
];

// What a device finds behind a payload that is cut, and another one: the greatest last number, how many rows there are
// of table 1, and that table's state and position.
fn found(
    alloc: Global,
    cut: &[u8],
    len: usize,
    whole: &[u8],
) -> Result<(WriteNo, usize, Option<(u8, Version)>), Fail> {
    let mut dev = SlotDev::new(alloc, disk_of_two(alloc, cut, len, whole)?);
    dev.look()?;
    let rows = dev.rows_of(1)?.len();
    let table = dev.record(1)?.map(|one| (one.state, one.position));
    Ok((dev.last_number(), rows, table))
}

// The payload with another byte at a place.
fn with_byte(alloc: Global, payload: &[u8], place: usize, byte: u8) -> Result<Vec<u8>, AllocError> {
    let mut bytes = Vec::from_slice(alloc, payload)?;
    if place < bytes.len() {
        bytes[place] = byte;
    }
    Ok(bytes)
}

#[test]
fn cut_payloads_of_slots_are_passed_over(rt: HostRuntime) -> Result<(), Fail> {
    let alloc = rt.alloc();
    for len in 0..43 {
        let (last, rows) = if len < 42 { (0, 0) } else { (9, 1) };
        assert_eq!(rt;
            found(alloc, &ROW, len, &TABLE)?,
            (last, rows, Some((2, 5))),
            "{len}"
        );
        let table = if len < 34 { None } else { Some((2, 5)) };
        assert_eq!(rt; found(alloc, &TABLE, len, &ROW)?, (9, 1, table), "{len}");
    }
    Ok(())
}

/// A kind of payload, a place in it, and the byte with which it is no spelling: a table 0 and one above the limit, a
/// last number above it, an option that isn't, a state that isn't, a scheme.
const BAD: [(u8, usize, u8); 13] = [
    (1, 4, 0),
    (1, 4, 65),
    (1, 1, 1),
    (1, 21, 0x40),
    (1, 29, 2),
    (1, 41, 2),
    (2, 4, 0),
    (2, 4, 65),
    (2, 5, 0),
    (2, 5, 3),
    (2, 11, 4),
    (1, 0, 2),
    (2, 0, 3),
];

#[test]
fn payloads_of_no_slots_are_passed_over(rt: HostRuntime) -> Result<(), Fail> {
    let alloc = rt.alloc();
    for (kind, place, byte) in BAD {
        let payload: &[u8] = match kind {
            1 => &ROW,
            _ => &TABLE,
        };
        let bad = with_byte(alloc, payload, place, byte)?;
        let none = (0, 0, None);
        assert_eq!(rt;
            found(alloc, &bad, 42, &[1])?,
            none,
            "{kind} {place} {byte}"
        );
    }
    Ok(())
}

// The lengths of the payloads of slots and of a table.
fn sizes(alloc: Global) -> Result<(usize, usize), Fail> {
    let row = row_with(alloc, 1, 7, 9, &MAIN)?;
    let table = record_with(alloc, 1, 2, 5)?;
    Ok((slots_size(alloc, &row)?, record_size(alloc, &table)?))
}

#[test]
fn payloads_are_measured(rt: HostRuntime) -> Result<(), Fail> {
    assert_eq!(rt; sizes(rt.alloc())?, (50, 34));
    Ok(())
}

// The last number that a device answers of a row, beside row 7 of table 1.
fn asked(alloc: Global, table: TableNo, id: u8) -> Result<Result<WriteNo, SlotFault>, Fail> {
    let mut dev = SlotDev::new(alloc, disk_of_two(alloc, &TABLE, 34, &ROW)?);
    dev.look()?;
    match dev.get_slots(table, &RowId::from_bytes([id; 16])) {
        Ok(row) => Ok(Ok(row.last)),
        Err(fault) => Ok(Err(fault)),
    }
}

#[test]
fn a_row_is_of_one_table(rt: HostRuntime) -> Result<(), Fail> {
    assert_eq!(rt; asked(rt.alloc(), 1, 7)?, Ok(9));
    assert_eq!(rt; asked(rt.alloc(), 1, 8)?, Err(SlotFault::NoRow));
    assert_eq!(rt; asked(rt.alloc(), 2, 7)?, Err(SlotFault::NoRow));
    Ok(())
}

// How many bytes a disk has on which two payloads were put: each with five bytes before it, and a gate behind them.
fn disk_len(alloc: Global) -> Result<usize, Fail> {
    let dev = SlotDev::new(alloc, disk_of_two(alloc, &TABLE, 34, &ROW)?);
    if dev.is_down() {
        Err("a device that is down")?;
    }
    Ok(dev.into_disk().bytes().len())
}

#[test]
fn a_disk_is_handed_back(rt: HostRuntime) -> Result<(), Fail> {
    assert_eq!(rt; disk_len(rt.alloc())?, 87);
    Ok(())
}
