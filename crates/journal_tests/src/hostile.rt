//! Disks that this program never wrote: which rows are there.
ghost use Rattle.std.specs.Prelude.{OnOk, IfOk};
ghost use Rattle.client_journal.specs.Standing.{AreSynced, AreLookedAt};

use crate::disks::{disk_of, put_record};
use client_journal::{Journal, JournalFault, Scanned};
use disk_kit::MemDisk;
use disk_trait::Disk;
use stab_base::RowId;
use std::alloc::{AllocError, Global};
use std::process::Abort;
use std::test::Fail;

/// A causal table "t" of one column "a" of objects, in chunks of 64 bytes.
const SCHEMA: [u8; 20] = [
    0, 0, 0, 1, 116, 2, 0, 0, 0, 64, 0, 0, 0, 1, 0, 0, 0, 1, 97, 4,
];

/// The chunks on the device: a plan, a number, and how many bytes it has. The greatest plan in the journal is 2.
const CHUNKS: [(u64, u32, usize); 5] = [(1, 0, 64), (1, 1, 36), (1, 2, 64), (2, 0, 64), (3, 0, 64)];

/// A row: its table, its byte of id, which of the four slots it has, how many cells it has, its object's length, and
/// the names in it.
#[derive(Clone, Copy)]
struct Row(u8, u8, u8, u8, u8, &'static [(u64, u32)]);

/// Rows, and whether each of the ids 1 and 2 of table 1, and 1 of table 2, is there.
#[derive(Clone, Copy)]
struct Case(&'static [Row], [bool; 3]);

const CASES: [Case; 16] = [
    // whole rows, one in each slot but the last
    Case(
        &[
            Row(1, 1, 0, 0, 100, &[(1, 0), (1, 1)]),
            Row(1, 2, 1, 0, 64, &[(2, 0)]),
            Row(2, 1, 2, 0, 0, &[]),
        ],
        [true, true, true],
    ),
    Case(&[Row(1, 1, 3, 0, 64, &[(1, 0)])], [true, false, false]),
    // a cell in a table without a column for it
    Case(&[Row(1, 1, 0, 1, 64, &[(1, 0)])], [false, false, false]),
    // a name without a chunk, in each slot
    Case(&[Row(1, 1, 0, 0, 64, &[(1, 9)])], [false, false, false]),
    Case(&[Row(1, 1, 1, 0, 64, &[(1, 9)])], [false, false, false]),
    Case(&[Row(1, 1, 2, 0, 64, &[(1, 9)])], [false, false, false]),
    Case(&[Row(1, 1, 3, 0, 64, &[(1, 9)])], [false, false, false]),
    // a chunk shorter than its place, and one longer
    Case(&[Row(1, 1, 0, 0, 64, &[(1, 1)])], [false, false, false]),
    Case(&[Row(1, 1, 0, 0, 30, &[(1, 1)])], [false, false, false]),
    // a chunk too few
    Case(&[Row(1, 1, 0, 0, 100, &[(1, 0)])], [false, false, false]),
    // a name twice
    Case(
        &[Row(1, 1, 0, 0, 128, &[(1, 0), (1, 0)])],
        [false, false, false],
    ),
    // a plan above the greatest
    Case(&[Row(1, 1, 0, 0, 64, &[(3, 0)])], [false, false, false]),
    // a name that a row before it has, of its table and of another
    Case(
        &[
            Row(1, 2, 0, 0, 64, &[(1, 0)]),
            Row(1, 1, 1, 0, 64, &[(1, 0)]),
        ],
        [true, false, false],
    ),
    Case(
        &[
            Row(2, 1, 0, 0, 64, &[(1, 0)]),
            Row(1, 1, 0, 0, 64, &[(1, 0)]),
            Row(1, 2, 0, 0, 64, &[(1, 2)]),
        ],
        [true, true, false],
    ),
    // what a row names that isn't there is free
    Case(
        &[
            Row(1, 1, 0, 1, 64, &[(1, 0)]),
            Row(1, 2, 0, 0, 64, &[(1, 0)]),
        ],
        [false, true, false],
    ),
    // two rows that aren't there, and one behind them
    Case(
        &[
            Row(1, 1, 0, 0, 64, &[(3, 0)]),
            Row(1, 2, 0, 0, 128, &[(1, 0), (1, 0)]),
            Row(2, 1, 0, 0, 64, &[(1, 0)]),
        ],
        [false, false, true],
    ),
];

// A content of so many cells, and one object.
fn put_content(
    bytes: &mut Vec<u8>,
    cells: u8,
    len: u8,
    names: &[(u64, u32)],
) -> Result<(), AllocError> {
    bytes.extend_from_slice(&[1, 0, 0, 0, cells])?;
    for _ in 0..cells {
        bytes.extend_from_slice(&[1, 0, 0, 0, 0, 0, 0, 0, 5])?;
    }
    let count = (names.len() % 256) as u8;
    bytes.extend_from_slice(&[0, 0, 0, 1, 0, 0, 0, len, 0, 0, 0, count])?;
    for (plan, ordinal) in names {
        bytes.extend_from_slice(&plan.to_be_bytes())?;
        bytes.extend_from_slice(&ordinal.to_be_bytes())?;
        bytes.push(0)?;
    }
    Ok(())
}

// What stands in a slot before its content: its numbers, and a flag in the third.
fn put_numbers(bytes: &mut Vec<u8>, slot: u8) -> Result<(), AllocError> {
    let one = 1u64.to_be_bytes();
    bytes.push(1)?;
    bytes.extend_from_slice(&one)?;
    if slot == 0 {
        bytes.extend_from_slice(&one)?;
    }
    if slot == 2 {
        bytes.extend_from_slice(&one)?;
        bytes.extend_from_slice(&one)?;
        bytes.push(0)?;
    }
    Ok(())
}

// A row's payload: its kind, table, id, last number, and four slots, one of which it has.
fn payload_of(alloc: Global, row: Row) -> Result<Vec<u8>, AllocError> {
    let Row(table, id, slot, cells, len, names) = row;
    let mut bytes = Vec::new(alloc);
    bytes.extend_from_slice(&[1, 0, 0, 0, table])?;
    bytes.extend_from_slice(&[id; 16])?;
    bytes.extend_from_slice(&1u64.to_be_bytes())?;
    for place in 0..4u8 {
        if place == slot {
            put_numbers(&mut bytes, slot)?;
            put_content(&mut bytes, cells, len, names)?;
            if slot == 2 {
                bytes.extend_from_slice(&[0, 0, 0, 0])?;
            }
        } else {
            bytes.push(0)?;
        }
    }
    Ok(bytes)
}

// A table's payload: its kind, number, state 1, schema and position.
fn record_of(alloc: Global, table: u8) -> Result<Vec<u8>, AllocError> {
    let mut bytes = Vec::new(alloc);
    bytes.extend_from_slice(&[2, 0, 0, 0, table, 1])?;
    bytes.extend_from_slice(&SCHEMA)?;
    bytes.extend_from_slice(&0u64.to_be_bytes())?;
    Ok(bytes)
}

fn chunk_of(alloc: Global, plan: u64, ordinal: u32, len: usize) -> Result<Vec<u8>, AllocError> {
    let mut bytes = Vec::new(alloc);
    bytes.push(1)?;
    bytes.extend_from_slice(&plan.to_be_bytes())?;
    bytes.extend_from_slice(&ordinal.to_be_bytes())?;
    for _ in 0..len {
        bytes.push(7)?;
    }
    Ok(bytes)
}

fn chunk_records(alloc: Global) -> Result<Vec<u8>, Fail> {
    let mut records = Vec::new(alloc);
    for (plan, ordinal, len) in CHUNKS {
        let payload = chunk_of(alloc, plan, ordinal, len)?;
        put_record(&mut records, &payload)?;
    }
    Ok(records)
}

// An intend of plan 2, for no chunk.
fn plan_records(alloc: Global) -> Result<Vec<u8>, Fail> {
    let mut payload = Vec::new(alloc);
    payload.push(1)?;
    payload.extend_from_slice(&2u64.to_be_bytes())?;
    payload.extend_from_slice(&[0, 0, 0, 1])?;
    payload.extend_from_slice(&[1; 16])?;
    payload.extend_from_slice(&[0, 0, 0, 0, 0])?;
    let mut records = Vec::new(alloc);
    put_record(&mut records, &payload)?;
    Ok(records)
}

// The records of both tables, where there are some.
fn table_records(alloc: Global, has_tables: bool) -> Result<Vec<u8>, Fail> {
    let mut records = Vec::new(alloc);
    if has_tables {
        let first = record_of(alloc, 1)?;
        put_record(&mut records, &first)?;
        let second = record_of(alloc, 2)?;
        put_record(&mut records, &second)?;
    }
    Ok(records)
}

// A client's devices with these records of slots, as a restart leaves them.
fn client_with(alloc: Global, slots: &[u8]) -> Result<Journal<MemDisk>, Fail>
    ensures { IfOk result (AreSynced (⟦<MemDisk as Disk>⟧.state)) }
{
    let chunks = chunk_records(alloc)?;
    let plans = plan_records(alloc)?;
    let mut client = Journal::new(
        alloc,
        disk_of(alloc, &plans)?,
        disk_of(alloc, slots)?,
        disk_of(alloc, &chunks)?,
    );
    client.restart(0);
    Ok(client)
}

fn start<D: Disk + Drop>(client: &mut Journal<D>) -> Result<Scanned, JournalFault>
    requires { AreSynced D.state client.old }
    ensures { OnOk result (AreLookedAt D.state client.new) }
{
    client.look()?;
    client.scan()
}

fn is_answered<D: Disk + Drop>(
    client: &mut Journal<D>,
    scanned: &Scanned,
    table: u8,
    id: u8,
) -> Result<bool, JournalFault>
    requires { AreLookedAt D.state client.old }
    ensures { OnOk result (AreLookedAt D.state client.new) }
{
    let found = client.shown_slots(scanned, table as u32, &RowId::from_bytes([id; 16]))?;
    Ok(found.is_some())
}

fn is_told<D: Disk + Drop>(
    client: &mut Journal<D>,
    scanned: &Scanned,
    table: u8,
    id: u8,
) -> Result<bool, JournalFault>
    requires { AreLookedAt D.state client.old }
    ensures { OnOk result (AreLookedAt D.state client.new) }
{
    let rows = client.shown_rows_of(scanned, table as u32)?;
    let row = RowId::from_bytes([id; 16]);
    Ok(rows.as_slice().iter().any(|each| *each == row))
}

// Whether a row is answered and told as one of its table: both or none.
fn is_there<D: Disk + Drop>(
    client: &mut Journal<D>,
    scanned: &Scanned,
    table: u8,
    id: u8,
) -> Result<Option<bool>, JournalFault>
    requires { AreLookedAt D.state client.old }
    ensures { OnOk result (AreLookedAt D.state client.new) }
{
    let is_answered = is_answered(client, scanned, table, id)?;
    let is_told = is_told(client, scanned, table, id)?;
    if is_answered == is_told {
        Ok(Some(is_answered))
    } else {
        Ok(None)
    }
}

fn are_there<D: Disk + Drop>(
    client: &mut Journal<D>,
    scanned: &Scanned,
    wanted: [bool; 3],
) -> Result<bool, JournalFault>
    requires { AreLookedAt D.state client.old }
{
    let first = is_there(client, scanned, 1, 1)?;
    let second = is_there(client, scanned, 1, 2)?;
    let third = is_there(client, scanned, 2, 1)?;
    Ok(first == Some(wanted[0]) && second == Some(wanted[1]) && third == Some(wanted[2]))
}

fn shows_records(alloc: Global, records: &[u8], wanted: [bool; 3]) -> Result<bool, Fail> {
    let mut client = client_with(alloc, records)?;
    let scanned = start(&mut client)?;
    Ok(are_there(&mut client, &scanned, wanted)?)
}

fn shows(alloc: Global, has_tables: bool, case: Case) -> Result<bool, Fail> {
    let Case(given, wanted) = case;
    let mut records = table_records(alloc, has_tables)?;
    for row in given {
        let payload = payload_of(alloc, *row)?;
        put_record(&mut records, &payload)?;
    }
    shows_records(alloc, &records, wanted)
}

#[test]
fn each_case_hides_its_row_alone_and_with_another(rt: HostRuntime) -> Result<(), Fail> {
    for (index, case) in CASES.iter().enumerate() {
        assert!(rt; shows(rt.alloc(), true, *case)?, "{index}");
    }
    Ok(())
}

#[test]
fn without_a_record_no_row_is_there(rt: HostRuntime) -> Result<(), Fail> {
    let Case(given, _) = CASES[0];
    let case = Case(given, [false; 3]);
    assert!(rt; shows(rt.alloc(), false, case)?);
    Ok(())
}

// Whether the slots of which so many bytes are there are hidden, and those behind them are there.
fn shows_behind(alloc: Global, cut: &[u8], len: usize, is_whole: bool) -> Result<bool, Fail> {
    let mut records = table_records(alloc, true)?;
    put_record(&mut records, &cut[..len.min(cut.len())])?;
    let other = payload_of(alloc, Row(2, 1, 0, 0, 64, &[(1, 2)]))?;
    put_record(&mut records, &other)?;
    shows_records(alloc, &records, [is_whole, false, true])
}

#[test]
fn slots_cut_at_any_place_are_not_there(rt: HostRuntime) -> Result<(), Fail> {
    let cut = payload_of(rt.alloc(), Row(1, 1, 2, 0, 100, &[(1, 0), (1, 1)]))?;
    for len in 0..cut.len() {
        assert!(rt; shows_behind(rt.alloc(), &cut, len, false)?, "{len}");
    }
    assert!(rt; shows_behind(rt.alloc(), &cut, cut.len(), true)?);
    Ok(())
}
