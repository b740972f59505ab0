//! What the readers of a client's devices tell.
ghost use Rattle.std.specs.Prelude.{◌≡◌, OnOk, length};
ghost use Rattle.journal_tests.specs.Standing.{IsKnown};

use client_journal::{Journal, JournalFault};
use disk_trait::Disk;
use held_value::{HeldContent, LocalName, LocalNames, Main};
use slot_store::{RowSlots, TableRecord};
use stab_base::{RowId, Version, WriteNo};
use std::alloc::{AllocError, Global};

/// The table of the tests, and the bytes of ids of its two rows.
pub(crate) const TABLE: u32 = 1;

pub(crate) const ROW: u8 = 7;

pub(crate) const OTHER: u8 = 8;

/// What is to be told: the state and the position of the table's record, the greatest number of a last write, the
/// number of the write of each row, and the first bytes of the chunks of the first row.
#[derive(Debug, Clone, Copy)]
pub(crate) struct Shown {
    pub(crate) record: Option<(u8, Version)>,
    pub(crate) last: WriteNo,
    pub(crate) writes: [Option<WriteNo>; 2],
    pub(crate) chunks: &'static [u8],
}

pub(crate) fn id_of(row: u8) -> RowId
    ensures { length result ≡ 16 }
{
    RowId::from_bytes([row; 16])
}

fn is_record(found: &Option<TableRecord>, wanted: Option<(u8, Version)>) -> bool {
    match (found, wanted) {
        (None, None) => true,
        (Some(table), Some((state, position))) => {
            table.table == TABLE && table.state == state && table.position == position
        }
        _ => false,
    }
}

// The number of a row's write, which is the only slot that it has.
fn write_in(found: &Option<RowSlots>) -> Option<WriteNo> {
    let row = found.as_ref()?;
    if row.slots.shadow.is_some() || row.slots.out.is_some() || row.slots.conflict.is_some() {
        return None;
    }
    let main = row.slots.main.as_ref()?;
    Some(main.number)
}

fn shows_record<D: Disk + Drop>(
    client: &mut Journal<D>,
    wanted: &Shown,
) -> Result<bool, JournalFault>
    requires { IsKnown D.state client.old }
    ensures { OnOk result (IsKnown D.state client.new) }
{
    let found = client.record(TABLE)?;
    Ok(is_record(&found, wanted.record))
}

fn shows_none<D: Disk + Drop>(client: &mut Journal<D>) -> Result<bool, JournalFault>
    requires { IsKnown D.state client.old }
    ensures { OnOk result (IsKnown D.state client.new) }
{
    let found = client.record(2)?;
    Ok(found.is_none())
}

fn shows_last<D: Disk + Drop>(client: &mut Journal<D>, wanted: &Shown) -> Result<bool, JournalFault>
    requires { IsKnown D.state client.old }
    ensures { OnOk result (IsKnown D.state client.new) }
{
    let last = client.last_number()?;
    Ok(last == wanted.last)
}

fn shows_write<D: Disk + Drop>(
    client: &mut Journal<D>,
    row: u8,
    wanted: Option<WriteNo>,
) -> Result<bool, JournalFault>
    requires { IsKnown D.state client.old }
    ensures { OnOk result (IsKnown D.state client.new) }
{
    let found = client.slots(TABLE, &id_of(row))?;
    Ok(write_in(&found) == wanted && found.is_some() == wanted.is_some())
}

fn is_rows(rows: &[RowId], wanted: [bool; 2]) -> bool {
    match rows {
        [] => wanted == [false, false],
        [one] => {
            (*one == id_of(ROW) && wanted == [true, false])
                || (*one == id_of(OTHER) && wanted == [false, true])
        }
        [one, two] => *one == id_of(ROW) && *two == id_of(OTHER) && wanted == [true, true],
        _ => false,
    }
}

fn shows_rows<D: Disk + Drop>(client: &mut Journal<D>, wanted: &Shown) -> Result<bool, JournalFault>
    requires { IsKnown D.state client.old }
    ensures { OnOk result (IsKnown D.state client.new) }
{
    let rows = client.rows_of(TABLE)?;
    let [first, other] = wanted.writes;
    let has = [first.is_some(), other.is_some()];
    Ok(is_rows(rows.as_slice(), has))
}

fn names_of(alloc: Global, main: &Option<Main>) -> Result<LocalNames, AllocError> {
    let mut names = LocalNames::new(alloc);
    let Some(main) = main else {
        return Ok(names);
    };
    let HeldContent::Row { objects, .. } = &main.content else {
        return Ok(names);
    };
    let Some(object) = objects.get(0) else {
        return Ok(names);
    };
    for piece in object.pieces.as_slice() {
        names.push(piece.local)?;
    }
    Ok(names)
}

// The names of the chunks of the first row.
fn names_shown<D: Disk + Drop>(
    alloc: Global,
    client: &mut Journal<D>,
) -> Result<LocalNames, JournalFault>
    requires { IsKnown D.state client.old }
    ensures { OnOk result (IsKnown D.state client.new) }
{
    let found = client.slots(TABLE, &id_of(ROW))?;
    let names = match &found {
        Some(row) => names_of(alloc, &row.slots.main)?,
        None => LocalNames::new(alloc),
    };
    Ok(names)
}

/// The first byte of a chunk, if its name has one.
pub(crate) fn first_byte<D: Disk + Drop>(
    client: &mut Journal<D>,
    name: LocalName,
) -> Result<Option<u8>, JournalFault>
    requires { IsKnown D.state client.old }
    ensures { OnOk result (IsKnown D.state client.new) }
{
    let found = client.chunk(name)?;
    match &found {
        Some(bytes) => Ok(bytes.as_slice().first().copied()),
        None => Ok(None),
    }
}

fn shows_chunks<D: Disk + Drop>(
    alloc: Global,
    client: &mut Journal<D>,
    wanted: &[u8],
) -> Result<bool, JournalFault>
    requires { IsKnown D.state client.old }
    ensures { OnOk result (IsKnown D.state client.new) }
{
    let names = names_shown(alloc, client)?;
    let mut same = names.len() == wanted.len();
    for (name, first) in names.as_slice().iter().zip(wanted) {
        same = same && first_byte(client, *name)? == Some(*first);
    }
    Ok(same)
}

/// Whether the readers tell this.
pub(crate) fn shows<D: Disk + Drop>(
    alloc: Global,
    client: &mut Journal<D>,
    wanted: &Shown,
) -> Result<bool, JournalFault>
    requires { IsKnown D.state client.old }
    ensures { OnOk result (IsKnown D.state client.new) }
{
    let tables = shows_record(client, wanted)? && shows_none(client)?;
    let last = shows_last(client, wanted)?;
    let rows = shows_rows(client, wanted)?;
    let [first, other] = wanted.writes;
    let first = shows_write(client, ROW, first)?;
    let other = shows_write(client, OTHER, other)?;
    let chunks = shows_chunks(alloc, client, wanted.chunks)?;
    Ok(tables && last && rows && first && other && chunks)
}
