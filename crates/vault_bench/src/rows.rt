ghost use Rattle.std.specs.Prelude.{◌≤◌, OnOk};
ghost use Rattle.stab_base.specs.declared.limits.TheConstants.{NUMBER_MAX};
ghost use Rattle.row_store.specs.Standing.{IsLookedAt, IsOpened};

use disk_kit::MemDisk;
use disk_trait::Disk;
use row_store::{
    LastWrites, NUMBER_MAX, PieceContent, RowDev, RowFault, RowId, StoredRow, Version, row_size,
};
use std::alloc::Global;

/// How many rows are read after so many puts that go round so many rows, and a look. No contract pins the number: it is
/// printed beside a time for a person to see that the work was done, and nothing rests on it.
pub fn put_look_and_read(alloc: Global, puts: u64, rows: u64) -> Result<u64, RowFault> {
    let mut dev = RowDev::new(alloc, MemDisk::new(alloc));
    dev.format()?;
    put_all(alloc, &mut dev, puts.min(NUMBER_MAX), rows.max(1))?;
    dev.look()?;
    read_all(&mut dev, rows)
}

fn put_all<D: Disk + Drop>(
    alloc: Global,
    dev: &mut RowDev<D>,
    puts: u64,
    rows: u64,
) -> Result<(), RowFault>
    requires opened { IsOpened D.state dev.old }
    requires puts { puts ≤ NUMBER_MAX }
    requires rows { 1 ≤ rows }
    ensures { OnOk result (IsOpened D.state dev.new) }
{
    for turn in 0..puts {
        put_one(alloc, dev, turn % rows, turn + 1)?;
    }
    Ok(())
}

fn id_of(number: u64) -> RowId {
    let mut bytes = [0u8; 16];
    bytes[8..].copy_from_slice(&number.to_be_bytes());
    RowId::from_bytes(bytes)
}

fn put_one<D: Disk + Drop>(
    alloc: Global,
    dev: &mut RowDev<D>,
    number: u64,
    version: Version,
) -> Result<(), RowFault>
    requires opened { IsOpened D.state dev.old }
    requires version { version ≤ NUMBER_MAX }
    ensures { OnOk result (IsOpened D.state dev.new) }
{
    let stored = StoredRow {
        row: id_of(number),
        version,
        content: PieceContent::Gone,
        pairs: LastWrites::new(alloc),
    };
    let Some(size) = row_size(&stored) else {
        return Ok(());
    };
    dev.reserve(1, size as u64)?;
    dev.put_row(stored)
}

fn read_all<D: Disk + Drop>(dev: &mut RowDev<D>, rows: u64) -> Result<u64, RowFault>
    requires { IsLookedAt D.state dev.old }
{
    let mut found = 0u64;
    for number in 0..rows {
        let row = id_of(number);
        if dev.version_of(&row) > 0 {
            dev.get_row(&row)?;
            found = found.saturating_add(1);
        }
    }
    Ok(found)
}
