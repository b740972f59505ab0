//! Calls of a client's devices between plans.
ghost use Rattle.std.specs.Prelude.{OnOk, IfOk};
ghost use Rattle.journal_tests.specs.Standing.{IsMoving, IsResting, IsCrashed, IsKnown};

use client_journal::{Journal, JournalFault, Rolled};
use disk_kit::MemDisk;
use disk_trait::Disk;
use stab_base::{Step, TableNo, WriteNo};
use std::alloc::Global;

/// The table of the rows.
pub const TABLE: TableNo = 1;

/// What a client has at the end: its rows, and the number of its last plan's write. No contract pins them: they are
/// printed beside a time for a person to see that the work was done, and nothing rests on them.
#[derive(Clone, Copy)]
pub struct Counts {
    pub rows: usize,
    pub last: WriteNo,
}

fn format<D: Disk + Drop>(client: &mut Journal<D>) -> Result<(), JournalFault>
    ensures { OnOk result (IsResting D.state client.new) }
{
    client.format()
}

/// The devices of a client without rows.
pub fn new_client(alloc: Global) -> Result<Journal<MemDisk>, JournalFault>
    ensures { IfOk result (IsResting (⟦<MemDisk as Disk>⟧.state)) }
{
    let mut client = Journal::new(
        alloc,
        MemDisk::new(alloc),
        MemDisk::new(alloc),
        MemDisk::new(alloc),
    );
    format(&mut client)?;
    Ok(client)
}

fn work<D: Disk + Drop>(client: &mut Journal<D>) -> Result<Step, JournalFault>
    requires { IsMoving D.state client.old }
    ensures { OnOk result (IsMoving D.state client.new) }
{
    client.work()
}

/// Does so many of the writes that are to come, or all where there are fewer.
pub fn work_some<D: Disk + Drop>(client: &mut Journal<D>, count: usize) -> Result<(), JournalFault>
    requires { IsMoving D.state client.old }
    ensures { OnOk result (IsMoving D.state client.new) }
{
    for _ in 0..count {
        work(client)?;
    }
    Ok(())
}

/// Does all writes that are to come.
pub fn work_all<D: Disk + Drop>(client: &mut Journal<D>) -> Result<(), JournalFault>
    requires { IsMoving D.state client.old }
    ensures { OnOk result (IsResting D.state client.new) }
{
    while !client.idle() {
        client.work()?;
    }
    Ok(())
}

/// Crashes between two writes.
pub fn crash<D: Disk + Drop>(client: &mut Journal<D>)
    requires { IsMoving D.state client.old }
    ensures { IsCrashed D.state client.new }
{
    client.restart(0);
}

/// Finds what the disks hold after a crash.
pub fn look<D: Disk + Drop>(client: &mut Journal<D>) -> Result<(), JournalFault>
    requires { IsCrashed D.state client.old }
    ensures { OnOk result (IsKnown D.state client.new) }
{
    client.look()
}

/// Takes on the end of a plan that was cut short.
pub fn recover<D: Disk + Drop>(client: &mut Journal<D>) -> Result<Rolled, JournalFault>
    requires { IsKnown D.state client.old }
    ensures { OnOk result (IsMoving D.state client.new) }
{
    client.recover()
}

fn row_count<D: Disk + Drop>(client: &mut Journal<D>) -> Result<usize, JournalFault>
    requires { IsResting D.state client.old }
    ensures { OnOk result (IsResting D.state client.new) }
{
    let rows = client.rows_of(TABLE)?;
    Ok(rows.len())
}

/// Counts what the client has. No contract pins the counts: they are printed beside a time for a person to see that the
/// work was done, and nothing rests on them.
pub fn counted<D: Disk + Drop>(client: &mut Journal<D>) -> Result<Counts, JournalFault>
    requires { IsResting D.state client.old }
{
    let rows = row_count(client)?;
    let last = client.last_number()?;
    Ok(Counts { rows, last })
}
