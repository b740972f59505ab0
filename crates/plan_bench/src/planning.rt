//! Many plans, one after the other.
ghost use Rattle.std.specs.Prelude.{◌≤◌, OnOk};
ghost use Rattle.stab_base.specs.declared.limits.TheConstants.{NUMBER_MAX};
ghost use Rattle.journal_tests.specs.Standing.{IsResting};

use crate::calls::{Counts, counted, new_client, work_all};
use crate::fault::BenchFault;
use crate::plans::begin;
use client_journal::Journal;
use disk_trait::Disk;
use stab_base::WriteNo;
use std::alloc::Global;

/// What a client has after so many plans that go round so many rows. No contract pins it, as with `counted`.
pub fn plan_often(alloc: Global, count: u32, rows: u64) -> Result<Counts, BenchFault> {
    let mut client = new_client(alloc)?;
    plan_all(alloc, &mut client, count, rows.max(1))?;
    let counts = counted(&mut client)?;
    Ok(counts)
}

/// Does so many plans, going round so many rows.
pub fn plan_all<D: Disk + Drop>(
    alloc: Global,
    client: &mut Journal<D>,
    count: u32,
    rows: u64,
) -> Result<(), BenchFault>
    requires rests { IsResting D.state client.old }
    requires rows { 1 ≤ rows }
    ensures { OnOk result (IsResting D.state client.new) }
{
    for turn in 0..count {
        let turn = u64::from(turn);
        plan_one(alloc, client, turn % rows, turn + 1)?;
    }
    Ok(())
}

fn plan_one<D: Disk + Drop>(
    alloc: Global,
    client: &mut Journal<D>,
    row: u64,
    number: WriteNo,
) -> Result<(), BenchFault>
    requires rests { IsResting D.state client.old }
    requires number { number ≤ NUMBER_MAX }
    ensures { OnOk result (IsResting D.state client.new) }
{
    begin(alloc, client, row, number)?;
    work_all(client)?;
    Ok(())
}
