//! A crash behind a commit, and a start that redoes it.
ghost use Rattle.std.specs.Prelude.{◌≤◌, OnOk};
ghost use Rattle.stab_base.specs.declared.limits.TheConstants.{NUMBER_MAX};
ghost use Rattle.journal_tests.specs.Standing.{IsResting, IsCrashed};

use crate::calls::{Counts, counted, crash, look, new_client, recover, work_all, work_some};
use crate::fault::BenchFault;
use crate::planning::plan_all;
use crate::plans::begin;
use client_journal::{Journal, JournalFault};
use disk_trait::Disk;
use stab_base::WriteNo;
use std::alloc::Global;

/// How many writes of the plan are done: the intend, its chunk and the commit.
const DONE: usize = 3;

/// What a client has after so many plans, a crash behind the commit of one more, and a start. No contract pins it, as
/// with `counted`.
pub fn recover_once(alloc: Global, count: u32, rows: u64) -> Result<Counts, BenchFault> {
    let mut client = new_client(alloc)?;
    plan_all(alloc, &mut client, count, rows.max(1))?;
    cut_short(alloc, &mut client, u64::from(count) + 1)?;
    start_again(&mut client)?;
    let counts = counted(&mut client)?;
    Ok(counts)
}

// Begins a plan of the first row, and crashes behind its commit.
fn cut_short<D: Disk + Drop>(
    alloc: Global,
    client: &mut Journal<D>,
    number: WriteNo,
) -> Result<(), BenchFault>
    requires rests { IsResting D.state client.old }
    requires number { number ≤ NUMBER_MAX }
    ensures { OnOk result (IsCrashed D.state client.new) }
{
    begin(alloc, client, 0, number)?;
    work_some(client, DONE)?;
    crash(client);
    Ok(())
}

// Looks, and redoes what was committed.
fn start_again<D: Disk + Drop>(client: &mut Journal<D>) -> Result<(), JournalFault>
    requires { IsCrashed D.state client.old }
    ensures { OnOk result (IsResting D.state client.new) }
{
    look(client)?;
    recover(client)?;
    work_all(client)
}
