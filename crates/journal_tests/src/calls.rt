//! Calls of a client's devices, and what a test keeps of them.
ghost use Rattle.std.specs.Prelude.{OnOk};
ghost use Rattle.disk_trait.specs.Fuse.{behind};
ghost use Rattle.journal_tests.specs.Standing.{IsMoving, IsResting, IsCrashed, IsKnown};

use client_journal::{Journal, JournalFault, Rolled};
use disk_trait::{Disk, FuseDisk};
use stab_base::Step;

/// Makes the disks those of no table.
pub(crate) fn format<D: Disk + Drop>(client: &mut Journal<D>) -> Result<(), JournalFault>
    ensures { OnOk result (IsResting D.state client.new) }
{
    client.format()
}

pub(crate) fn work<D: Disk + Drop>(client: &mut Journal<D>) -> Result<Step, JournalFault>
    requires { IsMoving D.state client.old }
    ensures { OnOk result (IsMoving D.state client.new) }
{
    client.work()
}

// Twenty writes more, or as many as are still to be done.
fn work_on<D: Disk + Drop>(client: &mut Journal<D>) -> Result<(), JournalFault>
    requires { IsMoving D.state client.old }
    ensures { OnOk result (IsMoving D.state client.new) }
{
    for _ in 0..20 {
        work(client)?;
    }
    Ok(())
}

/// Does all writes that are to be done, fewer than twenty.
pub(crate) fn finish<D: Disk + Drop>(client: &mut Journal<D>) -> Result<(), JournalFault>
    requires { IsMoving D.state client.old }
    ensures { OnOk result (IsResting D.state client.new) }
{
    work_on(client)?;
    if client.idle() {
        Ok(())
    } else {
        Err(JournalFault::Busy { with: 0 })
    }
}

/// Crashes between two writes.
pub(crate) fn crash<D: Disk + Drop>(client: &mut Journal<D>)
    requires { IsMoving D.state client.old }
    ensures { IsCrashed D.state client.new }
{
    client.restart(0);
}

/// Does the next write, where a fuse stops it after so many calls of the disk; then crashes.
pub(crate) fn stop<D: Disk + Drop>(client: &mut Journal<FuseDisk<D>>, calls: u32, pick: u64)
    requires { IsMoving (behind D.state) client.old }
    ensures { IsCrashed (behind D.state) client.new }
{
    client.stop_after(calls, pick);
    let _ = client.work();
    client.restart(0);
}

pub(crate) fn look<D: Disk + Drop>(client: &mut Journal<D>) -> Result<(), JournalFault>
    requires { IsCrashed D.state client.old }
    ensures { OnOk result (IsKnown D.state client.new) }
{
    client.look()
}

pub(crate) fn recover<D: Disk + Drop>(client: &mut Journal<D>) -> Result<Rolled, JournalFault>
    requires { IsKnown D.state client.old }
    ensures { OnOk result (IsMoving D.state client.new) }
{
    client.recover()
}
