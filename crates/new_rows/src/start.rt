//! What a start does with devices that a crash has left.
ghost use Rattle.std.specs.Prelude.{◌≡◌, [], OnOk};
ghost use Rattle.store_commit.specs.Standing.{writes_of, AreUp, AreSynced, AreSound, IsReady};

use disk_trait::Disk;
use store_commit::{CommitFault, TableDevs};

/// Looks at restarted devices, scans their rows, and takes on the end of an update that was cut short.
pub fn start_again<D: Disk + Drop>(devs: &mut TableDevs<D>) -> Result<(), CommitFault>
    requires synced { AreSynced D.state devs.old }
    requires sound { AreSound D.state devs.old }
    requires idle { writes_of devs.old ≡ [] }
    ensures up { OnOk result (AreUp devs.new) }
    ensures ready { OnOk result (IsReady D.state devs.new (writes_of devs.new)) }
{
    devs.look()?;
    devs.scan()?;
    devs.recover()?;
    Ok(())
}
