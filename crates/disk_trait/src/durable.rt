// A call and its sync, over any disk: the step that stores are made of.
ghost use Rattle.std.specs.Prelude.{◌≡◌, ◌+◌, ◌<◌, ◌≤◌, length, take, OnOk};
ghost use Rattle.disk_trait.specs.Image.{IsImage, settled, touched, shortened, overwritten};
ghost use Rattle.disk_trait.specs.Calls.{HasCause, Spends, Burns, LeavesOnly};

use crate::{Disk, DiskFault};

/// Writes and syncs. Before it all that is seen is on the disk, and after `Ok` again.
pub fn write_durably<D: Disk>(disk: &mut D, at: u64, bytes: &[u8]) -> Result<(), DiskFault>
    requires durable { (D.state disk.old).pending ≡ settled (D.state disk.old).seen }
    requires start { at ≤ length (D.state disk.old).seen }
    requires room { at + length bytes.now ≤ (D.state disk.old).room }
    requires calls { 2 ≤ (D.state disk.old).calls }
    requires bytes { length bytes.now ≤ (D.state disk.old).bytes }
    ensures written { OnOk result ((D.state disk.new).seen ≡ overwritten (D.state disk.old).seen at bytes.now) }
    ensures durable { OnOk result ((D.state disk.new).pending ≡ settled (D.state disk.new).seen) }
    ensures any_moment { LeavesOnly D.state D.images disk.old disk.new
        (IsImage (touched at (length bytes.now) (settled (D.state disk.old).seen))) }
    ensures cause { HasCause (D.state disk.old) (D.state disk.new) result }
    ensures spent { Spends 2 (length bytes.now) (D.state disk.old) (D.state disk.new) }
    ensures fuse { Burns 2 (D.state disk.old) (D.state disk.new) result }
{
    disk.write_at(at, bytes)?;
    disk.sync()
}

/// Cuts and syncs, likewise.
pub fn cut_durably<D: Disk>(disk: &mut D, len: u64) -> Result<(), DiskFault>
    requires durable { (D.state disk.old).pending ≡ settled (D.state disk.old).seen }
    requires len { len ≤ length (D.state disk.old).seen }
    requires calls { 2 ≤ (D.state disk.old).calls }
    ensures cut { OnOk result ((D.state disk.new).seen ≡ take len (D.state disk.old).seen) }
    ensures durable { OnOk result ((D.state disk.new).pending ≡ settled (D.state disk.new).seen) }
    ensures any_moment { LeavesOnly D.state D.images disk.old disk.new
        (IsImage (shortened len (settled (D.state disk.old).seen))) }
    ensures cause { HasCause (D.state disk.old) (D.state disk.new) result }
    ensures spent { Spends 2 0 (D.state disk.old) (D.state disk.new) }
    ensures fuse { Burns 2 (D.state disk.old) (D.state disk.new) result }
{
    disk.cut(len)?;
    disk.sync()
}
