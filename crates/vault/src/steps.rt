//! The runs of disk calls that a vault is made of. Before each all that is seen is on the disk, and after `Ok`
//! again.
ghost use Rattle.std.specs.Prelude.{◌≡◌, ◌+◌, ◌<◌, ◌≤◌, ◌++◌, ◌∷◌, [], true, List, ℕ, length, take, drop, OnOk};
ghost use Rattle.std.specs.Prelude.{IsErrOf};
ghost use Rattle.disk_trait.specs.Image.{settled};
ghost use Rattle.disk_trait.specs.Calls.{HasCause, IsCounted, Spends, Burns, LeavesOnly, SameFile};
ghost use Rattle.vault.specs.File.{payloads_of, records, StandsFor, IsShut, EndsAt, IsBehindGate, FindsFirst};

use crate::VaultFault;
use crate::record::{CLOSED, OPEN};
use disk_trait::{Disk, DiskFault, cut_durably, write_durably};

/// Puts a frame behind the closed gate, on the disk, and then opens the gate.
pub(crate) fn put_behind<D: Disk>(disk: &mut D, gate: u64, frame: &[u8]) -> Result<(), DiskFault>
    requires durable { (D.state disk.old).pending ≡ settled (D.state disk.old).seen }
    requires gate { length (D.state disk.old).seen ≡ gate + 1 }
    requires frame { 0 < length frame.now }
    requires room { gate + 1 + length frame.now ≤ (D.state disk.old).room }
    requires calls { 4 ≤ (D.state disk.old).calls }
    requires bytes { 1 + length frame.now ≤ (D.state disk.old).bytes }
    ensures written { OnOk result ((D.state disk.new).seen ≡ take gate (D.state disk.old).seen ++ 165 ∷ frame.now) }
    ensures durable { OnOk result ((D.state disk.new).pending ≡ settled (D.state disk.new).seen) }
    ensures any_moment { LeavesOnly D.state D.images disk.old disk.new
        (IsBehindGate (D.state disk.old).seen gate frame.now) }
    // A fuse that stops one of the first two calls leaves the gate closed.
    ensures early { (D.state disk.old).is_armed ≡ true → (D.state disk.old).passes < 2
        → LeavesOnly D.state D.images disk.old disk.new (λ image. take (gate + 1) image ≡ (D.state disk.old).seen) }
    ensures cause { HasCause (D.state disk.old) (D.state disk.new) result }
    ensures spent { Spends 4 (1 + length frame.now) (D.state disk.old) (D.state disk.new) }
    ensures fuse { Burns 4 (D.state disk.old) (D.state disk.new) result }
{
    prove!(disk.len() == gate + 1);
    write_durably(disk, gate + 1, frame)?;
    write_durably(disk, gate, &[OPEN])
}

/// Cuts off what stands behind the standing gate, on the disk, and then closes the gate.
pub(crate) fn close_gate<D: Disk>(disk: &mut D, gate: u64) -> Result<(), DiskFault>
    requires durable { (D.state disk.old).pending ≡ settled (D.state disk.old).seen }
    requires ends { EndsAt (D.state disk.old).seen gate (payloads_of (D.state disk.old).seen) }
    requires room { gate + 1 ≤ (D.state disk.old).room }
    requires calls { 4 ≤ (D.state disk.old).calls }
    requires bytes { 1 ≤ (D.state disk.old).bytes }
    ensures written { OnOk result ((D.state disk.new).seen ≡ records (payloads_of (D.state disk.old).seen) ++ 0 ∷ []) }
    ensures durable { OnOk result ((D.state disk.new).pending ≡ settled (D.state disk.new).seen) }
    ensures any_moment { IsShut (drop gate (D.state disk.old).seen)
        → LeavesOnly D.state D.images disk.old disk.new
        (λ image. StandsFor image (payloads_of (D.state disk.old).seen)) }
    // Also where the file stands for no list, what was found is found again.
    ensures keeps { LeavesOnly D.state D.images disk.old disk.new (FindsFirst (payloads_of (D.state disk.old).seen)) }
    ensures cause { HasCause (D.state disk.old) (D.state disk.new) result }
    ensures spent { Spends 4 1 (D.state disk.old) (D.state disk.new) }
    ensures fuse { Burns 4 (D.state disk.old) (D.state disk.new) result }
{
    let len = disk.len();
    let end = (gate + 1).min(len);
    cut_durably(disk, end)?;
    write_durably(disk, gate, &[CLOSED])
}

/// Makes the file a closed gate and nothing else.
pub(crate) fn wipe<D: Disk>(disk: &mut D) -> Result<(), DiskFault>
    requires room { 1 ≤ (D.state disk.old).room }
    requires calls { 3 ≤ (D.state disk.old).calls }
    requires bytes { 1 ≤ (D.state disk.old).bytes }
    ensures written { OnOk result ((D.state disk.new).seen ≡ 0 ∷ []) }
    ensures durable { OnOk result ((D.state disk.new).pending ≡ settled (D.state disk.new).seen) }
    // Of a blank file a crash leaves at most the gate.
    ensures blank { (D.state disk.old).pending ≡ settled (D.state disk.old).seen → length (D.state disk.old).seen ≤ 1
        → LeavesOnly D.state D.images disk.old disk.new (λ image. length image ≤ 1) }
    ensures cause { HasCause (D.state disk.old) (D.state disk.new) result }
    ensures spent { Spends 3 1 (D.state disk.old) (D.state disk.new) }
    ensures fuse { Burns 3 (D.state disk.old) (D.state disk.new) result }
{
    disk.cut(0)?;
    disk.write_at(0, &[CLOSED])?;
    disk.sync()
}

/// Makes room for the calls of a format and of an opening, and wipes the file.
pub(crate) fn format_disk<D: Disk>(disk: &mut D) -> Result<(), VaultFault>
    ensures written { OnOk result ((D.state disk.new).seen ≡ 0 ∷ []) }
    ensures durable { OnOk result ((D.state disk.new).pending ≡ settled (D.state disk.new).seen) }
    ensures room { OnOk result (1 ≤ (D.state disk.new).room) }
    ensures calls { OnOk result (4 ≤ (D.state disk.new).calls) }
    ensures bytes { OnOk result (1 ≤ (D.state disk.new).bytes) }
    ensures memory { IsErrOf result VaultFault.Memory → SameFile (D.state disk.old) (D.state disk.new) }
    ensures blank { (D.state disk.old).pending ≡ settled (D.state disk.old).seen → length (D.state disk.old).seen ≤ 1
        → LeavesOnly D.state D.images disk.old disk.new (λ image. length image ≤ 1) }
    ensures up { IsErrOf result VaultFault.Down → ⊥ }
    ensures fuse { Burns 3 (D.state disk.old) (D.state disk.new) result }
    ensures cause { IsCounted VaultFault.Disk (D.state disk.old).faults (D.state disk.new).faults result }
{
    disk.room(1, 7, 2)?;
    wipe(disk)?;
    Ok(())
}
