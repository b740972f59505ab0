// Where disks come from, by number, and where they go back.
ghost use Rattle.std.specs.Prelude.{◌≡◌, ◌==◌, ◌||◌, ◌&&◌, not, true, false, Option, None, Some, ℕ, IfOk, OnOk, OnErr};
ghost use Rattle.disk_trait.specs.declared.depot.DepotFault.TheVariants.{Memory};
ghost use Rattle.disk_trait.specs.Image.{settled};
ghost use Rattle.disk_trait.specs.Calls.{IsCounted};
ghost use Rattle.disk_trait.specs.Depots.{DepotState, Tells};

use crate::Disk;
use std::alloc::AllocError;
use thiserror::Error;

/// Why no disk was handed out: the depot failed, or memory was refused.
#[derive(Debug, Clone, Copy, PartialEq, Eq, Error)]
pub enum DepotFault {
    #[error("the depot failed")]
    Failed,
    #[error("no memory for a disk")]
    Memory,
}

impl From<AllocError> for DepotFault {
    ghost from_gives = { λ _ e. e ≡ Memory };

    fn from(_: AllocError) -> Self {
        DepotFault::Memory
    }
}

/// Hands out disks by number, and takes them back. A number is out between the two.
pub trait Depot {
    type Disk: Disk + Drop;

    /// Which numbers are out, and how often the depot has failed.
    ghost state: { Self → DepotState };

    /// Where the depot tells it: the disk that came back last under a number that isn't out.
    ghost returned: { Self → Option (ℕ → Option Self.Disk) };

    /// Hands out the disk of this number, which isn't out. All that it holds is on the disk, and it has not
    /// failed yet. What it holds depends on the depot: a disk in memory is empty.
    fn disk(&mut self, number: u32) -> Result<Self::Disk, DepotFault>
        requires { (state self.old).is_out number ≡ false }
        ensures out { OnOk result ((k : ℕ) → (state self.new).is_out k ≡ ((k == number) || (state self.old).is_out k)) }
        ensures told { OnOk result (Tells (returned self.old) (returned self.new) number None) }
        ensures no_faults { IfOk result (λ disk. (Self.Disk.state disk).faults ≡ 0) }
        ensures durable { IfOk result (λ disk. (Self.Disk.state disk).pending ≡ settled (Self.Disk.state disk).seen) }
        ensures refused { OnErr result ((k : ℕ) → (state self.new).is_out k ≡ (state self.old).is_out k) }
        ensures kept { OnErr result (returned self.new ≡ returned self.old) }
        ensures cause { IsCounted DepotFault.Failed (state self.old).faults (state self.new).faults result };

    /// Takes back the disk of a number that is out. It takes no memory.
    fn back(&mut self, number: u32, disk: Self::Disk)
        requires { (state self.old).is_out number ≡ true }
        ensures out { (k : ℕ) → (state self.new).is_out k ≡ (not (k == number) && (state self.old).is_out k) }
        ensures told { Tells (returned self.old) (returned self.new) number (Some disk) }
        ensures faults { (state self.new).faults ≡ (state self.old).faults };
}
