// Disks in memory by number.
ghost use Rattle.std.specs.Prelude.{◌≡◌, ◌+◌, ◌<◌, ◌≤◌, ◌^◌, ℕ, false, None, Some, [], Contains, option_copied};

use crate::MemDisk;
use disk_trait::{Depot, DepotFault};
use std::alloc::Global;
use std::collections::BTreeMap;

/// Hands out empty disks in memory, and keeps those that come back.
///
/// `disk` fails at the listed calls, counted from 0; a call that memory was refused isn't counted. The place
/// for a disk is taken when it is handed out. A disk that came back is let go when its number is handed out
/// again.
#[derive(Drop)]
pub struct MemDepot {
    failing: Vec<u64>,
    asked: u64,
    faults: u64,
    places: BTreeMap<u32, Option<MemDisk>>,
    alloc: Global,
}

impl MemDepot {
    ghost use Rattle.disk_kit.specs.Depot.{depot_state, disk_back, failing_of, asked_of};

    /// A depot with no disk out and none back.
    pub fn new(alloc: Global, failing: Vec<u64>) -> MemDepot
        ensures none_out { (k : ℕ) → (depot_state result).is_out k ≡ false }
        ensures none_back { (k : ℕ) → disk_back result k ≡ None }
        ensures faults { (depot_state result).faults ≡ 0 }
        ensures failing { failing_of result ≡ failing.items }
        ensures asked { asked_of result ≡ 0 }
    {
        MemDepot {
            failing,
            asked: 0,
            faults: 0,
            places: BTreeMap::new(alloc),
            alloc,
        }
    }

    /// The disk that came back under this number, if it isn't out again.
    pub fn returned(&self, number: u32) -> Option<&MemDisk>
        ensures { option_copied result ≡ disk_back self.now number }
    {
        match self.places.get(&number) {
            Some(Some(disk)) => Some(disk),
            _ => None,
        }
    }
}

impl Depot for MemDepot {
    type Disk = MemDisk;

    ghost use Rattle.std.specs.Prelude.{◌+◌, ◌-◌, ◌^◌, ◌==◌, ◌||◌, [], None, Some, Contains, min, IfOk, OnOk, OnErr};
    ghost use Rattle.std.specs.Prelude.{IsErrOf};
    ghost use Rattle.disk_trait.specs.Image.{settled};
    ghost use Rattle.disk_trait.specs.Calls.{IsCounted};
    ghost use Rattle.disk_trait.specs.Depots.{Tells};
    ghost use Rattle.disk_kit.specs.Memory.{memory_state};
    ghost use Rattle.disk_kit.specs.Depot.{depot_state, disk_back, failing_of, asked_of};

    ghost state = { depot_state };

    ghost returned = { λ d. Some (disk_back d) };

    fn disk(&mut self, number: u32) -> Result<MemDisk, DepotFault>
        requires { (depot_state self.old).is_out number ≡ false }
        ensures empty { IfOk result (λ disk. (memory_state disk).seen ≡ []) }
        ensures listed { IsErrOf result DepotFault.Failed → Contains (failing_of self.old) (asked_of self.old) }
        ensures not_listed { OnOk result (Contains (failing_of self.old) (asked_of self.old)
            → (depot_state self.old).faults + 1 ≡ 2 ^ 64) }
        ensures asked { OnOk result (asked_of self.new ≡ min (asked_of self.old + 1) (2 ^ 64 - 1)) }
        ensures failed_asked { IsErrOf result DepotFault.Failed
            → asked_of self.new ≡ min (asked_of self.old + 1) (2 ^ 64 - 1) }
        ensures not_asked { IsErrOf result DepotFault.Memory → asked_of self.new ≡ asked_of self.old }
        ensures out { OnOk result ((k : ℕ) → (depot_state self.new).is_out k
            ≡ ((k == number) || (depot_state self.old).is_out k)) }
        ensures told { OnOk result (Tells (Some (disk_back self.old)) (Some (disk_back self.new)) number None) }
        ensures no_faults { IfOk result (λ disk. (memory_state disk).faults ≡ 0) }
        ensures durable { IfOk result (λ disk. (memory_state disk).pending ≡ settled (memory_state disk).seen) }
        ensures refused { OnErr result ((k : ℕ) → (depot_state self.new).is_out k ≡ (depot_state self.old).is_out k) }
        ensures kept { OnErr result (Some (disk_back self.new) ≡ Some (disk_back self.old)) }
        ensures cause { IsCounted DepotFault.Failed (depot_state self.old).faults (depot_state self.new).faults result }
    {
        if self.faults < u64::MAX && self.failing.contains(&self.asked) {
            self.asked = self.asked.saturating_add(1);
            self.faults += 1;
            return Err(DepotFault::Failed);
        }
        if self.places.insert(number, None).is_err() {
            return Err(DepotFault::Memory);
        }
        self.asked = self.asked.saturating_add(1);
        Ok(MemDisk::new(self.alloc))
    }

    fn back(&mut self, number: u32, disk: MemDisk) {
        if let Some(place) = self.places.get_mut(&number) {
            *place = Some(disk);
        }
    }
}
