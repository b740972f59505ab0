//! The vault: what its calls promise in lists of payloads.
ghost use Rattle.std.specs.Prelude.{◌≡◌, ◌↔◌, ◌+◌, ◌*◌, ◌<◌, ◌≤◌, ◌++◌, ◌∷◌, [], false, ℕ, length, OnOk, OnErr};
ghost use Rattle.std.specs.Prelude.{IsErrOf, slice_get, Some};
ghost use Rattle.std.specs.Bool.{MatchBool};
ghost use Rattle.disk_trait.specs.Calls.{Elapses, IsCounted};
ghost use Rattle.vault.specs.Limit.{payload_most};
ghost use Rattle.vault.specs.File.{IsBeforeOrAfter};
ghost use Rattle.vault.specs.Standing.{payloads, faults, stops, gets, one_more, disk_of, IsDown, IsUp, IsSound};
ghost use Rattle.vault.specs.Standing.{IsSynced, IsBlank, IsLookedAt, IsOpened, HasRoom, Leaves, LeavesFound};
ghost use Rattle.vault.specs.Standing.{IsRestarted, SameFuse, Stays, Burns, StopsWithin};

use crate::fault::VaultFault;
use crate::record::{PAYLOAD_MAX, write_frame};
use crate::scan::{keep_places, look_through, read_payload, span};
use crate::steps::{close_gate, format_disk, put_behind};
use disk_trait::{Disk, RoomFault};
use std::alloc::Global;

/// A list of payloads on a disk.
///
/// After a fault of the disk a vault is down: each call answers `Down`, until the disk has been restarted and
/// looked at again.
#[derive(Drop)]
pub struct Vault<D: Disk> {
    pub(crate) disk: D,
    // where the gate of each record stands
    places: Vec<u64>,
    // where the standing gate is
    gate: u64,
    // what an append writes behind the standing gate
    frame: Vec<u8>,
    is_down: bool,
    // how often a payload was read; at its end it stands still
    gets: u64,
    alloc: Global,
}

impl<D: Disk + Drop> Vault<D> {
    /// A vault that has not been looked at.
    pub fn new(alloc: Global, disk: D) -> Vault<D>
        ensures disk { disk_of result ≡ disk }
        ensures up { IsUp result }
    {
        Vault {
            disk,
            places: Vec::new(alloc),
            gate: 0,
            frame: Vec::new(alloc),
            is_down: false,
            gets: 0,
            alloc,
        }
    }

    /// The disk, as the vault leaves it.
    pub fn into_disk(self) -> D
        ensures { result ≡ disk_of self }
    {
        let Vault { disk, .. } = self;
        disk
    }

    /// Makes the file that of an empty list. The vault is then opened.
    pub fn format(&mut self) -> Result<(), VaultFault>
        ensures opened { OnOk result (IsOpened D.state self.new) }
        ensures empty { OnOk result (payloads D.state self.new ≡ []) }
        ensures durable { OnOk result (Leaves D.state D.images self.new self.new (λ list. list ≡ [])) }
        // A crash inside the format of a blank file leaves no payload.
        ensures blank { IsUp self.old → IsBlank D.state self.old
            → Leaves D.state D.images self.old self.new (λ list. list ≡ []) }
        ensures room { OnOk result (HasRoom D.state self.new 1 0 0) }
        ensures memory { IsErrOf result VaultFault.Memory → Stays D.state self.old self.new }
        ensures down { IsErrOf result VaultFault.Down ↔ IsDown self.old }
        ensures unchanged { IsErrOf result VaultFault.Down → self.new ≡ self.old }
        ensures disk { IsErrOf result VaultFault.Disk → IsDown self.new }
        ensures cause { IsCounted VaultFault.Disk (faults D.state self.old) (faults D.state self.new) result }
        ensures fuse { IsUp self.old → Burns D.state 3 self.old self.new result }
    {
        if self.is_down {
            return Err(VaultFault::Down);
        }
        match format_disk(&mut self.disk) {
            Ok(()) => {
                self.places.clear();
                self.gate = 0;
                Ok(())
            }
            Err(fault) => {
                self.is_down = fault == VaultFault::Disk;
                Err(fault)
            }
        }
    }

    /// Finds the payloads of the file, whatever its bytes are. It reads the head of each record once, from front
    /// to back, and writes nothing. The vault is then unopened.
    pub fn look(&mut self) -> Result<(), VaultFault>
        requires synced { IsSynced D.state self.old }
        ensures looked { OnOk result (IsLookedAt D.state self.new) }
        ensures same { OnOk result (payloads D.state self.new ≡ payloads D.state self.old) }
        ensures sound { OnOk result (IsSound D.state self.old → IsSound D.state self.new) }
        ensures room { OnOk result (HasRoom D.state self.new 1 0 0) }
        // What was looked at before stays, with what was opened and reserved.
        ensures stays { OnOk result (IsLookedAt D.state self.old → Stays D.state self.old self.new) }
        ensures any_moment { IsUp self.old → IsSound D.state self.old
            → Leaves D.state D.images self.old self.new (λ list. list ≡ payloads D.state self.old) }
        ensures memory { IsErrOf result VaultFault.Memory → Stays D.state self.old self.new }
        ensures down { IsErrOf result VaultFault.Down ↔ IsDown self.old }
        ensures unchanged { IsErrOf result VaultFault.Down → self.new ≡ self.old }
        ensures disk { IsErrOf result VaultFault.Disk → IsDown self.new }
        ensures cause { IsCounted VaultFault.Disk (faults D.state self.old) (faults D.state self.new) result }
        ensures fuse { SameFuse D.state self.old self.new }
    {
        if self.is_down {
            return Err(VaultFault::Down);
        }
        let mut places = Vec::new(self.alloc);
        match look_through(&mut self.disk, &mut places) {
            Ok(gate) => {
                keep_places(&mut self.places, places);
                self.gate = gate;
                Ok(())
            }
            Err(fault) => {
                self.is_down = fault == VaultFault::Disk;
                Err(fault)
            }
        }
    }

    /// Crashes the disk and starts it again. What the vault holds is known once it is looked at.
    pub fn restart(&mut self, pick: u64)
        ensures image { IsRestarted D.state self.old self.new }
        ensures up { IsUp self.new }
        ensures synced { IsSynced D.state self.new }
        ensures same { IsUp self.old → IsSynced D.state self.old
            → payloads D.state self.new ≡ payloads D.state self.old }
        ensures faults { faults D.state self.new ≡ faults D.state self.old }
        ensures stops { stops D.state self.new ≡ stops D.state self.old }
        ensures unset { (D.state (disk_of self.new)).is_armed ≡ false }
        ensures time { Elapses (D.state (disk_of self.old)) (D.state (disk_of self.new)) (D.images (disk_of self.old))
            (D.images (disk_of self.new)) }
    {
        self.disk.restart(pick);
        self.is_down = false;
    }

    /// Takes away what an append has left that was cut short, and makes the vault ready for appends.
    pub fn open_write(&mut self) -> Result<(), VaultFault>
        requires ready { IsUp self.old → IsLookedAt D.state self.old }
        requires room { IsUp self.old → HasRoom D.state self.old 1 0 0 }
        ensures opened { OnOk result (IsOpened D.state self.new) }
        ensures same { OnOk result (payloads D.state self.new ≡ payloads D.state self.old) }
        ensures durable { OnOk result (Leaves D.state D.images self.new self.new
            (λ list. list ≡ payloads D.state self.old)) }
        ensures room { OnOk result ((openings appends bytes : ℕ) → HasRoom D.state self.old (openings + 1) appends bytes
            → HasRoom D.state self.new openings appends bytes) }
        ensures any_moment { IsUp self.old → IsSound D.state self.old
            → Leaves D.state D.images self.old self.new (λ list. list ≡ payloads D.state self.old) }
        // Also where the file stands for no list, what was found in it is found again.
        ensures keeps { IsUp self.old → LeavesFound D.state D.images self.old self.new (payloads D.state self.old) }
        ensures down { IsErrOf result VaultFault.Down ↔ IsDown self.old }
        ensures unchanged { IsErrOf result VaultFault.Down → self.new ≡ self.old }
        ensures disk { OnErr result (IsDown self.new) }
        ensures no_memory { IsErrOf result VaultFault.Memory → ⊥ }
        ensures cause { IsCounted VaultFault.Disk (faults D.state self.old) (faults D.state self.new) result }
        ensures fuse { IsUp self.old → Burns D.state 4 self.old self.new result }
    {
        if self.is_down {
            return Err(VaultFault::Down);
        }
        match close_gate(&mut self.disk, self.gate) {
            Ok(()) => Ok(()),
            Err(_) => {
                self.is_down = true;
                Err(VaultFault::Disk)
            }
        }
    }

    /// Makes room for so many payloads, of so many bytes in all, and for one opening: appending them takes no
    /// memory.
    pub fn reserve(&mut self, appends: u64, bytes: u64) -> Result<(), VaultFault>
        requires ready { IsUp self.old → IsLookedAt D.state self.old }
        requires appends { appends ≤ 16777216 }
        requires bytes { bytes ≤ 8388608 * appends }
        ensures room { OnOk result (HasRoom D.state self.new 1 appends bytes) }
        ensures stays { OnOk result (Stays D.state self.old self.new) }
        ensures any_moment { IsUp self.old → IsSound D.state self.old
            → Leaves D.state D.images self.old self.new (λ list. list ≡ payloads D.state self.old) }
        ensures memory { IsErrOf result VaultFault.Memory → Stays D.state self.old self.new }
        ensures down { IsErrOf result VaultFault.Down ↔ IsDown self.old }
        ensures unchanged { IsErrOf result VaultFault.Down → self.new ≡ self.old }
        ensures disk { IsErrOf result VaultFault.Disk → IsDown self.new }
        ensures cause { IsCounted VaultFault.Disk (faults D.state self.old) (faults D.state self.new) result }
        ensures fuse { SameFuse D.state self.old self.new }
    {
        if self.is_down {
            return Err(VaultFault::Down);
        }
        self.places.reserve(appends as usize)?;
        self.frame.clear();
        self.frame
            .reserve(5 + bytes.min(PAYLOAD_MAX as u64) as usize)?;
        let len = self.gate + 1 + 5 * appends + bytes;
        match self
            .disk
            .room(len, 4 * (1 + appends), 1 + 6 * appends + bytes)
        {
            Ok(()) => Ok(()),
            Err(RoomFault::Memory) => Err(VaultFault::Memory),
            Err(RoomFault::Failed) => {
                self.is_down = true;
                Err(VaultFault::Disk)
            }
        }
    }

    /// Adds a payload of at most `PAYLOAD_MAX` bytes at the end. It is on the disk before `Ok`.
    pub fn append(&mut self, payload: &[u8]) -> Result<(), VaultFault>
        requires ready { IsUp self.old → IsOpened D.state self.old }
        requires short { length payload.now ≤ payload_most }
        requires room { IsUp self.old → HasRoom D.state self.old 0 1 (length payload.now) }
        ensures opened { OnOk result (IsOpened D.state self.new) }
        ensures added { OnOk result (payloads D.state self.new ≡ payloads D.state self.old ++ payload.now ∷ []) }
        ensures durable { OnOk result (Leaves D.state D.images self.new self.new
            (λ list. list ≡ payloads D.state self.old ++ payload.now ∷ [])) }
        ensures room { OnOk result ((openings appends bytes : ℕ)
            → HasRoom D.state self.old openings (appends + 1) (bytes + length payload.now)
            → HasRoom D.state self.new openings appends bytes) }
        // A crash at any moment of the call leaves the payloads from before it, without the new one or with it.
        ensures any_moment { IsUp self.old
            → Leaves D.state D.images self.old self.new (IsBeforeOrAfter (payloads D.state self.old) payload.now) }
        // Where a fuse stops one of the first two of its four calls, it is without the new one.
        ensures early { IsUp self.old → StopsWithin D.state self.old 2
            → Leaves D.state D.images self.old self.new (λ list. list ≡ payloads D.state self.old) }
        ensures down { IsErrOf result VaultFault.Down ↔ IsDown self.old }
        ensures unchanged { IsErrOf result VaultFault.Down → self.new ≡ self.old }
        ensures disk { OnErr result (IsDown self.new) }
        ensures no_memory { IsErrOf result VaultFault.Memory → ⊥ }
        ensures cause { IsCounted VaultFault.Disk (faults D.state self.old) (faults D.state self.new) result }
        ensures fuse { IsUp self.old → Burns D.state 4 self.old self.new result }
    {
        if self.is_down {
            return Err(VaultFault::Down);
        }
        write_frame(&mut self.frame, payload);
        match put_behind(&mut self.disk, self.gate, &self.frame) {
            Ok(()) => {
                self.places.push(self.gate).unwrap();
                self.gate += 5 + payload.len() as u64;
                Ok(())
            }
            Err(_) => {
                self.is_down = true;
                Err(VaultFault::Disk)
            }
        }
    }

    /// Whether the disk has failed, and has not been restarted since.
    pub fn is_down(&self) -> bool
        ensures { MatchBool result (IsDown self.now) (IsUp self.now) }
    {
        self.is_down
    }

    /// How many payloads there are.
    pub fn records(&self) -> u64
        requires ready { IsUp self.now → IsLookedAt D.state self.now }
        ensures { IsUp self.now → result ≡ length (payloads D.state self.now) }
    {
        self.places.len() as u64
    }

    /// Puts the payload of this index, the first being 0, into `out`, in place of what is there. It is one read of
    /// the disk. After `Disk` nothing is in `out`.
    pub fn get(&mut self, index: u64, out: &mut Vec<u8>) -> Result<(), VaultFault>
        requires ready { IsUp self.old → IsLookedAt D.state self.old }
        requires index { IsUp self.old → index < length (payloads D.state self.old) }
        ensures payload { OnOk result (slice_get (payloads D.state self.old) index ≡ Some out.new.items) }
        ensures stays { OnOk result (Stays D.state self.old self.new) }
        ensures any_moment { IsUp self.old → IsSound D.state self.old
            → Leaves D.state D.images self.old self.new (λ list. list ≡ payloads D.state self.old) }
        ensures memory { IsErrOf result VaultFault.Memory → Stays D.state self.old self.new }
        ensures out_kept { IsErrOf result VaultFault.Memory → out.new.items ≡ out.old.items }
        ensures out_down { IsErrOf result VaultFault.Down → out.new.items ≡ out.old.items }
        ensures out_emptied { IsErrOf result VaultFault.Disk → out.new.items ≡ [] }
        ensures counted { IsUp self.old → gets self.new ≡ one_more (gets self.old) }
        ensures down { IsErrOf result VaultFault.Down ↔ IsDown self.old }
        ensures unchanged { IsErrOf result VaultFault.Down → self.new ≡ self.old }
        ensures disk { IsErrOf result VaultFault.Disk → IsDown self.new }
        ensures cause { IsCounted VaultFault.Disk (faults D.state self.old) (faults D.state self.new) result }
        ensures fuse { SameFuse D.state self.old self.new }
    {
        if self.is_down {
            return Err(VaultFault::Down);
        }
        self.gets = self.gets.saturating_add(1);
        let (at, len) = span(&self.places, self.gate, index);
        match read_payload(&mut self.disk, at, len, out) {
            Ok(()) => Ok(()),
            Err(fault) => {
                self.is_down = fault == VaultFault::Disk;
                Err(fault)
            }
        }
    }
}
