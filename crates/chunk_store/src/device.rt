//! The device: what its calls promise of its map.
ghost use Rattle.std.specs.Prelude.{◌≡◌, ◌↔◌, ◌+◌, ◌*◌, ◌<◌, ◌≤◌, false, [], ℕ, List, length, None, Some, OnOk, OnErr};
ghost use Rattle.std.specs.Prelude.{IfOk, IfSome, IfNone, IsErrOf, IsTrue, IsSome, ◌==◌, ◌&&◌, nat_lt, filter};
ghost use Rattle.std.specs.Prelude.{option_map};
ghost use Rattle.std.specs.Bool.{MatchBool};
ghost use Rattle.std.specs.BTreeMap.{insert_entry};
ghost use Rattle.std.specs.Map.{keys_of};
ghost use Rattle.std.specs.List.Sorted.{IsStrictlySortedBy};
ghost use Rattle.disk_trait.specs.Calls.{Elapses};
ghost use Rattle.vault.specs.Limit.{payload_most};
ghost use Rattle.vault.specs.Standing.{payloads, disk_of, IsDown, IsUp, IsSynced, IsRestarted};
ghost use Rattle.spare_map.specs.Late.{without};
ghost use Rattle.chunk_store.specs.Payload.{name_cmp};
ghost use Rattle.chunk_store.specs.Index.{IsPlace, bytes_at};
ghost use Rattle.chunk_store.specs.Standing.{vault_of, chunks, chunk_in, IsLookedAt, IsOpened, HasRoom, Formats, Looks};
ghost use Rattle.chunk_store.specs.Standing.{Restarts, OpensWrite, Reserves, Puts, Gets, Stays};

use crate::fault::{ChunkFault, told};
use crate::index::{ChunkIndex, Place};
use crate::payload::{Change, chunk_behind, write_drop, write_put};
use disk_trait::Disk;
use stab_base::{Bytes, ChunkName, NUMBER_MAX, Names, Version};
use std::alloc::{AllocError, Global};
use vault::Folded;

/// A map of chunks by name, on a disk of its own.
///
/// On the disk stands a vault, each payload of which puts one chunk or drops it: byte 1, the name and the chunk's
/// bytes to the end, or byte 2 and the name. The last payload of a name stands. A name is eight bytes of version
/// and four of ordinal, big-endian. Other payloads, and those whose version is above `NUMBER_MAX`, are passed over.
///
/// After a fault of the disk a device is down: each call answers `Down`, until the disk has been restarted and
/// looked at again.
#[derive(Drop)]
pub struct ChunkDev<D: Disk> {
    pub(crate) inner: Folded<D, ChunkIndex>,
    alloc: Global,
}

impl<D: Disk + Drop> ChunkDev<D> {
    /// A device that hasn't been looked at.
    pub fn new(alloc: Global, disk: D) -> ChunkDev<D>
        ensures disk { disk_of (vault_of result) ≡ disk }
        ensures up { IsUp (vault_of result) }
    {
        ChunkDev {
            inner: Folded::new(alloc, disk),
            alloc,
        }
    }

    pub fn into_disk(self) -> D
        ensures { result ≡ disk_of (vault_of self) }
    {
        let ChunkDev { inner, .. } = self;
        inner.into_disk()
    }

    /// Whether the disk has failed, and has not been restarted since.
    pub fn is_down(&self) -> bool
        ensures { MatchBool result (IsDown (vault_of self.now)) (IsUp (vault_of self.now)) }
    {
        self.inner.is_down()
    }

    /// Makes the disk that of no chunk. The device is then opened.
    pub fn format(&mut self) -> Result<(), ChunkFault>
        ensures { Formats D.state D.images self.old self.new result }
    {
        told(self.inner.format())
    }

    /// Finds the chunks on the disk, whatever its bytes are. It reads each payload once and writes nothing. The
    /// device is then unopened.
    pub fn look(&mut self) -> Result<(), ChunkFault>
        requires synced { IsSynced D.state (vault_of self.old) }
        ensures { Looks D.state D.images self.old self.new result }
    {
        told(self.inner.look())
    }

    /// Crashes the disk and starts it again. What the device holds is known once it is looked at.
    pub fn restart(&mut self, pick: u64)
        ensures restarts { Restarts D.state D.images self.old self.new }
        ensures image { IsRestarted D.state (vault_of self.old) (vault_of self.new) }
        ensures time { Elapses (D.state (disk_of (vault_of self.old))) (D.state (disk_of (vault_of self.new)))
            (D.images (disk_of (vault_of self.old))) (D.images (disk_of (vault_of self.new))) }
    {
        self.inner.restart(pick);
    }

    /// Takes away what a write has left that was cut short, and makes the device ready for puts and drops.
    pub fn open_write(&mut self) -> Result<(), ChunkFault>
        requires ready { IsUp (vault_of self.old) → IsLookedAt D.state self.old }
        requires room { IsUp (vault_of self.old) → HasRoom D.state self.old 1 0 0 }
        ensures { OpensWrite D.state D.images self.old self.new result }
    {
        told(self.inner.open_write())
    }

    /// Makes room for so many puts and drops, whose payloads have so many bytes in all, and for one opening: they
    /// take no memory. A put's payload is 13 bytes and the chunk's, a drop's is 13.
    pub fn reserve(&mut self, puts: u64, bytes: u64) -> Result<(), ChunkFault>
        requires ready { IsUp (vault_of self.old) → IsLookedAt D.state self.old }
        requires puts { puts ≤ 16777216 }
        requires bytes { bytes ≤ 8388608 * puts }
        ensures { Reserves D.state D.images puts bytes self.old self.new result }
    {
        told(self.inner.reserve(puts, bytes))
    }

    /// Puts a chunk, in place of the one that the name has. It is on the disk before `Ok`.
    pub fn put(&mut self, name: ChunkName, bytes: &[u8]) -> Result<(), ChunkFault>
        requires ready { IsUp (vault_of self.old) → IsOpened D.state self.old }
        requires version { name.version ≤ NUMBER_MAX }
        requires short { 13 + length bytes.now ≤ payload_most }
        requires room { IsUp (vault_of self.old) → HasRoom D.state self.old 0 1 (13 + length bytes.now) }
        ensures { Puts D.state D.images (13 + length bytes.now)
            (insert_entry name_cmp (chunks D.state self.old) name bytes.now)
            self.old self.new result }
    {
        if self.inner.is_down() {
            return Err(ChunkFault::Down);
        }
        write_put(&mut self.inner.payload, name, bytes);
        told(self.inner.append(Some(Change::Put(name))))
    }

    /// Drops the chunk of a name. It is gone on the disk before `Ok`.
    pub fn drop_chunk(&mut self, name: ChunkName) -> Result<(), ChunkFault>
        requires ready { IsUp (vault_of self.old) → IsOpened D.state self.old }
        requires there { IsUp (vault_of self.old) → IsSome (chunk_in (chunks D.state self.old) name) }
        requires room { IsUp (vault_of self.old) → HasRoom D.state self.old 0 1 13 }
        ensures { Puts D.state D.images 13 (without name_cmp (chunks D.state self.old) name) self.old self.new result }
    {
        if self.inner.is_down() {
            return Err(ChunkFault::Down);
        }
        write_drop(&mut self.inner.payload, name);
        told(self.inner.append(Some(Change::Gone(name))))
    }

    // Where a name's chunk stands.
    fn find(&self, name: ChunkName) -> Option<Place>
        requires ready { IsUp (vault_of self.now) → IsLookedAt D.state self.now }
        ensures none { IsUp (vault_of self.now) → IfNone result (chunk_in (chunks D.state self.now) name ≡ None) }
        ensures some { IsUp (vault_of self.now) → IfSome result (λ place.
            chunk_in (chunks D.state self.now) name ≡ Some (bytes_at (payloads D.state (vault_of self.now)) place)) }
        ensures place { IsUp (vault_of self.now) → IfSome result (IsPlace (payloads D.state (vault_of self.now))) }
    {
        self.inner.memory.places.get(name)
    }

    /// The chunk of a name. It is one read of the disk.
    pub fn get(&mut self, name: ChunkName) -> Result<Bytes, ChunkFault>
        requires ready { IsUp (vault_of self.old) → IsLookedAt D.state self.old }
        ensures chunk { IfOk result (λ bytes. chunk_in (chunks D.state self.old) name ≡ Some bytes) }
        ensures absent { IsErrOf result ChunkFault.Absent
            ↔ (IsUp (vault_of self.old) × (chunk_in (chunks D.state self.old) name ≡ None)) }
        ensures absent_unchanged { IsErrOf result ChunkFault.Absent → self.new ≡ self.old }
        ensures reads { Gets D.state D.images self.old self.new result }
    {
        if self.inner.is_down() {
            return Err(ChunkFault::Down);
        }
        let Some(place) = self.find(name) else {
            return Err(ChunkFault::Absent);
        };
        self.inner.read(place.index)?;
        let bytes = chunk_behind(self.alloc, &self.inner.found)?;
        Ok(bytes)
    }

    /// Whether a name has a chunk.
    pub fn has(&self, name: ChunkName) -> bool
        requires ready { IsUp (vault_of self.now) → IsLookedAt D.state self.now }
        ensures { IsUp (vault_of self.now) → (IsTrue result ↔ IsSome (chunk_in (chunks D.state self.now) name)) }
    {
        self.find(name).is_some()
    }

    /// How many bytes the chunk of a name has, where it has one. It reads nothing from the disk and takes no memory.
    pub fn len_of(&self, name: ChunkName) -> Option<u64>
        requires ready { IsUp (vault_of self.now) → IsLookedAt D.state self.now }
        ensures { IsUp (vault_of self.now) → result ≡ option_map length (chunk_in (chunks D.state self.now) name) }
    {
        match self.find(name) {
            Some(place) => Some(place.len),
            None => None,
        }
    }

    /// The names that have a chunk, in rising order.
    pub fn names(&self) -> Result<Names, AllocError>
        requires ready { IsUp (vault_of self.now) → IsLookedAt D.state self.now }
        ensures names { IsUp (vault_of self.now) → IfOk result (λ names. names ≡ keys_of (chunks D.state self.now)) }
        ensures rising { IfOk result (λ names. IsStrictlySortedBy name_cmp names) }
    {
        Ok(Names::from_vec(self.inner.memory.places.keys()?))
    }

    /// The names of a version that have a chunk and whose ordinals are below a count, in rising order. It reads nothing
    /// from the disk, and costs what the names that it finds cost, whatever the count is.
    pub fn names_below(&mut self, version: Version, count: u32) -> Result<Names, ChunkFault>
        requires ready { IsUp (vault_of self.old) → IsLookedAt D.state self.old }
        ensures names { IfOk result (λ names. names
            ≡ filter (λ name. (name.version == version) && nat_lt name.ordinal count)
            (keys_of (chunks D.state self.old))) }
        ensures rising { IfOk result (λ names. IsStrictlySortedBy name_cmp names) }
        ensures stays { Stays D.state self.old self.new }
        ensures vault { vault_of self.new ≡ vault_of self.old }
        ensures not_absent { IsErrOf result ChunkFault.Absent → ⊥ }
        ensures not_disk { IsErrOf result ChunkFault.Disk → ⊥ }
        ensures down { IsErrOf result ChunkFault.Down ↔ IsDown (vault_of self.old) }
        ensures unchanged { IsErrOf result ChunkFault.Down → self.new ≡ self.old }
    {
        if self.inner.is_down() {
            return Err(ChunkFault::Down);
        }
        let from = ChunkName {
            version,
            ordinal: 0,
        };
        let end = ChunkName {
            version,
            ordinal: count,
        };
        let names = self.inner.memory.places.keys_between(from, end)?;
        Ok(Names::from_vec(names))
    }
}
