// A file in memory. Its record of calls is real data: going back over it gives the images of every moment.
ghost use Rattle.std.specs.Prelude.{◌≡◌, ◌<◌, ◌≤◌, ◌^◌, true, false, [], length, take};
ghost use Rattle.std.specs.Vec.{vec_capacity, vec_len};
ghost use Rattle.disk_trait.specs.Image.{settled};
ghost use Rattle.disk_kit.specs.Record.{IsKept, noted};

use crate::edits::{overwrite, reserve_to};
use disk_trait::{Disk, DiskFault, RoomFault};
use std::alloc::Global;

// No file is longer.
const MOST: u64 = 1 << 60;

/// A call on the record, with the length before it where it may have changed it.
#[derive(Debug, Clone, Copy, PartialEq, Eq)]
pub(crate) enum Call {
    /// `count` bytes at `at`, in place of the `over` bytes that stood there, which were saved.
    Write {
        at: usize,
        count: usize,
        over: usize,
        before: usize,
    },
    Cut {
        before: usize,
    },
    /// A sync, or a restart.
    Sync,
}

/// A file in memory, with a record of all its calls.
///
/// The record holds no written byte a second time: it has the bytes that each write overwrote, and the length
/// before each write and cut, so that going back over it gives the file at every earlier moment. Bytes that
/// are cut off stay behind the file until they are overwritten.
#[derive(Drop)]
pub struct MemDisk {
    bytes: Vec<u8>,
    len: usize,
    calls: Vec<Call>,
    pool: Vec<u8>,
    is_settled: bool,
    ghost kept: { IsKept calls.items pool.items (record { bytes = bytes.items; len = len }) },
    ghost short: { length bytes.items ≤ 2 ^ 60 },
    ghost place: { is_settled ≡ false → vec_len calls < vec_capacity calls },
    ghost all_synced: { is_settled ≡ true
        → noted (settled []) calls.items pool.items (record { bytes = bytes.items; len = len })
        ≡ settled (take len bytes.items) },
}

impl MemDisk {
    ghost use Rattle.disk_kit.specs.Memory.{memory_state};

    /// An empty file.
    pub fn new(alloc: Global) -> MemDisk
        ensures empty { (memory_state result).seen ≡ [] }
        ensures durable { (memory_state result).pending ≡ settled [] }
    {
        MemDisk {
            bytes: Vec::new(alloc),
            len: 0,
            calls: Vec::new(alloc),
            pool: Vec::new(alloc),
            is_settled: true,
        }
    }

    /// What a read gives.
    pub fn bytes(&self) -> &[u8]
        ensures { result.now ≡ (memory_state self.now).seen }
    {
        &self.bytes[..self.len]
    }
}

impl Disk for MemDisk {
    ghost use Rattle.std.specs.Prelude.{◌^◌};
    ghost use Rattle.std.specs.Vec.{vec_capacity};
    ghost use Rattle.disk_trait.specs.Image.{IsImage};
    ghost use Rattle.disk_trait.specs.Calls.{Elapses, Spends};
    ghost use Rattle.disk_kit.specs.Memory.{memory_state, memory_images, held_in};
    ghost use Rattle.disk_kit.specs.Laws.{counts_since, only_since, file_bounded, none_stopped, room_at_most};

    ghost state = { memory_state };

    ghost images = { memory_images };

    ghost counts_now = { λ m. counts_since m.calls.items m.pool.items (held_in m) };

    ghost only_now = { λ m. only_since m.calls.items m.pool.items (held_in m) };

    ghost seen_left = { λ m. m.kept.image };

    ghost stops_counted = { λ m. none_stopped };

    ghost len_bounded = { λ m. file_bounded m.bytes.items m.len (2 ^ 60) m.short };

    ghost room_bounded = { λ m. room_at_most (vec_capacity m.bytes) (2 ^ 60) };

    fn len(&self) -> u64 {
        self.len as u64
    }

    fn room(&mut self, len: u64, calls: u64, bytes: u64) -> Result<(), RoomFault> {
        if len > MOST || calls == u64::MAX {
            return Err(RoomFault::Memory);
        }
        reserve_to(&mut self.bytes, len as usize)?;
        self.calls.reserve(calls as usize + 1)?;
        self.pool.reserve(bytes as usize)?;
        Ok(())
    }

    fn read_at(&mut self, at: u64, into: &mut [u8]) -> Result<(), DiskFault> {
        let start = at as usize;
        let end = start + into.len();
        into.copy_from_slice(&self.bytes[start..end]);
        Ok(())
    }

    fn write_at(&mut self, at: u64, bytes: &[u8]) -> Result<(), DiskFault> {
        let at = at as usize;
        let over = overwrite(&mut self.bytes, &mut self.pool, at, bytes);
        let call = Call::Write {
            at,
            count: bytes.len(),
            over,
            before: self.len,
        };
        self.calls.push(call).unwrap();
        self.len = self.len.max(at + bytes.len());
        self.is_settled = false;
        Ok(())
    }

    fn cut(&mut self, len: u64) -> Result<(), DiskFault> {
        self.calls.push(Call::Cut { before: self.len }).unwrap();
        self.len = len as usize;
        self.is_settled = false;
        Ok(())
    }

    fn sync(&mut self) -> Result<(), DiskFault> {
        self.calls.push(Call::Sync).unwrap();
        self.is_settled = true;
        Ok(())
    }

    /// Of the images it picks the one in which all writes and cuts since the sync have landed whole.
    fn restart(&mut self, pick: u64)
        ensures landed { (memory_state self.new).seen ≡ (memory_state self.old).seen }
        ensures image { IsImage (memory_state self.old).pending (memory_state self.new).seen }
        ensures settled { (memory_state self.new).pending ≡ settled (memory_state self.new).seen }
        ensures unchanged { (memory_state self.old).pending ≡ settled (memory_state self.old).seen
            → (memory_state self.new).seen ≡ (memory_state self.old).seen }
        ensures spent { Spends 1 0 (memory_state self.old) (memory_state self.new) }
        ensures time { Elapses (memory_state self.old) (memory_state self.new) (memory_images self.old)
            (memory_images self.new) }
        ensures faults { (memory_state self.new).faults ≡ (memory_state self.old).faults }
        ensures stops { (memory_state self.new).stops ≡ (memory_state self.old).stops }
        ensures disarmed { (memory_state self.new).is_armed ≡ false }
    {
        if !self.is_settled {
            self.calls.push(Call::Sync).unwrap();
            self.is_settled = true;
        }
    }
}
