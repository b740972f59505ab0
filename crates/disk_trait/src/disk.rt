// A file on a disk. Until a sync, a crash may leave any bytes at the places that were written.
ghost use Rattle.std.specs.Prelude.{◌≡◌, ◌+◌, ◌^◌, ◌<◌, ◌≤◌, List, ℕ, false, length, take, drop, OnOk};
ghost use Rattle.disk_trait.specs.declared.disk.RoomFault.TheVariants.{Memory};
ghost use Rattle.disk_trait.specs.Image.{IsImage, LeavesLess, settled, touched, shortened, overwritten};
ghost use Rattle.disk_trait.specs.Calls.{DiskState, Elapses, HasCause, IsCounted, Spends, Burns, SameFile};

use std::alloc::AllocError;
use thiserror::Error;

/// A read, a write, a cut or a sync failed. What a failed write or cut left counts as not synced.
#[derive(Debug, Clone, Copy, PartialEq, Eq, Error)]
pub enum DiskFault {
    #[error("the disk failed")]
    Failed,
}

/// Why no room was made: the disk failed, or memory was refused.
#[derive(Debug, Clone, Copy, PartialEq, Eq, Error)]
pub enum RoomFault {
    #[error("the disk failed")]
    Failed,
    #[error("no memory for the room")]
    Memory,
}

impl From<AllocError> for RoomFault {
    ghost from_gives = { λ _ e. e ≡ Memory };

    fn from(_: AllocError) -> Self {
        RoomFault::Memory
    }
}

/// One file, all lengths in bytes. No file is longer than 2^60 bytes.
///
/// A layer above speaks of the disk by two ghost members. `state` is what a read gives now, what a crash may
/// leave now (`pending`), the room that was made, the counts of faults, and the moment. `images disk t` are
/// the files that a crash at moment `t` or later might have left. A call that moves the file has a clause
/// `crash`, which bounds `pending`, and a clause `time`, by which a crash since an earlier moment leaves what
/// it might have left before, or what it may leave now. So a run of calls keeps a property P of the file
/// through every crash where each call's `pending` has only images with P: `LeavesOnly` says so, and its
/// lemmas `started`, `goes_on` and `leaves_then` go from call to call. Most layers need only `write_durably`
/// and `cut_durably`, from a settled file to a settled file.
///
/// Only `room` takes memory. It makes the length, the calls and the bytes that later calls use up.
///
/// `faults` counts what failed. `stops` is how many of these were stops of a fuse (`FuseDisk`), so a failure
/// with the same `stops` is one of the disk itself. A disk without a fuse is never armed.
pub trait Disk {
    /// The file, the room that was made, how often the disk has failed, and the moment.
    ghost state: { Self → DiskState };

    /// What a crash at some moment from that one on might have left.
    ghost images: { Self → ℕ → List ℕ → Type 0 };

    /// The length of the file.
    fn len(&self) -> u64
        ensures len { result ≡ length (state self.now).seen }
        ensures bounded { length (state self.now).seen ≤ 2 ^ 60 };

    /// Makes room: so many calls, with so many bytes in all, take no memory up to that length.
    fn room(&mut self, len: u64, calls: u64, bytes: u64) -> Result<(), RoomFault>
        requires { len ≤ 2 ^ 62 }
        ensures room { OnOk result (len ≤ (state self.new).room) }
        ensures calls { OnOk result (calls ≤ (state self.new).calls) }
        ensures bytes { OnOk result (bytes ≤ (state self.new).bytes) }
        ensures bounded { (state self.new).room ≤ 2 ^ 60 }
        ensures same { SameFile (state self.old) (state self.new) }
        ensures time { Elapses (state self.old) (state self.new) (images self.old) (images self.new) }
        ensures cause { IsCounted RoomFault.Failed (state self.old).faults (state self.new).faults result };

    /// Fills the buffer with the bytes from there on.
    fn read_at(&mut self, at: u64, into: &mut [u8]) -> Result<(), DiskFault>
        requires { at + length into.old ≤ length (state self.old).seen }
        ensures bytes { OnOk result (into.new ≡ take (length into.old) (drop at (state self.old).seen)) }
        ensures same { SameFile (state self.old) (state self.new) }
        ensures time { Elapses (state self.old) (state self.new) (images self.old) (images self.new) }
        ensures cause { HasCause (state self.old) (state self.new) result };

    /// Writes over what is there, and past the end.
    fn write_at(&mut self, at: u64, bytes: &[u8]) -> Result<(), DiskFault>
        requires start { at ≤ length (state self.old).seen }
        requires room { at + length bytes.now ≤ (state self.old).room }
        requires calls { 0 < (state self.old).calls }
        requires bytes { length bytes.now ≤ (state self.old).bytes }
        ensures written { OnOk result ((state self.new).seen ≡ overwritten (state self.old).seen at bytes.now) }
        ensures crash { LeavesLess (state self.new).pending (touched at (length bytes.now) (state self.old).pending) }
        ensures spent { Spends 1 (length bytes.now) (state self.old) (state self.new) }
        ensures time { Elapses (state self.old) (state self.new) (images self.old) (images self.new) }
        ensures cause { HasCause (state self.old) (state self.new) result }
        ensures fuse { Burns 1 (state self.old) (state self.new) result };

    /// Shortens the file to this length.
    fn cut(&mut self, len: u64) -> Result<(), DiskFault>
        requires len { len ≤ length (state self.old).seen }
        requires calls { 0 < (state self.old).calls }
        ensures cut { OnOk result ((state self.new).seen ≡ take len (state self.old).seen) }
        ensures crash { LeavesLess (state self.new).pending (shortened len (state self.old).pending) }
        ensures spent { Spends 1 0 (state self.old) (state self.new) }
        ensures time { Elapses (state self.old) (state self.new) (images self.old) (images self.new) }
        ensures cause { HasCause (state self.old) (state self.new) result }
        ensures fuse { Burns 1 (state self.old) (state self.new) result };

    /// After it, a crash leaves what a read gives.
    fn sync(&mut self) -> Result<(), DiskFault>
        requires { 0 < (state self.old).calls }
        ensures seen { OnOk result ((state self.new).seen ≡ (state self.old).seen) }
        ensures durable { OnOk result ((state self.new).pending ≡ settled (state self.old).seen) }
        ensures crash { LeavesLess (state self.new).pending (state self.old).pending }
        ensures spent { Spends 1 0 (state self.old) (state self.new) }
        ensures time { Elapses (state self.old) (state self.new) (images self.old) (images self.new) }
        ensures cause { HasCause (state self.old) (state self.new) result }
        ensures fuse { Burns 1 (state self.old) (state self.new) result };

    /// A crash and a new start, at any time: the file is one of the images from then on, all of it on the
    /// disk. Where there is but one image, as after a sync or an earlier restart, the file stays. A fuse is
    /// no longer set. It takes no memory, and at most one call of the room.
    fn restart(&mut self, pick: u64)
        ensures image { IsImage (state self.old).pending (state self.new).seen }
        ensures settled { (state self.new).pending ≡ settled (state self.new).seen }
        ensures unchanged { (state self.old).pending ≡ settled (state self.old).seen
            → (state self.new).seen ≡ (state self.old).seen }
        ensures spent { Spends 1 0 (state self.old) (state self.new) }
        ensures time { Elapses (state self.old) (state self.new) (images self.old) (images self.new) }
        ensures faults { (state self.new).faults ≡ (state self.old).faults }
        ensures stops { (state self.new).stops ≡ (state self.old).stops }
        ensures disarmed { (state self.new).is_armed ≡ false };

    /// This moment is one of those since an earlier one.
    ghost counts_now: { (disk : Self) (t : ℕ) (image : List ℕ) → t ≤ (state disk).moment
        → IsImage (state disk).pending image → images disk t image };

    /// Since this moment there is no other.
    ghost only_now: { (disk : Self) (image : List ℕ) → images disk (state disk).moment image
        → IsImage (state disk).pending image };

    /// A crash may leave what a read gives.
    ghost seen_left: { (disk : Self) → IsImage (state disk).pending (state disk).seen };

    /// Each stop is one of the faults.
    ghost stops_counted: { (disk : Self) → (state disk).stops ≤ (state disk).faults };

    /// No file and no room is longer.
    ghost len_bounded: { (disk : Self) → length (state disk).seen ≤ 2 ^ 60 };

    ghost room_bounded: { (disk : Self) → (state disk).room ≤ 2 ^ 60 };
}
