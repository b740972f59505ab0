//! Devices whose disks can be stopped in mid-stream.
ghost use Rattle.std.specs.Prelude.{◌≡◌, List};
ghost use Rattle.disk_trait.specs.Fuse.{behind, inner_of};
ghost use Rattle.vault.specs.Calls.{IsEither};
ghost use Rattle.client_journal.specs.Devs.{ClientDevs, Write};
ghost use Rattle.client_journal.specs.Standing.{devs, write_of, writes_of, AreUp, AreSynced, AreSound, IsReady};
ghost use Rattle.client_journal.specs.Standing.{DevsLeave};
ghost use Rattle.client_journal.specs.Fused.{device_of, StopsNext, SameDisks};
ghost use Rattle.client_journal.specs.Unset.{AreFresh};

use crate::devs::Journal;
use crate::task::Task;
use disk_trait::{Disk, FuseDisk};

/// One of a client's three devices.
#[derive(Clone, Copy)]
pub(crate) enum Device {
    Plans,
    Slots,
    Chunks,
}

impl Task {
    // The device that the write is of.
    fn device(&self) -> Device
        ensures { result ≡ device_of (write_of self.now) }
    {
        match self {
            Task::OpenJournal | Task::PutIntend(_) | Task::PutCommit(_) | Task::PutDone => {
                Device::Plans
            }
            Task::OpenSlots | Task::PutSlots(_) | Task::PutRecord(_) => Device::Slots,
            Task::OpenChunks | Task::PutChunk(_, _) | Task::DropChunk(_) => Device::Chunks,
        }
    }
}

impl<D: Disk + Drop> Journal<FuseDisk<D>> {
    /// Sets the fuse of the disk of the next write, where there is one. Of that disk's next writes, cuts and syncs the
    /// first `calls` pass. A write that follows lands its first `pick` bytes, or all where it has fewer; a cut or sync
    /// that follows does nothing. Each later one fails, until the restart.
    pub fn stop_after(&mut self, calls: u32, pick: u64)
        ensures stops { StopsNext D.state D.images calls pick (writes_of self.old) self.old self.new }
        ensures agenda { self.new.agenda ≡ self.old.agenda }
        ensures up { AreUp self.old → AreUp self.new }
        ensures same { devs (behind D.state) self.new ≡ devs (behind D.state) self.old }
        ensures ready { (ws : List Write) → IsReady (behind D.state) self.old ws
            → IsReady (behind D.state) self.new ws }
        ensures any_moment { AreUp self.old → AreSynced (behind D.state) self.old → AreSound (behind D.state) self.old
            → DevsLeave (behind D.state) (λ f. D.images (inner_of f)) self.old self.new
            (λ d. d ≡ devs (behind D.state) self.old) }
    {
        let Some(task) = self.agenda.front() else {
            return;
        };
        match task.device() {
            Device::Chunks => self.chunks.stop_after(calls, pick),
            Device::Slots => self.slots.stop_after(calls, pick),
            Device::Plans => self.journal.stop_after(calls, pick),
        }
    }

    /// The fuses of the three disks are unset, and have stopped nothing: as new.
    pub fn renew(&mut self)
        ensures fresh { AreFresh (behind D.state) self.new }
        ensures devs { devs (behind D.state) self.new ≡ devs (behind D.state) self.old }
        ensures agenda { self.new.agenda ≡ self.old.agenda }
        ensures up { AreUp self.old → AreUp self.new }
        ensures synced { AreSynced (behind D.state) self.old → AreSynced (behind D.state) self.new }
        ensures sound { AreSound (behind D.state) self.old → AreSound (behind D.state) self.new }
        ensures ready { (ws : List Write) → IsReady (behind D.state) self.old ws
            → IsReady (behind D.state) self.new ws }
        ensures inner { SameDisks self.old self.new }
        // What was promised of each crash since an earlier moment still is.
        ensures left { (start : Journal (FuseDisk D)) (a b : ClientDevs)
            → DevsLeave (behind D.state) (λ f. D.images (inner_of f)) start self.old (IsEither a b)
            → DevsLeave (behind D.state) (λ f. D.images (inner_of f)) start self.new (IsEither a b) }
    {
        self.chunks.renew();
        self.slots.renew();
        self.journal.renew();
    }
}
