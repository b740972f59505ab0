//! Devices whose disks can be stopped in mid-stream.
ghost use Rattle.std.specs.Prelude.{◌≡◌, List};
ghost use Rattle.disk_trait.specs.Fuse.{behind, inner_of};
ghost use Rattle.vault.specs.Calls.{IsEither};
ghost use Rattle.row_store.specs.Data.{TableData};
ghost use Rattle.store_commit.specs.Devs.{Devs, Write};
ghost use Rattle.store_commit.specs.Standing.{devs, write_of, writes_of, AreUp, AreSynced, AreSound, IsReady};
ghost use Rattle.store_commit.specs.Standing.{DevsLeave, RowsLeave};
ghost use Rattle.store_commit.specs.Fused.{device_of, StopsNext, SameDisks};
ghost use Rattle.store_commit.specs.Unset.{AreFresh};

use crate::devs::TableDevs;
use crate::task::Task;
use disk_trait::{Disk, FuseDisk};

/// One of a table's three devices.
#[derive(Clone, Copy)]
pub(crate) enum Device {
    Chunks,
    Rows,
    Log,
}

impl Task {
    // The device that the write is of.
    fn device(&self) -> Device
        ensures { result ≡ device_of (write_of self.now) }
    {
        match self {
            Task::OpenChunks | Task::PutChunk(_, _) | Task::DropChunk(_) => Device::Chunks,
            Task::OpenRows | Task::PutRow(_) | Task::PutTable(_, _) | Task::PutSub { .. } => {
                Device::Rows
            }
            Task::OpenLog | Task::OpenEntry(_) | Task::CloseEntry => Device::Log,
        }
    }
}

impl<D: Disk + Drop> TableDevs<FuseDisk<D>> {
    /// Sets the fuse of the disk of the next write, where there is one. Of that disk's next writes, cuts and syncs the
    /// first `calls` pass. A write that follows lands its first `pick` bytes, or all where it has fewer; a cut or sync
    /// that follows does nothing. Each later one fails, until the restart.
    pub fn stop_after(&mut self, calls: u32, pick: u64)
        ensures stops { StopsNext D.state D.images calls pick (writes_of self.old) self.old self.new }
        ensures agenda { self.new.agenda ≡ self.old.agenda }
        ensures scanned { self.new.scanned ≡ self.old.scanned }
        ensures up { AreUp self.old → AreUp self.new }
        ensures same { devs (behind D.state) self.new ≡ devs (behind D.state) self.old }
        ensures ready { (ws : List Write) → IsReady (behind D.state) self.old ws
            → IsReady (behind D.state) self.new ws }
        ensures any_moment { AreUp self.old → AreSynced (behind D.state) self.old → AreSound (behind D.state) self.old
            → DevsLeave (behind D.state) (λ f. D.images (inner_of f)) self.old self.new
            (λ d. d ≡ devs (behind D.state) self.old) }
        ensures rows_left { AreUp self.old → AreSynced (behind D.state) self.old → AreSound (behind D.state) self.old
            → RowsLeave (behind D.state) (λ f. D.images (inner_of f)) self.old self.new
            (λ held. held ≡ (devs (behind D.state) self.old).held) }
    {
        let Some(task) = self.agenda.front() else {
            return;
        };
        match task.device() {
            Device::Chunks => self.chunks.stop_after(calls, pick),
            Device::Rows => self.rows.stop_after(calls, pick),
            Device::Log => self.log.stop_after(calls, pick),
        }
    }

    /// The fuses of the three disks are unset, and have stopped nothing: as new.
    pub fn renew(&mut self)
        ensures fresh { AreFresh (behind D.state) self.new }
        ensures devs { devs (behind D.state) self.new ≡ devs (behind D.state) self.old }
        ensures agenda { self.new.agenda ≡ self.old.agenda }
        ensures scanned { self.new.scanned ≡ self.old.scanned }
        ensures up { AreUp self.old → AreUp self.new }
        ensures synced { AreSynced (behind D.state) self.old → AreSynced (behind D.state) self.new }
        ensures sound { AreSound (behind D.state) self.old → AreSound (behind D.state) self.new }
        ensures ready { (ws : List Write) → IsReady (behind D.state) self.old ws
            → IsReady (behind D.state) self.new ws }
        ensures inner { SameDisks self.old self.new }
        // What was promised of each crash since an earlier moment still is.
        ensures left { (start : TableDevs (FuseDisk D)) (a b : Devs)
            → DevsLeave (behind D.state) (λ f. D.images (inner_of f)) start self.old (IsEither a b)
            → DevsLeave (behind D.state) (λ f. D.images (inner_of f)) start self.new (IsEither a b) }
        ensures rows_left { (start : TableDevs (FuseDisk D)) (a b : TableData)
            → RowsLeave (behind D.state) (λ f. D.images (inner_of f)) start self.old (IsEither a b)
            → RowsLeave (behind D.state) (λ f. D.images (inner_of f)) start self.new (IsEither a b) }
    {
        self.chunks.renew();
        self.rows.renew();
        self.log.renew();
    }
}
