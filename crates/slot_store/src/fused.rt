//! A device whose disk can be stopped in mid-stream.
ghost use Rattle.std.specs.Prelude.{◌≡◌};
ghost use Rattle.slot_store.specs.Standing.{slot_reads, Stops, Renews};

use crate::SlotDev;
use disk_trait::{Disk, FuseDisk};

impl<D: Disk + Drop> SlotDev<FuseDisk<D>> {
    /// Of the next writes, cuts and syncs of the disk the first `calls` pass. A write that follows lands its first
    /// `pick` bytes, or all where it has fewer; a cut or sync that follows does nothing. Each later one fails, until
    /// the restart.
    pub fn stop_after(&mut self, calls: u32, pick: u64)
        ensures stops { Stops D.state D.images calls pick self.old self.new }
        ensures reads { slot_reads self.new ≡ slot_reads self.old }
    {
        self.inner.stop_after(calls, pick);
    }

    /// The fuse of the disk is unset, and has stopped nothing: as new.
    pub fn renew(&mut self)
        ensures renews { Renews D.state D.images self.old self.new }
        ensures reads { slot_reads self.new ≡ slot_reads self.old }
    {
        self.inner.renew();
    }
}
