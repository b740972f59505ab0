//! A journal whose disk can be stopped in mid-stream.
ghost use Rattle.plan_log.specs.Standing.{Stops, Renews};

use crate::PlanLog;
use disk_trait::{Disk, FuseDisk};

impl<D: Disk + Drop> PlanLog<FuseDisk<D>> {
    /// Of the next writes, cuts and syncs of the disk the first `calls` pass. A write that follows lands its first
    /// `pick` bytes, or all where it has fewer; a cut or sync that follows does nothing. Each later one fails, until
    /// the restart.
    pub fn stop_after(&mut self, calls: u32, pick: u64)
        ensures { Stops D.state D.images calls pick self.old self.new }
    {
        self.inner.stop_after(calls, pick);
    }

    /// The fuse of the disk is unset, and has stopped nothing: as new.
    pub fn renew(&mut self)
        ensures { Renews D.state D.images self.old self.new }
    {
        self.inner.renew();
    }
}
