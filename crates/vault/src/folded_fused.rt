//! A folded vault whose disk can be stopped in mid-stream.
ghost use Rattle.vault.specs.Stops.{Stops, Renews};

use crate::fold::Fold;
use crate::folded::Folded;
use disk_trait::{Disk, FuseDisk};

impl<D: Disk + Drop, F: Fold + Drop> Folded<FuseDisk<D>, F> {
    /// Of the next writes, cuts and syncs of the disk the first `calls` pass. A write that follows lands its first
    /// `pick` bytes, or all where it has fewer; a cut or sync that follows does nothing. Each later one fails, until
    /// the restart.
    pub fn stop_after(&mut self, calls: u32, pick: u64)
        ensures { Stops D.state D.images F.fits F.has_spare (λ list. list) calls pick self.old self.new }
    {
        self.vault.stop_after(calls, pick);
    }

    /// The fuse of the disk is unset, and has stopped nothing: as new.
    pub fn renew(&mut self)
        ensures { Renews D.state D.images F.fits F.has_spare (λ list. list) self.old self.new }
    {
        self.vault.renew();
    }
}
