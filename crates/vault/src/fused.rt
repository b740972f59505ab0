//! A vault whose disk can be stopped in mid-stream.
ghost use Rattle.std.specs.Prelude.{◌≡◌, List, ℕ};
ghost use Rattle.disk_trait.specs.Fuse.{behind, inner_of, fused, IsArmed};
ghost use Rattle.disk_trait.specs.declared.fuse.FuseSetting.TheVariants.{Unset};
ghost use Rattle.vault.specs.Calls.{IsEither};
ghost use Rattle.vault.specs.Standing.{payloads, disk_of, IsUp, IsSynced, IsSound, Leaves, Stays};

use crate::Vault;
use disk_trait::{Disk, FuseDisk};

impl<D: Disk + Drop> Vault<FuseDisk<D>> {
    /// Of the next writes, cuts and syncs of the disk the first `calls` pass. A write that follows lands its first
    /// `pick` bytes, or all where it has fewer; a cut or sync that follows does nothing. Each later one fails, until
    /// the restart.
    pub fn stop_after(&mut self, calls: u32, pick: u64)
        ensures armed { IsArmed calls pick (behind D.state (disk_of self.old)) (behind D.state (disk_of self.new)) }
        ensures stays { Stays (behind D.state) self.old self.new }
        ensures any_moment { IsUp self.old → IsSynced (behind D.state) self.old → IsSound (behind D.state) self.old
            → Leaves (behind D.state) (λ f. D.images (inner_of f)) self.old self.new
            (λ list. list ≡ payloads (behind D.state) self.old) }
    {
        self.disk.stop_after(calls, pick);
    }

    /// The fuse of the disk is unset, and has stopped nothing: as new.
    pub fn renew(&mut self)
        ensures inner { inner_of (disk_of self.new) ≡ inner_of (disk_of self.old) }
        ensures fuse { behind D.state (disk_of self.new) ≡ fused (D.state (inner_of (disk_of self.old))) Unset 0 }
        ensures stays { Stays (behind D.state) self.old self.new }
        // What was promised of each crash since an earlier moment still is.
        ensures left { (start : Vault (FuseDisk D)) (a b : List (List ℕ))
            → Leaves (behind D.state) (λ f. D.images (inner_of f)) start self.old (IsEither a b)
            → Leaves (behind D.state) (λ f. D.images (inner_of f)) start self.new (IsEither a b) }
    {
        self.disk.renew();
    }
}
