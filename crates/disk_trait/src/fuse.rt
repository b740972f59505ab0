// Passes so many writes, cuts and syncs, then lands the front of one write, and fails until the restart.
ghost use Rattle.std.specs.Prelude.{◌≡◌, ◌+◌, ◌-◌, ◌^◌, ◌<◌, true, false, IsNone, IfSome};
ghost use Rattle.disk_trait.specs.Fuse.{landing, passes_left, is_armed_at};

use crate::{Disk, DiskFault, RoomFault};

/// What the fuse does with the next call.
#[derive(Debug, Clone, Copy, PartialEq, Eq)]
pub enum FuseSetting {
    Unset,
    /// Lets `passes` calls pass, and `pick` bytes of the write after them.
    Set { passes: u32, pick: u64 },
    Blown,
}

/// A disk that can be made to fail in mid-stream, as a crash does.
///
/// Its count of faults is that of the disk inside and its own stops together; `stops` has these apart. A fuse
/// whose count of stops is full, at 2^64 - 1, stops nothing more.
#[derive(Drop)]
pub struct FuseDisk<D: Disk> {
    inner: D,
    setting: FuseSetting,
    stops: u64,
}

// The setting and the stops after one call. It answers how many bytes of a write land, if the call is stopped.
fn burn(setting: &mut FuseSetting, stops: &mut u64) -> Option<u64>
    ensures passed { IsNone result → stops.new ≡ stops.old }
    ensures unarmed { IsNone result → is_armed_at setting.old stops.old ≡ false
        → is_armed_at setting.new stops.new ≡ false }
    ensures armed { IsNone result → is_armed_at setting.old stops.old ≡ true
        → is_armed_at setting.new stops.new ≡ true }
    ensures one_less { IsNone result → is_armed_at setting.old stops.old ≡ true
        → passes_left setting.new + 1 ≡ passes_left setting.old }
    ensures kept { IsNone result → is_armed_at setting.old stops.old ≡ true
        → landing setting.new ≡ landing setting.old }
    ensures stopped { IfSome result (λ landed. stops.new ≡ stops.old + 1) }
    ensures was_armed { IfSome result (λ landed. is_armed_at setting.old stops.old ≡ true) }
    ensures none_left { IfSome result (λ landed. passes_left setting.old ≡ 0) }
    ensures landed { IfSome result (λ landed. landed ≡ landing setting.old) }
    ensures blown { IfSome result (λ landed. setting.new ≡ FuseSetting.Blown) }
{
    if *stops == u64::MAX {
        return None;
    }
    let landed = match *setting {
        FuseSetting::Unset => return None,
        FuseSetting::Set { passes: 0, pick } => pick,
        FuseSetting::Set { passes, pick } => {
            *setting = FuseSetting::Set {
                passes: passes - 1,
                pick,
            };
            return None;
        }
        FuseSetting::Blown => 0,
    };
    *setting = FuseSetting::Blown;
    *stops += 1;
    Some(landed)
}

impl<D: Disk> FuseDisk<D> {
    ghost use Rattle.disk_trait.specs.Calls.{Elapses};
    ghost use Rattle.disk_trait.specs.Fuse.{behind, inner_of, setting_of, fused, IsArmed};

    /// A disk with a fuse that isn't set.
    pub fn new(disk: D) -> FuseDisk<D>
        ensures inner { inner_of result ≡ disk }
        ensures state { behind D.state result ≡ fused (D.state disk) FuseSetting.Unset 0 }
    {
        FuseDisk {
            inner: disk,
            setting: FuseSetting::Unset,
            stops: 0,
        }
    }

    /// The disk without the fuse.
    pub fn into_inner(self) -> D
        ensures { result ≡ inner_of self }
    {
        let FuseDisk { inner, .. } = self;
        inner
    }

    /// Of the next writes, cuts and syncs the first `calls` pass. A write that follows lands its first `pick`
    /// bytes, or all where it has fewer; a cut or sync that follows does nothing. It fails, and so does each
    /// later one, which does nothing, until the restart.
    pub fn stop_after(&mut self, calls: u32, pick: u64)
        ensures armed { IsArmed calls pick (behind D.state self.old) (behind D.state self.new) }
        ensures inner { inner_of self.new ≡ inner_of self.old }
        ensures setting { setting_of self.new ≡ FuseSetting.Set calls pick }
        ensures time { Elapses (behind D.state self.old) (behind D.state self.new) (D.images (inner_of self.old))
            (D.images (inner_of self.new)) }
    {
        self.setting = FuseSetting::Set {
            passes: calls,
            pick,
        };
    }

    /// The fuse is unset, and has stopped nothing: as new.
    pub fn renew(&mut self)
        ensures inner { inner_of self.new ≡ inner_of self.old }
        ensures state { behind D.state self.new ≡ fused (D.state (inner_of self.old)) FuseSetting.Unset 0 }
        ensures time { Elapses (behind D.state self.old) (behind D.state self.new) (D.images (inner_of self.old))
            (D.images (inner_of self.new)) }
    {
        let FuseDisk { setting, stops, .. } = self;
        *setting = FuseSetting::Unset;
        *stops = 0;
    }
}

impl<D: Disk> Disk for FuseDisk<D> {
    ghost use Rattle.std.specs.Prelude.{◌≤◌, ◌≢◌, length, take, OnOk};
    ghost use Rattle.disk_trait.specs.Image.{LeavesLess, settled, touched, shortened, overwritten};
    ghost use Rattle.disk_trait.specs.Calls.{Elapses, HasCause, Spends, Burns};
    ghost use Rattle.disk_trait.specs.Fuse.{behind, inner_of, setting_of, stops_within, Stops};

    ghost state = { behind D.state };

    ghost images = { λ f. D.images f.inner };

    ghost counts_now = { λ f. D.Disk.counts_now f.inner };

    ghost only_now = { λ f. D.Disk.only_now f.inner };

    ghost seen_left = { λ f. D.Disk.seen_left f.inner };

    ghost stops_counted = { λ f. stops_within (D.state f.inner).faults f.stops };

    ghost len_bounded = { λ f. D.Disk.len_bounded f.inner };

    ghost room_bounded = { λ f. D.Disk.room_bounded f.inner };

    fn len(&self) -> u64 {
        self.inner.len()
    }

    fn room(&mut self, len: u64, calls: u64, bytes: u64) -> Result<(), RoomFault> {
        self.inner.room(len, calls, bytes)
    }

    fn read_at(&mut self, at: u64, into: &mut [u8]) -> Result<(), DiskFault> {
        self.inner.read_at(at, into)
    }

    fn write_at(&mut self, at: u64, bytes: &[u8]) -> Result<(), DiskFault>
        requires start { at ≤ length (behind D.state self.old).seen }
        requires room { at + length bytes.now ≤ (behind D.state self.old).room }
        requires calls { 0 < (behind D.state self.old).calls }
        requires bytes { length bytes.now ≤ (behind D.state self.old).bytes }
        ensures written { OnOk result ((behind D.state self.new).seen
            ≡ overwritten (behind D.state self.old).seen at bytes.now) }
        ensures crash { LeavesLess (behind D.state self.new).pending
            (touched at (length bytes.now) (behind D.state self.old).pending) }
        ensures spent { Spends 1 (length bytes.now) (behind D.state self.old) (behind D.state self.new) }
        ensures time { Elapses (behind D.state self.old) (behind D.state self.new) (D.images (inner_of self.old))
            (D.images (inner_of self.new)) }
        ensures cause { HasCause (behind D.state self.old) (behind D.state self.new) result }
        ensures fuse { Burns 1 (behind D.state self.old) (behind D.state self.new) result }
        ensures lands { Stops (behind D.state self.old) → setting_of self.old ≢ FuseSetting.Blown
            → (D.state (inner_of self.new)).faults ≡ (D.state (inner_of self.old)).faults
            → (behind D.state self.new).seen ≡ overwritten (behind D.state self.old).seen at
            (take (landing (setting_of self.old)) bytes.now) }
        ensures blown { Stops (behind D.state self.old) → setting_of self.new ≡ FuseSetting.Blown }
        ensures nothing_more { Stops (behind D.state self.old) → setting_of self.old ≡ FuseSetting.Blown
            → inner_of self.new ≡ inner_of self.old }
    {
        match burn(&mut self.setting, &mut self.stops) {
            None => self.inner.write_at(at, bytes),
            Some(0) => Err(DiskFault::Failed),
            Some(pick) => {
                let landed = bytes.len().min(pick as usize);
                let _ = self.inner.write_at(at, &bytes[..landed]);
                Err(DiskFault::Failed)
            }
        }
    }

    fn cut(&mut self, len: u64) -> Result<(), DiskFault>
        requires len { len ≤ length (behind D.state self.old).seen }
        requires calls { 0 < (behind D.state self.old).calls }
        ensures cut { OnOk result ((behind D.state self.new).seen ≡ take len (behind D.state self.old).seen) }
        ensures crash { LeavesLess (behind D.state self.new).pending (shortened len (behind D.state self.old).pending) }
        ensures spent { Spends 1 0 (behind D.state self.old) (behind D.state self.new) }
        ensures time { Elapses (behind D.state self.old) (behind D.state self.new) (D.images (inner_of self.old))
            (D.images (inner_of self.new)) }
        ensures cause { HasCause (behind D.state self.old) (behind D.state self.new) result }
        ensures fuse { Burns 1 (behind D.state self.old) (behind D.state self.new) result }
        ensures blown { Stops (behind D.state self.old) → setting_of self.new ≡ FuseSetting.Blown }
        ensures nothing { Stops (behind D.state self.old) → inner_of self.new ≡ inner_of self.old }
    {
        match burn(&mut self.setting, &mut self.stops) {
            None => self.inner.cut(len),
            Some(_) => Err(DiskFault::Failed),
        }
    }

    fn sync(&mut self) -> Result<(), DiskFault>
        requires { 0 < (behind D.state self.old).calls }
        ensures seen { OnOk result ((behind D.state self.new).seen ≡ (behind D.state self.old).seen) }
        ensures durable { OnOk result ((behind D.state self.new).pending ≡ settled (behind D.state self.old).seen) }
        ensures crash { LeavesLess (behind D.state self.new).pending (behind D.state self.old).pending }
        ensures spent { Spends 1 0 (behind D.state self.old) (behind D.state self.new) }
        ensures time { Elapses (behind D.state self.old) (behind D.state self.new) (D.images (inner_of self.old))
            (D.images (inner_of self.new)) }
        ensures cause { HasCause (behind D.state self.old) (behind D.state self.new) result }
        ensures fuse { Burns 1 (behind D.state self.old) (behind D.state self.new) result }
        ensures blown { Stops (behind D.state self.old) → setting_of self.new ≡ FuseSetting.Blown }
        ensures nothing { Stops (behind D.state self.old) → inner_of self.new ≡ inner_of self.old }
    {
        match burn(&mut self.setting, &mut self.stops) {
            None => self.inner.sync(),
            Some(_) => Err(DiskFault::Failed),
        }
    }

    /// The fuse is no longer set, and its stops stand.
    fn restart(&mut self, pick: u64) {
        self.inner.restart(pick);
        self.setting = FuseSetting::Unset;
    }
}
