//! The log: what its calls promise of its open entry.
ghost use Rattle.std.specs.Prelude.{◌≡◌, ◌↔◌, ◌+◌, ◌*◌, ◌<◌, ◌≤◌, false, [], ℕ, List, length, None, Some, option_map};
ghost use Rattle.std.specs.Prelude.{OnOk, OnErr, IsErrOf, IsTrue, IsSome};
ghost use Rattle.std.specs.Bool.{MatchBool};
ghost use Rattle.disk_trait.specs.Calls.{Elapses};
ghost use Rattle.vault.specs.Standing.{disk_of, IsDown, IsUp, IsSynced, IsRestarted};
ghost use Rattle.status_log.specs.Entry.{entry_of, size_of, HasSpelling};
ghost use Rattle.status_log.specs.Standing.{vault_of, entry_open, IsLookedAt, IsOpened, HasRoom, Formats, Looks};
ghost use Rattle.status_log.specs.Standing.{Restarts, OpensWrite, Reserves, Puts, Refuses};

use crate::entry::LogEntry;
use crate::fault::{LogFault, told};
use crate::memory::LogMemory;
use crate::payload::{Change, opening_of, write_close, write_open};
use disk_trait::Disk;
use std::alloc::Global;
use vault::Folded;

/// The entry that is open, if one is, on a disk of its own.
///
/// On the disk stands a vault, each payload of which opens an entry or closes one. Numbers are big-endian. An opening
/// is byte 1, version (8 bytes), row (16), client (4), number (8), base (8), count of new chunks (4), and the names of
/// old chunks: their number (4), and of each its version (8) and ordinal (4). A close is byte 2 and the version (8). An
/// opening stands in place of what was open before it; a close of another version than the open entry's does nothing.
/// Other payloads are passed over, and so are those whose version is above `NUMBER_MAX` or whose client isn't from 1
/// to 64.
///
/// After a fault of the disk a log is down: each call answers `Down`, until the disk has been restarted and
/// looked at again.
#[derive(Drop)]
pub struct StatusLog<D: Disk> {
    pub(crate) inner: Folded<D, LogMemory>,
}

impl<D: Disk + Drop> StatusLog<D> {
    /// A log that hasn't been looked at.
    pub fn new(alloc: Global, disk: D) -> StatusLog<D>
        ensures disk { disk_of (vault_of result) ≡ disk }
        ensures up { IsUp (vault_of result) }
    {
        StatusLog {
            inner: Folded::new(alloc, disk),
        }
    }

    pub fn into_disk(self) -> D
        ensures { result ≡ disk_of (vault_of self) }
    {
        let StatusLog { inner } = self;
        inner.into_disk()
    }

    /// Whether the disk has failed, and has not been restarted since.
    pub fn is_down(&self) -> bool
        ensures { MatchBool result (IsDown (vault_of self.now)) (IsUp (vault_of self.now)) }
    {
        self.inner.is_down()
    }

    /// Makes the disk that of no entry. The log is then ready for writes.
    pub fn format(&mut self) -> Result<(), LogFault>
        ensures { Formats D.state D.images self.old self.new result }
    {
        told(self.inner.format())
    }

    /// Finds the open entry on the disk, whatever its bytes are. It reads each payload once and writes nothing. The
    /// log is then not ready for writes.
    pub fn look(&mut self) -> Result<(), LogFault>
        requires synced { IsSynced D.state (vault_of self.old) }
        ensures { Looks D.state D.images self.old self.new result }
    {
        told(self.inner.look())
    }

    /// Crashes the disk and starts it again. What the log holds is known once it is looked at.
    pub fn restart(&mut self, pick: u64)
        ensures restarts { Restarts D.state D.images self.old self.new }
        ensures image { IsRestarted D.state (vault_of self.old) (vault_of self.new) }
        ensures time { Elapses (D.state (disk_of (vault_of self.old))) (D.state (disk_of (vault_of self.new)))
            (D.images (disk_of (vault_of self.old))) (D.images (disk_of (vault_of self.new))) }
    {
        self.inner.restart(pick);
    }

    /// Takes away what a write has left that was cut short, and makes the log ready for writes.
    pub fn open_write(&mut self) -> Result<(), LogFault>
        requires ready { IsUp (vault_of self.old) → IsLookedAt D.state self.old }
        requires room { IsUp (vault_of self.old) → HasRoom D.state self.old 1 0 0 }
        ensures { OpensWrite D.state D.images self.old self.new result }
    {
        told(self.inner.open_write())
    }

    /// Makes room for so many writes, whose payloads have so many bytes in all, and for one opening of the log: they
    /// take no memory. An entry's payload is 53 bytes and 12 for each name, a close's is 9.
    pub fn reserve(&mut self, puts: u64, bytes: u64) -> Result<(), LogFault>
        requires ready { IsUp (vault_of self.old) → IsLookedAt D.state self.old }
        requires puts { puts ≤ 16777216 }
        requires bytes { bytes ≤ 8388608 * puts }
        ensures { Reserves D.state D.images puts bytes self.old self.new result }
    {
        told(self.inner.reserve(puts, bytes))
    }

    /// Opens an entry. It is on the disk before `Ok`.
    pub fn open_entry(&mut self, entry: &LogEntry) -> Result<(), LogFault>
        requires ready { IsUp (vault_of self.old) → IsOpened D.state self.old }
        requires spelled { HasSpelling (entry_of entry.now) }
        requires room { IsUp (vault_of self.old) → HasRoom D.state self.old 0 1 (size_of (entry_of entry.now)) }
        ensures opens { entry_open D.state self.old ≡ None
            → Puts D.state D.images (size_of (entry_of entry.now))
            (Some (entry_of entry.now)) self.old self.new result }
        ensures refuses { Refuses D.state self.old self.new result }
        ensures pending { (version : ℕ) → IsErrOf result (LogFault.Pending version)
            ↔ (IsUp (vault_of self.old) × (option_map (λ e. e.version) (entry_open D.state self.old) ≡ Some version)) }
        ensures pending_unchanged { (version : ℕ) → IsErrOf result (LogFault.Pending version) → self.new ≡ self.old }
    {
        if self.inner.is_down() {
            return Err(LogFault::Down);
        }
        if self.inner.memory.is_open {
            let version = self.inner.memory.entry.version;
            return Err(LogFault::Pending { version });
        }
        write_open(&mut self.inner.payload, entry);
        told(self.inner.append(Change::Open(opening_of(entry))))
    }

    /// Closes the open entry. It is closed on the disk before `Ok`.
    pub fn close_entry(&mut self) -> Result<(), LogFault>
        requires ready { IsUp (vault_of self.old) → IsOpened D.state self.old }
        requires pending { IsUp (vault_of self.old) → IsSome (entry_open D.state self.old) }
        requires room { IsUp (vault_of self.old) → HasRoom D.state self.old 0 1 9 }
        ensures { Puts D.state D.images 9 None self.old self.new result }
    {
        if self.inner.is_down() {
            return Err(LogFault::Down);
        }
        let version = self.inner.memory.entry.version;
        write_close(&mut self.inner.payload, version);
        told(self.inner.append(Change::Close(version)))
    }

    /// The open entry.
    pub fn pending(&self) -> Option<&LogEntry>
        requires ready { IsUp (vault_of self.now) → IsLookedAt D.state self.now }
        ensures { IsUp (vault_of self.now) → option_map (λ e. entry_of e.now) result ≡ entry_open D.state self.now }
    {
        if self.inner.memory.is_open {
            Some(&self.inner.memory.entry)
        } else {
            None
        }
    }
}
