//! The end of an update that was cut short.
ghost use Rattle.std.specs.Prelude.{◌≡◌, ◌↔◌, ◌+◌, ◌≤◌, [], length, OnOk, IfOk, IfErr, IsErrOf};
ghost use Rattle.std.specs.Prelude.{filter, not};
ghost use Rattle.std.specs.List.Sorted.{IsStrictlySortedBy};
ghost use Rattle.std.specs.BTreeSet.{contains};
ghost use Rattle.std.specs.VecDeque.{deque_len, deque_capacity};
ghost use Rattle.chunk_store.specs.Payload.{name_cmp};
ghost use Rattle.chunk_store.specs.Standing as chunks;
ghost use Rattle.store_commit.specs.declared.fault.CommitFault.TheVariants.{Memory};
ghost use Rattle.store_commit.specs.Agenda.{recovery_writes, AreLeftovers};
ghost use Rattle.store_commit.specs.Standing.{devs, writes_of, AreUp, IsOneDown, AreLookedAt, NothingSpared};
ghost use Rattle.store_commit.specs.Recover.{IsRecovery, IsStarting, MakesRoom, Recovers};
ghost use Rattle.store_commit.specs.Rising.{AreRisingWrites};
ghost use Rattle.store_commit.specs.Unset.{KeepsUnset};

use crate::devs::TableDevs;
use crate::fault::CommitFault;
use crate::recovery::{Recovery, copied, still_there};
use crate::task::Task;
use chunk_store::{ChunkName, Names};
use disk_trait::Disk;
use std::alloc::{AllocError, Global};
use std::collections::BTreeSet;

// For how many drops there is room at once.
const DROPS_MAX: usize = 16_777_216;

// Those of these names that aren't spared.
fn unspared(
    alloc: Global,
    names: &[ChunkName],
    spared: &BTreeSet<ChunkName>,
) -> Result<Vec<ChunkName>, AllocError>
    ensures { IfOk result (λ made. made.items ≡ filter (λ name. not (contains name_cmp spared.now name)) names.now) }
{
    names
        .iter()
        .copied()
        .filter(|name| !spared.contains(name))
        .collect(alloc)
}

impl<D: Disk + Drop> TableDevs<D> {
    // What was cut short, and the names of what it left that are still there.
    pub(crate) fn left_over(&mut self) -> Result<(Recovery, Names), CommitFault>
        requires { AreLookedAt D.state self.old }
        ensures fuse { KeepsUnset D.state self.old self.new }
        ensures rising { IfOk result (λ p. IsStrictlySortedBy name_cmp p.1) }
        ensures recovery { IfOk result (λ p. IsRecovery (devs D.state self.old) p.0) }
        ensures names { IfOk result (λ p. AreLeftovers (devs D.state self.old) p.1) }
        ensures stays { chunks.Stays D.state self.old.chunks self.new.chunks }
        ensures vault { chunks.vault_of self.new.chunks ≡ chunks.vault_of self.old.chunks }
        ensures rows { self.new.rows ≡ self.old.rows }
        ensures log { self.new.log ≡ self.old.log }
        ensures agenda { self.new.agenda ≡ self.old.agenda }
        ensures scanned { self.new.scanned ≡ self.old.scanned }
        ensures memory { IfErr result (λ e. e ≡ Memory) }
    {
        let Some(entry) = self.log.pending() else {
            return Ok((Recovery::Nothing, Names::new(self.alloc)));
        };
        if self.rows.version_of(&entry.row) == entry.version {
            let names = still_there(self.alloc, &self.chunks, &entry.old)?;
            let entry = copied(self.alloc, entry)?;
            return Ok((Recovery::Forward(entry), names));
        }
        let version = entry.version;
        match self.chunks.names_below(version, entry.fresh) {
            Ok(names) => Ok((Recovery::Back(version), names)),
            Err(_) => Err(CommitFault::Memory),
        }
    }

    // Room for so many drops, and for a close.
    fn make_room(&mut self, drops: usize) -> Result<(), CommitFault>
        requires { IsStarting D.state self.old }
        ensures fuse { KeepsUnset D.state self.old self.new }
        ensures makes { MakesRoom D.state D.images drops self.old self.new result }
        ensures rows { self.new.rows ≡ self.old.rows }
        ensures scanned { self.new.scanned ≡ self.old.scanned }
    {
        if drops > DROPS_MAX {
            return Err(CommitFault::Memory);
        }
        self.agenda.reserve(drops + 4)?;
        if let Err(fault) = self.chunks.reserve(drops as u64, 13 * drops as u64) {
            return Err(CommitFault::from(fault));
        }
        if let Err(fault) = self.log.reserve(1, 9) {
            return Err(CommitFault::from(fault));
        }
        Ok(())
    }

    // Takes on the writes of a recovery.
    fn take_on(&mut self, names: &[ChunkName], is_open: bool)
        requires idle { writes_of self.old ≡ [] }
        requires room { deque_len self.old.agenda + (length names.now + 4) ≤ deque_capacity self.old.agenda }
        ensures writes { writes_of self.new ≡ recovery_writes names.now is_open }
        ensures chunks { self.new.chunks ≡ self.old.chunks }
        ensures rows { self.new.rows ≡ self.old.rows }
        ensures log { self.new.log ≡ self.old.log }
        ensures scanned { self.new.scanned ≡ self.old.scanned }
    {
        self.agenda.push_back(Task::OpenChunks).unwrap();
        self.agenda.push_back(Task::OpenRows).unwrap();
        self.agenda.push_back(Task::OpenLog).unwrap();
        for name in names {
            self.agenda.push_back(Task::DropChunk(*name)).unwrap();
        }
        if is_open {
            self.agenda.push_back(Task::CloseEntry).unwrap();
        }
    }

    /// Takes on the end of an update that was cut short, if one was: each vault is opened; where the row has the open
    /// entry's version, the entry's old chunks are dropped that are still there, and else its new ones that are there;
    /// and the entry is closed. What a scan has spared isn't dropped. These writes are then to be done, and take no
    /// memory. It is called once the devices were looked at.
    pub fn recover(&mut self) -> Result<Recovery, CommitFault>
        requires { AreUp self.old → IsStarting D.state self.old }
        ensures fuse { KeepsUnset D.state self.old self.new }
        // Where nothing is spared, the drops are in rising order.
        ensures rising { AreUp self.old → NothingSpared self.old
            → OnOk result (AreRisingWrites (devs D.state self.old) (writes_of self.new)) }
        ensures recovers { AreUp self.old → Recovers D.state D.images self.old self.new result }
        ensures down { IsErrOf result CommitFault.Down ↔ IsOneDown self.old }
        ensures unchanged { IsErrOf result CommitFault.Down → self.new ≡ self.old }
        ensures scanned { self.new.scanned ≡ self.old.scanned }
    {
        if self.is_down() {
            return Err(CommitFault::Down);
        }
        let (recovery, left) = self.left_over()?;
        let names = unspared(self.alloc, left.as_slice(), &self.scanned.spared)?;
        self.make_room(names.len())?;
        let is_open = recovery.is_open();
        self.take_on(&names, is_open);
        Ok(recovery)
    }
}
