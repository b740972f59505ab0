//! A vault with what is kept in memory of its payloads.
ghost use Rattle.std.specs.Prelude.{◌≡◌, ◌*◌, ◌<◌, ◌≤◌, ◌++◌, ◌∷◌, [], false, ℕ, List, length, OnOk, IfOk, IsErrOf};
ghost use Rattle.std.specs.Prelude.{slice_get, Some};
ghost use Rattle.std.specs.Bool.{MatchBool};
ghost use Rattle.disk_trait.specs.Calls.{Elapses};
ghost use Rattle.vault.specs.Limit.{payload_most};
ghost use Rattle.vault.specs.Standing.{payloads, gets, one_more, disk_of, IsDown, IsUp, IsSynced, IsRestarted};
ghost use Rattle.vault.specs.Standing.{LeavesFound};
ghost use Rattle.vault.specs.Folded.{vault_of, memory_of, IsLookedAt, IsOpened, HasRoom};
ghost use Rattle.vault.specs.Calls.{Formats, Looks, Restarts, OpensWrite, Reserves, Appends, Reads};

use crate::fold::Fold;
use crate::record::PAYLOAD_MAX;
use crate::start::note_all;
use crate::{Vault, VaultFault};
use disk_trait::Disk;
use std::alloc::Global;

/// A vault, and what is kept in memory of its payloads.
#[derive(Drop)]
pub struct Folded<D: Disk, F> {
    pub(crate) vault: Vault<D>,
    /// What is kept.
    pub memory: F,
    /// The payload that `append` adds.
    pub payload: Vec<u8>,
    /// The payload that `read` has read.
    pub found: Vec<u8>,
    alloc: Global,
}

impl<D: Disk + Drop, F: Fold + Drop> Folded<D, F> {
    /// A vault that hasn't been looked at.
    pub fn new(alloc: Global, disk: D) -> Folded<D, F>
        ensures disk { disk_of (vault_of result) ≡ disk }
        ensures up { IsUp (vault_of result) }
    {
        Folded {
            vault: Vault::new(alloc, disk),
            memory: F::start(alloc),
            payload: Vec::new(alloc),
            found: Vec::new(alloc),
            alloc,
        }
    }

    pub fn into_disk(self) -> D
        ensures { result ≡ disk_of (vault_of self) }
    {
        let Folded { vault, .. } = self;
        vault.into_disk()
    }

    /// Whether the disk has failed, and has not been restarted since.
    pub fn is_down(&self) -> bool
        ensures { MatchBool result (IsDown (vault_of self.now)) (IsUp (vault_of self.now)) }
    {
        self.vault.is_down()
    }

    /// Makes the file that of an empty list. The vault is then opened.
    pub fn format(&mut self) -> Result<(), VaultFault>
        ensures { Formats D.state D.images F.fits F.has_spare (λ list. list)
            (λ fault. fault) self.old self.new self.old self.new result }
    {
        self.vault.format()?;
        self.memory = F::start(self.alloc);
        Ok(())
    }

    /// Finds the payloads of the file, whatever its bytes are, and keeps what is kept of them. It reads each once, and
    /// writes nothing. The vault is then unopened.
    pub fn look(&mut self) -> Result<(), VaultFault>
        requires synced { IsSynced D.state (vault_of self.old) }
        ensures { Looks D.state D.images F.fits F.has_spare (λ list. list)
            (λ fault. fault) self.old self.new self.old self.new result }
    {
        self.vault.look()?;
        self.memory = note_all(&mut self.vault, &mut self.found, self.alloc)?;
        Ok(())
    }

    /// Crashes the disk and starts it again. What the vault holds is known once it is looked at.
    pub fn restart(&mut self, pick: u64)
        ensures restarts { Restarts D.state D.images (λ list. list) self.old self.new }
        ensures image { IsRestarted D.state (vault_of self.old) (vault_of self.new) }
        ensures time { Elapses (D.state (disk_of (vault_of self.old))) (D.state (disk_of (vault_of self.new)))
            (D.images (disk_of (vault_of self.old))) (D.images (disk_of (vault_of self.new))) }
    {
        self.vault.restart(pick);
    }

    /// Takes away what an append has left that was cut short, and makes the vault ready for appends.
    pub fn open_write(&mut self) -> Result<(), VaultFault>
        requires ready { IsUp (vault_of self.old) → IsLookedAt D.state F.fits self.old }
        requires room { IsUp (vault_of self.old) → HasRoom D.state F.has_spare self.old 1 0 0 }
        ensures opens { OpensWrite D.state D.images F.fits F.has_spare (λ list. list)
            (λ fault. fault) self.old self.new self.old self.new result }
        ensures keeps { IsUp (vault_of self.old)
            → LeavesFound D.state D.images (vault_of self.old) (vault_of self.new)
            (payloads D.state (vault_of self.old)) }
    {
        self.vault.open_write()
    }

    /// Makes room for so many payloads, of so many bytes in all, and for one opening: appending them takes no
    /// memory.
    pub fn reserve(&mut self, appends: u64, bytes: u64) -> Result<(), VaultFault>
        requires ready { IsUp (vault_of self.old) → IsLookedAt D.state F.fits self.old }
        requires appends { appends ≤ 16777216 }
        requires bytes { bytes ≤ 8388608 * appends }
        ensures { Reserves D.state D.images F.fits F.has_spare (λ list. list)
            (λ fault. fault) appends bytes self.old self.new self.old self.new result }
    {
        if self.vault.is_down() {
            return Err(VaultFault::Down);
        }
        self.vault.reserve(appends, bytes)?;
        self.memory.reserve(appends, bytes)?;
        self.payload.clear();
        self.payload
            .reserve(bytes.min(PAYLOAD_MAX as u64) as usize)?;
        Ok(())
    }

    /// Adds the payload in `payload` at the end. It is on the disk before `Ok`.
    pub fn append(&mut self, change: F::Change) -> Result<(), VaultFault>
        requires ready { IsUp (vault_of self.old) → IsOpened D.state F.fits self.old }
        requires change { F.says self.old.payload.items change }
        requires short { length self.old.payload.items ≤ payload_most }
        requires room { IsUp (vault_of self.old)
            → HasRoom D.state F.has_spare self.old 0 1 (length self.old.payload.items) }
        ensures appends { Appends D.state D.images F.fits F.has_spare (λ list. list) (λ fault. fault)
            (length self.old.payload.items)
            (payloads D.state (vault_of self.old) ++ self.old.payload.items ∷ []) self.old self.new self.old self.new
            result }
        ensures payload { self.new.payload ≡ self.old.payload }
    {
        let index = self.vault.records();
        self.vault.append(&self.payload)?;
        self.memory.note(change, &self.payload, index).unwrap();
        Ok(())
    }

    /// Puts the payload of this index, the first being 0, into `found`. It is one read of the disk.
    pub fn read(&mut self, index: u64) -> Result<(), VaultFault>
        requires ready { IsUp (vault_of self.old) → IsLookedAt D.state F.fits self.old }
        requires index { IsUp (vault_of self.old) → index < length (payloads D.state (vault_of self.old)) }
        ensures payload { OnOk result (slice_get (payloads D.state (vault_of self.old)) index
            ≡ Some self.new.found.items) }
        ensures reads { Reads D.state D.images F.fits F.has_spare (λ list. list)
            (λ fault. fault) self.old self.new (vault_of self.old) (vault_of self.new) result }
        ensures kept { memory_of self.new ≡ memory_of self.old }
        ensures counted { IsUp (vault_of self.old) → gets (vault_of self.new) ≡ one_more (gets (vault_of self.old)) }
    {
        self.vault.get(index, &mut self.found)
    }
}
