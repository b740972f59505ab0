//! The device: what its calls promise of its table.
ghost use Rattle.std.specs.Prelude.{◌≡◌, ◌↔◌, ◌+◌, ◌*◌, ◌<◌, ◌≤◌, false, ℕ, List, length, None, Some, OnOk, OnErr};
ghost use Rattle.std.specs.Prelude.{IfOk, IfSome, IfNone, IsErrOf, Ok};
ghost use Rattle.std.specs.Bool.{MatchBool};
ghost use Rattle.std.specs.List.Sorted.{IsStrictlySortedBy};
ghost use Rattle.std.specs.Map.{keys_of};
ghost use Rattle.std.specs.Ordering.{nat_cmp};
ghost use Rattle.disk_trait.specs.Calls.{Elapses};
ghost use Rattle.vault.specs.Limit.{payload_most};
ghost use Rattle.vault.specs.Standing.{payloads, gets, disk_of, IsDown, IsUp, IsSynced, IsRestarted};
ghost use Rattle.stab_base.specs.declared.limits.TheConstants.{NUMBER_MAX};
ghost use Rattle.value_codec.specs.SchemaSpelling.{HasSchemaSpelling};
ghost use Rattle.row_store.specs.Spelling.{HasStoredSpelling, row_payload, IsState, table_payload, IsClient};
ghost use Rattle.row_store.specs.declared.stored.StoredRow.{StoredRow};
ghost use Rattle.row_store.specs.Reading.{row_in, terms_if};
ghost use Rattle.row_store.specs.Data.{nothing_held, with_row, with_table, with_sub, row_of, version_of};
ghost use Rattle.row_store.specs.Data.{IsTableVersion, AreChangedSince, IsNextChanged, subs_of, id_cmp};
ghost use Rattle.row_store.specs.Memory.{IsPlace, row_at};
ghost use Rattle.row_store.specs.Standing.{vault_of, held, row_reads, reads_after, IsLookedAt, IsOpened, HasRoom};
ghost use Rattle.row_store.specs.Standing.{Stays, Formats, Looks, Restarts, OpensWrite, Reserves, Puts, Gets};

use crate::change::Change;
use crate::fault::{RowFault, told};
use crate::memory::{Place, RowMemory};
use crate::reader::{row_in, table_in, terms_if};
use crate::stored::{RowIds, StoredRow, Sub, SubChange, Subs, Terms};
use crate::writer::{write_row, write_sub, write_table};
use disk_trait::Disk;
use row_value::Schema;
use stab_base::{ClientNo, GateNo, NUMBER_MAX, RowId, RowVersion, Rows, Version};
use std::alloc::{AllocError, Global};
use value_codec::SpellFault;
use vault::Folded;

/// The rows of a table by their ids, its schema and state, and its subscriptions by their clients, on a disk of its
/// own.
///
/// On the disk stands a vault, each payload of which puts a row, the table's schema and state, or a subscription.
/// Numbers are big-endian. A row is byte 1, its id (16 bytes), its version (8), its content, each piece of which names
/// a chunk, and a list of the last writes: their number (4), and of each its client (4), number (8) and version (8), by
/// rising client. A table is byte 2, its schema, and a byte of state: 1 draft, 2 live, 3 dropped. A subscription is
/// byte 3, its client (4), a byte that says whether the client subscribes (1) or no more (0), its gateway (4), period
/// (4) and tolerance (4). A client is from 1 to 64. The last payload of a row, of the table and of a client stands.
/// Other payloads are passed over, and so are rows whose version is above `NUMBER_MAX`.
///
/// After a fault of the disk a device is down: each call answers `Down`, until the disk has been restarted and
/// looked at again.
#[derive(Drop)]
pub struct RowDev<D: Disk> {
    pub(crate) inner: Folded<D, RowMemory>,
    // how often a row was read from the disk; at its end it stands still
    pub(crate) reads: u64,
    alloc: Global,
}

// The row that stands in a payload.
fn stored_in(alloc: Global, payload: &[u8]) -> Result<StoredRow, AllocError>
    requires { (stored : StoredRow) × (row_in payload.now ≡ Ok stored) }
    ensures row { IfOk result (λ stored. row_in payload.now ≡ Ok stored) }
    ensures spelled { IfOk result HasStoredSpelling }
    ensures same { IfOk result (λ stored. row_payload stored ≡ payload.now) }
{
    match row_in(alloc, payload) {
        Ok(stored) => Ok(stored),
        Err(SpellFault::Bad { .. }) => unreachable!(),
        Err(SpellFault::Memory) => Err(AllocError),
    }
}

impl<D: Disk + Drop> RowDev<D> {
    /// A device that hasn't been looked at.
    pub fn new(alloc: Global, disk: D) -> RowDev<D>
        ensures disk { disk_of (vault_of result) ≡ disk }
        ensures up { IsUp (vault_of result) }
    {
        RowDev {
            inner: Folded::new(alloc, disk),
            reads: 0,
            alloc,
        }
    }

    pub fn into_disk(self) -> D
        ensures { result ≡ disk_of (vault_of self) }
    {
        let RowDev { inner, .. } = self;
        inner.into_disk()
    }

    /// Whether the disk has failed, and has not been restarted since.
    pub fn is_down(&self) -> bool
        ensures { MatchBool result (IsDown (vault_of self.now)) (IsUp (vault_of self.now)) }
    {
        self.inner.is_down()
    }

    /// Makes the disk that of no table. The device is then opened.
    pub fn format(&mut self) -> Result<(), RowFault>
        ensures formats { Formats D.state D.images self.old self.new result }
        ensures reads { row_reads self.new ≡ row_reads self.old }
    {
        told(self.inner.format())
    }

    /// Finds the table on the disk, whatever its bytes are. It reads each payload once and writes nothing. The
    /// device is then unopened.
    pub fn look(&mut self) -> Result<(), RowFault>
        requires synced { IsSynced D.state (vault_of self.old) }
        ensures looks { Looks D.state D.images self.old self.new result }
        ensures reads { row_reads self.new ≡ row_reads self.old }
    {
        told(self.inner.look())
    }

    /// Crashes the disk and starts it again. What the device holds is known once it is looked at.
    pub fn restart(&mut self, pick: u64)
        ensures restarts { Restarts D.state D.images self.old self.new }
        ensures image { IsRestarted D.state (vault_of self.old) (vault_of self.new) }
        ensures time { Elapses (D.state (disk_of (vault_of self.old))) (D.state (disk_of (vault_of self.new)))
            (D.images (disk_of (vault_of self.old))) (D.images (disk_of (vault_of self.new))) }
        ensures reads { row_reads self.new ≡ row_reads self.old }
    {
        self.inner.restart(pick);
    }

    /// Takes away what a write has left that was cut short, and makes the device ready for puts.
    pub fn open_write(&mut self) -> Result<(), RowFault>
        requires ready { IsUp (vault_of self.old) → IsLookedAt D.state self.old }
        requires room { IsUp (vault_of self.old) → HasRoom D.state self.old 1 0 0 }
        ensures opens { OpensWrite D.state D.images self.old self.new result }
        ensures reads { row_reads self.new ≡ row_reads self.old }
    {
        told(self.inner.open_write())
    }

    /// Makes room for so many puts, whose payloads have so many bytes in all, and for one opening: they take no
    /// memory. A subscription's payload is 18 bytes.
    pub fn reserve(&mut self, puts: u64, bytes: u64) -> Result<(), RowFault>
        requires ready { IsUp (vault_of self.old) → IsLookedAt D.state self.old }
        requires puts { puts ≤ 16777216 }
        requires bytes { bytes ≤ 8388608 * puts }
        ensures reserves { Reserves D.state D.images puts bytes self.old self.new result }
        ensures reads { row_reads self.new ≡ row_reads self.old }
    {
        told(self.inner.reserve(puts, bytes))
    }

    /// Puts a row, in place of the one of its id. It is on the disk before `Ok`.
    pub fn put_row(&mut self, stored: StoredRow) -> Result<(), RowFault>
        requires ready { IsUp (vault_of self.old) → IsOpened D.state self.old }
        requires spelled { HasStoredSpelling stored }
        requires short { length (row_payload stored) ≤ payload_most }
        requires room { IsUp (vault_of self.old) → HasRoom D.state self.old 0 1 (length (row_payload stored)) }
        ensures puts { Puts D.state D.images (length (row_payload stored))
            (with_row (held D.state self.old) stored) self.old self.new result }
        ensures reads { row_reads self.new ≡ row_reads self.old }
    {
        if self.inner.is_down() {
            return Err(RowFault::Down);
        }
        write_row(&mut self.inner.payload, &stored);
        let row = RowVersion {
            version: stored.version,
            row: stored.row,
        };
        told(self.inner.append(Change::Row(row)))
    }

    /// Puts the table's schema and its state: 1 draft, 2 live, 3 dropped. It is on the disk before `Ok`.
    pub fn put_table(&mut self, schema: &Schema, state: u8) -> Result<(), RowFault>
        requires ready { IsUp (vault_of self.old) → IsOpened D.state self.old }
        requires spelled { HasSchemaSpelling schema.now }
        requires state { IsState state }
        requires short { length (table_payload schema.now state) ≤ payload_most }
        requires room { IsUp (vault_of self.old)
            → HasRoom D.state self.old 0 1 (length (table_payload schema.now state)) }
        ensures puts { Puts D.state D.images (length (table_payload schema.now state))
            (with_table (held D.state self.old) schema.now state) self.old self.new result }
        ensures reads { row_reads self.new ≡ row_reads self.old }
    {
        if self.inner.is_down() {
            return Err(RowFault::Down);
        }
        write_table(&mut self.inner.payload, schema, state);
        told(self.inner.append(Change::Table))
    }

    /// Puts a client's subscription, or takes it away where `on` is false; period and tolerance are in
    /// ticks. It is on the disk before `Ok`.
    pub fn put_sub(
        &mut self,
        client: ClientNo,
        on: bool,
        gate: GateNo,
        period: u32,
        tolerance: u32,
    ) -> Result<(), RowFault>
        requires ready { IsUp (vault_of self.old) → IsOpened D.state self.old }
        requires client { IsClient client }
        requires room { IsUp (vault_of self.old) → HasRoom D.state self.old 0 1 18 }
        ensures puts { Puts D.state D.images 18
            (with_sub (held D.state self.old) client
            (terms_if on (record { gate = gate; period = period; tolerance = tolerance })))
            self.old self.new result }
        ensures reads { row_reads self.new ≡ row_reads self.old }
    {
        if self.inner.is_down() {
            return Err(RowFault::Down);
        }
        let terms = Terms {
            gate,
            period,
            tolerance,
        };
        write_sub(&mut self.inner.payload, client, on, terms);
        let change = SubChange {
            client,
            terms: terms_if(on, terms),
        };
        told(self.inner.append(Change::Sub(change)))
    }

    // Where a row stands.
    fn find(&self, row: RowId) -> Option<Place>
        requires ready { IsUp (vault_of self.now) → IsLookedAt D.state self.now }
        ensures none { IsUp (vault_of self.now) → IfNone result (row_of (held D.state self.now) row ≡ None) }
        ensures some { IsUp (vault_of self.now) → IfSome result (λ place.
            row_of (held D.state self.now) row ≡ Some (row_at (payloads D.state (vault_of self.now)) place)) }
        ensures place { IsUp (vault_of self.now) → IfSome result (IsPlace (payloads D.state (vault_of self.now))) }
    {
        self.inner.memory.places.get(row)
    }

    /// The row of an id. It is one read of the disk.
    pub fn get_row(&mut self, row: &RowId) -> Result<StoredRow, RowFault>
        requires ready { IsUp (vault_of self.old) → IsLookedAt D.state self.old }
        ensures row { IfOk result (λ stored. row_of (held D.state self.old) row.now ≡ Some stored) }
        ensures spelled { IfOk result HasStoredSpelling }
        ensures short { IfOk result (λ stored. length (row_payload stored) ≤ payload_most) }
        ensures no_row { IsErrOf result RowFault.NoRow
            ↔ (IsUp (vault_of self.old) × (row_of (held D.state self.old) row.now ≡ None)) }
        ensures no_row_unchanged { IsErrOf result RowFault.NoRow → self.new ≡ self.old }
        ensures reads { Gets D.state D.images self.old self.new result }
        // The count is that of the payloads that it reads.
        ensures counted { row_reads self.new ≡ reads_after (row_reads self.old) result }
        ensures read { gets (vault_of self.new) ≡ reads_after (gets (vault_of self.old)) result }
    {
        if self.inner.is_down() {
            return Err(RowFault::Down);
        }
        let Some(place) = self.find(*row) else {
            return Err(RowFault::NoRow);
        };
        self.reads = self.reads.saturating_add(1);
        self.inner.read(place.index)?;
        let stored = stored_in(self.alloc, &self.inner.found)?;
        Ok(stored)
    }

    /// The version of a row, 0 where there is none. It reads nothing from the disk and takes no memory.
    pub fn version_of(&self, row: &RowId) -> Version
        requires ready { IsUp (vault_of self.now) → IsLookedAt D.state self.now }
        ensures { IsUp (vault_of self.now) → result ≡ version_of (held D.state self.now) row.now }
    {
        match self.find(*row) {
            Some(place) => place.version,
            None => 0,
        }
    }

    /// The greatest version of all rows, 0 where there is none. It reads nothing from the disk and takes no memory.
    pub fn table_version(&self) -> Version
        requires ready { IsUp (vault_of self.now) → IsLookedAt D.state self.now }
        ensures greatest { IsUp (vault_of self.now) → IsTableVersion (held D.state self.now) result }
        ensures most { IsUp (vault_of self.now) → result ≤ NUMBER_MAX }
    {
        match self.inner.memory.versions.last() {
            Some(last) => last.version,
            None => 0,
        }
    }

    /// The rows whose version is above a position, by rising version. It reads nothing from the disk.
    pub fn changed_since(&mut self, position: Version) -> Result<Rows, RowFault>
        requires ready { IsUp (vault_of self.old) → IsLookedAt D.state self.old }
        ensures changed { IfOk result (AreChangedSince (held D.state self.old) position) }
        ensures stays { Stays D.state self.old self.new }
        ensures vault { vault_of self.new ≡ vault_of self.old }
        ensures not_no_row { IsErrOf result RowFault.NoRow → ⊥ }
        ensures not_disk { IsErrOf result RowFault.Disk → ⊥ }
        ensures down { IsErrOf result RowFault.Down ↔ IsDown (vault_of self.old) }
        ensures unchanged { IsErrOf result RowFault.Down → self.new ≡ self.old }
        ensures reads { row_reads self.new ≡ row_reads self.old }
    {
        if self.inner.is_down() {
            return Err(RowFault::Down);
        }
        let rows = self.inner.memory.rows_above(self.alloc, position)?;
        Ok(rows)
    }

    /// The row with the least version above a position, if there is one. It reads nothing from the disk, and is
    /// logarithmic besides what `reserve` left in the queue.
    pub fn next_changed(&mut self, position: Version) -> Result<Option<RowVersion>, RowFault>
        requires ready { IsUp (vault_of self.old) → IsLookedAt D.state self.old }
        ensures next { IfOk result (IsNextChanged (held D.state self.old) position) }
        ensures stays { Stays D.state self.old self.new }
        ensures vault { vault_of self.new ≡ vault_of self.old }
        ensures not_no_row { IsErrOf result RowFault.NoRow → ⊥ }
        ensures not_disk { IsErrOf result RowFault.Disk → ⊥ }
        ensures down { IsErrOf result RowFault.Down ↔ IsDown (vault_of self.old) }
        ensures unchanged { IsErrOf result RowFault.Down → self.new ≡ self.old }
        ensures reads { row_reads self.new ≡ row_reads self.old }
    {
        if self.inner.is_down() {
            return Err(RowFault::Down);
        }
        if position >= NUMBER_MAX {
            return Ok(None);
        }
        let next = self.inner.memory.first_from(position + 1)?;
        Ok(next)
    }

    /// The ids of the rows, in rising order. It reads nothing from the disk.
    pub fn ids(&mut self) -> Result<RowIds, RowFault>
        requires ready { IsUp (vault_of self.old) → IsLookedAt D.state self.old }
        ensures ids { IfOk result (λ ids. ids ≡ keys_of (held D.state self.old).rows) }
        ensures rising { IfOk result (λ ids. IsStrictlySortedBy id_cmp ids) }
        ensures stays { Stays D.state self.old self.new }
        ensures vault { vault_of self.new ≡ vault_of self.old }
        ensures not_no_row { IsErrOf result RowFault.NoRow → ⊥ }
        ensures not_disk { IsErrOf result RowFault.Disk → ⊥ }
        ensures down { IsErrOf result RowFault.Down ↔ IsDown (vault_of self.old) }
        ensures unchanged { IsErrOf result RowFault.Down → self.new ≡ self.old }
        ensures reads { row_reads self.new ≡ row_reads self.old }
    {
        if self.inner.is_down() {
            return Err(RowFault::Down);
        }
        let ids = self.inner.memory.row_ids()?;
        Ok(ids)
    }

    /// The subscriptions, by rising client.
    pub fn subs(&self) -> Result<Subs, AllocError>
        requires ready { IsUp (vault_of self.now) → IsLookedAt D.state self.now }
        ensures { IsUp (vault_of self.now) → IfOk result (λ subs. subs ≡ subs_of (held D.state self.now)) }
    {
        self.inner.memory.all_subs(self.alloc)
    }

    /// The table's schema and state, if it was put.
    pub fn table_state(&self) -> Result<Option<(Schema, u8)>, AllocError>
        requires ready { IsUp (vault_of self.now) → IsLookedAt D.state self.now }
        ensures { IsUp (vault_of self.now) → IfOk result (λ table. table ≡ (held D.state self.now).table) }
    {
        match table_in(self.alloc, &self.inner.memory.table) {
            Ok(table) => Ok(Some(table)),
            Err(SpellFault::Bad { .. }) => Ok(None),
            Err(SpellFault::Memory) => Err(AllocError),
        }
    }
}
