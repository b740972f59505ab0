//! The device: what its calls promise of its rows and tables.
ghost use Rattle.std.specs.Prelude.{◌≡◌, ◌↔◌, ◌+◌, ◌*◌, ◌<◌, ◌≤◌, false, ℕ, List, length, is_some, None, Some, OnOk};
ghost use Rattle.std.specs.Prelude.{OnErr, IfOk, IfSome, IfNone, IsErrOf, Ok};
ghost use Rattle.std.specs.Bool.{MatchBool};
ghost use Rattle.std.specs.Map.{keys_of};
ghost use Rattle.std.specs.List.Sorted.{IsStrictlySortedBy};
ghost use Rattle.disk_trait.specs.Calls.{Elapses};
ghost use Rattle.vault.specs.Limit.{payload_most};
ghost use Rattle.vault.specs.Standing.{payloads, gets, disk_of, IsDown, IsUp, IsSynced, IsRestarted};
ghost use Rattle.stab_base.specs.declared.limits.TheConstants.{NUMBER_MAX};
ghost use Rattle.slot_store.specs.declared.held.RowSlots.{RowSlots};
ghost use Rattle.slot_store.specs.Spelling.{HasRowSpelling, row_payload, HasRecordSpelling, record_payload};
ghost use Rattle.slot_store.specs.Reading.{row_in};
ghost use Rattle.slot_store.specs.Data.{with_slots, with_record, slots_of, record_of, records_of, AreRowsOf, key_cmp};
ghost use Rattle.slot_store.specs.Memory.{IsPlace, row_at};
ghost use Rattle.slot_store.specs.Standing.{vault_of, held, slot_reads, reads_after, IsLookedAt, IsOpened, HasRoom};
ghost use Rattle.slot_store.specs.Standing.{Stays, Formats, Looks, Restarts, OpensWrite, Reserves, Puts, Gets};

use crate::change::{Change, RowChange, TableChange};
use crate::fault::{SlotFault, told};
use crate::held::{RowIds, RowKey, RowKeys, RowSlots, TableRecord, TableRecords};
use crate::memory::SlotMemory;
use crate::reader::row_in;
use crate::writer::{write_record, write_row};
use disk_trait::Disk;
use stab_base::{RowId, TableNo, WriteNo};
use std::alloc::{AllocError, Global};
use value_codec::SpellFault;
use vault::Folded;

/// The slots of a client's rows by their tables and ids, and the records of its tables, on a disk of its own.
///
/// On the disk stands a vault, each payload of which puts the slots of a row, or the record of a table. Numbers are
/// big-endian. The slots of a row are byte 1, the table (4 bytes), the row's id (16), the number of the client's last
/// write (8), and the four slots: each is byte 0, or byte 1 and what is in it. The record of a table is byte 2, the
/// table (4), a byte of state, 1 opened or 2 closed, its schema, and its position (8). A table is from 1 to
/// `TABLE_MAX`. The last payload of a row stands, and of a table. Other payloads are passed over, and so are slots with
/// a last number above `NUMBER_MAX`.
///
/// In memory stand the places of the rows and the schemas of the tables, and no slots.
///
/// After a fault of the disk a device is down: each call answers `Down`, until the disk has been restarted and
/// looked at again.
#[derive(Drop)]
pub struct SlotDev<D: Disk> {
    pub(crate) inner: Folded<D, SlotMemory>,
    // how often slots were read from the disk; at its end it stands still
    pub(crate) reads: u64,
    alloc: Global,
}

// The slots that stand in a payload.
fn slots_in(alloc: Global, payload: &[u8]) -> Result<RowSlots, AllocError>
    requires { (row : RowSlots) × (row_in payload.now ≡ Ok row) }
    ensures row { IfOk result (λ row. row_in payload.now ≡ Ok row) }
    ensures spelled { IfOk result HasRowSpelling }
    ensures same { IfOk result (λ row. row_payload row ≡ payload.now) }
{
    match row_in(alloc, payload) {
        Ok(row) => Ok(row),
        Err(SpellFault::Bad { .. }) => unreachable!(),
        Err(SpellFault::Memory) => Err(AllocError),
    }
}

impl<D: Disk + Drop> SlotDev<D> {
    /// A device that hasn't been looked at.
    pub fn new(alloc: Global, disk: D) -> SlotDev<D>
        ensures disk { disk_of (vault_of result) ≡ disk }
        ensures up { IsUp (vault_of result) }
    {
        SlotDev {
            inner: Folded::new(alloc, disk),
            reads: 0,
            alloc,
        }
    }

    pub fn into_disk(self) -> D
        ensures { result ≡ disk_of (vault_of self) }
    {
        let SlotDev { inner, .. } = self;
        inner.into_disk()
    }

    /// Whether the disk has failed, and has not been restarted since.
    pub fn is_down(&self) -> bool
        ensures { MatchBool result (IsDown (vault_of self.now)) (IsUp (vault_of self.now)) }
    {
        self.inner.is_down()
    }

    /// Makes the disk that of no row and no table. The device is then opened.
    pub fn format(&mut self) -> Result<(), SlotFault>
        ensures formats { Formats D.state D.images self.old self.new result }
        ensures reads { slot_reads self.new ≡ slot_reads self.old }
    {
        told(self.inner.format())
    }

    /// Finds what is on the disk, whatever its bytes are. It reads each payload once and writes nothing. The
    /// device is then unopened.
    pub fn look(&mut self) -> Result<(), SlotFault>
        requires synced { IsSynced D.state (vault_of self.old) }
        ensures looks { Looks D.state D.images self.old self.new result }
        ensures reads { slot_reads self.new ≡ slot_reads self.old }
    {
        told(self.inner.look())
    }

    /// Crashes the disk and starts it again. What the device holds is known once it is looked at.
    pub fn restart(&mut self, pick: u64)
        ensures restarts { Restarts D.state D.images self.old self.new }
        ensures image { IsRestarted D.state (vault_of self.old) (vault_of self.new) }
        ensures time { Elapses (D.state (disk_of (vault_of self.old))) (D.state (disk_of (vault_of self.new)))
            (D.images (disk_of (vault_of self.old))) (D.images (disk_of (vault_of self.new))) }
        ensures reads { slot_reads self.new ≡ slot_reads self.old }
    {
        self.inner.restart(pick);
    }

    /// Takes away what a write has left that was cut short, and makes the device ready for puts.
    pub fn open_write(&mut self) -> Result<(), SlotFault>
        requires ready { IsUp (vault_of self.old) → IsLookedAt D.state self.old }
        requires room { IsUp (vault_of self.old) → HasRoom D.state self.old 1 0 0 }
        ensures opens { OpensWrite D.state D.images self.old self.new result }
        ensures reads { slot_reads self.new ≡ slot_reads self.old }
    {
        told(self.inner.open_write())
    }

    /// Makes room for so many puts, whose payloads have so many bytes in all, and for one opening: they take no
    /// memory. `slots_size` and `record_size` tell how long payloads are.
    pub fn reserve(&mut self, puts: u64, bytes: u64) -> Result<(), SlotFault>
        requires ready { IsUp (vault_of self.old) → IsLookedAt D.state self.old }
        requires puts { puts ≤ 16777216 }
        requires bytes { bytes ≤ 8388608 * puts }
        ensures reserves { Reserves D.state D.images puts bytes self.old self.new result }
        ensures reads { slot_reads self.new ≡ slot_reads self.old }
    {
        told(self.inner.reserve(puts, bytes))
    }

    /// Puts the slots of a row, in place of those that it had. They are on the disk before `Ok`.
    pub fn put_slots(&mut self, row: &RowSlots) -> Result<(), SlotFault>
        requires ready { IsUp (vault_of self.old) → IsOpened D.state self.old }
        requires spelled { HasRowSpelling row.now }
        requires short { length (row_payload row.now) ≤ payload_most }
        requires room { IsUp (vault_of self.old) → HasRoom D.state self.old 0 1 (length (row_payload row.now)) }
        ensures puts { Puts D.state D.images (length (row_payload row.now))
            (with_slots (held D.state self.old) row.now) self.old self.new result }
        ensures reads { slot_reads self.new ≡ slot_reads self.old }
    {
        if self.inner.is_down() {
            return Err(SlotFault::Down);
        }
        write_row(&mut self.inner.payload, row);
        let change = RowChange {
            table: row.table,
            row: row.row,
            last: row.last,
        };
        told(self.inner.append(Change::Row(change)))
    }

    /// Puts the record of a table, in place of the one that it had. It is on the disk before `Ok`.
    pub fn put_record(&mut self, table: &TableRecord) -> Result<(), SlotFault>
        requires ready { IsUp (vault_of self.old) → IsOpened D.state self.old }
        requires spelled { HasRecordSpelling table.now }
        requires short { length (record_payload table.now) ≤ payload_most }
        requires room { IsUp (vault_of self.old) → HasRoom D.state self.old 0 1 (length (record_payload table.now)) }
        ensures puts { Puts D.state D.images (length (record_payload table.now))
            (with_record (held D.state self.old) table.now) self.old self.new result }
        ensures reads { slot_reads self.new ≡ slot_reads self.old }
    {
        if self.inner.is_down() {
            return Err(SlotFault::Down);
        }
        write_record(&mut self.inner.payload, table);
        let change = TableChange {
            table: table.table,
            state: table.state,
            position: table.position,
        };
        told(self.inner.append(Change::Table(change)))
    }

    // The index of the payload in which the slots of a row stand.
    fn find(&self, table: TableNo, row: RowId) -> Option<u64>
        requires ready { IsUp (vault_of self.now) → IsLookedAt D.state self.now }
        ensures none { IsUp (vault_of self.now) → IfNone result (slots_of (held D.state self.now) table row ≡ None) }
        ensures some { IsUp (vault_of self.now) → IfSome result (λ index.
            slots_of (held D.state self.now) table row
            ≡ Some (row_at (payloads D.state (vault_of self.now)) index)) }
        ensures place { IsUp (vault_of self.now) → IfSome result (IsPlace (payloads D.state (vault_of self.now))) }
    {
        self.inner.memory.places.get(RowKey { table, row })
    }

    /// The slots of a row. It is one read of the disk.
    pub fn get_slots(&mut self, table: TableNo, row: &RowId) -> Result<RowSlots, SlotFault>
        requires ready { IsUp (vault_of self.old) → IsLookedAt D.state self.old }
        ensures row { IfOk result (λ found. slots_of (held D.state self.old) table row.now ≡ Some found) }
        ensures spelled { IfOk result HasRowSpelling }
        ensures short { IfOk result (λ found. length (row_payload found) ≤ payload_most) }
        // They are of this row of this table.
        ensures same { IfOk result (λ found. (found.table ≡ table) × (found.row ≡ row.now)) }
        ensures no_row { IsErrOf result SlotFault.NoRow
            ↔ (IsUp (vault_of self.old) × (slots_of (held D.state self.old) table row.now ≡ None)) }
        ensures no_row_unchanged { IsErrOf result SlotFault.NoRow → self.new ≡ self.old }
        ensures reads { Gets D.state D.images self.old self.new result }
        // The count is that of the payloads that it reads.
        ensures counted { slot_reads self.new ≡ reads_after (slot_reads self.old) result }
        ensures read { gets (vault_of self.new) ≡ reads_after (gets (vault_of self.old)) result }
    {
        if self.inner.is_down() {
            return Err(SlotFault::Down);
        }
        let Some(index) = self.find(table, *row) else {
            return Err(SlotFault::NoRow);
        };
        self.reads = self.reads.saturating_add(1);
        self.inner.read(index)?;
        let found = slots_in(self.alloc, &self.inner.found)?;
        Ok(found)
    }

    /// Whether slots of a row are kept. It reads nothing from the disk and takes no memory.
    pub fn has_slots(&self, table: TableNo, row: &RowId) -> bool
        requires ready { IsUp (vault_of self.now) → IsLookedAt D.state self.now }
        ensures { IsUp (vault_of self.now) → result ≡ is_some (slots_of (held D.state self.now) table row.now) }
    {
        self.find(table, *row).is_some()
    }

    /// The ids of a table's rows of which slots are kept, in rising order. It reads nothing from the disk.
    pub fn rows_of(&mut self, table: TableNo) -> Result<RowIds, SlotFault>
        requires ready { IsUp (vault_of self.old) → IsLookedAt D.state self.old }
        ensures rows { IfOk result (AreRowsOf (held D.state self.old) table) }
        ensures stays { Stays D.state self.old self.new }
        ensures vault { vault_of self.new ≡ vault_of self.old }
        ensures not_no_row { IsErrOf result SlotFault.NoRow → ⊥ }
        ensures not_disk { IsErrOf result SlotFault.Disk → ⊥ }
        ensures down { IsErrOf result SlotFault.Down ↔ IsDown (vault_of self.old) }
        ensures unchanged { IsErrOf result SlotFault.Down → self.new ≡ self.old }
        ensures reads { slot_reads self.new ≡ slot_reads self.old }
    {
        if self.inner.is_down() {
            return Err(SlotFault::Down);
        }
        let rows = self.inner.memory.rows_of(self.alloc, table)?;
        Ok(rows)
    }

    /// The keys of the rows of which slots are kept, in rising order. It reads nothing from the disk.
    pub fn keys(&mut self) -> Result<RowKeys, SlotFault>
        requires ready { IsUp (vault_of self.old) → IsLookedAt D.state self.old }
        ensures keys { IfOk result (λ keys. keys ≡ keys_of (held D.state self.old).rows) }
        ensures rising { IfOk result (λ keys. IsStrictlySortedBy key_cmp keys) }
        ensures stays { Stays D.state self.old self.new }
        ensures vault { vault_of self.new ≡ vault_of self.old }
        ensures not_no_row { IsErrOf result SlotFault.NoRow → ⊥ }
        ensures not_disk { IsErrOf result SlotFault.Disk → ⊥ }
        ensures down { IsErrOf result SlotFault.Down ↔ IsDown (vault_of self.old) }
        ensures unchanged { IsErrOf result SlotFault.Down → self.new ≡ self.old }
        ensures reads { slot_reads self.new ≡ slot_reads self.old }
    {
        if self.inner.is_down() {
            return Err(SlotFault::Down);
        }
        let keys = self.inner.memory.row_keys()?;
        Ok(keys)
    }

    /// The record of a table, if it was put. It reads nothing from the disk.
    pub fn record(&self, table: TableNo) -> Result<Option<TableRecord>, AllocError>
        requires ready { IsUp (vault_of self.now) → IsLookedAt D.state self.now }
        ensures record_ { IsUp (vault_of self.now)
            → IfOk result (λ found. found ≡ record_of (held D.state self.now) table) }
        ensures spelled { IsUp (vault_of self.now) → IfOk result (λ found. IfSome found HasRecordSpelling) }
        ensures short { IsUp (vault_of self.now)
            → IfOk result (λ found. IfSome found (λ put. length (record_payload put) ≤ payload_most)) }
    {
        self.inner.memory.record(self.alloc, table)
    }

    /// The records of all tables, by rising table. It reads nothing from the disk.
    pub fn records(&self) -> Result<TableRecords, AllocError>
        requires ready { IsUp (vault_of self.now) → IsLookedAt D.state self.now }
        ensures { IsUp (vault_of self.now) → IfOk result (λ found. found ≡ records_of (held D.state self.now)) }
    {
        self.inner.memory.all_records(self.alloc)
    }

    /// The greatest number of a last write that was put with slots, 0 where there is none. It reads nothing from the
    /// disk and takes no memory.
    pub fn last_number(&self) -> WriteNo
        requires ready { IsUp (vault_of self.now) → IsLookedAt D.state self.now }
        ensures greatest { IsUp (vault_of self.now) → result ≡ (held D.state self.now).last }
        ensures most { IsUp (vault_of self.now) → result ≤ NUMBER_MAX }
    {
        self.inner.memory.last
    }
}
