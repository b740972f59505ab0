//! What a device of slots keeps in memory.
ghost use Rattle.std.specs.Prelude.{◌≡◌, IfOk, map};

use crate::change::{Change, RowChange, TableChange, change_in};
use crate::held::{RowIds, RowKey, RowKeys, TableRecord, TableRecords};
use crate::reader::schema_in;
use crate::schemas::{RecordPlace, keep_schema, part, schema_part};
use spare_map::SpareMap;
use stab_base::{RowId, TableNo, WriteNo};
use std::alloc::{AllocError, Global};
use value_codec::SpellFault;
use vault::Fold;

/// The index of the payload of each row, what is kept of the record of each table, the spellings of the schemas, and
/// the greatest number of a last write.
#[derive(Drop)]
pub struct SlotMemory {
    pub(crate) places: SpareMap<RowKey, u64>,
    pub(crate) records: SpareMap<TableNo, RecordPlace>,
    pub(crate) schemas: Vec<u8>,
    pub(crate) last: WriteNo,
}

fn ids_of(alloc: Global, keys: &[RowKey]) -> Result<Vec<RowId>, AllocError>
    ensures { IfOk result (λ rows. rows.items ≡ map (λ key. key.row) keys.now) }
{
    keys.iter().map(|key| key.row).collect(alloc)
}

impl SlotMemory {
    ghost use Rattle.std.specs.Prelude.{◌≡◌, ◌+◌, ◌≤◌, ℕ, max, take, length, IsOk, OnOk};
    ghost use Rattle.std.specs.BTreeMap.{insert_entry};
    ghost use Rattle.std.specs.Vec.{vec_capacity, vec_len};
    ghost use Rattle.spare_map.specs.Late.{entries_of, spare_of};
    ghost use Rattle.slot_store.specs.Data.{key_cmp, key_at};
    ghost use Rattle.slot_store.specs.Memory.{schema_part, IsPut};

    // The slots of a row stand in the payload of this index.
    fn put_row(&mut self, row: RowChange, index: u64) -> Result<(), AllocError>
        ensures places { OnOk result (entries_of key_cmp self.new.places
            ≡ insert_entry key_cmp (entries_of key_cmp self.old.places) (key_at row.table row.row) index) }
        ensures last { OnOk result (self.new.last ≡ max self.old.last row.last) }
        ensures no_memory { 1 ≤ spare_of self.old.places → IsOk result }
        ensures spare { spare_of self.old.places ≤ spare_of self.new.places + 1 }
        ensures records { self.new.records ≡ self.old.records }
        ensures schemas { self.new.schemas ≡ self.old.schemas }
    {
        let key = RowKey {
            table: row.table,
            row: row.row,
        };
        self.places.insert(key, index)?;
        self.last = self.last.max(row.last);
        Ok(())
    }

    // The record of a table stands in this payload.
    fn put_table(&mut self, table: TableChange, payload: &[u8]) -> Result<(), AllocError>
        requires { 14 ≤ length payload.now }
        ensures put { OnOk result ((start end : ℕ)
            × IsPut self.old self.new table (schema_part payload.now) start end) }
        ensures others { take (length self.old.schemas.items) self.new.schemas.items ≡ self.old.schemas.items }
        ensures no_memory { vec_len self.old.schemas + length payload.now ≤ vec_capacity self.old.schemas
            → 1 ≤ spare_of self.old.records → IsOk result }
        ensures spare { spare_of self.old.records ≤ spare_of self.new.records + 1 }
        ensures room { vec_len self.new.schemas ≤ vec_len self.old.schemas + length payload.now }
        ensures capacity { vec_capacity self.old.schemas ≤ vec_capacity self.new.schemas }
        ensures places { self.new.places ≡ self.old.places }
        ensures last { self.new.last ≡ self.old.last }
    {
        let before = self.records.get(table.table);
        let (start, end) = keep_schema(&mut self.schemas, before, schema_part(payload))?;
        let place = RecordPlace {
            table: table.table,
            state: table.state,
            position: table.position,
            start,
            end,
        };
        self.records.insert(table.table, place)
    }
}

impl SlotMemory {
    ghost use Rattle.std.specs.Prelude.{◌≡◌, ◌≤◌, [], ◌∷◌, ◌++◌, map, option_map, Some, IfOk, OnOk};
    ghost use Rattle.std.specs.BTreeMap.{is_at};
    ghost use Rattle.std.specs.Map.{lookup, keys_of};
    ghost use Rattle.std.specs.List.Sorted.{IsStrictlySortedBy};
    ghost use Rattle.std.specs.Ordering.{nat_cmp};
    ghost use Rattle.spare_map.specs.Late.{entries_of, spare_of};
    ghost use Rattle.spare_map.specs.Values.{AllValues};
    ghost use Rattle.slot_store.specs.Data.{key_cmp};
    ghost use Rattle.slot_store.specs.Memory.{record_at, IsRecordPlace, AreKeys, AreIdsOf};

    /// The ids of a table's rows, in rising order.
    pub(crate) fn rows_of(&mut self, alloc: Global, table: TableNo) -> Result<RowIds, AllocError>
        ensures rows { AreKeys (entries_of key_cmp self.old.places)
            → IfOk result (AreIdsOf (entries_of key_cmp self.old.places) table) }
        ensures same { entries_of key_cmp self.new.places ≡ entries_of key_cmp self.old.places }
        ensures spare { spare_of self.old.places ≤ spare_of self.new.places }
        ensures records { self.new.records ≡ self.old.records }
        ensures schemas { self.new.schemas ≡ self.old.schemas }
        ensures last { self.new.last ≡ self.old.last }
    {
        let first = RowId::from_bytes([0; 16]);
        let from = RowKey { table, row: first };
        let end = RowKey {
            table: table.saturating_add(1),
            row: first,
        };
        let keys = self.places.keys_between(from, end)?;
        Ok(RowIds::from_vec(ids_of(alloc, &keys)?))
    }

    /// The keys of the rows, in rising order.
    pub(crate) fn row_keys(&mut self) -> Result<RowKeys, AllocError>
        ensures keys { IfOk result (λ keys. keys ≡ keys_of (entries_of key_cmp self.old.places)) }
        ensures rising { IfOk result (λ keys. IsStrictlySortedBy key_cmp keys) }
        ensures same { entries_of key_cmp self.new.places ≡ entries_of key_cmp self.old.places }
        ensures spare { spare_of self.old.places ≤ spare_of self.new.places }
        ensures records { self.new.records ≡ self.old.records }
        ensures schemas { self.new.schemas ≡ self.old.schemas }
        ensures last { self.new.last ≡ self.old.last }
    {
        // what was put while memory was refused
        self.places.reserve(0)?;
        Ok(RowKeys::from_vec(self.places.keys()?))
    }

    // The record of a table that is kept so.
    fn record_at(
        &self,
        alloc: Global,
        place: RecordPlace,
    ) -> Result<Option<TableRecord>, AllocError>
        ensures { IsRecordPlace self.now.schemas.items place
            → IfOk result (λ found. found ≡ Some (record_at self.now.schemas.items place)) }
    {
        match schema_in(alloc, part(&self.schemas, place.start, place.end)) {
            Ok(schema) => Ok(Some(TableRecord {
                table: place.table,
                state: place.state,
                schema,
                position: place.position,
            })),
            Err(SpellFault::Bad { .. }) => Ok(None),
            Err(SpellFault::Memory) => Err(AllocError),
        }
    }

    /// The record of a table.
    pub(crate) fn record(
        &self,
        alloc: Global,
        table: TableNo,
    ) -> Result<Option<TableRecord>, AllocError>
        ensures { AllValues (IsRecordPlace self.now.schemas.items) (entries_of nat_cmp self.now.records)
            → IfOk result (λ found. found ≡ option_map (record_at self.now.schemas.items)
            (lookup (is_at (nat_cmp table)) (entries_of nat_cmp self.now.records))) }
    {
        match self.records.get(table) {
            Some(place) => self.record_at(alloc, place),
            None => Ok(None),
        }
    }

    // Adds the record of a table that is kept so.
    fn add_record(
        &self,
        alloc: Global,
        place: RecordPlace,
        found: &mut TableRecords,
    ) -> Result<(), AllocError>
        ensures { IsRecordPlace self.now.schemas.items place
            → OnOk result (found.new ≡ found.old ++ record_at self.now.schemas.items place ∷ []) }
    {
        let Some(record) = self.record_at(alloc, place)? else {
            return Ok(());
        };
        found.push(record)?;
        Ok(())
    }

    /// The records of all tables, by rising table.
    pub(crate) fn all_records(&self, alloc: Global) -> Result<TableRecords, AllocError>
        ensures { AllValues (IsRecordPlace self.now.schemas.items) (entries_of nat_cmp self.now.records)
            → IfOk result (λ found. found
            ≡ map (λ entry. record_at self.now.schemas.items entry.1) (entries_of nat_cmp self.now.records)) }
    {
        let entries = self.records.entries()?;
        let mut found = TableRecords::new(alloc);
        for (_, place) in &entries {
            self.add_record(alloc, *place, &mut found)?;
        }
        Ok(found)
    }
}

impl Fold for SlotMemory {
    type Change = Change;

    ghost use Rattle.slot_store.specs.Memory.{Fits, HasSpare, Says};

    ghost fits = { Fits };

    ghost has_spare = { HasSpare };

    ghost says = { Says };

    fn start(alloc: Global) -> Self {
        SlotMemory {
            places: SpareMap::new(alloc),
            records: SpareMap::new(alloc),
            schemas: Vec::new(alloc),
            last: 0,
        }
    }

    fn reserve(&mut self, payloads: u64, bytes: u64) -> Result<(), AllocError> {
        self.places.reserve(payloads as usize)?;
        self.records.reserve(payloads as usize)?;
        self.schemas.reserve(bytes as usize)
    }

    fn read(alloc: Global, payload: &[u8]) -> Result<Change, AllocError> {
        change_in(alloc, payload)
    }

    fn note(&mut self, change: Change, payload: &[u8], index: u64) -> Result<(), AllocError> {
        match change {
            Change::Row(row) => self.put_row(row, index),
            Change::Table(table) => self.put_table(table, payload),
            Change::Nothing => Ok(()),
        }
    }
}
