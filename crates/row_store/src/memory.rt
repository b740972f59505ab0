//! What a device of rows keeps in memory.
ghost use Rattle.std.specs.Prelude.{◌≡◌, IfOk, map, filter, nat_lt};
ghost use Rattle.std.specs.Map.{keys_of};
ghost use Rattle.row_store.specs.Data.{sub_of};

use crate::change::{Change, change_in};
use crate::stored::{RowIds, Sub, SubChange, Subs, Terms};
use spare_map::SpareMap;
use stab_base::{ClientNo, RowId, RowVersion, Rows, Version};
use std::alloc::{AllocError, Global};
use vault::{Fold, PAYLOAD_MAX};

/// Where a row stands: its version, and the index of its payload.
#[derive(Clone, Copy)]
pub struct Place {
    pub(crate) version: Version,
    pub(crate) index: u64,
}

/// The places of the rows, the rows by version, the last payload of the table, and the subscriptions.
#[derive(Drop)]
pub struct RowMemory {
    pub(crate) places: SpareMap<RowId, Place>,
    pub(crate) versions: SpareMap<RowVersion, ()>,
    pub(crate) table: Vec<u8>,
    pub(crate) subs: SpareMap<ClientNo, Terms>,
}

fn versions_above(
    alloc: Global,
    entries: &[(RowVersion, ())],
    version: Version,
) -> Result<Vec<RowVersion>, AllocError>
    ensures { IfOk result (λ rows. rows.items ≡ filter (λ row. nat_lt version row.version) (keys_of entries.now)) }
{
    entries
        .iter()
        .map(|entry| entry.0)
        .filter(|row| version < row.version)
        .collect(alloc)
}

fn subs_in(alloc: Global, entries: &[(ClientNo, Terms)]) -> Result<Vec<Sub>, AllocError>
    ensures { IfOk result (λ subs. subs.items ≡ map sub_of entries.now) }
{
    entries
        .iter()
        .map(|(client, terms)| Sub {
            client: *client,
            gate: terms.gate,
            period: terms.period,
            tolerance: terms.tolerance,
        })
        .collect(alloc)
}

impl RowMemory {
    ghost use Rattle.std.specs.Prelude.{◌≡◌, ◌+◌, ◌≤◌, IsOk, OnOk, length};
    ghost use Rattle.std.specs.BTreeMap.{insert_entry};
    ghost use Rattle.std.specs.Ordering.{nat_cmp};
    ghost use Rattle.std.specs.Vec.{vec_capacity};
    ghost use Rattle.spare_map.specs.Late.{changed, entries_of, spare_of};
    ghost use Rattle.row_store.specs.Data.{id_cmp, version_cmp};
    ghost use Rattle.row_store.specs.Memory.{AreByVersion};

    // A row stands at this place.
    fn put_row(&mut self, row: RowId, place: Place) -> Result<(), AllocError>
        ensures places { OnOk result (entries_of id_cmp self.new.places
            ≡ insert_entry id_cmp (entries_of id_cmp self.old.places) row place) }
        ensures versions { OnOk result (AreByVersion (entries_of id_cmp self.old.places)
            (entries_of version_cmp self.old.versions)
            → AreByVersion (entries_of id_cmp self.new.places) (entries_of version_cmp self.new.versions)) }
        ensures no_memory { 1 ≤ spare_of self.old.places → 2 ≤ spare_of self.old.versions → IsOk result }
        ensures spare { spare_of self.old.places ≤ spare_of self.new.places + 1 }
        ensures spare_versions { spare_of self.old.versions ≤ spare_of self.new.versions + 2 }
        ensures table { self.new.table ≡ self.old.table }
        ensures subs { self.new.subs ≡ self.old.subs }
    {
        if let Some(old) = self.places.get(row) {
            self.versions.remove(RowVersion {
                version: old.version,
                row,
            })?;
        }
        self.versions.insert(
            RowVersion {
                version: place.version,
                row,
            },
            (),
        )?;
        self.places.insert(row, place)
    }

    // The table stands in this payload.
    fn put_table(&mut self, payload: &[u8]) -> Result<(), AllocError>
        ensures table { OnOk result (self.new.table.items ≡ payload.now) }
        ensures capacity { vec_capacity self.old.table ≤ vec_capacity self.new.table }
        ensures no_memory { length payload.now ≤ vec_capacity self.old.table → IsOk result }
        ensures places { self.new.places ≡ self.old.places }
        ensures versions { self.new.versions ≡ self.old.versions }
        ensures subs { self.new.subs ≡ self.old.subs }
    {
        self.table.clear();
        self.table.extend_from_slice(payload)
    }

    // A client subscribes, or no more.
    fn put_sub(&mut self, change: SubChange) -> Result<(), AllocError>
        ensures subs { OnOk result (entries_of nat_cmp self.new.subs
            ≡ changed nat_cmp (entries_of nat_cmp self.old.subs) change.client change.terms) }
        ensures no_memory { 1 ≤ spare_of self.old.subs → IsOk result }
        ensures spare { spare_of self.old.subs ≤ spare_of self.new.subs + 1 }
        ensures places { self.new.places ≡ self.old.places }
        ensures versions { self.new.versions ≡ self.old.versions }
        ensures table { self.new.table ≡ self.old.table }
    {
        match change.terms {
            Some(terms) => self.subs.insert(change.client, terms),
            None => self.subs.remove(change.client),
        }
    }
}

impl RowMemory {
    ghost use Rattle.std.specs.Prelude.{◌≡◌, ◌≤◌, ◌<◌, ◌&&◌, nat_lt, filter, map, IfOk};
    ghost use Rattle.std.specs.Map.{keys_of};
    ghost use Rattle.std.specs.List.Sorted.{IsStrictlySortedBy};
    ghost use Rattle.std.specs.Ordering.{nat_cmp};
    ghost use Rattle.spare_map.specs.Late.{entries_of, spare_of};
    ghost use Rattle.row_store.specs.Data.{id_cmp, version_cmp, sub_of};
    ghost use Rattle.row_store.specs.Memory.{AreByVersion, AreAbove, IsFirstFrom};

    /// The rows above a version, by rising version.
    pub(crate) fn rows_above(&mut self, alloc: Global, version: Version) -> Result<Rows, AllocError>
        ensures rows { IfOk result (AreAbove (entries_of version_cmp self.old.versions) version) }
        ensures same { entries_of version_cmp self.new.versions ≡ entries_of version_cmp self.old.versions }
        ensures spare { spare_of self.old.versions ≤ spare_of self.new.versions }
        ensures places { self.new.places ≡ self.old.places }
        ensures table { self.new.table ≡ self.old.table }
        ensures subs { self.new.subs ≡ self.old.subs }
    {
        let least = RowVersion {
            version,
            row: RowId::from_bytes([0; 16]),
        };
        let found = self.versions.from(least)?;
        Ok(Rows::from_vec(versions_above(alloc, &found, version)?))
    }

    /// The first of the rows that have this version or a greater one, by rising version.
    pub(crate) fn first_from(&mut self, version: Version) -> Result<Option<RowVersion>, AllocError>
        ensures first { IfOk result (IsFirstFrom (entries_of version_cmp self.old.versions) version) }
        ensures same { entries_of version_cmp self.new.versions ≡ entries_of version_cmp self.old.versions }
        ensures spare { spare_of self.old.versions ≤ spare_of self.new.versions }
        ensures places { self.new.places ≡ self.old.places }
        ensures table { self.new.table ≡ self.old.table }
        ensures subs { self.new.subs ≡ self.old.subs }
    {
        let least = RowVersion {
            version,
            row: RowId::from_bytes([0; 16]),
        };
        match self.versions.first_from(least)? {
            Some((row, _)) => Ok(Some(row)),
            None => Ok(None),
        }
    }

    /// The ids of the rows, in rising order.
    pub(crate) fn row_ids(&mut self) -> Result<RowIds, AllocError>
        ensures ids { IfOk result (λ ids. ids ≡ keys_of (entries_of id_cmp self.old.places)) }
        ensures rising { IfOk result (λ ids. IsStrictlySortedBy id_cmp ids) }
        ensures same { entries_of id_cmp self.new.places ≡ entries_of id_cmp self.old.places }
        ensures spare { spare_of self.old.places ≤ spare_of self.new.places }
        ensures versions { self.new.versions ≡ self.old.versions }
        ensures table { self.new.table ≡ self.old.table }
        ensures subs { self.new.subs ≡ self.old.subs }
    {
        // what was put while memory was refused
        self.places.reserve(0)?;
        Ok(RowIds::from_vec(self.places.keys()?))
    }

    /// The subscriptions, by rising client.
    pub(crate) fn all_subs(&self, alloc: Global) -> Result<Subs, AllocError>
        ensures { IfOk result (λ subs. subs ≡ map sub_of (entries_of nat_cmp self.now.subs)) }
    {
        let entries = self.subs.entries()?;
        Ok(Subs::from_vec(subs_in(alloc, &entries)?))
    }
}

impl Fold for RowMemory {
    type Change = Change;

    ghost use Rattle.row_store.specs.Memory.{Fits, HasSpare, Says};

    ghost fits = { Fits };

    ghost has_spare = { HasSpare };

    ghost says = { Says };

    fn start(alloc: Global) -> Self {
        RowMemory {
            places: SpareMap::new(alloc),
            versions: SpareMap::new(alloc),
            table: Vec::new(alloc),
            subs: SpareMap::new(alloc),
        }
    }

    fn reserve(&mut self, payloads: u64, bytes: u64) -> Result<(), AllocError> {
        self.places.reserve(payloads as usize)?;
        self.versions.reserve(2 * payloads as usize)?;
        self.subs.reserve(payloads as usize)?;
        let most = bytes.min(PAYLOAD_MAX as u64) as usize;
        let missing = most.saturating_sub(self.table.len());
        self.table.reserve(missing)
    }

    fn read(alloc: Global, payload: &[u8]) -> Result<Change, AllocError> {
        change_in(alloc, payload)
    }

    fn note(&mut self, change: Change, payload: &[u8], index: u64) -> Result<(), AllocError> {
        match change {
            Change::Row(row) => self.put_row(
                row.row,
                Place {
                    version: row.version,
                    index,
                },
            ),
            Change::Table => self.put_table(payload),
            Change::Sub(change) => self.put_sub(change),
            Change::Nothing => Ok(()),
        }
    }
}
