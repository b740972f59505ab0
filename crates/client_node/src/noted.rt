//! The rows of a table that are noted.
ghost use Rattle.std.specs.Prelude.{◌≡◌, ◌+◌, ◌<◌, ◌^◌, ◌==◌, length, filter, map, IfOk};
ghost use Rattle.std.specs.declared.cmp.Ordering.TheVariants.{Less};
ghost use Rattle.std.specs.declared.ops.Bound.TheVariants.{Included, Excluded};
ghost use Rattle.std.specs.BTreeSet.{keys, keys_between};
ghost use Rattle.std.specs.List.Sorted.{IsStrictlySortedBy};
ghost use Rattle.slot_store.specs.Data.{key_cmp, key_at};
ghost use Rattle.client_node.specs.NotedRows.{AreNotedRows, zeros};

use slot_store::RowKey;
use stab_base::{RowId, TableNo};
use std::alloc::{AllocError, Global};
use std::collections::BTreeSet;

/// An id that is known to have sixteen bytes.
pub(crate) fn of_16_bytes(row: RowId) -> RowId
    ensures same { result ≡ row }
    ensures size { length row ≡ 16 }
{
    RowId::from_bytes(row.to_bytes())
}

/// The key before those of a table's rows.
pub(crate) fn first_key(table: TableNo) -> RowKey
    ensures { result ≡ key_at table (zeros 16) }
{
    RowKey {
        table,
        row: RowId::from_bytes([0; 16]),
    }
}

// The rows of a table among the keys of a set between two keys.
fn rows_between(
    alloc: Global,
    set: &BTreeSet<RowKey>,
    table: TableNo,
    from: RowKey,
    end: RowKey,
) -> Result<Vec<RowId>, AllocError>
    requires { key_cmp from end ≡ Less }
    ensures rows { IfOk result (λ rows. rows.items ≡ map (λ key. key.row)
        (filter (λ key. key.table == table) (keys_between key_cmp (Included from) (Excluded end) set.now))) }
    ensures rising { IsStrictlySortedBy key_cmp (keys set.now) }
{
    set.range(from..end)
        .filter(|key| key.table == table)
        .map(|key| key.row)
        .collect(alloc)
}

/// The rows of a table that are in a set, by rising id.
pub(crate) fn rows_in(
    alloc: Global,
    set: &BTreeSet<RowKey>,
    table: TableNo,
) -> Result<Vec<RowId>, AllocError>
    requires { table + 1 < 2 ^ 32 }
    ensures { IfOk result (λ rows. AreNotedRows set.now table rows.items) }
{
    rows_between(alloc, set, table, first_key(table), first_key(table + 1))
}
