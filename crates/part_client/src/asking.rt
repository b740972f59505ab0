//! What a pull of a table tells as torn, and what it asks for whole.
ghost use Rattle.std.specs.Prelude.{◌≡◌, ◌||◌, ℕ, is_some, IfOk, OnOk, OnErr};
ghost use Rattle.std.specs.BTreeMap as tree;
ghost use Rattle.std.specs.BTreeSet as set;
ghost use Rattle.std.specs.List.Sorted.{IsStrictlySortedBy};
ghost use Rattle.step_tables.specs.Client.{row_cmp};
ghost use Rattle.part_tables.specs.Arriving as arrivals;
ghost use Rattle.part_client.specs.Keeping.{KeepsTable};
ghost use Rattle.part_client.specs.Asking.{is_pulled_row, IsAsked, HasUnfinished};

use crate::pulls::Pulling;
use crate::rows::TornRow;
use crate::table::TableParts;
use crate::taken::Asks;
use stab_base::RowId;
use std::alloc::{AllocError, Global};
use std::collections::{BTreeMap, BTreeSet};

// Adds the keys of a map.
fn add_keys(rows: &mut BTreeSet<RowId>, more: &BTreeMap<RowId, TornRow>) -> Result<(), AllocError>
    ensures { OnOk result ((q : _) → set.contains row_cmp rows.new q
        ≡ (set.contains row_cmp rows.old q || is_some (tree.get row_cmp more.now q))) }
{
    for row in more.keys() {
        let _is_new = rows.insert(*row)?;
    }
    Ok(())
}

// Adds the keys of a set.
fn add_all(rows: &mut BTreeSet<RowId>, more: &BTreeSet<RowId>) -> Result<(), AllocError>
    ensures { OnOk result ((q : _) → set.contains row_cmp rows.new q
        ≡ (set.contains row_cmp rows.old q || set.contains row_cmp more.now q)) }
{
    for row in more.iter() {
        let _is_new = rows.insert(*row)?;
    }
    Ok(())
}

// Adds the row of an answer to a pull.
fn add_pulled(rows: &mut BTreeSet<RowId>, pull: &Option<Pulling>) -> Result<(), AllocError>
    ensures { OnOk result ((q : _) → set.contains row_cmp rows.new q
        ≡ (set.contains row_cmp rows.old q || is_pulled_row pull.now q)) }
{
    if let Some(x) = pull {
        let _is_new = rows.insert(x.came.row())?;
    }
    Ok(())
}

fn list_of(alloc: Global, rows: &BTreeSet<RowId>) -> Result<Vec<RowId>, AllocError>
    ensures list { IfOk result (λ list. list.items ≡ set.keys rows.now) }
    ensures rising { IsStrictlySortedBy row_cmp (set.keys rows.now) }
{
    let mut list = Vec::new(alloc);
    for row in rows.iter() {
        list.push(*row)?;
    }
    Ok(list)
}

// The rows that wait for fragments.
fn unfinished(alloc: Global, it: &TableParts) -> Result<BTreeSet<RowId>, AllocError>
    ensures { IfOk result (HasUnfinished it.now) }
{
    let mut rows = BTreeSet::new(alloc);
    add_keys(&mut rows, &it.rows)?;
    add_pulled(&mut rows, &it.pull)?;
    Ok(rows)
}

// The rows of both sets.
fn union(
    alloc: Global,
    some: &BTreeSet<RowId>,
    more: &BTreeSet<RowId>,
) -> Result<BTreeSet<RowId>, AllocError>
    ensures { IfOk result (λ rows. (q : _) → set.contains row_cmp rows q
        ≡ (set.contains row_cmp some.now q || set.contains row_cmp more.now q)) }
{
    let mut rows = BTreeSet::new(alloc);
    add_all(&mut rows, some)?;
    add_all(&mut rows, more)?;
    Ok(rows)
}

/// What a pull of a table asks for. An answer to a pull isn't waited for any longer, and the rows that wait are torn.
pub(crate) fn ask(alloc: Global, it: &mut TableParts) -> Result<Asks, AllocError>
    ensures asked { (table : ℕ) (a : arrivals.Arriving) → KeepsTable table a it.old
        → IfOk result (IsAsked table a it.new) }
    ensures memory { (table : ℕ) (a : arrivals.Arriving) → KeepsTable table a it.old
        → OnErr result (KeepsTable table a it.new) }
{
    let tears = unfinished(alloc, it)?;
    let torn = union(alloc, &it.torn, &tears)?;
    let asks = Asks {
        tears: list_of(alloc, &tears)?,
        asks: list_of(alloc, &torn)?,
    };
    it.pull = None;
    it.torn = torn;
    Ok(asks)
}
