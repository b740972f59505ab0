//! A Store that joins, and what the Stores say of their tables then.
ghost use Rattle.std.specs.Prelude.{◌≡◌, ℕ, List, map, option_map, IfOk, IfErr, OnOk, if◌then◌else◌};
ghost use Rattle.std.specs.List.{list_any};
ghost use Rattle.std.specs.List.Sorted.{IsStrictlySortedBy};
ghost use Rattle.std.specs.Ordering.{nat_cmp};
ghost use Rattle.std.specs.BTreeMap as tree;
ghost use Rattle.std.specs.BTreeMap.{is_at};
ghost use Rattle.std.specs.FinSet as set;
ghost use Rattle.std.specs.Map.{keys_of};
ghost use Rattle.ring_map.specs.Owners.{owner_on};
ghost use Rattle.store_node.specs.declared.fault.NodeFault.TheVariants.{Memory};
ghost use Rattle.store_host.specs.Joining.{moved_on, renewed};

use crate::hosted::Hosted;
use crate::store::StoreState;
use crate::tables::{any_unmade, numbers_of};
use disk_trait::Disk;
use ring_map::Ring;
use stab_base::{Sequence, StoreNo, TableNo};
use std::alloc::Global;
use std::collections::BTreeMap;
use store_node::NodeFault;

/// The Store that keeps the table of this name; 0 where there is none.
pub(crate) fn owner_in(ring: &Ring, name: &[u8]) -> StoreNo
    ensures { (stores : List ℕ) → ring.now ≡ set.from_list stores → result ≡ owner_on name.now stores }
{
    ring.owner(name).unwrap_or(0)
}

/// Whether a crash or a disk took one of the Stores down.
pub(crate) fn any_down(stores: &BTreeMap<StoreNo, StoreState>) -> bool
    ensures down { result ≡ list_any (λ e. e.1.is_down) stores.now.entries }
    ensures ordered { IsStrictlySortedBy nat_cmp (keys_of stores.now.entries) }
{
    stores.iter().any(|(_, state)| state.is_down)
}

// The table is its owner's from now on.
fn settle<D: Disk + Drop>(ring: &Ring, hosted: &mut Hosted<D>)
    ensures { (stores : List ℕ) → ring.now ≡ set.from_list stores → hosted.new ≡ moved_on stores hosted.old }
{
    let owner = owner_in(ring, hosted.node.name());
    hosted.node.move_to(owner);
}

/// Each table is its owner's from now on. It takes no memory.
pub(crate) fn settle_all<D: Disk + Drop>(ring: &Ring, tables: &mut BTreeMap<TableNo, Hosted<D>>)
    ensures { (stores : List ℕ) → ring.now ≡ set.from_list stores
        → tables.new.entries ≡ map (λ e. (e.0, moved_on stores e.1)) tables.old.entries }
{
    tables.retain(|_, hosted| {
        settle(ring, hosted);
        true
    });
}

// Says anew which tables the Store keeps, and whether one of them wasn't made.
fn renew<D: Disk + Drop>(
    alloc: Global,
    state: &mut StoreState,
    store: StoreNo,
    tables: &BTreeMap<TableNo, Hosted<D>>,
) -> Result<(), NodeFault>
    ensures renewed { OnOk result (state.new ≡ renewed store tables.now state.old) }
    ensures memory { IfErr result (λ e. e ≡ Memory) }
{
    state.tables = numbers_of(alloc, tables, store)?;
    state.is_late = any_unmade(state.tables.as_slice(), tables);
    Ok(())
}

/// Says anew of this Store, if it is there, which tables it keeps, and whether one of them wasn't made.
pub(crate) fn renew_at<D: Disk + Drop>(
    alloc: Global,
    stores: &mut BTreeMap<StoreNo, StoreState>,
    store: StoreNo,
    tables: &BTreeMap<TableNo, Hosted<D>>,
) -> Result<(), NodeFault>
    ensures renewed { OnOk result ((q : ℕ) → tree.get nat_cmp stores.new q ≡ (if is_at (nat_cmp store) q
        then option_map (renewed store tables.now) (tree.get nat_cmp stores.old q)
        else tree.get nat_cmp stores.old q)) }
    ensures memory { IfErr result (λ e. e ≡ Memory) }
{
    match stores.get_mut(&store) {
        Some(state) => renew(alloc, state, store, tables),
        None => Ok(()),
    }
}

// The numbers of the Stores.
fn all_stores(
    alloc: Global,
    stores: &BTreeMap<StoreNo, StoreState>,
) -> Result<Sequence<StoreNo>, NodeFault>
    ensures keys { IfOk result (λ numbers. numbers ≡ keys_of stores.now.entries) }
    ensures memory { IfErr result (λ e. e ≡ Memory) }
{
    let mut numbers = Sequence::new(alloc);
    for (store, _) in stores.iter() {
        numbers.push(*store)?;
    }
    Ok(numbers)
}

/// Says the same anew of each Store.
pub(crate) fn renew_all<D: Disk + Drop>(
    alloc: Global,
    stores: &mut BTreeMap<StoreNo, StoreState>,
    tables: &BTreeMap<TableNo, Hosted<D>>,
) -> Result<(), NodeFault>
    ensures renewed { OnOk result ((q : ℕ) → tree.get nat_cmp stores.new q
        ≡ option_map (renewed q tables.now) (tree.get nat_cmp stores.old q)) }
    ensures memory { IfErr result (λ e. e ≡ Memory) }
{
    let numbers = all_stores(alloc, stores)?;
    for store in numbers.as_slice() {
        renew_at(alloc, stores, *store, tables)?;
    }
    Ok(())
}
