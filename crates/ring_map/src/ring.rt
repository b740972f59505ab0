ghost use Rattle.std.specs.Prelude.{◌≡◌, OnOk, OnErr, IfSome, IsNone, ◌↔◌};
ghost use Rattle.std.specs.Ordering.{nat_cmp};
ghost use Rattle.std.specs.FinSet as set;
ghost use Rattle.ring_map.specs.Ring.{IsOwner};

use crate::position::{position_of, store_position};
use stab_base::StoreNo;
use std::alloc::{AllocError, Global};
use std::collections::BTreeSet;
use std::marker::Model;

/// The Stores that share the tables, each at its place on a ring. Contracts see the set of their numbers. A look-up
/// takes logarithmic time.
#[derive(Drop)]
pub struct Ring {
    places: BTreeSet<(u64, StoreNo)>,
}

impl Model for Ring {
    ghost use Rattle.std.specs.Prelude.{◌≡◌, ◌<◌, ◌^◌, All, map};
    ghost use Rattle.std.specs.Ordering.{nat_cmp};
    ghost use Rattle.std.specs.FinSet as set;
    ghost use Rattle.std.specs.Coded.{coded_ℕ};
    ghost use Rattle.ring_map.specs.Place.{store_position};

    ghost Value = { set.FinSet nat_cmp };

    ghost coded = { set.code coded_ℕ };

    ghost view = { λ a. set.from_list (map (λ place. place.1) a.places.keys) };

    ghost invariant = { λ a. All (λ place. (place.0 ≡ store_position place.1) × (place.0 < 2 ^ 64)) a.places.keys };
}

impl Ring {
    /// A ring without Stores, whose memory comes from `alloc`.
    pub fn new(alloc: Global) -> Self
        ensures { result ≡ set.empty }
    {
        Ring {
            places: BTreeSet::new(alloc),
        }
    }

    /// Puts a Store on the ring. Nothing changes where it is there.
    pub fn join_node(&mut self, store: StoreNo) -> Result<(), AllocError>
        ensures ok { OnOk result (self.new ≡ set.insert self.old store) }
        ensures err { OnErr result (self.new ≡ self.old) }
    {
        self.places.insert((store_position(store), store))?;
        Ok(())
    }

    /// Takes a Store off the ring. Nothing changes where it isn't there.
    pub fn leave_node(&mut self, store: StoreNo)
        ensures { self.new ≡ set.remove self.old store }
    {
        self.places.remove(&(store_position(store), store));
    }

    /// The Store that keeps the table of this name: the first at or after the table's place, going up and beginning
    /// again behind the highest. Stores at one place follow each other by number.
    pub fn owner(&self, table_name: &[u8]) -> Option<StoreNo>
        ensures none { IsNone result ↔ (self.now ≡ set.empty) }
        ensures owner { IfSome result (IsOwner self.now table_name.now) }
    {
        let from = position_of(table_name);
        if let Some((_, store)) = self.places.range((from, 0)..).next() {
            return Some(*store);
        }
        match self.places.first() {
            Some((_, store)) => Some(*store),
            None => None,
        }
    }
}
