//! What the ring keeps, as laws.
ghost use Rattle.std.specs.Prelude.{◌≡◌, ◌≢◌, ℕ, List};
ghost use Rattle.std.specs.Ordering.{nat_cmp};
ghost use Rattle.std.specs.FinSet as set;
ghost use Rattle.ring_map.specs.Owners.{owner_on};
ghost use Rattle.ring_map.specs.Ring.{IsOwner};

/// A table has one owner. (Does nothing: its clause is a law.)
pub fn a_table_has_one_owner()
    ensures { (stores : set.FinSet nat_cmp) (name : List ℕ) (a b : ℕ)
        → IsOwner stores name a → IsOwner stores name b → a ≡ b }
{}

/// Where a Store joins, a table keeps its owner or goes to that Store; where one leaves, the tables of the others stay.
/// (Does nothing: its clauses are laws.)
pub fn joins_and_leaves_move_few_tables()
    ensures join { (stores : set.FinSet nat_cmp) (name : List ℕ) (store before after : ℕ)
        → IsOwner stores name before → IsOwner (set.insert stores store) name after → after ≢ before → after ≡ store }
    ensures leave { (stores : set.FinSet nat_cmp) (name : List ℕ) (store before after : ℕ)
        → IsOwner stores name before → IsOwner (set.remove stores store) name after → after ≢ before → before ≡ store }
{}

/// The owner of a table is computed of the Stores, one after the other. (Does nothing: its clause is a law.)
pub fn an_owner_is_computed()
    ensures { (stores name : List ℕ) (store : ℕ)
        → IsOwner (set.from_list stores) name store → store ≡ owner_on name stores }
{}
