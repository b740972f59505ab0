//! What a node gathers to tell and to send, with room for what its writes are still to add.
#![tactic(auto)]

ghost use Rattle.std.specs.Prelude.{◌≡◌, ℕ, ◌+◌, ◌≤◌, [], ◌++◌, OnOk};
ghost use Rattle.std.specs.Vec.{vec_capacity, vec_len};
ghost use Rattle.gathering.specs.Room.{HasRoom, HasSpare};

mod gathered;

pub use gathered::Gathered;
use std::alloc::{AllocError, Global};
use std::mem;

impl<T: Drop> Gathered<T> {
    /// Nothing is gathered.
    pub fn new(alloc: Global) -> Gathered<T>
        ensures { result.items.items ≡ [] }
    {
        Gathered {
            items: Vec::new(alloc),
            spare: Vec::new(alloc),
            alloc,
        }
    }

    /// Makes room for so many values more, also behind a hand-over.
    pub fn reserve(&mut self, count: usize) -> Result<(), AllocError>
        ensures same { self.new.items.items ≡ self.old.items.items }
        ensures room { OnOk result (HasRoom self.new count) }
        ensures spare { OnOk result (HasSpare self.new count) }
        ensures kept { (n : ℕ) → HasRoom self.old n → HasRoom self.new n }
    {
        self.items.reserve(count)?;
        self.spare.reserve(count)
    }

    /// Adds values for which room was made. It takes no memory, and what more room there was stays.
    pub fn put_all(&mut self, more: &mut Vec<T>)
        requires { vec_len self.old.items + vec_len more.old ≤ vec_capacity self.old.items }
        ensures added { self.new.items.items ≡ self.old.items.items ++ more.old.items }
        ensures emptied { more.new.items ≡ [] }
        ensures room { (n : ℕ) → HasSpare self.old (vec_len more.old + n) → HasRoom self.new n }
    {
        self.items.append(more).unwrap();
    }

    /// Hands over what was gathered. It takes no memory, and the room stays.
    pub fn take(&mut self) -> Vec<T>
        ensures taken { result.items ≡ self.old.items.items }
        ensures emptied { self.new.items.items ≡ [] }
        ensures room { (n : ℕ) → HasRoom self.old n → HasRoom self.new n }
    {
        if self.items.is_empty() {
            return Vec::new(self.alloc);
        }
        let spare = mem::replace(&mut self.spare, Vec::new(self.alloc));
        mem::replace(&mut self.items, spare)
    }
}
