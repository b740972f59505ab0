//! How values are gathered and handed over.
ghost use Rattle.std.specs.Prelude.{◌≡◌, ℕ, ◌+◌, ◌<◌, ◌≤◌, [], ◌∷◌, ◌++◌, length, option_to_list, OnOk, OnErr};
ghost use Rattle.std.specs.Vec.{vec_capacity, vec_len};
ghost use Rattle.store_node.specs.Gathered.{HasRoom};

use crate::gathered::Gathered;
use std::alloc::{AllocError, AllocFailed, Global};
use std::mem;

impl<T: Drop> Gathered<T> {
    pub(crate) fn new(alloc: Global) -> Gathered<T>
        ensures { result.items.items ≡ [] }
    {
        Gathered {
            items: Vec::new(alloc),
            spare: Vec::new(alloc),
            alloc,
        }
    }

    /// Makes room for so many values more, one of them behind a hand-over.
    pub(crate) fn reserve(&mut self, count: usize) -> Result<(), AllocError>
        ensures same { self.new.items.items ≡ self.old.items.items }
        ensures room { OnOk result (HasRoom self.new count) }
    {
        self.items.reserve(count)?;
        self.spare.reserve(1)
    }

    /// Adds a value at once.
    pub(crate) fn add(&mut self, value: T) -> Result<(), AllocFailed<T>>
        ensures ok { OnOk result (self.new.items.items ≡ self.old.items.items ++ value ∷ []) }
        ensures err { OnErr result (self.new.items.items ≡ self.old.items.items) }
    {
        self.items.push(value)
    }

    /// Adds a value for which room was made. It takes no memory.
    pub(crate) fn put(&mut self, value: T)
        requires { vec_len self.old.items < vec_capacity self.old.items }
        ensures added { self.new.items.items ≡ self.old.items.items ++ value ∷ [] }
        ensures room { (n : ℕ) → HasRoom self.old (n + 1) → HasRoom self.new n }
    {
        self.items.push(value).unwrap();
    }

    /// Adds a value, if there is one, for which room was made. It takes no memory.
    pub(crate) fn put_if(&mut self, value: Option<T>)
        requires { HasRoom self.old (length (option_to_list value)) }
        ensures added { self.new.items.items ≡ self.old.items.items ++ option_to_list value }
        ensures room { (n : ℕ) → HasRoom self.old (length (option_to_list value) + n) → HasRoom self.new n }
    {
        if let Some(value) = value {
            self.put(value);
        }
    }

    /// Hands over what was gathered. It takes no memory, and the room stays.
    pub(crate) fn take(&mut self) -> Vec<T>
        ensures taken { result.items ≡ self.old.items.items }
        ensures emptied { self.new.items.items ≡ [] }
        ensures room { (n : ℕ) → n ≤ 1 → HasRoom self.old n → HasRoom self.new n }
    {
        if self.items.is_empty() {
            return Vec::new(self.alloc);
        }
        let spare = mem::replace(&mut self.spare, Vec::new(self.alloc));
        mem::replace(&mut self.items, spare)
    }
}
