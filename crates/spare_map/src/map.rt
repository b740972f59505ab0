ghost use Rattle.std.specs.Prelude.{◌≡◌, ◌+◌, ◌≤◌, [], ◌++◌, ◌∷◌, false, fold, filter, option_copied, option_map, map};
ghost use Rattle.std.specs.Prelude.{◌&&◌, not};
ghost use Rattle.std.specs.Prelude.{List, IfOk, OnOk, OnErr, slice_get};
ghost use Rattle.std.specs.BTreeMap.{insert_entry, is_at};
ghost use Rattle.std.specs.Map.{lookup, keys_of};
ghost use Rattle.std.specs.List.Sorted.{IsStrictlySortedBy};
ghost use Rattle.std.specs.Ordering.{is_le, is_gt};
ghost use Rattle.spare_map.specs.Late.{changed, latest, without, entries_of, spare_of, IsLast, IsLastOf};

use std::alloc::{AllocError, Global};
use std::collections::{BTreeMap, VecDeque};

/// One change: the key's new value, or that it has none.
#[derive(Clone, Copy)]
struct Change<K, V> {
    key: K,
    value: Option<V>,
}

/// An ordered map. `reserve` makes room for so many changes, which then take no memory.
///
/// A change goes into a tree, whose node takes memory now and then. Where that memory is refused, the change goes
/// into a queue, whose room was made before, and so do all changes after it; the next `reserve` empties the queue
/// into the tree. Look-ups are logarithmic, and linear in the queue.
#[derive(Drop)]
pub struct SpareMap<K: Ord, V> {
    tree: BTreeMap<K, V>,
    late: VecDeque<Change<K, V>>,
    alloc: Global,
}

// Makes one change in a tree.
fn make_change<K: Ord + Copy, V: Copy>(
    tree: &mut BTreeMap<K, V>,
    key: K,
    value: Option<V>,
) -> Result<(), AllocError>
    ensures ok { OnOk result (tree.new.entries ≡ changed K.cmp tree.old.entries key value) }
    ensures err { OnErr result (tree.new.entries ≡ tree.old.entries) }
{
    match value {
        Some(value) => {
            tree.insert(key, value)?;
        }
        None => {
            // that the keys ascend
            let _ = tree.len();
            tree.remove(&key);
        }
    }
    Ok(())
}

// The last change of this key in the queue.
fn latest<K: Ord + Copy, V: Copy>(late: &VecDeque<Change<K, V>>, key: K) -> Option<Option<V>>
    ensures { result ≡ latest K.cmp key late.now.items }
{
    let mut found = None;
    for change in late.iter() {
        if key.cmp(&change.key).is_eq() {
            found = Some(change.value);
        }
    }
    found
}

impl<K: Ord + Copy, V: Copy> SpareMap<K, V> {
    /// The empty map.
    pub fn new(alloc: Global) -> SpareMap<K, V>
        ensures { entries_of K.cmp result ≡ [] }
    {
        SpareMap {
            tree: BTreeMap::new(alloc),
            late: VecDeque::new(alloc),
            alloc,
        }
    }

    // Empties the queue into the tree.
    fn settle(&mut self) -> Result<(), AllocError>
        ensures same { entries_of K.cmp self.new ≡ entries_of K.cmp self.old }
        ensures settled { OnOk result (self.new.late.items ≡ []) }
        ensures spare { spare_of self.old ≤ spare_of self.new }
    {
        while let Some(first) = self.late.front() {
            let Change { key, value } = *first;
            make_change(&mut self.tree, key, value)?;
            self.late.pop_front();
        }
        Ok(())
    }

    /// Makes room for so many changes.
    pub fn reserve(&mut self, changes: usize) -> Result<(), AllocError>
        ensures same { entries_of K.cmp self.new ≡ entries_of K.cmp self.old }
        ensures room { OnOk result (changes ≤ spare_of self.new) }
        ensures spare { spare_of self.old ≤ spare_of self.new }
    {
        self.settle()?;
        self.late.reserve(changes)
    }

    // Makes one change. With room it takes no memory, and at most one place of the room.
    fn make(&mut self, key: K, value: Option<V>) -> Result<(), AllocError>
        ensures ok { OnOk result (entries_of K.cmp self.new ≡ changed K.cmp (entries_of K.cmp self.old) key value) }
        ensures err { OnErr result (entries_of K.cmp self.new ≡ entries_of K.cmp self.old) }
        ensures full { OnErr result (spare_of self.old ≡ 0) }
        ensures spare { spare_of self.old ≤ spare_of self.new + 1 }
    {
        if self.late.is_empty() && make_change(&mut self.tree, key, value).is_ok() {
            return Ok(());
        }
        self.late.push_back(Change { key, value })?;
        Ok(())
    }

    /// Gives a key this value. With room it takes no memory, and uses up one place of the room at most.
    pub fn insert(&mut self, key: K, value: V) -> Result<(), AllocError>
        ensures ok { OnOk result (entries_of K.cmp self.new
            ≡ insert_entry K.cmp (entries_of K.cmp self.old) key value) }
        ensures err { OnErr result (entries_of K.cmp self.new ≡ entries_of K.cmp self.old) }
        ensures full { OnErr result (spare_of self.old ≡ 0) }
        ensures spare { spare_of self.old ≤ spare_of self.new + 1 }
    {
        self.make(key, Some(value))
    }

    /// Takes a key out. With room it takes no memory, and uses up one place of the room at most.
    pub fn remove(&mut self, key: K) -> Result<(), AllocError>
        ensures ok { OnOk result (entries_of K.cmp self.new ≡ without K.cmp (entries_of K.cmp self.old) key) }
        ensures err { OnErr result (entries_of K.cmp self.new ≡ entries_of K.cmp self.old) }
        ensures full { OnErr result (spare_of self.old ≡ 0) }
        ensures spare { spare_of self.old ≤ spare_of self.new + 1 }
    {
        self.make(key, None)
    }

    /// The value of a key.
    pub fn get(&self, key: K) -> Option<V>
        ensures { result ≡ lookup (is_at (K.cmp key)) (entries_of K.cmp self.now) }
    {
        match latest(&self.late, key) {
            Some(value) => value,
            None => self.tree.get(&key).copied(),
        }
    }

    /// The keys in rising order. Memory that was refused before is asked for again by `reserve` alone.
    pub fn keys(&self) -> Result<Vec<K>, AllocError>
        ensures keys { IfOk result (λ keys. keys.items ≡ keys_of (entries_of K.cmp self.now)) }
        ensures rising { IfOk result (λ keys. IsStrictlySortedBy K.cmp keys.items) }
    {
        if !self.late.is_empty() {
            return Err(AllocError);
        }
        let mut keys = Vec::new(self.alloc);
        for (key, _) in self.tree.iter() {
            keys.push(*key)?;
        }
        Ok(keys)
    }

    /// The entries in rising order of their keys. Memory that was refused before is asked for again by `reserve` alone.
    pub fn entries(&self) -> Result<Vec<(K, V)>, AllocError>
        ensures entries { IfOk result (λ found. found.items ≡ entries_of K.cmp self.now) }
        ensures rising { IfOk result (λ found. IsStrictlySortedBy K.cmp (keys_of found.items)) }
    {
        if !self.late.is_empty() {
            return Err(AllocError);
        }
        let mut found = Vec::new(self.alloc);
        for (key, value) in self.tree.iter() {
            found.push((*key, *value))?;
        }
        Ok(found)
    }

    // The greater of a key and the greatest so far, where the key has a value.
    fn greater(&self, last: Option<K>, key: K) -> Option<K>
        ensures { (keys : List K) → IsLastOf K.cmp (entries_of K.cmp self.now) keys last
            → IsLastOf K.cmp (entries_of K.cmp self.now) (keys ++ key ∷ []) result }
    {
        if self.get(key).is_none() {
            return last;
        }
        let Some(last) = last else {
            return Some(key);
        };
        if key.cmp(&last).is_lt() {
            Some(last)
        } else {
            Some(key)
        }
    }

    // The greatest key of the tree that has a value.
    fn last_in_tree(&self) -> Option<K>
        ensures { IsLastOf K.cmp (entries_of K.cmp self.now) (keys_of self.now.tree.entries) result }
    {
        let mut last = None;
        for (key, _) in self.tree.iter() {
            last = self.greater(last, *key);
        }
        last
    }

    // The greatest key of the tree and of the queue that has a value.
    fn last_in_all(&self) -> Option<K>
        ensures { IsLastOf K.cmp (entries_of K.cmp self.now)
            (keys_of self.now.tree.entries ++ map (λ change. change.key) self.now.late.items) result }
    {
        let mut last = self.last_in_tree();
        for change in self.late.iter() {
            last = self.greater(last, change.key);
        }
        last
    }

    /// The greatest key. It takes no memory, and is logarithmic where no memory was refused.
    pub fn last(&self) -> Option<K>
        ensures { IsLast K.cmp (entries_of K.cmp self.now) result }
    {
        if !self.late.is_empty() {
            return self.last_in_all();
        }
        match self.tree.last_key_value() {
            Some((key, _)) => Some(*key),
            None => None,
        }
    }

    /// The keys from this one on with their values, in rising order.
    pub fn from(&mut self, key: K) -> Result<Vec<(K, V)>, AllocError>
        ensures found { IfOk result (λ found. found.items
            ≡ filter (λ e. is_le (K.cmp key e.0)) (entries_of K.cmp self.old)) }
        ensures rising { IfOk result (λ found. IsStrictlySortedBy K.cmp (keys_of found.items)) }
        ensures same { entries_of K.cmp self.new ≡ entries_of K.cmp self.old }
        ensures spare { spare_of self.old ≤ spare_of self.new }
    {
        self.settle()?;
        let mut found = Vec::new(self.alloc);
        for (key, value) in self.tree.range(key..) {
            found.push((*key, *value))?;
        }
        Ok(found)
    }

    /// The keys from one on that are below another, in rising order. It costs what the keys that it finds cost, besides
    /// what `reserve` left in the queue.
    pub fn keys_between(&mut self, from: K, end: K) -> Result<Vec<K>, AllocError>
        requires { is_gt (K.cmp from end) ≡ false }
        ensures found { IfOk result (λ keys. keys.items
            ≡ filter (λ k. is_le (K.cmp from k) && not (is_le (K.cmp end k))) (keys_of (entries_of K.cmp self.old))) }
        ensures rising { IfOk result (λ keys. IsStrictlySortedBy K.cmp keys.items) }
        ensures same { entries_of K.cmp self.new ≡ entries_of K.cmp self.old }
        ensures spare { spare_of self.old ≤ spare_of self.new }
    {
        self.settle()?;
        let mut keys = Vec::new(self.alloc);
        for (key, _) in self.tree.range(from..end) {
            keys.push(*key)?;
        }
        Ok(keys)
    }

    /// The first key from this one on, with its value. It is logarithmic, besides what `reserve` left in the queue.
    pub fn first_from(&mut self, key: K) -> Result<Option<(K, V)>, AllocError>
        ensures first { IfOk result (λ first. first
            ≡ slice_get (filter (λ e. is_le (K.cmp key e.0)) (entries_of K.cmp self.old)) 0) }
        ensures rising { OnOk result (IsStrictlySortedBy K.cmp (keys_of (entries_of K.cmp self.old))) }
        ensures same { entries_of K.cmp self.new ≡ entries_of K.cmp self.old }
        ensures spare { spare_of self.old ≤ spare_of self.new }
    {
        self.settle()?;
        match self.tree.range(key..).next() {
            Some((key, value)) => Ok(Some((*key, *value))),
            None => Ok(None),
        }
    }
}
