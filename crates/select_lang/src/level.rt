ghost use Rattle.std.specs.Prelude.{◌≡◌, ◌∷◌, ◌++◌, map, OnOk, IfOk};
ghost use Rattle.select_lang.specs.Formula.{formula_of, all_of, any_of, turned};
ghost use Rattle.select_lang.specs.Level.{seen_level, seen_option, new_level, with_test, with_all};
ghost use Rattle.select_lang.specs.Level.{has_room, with_not, inside, predicate_in, Becomes};

use crate::predicate::Predicate;
use std::alloc::{AllocError, Global};
use std::mem;

/// A predicate that isn't read to its end.
#[derive(Drop)]
pub(crate) struct Level {
    /// The alternatives that have ended.
    any: Vec<Predicate>,
    /// The tests of the one that goes on.
    all: Vec<Predicate>,
    /// How many `not`s stand behind them.
    nots: u32,
    /// How deep tests may nest here.
    room: u32,
}

fn all_of(mut parts: Vec<Predicate>) -> Predicate
    ensures { formula_of result ≡ all_of (map formula_of parts.items) }
{
    if parts.len() == 1 {
        parts.remove(0)
    } else {
        Predicate::All(parts)
    }
}

fn any_of(mut parts: Vec<Predicate>) -> Predicate
    ensures { formula_of result ≡ any_of (map formula_of parts.items) }
{
    if parts.len() == 1 {
        parts.remove(0)
    } else {
        Predicate::Any(parts)
    }
}

fn turned(alloc: Global, nots: u32, test: Predicate) -> Result<Predicate, AllocError>
    ensures { IfOk result (λ made. formula_of made ≡ turned nots (formula_of test)) }
{
    let mut made = test;
    'turns: for _not in 0..nots {
        made = Predicate::Not(Box::new(alloc, made)?);
    }
    Ok(made)
}

impl Level {
    pub(crate) fn new(alloc: Global, room: u32) -> Self
        ensures { seen_level result ≡ new_level room }
    {
        Level {
            any: Vec::new(alloc),
            all: Vec::new(alloc),
            nots: 0,
            room,
        }
    }

    /// Whether a test may nest deeper here.
    pub(crate) fn has_room(&self) -> bool
        ensures { result ≡ has_room (seen_level self.now) }
    {
        self.nots < self.room
    }

    /// Reads a `not`, where there is room.
    pub(crate) fn turn(&mut self) -> bool
        ensures { Becomes (with_not (seen_level self.old)) result (seen_level self.old) (seen_level self.new) }
    {
        if !self.has_room() {
            return false;
        }
        self.nots += 1;
        true
    }

    /// The predicate that begins in parentheses, where there is room.
    pub(crate) fn inside(&self, alloc: Global) -> Option<Self>
        ensures { seen_option result ≡ inside (seen_level self.now) }
    {
        if self.has_room() {
            Some(Level::new(alloc, self.room - self.nots - 1))
        } else {
            None
        }
    }

    /// Ends a test.
    pub(crate) fn end_test(&mut self, alloc: Global, test: Predicate) -> Result<(), AllocError>
        ensures { OnOk result (seen_level self.new ≡ with_test (seen_level self.old) (formula_of test)) }
    {
        let test = turned(alloc, self.nots, test)?;
        self.all.push(test)?;
        self.nots = 0;
        Ok(())
    }

    /// Ends an alternative.
    pub(crate) fn end_all(&mut self, alloc: Global) -> Result<(), AllocError>
        ensures { OnOk result (seen_level self.new ≡ with_all (seen_level self.old)) }
    {
        let all = mem::replace(&mut self.all, Vec::new(alloc));
        self.any.push(all_of(all))?;
        Ok(())
    }

    /// The predicate, which ends here.
    pub(crate) fn into_predicate(self) -> Result<Predicate, AllocError>
        ensures { IfOk result (λ made. formula_of made ≡ predicate_in (seen_level self)) }
    {
        let Level {
            mut any,
            all,
            nots: _,
            room: _,
        } = self;
        any.push(all_of(all))?;
        Ok(any_of(any))
    }
}
