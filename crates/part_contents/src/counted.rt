//! Chunks that are awaited, and how many of them haven't come.
ghost use Rattle.std.specs.Prelude.{◌≡◌, true, IfOk};
ghost use Rattle.assemblies.specs.Places.{Rises};
ghost use Rattle.assemblies.specs.Gathering.{waiting, taken, takes, is_whole, chunks_of};
ghost use Rattle.part_contents.specs.Counted.{lacks_few};

use assemblies::{Assembly, AwaitedChunks};
use chunker::Chunks;
use stab_base::Bytes;
use std::alloc::{AllocError, Global};
use std::marker::Model;

/// Chunks of a row that are awaited, those of them that have come, and how many haven't.
#[derive(Debug, Drop)]
pub struct Counted {
    slots: Assembly,
    lacks: usize,
}

impl Model for Counted {
    ghost use Rattle.std.specs.Prelude.{List};
    ghost use Rattle.assemblies.specs.Gathering.{Slot};
    ghost use Rattle.part_contents.specs.Counted.{IsCounted};

    ghost Value = { List Slot };

    ghost view = { λ g. g.slots };

    ghost invariant = { λ g. IsCounted g.slots g.lacks };
}

impl Counted {
    /// Nothing has come of these chunks.
    pub fn new(alloc: Global, awaited: AwaitedChunks) -> Result<Counted, AllocError>
        requires { Rises awaited }
        ensures { IfOk result (λ made. made ≡ waiting awaited) }
    {
        let lacks = awaited.len();
        let slots = Assembly::new(alloc, awaited)?;
        Ok(Counted { slots, lacks })
    }

    /// Whether one chunk at most hasn't come.
    pub fn lacks_few(&self) -> bool
        ensures { result ≡ lacks_few self.now }
    {
        self.lacks <= 1
    }

    /// Takes a chunk, as an `Assembly` does. Whether it was taken. It takes no memory.
    pub fn take(&mut self, column: u32, place: u32, bytes: Bytes) -> bool
        ensures slots { self.new ≡ taken column place bytes self.old }
        ensures took { result ≡ takes column place bytes self.old }
        ensures last { result ≡ true → is_whole self.new ≡ true → lacks_few self.old ≡ true }
    {
        if !self.slots.take(column, place, bytes) {
            return false;
        }
        self.lacks -= 1;
        true
    }

    /// Whether each chunk has come.
    pub fn is_whole(&self) -> bool
        ensures { result ≡ is_whole self.now }
    {
        self.slots.is_whole()
    }

    /// The chunks, in the order in which they are awaited. It takes no memory.
    pub fn into_chunks(self) -> Chunks
        requires { is_whole self ≡ true }
        ensures { result ≡ chunks_of self }
    {
        self.slots.into_chunks()
    }
}
