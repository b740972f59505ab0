ghost use Rattle.std.specs.Prelude.{◌≡◌, true, [], length, IfOk, MatchOption, replicate};
ghost use Rattle.assemblies.specs.Places.{Rises};
ghost use Rattle.assemblies.specs.Gathering.{waiting, taken, takes, is_whole, chunks_of};
ghost use Rattle.assemblies.specs.Gathering.{NoneStands, StandsAt, NoneLacks, LacksAt};

use crate::awaiting::{Awaited, AwaitedChunks};
use chunker::Chunks;
use stab_base::Bytes;
use std::alloc::{AllocError, Global};
use std::marker::Model;

/// Chunks of a row that are awaited, and those of them that have come.
#[derive(Debug, Drop)]
pub struct Assembly {
    awaited: AwaitedChunks,
    came: Vec<bool>,
    // Empty where none has come, so that they are handed over without taking memory.
    chunks: Vec<Bytes>,
    lacking: usize,
}

impl Model for Assembly {
    ghost use Rattle.std.specs.Prelude.{List};
    ghost use Rattle.assemblies.specs.Gathering.{Slot, IsAssembly, slots_of};

    ghost Value = { List Slot };

    ghost view = { λ a. slots_of a.awaited a.came.items a.chunks.items };

    ghost invariant = { λ a. IsAssembly a.awaited a.came.items a.chunks.items a.lacking };
}

// The number of the awaited chunk of this column and place.
fn number_of(awaited: &[Awaited], column: u32, place: u32) -> Option<usize>
    requires { Rises awaited.now }
    ensures { MatchOption result (NoneStands column place awaited.now)
        (λ number. StandsAt column place awaited.now number) }
{
    match awaited.binary_search_by_key(&(column, place), |it| (it.column, it.place)) {
        Ok(number) => Some(number),
        Err(_) => None,
    }
}

// The number of the chunk of this column, place and length, where it hasn't come.
fn lacking_at(
    awaited: &[Awaited],
    came: &[bool],
    column: u32,
    place: u32,
    len: usize,
) -> Option<usize>
    requires rising { Rises awaited.now }
    requires flags { length came.now ≡ length awaited.now }
    ensures { MatchOption result (NoneLacks column place len awaited.now came.now)
        (λ number. LacksAt column place len awaited.now came.now number) }
{
    let number = number_of(awaited, column, place)?;
    if came[number] {
        return None;
    }
    if awaited[number].len as usize == len {
        Some(number)
    } else {
        None
    }
}

fn empty_chunks(alloc: Global, count: usize) -> Result<Vec<Bytes>, AllocError>
    ensures { IfOk result (λ chunks. chunks.items ≡ replicate count []) }
{
    let mut chunks = Vec::new(alloc);
    for _ in 0..count {
        chunks.push(Bytes::new(alloc))?;
    }
    Ok(chunks)
}

impl Assembly {
    /// Nothing has come of these chunks.
    pub fn new(alloc: Global, awaited: AwaitedChunks) -> Result<Assembly, AllocError>
        requires { Rises awaited }
        ensures { IfOk result (λ made. made ≡ waiting awaited) }
    {
        let count = awaited.len();
        let came = vec![in alloc; false; count]?;
        let chunks = empty_chunks(alloc, count)?;
        Ok(Assembly {
            awaited,
            came,
            chunks,
            lacking: count,
        })
    }

    /// Takes a chunk. One that isn't awaited, that has come before, or that has another length than its place is
    /// dropped. Whether it was taken. It takes no memory.
    pub fn take(&mut self, column: u32, place: u32, bytes: Bytes) -> bool
        ensures slots { self.new ≡ taken column place bytes self.old }
        ensures took { result ≡ takes column place bytes self.old }
    {
        let awaited = self.awaited.as_slice();
        match lacking_at(awaited, &self.came, column, place, bytes.len()) {
            None => false,
            Some(number) => {
                self.came[number] = true;
                self.chunks[number] = bytes;
                self.lacking -= 1;
                true
            }
        }
    }

    /// Whether each chunk has come.
    pub fn is_whole(&self) -> bool
        ensures { result ≡ is_whole self.now }
    {
        self.lacking == 0
    }

    /// The chunks, in the order in which they are awaited. It takes no memory.
    pub fn into_chunks(self) -> Chunks
        requires { is_whole self ≡ true }
        ensures { result ≡ chunks_of self }
    {
        Chunks::from_vec(self.chunks)
    }
}
