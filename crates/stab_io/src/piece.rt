ghost use Rattle.std.specs.Prelude.{◌≡◌, ◌≤◌, [], ℕ, length, drop, take, MatchResult};
ghost use Rattle.std.specs.Io.KnownBytes.{Keeps, Consumes, IsAtEnd};
ghost use Rattle.stab_io.specs.Faults.{Rose};

use crate::source::{Failed, Source};
use std::marker::Model;

// The most bytes that are taken from a source at once.
const PIECE: usize = 4_096;

// Bytes that were taken from a source at once, as far as they are still to be read.
#[derive(Drop)]
pub struct Piece {
    bytes: [u8; PIECE],
    start: usize,
    end: usize,
}

impl Model for Piece {
    ghost use Rattle.std.specs.Prelude.{◌≤◌, ◌-◌, ℕ, List, drop, take};

    ghost Value = { List ℕ };

    ghost view = { λ p. take (p.end - p.start) (drop p.start p.bytes) };

    ghost invariant = { λ p. (p.start ≤ p.end) × (p.end ≤ 4096) };
}

impl Piece {
    pub fn new() -> Piece
        ensures { result ≡ [] }
    {
        Piece {
            bytes: [0; PIECE],
            start: 0,
            end: 0,
        }
    }

    pub fn as_slice(&self) -> &[u8]
        ensures value { result.now ≡ self.now }
        ensures small { length self.now ≤ 4096 }
    {
        &self.bytes[self.start..self.end]
    }

    // Drops the first bytes.
    pub fn skip(&mut self, count: usize)
        requires { count ≤ length self.old }
        ensures { self.new ≡ drop count self.old }
    {
        self.start += count;
    }

    pub fn clear(&mut self)
        ensures { self.new ≡ [] }
    {
        self.start = 0;
        self.end = 0;
    }

    // Takes the next piece of the source in place of this one.
    pub fn take_from<S: Source>(&mut self, source: &mut S) -> Result<usize, Failed>
        ensures taken { MatchResult result
            (λ n. Consumes (S.left source.old) (S.left source.new) self.new × (length self.new ≡ n)
            × (n ≡ 0 → IsAtEnd (S.left source.new)))
            (λ _. Keeps (S.left source.old) (S.left source.new) × (self.new ≡ [])) }
        ensures counted { MatchResult result (λ _. S.faults source.new ≡ S.faults source.old)
            (λ _. Rose (S.faults source.old) (S.faults source.new)) }
    {
        self.start = 0;
        self.end = 0;
        let n = source.take(&mut self.bytes)?;
        self.end = n;
        Ok(n)
    }
}
