ghost use Rattle.std.specs.Prelude.{◌≡◌, ◌+◌, ◌-◌, ◌^◌, ◌<◌, ◌≤◌, ◌/◌, ◌⊎◌, ◌↔◌, ◌++◌, [], ℕ, Some, length, take, drop};
ghost use Rattle.std.specs.Prelude.{min, Contains, IfOk, OnOk, OnErr, IsErr, MatchResult};
ghost use Rattle.std.specs.Io.KnownBytes.{ReadConsumes, Appends};
ghost use Rattle.stab_io.specs.Faults.{Rose, AppendsFront};

use crate::sink::Sink;
use crate::source::{Failed, Source};
use std::alloc::Global;
use std::marker::Model;

/// The most bytes that a source in memory gives at one call.
pub const GIVEN_AT_ONCE: usize = 64;

/// Bytes in memory to take, at most 64 a call. The calls whose numbers are listed fail, counted from 0.
#[derive(Drop)]
pub struct MemSource {
    bytes: Vec<u8>,
    given: usize,
    failing: Vec<u64>,
    calls: u64,
    faults: u64,
}

impl Model for MemSource {
    ghost use Rattle.std.specs.Prelude.{◌≤◌, drop, length};
    ghost use Rattle.stab_io.specs.Memory.{Giving};

    ghost Value = { Giving };

    ghost view = { λ s. record {
      left = drop s.given s.bytes.items;
      failing = s.failing.items;
      calls = s.calls;
      faults = s.faults;
    } };

    ghost invariant = { λ s. (s.given ≤ length s.bytes.items) × (s.faults ≤ s.calls) };
}

impl MemSource {
    pub fn new(bytes: Vec<u8>, failing: Vec<u64>) -> MemSource
        ensures { result ≡ record { left = bytes.items; failing = failing.items; calls = 0; faults = 0 } }
    {
        MemSource {
            bytes,
            given: 0,
            failing,
            calls: 0,
            faults: 0,
        }
    }
}

impl Source for MemSource {
    ghost left = { λ s. Some s.left };

    ghost faults = { λ s. s.faults };

    fn take(&mut self, into: &mut [u8]) -> Result<usize, Failed>
        ensures within { IfOk result (λ n. n ≤ length into.old) }
        ensures bytes { ReadConsumes (Some self.old.left) (Some self.new.left) result into.new }
        ensures counted { MatchResult result (λ _. self.new.faults ≡ self.old.faults)
            (λ _. self.old.faults < self.new.faults) }
        ensures given { IfOk result (λ n. n ≡ min (min 64 (length self.old.left)) (length into.old)) }
        ensures fails { IsErr result ↔ ((self.old.calls < 2 ^ 64 - 1) × Contains self.old.failing self.old.calls) }
        ensures calls { self.new.calls ≡ min (self.old.calls + 1) (2 ^ 64 - 1) }
        ensures failing { self.new.failing ≡ self.old.failing }
    {
        let call = self.calls;
        self.calls = call.saturating_add(1);
        if call < u64::MAX && self.failing.contains(&call) {
            self.faults += 1;
            return Err(Failed);
        }
        let n = give(&self.bytes[self.given..], into);
        self.given += n;
        Ok(n)
    }
}

// Copies as many bytes as both have, at most 64.
fn give(from: &[u8], into: &mut [u8]) -> usize
    ensures count { result ≡ min (min 64 (length from.now)) (length into.old) }
    ensures copied { take result into.new ≡ take result from.now }
{
    let n = GIVEN_AT_ONCE.min(from.len()).min(into.len());
    into[..n].copy_from_slice(&from[..n]);
    n
}

/// Keeps in memory what is put. The calls whose numbers are listed fail, counted from 0, and add half of their bytes,
/// rounded down. A call that is refused memory fails too, and adds nothing.
#[derive(Drop)]
pub struct MemSink {
    bytes: Vec<u8>,
    failing: Vec<u64>,
    calls: u64,
    faults: u64,
}

impl Model for MemSink {
    ghost use Rattle.stab_io.specs.Memory.{Holding};

    ghost Value = { Holding };

    ghost view = { λ s. record {
      holds = s.bytes.items;
      failing = s.failing.items;
      calls = s.calls;
      faults = s.faults;
    } };
}

impl MemSink {
    pub fn new(alloc: Global, failing: Vec<u64>) -> MemSink
        ensures { result ≡ record { holds = []; failing = failing.items; calls = 0; faults = 0 } }
    {
        MemSink {
            bytes: Vec::new(alloc),
            failing,
            calls: 0,
            faults: 0,
        }
    }

    pub fn bytes(&self) -> &[u8]
        ensures { result.now ≡ self.now.holds }
    {
        &self.bytes
    }

    pub fn into_bytes(self) -> Vec<u8>
        ensures { result.items ≡ self.holds }
    {
        self.bytes
    }
}

impl Sink for MemSink {
    ghost holds = { λ s. Some s.holds };

    ghost faults = { λ s. s.faults };

    fn put(&mut self, bytes: &[u8]) -> Result<(), Failed>
        ensures ok { OnOk result (Appends (Some self.old.holds) (Some self.new.holds) bytes.now) }
        ensures err { OnErr result (AppendsFront (Some self.old.holds) (Some self.new.holds) bytes.now) }
        ensures counted { MatchResult result (λ _. self.new.faults ≡ self.old.faults)
            (λ _. Rose self.old.faults self.new.faults) }
        ensures fails { Contains self.old.failing self.old.calls → IsErr result }
        ensures half { OnErr result ((self.new.holds ≡ self.old.holds)
            ⊎ (Contains self.old.failing self.old.calls
            × (self.new.holds ≡ self.old.holds ++ take (length bytes.now / 2) bytes.now))) }
        ensures calls { self.new.calls ≡ min (self.old.calls + 1) (2 ^ 64 - 1) }
        ensures failing { self.new.failing ≡ self.old.failing }
    {
        let fails = self.failing.contains(&self.calls);
        self.calls = self.calls.saturating_add(1);
        if fails {
            let _ = self.bytes.extend_from_slice(&bytes[..bytes.len() / 2]);
            self.faults = self.faults.saturating_add(1);
            return Err(Failed);
        }
        if self.bytes.extend_from_slice(bytes).is_err() {
            self.faults = self.faults.saturating_add(1);
            return Err(Failed);
        }
        Ok(())
    }
}
