ghost use Rattle.std.specs.Prelude.{◌≡◌, ◌≤◌, ℕ, Option, List, length, IfOk, MatchResult};
ghost use Rattle.std.specs.Io.KnownBytes.{ReadConsumes};
ghost use Rattle.stab_io.specs.Faults.{Rose};

use thiserror::Error;

/// A call of a source or of a sink failed.
#[derive(Debug, Drop, Clone, Copy, PartialEq, Eq, Error)]
#[error("the call failed")]
pub struct Failed;

/// Where bytes come from.
pub trait Source {
    // the bytes that are left to take, where the source tells them
    ghost left: { Self → Option (List ℕ) };

    // how many calls have failed
    ghost faults: { Self → ℕ };

    /// Takes a front of the bytes left into the buffer, and answers how many bytes. 0 for a buffer with room is the
    /// end. After `Failed` no byte has been taken, and what the buffer holds is open.
    fn take(&mut self, into: &mut [u8]) -> Result<usize, Failed>
        ensures within { IfOk result (λ n. n ≤ length into.old) }
        ensures bytes { ReadConsumes (left self.old) (left self.new) result into.new }
        ensures counted { MatchResult result (λ _. faults self.new ≡ faults self.old)
            (λ _. Rose (faults self.old) (faults self.new)) };
}
