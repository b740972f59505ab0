ghost use Rattle.std.specs.Prelude.{◌≡◌, ℕ, Option, List, OnOk, OnErr, MatchResult};
ghost use Rattle.std.specs.Io.KnownBytes.{Appends};
ghost use Rattle.stab_io.specs.Faults.{Rose, AppendsFront};

use crate::source::Failed;

/// Where bytes go.
pub trait Sink {
    // the bytes that the sink holds, where it tells them
    ghost holds: { Self → Option (List ℕ) };

    // how many calls have failed
    ghost faults: { Self → ℕ };

    /// Adds all the bytes. After `Failed` a front of them has been added.
    fn put(&mut self, bytes: &[u8]) -> Result<(), Failed>
        ensures ok { OnOk result (Appends (holds self.old) (holds self.new) bytes.now) }
        ensures err { OnErr result (AppendsFront (holds self.old) (holds self.new) bytes.now) }
        ensures counted { MatchResult result (λ _. faults self.new ≡ faults self.old)
            (λ _. Rose (faults self.old) (faults self.new)) };
}
