ghost use Rattle.std.specs.Prelude.{◌≡◌, ◌+◌, ◌*◌, ◌≤◌, ◌++◌, ◌∷◌, [], ℕ, List, length, OnOk, IfOk, IsOk};

use std::alloc::{AllocError, Global};

/// What is kept in memory of a list of payloads, so that they needn't be read again.
pub trait Fold {
    /// What one payload changes.
    type Change: Drop;

    /// What is kept is that of these payloads.
    ghost fits: { Self → List (List ℕ) → Type 0 };

    /// There is room for so many more payloads, of so many bytes in all.
    ghost has_spare: { Self → ℕ → ℕ → Type 0 };

    /// The payload makes this change.
    ghost says: { List ℕ → Self.Change → Type 0 };

    /// What is kept of no payload.
    fn start(alloc: Global) -> Self
        ensures { fits result [] };

    /// Makes room: noting so many payloads, of so many bytes in all, takes no memory.
    fn reserve(&mut self, payloads: u64, bytes: u64) -> Result<(), AllocError>
        requires payloads { payloads ≤ 16777216 }
        requires bytes { bytes ≤ 8388608 * payloads }
        ensures same { (list : List (List ℕ)) → fits self.old list → fits self.new list }
        ensures spare { OnOk result (has_spare self.new payloads bytes) }
        ensures kept { (more size : ℕ) → has_spare self.old more size → has_spare self.new more size };

    /// What a payload changes, whatever its bytes are.
    fn read(alloc: Global, payload: &[u8]) -> Result<Self::Change, AllocError>
        ensures { IfOk result (says payload.now) };

    /// Takes the next payload in, which makes this change; `index` is how many went before it.
    fn note(&mut self, change: Self::Change, payload: &[u8], index: u64) -> Result<(), AllocError>
        requires { says payload.now change }
        ensures noted { OnOk result ((list : List (List ℕ)) → length list ≡ index → fits self.old list
            → fits self.new (list ++ payload.now ∷ [])) }
        ensures no_memory { length payload.now ≤ 8388608 → has_spare self.old 1 (length payload.now) → IsOk result }
        ensures spare { OnOk result ((more size : ℕ) → has_spare self.old (more + 1) (size + length payload.now)
            → has_spare self.new more size) };
}
