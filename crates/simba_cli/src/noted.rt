//! A sink that keeps what was put last, so that the program can tell the person at the terminal why a run stopped.
ghost use Rattle.std.specs.Prelude.{◌≡◌};

use stab_io::{Failed, Sink};

/// The bytes kept of a line. The line that says why a run stopped is shorter.
const KEPT: usize = 64;

/// A sink, and the first bytes of what was put into it last.
#[derive(Drop)]
pub(crate) struct Noted<K> {
    sink: K,
    last: [u8; KEPT],
    len: usize,
}

impl<K: Sink> Noted<K> {
    pub(crate) fn new(sink: K) -> Noted<K>
        ensures holds { ⟦<Noted<K> as Sink>⟧.holds result ≡ K.holds sink }
        ensures faults { ⟦<Noted<K> as Sink>⟧.faults result ≡ K.faults sink }
    {
        Noted {
            sink,
            last: [0; KEPT],
            len: 0,
        }
    }

    /// What was put last, cut to its first bytes; nothing where nothing was put.
    pub(crate) fn last(&self) -> &[u8] {
        self.last.get(..self.len).unwrap_or(&[])
    }

    fn note(&mut self, bytes: &[u8])
        ensures { self.new.sink ≡ self.old.sink }
    {
        self.len = bytes.len().min(KEPT);
        for (kept, byte) in self.last.iter_mut().zip(bytes) {
            *kept = *byte;
        }
    }
}

impl<K: Sink> Sink for Noted<K> {
    ghost holds = { λ s. K.holds s.sink };

    ghost faults = { λ s. K.faults s.sink };

    fn put(&mut self, bytes: &[u8]) -> Result<(), Failed> {
        self.note(bytes);
        self.sink.put(bytes)
    }
}
