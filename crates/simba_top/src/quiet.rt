//! A sink for a run that is reported.
ghost use Rattle.std.specs.Prelude.{None};

use stab_io::{Failed, Sink};

/// A sink that keeps nothing.
#[derive(Drop)]
pub(crate) struct Quiet;

impl Sink for Quiet {
    ghost holds = { λ _. None };

    ghost faults = { λ _. 0 };

    fn put(&mut self, _bytes: &[u8]) -> Result<(), Failed> {
        Ok(())
    }
}
