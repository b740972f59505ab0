ghost use Rattle.std.specs.Prelude.{◌≡◌};
ghost use Rattle.select_lang.specs.declared.fault.SelectFault.TheVariants as faults;

use std::alloc::{AllocError, AllocFailed};
use thiserror::Error;

/// Why words spell no predicate.
#[derive(Debug, Drop, Clone, Copy, PartialEq, Eq, Error)]
pub enum SelectFault {
    /// The first word, counted from 0, at which no predicate goes on. Where words are missing it is their count.
    #[error("no predicate goes on at word {at}")]
    BadSelection { at: usize },
    #[error("out of memory")]
    Memory,
}

impl From<AllocError> for SelectFault {
    ghost from_gives = { λ _ e. e ≡ faults.Memory };

    fn from(_e: AllocError) -> SelectFault {
        SelectFault::Memory
    }
}

impl<T: Drop> From<AllocFailed<T>> for SelectFault {
    ghost from_gives = { λ _ e. e ≡ faults.Memory };

    fn from(_e: AllocFailed<T>) -> SelectFault {
        SelectFault::Memory
    }
}
