ghost use Rattle.std.specs.Prelude.{Result};
ghost use Rattle.std.specs.declared.alloc.AllocError.{AllocError};
ghost use Rattle.row_value.specs.declared.schema.Schema.{Schema};
ghost use Rattle.conflicts.specs.declared.pair.Pair.{Pair};
ghost use Rattle.conflicts.specs.declared.pair.Choice.{Choice};
ghost use Rattle.conflicts.specs.Fit.{PairFits, AnswerFits};

use crate::pair::{Choice, Pair};
use std::alloc::AllocError;

/// Who resolves the conflicts of a table's rows. It may be asked about every pair whose contents are rows of the table,
/// and a content that it answers is one.
pub trait Resolver {
    // The schema of the rows.
    ghost schema_of: { Self → Schema };

    // What it may answer about a pair.
    ghost answers: { Self → Pair → Result Choice AllocError → Type 0 };

    /// How it resolves a conflict. The one error is that memory is refused.
    fn choose(&self, pair: &Pair) -> Result<Choice, AllocError>
        requires { PairFits (schema_of self.now) pair.now }
        ensures answer { answers self.now pair.now result }
        ensures fits { AnswerFits (schema_of self.now) result };
}
