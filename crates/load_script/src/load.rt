ghost use Rattle.std.specs.Prelude.{◌≡◌, ◌≤◌, Some, None, length, MatchOption, IfOk, IfSome, OnErr};
ghost use Rattle.std.specs.List.{AllByRecursion};
ghost use Rattle.load_script.specs.Script.{start, next_group, IsShort};

use crate::{groups, rounds};
use stab_base::Bytes;
use std::alloc::{AllocError, Global};

const ROUNDS: u32 = 4000;

/// What comes next of a script.
#[derive(Debug, Clone, Copy, PartialEq, Eq)]
pub enum Stage {
    /// The declarations of nodes and tables.
    Declarations,
    /// So many rounds are left, and then the end.
    Rounds { left: u32 },
    /// Nothing.
    Ended,
}

/// A script that is made from a number, as far as it is given.
#[derive(Debug, Drop, Clone, Copy, PartialEq, Eq)]
pub struct Load {
    x: u64,
    stage: Stage,
}

impl Load {
    /// The whole script of this number.
    pub fn new(number: u64) -> Load
        ensures { result ≡ start number }
    {
        Load {
            x: number,
            stage: Stage::Declarations,
        }
    }

    /// The lines of the next group, without newlines, where `sent` packets have been sent; `None` behind the end, where
    /// nothing changes. Where memory is refused nothing has changed, and the call may be made again.
    pub fn next(&mut self, alloc: Global, sent: u64) -> Result<Option<Vec<Bytes>>, AllocError>
        ensures group { IfOk result (λ found. MatchOption found
            ((next_group self.old sent ≡ None) × (self.new ≡ self.old))
            (λ lines. next_group self.old sent ≡ Some (lines.items, self.new))) }
        ensures short { IfOk result (λ found. IfSome found (λ lines. AllByRecursion IsShort lines.items)) }
        ensures few { IfOk result (λ found. IfSome found (λ lines. length lines.items ≤ 69)) }
        ensures refused { OnErr result (self.new ≡ self.old) }
    {
        match self.stage {
            Stage::Declarations => {
                let lines = groups::declarations(alloc)?;
                self.stage = Stage::Rounds { left: ROUNDS };
                Ok(Some(lines))
            }
            Stage::Rounds { left } if left == 0 => {
                let lines = groups::end(alloc)?;
                self.stage = Stage::Ended;
                Ok(Some(lines))
            }
            Stage::Rounds { left } => {
                let (lines, x) = rounds::round(alloc, self.x, sent)?;
                self.x = x;
                self.stage = Stage::Rounds { left: left - 1 };
                Ok(Some(lines))
            }
            Stage::Ended => Ok(None),
        }
    }
}
