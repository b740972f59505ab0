//! What a scan of the rows has found.
ghost use Rattle.std.specs.Prelude.{◌≡◌, []};
ghost use Rattle.std.specs.BTreeSet.{keys};
ghost use Rattle.store_commit.specs.Shows.{HiddenBehind};
ghost use Rattle.store_commit.specs.Standing.{write_of};

use crate::task::Task;
use stab_base::{ChunkName, RowId};
use std::alloc::Global;
use std::collections::BTreeSet;

/// What a start takes as not there, and what its recovery spares.
#[derive(Drop)]
pub struct Scanned {
    /// The rows that are taken as not there.
    pub(crate) hidden: BTreeSet<RowId>,
    /// The names of a row that is there, which are left of the open entry too.
    pub(crate) spared: BTreeSet<ChunkName>,
}

impl Scanned {
    /// Nothing is hidden, and nothing is spared.
    pub(crate) fn nothing(alloc: Global) -> Scanned
        ensures hidden { keys result.hidden ≡ [] }
        ensures spared { keys result.spared ≡ [] }
    {
        Scanned {
            hidden: BTreeSet::new(alloc),
            spared: BTreeSet::new(alloc),
        }
    }

    /// Behind a write a row that it puts is no more hidden. It takes no memory.
    pub(crate) fn put(&mut self, task: &Task)
        ensures hidden { HiddenBehind (write_of task.now) self.old.hidden self.new.hidden }
        ensures spared { self.new.spared ≡ self.old.spared }
    {
        if let Task::PutRow(stored) = task {
            self.hidden.remove(&stored.row);
        }
    }
}
