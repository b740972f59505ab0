//! The end of a plan that was cut short, on a disk that may hold anything.
ghost use Rattle.std.specs.Prelude.{◌≡◌, ◌↔◌, filter, not, IfOk, IsErrOf};
ghost use Rattle.client_journal.specs.Recover.{IsStarting};
ghost use Rattle.client_journal.specs.Spare.{is_in, spares, Spares};
ghost use Rattle.client_journal.specs.Standing.{write_of, AreUp, IsOneDown};
ghost use Rattle.client_journal.specs.Unset.{KeepsUnset};

use crate::Journal;
use crate::fault::JournalFault;
use crate::names::chunk_name;
use crate::rolled::Rolled;
use crate::scanned::Scanned;
use crate::task::Task;
use disk_trait::Disk;
use stab_base::ChunkName;
use std::alloc::{AllocError, Global};
use std::collections::{BTreeSet, VecDeque};

// Whether a write drops a chunk that is named.
fn is_spared(named: &BTreeSet<ChunkName>, task: &Task) -> bool
    ensures { result ≡ spares (is_in named.now) (write_of task.now) }
{
    match task {
        Task::DropChunk(name) => named.contains(&chunk_name(*name)),
        _ => false,
    }
}

// These writes without the drops of chunks that are named.
fn unspared(
    alloc: Global,
    named: &BTreeSet<ChunkName>,
    tasks: VecDeque<Task>,
) -> Result<VecDeque<Task>, AllocError>
    ensures { IfOk result (λ kept. kept.items
        ≡ filter (λ task. not (spares (is_in named.now) (write_of task))) tasks.items) }
{
    tasks
        .into_iter()
        .filter(|task| !is_spared(named, task))
        .collect(alloc)
}

impl<D: Disk + Drop> Journal<D> {
    /// Takes on the end of a plan that was cut short, as `recover` does, and drops no chunk that a row names which a
    /// scan has found to be there. On a disk that this program wrote no such chunk is among the drops. It is called
    /// once the devices were looked at and scanned.
    pub fn recover_sparing(&mut self, scanned: &Scanned) -> Result<Rolled, JournalFault>
        requires { AreUp self.old → IsStarting D.state self.old }
        ensures fuse { KeepsUnset D.state self.old self.new }
        ensures spares { AreUp self.old → Spares D.state D.images scanned.now self.old self.new result }
        ensures down { IsErrOf result JournalFault.Down ↔ IsOneDown self.old }
        ensures unchanged { IsErrOf result JournalFault.Down → self.new ≡ self.old }
    {
        if self.is_down() {
            return Err(JournalFault::Down);
        }
        let (rolled, tasks) = self.rolled()?;
        let kept = unspared(self.alloc, &scanned.named, tasks)?;
        self.agenda = kept;
        Ok(rolled)
    }
}
