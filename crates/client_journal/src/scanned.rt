//! What a scan of the slots has found.
ghost use Rattle.std.specs.Prelude.{◌≡◌, []};
ghost use Rattle.std.specs.BTreeSet.{keys};

use slot_store::RowKey;
use stab_base::ChunkName;
use std::alloc::Global;
use std::collections::BTreeSet;

/// What a start takes as not there, and the chunks that the rest names.
#[derive(Drop)]
pub struct Scanned {
    /// The rows whose slots are taken as not there.
    pub(crate) hidden: BTreeSet<RowKey>,
    /// The names in the slots of the other rows, as those of chunks.
    pub(crate) named: BTreeSet<ChunkName>,
}

impl Scanned {
    /// No row is hidden, and no chunk is named.
    pub fn nothing(alloc: Global) -> Scanned
        ensures hidden { keys result.hidden ≡ [] }
        ensures named { keys result.named ≡ [] }
    {
        Scanned {
            hidden: BTreeSet::new(alloc),
            named: BTreeSet::new(alloc),
        }
    }
}
