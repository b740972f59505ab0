use crate::side_put::SidePut;
use stab_base::{Node, StoreNo};
use table_model::Entry;

/// What the writes that are to be done tell and send.
#[derive(Debug, Clone, Copy, PartialEq, Eq)]
pub(crate) enum Owed {
    Nothing,
    /// A client's write is accepted, and answered to the party that it came from.
    Update { to: Node, entry: Entry },
    /// The table has recovered at this Store, which started it.
    Start { store: StoreNo },
    /// This stands beside the rows.
    Place { put: SidePut },
}
