use stab_base::{StoreNo, TableNo, Version};
use table_model::Entry;

/// What a table at the Store tells.
#[derive(Debug, Clone, Copy, PartialEq, Eq)]
pub enum StoreFact {
    /// A write is accepted: its row is on the device.
    Accepted { table: TableNo, entry: Entry },
    /// A start found that the row of a write at work is on the device.
    Forward { table: TableNo, entry: Entry },
    /// A start found that the row of the write of this version isn't.
    Back { table: TableNo, version: Version },
    /// The last write of a start is done.
    Recovered { store: StoreNo, table: TableNo },
    /// The table is live.
    Made { table: TableNo },
    /// The table is dropped.
    Unmade { table: TableNo },
    /// A client's subscription is kept, or that it has none.
    Saved { table: TableNo },
}
