//! What is kept of one Store.
use table_model::Tables;

/// One of the Stores.
#[derive(Drop)]
pub(crate) struct StoreState {
    /// The numbers of its tables, rising.
    pub(crate) tables: Tables,
    /// A crash or a disk took it down.
    pub(crate) is_down: bool,
    /// It keeps a table whose declaration failed.
    pub(crate) is_late: bool,
}
