/// Whether a table is there for clients.
#[derive(Debug, Clone, Copy, PartialEq, Eq)]
pub enum TableState {
    /// Not yet: a client may make it.
    Draft,
    /// Clients write it and pull it.
    Live,
    /// No more: a client has dropped it. What was written stays at its Store.
    Dropped,
}
