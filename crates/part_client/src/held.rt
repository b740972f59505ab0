//! What a client holds of a row under the Store's names.
use stab_base::{Bytes, ChunkName, Version};

/// What a client holds of a row of an opened table under the Store's names.
#[derive(Debug, Drop)]
pub struct RowHeld {
    /// The table's position.
    pub position: Version,
    /// The size of the table's chunks, from 1.
    pub chunk: u32,
    /// The version of the row that the client has read, 0 where it has read none.
    pub read: Version,
    /// The chunks of the row as it last came, then of the one that is in conflict, each with its name.
    pub held: Vec<(Option<ChunkName>, Bytes)>,
}
