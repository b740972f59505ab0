use stab_base::{Bytes, ChunkName, Version};
use step_tables::Yours;

/// What a table has of a row now.
#[derive(Debug, Drop)]
pub struct RowView {
    /// The row's version, 0 where nothing was written to it.
    pub version: Version,
    /// The last write on the row of the client whose part it is.
    pub yours: Yours,
    /// The chunks of the row, each under its name.
    pub chunks: Vec<(Option<ChunkName>, Bytes)>,
}
