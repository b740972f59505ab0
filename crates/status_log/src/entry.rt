use stab_base::{ChunkName, ClientNo, RowId, Version, WriteNo};

/// A write that a Store has taken on: what it needs to finish it, or to take it back.
#[derive(Debug, Drop)]
pub struct LogEntry {
    /// The version that the write gets.
    pub version: Version,
    pub row: RowId,
    pub client: ClientNo,
    pub number: WriteNo,
    /// The version that the write was made on.
    pub base: Version,
    /// How many new chunks the write brings.
    pub fresh: u32,
    /// The old chunks that the new row doesn't name.
    pub old: Vec<ChunkName>,
}
