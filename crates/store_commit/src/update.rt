use row_value::PieceContent;
use stab_base::{Bytes, ClientNo, RowId, Sequence, Version, WriteNo};

/// A client's write to a row, which a Store is to take on.
#[derive(Debug, Drop)]
pub struct Update {
    pub row: RowId,
    pub client: ClientNo,
    pub number: WriteNo,
    /// The version that the write was made on.
    pub base: Version,
    /// The new content. Each of its pieces names a chunk of the row that stands, or is one of the new chunks.
    pub content: PieceContent,
    /// The new chunks by their ordinals.
    pub fresh: Sequence<Bytes>,
}
