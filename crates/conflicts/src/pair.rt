use row_value::Content;
use stab_base::{RowId, Version, WriteNo};

/// A row in conflict: the client's write, by its number, and the Store's row at a version.
#[derive(Debug, Drop)]
pub struct Pair {
    pub row: RowId,
    pub number: WriteNo,
    pub version: Version,
    pub mine: Content,
    pub theirs: Content,
}

/// How a conflict is resolved.
#[derive(Debug, Drop)]
pub enum Choice {
    /// By the client's write, made again over the Store's row.
    Mine,
    /// By the Store's row.
    Theirs,
    /// By a new write of this content over the Store's row.
    New(Content),
}
