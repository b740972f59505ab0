use crate::numbers::Version;
use crate::row::RowId;
use crate::sequence::Sequence;

/// A row, and its version. These are ordered by version, then by row.
#[derive(Debug, Clone, Copy, PartialEq, Eq, PartialOrd, Ord)]
pub struct RowVersion {
    pub version: Version,
    pub row: RowId,
}

/// Rows with their versions, by rising version.
pub type Rows = Sequence<RowVersion>;
