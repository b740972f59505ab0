use row_value::{Cells, Sequence, Version, WriteNo};

/// An object by its length in bytes and its SHA-256 (FIPS 180-4).
#[derive(Debug, Clone, Copy)]
pub struct ObjectSum {
    pub len: usize,
    pub sha256: [u8; 32],
}

/// The objects of a row by their digests, in the order of the columns.
pub type ObjectSums = Sequence<ObjectSum>;

/// What a row holds that has objects: its cells, and its objects by their digests.
#[derive(Debug, Drop)]
pub struct RowSum {
    pub cells: Cells,
    pub objects: ObjectSums,
}

/// What a client shows of a row that has objects, each by its digest.
#[derive(Debug, Drop)]
pub enum ShownSum {
    /// The row as the Store had it at this version.
    Clean {
        version: Version,
        row: RowSum,
    },
    /// The client's own write of this number, which the Store isn't known to have accepted.
    Mine {
        number: WriteNo,
        row: RowSum,
    },
    /// The client's own write of this number, which is in conflict with the Store's row at this version.
    Conflict {
        number: WriteNo,
        version: Version,
        row: RowSum,
    },
}
