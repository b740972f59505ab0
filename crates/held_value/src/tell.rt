use stab_base::{Sequence, Version, WriteNo};

/// What a change of a row's slots tells.
#[derive(Debug, Clone, Copy, PartialEq, Eq)]
pub enum Tell {
    /// A write was made over the version that had been read.
    Wrote { number: WriteNo, read: Version },
    /// A write was accepted at this version.
    Acked { number: WriteNo, version: Version },
    /// A write of a strong table was refused; the row's version is `latest`.
    Refused { number: WriteNo, latest: Version },
    /// A write is in conflict with the row at this version.
    Conflict { number: WriteNo, version: Version },
    /// A conflict with the row at this version was resolved.
    Resolved { number: WriteNo, version: Version },
    /// The row was read at this version.
    New { version: Version },
    /// All changes of the table up to this version were read.
    Position { position: Version },
    /// The table was opened.
    Opened,
    /// The table was dropped.
    Dropped,
}

/// What a plan tells, in order.
pub type Tells = Sequence<Tell>;
