use held_value::{LocalNames, Tells};
use plan_log::{RecordChange, RowChange};
use stab_base::{Bytes, Sequence, TableNo, Version, WriteNo};

/// What a client is to do to its devices as one.
#[derive(Debug, Drop)]
pub struct Plan {
    /// Whether the chunks come from the Store.
    pub server: bool,
    pub table: TableNo,
    /// The number of the client's last write, 0 where there is none.
    pub last: WriteNo,
    /// The new slots of a row. In them a local name of plan 0 stands for the brought chunk of that ordinal.
    pub row: Option<RowChange>,
    /// The new version up to which the table's changes were read.
    pub position: Option<Version>,
    pub new_record: Option<RecordChange>,
    /// The chunks that the plan brings, by their ordinals.
    pub brought: Sequence<Bytes>,
    /// The chunks that no slot of the row names any more.
    pub drops: LocalNames,
    pub tells: Tells,
}
