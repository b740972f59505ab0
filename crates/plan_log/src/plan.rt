//! What a client does to its devices as one.
use held_value::{LocalNames, Slots, Tells};
use row_value::Schema;
use stab_base::{RowId, TableNo, Version, WriteNo};

/// A plan is about to bring chunks of a row.
#[derive(Debug, Clone, Copy, PartialEq, Eq)]
pub struct Intend {
    /// The number of the plan, from 1.
    pub plan: u64,
    pub table: TableNo,
    pub row: RowId,
    /// Whether the chunks come from the Store.
    pub server: bool,
    /// How many chunks the plan brings.
    pub chunks: u32,
}

/// The new slots of a row.
#[derive(Debug, Drop)]
pub struct RowChange {
    pub row: RowId,
    pub slots: Slots,
}

/// The new record of a table.
#[derive(Debug, Drop)]
pub struct RecordChange {
    /// 1 opened, 2 closed.
    pub state: u8,
    pub schema: Schema,
}

/// What a plan changes.
#[derive(Debug, Drop)]
pub struct Commit {
    /// The number of the plan, from 1.
    pub plan: u64,
    /// The number of the client's last write, 0 where there is none.
    pub last: WriteNo,
    pub table: TableNo,
    pub row: Option<RowChange>,
    /// The new version up to which the table's changes were read.
    pub position: Option<Version>,
    pub new_record: Option<RecordChange>,
    /// The chunks that no slot names any more.
    pub drops: LocalNames,
    pub tells: Tells,
}
