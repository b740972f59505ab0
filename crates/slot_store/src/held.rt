//! What a device of slots holds.
use held_value::Slots;
use row_value::Schema;
use stab_base::{RowId, Sequence, TableNo, Version, WriteNo};

/// The greatest number of a table. It is `tables_most` of the definitions.
pub const TABLE_MAX: u32 = 64;

/// The slots of a row of a table, and the number of the client's last write when they were put.
#[derive(Debug, Drop)]
pub struct RowSlots {
    pub table: TableNo,
    pub row: RowId,
    pub last: WriteNo,
    pub slots: Slots,
}

/// A table as a client keeps it: its state, 1 opened or 2 closed, its schema, and the version up to which all of its
/// changes were read.
#[derive(Debug, Drop)]
pub struct TableRecord {
    pub table: TableNo,
    pub state: u8,
    pub schema: Schema,
    pub position: Version,
}

/// A row of a table. These are ordered by table, then by row.
#[derive(Debug, Clone, Copy, PartialEq, Eq, PartialOrd, Ord)]
pub struct RowKey {
    pub table: TableNo,
    pub row: RowId,
}

/// Ids of rows.
pub type RowIds = Sequence<RowId>;

/// Keys of rows.
pub type RowKeys = Sequence<RowKey>;

/// Records of tables.
pub type TableRecords = Sequence<TableRecord>;
