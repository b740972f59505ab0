use row_value::{Cell, Sequence, SharedBytes};

/// A value of a column: a cell, or an object whole.
#[derive(Debug, Drop, Clone)]
pub enum Value {
    Cell(Cell),
    Object(SharedBytes),
}

/// A column by its number, counted from 0 over all columns of the table, and its new value.
#[derive(Debug, Drop, Clone)]
pub struct ColumnValue {
    pub column: usize,
    pub value: Value,
}

/// New values of columns. Where a column stands more than once, its last value counts.
pub type Changes = Sequence<ColumnValue>;

/// Bytes that are put into the object of a column, from a place on, over those that were there and past its end.
#[derive(Debug, Drop, Clone)]
pub struct Patch {
    pub column: usize,
    pub at: u32,
    pub bytes: SharedBytes,
}

/// How a row is changed, given what is shown of it.
#[derive(Debug, Drop, Clone)]
pub enum Edit {
    /// These columns get new values, and the others stay.
    Update(Changes),
    /// Bytes stand in the object of a column.
    Patch(Patch),
    /// The row is deleted.
    Delete,
}
