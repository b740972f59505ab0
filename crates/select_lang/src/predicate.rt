use row_value::Cell;

/// How a cell is compared with a value.
#[derive(Debug, Clone, Copy, PartialEq, Eq)]
pub enum Comparison {
    Equal,
    NotEqual,
    Less,
    LessOrEqual,
    Greater,
    GreaterOrEqual,
}

/// What a row may meet.
#[derive(Debug, Drop)]
pub enum Predicate {
    /// It meets one of these.
    Any(Vec<Predicate>),
    /// It meets each of these.
    All(Vec<Predicate>),
    /// It doesn't meet this one.
    Not(Box<Predicate>),
    /// Its cell in this column, counted from 0, compares so with a value.
    Test {
        column: u32,
        comparison: Comparison,
        value: Cell,
    },
}
