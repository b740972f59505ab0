use held_value::Tells;
use stab_base::{RowId, TableNo};

/// A plan that was committed and isn't done.
#[derive(Debug, Drop)]
pub struct Redone {
    pub table: TableNo,
    /// The row whose slots it changes.
    pub row: Option<RowId>,
    pub tells: Tells,
}

/// What a start makes of the plan that was at work.
#[derive(Debug, Drop)]
pub struct Rolled {
    /// It was committed: it is redone.
    pub redone: Option<Redone>,
    /// It was bringing chunks of this row from the Store: they are dropped.
    pub torn: Option<(TableNo, RowId)>,
}
