use stab_base::RowId;
use step_tables::Message;

/// What a part comes to.
#[derive(Debug, Drop)]
pub enum Taken {
    /// It makes this whole message.
    Whole(Message),
    /// It keeps a chunk of this row that isn't held: the row is torn.
    Tears(RowId),
    /// It is kept until more has come, or dropped.
    Waits,
}

/// What a pull of a table tells as torn, and what it asks for whole, each by rising row.
#[derive(Debug, Drop)]
pub struct Asks {
    pub tears: Vec<RowId>,
    pub asks: Vec<RowId>,
}
