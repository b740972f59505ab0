//! What stands beside the rows of a table.
use stab_base::ClientNo;
use table_model::{SubTerms, TableState};

/// What stands beside the rows of a table.
#[derive(Debug, Clone, Copy, PartialEq, Eq)]
pub enum SidePut {
    /// The table's state.
    State(TableState),
    /// A client's subscription, or that it has none.
    Sub {
        client: ClientNo,
        terms: Option<SubTerms>,
    },
}
