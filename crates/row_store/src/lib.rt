//! The rows of a table on a disk, with the table's schema and state, and its subscriptions.
#![tactic(auto)]

mod change;
mod device;
mod fault;
mod fused;
mod memory;
mod reader;
mod size;
mod stored;
mod writer;

pub use device::RowDev;
pub use fault::RowFault;
pub use reader::all_keep;
pub use row_value::{Piece, PieceContent, PieceObject, Schema};
pub use size::row_size;
pub use stab_base::{
    ClientNo, GateNo, NUMBER_MAX, RowId, RowVersion, Rows, Sequence, Version, WriteNo,
};
pub use stored::{LastWrite, LastWrites, RowIds, StoredRow, Sub, Subs};
