//! What an edit makes of a row: new values of some columns, bytes put into an object, or nothing left.
#![tactic(auto)]

mod change;
mod edit;

pub use change::{Changes, ColumnValue, Edit, Patch, Value};
pub use edit::{EditFault, edited};

#[cfg(test)]
mod tests;
