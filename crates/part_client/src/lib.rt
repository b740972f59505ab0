//! What a client keeps in memory of what comes in parts: the answers to its pulls that wait for fragments, the rows
//! that it asked for whole, and which rows are torn. What parts complete are whole messages.
#![tactic(auto)]

mod arriving;
mod asking;
mod gathered;
mod headers;
mod held;
mod pulls;
mod rows;
mod table;
mod taken;

pub use arriving::{Arriving, may_gather};
pub use held::RowHeld;
pub use taken::{Asks, Taken};

#[cfg(test)]
mod tests;
