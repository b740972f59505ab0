//! Rows from the Store whose chunks a client holds already: these keep their local names, so that no bytes are written
//! for them.
#![tactic(auto)]

mod held;
mod holding;
mod keeping;
mod pieces;
mod renaming;

pub use holding::hold_kept;

#[cfg(test)]
mod tests;
