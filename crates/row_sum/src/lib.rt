//! What a client shows of a row, with its objects by their digests.
#![tactic(auto)]

mod sums;

pub use sums::{clean_sum, conflict_sum, mine_sum};

#[cfg(test)]
mod tests;
