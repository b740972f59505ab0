//! Rows that are in conflict, and who resolves them.
#![tactic(auto)]

mod pair;
mod resolver;
mod stored;

pub use pair::{Choice, Pair};
pub use resolver::Resolver;
pub use stored::{Stored, StoredResolver};

#[cfg(test)]
mod tests;
