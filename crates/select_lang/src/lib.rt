//! Predicates on the rows of a table: the words that spell them, and which rows meet them.
#![tactic(auto)]

mod fault;
mod level;
mod meeting;
mod predicate;
mod reader;
mod selection;
mod words;

pub use fault::SelectFault;
pub use meeting::holds;
pub use predicate::{Comparison, Predicate};
pub use selection::{Words, apart, one_place, one_reading, parse};

#[cfg(test)]
mod tests;
