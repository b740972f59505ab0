//! Whole messages of the step tables in parts, as messages that have a spelling as frames: a header, in which a content
//! is spelled by pieces, and a fragment for each chunk that travels.
#![tactic(auto)]

mod fragments;
mod parts;
mod rows;
mod spelled;
mod splits;

pub use parts::in_parts;
pub use splits::may_split;

#[cfg(test)]
mod tests;
