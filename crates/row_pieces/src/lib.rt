//! What spells and names the chunks of a row's objects: whether the pieces of a request are those of its content, and
//! the names of a row those of its chunks.
#![tactic(auto)]

mod apart;
mod counts;
mod flat;
mod naming;
mod spelling;

pub use naming::is_named;
pub use spelling::is_spelled;
pub use step_tables::{ObjectNames, ObjectPieces};

#[cfg(test)]
mod tests;
