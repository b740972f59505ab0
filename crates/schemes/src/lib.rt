//! What the Store decides about a write that a client asks for.
#![tactic(auto)]

mod decision;
mod laws;

pub use decision::{Decision, decide};
pub use laws::{accepted_writes_are_new, accepted_writes_rest_on_current, repeats_are_told};

#[cfg(test)]
mod tests;
