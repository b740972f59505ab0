//! A client's event whole: its move, and the work that follows.
#![tactic(auto)]

mod events;
mod follow;
mod resolving;

pub use events::{call, close, conflicts, deliver, open, pull, start};
pub use resolving::resolve_all;
