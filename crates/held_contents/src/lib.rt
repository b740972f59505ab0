//! Contents at a client by their chunks: a content is read whole, and what holds a new one is made, over its chunks'
//! names and those that the row shows.
#![tactic(auto)]

mod copied;
mod holding;
mod laws;
mod reading;
mod request;

pub use client_tables::{BroughtChunks, ShownChunks};
pub use holding::{HeldNew, hold, hold_named};
pub use laws::{chunks_are_cuts, contents_are_spelled};
pub use reading::{read_chunks, read_whole};
pub use request::{cut_content, pieces_by_object, spell};
pub use step_tables::{ObjectNames, ObjectPieces};

#[cfg(test)]
mod tests;
