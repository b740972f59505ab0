//! What both ends need to gather a content of its parts: which chunks of it are held, how many haven't come, and the
//! content once each is there.
#![tactic(auto)]

mod contents;
mod counted;
mod held;

pub use assemblies::{Awaited, AwaitedChunks, Piece, PieceContent, PieceObject, Sent};
pub use contents::{has_held, joined, sized};
pub use counted::Counted;

#[cfg(test)]
mod tests;
