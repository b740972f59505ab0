//! Contents in parts: which chunks of a content travel by themselves, and how they are gathered in any order, lost or
//! repeated.
#![tactic(auto)]

mod assembly;
mod awaiting;
mod laws;
mod sent;

pub use assembly::Assembly;
pub use awaiting::{Awaited, AwaitedChunks, awaited_of, has_places, is_complete};
pub use chunker::Chunks;
pub use laws::{
    chunks_of_fragments_are_the_parts, chunks_stand_at_their_places, fragments_of_one_content_mix,
    parts_have_their_lengths, parts_make_the_whole, whole_once_each_has_come,
};
pub use row_value::{Piece, PieceContent, PieceObject};
pub use sent::Sent;

#[cfg(test)]
mod tests;
