//! Objects in chunks: how an object is cut and joined again, and which chunks of a new object the old one has in their
//! place.
#![tactic(auto)]

mod against;
mod cutting;
mod laws;
mod sized;

pub use against::{NamedChunks, pieces_against};
pub use cutting::{Chunks, cut, join};
pub use laws::{chunks_are_counted, chunks_have_their_lengths, one_cut, one_list_of_pieces};
pub use row_value::{Piece, Pieces};
pub use sized::{count_of, fits_by_len, len_at};
pub use stab_base::ChunkName;

#[cfg(test)]
mod tests;
