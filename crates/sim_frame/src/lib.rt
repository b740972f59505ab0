//! Frames on a stream of bytes: which of them are whole, in whatever pieces the stream comes.
#![tactic(auto)]

mod frame;
mod framer;
mod laws;
mod opening;
mod part;
mod whole;

pub use frame::{FRAME_MAX, Frame, FrameFault, frame_bytes};
pub use framer::Framer;
pub use laws::{
    a_bad_length_stays, frames_do_not_depend_on_pieces, one_reading, the_empty_stream_is_open,
};

#[cfg(test)]
mod tests;
