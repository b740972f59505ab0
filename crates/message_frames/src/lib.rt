//! Messages as frames of a stream.
#![tactic(auto)]

mod frames;

pub use frames::{FrameError, frame_of, message_in};

#[cfg(test)]
mod tests;
