//! Bytes from a source, bytes into a sink, and the lines of a source.
#![tactic(auto)]

mod adapters;
mod laws;
mod limits;
mod line_fault;
mod lines;
mod memory;
mod piece;
mod sink;
mod source;

pub use adapters::{ReaderSource, TRIES_AGAIN, WriterSink};
pub use laws::lines_of_next;
pub use limits::{INPUT_LIMIT, LINE_LIMIT, Limits};
pub use line_fault::LineFault;
pub use lines::LineReader;
pub use memory::{GIVEN_AT_ONCE, MemSink, MemSource};
pub use sink::Sink;
pub use source::{Failed, Source};

#[cfg(test)]
mod tests;
