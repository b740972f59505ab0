//! How local names, held contents, slots and tells are spelled on a client's devices: what is put is the spelling, and
//! a reader answers a value exactly where the bytes are its spelling.
#![tactic(auto)]

mod laws;
mod reader;
mod taken;
mod writer;

pub use laws::{held_values_are_read_again, held_values_were_spelled_so};
pub use reader::{take_local, take_locals, take_slots, take_tells};
pub use writer::{put_local, put_locals, put_slots, put_tells};

#[cfg(test)]
mod tests;
