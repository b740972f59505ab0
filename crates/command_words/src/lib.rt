//! The words behind the program's name: which command they are.
#![tactic(auto)]

mod command;
mod fault;
mod number;
mod program;

pub use command::{Command, command_of};
pub use fault::{USAGE, WordsFault};

#[cfg(test)]
mod tests;
