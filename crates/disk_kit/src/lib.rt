//! Disks in memory, and a depot of them.
#![tactic(auto)]

mod depot;
mod edits;
mod memory;

pub use depot::MemDepot;
pub use memory::MemDisk;

#[cfg(test)]
mod tests;
