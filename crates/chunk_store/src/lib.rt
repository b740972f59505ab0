//! A map of chunks on a disk.
#![tactic(auto)]

mod device;
mod fault;
mod fused;
mod index;
mod payload;

pub use device::ChunkDev;
pub use fault::ChunkFault;
pub use stab_base::{Bytes, ChunkName, NUMBER_MAX, Names};
