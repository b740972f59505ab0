//! The write that a Store has at work, on a disk.
#![tactic(auto)]

mod device;
mod entry;
mod fault;
mod fused;
mod memory;
mod names;
mod payload;

pub use device::StatusLog;
pub use entry::LogEntry;
pub use fault::LogFault;
pub use stab_base::{ChunkName, ClientNo, NUMBER_MAX, RowId, Version, WriteNo};
