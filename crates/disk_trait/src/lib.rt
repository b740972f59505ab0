//! A disk as a store sees it: what a read gives, and what a crash may leave.
#![tactic(auto)]

mod depot;
mod disk;
mod durable;
mod fuse;

pub use depot::{Depot, DepotFault};
pub use disk::{Disk, DiskFault, RoomFault};
pub use durable::{cut_durably, write_durably};
pub use fuse::{FuseDisk, FuseSetting};
