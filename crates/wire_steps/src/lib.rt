//! The world: the Store's tables and the clients on their disks, and the network between them, whose packets are parts
//! of messages.
#![tactic(auto)]

mod answering;
mod close;
mod deliver;
mod kinds;
mod links;
mod memory;
mod parts;
mod pull;
mod reading;
mod sending;
mod start;
mod views;
mod world;

pub use node_steps::{Lines, WorldFault};
pub use reading::Read;
pub use world::World;
