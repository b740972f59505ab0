//! The nodes of a world: the tables of Stores and the clients on their disks. What they send is handed over.
#![tactic(auto)]

mod altering;
mod asking;
mod calls;
mod carrying;
mod client_moves;
mod close;
mod declare;
mod fault;
mod holds;
mod moves;
mod node_moves;
mod nodes;
mod reading;
mod shows;
mod told;
mod world;

pub use fault::WorldFault;
pub use told::{Lines, Outs, Read, Told};
pub use world::World;
