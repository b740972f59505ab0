//! The Stores with their tables, each on its three devices.
#![tactic(auto)]

mod host;
mod hosted;
mod joining;
mod store;
mod tables;

pub use host::StoreHost;
pub use hosted::TableOut;
pub use store_node::WholeRow;
