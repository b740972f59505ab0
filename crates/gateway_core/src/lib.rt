//! The gateway: clients register at it, it passes their messages on to the Stores, and tells them of changes.
#![tactic(auto)]

mod directory;
mod gate_fault;
mod gateway;
mod out;
mod running;
mod session;
mod sessions;
mod site;

pub use directory::{Directory, NamedTable};
pub use gate_fault::GateFault;
pub use gateway::Gateway;
pub use out::{Out, Sent};

#[cfg(test)]
mod tests;
