//! The network between parties: every packet that was ever sent, as the frame of a part of a message.
#![tactic(auto)]

mod fault;
mod network;
mod packet;
mod sending;

pub use fault::NetworkFault;
pub use network::{MOST_BYTES, Network};

#[cfg(test)]
mod tests;
