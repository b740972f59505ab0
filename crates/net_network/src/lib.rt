//! The network between parties where some clients have gateways: every message that was ever sent. Most are parts that
//! the network between clients and Stores keeps as frames; a part goes through a gateway twice, and is kept once.
#![tactic(auto)]

mod network;
mod packet;
mod tokens;
mod widths;

pub use network::Network;
pub use packet::Way;
pub use tokens::{is_part, stamp, token_in};
pub use widths::know_frame;

#[cfg(test)]
mod tests;
