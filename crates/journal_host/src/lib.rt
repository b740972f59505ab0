//! The clients of a world, each on its three devices.
#![tactic(auto)]

mod asking;
mod fault;
mod holding;
mod host;
mod hosted;
mod laws;
mod opening;
mod out;

pub use asking::Ask;
pub use fault::ClientFault;
pub use host::ClientHost;
pub use laws::{calls_are_followed, messages_are_followed, starts_are_followed};
pub use out::ClientOut;
