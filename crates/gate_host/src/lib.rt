//! All gateways of a world, with the directory that its declared Stores and tables give.
#![tactic(auto)]

mod gates;
mod one;
mod placing;

pub use gates::Gates;

#[cfg(test)]
mod tests;
