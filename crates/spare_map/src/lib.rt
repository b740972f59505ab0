//! An ordered map whose changes take no memory that wasn't made before.
#![tactic(auto)]

mod map;

pub use map::SpareMap;
