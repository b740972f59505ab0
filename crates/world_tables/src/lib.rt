//! The world of all nodes and of the network: what an event makes of it, the lines that it writes, and what every
//! transcript keeps.
#![tactic(auto)]
