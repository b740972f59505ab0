//! Tests of a journal of plans over disks in memory.
#![tactic(auto)]

#[cfg(test)]
mod disks;
#[cfg(test)]
mod found;
#[cfg(test)]
mod stopped;
