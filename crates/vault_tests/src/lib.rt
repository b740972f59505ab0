//! Tests of a vault over disks in memory.
#![tactic(auto)]

#[cfg(test)]
mod tests;
