//! Tests of a client's three devices over disks in memory.
#![tactic(auto)]

#[cfg(test)]
mod calls;
#[cfg(test)]
mod disks;
#[cfg(test)]
mod hostile;
#[cfg(test)]
mod plans;
#[cfg(test)]
mod shown;
#[cfg(test)]
mod stopped;
