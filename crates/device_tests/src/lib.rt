//! Tests of the devices over disks in memory.
#![tactic(auto)]

#[cfg(test)]
mod chunks;
#[cfg(test)]
mod commits;
#[cfg(test)]
mod disks;
#[cfg(test)]
mod hostile;
#[cfg(test)]
mod logs;
#[cfg(test)]
mod rows;
#[cfg(test)]
mod slots;
#[cfg(test)]
mod tables;
#[cfg(test)]
mod updates;
