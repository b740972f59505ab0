//! Messages and frames together, against bytes that were written down from their formats.
#![tactic(auto)]

#[cfg(test)]
mod tests;
#[cfg(test)]
mod vectors;
