//! A list of payloads on a disk. Each is there wholly or not at all, whenever a crash comes.
#![tactic(auto)]

mod fault;
mod fold;
mod folded;
mod folded_fused;
mod fused;
mod laws;
mod record;
mod scan;
mod start;
mod steps;
mod vault;

pub use fault::VaultFault;
pub use fold::Fold;
pub use folded::Folded;
pub use laws::what_files_stand_for;
pub use record::PAYLOAD_MAX;
pub use vault::Vault;
