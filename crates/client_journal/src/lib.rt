//! A client's plan over its three devices: whole or not at all.
#![tactic(auto)]

mod devs;
mod fault;
mod fused;
mod hidden_laws;
mod laws;
mod made;
mod names;
mod numbering;
mod plan;
mod reading;
mod recover;
mod rolled;
mod scan;
mod scanned;
mod shown;
mod spare;
mod taking;
mod task;
mod there;

pub use devs::Journal;
pub use fault::JournalFault;
pub use hidden_laws::{each_case_hides_its_row, named_slots_are_there};
pub use laws::{applied_twice_is_once, plans_are_whole, redoing_is_whole};
pub use plan::Plan;
pub use rolled::{Redone, Rolled};
pub use scanned::Scanned;
