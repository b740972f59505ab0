//! A row's update over the three devices of its table: whole or not at all.
#![tactic(auto)]

mod bare;
mod devs;
mod fault;
mod fused;
mod hidden_laws;
mod laws;
mod plan;
mod reading;
mod recover;
mod recovery;
mod scan;
mod scanned;
mod taking;
mod task;
mod there;
mod update;

pub use devs::TableDevs;
pub use fault::CommitFault;
pub use hidden_laws::each_case_hides_its_row;
pub use laws::{
    recovery_keeps_named_chunks, rows_stay_whole, update_keeps_named_chunks, whole_rows_are_there,
};
pub use recovery::Recovery;
pub use update::Update;
