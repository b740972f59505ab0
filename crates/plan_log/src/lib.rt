//! A client's journal of plans, on a disk.
#![tactic(auto)]

mod change;
mod device;
mod fault;
mod fused;
mod laws;
mod memory;
mod plan;
mod reader;
mod writer;

pub use device::PlanLog;
pub use fault::PlanFault;
pub use laws::{journals_follow_their_payloads, plans_have_one_payload};
pub use plan::{Commit, Intend, RecordChange, RowChange};
pub use writer::commit_size;
