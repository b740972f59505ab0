//! A table at the Store on its three devices.
#![tactic(auto)]

mod beside;
mod devices;
mod due;
mod fault;
mod finding;
mod gathered;
mod gathering;
mod live;
mod messages;
mod node;
mod owed;
mod pulling;
mod reading;
mod showing;
mod side_put;
mod taking;
mod told;
mod update;

pub use fault::NodeFault;
pub use messages::table_of;
pub use node::{StoreOut, TableNode};
pub use row_store::{Sub, Subs};
pub use showing::{ShownRow, WholeRow};
pub use side_put::SidePut;
pub use told::StoreFact;
