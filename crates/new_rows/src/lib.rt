//! Updates of rows of one object, each chunk of which is new, for whoever tests or measures a table's devices.
#![tactic(auto)]

mod start;
mod table;
mod update;
mod work;

pub use start::start_again;
pub use table::put_table;
pub use update::CHUNKS_MAX;
pub use work::{begin, work_all, work_some};
