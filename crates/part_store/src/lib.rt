//! What a table at the Store keeps of requests that come in parts, until they are complete.
#![tactic(auto)]

mod gatherings;
mod view;
mod waiting;
mod weighing;

pub use gatherings::{Gatherings, Taken, may_gather};
pub use stab_base::{Bytes, ChunkName, Version};
pub use step_tables::Yours;
pub use table_model::Message;
pub use view::RowView;

#[cfg(test)]
mod tests;
