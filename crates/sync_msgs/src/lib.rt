//! How messages are spelled in the bodies of frames.
#![tactic(auto)]

mod codec;
mod field_reader;
mod kinds;
mod laws;
mod message_writer;
mod notices_reader;
mod part_reader;
mod part_writer;
mod pulls_reader;
mod rows_reader;
mod tables_reader;

pub use codec::{MessageFault, decode, encode};
pub use kinds::{kind_code, name_of_kind};
pub use laws::{one_kind, one_message};
