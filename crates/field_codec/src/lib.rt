//! Fields of spellings, put together: numbers, ids, flags, options, bytes and lists, each read up to the first place at
//! which no spelling goes on.
#![tactic(auto)]

mod reader;
mod writer;

pub use reader::{take_bytes_of, take_ranged};
pub use writer::{put_eight, put_flag, put_four, put_id};
