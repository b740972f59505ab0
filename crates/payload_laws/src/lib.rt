//! What the payloads of a Store's devices say: each row, table, subscription, entry and chunk has one payload, which is
//! read as it was put, and nothing else is read as one.
#![tactic(auto)]

mod laws;

pub use laws::{chunks_have_one_payload, entries_have_one_payload, rows_have_one_payload};
