//! Numbers, byte strings, row ids and parties that every crate of the service speaks of, and how numbers and bytes are
//! spelled.
#![tactic(auto)]

mod bytes;
mod chunk_name;
mod codec;
mod limits;
mod names;
mod node;
mod numbers;
mod row;
mod row_version;
mod sequence;
mod shared;
mod step;

pub use bytes::Bytes;
pub use chunk_name::ChunkName;
pub use codec::{
    TakeFault, counted_bytes_are_read_again, number_is_read_again, put_bytes, put_u8, put_u32,
    put_u64, take_bytes, take_u8, take_u32, take_u64, what_is_read_was_spelled_so,
};
pub use limits::NUMBER_MAX;
pub use names::Names;
pub use node::Node;
pub use numbers::{ClientNo, GateNo, StoreNo, TableNo, Version, WriteNo};
pub use row::RowId;
pub use row_version::{RowVersion, Rows};
pub use sequence::Sequence;
pub use shared::SharedBytes;
pub use step::Step;
