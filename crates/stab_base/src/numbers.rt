/// The number of a client, from 1.
pub type ClientNo = u32;

/// The number of a table, from 1.
pub type TableNo = u32;

/// The number of a Store, from 1.
pub type StoreNo = u32;

/// The number of a gateway, from 1.
pub type GateNo = u32;

/// The version of a row's write: its place in its table's history, from 1.
pub type Version = u64;

/// The number of a write among the writes of one client, from 1.
pub type WriteNo = u64;
