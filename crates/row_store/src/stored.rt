//! What a device of rows holds.
use row_value::PieceContent;
use stab_base::{ClientNo, GateNo, RowId, Sequence, Version, WriteNo};

/// The last write of a client to a row that a Store has taken: its number, and the version that it got.
#[derive(Debug, Clone, Copy, PartialEq, Eq)]
pub struct LastWrite {
    pub client: ClientNo,
    pub number: WriteNo,
    pub version: Version,
}

/// Ids of rows, in rising order.
pub type RowIds = Sequence<RowId>;

/// The last writes of a row, by rising client.
pub type LastWrites = Sequence<LastWrite>;

/// A row as a Store keeps it. Each piece of its objects names a chunk.
#[derive(Debug, Drop)]
pub struct StoredRow {
    pub row: RowId,
    pub version: Version,
    pub content: PieceContent,
    pub pairs: LastWrites,
}

/// On which terms a client has subscribed to a table: the gateway by which it did, and a period and a tolerance in
/// ticks.
#[derive(Debug, Clone, Copy, PartialEq, Eq)]
pub struct Terms {
    pub(crate) gate: GateNo,
    pub(crate) period: u32,
    pub(crate) tolerance: u32,
}

/// A client's subscription, or that it has none.
#[derive(Debug, Clone, Copy, PartialEq, Eq)]
pub struct SubChange {
    pub(crate) client: ClientNo,
    pub(crate) terms: Option<Terms>,
}

/// A subscription: the client, the gateway by which it subscribed, and a period and a tolerance in ticks.
#[derive(Debug, Clone, Copy, PartialEq, Eq)]
pub struct Sub {
    pub client: ClientNo,
    pub gate: GateNo,
    pub period: u32,
    pub tolerance: u32,
}

/// Subscriptions, by rising client.
pub type Subs = Sequence<Sub>;
