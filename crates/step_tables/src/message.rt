ghost use Rattle.std.specs.Prelude.{◌≡◌};
ghost use Rattle.step_tables.specs.Messages.{table_of};
ghost use Rattle.step_tables.specs.Names.{name_of};
ghost use Rattle.step_tables.specs.Travels.{message_of};

use row_value::{ClientNo, Content, Pieces, RowId, Sequence, TableNo, Version, WriteNo};
use stab_base::Names;
use table_model::MessageName;

/// The pieces that spell the chunks of each object of a row.
pub type ObjectPieces = Sequence<Pieces>;

/// The Store's names of the chunks of each object of a row.
pub type ObjectNames = Sequence<Names>;

/// A client asks for the next change of a table above its position.
#[derive(Debug, Drop)]
pub struct PullRequest {
    pub client: ClientNo,
    /// 0 of a wired client.
    pub token: u64,
    pub table: TableNo,
    pub position: Version,
}

/// A client's last accepted write on a row: its number, and the version that it was accepted at. Both are 0 where
/// there is none.
#[derive(Debug, Clone, Copy, PartialEq, Eq)]
pub struct Yours {
    pub number: WriteNo,
    pub version: Version,
}

/// A row as the Store has it, for one client.
#[derive(Debug, Drop)]
pub struct RowHeader {
    pub row: RowId,
    pub version: Version,
    /// The client's last accepted write on the row, up to this version.
    pub yours: Yours,
    pub content: Content,
    pub names: ObjectNames,
}

/// The Store's answer to a `PullRequest`: the row whose current version is the least above the position asked for, if
/// there is one.
#[derive(Debug, Drop)]
pub struct PullResponse {
    pub client: ClientNo,
    pub table: TableNo,
    /// The position asked for.
    pub from: Version,
    /// The row's version, or the position asked for where there is no row.
    pub to: Version,
    /// The last version of the table.
    pub latest: Version,
    pub header: Option<RowHeader>,
}

/// A client asks for a row whole, since it couldn't put it together from an answer to a pull.
#[derive(Debug, Drop)]
pub struct TornRowRequest {
    pub client: ClientNo,
    /// 0 of a wired client.
    pub token: u64,
    pub table: TableNo,
    pub row: RowId,
}

/// The Store's answer to a `TornRowRequest`: the row as it is now, if anything was written to it.
#[derive(Debug, Drop)]
pub struct TornRowResponse {
    pub client: ClientNo,
    pub table: TableNo,
    pub row: RowId,
    pub header: Option<RowHeader>,
}

/// A client asks the Store to accept a write.
#[derive(Debug, Drop)]
pub struct SyncRequest {
    pub client: ClientNo,
    /// 0 of a wired client.
    pub token: u64,
    pub table: TableNo,
    pub row: RowId,
    /// The write's number among the client's writes.
    pub number: WriteNo,
    /// The version that the write rests on, 0 where it rests on none.
    pub base: Version,
    pub content: Content,
    /// The new chunks are numbered from 0 in their order, and no name is kept twice.
    pub pieces: ObjectPieces,
}

/// What the Store made of a `SyncRequest`.
#[derive(Debug, Clone, Copy, PartialEq, Eq)]
pub enum Outcome {
    /// The write is accepted at this version.
    Accepted { version: Version },
    /// The write was accepted before, at this version.
    Again { version: Version },
    /// A later write of the client on the row was accepted before, of this number.
    Late { last: WriteNo },
    /// Refused, in a strong table: the row's version, `latest`, is no longer the one that the write rests on.
    Stale { latest: Version },
    /// In conflict, in a causal table: the row's version, `latest`, is no longer the one that the write rests on.
    Conflict { latest: Version },
    /// A chunk that the request keeps isn't one of the row's.
    NeedWhole,
}

/// The Store's answer to a `SyncRequest`.
#[derive(Debug, Clone, Copy, PartialEq, Eq)]
pub struct SyncResponse {
    pub client: ClientNo,
    pub table: TableNo,
    pub row: RowId,
    /// The number of the write that was to be accepted.
    pub number: WriteNo,
    pub outcome: Outcome,
}

/// What travels between two parties.
#[derive(Debug, Drop)]
pub enum Message {
    PullRequest(PullRequest),
    PullResponse(PullResponse),
    SyncRequest(SyncRequest),
    SyncResponse(SyncResponse),
    TornRowRequest(TornRowRequest),
    TornRowResponse(TornRowResponse),
}

impl Message {
    /// The table that the message is about.
    pub fn table(&self) -> TableNo
        ensures { result ≡ table_of (message_of self.now) }
    {
        match self {
            Message::PullRequest(pull) => pull.table,
            Message::PullResponse(pulled) => pulled.table,
            Message::SyncRequest(request) => request.table,
            Message::SyncResponse(response) => response.table,
            Message::TornRowRequest(torn) => torn.table,
            Message::TornRowResponse(answer) => answer.table,
        }
    }

    /// The name of the message's kind.
    pub fn name(&self) -> MessageName
        ensures { result ≡ name_of self.now }
    {
        match self {
            Message::PullRequest(_) => MessageName::PullRequest,
            Message::PullResponse(_) => MessageName::PullResponse,
            Message::SyncRequest(_) => MessageName::SyncRequest,
            Message::SyncResponse(_) => MessageName::SyncResponse,
            Message::TornRowRequest(_) => MessageName::TornRowRequest,
            Message::TornRowResponse(_) => MessageName::TornRowResponse,
        }
    }
}
