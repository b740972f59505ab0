ghost use Rattle.std.specs.Prelude.{◌≡◌, IfOk};
ghost use Rattle.table_model.specs.MessageNames.{name_of};

use crate::message_name::MessageName;
use row_value::{PieceContent, Schema};
use stab_base::{Bytes, ClientNo, GateNo, RowId, Sequence, TableNo, Version, WriteNo};
use std::alloc::AllocError;

/// A client asks its gateway for a session.
#[derive(Debug, Clone, Copy, PartialEq, Eq)]
pub struct RegisterDevice {
    pub client: ClientNo,
}

/// A client asks that a table be made. The token of a wired client is 0, here and in every other message.
#[derive(Debug, Drop)]
pub struct CreateTable {
    pub client: ClientNo,
    pub token: u64,
    pub table: TableNo,
    pub schema: Schema,
}

impl CreateTable {
    /// A copy.
    pub fn copy(&self) -> Result<Self, AllocError>
        ensures { IfOk result (λ made. made ≡ self.now) }
    {
        Ok(CreateTable {
            client: self.client,
            token: self.token,
            table: self.table,
            schema: self.schema.copy()?,
        })
    }
}

/// A client asks that a table be dropped.
#[derive(Debug, Clone, Copy, PartialEq, Eq)]
pub struct DropTable {
    pub client: ClientNo,
    pub token: u64,
    pub table: TableNo,
}

/// A client asks to be notified of changes of a table.
#[derive(Debug, Clone, Copy, PartialEq, Eq)]
pub struct SubscribeTable {
    pub client: ClientNo,
    pub token: u64,
    pub table: TableNo,
    /// In ticks, from 1.
    pub period: u32,
    /// In ticks.
    pub tolerance: u32,
}

/// A client asks to be notified no more.
#[derive(Debug, Clone, Copy, PartialEq, Eq)]
pub struct UnsubscribeTable {
    pub client: ClientNo,
    pub token: u64,
    pub table: TableNo,
}

/// A gateway tells a client of tables that have changed.
#[derive(Debug, Clone, Copy, PartialEq, Eq)]
pub struct Notify {
    pub client: ClientNo,
    /// Bit T - 1 stands for table T.
    pub bitmap: u64,
}

/// A chunk of a row that is on its way.
#[derive(Debug, Drop)]
pub struct ObjectFragment {
    pub client: ClientNo,
    /// 0 on the way down.
    pub token: u64,
    pub table: TableNo,
    pub row: RowId,
    /// Whether it goes to the client.
    pub down: bool,
    /// The write's number on the way up, the row's version on the way down.
    pub key: u64,
    /// The number of the column in the schema, from 0.
    pub column: u32,
    /// The number of the chunk in its object, from 0.
    pub place: u32,
    /// From 1 to 65,536 bytes.
    pub bytes: Bytes,
}

impl ObjectFragment {
    /// A copy.
    pub fn copy(&self) -> Result<Self, AllocError>
        ensures { IfOk result (λ made. made ≡ self.now) }
    {
        Ok(ObjectFragment {
            client: self.client,
            token: self.token,
            table: self.table,
            row: self.row,
            down: self.down,
            key: self.key,
            column: self.column,
            place: self.place,
            bytes: self.bytes.clone()?,
        })
    }
}

/// A client asks for the next change of a table above its position.
#[derive(Debug, Clone, Copy, PartialEq, Eq)]
pub struct PullRequest {
    pub client: ClientNo,
    pub token: u64,
    pub table: TableNo,
    pub position: Version,
}

/// A client's last accepted write on a row: its number, and the version that it was accepted at. Both are 0 where
/// there is none.
#[derive(Debug, Clone, Copy, PartialEq, Eq)]
pub struct Yours {
    pub number: WriteNo,
    pub version: Version,
}

/// A row as the Store has it, for one client. The pieces of its objects are all kept ones.
#[derive(Debug, Drop)]
pub struct RowHeader {
    pub row: RowId,
    pub version: Version,
    /// The client's last accepted write on the row, up to this version.
    pub yours: Yours,
    pub content: PieceContent,
}

impl RowHeader {
    /// A copy.
    pub fn copy(&self) -> Result<Self, AllocError>
        ensures { IfOk result (λ made. made ≡ self.now) }
    {
        Ok(RowHeader {
            row: self.row,
            version: self.version,
            yours: self.yours,
            content: self.content.copy()?,
        })
    }
}

fn copy_header(header: &Option<RowHeader>) -> Result<Option<RowHeader>, AllocError>
    ensures { IfOk result (λ made. made ≡ header.now) }
{
    match header {
        None => Ok(None),
        Some(header) => Ok(Some(header.copy()?)),
    }
}

fn copy_schema(schema: &Option<Schema>) -> Result<Option<Schema>, AllocError>
    ensures { IfOk result (λ made. made ≡ schema.now) }
{
    match schema {
        None => Ok(None),
        Some(schema) => Ok(Some(schema.copy()?)),
    }
}

/// The Store's answer to a `PullRequest`.
#[derive(Debug, Drop)]
pub struct PullResponse {
    pub client: ClientNo,
    pub table: TableNo,
    /// The position asked for.
    pub from: Version,
    /// The row's version, or the position asked for where there is no row.
    pub to: Version,
    /// The last version of the table.
    pub latest: Version,
    pub header: Option<RowHeader>,
}

impl PullResponse {
    /// A copy.
    pub fn copy(&self) -> Result<Self, AllocError>
        ensures { IfOk result (λ made. made ≡ self.now) }
    {
        Ok(PullResponse {
            client: self.client,
            table: self.table,
            from: self.from,
            to: self.to,
            latest: self.latest,
            header: copy_header(&self.header)?,
        })
    }
}

/// A client asks the Store to accept a write.
#[derive(Debug, Drop)]
pub struct SyncRequest {
    pub client: ClientNo,
    pub token: u64,
    pub table: TableNo,
    pub row: RowId,
    /// The write's number among the client's writes.
    pub number: WriteNo,
    /// The version that the write rests on, 0 where it rests on none.
    pub base: Version,
    pub content: PieceContent,
}

impl SyncRequest {
    /// A copy.
    pub fn copy(&self) -> Result<Self, AllocError>
        ensures { IfOk result (λ made. made ≡ self.now) }
    {
        Ok(SyncRequest {
            client: self.client,
            token: self.token,
            table: self.table,
            row: self.row,
            number: self.number,
            base: self.base,
            content: self.content.copy()?,
        })
    }
}

/// What the Store made of a `SyncRequest`.
#[derive(Debug, Clone, Copy, PartialEq, Eq)]
pub enum Outcome {
    /// The write is accepted at this version.
    Accepted { version: Version },
    /// The write was accepted before, at this version.
    Again { version: Version },
    /// A later write of the client on the row was accepted before, of this number.
    Late { last: WriteNo },
    /// The write rests on another version than the row's, which is this one, in a strong table.
    Stale { latest: Version },
    /// The write rests on another version than the row's, which is this one, in a causal table.
    Conflict { latest: Version },
    /// The Store no longer has a chunk that the write keeps: the row is to be sent whole.
    NeedWhole,
}

/// The Store's answer to a `SyncRequest`.
#[derive(Debug, Clone, Copy, PartialEq, Eq)]
pub struct SyncResponse {
    pub client: ClientNo,
    pub table: TableNo,
    pub row: RowId,
    /// The number of the write that was to be accepted.
    pub number: WriteNo,
    pub outcome: Outcome,
}

/// A client asks for a row of which it has a part.
#[derive(Debug, Clone, Copy, PartialEq, Eq)]
pub struct TornRowRequest {
    pub client: ClientNo,
    pub token: u64,
    pub table: TableNo,
    pub row: RowId,
}

/// The Store's answer to a `TornRowRequest`.
#[derive(Debug, Drop)]
pub struct TornRowResponse {
    pub client: ClientNo,
    pub table: TableNo,
    pub row: RowId,
    pub header: Option<RowHeader>,
}

impl TornRowResponse {
    /// A copy.
    pub fn copy(&self) -> Result<Self, AllocError>
        ensures { IfOk result (λ made. made ≡ self.now) }
    {
        Ok(TornRowResponse {
            client: self.client,
            table: self.table,
            row: self.row,
            header: copy_header(&self.header)?,
        })
    }
}

/// The answer to a message of another kind.
#[derive(Debug, Drop)]
pub struct OperationResponse {
    pub client: ClientNo,
    /// 0 in the answer to a `RegisterDevice`.
    pub table: TableNo,
    /// The number of the kind that is answered.
    pub answered: u8,
    /// 0 where it is done, else the number of the refusal.
    pub status: u32,
    pub token: u64,
    /// In the answers to a `CreateTable` and a `SubscribeTable` that are done, and nowhere else.
    pub schema: Option<Schema>,
}

impl OperationResponse {
    /// A copy.
    pub fn copy(&self) -> Result<Self, AllocError>
        ensures { IfOk result (λ made. made ≡ self.now) }
    {
        Ok(OperationResponse {
            client: self.client,
            table: self.table,
            answered: self.answered,
            status: self.status,
            token: self.token,
            schema: copy_schema(&self.schema)?,
        })
    }
}

/// A gateway asks a Store to keep a client's subscription, or to forget it.
#[derive(Debug, Clone, Copy, PartialEq, Eq)]
pub struct SaveClientSubscription {
    pub client: ClientNo,
    pub gate: GateNo,
    pub table: TableNo,
    pub on: bool,
    /// In ticks, from 1 where the subscription is to be kept.
    pub period: u32,
    pub tolerance: u32,
}

/// One subscription of a client.
#[derive(Debug, Clone, Copy, PartialEq, Eq)]
pub struct TableSubscription {
    pub table: TableNo,
    pub period: u32,
    pub tolerance: u32,
}

/// Subscriptions of a client.
pub type TableSubscriptions = Sequence<TableSubscription>;

/// A gateway asks a Store for a client's subscriptions, and is answered.
#[derive(Debug, Drop)]
pub struct RestoreClientSubscriptions {
    pub client: ClientNo,
    pub gate: GateNo,
    /// Whether this is the Store's answer.
    pub reply: bool,
    /// None in the question.
    pub subscriptions: TableSubscriptions,
}

impl RestoreClientSubscriptions {
    /// A copy.
    pub fn copy(&self) -> Result<Self, AllocError>
        ensures { IfOk result (λ made. made ≡ self.now) }
    {
        Ok(RestoreClientSubscriptions {
            client: self.client,
            gate: self.gate,
            reply: self.reply,
            subscriptions: self.subscriptions.clone()?,
        })
    }
}

/// A Store tells a gateway of a table's last version.
#[derive(Debug, Clone, Copy, PartialEq, Eq)]
pub struct TableVersionUpdateNotification {
    pub gate: GateNo,
    pub table: TableNo,
    pub version: Version,
}

/// What travels between two parties.
#[derive(Debug, Drop)]
pub enum Message {
    RegisterDevice(RegisterDevice),
    CreateTable(CreateTable),
    DropTable(DropTable),
    SubscribeTable(SubscribeTable),
    UnsubscribeTable(UnsubscribeTable),
    Notify(Notify),
    ObjectFragment(ObjectFragment),
    PullRequest(PullRequest),
    PullResponse(PullResponse),
    SyncRequest(SyncRequest),
    SyncResponse(SyncResponse),
    TornRowRequest(TornRowRequest),
    TornRowResponse(TornRowResponse),
    OperationResponse(OperationResponse),
    SaveClientSubscription(SaveClientSubscription),
    RestoreClientSubscriptions(RestoreClientSubscriptions),
    TableVersionUpdateNotification(TableVersionUpdateNotification),
}

impl Message {
    /// A copy.
    pub fn copy(&self) -> Result<Self, AllocError>
        ensures { IfOk result (λ made. made ≡ self.now) }
    {
        match self {
            Message::RegisterDevice(m) => Ok(Message::RegisterDevice(*m)),
            Message::CreateTable(m) => Ok(Message::CreateTable(m.copy()?)),
            Message::DropTable(m) => Ok(Message::DropTable(*m)),
            Message::SubscribeTable(m) => Ok(Message::SubscribeTable(*m)),
            Message::UnsubscribeTable(m) => Ok(Message::UnsubscribeTable(*m)),
            Message::Notify(m) => Ok(Message::Notify(*m)),
            Message::ObjectFragment(m) => Ok(Message::ObjectFragment(m.copy()?)),
            Message::PullRequest(m) => Ok(Message::PullRequest(*m)),
            Message::PullResponse(m) => Ok(Message::PullResponse(m.copy()?)),
            Message::SyncRequest(m) => Ok(Message::SyncRequest(m.copy()?)),
            Message::SyncResponse(m) => Ok(Message::SyncResponse(*m)),
            Message::TornRowRequest(m) => Ok(Message::TornRowRequest(*m)),
            Message::TornRowResponse(m) => Ok(Message::TornRowResponse(m.copy()?)),
            Message::OperationResponse(m) => Ok(Message::OperationResponse(m.copy()?)),
            Message::SaveClientSubscription(m) => Ok(Message::SaveClientSubscription(*m)),
            Message::RestoreClientSubscriptions(m) => Ok(Message::RestoreClientSubscriptions(
                m.copy()?,
            )),
            Message::TableVersionUpdateNotification(m) => Ok(
                Message::TableVersionUpdateNotification(*m),
            ),
        }
    }

    /// The name of the message's kind.
    pub fn name(&self) -> MessageName
        ensures { result ≡ name_of self.now }
    {
        match self {
            Message::RegisterDevice(_) => MessageName::RegisterDevice,
            Message::CreateTable(_) => MessageName::CreateTable,
            Message::DropTable(_) => MessageName::DropTable,
            Message::SubscribeTable(_) => MessageName::SubscribeTable,
            Message::UnsubscribeTable(_) => MessageName::UnsubscribeTable,
            Message::Notify(_) => MessageName::Notify,
            Message::ObjectFragment(_) => MessageName::ObjectFragment,
            Message::PullRequest(_) => MessageName::PullRequest,
            Message::PullResponse(_) => MessageName::PullResponse,
            Message::SyncRequest(_) => MessageName::SyncRequest,
            Message::SyncResponse(_) => MessageName::SyncResponse,
            Message::TornRowRequest(_) => MessageName::TornRowRequest,
            Message::TornRowResponse(_) => MessageName::TornRowResponse,
            Message::OperationResponse(_) => MessageName::OperationResponse,
            Message::SaveClientSubscription(_) => MessageName::SaveClientSubscription,
            Message::RestoreClientSubscriptions(_) => MessageName::RestoreClientSubscriptions,
            Message::TableVersionUpdateNotification(_) => {
                MessageName::TableVersionUpdateNotification
            }
        }
    }
}
