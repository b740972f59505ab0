use conflicts::{Choice, Stored};
use row_edits::Edit;
use row_value::{ClientNo, Content, GateNo, RowId, Schema, Sequence, StoreNo, TableNo, Version};
use stab_base::Node;

/// The tables that a client opens, in the order in which it names them.
pub type Tables = Sequence<TableNo>;

/// The gateway by which a client subscribed, and how often it is told, in ticks.
#[derive(Debug, Clone, Copy, PartialEq, Eq)]
pub struct SubTerms {
    pub gate: GateNo,
    pub period: u32,
    pub tolerance: u32,
}

/// An event that only a world with gateways knows.
#[derive(Debug, Clone, Copy, PartialEq, Eq)]
pub enum NetEvent {
    /// The client asks to be told of changes of a table: after how many ticks, and how many more it may take.
    Subscribe {
        client: ClientNo,
        table: TableNo,
        period: u32,
        tolerance: u32,
    },
    /// The client asks to be told of changes of a table no more.
    Unsubscribe {
        client: ClientNo,
        table: TableNo,
    },
    /// From now on the client sends what it wrote in a table after so many ticks, or never by itself where the period
    /// is 0.
    WriteSync {
        client: ClientNo,
        table: TableNo,
        period: u32,
        tolerance: u32,
    },
    /// Time passes by one tick, at each gateway and each client.
    Tick,
}

/// One line of a script. The first five are declarations.
#[derive(Debug, Drop)]
pub enum Event {
    /// There is a Store of this number.
    Store {
        store: StoreNo,
    },
    /// There is a gateway of this number.
    Gate {
        gate: GateNo,
    },
    /// There is a live table.
    Table {
        table: TableNo,
        schema: Schema,
    },
    /// There is a table that isn't live yet.
    Draft {
        table: TableNo,
        schema: Schema,
    },
    /// There is a client, by a gateway or wired to the Stores, which opens these tables.
    Client {
        client: ClientNo,
        gate: Option<GateNo>,
        tables: Tables,
    },
    /// The client writes a row whole.
    Write {
        client: ClientNo,
        table: TableNo,
        row: RowId,
        content: Content,
    },
    /// The client writes what an edit makes of the content that it shows of a row.
    Edit {
        client: ClientNo,
        table: TableNo,
        row: RowId,
        edit: Edit,
    },
    /// The client's link goes up or down.
    Link {
        client: ClientNo,
        up: bool,
    },
    /// A client asks the table's Store to make a table that isn't live yet. In the worlds that know no such message the
    /// node itself makes it: a Store makes it live, a client opens it.
    Create {
        node: Node,
        table: TableNo,
    },
    /// A client asks the table's Store to drop a live table. In the worlds that know no such message the node itself
    /// drops it: a Store keeps it for no client any more, a client closes it for good.
    Drop {
        node: Node,
        table: TableNo,
    },
    /// The table's Store keeps a client's subscription, or that it has none. Only the worlds that know no message which
    /// says so have it.
    Save {
        store: StoreNo,
        table: TableNo,
        client: ClientNo,
        terms: Option<SubTerms>,
    },
    /// The client asks for the next change of a table, whatever rows of it are torn. Only the worlds that know no
    /// message which makes it do so have it.
    Ask {
        client: ClientNo,
        table: TableNo,
    },
    /// What only a world with gateways knows.
    Net(NetEvent),
    /// The client shows a row.
    Show {
        client: ClientNo,
        table: TableNo,
        row: RowId,
    },
    /// The client shows a row, each object by its digest.
    Sum {
        client: ClientNo,
        table: TableNo,
        row: RowId,
    },
    /// The client sends the writes of a table that wait to be sent.
    Sync {
        client: ClientNo,
        table: TableNo,
    },
    /// The client asks for the next change of a table.
    Pull {
        client: ClientNo,
        table: TableNo,
    },
    /// From now on the client resolves the conflicts of a table, and writes none of its rows.
    BeginCr {
        client: ClientNo,
        table: TableNo,
    },
    /// The client lists the conflicts of a table that it resolves.
    Conflicts {
        client: ClientNo,
        table: TableNo,
    },
    /// The client has resolved the conflicts of a table, as far as it does.
    EndCr {
        client: ClientNo,
        table: TableNo,
    },
    /// The client resolves the conflict of a row with the version that it has seen.
    Resolve {
        client: ClientNo,
        table: TableNo,
        row: RowId,
        seen: Version,
        choice: Choice,
    },
    /// The client resolves each conflict of a table in one way.
    ResolveAll {
        client: ClientNo,
        table: TableNo,
        by: Stored,
    },
    /// The network delivers a packet, counted from 0 over all that were ever sent.
    Deliver {
        packet: u64,
    },
    /// The Store shows a row.
    StoreShow {
        table: TableNo,
        row: RowId,
    },
    /// The history of a table.
    History {
        table: TableNo,
    },
    /// The names of the chunks that a table's Store keeps for it.
    Chunks {
        table: TableNo,
    },
    /// From now on the node does its device writes only one by one, or all at once, when a line says so.
    Hold {
        node: Node,
    },
    /// From now on the node does its device writes by itself.
    Free {
        node: Node,
    },
    /// The node does its next device write.
    Work {
        node: Node,
    },
    /// The node does all its device writes.
    WorkAll {
        node: Node,
    },
    /// The node stops inside its next device write: so many of the calls of its disk pass, at most 4, and of what the
    /// next one writes so many bytes land.
    Crash {
        node: Node,
        calls: u32,
        pick: u64,
    },
    /// A node that is down is started.
    Start {
        node: Node,
    },
}
