//! The events of which the world makes something beside what the wire makes of them.
ghost use Rattle.std.specs.Prelude.{◌≡◌};
ghost use Rattle.net_steps.specs.Kinds.{kind_of};

use stab_base::{ClientNo, GateNo, Node, TableNo};
use table_model::Event;

/// What is done to a gateway.
#[derive(Debug, Clone, Copy, PartialEq, Eq)]
pub(crate) enum Deed {
    /// It is held, or no longer.
    Hold,
    Work,
    WorkAll,
    Crash,
    Start,
}

#[derive(Debug, Clone, Copy, PartialEq, Eq)]
pub(crate) enum Kind {
    /// A Store, a gateway or a table is declared.
    Declare,
    /// A client is declared.
    Join,
    Deliver(u64),
    Link(ClientNo, bool),
    /// A client is started.
    Wake(ClientNo),
    /// A client asks for a table to be made.
    Create(ClientNo, TableNo),
    /// A client asks for a table to be dropped.
    Drop(ClientNo, TableNo),
    /// What is asked of a node that asks for nothing.
    Aside,
    Gate(GateNo, Deed),
    /// Any other event.
    Other,
}

/// Which of them an event is.
pub(crate) fn kind_of(event: &Event) -> Kind
    ensures { result ≡ kind_of event.now }
{
    match event {
        Event::Store { .. } | Event::Gate { .. } | Event::Table { .. } | Event::Draft { .. } =>
            Kind::Declare,
        Event::Client { .. } => Kind::Join,
        Event::Deliver { packet } => Kind::Deliver(*packet),
        Event::Link { client, up } => Kind::Link(*client, *up),
        Event::Start {
            node: Node::Client(client),
        } => Kind::Wake(*client),
        Event::Create {
            node: Node::Client(client),
            table,
        } => Kind::Create(*client, *table),
        Event::Drop {
            node: Node::Client(client),
            table,
        } => Kind::Drop(*client, *table),
        Event::Create { .. } | Event::Drop { .. } => Kind::Aside,
        Event::Hold {
            node: Node::Gate(gate),
        }
        | Event::Free {
            node: Node::Gate(gate),
        } => Kind::Gate(*gate, Deed::Hold),
        Event::Work {
            node: Node::Gate(gate),
        } => Kind::Gate(*gate, Deed::Work),
        Event::WorkAll {
            node: Node::Gate(gate),
        } => Kind::Gate(*gate, Deed::WorkAll),
        Event::Crash {
            node: Node::Gate(gate),
            ..
        } => Kind::Gate(*gate, Deed::Crash),
        Event::Start {
            node: Node::Gate(gate),
        } => Kind::Gate(*gate, Deed::Start),
        _ => Kind::Other,
    }
}
