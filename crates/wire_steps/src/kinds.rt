//! The events of which the world makes something beside what its nodes make of them.
ghost use Rattle.std.specs.Prelude.{◌≡◌};
ghost use Rattle.wire_steps.specs.Kinds.{kind_of, started};

use stab_base::{ClientNo, Node, TableNo};
use table_model::Event;

/// A delivery, a pull, with torn rows or without, or an event of the nodes alone.
#[derive(Debug, Clone, Copy, PartialEq, Eq)]
pub(crate) enum Kind {
    Deliver(u64),
    Pull(ClientNo, TableNo),
    Ask(ClientNo, TableNo),
    Other,
}

/// Which of them an event is.
pub(crate) fn kind_of(event: &Event) -> Kind
    ensures { result ≡ kind_of event.now }
{
    match event {
        Event::Deliver { packet } => Kind::Deliver(*packet),
        Event::Pull { client, table } => Kind::Pull(*client, *table),
        Event::Ask { client, table } => Kind::Ask(*client, *table),
        _ => Kind::Other,
    }
}

/// The node that is to be started.
pub(crate) fn started(event: &Event) -> Option<Node>
    ensures { result ≡ started event.now }
{
    match event {
        Event::Start { node } => Some(*node),
        _ => None,
    }
}
