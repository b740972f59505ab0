//! Who had a table made or dropped.

use stab_base::{ClientNo, Node};

/// The client that asked, and the node that its answer goes to: the client itself, or its gateway.
#[derive(Debug, Clone, Copy, PartialEq, Eq)]
pub(crate) struct Asker {
    pub(crate) client: ClientNo,
    pub(crate) to: Node,
}
