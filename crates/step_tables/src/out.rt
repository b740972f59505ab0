ghost use Rattle.std.specs.Prelude.{◌≡◌, []};

use crate::message::Message;
use row_value::Sequence;
use std::alloc::Global;
use table_model::{Facts, Node};

/// A message and who it goes to: None stands for the owner of its table.
pub type Addressed = (Option<Node>, Message);

/// What a node has to send and to tell, in order.
#[derive(Debug, Drop)]
pub struct Out {
    pub messages: Sequence<Addressed>,
    pub facts: Facts,
}

impl Out {
    /// Nothing to send and nothing to tell.
    pub fn new(alloc: Global) -> Out
        ensures { result ≡ record { messages = []; facts = [] } }
    {
        Out {
            messages: Sequence::new(alloc),
            facts: Sequence::new(alloc),
        }
    }
}
