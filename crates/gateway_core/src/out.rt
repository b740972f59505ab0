use stab_base::{Node, Sequence};
use table_model::Message;

/// A message, and whom it goes to.
pub type Sent = (Node, Message);

/// What a gateway has gathered.
#[derive(Debug, Drop)]
pub struct Out {
    /// In the order in which they were sent.
    pub messages: Sequence<Sent>,
}
