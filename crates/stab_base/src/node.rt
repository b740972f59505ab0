use crate::numbers::{ClientNo, GateNo, StoreNo};

/// A party of the service that sends and takes messages.
#[derive(Debug, Clone, Copy, PartialEq, Eq)]
pub enum Node {
    Client(ClientNo),
    Gate(GateNo),
    Store(StoreNo),
}
