//! What each event makes of a node's state, as functions of plain values: which state it leaves, which messages it
//! sends and which facts it tells. The nodes are proved to do this, and the laws are proved of it.
#![tactic(auto)]

mod message;
mod out;

pub use message::{
    Message, ObjectNames, ObjectPieces, Outcome, PullRequest, PullResponse, RowHeader, SyncRequest,
    SyncResponse, TornRowRequest, TornRowResponse, Yours,
};
pub use out::{Addressed, Out};
