//! What a script asks, what a transcript tells, what parties send to each other, and what lines say of the writes of
//! clients and of the histories of tables.
#![tactic(auto)]

mod allowed;
mod entry;
mod event;
mod line;
mod message;
mod message_name;
mod sum;
mod table_state;

pub use allowed::entry_allowed;
pub use entry::{Entry, History, current};
pub use event::{Event, NetEvent, SubTerms, Tables};
pub use line::{
    Answer, ClientFact, Fact, Facts, Refusal, RowPair, RowPairs, Shown, TextLine, Write,
};
pub use message::{
    CreateTable, DropTable, Message, Notify, ObjectFragment, OperationResponse, Outcome,
    PullRequest, PullResponse, RegisterDevice, RestoreClientSubscriptions, RowHeader,
    SaveClientSubscription, SubscribeTable, SyncRequest, SyncResponse, TableSubscription,
    TableSubscriptions, TableVersionUpdateNotification, TornRowRequest, TornRowResponse,
    UnsubscribeTable, Yours,
};
pub use message_name::MessageName;
pub use stab_base::Node;
pub use sum::{ObjectSum, ObjectSums, RowSum, ShownSum};
pub use table_state::TableState;
