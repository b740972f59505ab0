//! The laws of what is written and sent: each content is a row of its table, and each request is its client's own.
//!
//! A law says what holds of each client of the step table, or of each world; its function does nothing.
#![tactic(auto)]

ghost use Rattle.fair_laws.specs.Fair.{ClientsStayFair, MoreIsKnown, NewClientsAreFair};
ghost use Rattle.fair_laws.specs.Worlds.{ReachedAreFair};

/// Whatever is done to a client whose contents fit their tables, its contents fit behind it, and behind each of its
/// writes; and each request that it sends is its own, with a content that is a row of its table. A table that it opens
/// is opened with its own schema.
pub fn clients_stay_fair()
    ensures { ClientsStayFair }
{}

/// What fits where some schemas are known fits where more are.
pub fn more_is_known()
    ensures { MoreIsKnown }
{}

/// What a client that joins has fits the tables that it opens.
pub fn new_clients_are_fair()
    ensures { NewClientsAreFair }
{}

/// In every world that a script leads to, each row of a table and each one that is sent is a row of that table and has
/// a version, each request is its client's own, and each message is of one of the clients.
pub fn reached_worlds_are_fair()
    ensures { ReachedAreFair }
{}
