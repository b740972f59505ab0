//! The world as its packets are parts of messages: which whole message each part completes, and what that makes of the
//! nodes.
#![tactic(auto)]
