//! What each event makes of a gateway, as functions of plain values: which sessions and timers it leaves, and which
//! messages it sends. A gateway is proved to do this, and the laws are proved of it.
#![tactic(auto)]

mod asking;
mod laws;
mod timer;

pub use asking::{asked_of, client_of};
pub use laws::{
    a_crash_keeps_starts_alone, a_marked_timer_waits_no_longer, a_token_is_drawn_once,
    nobody_passes_without_a_session, tokens_have_a_limit, what_passes_is_unchanged,
};
pub use timer::{Asked, Placed, Timer, Wish, bit};
