//! What an event makes of the slots in which a client keeps a row: the slots behind it, what is told and what is sent.
#![tactic(auto)]

mod change;
mod drops;
mod header;
mod held;
mod laws;
mod names;
mod plan;
mod resolving;
mod response;
mod shown;
mod writes;

pub use change::{Change, Sending};
pub use drops::dropped;
pub use header::take_header;
pub use held::{HeldChunks, NewChunks, ShownChunks, held_against};
pub use laws::{open_writes_stay_shown, slots_stay_in_order, what_was_read_never_falls};
pub use plan::{
    BroughtChunks, RowPlan, plan_header, plan_resolve, plan_response, plan_send, plan_write,
    plan_write_strong, plans_name_known_chunks,
};
pub use resolving::{HeldChoice, resolve};
pub use response::{is_countable, take_response};
pub use shown::{ShownAs, shown_as, shown_content};
pub use writes::{can_send, send, write, write_strong};

#[cfg(test)]
mod tests;
