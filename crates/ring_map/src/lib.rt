//! Which Store keeps a table, by their places on a ring.
#![tactic(auto)]

mod laws;
mod position;
mod ring;

pub use laws::{a_table_has_one_owner, an_owner_is_computed, joins_and_leaves_move_few_tables};
pub use ring::Ring;

#[cfg(test)]
mod tests;
