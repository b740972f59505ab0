//! A large valid script that is made from a number, group by group, while it is run.
//!
//! A number x begins as the number that is given. A draw sets it to `x * 6364136223846793005 + 1442695040888963407`
//! modulo 2^64, and gives the new x without its lower 33 bits; `pick(k)` is a draw modulo k. The script's lines are:
//!
//! 1. `store S1`, `store S2`, `table T1 a strong 64 n:int o:object`, `table T2 b causal 64 n:int o:object`,
//!    `table T3 bar eventual 64 n:int o:object`, and `client C - T1,T2,T3` for the clients `C1` to `C64`.
//! 2. 4,000 rounds. Each draws, in this order, a client (1 + `pick(64)`), a table (1 + `pick(3)`), a row
//!    (1 + `pick(32)`, as the last twelve hex digits of its id behind `00000000-0000-4000-8000-`) and what it does
//!    (`pick(10)`):
//!    - 0 to 3: a `write` of the row by the client, with the values `pick(1000)` and `r:LENGTH:BYTE`, of which the
//!      length is `pick(513)` and the byte `pick(256)` in two hex digits, drawn in this order.
//!    - 4, 5, 6: a `sync` or a `pull` of the table, a `delete` of the row.
//!    - 7: `deliver` of packet `pick(sent)`; a `pull` where nothing was sent, and then nothing is drawn for it.
//!    - 8: the client is held, writes as above, crashes (`crash` with `pick(5)` and `pick(2)`, drawn behind the
//!      values), starts, does one step and is free again: six lines.
//!    - 9: a Store is drawn (1 + `pick(2)`). It goes the same way with a `deliver` as at 7; a `sync` of the table
//!      where nothing was sent.
//! 3. `settle`.
//!
//! `sent` is how many packets have been sent before the round. So the script depends on its run, which therefore asks
//! for one group of lines after the other: the declarations, each round, the end.
#![tactic(auto)]

mod draws;
mod groups;
mod laws;
mod lines;
mod load;
mod rounds;

pub use laws::{groups_are_the_script, lines_are_short_and_few};
pub use load::{Load, Stage};

#[cfg(test)]
mod tests;
