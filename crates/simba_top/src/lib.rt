//! The program as one call: from the bytes of a script to the bytes of its transcript, or of its report.
#![tactic(auto)]

mod laws;
mod output;
mod quiet;
mod report;
mod row_names;
mod run;
mod stop;
mod turn;

pub use laws::{limits_are_as_defined, one_end, one_script};
pub use output::Output;
pub use row_names::MOST_ROWS;
pub use run::{MOST_LINES, run_simba};
