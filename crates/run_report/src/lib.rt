//! The line of JSON that tells of a run: how many lines its transcript has, and what became of each table.
#![tactic(auto)]

mod laws;
mod report;
mod table;
#[cfg(test)]
mod tests;

pub use laws::plain_names_stand_as_they_are;
pub use report::Report;
pub use table::TableReport;
