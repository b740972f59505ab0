//! The text of transcripts: each line as text, and that a text is that of one line alone.
#![tactic(auto)]

mod forms;
mod print;

pub use forms::{one_form, one_transcript, stop_apart};
pub use print::{ESCAPED, line_text, stop_text};

#[cfg(test)]
mod tests;
