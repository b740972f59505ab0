//! The words of a script's line: their forms, and the values and columns that they spell.
#![tactic(auto)]

mod code;
mod forms;
mod kinds;
mod values;

pub use code::{Code, ValueFault};
pub use forms::{is_length, is_name, is_number, sides_of, words};
pub use kinds::column_of;
pub use values::{Value, bytes_at, value_at};

#[cfg(test)]
mod tests;
