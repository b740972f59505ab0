//! How values, rows and schemas are spelled in files and messages: what is put is the spelling, and a reader answers a
//! value exactly where the bytes are its spelling.
#![tactic(auto)]

mod cell_reader;
mod cell_writer;
mod content_reader;
mod content_writer;
mod field_reader;
mod laws;
mod piece_reader;
mod piece_writer;
mod schema_reader;
mod schema_writer;
mod spell_fault;
mod utf8;
mod writer;

pub use cell_reader::take_cell;
pub use cell_writer::put_cell;
pub use content_reader::{content_of, take_content, take_kept_content};
pub use content_writer::put_content;
pub use field_reader::{skip_exactly, take_byte, take_eight, take_flag, take_four, take_id};
pub use laws::{
    cells_are_counted_as_spelled, faults_are_the_first_bad_places, one_spelling,
    values_are_read_again, values_were_spelled_so,
};
pub use piece_reader::{take_name, take_piece};
pub use piece_writer::{put_name, put_piece};
pub use schema_reader::{schema_of, take_schema};
pub use schema_writer::put_schema;
pub use spell_fault::SpellFault;

#[cfg(test)]
mod tests;
