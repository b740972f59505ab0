//! What the types of a transcript's lines say of their values: numbers have 64 or 32 bits, and bytes are bytes. With
//! what the lines of a run are besides, each text is that of one line alone.
#![tactic(auto)]

mod laws;
mod lines;
mod values;

pub use laws::lines_have_texts;
pub use lines::know_line;
