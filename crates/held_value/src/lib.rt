//! What a client keeps of a row on its devices: contents whose chunks are held under names of the client's own, the
//! four slots, and what a change of them tells.
#![tactic(auto)]

mod content;
mod local_name;
mod slots;
mod tell;

pub use content::{HeldContent, HeldObject, HeldObjects, HeldPiece, HeldPieces};
pub use local_name::{LocalName, LocalNames};
pub use slots::{Main, Out, Shadow, Slots, copy_main, copy_out, copy_shadow};
pub use tell::{Tell, Tells};
