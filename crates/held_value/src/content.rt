ghost use Rattle.std.specs.Prelude.{◌≡◌, IfOk};

use crate::local_name::LocalName;
use row_value::Cells;
use stab_base::{ChunkName, Sequence};
use std::alloc::AllocError;

/// A chunk that a client holds, and the name that the Store is known to have it under.
#[derive(Debug, Clone, Copy, PartialEq, Eq)]
pub struct HeldPiece {
    pub local: LocalName,
    pub name: Option<ChunkName>,
}

/// The chunks of an object in order.
pub type HeldPieces = Sequence<HeldPiece>;

/// An object by the chunks that hold it, and its length in bytes.
#[derive(Debug, Drop, Clone)]
pub struct HeldObject {
    pub len: u32,
    pub pieces: HeldPieces,
}

/// The objects of a row, in the order of the columns.
pub type HeldObjects = Sequence<HeldObject>;

/// What a row holds, its objects by the chunks that hold them: nothing, since it was deleted, or cells and objects.
#[derive(Debug, Drop, Clone)]
pub enum HeldContent {
    /// The row is deleted.
    Gone,
    /// The row's cells and objects.
    Row { cells: Cells, objects: HeldObjects },
}

impl HeldContent {
    /// A copy.
    pub fn copy(&self) -> Result<Self, AllocError>
        ensures { IfOk result (λ made. made ≡ self.now) }
    {
        self.clone()
    }
}
