ghost use Rattle.std.specs.Prelude.{◌≡◌, IfOk};

use crate::content::Cells;
use stab_base::{ChunkName, Sequence};
use std::alloc::{AllocError, Global};

/// What stands for one chunk of an object.
#[derive(Debug, Clone, Copy, PartialEq, Eq)]
pub enum Piece {
    /// A chunk that the Store has under this name.
    Keep(ChunkName),
    /// A new chunk, by its number among the new chunks of its content, from 0.
    Fresh(u32),
}

/// The pieces of an object in order.
pub type Pieces = Sequence<Piece>;

/// An object by its pieces, and its length in bytes.
#[derive(Debug, Drop, Clone)]
pub struct PieceObject {
    pub len: u32,
    pub pieces: Pieces,
}

/// The objects of a row, in the order of the columns.
pub type PieceObjects = Sequence<PieceObject>;

/// What a row holds, its objects by their pieces: nothing, since it was deleted, or cells and objects.
#[derive(Debug, Drop, Clone)]
pub enum PieceContent {
    /// The row is deleted.
    Gone,
    /// The row's cells and objects.
    Row { cells: Cells, objects: PieceObjects },
}

impl PieceContent {
    /// A copy.
    pub fn copy(&self) -> Result<Self, AllocError>
        ensures { IfOk result (λ made. made ≡ self.now) }
    {
        self.clone()
    }
}
