ghost use Rattle.std.specs.Prelude.{◌≡◌, IfOk};

use stab_base::{Bytes, Sequence, SharedBytes};
use std::alloc::{AllocError, Global};

/// One cell of a row.
#[derive(Debug, Drop, Clone)]
pub enum Cell {
    /// A number.
    Int(i64),
    /// True or false.
    Bool(bool),
    /// Text in UTF-8.
    Text(Bytes),
}

/// The cells of a row, in the order of the columns.
pub type Cells = Sequence<Cell>;

/// The objects of a row, in the order of the columns; each is a whole string of bytes, which copies of the row
/// share.
pub type Objects = Sequence<SharedBytes>;

/// What a row holds, whole: nothing, since it was deleted, or cells and objects.
#[derive(Debug, Drop, Clone)]
pub enum Content {
    /// The row is deleted.
    Gone,
    /// The row's cells and objects.
    Row { cells: Cells, objects: Objects },
}

impl Content {
    /// A copy.
    pub fn copy(&self) -> Result<Self, AllocError>
        ensures { IfOk result (λ made. made ≡ self.now) }
    {
        self.clone()
    }
}
