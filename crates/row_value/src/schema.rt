ghost use Rattle.std.specs.Prelude.{◌≡◌, IfOk};

use stab_base::{Bytes, Sequence};
use std::alloc::{AllocError, Global};

/// What a column holds: a cell of one of three kinds, or an object.
#[derive(Clone, Copy, Debug, PartialEq, Eq)]
pub enum ColumnKind {
    /// A number of 64 bits with a sign.
    Int,
    /// True or false.
    Bool,
    /// Text in UTF-8.
    Text,
    /// Bytes of any length.
    Object,
}

/// A column: its name and what it holds.
#[derive(Debug, Drop, Clone)]
pub struct Column {
    pub name: Bytes,
    pub kind: ColumnKind,
}

/// The columns of a table in order, cell columns before object columns.
pub type Columns = Sequence<Column>;

/// How a table keeps its rows consistent.
#[derive(Clone, Copy, Debug, PartialEq, Eq)]
pub enum Scheme {
    /// Writes to a row are serializable, and none is local before the Store answers.
    Strong,
    /// A write conflicts where its client hasn't read the row's latest version.
    Causal,
    /// The last write wins.
    Eventual,
}

/// A table: its name, its scheme, the size in bytes of its objects' chunks, and its columns.
#[derive(Debug, Drop, Clone)]
pub struct Schema {
    pub name: Bytes,
    pub scheme: Scheme,
    pub chunk: u32,
    pub columns: Columns,
}

impl Schema {
    /// A copy.
    pub fn copy(&self) -> Result<Self, AllocError>
        ensures { IfOk result (λ made. made ≡ self.now) }
    {
        self.clone()
    }
}
