//! Values that a table's rows hold, their schema, and whether a row fits it.
#![tactic(auto)]

mod content;
mod fit;
mod pieces;
mod schema;

pub use content::{Cell, Cells, Content, Objects};
pub use fit::{FitFault, fits};
pub use pieces::{Piece, PieceContent, PieceObject, PieceObjects, Pieces};
pub use schema::{Column, ColumnKind, Columns, Schema, Scheme};
pub use stab_base::{
    Bytes, ChunkName, ClientNo, GateNo, RowId, Sequence, SharedBytes, StoreNo, TableNo, Version,
    WriteNo,
};
