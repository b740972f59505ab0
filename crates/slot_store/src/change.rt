//! What is to be noted of a payload.
ghost use Rattle.std.specs.Prelude.{◌≡◌, IfOk};
ghost use Rattle.slot_store.specs.Reading.{row_in, record_in, said_by};
ghost use Rattle.slot_store.specs.Memory.{Says};

use crate::reader::{record_in, row_in};
use stab_base::{RowId, TableNo, Version, WriteNo};
use std::alloc::{AllocError, Global};
use value_codec::SpellFault;

/// The slots of this row stand in the payload, and this is the number of the last write in it.
#[derive(Clone, Copy)]
pub struct RowChange {
    pub(crate) table: TableNo,
    pub(crate) row: RowId,
    pub(crate) last: WriteNo,
}

/// The record of this table stands in the payload, with this state and position.
#[derive(Clone, Copy)]
pub struct TableChange {
    pub(crate) table: TableNo,
    pub(crate) state: u8,
    pub(crate) position: Version,
}

/// What a payload does.
#[derive(Clone, Copy)]
pub enum Change {
    /// Slots of a row are put.
    Row(RowChange),
    /// The record of a table is put.
    Table(TableChange),
    /// The payload is passed over.
    Nothing,
}

/// What this payload does.
#[tactic(auto, unfolding(crate::specs::Reading::said_by))]
pub(crate) fn change_in(alloc: Global, payload: &[u8]) -> Result<Change, AllocError>
    ensures { IfOk result (Says payload.now) }
{
    match row_in(alloc, payload) {
        Ok(row) => {
            return Ok(Change::Row(RowChange {
                table: row.table,
                row: row.row,
                last: row.last,
            }));
        }
        Err(SpellFault::Memory) => return Err(AllocError),
        Err(SpellFault::Bad { .. }) => {}
    }
    match record_in(alloc, payload) {
        Ok(table) => Ok(Change::Table(TableChange {
            table: table.table,
            state: table.state,
            position: table.position,
        })),
        Err(SpellFault::Memory) => Err(AllocError),
        Err(SpellFault::Bad { .. }) => Ok(Change::Nothing),
    }
}
