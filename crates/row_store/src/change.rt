//! What is to be noted of a payload.
ghost use Rattle.std.specs.Prelude.{◌≡◌, IfOk};
ghost use Rattle.row_store.specs.Reading.{row_in, table_in, sub_in, said_by};
ghost use Rattle.row_store.specs.Memory.{Says};

use crate::reader::{row_in, sub_in, table_in};
use crate::stored::SubChange;
use stab_base::RowVersion;
use std::alloc::{AllocError, Global};
use value_codec::SpellFault;

/// What a payload does.
#[derive(Clone, Copy)]
pub enum Change {
    /// The row has this version, and stands in this payload.
    Row(RowVersion),
    /// The table's schema and state stand in this payload.
    Table,
    /// A client subscribes, or no more.
    Sub(SubChange),
    /// The payload is passed over.
    Nothing,
}

/// What this payload does.
#[tactic(auto, unfolding(crate::specs::Reading::said_by))]
pub(crate) fn change_in(alloc: Global, payload: &[u8]) -> Result<Change, AllocError>
    ensures { IfOk result (Says payload.now) }
{
    match row_in(alloc, payload) {
        Ok(stored) => {
            return Ok(Change::Row(RowVersion {
                version: stored.version,
                row: stored.row,
            }));
        }
        Err(SpellFault::Memory) => return Err(AllocError),
        Err(SpellFault::Bad { .. }) => {}
    }
    match table_in(alloc, payload) {
        Ok(_) => return Ok(Change::Table),
        Err(SpellFault::Memory) => return Err(AllocError),
        Err(SpellFault::Bad { .. }) => {}
    }
    match sub_in(payload) {
        Ok(change) => Ok(Change::Sub(change)),
        Err(SpellFault::Memory) => Err(AllocError),
        Err(SpellFault::Bad { .. }) => Ok(Change::Nothing),
    }
}
