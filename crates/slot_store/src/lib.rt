//! What a client keeps of its rows and tables, on a disk: the slots of each row, and the record of each table.
#![tactic(auto)]

mod change;
mod device;
mod fault;
mod fused;
mod held;
mod laws;
mod memory;
mod reader;
mod schemas;
mod writer;

pub use device::SlotDev;
pub use fault::SlotFault;
pub use held::{RowIds, RowKey, RowKeys, RowSlots, TABLE_MAX, TableRecord, TableRecords};
pub use held_value::Slots;
pub use laws::{
    data_follows_its_payloads, puts_change_one_value, slots_have_one_payload, tables_are_limited,
};
pub use row_value::Schema;
pub use stab_base::{NUMBER_MAX, RowId, Sequence, TableNo, Version, WriteNo};
pub use writer::{record_size, slots_size};
