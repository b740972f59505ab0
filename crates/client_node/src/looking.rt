//! What a node reads from its devices.
ghost use Rattle.std.specs.Prelude.{◌≡◌, ◌⊎◌, Some, None, [], IfOk, IfErr};
ghost use Rattle.client_journal.specs.Plan.{plan_at_work};
ghost use Rattle.client_journal.specs.Standing.{devs as held_by, writes_of, AreUp, IsReady};
ghost use Rattle.client_node.specs.Answers.{record_at, held_at, IsFault};
ghost use Rattle.client_node.specs.Looks.{Looks};

use crate::fault::CallFault;
use client_journal::Journal;
use disk_trait::Disk;
use held_value::Slots;
use slot_store::TableRecord;
use stab_base::{RowId, TableNo};

/// The record of an opened table.
pub(crate) fn open_table<D: Disk + Drop>(
    devs: &mut Journal<D>,
    table: TableNo,
) -> Result<TableRecord, CallFault>
    requires up { AreUp devs.old }
    requires ready { IsReady D.state devs.old (writes_of devs.old) }
    ensures looks { Looks D.state D.images devs.old devs.new result }
    ensures opened { IfOk result (λ found. record_at (held_by D.state devs.old) table ≡ Some found) }
    ensures refused { IfErr result (λ e. ((e ≡ CallFault.NoTable) × (record_at (held_by D.state devs.old) table ≡ None))
        ⊎ IsFault e) }
{
    match devs.record(table)? {
        Some(found) => Ok(found),
        None => Err(CallFault::NoTable),
    }
}

/// The slots of a row, none of them filled where it has none.
pub(crate) fn row_slots<D: Disk + Drop>(
    devs: &mut Journal<D>,
    table: TableNo,
    row: &RowId,
) -> Result<Slots, CallFault>
    requires up { AreUp devs.old }
    requires ready { IsReady D.state devs.old (writes_of devs.old) }
    ensures looks { Looks D.state D.images devs.old devs.new result }
    ensures slots { IfOk result (λ found. found ≡ held_at (held_by D.state devs.old) table row.now) }
    ensures refused { IfErr result IsFault }
{
    match devs.slots(table, row)? {
        Some(stored) => Ok(stored.slots),
        None => Ok(Slots::EMPTY),
    }
}

/// Whether no write is to be done.
pub(crate) fn check_idle<D: Disk + Drop>(devs: &Journal<D>) -> Result<(), CallFault>
    requires up { AreUp devs.now }
    requires ready { IsReady D.state devs.now (writes_of devs.now) }
    ensures idle { IfOk result (λ value. writes_of devs.now ≡ []) }
    ensures busy { IfErr result (λ e. (writes_of devs.now ≡ [] → ⊥)
        × (e ≡ CallFault.Busy (plan_at_work (held_by D.state devs.now) (writes_of devs.now)))) }
{
    if devs.idle() {
        Ok(())
    } else {
        Err(CallFault::Busy {
            with: devs.plan_at_work(),
        })
    }
}
