//! What a declaration and a start do to a client's devices.
ghost use Rattle.std.specs.Prelude.{◌≡◌, [], IfOk, OnOk};
ghost use Rattle.std.specs.List.{AllByRecursion};
ghost use Rattle.client_journal.specs.Devs.{PutRecord, changed_by};
ghost use Rattle.client_journal.specs.Recover.{rolled_of};
ghost use Rattle.client_journal.specs.Standing.{devs as held_by, writes_of, AreUp, AreSynced, AreSound, IsReady};
ghost use Rattle.journal_laws.specs.Moves.{opened_record};
ghost use Rattle.client_node.specs.Devices.{HasCause, MakesTables, BeginsStart};
ghost use Rattle.client_node.specs.Node.{IsToOpen};

use crate::fault::CallFault;
use client_journal::{Journal, Rolled};
use disk_trait::Disk;
use row_value::Schema;
use slot_store::TableRecord;
use stab_base::TableNo;
use std::alloc::AllocError;

/// The states of a table's record.
pub(crate) const OPENED: u8 = 1;

pub(crate) const CLOSED: u8 = 2;

// The record of a table without a row.
fn opened(table: &(TableNo, Schema)) -> Result<TableRecord, AllocError>
    ensures { IfOk result (λ made. made ≡ opened_record table.now.0 table.now.1) }
{
    Ok(TableRecord {
        table: table.0,
        state: OPENED,
        schema: table.1.copy()?,
        position: 0,
    })
}

// Puts the record of one table more.
fn put_opened<D: Disk + Drop>(
    devs: &mut Journal<D>,
    table: &(TableNo, Schema),
) -> Result<(), CallFault>
    requires up { AreUp devs.old }
    requires ready { IsReady D.state devs.old [] }
    requires idle { writes_of devs.old ≡ [] }
    requires opens { IsToOpen table.now }
    ensures put { OnOk result (held_by D.state devs.new
        ≡ changed_by (held_by D.state devs.old) (PutRecord (opened_record table.now.0 table.now.1))) }
    ensures up { OnOk result (AreUp devs.new) }
    ensures ready { OnOk result (IsReady D.state devs.new []) }
    ensures idle { OnOk result (writes_of devs.new ≡ []) }
    ensures cause { HasCause D.state devs.old devs.new result }
{
    let made = opened(table)?;
    devs.declare(&made)?;
    Ok(())
}

/// Makes the disks those of these tables without a row, whatever they held.
pub(crate) fn make_tables<D: Disk + Drop>(
    devs: &mut Journal<D>,
    tables: &[(TableNo, Schema)],
) -> Result<(), CallFault>
    requires up { AreUp devs.old }
    requires opens { AllByRecursion IsToOpen tables.now }
    ensures { MakesTables D.state tables.now devs.old devs.new result }
{
    devs.format()?;
    for table in tables {
        put_opened(devs, table)?;
    }
    Ok(())
}

/// Finds what the disks hold, and takes on the writes of a start.
pub(crate) fn begin_start<D: Disk + Drop>(devs: &mut Journal<D>) -> Result<Rolled, CallFault>
    requires up { AreUp devs.old }
    requires synced { AreSynced D.state devs.old }
    requires sound { AreSound D.state devs.old }
    requires idle { writes_of devs.old ≡ [] }
    ensures begins { BeginsStart D.state D.images devs.old devs.new result }
    ensures answer { IfOk result (λ rolled. rolled ≡ rolled_of (held_by D.state devs.old).journal.at_work) }
{
    devs.look()?;
    devs.scan()?;
    let rolled = devs.recover()?;
    Ok(rolled)
}
