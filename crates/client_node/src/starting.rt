//! How a start is taken on.
ghost use Rattle.std.specs.Prelude.{◌≡◌, ◌∷◌, ℕ, List, [], map, IfOk, IfErr, OnOk, OnErr};
ghost use Rattle.std.specs.List.{Contains};
ghost use Rattle.held_value.specs.declared.local_name.LocalName.{LocalName};
ghost use Rattle.plan_log.specs.Spelling.{IsTable};
ghost use Rattle.client_journal.specs.Recover.{rolled_of};
ghost use Rattle.client_journal.specs.Standing.{devs as held_by, writes_of, AreUp, IsReady, AreSynced, AreSound};
ghost use Rattle.step_tables.specs.ClientMoves.{ClientDisk, told_at_start};
ghost use Rattle.step_tables.specs.Lines.{fact_of};
ghost use Rattle.journal_laws.specs.Holds.{Stands};
ghost use Rattle.gathering.specs.Room.{HasRoom};
ghost use Rattle.table_model.specs.declared.line.Fact.TheVariants.{ClientRecovered};
ghost use Rattle.client_node.specs.Answers.{IsFault};
ghost use Rattle.client_node.specs.Devices.{BeginsStart, OwesEnd};
ghost use Rattle.client_node.specs.Looks.{Looks};
ghost use Rattle.client_node.specs.Noting.{IsNotedAt, AreNotedOf, IsRedoneNoted, AreAllNoted};
ghost use Rattle.client_node.specs.Waiting.{IsMore};

use crate::carrying::note_row;
use crate::devices::begin_start;
use crate::fault::CallFault;
use crate::looking::row_slots;
use crate::owed::{Owed, When};
use crate::telling::tell_found;
use crate::waiting::Waiting;
use client_journal::{Journal, Rolled};
use disk_trait::Disk;
use gathering::Gathered;
use plan_log::RowChange;
use slot_store::TABLE_MAX;
use stab_base::{ClientNo, RowId, TableNo};
use std::alloc::{AllocError, Global};
use table_model::Fact;

/// That a client has recovered.
pub(crate) fn recovered(alloc: Global, client: ClientNo) -> Result<Vec<Fact>, AllocError>
    ensures { IfOk result (λ told. told.items ≡ ClientRecovered client ∷ []) }
{
    let told = vec![in alloc; Fact::ClientRecovered { client }]?;
    Ok(told)
}

// What the writes of a start tell.
fn owed_by_start(alloc: Global, client: ClientNo) -> Result<Owed, AllocError>
    ensures { IfOk result (OwesEnd client) }
{
    Ok(Owed {
        when: When::AtEnd,
        facts: recovered(alloc, client)?,
        messages: Vec::new(alloc),
    })
}

// These facts gathered, with room for one more.
fn gather(alloc: Global, mut told: Vec<Fact>) -> Result<Gathered<Fact>, AllocError>
    ensures told { IfOk result (λ made. made.items.items ≡ told.items) }
    ensures room { IfOk result (λ made. HasRoom made 1) }
{
    let mut made = Gathered::new(alloc);
    made.reserve(told.len())?;
    made.put_all(&mut told);
    made.reserve(1)?;
    Ok(made)
}

// ---- the rows that wait

// Notes the row of a plan that is redone. Its slots are still to be put.
fn note_redone(waiting: &mut Waiting, rolled: &Rolled) -> Result<(), AllocError>
    ensures { OnOk result (IsRedoneNoted waiting.new rolled.now) }
{
    let Some(redone) = &rolled.redone else {
        return Ok(());
    };
    match redone.row {
        Some(row) => waiting.note(redone.table, row),
        None => Ok(()),
    }
}

// Notes a row where its slots wait.
fn note_held<D: Disk + Drop>(
    devs: &mut Journal<D>,
    table: TableNo,
    row: &RowId,
    waiting: &mut Waiting,
) -> Result<(), CallFault>
    requires up { AreUp devs.old }
    requires ready { IsReady D.state devs.old (writes_of devs.old) }
    ensures looks { Looks D.state D.images devs.old devs.new result }
    ensures more { IsMore waiting.old waiting.new }
    ensures noted { OnOk result (IsNotedAt (held_by D.state devs.old) waiting.new table row.now) }
    ensures refused { IfErr result IsFault }
{
    let slots = row_slots(devs, table, row)?;
    let held = RowChange { row: *row, slots };
    note_row(waiting, table, &held)?;
    Ok(())
}

// Notes those of these rows of a table that wait.
fn note_rows<D: Disk + Drop>(
    devs: &mut Journal<D>,
    table: TableNo,
    rows: &[RowId],
    waiting: &mut Waiting,
) -> Result<(), CallFault>
    requires up { AreUp devs.old }
    requires ready { IsReady D.state devs.old (writes_of devs.old) }
    ensures looks { Looks D.state D.images devs.old devs.new result }
    ensures more { IsMore waiting.old waiting.new }
    ensures noted { OnOk result ((row : List ℕ) → Contains rows.now row
        → IsNotedAt (held_by D.state devs.old) waiting.new table row) }
    ensures refused { IfErr result IsFault }
{
    for row in rows {
        note_held(devs, table, row, waiting)?;
    }
    Ok(())
}

// Notes the rows of a table that wait.
fn note_table<D: Disk + Drop>(
    devs: &mut Journal<D>,
    table: TableNo,
    waiting: &mut Waiting,
) -> Result<(), CallFault>
    requires up { AreUp devs.old }
    requires ready { IsReady D.state devs.old (writes_of devs.old) }
    ensures looks { Looks D.state D.images devs.old devs.new result }
    ensures more { IsMore waiting.old waiting.new }
    ensures noted { OnOk result (AreNotedOf (held_by D.state devs.old) waiting.new table) }
    ensures refused { IfErr result IsFault }
{
    let rows = devs.rows_of(table)?;
    note_rows(devs, table, rows.as_slice(), waiting)
}

// The rows of the devices that wait, noted, with that of a plan that is redone.
fn note_tables<D: Disk + Drop>(
    alloc: Global,
    devs: &mut Journal<D>,
    rolled: &Rolled,
) -> Result<Waiting, CallFault>
    requires up { AreUp devs.old }
    requires ready { IsReady D.state devs.old (writes_of devs.old) }
    ensures looks { Looks D.state D.images devs.old devs.new result }
    ensures each { IfOk result (λ waiting. (table : ℕ) → IsTable table
        → AreNotedOf (held_by D.state devs.old) waiting table) }
    ensures redone { IfOk result (λ waiting. IsRedoneNoted waiting rolled.now) }
    ensures refused { IfErr result IsFault }
{
    let mut waiting = Waiting::new(alloc);
    note_redone(&mut waiting, rolled)?;
    for table in 1..=TABLE_MAX {
        note_table(devs, table, &mut waiting)?;
    }
    Ok(waiting)
}

// ---- a start

/// Takes on the writes of a start, notes the rows of the devices that wait, and gathers what the start tells at once, where nothing
/// is gathered. What the writes tell is for the caller to owe.
pub(crate) fn resume<D: Disk + Drop>(
    alloc: Global,
    devs: &mut Journal<D>,
    client: ClientNo,
    waiting: &mut Waiting,
    facts: &mut Gathered<Fact>,
) -> Result<Owed, CallFault>
    requires up { AreUp devs.old }
    requires synced { AreSynced D.state devs.old }
    requires sound { AreSound D.state devs.old }
    requires idle { writes_of devs.old ≡ [] }
    requires quiet { map fact_of facts.old.items.items ≡ [] }
    ensures begins { BeginsStart D.state D.images devs.old devs.new result }
    ensures told { OnOk result ((meaning : LocalName → List ℕ) (disk : ClientDisk)
        → Stands client meaning (held_by D.state devs.old) disk → map fact_of facts.new.items.items
        ≡ told_at_start client (rolled_of (held_by D.state devs.old).journal.at_work).torn disk.plan) }
    ensures kept { OnErr result (facts.new.items.items ≡ facts.old.items.items) }
    ensures room { OnOk result (HasRoom facts.new 1) }
    ensures owes { IfOk result (OwesEnd client) }
    ensures noted { OnOk result (AreAllNoted (held_by D.state devs.old) waiting.new) }
{
    let rolled = begin_start(devs)?;
    let told = tell_found(alloc, devs, client, &rolled)?;
    let held = note_tables(alloc, devs, &rolled)?;
    let owed = owed_by_start(alloc, client)?;
    let made = gather(alloc, told)?;
    *waiting = held;
    *facts = made;
    Ok(owed)
}
