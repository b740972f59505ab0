//! How a write of a row is prepared: its content is held by chunks, and its plan is made.
ghost use Rattle.std.specs.Prelude.{◌≡◌, ◌⊎◌, ◌+◌, ◌<◌, ◌≤◌, ℕ, Bool, List, [], ◌∷◌, None, Some, Ok as Made};
ghost use Rattle.std.specs.Prelude.{option_map, IfOk, IfErr, OnOk};
ghost use Rattle.std.specs.List.{AllByRecursion};
ghost use Rattle.stab_base.specs.declared.limits.TheConstants.{NUMBER_MAX};
ghost use Rattle.row_value.specs.Fit.{fit_of};
ghost use Rattle.value_codec.specs.SchemaSpelling.{HasSchemaSpelling};
ghost use Rattle.held_value.specs.declared.local_name.LocalName.{LocalName};
ghost use Rattle.client_tables.specs.Change.{version_in};
ghost use Rattle.client_tables.specs.Shown.{shown_content};
ghost use Rattle.client_tables.specs.Transitions.{written};
ghost use Rattle.client_journal.specs.Redone.{redone};
ghost use Rattle.client_journal.specs.Standing.{devs as held_by, writes_of, AreUp, IsReady};
ghost use Rattle.step_tables.specs.ClientMoves as moves;
ghost use Rattle.held_contents.specs.Reading.{AreThereIf, chunks_shown};
ghost use Rattle.held_contents.specs.Holding.{IsFit};
ghost use Rattle.plan_limits.specs.Fit.{HasWord, HaveWords};
ghost use Rattle.client_node.specs.Answers.{record_at, IsFault};
ghost use Rattle.client_node.specs.Looks.{Looks};
ghost use Rattle.client_node.specs.Preparing.{AreKnownBehind, IsOpenedRow, HoldsNew, plan_for, change_for, wrote, write_of};
ghost use Rattle.client_node.specs.Preparing.{MakesChange, IsFreeWrite, IsSpent, IsWriteBy, IsUnwritten, Prepares};
ghost use Rattle.client_node.specs.Readied.{IsIdle};
ghost use Rattle.client_node.specs.Requesting.{NoneWaits, ArePassed};

use crate::calls::phases::check_closed;
use crate::fault::CallFault;
use crate::looking::{check_idle, open_table, row_slots};
use crate::noted::of_16_bytes;
use crate::planning::Planned;
use crate::strong::prepare_strong;
use crate::waiting::Waiting;
use client_journal::{Journal, Plan};
use client_tables::{RowPlan, plan_write, plans_name_known_chunks, shown_content};
use disk_trait::Disk;
use held_contents::{HeldNew, hold, read_chunks};
use held_value::{Shadow, Slots};
use plan_log::RowChange;
use row_value::{Cell, Content, Scheme, fits};
use slot_store::TableRecord;
use stab_base::{ClientNo, NUMBER_MAX, RowId, TableNo, Version, WriteNo};
use std::alloc::{AllocError, Global};
use table_model::{ClientFact, Fact, Write};

/// A row of an opened table, with the slots that it has now.
#[derive(Drop)]
pub(crate) struct OpenedRow {
    pub(crate) table: TableNo,
    pub(crate) row: RowId,
    pub(crate) opened: TableRecord,
    pub(crate) slots: Slots,
}

/// What a write goes by beside the devices: whether the client's link is up, and whether it resolves the conflicts of
/// the table.
#[derive(Clone, Copy)]
pub(crate) struct Gate {
    pub(crate) is_linked: bool,
    pub(crate) is_open: bool,
}

/// A write that is to be taken on: its number, and its plan.
#[derive(Drop)]
pub(crate) struct Prepared {
    pub(crate) number: WriteNo,
    pub(crate) planned: Planned,
}

/// A row of an opened table.
pub(crate) fn open_row<D: Disk + Drop>(
    devs: &mut Journal<D>,
    table: TableNo,
    row: RowId,
) -> Result<OpenedRow, CallFault>
    requires up { AreUp devs.old }
    requires ready { IsReady D.state devs.old (writes_of devs.old) }
    ensures looks { Looks D.state D.images devs.old devs.new result }
    ensures opened { IfOk result (IsOpenedRow (held_by D.state devs.old) table row) }
    ensures refused { IfErr result (λ e. ((e ≡ CallFault.NoTable) × (record_at (held_by D.state devs.old) table ≡ None))
        ⊎ IsFault e) }
{
    let opened = open_table(devs, table)?;
    let slots = row_slots(devs, table, &row)?;
    Ok(OpenedRow {
        table,
        row: of_16_bytes(row),
        opened,
        slots,
    })
}

/// The number of the next write.
pub(crate) fn next_write<D: Disk + Drop>(devs: &mut Journal<D>) -> Result<WriteNo, CallFault>
    requires up { AreUp devs.old }
    requires ready { IsReady D.state devs.old (writes_of devs.old) }
    ensures looks { Looks D.state D.images devs.old devs.new result }
    ensures next { IfOk result (λ number. number ≡ (redone (held_by D.state devs.old)).last + 1) }
    ensures few { IfOk result (λ number. number ≤ NUMBER_MAX) }
    ensures refused { IfErr result (λ e. ((e ≡ CallFault.Spent NUMBER_MAX)
        × (NUMBER_MAX ≤ (redone (held_by D.state devs.old)).last)) ⊎ IsFault e) }
{
    let last = devs.last_number()?;
    if last < NUMBER_MAX {
        Ok(last + 1)
    } else {
        Err(CallFault::Spent { last: NUMBER_MAX })
    }
}

/// What holds a new content, against what the row shows.
pub(crate) fn hold_new<D: Disk + Drop>(
    alloc: Global,
    devs: &mut Journal<D>,
    size: u32,
    slots: &Slots,
    content: &Content,
) -> Result<HeldNew, CallFault>
    requires up { AreUp devs.old }
    requires ready { IsReady D.state devs.old (writes_of devs.old) }
    requires size { 0 < size }
    requires fit { IsFit size content.now }
    ensures looks { Looks D.state D.images devs.old devs.new result }
    ensures holds { IfOk result (λ made. (meaning : LocalName → List ℕ)
        → AreThereIf meaning (held_by D.state devs.old) (shown_content slots.now)
        → HoldsNew size (chunks_shown meaning (shown_content slots.now)) content.now made) }
    ensures refused { IfErr result IsFault }
{
    let shown = read_chunks(alloc, devs, shown_content(slots))?;
    let held = hold(alloc, size, &shown, content)?;
    Ok(held)
}

// The version of the row that was read, 0 where there is none.
fn version_in(shadow: &Option<Shadow>) -> Version
    ensures { result ≡ version_in shadow.now }
{
    match shadow {
        None => 0,
        Some(shadow) => shadow.version,
    }
}

// A cell whose number is known to have 64 bits.
fn know_word(cell: &Cell)
    ensures { HasWord cell.now }
{
    match cell {
        Cell::Int(number) => {
            let _known: i64 = *number;
        }
        Cell::Bool(_) | Cell::Text(_) => {}
    }
}

// Cells whose numbers are known to have 64 bits.
fn know_cells(cells: &[Cell])
    ensures { AllByRecursion HasWord cells.now }
{
    for cell in cells {
        know_word(cell);
    }
}

/// A content whose numbers are known to have 64 bits.
pub(crate) fn know_words(content: &Content)
    ensures { HaveWords content.now }
{
    if let Content::Row { cells, .. } = content {
        know_cells(cells.as_slice());
    }
}

fn change_for(row: RowId, slots: Option<Slots>) -> Option<RowChange>
    ensures { result ≡ option_map (change_for row) slots }
{
    slots.map(|slots| RowChange { row, slots })
}

/// What a row comes to, as a plan of the devices; `last` is the number of the client's last write.
pub(crate) fn plan_for(table: TableNo, last: WriteNo, row: RowId, made: RowPlan) -> Plan
    ensures plan { result ≡ plan_for table last row made }
    ensures known { AreKnownBehind }
{
    plans_name_known_chunks();
    let RowPlan {
        change,
        chunks,
        drops,
    } = made;
    Plan {
        server: false,
        table,
        last,
        row: change_for(row, change.slots),
        position: None,
        new_record: None,
        brought: chunks,
        drops,
        tells: change.tells,
    }
}

/// What is told of a write. Its content isn't copied.
pub(crate) fn tell_write(alloc: Global, write: Write) -> Result<Vec<Fact>, AllocError>
    ensures { IfOk result (λ facts. facts.items ≡ wrote write ∷ []) }
{
    Ok(vec![in alloc; Fact::Client(ClientFact::Wrote(write))]?)
}

/// A write of a row.
pub(crate) fn write_over(
    client: ClientNo,
    number: WriteNo,
    at: &OpenedRow,
    content: Content,
) -> Write
    ensures { result ≡ write_of client number at.now content }
{
    Write {
        client,
        number,
        table: at.table,
        row: at.row,
        read: version_in(&at.slots.shadow),
        content,
    }
}

// The plan of a write over these slots, which is sent later.
fn plan_new(alloc: Global, slots: &Slots, write: Write, new: HeldNew) -> Result<Planned, AllocError>
    ensures makes { IfOk result (MakesChange slots.now (written slots.now write.number new.content) new.brought
        write.table write.number write.row) }
    ensures facts { IfOk result (λ planned. planned.facts.items ≡ wrote write ∷ []) }
    ensures messages { IfOk result (λ planned. planned.messages.items ≡ []) }
{
    let HeldNew { content, brought } = new;
    let made = plan_write(alloc, slots, write.number, content, brought)?;
    let plan = plan_for(write.table, write.number, write.row, made);
    Ok(Planned {
        plan,
        facts: tell_write(alloc, write)?,
        messages: Vec::new(alloc),
    })
}

// Prepares the write of a content in a causal or an eventual table.
fn prepare_free<D: Disk + Drop>(
    alloc: Global,
    client: ClientNo,
    devs: &mut Journal<D>,
    at: &OpenedRow,
    content: Content,
) -> Result<Prepared, CallFault>
    requires up { AreUp devs.old }
    requires ready { IsReady D.state devs.old (writes_of devs.old) }
    requires spelled { HasSchemaSpelling at.now.opened.schema }
    requires fits { fit_of at.now.opened.schema content ≡ Made tt }
    ensures looks { Looks D.state D.images devs.old devs.new result }
    ensures write { IfOk result (IsFreeWrite (held_by D.state devs.old) client at.now content) }
    ensures refused { IfErr result (IsSpent (held_by D.state devs.old)) }
{
    let number = next_write(devs)?;
    let new = hold_new(alloc, devs, at.opened.schema.chunk, &at.slots, &content)?;
    know_words(&content);
    let write = write_over(client, number, at, content);
    let planned = plan_new(alloc, &at.slots, write, new)?;
    Ok(Prepared { number, planned })
}

// Whether a row isn't in conflict.
fn check_calm(slots: &Slots) -> Result<(), CallFault>
    ensures calm { OnOk result (slots.now.conflict ≡ None) }
    ensures conflict { IfErr result (λ e. (x : Shadow) × (slots.now.conflict ≡ Some x)
        × (e ≡ CallFault.Conflicted x.version)) }
{
    match &slots.conflict {
        None => Ok(()),
        Some(row) => Err(CallFault::Conflicted {
            version: row.version,
        }),
    }
}

// Prepares a write by the scheme of its table. The rows that a strong write passes over are added to the stale ones.
fn prepare_by<D: Disk + Drop>(
    alloc: Global,
    client: ClientNo,
    is_linked: bool,
    devs: &mut Journal<D>,
    waiting: &Waiting,
    at: &OpenedRow,
    content: Content,
    stale: &mut Vec<RowId>,
) -> Result<Prepared, CallFault>
    requires up { AreUp devs.old }
    requires ready { IsReady D.state devs.old (writes_of devs.old) }
    requires idle { IsIdle (held_by D.state devs.old) client }
    requires opened { IsOpenedRow (held_by D.state devs.old) at.now.table at.now.row at.now }
    requires spelled { HasSchemaSpelling at.now.opened.schema }
    requires fits { fit_of at.now.opened.schema content ≡ Made tt }
    ensures looks { Looks D.state D.images devs.old devs.new result }
    ensures write { IfOk result (IsWriteBy (held_by D.state devs.old) is_linked waiting.now.outs client at.now
        content) }
    ensures refused { IfErr result (IsUnwritten (held_by D.state devs.old) is_linked waiting.now.outs at.now) }
    ensures stale { NoneWaits (held_by D.state devs.old) at.now.table stale.old.items
        → NoneWaits (held_by D.state devs.old) at.now.table stale.new.items }
{
    match at.opened.schema.scheme {
        Scheme::Strong => prepare_strong(
            alloc,
            client,
            is_linked,
            devs,
            &waiting.outs,
            at,
            content,
            stale,
        ),
        Scheme::Causal | Scheme::Eventual => prepare_free(alloc, client, devs, at, content),
    }
}

/// Prepares the write of a content, which moves into what is told. The rows that a strong write passes over, since they
/// wait for no answer, are added to the stale ones.
///
/// What doesn't fit, then `Busy`, then `InResolution` where a phase of the table is open, then `Conflicted`, in a
/// strong table `Offline` and `Outstanding`, then `Spent`.
pub(crate) fn prepare<D: Disk + Drop>(
    alloc: Global,
    client: ClientNo,
    gate: Gate,
    devs: &mut Journal<D>,
    waiting: &Waiting,
    at: &OpenedRow,
    content: Content,
    stale: &mut Vec<RowId>,
) -> Result<Prepared, CallFault>
    requires up { AreUp devs.old }
    requires ready { IsReady D.state devs.old (writes_of devs.old) }
    requires idle { writes_of devs.old ≡ [] → IsIdle (held_by D.state devs.old) client }
    requires opened { IsOpenedRow (held_by D.state devs.old) at.now.table at.now.row at.now }
    requires spelled { HasSchemaSpelling at.now.opened.schema }
    ensures looks { Looks D.state D.images devs.old devs.new result }
    ensures prepares { (phase : ℕ → Bool) → phase at.now.table ≡ gate.is_open
        → Prepares D.state devs.old waiting.now phase gate.is_linked client
        (moves.Write at.now.table at.now.row content) result }
    ensures stale { ArePassed (held_by D.state devs.old) (writes_of devs.old) at.now.table stale.old.items
        → ArePassed (held_by D.state devs.old) (writes_of devs.old) at.now.table stale.new.items }
{
    fits(&at.opened.schema, &content)?;
    check_idle(devs)?;
    check_closed(gate.is_open)?;
    check_calm(&at.slots)?;
    prepare_by(
        alloc,
        client,
        gate.is_linked,
        devs,
        waiting,
        at,
        content,
        stale,
    )
}
