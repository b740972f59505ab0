//! What a client holds of its rows under the Store's names.
ghost use Rattle.std.specs.Prelude.{◌≡◌, ◌++◌, ℕ, List, true, Some, is_some, option_map, option_copied};
ghost use Rattle.std.specs.Prelude.{IfOk, IfErr, OnOk};
ghost use Rattle.held_value.specs.declared.local_name.LocalName.{LocalName};
ghost use Rattle.client_journal.specs.Standing.{devs as held_by, writes_of, AreUp, IsReady};
ghost use Rattle.step_tables.specs.Chunks.{flat};
ghost use Rattle.step_tables.specs.ClientMoves.{ClientDisk, Client, table_at, seen};
ghost use Rattle.held_contents.specs.Reading.{AreThereIf, chunks_shown, content_read};
ghost use Rattle.held_contents.specs.Request.{known_of, known_in};
ghost use Rattle.client_node.specs.Answers.{record_at, IsFault};
ghost use Rattle.client_node.specs.HeldRows.{row_held, chunks_named, OnlyReads};
ghost use Rattle.client_node.specs.Looks.{Looks};
ghost use Rattle.client_node.specs.Node.{StandsFor, IsClient, IsNode};
ghost use Rattle.client_node.specs.Phases.{KeepsPhases};
ghost use Rattle.client_node.specs.Steady.{IsSteady};
ghost use Rattle.client_node.specs.declared.waiting.Waiting.{Waiting};

use crate::fault::CallFault;
use crate::looking::row_slots;
use crate::node::ClientNode;
use crate::placing::version_read;
use crate::row_plan::find_table;
use crate::spelling::content_read;
use client_journal::Journal;
use client_tables::{NewChunks, ShownChunks};
use disk_trait::Disk;
use held_contents::read_chunks;
use held_value::{HeldContent, Slots};
use slot_store::TableRecord;
use stab_base::{RowId, Sequence, TableNo, Version};
use std::alloc::{AllocError, Global};

/// What a client holds of a row of an opened table.
#[derive(Drop)]
pub struct RowHeld {
    /// The position of the table.
    pub position: Version,
    /// The size of the table's chunks in bytes.
    pub chunk: u32,
    /// The version of the row that was read: that of the row in conflict, if it is in one. 0 where none was.
    pub read: Version,
    /// The chunks of the row as it was read last, and behind them those of the row in conflict, each with the Store's
    /// name where it is known.
    pub held: NewChunks,
}

/// The chunks of each object of a content, if there is one.
pub(crate) fn chunks_of<D: Disk + Drop>(
    alloc: Global,
    devs: &mut Journal<D>,
    held: Option<&HeldContent>,
) -> Result<Sequence<ShownChunks>, CallFault>
    requires up { AreUp devs.old }
    requires ready { IsReady D.state devs.old (writes_of devs.old) }
    ensures looks { Looks D.state D.images devs.old devs.new result }
    ensures chunks { IfOk result (λ chunks. (meaning : LocalName → List ℕ)
        → AreThereIf meaning (held_by D.state devs.old) (option_copied held.entry)
        → chunks ≡ chunks_shown meaning (option_copied held.entry)) }
    ensures refused { IfErr result IsFault }
{
    Ok(read_chunks(alloc, devs, held)?)
}

// Adds the chunks of an object.
fn add_named(held: &mut NewChunks, chunks: ShownChunks) -> Result<(), AllocError>
    ensures { OnOk result (held.new ≡ held.old ++ known_of chunks) }
{
    for (piece, bytes) in chunks.into_vec() {
        held.push((piece.name, bytes))?;
    }
    Ok(())
}

// Adds the chunks of each object.
fn add_all_named(held: &mut NewChunks, read: Sequence<ShownChunks>) -> Result<(), AllocError>
    ensures { OnOk result (held.new ≡ held.old ++ flat (known_in read)) }
{
    for chunks in read.into_vec() {
        add_named(held, chunks)?;
    }
    Ok(())
}

// The chunks of a row's slots.
fn chunks_named<D: Disk + Drop>(
    alloc: Global,
    devs: &mut Journal<D>,
    slots: &Slots,
) -> Result<NewChunks, CallFault>
    requires up { AreUp devs.old }
    requires ready { IsReady D.state devs.old (writes_of devs.old) }
    ensures looks { Looks D.state D.images devs.old devs.new result }
    ensures chunks { IfOk result (λ held. (meaning : LocalName → List ℕ)
        → AreThereIf meaning (held_by D.state devs.old) (content_read slots.now.shadow)
        → AreThereIf meaning (held_by D.state devs.old) (content_read slots.now.conflict)
        → held ≡ chunks_named meaning slots.now) }
    ensures refused { IfErr result IsFault }
{
    let read = chunks_of(alloc, devs, content_read(&slots.shadow))?;
    let conflict = chunks_of(alloc, devs, content_read(&slots.conflict))?;
    let mut held = NewChunks::new(alloc);
    add_all_named(&mut held, read)?;
    add_all_named(&mut held, conflict)?;
    Ok(held)
}

// What is held of a row of an opened table.
fn held_in<D: Disk + Drop>(
    alloc: Global,
    devs: &mut Journal<D>,
    opened: &TableRecord,
    table: TableNo,
    row: &RowId,
) -> Result<Option<RowHeld>, CallFault>
    requires up { AreUp devs.old }
    requires ready { IsReady D.state devs.old (writes_of devs.old) }
    requires opened { record_at (held_by D.state devs.old) table ≡ Some opened.now }
    ensures looks { Looks D.state D.images devs.old devs.new result }
    ensures held { (c : ℕ) (disk : ClientDisk) (waiting : Waiting) → StandsFor c (held_by D.state devs.old) disk
        → IsSteady waiting disk
        → IfOk result (λ found. found ≡ option_map (row_held row.now) (table_at (seen disk) table)) }
    ensures refused { IfErr result IsFault }
{
    let slots = row_slots(devs, table, row)?;
    let held = chunks_named(alloc, devs, &slots)?;
    Ok(Some(RowHeld {
        position: opened.position,
        chunk: opened.schema.chunk,
        read: version_read(&slots),
        held,
    }))
}

// What is held of a row of a table.
fn held_of<D: Disk + Drop>(
    alloc: Global,
    devs: &mut Journal<D>,
    table: TableNo,
    row: &RowId,
) -> Result<Option<RowHeld>, CallFault>
    requires up { AreUp devs.old }
    requires ready { IsReady D.state devs.old (writes_of devs.old) }
    ensures looks { Looks D.state D.images devs.old devs.new result }
    ensures held { (c : ℕ) (disk : ClientDisk) (waiting : Waiting) → StandsFor c (held_by D.state devs.old) disk
        → IsSteady waiting disk
        → IfOk result (λ found. found ≡ option_map (row_held row.now) (table_at (seen disk) table)) }
    ensures refused { IfErr result IsFault }
{
    let found = find_table(devs, table)?;
    match &found {
        None => Ok(None),
        Some(opened) => held_in(alloc, devs, opened, table, row),
    }
}

// Whether a table is opened.
fn is_opened<D: Disk + Drop>(devs: &mut Journal<D>, table: TableNo) -> Result<bool, CallFault>
    requires up { AreUp devs.old }
    requires ready { IsReady D.state devs.old (writes_of devs.old) }
    ensures looks { Looks D.state D.images devs.old devs.new result }
    ensures opened { (c : ℕ) (disk : ClientDisk) → StandsFor c (held_by D.state devs.old) disk
        → IfOk result (λ found. found ≡ is_some (table_at (seen disk) table)) }
    ensures refused { IfErr result IsFault }
{
    let found = find_table(devs, table)?;
    Ok(found.is_some())
}

impl<D: Disk + Drop> ClientNode<D> {
    /// What the client holds of a row under the Store's names: none where the table isn't opened. It may be asked for
    /// whatever is still to be done.
    ///
    /// # Errors
    ///
    /// `Disk` and `Memory` alone.
    pub fn held_row(&mut self, table: TableNo, row: &RowId) -> Result<Option<RowHeld>, CallFault>
        requires node { IsNode D.state self.old }
        requires up { self.old.is_up ≡ true }
        ensures held { (s : Client) → IsClient D.state self.old s
            → IfOk result (λ found. found ≡ option_map (row_held row.now) (table_at (seen s.disk) table)) }
        ensures reads { (s : Client) → IsClient D.state self.old s
            → OnlyReads D.state D.images s self.old self.new result }
        ensures node { IsNode D.state self.new }
        ensures declared { self.new.is_declared ≡ self.old.is_declared }
        ensures phases { KeepsPhases self.old self.new }
    {
        let found = held_of(self.alloc, &mut self.devs, table, row);
        self.settle(found)
    }

    /// Whether the client has the table opened. It may be asked for whatever is still to be done.
    ///
    /// # Errors
    ///
    /// `Disk` and `Memory` alone.
    pub fn has_opened(&mut self, table: TableNo) -> Result<bool, CallFault>
        requires node { IsNode D.state self.old }
        requires up { self.old.is_up ≡ true }
        ensures held { (s : Client) → IsClient D.state self.old s
            → IfOk result (λ found. found ≡ is_some (table_at (seen s.disk) table)) }
        ensures reads { (s : Client) → IsClient D.state self.old s
            → OnlyReads D.state D.images s self.old self.new result }
        ensures node { IsNode D.state self.new }
        ensures declared { self.new.is_declared ≡ self.old.is_declared }
        ensures phases { KeepsPhases self.old self.new }
    {
        let found = is_opened(&mut self.devs, table);
        self.settle(found)
    }
}
