//! How a client edits a row.
ghost use Rattle.std.specs.Prelude.{◌≡◌, ℕ, Bool, List, [], true, None, Some, Ok as Made, IfSome, IfOk, IfErr, IsErrOf};
ghost use Rattle.value_codec.specs.SchemaSpelling.{HasSchemaSpelling};
ghost use Rattle.held_value.specs.declared.local_name.LocalName.{LocalName};
ghost use Rattle.client_tables.specs.Shown.{shown_content};
ghost use Rattle.client_journal.specs.Standing.{devs as held_by, writes_of, AreUp, IsReady};
ghost use Rattle.step_tables.specs.ClientMoves.{Client, Change, content_of};
ghost use Rattle.step_tables.specs.Facts.{Number};
ghost use Rattle.step_tables.specs.Lines.{shown_of};
ghost use Rattle.held_contents.specs.Reading.{AreThereIf};
ghost use Rattle.client_node.specs.Answers.{record_at};
ghost use Rattle.client_node.specs.Does.{Does};
ghost use Rattle.client_node.specs.Editing.{edit_fault_of, edited_over, shown_whole, IsWhy};
ghost use Rattle.client_node.specs.Looks.{Looks};
ghost use Rattle.client_node.specs.Node.{IsClient, IsNode};
ghost use Rattle.client_node.specs.Preparing.{Prepares};
ghost use Rattle.client_node.specs.Readied.{IsIdle};
ghost use Rattle.client_node.specs.Requesting.{ArePassed};
ghost use Rattle.client_node.specs.Phases.{KeepsPhases};

use crate::fault::CallFault;
use crate::node::ClientNode;
use crate::preparing::{Gate, OpenedRow, Prepared, open_row, prepare};
use crate::reading::read_shown;
use crate::waiting::Waiting;
use client_journal::Journal;
use disk_trait::Disk;
use row_edits::{Edit, EditFault, edited};
use row_value::{Content, Schema};
use stab_base::{ClientNo, RowId, TableNo, WriteNo};
use std::alloc::Global;
use table_model::Shown;

impl From<EditFault> for CallFault {
    ghost from_gives = { λ f e. e ≡ edit_fault_of f };

    fn from(fault: EditFault) -> Self {
        match fault {
            EditFault::Fit(fault) => CallFault::from(fault),
            EditFault::Memory => CallFault::Memory,
        }
    }
}

fn content_of(shown: &Shown) -> &Content
    ensures { result.now ≡ content_of (shown_of shown.now) }
{
    match shown {
        Shown::Clean { content, .. }
        | Shown::Mine { content, .. }
        | Shown::Conflict { content, .. } => content,
    }
}

// What an edit makes of a row that is shown.
fn edited_from(
    alloc: Global,
    schema: &Schema,
    shown: &Shown,
    edit: &Edit,
) -> Result<Content, CallFault>
    ensures made { IfOk result (λ content.
        edited_over schema.now edit.now (Some (content_of (shown_of shown.now))) ≡ Made content) }
    ensures refused { IfErr result (IsWhy
        (edited_over schema.now edit.now (Some (content_of (shown_of shown.now))))) }
    ensures not_disk { IsErrOf result CallFault.Disk → ⊥ }
    ensures unspent { (last : ℕ) → IsErrOf result (CallFault.Spent last) → ⊥ }
{
    match content_of(shown) {
        Content::Gone => Err(CallFault::NoRow),
        Content::Row { cells, objects } => Ok(edited(alloc, schema, cells, objects, edit)?),
    }
}

// The content that an edit asks to be written.
fn edited_content<D: Disk + Drop>(
    alloc: Global,
    devs: &mut Journal<D>,
    at: &OpenedRow,
    edit: &Edit,
) -> Result<Content, CallFault>
    requires up { AreUp devs.old }
    requires ready { IsReady D.state devs.old (writes_of devs.old) }
    ensures looks { Looks D.state D.images devs.old devs.new result }
    ensures made { IfOk result (λ content. (meaning : LocalName → List ℕ)
        → AreThereIf meaning (held_by D.state devs.old) (shown_content at.now.slots)
        → edited_over at.now.opened.schema edit.now (shown_whole meaning at.now.slots) ≡ Made content) }
    ensures refused { IfErr result (λ e. (meaning : LocalName → List ℕ)
        → AreThereIf meaning (held_by D.state devs.old) (shown_content at.now.slots)
        → IsWhy (edited_over at.now.opened.schema edit.now (shown_whole meaning at.now.slots)) e) }
    ensures unspent { (last : ℕ) → IsErrOf result (CallFault.Spent last) → ⊥ }
{
    let shown = read_shown(alloc, devs, &at.slots)?;
    let content = edited_from(alloc, &at.opened.schema, &shown, edit)?;
    Ok(content)
}

// Prepares the write of what an edit makes of a row. The rows that a strong write passes over are added to the stale
// ones.
fn prepare_edit<D: Disk + Drop>(
    alloc: Global,
    client: ClientNo,
    gate: Gate,
    devs: &mut Journal<D>,
    waiting: &Waiting,
    table: TableNo,
    row: RowId,
    edit: &Edit,
    stale: &mut Vec<RowId>,
) -> Result<Prepared, CallFault>
    requires up { AreUp devs.old }
    requires ready { IsReady D.state devs.old (writes_of devs.old) }
    requires idle { writes_of devs.old ≡ [] → IsIdle (held_by D.state devs.old) client }
    requires spelled { IfSome (record_at (held_by D.state devs.old) table) (λ opened. HasSchemaSpelling opened.schema) }
    ensures looks { Looks D.state D.images devs.old devs.new result }
    ensures prepares { (phase : ℕ → Bool) → phase table ≡ gate.is_open
        → Prepares D.state devs.old waiting.now phase gate.is_linked client (Change table row edit.now) result }
    ensures stale { ArePassed (held_by D.state devs.old) (writes_of devs.old) table stale.old.items
        → ArePassed (held_by D.state devs.old) (writes_of devs.old) table stale.new.items }
{
    let at = open_row(devs, table, row)?;
    let content = edited_content(alloc, devs, &at, edit)?;
    prepare(alloc, client, gate, devs, waiting, &at, content, stale)
}

impl<D: Disk + Drop> ClientNode<D> {
    /// Edits a row: writes what the edit makes of what is shown of it, under the client's next number, which is the
    /// answer.
    ///
    /// # Errors
    ///
    /// `NoTable`, then `NoRow` where nothing is shown of the row, or that it is gone, then what is wrong with the edit
    /// or with its content, then `Busy`, then `InResolution`, then `Conflicted`, in a strong
    /// table `Offline` and `Outstanding`, then `Spent`.
    pub fn edit(&mut self, table: TableNo, row: RowId, edit: &Edit) -> Result<WriteNo, CallFault>
        requires node { IsNode D.state self.old }
        requires up { self.old.is_up ≡ true }
        ensures does { (s : Client) → IsClient D.state self.old s
            → Does D.state D.images s (Change table row edit.now) (λ number. Number number) self.old self.new result }
        ensures node { IsNode D.state self.new }
        ensures declared { self.new.is_declared ≡ self.old.is_declared }
        ensures phases { KeepsPhases self.old self.new }
    {
        let gate = self.gate_of(table);
        let mut stale = Vec::new(self.alloc);
        let found = prepare_edit(
            self.alloc,
            self.number,
            gate,
            &mut self.devs,
            &self.waiting,
            table,
            row,
            edit,
            &mut stale,
        );
        self.waiting.forget_outs(table, stale.as_slice());
        self.take_on(found)
    }
}
