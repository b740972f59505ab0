//! How a client writes a row.
ghost use Rattle.std.specs.Prelude.{◌≡◌, ℕ, Bool, [], true, IfSome, IfOk, IfErr, IsErrOf};
ghost use Rattle.disk_trait.specs.Fuse.{behind, inner_of};
ghost use Rattle.value_codec.specs.SchemaSpelling.{HasSchemaSpelling};
ghost use Rattle.client_journal.specs.Standing.{devs as held_by, writes_of, AreUp, IsReady};
ghost use Rattle.step_tables.specs.ClientMoves.{Client, ClientMove, Write};
ghost use Rattle.step_tables.specs.Facts.{Number};
ghost use Rattle.client_node.specs.declared.node.ClientNode.{ClientNode as Node};
ghost use Rattle.client_node.specs.Answers.{record_at};
ghost use Rattle.client_node.specs.Does.{Does};
ghost use Rattle.client_node.specs.Looks.{Looks};
ghost use Rattle.client_node.specs.Node.{IsClient, IsNode};
ghost use Rattle.client_node.specs.Phases.{is_open, KeepsPhases};
ghost use Rattle.client_node.specs.Preparing.{Prepares, MayBegin};
ghost use Rattle.client_node.specs.Readied.{IsIdle};
ghost use Rattle.client_node.specs.Requesting.{ArePassed};

use crate::fault::CallFault;
use crate::node::ClientNode;
use crate::preparing::{Gate, Prepared, open_row, prepare};
use crate::waiting::Waiting;
use client_journal::Journal;
use disk_trait::Disk;
use row_value::Content;
use stab_base::{ClientNo, RowId, TableNo, WriteNo};
use std::alloc::Global;

// Prepares the write of a row. The rows that a strong write passes over are added to the stale ones.
fn prepare_write<D: Disk + Drop>(
    alloc: Global,
    client: ClientNo,
    gate: Gate,
    devs: &mut Journal<D>,
    waiting: &Waiting,
    table: TableNo,
    row: RowId,
    content: Content,
    stale: &mut Vec<RowId>,
) -> Result<Prepared, CallFault>
    requires up { AreUp devs.old }
    requires ready { IsReady D.state devs.old (writes_of devs.old) }
    requires idle { writes_of devs.old ≡ [] → IsIdle (held_by D.state devs.old) client }
    requires spelled { IfSome (record_at (held_by D.state devs.old) table) (λ opened. HasSchemaSpelling opened.schema) }
    ensures looks { Looks D.state D.images devs.old devs.new result }
    ensures prepares { (phase : ℕ → Bool) → phase table ≡ gate.is_open
        → Prepares D.state devs.old waiting.now phase gate.is_linked client (Write table row content) result }
    ensures stale { ArePassed (held_by D.state devs.old) (writes_of devs.old) table stale.old.items
        → ArePassed (held_by D.state devs.old) (writes_of devs.old) table stale.new.items }
{
    let at = open_row(devs, table, row)?;
    prepare(alloc, client, gate, devs, waiting, &at, content, stale)
}

impl<D: Disk + Drop> ClientNode<D> {
    // What a write of a table goes by.
    pub(crate) fn gate_of(&self, table: TableNo) -> Gate
        ensures linked { result.is_linked ≡ self.now.is_linked }
        ensures open { result.is_open ≡ is_open self.now table }
    {
        Gate {
            is_linked: self.is_linked,
            is_open: self.phases.contains(&table),
        }
    }

    // Takes a write on that was prepared, or hands over why it wasn't.
    pub(crate) fn take_on(
        &mut self,
        found: Result<Prepared, CallFault>,
    ) -> Result<WriteNo, CallFault>
        requires { IfOk found (MayBegin (behind D.state) self.old.devs) }
        ensures does { (old : Node D) (s : Client) (move : ClientMove) → self.old ≡ record old { devs = self.old.devs }
            → IsClient D.state old s → old.is_up ≡ true
            → Looks (behind D.state) (λ f. D.images (inner_of f)) old.devs self.old.devs found
            → Prepares (behind D.state) old.devs old.waiting (is_open old) old.is_linked old.number move found
            → Does D.state D.images s move (λ number. Number number) old self.new result }
        ensures refused { IfErr found (λ e. IsErrOf result e) }
        ensures declared { self.new.is_declared ≡ self.old.is_declared }
        ensures phases { KeepsPhases self.old self.new }
    {
        let Prepared { number, planned } = self.settle(found)?;
        let none = Vec::new(self.alloc);
        self.carry_out(planned, none)?;
        Ok(number)
    }

    /// Writes a row: its next content is this one, under the client's next number, which is the answer. The writes that
    /// this takes are then to be done; what was written is told of from their commit on, and shown, in a strong table
    /// once it is accepted. There the last of them sends its request, and rows that the call passes over, since they wait
    /// for no answer any longer, are taken off those that are noted: each is passed over once.
    ///
    /// # Errors
    ///
    /// `NoTable`, then what is wrong with the content, then `Busy`, then `InResolution`, then `Conflicted`, in a strong
    /// table `Offline` and `Outstanding`, then `Spent`.
    pub fn write(
        &mut self,
        table: TableNo,
        row: RowId,
        content: Content,
    ) -> Result<WriteNo, CallFault>
        requires node { IsNode D.state self.old }
        requires up { self.old.is_up ≡ true }
        ensures does { (s : Client) → IsClient D.state self.old s
            → Does D.state D.images s (Write table row content) (λ number. Number number) self.old self.new result }
        ensures node { IsNode D.state self.new }
        ensures declared { self.new.is_declared ≡ self.old.is_declared }
        ensures phases { KeepsPhases self.old self.new }
    {
        let gate = self.gate_of(table);
        let mut stale = Vec::new(self.alloc);
        let found = prepare_write(
            self.alloc,
            self.number,
            gate,
            &mut self.devs,
            &self.waiting,
            table,
            row,
            content,
            &mut stale,
        );
        self.waiting.forget_outs(table, stale.as_slice());
        self.take_on(found)
    }
}
