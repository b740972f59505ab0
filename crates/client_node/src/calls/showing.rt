//! What a client shows of its rows.
ghost use Rattle.std.specs.Prelude.{◌≡◌, ◌⊎◌, ℕ, true, IfOk, IfErr};
ghost use Rattle.table_model.specs.Sums.{sum_answer};
ghost use Rattle.client_journal.specs.Standing.{devs as held_by, writes_of, AreUp, IsReady};
ghost use Rattle.step_tables.specs.ClientMoves.{ClientDisk, Client, Show, Sum, table_at, seen, show_in};
ghost use Rattle.step_tables.specs.Facts.{Shows};
ghost use Rattle.step_tables.specs.Lines.{shown_of, answer_of};
ghost use Rattle.step_tables.specs.Sums.{by_digests};
ghost use Rattle.client_node.specs.Answers.{IsFault, IsAnswered};
ghost use Rattle.client_node.specs.Does.{Does};
ghost use Rattle.client_node.specs.Looks.{Looks};
ghost use Rattle.client_node.specs.Node.{StandsFor, IsClient, IsNode};
ghost use Rattle.client_node.specs.Phases.{KeepsPhases};

use crate::fault::CallFault;
use crate::node::ClientNode;
use crate::reading::show;
use client_journal::Journal;
use disk_trait::Disk;
use row_sum::{clean_sum, conflict_sum, mine_sum};
use stab_base::{RowId, TableNo};
use std::alloc::{AllocError, Global};
use table_model::{Answer, Shown};

// What is shown with its objects by their digests.
fn by_digests(alloc: Global, shown: &Shown) -> Result<Answer, AllocError>
    ensures { IfOk result (λ answer. answer ≡ sum_answer shown.now) }
{
    match shown {
        Shown::Clean { version, content } => clean_sum(alloc, *version, content),
        Shown::Mine { number, content } => mine_sum(alloc, *number, content),
        Shown::Conflict {
            number,
            version,
            content,
        } => conflict_sum(alloc, *number, *version, content),
    }
}

// What is shown of a row of a table, its objects by their digests.
fn show_sum<D: Disk + Drop>(
    alloc: Global,
    devs: &mut Journal<D>,
    table: TableNo,
    row: &RowId,
) -> Result<Answer, CallFault>
    requires up { AreUp devs.old }
    requires ready { IsReady D.state devs.old (writes_of devs.old) }
    ensures looks { Looks D.state D.images devs.old devs.new result }
    ensures answered { (c : ℕ) (disk : ClientDisk) → StandsFor c (held_by D.state devs.old) disk
        → IsAnswered answer_of (by_digests (show_in row.now (table_at (seen disk) table))) result }
    ensures refused { IfErr result (λ e. (e ≡ CallFault.NoTable) ⊎ ((e ≡ CallFault.NoRow) ⊎ IsFault e)) }
{
    let shown = show(alloc, devs, table, row)?;
    let answer = by_digests(alloc, &shown)?;
    Ok(answer)
}

impl<D: Disk + Drop> ClientNode<D> {
    /// What the client shows of a row. It may be asked for whatever is still to be done.
    ///
    /// # Errors
    ///
    /// `NoTable`, then `NoRow` where the row was neither written here nor read.
    pub fn read(&mut self, table: TableNo, row: &RowId) -> Result<Shown, CallFault>
        requires node { IsNode D.state self.old }
        requires up { self.old.is_up ≡ true }
        ensures does { (s : Client) → IsClient D.state self.old s
            → Does D.state D.images s (Show table row.now) (λ shown. Shows (shown_of shown)) self.old self.new result }
        ensures node { IsNode D.state self.new }
        ensures declared { self.new.is_declared ≡ self.old.is_declared }
        ensures phases { KeepsPhases self.old self.new }
    {
        let shown = show(self.alloc, &mut self.devs, table, row);
        self.settle(shown)
    }

    /// What is answered to a `sum` of a row: what `read` shows, with the length and the SHA-256 of each object in its
    /// place.
    ///
    /// # Errors
    ///
    /// Those of `read`.
    pub fn sum(&mut self, table: TableNo, row: &RowId) -> Result<Answer, CallFault>
        requires node { IsNode D.state self.old }
        requires up { self.old.is_up ≡ true }
        ensures does { (s : Client) → IsClient D.state self.old s
            → Does D.state D.images s (Sum table row.now) answer_of self.old self.new result }
        ensures node { IsNode D.state self.new }
        ensures declared { self.new.is_declared ≡ self.old.is_declared }
        ensures phases { KeepsPhases self.old self.new }
    {
        let answer = show_sum(self.alloc, &mut self.devs, table, row);
        self.settle(answer)
    }
}
