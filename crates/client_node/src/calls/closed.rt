//! Whether a client has closed a table.
ghost use Rattle.std.specs.Prelude.{◌≡◌, ℕ, true, IfOk, IfErr, OnOk};
ghost use Rattle.client_journal.specs.Standing.{devs as held_by, writes_of, AreUp, IsReady};
ghost use Rattle.step_tables.specs.ClientMoves.{ClientDisk, Client, table_at, seen};
ghost use Rattle.client_node.specs.Answers.{IsFault};
ghost use Rattle.client_node.specs.Closed.{closed_in, is_closed_record};
ghost use Rattle.client_node.specs.HeldRows.{OnlyReads};
ghost use Rattle.client_node.specs.Looks.{Looks};
ghost use Rattle.client_node.specs.Node.{StandsFor, IsClient, IsNode, HasPlansBelow};
ghost use Rattle.client_node.specs.Phases.{KeepsPhases};

use crate::fault::CallFault;
use crate::node::ClientNode;
use crate::row_plan::find_table;
use client_journal::Journal;
use disk_trait::Disk;
use slot_store::TableRecord;
use stab_base::TableNo;

// Whether there is a record that is a closed table's.
fn is_closed_record(found: &Option<TableRecord>) -> bool
    ensures { result ≡ is_closed_record found.now }
{
    match found {
        Some(record) => record.state == 2,
        None => false,
    }
}

// Whether a table is closed.
fn is_closed<D: Disk + Drop>(devs: &mut Journal<D>, table: TableNo) -> Result<bool, CallFault>
    requires up { AreUp devs.old }
    requires ready { IsReady D.state devs.old (writes_of devs.old) }
    ensures looks { Looks D.state D.images devs.old devs.new result }
    ensures closed { (c : ℕ) (disk : ClientDisk) → StandsFor c (held_by D.state devs.old) disk
        → IfOk result (λ found. found ≡ closed_in (table_at (seen disk) table)) }
    ensures refused { IfErr result IsFault }
{
    let found = find_table(devs, table)?;
    Ok(is_closed_record(&found))
}

impl<D: Disk + Drop> ClientNode<D> {
    /// Whether the client has closed the table. It may be asked for whatever is still to be done.
    ///
    /// # Errors
    ///
    /// `Disk` and `Memory` alone.
    pub fn has_closed(&mut self, table: TableNo) -> Result<bool, CallFault>
        requires node { IsNode D.state self.old }
        requires up { self.old.is_up ≡ true }
        ensures held { (s : Client) → IsClient D.state self.old s
            → IfOk result (λ closed. closed ≡ closed_in (table_at (seen s.disk) table)) }
        ensures reads { (s : Client) → IsClient D.state self.old s
            → OnlyReads D.state D.images s self.old self.new result }
        ensures node { IsNode D.state self.new }
        ensures declared { self.new.is_declared ≡ self.old.is_declared }
        ensures phases { KeepsPhases self.old self.new }
        ensures plans { (n : ℕ) → HasPlansBelow D.state n self.old → OnOk result (HasPlansBelow D.state n self.new) }
    {
        let found = is_closed(&mut self.devs, table);
        self.settle(found)
    }
}
