//! How the phases begin and end in which a client resolves the conflicts of a table.
ghost use Rattle.std.specs.Prelude.{◌≡◌, true, false, not, IsSome, IfErr, OnOk, OnErr};
ghost use Rattle.client_journal.specs.Standing.{devs as held_by, writes_of, AreUp, IsReady};
ghost use Rattle.step_tables.specs.ClientMoves.{Client, BeginCr, EndCr};
ghost use Rattle.step_tables.specs.Facts.{Done};
ghost use Rattle.client_node.specs.Answers.{record_at};
ghost use Rattle.client_node.specs.Does.{Does};
ghost use Rattle.client_node.specs.Looks.{Looks};
ghost use Rattle.client_node.specs.Node.{IsClient, IsNode};
ghost use Rattle.client_node.specs.Phases.{KeepsPhases, BeginsPhase, EndsPhase};
ghost use Rattle.client_node.specs.Resolving.{IsUnphased};

use crate::fault::CallFault;
use crate::looking::open_table;
use crate::node::ClientNode;
use client_journal::Journal;
use disk_trait::Disk;
use stab_base::TableNo;

/// Whether no phase is open.
pub(crate) fn check_closed(is_open: bool) -> Result<(), CallFault>
    ensures closed { OnOk result (is_open ≡ false) }
    ensures open { IfErr result (λ e. (is_open ≡ true) × (e ≡ CallFault.InResolution)) }
{
    if is_open {
        Err(CallFault::InResolution)
    } else {
        Ok(())
    }
}

/// Whether a phase is open.
pub(crate) fn check_open(is_open: bool) -> Result<(), CallFault>
    ensures open { OnOk result (is_open ≡ true) }
    ensures closed { IfErr result (λ e. (is_open ≡ false) × (e ≡ CallFault.NotInResolution)) }
{
    if is_open {
        Ok(())
    } else {
        Err(CallFault::NotInResolution)
    }
}

// Whether a phase of a table may begin.
fn check_begin<D: Disk + Drop>(
    devs: &mut Journal<D>,
    table: TableNo,
    is_open: bool,
) -> Result<(), CallFault>
    requires up { AreUp devs.old }
    requires ready { IsReady D.state devs.old (writes_of devs.old) }
    ensures looks { Looks D.state D.images devs.old devs.new result }
    ensures closed { OnOk result (is_open ≡ false) }
    ensures opened { OnOk result (IsSome (record_at (held_by D.state devs.old) table)) }
    ensures refused { IfErr result (IsUnphased (record_at (held_by D.state devs.old) table)
        CallFault.InResolution is_open) }
{
    let _opened = open_table(devs, table)?;
    check_closed(is_open)
}

// Whether one is open that may end.
fn check_end<D: Disk + Drop>(
    devs: &mut Journal<D>,
    table: TableNo,
    is_open: bool,
) -> Result<(), CallFault>
    requires up { AreUp devs.old }
    requires ready { IsReady D.state devs.old (writes_of devs.old) }
    ensures looks { Looks D.state D.images devs.old devs.new result }
    ensures open { OnOk result (is_open ≡ true) }
    ensures opened { OnOk result (IsSome (record_at (held_by D.state devs.old) table)) }
    ensures refused { IfErr result (IsUnphased (record_at (held_by D.state devs.old) table)
        CallFault.NotInResolution (not is_open)) }
{
    let _opened = open_table(devs, table)?;
    check_open(is_open)
}

impl<D: Disk + Drop> ClientNode<D> {
    /// Begins a phase of a table, in which its conflicts are resolved and its rows aren't written.
    ///
    /// # Errors
    ///
    /// `NoTable`, then `InResolution`.
    pub fn begin_cr(&mut self, table: TableNo) -> Result<(), CallFault>
        requires node { IsNode D.state self.old }
        requires up { self.old.is_up ≡ true }
        ensures does { (s : Client) → IsClient D.state self.old s
            → Does D.state D.images s (BeginCr table) (λ value. Done) self.old self.new result }
        ensures node { IsNode D.state self.new }
        ensures declared { self.new.is_declared ≡ self.old.is_declared }
        ensures begins { OnOk result (BeginsPhase table self.old self.new) }
        ensures phases { OnErr result (KeepsPhases self.old self.new) }
    {
        let is_open = self.phases.contains(&table);
        let found = check_begin(&mut self.devs, table, is_open);
        self.settle(found)?;
        self.phases.insert(table)?;
        Ok(())
    }

    /// Ends the phase of a table.
    ///
    /// # Errors
    ///
    /// `NoTable`, then `NotInResolution`.
    pub fn end_cr(&mut self, table: TableNo) -> Result<(), CallFault>
        requires node { IsNode D.state self.old }
        requires up { self.old.is_up ≡ true }
        ensures does { (s : Client) → IsClient D.state self.old s
            → Does D.state D.images s (EndCr table) (λ value. Done) self.old self.new result }
        ensures node { IsNode D.state self.new }
        ensures declared { self.new.is_declared ≡ self.old.is_declared }
        ensures ends { OnOk result (EndsPhase table self.old self.new) }
        ensures phases { OnErr result (KeepsPhases self.old self.new) }
    {
        let is_open = self.phases.contains(&table);
        let found = check_end(&mut self.devs, table, is_open);
        self.settle(found)?;
        let _ = self.phases.remove(&table);
        Ok(())
    }
}
