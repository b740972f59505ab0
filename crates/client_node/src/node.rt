//! A client on its three devices.
ghost use Rattle.std.specs.List.{AllByRecursion};
ghost use Rattle.std.specs.Prelude.{◌≡◌, ◌++◌, ℕ, [], map, true, false, None, OnOk, OnErr, IsErrOf};
ghost use Rattle.disk_trait.specs.Fuse.{behind, inner_of};
ghost use Rattle.vault.specs.Standing.{disk_of};
ghost use Rattle.chunk_store.specs.Standing as chunks;
ghost use Rattle.slot_store.specs.Standing as slots;
ghost use Rattle.plan_log.specs.Standing as journals;
ghost use Rattle.client_journal.specs.Plan.{plan_at_work};
ghost use Rattle.client_journal.specs.Standing.{devs as held_by, writes_of};
ghost use Rattle.step_tables.specs.ClientMoves.{Client};
ghost use Rattle.step_tables.specs.Lines.{fact_of};
ghost use Rattle.step_tables.specs.Travels.{send_of};
ghost use Rattle.gathering.specs.Room.{HasRoom};
ghost use Rattle.client_node.specs.Node.{IsToOpen, to_open, IsClient, IsNode, IsSame, told_by, sent_by, has_task};
ghost use Rattle.client_node.specs.Node.{HasPlansBelow};
ghost use Rattle.client_node.specs.Phases.{KeepsPhases};
ghost use Rattle.client_node.specs.Calls.{Works, Crashes, Falls, Fell, Halts};
ghost use Rattle.client_node.specs.Starts.{Declares, Starts};
ghost use Rattle.client_node.specs.declared.fault.CallFault.TheVariants.{Disk};

use crate::devices::make_tables;
use crate::fault::CallFault;
use crate::handing::{send, tell};
use crate::owed::Owed;
use crate::starting::{recovered, resume};
use crate::waiting::Waiting;
use client_journal::Journal;
use disk_trait::{Disk, FuseDisk};
use gathering::Gathered;
use row_value::{Schema, Sequence};
use stab_base::{ClientNo, Step, TableNo};
use std::alloc::{AllocError, Global};
use std::collections::BTreeSet;
use step_tables::{Addressed, Out};
use table_model::Fact;

/// A client, whose journal of plans, slots and chunks are each on a disk of their own.
///
/// Its devices are written by single writes, which are done one by one, and it gathers what these have to send and to
/// tell. A node is down from its making to its declaration, and from a crash or a fault of a disk to a start.
#[derive(Drop)]
pub struct ClientNode<D: Disk> {
    pub(crate) number: ClientNo,
    pub(crate) is_declared: bool,
    pub(crate) is_up: bool,
    pub(crate) is_linked: bool,
    /// The tables whose conflicts the client resolves.
    pub(crate) phases: BTreeSet<TableNo>,
    /// The tables that its declaration opens, by their numbers. The last one of a number counts.
    pub(crate) tables: Vec<(TableNo, Schema)>,
    pub(crate) waiting: Waiting,
    pub(crate) devs: Journal<FuseDisk<D>>,
    pub(crate) owed: Owed,
    pub(crate) messages: Gathered<Addressed>,
    pub(crate) facts: Gathered<Fact>,
    pub(crate) alloc: Global,
}

impl<D: Disk + Drop> ClientNode<D> {
    /// A client that is down and not declared, and whose link is up. Its declaration opens these tables by their numbers;
    /// of two with one number the later one. What its disks hold doesn't matter.
    pub fn new(
        alloc: Global,
        number: ClientNo,
        tables: Vec<(TableNo, Schema)>,
        journal_disk: D,
        slot_disk: D,
        chunk_disk: D,
    ) -> ClientNode<D>
        requires { AllByRecursion IsToOpen tables.items }
        ensures at { IsClient D.state result (record { disk = to_open tables.items; agenda = None }) }
        ensures declared { result.is_declared ≡ false }
        ensures down { result.is_up ≡ false }
        ensures told { told_by result ≡ [] }
        ensures sent { sent_by result ≡ [] }
        ensures number { result.number ≡ number }
        ensures linked { result.is_linked ≡ true }
        ensures journal { inner_of (disk_of (journals.vault_of result.devs.journal)) ≡ journal_disk }
        ensures slots { inner_of (disk_of (slots.vault_of result.devs.slots)) ≡ slot_disk }
        ensures chunks { inner_of (disk_of (chunks.vault_of result.devs.chunks)) ≡ chunk_disk }
    {
        ClientNode {
            number,
            is_declared: false,
            is_up: false,
            is_linked: true,
            phases: BTreeSet::new(alloc),
            tables,
            waiting: Waiting::new(alloc),
            devs: Journal::new(
                alloc,
                FuseDisk::new(journal_disk),
                FuseDisk::new(slot_disk),
                FuseDisk::new(chunk_disk),
            ),
            owed: Owed::nothing(alloc),
            messages: Gathered::new(alloc),
            facts: Gathered::new(alloc),
            alloc,
        }
    }

    /// The disks of the journal, the slots and the chunks, in the order in which `new` takes them.
    pub fn into_disks(self) -> (D, D, D)
        ensures journal { result.0 ≡ inner_of (disk_of (journals.vault_of self.devs.journal)) }
        ensures slots { result.1 ≡ inner_of (disk_of (slots.vault_of self.devs.slots)) }
        ensures chunks { result.2 ≡ inner_of (disk_of (chunks.vault_of self.devs.chunks)) }
    {
        let ClientNode { devs, .. } = self;
        let (journal, slots, chunks) = devs.into_disks();
        (
            journal.into_inner(),
            slots.into_inner(),
            chunks.into_inner(),
        )
    }

    /// Whether the node is up.
    pub fn is_up(&self) -> bool
        ensures { result ≡ self.now.is_up }
    {
        self.is_up
    }

    /// Whether the client's link is up.
    pub fn is_linked(&self) -> bool
        ensures { result ≡ self.now.is_linked }
    {
        self.is_linked
    }

    /// Takes the client's link up or down. While it is down the client takes no message and sends none when it is
    /// called; what the writes at work send goes out all the same.
    pub fn link(&mut self, up: bool)
        ensures linked { self.new.is_linked ≡ up }
        ensures kept { (s : Client) → IsClient D.state self.old s → IsClient D.state self.new s }
        ensures same { self.new ≡ record self.old { is_linked = up } }
        ensures plans { (n : ℕ) → HasPlansBelow D.state n self.old → HasPlansBelow D.state n self.new }
    {
        self.is_linked = up;
    }

    /// Whether writes are still to be done.
    pub fn is_busy(&self) -> bool
        ensures { (s : Client) → IsClient D.state self.now s → result ≡ has_task s.agenda }
    {
        let is_idle = self.devs.idle();
        !is_idle
    }

    /// The plan that the node is at work on; 0 where no plan has begun, as where a start drops the chunks of one that
    /// wasn't committed.
    pub fn plan_at_work(&self) -> u64
        requires node { IsNode D.state self.now }
        requires up { self.now.is_up ≡ true }
        ensures { result ≡ plan_at_work (held_by (behind D.state) self.now.devs) (writes_of self.now.devs) }
    {
        self.devs.plan_at_work()
    }

    /// Hands over what was gathered. It takes no memory.
    pub fn take_out(&mut self) -> Out
        ensures messages { map send_of result.messages ≡ sent_by self.old }
        ensures facts { map fact_of result.facts ≡ told_by self.old }
        ensures told { told_by self.new ≡ [] }
        ensures sent { sent_by self.new ≡ [] }
        ensures kept { (s : Client) → IsClient D.state self.old s → IsClient D.state self.new s }
        ensures same { IsSame self.old self.new }
        ensures devs { self.new.devs ≡ self.old.devs }
        ensures up { self.new.is_up ≡ self.old.is_up }
        ensures declared { self.new.is_declared ≡ self.old.is_declared }
        ensures phases { self.new.phases ≡ self.old.phases }
        ensures plans { (n : ℕ) → HasPlansBelow D.state n self.old → HasPlansBelow D.state n self.new }
    {
        Out {
            messages: Sequence::from_vec(self.messages.take()),
            facts: Sequence::from_vec(self.facts.take()),
        }
    }

    // Crashes the disks and starts them again, their fuses as new. The node is down, resolves no conflicts, and notes no
    // row.
    fn fall(&mut self, pick: u64)
        ensures falls { Falls D.state D.images self.old self.new }
        ensures down { self.new.is_up ≡ false }
        ensures declared { self.new.is_declared ≡ self.old.is_declared }
        ensures same { IsSame self.old self.new }
        ensures facts { self.new.facts ≡ self.old.facts }
        ensures messages { self.new.messages ≡ self.old.messages }
        ensures tables { self.new.tables ≡ self.old.tables }
    {
        self.devs.restart(pick);
        self.devs.renew();
        self.waiting = Waiting::new(self.alloc);
        self.is_up = false;
        self.phases = BTreeSet::new(self.alloc);
    }

    // Hands over what a call of the devices came to. Where a disk has failed the node is down.
    pub(crate) fn settle<T: Drop>(&mut self, found: Result<T, CallFault>) -> Result<T, CallFault>
        ensures same { result ≡ found }
        ensures disk { IsErrOf result Disk → Fell D.state D.images self.old self.new }
        ensures other { (IsErrOf result Disk → ⊥) → self.new ≡ self.old }
        ensures phases { KeepsPhases self.old self.new }
    {
        if let Err(CallFault::Disk) = found {
            self.fall(0);
        }
        found
    }

    // Gathers messages that are sent at once. Nothing is owed by a node that has no write to do.
    pub(crate) fn send(&mut self, mut sends: Vec<Addressed>) -> Result<(), AllocError>
        ensures sent { OnOk result (sent_by self.new ≡ sent_by self.old ++ map send_of sends.items) }
        ensures no_facts { OnOk result (self.new.owed.facts.items ≡ []) }
        ensures no_messages { OnOk result (self.new.owed.messages.items ≡ []) }
        ensures fact_room { OnOk result (HasRoom self.new.facts 0) }
        ensures message_room { OnOk result (HasRoom self.new.messages 0) }
        ensures unsent { OnErr result (self.new.messages.items.items ≡ self.old.messages.items.items) }
        ensures owed { OnErr result (self.new.owed ≡ self.old.owed) }
        ensures kept { OnErr result ((n : ℕ) → HasRoom self.old.messages n → HasRoom self.new.messages n) }
        ensures facts { self.new.facts ≡ self.old.facts }
        ensures devs { self.new.devs ≡ self.old.devs }
        ensures number { self.new.number ≡ self.old.number }
        ensures linked { self.new.is_linked ≡ self.old.is_linked }
        ensures up { self.new.is_up ≡ self.old.is_up }
        ensures declared { self.new.is_declared ≡ self.old.is_declared }
        ensures waiting { self.new.waiting ≡ self.old.waiting }
        ensures phases { self.new.phases ≡ self.old.phases }
    {
        self.messages.reserve(sends.len())?;
        self.owed = Owed::nothing(self.alloc);
        self.messages.put_all(&mut sends);
        Ok(())
    }

    // Gathers facts that are told and messages that are sent at once. Nothing is owed by a node that has no write to do.
    pub(crate) fn tell_and_send(
        &mut self,
        mut told: Vec<Fact>,
        mut sends: Vec<Addressed>,
    ) -> Result<(), AllocError>
        ensures told { OnOk result (told_by self.new ≡ told_by self.old ++ map fact_of told.items) }
        ensures sent { OnOk result (sent_by self.new ≡ sent_by self.old ++ map send_of sends.items) }
        ensures no_facts { OnOk result (self.new.owed.facts.items ≡ []) }
        ensures no_messages { OnOk result (self.new.owed.messages.items ≡ []) }
        ensures fact_room { OnOk result (HasRoom self.new.facts 0) }
        ensures message_room { OnOk result (HasRoom self.new.messages 0) }
        ensures untold { OnErr result (self.new.facts.items.items ≡ self.old.facts.items.items) }
        ensures unsent { OnErr result (self.new.messages.items.items ≡ self.old.messages.items.items) }
        ensures owed { OnErr result (self.new.owed ≡ self.old.owed) }
        ensures facts_kept { OnErr result ((n : ℕ) → HasRoom self.old.facts n → HasRoom self.new.facts n) }
        ensures kept { OnErr result ((n : ℕ) → HasRoom self.old.messages n → HasRoom self.new.messages n) }
        ensures devs { self.new.devs ≡ self.old.devs }
        ensures number { self.new.number ≡ self.old.number }
        ensures linked { self.new.is_linked ≡ self.old.is_linked }
        ensures up { self.new.is_up ≡ self.old.is_up }
        ensures declared { self.new.is_declared ≡ self.old.is_declared }
        ensures waiting { self.new.waiting ≡ self.old.waiting }
        ensures phases { self.new.phases ≡ self.old.phases }
    {
        self.facts.reserve(told.len())?;
        self.messages.reserve(sends.len())?;
        self.owed = Owed::nothing(self.alloc);
        self.facts.put_all(&mut told);
        self.messages.put_all(&mut sends);
        Ok(())
    }

    // Makes the node's disks those of its tables without a row.
    fn make(&mut self) -> Result<(), CallFault>
        requires node { IsNode D.state self.old }
        requires undeclared { self.old.is_declared ≡ false }
        ensures declares { (s : Client) → IsClient D.state self.old s → Declares D.state s self.old self.new result }
        ensures facts { self.new.facts ≡ self.old.facts }
        ensures quiet { OnOk result (self.new.owed.facts.items ≡ []) }
        ensures kept { OnErr result (self.new.is_declared ≡ self.old.is_declared) }
        ensures up { OnOk result (self.new.is_up ≡ true) }
        ensures phases { KeepsPhases self.old self.new }
    {
        match make_tables(&mut self.devs, self.tables.as_slice()) {
            Ok(()) => {
                self.owed = Owed::nothing(self.alloc);
                self.is_declared = true;
                self.is_up = true;
                Ok(())
            }
            Err(fault) => {
                self.fall(0);
                Err(fault)
            }
        }
    }

    /// Makes the node's disks those of the tables that its declaration opens, without a row, whatever they held. The
    /// node is then up. Where a disk failed or memory was refused it is still down, and not declared.
    pub fn declare(&mut self) -> Result<(), CallFault>
        requires node { IsNode D.state self.old }
        requires undeclared { self.old.is_declared ≡ false }
        ensures declares { (s : Client) → IsClient D.state self.old s → Declares D.state s self.old self.new result }
        ensures node { IsNode D.state self.new }
        ensures kept { OnErr result (self.new.is_declared ≡ self.old.is_declared) }
        ensures up { OnOk result (self.new.is_up ≡ true) }
        ensures phases { KeepsPhases self.old self.new }
    {
        self.make()
    }

    // Takes on the writes of a start of a node that is down.
    fn recover(&mut self) -> Result<(), CallFault>
        requires node { IsNode D.state self.old }
        requires declared { self.old.is_declared ≡ true }
        requires down { self.old.is_up ≡ false }
        requires quiet { told_by self.old ≡ [] }
        ensures starts { (s : Client) → IsClient D.state self.old s
            → Starts D.state D.images s self.old self.new result }
        ensures kept { OnErr result (self.new.is_declared ≡ self.old.is_declared) }
        ensures up { OnOk result (self.new.is_up ≡ true) }
        ensures phases { KeepsPhases self.old self.new }
    {
        let resumed = resume(
            self.alloc,
            &mut self.devs,
            self.number,
            &mut self.waiting,
            &mut self.facts,
        );
        match resumed {
            Ok(owed) => {
                self.owed = owed;
                self.is_up = true;
                Ok(())
            }
            Err(fault) => {
                self.fall(0);
                Err(fault)
            }
        }
    }

    // Declares a node that was never declared, and tells that it has recovered.
    fn declare_late(&mut self) -> Result<(), CallFault>
        requires node { IsNode D.state self.old }
        requires undeclared { self.old.is_declared ≡ false }
        ensures starts { (s : Client) → IsClient D.state self.old s
            → Starts D.state D.images s self.old self.new result }
        ensures kept { OnErr result (self.new.is_declared ≡ self.old.is_declared) }
        ensures up { OnOk result (self.new.is_up ≡ true) }
        ensures phases { KeepsPhases self.old self.new }
    {
        let mut told = recovered(self.alloc, self.number)?;
        self.facts.reserve(1)?;
        self.make()?;
        self.facts.put_all(&mut told);
        Ok(())
    }

    /// Starts the node, if it is down: finds what its disks hold, and takes on the writes that end what was cut short.
    /// What a committed plan told is told again at once, or that a row from the Store is torn; the last of the writes
    /// tells that the client has recovered. A node that was never declared is declared, and tells at once that it has
    /// recovered. Where a disk failed or memory was refused the node is still down. What the node had to tell before is
    /// handed over by then.
    pub fn start(&mut self) -> Result<(), CallFault>
        requires node { IsNode D.state self.old }
        requires quiet { told_by self.old ≡ [] }
        ensures starts { (s : Client) → IsClient D.state self.old s
            → Starts D.state D.images s self.old self.new result }
        ensures node { IsNode D.state self.new }
        ensures kept { OnErr result (self.new.is_declared ≡ self.old.is_declared) }
        ensures up { OnOk result (self.new.is_up ≡ true) }
        ensures phases { KeepsPhases self.old self.new }
    {
        if self.is_up {
            return Ok(());
        }
        if self.is_declared {
            self.recover()
        } else {
            self.declare_late()
        }
    }

    /// Does the next write, if there is one, and gathers what it tells and sends. It takes no memory.
    ///
    /// `Disk` where a disk failed. The node is then down, and the write is undone or done.
    pub fn work(&mut self) -> Result<Step, CallFault>
        requires node { IsNode D.state self.old }
        requires up { self.old.is_up ≡ true }
        ensures works { (s : Client) → IsClient D.state self.old s
            → Works D.state D.images s self.old self.new result }
        ensures node { IsNode D.state self.new }
        ensures declared { self.new.is_declared ≡ self.old.is_declared }
        ensures up { OnOk result (self.new.is_up ≡ true) }
        ensures phases { KeepsPhases self.old self.new }
    {
        if self.devs.idle() {
            return Ok(Step::Idle);
        }
        match self.devs.work() {
            Ok(step) => {
                let is_last = self.devs.idle();
                tell(&mut self.facts, &mut self.owed, step, is_last);
                send(&mut self.messages, &mut self.owed, is_last);
                Ok(step)
            }
            Err(_) => {
                self.fall(0);
                Err(CallFault::Disk)
            }
        }
    }

    /// Takes the node down beside any write: the writes that it was to do are lost. It takes no memory.
    pub fn halt(&mut self)
        requires { IsNode D.state self.old }
        ensures halts { (s : Client) → IsClient D.state self.old s → Halts D.state D.images s self.old self.new }
        ensures node { IsNode D.state self.new }
        ensures down { self.new.is_up ≡ false }
    {
        if self.is_up {
            self.fall(0);
        }
    }

    /// Crashes the node: of the disk of the next write the first `calls` calls pass, and a write that follows lands its
    /// first `pick` bytes. The node is then down. It takes no memory.
    pub fn crash(&mut self, calls: u32, pick: u64)
        requires node { IsNode D.state self.old }
        requires up { self.old.is_up ≡ true }
        ensures crashes { (s : Client) → IsClient D.state self.old s
            → Crashes D.state D.images calls s self.old self.new }
        ensures node { IsNode D.state self.new }
        ensures declared { self.new.is_declared ≡ self.old.is_declared }
        ensures down { self.new.is_up ≡ false }
    {
        self.devs.stop_after(calls, pick);
        let _ = self.devs.work();
        self.fall(pick);
    }
}
