//! A table at its Store, and the history that it has told.
ghost use Rattle.std.specs.Prelude.{◌≡◌, ◌⊎◌, ◌<◌, ◌≤◌, ℕ, length, false, [], ◌∷◌, ◌++◌, map, List, Option, Some};
ghost use Rattle.std.specs.Prelude.{true, filter, IfOk, IfErr, OnOk, OnErr, ◌&&◌};
ghost use Rattle.std.specs.Prelude.{IsErrOf};
ghost use Rattle.vault.specs.Limit.{payload_most};
ghost use Rattle.value_codec.specs.SchemaSpelling.{HasSchemaSpelling};
ghost use Rattle.row_store.specs.Spelling.{table_payload};
ghost use Rattle.row_value.specs.declared.schema.Schema.{Schema as ASchema};
ghost use Rattle.step_tables.specs.Sayings.{saying};
ghost use Rattle.std.specs.Vec.{vec_capacity, vec_len};
ghost use Rattle.step_tables.specs.StoreMoves.{StoreStep, TableStore, Work, Crash};
ghost use Rattle.step_tables.specs.Messages as messages;
ghost use Rattle.store_node.specs.declared.fault.NodeFault.TheVariants.{Disk as DiskFailed, Memory};
ghost use Rattle.store_node.specs.Due.{fact_of};
ghost use Rattle.disk_trait.specs.Fuse.{behind, inner_of};
ghost use Rattle.vault.specs.Standing.{disk_of};
ghost use Rattle.row_store.specs.Standing as rows;
ghost use Rattle.store_commit.specs.Standing.{RowsLeave};
ghost use Rattle.store_node.specs.Node.{IsNode, IsTable, has_task, own_faults, behind_next, LeavesRows};
ghost use Rattle.store_node.specs.Node.{HasBlankDisks, HasNoRows};
ghost use Rattle.store_node.specs.Sides.{IsOfClient, listed, put_of};
ghost use Rattle.table_model.specs.declared.table_state.TableState.{TableState as AState};
ghost use Rattle.world_tables.specs.World.{goes_on, history_on, next_step, tasks_in, new_hosted, is_live_state};
ghost use Rattle.world_tables.specs.World as world;
ghost use Rattle.store_host.specs.Holds.{IsHosted, outs_in, outbox_of, says_something, disks_at, AreBlankDisks};
ghost use Rattle.store_host.specs.Steps.{IsTelling, HasTold, moved_at, started_at, faults_of, HasNodeCause};
ghost use Rattle.store_host.specs.Steps.{HasCrashed, HasTaken, HasNodeTakeCause, HasPlaced, HasShown, HasGiven};
ghost use Rattle.store_host.specs.Steps.{state_up};

use disk_trait::Disk;
use row_value::Schema;
use stab_base::{Node, RowId, Sequence, Step, StoreNo, TableNo};
use std::alloc::Global;
use std::mem;
use step_tables::Message;
use store_node::{NodeFault, ShownRow, SidePut, StoreFact, StoreOut, Subs, TableNode, WholeRow};
use table_model::{History, TableState};

/// What a table told and sent, with the Store that keeps it.
#[derive(Debug, Drop)]
pub struct TableOut {
    pub store: StoreNo,
    pub out: StoreOut,
}

/// A table at its Store, and the history that it has told.
#[derive(Drop)]
pub(crate) struct Hosted<D: Disk> {
    pub(crate) node: TableNode<D>,
    pub(crate) history: History,
}

// Adds the entry that a fact tells, where its version is new.
fn keep(history: &mut History, fact: &StoreFact) -> Result<(), NodeFault>
    ensures kept { OnOk result (history.new ≡ goes_on history.old (saying (fact_of fact.now))) }
    ensures memory { IfErr result (λ e. e ≡ Memory) }
{
    if let StoreFact::Accepted { entry, .. } | StoreFact::Forward { entry, .. } = fact {
        if (history.len() as u64) < entry.version {
            history.push(*entry)?;
        }
    }
    Ok(())
}

fn keep_all(history: &mut History, facts: &[StoreFact]) -> Result<(), NodeFault>
    ensures kept { OnOk result (history.new ≡ history_on history.old (map fact_of facts.now)) }
    ensures memory { IfErr result (λ e. e ≡ Memory) }
{
    for fact in facts {
        keep(history, fact)?;
    }
    Ok(())
}

// Whether there is a fact or a message.
fn says_something(it: &TableOut) -> bool
    ensures { result ≡ says_something (outbox_of it.now) }
{
    if it.out.facts.len() != 0 {
        return true;
    }
    it.out.messages.len() != 0
}

// Adds what a table told and sent, unless it is nothing.
fn put(outs: &mut Sequence<TableOut>, out: TableOut) -> Result<(), NodeFault>
    ensures put { OnOk result (outs_in outs.new ≡ outs_in outs.old ++ filter says_something (outbox_of out ∷ [])) }
    ensures memory { IfErr result (λ e. e ≡ Memory) }
{
    if !says_something(&out) {
        return Ok(());
    }
    outs.push(out)?;
    Ok(())
}

// Adds what a table told and sent where there is room for it, unless it is nothing.
fn put_at_once(outs: &mut Vec<TableOut>, out: TableOut)
    requires { vec_len outs.old < vec_capacity outs.old }
    ensures put { outs_in outs.new.items ≡ outs_in outs.old.items ++ filter says_something (outbox_of out ∷ []) }
    ensures silent { says_something (outbox_of out) ≡ false → outs.new.items ≡ outs.old.items }
{
    if says_something(&out) {
        outs.push(out).unwrap();
    }
}

impl<D: Disk + Drop> Hosted<D> {
    /// A table that isn't declared yet, is to be in this state, and has told nothing.
    pub(crate) fn new(
        alloc: Global,
        store: StoreNo,
        table: TableNo,
        schema: Schema,
        state: TableState,
        chunk_disk: D,
        row_disk: D,
        log_disk: D,
    ) -> Hosted<D>
        requires size { 0 < schema.chunk }
        requires spelled { HasSchemaSpelling schema }
        requires short { length (table_payload schema 2) ≤ payload_most }
        ensures hosted { IsHosted D.state store (Some schema) table (new_hosted state false) result }
        ensures declared { result.node.is_declared ≡ false }
        ensures faults { own_faults D.state result.node ≡ faults_of D.state chunk_disk row_disk log_disk }
        ensures blank { AreBlankDisks D.state chunk_disk row_disk log_disk → HasBlankDisks D.state result.node }
        ensures rows { inner_of (disk_of (rows.vault_of result.node.devs.rows)) ≡ row_disk }
    {
        Hosted {
            node: TableNode::new(
                alloc, store, table, schema, state, chunk_disk, row_disk, log_disk,
            ),
            history: Sequence::new(alloc),
        }
    }

    /// Makes the table one with no rows, in its first state, which is up.
    pub(crate) fn declare(&mut self) -> Result<(), NodeFault>
        requires node { IsNode D.state self.old.node }
        requires undeclared { self.old.node.is_declared ≡ false }
        ensures declared { (store : ℕ) (declared : Option ASchema) (table : ℕ) (stage : AState)
            → IsHosted D.state store declared table (new_hosted stage false) self.old
            → OnOk result (IsHosted D.state store declared table (new_hosted stage true) self.new) }
        ensures refused { (store : ℕ) (declared : Option ASchema) (table : ℕ) (stage : AState)
            → IsHosted D.state store declared table (new_hosted stage false) self.old
            → OnErr result (IsHosted D.state store declared table (new_hosted stage false) self.new) }
        ensures cause { HasNodeCause D.state self.old.node self.new.node result }
        // On blank disks a crash leaves no rows.
        ensures blank { HasBlankDisks D.state self.old.node → OnOk result (RowsLeave (behind D.state)
            (λ f. D.images (inner_of f)) self.old.node.devs self.new.node.devs
            (HasNoRows self.old.node.schema self.old.node.state)) }
        ensures schema { OnOk result (self.new.node.schema ≡ self.old.node.schema) }
        ensures state { self.new.node.state ≡ self.old.node.state }
    {
        self.node.declare()
    }

    // Puts what the node tells and sends behind what was told, and keeps the entries that it tells.
    fn tell(&mut self, outs: &mut Sequence<TableOut>) -> Result<(), NodeFault>
        ensures told { (store : ℕ) (schema : Option ASchema) (table : ℕ) (hosted : world.Hosted) (step : StoreStep)
            → IsTelling D.state store schema table hosted step self.old
            → OnOk result (HasTold D.state store schema table hosted step self.new outs.old outs.new) }
        ensures devs { self.new.node.devs ≡ self.old.node.devs }
        ensures memory { IfErr result (λ e. e ≡ Memory) }
    {
        let store = self.node.store();
        let out = self.node.take_out();
        keep_all(&mut self.history, out.facts.as_slice())?;
        put(outs, TableOut { store, out })
    }

    /// Does the next write, if there is one, and puts what it tells and sends behind what was told.
    pub(crate) fn work(&mut self, outs: &mut Sequence<TableOut>) -> Result<Step, NodeFault>
        requires { IsNode D.state self.old.node }
        ensures done { (store : ℕ) (schema : Option ASchema) (table : ℕ) (hosted : world.Hosted)
            → IsHosted D.state store schema table hosted self.old → IfOk result (λ step.
            HasTold D.state store schema table hosted (moved_at store schema table hosted (Work messages.Done))
            self.new outs.old outs.new × (step ≡ next_step (tasks_in hosted.store.agenda))) }
        ensures failed { (store : ℕ) (schema : Option ASchema) (table : ℕ) (hosted : world.Hosted)
            → IsHosted D.state store schema table hosted self.old → IsErrOf result DiskFailed
            → HasTold D.state store schema table hosted
            (moved_at store schema table hosted (Work messages.FailedBefore))
            self.new outs.old outs.new
            ⊎ HasTold D.state store schema table hosted (moved_at store schema table hosted (Work messages.FailedAfter))
            self.new outs.old outs.new }
        ensures cause { HasNodeCause D.state self.old.node self.new.node result }
        ensures left { (store : ℕ) (schema : Option ASchema) (table : ℕ) (hosted : world.Hosted)
            → IsHosted D.state store schema table hosted self.old → hosted.made ≡ true
            → LeavesRows D.state D.images self.old.node self.new.node hosted.store.disk
            (behind_next hosted.store.disk hosted.store.agenda) }
    {
        if !self.node.is_up() {
            return Ok(Step::Idle);
        }
        match self.node.work() {
            Ok(step) => {
                self.tell(outs)?;
                Ok(step)
            }
            Err(fault) => Err(fault),
        }
    }

    /// Crashes the node inside its next write, if it is up. It takes no memory.
    pub(crate) fn crash(&mut self, calls: u32, pick: u64)
        requires { IsNode D.state self.old.node }
        ensures crashed { (store : ℕ) (schema : Option ASchema) (table : ℕ) (hosted : world.Hosted)
            → IsHosted D.state store schema table hosted self.old
            → HasCrashed D.state store schema table hosted calls self.old self.new }
        ensures left { (store : ℕ) (schema : Option ASchema) (table : ℕ) (hosted : world.Hosted)
            → IsHosted D.state store schema table hosted self.old → hosted.made ≡ true
            → LeavesRows D.state D.images self.old.node self.new.node hosted.store.disk
            (behind_next hosted.store.disk hosted.store.agenda) }
    {
        if self.node.is_up() {
            self.node.crash(calls, pick);
        }
    }

    /// Takes the node down beside any write. It takes no memory.
    pub(crate) fn halt(&mut self)
        requires { IsNode D.state self.old.node }
        ensures halted { (store : ℕ) (schema : Option ASchema) (table : ℕ) (hosted : world.Hosted)
            → IsHosted D.state store schema table hosted self.old
            → HasTold D.state store schema table hosted
            (moved_at store schema table hosted (Crash messages.FailedBefore))
            self.new [] [] }
        ensures counted { own_faults D.state self.new.node ≡ own_faults D.state self.old.node }
        ensures left { (store : ℕ) (schema : Option ASchema) (table : ℕ) (hosted : world.Hosted)
            → IsHosted D.state store schema table hosted self.old → hosted.made ≡ true
            → LeavesRows D.state D.images self.old.node self.new.node hosted.store.disk hosted.store.disk }
    {
        self.node.halt();
    }

    /// Starts the node, and puts what it tells behind what was told.
    pub(crate) fn start(&mut self, outs: &mut Sequence<TableOut>) -> Result<(), NodeFault>
        requires { IsNode D.state self.old.node }
        ensures started { (store : ℕ) (schema : Option ASchema) (table : ℕ) (hosted : world.Hosted)
            → IsHosted D.state store schema table hosted self.old
            → OnOk result (HasTold D.state store schema table (record hosted { made = true })
            (started_at store schema table hosted) self.new outs.old outs.new) }
        ensures refused { (store : ℕ) (schema : Option ASchema) (table : ℕ) (hosted : world.Hosted)
            → IsHosted D.state store schema table hosted self.old → IsErrOf result DiskFailed
            → IsHosted D.state store schema table hosted self.new × (outs.new ≡ outs.old) }
        ensures cause { HasNodeCause D.state self.old.node self.new.node result }
        ensures left { (store : ℕ) (schema : Option ASchema) (table : ℕ) (hosted : world.Hosted)
            → IsHosted D.state store schema table hosted self.old → hosted.made ≡ true
            → LeavesRows D.state D.images self.old.node self.new.node hosted.store.disk hosted.store.disk }
    {
        match self.node.start() {
            Ok(()) => self.tell(outs),
            Err(fault) => Err(fault),
        }
    }

    // Takes a message where no write is to be done, with room for what is sent.
    fn take(
        &mut self,
        outs: &mut Vec<TableOut>,
        from: Node,
        message: &Message,
    ) -> Result<(), NodeFault>
        requires node { IsNode D.state self.old.node }
        requires up { self.old.node.is_up ≡ true }
        requires idle { (s : TableStore) → IsTable D.state self.old.node s → has_task s.agenda ≡ false }
        ensures taken { (store : ℕ) (schema : Option ASchema) (table : ℕ) (hosted : world.Hosted)
            → IsHosted D.state store schema table hosted self.old
            → HasTaken D.state store schema table hosted from message.now self.old self.new outs.old.items
            outs.new.items
            result }
        ensures cause { HasNodeTakeCause D.state self.old.node self.new.node result }
        ensures left { (store : ℕ) (schema : Option ASchema) (table : ℕ) (hosted : world.Hosted)
            → IsHosted D.state store schema table hosted self.old → hosted.made ≡ true
            → LeavesRows D.state D.images self.old.node self.new.node hosted.store.disk hosted.store.disk }
    {
        outs.reserve(1)?;
        self.node.deliver(from, message)?;
        let store = self.node.store();
        let out = self.node.take_out();
        put_at_once(outs, TableOut { store, out });
        Ok(())
    }

    /// Takes a message, and puts what is sent behind what was told. A refusal leaves all as it was, but where a disk
    /// has failed the table is down.
    pub(crate) fn deliver(
        &mut self,
        alloc: Global,
        outs: &mut Sequence<TableOut>,
        from: Node,
        message: &Message,
    ) -> Result<(), NodeFault>
        requires node { IsNode D.state self.old.node }
        requires up { self.old.node.is_up ≡ true }
        ensures taken { (store : ℕ) (schema : Option ASchema) (table : ℕ) (hosted : world.Hosted)
            → IsHosted D.state store schema table hosted self.old
            → HasTaken D.state store schema table hosted from message.now self.old self.new outs.old outs.new result }
        ensures cause { HasNodeTakeCause D.state self.old.node self.new.node result }
        ensures left { (store : ℕ) (schema : Option ASchema) (table : ℕ) (hosted : world.Hosted)
            → IsHosted D.state store schema table hosted self.old → hosted.made ≡ true
            → LeavesRows D.state D.images self.old.node self.new.node hosted.store.disk hosted.store.disk }
    {
        if self.node.is_busy() {
            return self.node.deliver(from, message);
        }
        let mut room = mem::replace(outs, Sequence::new(alloc)).into_vec();
        let answer = self.take(&mut room, from, message);
        *outs = Sequence::from_vec(room);
        answer
    }

    /// Begins a put beside the table's rows. A refusal leaves all as it was, but where a disk has failed the table
    /// is down.
    pub(crate) fn place(&mut self, put: SidePut) -> Result<(), NodeFault>
        requires node { IsNode D.state self.old.node }
        requires up { self.old.node.is_up ≡ true }
        requires client { IsOfClient put }
        ensures placed { (store : ℕ) (schema : Option ASchema) (table : ℕ) (hosted : world.Hosted)
            → IsHosted D.state store schema table hosted self.old
            → HasPlaced D.state store schema table hosted (put_of put) self.new result }
        ensures cause { HasNodeTakeCause D.state self.old.node self.new.node result }
        ensures left { (store : ℕ) (schema : Option ASchema) (table : ℕ) (hosted : world.Hosted)
            → IsHosted D.state store schema table hosted self.old → hosted.made ≡ true
            → LeavesRows D.state D.images self.old.node self.new.node hosted.store.disk hosted.store.disk }
    {
        self.node.place(put)
    }

    /// The state of the table, where it is up.
    pub(crate) fn state(&self) -> Option<TableState>
        ensures { (s : TableStore) → IsTable D.state self.now.node s → result ≡ state_up s }
    {
        if self.node.is_up() {
            return Some(self.node.state());
        }
        None
    }

    /// The subscriptions to the table, by rising client.
    pub(crate) fn subs(&self) -> Result<Subs, NodeFault>
        requires node { IsNode D.state self.now.node }
        requires up { self.now.node.is_up ≡ true }
        ensures subs { (s : TableStore) → IsTable D.state self.now.node s
            → IfOk result (λ subs. subs ≡ listed s.disk.subs) }
        ensures only { IfErr result (λ e. e ≡ NodeFault.Memory) }
    {
        self.node.subs()
    }

    /// Whether the table is live and has writes to do.
    pub(crate) fn is_live_at_work(&self) -> bool
        ensures { (s : TableStore) → IsTable D.state self.now.node s
            → result ≡ (is_live_state s.disk.state && has_task s.agenda) }
    {
        match self.state() {
            Some(TableState::Live) => self.node.is_busy(),
            Some(TableState::Draft) => false,
            Some(TableState::Dropped) => false,
            None => false,
        }
    }

    /// A row with its last version, or none where nothing was written to it.
    pub(crate) fn show(&mut self, row: &RowId) -> Result<Option<ShownRow>, NodeFault>
        requires node { IsNode D.state self.old.node }
        requires up { self.old.node.is_up ≡ true }
        ensures shown { (store : ℕ) (schema : Option ASchema) (table : ℕ) (hosted : world.Hosted)
            → IsHosted D.state store schema table hosted self.old
            → HasShown D.state store schema table hosted row.now self.new result }
        ensures cause { HasNodeCause D.state self.old.node self.new.node result }
        ensures left { (store : ℕ) (schema : Option ASchema) (table : ℕ) (hosted : world.Hosted)
            → IsHosted D.state store schema table hosted self.old → hosted.made ≡ true
            → LeavesRows D.state D.images self.old.node self.new.node hosted.store.disk hosted.store.disk }
    {
        self.node.show(row)
    }

    /// A row whole, or none where nothing was written to it.
    pub(crate) fn row(&mut self, row: &RowId) -> Result<Option<WholeRow>, NodeFault>
        requires node { IsNode D.state self.old.node }
        requires up { self.old.node.is_up ≡ true }
        ensures given { (store : ℕ) (schema : Option ASchema) (table : ℕ) (hosted : world.Hosted)
            → IsHosted D.state store schema table hosted self.old
            → HasGiven D.state store schema table hosted row.now self.new result }
        ensures cause { HasNodeCause D.state self.old.node self.new.node result }
        ensures left { (store : ℕ) (schema : Option ASchema) (table : ℕ) (hosted : world.Hosted)
            → IsHosted D.state store schema table hosted self.old → hosted.made ≡ true
            → LeavesRows D.state D.images self.old.node self.new.node hosted.store.disk hosted.store.disk }
    {
        self.node.row(row)
    }

    /// The disks of the chunks, the rows and the log.
    pub(crate) fn into_disks(self) -> (D, D, D)
        ensures { (number : ℕ) → (number, result) ≡ disks_at (number, self) }
    {
        let Hosted { node, .. } = self;
        node.into_disks()
    }
}
