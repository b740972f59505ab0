//! The Stores with their tables.
ghost use Rattle.std.specs.Prelude.{◌≡◌, ◌⊎◌, ◌<◌, ◌≤◌, ◌≢◌, ◌+◌, ℕ, [], List, Option, None, Some, not, false, true};
ghost use Rattle.std.specs.Prelude.{IfOk, IfErr, OnOk, OnErr, IsErrOf, IsSome, option_copied, option_map, is_some, map};
ghost use Rattle.std.specs.Prelude.{length, drop, slice_get};
ghost use Rattle.std.specs.Prelude.{Bool, if◌then◌else◌};
ghost use Rattle.std.specs.Ordering.{nat_cmp};
ghost use Rattle.std.specs.BTreeMap as tree;
ghost use Rattle.std.specs.BTreeMap.{is_at};
ghost use Rattle.stab_base.specs.declared.node.Node.TheVariants as nodes;
ghost use Rattle.row_value.specs.declared.schema.Schema.{Schema as ASchema};
ghost use Rattle.row_store.specs.Spelling.{table_payload};
ghost use Rattle.vault.specs.Limit.{payload_most};
ghost use Rattle.value_codec.specs.SchemaSpelling.{HasSchemaSpelling};
ghost use Rattle.step_tables.specs.Messages as messages;
ghost use Rattle.step_tables.specs.Messages.{Luck};
ghost use Rattle.store_node.specs.declared.fault.NodeFault.TheVariants.{Disk as DiskFailed, Memory};
ghost use Rattle.world_tables.specs.World.{World as AWorld, Hosted as AHosted, is_down, hosted_at, schema_at};
ghost use Rattle.world_tables.specs.World.{has_store};
ghost use Rattle.world_tables.specs.World.{owner_by, owner_of, tables_of, tasks_of, is_at_work, chunk_in, names_on};
ghost use Rattle.world_tables.specs.World.{busy_table, busy_live, busy_step, write_next, store_until_idle};
ghost use Rattle.world_tables.specs.World.{store_falls};
ghost use Rattle.world_tables.specs.World.{store_crashes, and_then, still, without_down, with_table, with_store};
ghost use Rattle.world_tables.specs.World.{new_hosted};
ghost use Rattle.table_model.specs.declared.table_state.TableState.{TableState as AState};
ghost use Rattle.store_host.specs.Holds.{IsHosted, HoldsParts, HoldsStore, IsStore, SameFaults, LaterFaults, AreLeft};
ghost use Rattle.store_host.specs.Holds.{AreStill, AreBlankDisks, LeavesNoRow, faults_at, disks_at, owner_at};
ghost use Rattle.store_host.specs.Holds.{is_up_at, is_up_for, is_up_there};
ghost use Rattle.store_host.specs.Joining.{risen};
ghost use Rattle.store_host.specs.Steps.{faults_of};
ghost use Rattle.store_host.specs.Calls.{AreMoved, IsMoved, HasCause, HasLuck, Takes, HasTakeCause, ShowsRow, GivesRow};
ghost use Rattle.store_host.specs.Calls.{PutsBeside, restart_moves, table_in, busy_version, state_at, subs_at};
ghost use Rattle.store_node.specs.Sides.{IsOfClient, put_of};

use crate::hosted::{Hosted, TableOut};
use crate::joining::{any_down, owner_in, renew_all, renew_at, settle_all};
use crate::store::StoreState;
use crate::tables::{
    any_unmade, busy_version_at, crash_busy, deliver_to, first_busy, first_live_busy, halt_all,
    is_busy_at, place_at, restart, row_at, show_at, work_at,
};
use disk_trait::Disk;
use ring_map::Ring;
use row_value::Schema;
use stab_base::{Names, Node, RowId, Sequence, Step, StoreNo, TableNo, Version};
use std::alloc::Global;
use std::collections::BTreeMap;
use step_tables::Message;
use store_node::{NodeFault, ShownRow, SidePut, Subs, WholeRow, table_of};
use table_model::{History, TableState};

/// The Stores with their tables, each table on its three disks and kept by its owner on the ring. A Store is up or down
/// with all its tables.
#[derive(Drop)]
pub struct StoreHost<D: Disk> {
    pub(crate) ring: Ring,
    pub(crate) stores: BTreeMap<StoreNo, StoreState>,
    pub(crate) tables: BTreeMap<TableNo, Hosted<D>>,
    pub(crate) outs: Sequence<TableOut>,
    pub(crate) alloc: Global,
}

impl<D: Disk + Drop> StoreHost<D> {
    /// No Stores and no tables.
    pub fn new(alloc: Global) -> StoreHost<D>
        ensures held { (w : AWorld) → w.stores ≡ [] → w.tables ≡ [] → w.downs ≡ [] → HoldsStore D.state w result }
        ensures told { result.outs ≡ [] }
    {
        StoreHost {
            ring: Ring::new(alloc),
            stores: BTreeMap::new(alloc),
            tables: BTreeMap::new(alloc),
            outs: Sequence::new(alloc),
            alloc,
        }
    }

    /// Declares a Store: a table whose owner it becomes is its own from now on. It is up, unless another Store was
    /// taken down: then it is down too.
    pub fn declare_store(&mut self, number: StoreNo) -> Result<(), NodeFault>
        requires held { IsStore D.state self.old }
        ensures declared { (w : AWorld) → HoldsStore D.state w self.old
            → OnOk result (HoldsStore D.state (with_store number w) self.new) }
        ensures outs { self.new.outs ≡ self.old.outs }
        ensures counted { OnOk result (SameFaults D.state self.old.tables self.new.tables) }
        ensures left { (w : AWorld) → HoldsStore D.state w self.old
            → OnOk result (AreStill D.state D.images w self.old.tables self.new.tables) }
        ensures memory { IfErr result (λ e. e ≡ Memory) }
    {
        let is_down = any_down(&self.stores);
        self.ring.join_node(number)?;
        let store = StoreState {
            tables: Sequence::new(self.alloc),
            is_down,
            is_late: false,
        };
        self.stores.insert(number, store)?;
        settle_all(&self.ring, &mut self.tables);
        renew_all(self.alloc, &mut self.stores, &self.tables)
    }

    /// Whether the Store was declared.
    pub fn has_store(&self, store: StoreNo) -> bool
        ensures there { result ≡ is_some (tree.get nat_cmp self.now.stores store) }
        ensures held { (w : AWorld) → HoldsStore D.state w self.now → result ≡ has_store w store }
    {
        self.stores.contains_key(&store)
    }

    /// Whether the Store is up; one that wasn't declared is down.
    pub fn is_up(&self, store: StoreNo) -> bool
        ensures up { result ≡ is_up_at self.now store }
        ensures held { (w : AWorld) → HoldsStore D.state w self.now → result ≡ not (is_down w (nodes.Store store)) }
    {
        match self.stores.get(&store) {
            Some(state) => !(state.is_down || state.is_late),
            None => false,
        }
    }

    /// Whether the table was added.
    pub fn has(&self, table: TableNo) -> bool
        ensures there { result ≡ is_some (tree.get nat_cmp self.now.tables table) }
        ensures held { (w : AWorld) → HoldsStore D.state w self.now → result ≡ is_some (hosted_at w table) }
    {
        self.tables.contains_key(&table)
    }

    /// The Store that keeps the table; 0 for one that wasn't added.
    pub fn owner(&self, table: TableNo) -> StoreNo
        ensures there { result ≡ owner_at self.now.tables table }
        ensures held { (w : AWorld) (hosted : AHosted) → HoldsStore D.state w self.now
            → hosted_at w table ≡ Some hosted → result ≡ owner_of w table }
    {
        match self.tables.get(&table) {
            Some(hosted) => hosted.node.store(),
            None => 0,
        }
    }

    /// Whether the table has writes to do.
    pub fn is_busy(&self, table: TableNo) -> bool
        ensures { (w : AWorld) → HoldsStore D.state w self.now → result ≡ is_at_work w table }
    {
        is_busy_at(&self.tables, table)
    }

    /// Whether the table is there and up.
    pub fn is_table_up(&self, table: TableNo) -> bool
        ensures { (w : AWorld) → HoldsStore D.state w self.now → result ≡ is_up_there (hosted_at w table) }
    {
        match self.tables.get(&table) {
            Some(hosted) => hosted.node.is_up(),
            None => false,
        }
    }

    /// What the table has told, in order.
    pub fn history(&self, table: TableNo) -> Option<&History>
        ensures { (w : AWorld) → HoldsStore D.state w self.now
            → option_copied result ≡ option_map (λ (hosted : AHosted). hosted.history) (hosted_at w table) }
    {
        match self.tables.get(&table) {
            Some(hosted) => Some(&hosted.history),
            None => None,
        }
    }

    /// Hands over what the moves so far told and sent, those that did neither left out. It takes no memory.
    pub fn take_outs(&mut self) -> Sequence<TableOut>
        ensures outs { result ≡ self.old.outs }
        ensures none { self.new.outs ≡ [] }
        ensures held { (w : AWorld) → HoldsStore D.state w self.old → HoldsStore D.state w self.new }
        ensures same { self.new ≡ record self.old { outs = self.new.outs } }
    {
        std::mem::replace(&mut self.outs, Sequence::new(self.alloc))
    }

    // Adds a table that isn't there, to its owner's too.
    fn put(&mut self, table: TableNo, hosted: Hosted<D>) -> Result<(), NodeFault>
        requires { tree.get nat_cmp self.old.tables table ≡ None }
        ensures put { (w : AWorld) (schema : ASchema) (stage : AState) (made : Bool) → HoldsStore D.state w self.old
            → IsHosted D.state (owner_by w.stores (Some schema)) (Some schema) table (new_hosted stage made) hosted
            → OnOk result (HoldsStore D.state (with_table w table schema stage made) self.new) }
        ensures outs { self.new.outs ≡ self.old.outs }
        ensures tables { OnOk result ((q : ℕ) → tree.get nat_cmp self.new.tables q
            ≡ (if is_at (nat_cmp table) q then Some hosted else tree.get nat_cmp self.old.tables q)) }
        ensures memory { IfErr result (λ e. e ≡ Memory) }
    {
        let store = hosted.node.store();
        self.tables.insert(table, hosted)?;
        renew_at(self.alloc, &mut self.stores, store, &self.tables)
    }

    /// Adds a table in this state on its disks for chunks, rows and log, whatever they hold, and makes it one with no
    /// rows. It is up.
    ///
    /// `Disk` where a disk failed: the table is there, its owner is down, and the next start of that Store makes the
    /// table.
    pub fn add(
        &mut self,
        table: TableNo,
        schema: Schema,
        state: TableState,
        chunk_disk: D,
        row_disk: D,
        log_disk: D,
    ) -> Result<(), NodeFault>
        requires held { IsStore D.state self.old }
        requires absent { tree.get nat_cmp self.old.tables table ≡ None }
        requires size { 0 < schema.chunk }
        requires spelled { HasSchemaSpelling schema }
        requires short { length (table_payload schema 2) ≤ payload_most }
        ensures added { (w : AWorld) → HoldsStore D.state w self.old
            → OnOk result (HoldsStore D.state (with_table w table schema state true) self.new) }
        ensures failed { (w : AWorld) → HoldsStore D.state w self.old → IsErrOf result DiskFailed
            → HoldsStore D.state (with_table w table schema state false) self.new }
        ensures outs { self.new.outs ≡ self.old.outs }
        ensures counted { OnOk result (faults_at D.state self.new.tables table
            ≡ faults_of D.state chunk_disk row_disk log_disk) }
        ensures cause { IsErrOf result DiskFailed
            → faults_of D.state chunk_disk row_disk log_disk < faults_at D.state self.new.tables table }
        ensures others { (q : ℕ) → q ≢ table
            → OnOk result (faults_at D.state self.new.tables q ≡ faults_at D.state self.old.tables q) }
        ensures others_failed { (q : ℕ) → q ≢ table → IsErrOf result DiskFailed
            → faults_at D.state self.new.tables q ≡ faults_at D.state self.old.tables q }
        ensures left { (w : AWorld) → HoldsStore D.state w self.old
            → OnOk result (AreStill D.state D.images w self.old.tables self.new.tables) }
        ensures left_failed { (w : AWorld) → HoldsStore D.state w self.old → IsErrOf result DiskFailed
            → AreStill D.state D.images w self.old.tables self.new.tables }
        // On blank disks a crash leaves no row of the new table, at any moment since they were handed in.
        ensures blank { AreBlankDisks D.state chunk_disk row_disk log_disk → OnOk result ((it : Hosted D)
            → tree.get nat_cmp self.new.tables table ≡ Some it → LeavesNoRow D.state D.images row_disk it) }
        ensures only { IfErr result (λ e. (e ≡ DiskFailed) ⊎ (e ≡ Memory)) }
    {
        let store = owner_in(&self.ring, schema.name.as_slice());
        let mut hosted = Hosted::new(
            self.alloc, store, table, schema, state, chunk_disk, row_disk, log_disk,
        );
        match hosted.declare() {
            Ok(()) => self.put(table, hosted),
            Err(NodeFault::Disk) => {
                self.put(table, hosted)?;
                Err(NodeFault::Disk)
            }
            Err(fault) => Err(fault),
        }
    }

    // Takes a Store down with all its tables, beside any write.
    fn fall(&mut self, store: StoreNo)
        requires { (w : AWorld) × HoldsParts D.state w store self.old }
        ensures fallen { (w : AWorld) → HoldsParts D.state w store self.old → has_store w store ≡ true
            → IsMoved D.state self.old self.new (store_falls store w) }
        ensures counted { SameFaults D.state self.old.tables self.new.tables }
        ensures left { (w : AWorld) → HoldsParts D.state w store self.old
            → AreStill D.state D.images w self.old.tables self.new.tables }
        ensures down { is_up_at self.new store ≡ false }
        ensures outs { self.new.outs ≡ self.old.outs }
    {
        if let Some(state) = self.stores.get_mut(&store) {
            halt_all(state.tables.as_slice(), &mut self.tables);
            state.is_down = true;
            state.is_late = any_unmade(state.tables.as_slice(), &self.tables);
        }
    }

    /// A Store's table of least number that has writes to do.
    pub fn busy_table(&self, store: StoreNo) -> Option<TableNo>
        ensures { (w : AWorld) → HoldsStore D.state w self.now → result ≡ busy_table w store }
    {
        match self.stores.get(&store) {
            Some(state) => first_busy(state.tables.as_slice(), &self.tables),
            None => None,
        }
    }

    /// A Store's live table of least number that has writes to do.
    pub fn busy_live(&self, store: StoreNo) -> Option<TableNo>
        ensures { (w : AWorld) → HoldsStore D.state w self.now → result ≡ busy_live w store }
    {
        match self.stores.get(&store) {
            Some(state) => first_live_busy(state.tables.as_slice(), &self.tables),
            None => None,
        }
    }

    /// The version of a table's next write; 0 where it has none.
    pub fn busy_version(&self, table: TableNo) -> Version
        requires { IsStore D.state self.now }
        ensures { (w : AWorld) → HoldsStore D.state w self.now → result ≡ busy_version (hosted_at w table) }
    {
        busy_version_at(&self.tables, table)
    }

    /// Does the next write of the Store's table of least number that has any; what it is called, `Idle` where there is
    /// none.
    ///
    /// `Disk` where a disk failed: the Store is then down, and the write is undone or done.
    pub fn work(&mut self, store: StoreNo) -> Result<Step, NodeFault>
        requires held { IsStore D.state self.old }
        requires up { is_up_at self.old store ≡ true }
        ensures done { (w : AWorld) → HoldsStore D.state w self.old → IfOk result (λ step.
            IsMoved D.state self.old self.new (write_next store messages.Done (busy_table w store) w)
            × (step ≡ busy_step w (busy_table w store))) }
        ensures failed { (w : AWorld) → HoldsStore D.state w self.old → IsErrOf result DiskFailed
            → IsMoved D.state self.old self.new (write_next store messages.FailedBefore (busy_table w store) w)
            ⊎ IsMoved D.state self.old self.new (write_next store messages.FailedAfter (busy_table w store) w) }
        ensures faulty { (w : AWorld) → HoldsStore D.state w self.old → IsErrOf result DiskFailed
            → ((write_next store messages.FailedBefore (busy_table w store) w).failed ≡ true)
            × ((write_next store messages.FailedAfter (busy_table w store) w).failed ≡ true) }
        ensures up { OnOk result (self.new.stores ≡ self.old.stores) }
        ensures cause { HasCause D.state self.old.tables self.new.tables result }
        ensures left { (w : AWorld) → HoldsStore D.state w self.old
            → AreLeft D.state D.images w self.old.tables self.new.tables }
    {
        let Some(table) = self.busy_table(store) else {
            return Ok(Step::Idle);
        };
        match work_at(&mut self.tables, &mut self.outs, table) {
            Ok(step) => Ok(step),
            Err(NodeFault::Disk) => {
                self.fall(store);
                Err(NodeFault::Disk)
            }
            Err(fault) => Err(fault),
        }
    }

    /// Does all writes of the Store's tables, one after the other, until there are none: how many they were.
    ///
    /// `Disk` where a disk failed: the Store is then down, and the last write is undone or done.
    pub fn work_all(&mut self, store: StoreNo) -> Result<u64, NodeFault>
        requires held { IsStore D.state self.old }
        requires up { is_up_at self.old store ≡ true }
        ensures done { (w : AWorld) → HoldsStore D.state w self.old → IfOk result (λ count.
            (count ≡ length (tasks_of w store))
            × (lucks : List Luck) × ((store_until_idle store lucks w).failed ≡ false)
            × IsMoved D.state self.old self.new (store_until_idle store lucks w)) }
        ensures failed { (w : AWorld) → HoldsStore D.state w self.old → IsErrOf result DiskFailed
            → (lucks : List Luck) × ((store_until_idle store lucks w).failed ≡ true)
            × IsMoved D.state self.old self.new (store_until_idle store lucks w) }
        ensures cause { HasCause D.state self.old.tables self.new.tables result }
        ensures left { (w : AWorld) → HoldsStore D.state w self.old
            → AreLeft D.state D.images w self.old.tables self.new.tables }
    {
        for count in 0..u64::MAX {
            let Some(_table) = self.busy_table(store) else {
                return Ok(count);
            };
            self.work(store)?;
        }
        Err(NodeFault::Memory)
    }

    /// Takes a message for the owner of its table; one for a table that isn't there is lost, and so is one whose
    /// content is no row of the table.
    ///
    /// `Busy` where the table has writes to do, with the version at work, and `Spent` where a new write finds no
    /// version left. `Disk` where a disk failed: the owner is then down, with all its tables. Any other fault leaves
    /// all as it was.
    pub fn deliver(&mut self, from: Node, message: &Message) -> Result<(), NodeFault>
        requires held { IsStore D.state self.old }
        requires up { is_up_for self.old (table_in message.now) ≡ true }
        ensures takes { (w : AWorld) → HoldsStore D.state w self.old
            → Takes D.state w from message.now self.old self.new result }
        ensures outs { OnErr result (self.new.outs ≡ self.old.outs) }
        ensures up { (IsErrOf result DiskFailed → ⊥) → self.new.stores ≡ self.old.stores }
        ensures down { IsErrOf result DiskFailed
            → is_up_at self.new (owner_at self.old.tables (table_in message.now)) ≡ false }
        ensures cause { HasTakeCause D.state self.old.tables self.new.tables result }
        ensures left { (w : AWorld) → HoldsStore D.state w self.old
            → AreLeft D.state D.images w self.old.tables self.new.tables }
    {
        let store = self.owner(table_of(message));
        match deliver_to(self.alloc, &mut self.tables, &mut self.outs, from, message) {
            Ok(()) => Ok(()),
            Err(NodeFault::Disk) => {
                self.fall(store);
                Err(NodeFault::Disk)
            }
            Err(fault) => Err(fault),
        }
    }

    /// Begins to put a table into a state, or a client's subscription to it, in one write; a table that isn't there is
    /// passed over.
    ///
    /// `Busy` where the table has writes to do, with the version at work. `Disk` where a disk failed: the owner is then
    /// down, with all its tables. Any other fault leaves all as it was.
    pub fn place(&mut self, table: TableNo, put: SidePut) -> Result<(), NodeFault>
        requires held { IsStore D.state self.old }
        requires up { is_up_for self.old table ≡ true }
        requires client { IsOfClient put }
        ensures puts { (w : AWorld) → HoldsStore D.state w self.old
            → PutsBeside D.state w table (put_of put) self.old self.new result }
        ensures outs { self.new.outs ≡ self.old.outs }
        ensures up { (IsErrOf result DiskFailed → ⊥) → self.new.stores ≡ self.old.stores }
        ensures down { IsErrOf result DiskFailed → is_up_at self.new (owner_at self.old.tables table) ≡ false }
        ensures cause { HasTakeCause D.state self.old.tables self.new.tables result }
        ensures left { (w : AWorld) → HoldsStore D.state w self.old
            → AreLeft D.state D.images w self.old.tables self.new.tables }
    {
        let store = self.owner(table);
        match place_at(&mut self.tables, table, put) {
            Ok(()) => Ok(()),
            Err(NodeFault::Disk) => {
                self.fall(store);
                Err(NodeFault::Disk)
            }
            Err(fault) => Err(fault),
        }
    }

    /// The subscriptions to a table, by rising client; none where it isn't there.
    pub fn subs(&self, table: TableNo) -> Result<Subs, NodeFault>
        requires held { IsStore D.state self.now }
        requires up { is_up_for self.now table ≡ true }
        ensures subs { (w : AWorld) → HoldsStore D.state w self.now
            → IfOk result (λ subs. subs ≡ subs_at (hosted_at w table)) }
        ensures only { IfErr result (λ e. e ≡ Memory) }
    {
        match self.tables.get(&table) {
            Some(hosted) => hosted.subs(),
            None => Ok(Sequence::new(self.alloc)),
        }
    }

    /// The state of a table; none where it isn't there, or is down.
    pub fn table_state(&self, table: TableNo) -> Option<TableState>
        ensures { (w : AWorld) → HoldsStore D.state w self.now → result ≡ state_at (hosted_at w table) }
    {
        match self.tables.get(&table) {
            Some(hosted) => hosted.state(),
            None => None,
        }
    }

    /// A row of a table with its last version, whole, or none where nothing was written to it. The table may have
    /// writes to do.
    ///
    /// `Disk` where a disk failed: the owner is then down, with all its tables. `Memory` leaves all as it was.
    pub fn show(&mut self, table: TableNo, row: &RowId) -> Result<Option<ShownRow>, NodeFault>
        requires held { IsStore D.state self.old }
        requires up { is_up_for self.old table ≡ true }
        requires there { IsSome (tree.get nat_cmp self.old.tables table) }
        ensures shows { (w : AWorld) → HoldsStore D.state w self.old
            → ShowsRow D.state w table row.now self.old self.new result }
        ensures outs { self.new.outs ≡ self.old.outs }
        ensures up { (IsErrOf result DiskFailed → ⊥) → self.new.stores ≡ self.old.stores }
        ensures down { IsErrOf result DiskFailed → is_up_at self.new (owner_at self.old.tables table) ≡ false }
        ensures cause { HasCause D.state self.old.tables self.new.tables result }
        ensures left { (w : AWorld) → HoldsStore D.state w self.old
            → AreLeft D.state D.images w self.old.tables self.new.tables }
    {
        let store = self.owner(table);
        match show_at(&mut self.tables, table, row) {
            Ok(shown) => Ok(shown),
            Err(NodeFault::Disk) => {
                self.fall(store);
                Err(NodeFault::Disk)
            }
            Err(fault) => Err(fault),
        }
    }

    /// A row of a table whole, with its last version, the names of its chunks and the last write of each client, or
    /// none where nothing was written to it. The table may have writes to do.
    ///
    /// `Disk` where a disk failed: the owner is then down, with all its tables. `Memory` leaves all as it was.
    pub fn row(&mut self, table: TableNo, row: &RowId) -> Result<Option<WholeRow>, NodeFault>
        requires held { IsStore D.state self.old }
        requires up { is_up_for self.old table ≡ true }
        requires there { IsSome (tree.get nat_cmp self.old.tables table) }
        ensures gives { (w : AWorld) → HoldsStore D.state w self.old
            → GivesRow D.state w table row.now self.old self.new result }
        ensures outs { self.new.outs ≡ self.old.outs }
        ensures up { (IsErrOf result DiskFailed → ⊥) → self.new.stores ≡ self.old.stores }
        ensures down { IsErrOf result DiskFailed → is_up_at self.new (owner_at self.old.tables table) ≡ false }
        ensures cause { HasCause D.state self.old.tables self.new.tables result }
        ensures left { (w : AWorld) → HoldsStore D.state w self.old
            → AreLeft D.state D.images w self.old.tables self.new.tables }
    {
        let store = self.owner(table);
        match row_at(&mut self.tables, table, row) {
            Ok(found) => Ok(found),
            Err(NodeFault::Disk) => {
                self.fall(store);
                Err(NodeFault::Disk)
            }
            Err(fault) => Err(fault),
        }
    }

    /// The names of the chunks on a table's device, in rising order: those that rows name, and those that no row names
    /// yet or any more.
    pub fn chunk_names(&self, table: TableNo) -> Result<Names, NodeFault>
        requires held { IsStore D.state self.now }
        requires up { is_up_for self.now table ≡ true }
        requires there { IsSome (tree.get nat_cmp self.now.tables table) }
        ensures names { (w : AWorld) (hosted : AHosted) → HoldsStore D.state w self.now
            → hosted_at w table ≡ Some hosted
            → IfOk result (λ names. names ≡ names_on (chunk_in (schema_at w table)) hosted.store.disk) }
        ensures only { IfErr result (λ e. e ≡ Memory) }
    {
        self.tables.get(&table).unwrap().node.chunk_names()
    }

    /// Crashes the Store: of the disk of the next write the first `calls` calls pass, and a write that follows lands
    /// its first `pick` bytes. The Store is then down with all its tables. It takes no memory. Unless a disk fails by
    /// itself, the write is undone where `calls` is 0 or 1, and done where it is 4 or more.
    pub fn crash(&mut self, store: StoreNo, calls: u32, pick: u64)
        requires held { IsStore D.state self.old }
        requires up { is_up_at self.old store ≡ true }
        ensures crashed { (w : AWorld) → HoldsStore D.state w self.old
            → (lucks : List Luck) × IsMoved D.state self.old self.new (store_crashes store calls lucks w)
            × HasLuck D.state (busy_table w store) self.old.tables self.new.tables lucks }
        ensures later { LaterFaults D.state self.old.tables self.new.tables }
        ensures left { (w : AWorld) → HoldsStore D.state w self.old
            → AreLeft D.state D.images w self.old.tables self.new.tables }
        ensures down { is_up_at self.new store ≡ false }
        ensures outs { self.new.outs ≡ self.old.outs }
    {
        let busy = self.busy_table(store);
        crash_busy(busy, &mut self.tables, calls, pick);
        self.fall(store);
    }

    // Lets a Store's tables fall, and starts them.
    fn restart(&mut self, store: StoreNo) -> Result<(), NodeFault>
        requires held { IsStore D.state self.old }
        ensures started { (w : AWorld) → HoldsStore D.state w self.old → OnOk result ((lucks : List Luck)
            × AreMoved D.state w self.new.tables self.old.outs self.new.outs false
            (restart_moves (tables_of w store) lucks w)) }
        ensures refused { (w : AWorld) → HoldsStore D.state w self.old → IsErrOf result DiskFailed
            → (lucks : List Luck) × AreMoved D.state w self.new.tables self.old.outs self.new.outs true
            (restart_moves (tables_of w store) lucks w) }
        ensures cause { HasCause D.state self.old.tables self.new.tables result }
        ensures left { (w : AWorld) → HoldsStore D.state w self.old
            → AreStill D.state D.images w self.old.tables self.new.tables }
        ensures same { self.new ≡ record self.old { tables = self.new.tables; outs = self.new.outs } }
    {
        match self.stores.get(&store) {
            Some(state) => restart(state.tables.as_slice(), &mut self.tables, &mut self.outs),
            None => Ok(()),
        }
    }

    // The Store is up.
    fn rise(&mut self, store: StoreNo)
        ensures stores { (q : ℕ) → tree.get nat_cmp self.new.stores q ≡ (if is_at (nat_cmp store) q
            then option_map risen (tree.get nat_cmp self.old.stores q) else tree.get nat_cmp self.old.stores q) }
        ensures same { self.new ≡ record self.old { stores = self.new.stores } }
    {
        if let Some(state) = self.stores.get_mut(&store) {
            state.is_down = false;
            state.is_late = false;
        }
    }

    /// Starts all tables of the Store, one after the other, and the Store is up. A Store that is down by a declaration
    /// alone loses first what its other tables have begun.
    ///
    /// `Disk` where a disk failed: the Store is then still down, with all its tables.
    pub fn start(&mut self, store: StoreNo) -> Result<(), NodeFault>
        requires held { IsStore D.state self.old }
        requires declared { IsSome (tree.get nat_cmp self.old.stores store) }
        requires down { is_up_at self.old store ≡ false }
        ensures started { (w : AWorld) → HoldsStore D.state w self.old → OnOk result ((lucks : List Luck)
            × ((restart_moves (tables_of w store) lucks w).failed ≡ false)
            × IsMoved D.state self.old self.new (and_then (restart_moves (tables_of w store) lucks w)
            (λ x. still (without_down (nodes.Store store) x)))) }
        ensures failed { (w : AWorld) → HoldsStore D.state w self.old → IsErrOf result DiskFailed
            → (lucks : List Luck) × ((restart_moves (tables_of w store) lucks w).failed ≡ true)
            × IsMoved D.state self.old self.new
            (and_then (restart_moves (tables_of w store) lucks w) (store_falls store)) }
        ensures up { OnOk result (is_up_at self.new store ≡ true) }
        ensures cause { HasCause D.state self.old.tables self.new.tables result }
        ensures left { (w : AWorld) → HoldsStore D.state w self.old
            → AreLeft D.state D.images w self.old.tables self.new.tables }
    {
        match self.restart(store) {
            Ok(()) => {
                self.rise(store);
                Ok(())
            }
            Err(NodeFault::Disk) => {
                self.fall(store);
                Err(NodeFault::Disk)
            }
            Err(fault) => Err(fault),
        }
    }

    /// Takes away the table of least number, if there is one, and gives back its disks: those of the chunks, the rows
    /// and the log. It takes no memory.
    pub fn take_disks(&mut self) -> Option<(TableNo, (D, D, D))>
        ensures disks { result ≡ option_map disks_at (slice_get self.old.tables.entries 0) }
        ensures others { self.new.tables.entries ≡ drop 1 self.old.tables.entries }
    {
        match self.tables.pop_first() {
            Some((table, hosted)) => Some((table, hosted.into_disks())),
            None => None,
        }
    }

    /// Gives back the disks of each table, by rising number: those of the chunks, the rows and the log.
    pub fn into_disks(self) -> Result<Sequence<(TableNo, (D, D, D))>, NodeFault>
        ensures disks { IfOk result (λ disks. disks ≡ map disks_at self.tables.entries) }
        ensures memory { IfErr result (λ e. e ≡ Memory) }
    {
        let StoreHost { tables, alloc, .. } = self;
        let mut disks = Sequence::new(alloc);
        for (table, hosted) in tables {
            disks.push((table, hosted.into_disks()))?;
        }
        Ok(disks)
    }
}
