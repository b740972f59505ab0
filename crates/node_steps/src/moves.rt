//! What is done to the Stores: their moves, and the answer that comes of them.
ghost use Rattle.std.specs.Prelude.{◌≡◌, ◌≢◌, ℕ, List, length, None, Some, IsSome, IfOk, IfErr, OnOk, true};
ghost use Rattle.std.specs.Prelude.{false};
ghost use Rattle.std.specs.Ordering.{nat_cmp};
ghost use Rattle.std.specs.BTreeMap as tree;
ghost use Rattle.stab_base.specs.declared.node.Node.TheVariants as nodes;
ghost use Rattle.step_tables.specs.Facts as moves;
ghost use Rattle.step_tables.specs.Messages.{Luck, table_of};
ghost use Rattle.step_tables.specs.Store.{current_of};
ghost use Rattle.step_tables.specs.StoreMoves.{Take, Place};
ghost use Rattle.step_tables.specs.Travels.{message_of};
ghost use Rattle.world_tables.specs.World.{World as AWorld, Hosted as AHosted, owner_of, has_node, first_luck};
ghost use Rattle.world_tables.specs.World.{busy_table, busy_step, write_next, tasks_of, store_until_idle};
ghost use Rattle.world_tables.specs.World.{store_follows, store_crashes, store_starts, made_with, row_shown};
ghost use Rattle.world_tables.specs.World.{hosted_at, table_follows, move_table};
ghost use Rattle.world_tables.specs.Passed.{started_at};
ghost use Rattle.step_tables.specs.Lines.{answer_of};
ghost use Rattle.world_tables.specs.World.{is_fault};
ghost use Rattle.world_tables.specs.Faults.{is_failure};
ghost use Rattle.store_host.specs.Holds.{HoldsStore, IsStore, SameFaults, AreLeft, AreStill, is_up_at, is_up_for};
ghost use Rattle.store_host.specs.Holds.{owner_at};
ghost use Rattle.store_node.specs.Sides.{IsOfClient, put_of};
ghost use Rattle.store_host.specs.Calls.{FitsIn, HasLuck, IsSpentIn};
ghost use Rattle.store_host.specs.Steps.{faults_of};
ghost use Rattle.node_steps.specs.declared.fault.WorldFault.TheVariants.{Memory, Limit as LimitPassed};
ghost use Rattle.node_steps.specs.declared.fault.WorldFault.TheVariants.{Depot as DepotFailed};
ghost use Rattle.node_steps.specs.Faults.{IsCounted};
ghost use Rattle.node_steps.specs.Outs.{IsAnswered, IsTakenAs, read_moves};
ghost use Rattle.node_steps.specs.Rows.{AreLeftOver};
ghost use Rattle.fair_laws.specs.Reached.{IsMade};

use crate::fault::WorldFault;
use disk_trait::Disk;
use row_value::{RowId, Schema, TableNo};
use stab_base::{NUMBER_MAX, Node, StoreNo};
use step_tables::Message;
use store_host::StoreHost;
use store_node::{NodeFault, SidePut, table_of as table_in};
use table_model::{Answer, Refusal, TableState};

/// Does the next write: what it is called, or that a device failed.
pub(crate) fn work_once<D: Disk + Drop>(
    stores: &mut StoreHost<D>,
    store: StoreNo,
) -> Result<Answer, WorldFault>
    requires held { IsStore D.state stores.old }
    requires up { is_up_at stores.old store ≡ true }
    ensures done { (w : AWorld) → HoldsStore D.state w stores.old → IfOk result (λ answer. (lucks : List Luck)
        × IsAnswered D.state stores.old stores.new (moves.Did (busy_step w (busy_table w store)))
        (write_next store (first_luck lucks) (busy_table w store) w) answer) }
    ensures counted { IfOk result (λ answer.
        IsCounted D.state (is_fault (answer_of answer)) stores.old.tables stores.new.tables) }
    ensures rows { (w : AWorld) → HoldsStore D.state w stores.old → IfOk result (λ answer.
        AreLeft D.state D.images w stores.old.tables stores.new.tables) }
    ensures memory { IfErr result (λ e. e ≡ Memory) }
{
    match stores.work(store) {
        Ok(step) => Ok(Answer::Did(step)),
        Err(NodeFault::Disk) => Ok(Answer::Refused(Refusal::NoDevice)),
        Err(_) => Err(WorldFault::Memory),
    }
}

/// Does all writes: how many they were, or that a device failed.
pub(crate) fn work_all<D: Disk + Drop>(
    stores: &mut StoreHost<D>,
    store: StoreNo,
) -> Result<Answer, WorldFault>
    requires held { IsStore D.state stores.old }
    requires up { is_up_at stores.old store ≡ true }
    ensures done { (w : AWorld) → HoldsStore D.state w stores.old → IfOk result (λ answer. (lucks : List Luck)
        × IsAnswered D.state stores.old stores.new (moves.Number (length (tasks_of w store)))
        (store_until_idle store lucks w) answer) }
    ensures counted { IfOk result (λ answer.
        IsCounted D.state (is_fault (answer_of answer)) stores.old.tables stores.new.tables) }
    ensures rows { (w : AWorld) → HoldsStore D.state w stores.old → IfOk result (λ answer.
        AreLeft D.state D.images w stores.old.tables stores.new.tables) }
    ensures memory { IfErr result (λ e. e ≡ Memory) }
{
    match stores.work_all(store) {
        Ok(count) => Ok(Answer::Number(count)),
        Err(NodeFault::Disk) => Ok(Answer::Refused(Refusal::NoDevice)),
        Err(_) => Err(WorldFault::Memory),
    }
}

/// Does all writes, unless the Store is on hold.
pub(crate) fn follow<D: Disk + Drop>(
    stores: &mut StoreHost<D>,
    store: StoreNo,
    is_held: bool,
) -> Result<Answer, WorldFault>
    requires held { IsStore D.state stores.old }
    requires up { is_up_at stores.old store ≡ true }
    ensures done { (w : AWorld) → HoldsStore D.state w stores.old → is_held ≡ has_node w.holds (nodes.Store store)
        → IfOk result (λ answer. (lucks : List Luck)
        × IsAnswered D.state stores.old stores.new moves.Done (store_follows store lucks w) answer) }
    ensures counted { IfOk result (λ answer.
        IsCounted D.state (is_fault (answer_of answer)) stores.old.tables stores.new.tables) }
    ensures rows { (w : AWorld) → HoldsStore D.state w stores.old → IfOk result (λ answer.
        AreLeft D.state D.images w stores.old.tables stores.new.tables) }
    ensures memory { IfErr result (λ e. e ≡ Memory) }
{
    if is_held {
        return Ok(Answer::Done);
    }
    match stores.work_all(store) {
        Ok(_count) => Ok(Answer::Done),
        Err(NodeFault::Disk) => Ok(Answer::Refused(Refusal::NoDevice)),
        Err(_) => Err(WorldFault::Memory),
    }
}

/// Crashes the Store.
pub(crate) fn crash<D: Disk + Drop>(
    stores: &mut StoreHost<D>,
    store: StoreNo,
    calls: u32,
    pick: u64,
) -> Answer
    requires held { IsStore D.state stores.old }
    requires up { is_up_at stores.old store ≡ true }
    ensures crashed { (w : AWorld) → HoldsStore D.state w stores.old → (lucks : List Luck)
        × IsAnswered D.state stores.old stores.new moves.Done (store_crashes store calls lucks w) result
        × HasLuck D.state (busy_table w store) stores.old.tables stores.new.tables lucks }
    ensures rows { (w : AWorld) → HoldsStore D.state w stores.old
        → AreLeft D.state D.images w stores.old.tables stores.new.tables }
{
    stores.crash(store, calls, pick);
    Answer::Done
}

/// Starts the Store.
pub(crate) fn start<D: Disk + Drop>(
    stores: &mut StoreHost<D>,
    store: StoreNo,
    is_held: bool,
) -> Result<Answer, WorldFault>
    requires held { IsStore D.state stores.old }
    requires declared { IsSome (tree.get nat_cmp stores.old.stores store) }
    requires down { is_up_at stores.old store ≡ false }
    ensures done { (w : AWorld) → HoldsStore D.state w stores.old
        → is_held ≡ has_node w.holds (nodes.Store store) → IfOk result (λ answer. (lucks : List Luck)
        × IsAnswered D.state stores.old stores.new moves.Done (store_starts store lucks w) answer
        × AreLeftOver D.state D.images w (started_at w lucks (nodes.Store store)) stores.old.tables
        stores.new.tables) }
    ensures counted { IfOk result (λ answer.
        IsCounted D.state (is_fault (answer_of answer)) stores.old.tables stores.new.tables) }
    ensures memory { IfErr result (λ e. e ≡ Memory) }
{
    match stores.start(store) {
        Ok(()) => follow(stores, store, is_held),
        Err(NodeFault::Disk) => Ok(Answer::Refused(Refusal::NoDevice)),
        Err(_) => Err(WorldFault::Memory),
    }
}

/// Adds a table in this state on its disks. One of whose disks one fails is there, and its owner is down.
pub(crate) fn add<D: Disk + Drop>(
    stores: &mut StoreHost<D>,
    table: TableNo,
    schema: Schema,
    state: TableState,
    disks: (D, D, D),
) -> Result<(), WorldFault>
    requires held { IsStore D.state stores.old }
    requires absent { tree.get nat_cmp stores.old.tables table ≡ None }
    requires made { IsMade table schema }
    requires sound { faults_of D.state disks.0 disks.1 disks.2 ≡ 0 }
    ensures added { (w : AWorld) → HoldsStore D.state w stores.old → OnOk result ((luck : Luck)
        × HoldsStore D.state (made_with w table schema state luck) stores.new
        × IsCounted D.state (is_failure luck) stores.old.tables stores.new.tables) }
    ensures rows { (w : AWorld) → HoldsStore D.state w stores.old → OnOk result
        (AreStill D.state D.images w stores.old.tables stores.new.tables) }
    ensures outs { stores.new.outs ≡ stores.old.outs }
    ensures memory { IfErr result (λ e. e ≡ Memory) }
{
    let (chunk_disk, row_disk, log_disk) = disks;
    match stores.add(table, schema, state, chunk_disk, row_disk, log_disk) {
        Ok(()) => Ok(()),
        Err(NodeFault::Disk) => Ok(()),
        Err(_) => Err(WorldFault::Memory),
    }
}

/// Shows a row: what its table has of it, or that a device failed.
pub(crate) fn show<D: Disk + Drop>(
    stores: &mut StoreHost<D>,
    table: TableNo,
    row: &RowId,
) -> Result<Answer, WorldFault>
    requires held { IsStore D.state stores.old }
    requires up { is_up_for stores.old table ≡ true }
    requires there { IsSome (tree.get nat_cmp stores.old.tables table) }
    ensures done { (w : AWorld) (hosted : AHosted) → HoldsStore D.state w stores.old
        → hosted_at w table ≡ Some hosted → IfOk result (λ answer. (luck : Luck)
        × IsAnswered D.state stores.old stores.new (row_shown (current_of hosted.store.disk.items row.now))
        (read_moves w table luck) answer) }
    ensures counted { IfOk result (λ answer.
        IsCounted D.state (is_fault (answer_of answer)) stores.old.tables stores.new.tables) }
    ensures rows { (w : AWorld) → HoldsStore D.state w stores.old → IfOk result (λ answer.
        AreLeft D.state D.images w stores.old.tables stores.new.tables) }
    ensures memory { IfErr result (λ e. e ≡ Memory) }
{
    match stores.show(table, row) {
        Ok(Some(shown)) => Ok(Answer::Stored {
            version: shown.version,
            content: shown.content,
        }),
        Ok(None) => Ok(Answer::Refused(Refusal::NoRow)),
        Err(NodeFault::Disk) => Ok(Answer::Refused(Refusal::NoDevice)),
        Err(_) => Err(WorldFault::Memory),
    }
}

// The work that follows a message, where the table has got writes to do.
fn follow_table<D: Disk + Drop>(
    stores: &mut StoreHost<D>,
    store: StoreNo,
    table: TableNo,
    is_held: bool,
) -> Result<Answer, WorldFault>
    requires held { IsStore D.state stores.old }
    requires up { is_up_at stores.old store ≡ true }
    ensures done { (w : AWorld) → HoldsStore D.state w stores.old → owner_of w table ≡ store
        → is_held ≡ has_node w.holds (nodes.Store store) → IfOk result (λ answer. (lucks : List Luck)
        × IsAnswered D.state stores.old stores.new moves.Done (table_follows table lucks w) answer) }
    ensures counted { IfOk result (λ answer.
        IsCounted D.state (is_fault (answer_of answer)) stores.old.tables stores.new.tables) }
    ensures rows { (w : AWorld) → HoldsStore D.state w stores.old → IfOk result (λ answer.
        AreLeft D.state D.images w stores.old.tables stores.new.tables) }
    ensures memory { IfErr result (λ e. e ≡ Memory) }
{
    if stores.is_busy(table) {
        return follow(stores, store, is_held);
    }
    Ok(Answer::Done)
}

/// The Store takes a message for a table that it keeps, and does the work that follows. One for a table that isn't
/// there is lost.
///
/// `Limit` where a new write finds no version left.
pub(crate) fn take<D: Disk + Drop>(
    stores: &mut StoreHost<D>,
    store: StoreNo,
    is_held: bool,
    from: Node,
    message: &Message,
) -> Result<Answer, WorldFault>
    requires held { (w : AWorld) × HoldsStore D.state w stores.old × FitsIn w message.now }
    requires up { is_up_at stores.old store ≡ true }
    requires owner { owner_at stores.old.tables (table_of (message_of message.now)) ≡ store }
    ensures done { (w : AWorld) → HoldsStore D.state w stores.old
        → is_held ≡ has_node w.holds (nodes.Store store) → FitsIn w message.now
        → IfOk result (λ answer. (lucks : List Luck)
        × IsTakenAs D.state w (table_of (message_of message.now)) (Take from (message_of message.now)) lucks stores.old
        stores.new answer) }
    ensures counted { IfOk result (λ answer.
        IsCounted D.state (is_fault (answer_of answer)) stores.old.tables stores.new.tables) }
    ensures rows { (w : AWorld) → HoldsStore D.state w stores.old → FitsIn w message.now → IfOk result (λ answer.
        AreLeftOver D.state D.images w (move_table (table_of (message_of message.now))
        (Take from (message_of message.now)) w).world stores.old.tables stores.new.tables) }
    ensures left { (w : AWorld) → HoldsStore D.state w stores.old
        → IfErr result (λ e. e ≢ Memory → HoldsStore D.state w stores.new
        × (stores.new.outs ≡ stores.old.outs) × SameFaults D.state stores.old.tables stores.new.tables) }
    ensures limit { (w : AWorld) → HoldsStore D.state w stores.old → IfErr result (λ e. (code count : ℕ)
        → e ≡ LimitPassed code count → (code ≡ 11) × IsSpentIn w message.now) }
    ensures only { IfErr result (λ e. e ≢ DepotFailed) }
{
    if stores.has(table_in(message)) {
        return take_there(stores, store, is_held, from, message);
    }
    Ok(Answer::Done)
}

fn take_there<D: Disk + Drop>(
    stores: &mut StoreHost<D>,
    store: StoreNo,
    is_held: bool,
    from: Node,
    message: &Message,
) -> Result<Answer, WorldFault>
    requires held { (w : AWorld) × HoldsStore D.state w stores.old × FitsIn w message.now }
    requires up { is_up_at stores.old store ≡ true }
    requires owner { owner_at stores.old.tables (table_of (message_of message.now)) ≡ store }
    ensures done { (w : AWorld) (hosted : AHosted) → HoldsStore D.state w stores.old
        → is_held ≡ has_node w.holds (nodes.Store store) → FitsIn w message.now
        → hosted_at w (table_of (message_of message.now)) ≡ Some hosted → IfOk result (λ answer. (lucks : List Luck)
        × IsTakenAs D.state w (table_of (message_of message.now)) (Take from (message_of message.now)) lucks stores.old
        stores.new answer) }
    ensures counted { IfOk result (λ answer.
        IsCounted D.state (is_fault (answer_of answer)) stores.old.tables stores.new.tables) }
    ensures rows { (w : AWorld) → HoldsStore D.state w stores.old → FitsIn w message.now → IfOk result (λ answer.
        AreLeftOver D.state D.images w (move_table (table_of (message_of message.now))
        (Take from (message_of message.now)) w).world stores.old.tables stores.new.tables) }
    ensures left { (w : AWorld) → HoldsStore D.state w stores.old
        → IfErr result (λ e. e ≢ Memory → HoldsStore D.state w stores.new
        × (stores.new.outs ≡ stores.old.outs) × SameFaults D.state stores.old.tables stores.new.tables) }
    ensures limit { (w : AWorld) → HoldsStore D.state w stores.old → IfErr result (λ e. (code count : ℕ)
        → e ≡ LimitPassed code count → (code ≡ 11) × IsSpentIn w message.now) }
    ensures only { IfErr result (λ e. e ≢ DepotFailed) }
{
    match stores.deliver(from, message) {
        Ok(()) => follow_table(stores, store, table_in(message), is_held),
        Err(NodeFault::Busy { with }) => Ok(Answer::Refused(Refusal::Busy { with })),
        Err(NodeFault::Disk) => Ok(Answer::Refused(Refusal::NoDevice)),
        Err(NodeFault::Spent { .. }) => Err(WorldFault::Limit {
            code: 11,
            count: NUMBER_MAX + 1,
        }),
        Err(_) => Err(WorldFault::Memory),
    }
}

/// The Store begins a put beside the rows of a table that it keeps, and does the work that follows. One that isn't
/// there is passed over.
pub(crate) fn place<D: Disk + Drop>(
    stores: &mut StoreHost<D>,
    store: StoreNo,
    is_held: bool,
    table: TableNo,
    put: SidePut,
) -> Result<Answer, WorldFault>
    requires held { IsStore D.state stores.old }
    requires client { IsOfClient put }
    requires up { is_up_at stores.old store ≡ true }
    requires owner { owner_at stores.old.tables table ≡ store }
    ensures done { (w : AWorld) → HoldsStore D.state w stores.old
        → is_held ≡ has_node w.holds (nodes.Store store) → IfOk result (λ answer. (lucks : List Luck)
        × IsTakenAs D.state w table (Place (put_of put)) lucks stores.old stores.new answer) }
    ensures counted { IfOk result (λ answer.
        IsCounted D.state (is_fault (answer_of answer)) stores.old.tables stores.new.tables) }
    ensures rows { (w : AWorld) → HoldsStore D.state w stores.old → IfOk result (λ answer.
        AreLeftOver D.state D.images w (move_table table (Place (put_of put)) w).world stores.old.tables
        stores.new.tables) }
    ensures memory { IfErr result (λ e. e ≡ Memory) }
{
    if stores.has(table) {
        return place_there(stores, store, is_held, table, put);
    }
    Ok(Answer::Done)
}

fn place_there<D: Disk + Drop>(
    stores: &mut StoreHost<D>,
    store: StoreNo,
    is_held: bool,
    table: TableNo,
    put: SidePut,
) -> Result<Answer, WorldFault>
    requires held { IsStore D.state stores.old }
    requires client { IsOfClient put }
    requires up { is_up_at stores.old store ≡ true }
    requires owner { owner_at stores.old.tables table ≡ store }
    ensures done { (w : AWorld) (hosted : AHosted) → HoldsStore D.state w stores.old
        → is_held ≡ has_node w.holds (nodes.Store store) → hosted_at w table ≡ Some hosted
        → IfOk result (λ answer. (lucks : List Luck)
        × IsTakenAs D.state w table (Place (put_of put)) lucks stores.old stores.new answer) }
    ensures counted { IfOk result (λ answer.
        IsCounted D.state (is_fault (answer_of answer)) stores.old.tables stores.new.tables) }
    ensures rows { (w : AWorld) → HoldsStore D.state w stores.old → IfOk result (λ answer.
        AreLeftOver D.state D.images w (move_table table (Place (put_of put)) w).world stores.old.tables
        stores.new.tables) }
    ensures memory { IfErr result (λ e. e ≡ Memory) }
{
    match stores.place(table, put) {
        Ok(()) => follow_table(stores, store, table, is_held),
        Err(NodeFault::Busy { with }) => Ok(Answer::Refused(Refusal::Busy { with })),
        Err(NodeFault::Disk) => Ok(Answer::Refused(Refusal::NoDevice)),
        Err(_) => Err(WorldFault::Memory),
    }
}
