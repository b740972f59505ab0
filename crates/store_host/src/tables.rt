//! Moves of tables, one by one and of some.
ghost use Rattle.std.specs.Prelude.{◌≡◌, ◌⊎◌, ℕ, List, false, true, Some, IfOk, IfErr, OnOk, IsErrOf};
ghost use Rattle.std.specs.Prelude.{IsSome, [], ◌∷◌, ◌++◌, if◌then◌else◌};
ghost use Rattle.std.specs.BTreeMap as tree;
ghost use Rattle.std.specs.Ordering.{nat_cmp};
ghost use Rattle.std.specs.List.{find};
ghost use Rattle.step_tables.specs.StoreMoves.{TableStore, Work};
ghost use Rattle.step_tables.specs.Messages as messages;
ghost use Rattle.step_tables.specs.Messages.{Luck};
ghost use Rattle.store_node.specs.declared.fault.NodeFault.TheVariants.{Disk as DiskFailed, Memory};
ghost use Rattle.store_node.specs.Node.{IsNode, IsTable};
ghost use Rattle.store_node.specs.Sides.{IsOfClient, put_of};
ghost use Rattle.world_tables.specs.World.{World as AWorld, is_at_work, busy_step, hosted_at, move_table};
ghost use Rattle.world_tables.specs.World.{table_falls, tables_fall, table_starts, tables_start};
ghost use Rattle.store_host.specs.Holds.{HoldsTables, AreTables, IsUpTable, SameFaults, AreLeft, AreStill};
ghost use Rattle.store_host.specs.Calls.{AreMoved, HasCause, AreCrashed, AreTaken, HasTakeCause, AreShown, table_in};
ghost use Rattle.store_host.specs.Calls.{AreGiven, ArePlaced, restart_moves, version_by, busy_version};
ghost use Rattle.store_host.specs.Calls.{is_live_at_work};
ghost use Rattle.store_host.specs.Joining.{any_unmade, kept_by, unmade_in};

use crate::hosted::{Hosted, TableOut};
use disk_trait::Disk;
use stab_base::{Node, RowId, Sequence, Step, StoreNo, TableNo, Version};
use std::alloc::Global;
use std::collections::BTreeMap;
use step_tables::Message;
use store_node::{NodeFault, ShownRow, SidePut, TableNode, WholeRow, table_of};
use table_model::Tables;

/// Whether a table has writes to do.
pub(crate) fn is_busy_at<D: Disk + Drop>(
    tables: &BTreeMap<TableNo, Hosted<D>>,
    table: TableNo,
) -> bool
    ensures { (w : AWorld) → HoldsTables D.state w tables.now
        → result ≡ is_at_work w table }
{
    match tables.get(&table) {
        Some(hosted) => hosted.node.is_busy(),
        None => false,
    }
}

// The version of a table's next write; 0 where it has none.
fn version_in<D: Disk + Drop>(node: &TableNode<D>) -> Version
    requires { IsNode D.state node.now }
    ensures { (s : TableStore) → IsTable D.state node.now s → result ≡ version_by s.disk s.agenda }
{
    if node.is_busy() {
        return node.version_at_work();
    }
    0
}

/// The version of a table's next write; 0 where it has none.
pub(crate) fn busy_version_at<D: Disk + Drop>(
    tables: &BTreeMap<TableNo, Hosted<D>>,
    table: TableNo,
) -> Version
    requires { AreTables D.state tables.now }
    ensures { (w : AWorld) → HoldsTables D.state w tables.now
        → result ≡ busy_version (hosted_at w table) }
{
    match tables.get(&table) {
        Some(hosted) => version_in(&hosted.node),
        None => 0,
    }
}

/// The first of these tables that has writes to do.
pub(crate) fn first_busy<D: Disk + Drop>(
    numbers: &[TableNo],
    tables: &BTreeMap<TableNo, Hosted<D>>,
) -> Option<TableNo>
    ensures { (w : AWorld) → HoldsTables D.state w tables.now → result ≡ find (is_at_work w) numbers.now }
{
    for table in numbers {
        if is_busy_at(tables, *table) {
            return Some(*table);
        }
    }
    None
}

// Whether a table is live and has writes to do.
fn is_live_at_work<D: Disk + Drop>(tables: &BTreeMap<TableNo, Hosted<D>>, table: TableNo) -> bool
    ensures { (w : AWorld) → HoldsTables D.state w tables.now
        → result ≡ is_live_at_work w table }
{
    match tables.get(&table) {
        Some(hosted) => hosted.is_live_at_work(),
        None => false,
    }
}

/// The first of these tables that is live and has writes to do.
pub(crate) fn first_live_busy<D: Disk + Drop>(
    numbers: &[TableNo],
    tables: &BTreeMap<TableNo, Hosted<D>>,
) -> Option<TableNo>
    ensures { (w : AWorld) → HoldsTables D.state w tables.now
        → result ≡ find (is_live_at_work w) numbers.now }
{
    for number in numbers {
        if is_live_at_work(tables, *number) {
            return Some(*number);
        }
    }
    None
}

fn halt_at<D: Disk + Drop>(tables: &mut BTreeMap<TableNo, Hosted<D>>, table: TableNo)
    requires { AreTables D.state tables.old }
    ensures fallen { (w : AWorld) → HoldsTables D.state w tables.old
        → HoldsTables D.state (table_falls table w).world tables.new }
    ensures counted { SameFaults D.state tables.old tables.new }
    ensures left { (w : AWorld) → HoldsTables D.state w tables.old
        → AreStill D.state D.images w tables.old tables.new }
{
    if let Some(hosted) = tables.get_mut(&table) {
        hosted.halt();
    }
}

/// Takes these tables down beside any write.
pub(crate) fn halt_all<D: Disk + Drop>(
    numbers: &[TableNo],
    tables: &mut BTreeMap<TableNo, Hosted<D>>,
)
    requires { AreTables D.state tables.old }
    ensures fallen { (w : AWorld) → HoldsTables D.state w tables.old
        → HoldsTables D.state (tables_fall numbers.now w).world tables.new }
    ensures counted { SameFaults D.state tables.old tables.new }
    ensures left { (w : AWorld) → HoldsTables D.state w tables.old
        → AreStill D.state D.images w tables.old tables.new }
{
    for table in numbers {
        halt_at(tables, *table);
    }
}

/// Does the next write of a table.
pub(crate) fn work_at<D: Disk + Drop>(
    tables: &mut BTreeMap<TableNo, Hosted<D>>,
    outs: &mut Sequence<TableOut>,
    table: TableNo,
) -> Result<Step, NodeFault>
    requires { AreTables D.state tables.old }
    ensures done { (w : AWorld) → HoldsTables D.state w tables.old → IfOk result (λ step.
        AreMoved D.state w tables.new outs.old outs.new false (move_table table (Work messages.Done) w)
        × (step ≡ busy_step w (Some table))) }
    ensures failed { (w : AWorld) → HoldsTables D.state w tables.old
        → IsErrOf result DiskFailed
        → AreMoved D.state w tables.new outs.old outs.new true
        (move_table table (Work messages.FailedBefore) w)
        ⊎ AreMoved D.state w tables.new outs.old outs.new true
        (move_table table (Work messages.FailedAfter) w) }
    ensures cause { HasCause D.state tables.old tables.new result }
    ensures left { (w : AWorld) → HoldsTables D.state w tables.old
        → AreLeft D.state D.images w tables.old tables.new }
{
    match tables.get_mut(&table) {
        Some(hosted) => hosted.work(outs),
        None => Ok(Step::Idle),
    }
}

fn crash_at<D: Disk + Drop>(
    tables: &mut BTreeMap<TableNo, Hosted<D>>,
    table: TableNo,
    calls: u32,
    pick: u64,
)
    requires { AreTables D.state tables.old }
    ensures crashed { (w : AWorld) → HoldsTables D.state w tables.old
        → AreCrashed D.state w (Some table) calls tables.old tables.new }
    ensures left { (w : AWorld) → HoldsTables D.state w tables.old
        → AreLeft D.state D.images w tables.old tables.new }
{
    if let Some(hosted) = tables.get_mut(&table) {
        hosted.crash(calls, pick);
    }
}

/// Crashes the table that is busy, if one is, inside its next write.
pub(crate) fn crash_busy<D: Disk + Drop>(
    busy: Option<TableNo>,
    tables: &mut BTreeMap<TableNo, Hosted<D>>,
    calls: u32,
    pick: u64,
)
    requires { AreTables D.state tables.old }
    ensures crashed { (w : AWorld) → HoldsTables D.state w tables.old
        → AreCrashed D.state w busy calls tables.old tables.new }
    ensures left { (w : AWorld) → HoldsTables D.state w tables.old
        → AreLeft D.state D.images w tables.old tables.new }
{
    if let Some(table) = busy {
        crash_at(tables, table, calls, pick);
    }
}

fn start_at<D: Disk + Drop>(
    tables: &mut BTreeMap<TableNo, Hosted<D>>,
    outs: &mut Sequence<TableOut>,
    table: TableNo,
) -> Result<(), NodeFault>
    requires { AreTables D.state tables.old }
    ensures started { (w : AWorld) → HoldsTables D.state w tables.old
        → OnOk result (AreMoved D.state w tables.new outs.old outs.new false
        (table_starts table messages.Done w)) }
    ensures refused { (w : AWorld) → HoldsTables D.state w tables.old
        → IsErrOf result DiskFailed → HoldsTables D.state w tables.new × (outs.new ≡ outs.old) }
    ensures cause { HasCause D.state tables.old tables.new result }
    ensures left { (w : AWorld) → HoldsTables D.state w tables.old
        → AreStill D.state D.images w tables.old tables.new }
{
    match tables.get_mut(&table) {
        Some(hosted) => hosted.start(outs),
        None => Ok(()),
    }
}

/// Starts these tables, one after the other, as far as none fails.
pub(crate) fn start_all<D: Disk + Drop>(
    numbers: &[TableNo],
    tables: &mut BTreeMap<TableNo, Hosted<D>>,
    outs: &mut Sequence<TableOut>,
) -> Result<(), NodeFault>
    requires { AreTables D.state tables.old }
    ensures started { (w : AWorld) → HoldsTables D.state w tables.old
        → OnOk result ((lucks : List Luck) × AreMoved D.state w tables.new outs.old outs.new false
        (tables_start numbers.now lucks w)) }
    ensures refused { (w : AWorld) → HoldsTables D.state w tables.old
        → IsErrOf result DiskFailed → (lucks : List Luck) × AreMoved D.state w tables.new outs.old outs.new true
        (tables_start numbers.now lucks w) }
    ensures cause { HasCause D.state tables.old tables.new result }
    ensures left { (w : AWorld) → HoldsTables D.state w tables.old
        → AreStill D.state D.images w tables.old tables.new }
{
    for table in numbers {
        start_at(tables, outs, *table)?;
    }
    Ok(())
}

/// Takes these tables down beside any write, and starts them, one after the other, as far as none fails.
pub(crate) fn restart<D: Disk + Drop>(
    numbers: &[TableNo],
    tables: &mut BTreeMap<TableNo, Hosted<D>>,
    outs: &mut Sequence<TableOut>,
) -> Result<(), NodeFault>
    requires { AreTables D.state tables.old }
    ensures started { (w : AWorld) → HoldsTables D.state w tables.old
        → OnOk result ((lucks : List Luck) × AreMoved D.state w tables.new outs.old outs.new false
        (restart_moves numbers.now lucks w)) }
    ensures refused { (w : AWorld) → HoldsTables D.state w tables.old
        → IsErrOf result DiskFailed → (lucks : List Luck) × AreMoved D.state w tables.new outs.old outs.new true
        (restart_moves numbers.now lucks w) }
    ensures cause { HasCause D.state tables.old tables.new result }
    ensures left { (w : AWorld) → HoldsTables D.state w tables.old
        → AreStill D.state D.images w tables.old tables.new }
{
    halt_all(numbers, tables);
    start_all(numbers, tables, outs)
}

/// Takes a message for one of these tables; one for a table that isn't there is lost.
pub(crate) fn deliver_to<D: Disk + Drop>(
    alloc: Global,
    tables: &mut BTreeMap<TableNo, Hosted<D>>,
    outs: &mut Sequence<TableOut>,
    from: Node,
    message: &Message,
) -> Result<(), NodeFault>
    requires held { AreTables D.state tables.old }
    requires up { IsUpTable tables.old (table_in message.now) }
    ensures taken { (w : AWorld) → HoldsTables D.state w tables.old
        → AreTaken D.state w from message.now tables.new outs.old outs.new result }
    ensures there { IsErrOf result DiskFailed → IsSome (tree.get nat_cmp tables.old (table_in message.now)) }
    ensures cause { HasTakeCause D.state tables.old tables.new result }
    ensures left { (w : AWorld) → HoldsTables D.state w tables.old
        → AreStill D.state D.images w tables.old tables.new }
{
    let table = table_of(message);
    match tables.get_mut(&table) {
        Some(hosted) => hosted.deliver(alloc, outs, from, message),
        None => Ok(()),
    }
}

/// Begins a put beside the rows of one of these tables; one that isn't there is passed over.
pub(crate) fn place_at<D: Disk + Drop>(
    tables: &mut BTreeMap<TableNo, Hosted<D>>,
    table: TableNo,
    put: SidePut,
) -> Result<(), NodeFault>
    requires held { AreTables D.state tables.old }
    requires up { IsUpTable tables.old table }
    requires client { IsOfClient put }
    ensures placed { (w : AWorld) → HoldsTables D.state w tables.old
        → ArePlaced D.state w table (put_of put) tables.new result }
    ensures there { IsErrOf result DiskFailed → IsSome (tree.get nat_cmp tables.old table) }
    ensures cause { HasTakeCause D.state tables.old tables.new result }
    ensures left { (w : AWorld) → HoldsTables D.state w tables.old
        → AreStill D.state D.images w tables.old tables.new }
{
    match tables.get_mut(&table) {
        Some(hosted) => hosted.place(put),
        None => Ok(()),
    }
}

/// A row of one of these tables.
pub(crate) fn show_at<D: Disk + Drop>(
    tables: &mut BTreeMap<TableNo, Hosted<D>>,
    table: TableNo,
    row: &RowId,
) -> Result<Option<ShownRow>, NodeFault>
    requires held { AreTables D.state tables.old }
    requires up { IsUpTable tables.old table }
    requires there { IsSome (tree.get nat_cmp tables.old table) }
    ensures shown { (w : AWorld) → HoldsTables D.state w tables.old
        → AreShown D.state w table row.now tables.new result }
    ensures cause { HasCause D.state tables.old tables.new result }
    ensures left { (w : AWorld) → HoldsTables D.state w tables.old
        → AreStill D.state D.images w tables.old tables.new }
{
    match tables.get_mut(&table) {
        Some(hosted) => hosted.show(row),
        None => Ok(None),
    }
}

/// A row of one of these tables, whole.
pub(crate) fn row_at<D: Disk + Drop>(
    tables: &mut BTreeMap<TableNo, Hosted<D>>,
    table: TableNo,
    row: &RowId,
) -> Result<Option<WholeRow>, NodeFault>
    requires held { AreTables D.state tables.old }
    requires up { IsUpTable tables.old table }
    requires there { IsSome (tree.get nat_cmp tables.old table) }
    ensures given { (w : AWorld) → HoldsTables D.state w tables.old
        → AreGiven D.state w table row.now tables.new result }
    ensures cause { HasCause D.state tables.old tables.new result }
    ensures left { (w : AWorld) → HoldsTables D.state w tables.old
        → AreStill D.state D.images w tables.old tables.new }
{
    match tables.get_mut(&table) {
        Some(hosted) => hosted.row(row),
        None => Ok(None),
    }
}

// Adds the number of a table, if it is to be added.
fn add_if(numbers: &mut Tables, table: TableNo, is_added: bool) -> Result<(), NodeFault>
    ensures added { OnOk result (numbers.new ≡ (if is_added then numbers.old ++ table ∷ [] else numbers.old)) }
    ensures memory { IfErr result (λ e. e ≡ Memory) }
{
    if is_added {
        numbers.push(table)?;
    }
    Ok(())
}

/// The numbers of the tables that this Store keeps, rising.
pub(crate) fn numbers_of<D: Disk + Drop>(
    alloc: Global,
    tables: &BTreeMap<TableNo, Hosted<D>>,
    store: StoreNo,
) -> Result<Tables, NodeFault>
    ensures keys { IfOk result (λ numbers. numbers ≡ kept_by store tables.now.entries) }
    ensures memory { IfErr result (λ e. e ≡ Memory) }
{
    let mut numbers = Sequence::new(alloc);
    for (table, hosted) in tables.iter() {
        add_if(&mut numbers, *table, hosted.node.store() == store)?;
    }
    Ok(numbers)
}

// Whether a table is there and wasn't made.
fn is_unmade<D: Disk + Drop>(tables: &BTreeMap<TableNo, Hosted<D>>, table: TableNo) -> bool
    ensures { result ≡ unmade_in (tree.get nat_cmp tables.now table) }
{
    match tables.get(&table) {
        Some(hosted) => !hosted.node.is_declared(),
        None => false,
    }
}

/// Whether one of these tables wasn't made.
pub(crate) fn any_unmade<D: Disk + Drop>(
    numbers: &[TableNo],
    tables: &BTreeMap<TableNo, Hosted<D>>,
) -> bool
    ensures { result ≡ any_unmade tables.now numbers.now }
{
    numbers.iter().any(|table| is_unmade(tables, *table))
}
