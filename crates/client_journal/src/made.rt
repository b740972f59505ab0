//! The writes of a plan that is worked out, and how many bytes they have.
ghost use Rattle.std.specs.Prelude.{◌≡◌, ◌∷◌, ◌++◌, [], ◌<◌, ◌^◌, IfOk, OnOk, length, map, sum_by, IfSome, option_map};
ghost use Rattle.slot_store.specs.Spelling.{HasRowSpelling, HasRecordSpelling};
ghost use Rattle.client_journal.specs.Devs.{PutCommit, PutDone};
ghost use Rattle.client_journal.specs.Agenda.{puts, drops, slot_writes, record_writes, bring_writes};
ghost use Rattle.client_journal.specs.Standing.{write_of};
ghost use Rattle.client_journal.specs.Made.{bytes_of_row, bytes_of_record};

use crate::task::Task;
use held_value::LocalName;
use plan_log::{Commit, Intend, RowChange};
use slot_store::{RowSlots, TableRecord, record_size, slots_size};
use stab_base::{Bytes, TableNo, WriteNo};
use std::alloc::{AllocError, Global};
use std::collections::VecDeque;

/// A plan that is worked out: the intend, the brought chunks by their ordinals, the commit, and what it changes.
#[derive(Drop)]
pub(crate) struct Made {
    pub(crate) intend: Intend,
    pub(crate) brought: Vec<Bytes>,
    pub(crate) commit: Commit,
    pub(crate) row: Option<RowSlots>,
    pub(crate) table: Option<TableRecord>,
}

/// How many bytes these chunks have.
pub(crate) fn bytes_of(brought: &[Bytes]) -> u64
    requires { sum_by length brought.now < 2 ^ 64 }
    ensures { result ≡ sum_by length brought.now }
{
    brought.iter().map(|bytes| bytes.len() as u64).sum()
}

/// How many bytes the payload of a row's slots has, if there is one.
pub(crate) fn bytes_of_row(alloc: Global, row: &Option<RowSlots>) -> Result<u64, AllocError>
    requires { IfSome row.now HasRowSpelling }
    ensures { IfOk result (λ size. size ≡ bytes_of_row row.now) }
{
    match row {
        None => Ok(0),
        Some(row) => Ok(slots_size(alloc, row)? as u64),
    }
}

/// How many bytes the payload of a table's record has, if there is one.
pub(crate) fn bytes_of_record(alloc: Global, table: &Option<TableRecord>) -> Result<u64, AllocError>
    requires { IfSome table.now HasRecordSpelling }
    ensures { IfOk result (λ size. size ≡ bytes_of_record table.now) }
{
    match table {
        None => Ok(0),
        Some(table) => Ok(record_size(alloc, table)? as u64),
    }
}

/// The slots of a row as they are to be put.
pub(crate) fn row_slots(
    table: TableNo,
    last: WriteNo,
    change: &Option<RowChange>,
) -> Result<Option<RowSlots>, AllocError>
    ensures { IfOk result (λ made. made ≡ option_map
        (λ change. record { table = table; row = change.row; last = last; slots = change.slots }) change.now) }
{
    match change {
        None => Ok(None),
        Some(change) => Ok(Some(RowSlots {
            table,
            row: change.row,
            last,
            slots: change.slots.copy()?,
        })),
    }
}

fn add_puts(tasks: &mut VecDeque<Task>, plan: u64, brought: Vec<Bytes>) -> Result<(), AllocError>
    requires { length brought.items < 2 ^ 32 }
    ensures { OnOk result (map write_of tasks.new.items ≡ map write_of tasks.old.items ++ puts plan 0 brought.items) }
{
    let mut ordinal = 0;
    for bytes in brought {
        tasks.push_back(Task::PutChunk(LocalName { plan, ordinal }, bytes))?;
        ordinal += 1;
    }
    Ok(())
}

pub(crate) fn add_drops(tasks: &mut VecDeque<Task>, names: &[LocalName]) -> Result<(), AllocError>
    ensures { OnOk result (map write_of tasks.new.items ≡ map write_of tasks.old.items ++ drops names.now) }
{
    for name in names {
        tasks.push_back(Task::DropChunk(*name))?;
    }
    Ok(())
}

fn add_row(tasks: &mut VecDeque<Task>, row: Option<RowSlots>) -> Result<(), AllocError>
    ensures { OnOk result (map write_of tasks.new.items ≡ map write_of tasks.old.items ++ slot_writes row []) }
{
    if let Some(row) = row {
        tasks.push_back(Task::PutSlots(row))?;
    }
    Ok(())
}

fn add_record(tasks: &mut VecDeque<Task>, table: Option<TableRecord>) -> Result<(), AllocError>
    ensures { OnOk result (map write_of tasks.new.items ≡ map write_of tasks.old.items ++ record_writes table []) }
{
    if let Some(table) = table {
        tasks.push_back(Task::PutRecord(table))?;
    }
    Ok(())
}

/// Adds the writes behind a commit.
pub(crate) fn add_redo(
    tasks: &mut VecDeque<Task>,
    row: Option<RowSlots>,
    table: Option<TableRecord>,
    names: &[LocalName],
) -> Result<(), AllocError>
    ensures { OnOk result (map write_of tasks.new.items ≡ map write_of tasks.old.items
        ++ slot_writes row (record_writes table (drops names.now ++ PutDone ∷ []))) }
{
    add_row(tasks, row)?;
    add_record(tasks, table)?;
    add_drops(tasks, names)?;
    tasks.push_back(Task::PutDone)?;
    Ok(())
}

/// Adds an intend and the chunks that it brings, where there are some.
fn add_bring(
    tasks: &mut VecDeque<Task>,
    intend: Intend,
    brought: Vec<Bytes>,
) -> Result<(), AllocError>
    requires { length brought.items < 2 ^ 32 }
    ensures { OnOk result (map write_of tasks.new.items
        ≡ map write_of tasks.old.items ++ bring_writes intend brought.items []) }
{
    if brought.is_empty() {
        return Ok(());
    }
    let plan = intend.plan;
    tasks.push_back(Task::PutIntend(intend))?;
    add_puts(tasks, plan, brought)
}

fn listed(alloc: Global, names: &[LocalName]) -> Result<Vec<LocalName>, AllocError>
    ensures { IfOk result (λ made. made.items ≡ names.now) }
{
    names.iter().copied().collect(alloc)
}

/// The writes of a plan in their order.
pub(crate) fn plan_tasks(alloc: Global, made: Made) -> Result<VecDeque<Task>, AllocError>
    requires { length made.brought.items < 2 ^ 32 }
    ensures { IfOk result (λ tasks. map write_of tasks.items
        ≡ bring_writes made.intend made.brought.items (PutCommit made.commit
        ∷ slot_writes made.row (record_writes made.table (drops made.commit.drops ++ PutDone ∷ [])))) }
{
    let Made {
        intend,
        brought,
        commit,
        row,
        table,
    } = made;
    let drops = listed(alloc, commit.drops.as_slice())?;
    let mut tasks = VecDeque::new(alloc);
    add_bring(&mut tasks, intend, brought)?;
    tasks.push_back(Task::PutCommit(commit))?;
    add_redo(&mut tasks, row, table, &drops)?;
    Ok(tasks)
}
