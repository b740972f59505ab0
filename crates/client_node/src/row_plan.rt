//! Plans of a row's slots that are to be taken on.
ghost use Rattle.std.specs.Prelude.{◌≡◌, ◌<◌, ◌^◌, ℕ, map, length, None, IfOk, IfErr, IfSome};
ghost use Rattle.row_value.specs.declared.schema.Scheme.{Scheme};
ghost use Rattle.held_value.specs.declared.slots.Slots.{Slots};
ghost use Rattle.client_tables.specs.Drops.{names_in};
ghost use Rattle.client_tables.specs.Kept.{SlotEvent, slots_behind};
ghost use Rattle.client_tables.specs.Plan.{AreKnown, names_with};
ghost use Rattle.client_journal.specs.Redone.{redone};
ghost use Rattle.client_journal.specs.Standing.{devs as held_by, writes_of, AreUp, IsReady};
ghost use Rattle.step_tables.specs.Travels.{send_of};
ghost use Rattle.client_node.specs.Answers.{record_at, IsFault};
ghost use Rattle.client_node.specs.Looks.{Looks};
ghost use Rattle.client_node.specs.Readied.{IsOfRow};
ghost use Rattle.client_node.specs.Tells.{with_position};

use crate::fault::CallFault;
use crate::planning::Planned;
use crate::tells::facts_told;
use client_journal::{Journal, Plan};
use client_tables::{Change, RowPlan, plans_name_known_chunks};
use disk_trait::Disk;
use held_value::{Tell, Tells};
use plan_log::RowChange;
use slot_store::TableRecord;
use stab_base::{ClientNo, RowId, TableNo, Version, WriteNo};
use std::alloc::{AllocError, Global};
use step_tables::Addressed;

/// The record of a table, if it is opened.
pub(crate) fn find_table<D: Disk + Drop>(
    devs: &mut Journal<D>,
    table: TableNo,
) -> Result<Option<TableRecord>, CallFault>
    requires up { AreUp devs.old }
    requires ready { IsReady D.state devs.old (writes_of devs.old) }
    ensures looks { Looks D.state D.images devs.old devs.new result }
    ensures found { IfOk result (λ found. record_at (held_by D.state devs.old) table ≡ found) }
    ensures refused { IfErr result IsFault }
{
    let found = devs.record(table)?;
    Ok(found)
}

/// The number of the client's last write.
pub(crate) fn last_write<D: Disk + Drop>(devs: &mut Journal<D>) -> Result<WriteNo, CallFault>
    requires up { AreUp devs.old }
    requires ready { IsReady D.state devs.old (writes_of devs.old) }
    ensures looks { Looks D.state D.images devs.old devs.new result }
    ensures last { IfOk result (λ last. last ≡ (redone (held_by D.state devs.old)).last) }
    ensures refused { IfErr result IsFault }
{
    let last = devs.last_number()?;
    Ok(last)
}

/// A row's id, which has sixteen bytes.
pub(crate) fn sixteen_bytes(row: &RowId) -> RowId
    ensures same { result ≡ row.now }
    ensures len { length row.now ≡ 16 }
{
    RowId::from_bytes(row.to_bytes())
}

// A new position of the table is told last.
fn with_position(tells: Tells, position: Option<Version>) -> Result<Tells, AllocError>
    ensures { IfOk result (λ made. made ≡ with_position tells position) }
{
    match position {
        None => Ok(tells),
        Some(position) => {
            let mut tells = tells;
            tells.push(Tell::Position { position })?;
            Ok(tells)
        }
    }
}

/// The plan of a row's change, with a new position of its table, if there is one, and what it sends; `server` where the
/// row comes from the Store. None where no slot changes.
pub(crate) fn plan_of_row(
    alloc: Global,
    client: ClientNo,
    table: TableNo,
    row: &RowId,
    last: WriteNo,
    server: bool,
    position: Option<Version>,
    made: RowPlan,
    messages: Vec<Addressed>,
) -> Result<Option<Planned>, AllocError>
    ensures none { IfOk result (λ found. found ≡ None → made.change.slots ≡ None) }
    ensures some { IfOk result (λ found. IfSome found
        (IsOfRow client table row.now last position made (map send_of messages.items))) }
    // each name behind an event is known
    ensures known { (scheme : Scheme) (slots : Slots) (event : SlotEvent) (count : ℕ)
        → AreKnown slots count (names_with event) → AreKnown slots count (names_in (slots_behind scheme slots event)) }
    ensures len { length row.now ≡ 16 }
{
    plans_name_known_chunks();
    let row = sixteen_bytes(row);
    let RowPlan {
        change,
        chunks,
        drops,
    } = made;
    let Change { slots, tells, .. } = change;
    let Some(slots) = slots else {
        return Ok(None);
    };
    let tells = with_position(tells, position)?;
    let facts = facts_told(alloc, client, table, &row, tells.as_slice())?;
    Ok(Some(Planned {
        plan: Plan {
            server,
            table,
            last,
            row: Some(RowChange { row, slots }),
            position,
            new_record: None,
            brought: chunks,
            drops,
            tells,
        },
        facts,
        messages,
    }))
}
