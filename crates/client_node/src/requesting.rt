//! The rows that wait for an answer, and those that have one to send.
ghost use Rattle.std.specs.Prelude.{◌≡◌, ◌+◌, ◌<◌, ◌^◌, ◌++◌, ◌∷◌, [], ℕ, List, map, IfOk, IfErr, OnOk};
ghost use Rattle.std.specs.declared.cmp.Ordering.TheVariants.{Less};
ghost use Rattle.std.specs.declared.ops.Bound.TheVariants.{Included, Excluded};
ghost use Rattle.std.specs.BTreeSet.{keys, keys_between};
ghost use Rattle.std.specs.List.Sorted.{IsStrictlySortedBy};
ghost use Rattle.held_value.specs.declared.local_name.LocalName.{LocalName};
ghost use Rattle.client_journal.specs.NamedSlots.{NamedSlots};
ghost use Rattle.client_journal.specs.Standing.{devs as held_by, writes_of, AreUp, IsReady};
ghost use Rattle.step_tables.specs.ClientMoves.{request_for};
ghost use Rattle.step_tables.specs.Travels.{send_of};
ghost use Rattle.journal_laws.specs.Whole.{whole_out};
ghost use Rattle.held_contents.specs.Reading.{AreThere};
ghost use Rattle.slot_store.specs.Data.{key_cmp};
ghost use Rattle.client_node.specs.Answers.{IsFault};
ghost use Rattle.client_node.specs.Looks.{Looks};
ghost use Rattle.client_node.specs.NotedRows.{rows_among};
ghost use Rattle.client_node.specs.Requesting.{request_with, asked_again, all_asked_again};
ghost use Rattle.client_node.specs.Requesting.{first_ready, NoneWaits, NoneSends, IsFirstReady};

use crate::fault::CallFault;
use crate::looking::row_slots;
use crate::noted::first_key;
use client_journal::Journal;
use client_tables::can_send;
use disk_trait::Disk;
use held_contents::{pieces_by_object, read_whole};
use held_value::{Out, Slots};
use row_value::Content;
use slot_store::RowKey;
use stab_base::{ClientNo, RowId, TableNo, Version, WriteNo};
use std::alloc::Global;
use std::collections::BTreeSet;
use step_tables::{Addressed, Message, ObjectPieces, SyncRequest};

/// A request of a write of a row, its content whole, with the pieces that spell the chunks of each of its objects.
pub(crate) fn request_with(
    client: ClientNo,
    table: TableNo,
    row: &RowId,
    number: WriteNo,
    base: Version,
    content: Content,
    pieces: ObjectPieces,
) -> Addressed
    ensures { send_of result ≡ request_with client table row.now number base content pieces }
{
    let request = SyncRequest {
        client,
        token: 0,
        table,
        row: *row,
        number,
        base,
        content,
        pieces,
    };
    (None, Message::SyncRequest(request))
}

/// The request of a write of a row that waits for its answer.
pub(crate) fn request_of<D: Disk + Drop>(
    alloc: Global,
    client: ClientNo,
    devs: &mut Journal<D>,
    table: TableNo,
    row: &RowId,
    out: &Out,
) -> Result<Addressed, CallFault>
    requires up { AreUp devs.old }
    requires ready { IsReady D.state devs.old (writes_of devs.old) }
    ensures looks { Looks D.state D.images devs.old devs.new result }
    ensures request { IfOk result (λ sent. (meaning : LocalName → List ℕ)
        → AreThere meaning (held_by D.state devs.old) out.now.content
        → send_of sent ≡ request_for client table row.now (whole_out meaning out.now)) }
    ensures refused { IfErr result IsFault }
{
    let content = read_whole(alloc, devs, &out.content)?;
    let pieces = pieces_by_object(alloc, &out.content, &out.pieces)?;
    Ok(request_with(client, table, row, out.number, out.base, content, pieces))
}

// Adds the request of a write that waits for its answer.
fn ask_again<D: Disk + Drop>(
    alloc: Global,
    client: ClientNo,
    devs: &mut Journal<D>,
    table: TableNo,
    row: &RowId,
    out: &Out,
    sends: &mut Vec<Addressed>,
) -> Result<(), CallFault>
    requires up { AreUp devs.old }
    requires ready { IsReady D.state devs.old (writes_of devs.old) }
    ensures looks { Looks D.state D.images devs.old devs.new result }
    ensures adds { OnOk result ((meaning : LocalName → List ℕ)
        → AreThere meaning (held_by D.state devs.old) out.now.content
        → map send_of sends.new.items ≡ map send_of sends.old.items
        ++ request_for client table row.now (whole_out meaning out.now) ∷ []) }
    ensures refused { IfErr result IsFault }
{
    let request = request_of(alloc, client, devs, table, row, out)?;
    sends.push(request)?;
    Ok(())
}

// Adds the request of a row whose write waits for its answer, or the row to those that wait for none.
fn add_request<D: Disk + Drop>(
    alloc: Global,
    client: ClientNo,
    devs: &mut Journal<D>,
    table: TableNo,
    row: &RowId,
    sends: &mut Vec<Addressed>,
    stale: &mut Vec<RowId>,
) -> Result<(), CallFault>
    requires up { AreUp devs.old }
    requires ready { IsReady D.state devs.old (writes_of devs.old) }
    ensures looks { Looks D.state D.images devs.old devs.new result }
    ensures adds { OnOk result ((meaning : LocalName → List ℕ) → NamedSlots meaning (held_by D.state devs.old)
        → map send_of sends.new.items
        ≡ map send_of sends.old.items ++ asked_again meaning client (held_by D.state devs.old) table row.now) }
    ensures stale { OnOk result (NoneWaits (held_by D.state devs.old) table stale.old.items
        → NoneWaits (held_by D.state devs.old) table stale.new.items) }
    ensures refused { IfErr result IsFault }
{
    let slots = row_slots(devs, table, row)?;
    match &slots.out {
        None => {
            stale.push(*row)?;
            Ok(())
        }
        Some(out) => ask_again(alloc, client, devs, table, row, out, sends),
    }
}

/// The requests of those of these rows that wait for their answers. The others are added to those that wait for none.
pub(crate) fn requests<D: Disk + Drop>(
    alloc: Global,
    client: ClientNo,
    devs: &mut Journal<D>,
    table: TableNo,
    rows: &[RowId],
    stale: &mut Vec<RowId>,
) -> Result<Vec<Addressed>, CallFault>
    requires up { AreUp devs.old }
    requires ready { IsReady D.state devs.old (writes_of devs.old) }
    ensures looks { Looks D.state D.images devs.old devs.new result }
    ensures sends { IfOk result (λ sends. (meaning : LocalName → List ℕ)
        → NamedSlots meaning (held_by D.state devs.old)
        → map send_of sends.items ≡ all_asked_again meaning client (held_by D.state devs.old) table rows.now) }
    ensures stale { OnOk result (NoneWaits (held_by D.state devs.old) table stale.old.items
        → NoneWaits (held_by D.state devs.old) table stale.new.items) }
    ensures refused { IfErr result IsFault }
{
    let mut sends = Vec::new(alloc);
    for row in rows {
        add_request(alloc, client, devs, table, row, &mut sends, stale)?;
    }
    Ok(sends)
}

// The first of a table's rows between two keys of a set that has something to send, with its slots. Those before it are
// added to those that have nothing.
fn first_between<D: Disk + Drop>(
    devs: &mut Journal<D>,
    table: TableNo,
    set: &BTreeSet<RowKey>,
    from: RowKey,
    end: RowKey,
    stale: &mut Vec<RowId>,
) -> Result<Option<(RowId, Slots)>, CallFault>
    requires up { AreUp devs.old }
    requires ready { IsReady D.state devs.old (writes_of devs.old) }
    requires rising { key_cmp from end ≡ Less }
    ensures looks { Looks D.state D.images devs.old devs.new result }
    ensures found { IfOk result (λ found. found ≡ first_ready (held_by D.state devs.old) table
        (rows_among table (keys_between key_cmp (Included from) (Excluded end) set.now))) }
    ensures sorted { OnOk result (IsStrictlySortedBy key_cmp (keys set.now)) }
    ensures stale { OnOk result (NoneSends (held_by D.state devs.old) table stale.old.items
        → NoneSends (held_by D.state devs.old) table stale.new.items) }
    ensures refused { IfErr result IsFault }
{
    for key in set.range(from..end) {
        if key.table == table {
            let slots = row_slots(devs, table, &key.row)?;
            if can_send(&slots) {
                return Ok(Some((key.row, slots)));
            }
            stale.push(key.row)?;
        }
    }
    Ok(None)
}

/// The first row of a table in a set that has something to send, with its slots. Those before it are added to those that
/// have nothing.
pub(crate) fn first_ready<D: Disk + Drop>(
    devs: &mut Journal<D>,
    table: TableNo,
    set: &BTreeSet<RowKey>,
    stale: &mut Vec<RowId>,
) -> Result<Option<(RowId, Slots)>, CallFault>
    requires up { AreUp devs.old }
    requires ready { IsReady D.state devs.old (writes_of devs.old) }
    requires small { table + 1 < 2 ^ 32 }
    ensures looks { Looks D.state D.images devs.old devs.new result }
    ensures found { IfOk result (IsFirstReady (held_by D.state devs.old) table set.now) }
    ensures stale { OnOk result (NoneSends (held_by D.state devs.old) table stale.old.items
        → NoneSends (held_by D.state devs.old) table stale.new.items) }
    ensures refused { IfErr result IsFault }
{
    first_between(
        devs,
        table,
        set,
        first_key(table),
        first_key(table + 1),
        stale,
    )
}
