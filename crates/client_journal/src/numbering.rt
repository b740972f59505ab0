//! A plan's slots under its number, and the record of a table behind a plan.
ghost use Rattle.std.specs.Prelude.{◌≡◌, IfOk, map, option_map};
ghost use Rattle.client_journal.specs.Redone.{record_from, moved_if, position_from};
ghost use Rattle.client_journal.specs.Plan.{numbered_name, numbered_piece, numbered_object, numbered_content};
ghost use Rattle.client_journal.specs.Plan.{numbered_main, numbered_shadow, numbered_out, numbered_slots, numbered_row};

use held_value::{
    HeldContent, HeldObject, HeldObjects, HeldPiece, HeldPieces, LocalName, Main, Out, Shadow,
    Slots,
};
use plan_log::{RecordChange, RowChange};
use slot_store::TableRecord;
use stab_base::{TableNo, Version};
use std::alloc::{AllocError, Global};

fn numbered_name(number: u64, name: LocalName) -> LocalName
    ensures { result ≡ numbered_name number name }
{
    if name.plan == 0 {
        LocalName {
            plan: number,
            ordinal: name.ordinal,
        }
    } else {
        name
    }
}

fn numbered_piece(number: u64, piece: HeldPiece) -> HeldPiece
    ensures { result ≡ numbered_piece number piece }
{
    HeldPiece {
        local: numbered_name(number, piece.local),
        name: piece.name,
    }
}

fn numbered_pieces(
    alloc: Global,
    number: u64,
    pieces: &[HeldPiece],
) -> Result<Vec<HeldPiece>, AllocError>
    ensures { IfOk result (λ made. made.items ≡ map (numbered_piece number) pieces.now) }
{
    pieces
        .iter()
        .map(|piece| numbered_piece(number, *piece))
        .collect(alloc)
}

fn numbered_object(
    alloc: Global,
    number: u64,
    object: &HeldObject,
) -> Result<HeldObject, AllocError>
    ensures { IfOk result (λ made. made ≡ numbered_object number object.now) }
{
    let pieces = numbered_pieces(alloc, number, object.pieces.as_slice())?;
    Ok(HeldObject {
        len: object.len,
        pieces: HeldPieces::from_vec(pieces),
    })
}

fn numbered_objects(
    alloc: Global,
    number: u64,
    objects: &[HeldObject],
) -> Result<HeldObjects, AllocError>
    ensures { IfOk result (λ made. made ≡ map (numbered_object number) objects.now) }
{
    let mut numbered = HeldObjects::new(alloc);
    for object in objects {
        numbered.push(numbered_object(alloc, number, object)?)?;
    }
    Ok(numbered)
}

fn numbered_content(
    alloc: Global,
    number: u64,
    content: HeldContent,
) -> Result<HeldContent, AllocError>
    ensures { IfOk result (λ made. made ≡ numbered_content number content) }
{
    match content {
        HeldContent::Gone => Ok(HeldContent::Gone),
        HeldContent::Row { cells, objects } => Ok(HeldContent::Row {
            cells,
            objects: numbered_objects(alloc, number, objects.as_slice())?,
        }),
    }
}

fn numbered_main(alloc: Global, number: u64, main: Option<Main>) -> Result<Option<Main>, AllocError>
    ensures { IfOk result (λ made. made ≡ option_map (numbered_main number) main) }
{
    match main {
        None => Ok(None),
        Some(main) => Ok(Some(Main {
            number: main.number,
            read: main.read,
            content: numbered_content(alloc, number, main.content)?,
        })),
    }
}

fn numbered_shadow(
    alloc: Global,
    number: u64,
    shadow: Option<Shadow>,
) -> Result<Option<Shadow>, AllocError>
    ensures { IfOk result (λ made. made ≡ option_map (numbered_shadow number) shadow) }
{
    match shadow {
        None => Ok(None),
        Some(shadow) => Ok(Some(Shadow {
            version: shadow.version,
            content: numbered_content(alloc, number, shadow.content)?,
        })),
    }
}

fn numbered_out(alloc: Global, number: u64, out: Option<Out>) -> Result<Option<Out>, AllocError>
    ensures { IfOk result (λ made. made ≡ option_map (numbered_out number) out) }
{
    match out {
        None => Ok(None),
        Some(out) => Ok(Some(Out {
            number: out.number,
            read: out.read,
            base: out.base,
            whole: out.whole,
            content: numbered_content(alloc, number, out.content)?,
            pieces: out.pieces,
        })),
    }
}

fn numbered_slots(alloc: Global, number: u64, slots: Slots) -> Result<Slots, AllocError>
    ensures { IfOk result (λ made. made ≡ numbered_slots number slots) }
{
    let Slots {
        main,
        shadow,
        out,
        conflict,
    } = slots;
    Ok(Slots {
        main: numbered_main(alloc, number, main)?,
        shadow: numbered_shadow(alloc, number, shadow)?,
        out: numbered_out(alloc, number, out)?,
        conflict: numbered_shadow(alloc, number, conflict)?,
    })
}

/// The new slots of a row, under the number of the plan.
pub(crate) fn numbered_row(
    alloc: Global,
    number: u64,
    row: Option<RowChange>,
) -> Result<Option<RowChange>, AllocError>
    ensures { IfOk result (λ made. made ≡ option_map (numbered_row number) row) }
{
    match row {
        None => Ok(None),
        Some(change) => Ok(Some(RowChange {
            row: change.row,
            slots: numbered_slots(alloc, number, change.slots)?,
        })),
    }
}

fn position_from(position: Option<Version>, old: &Option<TableRecord>) -> Version
    ensures { result ≡ position_from position old.now }
{
    match position {
        Some(position) => position,
        None => match old {
            Some(old) => old.position,
            None => 0,
        },
    }
}

fn moved_if(
    table: TableNo,
    position: Option<Version>,
    old: Option<TableRecord>,
) -> Option<TableRecord>
    ensures { result ≡ moved_if table position old }
{
    let position = position?;
    let old = old?;
    Some(TableRecord {
        table,
        state: old.state,
        schema: old.schema,
        position,
    })
}

/// The record of a table behind a plan, where its state, its schema or its position changes.
pub(crate) fn record_from(
    table: TableNo,
    change: &Option<RecordChange>,
    position: Option<Version>,
    old: Option<TableRecord>,
) -> Result<Option<TableRecord>, AllocError>
    ensures { IfOk result (λ made. made ≡ record_from table change.now position old) }
{
    match change {
        None => Ok(moved_if(table, position, old)),
        Some(change) => Ok(Some(TableRecord {
            table,
            state: change.state,
            schema: change.schema.copy()?,
            position: position_from(position, &old),
        })),
    }
}
