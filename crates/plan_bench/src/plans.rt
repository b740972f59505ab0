//! Plans of one new chunk each.
ghost use Rattle.std.specs.Prelude.{◌≡◌, ◌≤◌, [], ◌∷◌, ℕ, List, Some, None, IfOk, OnOk, length};
ghost use Rattle.stab_base.specs.declared.limits.TheConstants.{NUMBER_MAX};
ghost use Rattle.field_codec.specs.Forms.{IsOption};
ghost use Rattle.held_codec.specs.Spelling.{HasLocalSpelling};
ghost use Rattle.client_journal.specs.Plan.{IsPlan};
ghost use Rattle.client_journal.specs.Standing.{devs};
ghost use Rattle.journal_tests.specs.Standing.{IsMoving, IsResting};
ghost use Rattle.journal_tests.specs.Shapes.{change_of, plan_of};
ghost use Rattle.plan_bench.specs.Rows.{new_content, listed};

use crate::calls::TABLE;
use crate::fault::BenchFault;
use crate::old_name::old_name;
use client_journal::{Journal, JournalFault, Plan};
use disk_trait::Disk;
use held_value::{
    HeldContent, HeldObject, HeldObjects, HeldPiece, HeldPieces, LocalName, LocalNames, Main,
    Slots, Tells,
};
use plan_log::RowChange;
use row_value::Cells;
use stab_base::{Bytes, RowId, Sequence, WriteNo};
use std::alloc::{AllocError, Global};

// The row's id: its number behind eight zeros.
fn id_of(row: u64) -> RowId
    ensures { length result ≡ 16 }
{
    let mut bytes = [0u8; 16];
    bytes[8..].copy_from_slice(&row.to_be_bytes());
    RowId::from_bytes(bytes)
}

// An object of the chunk that the plan brings.
fn new_content(alloc: Global) -> Result<HeldContent, AllocError>
    ensures { IfOk result (λ content. content ≡ new_content) }
{
    let mut pieces = HeldPieces::new(alloc);
    pieces.push(HeldPiece {
        local: LocalName {
            plan: 0,
            ordinal: 0,
        },
        name: None,
    })?;
    let mut objects = HeldObjects::new(alloc);
    objects.push(HeldObject { len: 64, pieces })?;
    Ok(HeldContent::Row {
        cells: Cells::new(alloc),
        objects,
    })
}

fn change_with(row: RowId, number: WriteNo, content: HeldContent) -> RowChange
    ensures { result ≡ change_of row number content }
{
    RowChange {
        row,
        slots: Slots {
            main: Some(Main {
                number,
                read: 0,
                content,
            }),
            shadow: None,
            out: None,
            conflict: None,
        },
    }
}

// A chunk of 64 bytes, each of which is the last eight bits of the plan's number.
fn one_brought(alloc: Global, number: WriteNo) -> Result<Sequence<Bytes>, AllocError>
    ensures { IfOk result (λ brought. (bytes : List ℕ) × (brought ≡ bytes ∷ []) × (length bytes ≡ 64)) }
{
    let byte = (number % 256) as u8;
    let bytes = vec![in alloc; byte; 64]?;
    let mut brought = Sequence::new(alloc);
    brought.push(Bytes::from_vec(bytes))?;
    Ok(brought)
}

// The chunk that no slot names any more, if the row had one.
fn one_drop(alloc: Global, old: Option<LocalName>) -> Result<LocalNames, AllocError>
    ensures names { IfOk result (λ names. names ≡ listed old) }
    ensures spelled { IsOption HasLocalSpelling old }
{
    let mut names = LocalNames::new(alloc);
    match old {
        None => Ok(names),
        Some(name) => {
            names.push(name)?;
            Ok(names)
        }
    }
}

fn plan_with(
    alloc: Global,
    last: WriteNo,
    row: RowChange,
    brought: Sequence<Bytes>,
    drops: LocalNames,
) -> Plan
    ensures { result ≡ plan_of last (Some row) None None brought drops }
{
    Plan {
        server: false,
        table: TABLE,
        last,
        row: Some(row),
        position: None,
        new_record: None,
        brought,
        drops,
        tells: Tells::new(alloc),
    }
}

fn begin_plan<D: Disk + Drop>(client: &mut Journal<D>, plan: Plan) -> Result<(), JournalFault>
    requires rests { IsResting D.state client.old }
    requires plan { IsPlan (devs D.state client.old) plan }
    ensures { OnOk result (IsMoving D.state client.new) }
{
    client.begin(plan)?;
    Ok(())
}

/// Takes on the plan of a write of this number: it brings a row's one new chunk, and drops the one that the row had.
pub fn begin<D: Disk + Drop>(
    alloc: Global,
    client: &mut Journal<D>,
    row: u64,
    number: WriteNo,
) -> Result<(), BenchFault>
    requires rests { IsResting D.state client.old }
    requires number { number ≤ NUMBER_MAX }
    ensures { OnOk result (IsMoving D.state client.new) }
{
    let row = id_of(row);
    let old = old_name(client, &row)?;
    let drops = one_drop(alloc, old)?;
    let content = new_content(alloc)?;
    let brought = one_brought(alloc, number)?;
    let change = change_with(row, number, content);
    let plan = plan_with(alloc, number, change, brought, drops);
    begin_plan(client, plan)?;
    Ok(())
}
