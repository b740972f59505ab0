//! What a start tells at once.
ghost use Rattle.std.specs.Prelude.{◌≡◌, ◌++◌, ℕ, List, Some, None, map, option_map, IfSome, IfOk, IfErr, OnOk};
ghost use Rattle.held_value.specs.declared.local_name.LocalName.{LocalName};
ghost use Rattle.client_journal.specs.NamedSlots.{NamedSlots};
ghost use Rattle.client_journal.specs.Recover.{rolled_of};
ghost use Rattle.client_journal.specs.Standing.{devs as held_by, writes_of, AreUp, IsReady};
ghost use Rattle.step_tables.specs.ClientMoves.{ClientDisk, RowPut, told_at_start};
ghost use Rattle.step_tables.specs.Lines.{client_fact_of, fact_of};
ghost use Rattle.journal_laws.specs.Holds.{Stands, fact_in, content_of, content_in_out};
ghost use Rattle.journal_laws.specs.Whole.{whole, whole_out, whole_slots};
ghost use Rattle.held_contents.specs.Reading.{AreThere};
ghost use Rattle.client_node.specs.Answers.{IsFault};
ghost use Rattle.client_node.specs.Looks.{Looks};
ghost use Rattle.client_node.specs.Telling.{AreNamesThere, IsPlain, put_of, put_again, again_if, told_again};

use crate::fault::CallFault;
use crate::looking::row_slots;
use client_journal::{Journal, Redone, Rolled};
use disk_trait::Disk;
use held_contents::read_whole;
use held_value::{HeldContent, Out, Slots, Tell};
use row_value::Content;
use stab_base::{ClientNo, RowId, TableNo, WriteNo};
use std::alloc::{AllocError, Global};
use table_model::{ClientFact, Fact, Write};

// ---- the content of a write

/// A content whole.
pub(crate) fn read_content<D: Disk + Drop>(
    alloc: Global,
    devs: &mut Journal<D>,
    held: &HeldContent,
) -> Result<Content, CallFault>
    requires up { AreUp devs.old }
    requires ready { IsReady D.state devs.old (writes_of devs.old) }
    ensures looks { Looks D.state D.images devs.old devs.new result }
    ensures whole { IfOk result (λ content. (meaning : LocalName → List ℕ)
        → AreThere meaning (held_by D.state devs.old) held.now → content ≡ whole meaning held.now) }
    ensures refused { IfErr result IsFault }
{
    Ok(read_whole(alloc, devs, held)?)
}

// The content of the write that waits for its answer.
fn waiting_content<D: Disk + Drop>(
    alloc: Global,
    devs: &mut Journal<D>,
    out: &Option<Out>,
) -> Result<Content, CallFault>
    requires up { AreUp devs.old }
    requires ready { IsReady D.state devs.old (writes_of devs.old) }
    ensures looks { Looks D.state D.images devs.old devs.new result }
    ensures content { IfOk result (λ content. (meaning : LocalName → List ℕ)
        → IfSome out.now (λ waits. AreThere meaning (held_by D.state devs.old) waits.content)
        → content ≡ content_in_out (option_map (whole_out meaning) out.now)) }
    ensures refused { IfErr result IsFault }
{
    match out {
        Some(out) => read_content(alloc, devs, &out.content),
        None => Ok(Content::Gone),
    }
}

// The content of the write of this number, the row's main one or else the one that waits for its answer.
fn written_content<D: Disk + Drop>(
    alloc: Global,
    devs: &mut Journal<D>,
    slots: &Slots,
    number: WriteNo,
) -> Result<Content, CallFault>
    requires up { AreUp devs.old }
    requires ready { IsReady D.state devs.old (writes_of devs.old) }
    ensures looks { Looks D.state D.images devs.old devs.new result }
    ensures content { IfOk result (λ content. (meaning : LocalName → List ℕ)
        → AreNamesThere meaning (held_by D.state devs.old) slots.now
        → content ≡ content_of number (whole_slots meaning slots.now)) }
    ensures refused { IfErr result IsFault }
{
    match &slots.main {
        Some(main) => {
            if main.number == number {
                read_content(alloc, devs, &main.content)
            } else {
                waiting_content(alloc, devs, &slots.out)
            }
        }
        None => waiting_content(alloc, devs, &slots.out),
    }
}

// ---- what a plan tells

// What a tell says of a row, where no content is read for it.
fn plain_fact(client: ClientNo, table: TableNo, row: RowId, tell: Tell) -> Option<ClientFact>
    ensures { (put : RowPut) → put.row ≡ row → IsPlain tell
        → option_map client_fact_of result ≡ fact_in client table (Some put) tell }
{
    match tell {
        Tell::Acked { number, version } => Some(ClientFact::Acked {
            client,
            number,
            table,
            row,
            version,
        }),
        Tell::Refused { number, latest } => Some(ClientFact::Refused {
            client,
            number,
            table,
            row,
            latest,
        }),
        Tell::Conflict { number, version } => Some(ClientFact::Conflict {
            client,
            number,
            table,
            row,
            version,
        }),
        Tell::Resolved { number, version } => Some(ClientFact::Resolved {
            client,
            number,
            table,
            row,
            version,
        }),
        Tell::New { version } => Some(ClientFact::New {
            client,
            table,
            row,
            version,
        }),
        Tell::Position { position } => Some(ClientFact::Position {
            client,
            table,
            position,
        }),
        Tell::Wrote { .. } | Tell::Opened | Tell::Dropped => None,
    }
}

// What a tell says of a table whose plan puts no row.
fn table_fact(client: ClientNo, table: TableNo, tell: Tell) -> Option<ClientFact>
    ensures { option_map client_fact_of result ≡ fact_in client table None tell }
{
    match tell {
        Tell::Position { position } => Some(ClientFact::Position {
            client,
            table,
            position,
        }),
        Tell::Opened => Some(ClientFact::Opened { client, table }),
        Tell::Dropped => Some(ClientFact::Dropped { client, table }),
        _ => None,
    }
}

// A row whose slots a plan has put, of a table of this client.
#[derive(Drop)]
struct PutAgain {
    client: ClientNo,
    table: TableNo,
    row: RowId,
    slots: Slots,
}

// What a tell says of a row.
fn row_fact<D: Disk + Drop>(
    alloc: Global,
    devs: &mut Journal<D>,
    put: &PutAgain,
    tell: Tell,
) -> Result<Option<ClientFact>, CallFault>
    requires up { AreUp devs.old }
    requires ready { IsReady D.state devs.old (writes_of devs.old) }
    ensures looks { Looks D.state D.images devs.old devs.new result }
    ensures fact { IfOk result (λ fact. (meaning : LocalName → List ℕ)
        → AreNamesThere meaning (held_by D.state devs.old) put.now.slots
        → option_map client_fact_of fact
        ≡ fact_in put.now.client put.now.table (Some (put_of meaning put.now.row put.now.slots)) tell) }
    ensures refused { IfErr result IsFault }
{
    let Tell::Wrote { number, read } = tell else {
        return Ok(plain_fact(put.client, put.table, put.row, tell));
    };
    let content = written_content(alloc, devs, &put.slots, number)?;
    Ok(Some(ClientFact::Wrote(Write {
        client: put.client,
        number,
        table: put.table,
        row: put.row,
        read,
        content,
    })))
}

fn add_again(told: &mut Vec<Fact>, fact: Option<ClientFact>) -> Result<(), AllocError>
    ensures { OnOk result (map fact_of told.new.items
        ≡ map fact_of told.old.items ++ again_if (option_map client_fact_of fact)) }
{
    if let Some(fact) = fact {
        told.push(Fact::Redone(fact))?;
    }
    Ok(())
}

// Adds what a tell says of a row.
fn tell_row<D: Disk + Drop>(
    alloc: Global,
    devs: &mut Journal<D>,
    put: &PutAgain,
    tell: Tell,
    told: &mut Vec<Fact>,
) -> Result<(), CallFault>
    requires up { AreUp devs.old }
    requires ready { IsReady D.state devs.old (writes_of devs.old) }
    ensures looks { Looks D.state D.images devs.old devs.new result }
    ensures adds { OnOk result ((meaning : LocalName → List ℕ)
        → AreNamesThere meaning (held_by D.state devs.old) put.now.slots
        → map fact_of told.new.items ≡ map fact_of told.old.items ++ again_if
        (fact_in put.now.client put.now.table (Some (put_of meaning put.now.row put.now.slots)) tell)) }
    ensures refused { IfErr result IsFault }
{
    let fact = row_fact(alloc, devs, put, tell)?;
    add_again(told, fact)?;
    Ok(())
}

// What the tells of a plan say that has put a row.
fn tell_rows<D: Disk + Drop>(
    alloc: Global,
    devs: &mut Journal<D>,
    put: &PutAgain,
    tells: &[Tell],
) -> Result<Vec<Fact>, CallFault>
    requires up { AreUp devs.old }
    requires ready { IsReady D.state devs.old (writes_of devs.old) }
    ensures looks { Looks D.state D.images devs.old devs.new result }
    ensures told { IfOk result (λ told. (meaning : LocalName → List ℕ)
        → AreNamesThere meaning (held_by D.state devs.old) put.now.slots
        → map fact_of told.items
        ≡ told_again put.now.client put.now.table (Some (put_of meaning put.now.row put.now.slots)) tells.now) }
    ensures refused { IfErr result IsFault }
{
    let mut told = Vec::new(alloc);
    for tell in tells {
        tell_row(alloc, devs, put, *tell, &mut told)?;
    }
    Ok(told)
}

// What the tells of a plan say that puts no row.
fn tell_table(
    alloc: Global,
    client: ClientNo,
    table: TableNo,
    tells: &[Tell],
) -> Result<Vec<Fact>, AllocError>
    ensures { IfOk result (λ told. map fact_of told.items ≡ told_again client table None tells.now) }
{
    let mut told = Vec::new(alloc);
    for tell in tells {
        add_again(&mut told, table_fact(client, table, *tell))?;
    }
    Ok(told)
}

// ---- a start

// What the plan told that is redone.
fn tell_redone<D: Disk + Drop>(
    alloc: Global,
    devs: &mut Journal<D>,
    client: ClientNo,
    redone: &Redone,
) -> Result<Vec<Fact>, CallFault>
    requires up { AreUp devs.old }
    requires ready { IsReady D.state devs.old (writes_of devs.old) }
    ensures looks { Looks D.state D.images devs.old devs.new result }
    ensures told { IfOk result (λ told. (meaning : LocalName → List ℕ)
        → NamedSlots meaning (held_by D.state devs.old)
        → map fact_of told.items ≡ told_again client redone.now.table
        (put_again meaning (held_by D.state devs.old) redone.now.table redone.now.row) redone.now.tells) }
    ensures refused { IfErr result IsFault }
{
    let table = redone.table;
    match redone.row {
        Some(row) => {
            let slots = row_slots(devs, table, &row)?;
            let put = PutAgain {
                client,
                table,
                row,
                slots,
            };
            tell_rows(alloc, devs, &put, redone.tells.as_slice())
        }
        None => Ok(tell_table(alloc, client, table, redone.tells.as_slice())?),
    }
}

// That the row from the Store is torn whose plan was cut short before its commit, if there is one.
fn tell_torn(
    alloc: Global,
    client: ClientNo,
    torn: Option<(TableNo, RowId)>,
) -> Result<Vec<Fact>, AllocError>
    ensures { IfOk result (λ told. map fact_of told.items ≡ told_at_start client torn None) }
{
    match torn {
        Some((table, row)) => {
            let told = vec![in alloc; Fact::Torn { client, table, row }]?;
            Ok(told)
        }
        None => Ok(Vec::new(alloc)),
    }
}

/// What a start tells at once of the plan that was at work: what it has told again, once it was committed; or that its
/// row is torn.
pub(crate) fn tell_found<D: Disk + Drop>(
    alloc: Global,
    devs: &mut Journal<D>,
    client: ClientNo,
    rolled: &Rolled,
) -> Result<Vec<Fact>, CallFault>
    requires up { AreUp devs.old }
    requires ready { IsReady D.state devs.old (writes_of devs.old) }
    ensures looks { Looks D.state D.images devs.old devs.new result }
    ensures told { IfOk result (λ told. (meaning : LocalName → List ℕ) (disk : ClientDisk)
        → Stands client meaning (held_by D.state devs.old) disk
        → rolled.now ≡ rolled_of (held_by D.state devs.old).journal.at_work
        → map fact_of told.items ≡ told_at_start client rolled.now.torn disk.plan) }
    ensures refused { IfErr result IsFault }
{
    match &rolled.redone {
        Some(redone) => tell_redone(alloc, devs, client, redone),
        None => Ok(tell_torn(alloc, client, rolled.torn)?),
    }
}
