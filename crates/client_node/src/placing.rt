//! What a client makes of a row from the Store.
ghost use Rattle.std.specs.Prelude.{◌≡◌, ◌<◌, ◌^◌, ℕ, List, map, nat_le, true, false, Some, None, Ok, IfOk, IfErr, OnOk};
ghost use Rattle.std.specs.Prelude.{◌++◌, IfSome, option_copied};
ghost use Rattle.std.specs.List.{AllByRecursion};
ghost use Rattle.row_value.specs.Fit.{fit_of};
ghost use Rattle.value_codec.specs.Spelling.{HasNameSpelling};
ghost use Rattle.held_value.specs.declared.local_name.LocalName.{LocalName};
ghost use Rattle.client_tables.specs.Change.{seen_in};
ghost use Rattle.client_journal.specs.Redone.{redone};
ghost use Rattle.client_journal.specs.Standing.{devs as held_by, writes_of, AreUp, IsReady};
ghost use Rattle.step_tables.specs.Chunks.{is_of_each, objects_of};
ghost use Rattle.step_tables.specs.ClientMoves.{next_pull};
ghost use Rattle.step_tables.specs.declared.message.Message.TheVariants.{PullResponse as ResponseMessage};
ghost use Rattle.step_tables.specs.Travels.{pulled_of, send_of};
ghost use Rattle.field_codec.specs.Forms.{IsOption};
ghost use Rattle.plan_log.specs.Spelling.{IsPosition};
ghost use Rattle.plan_limits.specs.Fit.{HasWord, HaveWords};
ghost use Rattle.client_node.specs.Answering.{yours_in};
ghost use Rattle.held_contents.specs.Holding.{IsFit};
ghost use Rattle.client_node.specs.Answers.{record_at, held_at, IsFault};
ghost use Rattle.client_node.specs.Looks.{Looks};
ghost use Rattle.client_node.specs.Placing.{IsOfPosition, IsRowThere, HoldsRow, IsWhole, IsNext, PlansRow};
ghost use Rattle.client_node.specs.Placing.{read_behind, chunks_behind};
ghost use Rattle.client_node.specs.Readied.{IsIdle, Readies};

use crate::calls::held::chunks_of;
use crate::calls::pulling::request_from;
use crate::fault::CallFault;
use crate::looking::row_slots;
use crate::planning::Planned;
use crate::row_plan::{find_table, last_write, plan_of_row};
use crate::spelling::content_read;
use client_journal::{Journal, Plan};
use client_tables::{ShownChunks, plan_header, shown_content};
use disk_trait::Disk;
use held_contents::HeldNew;
use held_value::{HeldContent, Shadow, Slots, Tell};
use kept_chunks::hold_kept;
use row_pieces::is_named;
use row_value::{Cell, Content, fits};
use slot_store::TableRecord;
use stab_base::{ChunkName, ClientNo, Names, Sequence, TableNo, Version, WriteNo};
use std::alloc::{AllocError, Global};
use step_tables::{Addressed, ObjectNames, PullResponse, RowHeader};
use table_model::{ClientFact, Fact, Yours};

/// The version of the row that the client has read.
pub(crate) fn version_read(slots: &Slots) -> Version
    ensures { result ≡ seen_in slots.now.conflict slots.now.shadow }
{
    match (&slots.conflict, &slots.shadow) {
        (Some(row), _) => row.version,
        (None, Some(row)) => row.version,
        (None, None) => 0,
    }
}

/// Whether a row of this version isn't newer than the one that the client has read.
pub(crate) fn is_old(version: Version, slots: &Slots) -> bool
    ensures { result ≡ nat_le version (seen_in slots.now.conflict slots.now.shadow) }
{
    version <= version_read(slots)
}

// The request for the next change, where there is one behind this.
fn next_request(
    alloc: Global,
    client: ClientNo,
    pulled: &PullResponse,
) -> Result<Vec<Addressed>, AllocError>
    ensures { IfOk result (λ sends. map send_of sends.items
        ≡ next_pull client pulled.now.table (pulled_of pulled.now)) }
{
    if pulled.to < pulled.latest {
        request_from(alloc, client, pulled.table, pulled.to)
    } else {
        Ok(Vec::new(alloc))
    }
}

// The plan that moves the position of a table alone.
fn plan_of_position(
    alloc: Global,
    client: ClientNo,
    table: TableNo,
    last: WriteNo,
    position: Version,
    messages: Vec<Addressed>,
) -> Result<Planned, AllocError>
    ensures { IfOk result (IsOfPosition client table last position (map send_of messages.items)) }
{
    let mut tells = Sequence::new(alloc);
    tells.push(Tell::Position { position })?;
    let fact = Fact::Client(ClientFact::Position {
        client,
        table,
        position,
    });
    Ok(Planned {
        plan: Plan {
            server: true,
            table,
            last,
            row: None,
            position: Some(position),
            new_record: None,
            brought: Sequence::new(alloc),
            drops: Sequence::new(alloc),
            tells,
        },
        facts: vec![in alloc; fact]?,
        messages,
    })
}

// A version as one of 64 bits.
fn of_64_bits(version: Version) -> Version
    ensures same { result ≡ version }
    ensures few { version < 2 ^ 64 }
{
    version
}

// The client's last accepted write on a row, as it comes to the row's slots.
fn yours_in(yours: step_tables::Yours) -> Yours
    ensures same { result ≡ yours_in yours }
    ensures few { result.version < 2 ^ 64 }
{
    Yours {
        number: yours.number,
        version: of_64_bits(yours.version),
    }
}

// The plan of a row that isn't newer than the one that was read.
fn move_position<D: Disk + Drop>(
    alloc: Global,
    client: ClientNo,
    devs: &mut Journal<D>,
    pulled: &PullResponse,
) -> Result<Option<Planned>, CallFault>
    requires up { AreUp devs.old }
    requires ready { IsReady D.state devs.old (writes_of devs.old) }
    ensures looks { Looks D.state D.images devs.old devs.new result }
    ensures moves { IfOk result (λ found. IfSome found (IsOfPosition client pulled.now.table
        (redone (held_by D.state devs.old)).last pulled.now.to
        (next_pull client pulled.now.table (pulled_of pulled.now)))) }
    ensures some { IfOk result (λ found. found ≡ None → ⊥) }
    ensures few { OnOk result (pulled.now.to < 2 ^ 64) }
    ensures refused { IfErr result IsFault }
{
    let last = last_write(devs)?;
    let next = next_request(alloc, client, pulled)?;
    let position = of_64_bits(pulled.to);
    let planned = plan_of_position(alloc, client, pulled.table, last, position, next)?;
    Ok(Some(planned))
}

// A cell whose number is known to have 64 bits.
fn know_word(cell: &Cell)
    ensures { HasWord cell.now }
{
    match cell {
        Cell::Int(number) => {
            let _known: i64 = *number;
        }
        Cell::Bool(_) | Cell::Text(_) => {}
    }
}

fn know_cells(cells: &[Cell])
    ensures { AllByRecursion HasWord cells.now }
{
    for cell in cells {
        know_word(cell);
    }
}

// A content whose numbers are known to have 64 bits.
fn know_words(content: &Content)
    ensures { HaveWords content.now }
{
    if let Content::Row { cells, .. } = content {
        know_cells(cells.as_slice());
    }
}

// A name of a chunk whose numbers are known to have 64 and 32 bits.
fn know_name(name: &ChunkName)
    ensures { HasNameSpelling name.now }
{
    let _version: u64 = name.version;
    let _ordinal: u32 = name.ordinal;
}

fn know_object(names: &[ChunkName])
    ensures { AllByRecursion HasNameSpelling names.now }
{
    for name in names {
        know_name(name);
    }
}

// The names of each object, whose numbers are known so.
fn know_names(names: &[Names])
    ensures { AllByRecursion (AllByRecursion HasNameSpelling) names.now }
{
    for object in names {
        know_object(object.as_slice());
    }
}

// Whether a row fits the table.
fn fits_table(opened: &TableRecord, content: &Content) -> bool
    ensures fit { result ≡ true → fit_of opened.now.schema content.now ≡ Ok tt }
    ensures other { result ≡ false → fit_of opened.now.schema content.now ≡ Ok tt → ⊥ }
{
    fits(&opened.schema, content).is_ok()
}

/// Whether a row fits the table, and is named chunk by chunk.
pub(crate) fn is_whole(
    alloc: Global,
    opened: &TableRecord,
    header: &RowHeader,
) -> Result<bool, AllocError>
    requires size { 0 < opened.now.schema.chunk }
    ensures whole { IfOk result (λ whole. whole ≡ true → IsWhole opened.now header.now) }
    ensures other { IfOk result (λ whole. whole ≡ false → IsWhole opened.now header.now → ⊥) }
{
    if !fits_table(opened, &header.content) {
        return Ok(false);
    }
    is_named(alloc, opened.schema.chunk, &header.content, &header.names)
}

// Whether a row is one that comes next, fits the table, and is named chunk by chunk.
fn comes_next(
    alloc: Global,
    opened: &TableRecord,
    from: Version,
    header: &RowHeader,
) -> Result<bool, AllocError>
    requires size { 0 < opened.now.schema.chunk }
    ensures next { IfOk result (λ next. next ≡ true → IsNext opened.now from header.now) }
    ensures other { IfOk result (λ next. next ≡ false → IsNext opened.now from header.now → ⊥) }
{
    if from != opened.position {
        return Ok(false);
    }
    is_whole(alloc, opened, header)
}

// The content that was read last, where the client's own write is shown.
fn read_behind(slots: &Slots) -> Option<&HeldContent>
    ensures { option_copied result ≡ read_behind slots.now.main slots.now.shadow }
{
    match &slots.main {
        None => None,
        Some(_main) => content_read(&slots.shadow),
    }
}

// The chunks that a row holds behind those that it shows: those that were read last, and those of the row in conflict.
fn chunks_behind<D: Disk + Drop>(
    alloc: Global,
    devs: &mut Journal<D>,
    slots: &Slots,
) -> Result<(Sequence<ShownChunks>, Sequence<ShownChunks>), CallFault>
    requires up { AreUp devs.old }
    requires ready { IsReady D.state devs.old (writes_of devs.old) }
    ensures looks { Looks D.state D.images devs.old devs.new result }
    ensures chunks { IfOk result (λ behind. (meaning : LocalName → List ℕ)
        → IsRowThere meaning (held_by D.state devs.old) slots.now
        → behind.0 ++ behind.1 ≡ chunks_behind meaning slots.now) }
    ensures refused { IfErr result IsFault }
{
    let read = chunks_of(alloc, devs, read_behind(slots))?;
    let conflict = chunks_of(alloc, devs, content_read(&slots.conflict))?;
    Ok((read, conflict))
}

// What holds the content of a row, against what the client holds of it, with the Store's names of its chunks, of which
// those up to a version were kept.
fn hold_row<D: Disk + Drop>(
    alloc: Global,
    devs: &mut Journal<D>,
    size: u32,
    version: Version,
    slots: &Slots,
    content: &Content,
    names: &ObjectNames,
) -> Result<HeldNew, CallFault>
    requires up { AreUp devs.old }
    requires ready { IsReady D.state devs.old (writes_of devs.old) }
    requires size { 0 < size }
    requires fit { IsFit size content.now }
    requires named { is_of_each size names.now (objects_of content.now) ≡ true }
    ensures looks { Looks D.state D.images devs.old devs.new result }
    ensures holds { IfOk result (λ made. (meaning : LocalName → List ℕ)
        → IsRowThere meaning (held_by D.state devs.old) slots.now
        → HoldsRow meaning size slots.now content.now names.now made) }
    ensures words { OnOk result (HaveWords content.now) }
    ensures spelled { OnOk result (AllByRecursion (AllByRecursion HasNameSpelling) names.now) }
    ensures refused { IfErr result IsFault }
{
    know_words(content);
    know_names(names.as_slice());
    let shown = chunks_of(alloc, devs, shown_content(slots))?;
    let (read, conflict) = chunks_behind(alloc, devs, slots)?;
    let held = hold_kept(alloc, size, version, shown, read, conflict, content, names)?;
    Ok(held)
}

// Up to which version the Store keeps chunks of a row back: up to the table's position where the row answers a pull, which
// moves it, and none where the row was asked for whole.
fn kept_up_to(opened: &TableRecord, position: Option<Version>) -> Version {
    match position {
        Some(_) => opened.position,
        None => 0,
    }
}

/// The plan of a row that is newer than the one that was read, with the chunks that it brings, a new position of its
/// table, if there is one, and what it sends.
pub(crate) fn plan_row<D: Disk + Drop>(
    alloc: Global,
    client: ClientNo,
    devs: &mut Journal<D>,
    opened: &TableRecord,
    table: TableNo,
    slots: &Slots,
    header: &RowHeader,
    position: Option<Version>,
    messages: Vec<Addressed>,
) -> Result<Option<Planned>, CallFault>
    requires up { AreUp devs.old }
    requires ready { IsReady D.state devs.old (writes_of devs.old) }
    requires idle { IsIdle (held_by D.state devs.old) client }
    requires opened { record_at (held_by D.state devs.old) table ≡ Some opened.now }
    requires held { slots.now ≡ held_at (held_by D.state devs.old) table header.now.row }
    requires whole { IsWhole opened.now header.now }
    requires newer { nat_le header.now.version (seen_in slots.now.conflict slots.now.shadow) ≡ false }
    requires few { IsOption IsPosition position }
    ensures looks { Looks D.state D.images devs.old devs.new result }
    ensures plans { IfOk result (PlansRow (held_by D.state devs.old) client table header.now position
        (map send_of messages.items)) }
    ensures refused { IfErr result IsFault }
{
    let last = last_write(devs)?;
    let size = opened.schema.chunk;
    let kept = kept_up_to(opened, position);
    let held = hold_row(
        alloc,
        devs,
        size,
        kept,
        slots,
        &header.content,
        &header.names,
    )?;
    let version = of_64_bits(header.version);
    let row = Shadow {
        version,
        content: held.content,
    };
    let yours = yours_in(header.yours);
    let made = plan_header(alloc, opened.schema.scheme, slots, yours, row, held.brought)?;
    let found = plan_of_row(
        alloc,
        client,
        table,
        &header.row,
        last,
        true,
        position,
        made,
        messages,
    )?;
    Ok(found)
}

// The plan of a row that is newer than the one that was read, for the client's position.
fn put_row<D: Disk + Drop>(
    alloc: Global,
    client: ClientNo,
    devs: &mut Journal<D>,
    opened: &TableRecord,
    slots: &Slots,
    pulled: &PullResponse,
    header: &RowHeader,
) -> Result<Option<Planned>, CallFault>
    requires up { AreUp devs.old }
    requires ready { IsReady D.state devs.old (writes_of devs.old) }
    requires idle { IsIdle (held_by D.state devs.old) client }
    requires opened { record_at (held_by D.state devs.old) pulled.now.table ≡ Some opened.now }
    requires held { slots.now ≡ held_at (held_by D.state devs.old) pulled.now.table header.now.row }
    requires header { pulled.now.header ≡ Some header.now }
    requires next { IsNext opened.now pulled.now.from header.now }
    requires newer { nat_le header.now.version (seen_in slots.now.conflict slots.now.shadow) ≡ false }
    ensures looks { Looks D.state D.images devs.old devs.new result }
    ensures readies { IfOk result (Readies (held_by D.state devs.old) client (ResponseMessage pulled.now)) }
    ensures refused { IfErr result IsFault }
{
    let next = next_request(alloc, client, pulled)?;
    let position = of_64_bits(pulled.to);
    plan_row(
        alloc,
        client,
        devs,
        opened,
        pulled.table,
        slots,
        header,
        Some(position),
        next,
    )
}

// The plan of a row for the client's position.
fn place_row<D: Disk + Drop>(
    alloc: Global,
    client: ClientNo,
    devs: &mut Journal<D>,
    opened: &TableRecord,
    pulled: &PullResponse,
    header: &RowHeader,
) -> Result<Option<Planned>, CallFault>
    requires up { AreUp devs.old }
    requires ready { IsReady D.state devs.old (writes_of devs.old) }
    requires idle { IsIdle (held_by D.state devs.old) client }
    requires opened { record_at (held_by D.state devs.old) pulled.now.table ≡ Some opened.now }
    requires header { pulled.now.header ≡ Some header.now }
    requires next { IsNext opened.now pulled.now.from header.now }
    ensures looks { Looks D.state D.images devs.old devs.new result }
    ensures readies { IfOk result (Readies (held_by D.state devs.old) client (ResponseMessage pulled.now)) }
    ensures refused { IfErr result IsFault }
{
    let slots = row_slots(devs, pulled.table, &header.row)?;
    if is_old(header.version, &slots) {
        return move_position(alloc, client, devs, pulled);
    }
    put_row(alloc, client, devs, opened, &slots, pulled, header)
}

// The plan of a row for an opened table, where it comes next, fits and is named.
fn place_next<D: Disk + Drop>(
    alloc: Global,
    client: ClientNo,
    devs: &mut Journal<D>,
    opened: &TableRecord,
    pulled: &PullResponse,
    header: &RowHeader,
) -> Result<Option<Planned>, CallFault>
    requires up { AreUp devs.old }
    requires ready { IsReady D.state devs.old (writes_of devs.old) }
    requires idle { IsIdle (held_by D.state devs.old) client }
    requires opened { record_at (held_by D.state devs.old) pulled.now.table ≡ Some opened.now }
    requires header { pulled.now.header ≡ Some header.now }
    ensures looks { Looks D.state D.images devs.old devs.new result }
    ensures readies { IfOk result (Readies (held_by D.state devs.old) client (ResponseMessage pulled.now)) }
    ensures refused { IfErr result IsFault }
{
    let is_next = comes_next(alloc, opened, pulled.from, header)?;
    if !is_next {
        return Ok(None);
    }
    place_row(alloc, client, devs, opened, pulled, header)
}

// The plan of what came for an opened table.
fn place_header<D: Disk + Drop>(
    alloc: Global,
    client: ClientNo,
    devs: &mut Journal<D>,
    opened: &TableRecord,
    pulled: &PullResponse,
) -> Result<Option<Planned>, CallFault>
    requires up { AreUp devs.old }
    requires ready { IsReady D.state devs.old (writes_of devs.old) }
    requires idle { IsIdle (held_by D.state devs.old) client }
    requires opened { record_at (held_by D.state devs.old) pulled.now.table ≡ Some opened.now }
    ensures looks { Looks D.state D.images devs.old devs.new result }
    ensures readies { IfOk result (Readies (held_by D.state devs.old) client (ResponseMessage pulled.now)) }
    ensures refused { IfErr result IsFault }
{
    match &pulled.header {
        None => Ok(None),
        Some(header) => place_next(alloc, client, devs, opened, pulled, header),
    }
}

/// The plan that a row from the Store begins, if it begins one.
pub(crate) fn place<D: Disk + Drop>(
    alloc: Global,
    client: ClientNo,
    devs: &mut Journal<D>,
    pulled: &PullResponse,
) -> Result<Option<Planned>, CallFault>
    requires up { AreUp devs.old }
    requires ready { IsReady D.state devs.old (writes_of devs.old) }
    requires idle { IsIdle (held_by D.state devs.old) client }
    ensures looks { Looks D.state D.images devs.old devs.new result }
    ensures readies { IfOk result (Readies (held_by D.state devs.old) client (ResponseMessage pulled.now)) }
    ensures refused { IfErr result IsFault }
{
    let found = find_table(devs, pulled.table)?;
    match &found {
        None => Ok(None),
        Some(opened) => place_header(alloc, client, devs, opened, pulled),
    }
}
