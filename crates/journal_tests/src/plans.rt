//! Plans of each shape.
ghost use Rattle.std.specs.Prelude.{◌≡◌, ◌≤◌, [], ◌∷◌, ℕ, List, IfOk, IfSome, OnOk, IsSome, IsTrue, length};
ghost use Rattle.stab_base.specs.declared.limits.TheConstants.{NUMBER_MAX};
ghost use Rattle.slot_store.specs.Data.{slots_of};
ghost use Rattle.plan_log.specs.Spelling.{HasRecordChange, record_change_spelling};
ghost use Rattle.client_journal.specs.Names.{names_in, names_of};
ghost use Rattle.client_journal.specs.NamedSlots.{names_if};
ghost use Rattle.client_journal.specs.Devs.{local_in};
ghost use Rattle.client_journal.specs.Plan.{IsPlan};
ghost use Rattle.client_journal.specs.Standing.{devs};
ghost use Rattle.journal_tests.specs.Standing.{IsMoving, IsResting};
ghost use Rattle.journal_tests.specs.Shapes.{new_piece, object_of, main_of, plan_of};

use crate::shown::{OTHER, ROW, TABLE, id_of};
use client_journal::{Journal, JournalFault, Plan};
use disk_trait::Disk;
use held_value::{
    HeldContent, HeldObject, HeldObjects, HeldPiece, HeldPieces, LocalName, LocalNames, Main,
    Slots, Tells,
};
use plan_log::{RecordChange, RowChange};
use row_value::Cells;
use slot_store::RowSlots;
use stab_base::{Bytes, NUMBER_MAX, RowId, Sequence, Version, WriteNo};
use std::alloc::{AllocError, Global};
use std::test::Fail;
use value_codec::schema_of;

/// A causal table "t" of one column "a" of objects, in chunks of 64 bytes.
const SCHEMA: [u8; 20] = [
    0, 0, 0, 1, 116, 2, 0, 0, 0, 64, 0, 0, 0, 1, 0, 0, 0, 1, 97, 4,
];

/// What a plan does.
#[derive(Debug, Clone, Copy)]
pub(crate) enum Shape {
    /// Opens the table.
    Open,
    /// Moves its position.
    Position(Version),
    /// Puts the first row with one chunk, and the table's record at this position.
    First(WriteNo, Version),
    /// Puts the other row's slots, and nothing else.
    Other(WriteNo),
    /// Brings two chunks of the first row, and drops the one that it had.
    Second(WriteNo),
    /// Closes the table.
    Close,
}

fn record_with(alloc: Global, state: u8) -> Result<RecordChange, Fail>
    requires least { 1 ≤ state }
    requires most { state ≤ 2 }
    ensures spelled { IfOk result HasRecordChange }
    ensures short { IfOk result (λ change. length (record_change_spelling change) ≤ 100) }
{
    let schema = schema_of(alloc, &SCHEMA)?;
    Ok(RecordChange { state, schema })
}

fn plan_with(
    alloc: Global,
    last: WriteNo,
    row: Option<RowChange>,
    position: Option<Version>,
    new_record: Option<RecordChange>,
    brought: Sequence<Bytes>,
    drops: LocalNames,
) -> Plan
    ensures { result ≡ plan_of last row position new_record brought drops }
{
    Plan {
        server: false,
        table: TABLE,
        last,
        row,
        position,
        new_record,
        brought,
        drops,
        tells: Tells::new(alloc),
    }
}

fn piece_of(ordinal: u32) -> HeldPiece
    ensures { result ≡ new_piece ordinal }
{
    HeldPiece {
        local: LocalName { plan: 0, ordinal },
        name: None,
    }
}

fn object_with(alloc: Global, len: u32, pieces: HeldPieces) -> Result<HeldContent, AllocError>
    ensures { IfOk result (λ content. content ≡ object_of len pieces) }
{
    let mut objects = HeldObjects::new(alloc);
    objects.push(HeldObject { len, pieces })?;
    Ok(HeldContent::Row {
        cells: Cells::new(alloc),
        objects,
    })
}

fn one_chunk(alloc: Global) -> Result<HeldContent, AllocError>
    ensures { IfOk result (λ content. content ≡ object_of 5 (new_piece 0 ∷ [])) }
{
    let mut pieces = HeldPieces::new(alloc);
    pieces.push(piece_of(0))?;
    object_with(alloc, 5, pieces)
}

fn two_chunks(alloc: Global) -> Result<HeldContent, AllocError>
    ensures { IfOk result (λ content. content ≡ object_of 69 (new_piece 0 ∷ new_piece 1 ∷ [])) }
{
    let mut pieces = HeldPieces::new(alloc);
    pieces.push(piece_of(0))?;
    pieces.push(piece_of(1))?;
    object_with(alloc, 69, pieces)
}

fn slots_with(number: WriteNo, content: HeldContent) -> Slots
    ensures { result ≡ main_of number content }
{
    Slots {
        main: Some(Main {
            number,
            read: 0,
            content,
        }),
        shadow: None,
        out: None,
        conflict: None,
    }
}

fn chunk_of(alloc: Global, first: u8, len: usize) -> Result<Bytes, AllocError>
    requires { len ≤ 64 }
    ensures { IfOk result (λ bytes. length bytes ≡ len) }
{
    let bytes = vec![in alloc; first; len]?;
    Ok(Bytes::from_vec(bytes))
}

fn one_brought(alloc: Global) -> Result<Sequence<Bytes>, AllocError>
    ensures { IfOk result (λ brought. (bytes : List ℕ) × (brought ≡ bytes ∷ []) × (length bytes ≤ 64)) }
{
    let mut brought = Sequence::new(alloc);
    let bytes = chunk_of(alloc, 11, 5)?;
    brought.push(bytes)?;
    Ok(brought)
}

fn two_brought(alloc: Global) -> Result<Sequence<Bytes>, AllocError>
    ensures { IfOk result (λ brought. (a b : List ℕ) × (brought ≡ a ∷ b ∷ [])
        × (length a ≤ 64) × (length b ≤ 64)) }
{
    let mut brought = Sequence::new(alloc);
    let first = chunk_of(alloc, 21, 64)?;
    let second = chunk_of(alloc, 22, 5)?;
    brought.push(first)?;
    brought.push(second)?;
    Ok(brought)
}

// The slots of a row.
fn held<D: Disk + Drop>(
    client: &mut Journal<D>,
    row: &RowId,
) -> Result<Option<RowSlots>, JournalFault>
    requires { IsResting D.state client.old }
    ensures rests { OnOk result (IsResting D.state client.new) }
    ensures found { IfOk result (λ found. slots_of (devs D.state client.new).held 1 row.now ≡ found) }
{
    client.slots(TABLE, row)
}

fn has_chunk<D: Disk + Drop>(client: &mut Journal<D>, name: LocalName) -> Result<bool, JournalFault>
    requires { IsResting D.state client.old }
    ensures rests { OnOk result (IsResting D.state client.new) }
    ensures same { OnOk result (devs D.state client.new ≡ devs D.state client.old) }
    ensures there { IfOk result (λ there. IsTrue there
        → IsSome (local_in (devs D.state client.new).chunks name)) }
{
    let found = client.chunk(name)?;
    Ok(found.is_some())
}

// The one name in a content, if it has one.
fn name_in(content: &HeldContent) -> Option<LocalName>
    ensures { IfSome result (λ name. names_of content.now ≡ name ∷ []) }
{
    let HeldContent::Row { objects, .. } = content else {
        return None;
    };
    let [object] = objects.as_slice() else {
        return None;
    };
    let [piece] = object.pieces.as_slice() else {
        return None;
    };
    Some(piece.local)
}

// The one name in slots, if they have one.
fn single(slots: &Slots) -> Option<LocalName>
    ensures { IfSome result (λ name. names_in slots.now ≡ name ∷ []) }
{
    if slots.shadow.is_some() {
        return None;
    }
    if slots.out.is_some() {
        return None;
    }
    if slots.conflict.is_some() {
        return None;
    }
    let main = slots.main.as_ref()?;
    name_in(&main.content)
}

fn single_of(found: &Option<RowSlots>) -> Option<LocalName>
    ensures { IfSome result (λ name. names_if found.now ≡ name ∷ []) }
{
    let row = found.as_ref()?;
    single(&row.slots)
}

fn begin_plan<D: Disk + Drop>(client: &mut Journal<D>, plan: Plan) -> Result<(), JournalFault>
    requires rests { IsResting D.state client.old }
    requires plan { IsPlan (devs D.state client.old) plan }
    ensures { OnOk result (IsMoving D.state client.new) }
{
    client.begin(plan)?;
    Ok(())
}

fn begin_record<D: Disk + Drop>(
    alloc: Global,
    client: &mut Journal<D>,
    state: u8,
) -> Result<(), Fail>
    requires rests { IsResting D.state client.old }
    requires least { 1 ≤ state }
    requires most { state ≤ 2 }
    ensures { OnOk result (IsMoving D.state client.new) }
{
    let change = record_with(alloc, state)?;
    let plan = plan_with(
        alloc,
        0,
        None,
        None,
        Some(change),
        Sequence::new(alloc),
        LocalNames::new(alloc),
    );
    begin_plan(client, plan)?;
    Ok(())
}

fn begin_position<D: Disk + Drop>(
    alloc: Global,
    client: &mut Journal<D>,
    position: Version,
) -> Result<(), JournalFault>
    requires { IsResting D.state client.old }
    ensures { OnOk result (IsMoving D.state client.new) }
{
    let plan = plan_with(
        alloc,
        0,
        None,
        Some(position),
        None,
        Sequence::new(alloc),
        LocalNames::new(alloc),
    );
    begin_plan(client, plan)
}

// Puts slots of a row that has none, without chunks.
fn begin_other<D: Disk + Drop>(
    alloc: Global,
    client: &mut Journal<D>,
    number: WriteNo,
) -> Result<(), Fail>
    requires rests { IsResting D.state client.old }
    requires number { number ≤ NUMBER_MAX }
    ensures { OnOk result (IsMoving D.state client.new) }
{
    let row = id_of(OTHER);
    let found = held(client, &row)?;
    if found.is_some() {
        return Err("the row has slots".into());
    }
    let change = RowChange {
        row,
        slots: slots_with(number, HeldContent::Gone),
    };
    let plan = plan_with(
        alloc,
        number,
        Some(change),
        None,
        None,
        Sequence::new(alloc),
        LocalNames::new(alloc),
    );
    begin_plan(client, plan)?;
    Ok(())
}

// Puts a row that has no slots, with one chunk, and the table's record.
fn begin_first<D: Disk + Drop>(
    alloc: Global,
    client: &mut Journal<D>,
    number: WriteNo,
    position: Version,
) -> Result<(), Fail>
    requires rests { IsResting D.state client.old }
    requires number { number ≤ NUMBER_MAX }
    ensures { OnOk result (IsMoving D.state client.new) }
{
    let row = id_of(ROW);
    let found = held(client, &row)?;
    if found.is_some() {
        return Err("the row has slots".into());
    }
    let content = one_chunk(alloc)?;
    let change = RowChange {
        row,
        slots: slots_with(number, content),
    };
    let record = record_with(alloc, 1)?;
    let brought = one_brought(alloc)?;
    let plan = plan_with(
        alloc,
        number,
        Some(change),
        Some(position),
        Some(record),
        brought,
        LocalNames::new(alloc),
    );
    begin_plan(client, plan)?;
    Ok(())
}

// The name of the one chunk of a row.
fn old_name<D: Disk + Drop>(client: &mut Journal<D>, row: &RowId) -> Result<LocalName, Fail>
    requires { IsResting D.state client.old }
    ensures rests { OnOk result (IsResting D.state client.new) }
    ensures name { IfOk result (λ name. names_if (slots_of (devs D.state client.new).held 1 row.now) ≡ name ∷ []) }
    ensures there { IfOk result (λ name. IsSome (local_in (devs D.state client.new).chunks name)) }
{
    let found = held(client, row)?;
    let Some(name) = single_of(&found) else {
        return Err("the row has not one chunk".into());
    };
    let there = has_chunk(client, name)?;
    if there {
        Ok(name)
    } else {
        Err("the chunk is not there".into())
    }
}

fn one_name(alloc: Global, name: LocalName) -> Result<LocalNames, AllocError>
    ensures { IfOk result (λ names. names ≡ name ∷ []) }
{
    let mut names = LocalNames::new(alloc);
    names.push(name)?;
    Ok(names)
}

// Brings two chunks of a row, and drops the one that it has.
fn begin_second<D: Disk + Drop>(
    alloc: Global,
    client: &mut Journal<D>,
    number: WriteNo,
) -> Result<(), Fail>
    requires rests { IsResting D.state client.old }
    requires number { number ≤ NUMBER_MAX }
    ensures { OnOk result (IsMoving D.state client.new) }
{
    let row = id_of(ROW);
    let old = old_name(client, &row)?;
    let content = two_chunks(alloc)?;
    let change = RowChange {
        row,
        slots: slots_with(number, content),
    };
    let brought = two_brought(alloc)?;
    let drops = one_name(alloc, old)?;
    let plan = plan_with(alloc, number, Some(change), None, None, brought, drops);
    begin_plan(client, plan)?;
    Ok(())
}

/// Takes a plan of this shape on.
pub(crate) fn begin<D: Disk + Drop>(
    alloc: Global,
    client: &mut Journal<D>,
    shape: Shape,
) -> Result<(), Fail>
    requires { IsResting D.state client.old }
    ensures { OnOk result (IsMoving D.state client.new) }
{
    match shape {
        Shape::Open => begin_record(alloc, client, 1),
        Shape::Close => begin_record(alloc, client, 2),
        Shape::Position(position) => Ok(begin_position(alloc, client, position)?),
        Shape::First(number, position) if number <= NUMBER_MAX => {
            begin_first(alloc, client, number, position)
        }
        Shape::Other(number) if number <= NUMBER_MAX => begin_other(alloc, client, number),
        Shape::Second(number) if number <= NUMBER_MAX => begin_second(alloc, client, number),
        _ => Err("a number above the limit".into()),
    }
}
