//! What holds a new content.
ghost use Rattle.std.specs.Prelude.{◌≡◌, ◌⊎◌, ℕ, ◌+◌, ◌<◌, ◌≤◌, ◌^◌, true, false, List, [], ◌∷◌, ◌++◌, length, drop};
ghost use Rattle.std.specs.Prelude.{Some};
ghost use Rattle.std.specs.Prelude.{IfOk, OnOk, sum_by};
ghost use Rattle.std.specs.List.{AllByRecursion, Contains};
ghost use Rattle.row_value.specs.Fit.{chunk_count, chunks_of};
ghost use Rattle.chunker.specs.Cut.{IsCut};
ghost use Rattle.held_value.specs.declared.local_name.LocalName.{LocalName};
ghost use Rattle.held_value.specs.declared.content.HeldPiece.{HeldPiece};
ghost use Rattle.client_tables.specs.Held.{held_pieces, brought};
ghost use Rattle.client_tables.specs.Plan.{IsBrought};
ghost use Rattle.client_journal.specs.Names.{Has, names_of};
ghost use Rattle.client_journal.specs.There.{all_lens, repeats};
ghost use Rattle.step_tables.specs.Chunks.{first_of, is_of_each, objects_of};
ghost use Rattle.step_tables.specs.ClientMoves.{known};
ghost use Rattle.journal_laws.specs.Whole.{whole, HaveLens, names_known};
ghost use Rattle.journal_laws.specs.Moves.{plan_meaning};
ghost use Rattle.held_contents.specs.Holding.{IsFit, IsHeldAgainst, IsNamedAgainst, HoldsObjects, HoldsOne};
ghost use Rattle.held_contents.specs.Holding.{first_shown};
ghost use Rattle.held_contents.specs.Holding.{with_names, AreShown};
ghost use Rattle.held_contents.specs.Holding.{pieces_shown, names_shown, pieces_held, IsBroughtPiece, brought_name};

use crate::copied::copy_cells;
use chunker::{Chunks, cut};
use client_tables::{BroughtChunks, HeldChunks, NewChunks, ShownChunks, held_against};
use held_value::{HeldContent, HeldObject, HeldObjects};
use row_value::Content;
use stab_base::{Bytes, ChunkName, Names, Sequence, SharedBytes};
use std::alloc::{AllocError, Global};
use step_tables::ObjectNames;

/// What holds a new content, and the chunks that it brings: a local name of plan 0 stands for the one of its ordinal.
#[derive(Debug, Drop)]
pub struct HeldNew {
    pub content: HeldContent,
    pub brought: BroughtChunks,
}

// Chunks with their names, as far as there are any.
fn with_names(
    alloc: Global,
    chunks: Chunks,
    names: &[ChunkName],
) -> Result<Vec<(Option<ChunkName>, Bytes)>, AllocError>
    ensures { IfOk result (λ made. made.items ≡ with_names names.now chunks) }
{
    let mut made = Vec::new(alloc);
    let mut left = names;
    for bytes in chunks.into_vec() {
        made.push((left.first().copied(), bytes))?;
        left = behind(left);
    }
    Ok(made)
}

// The chunks of an object, of the first of which the Store's names are known.
fn named_chunks(
    alloc: Global,
    size: u32,
    object: &[u8],
    names: &[ChunkName],
) -> Result<NewChunks, AllocError>
    requires { 0 < size }
    ensures { IfOk result (λ made. (chunks : List (List ℕ)) × IsCut size object.now chunks
        × (made ≡ with_names names.now chunks)) }
{
    let chunks = cut(alloc, object, size)?;
    Ok(NewChunks::from_vec(with_names(alloc, chunks, names)?))
}

// The same by the names of the first object.
fn new_chunks(
    alloc: Global,
    size: u32,
    object: &[u8],
    names: &[Names],
) -> Result<NewChunks, AllocError>
    requires { 0 < size }
    ensures { IfOk result (λ made. (chunks : List (List ℕ)) × IsCut size object.now chunks
        × (made ≡ with_names (first_of names.now) chunks)) }
{
    match names.first() {
        None => named_chunks(alloc, size, object, &[]),
        Some(first) => named_chunks(alloc, size, object, first.as_slice()),
    }
}

// The chunks of a new object against those of the first object that is shown.
fn against_first(
    alloc: Global,
    shown: &[ShownChunks],
    new: NewChunks,
    next: u32,
) -> Result<HeldChunks, AllocError>
    requires { next + length new < 2 ^ 32 }
    ensures pieces { IfOk result (λ held. held.pieces ≡ held_pieces (first_shown shown.now) new next) }
    ensures chunks { IfOk result (λ held. held.brought ≡ brought (first_shown shown.now) new) }
{
    match shown.first() {
        None => held_against(alloc, &ShownChunks::new(alloc), new, next),
        Some(first) => held_against(alloc, first, new, next),
    }
}

// Adds these chunks, which aren't copied.
fn add_all(brought: &mut BroughtChunks, more: Sequence<Bytes>) -> Result<(), AllocError>
    ensures { OnOk result (brought.new ≡ brought.old ++ more) }
{
    for bytes in more.into_vec() {
        brought.push(bytes)?;
    }
    Ok(())
}

// Adds what holds an object, and the chunks that it brings.
fn hold_one(
    alloc: Global,
    size: u32,
    shown: &[ShownChunks],
    names: &[Names],
    object: &SharedBytes,
    held: &mut HeldObjects,
    brought: &mut BroughtChunks,
) -> Result<(), AllocError>
    requires size { 0 < size }
    requires len { length object.now < 2 ^ 32 }
    requires few { length brought.old + chunk_count size object.now < 2 ^ 32 }
    ensures { OnOk result (HoldsOne size shown.now names.now object.now held.old held.new brought.old brought.new) }
{
    let new = new_chunks(alloc, size, object.as_slice(), names)?;
    let made = against_first(alloc, shown, new, brought.len() as u32)?;
    held.push(HeldObject {
        len: object.len() as u32,
        pieces: made.pieces,
    })?;
    add_all(brought, made.brought)
}

pub(crate) fn behind<T>(items: &[T]) -> &[T]
    ensures { result.now ≡ drop 1 items.now }
{
    match items.split_first() {
        None => items,
        Some((_first, rest)) => rest,
    }
}

// What holds some objects, and the chunks that they bring.
fn hold_objects(
    alloc: Global,
    size: u32,
    shown: &[ShownChunks],
    names: &[Names],
    objects: &[SharedBytes],
) -> Result<(HeldObjects, BroughtChunks), AllocError>
    requires size { 0 < size }
    requires lens { AllByRecursion (λ object. length object < 2 ^ 32) objects.now }
    requires few { chunks_of size objects.now < 2 ^ 32 }
    ensures { IfOk result (λ made. HoldsObjects size shown.now names.now objects.now made.0 made.1) }
{
    let mut held = HeldObjects::new(alloc);
    let mut brought = BroughtChunks::new(alloc);
    let mut left = shown;
    let mut named = names;
    for object in objects {
        hold_one(alloc, size, left, named, object, &mut held, &mut brought)?;
        left = behind(left);
        named = behind(named);
    }
    Ok((held, brought))
}

fn held_new(
    alloc: Global,
    size: u32,
    shown: &[ShownChunks],
    names: &[Names],
    content: &Content,
) -> Result<HeldNew, AllocError>
    requires size { 0 < size }
    requires fit { IsFit size content.now }
    ensures { IfOk result (λ made.
        IsNamedAgainst size shown.now names.now content.now made.content made.brought) }
{
    match content {
        Content::Gone => Ok(HeldNew {
            content: HeldContent::Gone,
            brought: BroughtChunks::new(alloc),
        }),
        Content::Row { cells, objects } => {
            let cells = copy_cells(cells)?;
            let (objects, brought) = hold_objects(alloc, size, shown, names, objects.as_slice())?;
            Ok(HeldNew {
                content: HeldContent::Row { cells, objects },
                brought,
            })
        }
    }
}

/// What holds a new content in chunks of a size: a chunk that the object which is shown at the same place has at the
/// same place keeps its local name and the Store's, and the others are brought, numbered on from object to object. The
/// Store has no names for these yet.
pub fn hold(
    alloc: Global,
    size: u32,
    shown: &Sequence<ShownChunks>,
    content: &Content,
) -> Result<HeldNew, AllocError>
    requires size { 0 < size }
    requires fit { IsFit size content.now }
    ensures held { IfOk result (λ made. IsHeldAgainst size shown.now content.now made.content made.brought) }
    ensures whole { IfOk result (λ made. (meaning : LocalName → List ℕ) (number : ℕ)
        → AreShown meaning number shown.now
        → whole (plan_meaning meaning number made.brought) made.content ≡ content.now) }
    ensures lens { IfOk result (λ made. (meaning : LocalName → List ℕ) (number : ℕ)
        → AreShown meaning number shown.now → HaveLens (plan_meaning meaning number made.brought) made.content) }
    ensures places { IfOk result (λ made. (meaning : LocalName → List ℕ) (number : ℕ)
        → AreShown meaning number shown.now
        → all_lens (λ name. Some (plan_meaning meaning number made.brought name)) size made.content ≡ true) }
    ensures pieces { IfOk result (λ made. (piece : HeldPiece) → Contains (pieces_held made.content) piece
        → Contains (pieces_shown shown.now) piece ⊎ IsBroughtPiece (length made.brought) piece) }
    ensures names { IfOk result (λ made. (name : LocalName) → Has (names_of made.content) name
        → Has (names_shown shown.now) name ⊎ IsBrought (length made.brought) name) }
    ensures all_brought { IfOk result (λ made. (ordinal : ℕ) → ordinal < length made.brought
        → Has (names_of made.content) (brought_name ordinal)) }
    ensures once { IfOk result (λ made. (meaning : LocalName → List ℕ) (number : ℕ)
        → AreShown meaning number shown.now → repeats [] (names_shown shown.now) ≡ false
        → repeats [] (names_of made.content) ≡ false) }
    ensures small { IfOk result (λ made. AllByRecursion (λ bytes. length bytes ≤ size) made.brought) }
{
    held_new(alloc, size, shown.as_slice(), &[], content)
}

/// What holds a row from the Store, in chunks of a size, as `hold` has it, with the Store's name of each chunk.
pub fn hold_named(
    alloc: Global,
    size: u32,
    shown: &Sequence<ShownChunks>,
    content: &Content,
    names: &ObjectNames,
) -> Result<HeldNew, AllocError>
    requires size { 0 < size }
    requires fit { IsFit size content.now }
    requires named { is_of_each size names.now (objects_of content.now) ≡ true }
    ensures held { IfOk result (λ made.
        IsNamedAgainst size shown.now names.now content.now made.content made.brought) }
    ensures known { IfOk result (λ made. names_known made.content ≡ known names.now) }
    ensures whole { IfOk result (λ made. (meaning : LocalName → List ℕ) (number : ℕ)
        → AreShown meaning number shown.now
        → whole (plan_meaning meaning number made.brought) made.content ≡ content.now) }
    ensures lens { IfOk result (λ made. (meaning : LocalName → List ℕ) (number : ℕ)
        → AreShown meaning number shown.now → HaveLens (plan_meaning meaning number made.brought) made.content) }
    ensures places { IfOk result (λ made. (meaning : LocalName → List ℕ) (number : ℕ)
        → AreShown meaning number shown.now
        → all_lens (λ name. Some (plan_meaning meaning number made.brought name)) size made.content ≡ true) }
    ensures names { IfOk result (λ made. (name : LocalName) → Has (names_of made.content) name
        → Has (names_shown shown.now) name ⊎ IsBrought (length made.brought) name) }
    ensures all_brought { IfOk result (λ made. (ordinal : ℕ) → ordinal < length made.brought
        → Has (names_of made.content) (brought_name ordinal)) }
    ensures once { IfOk result (λ made. (meaning : LocalName → List ℕ) (number : ℕ)
        → AreShown meaning number shown.now → repeats [] (names_shown shown.now) ≡ false
        → repeats [] (names_of made.content) ≡ false) }
    ensures small { IfOk result (λ made. AllByRecursion (λ bytes. length bytes ≤ size) made.brought) }
{
    held_new(alloc, size, shown.as_slice(), names.as_slice(), content)
}
