//! Whether the slots of a row on a disk are there, whatever the disk's bytes are.
ghost use Rattle.std.specs.Prelude.{◌≡◌, ◌++◌, [], ℕ, List, IfOk, OnOk, replicate};
ghost use Rattle.std.specs.BTreeSet.{contains};
ghost use Rattle.std.specs.List.{list_all, list_any};
ghost use Rattle.vault.specs.Standing.{IsUp};
ghost use Rattle.held_value.specs.declared.local_name.LocalName.{LocalName};
ghost use Rattle.chunk_store.specs.Payload.{name_cmp};
ghost use Rattle.chunk_store.specs.Standing as chunks;
ghost use Rattle.slot_store.specs.Data.{SlotData, record_of};
ghost use Rattle.client_journal.specs.Names.{names_of, names_in};
ghost use Rattle.client_journal.specs.Devs.{chunk_of, local_in};
ghost use Rattle.client_journal.specs.There.{has_len, has_lens, zeros_for, sized, fits_by_len, lacks, repeats, misfits};
ghost use Rattle.client_journal.specs.There.{is_wrong, in_main, in_shadow, in_out, any_content, exceeds, is_not_there};
ghost use Rattle.client_journal.specs.There.{HasNames};
ghost use Rattle.client_journal.specs.Scan.{NotesRow};

use crate::names::{chunk_name, names_in, names_of};
use crate::scanned::Scanned;
use chunk_store::ChunkDev;
use chunker::{count_of, len_at};
use disk_trait::Disk;
use held_value::{HeldContent, HeldObject, LocalName, Main, Out, Shadow, Slots};
use row_value::{Content, Objects, fits};
use slot_store::{RowKey, Schema, TableRecord};
use stab_base::{Bytes, ChunkName, SharedBytes};
use std::alloc::{AllocError, Global};
use std::collections::BTreeSet;

// Whether a name has a chunk of this length.
fn has_len<D: Disk + Drop>(dev: &ChunkDev<D>, name: LocalName, len: u64) -> bool
    requires up { IsUp (chunks.vault_of dev.now) }
    requires looked { chunks.IsLookedAt D.state dev.now }
    ensures { result ≡ has_len (local_in (chunks.chunks D.state dev.now) name) len }
{
    match dev.len_of(chunk_name(name)) {
        Some(found) => found == len,
        None => false,
    }
}

// Whether an object's pieces are those of its length, for chunks of a size.
fn has_lens<D: Disk + Drop>(dev: &ChunkDev<D>, size: u32, object: &HeldObject) -> bool
    requires up { IsUp (chunks.vault_of dev.now) }
    requires looked { chunks.IsLookedAt D.state dev.now }
    ensures { result ≡ has_lens (local_in (chunks.chunks D.state dev.now)) size object.now }
{
    let pieces = object.pieces.as_slice();
    let are_all = pieces.len() == count_of(size, object.len);
    if !are_all {
        return false;
    }
    for (place, piece) in pieces.iter().enumerate() {
        if !has_len(dev, piece.local, len_at(size, object.len, place)) {
            return false;
        }
    }
    true
}

fn all_lens<D: Disk + Drop>(dev: &ChunkDev<D>, size: u32, objects: &[HeldObject]) -> bool
    requires up { IsUp (chunks.vault_of dev.now) }
    requires looked { chunks.IsLookedAt D.state dev.now }
    ensures { result ≡ list_all (has_lens (local_in (chunks.chunks D.state dev.now)) size) objects.now }
{
    for object in objects {
        if !has_lens(dev, size, object) {
            return false;
        }
    }
    true
}

// Whether a chunk that a content names isn't on the device, or hasn't the length of its place.
fn lacks<D: Disk + Drop>(
    dev: &ChunkDev<D>,
    table: &Option<TableRecord>,
    content: &HeldContent,
) -> bool
    requires up { IsUp (chunks.vault_of dev.now) }
    requires looked { chunks.IsLookedAt D.state dev.now }
    ensures { result ≡ lacks (local_in (chunks.chunks D.state dev.now)) table.now content.now }
{
    let Some(record) = table else {
        return false;
    };
    match content {
        HeldContent::Gone => false,
        HeldContent::Row { objects, .. } => {
            !all_lens(dev, record.schema.chunk, objects.as_slice())
        }
    }
}

// Whether a name stands there twice.
fn repeats(alloc: Global, names: &[LocalName]) -> Result<bool, AllocError>
    ensures { IfOk result (λ twice. twice ≡ repeats [] names.now) }
{
    let mut met = BTreeSet::new(alloc);
    for name in names {
        let is_new = met.insert(chunk_name(*name))?;
        if !is_new {
            return Ok(true);
        }
    }
    Ok(false)
}

fn zeros(alloc: Global, len: u32) -> Result<SharedBytes, AllocError>
    ensures { IfOk result (λ made. made ≡ replicate len 0) }
{
    SharedBytes::new(Bytes::from_vec(vec![in alloc; 0u8; len as usize]?))
}

fn zeros_for(alloc: Global, objects: &[HeldObject]) -> Result<Objects, AllocError>
    ensures { IfOk result (λ made. made ≡ zeros_for objects.now) }
{
    let mut made = Objects::new(alloc);
    for object in objects {
        made.push(zeros(alloc, object.len)?)?;
    }
    Ok(made)
}

fn sized(alloc: Global, content: &HeldContent) -> Result<Content, AllocError>
    ensures { IfOk result (λ made. made ≡ sized content.now) }
{
    match content {
        HeldContent::Gone => Ok(Content::Gone),
        HeldContent::Row { cells, objects } => Ok(Content::Row {
            cells: cells.clone()?,
            objects: zeros_for(alloc, objects.as_slice())?,
        }),
    }
}

// Whether a content is a row of this table by its cells and the lengths of its objects.
fn fits_by_len(alloc: Global, schema: &Schema, content: &HeldContent) -> Result<bool, AllocError>
    ensures { IfOk result (λ fit. fit ≡ fits_by_len schema.now content.now) }
{
    let whole = sized(alloc, content)?;
    Ok(fits(schema, &whole).is_ok())
}

// Whether a content isn't one of the table's rows.
fn misfits(
    alloc: Global,
    table: &Option<TableRecord>,
    content: &HeldContent,
) -> Result<bool, AllocError>
    ensures { IfOk result (λ wrong. wrong ≡ misfits table.now content.now) }
{
    match table {
        None => Ok(true),
        Some(record) => Ok(!fits_by_len(alloc, &record.schema, content)?),
    }
}

// Whether a content can't be one that was put with a plan. The objects are made by their lengths only where the device
// has their chunks.
fn is_wrong<D: Disk + Drop>(
    alloc: Global,
    dev: &ChunkDev<D>,
    table: &Option<TableRecord>,
    content: &HeldContent,
) -> Result<bool, AllocError>
    requires up { IsUp (chunks.vault_of dev.now) }
    requires looked { chunks.IsLookedAt D.state dev.now }
    ensures { IfOk result (λ wrong. wrong
        ≡ is_wrong (local_in (chunks.chunks D.state dev.now)) table.now content.now) }
{
    if lacks(dev, table, content) {
        return Ok(true);
    }
    let names = names_of(alloc, content)?;
    let twice = repeats(alloc, &names)?;
    if twice {
        return Ok(true);
    }
    misfits(alloc, table, content)
}

fn main_is_wrong<D: Disk + Drop>(
    alloc: Global,
    dev: &ChunkDev<D>,
    table: &Option<TableRecord>,
    main: &Option<Main>,
) -> Result<bool, AllocError>
    requires up { IsUp (chunks.vault_of dev.now) }
    requires looked { chunks.IsLookedAt D.state dev.now }
    ensures { IfOk result (λ wrong. wrong
        ≡ in_main (is_wrong (local_in (chunks.chunks D.state dev.now)) table.now) main.now) }
{
    match main {
        None => Ok(false),
        Some(main) => is_wrong(alloc, dev, table, &main.content),
    }
}

fn shadow_is_wrong<D: Disk + Drop>(
    alloc: Global,
    dev: &ChunkDev<D>,
    table: &Option<TableRecord>,
    shadow: &Option<Shadow>,
) -> Result<bool, AllocError>
    requires up { IsUp (chunks.vault_of dev.now) }
    requires looked { chunks.IsLookedAt D.state dev.now }
    ensures { IfOk result (λ wrong. wrong
        ≡ in_shadow (is_wrong (local_in (chunks.chunks D.state dev.now)) table.now) shadow.now) }
{
    match shadow {
        None => Ok(false),
        Some(shadow) => is_wrong(alloc, dev, table, &shadow.content),
    }
}

fn out_is_wrong<D: Disk + Drop>(
    alloc: Global,
    dev: &ChunkDev<D>,
    table: &Option<TableRecord>,
    out: &Option<Out>,
) -> Result<bool, AllocError>
    requires up { IsUp (chunks.vault_of dev.now) }
    requires looked { chunks.IsLookedAt D.state dev.now }
    ensures { IfOk result (λ wrong. wrong
        ≡ in_out (is_wrong (local_in (chunks.chunks D.state dev.now)) table.now) out.now) }
{
    match out {
        None => Ok(false),
        Some(out) => is_wrong(alloc, dev, table, &out.content),
    }
}

// Whether one of the four contents is wrong.
fn slot_is_wrong<D: Disk + Drop>(
    alloc: Global,
    dev: &ChunkDev<D>,
    table: &Option<TableRecord>,
    slots: &Slots,
) -> Result<bool, AllocError>
    requires up { IsUp (chunks.vault_of dev.now) }
    requires looked { chunks.IsLookedAt D.state dev.now }
    ensures { IfOk result (λ wrong. wrong
        ≡ any_content (is_wrong (local_in (chunks.chunks D.state dev.now)) table.now) slots.now) }
{
    let main = main_is_wrong(alloc, dev, table, &slots.main)?;
    if main {
        return Ok(true);
    }
    let shadow = shadow_is_wrong(alloc, dev, table, &slots.shadow)?;
    if shadow {
        return Ok(true);
    }
    let out = out_is_wrong(alloc, dev, table, &slots.out)?;
    if out {
        return Ok(true);
    }
    shadow_is_wrong(alloc, dev, table, &slots.conflict)
}

// Whether one of the names is in the set.
fn shares(named: &BTreeSet<ChunkName>, names: &[LocalName]) -> bool
    ensures { result ≡ list_any (λ name. contains name_cmp named.now (chunk_of name)) names.now }
{
    names.iter().any(|name| named.contains(&chunk_name(*name)))
}

// Whether one of the names has a plan above this one.
fn exceeds(greatest: u64, names: &[LocalName]) -> bool
    ensures { result ≡ exceeds greatest names.now }
{
    names.iter().any(|name| greatest < name.plan)
}

/// Whether the slots of a row aren't there, where these names are those of the rows before it that are.
fn is_not_there<D: Disk + Drop>(
    alloc: Global,
    dev: &ChunkDev<D>,
    table: &Option<TableRecord>,
    greatest: u64,
    named: &BTreeSet<ChunkName>,
    slots: &Slots,
    names: &[LocalName],
) -> Result<bool, AllocError>
    requires up { IsUp (chunks.vault_of dev.now) }
    requires looked { chunks.IsLookedAt D.state dev.now }
    requires names { names.now ≡ names_in slots.now }
    ensures { IfOk result (λ wrong. (before : List LocalName) → HasNames before named.now
        → wrong ≡ is_not_there (chunks.chunks D.state dev.now) table.now greatest before slots.now) }
{
    let wrong = slot_is_wrong(alloc, dev, table, slots)?;
    if wrong {
        return Ok(true);
    }
    if shares(named, names) {
        return Ok(true);
    }
    Ok(exceeds(greatest, names))
}

fn add_all(named: &mut BTreeSet<ChunkName>, names: &[LocalName]) -> Result<(), AllocError>
    ensures { OnOk result ((before : List LocalName) → HasNames before named.old
        → HasNames (before ++ names.now) named.new) }
{
    for name in names {
        named.insert(chunk_name(*name))?;
    }
    Ok(())
}

/// Notes the slots of a row: that they aren't there, or their names.
pub(crate) fn note_row<D: Disk + Drop>(
    alloc: Global,
    dev: &ChunkDev<D>,
    table: &Option<TableRecord>,
    greatest: u64,
    key: &RowKey,
    slots: &Slots,
    found: &mut Scanned,
) -> Result<(), AllocError>
    requires up { IsUp (chunks.vault_of dev.now) }
    requires looked { chunks.IsLookedAt D.state dev.now }
    ensures { OnOk result ((held : SlotData) → record_of held key.now.table ≡ table.now
        → NotesRow (chunks.chunks D.state dev.now) held greatest key.now slots.now found.old found.new) }
{
    let names = names_in(alloc, slots)?;
    let is_hidden = is_not_there(alloc, dev, table, greatest, &found.named, slots, &names)?;
    if is_hidden {
        found.hidden.insert(*key)?;
        return Ok(());
    }
    add_all(&mut found.named, &names)
}
