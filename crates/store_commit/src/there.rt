//! Whether a row of a disk is there, whatever the disk's bytes are.
ghost use Rattle.std.specs.Prelude.{◌≡◌, ◌++◌, [], List, IfOk, OnOk};
ghost use Rattle.std.specs.BTreeSet.{contains};
ghost use Rattle.std.specs.List.{list_all, list_any};
ghost use Rattle.vault.specs.Standing.{IsUp};
ghost use Rattle.stab_base.specs.declared.chunk_name.ChunkName.{ChunkName};
ghost use Rattle.chunk_store.specs.Payload.{name_cmp};
ghost use Rattle.chunk_store.specs.Standing as chunks;
ghost use Rattle.store_commit.specs.NamedChunks.{names_of};
ghost use Rattle.store_commit.specs.There.{kept, has_len, has_lens, lacks, repeats, exceeds, misfits, is_not_there};
ghost use Rattle.store_commit.specs.Scan.{NotesRow};
ghost use Rattle.store_commit.specs.Update.{HasNames};

use crate::plan::names_of;
use chunk_store::ChunkDev;
use chunker::{count_of, fits_by_len, len_at};
use disk_trait::Disk;
use row_store::StoredRow;
use row_value::{Piece, PieceContent, PieceObject, Schema};
use stab_base::{ChunkName, RowId, Version};
use std::alloc::{AllocError, Global};
use std::collections::BTreeSet;

// Whether a piece names a chunk of this length.
fn has_len<D: Disk + Drop>(dev: &ChunkDev<D>, piece: &Piece, len: u64) -> bool
    requires up { IsUp (chunks.vault_of dev.now) }
    requires looked { chunks.IsLookedAt D.state dev.now }
    ensures { result ≡ has_len (kept (chunks.chunk_in (chunks.chunks D.state dev.now)) piece.now) len }
{
    match piece {
        Piece::Keep(name) => match dev.len_of(*name) {
            Some(found) => found == len,
            None => false,
        },
        Piece::Fresh(_) => false,
    }
}

// Whether an object's pieces are those of its length, for chunks of a size.
fn has_lens<D: Disk + Drop>(dev: &ChunkDev<D>, size: u32, object: &PieceObject) -> bool
    requires up { IsUp (chunks.vault_of dev.now) }
    requires looked { chunks.IsLookedAt D.state dev.now }
    ensures { result ≡ has_lens (kept (chunks.chunk_in (chunks.chunks D.state dev.now))) size object.now }
{
    let pieces = object.pieces.as_slice();
    let are_all = pieces.len() == count_of(size, object.len);
    if !are_all {
        return false;
    }
    for (place, piece) in pieces.iter().enumerate() {
        if !has_len(dev, piece, len_at(size, object.len, place)) {
            return false;
        }
    }
    true
}

fn all_lens<D: Disk + Drop>(dev: &ChunkDev<D>, size: u32, objects: &[PieceObject]) -> bool
    requires up { IsUp (chunks.vault_of dev.now) }
    requires looked { chunks.IsLookedAt D.state dev.now }
    ensures { result
        ≡ list_all (has_lens (kept (chunks.chunk_in (chunks.chunks D.state dev.now))) size) objects.now }
{
    for object in objects {
        if !has_lens(dev, size, object) {
            return false;
        }
    }
    true
}

// Whether a chunk that a content names isn't on the device, or hasn't the length of its place.
fn lacks<D: Disk + Drop>(
    dev: &ChunkDev<D>,
    table: &Option<(Schema, u8)>,
    content: &PieceContent,
) -> bool
    requires up { IsUp (chunks.vault_of dev.now) }
    requires looked { chunks.IsLookedAt D.state dev.now }
    ensures { result ≡ lacks (kept (chunks.chunk_in (chunks.chunks D.state dev.now))) table.now content.now }
{
    let Some((schema, _)) = table else {
        return false;
    };
    match content {
        PieceContent::Gone => false,
        PieceContent::Row { objects, .. } => !all_lens(dev, schema.chunk, objects.as_slice()),
    }
}

// Whether a name stands there twice.
fn repeats(alloc: Global, names: &[ChunkName]) -> Result<bool, AllocError>
    ensures { IfOk result (λ twice. twice ≡ repeats [] names.now) }
{
    let mut met = BTreeSet::new(alloc);
    for name in names {
        let is_new = met.insert(*name)?;
        if !is_new {
            return Ok(true);
        }
    }
    Ok(false)
}

// Whether one of the names is in the set.
fn shares(named: &BTreeSet<ChunkName>, names: &[ChunkName]) -> bool
    ensures { result ≡ list_any (λ name. contains name_cmp named.now name) names.now }
{
    names.iter().any(|name| named.contains(name))
}

// Whether one of the names has a version above this one.
fn exceeds(version: Version, names: &[ChunkName]) -> bool
    ensures { result ≡ exceeds version names.now }
{
    names.iter().any(|name| version < name.version)
}

// Whether a content isn't one of the table's rows.
fn misfits(
    alloc: Global,
    table: &Option<(Schema, u8)>,
    content: &PieceContent,
) -> Result<bool, AllocError>
    ensures { IfOk result (λ wrong. wrong ≡ misfits table.now content.now) }
{
    match table {
        None => Ok(true),
        Some((schema, _)) => Ok(!fits_by_len(alloc, schema, content)?),
    }
}

/// Whether a row isn't there, where these names are those of the rows before it that are. The objects are made by their
/// lengths only where the device has their chunks.
fn is_not_there<D: Disk + Drop>(
    alloc: Global,
    dev: &ChunkDev<D>,
    table: &Option<(Schema, u8)>,
    named: &BTreeSet<ChunkName>,
    stored: &StoredRow,
    names: &[ChunkName],
) -> Result<bool, AllocError>
    requires up { IsUp (chunks.vault_of dev.now) }
    requires looked { chunks.IsLookedAt D.state dev.now }
    requires names { names.now ≡ names_of stored.now.content }
    ensures { IfOk result (λ wrong. (before : List ChunkName) → HasNames before named.now
        → wrong ≡ is_not_there (chunks.chunks D.state dev.now) table.now before stored.now) }
{
    if lacks(dev, table, &stored.content) {
        return Ok(true);
    }
    let twice = repeats(alloc, names)?;
    if twice {
        return Ok(true);
    }
    if shares(named, names) {
        return Ok(true);
    }
    if exceeds(stored.version, names) {
        return Ok(true);
    }
    misfits(alloc, table, &stored.content)
}

/// The rows that aren't there, and the names of those that are.
#[derive(Drop)]
pub(crate) struct Found {
    pub(crate) hidden: BTreeSet<RowId>,
    pub(crate) named: BTreeSet<ChunkName>,
}

impl Found {
    ghost use Rattle.std.specs.BTreeSet.{keys};

    /// Before the first row.
    pub(crate) fn nothing(alloc: Global) -> Found
        ensures hidden { keys result.hidden ≡ [] }
        ensures named { keys result.named ≡ [] }
    {
        Found {
            hidden: BTreeSet::new(alloc),
            named: BTreeSet::new(alloc),
        }
    }
}

fn add_all(named: &mut BTreeSet<ChunkName>, names: &[ChunkName]) -> Result<(), AllocError>
    ensures { OnOk result ((before : List ChunkName) → HasNames before named.old
        → HasNames (before ++ names.now) named.new) }
{
    for name in names {
        named.insert(*name)?;
    }
    Ok(())
}

/// Notes a row: that it isn't there, or its names.
pub(crate) fn note_row<D: Disk + Drop>(
    alloc: Global,
    dev: &ChunkDev<D>,
    table: &Option<(Schema, u8)>,
    row: RowId,
    stored: &StoredRow,
    found: &mut Found,
) -> Result<(), AllocError>
    requires up { IsUp (chunks.vault_of dev.now) }
    requires looked { chunks.IsLookedAt D.state dev.now }
    ensures { OnOk result (NotesRow (chunks.chunks D.state dev.now) table.now row stored.now found.old found.new) }
{
    let names = names_of(alloc, &stored.content)?;
    let is_hidden = is_not_there(alloc, dev, table, &found.named, stored, &names)?;
    if is_hidden {
        found.hidden.insert(row)?;
        return Ok(());
    }
    add_all(&mut found.named, &names)
}
