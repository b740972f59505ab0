//! What an update makes of a table, as it is worked out before anything is written.
ghost use Rattle.std.specs.Prelude.{◌≡◌, ◌+◌, ◌*◌, ◌<◌, ◌^◌, ◌≤◌, ◌++◌, [], ◌∷◌, IfOk, OnOk, is_some, length, map};
ghost use Rattle.std.specs.Prelude.{filter, nat_lt, sum_by};
ghost use Rattle.vault.specs.Standing.{IsUp};
ghost use Rattle.value_codec.specs.Spelling.{pieces_of};
ghost use Rattle.chunk_store.specs.Standing as chunks;
ghost use Rattle.status_log.specs.Entry.{entry_of};
ghost use Rattle.store_commit.specs.Agenda.{named_piece, named_object, named_content, update_writes, puts, drops};
ghost use Rattle.store_commit.specs.NamedChunks.{names_in, names_of};
ghost use Rattle.store_commit.specs.Standing.{write_of};
ghost use Rattle.store_commit.specs.Update.{with_last, unmet, HasNames, Meets, names_if, lasts_if};

use crate::task::Task;
use chunk_store::ChunkDev;
use disk_trait::Disk;
use row_store::{LastWrite, StoredRow};
use row_value::{Piece, PieceContent, PieceObject, PieceObjects, Pieces};
use stab_base::{Bytes, ChunkName, ClientNo, Version};
use status_log::LogEntry;
use std::alloc::{AllocError, Global};
use std::collections::{BTreeSet, VecDeque};

fn add_name(names: &mut Vec<ChunkName>, piece: Piece) -> Result<(), AllocError>
    ensures { OnOk result (names.new.items ≡ names.old.items ++ names_in (piece ∷ [])) }
{
    match piece {
        Piece::Keep(name) => {
            names.push(name)?;
            Ok(())
        }
        Piece::Fresh(_) => Ok(()),
    }
}

fn add_names(names: &mut Vec<ChunkName>, pieces: &[Piece]) -> Result<(), AllocError>
    ensures { OnOk result (names.new.items ≡ names.old.items ++ names_in pieces.now) }
{
    for piece in pieces {
        add_name(names, *piece)?;
    }
    Ok(())
}

fn names_of_objects(alloc: Global, objects: &[PieceObject]) -> Result<Vec<ChunkName>, AllocError>
    ensures { IfOk result (λ names. names.items ≡ names_in (pieces_of objects.now)) }
{
    let mut names = Vec::new(alloc);
    for object in objects {
        add_names(&mut names, object.pieces.as_slice())?;
    }
    Ok(names)
}

/// The names in a content, in the order of its pieces.
pub(crate) fn names_of(alloc: Global, content: &PieceContent) -> Result<Vec<ChunkName>, AllocError>
    ensures { IfOk result (λ names. names.items ≡ names_of content.now) }
{
    match content {
        PieceContent::Gone => Ok(Vec::new(alloc)),
        PieceContent::Row { objects, .. } => names_of_objects(alloc, objects.as_slice()),
    }
}

fn named_piece(version: Version, piece: Piece) -> Piece
    ensures { result ≡ named_piece version piece }
{
    match piece {
        Piece::Keep(name) => Piece::Keep(name),
        Piece::Fresh(ordinal) => Piece::Keep(ChunkName { version, ordinal }),
    }
}

fn named_list(alloc: Global, version: Version, pieces: &[Piece]) -> Result<Vec<Piece>, AllocError>
    ensures { IfOk result (λ made. made.items ≡ map (named_piece version) pieces.now) }
{
    pieces
        .iter()
        .map(|piece| named_piece(version, *piece))
        .collect(alloc)
}

fn named_object(
    alloc: Global,
    version: Version,
    object: &PieceObject,
) -> Result<PieceObject, AllocError>
    ensures { IfOk result (λ made. made ≡ named_object version object.now) }
{
    let pieces = named_list(alloc, version, object.pieces.as_slice())?;
    Ok(PieceObject {
        len: object.len,
        pieces: Pieces::from_vec(pieces),
    })
}

fn named_objects(
    alloc: Global,
    version: Version,
    objects: &[PieceObject],
) -> Result<PieceObjects, AllocError>
    ensures { IfOk result (λ made. made ≡ map (named_object version) objects.now) }
{
    let mut named = PieceObjects::new(alloc);
    for object in objects {
        named.push(named_object(alloc, version, object)?)?;
    }
    Ok(named)
}

/// A content with a name in place of each new piece.
pub(crate) fn named_content(
    alloc: Global,
    version: Version,
    content: PieceContent,
) -> Result<PieceContent, AllocError>
    ensures { IfOk result (λ made. made ≡ named_content version content) }
{
    match content {
        PieceContent::Gone => Ok(PieceContent::Gone),
        PieceContent::Row { cells, objects } => Ok(PieceContent::Row {
            cells,
            objects: named_objects(alloc, version, objects.as_slice())?,
        }),
    }
}

fn smaller(
    alloc: Global,
    lasts: &[LastWrite],
    client: ClientNo,
) -> Result<Vec<LastWrite>, AllocError>
    ensures { IfOk result (λ made. made.items ≡ filter (λ other. nat_lt other.client client) lasts.now) }
{
    lasts
        .iter()
        .copied()
        .filter(|other| other.client < client)
        .collect(alloc)
}

fn greater(
    alloc: Global,
    lasts: &[LastWrite],
    client: ClientNo,
) -> Result<Vec<LastWrite>, AllocError>
    ensures { IfOk result (λ made. made.items ≡ filter (λ other. nat_lt client other.client) lasts.now) }
{
    lasts
        .iter()
        .copied()
        .filter(|other| client < other.client)
        .collect(alloc)
}

/// The last writes of a row, with this one in the place of its client's.
pub(crate) fn with_last(
    alloc: Global,
    lasts: &[LastWrite],
    last: LastWrite,
) -> Result<Vec<LastWrite>, AllocError>
    ensures { IfOk result (λ made. made.items ≡ with_last lasts.now last) }
{
    let mut made = smaller(alloc, lasts, last.client)?;
    let behind = greater(alloc, lasts, last.client)?;
    made.push(last)?;
    made.extend_from_slice(&behind)?;
    Ok(made)
}

/// The set of these names.
pub(crate) fn set_of(alloc: Global, names: &[ChunkName]) -> Result<BTreeSet<ChunkName>, AllocError>
    ensures { IfOk result (HasNames names.now) }
{
    let mut set = BTreeSet::new(alloc);
    for name in names {
        set.insert(*name)?;
    }
    Ok(set)
}

// Adds a name to the old ones if it has a chunk and wasn't met.
fn meet<D: Disk + Drop>(
    dev: &ChunkDev<D>,
    met: &mut BTreeSet<ChunkName>,
    old: &mut Vec<ChunkName>,
    name: ChunkName,
) -> Result<(), AllocError>
    requires up { IsUp (chunks.vault_of dev.now) }
    requires looked { chunks.IsLookedAt D.state dev.now }
    ensures { OnOk result (Meets (λ name. is_some (chunks.chunk_in (chunks.chunks D.state dev.now) name)) name
        met.old met.new old.old.items old.new.items) }
{
    if !dev.has(name) {
        return Ok(());
    }
    if met.insert(name)? {
        old.push(name)?;
    }
    Ok(())
}

/// Of these names those that have a chunk and aren't kept, each once and in their order.
pub(crate) fn old_names<D: Disk + Drop>(
    alloc: Global,
    dev: &ChunkDev<D>,
    names: &[ChunkName],
    kept: &[ChunkName],
) -> Result<Vec<ChunkName>, AllocError>
    requires up { IsUp (chunks.vault_of dev.now) }
    requires looked { chunks.IsLookedAt D.state dev.now }
    ensures { IfOk result (λ old. old.items
        ≡ unmet (λ name. is_some (chunks.chunk_in (chunks.chunks D.state dev.now) name)) kept.now names.now) }
{
    let mut met = set_of(alloc, kept)?;
    let mut old = Vec::new(alloc);
    for name in names {
        meet(dev, &mut met, &mut old, *name)?;
    }
    Ok(old)
}

/// How many bytes these chunks have.
pub(crate) fn bytes_of(fresh: &[Bytes]) -> u64
    requires { sum_by length fresh.now < 2 ^ 64 }
    ensures { result ≡ sum_by length fresh.now }
{
    fresh.iter().map(|bytes| bytes.len() as u64).sum()
}

fn add_puts(
    tasks: &mut VecDeque<Task>,
    version: Version,
    fresh: Vec<Bytes>,
) -> Result<(), AllocError>
    requires { length fresh.items < 2 ^ 32 }
    ensures { OnOk result (map write_of tasks.new.items ≡ map write_of tasks.old.items ++ puts version 0 fresh.items) }
{
    let mut ordinal = 0;
    for bytes in fresh {
        tasks.push_back(Task::PutChunk(ChunkName { version, ordinal }, bytes))?;
        ordinal += 1;
    }
    Ok(())
}

fn add_drops(tasks: &mut VecDeque<Task>, names: &[ChunkName]) -> Result<(), AllocError>
    ensures { OnOk result (map write_of tasks.new.items ≡ map write_of tasks.old.items ++ drops names.now) }
{
    for name in names {
        tasks.push_back(Task::DropChunk(*name))?;
    }
    Ok(())
}

/// The writes of an update in their order.
pub(crate) fn update_tasks(
    alloc: Global,
    entry: LogEntry,
    fresh: Vec<Bytes>,
    stored: StoredRow,
) -> Result<VecDeque<Task>, AllocError>
    requires { length fresh.items < 2 ^ 32 }
    ensures { IfOk result (λ tasks. map write_of tasks.items ≡ update_writes (entry_of entry) fresh.items stored) }
{
    let mut tasks = VecDeque::new(alloc);
    add_puts(&mut tasks, entry.version, fresh)?;
    tasks.push_back(Task::PutRow(stored))?;
    add_drops(&mut tasks, entry.old.as_slice())?;
    tasks.push_back(Task::CloseEntry)?;
    tasks.push_front(Task::OpenEntry(entry))?;
    Ok(tasks)
}

/// An update that is worked out: the entry, the new chunks by their ordinals, and the row.
#[derive(Drop)]
pub(crate) struct Plan {
    pub(crate) entry: LogEntry,
    pub(crate) fresh: Vec<Bytes>,
    pub(crate) stored: StoredRow,
}

/// The names in the row that stands, if one does.
pub(crate) fn standing_names(
    alloc: Global,
    standing: &Option<StoredRow>,
) -> Result<Vec<ChunkName>, AllocError>
    ensures { IfOk result (λ names. names.items ≡ names_if standing.now) }
{
    match standing {
        None => Ok(Vec::new(alloc)),
        Some(stored) => names_of(alloc, &stored.content),
    }
}

/// The last writes of the row that stands, if one does.
pub(crate) fn lasts_of(standing: &Option<StoredRow>) -> &[LastWrite]
    ensures { result.now ≡ lasts_if standing.now }
{
    match standing {
        None => &[],
        Some(stored) => stored.pairs.as_slice(),
    }
}
