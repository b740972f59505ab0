//! What a node reads from its devices.
ghost use Rattle.std.specs.Prelude.{◌≡◌, ◌++◌, [], ◌∷◌, List, map, length, IfOk, OnOk};
ghost use Rattle.store_commit.specs.Standing.{devs, AreUp, AreLookedAt};
ghost use Rattle.store_node.specs.Reading.{bytes_in, named_in, held_by, held_in, whole_object, whole_of, names_held};
ghost use Rattle.store_node.specs.Reading.{Only};

use chunker::NamedChunks;
use disk_trait::Disk;
use row_value::{Content, Objects, Piece, PieceContent, PieceObject};
use stab_base::{Bytes, ChunkName, Names, Sequence, SharedBytes};
use std::alloc::{AllocError, Global};
use step_tables::ObjectNames;
use store_commit::{CommitFault, TableDevs};

/// The chunks of each object of a row, with their names.
pub(crate) type HeldChunks = Sequence<NamedChunks>;

// The bytes of a chunk. A name that has none, as no row of a table names one, stands for no bytes.
fn read_chunk<D: Disk + Drop>(
    alloc: Global,
    table: &mut TableDevs<D>,
    name: ChunkName,
) -> Result<Bytes, CommitFault>
    requires up { AreUp table.old }
    requires looked { AreLookedAt D.state table.old }
    ensures reads { Only D.state D.images table.old table.new result }
    ensures bytes { IfOk result (λ bytes. bytes ≡ bytes_in (devs D.state table.old) name) }
{
    match table.chunk(name)? {
        Some(bytes) => Ok(bytes),
        None => Ok(Bytes::new(alloc)),
    }
}

fn add<T: Drop>(items: &mut Sequence<T>, item: T) -> Result<(), AllocError>
    ensures { OnOk result (items.new ≡ items.old ++ item ∷ []) }
{
    items.push(item)?;
    Ok(())
}

// Adds the chunk that a piece names.
fn add_piece<D: Disk + Drop>(
    alloc: Global,
    table: &mut TableDevs<D>,
    piece: Piece,
    named: &mut NamedChunks,
) -> Result<(), CommitFault>
    requires up { AreUp table.old }
    requires looked { AreLookedAt D.state table.old }
    ensures reads { Only D.state D.images table.old table.new result }
    ensures named { OnOk result (named.new ≡ named.old ++ named_in (devs D.state table.old) (piece ∷ [])) }
{
    match piece {
        Piece::Keep(name) => {
            let bytes = read_chunk(alloc, table, name)?;
            add(named, (name, bytes))?;
            Ok(())
        }
        Piece::Fresh(_) => Ok(()),
    }
}

fn read_object<D: Disk + Drop>(
    alloc: Global,
    table: &mut TableDevs<D>,
    pieces: &[Piece],
) -> Result<NamedChunks, CommitFault>
    requires up { AreUp table.old }
    requires looked { AreLookedAt D.state table.old }
    ensures reads { Only D.state D.images table.old table.new result }
    ensures named { IfOk result (λ named. named ≡ named_in (devs D.state table.old) pieces.now) }
{
    let mut named = NamedChunks::new(alloc);
    for piece in pieces {
        add_piece(alloc, table, *piece, &mut named)?;
    }
    Ok(named)
}

fn read_objects<D: Disk + Drop>(
    alloc: Global,
    table: &mut TableDevs<D>,
    objects: &[PieceObject],
) -> Result<HeldChunks, CommitFault>
    requires up { AreUp table.old }
    requires looked { AreLookedAt D.state table.old }
    ensures reads { Only D.state D.images table.old table.new result }
    ensures held { IfOk result (λ held. held ≡ held_by (devs D.state table.old) objects.now) }
{
    let mut held = HeldChunks::new(alloc);
    for object in objects {
        let named = read_object(alloc, table, object.pieces.as_slice())?;
        add(&mut held, named)?;
    }
    Ok(held)
}

/// The chunks of a content.
pub(crate) fn read_content<D: Disk + Drop>(
    alloc: Global,
    table: &mut TableDevs<D>,
    content: &PieceContent,
) -> Result<HeldChunks, CommitFault>
    requires up { AreUp table.old }
    requires looked { AreLookedAt D.state table.old }
    ensures reads { Only D.state D.images table.old table.new result }
    ensures held { IfOk result (λ held. held ≡ held_in (devs D.state table.old) content.now) }
{
    match content {
        PieceContent::Gone => Ok(HeldChunks::new(alloc)),
        PieceContent::Row { objects, .. } => read_objects(alloc, table, objects.as_slice()),
    }
}

fn join_object(alloc: Global, held: &NamedChunks) -> Result<SharedBytes, AllocError>
    ensures { IfOk result (λ object. object ≡ whole_object held.now) }
{
    let mut object = Bytes::new(alloc);
    for (_, bytes) in held.as_slice() {
        object.extend_from_slice(bytes.as_slice())?;
    }
    SharedBytes::new(object)
}

fn join_objects(alloc: Global, held: &HeldChunks) -> Result<Objects, AllocError>
    ensures { IfOk result (λ objects. objects ≡ map whole_object held.now) }
{
    let mut objects = Objects::new(alloc);
    for chunks in held.as_slice() {
        objects.push(join_object(alloc, chunks)?)?;
    }
    Ok(objects)
}

fn names_in(alloc: Global, held: &NamedChunks) -> Result<Names, AllocError>
    ensures { IfOk result (λ names. names ≡ map (λ chunk. chunk.0) held.now) }
{
    let mut names = Names::new(alloc);
    for (name, _) in held.as_slice() {
        names.push(*name)?;
    }
    Ok(names)
}

/// The names of the chunks of each object.
pub(crate) fn names_held(alloc: Global, held: &HeldChunks) -> Result<ObjectNames, AllocError>
    ensures { IfOk result (λ names. names ≡ names_held held.now) }
{
    let mut names = ObjectNames::new(alloc);
    for chunks in held.as_slice() {
        names.push(names_in(alloc, chunks)?)?;
    }
    Ok(names)
}

/// A content whose objects have these chunks.
pub(crate) fn whole(
    alloc: Global,
    content: PieceContent,
    held: &HeldChunks,
) -> Result<Content, AllocError>
    ensures { IfOk result (λ whole. whole ≡ whole_of content held.now) }
{
    match content {
        PieceContent::Gone => Ok(Content::Gone),
        PieceContent::Row { cells, .. } => Ok(Content::Row {
            cells,
            objects: join_objects(alloc, held)?,
        }),
    }
}
