//! Contents read from a client's devices.
ghost use Rattle.std.specs.Prelude.{◌≡◌, ◌∷◌, ◌++◌, [], ℕ, List, map, IfOk, OnOk, option_copied};
ghost use Rattle.std.specs.List.{concat};
ghost use Rattle.held_value.specs.declared.local_name.LocalName.{LocalName};
ghost use Rattle.client_journal.specs.Asking.{Asks};
ghost use Rattle.client_journal.specs.Standing.{devs as held_by, AreUp, AreLookedAt};
ghost use Rattle.journal_laws.specs.Whole.{whole, whole_object};
ghost use Rattle.held_contents.specs.Reading.{AreThere, AreThereIf, stands_in, with_bytes, objects_with_bytes};
ghost use Rattle.held_contents.specs.Reading.{chunks_in, chunks_shown};

use crate::copied::copy_cells;
use client_journal::{Journal, JournalFault};
use client_tables::ShownChunks;
use disk_trait::Disk;
use held_value::{HeldContent, HeldObject, HeldPiece, LocalName};
use row_value::{Content, Objects};
use stab_base::{Bytes, Sequence, SharedBytes};
use std::alloc::{AllocError, Global};

// The bytes of a chunk, none where it isn't there. It is one read of the disk.
fn read_chunk<D: Disk + Drop>(
    alloc: Global,
    devs: &mut Journal<D>,
    name: LocalName,
) -> Result<Bytes, JournalFault>
    requires { AreUp devs.old → AreLookedAt D.state devs.old }
    ensures asks { Asks D.state D.images devs.old devs.new result }
    ensures bytes { IfOk result (λ bytes. bytes ≡ stands_in (held_by D.state devs.old).chunks name) }
{
    match devs.chunk(name)? {
        None => Ok(Bytes::new(alloc)),
        Some(bytes) => Ok(bytes),
    }
}

fn add_chunk(read: &mut ShownChunks, piece: HeldPiece, bytes: Bytes) -> Result<(), AllocError>
    ensures { OnOk result (read.new ≡ read.old ++ (piece, bytes) ∷ []) }
{
    read.push((piece, bytes))?;
    Ok(())
}

// Adds a piece with its bytes.
fn read_piece<D: Disk + Drop>(
    alloc: Global,
    devs: &mut Journal<D>,
    piece: HeldPiece,
    read: &mut ShownChunks,
) -> Result<(), JournalFault>
    requires { AreUp devs.old → AreLookedAt D.state devs.old }
    ensures asks { Asks D.state D.images devs.old devs.new result }
    ensures adds { OnOk result (read.new
        ≡ read.old ++ (piece, stands_in (held_by D.state devs.old).chunks piece.local) ∷ []) }
{
    let bytes = read_chunk(alloc, devs, piece.local)?;
    add_chunk(read, piece, bytes)?;
    Ok(())
}

// The chunks of an object.
fn read_object<D: Disk + Drop>(
    alloc: Global,
    devs: &mut Journal<D>,
    pieces: &[HeldPiece],
) -> Result<ShownChunks, JournalFault>
    requires up { AreUp devs.old }
    requires looked { AreLookedAt D.state devs.old }
    ensures asks { Asks D.state D.images devs.old devs.new result }
    ensures chunks { IfOk result (λ chunks. chunks
        ≡ with_bytes (stands_in (held_by D.state devs.old).chunks) pieces.now) }
{
    let mut read = ShownChunks::new(alloc);
    for piece in pieces {
        read_piece(alloc, devs, *piece, &mut read)?;
    }
    Ok(read)
}

fn add_object(read: &mut Sequence<ShownChunks>, object: ShownChunks) -> Result<(), AllocError>
    ensures { OnOk result (read.new ≡ read.old ++ object ∷ []) }
{
    read.push(object)?;
    Ok(())
}

// Adds the chunks of an object.
fn read_one<D: Disk + Drop>(
    alloc: Global,
    devs: &mut Journal<D>,
    object: &HeldObject,
    read: &mut Sequence<ShownChunks>,
) -> Result<(), JournalFault>
    requires up { AreUp devs.old }
    requires looked { AreLookedAt D.state devs.old }
    ensures asks { Asks D.state D.images devs.old devs.new result }
    ensures adds { OnOk result (read.new
        ≡ read.old ++ with_bytes (stands_in (held_by D.state devs.old).chunks) object.now.pieces ∷ []) }
{
    let chunks = read_object(alloc, devs, object.pieces.as_slice())?;
    add_object(read, chunks)?;
    Ok(())
}

// The chunks of each of some objects.
fn read_objects<D: Disk + Drop>(
    alloc: Global,
    devs: &mut Journal<D>,
    objects: &[HeldObject],
) -> Result<Sequence<ShownChunks>, JournalFault>
    requires up { AreUp devs.old }
    requires looked { AreLookedAt D.state devs.old }
    ensures asks { Asks D.state D.images devs.old devs.new result }
    ensures chunks { IfOk result (λ chunks. chunks
        ≡ objects_with_bytes (stands_in (held_by D.state devs.old).chunks) objects.now) }
{
    let mut read = Sequence::new(alloc);
    for object in objects {
        read_one(alloc, devs, object, &mut read)?;
    }
    Ok(read)
}

// The object of these chunks.
fn joined(alloc: Global, chunks: &[(HeldPiece, Bytes)]) -> Result<SharedBytes, AllocError>
    ensures { IfOk result (λ object. object ≡ concat (map (λ chunk. chunk.1) chunks.now)) }
{
    let mut object = Bytes::new(alloc);
    for (_piece, bytes) in chunks {
        object.extend_from_slice(bytes.as_slice())?;
    }
    SharedBytes::new(object)
}

fn add_whole(
    alloc: Global,
    whole: &mut Objects,
    chunks: &[(HeldPiece, Bytes)],
) -> Result<(), AllocError>
    ensures { OnOk result (whole.new ≡ whole.old ++ concat (map (λ chunk. chunk.1) chunks.now) ∷ []) }
{
    whole.push(joined(alloc, chunks)?)?;
    Ok(())
}

// Adds an object whole.
fn read_joined<D: Disk + Drop>(
    alloc: Global,
    devs: &mut Journal<D>,
    object: &HeldObject,
    read: &mut Objects,
) -> Result<(), JournalFault>
    requires up { AreUp devs.old }
    requires looked { AreLookedAt D.state devs.old }
    ensures asks { Asks D.state D.images devs.old devs.new result }
    ensures adds { OnOk result (read.new
        ≡ read.old ++ whole_object (stands_in (held_by D.state devs.old).chunks) object.now ∷ []) }
{
    let chunks = read_object(alloc, devs, object.pieces.as_slice())?;
    add_whole(alloc, read, chunks.as_slice())?;
    Ok(())
}

// Some objects whole.
fn whole_objects<D: Disk + Drop>(
    alloc: Global,
    devs: &mut Journal<D>,
    objects: &[HeldObject],
) -> Result<Objects, JournalFault>
    requires up { AreUp devs.old }
    requires looked { AreLookedAt D.state devs.old }
    ensures asks { Asks D.state D.images devs.old devs.new result }
    ensures whole { IfOk result (λ read. read
        ≡ map (whole_object (stands_in (held_by D.state devs.old).chunks)) objects.now) }
{
    let mut read = Objects::new(alloc);
    for object in objects {
        read_joined(alloc, devs, object, &mut read)?;
    }
    Ok(read)
}

/// A content whole: each of its chunks is read once from the disk. A chunk that isn't there counts as empty.
pub fn read_whole<D: Disk + Drop>(
    alloc: Global,
    devs: &mut Journal<D>,
    held: &HeldContent,
) -> Result<Content, JournalFault>
    requires looked { AreUp devs.old → AreLookedAt D.state devs.old }
    ensures asks { Asks D.state D.images devs.old devs.new result }
    ensures whole { IfOk result (λ content. (meaning : LocalName → List ℕ)
        → AreThere meaning (held_by D.state devs.old) held.now → content ≡ whole meaning held.now) }
{
    if devs.is_down() {
        return Err(JournalFault::Down);
    }
    match held {
        HeldContent::Gone => Ok(Content::Gone),
        HeldContent::Row { cells, objects } => {
            let cells = copy_cells(cells)?;
            let objects = whole_objects(alloc, devs, objects.as_slice())?;
            Ok(Content::Row { cells, objects })
        }
    }
}

// The chunks of each object of a content.
fn read_content<D: Disk + Drop>(
    alloc: Global,
    devs: &mut Journal<D>,
    held: &HeldContent,
) -> Result<Sequence<ShownChunks>, JournalFault>
    requires up { AreUp devs.old }
    requires looked { AreLookedAt D.state devs.old }
    ensures asks { Asks D.state D.images devs.old devs.new result }
    ensures chunks { IfOk result (λ chunks. chunks
        ≡ chunks_in (stands_in (held_by D.state devs.old).chunks) held.now) }
{
    match held {
        HeldContent::Gone => Ok(Sequence::new(alloc)),
        HeldContent::Row { objects, .. } => read_objects(alloc, devs, objects.as_slice()),
    }
}

/// The chunks of each object that is shown, in order: none of a row that is gone, and none where nothing is shown. Each
/// of them is read once from the disk. A chunk that isn't there counts as empty.
pub fn read_chunks<D: Disk + Drop>(
    alloc: Global,
    devs: &mut Journal<D>,
    shown: Option<&HeldContent>,
) -> Result<Sequence<ShownChunks>, JournalFault>
    requires looked { AreUp devs.old → AreLookedAt D.state devs.old }
    ensures asks { Asks D.state D.images devs.old devs.new result }
    ensures chunks { IfOk result (λ chunks. (meaning : LocalName → List ℕ)
        → AreThereIf meaning (held_by D.state devs.old) (option_copied shown.entry)
        → chunks ≡ chunks_shown meaning (option_copied shown.entry)) }
{
    if devs.is_down() {
        return Err(JournalFault::Down);
    }
    match shown {
        None => Ok(Sequence::new(alloc)),
        Some(held) => read_content(alloc, devs, held),
    }
}
