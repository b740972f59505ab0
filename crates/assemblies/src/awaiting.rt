ghost use Rattle.std.specs.Prelude.{◌≡◌, ◌+◌, ◌<◌, ◌^◌, nat_lt, true, if◌then◌else◌, [], ◌∷◌, ◌++◌, length, IfOk, OnOk};
ghost use Rattle.std.specs.List.{list_all};
ghost use Rattle.chunker.specs.Sized.{len_at};
ghost use Rattle.assemblies.specs.Travel.{is_sent};
ghost use Rattle.assemblies.specs.Places.{Rises, awaited_in, awaited_from, awaited_of};
ghost use Rattle.assemblies.specs.Places.{has_few, has_places, is_full, is_complete};

use crate::sent::Sent;
use chunker::{count_of, len_at};
use row_value::{PieceContent, PieceObject};
use stab_base::Sequence;
use std::alloc::{AllocError, Global};

/// A chunk that is awaited.
#[derive(Debug, Clone, Copy, PartialEq, Eq)]
pub struct Awaited {
    /// The number of its object's column in the schema, from 0.
    pub column: u32,
    /// Its place in the object, from 0.
    pub place: u32,
    /// Its length in bytes.
    pub len: u32,
}

/// Chunks that are awaited, by rising column, then place.
pub type AwaitedChunks = Sequence<Awaited>;

fn chunk_len(size: u32, len: u32, place: u32) -> u32
    ensures { result ≡ len_at size len place }
{
    len_at(size, len, place as usize) as u32
}

// Adds a chunk where it travels.
fn add(list: &mut AwaitedChunks, travels: bool, it: Awaited) -> Result<(), AllocError>
    ensures { OnOk result (list.new ≡ (if travels then list.old ++ it ∷ [] else list.old)) }
{
    if travels {
        list.push(it)?;
    }
    Ok(())
}

// Adds the chunks of an object that travel.
fn add_object(
    list: &mut AwaitedChunks,
    chunk: u32,
    column: u32,
    object: &PieceObject,
    sent: Sent,
) -> Result<(), AllocError>
    requires { length object.now.pieces < 2 ^ 32 }
    ensures { OnOk result (list.new
        ≡ list.old ++ awaited_in (is_sent sent) chunk object.now.len column 0 object.now.pieces) }
{
    for (number, piece) in object.pieces.as_slice().iter().enumerate() {
        let place = number as u32;
        let len = chunk_len(chunk, object.len, place);
        let it = Awaited { column, place, len };
        add(list, sent.sends(piece), it)?;
    }
    Ok(())
}

// Adds the chunks that travel of objects in the columns from `first` on.
fn add_objects(
    list: &mut AwaitedChunks,
    chunk: u32,
    first: u32,
    objects: &[PieceObject],
    sent: Sent,
) -> Result<(), AllocError>
    requires columns { first + length objects.now < 2 ^ 32 }
    requires places { list_all has_few objects.now ≡ true }
    ensures { OnOk result (list.new ≡ list.old ++ awaited_from (is_sent sent) chunk first objects.now) }
{
    for (number, object) in objects.iter().enumerate() {
        add_object(list, chunk, first + number as u32, object, sent)?;
    }
    Ok(())
}

/// The chunks of a content that travel by themselves, by rising column, then place. Object columns stand behind the
/// cells.
pub fn awaited_of(
    alloc: Global,
    chunk: u32,
    content: &PieceContent,
    sent: Sent,
) -> Result<AwaitedChunks, AllocError>
    requires { has_places content.now ≡ true }
    ensures list { IfOk result (λ list. list ≡ awaited_of (is_sent sent) chunk content.now) }
    ensures rising { IfOk result (λ list. Rises list) }
{
    let mut list = AwaitedChunks::new(alloc);
    match content {
        PieceContent::Gone => Ok(list),
        PieceContent::Row { cells, objects } => {
            let first = cells.len() as u32;
            add_objects(&mut list, chunk, first, objects.as_slice(), sent)?;
            Ok(list)
        }
    }
}

fn has_few(object: &PieceObject) -> bool
    ensures { result ≡ has_few object.now }
{
    (object.pieces.len() as u64) < 1 << 32
}

fn have_few(objects: &[PieceObject]) -> bool
    ensures { result ≡ list_all has_few objects.now }
{
    objects.iter().all(has_few)
}

fn has_few_columns(cells: usize, objects: usize) -> bool
    ensures { result ≡ nat_lt (cells + objects) (2 ^ 32) }
{
    (cells.saturating_add(objects) as u64) < 1 << 32
}

/// Whether each column and each place of a content has a number of 32 bits.
pub fn has_places(content: &PieceContent) -> bool
    ensures { result ≡ has_places content.now }
{
    match content {
        PieceContent::Gone => true,
        PieceContent::Row { cells, objects } => {
            has_few_columns(cells.len(), objects.len()) && have_few(objects.as_slice())
        }
    }
}

fn is_full(chunk: u32, object: &PieceObject) -> bool
    ensures { result ≡ is_full chunk object.now }
{
    object.pieces.len() == count_of(chunk, object.len)
}

fn are_full(chunk: u32, objects: &[PieceObject]) -> bool
    ensures { result ≡ list_all (is_full chunk) objects.now }
{
    objects.iter().all(|object| is_full(chunk, object))
}

/// Whether each object has as many pieces as an object of its length has chunks.
pub fn is_complete(chunk: u32, content: &PieceContent) -> bool
    ensures { result ≡ is_complete chunk content.now }
{
    match content {
        PieceContent::Gone => true,
        PieceContent::Row { objects, .. } => are_full(chunk, objects.as_slice()),
    }
}
