//! The chunks of a row that travel, each in a message of its own.
ghost use Rattle.std.specs.Prelude.{◌≡◌, map, IfOk};
ghost use Rattle.assemblies.specs.Parts.{chunk_at, chunk_in};
ghost use Rattle.message_parts.specs.Fragments.{sent_at};

use assemblies::Awaited;
use row_value::Content;
use stab_base::{Bytes, ClientNo, RowId, TableNo};
use std::alloc::{AllocError, Global};
use table_model::{Message, ObjectFragment};

/// Whose chunks travel, and which way.
#[derive(Debug, Clone, Copy)]
pub(crate) struct Way {
    pub(crate) client: ClientNo,
    pub(crate) table: TableNo,
    pub(crate) row: RowId,
    /// Whether they go to the client.
    pub(crate) down: bool,
    /// The write's number on the way up, the row's version on the way down.
    pub(crate) key: u64,
}

// The chunk at a place of an object in chunks of this size; no bytes behind the last.
fn chunk_at(alloc: Global, chunk: u32, object: &[u8], place: u32) -> Result<Bytes, AllocError>
    ensures { IfOk result (λ made. made ≡ chunk_at chunk object.now place) }
{
    let before = place as usize * chunk as usize;
    let (_, rest) = object.split_at(object.len().min(before));
    let (front, _) = rest.split_at(rest.len().min(chunk as usize));
    Bytes::from_slice(alloc, front)
}

// The chunk of a content that stands there. Object columns stand behind the cells.
fn chunk_in(alloc: Global, chunk: u32, content: &Content, it: &Awaited) -> Result<Bytes, AllocError>
    ensures { IfOk result (λ made. made ≡ chunk_in chunk content.now it.now.column it.now.place) }
{
    match content {
        Content::Gone => Ok(Bytes::new(alloc)),
        Content::Row { cells, objects } => {
            let number = (it.column as usize).saturating_sub(cells.len());
            match objects.as_slice().get(number) {
                Some(object) => chunk_at(alloc, chunk, object.as_slice(), it.place),
                None => Ok(Bytes::new(alloc)),
            }
        }
    }
}

fn fragment(
    alloc: Global,
    chunk: u32,
    way: &Way,
    content: &Content,
    it: &Awaited,
) -> Result<Message, AllocError>
    ensures { IfOk result (λ made. made ≡ sent_at chunk way.now content.now it.now) }
{
    Ok(Message::ObjectFragment(ObjectFragment {
        client: way.client,
        token: 0,
        table: way.table,
        row: way.row,
        down: way.down,
        key: way.key,
        column: it.column,
        place: it.place,
        bytes: chunk_in(alloc, chunk, content, it)?,
    }))
}

/// A message for each of these chunks.
pub(crate) fn fragments(
    alloc: Global,
    chunk: u32,
    way: &Way,
    content: &Content,
    awaited: &[Awaited],
) -> Result<Vec<Message>, AllocError>
    ensures { IfOk result (λ made. made.items ≡ map (λ it. sent_at chunk way.now content.now it) awaited.now) }
{
    let mut made = Vec::new(alloc);
    for it in awaited {
        made.push(fragment(alloc, chunk, way, content, it)?)?;
    }
    Ok(made)
}
