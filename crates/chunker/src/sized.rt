//! A row whose objects are known by their pieces and lengths.
ghost use Rattle.std.specs.Prelude.{◌≡◌, IfOk, replicate};
ghost use Rattle.chunker.specs.Sized.{count_of, len_at, zeros_for, sized, fits_by_len};

use row_value::{Content, Objects, PieceContent, PieceObject, Schema, fits};
use stab_base::{Bytes, SharedBytes};
use std::alloc::{AllocError, Global};

/// How many chunks of a size an object of so many bytes has. There are none of size 0.
pub fn count_of(size: u32, len: u32) -> usize
    ensures { result ≡ count_of size len }
{
    match size {
        0 => 0,
        _ => (len as usize).div_ceil(size as usize),
    }
}

/// How many bytes the chunk has that stands at a place, counted from 0, of an object of so many bytes: the size, and at
/// the last place what is left.
pub fn len_at(size: u32, len: u32, place: usize) -> u64
    ensures { result ≡ len_at size len place }
{
    let before = (place as u64).saturating_mul(size as u64);
    (size as u64).min((len as u64).saturating_sub(before))
}

fn zeros(alloc: Global, len: u32) -> Result<SharedBytes, AllocError>
    ensures { IfOk result (λ made. made ≡ replicate len 0) }
{
    SharedBytes::new(Bytes::from_vec(vec![in alloc; 0u8; len as usize]?))
}

fn zeros_for(alloc: Global, objects: &[PieceObject]) -> Result<Objects, AllocError>
    ensures { IfOk result (λ made. made ≡ zeros_for objects.now) }
{
    let mut made = Objects::new(alloc);
    for object in objects {
        made.push(zeros(alloc, object.len)?)?;
    }
    Ok(made)
}

fn sized(alloc: Global, content: &PieceContent) -> Result<Content, AllocError>
    ensures { IfOk result (λ made. made ≡ sized content.now) }
{
    match content {
        PieceContent::Gone => Ok(Content::Gone),
        PieceContent::Row { cells, objects } => Ok(Content::Row {
            cells: cells.clone()?,
            objects: zeros_for(alloc, objects.as_slice())?,
        }),
    }
}

/// Whether a content is a row of this table, as `fits` tells by its cells and the lengths of its objects. It takes as
/// much memory as the objects have bytes.
pub fn fits_by_len(
    alloc: Global,
    schema: &Schema,
    content: &PieceContent,
) -> Result<bool, AllocError>
    ensures { IfOk result (λ fit. fit ≡ fits_by_len schema.now content.now) }
{
    let whole = sized(alloc, content)?;
    Ok(fits(schema, &whole).is_ok())
}
