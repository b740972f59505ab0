ghost use Rattle.std.specs.Prelude.{◌≡◌, ◌<◌, IfOk};
ghost use Rattle.std.specs.List.{concat};
ghost use Rattle.chunker.specs.Cut.{IsCut};

use stab_base::{Bytes, Sequence};
use std::alloc::{AllocError, Global};

/// The chunks of an object in order.
pub type Chunks = Sequence<Bytes>;

/// Cuts an object into chunks of so many bytes. The last one may be shorter, and the empty object has none.
pub fn cut(alloc: Global, object: &[u8], chunk: u32) -> Result<Chunks, AllocError>
    requires { 0 < chunk }
    ensures { IfOk result (IsCut chunk object.now) }
{
    let mut chunks = Chunks::new(alloc);
    let mut rest = object;
    while !rest.is_empty() {
        let (front, behind) = rest.split_at(rest.len().min(chunk as usize));
        chunks.push(Bytes::from_slice(alloc, front)?)?;
        rest = behind;
    }
    Ok(chunks)
}

/// The object of these chunks.
pub fn join(alloc: Global, chunks: &Chunks) -> Result<Bytes, AllocError>
    ensures { IfOk result (λ object. object ≡ concat chunks.now) }
{
    let mut object = Bytes::new(alloc);
    for chunk in chunks.as_slice() {
        object.extend_from_slice(chunk.as_slice())?;
    }
    Ok(object)
}
