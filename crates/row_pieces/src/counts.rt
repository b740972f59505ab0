//! Whether something is said of each chunk.
ghost use Rattle.std.specs.Prelude.{◌≡◌, ◌<◌, ◌==◌, length};
ghost use Rattle.step_tables.specs.Chunks.{cut, is_of_each, objects_of};

use row_value::{Content, SharedBytes};
use stab_base::Sequence;

// How many chunks of this size an object has.
fn chunk_count(size: u32, object: &SharedBytes) -> usize
    requires { 0 < size }
    ensures { result ≡ length (cut size object.now) }
{
    object.len().div_ceil(size as usize)
}

fn has_count<T>(size: u32, said: &Sequence<T>, object: &SharedBytes) -> bool
    requires { 0 < size }
    ensures { result ≡ (length said.now == length (cut size object.now)) }
{
    said.len() == chunk_count(size, object)
}

// Whether something is said of each chunk of these objects, and of nothing else.
fn are_of_each<T>(size: u32, said: &[Sequence<T>], objects: &[SharedBytes]) -> bool
    requires { 0 < size }
    ensures { result ≡ is_of_each size said.now objects.now }
{
    if said.len() != objects.len() {
        return false;
    }
    for (place, here) in said.iter().enumerate() {
        if !has_count(size, here, &objects[place]) {
            return false;
        }
    }
    true
}

// The same of the objects of a content.
pub(crate) fn is_of_each<T>(size: u32, said: &[Sequence<T>], content: &Content) -> bool
    requires { 0 < size }
    ensures { result ≡ is_of_each size said.now (objects_of content.now) }
{
    match content {
        Content::Gone => said.is_empty(),
        Content::Row { objects, .. } => are_of_each(size, said, objects.as_slice()),
    }
}
