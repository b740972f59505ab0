ghost use Rattle.std.specs.Prelude.{◌≡◌, ◌<◌, IfOk, true};
ghost use Rattle.std.specs.List.{AllByRecursion};
ghost use Rattle.value_codec.specs.Spelling.{HasNameSpelling};
ghost use Rattle.step_tables.specs.Chunks.{is_named};

use crate::apart::are_apart;
use crate::counts::is_of_each;
use crate::flat::all_names;
use row_value::Content;
use std::alloc::{AllocError, Global};
use step_tables::ObjectNames;

/// Whether these names are those of a content in chunks of a size: one for each chunk of each object, and none
/// twice. Names that are have spellings.
pub fn is_named(
    alloc: Global,
    size: u32,
    content: &Content,
    names: &ObjectNames,
) -> Result<bool, AllocError>
    requires size { 0 < size }
    ensures named { IfOk result (λ is. is ≡ is_named size content.now names.now) }
    ensures spelled { IfOk result (λ is. is ≡ true → AllByRecursion (AllByRecursion HasNameSpelling) names.now) }
{
    if !is_of_each(size, names.as_slice(), content) {
        return Ok(false);
    }
    let all = all_names(alloc, names.as_slice())?;
    are_apart(alloc, &all)
}
