//! What holds a row from the Store.
ghost use Rattle.std.specs.Prelude.{◌≡◌, ◌<◌, ◌++◌, true, IfOk};
ghost use Rattle.step_tables.specs.Chunks.{is_of_each, objects_of};
ghost use Rattle.std.specs.List.{AllByRecursion};
ghost use Rattle.held_contents.specs.Holding.{IsFit, names_shown, pieces_held};
ghost use Rattle.kept_chunks.specs.Anew.{IsAnew};
ghost use Rattle.kept_chunks.specs.Kept.{HoldsKept, AreNumbered};

use crate::keeping::keep_held;
use held_contents::{HeldNew, ShownChunks, hold_named};
use row_value::Content;
use stab_base::{Sequence, Version};
use std::alloc::{AllocError, Global};
use step_tables::ObjectNames;

// Some objects, and more behind them.
fn joined(
    mut objects: Sequence<ShownChunks>,
    more: Sequence<ShownChunks>,
) -> Result<Sequence<ShownChunks>, AllocError>
    ensures { IfOk result (λ all. all ≡ objects ++ more) }
{
    for object in more.into_vec() {
        objects.push(object)?;
    }
    Ok(objects)
}

/// What holds a row from the Store, in chunks of a size, with the Store's name of each chunk, where these chunks are
/// held of it: those that are shown, those that were read last, and those of the row in conflict. A chunk keeps its
/// local name where it is shown at the same place of the same object, and where the Store's name of it is up to
/// `version`, so that it was kept and didn't travel, and it is held under that name, at whatever place. The others are
/// brought, numbered on from object to object.
pub fn hold_kept(
    alloc: Global,
    size: u32,
    version: Version,
    shown: Sequence<ShownChunks>,
    read: Sequence<ShownChunks>,
    conflict: Sequence<ShownChunks>,
    content: &Content,
    names: &ObjectNames,
) -> Result<HeldNew, AllocError>
    requires size { 0 < size }
    requires fit { IsFit size content.now }
    requires named { is_of_each size names.now (objects_of content.now) ≡ true }
    ensures kept { IfOk result (HoldsKept size shown (read ++ conflict) content.now names.now) }
    ensures anew { IfOk result (λ made. AreNumbered shown
        → AllByRecursion (IsAnew version (names_shown shown)) (pieces_held made.content)) }
{
    let made = hold_named(alloc, size, &shown, content, names)?;
    let held = joined(shown, joined(read, conflict)?)?;
    keep_held(alloc, held.as_slice(), version, made)
}
