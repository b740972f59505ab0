//! Names that stand once.
ghost use Rattle.std.specs.Prelude.{◌≡◌, IfOk, true};
ghost use Rattle.std.specs.List.{AllByRecursion};
ghost use Rattle.value_codec.specs.Spelling.{HasNameSpelling};
ghost use Rattle.step_tables.specs.Chunks.{are_apart};

use stab_base::ChunkName;
use std::alloc::{AllocError, Global};
use std::collections::BTreeSet;

// A name that was read has a spelling.
fn spelled(name: ChunkName) -> ChunkName
    ensures value { result ≡ name }
    ensures spelled { HasNameSpelling name }
{
    name
}

// Whether no name stands twice.
pub(crate) fn are_apart(alloc: Global, names: &[ChunkName]) -> Result<bool, AllocError>
    ensures apart { IfOk result (λ apart. apart ≡ are_apart names.now) }
    ensures spelled { IfOk result (λ apart. apart ≡ true → AllByRecursion HasNameSpelling names.now) }
{
    let mut met = BTreeSet::new(alloc);
    for name in names {
        let is_new = met.insert(spelled(*name))?;
        if !is_new {
            return Ok(false);
        }
    }
    Ok(true)
}
