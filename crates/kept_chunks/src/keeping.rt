//! Which chunks of a row are held already.
ghost use Rattle.std.specs.Prelude.{◌≡◌, ◌<◌, ◌^◌, List, false, length, drop, slice_index_or, Some, None, IfOk, OnOk};
ghost use Rattle.std.specs.Prelude.{IfSome};
ghost use Rattle.std.specs.List.{AllByRecursion};
ghost use Rattle.std.specs.BTreeSet.{contains};
ghost use Rattle.chunk_store.specs.Payload.{name_cmp};
ghost use Rattle.held_value.specs.declared.local_name.LocalName.{LocalName};
ghost use Rattle.client_journal.specs.Devs.{chunk_of};
ghost use Rattle.client_journal.specs.Names.{names_of};
ghost use Rattle.client_journal.specs.There.{HasNames};
ghost use Rattle.held_contents.specs.Holding.{brought_name, pieces_held};
ghost use Rattle.kept_chunks.specs.Anew.{AreBroughtAnew, AreInOrder, IsAnew};
ghost use Rattle.kept_chunks.specs.Kept.{IsKept};
ghost use Rattle.kept_chunks.specs.Steps.{AddsName, Brings, Keeps, Puts, KeepsSoFar};

use crate::held::{Places, held_under, places_of};
use crate::pieces::{chunk_name, names_brought, pieces_of, taken_by};
use crate::renaming::renamed;
use held_contents::{BroughtChunks, HeldNew, ShownChunks};
use held_value::LocalName;
use stab_base::{Bytes, ChunkName, Version};
use std::alloc::{AllocError, Global};
use std::collections::BTreeSet;

/// What was made of the chunks that a content brings, up to one of them.
#[derive(Drop)]
pub(crate) struct Keeping {
    /// The local name that each of them has now.
    pub(crate) locals: Vec<LocalName>,
    /// Those that are brought still.
    pub(crate) brought: BroughtChunks,
    /// The local names that the content has.
    pub(crate) taken: BTreeSet<ChunkName>,
}

impl Keeping {
    // Gives the next chunk a local name.
    fn add(&mut self, name: LocalName) -> Result<(), AllocError>
        ensures { OnOk result (AddsName self.old self.new name) }
    {
        self.taken.insert(chunk_name(name))?;
        self.locals.push(name)?;
        Ok(())
    }

    // The local name of the next chunk that is brought.
    fn next_brought(&self) -> LocalName
        requires { length self.now.brought < 2 ^ 32 }
        ensures { result ≡ brought_name (length self.now.brought) }
    {
        LocalName {
            plan: 0,
            ordinal: self.brought.len() as u32,
        }
    }

    // Brings the next chunk.
    fn bring(&mut self, bytes: Bytes) -> Result<(), AllocError>
        requires { length self.old.brought < 2 ^ 32 }
        ensures { OnOk result (Brings self.old self.new bytes) }
    {
        self.add(self.next_brought())?;
        self.brought.push(bytes)?;
        Ok(())
    }

    // A local name that the content hasn't yet.
    fn free(&self, local: Option<LocalName>) -> Option<LocalName>
        ensures { IfSome result (λ name. (local ≡ Some name)
            × (contains name_cmp self.now.taken (chunk_of name) ≡ false)) }
    {
        let name = local?;
        if self.taken.contains(&chunk_name(name)) {
            None
        } else {
            Some(name)
        }
    }

    // Keeps the next chunk where it is held under its name, and else brings it.
    fn put(
        &mut self,
        held: &[ShownChunks],
        places: &Places,
        name: Option<ChunkName>,
        bytes: Bytes,
    ) -> Result<(), AllocError>
        requires { length self.old.brought < 2 ^ 32 }
        ensures puts { OnOk result (Puts held.now self.old self.new bytes) }
        ensures anew { OnOk result (name ≡ None → Brings self.old self.new bytes) }
    {
        match self.free(held_under(held, places, name, &bytes)) {
            Some(local) => self.add(local),
            None => self.bring(bytes),
        }
    }
}

fn first_name(names: &[Option<ChunkName>]) -> Option<ChunkName>
    ensures { result ≡ slice_index_or names.now 0 None }
{
    *names.first()?
}

fn behind(names: &[Option<ChunkName>]) -> &[Option<ChunkName>]
    ensures { result.now ≡ drop 1 names.now }
{
    match names.split_first() {
        None => names,
        Some((_first, rest)) => rest,
    }
}

// What is made of all of them, where the content has these local names.
fn keep_all(
    alloc: Global,
    held: &[ShownChunks],
    places: &Places,
    names: &[Option<ChunkName>],
    taken: BTreeSet<ChunkName>,
    brought: BroughtChunks,
) -> Result<Keeping, AllocError>
    requires { length brought < 2 ^ 32 }
    ensures kept { (content : List LocalName) → HasNames content taken
        → IfOk result (KeepsSoFar held.now content brought) }
    ensures anew { IfOk result (λ keeping. AreBroughtAnew names.now keeping.locals.items) }
{
    let mut keeping = Keeping {
        locals: Vec::new(alloc),
        brought: BroughtChunks::new(alloc),
        taken,
    };
    let mut left = names;
    for bytes in brought.into_vec() {
        keeping.put(held, places, first_name(left), bytes)?;
        left = behind(left);
    }
    Ok(keeping)
}

// What holds a row, where a chunk that is held already under the Store's name keeps its local name, if that name is up
// to a version: it isn't brought. The chunks that are brought still are numbered anew.
pub(crate) fn keep_held(
    alloc: Global,
    held: &[ShownChunks],
    version: Version,
    made: HeldNew,
) -> Result<HeldNew, AllocError>
    requires { length made.brought < 2 ^ 32 }
    ensures kept { IfOk result (IsKept held.now made) }
    ensures anew { IfOk result (λ new. AreInOrder 0 (pieces_held made.content)
        → AllByRecursion (IsAnew version (names_of made.content)) (pieces_held new.content)) }
{
    let HeldNew { content, brought } = made;
    let pieces = pieces_of(alloc, &content)?;
    let places = places_of(alloc, held)?;
    let names = names_brought(alloc, &pieces, version)?;
    let taken = taken_by(alloc, &pieces)?;
    let keeping = keep_all(alloc, held, &places, &names, taken, brought)?;
    let content = renamed(alloc, &keeping.locals, content)?;
    Ok(HeldNew {
        content,
        brought: keeping.brought,
    })
}
