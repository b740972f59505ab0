//! The names in slots.
ghost use Rattle.std.specs.Prelude.{◌≡◌, ◌++◌, ◌∷◌, [], IfOk, OnOk};
ghost use Rattle.client_journal.specs.Names.{names_of_pieces, names_of_objects, names_of, names_of_main};
ghost use Rattle.client_journal.specs.Names.{names_of_shadow, names_of_out, names_in};
ghost use Rattle.client_journal.specs.Devs.{chunk_of};

use held_value::{HeldContent, HeldObject, HeldPiece, LocalName, Main, Out, Shadow, Slots};
use stab_base::ChunkName;
use std::alloc::{AllocError, Global};

/// The name of the chunk that a local name stands for.
pub(crate) fn chunk_name(name: LocalName) -> ChunkName
    ensures { result ≡ chunk_of name }
{
    ChunkName {
        version: name.plan,
        ordinal: name.ordinal,
    }
}

fn add_pieces(names: &mut Vec<LocalName>, pieces: &[HeldPiece]) -> Result<(), AllocError>
    ensures { OnOk result (names.new.items ≡ names.old.items ++ names_of_pieces pieces.now) }
{
    for piece in pieces {
        names.push(piece.local)?;
    }
    Ok(())
}

fn add_objects(names: &mut Vec<LocalName>, objects: &[HeldObject]) -> Result<(), AllocError>
    ensures { OnOk result (names.new.items ≡ names.old.items ++ names_of_objects objects.now) }
{
    for object in objects {
        add_pieces(names, object.pieces.as_slice())?;
    }
    Ok(())
}

fn add_content(names: &mut Vec<LocalName>, content: &HeldContent) -> Result<(), AllocError>
    ensures { OnOk result (names.new.items ≡ names.old.items ++ names_of content.now) }
{
    match content {
        HeldContent::Gone => Ok(()),
        HeldContent::Row { objects, .. } => add_objects(names, objects.as_slice()),
    }
}

fn add_main(names: &mut Vec<LocalName>, main: &Option<Main>) -> Result<(), AllocError>
    ensures { OnOk result (names.new.items ≡ names.old.items ++ names_of_main main.now) }
{
    match main {
        None => Ok(()),
        Some(main) => add_content(names, &main.content),
    }
}

fn add_shadow(names: &mut Vec<LocalName>, shadow: &Option<Shadow>) -> Result<(), AllocError>
    ensures { OnOk result (names.new.items ≡ names.old.items ++ names_of_shadow shadow.now) }
{
    match shadow {
        None => Ok(()),
        Some(shadow) => add_content(names, &shadow.content),
    }
}

fn add_out(names: &mut Vec<LocalName>, out: &Option<Out>) -> Result<(), AllocError>
    ensures { OnOk result (names.new.items ≡ names.old.items ++ names_of_out out.now) }
{
    match out {
        None => Ok(()),
        Some(out) => add_content(names, &out.content),
    }
}

/// The names in a content, in the order of its pieces.
pub(crate) fn names_of(alloc: Global, content: &HeldContent) -> Result<Vec<LocalName>, AllocError>
    ensures { IfOk result (λ names. names.items ≡ names_of content.now) }
{
    let mut names = Vec::new(alloc);
    add_content(&mut names, content)?;
    Ok(names)
}

/// The names in the slots of a row.
pub(crate) fn names_in(alloc: Global, slots: &Slots) -> Result<Vec<LocalName>, AllocError>
    ensures { IfOk result (λ names. names.items ≡ names_in slots.now) }
{
    let mut names = Vec::new(alloc);
    add_main(&mut names, &slots.main)?;
    add_shadow(&mut names, &slots.shadow)?;
    add_out(&mut names, &slots.out)?;
    add_shadow(&mut names, &slots.conflict)?;
    Ok(names)
}
