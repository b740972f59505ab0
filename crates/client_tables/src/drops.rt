ghost use Rattle.std.specs.Prelude.{◌≡◌, ◌&&◌, not, OnOk, IfOk, map};
ghost use Rattle.std.specs.List.Sorted.{IsStrictlySortedBy};
ghost use Rattle.held_value.specs.declared.local_name.LocalName.{LocalName};
ghost use Rattle.client_tables.specs.Drops.{is_among, names_in, names_of, names_of_pieces, names_of_objects};
ghost use Rattle.client_tables.specs.Drops.{names_of_main, names_of_shadow, names_of_out, Notes, Forgets, has};
ghost use Rattle.client_tables.specs.Drops.{pair_cmp, pair_of};

use held_value::{
    HeldContent, HeldObject, HeldPiece, LocalName, LocalNames, Main, Out, Shadow, Slots,
};
use stab_base::Sequence;
use std::alloc::{AllocError, Global};
use std::collections::BTreeSet;

type NameSet = BTreeSet<(u64, u32)>;

fn note_pieces(names: &mut NameSet, pieces: &[HeldPiece]) -> Result<(), AllocError>
    ensures { OnOk result (Notes names.old names.new (names_of_pieces pieces.now)) }
{
    for piece in pieces {
        names.insert((piece.local.plan, piece.local.ordinal))?;
    }
    Ok(())
}

fn note_objects(names: &mut NameSet, objects: &[HeldObject]) -> Result<(), AllocError>
    ensures { OnOk result (Notes names.old names.new (names_of_objects objects.now)) }
{
    for object in objects {
        note_pieces(names, object.pieces.as_slice())?;
    }
    Ok(())
}

fn note_content(names: &mut NameSet, content: &HeldContent) -> Result<(), AllocError>
    ensures { OnOk result (Notes names.old names.new (names_of content.now)) }
{
    match content {
        HeldContent::Gone => Ok(()),
        HeldContent::Row { cells: _, objects } => note_objects(names, objects.as_slice()),
    }
}

fn note_main(names: &mut NameSet, main: &Option<Main>) -> Result<(), AllocError>
    ensures { OnOk result (Notes names.old names.new (names_of_main main.now)) }
{
    match main {
        None => Ok(()),
        Some(main) => note_content(names, &main.content),
    }
}

fn note_shadow(names: &mut NameSet, shadow: &Option<Shadow>) -> Result<(), AllocError>
    ensures { OnOk result (Notes names.old names.new (names_of_shadow shadow.now)) }
{
    match shadow {
        None => Ok(()),
        Some(shadow) => note_content(names, &shadow.content),
    }
}

fn note_out(names: &mut NameSet, out: &Option<Out>) -> Result<(), AllocError>
    ensures { OnOk result (Notes names.old names.new (names_of_out out.now)) }
{
    match out {
        None => Ok(()),
        Some(out) => note_content(names, &out.content),
    }
}

fn note_slots(names: &mut NameSet, slots: &Slots) -> Result<(), AllocError>
    ensures { OnOk result (Notes names.old names.new (names_in slots.now)) }
{
    note_main(names, &slots.main)?;
    note_shadow(names, &slots.shadow)?;
    note_out(names, &slots.out)?;
    note_shadow(names, &slots.conflict)
}

fn forget_pieces(names: &mut NameSet, pieces: &[HeldPiece])
    ensures { Forgets names.old names.new (names_of_pieces pieces.now) }
{
    for piece in pieces {
        names.remove(&(piece.local.plan, piece.local.ordinal));
    }
}

fn forget_objects(names: &mut NameSet, objects: &[HeldObject])
    ensures { Forgets names.old names.new (names_of_objects objects.now) }
{
    for object in objects {
        forget_pieces(names, object.pieces.as_slice());
    }
}

fn forget_content(names: &mut NameSet, content: &HeldContent)
    ensures { Forgets names.old names.new (names_of content.now) }
{
    if let HeldContent::Row { cells: _, objects } = content {
        forget_objects(names, objects.as_slice());
    }
}

fn forget_main(names: &mut NameSet, main: &Option<Main>)
    ensures { Forgets names.old names.new (names_of_main main.now) }
{
    if let Some(main) = main {
        forget_content(names, &main.content);
    }
}

fn forget_shadow(names: &mut NameSet, shadow: &Option<Shadow>)
    ensures { Forgets names.old names.new (names_of_shadow shadow.now) }
{
    if let Some(shadow) = shadow {
        forget_content(names, &shadow.content);
    }
}

fn forget_out(names: &mut NameSet, out: &Option<Out>)
    ensures { Forgets names.old names.new (names_of_out out.now) }
{
    if let Some(out) = out {
        forget_content(names, &out.content);
    }
}

fn forget_slots(names: &mut NameSet, slots: &Slots)
    ensures { Forgets names.old names.new (names_in slots.now) }
{
    forget_main(names, &slots.main);
    forget_shadow(names, &slots.shadow);
    forget_out(names, &slots.out);
    forget_shadow(names, &slots.conflict);
}

fn listed(alloc: Global, names: &NameSet) -> Result<LocalNames, AllocError>
    ensures names { IfOk result (λ listed. (name : LocalName) → is_among listed name ≡ has names.now name) }
    ensures rising { IfOk result (λ listed. IsStrictlySortedBy pair_cmp (map pair_of listed)) }
{
    let mut listed = Sequence::new(alloc);
    for (plan, ordinal) in names.iter() {
        listed.push(LocalName {
            plan: *plan,
            ordinal: *ordinal,
        })?;
    }
    Ok(listed)
}

/// The chunks that a change of a row's slots drops, by rising name: those that the slots before it name and the slots
/// behind it don't.
pub fn dropped(alloc: Global, before: &Slots, behind: &Slots) -> Result<LocalNames, AllocError>
    ensures names { IfOk result (λ drops. (name : LocalName)
        → is_among drops name ≡ (is_among (names_in before.now) name && not (is_among (names_in behind.now) name))) }
    ensures rising { IfOk result (λ drops. IsStrictlySortedBy pair_cmp (map pair_of drops)) }
{
    let mut names = BTreeSet::new(alloc);
    note_slots(&mut names, before)?;
    forget_slots(&mut names, behind);
    listed(alloc, &names)
}
