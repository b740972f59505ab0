//! The name of a row's chunk, as the client's devices tell it.
ghost use Rattle.std.specs.Prelude.{◌≡◌, [], ◌∷◌, IfOk, IfSome, OnOk};
ghost use Rattle.slot_store.specs.Data.{slots_of};
ghost use Rattle.client_journal.specs.Names.{names_in, names_of};
ghost use Rattle.client_journal.specs.NamedSlots.{names_if};
ghost use Rattle.client_journal.specs.Standing.{devs};
ghost use Rattle.journal_tests.specs.Standing.{IsResting};
ghost use Rattle.plan_bench.specs.Rows.{listed};

use crate::calls::TABLE;
use crate::fault::BenchFault;
use client_journal::{Journal, JournalFault};
use disk_trait::Disk;
use held_value::{HeldContent, LocalName, Slots};
use slot_store::RowSlots;
use stab_base::RowId;

// The one name in a content, if it has one.
fn name_in(content: &HeldContent) -> Option<LocalName>
    ensures { IfSome result (λ name. names_of content.now ≡ name ∷ []) }
{
    let HeldContent::Row { objects, .. } = content else {
        return None;
    };
    let [object] = objects.as_slice() else {
        return None;
    };
    let [piece] = object.pieces.as_slice() else {
        return None;
    };
    Some(piece.local)
}

// The one name in slots, if they have one.
fn single(slots: &Slots) -> Option<LocalName>
    ensures { IfSome result (λ name. names_in slots.now ≡ name ∷ []) }
{
    if slots.shadow.is_some() {
        return None;
    }
    if slots.out.is_some() {
        return None;
    }
    if slots.conflict.is_some() {
        return None;
    }
    let main = slots.main.as_ref()?;
    name_in(&main.content)
}

// The one name in a row's slots; none where it has no slots.
fn single_of(found: &Option<RowSlots>) -> Result<Option<LocalName>, BenchFault>
    ensures { IfOk result (λ old. names_if found.now ≡ listed old) }
{
    let Some(row) = found else {
        return Ok(None);
    };
    match single(&row.slots) {
        Some(name) => Ok(Some(name)),
        None => Err(BenchFault::Slots),
    }
}

fn held<D: Disk + Drop>(
    client: &mut Journal<D>,
    row: &RowId,
) -> Result<Option<RowSlots>, JournalFault>
    requires { IsResting D.state client.old }
    ensures rests { OnOk result (IsResting D.state client.new) }
    ensures found { IfOk result (λ found. slots_of (devs D.state client.new).held 1 row.now ≡ found) }
{
    client.slots(TABLE, row)
}

/// The name of the one chunk of a row, if it has slots.
pub fn old_name<D: Disk + Drop>(
    client: &mut Journal<D>,
    row: &RowId,
) -> Result<Option<LocalName>, BenchFault>
    requires { IsResting D.state client.old }
    ensures rests { OnOk result (IsResting D.state client.new) }
    ensures names { IfOk result (λ old. names_if (slots_of (devs D.state client.new).held 1 row.now) ≡ listed old) }
{
    let found = held(client, row)?;
    single_of(&found)
}
