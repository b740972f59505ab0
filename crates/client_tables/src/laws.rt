//! What the slots of a row keep, whatever comes, as laws.
ghost use Rattle.std.specs.Prelude.{◌≡◌, ◌≤◌};
ghost use Rattle.row_value.specs.declared.schema.Scheme.{Scheme};
ghost use Rattle.held_value.specs.declared.slots.Slots.{Slots};
ghost use Rattle.client_tables.specs.Change.{version_in, seen_in};
ghost use Rattle.client_tables.specs.Kept.{SlotEvent, change_of, slots_behind, IsInOrder, MayCome, StaysOpen};
ghost use Rattle.client_tables.specs.Kept.{StaysSent};

/// A row in conflict is newer than the one that was read, a write that waits rests on what was read or on an earlier
/// version, and none waits in a conflict, where one is open. (Does nothing: its clause is a law.)
pub fn slots_stay_in_order()
    ensures { (scheme : Scheme) (slots : Slots) (event : SlotEvent) → IsInOrder scheme slots → MayCome slots event
        → IsInOrder scheme (slots_behind scheme slots event) }
{}

/// The version that was read never falls, nor does the one that was seen. (Does nothing: its clauses are laws.)
pub fn what_was_read_never_falls()
    ensures read { (scheme : Scheme) (slots : Slots) (event : SlotEvent) → IsInOrder scheme slots → MayCome slots event
        → version_in slots.shadow ≤ version_in (slots_behind scheme slots event).shadow }
    ensures seen { (scheme : Scheme) (slots : Slots) (event : SlotEvent) → IsInOrder scheme slots → MayCome slots event
        → seen_in slots.conflict slots.shadow
        ≤ seen_in (slots_behind scheme slots event).conflict (slots_behind scheme slots event).shadow }
{}

/// An open write is what the row shows until it is told that it was acknowledged, refused or resolved, or until a later
/// one takes its place; and a write that was sent waits until it is told, or until the row is in conflict with the
/// client's write. (Does nothing: its clauses are laws.)
pub fn open_writes_stay_shown()
    ensures shown { (scheme : Scheme) (slots : Slots) (event : SlotEvent) → IsInOrder scheme slots → MayCome slots event
        → StaysOpen slots.main (slots_behind scheme slots event).main (change_of scheme slots event).tells }
    ensures sent { (scheme : Scheme) (slots : Slots) (event : SlotEvent) → IsInOrder scheme slots → MayCome slots event
        → StaysSent slots.out (slots_behind scheme slots event).out (slots_behind scheme slots event).conflict
        (change_of scheme slots event).tells }
{}
