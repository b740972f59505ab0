//! What a table's disks may hold at the moments of an event, in every run of the world.
#![tactic(auto)]

ghost use Rattle.std.specs.Prelude.{◌≡◌, ℕ, List, Some};
ghost use Rattle.table_model.specs.declared.event.Event.{Event};
ghost use Rattle.world_tables.specs.Passed.{IsBetween, items_behind, first_part};
ghost use Rattle.world_tables.specs.Turns.{Happening, world_from};
ghost use Rattle.world_tables.specs.World.{Hosted, Lucks, start, hosted_at, step};

/// In every run, at each event: whichever of a table's next writes are done, counted from before the event or from
/// behind its first part, the table's items are a front of its history behind the event, or that history with one item
/// more, the update at work; and the history from before is a front of them.
pub fn a_tables_rows_stay_with_its_history()
    ensures before { (run : List Happening) (event : Event) (lucks : Lucks) (table k : ℕ) (before after : Hosted)
        → hosted_at (world_from start run) table ≡ Some before
        → hosted_at (step (world_from start run) event lucks).world table ≡ Some after
        → IsBetween before.history after.history (items_behind before k) }
    ensures between { (run : List Happening) (event : Event) (lucks : Lucks) (table k : ℕ)
        → (before middle after : Hosted)
        → hosted_at (world_from start run) table ≡ Some before
        → hosted_at (first_part (world_from start run) event lucks) table ≡ Some middle
        → hosted_at (step (world_from start run) event lucks).world table ≡ Some after
        → IsBetween before.history after.history (items_behind middle k) }
{}
