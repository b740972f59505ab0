//! What a step of the world is where no disk fails.
#![tactic(auto)]

ghost use Rattle.std.specs.Prelude.{◌≡◌, false};
ghost use Rattle.table_model.specs.declared.event.Event.{Event};
ghost use Rattle.world_tables.specs.World.{World, Lucks, step};
ghost use Rattle.world_tables.specs.Faults.{is_device_fault, quiet_lucks};

/// A step in which no device fault shows is the step in which no disk fails, whatever its lucks are: all device writes
/// are done, and only the write that a crash cuts goes by a luck, undone or done. And where no disk fails, no device
/// fault shows. It has no code: its clauses are the law.
pub fn a_step_without_faults()
    ensures same { (w : World) (event : Event) (lucks : Lucks) → is_device_fault w event lucks ≡ false
        → step w event lucks ≡ step w event (quiet_lucks event lucks) }
    ensures quiet { (w : World) (event : Event) (lucks : Lucks)
        → is_device_fault w event (quiet_lucks event lucks) ≡ false }
{}
