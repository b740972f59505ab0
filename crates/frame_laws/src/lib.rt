//! Which messages may be sent in parts: those whose contents fit their tables.
#![tactic(auto)]

ghost use Rattle.std.specs.Prelude.{◌≡◌, true};
ghost use Rattle.row_value.specs.declared.schema.Schema.{Schema};
ghost use Rattle.step_tables.specs.Messages.{Message};
ghost use Rattle.message_parts.specs.Splits.{may_split};
ghost use Rattle.part_network.specs.Packets.{HasFrames};
ghost use Rattle.frame_laws.specs.Sizes.{IsSizedIn};

/// A message whose content fits its table can be split, and each of its parts has a frame. (Does nothing: its clause is
/// a law.)
pub fn fit_messages_have_frames()
    ensures { (schema : Schema) (m : Message) → IsSizedIn schema m
        → (may_split m ≡ true) × HasFrames schema.chunk m }
{}
