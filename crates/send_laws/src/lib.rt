//! Every message that a world of a script has sent can be sent in parts, and whoever gets its parts may gather them.
//!
//! A law says what holds of each world, or of each part; its function does nothing.
#![tactic(auto)]

mod widths;

ghost use Rattle.std.specs.Prelude.{◌≡◌, true, Some};
ghost use Rattle.step_tables.specs.Members.{Among};
ghost use Rattle.step_tables.specs.Messages.{table_of};
ghost use Rattle.part_tables.specs.Parts.{Part};
ghost use Rattle.part_store.specs.Calls as at_store;
ghost use Rattle.part_client.specs.Calls as at_client;
ghost use Rattle.message_parts.specs.Splits.{may_split};
ghost use Rattle.part_network.specs.Packets.{HasPartFrame, HasFrames};
ghost use Rattle.world_tables.specs.World.{World, Packet, schema_at, chunk_in};
ghost use Rattle.fair_laws.specs.Reached.{IsReached};
ghost use Rattle.send_laws.specs.Widths.{HasWidths};

pub use widths::know_widths;

/// In every world that a script leads to, each message that was sent can be split, and each of its parts has a frame,
/// where its numbers have the widths that the program's types have.
pub fn every_sent_message_has_frames()
    ensures { (w : World) (packet : Packet) → IsReached w → Among w.packets packet → HasWidths packet.message
        → (may_split packet.message ≡ true)
        × HasFrames (chunk_in (schema_at w (table_of packet.message))) packet.message }
{}

/// A part that has a frame has columns and places of 32 bits, so that the Store may gather it, and so may a client.
pub fn framed_parts_may_be_gathered()
    ensures { (p : Part) → HasPartFrame p
        → (at_store.may_gather (Some p) ≡ true) × (at_client.may_gather (Some p) ≡ true) }
{}
