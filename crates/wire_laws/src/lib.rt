//! Runs of the world whose packets are parts of messages: each is a run of whole worlds, so that the laws of those
//! hold.
#![tactic(auto)]

ghost use Rattle.std.specs.Prelude.{◌≡◌, ◌≢◌, ℕ, ◌≤◌, true, false, List, length, Some};
ghost use Rattle.stab_base.specs.declared.node.Node.{Node};
ghost use Rattle.stab_base.specs.declared.node.Node.TheVariants as nodes;
ghost use Rattle.step_tables.specs.Messages as messages;
ghost use Rattle.step_tables.specs.Sayings.{nothing_said, hear_lines};
ghost use Rattle.step_tables.specs.ClientMoves.{Client, TableDisk, table_at, seen};
ghost use Rattle.world_tables.specs.Ready.{is_table_ready, is_client_ready};
ghost use Rattle.world_tables.specs.World.{Hosted, Lucks, owner_of, schema_at, hosted_at, client_at, is_resolving};
ghost use Rattle.world_tables.specs.World.{first_luck};
ghost use Rattle.world_tables.specs.Turns.{Happening, turns, transcript_of};
ghost use Rattle.world_tables.specs.Sound.{IsSound};
ghost use Rattle.world_tables.specs.Quiet.{AreListed};
ghost use Rattle.asked_laws.specs.Asked.{AreAsked};
ghost use Rattle.asked_laws.specs.Phases.{is_away, has_phase};
ghost use Rattle.fair_laws.specs.Reached.{IsReached};
ghost use Rattle.wire_tables.specs.Wire.{PartPacket, Wire, start, part_table};
ghost use Rattle.wire_tables.specs.Runs.{wire_from, wire_turns};
ghost use Rattle.name_laws.specs.Owners.{WasOwner};
ghost use Rattle.wire_laws.specs.Runs.{AreBuilt, IsRunOf};
ghost use Rattle.wire_laws.specs.Carried.{IsSent, TakesNothing, IsUntaken, IsAtStore, IsAtClient, IsFallenStore};
ghost use Rattle.wire_laws.specs.Carried.{IsFallenClient, TellsHistories};

/// Whatever parts of messages come, in any order, repeated or lost, where device calls fail and nodes crash: the nodes
/// go through a run of whole messages. Turn by turn the lines of both are the same but for the packets that are sent;
/// the wire has turns besides in which a part is kept or dropped, and where a part tears a row its client pulls in the
/// whole run.
pub fn wires_run_as_whole_worlds()
    ensures { (run : List Happening) → AreBuilt run → IsRunOf run }
{}

/// Every transcript of a run of wires is sound.
pub fn every_run_of_wires_is_sound()
    ensures { (run : List Happening) → AreBuilt run → IsSound (wire_turns run) }
{}

/// In every run of wires a list of a table's chunks, where its owner is quiet, has exactly those that its rows name.
pub fn every_run_of_wires_lists_chunks()
    ensures { (run : List Happening) → AreBuilt run → AreListed (wire_turns run) }
{}

/// In every run of wires a client tells that it has resolved a row only where it was asked to.
pub fn every_run_of_wires_is_asked()
    ensures { (run : List Happening) → AreBuilt run → AreAsked (wire_turns run) }
{}

/// In every run of wires a client resolves the conflicts of a table exactly where the lines tell of a phase, and so
/// only while it is up.
pub fn every_run_of_wires_tells_its_phases()
    ensures told { (run : List Happening) (c t : ℕ) → AreBuilt run
        → is_resolving (wire_from start run).world c t ≡ has_phase (wire_turns run) c t }
    ensures up { (run : List Happening) (c t : ℕ) → AreBuilt run → has_phase (wire_turns run) c t ≡ true
        → is_away (client_at (wire_from start run).world c) ≡ false }
{}

/// Built events lead the nodes to a world that such events lead to where messages aren't in parts.
pub fn worlds_of_wires_are_reached()
    ensures { (v : Wire) (run : List Happening) → AreBuilt run → v ≡ wire_from start run → IsReached v.world }
{}

/// A part that is sent to a Store is for the owner that its table had when it was sent, by the Stores that were there
/// then and by what the table was: its owner now, where no Store has joined since.
pub fn parts_go_to_the_owner()
    ensures { (v : Wire) (number : ℕ) (p : PartPacket) → IsSent v number p → (n : ℕ) → p.to ≡ nodes.Store n
        → WasOwner v.world.stores (schema_at v.world (part_table p.part)) n }
{}

/// Where a part comes, what its node is handed is a message that was sent, or is taken as one, and the event makes of
/// the nodes what the delivery of that message does: a node that takes nothing now is handed any message; another one
/// the message that the part completes.
pub fn parts_are_handed_on_as_packets()
    ensures untaken { (v : Wire) (number : ℕ) (p : PartPacket) → IsSent v number p → (to : Node) → p.to ≡ to
        → TakesNothing v.world (part_table p.part) to → IsUntaken v number p }
    ensures store { (v : Wire) (number : ℕ) (p : PartPacket) → IsSent v number p
        → p.to ≡ nodes.Store (owner_of v.world (part_table p.part))
        → is_table_ready v.world (part_table p.part) ≡ true → (hosted : Hosted)
        → hosted_at v.world (part_table p.part) ≡ Some hosted → IsAtStore v number p hosted }
    ensures client { (v : Wire) (number : ℕ) (p : PartPacket) → IsSent v number p → (c : ℕ) → p.to ≡ nodes.Client c
        → is_client_ready v.world c ≡ true → (node : Client) → client_at v.world c ≡ Some node → (opened : TableDisk)
        → table_at (seen node.disk) (part_table p.part) ≡ Some opened → opened.closed ≡ false
        → IsAtClient v number p c opened }
{}

/// Where a part comes to a node that would take it, and the node's first device call fails, the node falls, whatever
/// the part is.
pub fn nodes_fall_where_their_first_call_fails()
    ensures store { (v : Wire) (number : ℕ) (p : PartPacket) → IsSent v number p → (lucks : Lucks)
        → p.to ≡ nodes.Store (owner_of v.world (part_table p.part))
        → is_table_ready v.world (part_table p.part) ≡ true
        → first_luck lucks.calls ≢ messages.Done → IsFallenStore v number lucks (part_table p.part) }
    ensures client { (v : Wire) (number : ℕ) (p : PartPacket) → IsSent v number p → (lucks : Lucks) → (c : ℕ)
        → p.to ≡ nodes.Client c → is_client_ready v.world c ≡ true → first_luck lucks.calls ≢ messages.Done
        → IsFallenClient v number lucks c }
{}

/// The whole run that a run of wires is has no more events, and its lines say the same.
pub fn whole_runs_say_the_same()
    ensures shorter { (run : List Happening) (r : IsRunOf run) → length r.whole ≤ length run }
    ensures said { (run : List Happening) (r : IsRunOf run) → hear_lines nothing_said (transcript_of (wire_turns run))
        ≡ hear_lines nothing_said (transcript_of (turns r.whole)) }
{}

/// In every run of wires a table's history is the one that the lines tell.
pub fn every_run_of_wires_tells_its_histories()
    ensures { (run : List Happening) → AreBuilt run → TellsHistories run }
{}
