//! A client's part of the induction: what each move keeps, over the items of the tables and what the client itself has
//! told and sent.
#![tactic(auto)]

ghost use Rattle.std.specs.Prelude.{◌≡◌, ℕ, List, Option, Some, true};
ghost use Rattle.row_value.specs.declared.schema.Scheme.{Scheme};
ghost use Rattle.step_tables.specs.Slots.{InFlight, Shadow};
ghost use Rattle.step_tables.specs.Messages.{Header};
ghost use Rattle.step_tables.specs.Chunks.{Named, has_kept, is_named};
ghost use Rattle.step_tables.specs.ClientMoves.{Shape, Client, ClientMove, client_step};
ghost use Rattle.step_tables.specs.ClientMoves.{spelled, whole_out, shadow_at, shadow_of};
ghost use Rattle.step_tables.specs.Sayings.{Heard};
ghost use Rattle.client_laws.specs.Part.{Items, Sending, Ours, ClientPart, IsFair, ClientLaw};
ghost use Rattle.client_laws.specs.Spells.{IsApart, KeepsOthers, Spells};

/// What a client has told and sent stays so in each move, and each of its device writes may be the last one before a
/// crash: whichever writes it does beside those of its plans and starts.
pub fn every_move_keeps_a_client()
    ensures { (g : ℕ → Scheme) (c : ℕ) (h : Items) (sent : List Sending) (t : Heard) → Ours g c h sent t
        → (shape : Shape) (s : Client) (move : ClientMove) → IsFair g c h sent move → ClientPart g c h sent t s
        → ClientLaw g c h sent t move (client_step c shape s move) }
{}

/// What a client makes of a write spells its chunks, so that the Store doesn't drop it: against a Shadow in which no
/// known name stands twice, and where it is sent whole; no row lacks a chunk of that. A Shadow is so where it is read,
/// and where a write is accepted that keeps no name of its own version.
pub fn writes_spell_their_chunks()
    ensures against { (size : ℕ) (shadow : Option Shadow) (out : InFlight) → IsApart shadow
        → Spells size (spelled size shadow out) }
    ensures whole { (size : ℕ) (out : InFlight) → Spells size out → Spells size (whole_out out) }
    ensures there { (size : ℕ) (held : List (List Named)) (out : InFlight)
        → has_kept size held out.content (whole_out out).pieces ≡ true }
    ensures read { (size : ℕ) (header : Header) → is_named size header.content header.names ≡ true
        → IsApart (Some (shadow_of header)) }
    ensures accepted { (size version : ℕ) (out : InFlight) → Spells size out → KeepsOthers version out.pieces
        → IsApart (Some (shadow_at version out)) }
{}
