//! How the moves of a client's events, and the work that follows them, are the world's.
ghost use Rattle.std.specs.Prelude.{◌≡◌, ℕ, List, true, false};
ghost use Rattle.stab_base.specs.declared.node.Node.TheVariants as nodes;
ghost use Rattle.step_tables.specs.Messages.{Message, Luck};
ghost use Rattle.step_tables.specs.ClientMoves.{ClientMove, Shape};
ghost use Rattle.world_tables.specs.World.{World as AWorld, call, to_there, started, client_at, client_tasks};
ghost use Rattle.world_tables.specs.World.{has_node, is_down};
ghost use Rattle.world_tables.specs.World.{client_follows, client_follows_from, client_until_idle, other_lucks};
ghost use Rattle.journal_host.specs.Moves.{then_moves, agenda_in, call_alone, take_alone, start_alone, has_work};

/// A client's call is its move, and then the work that follows: all its writes, where it had none to do before and
/// isn't on hold, and else none.
pub fn calls_are_followed()
    ensures follows { (w : AWorld) (c : ℕ) (move : ClientMove) (shape : Shape) (luck : List Luck)
        → call w c move shape luck ≡ then_moves (call_alone w c move shape luck)
        (client_follows_from (agenda_in (client_at w c)) c (other_lucks luck)) }
    ensures held { (w : AWorld) (c : ℕ) (move : ClientMove) (shape : Shape) (luck : List Luck)
        → has_node w.holds (nodes.Client c) ≡ true → call w c move shape luck ≡ call_alone w c move shape luck }
    ensures busy { (w : AWorld) (c : ℕ) (move : ClientMove) (shape : Shape) (luck : List Luck)
        → has_work (client_tasks (client_at w c)) ≡ true → call w c move shape luck ≡ call_alone w c move shape luck }
    ensures idle { (w : AWorld) (c : ℕ) (move : ClientMove) (shape : Shape) (luck : List Luck)
        → has_work (client_tasks (client_at w c)) ≡ false → has_node w.holds (nodes.Client c) ≡ false
        → call w c move shape luck
        ≡ then_moves (call_alone w c move shape luck) (client_until_idle c (other_lucks luck)) }
{}

/// The same of a message for a client.
pub fn messages_are_followed()
    ensures follows { (w : AWorld) (c : ℕ) (message : Message) (shape : Shape) (luck : List Luck)
        → to_there w c message shape luck (client_at w c) ≡ then_moves (take_alone w c message shape luck)
        (client_follows_from (agenda_in (client_at w c)) c (other_lucks luck)) }
    ensures held { (w : AWorld) (c : ℕ) (message : Message) (shape : Shape) (luck : List Luck)
        → has_node w.holds (nodes.Client c) ≡ true
        → to_there w c message shape luck (client_at w c) ≡ take_alone w c message shape luck }
    ensures busy { (w : AWorld) (c : ℕ) (message : Message) (shape : Shape) (luck : List Luck)
        → has_work (client_tasks (client_at w c)) ≡ true
        → to_there w c message shape luck (client_at w c) ≡ take_alone w c message shape luck }
    ensures idle { (w : AWorld) (c : ℕ) (message : Message) (shape : Shape) (luck : List Luck)
        → has_work (client_tasks (client_at w c)) ≡ false → has_node w.holds (nodes.Client c) ≡ false
        → to_there w c message shape luck (client_at w c)
        ≡ then_moves (take_alone w c message shape luck) (client_until_idle c (other_lucks luck)) }
{}

/// The same of a start of a client that is down; one that is up goes on.
pub fn starts_are_followed()
    ensures down { (w : AWorld) (c : ℕ) (shape : Shape) (luck : List Luck) → is_down w (nodes.Client c) ≡ true
        → started w shape luck (nodes.Client c)
        ≡ then_moves (start_alone w c shape luck) (client_follows c (other_lucks luck)) }
    ensures up { (w : AWorld) (c : ℕ) (shape : Shape) (luck : List Luck) → is_down w (nodes.Client c) ≡ false
        → started w shape luck (nodes.Client c) ≡ start_alone w c shape luck }
{}
