//! What the table of a gateway keeps, as laws.
ghost use Rattle.std.specs.Prelude.{◌≡◌, ℕ, ◌+◌, ◌<◌, ◌≤◌, List, Option, Some, None, true, false};
ghost use Rattle.std.specs.List.{AllByRecursion};
ghost use Rattle.table_model.specs.declared.message.Message.{Message};
ghost use Rattle.gate_tables.specs.Gate.{Gateway, Running, Directory, asked, session_of, has_token, from_client};
ghost use Rattle.gate_tables.specs.Gate.{ticked, crashed, started, token_of, tokens, taken, is_spent, quiet};
ghost use Rattle.stab_base.specs.declared.node.Node.{Node};
ghost use Rattle.gate_tables.specs.Laws.{IsToClient, IsUnregistered, GoesToOwner, AllWait};

/// A client's message with a token that no session has reaches no Store. (Does nothing: its clause is a law.)
pub fn nobody_passes_without_a_session()
    ensures { (directory : Directory) (number : ℕ) (running : Running) (message : Message)
        → IsUnregistered running message
        → AllByRecursion IsToClient (from_client directory number running message).sends }
{}

/// What a client's message makes a gateway send to a Store goes to the owner of its table, and is the message itself
/// or the subscription that it asks for. (Does nothing: its clause is a law.)
pub fn what_passes_is_unchanged()
    ensures { (directory : Directory) (number : ℕ) (running : Running) (message : Message)
        → AllByRecursion (GoesToOwner directory number message)
        (from_client directory number running message).sends }
{}

/// Behind a tick no marked timer has waited for its period and its tolerance: it has fired. (Does nothing: its clause
/// is a law.)
pub fn a_marked_timer_waits_no_longer()
    ensures { (running : Running) → AllByRecursion AllWait (ticked running).running.sessions }
{}

/// What a gateway is after a crash and a start depends on the number of its starts alone. (Does nothing: its clauses
/// are laws.)
pub fn a_crash_keeps_starts_alone()
    ensures crash { (one other : Gateway) → one.starts ≡ other.starts → crashed one ≡ crashed other }
    ensures start { (one other : Gateway) (starts : ℕ) → started (crashed one) starts ≡ started (crashed other) starts }
{}

/// A token tells the start and the place among the tokens of that start, so none is drawn twice. (Does nothing: its
/// clause is a law.)
pub fn a_token_is_drawn_once()
    ensures { (starts drawn other_starts other_drawn : ℕ) → drawn ≤ tokens → other_drawn ≤ tokens
        → token_of starts drawn ≡ token_of other_starts other_drawn
        → (starts ≡ other_starts) × (drawn ≡ other_drawn) }
{}

/// Tokens are drawn up to the limit: never more than `tokens` between two starts, and a client that asks for one
/// behind the last changes nothing and is sent nothing. (Does nothing: its clauses are laws.)
pub fn tokens_have_a_limit()
    ensures within { (directory : Directory) (number starts : ℕ) (running : Running) (from : Node)
        (message : Message) → running.drawn ≤ tokens
        → (taken directory number starts running from message).running.drawn ≤ tokens }
    ensures spent { (directory : Directory) (number starts : ℕ) (running : Running) (from : Node)
        (message : Message) → is_spent running from message ≡ true
        → taken directory number starts running from message ≡ quiet running }
{}
