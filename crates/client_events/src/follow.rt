//! The work that follows a client's move.
ghost use Rattle.std.specs.Prelude.{◌≡◌, ◌⊎◌, ℕ, true, false, IfOk, IfErr};
ghost use Rattle.world_tables.specs.World.{World as AWorld, client_at, client_tasks};
ghost use Rattle.journal_host.specs.declared.fault.ClientFault.TheVariants.{Memory};
ghost use Rattle.journal_host.specs.Holds.{HoldsClients, AreClients, HavePlansBelow};
ghost use Rattle.journal_host.specs.Moves.{has_work};
ghost use Rattle.client_events.specs.Follow.{Rests, Follows, HasWorkCause, behind};

use disk_trait::Disk;
use journal_host::{ClientFault, ClientHost};
use stab_base::ClientNo;
use table_model::Answer;

// What is answered behind the work: that a disk failed in it, or what the move answered.
fn behind(answer: Answer, done: Answer) -> Answer
    ensures { result ≡ behind answer done }
{
    match done {
        Answer::Refused(refusal) => Answer::Refused(refusal),
        _ => answer,
    }
}

/// Does all writes of a client whose move gave this answer.
pub(crate) fn work<D: Disk + Drop>(
    clients: &mut ClientHost<D>,
    client: ClientNo,
    answer: Answer,
) -> Result<Answer, ClientFault>
    requires { AreClients D.state clients.old }
    ensures work { (w : AWorld) → HoldsClients D.state w clients.old
        → Follows D.state w clients.old clients.new client answer result }
    ensures cause { HasWorkCause D.state client clients.old.clients clients.new.clients answer result }
    ensures plans { (n : ℕ) → HavePlansBelow D.state n clients.old.clients
        → HavePlansBelow D.state n clients.new.clients }
    ensures memory { IfErr result (λ e. e ≡ Memory) }
{
    match clients.work_all(client) {
        Ok(done) => Ok(behind(answer, done)),
        Err(fault) => Err(fault),
    }
}

// The work that follows a move that gave this answer.
fn follow_done<D: Disk + Drop>(
    clients: &mut ClientHost<D>,
    is_held: bool,
    was_busy: bool,
    client: ClientNo,
    answer: Answer,
) -> Result<Answer, ClientFault>
    requires { AreClients D.state clients.old }
    ensures held { is_held ≡ true → Rests clients.old clients.new (Ok answer) result }
    ensures busy { was_busy ≡ true → Rests clients.old clients.new (Ok answer) result }
    ensures idle { (w : AWorld) → HoldsClients D.state w clients.old
        → has_work (client_tasks (client_at w client)) ≡ false
        → Rests clients.old clients.new (Ok answer) result }
    ensures work { is_held ≡ false → was_busy ≡ false → (w : AWorld) → HoldsClients D.state w clients.old
        → Follows D.state w clients.old clients.new client answer result }
    ensures cause { HasWorkCause D.state client clients.old.clients clients.new.clients answer result }
    ensures plans { (n : ℕ) → HavePlansBelow D.state n clients.old.clients
        → HavePlansBelow D.state n clients.new.clients }
    ensures memory { IfErr result (λ e. e ≡ Memory) }
{
    if is_held {
        return Ok(answer);
    }
    if was_busy {
        return Ok(answer);
    }
    if clients.is_busy(client) {
        return work(clients, client, answer);
    }
    Ok(answer)
}

/// What a move answered, and then the work that follows it: all its client's writes, where the client had none to do
/// before the move and isn't on hold.
pub(crate) fn follow<D: Disk + Drop>(
    clients: &mut ClientHost<D>,
    is_held: bool,
    was_busy: bool,
    client: ClientNo,
    found: Result<Answer, ClientFault>,
) -> Result<Answer, ClientFault>
    requires { IfOk found (λ answer. AreClients D.state clients.old) }
    ensures refused { IfErr found (λ e. Rests clients.old clients.new found result) }
    ensures held { is_held ≡ true → Rests clients.old clients.new found result }
    ensures busy { was_busy ≡ true → Rests clients.old clients.new found result }
    ensures idle { (w : AWorld) → HoldsClients D.state w clients.old
        → has_work (client_tasks (client_at w client)) ≡ false → Rests clients.old clients.new found result }
    ensures work { is_held ≡ false → was_busy ≡ false → (w : AWorld) → HoldsClients D.state w clients.old
        → IfOk found (λ answer. Follows D.state w clients.old clients.new client answer result) }
    ensures cause { IfOk found (λ answer.
        HasWorkCause D.state client clients.old.clients clients.new.clients answer result) }
    ensures plans { (n : ℕ) → HavePlansBelow D.state n clients.old.clients
        → HavePlansBelow D.state n clients.new.clients }
    ensures fault { IfErr result (λ e. (e ≡ Memory) ⊎ Rests clients.old clients.new found result) }
{
    match found {
        Ok(answer) => follow_done(clients, is_held, was_busy, client, answer),
        Err(fault) => Err(fault),
    }
}
