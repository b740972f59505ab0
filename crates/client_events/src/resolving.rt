//! All conflicts of a table, resolved in one way.
ghost use Rattle.std.specs.Prelude.{◌≡◌, ℕ, ◌+◌, suc, List, length, IfOk, IfErr};
ghost use Rattle.table_model.specs.declared.event.Event.TheVariants as events;
ghost use Rattle.table_model.specs.declared.line.Answer.TheVariants as answers;
ghost use Rattle.step_tables.specs.ClientMoves.{Shape};
ghost use Rattle.step_tables.specs.Lines.{answer_of};
ghost use Rattle.step_tables.specs.Messages.{Luck};
ghost use Rattle.world_tables.specs.World as moves;
ghost use Rattle.world_tables.specs.World.{World as AWorld, client_at, client_pairs, step};
ghost use Rattle.journal_host.specs.Calls.{HasCause, IsNumberCause};
ghost use Rattle.journal_host.specs.Holds.{HoldsClients, AreClients, HavePlansBelow};
ghost use Rattle.client_events.specs.Follow.{IsFollowed};
ghost use Rattle.client_events.specs.Resolves.{resolve_row, IsReady, HasResolved, ComesSo};
ghost use Rattle.client_events.specs.Resolves.{number_in, IsCauseAbove, IsNumberCauseWithin};

use crate::follow::work;
use conflicts::Stored;
use disk_trait::Disk;
use journal_host::{ClientFault, ClientHost};
use stab_base::{ClientNo, Sequence, TableNo};
use std::alloc::Global;
use table_model::{Answer, Refusal, RowPair, RowPairs};

// Whether a disk failed.
fn is_fault(answer: &Answer) -> bool
    ensures { result ≡ moves.is_fault (answer_of answer.now) }
{
    matches!(answer, Answer::Refused(Refusal::NoDevice))
}

// The number that was answered, if it is one.
fn number_in(answer: &Answer) -> Option<u64>
    ensures { result ≡ number_in answer.now }
{
    match answer {
        Answer::Number(count) => Some(*count),
        _ => None,
    }
}

// Resolves a row in conflict, and does all the work of it, also on hold.
fn resolve_one<D: Disk + Drop>(
    clients: &mut ClientHost<D>,
    client: ClientNo,
    table: TableNo,
    by: Stored,
    pair: RowPair,
) -> Result<Answer, ClientFault>
    requires { AreClients D.state clients.old }
    ensures resolved { (w : AWorld) (last : ℕ) → HoldsClients D.state w clients.old → IsReady w client table last
        → IfOk result (λ answer. (shape : Shape) × (lucks : List Luck) × HasResolved D.state clients.old clients.new
        (resolve_row client table by shape pair lucks w) answer) }
    ensures spent { (w : AWorld) (n : ℕ) → HoldsClients D.state w clients.old
        → HavePlansBelow D.state n clients.old.clients → IfErr result (IsNumberCause n (client_at w client)) }
    ensures held { IfOk result (λ answer. AreClients D.state clients.new) }
    ensures cause { HasCause D.state client clients.old.clients clients.new.clients result }
    ensures plans { (n : ℕ) → HavePlansBelow D.state n clients.old.clients
        → HavePlansBelow D.state (suc n) clients.new.clients }
{
    let answer = clients.resolve_by(client, table, pair.row, pair.version, by)?;
    if is_fault(&answer) {
        return Ok(answer);
    }
    work(clients, client, answer)
}

// Resolves these rows, one after the other, unless a disk fails. They are so many.
fn resolve_each<D: Disk + Drop>(
    clients: &mut ClientHost<D>,
    client: ClientNo,
    table: TableNo,
    by: Stored,
    pairs: RowPairs,
    count: u64,
) -> Result<Answer, ClientFault>
    requires { AreClients D.state clients.old }
    ensures resolved { (w : AWorld) (last : ℕ) → HoldsClients D.state w clients.old → IsReady w client table last
        → IfOk result (λ given. (shapes : List Shape) × (lucks : List Luck) × IsFollowed D.state clients.old
        clients.new (moves.resolve_each client table by shapes lucks pairs w) (answers.Number count) given) }
    ensures spent { (w : AWorld) (n last : ℕ) → HoldsClients D.state w clients.old → IsReady w client table last
        → HavePlansBelow D.state n clients.old.clients → IfErr result (IsCauseAbove n last (length pairs)) }
    ensures cause { HasCause D.state client clients.old.clients clients.new.clients result }
    ensures plans { (n : ℕ) → HavePlansBelow D.state n clients.old.clients
        → HavePlansBelow D.state (length pairs + n) clients.new.clients }
{
    for pair in pairs.into_vec() {
        let done = resolve_one(clients, client, table, by, pair)?;
        if is_fault(&done) {
            return Ok(done);
        }
    }
    Ok(Answer::Number(count))
}

/// Resolves all conflicts of a table in one way, by rising row, and does the work of each, also on hold: how many there
/// were. Where a disk fails, the rows before are resolved.
///
/// # Errors
///
/// `Spent` where no more numbers of writes or of plans are left than there are rows in conflict, and `Memory`.
pub fn resolve_all<D: Disk + Drop>(
    alloc: Global,
    clients: &mut ClientHost<D>,
    client: ClientNo,
    table: TableNo,
    by: Stored,
) -> Result<Answer, ClientFault>
    requires { AreClients D.state clients.old }
    ensures called { (w : AWorld) → HoldsClients D.state w clients.old
        → ComesSo D.state clients.old clients.new (step w (events.ResolveAll client table by)) result }
    ensures spent { (w : AWorld) (n : ℕ) → HoldsClients D.state w clients.old
        → HavePlansBelow D.state n clients.old.clients → IfErr result
        (IsNumberCauseWithin n (length (client_pairs (client_at w client) table)) (client_at w client)) }
    ensures cause { HasCause D.state client clients.old.clients clients.new.clients result }
    ensures plans { (w : AWorld) (n : ℕ) → HoldsClients D.state w clients.old
        → HavePlansBelow D.state n clients.old.clients → HavePlansBelow D.state
        (suc (length (client_pairs (client_at w client) table)) + n) clients.new.clients }
{
    let mut pairs: RowPairs = Sequence::new(alloc);
    let found = clients.resolvable(client, table, by, &mut pairs)?;
    match number_in(&found) {
        Some(count) => resolve_each(clients, client, table, by, pairs, count),
        None => Ok(found),
    }
}
