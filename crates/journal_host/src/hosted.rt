//! Calls of one client's node, what it tells put behind what was told.
ghost use Rattle.std.specs.Prelude.{◌≡◌, ◌⊎◌, ◌∷◌, ◌<◌, ◌++◌, ℕ, Bool, [], Option, Some, true, false, not, ◌&&◌};
ghost use Rattle.std.specs.Prelude.{Ok, IfOk, IfErr, OnOk, OnErr, IsErrOf, IfSome, is_some};
ghost use Rattle.std.specs.Vec.{vec_capacity, vec_len};
ghost use Rattle.stab_base.specs.declared.node.Node.TheVariants as nodes;
ghost use Rattle.table_model.specs.declared.line.Answer.TheVariants as answers;
ghost use Rattle.table_model.specs.declared.line.Refusal.TheVariants as refusals;
ghost use Rattle.step_tables.specs.ClientMoves.{Shape, Client, ClientStep, Conflicts, Take, Work, client_step};
ghost use Rattle.step_tables.specs.ClientMoves.{no_shape};
ghost use Rattle.step_tables.specs.Messages.{Message as AMessage};
ghost use Rattle.step_tables.specs.Lines.{answer_of};
ghost use Rattle.step_tables.specs.Messages as lucks;
ghost use Rattle.client_node.specs.declared.fault.CallFault.TheVariants.{Disk as DiskFailed};
ghost use Rattle.client_node.specs.Node.{IsClient, IsNode, told_by, has_task, HasPlansBelow};
ghost use Rattle.client_node.specs.Phases.{is_open, KeepsPhases};
ghost use Rattle.world_tables.specs.Ready.{is_idle};
ghost use Rattle.world_tables.specs.World.{next_write, tasks_in, idle_answer, closed_answer};
ghost use Rattle.journal_host.specs.declared.fault.ClientFault.TheVariants as faults;
ghost use Rattle.journal_host.specs.Asks.{asked_by, CanAsk, answered_as};
ghost use Rattle.journal_host.specs.NodeCalls.{Asked, Listed};
ghost use Rattle.journal_host.specs.Holds.{IsHosted, outs_in, AreSameOuts, outbox_of, says_something, said};
ghost use Rattle.journal_host.specs.Holds.{node_faults, plan_of};
ghost use Rattle.journal_host.specs.Phases.{SamePhases};
ghost use Rattle.journal_host.specs.Steps.{IsTelling, HasTold, IsMade, IsMadeOpen, IsListing};
ghost use Rattle.journal_host.specs.Steps.{OnlyLooks, IsShut, HasNodeCause};
ghost use Rattle.journal_host.specs.Steps.{HasAnswerCause, HasCrashed, IsStarted, IsNotStarted};

use crate::asking::{Request, counted, done, reply};
use crate::fault::ClientFault;
use crate::out::ClientOut;
use client_node::{CallFault, ClientNode};
use disk_trait::Disk;
use stab_base::{ClientNo, Node, Step, TableNo};
use step_tables::Out;
use table_model::{Answer, Refusal, RowPairs};

/// What a node's fault is answered by. It tells the refusals of the client from the faults of the call.
pub(crate) fn answered(found: Result<Answer, CallFault>) -> Result<Answer, ClientFault>
    ensures { result ≡ answered_as found }
{
    let refusal = match found {
        Ok(answer) => return Ok(answer),
        Err(CallFault::NoTable) => Refusal::NoTable,
        Err(CallFault::BadCell { column }) => Refusal::BadCell { column },
        Err(CallFault::BadObject { column, len }) => Refusal::BadObject { column, len },
        Err(CallFault::RowTooLarge { len }) => Refusal::RowTooLarge { len },
        Err(CallFault::TooManyChunks { count }) => Refusal::TooManyChunks { count },
        Err(CallFault::NoRow) => Refusal::NoRow,
        Err(CallFault::Busy { with }) => Refusal::Busy { with },
        Err(CallFault::NotInResolution) => Refusal::NotInResolution,
        Err(CallFault::InResolution) => Refusal::InResolution,
        Err(CallFault::NoConflict) => Refusal::NoConflict,
        Err(CallFault::Moved { seen, now }) => Refusal::Moved { seen, now },
        Err(CallFault::Offline) => Refusal::Offline,
        Err(CallFault::Outstanding { number }) => Refusal::Outstanding { number },
        Err(CallFault::Conflicted { version }) => Refusal::Conflicted { version },
        Err(CallFault::Disk) => Refusal::NoDevice,
        Err(CallFault::Spent { .. }) => return Err(ClientFault::Spent),
        Err(CallFault::Memory) => return Err(ClientFault::Memory),
    };
    Ok(Answer::Refused(refusal))
}

/// Whether a client takes a message now: its link isn't down, and it is up and has no write to do.
pub(crate) fn is_ready<D: Disk + Drop>(node: &ClientNode<D>) -> bool
    ensures { (cut : Bool) (c : ℕ) (s : Client) → IsHosted D.state cut c s node.now
        → result ≡ (not cut && is_idle s.agenda) }
{
    node.is_linked() && node.is_up() && !node.is_busy()
}

/// The plan that a client is at work on; none where it has no write to do.
pub(crate) fn plan_at<D: Disk + Drop>(node: &ClientNode<D>) -> Option<u64>
    requires { IsNode D.state node.now }
    ensures busy { (s : Client) → IsClient D.state node.now s → is_some result ≡ has_task s.agenda }
    ensures plan { IfSome result (λ plan. plan ≡ plan_of D.state node.now) }
{
    if node.is_busy() {
        return Some(node.plan_at_work());
    }
    None
}

// Whether there is a fact or a message.
fn says_something(it: &ClientOut) -> bool
    ensures { (owners : ℕ → ℕ) → result ≡ says_something (outbox_of owners it.now) }
{
    if it.out.facts.len() != 0 {
        return true;
    }
    it.out.messages.len() != 0
}

// Adds what a client told and sent where there is room for it, unless it is nothing.
fn put(outs: &mut Vec<ClientOut>, it: ClientOut)
    requires { vec_len outs.old < vec_capacity outs.old }
    ensures { (owners : ℕ → ℕ) → outs_in owners outs.new.items
        ≡ outs_in owners outs.old.items ++ said (outbox_of owners it ∷ []) }
{
    if says_something(&it) {
        outs.push(it).unwrap();
    }
}

// Puts what the node tells and sends behind what was told. It takes no memory.
fn tell<D: Disk + Drop>(node: &mut ClientNode<D>, outs: &mut Vec<ClientOut>, client: ClientNo)
    requires { vec_len outs.old < vec_capacity outs.old }
    ensures told { (cut : Bool) (s : ClientStep) → IsTelling D.state cut client s node.old
        → HasTold D.state cut client s node.new outs.old.items outs.new.items }
    ensures devs { node.new.devs ≡ node.old.devs }
    ensures up { node.new.is_up ≡ node.old.is_up }
    ensures declared { node.new.is_declared ≡ node.old.is_declared }
    ensures phases { node.new.phases ≡ node.old.phases }
    ensures plans { (n : ℕ) → HasPlansBelow D.state n node.old → HasPlansBelow D.state n node.new }
{
    let out = node.take_out();
    put(outs, ClientOut { client, out });
}

// Asks a node that is up about a table that it hasn't closed.
fn call_up<D: Disk + Drop>(
    node: &mut ClientNode<D>,
    outs: &mut Vec<ClientOut>,
    client: ClientNo,
    request: Request,
    pairs: &mut RowPairs,
) -> Result<Answer, ClientFault>
    requires node { IsNode D.state node.old }
    requires up { node.old.is_up ≡ true }
    requires may { CanAsk request }
    ensures { Asked D.state client request
        (λ cut s answer. IsMadeOpen D.state (is_open node.old) cut client s (asked_by (Some s) request) node.new
        outs.old.items outs.new.items answer)
        node.old node.new outs.old.items outs.new.items pairs.new result }
{
    outs.reserve(1)?;
    let found = reply(node, request, pairs);
    tell(node, outs, client);
    answered(found)
}

// What a node that is up answers to a message that it has no use for, where its link is up.
fn idle_answer<D: Disk + Drop>(node: &ClientNode<D>) -> Answer
    requires { IsNode D.state node.now }
    ensures { (s : Client) → IsClient D.state node.now s
        → (shape : Shape) × (idle_answer shape s.agenda ≡ answer_of result) }
{
    match plan_at(node) {
        Some(with) => Answer::Refused(Refusal::Busy { with }),
        None => Answer::Done,
    }
}

// What it answers to one, whether its link is up or not.
fn unused_answer<D: Disk + Drop>(node: &ClientNode<D>) -> Answer
    requires { IsNode D.state node.now }
    ensures { (s : Client) (message : AMessage) → IsClient D.state node.now s → (shape : Shape)
        × (closed_answer shape (not node.now.is_linked) s.agenda (Take message) ≡ answer_of result) }
{
    if node.is_linked() {
        return idle_answer(node);
    }
    Answer::Refused(Refusal::Offline)
}

// What it answers about a table that it has closed: it refuses a call, and has no use for a message.
fn shut_answer<D: Disk + Drop>(node: &ClientNode<D>, request: &Request) -> Answer
    requires { IsNode D.state node.now }
    ensures { (s : Client) (o : Option Client) → IsClient D.state node.now s → (shape : Shape)
        × (closed_answer shape (not node.now.is_linked) s.agenda (asked_by o request.now) ≡ answer_of result) }
{
    if request.is_message() {
        return unused_answer(node);
    }
    Answer::Refused(Refusal::NoTable)
}

// Whether a node that is up has closed the table that it is asked about.
fn is_shut<D: Disk + Drop>(node: &mut ClientNode<D>, request: &Request) -> Result<bool, CallFault>
    requires node { IsNode D.state node.old }
    requires up { node.old.is_up ≡ true }
    ensures shut { (s : Client) → IsClient D.state node.old s
        → IfOk result (λ closed. IsShut s (asked_by (Some s) request.now) closed) }
    ensures looks { (s : Client) → IsClient D.state node.old s → OnlyLooks D.state s node.old node.new result }
    ensures node { IsNode D.state node.new }
    ensures phases { KeepsPhases node.old node.new }
    ensures plans { (n : ℕ) → HasPlansBelow D.state n node.old → OnOk result (HasPlansBelow D.state n node.new) }
{
    match request.table() {
        Some(table) => node.has_closed(table),
        None => Ok(false),
    }
}

// Asks a node that is up.
fn call_guarded<D: Disk + Drop>(
    node: &mut ClientNode<D>,
    outs: &mut Vec<ClientOut>,
    client: ClientNo,
    request: Request,
    pairs: &mut RowPairs,
) -> Result<Answer, ClientFault>
    requires node { IsNode D.state node.old }
    requires up { node.old.is_up ≡ true }
    requires may { CanAsk request }
    ensures { Asked D.state client request
        (λ cut s answer. IsMade D.state (is_open node.old) cut client s (asked_by (Some s) request) node.new
        outs.old.items outs.new.items answer)
        node.old node.new outs.old.items outs.new.items pairs.new result }
{
    match is_shut(node, &request) {
        Ok(false) => call_up(node, outs, client, request, pairs),
        Ok(true) => Ok(shut_answer(node, &request)),
        Err(fault) => answered(Err(fault)),
    }
}

/// Asks a node. One that is down refuses. The rows that can all be resolved are handed over.
pub(crate) fn call<D: Disk + Drop>(
    node: &mut ClientNode<D>,
    outs: &mut Vec<ClientOut>,
    client: ClientNo,
    request: Request,
    pairs: &mut RowPairs,
) -> Result<Answer, ClientFault>
    requires node { IsNode D.state node.old }
    requires may { CanAsk request }
    ensures asked { Asked D.state client request
        (λ cut s answer. node.old.is_up ≡ true → IsMade D.state (is_open node.old) cut client s
        (asked_by (Some s) request) node.new outs.old.items outs.new.items answer)
        node.old node.new outs.old.items outs.new.items pairs.new result }
    ensures down { node.old.is_up ≡ false → (node.new ≡ node.old) × (outs.new.items ≡ outs.old.items)
        × IfOk result (λ answer. answer ≡ answers.Refused (refusals.Down (nodes.Client client))) }
{
    if node.is_up() {
        return call_guarded(node, outs, client, request, pairs);
    }
    Ok(Answer::Refused(Refusal::Down {
        node: Node::Client(client),
    }))
}

// Asks a node that is up for the rows in conflict of a table that it hasn't closed.
fn list_up<D: Disk + Drop>(
    node: &mut ClientNode<D>,
    outs: &mut Vec<ClientOut>,
    client: ClientNo,
    table: TableNo,
    pairs: &mut RowPairs,
) -> Result<Answer, ClientFault>
    requires node { IsNode D.state node.old }
    requires up { node.old.is_up ≡ true }
    ensures { Listed D.state client
        (λ cut s answer. IsListing D.state (is_open node.old) cut client s table node.new outs.old.items outs.new.items
        pairs.new answer)
        (λ cut s answer. IsMadeOpen D.state (is_open node.old) cut client s (Conflicts table) node.new outs.old.items
        outs.new.items answer)
        node.old node.new outs.old.items outs.new.items pairs.old pairs.new result }
{
    outs.reserve(1)?;
    let found = node.conflicted(table);
    let count = counted(found, pairs);
    tell(node, outs, client);
    answered(count)
}

// Asks a node that is up for the rows in conflict of a table.
fn list_guarded<D: Disk + Drop>(
    node: &mut ClientNode<D>,
    outs: &mut Vec<ClientOut>,
    client: ClientNo,
    table: TableNo,
    pairs: &mut RowPairs,
) -> Result<Answer, ClientFault>
    requires node { IsNode D.state node.old }
    requires up { node.old.is_up ≡ true }
    ensures { Listed D.state client
        (λ cut s answer. IsShut s (Conflicts table) false × IsListing D.state (is_open node.old) cut client s table
        node.new outs.old.items outs.new.items pairs.new answer)
        (λ cut s answer. IsMade D.state (is_open node.old) cut client s (Conflicts table) node.new outs.old.items
        outs.new.items answer)
        node.old node.new outs.old.items outs.new.items pairs.old pairs.new result }
{
    match node.has_closed(table) {
        Ok(false) => list_up(node, outs, client, table, pairs),
        Ok(true) => Ok(Answer::Refused(Refusal::NoTable)),
        Err(fault) => answered(Err(fault)),
    }
}

/// Asks a node for the rows in conflict of a table: how many there are. One that is down refuses.
pub(crate) fn list<D: Disk + Drop>(
    node: &mut ClientNode<D>,
    outs: &mut Vec<ClientOut>,
    client: ClientNo,
    table: TableNo,
    pairs: &mut RowPairs,
) -> Result<Answer, ClientFault>
    requires { IsNode D.state node.old }
    ensures listed { Listed D.state client
        (λ cut s answer. node.old.is_up ≡ true → IsShut s (Conflicts table) false × IsListing D.state
        (is_open node.old) cut client s table node.new outs.old.items outs.new.items pairs.new answer)
        (λ cut s answer. node.old.is_up ≡ true → IsMade D.state (is_open node.old) cut client s (Conflicts table)
        node.new outs.old.items outs.new.items answer)
        node.old node.new outs.old.items outs.new.items pairs.old pairs.new result }
    ensures down { node.old.is_up ≡ false → (node.new ≡ node.old) × (outs.new.items ≡ outs.old.items)
        × (pairs.new ≡ pairs.old)
        × IfOk result (λ answer. answer ≡ answers.Refused (refusals.Down (nodes.Client client))) }
{
    if node.is_up() {
        return list_guarded(node, outs, client, table, pairs);
    }
    Ok(Answer::Refused(Refusal::Down {
        node: Node::Client(client),
    }))
}

/// Takes the link of a node up or down. One that is down refuses.
pub(crate) fn link<D: Disk + Drop>(node: &mut ClientNode<D>, client: ClientNo, up: bool) -> Answer
    ensures linked { (cut : Bool) (s : Client) → IsHosted D.state cut client s node.old → node.old.is_up ≡ true
        → IsHosted D.state (not up) client s node.new × (result ≡ answers.Done) }
    ensures down { node.old.is_up ≡ false → (node.new ≡ node.old)
        × (result ≡ answers.Refused (refusals.Down (nodes.Client client))) }
    ensures phases { SamePhases node.old node.new }
    ensures counted { node_faults D.state node.new ≡ node_faults D.state node.old }
    ensures plans { (n : ℕ) → HasPlansBelow D.state n node.old → HasPlansBelow D.state n node.new }
{
    if node.is_up() {
        node.link(up);
        return Answer::Done;
    }
    Answer::Refused(Refusal::Down {
        node: Node::Client(client),
    })
}

// Does the next write of a node that is up.
fn work_up<D: Disk + Drop>(
    node: &mut ClientNode<D>,
    outs: &mut Vec<ClientOut>,
    client: ClientNo,
) -> Result<Step, CallFault>
    requires node { IsNode D.state node.old }
    requires up { node.old.is_up ≡ true }
    ensures done { (cut : Bool) (s : Client) → IsHosted D.state cut client s node.old → IfOk result (λ step.
        HasTold D.state cut client (client_step client no_shape s (Work lucks.Done)) node.new outs.old.items
        outs.new.items × (step ≡ next_write (tasks_in s.agenda))) }
    ensures failed { (cut : Bool) (s : Client) → IsHosted D.state cut client s node.old → IsErrOf result DiskFailed
        → HasTold D.state cut client (client_step client no_shape s (Work lucks.FailedBefore)) node.new outs.old.items
        outs.new.items
        ⊎ HasTold D.state cut client (client_step client no_shape s (Work lucks.FailedAfter)) node.new outs.old.items
        outs.new.items }
    ensures phases { KeepsPhases node.old node.new }
    ensures cause { HasNodeCause D.state node.old node.new result }
    ensures plans { (n : ℕ) → HasPlansBelow D.state n node.old → HasPlansBelow D.state n node.new }
{
    outs.reserve(1)?;
    let done = node.work();
    tell(node, outs, client);
    done
}

/// Does a node's next write, if there is one, and puts what it tells and sends behind what was told.
pub(crate) fn work<D: Disk + Drop>(
    node: &mut ClientNode<D>,
    outs: &mut Vec<ClientOut>,
    client: ClientNo,
) -> Result<Step, CallFault>
    requires { IsNode D.state node.old }
    ensures done { (cut : Bool) (s : Client) → IsHosted D.state cut client s node.old → IfOk result (λ step.
        HasTold D.state cut client (client_step client no_shape s (Work lucks.Done)) node.new outs.old.items
        outs.new.items × (step ≡ next_write (tasks_in s.agenda))) }
    ensures failed { (cut : Bool) (s : Client) → IsHosted D.state cut client s node.old → IsErrOf result DiskFailed
        → HasTold D.state cut client (client_step client no_shape s (Work lucks.FailedBefore)) node.new outs.old.items
        outs.new.items
        ⊎ HasTold D.state cut client (client_step client no_shape s (Work lucks.FailedAfter)) node.new outs.old.items
        outs.new.items }
    ensures busy { (s : Client) → IsClient D.state node.old s → IsErrOf result DiskFailed → has_task s.agenda ≡ true }
    ensures phases { KeepsPhases node.old node.new }
    ensures cause { HasNodeCause D.state node.old node.new result }
    ensures plans { (n : ℕ) → HasPlansBelow D.state n node.old → HasPlansBelow D.state n node.new }
{
    if node.is_busy() {
        return work_up(node, outs, client);
    }
    Ok(Step::Idle)
}

/// Crashes the node inside its next write, if it is up. It takes no memory.
pub(crate) fn crash<D: Disk + Drop>(node: &mut ClientNode<D>, calls: u32, pick: u64)
    requires { IsNode D.state node.old }
    ensures crashed { (cut : Bool) (c : ℕ) (s : Client) → IsHosted D.state cut c s node.old
        → HasCrashed D.state cut c calls s node.old node.new }
    ensures phases { KeepsPhases node.old node.new }
    ensures plans { (n : ℕ) → HasPlansBelow D.state n node.old → HasPlansBelow D.state n node.new }
{
    if node.is_up() {
        node.crash(calls, pick);
    }
}

// Starts a node that is down.
fn start_down<D: Disk + Drop>(
    node: &mut ClientNode<D>,
    outs: &mut Vec<ClientOut>,
    client: ClientNo,
) -> Result<Answer, ClientFault>
    requires node { IsNode D.state node.old }
    requires down { node.old.is_up ≡ false }
    requires quiet { told_by node.old ≡ [] }
    ensures started { (cut : Bool) (s : Client) → IsHosted D.state cut client s node.old → IfOk result (λ answer.
        IsStarted D.state cut client s node.new outs.old.items outs.new.items answer
        ⊎ IsNotStarted D.state cut client s node.new outs.old.items outs.new.items answer) }
    ensures kept { (cut : Bool) (s : Client) → IsHosted D.state cut client s node.old
        → OnErr result (IsHosted D.state cut client s node.new × AreSameOuts outs.old.items outs.new.items) }
    ensures phases { KeepsPhases node.old node.new }
    ensures cause { HasAnswerCause D.state node.old node.new result }
    ensures memory { IfErr result (λ e. e ≡ faults.Memory) }
    ensures plans { (n : ℕ) → HasPlansBelow D.state n node.old → HasPlansBelow D.state n node.new }
{
    outs.reserve(1)?;
    let started = node.start();
    tell(node, outs, client);
    answered(done(started))
}

/// Starts the node, unless it is up, and puts what it tells behind what was told.
pub(crate) fn start<D: Disk + Drop>(
    node: &mut ClientNode<D>,
    outs: &mut Vec<ClientOut>,
    client: ClientNo,
) -> Result<Answer, ClientFault>
    requires node { IsNode D.state node.old }
    requires quiet { told_by node.old ≡ [] }
    ensures started { (cut : Bool) (s : Client) → IsHosted D.state cut client s node.old → IfOk result (λ answer.
        IsStarted D.state cut client s node.new outs.old.items outs.new.items answer
        ⊎ IsNotStarted D.state cut client s node.new outs.old.items outs.new.items answer) }
    ensures kept { (cut : Bool) (s : Client) → IsHosted D.state cut client s node.old
        → OnErr result (IsHosted D.state cut client s node.new × AreSameOuts outs.old.items outs.new.items) }
    ensures phases { KeepsPhases node.old node.new }
    ensures cause { HasAnswerCause D.state node.old node.new result }
    ensures memory { IfErr result (λ e. e ≡ faults.Memory) }
    ensures plans { (n : ℕ) → HasPlansBelow D.state n node.old → HasPlansBelow D.state n node.new }
{
    if node.is_up() {
        return Ok(Answer::Done);
    }
    start_down(node, outs, client)
}
