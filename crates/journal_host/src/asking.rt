//! What a client is asked for, and what its node makes of it.
ghost use Rattle.std.specs.Prelude.{◌≡◌, ℕ, true, length, Option, Some, Ok, IfOk, IfErr, IsErrOf};
ghost use Rattle.table_model.specs.declared.line.Answer.TheVariants as answers;
ghost use Rattle.step_tables.specs.ClientMoves.{Client};
ghost use Rattle.client_node.specs.declared.fault.CallFault.TheVariants.{Spent};
ghost use Rattle.client_node.specs.Does.{HasNoNumber};
ghost use Rattle.client_node.specs.Node.{IsClient, IsNode};
ghost use Rattle.journal_host.specs.Asks.{move_of, asked_by, ask_table, request_table, is_message, CanAsk};
ghost use Rattle.journal_host.specs.Asks.{FitsDisk, AreAsked, as_answer};
ghost use Rattle.journal_host.specs.Phases.{MovesPhases, answer_in};
ghost use Rattle.journal_host.specs.Steps.{HasMade, HasDropped, Replies};

use client_node::{CallFault, ClientNode};
use conflicts::{Choice, Stored};
use disk_trait::Disk;
use row_edits::Edit;
use row_value::{Content, Schema};
use stab_base::{RowId, Sequence, Step, TableNo, Version};
use step_tables::Message;
use table_model::{Answer, RowPairs, Shown};

/// What a client is asked for by a call.
#[derive(Drop)]
pub enum Ask {
    /// To write a row whole. It is answered by the number of the write that was begun.
    Write {
        table: TableNo,
        row: RowId,
        content: Content,
    },
    /// To write what an edit makes of the content that is shown. It is answered by the number of the write.
    Edit {
        table: TableNo,
        row: RowId,
        edit: Edit,
    },
    /// To show a row, whatever is still to be done.
    Show {
        table: TableNo,
        row: RowId,
    },
    /// To show a row with its objects by their digests.
    Sum {
        table: TableNo,
        row: RowId,
    },
    /// To send a table's writes. It is answered by how many requests that are.
    Sync {
        table: TableNo,
    },
    /// To ask for a table's next change.
    Pull {
        table: TableNo,
    },
    /// To resolve the conflicts of a table from now on, and write none of its rows.
    BeginCr {
        table: TableNo,
    },
    /// To resolve them no more.
    EndCr {
        table: TableNo,
    },
    /// To resolve the conflict of a row with the version that was seen. It is answered by the number of the write that
    /// was begun, or 0.
    Resolve {
        table: TableNo,
        row: RowId,
        seen: Version,
        choice: Choice,
    },
}

impl Ask {
    // The table that it is about, where a closed one isn't for it.
    fn table(&self) -> Option<TableNo>
        ensures { result ≡ ask_table self.now }
    {
        match self {
            Ask::Write { table, .. }
            | Ask::Edit { table, .. }
            | Ask::Show { table, .. }
            | Ask::Sum { table, .. }
            | Ask::Sync { table }
            | Ask::Pull { table }
            | Ask::BeginCr { table }
            | Ask::EndCr { table }
            | Ask::Resolve { table, .. } => Some(*table),
        }
    }
}

/// What a client is asked for, or a message for it.
#[derive(Drop)]
pub(crate) enum Request {
    Ask(Ask),
    Deliver(Message),
    /// The rows in conflict of a table, where they can all be resolved in this way now.
    Resolvable {
        table: TableNo,
        by: Stored,
    },
    /// To resolve the conflict of a row with the version that was seen, as this way chooses.
    ResolveBy {
        table: TableNo,
        row: RowId,
        seen: Version,
        by: Stored,
    },
    /// To tell rows of a table as torn, and to ask for rows whole in place of its next change.
    AskWhole {
        table: TableNo,
        tears: Sequence<RowId>,
        asks: Sequence<RowId>,
    },
    /// To open a table that isn't there.
    Open {
        table: TableNo,
        schema: Schema,
    },
    /// To close a table for good.
    Close {
        table: TableNo,
    },
}

impl Request {
    /// The table that it is about, where a closed one isn't for it.
    pub(crate) fn table(&self) -> Option<TableNo>
        ensures { result ≡ request_table self.now }
    {
        match self {
            Request::Ask(ask) => ask.table(),
            Request::Deliver(message) => Some(message.table()),
            Request::Resolvable { table, .. }
            | Request::ResolveBy { table, .. }
            | Request::AskWhole { table, .. } => Some(*table),
            Request::Open { .. } | Request::Close { .. } => None,
        }
    }

    /// Whether it is a message.
    pub(crate) fn is_message(&self) -> bool
        ensures { result ≡ is_message self.now }
    {
        matches!(self, Request::Deliver(_))
    }
}

/// What was begun or done has this number.
pub(crate) fn numbered(found: Result<u64, CallFault>) -> Result<Answer, CallFault>
    ensures { result ≡ as_answer answers.Number found }
{
    match found {
        Ok(number) => Ok(Answer::Number(number)),
        Err(fault) => Err(fault),
    }
}

fn shown(found: Result<Shown, CallFault>) -> Result<Answer, CallFault>
    ensures { result ≡ as_answer answers.Shown found }
{
    match found {
        Ok(shown) => Ok(Answer::Shown(shown)),
        Err(fault) => Err(fault),
    }
}

/// This write was done.
pub(crate) fn did(found: Result<Step, CallFault>) -> Result<Answer, CallFault>
    ensures { result ≡ as_answer answers.Did found }
{
    match found {
        Ok(step) => Ok(Answer::Did(step)),
        Err(fault) => Err(fault),
    }
}

/// What a call that gives nothing back is answered by.
pub(crate) fn done(found: Result<(), CallFault>) -> Result<Answer, CallFault>
    ensures { result ≡ as_answer (λ value. answers.Done) found }
{
    match found {
        Ok(()) => Ok(Answer::Done),
        Err(fault) => Err(fault),
    }
}

/// How many rows in conflict were found. They are handed over.
pub(crate) fn counted(
    found: Result<RowPairs, CallFault>,
    pairs: &mut RowPairs,
) -> Result<Answer, CallFault>
    ensures answer { result ≡ as_answer (λ listed. answers.Number (length listed)) found }
    ensures listed { IfOk found (λ listed. pairs.new ≡ listed) }
    ensures kept { IfErr found (λ e. pairs.new ≡ pairs.old) }
{
    match found {
        Ok(listed) => {
            let count = listed.len() as u64;
            *pairs = listed;
            Ok(Answer::Number(count))
        }
        Err(fault) => Err(fault),
    }
}

// What a node that is up answers to a call.
fn answer<D: Disk + Drop>(node: &mut ClientNode<D>, ask: Ask) -> Result<Answer, CallFault>
    requires node { IsNode D.state node.old }
    requires up { node.old.is_up ≡ true }
    ensures made { (s : Client) → IsClient D.state node.old s → Replies D.state D.images s (move_of ask) node.old
        node.new (HasMade D.state s (move_of ask) node.old node.new) result }
    ensures spent { (s : Client) → IsClient D.state node.old s → (last : ℕ) → IsErrOf result (Spent last)
        → HasNoNumber D.state node.old s.disk }
    ensures phases { MovesPhases (move_of ask) (answer_in result) node.old node.new }
    ensures declared { node.new.is_declared ≡ node.old.is_declared }
{
    match ask {
        Ask::Write {
            table,
            row,
            content,
        } => numbered(node.write(table, row, content)),
        Ask::Edit { table, row, edit } => numbered(node.edit(table, row, &edit)),
        Ask::Show { table, row } => shown(node.read(table, &row)),
        Ask::Sum { table, row } => node.sum(table, &row),
        Ask::Sync { table } => numbered(node.sync_now(table)),
        Ask::Pull { table } => done(node.pull_now(table)),
        Ask::BeginCr { table } => done(node.begin_cr(table)),
        Ask::EndCr { table } => done(node.end_cr(table)),
        Ask::Resolve {
            table,
            row,
            seen,
            choice,
        } => numbered(node.resolve(table, row, seen, choice)),
    }
}

/// What a node that is up answers. The rows that can all be resolved are handed over.
pub(crate) fn reply<D: Disk + Drop>(
    node: &mut ClientNode<D>,
    request: Request,
    pairs: &mut RowPairs,
) -> Result<Answer, CallFault>
    requires node { IsNode D.state node.old }
    requires up { node.old.is_up ≡ true }
    requires may { CanAsk request }
    ensures made { (s : Client) → IsClient D.state node.old s → FitsDisk s.disk request
        → Replies D.state D.images s (asked_by (Some s) request) node.old node.new
        (HasMade D.state s (asked_by (Some s) request) node.old node.new) result }
    ensures dropped { (s : Client) → IsClient D.state node.old s → (FitsDisk s.disk request → ⊥)
        → Replies D.state D.images s (asked_by (Some s) request) node.old node.new
        (HasDropped D.state s node.old node.new) result }
    ensures spent { (s : Client) → IsClient D.state node.old s → FitsDisk s.disk request → (last : ℕ)
        → IsErrOf result (Spent last) → HasNoNumber D.state node.old s.disk }
    ensures pairs { (s : Client) (count : ℕ) → IsClient D.state node.old s → result ≡ Ok (answers.Number count)
        → AreAsked (Some s) request pairs.new }
    ensures phases { (s : Option Client)
        → MovesPhases (asked_by s request) (answer_in result) node.old node.new }
    ensures declared { node.new.is_declared ≡ node.old.is_declared }
{
    match request {
        Request::Ask(ask) => answer(node, ask),
        Request::Deliver(message) => done(node.deliver(message)),
        Request::Resolvable { table, by } => counted(node.resolvable(table, by), pairs),
        Request::ResolveBy {
            table,
            row,
            seen,
            by,
        } => numbered(node.resolve_by(table, row, seen, by)),
        Request::AskWhole { table, tears, asks } => {
            done(node.ask_whole(table, tears.as_slice(), asks.as_slice()))
        }
        Request::Open { table, schema } => done(node.open_table(table, schema)),
        Request::Close { table } => done(node.close_table(table)),
    }
}
