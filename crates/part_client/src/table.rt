//! What a client keeps of one table's parts.
ghost use Rattle.std.specs.Prelude.{◌≡◌, ◌⊎◌, ◌<◌, ℕ, List, [], ◌++◌, true, Some, None, IfOk, OnOk, OnErr, MatchOption};
ghost use Rattle.std.specs.Prelude.{◌&&◌, false, cond, option_map, if◌then◌else◌};
ghost use Rattle.std.specs.List.{find, list_all};
ghost use Rattle.std.specs.BTreeMap as tree;
ghost use Rattle.std.specs.BTreeMap.{is_at};
ghost use Rattle.assemblies.specs.Gathering.{is_whole};
ghost use Rattle.assemblies.specs.Places.{has_places};
ghost use Rattle.step_tables.specs.Client.{row_cmp};
ghost use Rattle.step_tables.specs.ClientMoves.{TableDisk};
ghost use Rattle.step_tables.specs.Travels as travels;
ghost use Rattle.step_tables.specs.Travels.{message_of};
ghost use Rattle.step_tables.specs.declared.message.Message.TheVariants as wholes;
ghost use Rattle.part_tables.specs.Parts.{Part, BringsDown};
ghost use Rattle.part_tables.specs.ClientParts.{Answering, is_of_table, without_table};
ghost use Rattle.part_tables.specs.ClientParts as at_client;
ghost use Rattle.part_tables.specs.Arriving.{WholeRow, is_of_row, without_row, with_torn, is_awaited, of_pull, arrived};
ghost use Rattle.part_tables.specs.Arriving as arrivals;
ghost use Rattle.message_parts.specs.Parts.{part_of, first_part, outcome_of, row_head_of, fragment_of};
ghost use Rattle.part_client.specs.Held.{IsHeldOf};
ghost use Rattle.part_client.specs.Weighing.{answering_of, whole_of, weighed_of, row_weighed_of};
ghost use Rattle.part_client.specs.Keeping.{KeepsPull, KeepsRows, KeepsTable, HasNothing, IsTakenAt, taken_of};
ghost use Rattle.part_client.specs.Calls.{table_of, row_of, may_gather, needs_row, may_complete, may_end};
ghost use Rattle.part_client.specs.Calls.{pulled_head, torn_head, pull_settled, row_settled, pulls_grown};
ghost use Rattle.part_client.specs.Calls.{is_of_version, let_go};
ghost use Rattle.part_client.specs.Calls.{is_waited, rows_grown, waits, is_row_whole, is_pull_whole, is_pull_for};
ghost use Rattle.part_client.specs.Calls.{grown_pull, grown_row};
ghost use Rattle.part_client.specs.Gathered.{is_for, with_chunk, lacks_few};
ghost use Rattle.part_client.specs.Keeping.{IsLeft};

use crate::gathered::{Gathered, is_named};
use crate::held::RowHeld;
use crate::pulls::{self, PullHead, Pulling, Weighed};
use crate::rows::{self, RowAsked, RowWeighed, TornRow};
use crate::taken::Taken;
use assemblies::Sent;
use stab_base::{RowId, Version};
use std::alloc::{AllocError, Global};
use std::collections::{BTreeMap, BTreeSet};
use table_model::{
    Message, ObjectFragment, Outcome, PullResponse, RowHeader, SyncResponse, TornRowResponse,
};

/// The answer to a pull of the table that waits for fragments, the rows that were asked for whole and wait for theirs,
/// and which rows are torn.
#[derive(Drop)]
pub(crate) struct TableParts {
    pub(crate) pull: Option<Pulling>,
    pub(crate) rows: BTreeMap<RowId, TornRow>,
    pub(crate) torn: BTreeSet<RowId>,
}

// ---- an answer to a write

fn outcome(outcome: Outcome) -> step_tables::Outcome
    ensures { travels.outcome_of result ≡ outcome_of outcome }
{
    match outcome {
        Outcome::Accepted { version } => step_tables::Outcome::Accepted { version },
        Outcome::Again { version } => step_tables::Outcome::Again { version },
        Outcome::Late { last } => step_tables::Outcome::Late { last },
        Outcome::Stale { latest } => step_tables::Outcome::Stale { latest },
        Outcome::Conflict { latest } => step_tables::Outcome::Conflict { latest },
        Outcome::NeedWhole => step_tables::Outcome::NeedWhole,
    }
}

fn whole(response: SyncResponse) -> step_tables::SyncResponse
    ensures { part_of (Message.SyncResponse response)
        ≡ Some (first_part (message_of (wholes.SyncResponse result))) }
{
    step_tables::SyncResponse {
        client: response.client,
        table: response.table,
        row: response.row,
        number: response.number,
        outcome: outcome(response.outcome),
    }
}

// ---- a fragment

// Takes a chunk of a row. Whether it waited for it.
fn take_chunk(came: &mut Gathered, f: ObjectFragment) -> bool
    ensures took { result ≡ waits (fragment_of f) came.old }
    ensures came { came.new ≡ (if waits (fragment_of f) came.old
        then with_chunk f.column f.place f.bytes came.old else came.old) }
    ensures last { result ≡ true → is_whole came.new.slots ≡ true
        → (is_for f.row f.key came.old && lacks_few came.old) ≡ true }
{
    if !came.is_for(&f.row, f.key) {
        return false;
    }
    came.take(f.column, f.place, f.bytes)
}

// Takes a chunk of the answer to a pull. Whether it waited for it.
fn grow_pull(pull: &mut Option<Pulling>, f: ObjectFragment) -> bool
    ensures took { result ≡ is_awaited (fragment_of f) (option_map answering_of pull.old) }
    ensures grown { (xs : List Answering) → KeepsPull f.table xs pull.old
        → KeepsPull f.table (pulls_grown (fragment_of f) xs (option_map answering_of pull.old)) pull.new }
    ensures last { result ≡ true → is_pull_whole (option_map answering_of pull.new) ≡ true
        → may_complete (fragment_of f) (option_map answering_of pull.old) ≡ true }
{
    match pull {
        Some(x) => take_chunk(&mut x.came, f),
        None => false,
    }
}

// Takes the answer to a pull away where each chunk has come.
fn whole_pull(pull: &mut Option<Pulling>) -> Option<Pulling>
    ensures { MatchOption result
        ((is_pull_whole (option_map answering_of pull.old) ≡ false) × (pull.new ≡ pull.old))
        (λ x. (pull.old ≡ Some x) × (is_whole x.came.slots ≡ true) × (pull.new ≡ None)) }
{
    let whole = match pull {
        Some(x) => x.came.is_whole(),
        None => false,
    };
    if whole { pull.take() } else { None }
}

// Takes a chunk of a row that was asked for whole. Whether it waited for it.
fn grow_row(rows: &mut BTreeMap<RowId, TornRow>, f: ObjectFragment) -> bool
    ensures took { result ≡ is_waited (fragment_of f) (option_map whole_of (tree.get row_cmp rows.old f.row)) }
    ensures grown { (xs : List WholeRow) → KeepsRows f.table xs rows.old → KeepsRows f.table
        (rows_grown (fragment_of f) xs (option_map whole_of (tree.get row_cmp rows.old f.row))) rows.new }
    ensures last { result ≡ true → is_row_whole (option_map whole_of (tree.get row_cmp rows.new f.row)) ≡ true
        → may_end (fragment_of f) (option_map whole_of (tree.get row_cmp rows.old f.row)) ≡ true }
{
    match rows.get_mut(&f.row) {
        Some(x) => take_chunk(&mut x.came, f),
        None => false,
    }
}

fn is_whole_row(rows: &BTreeMap<RowId, TornRow>, row: &RowId) -> bool
    ensures { result ≡ is_row_whole (option_map whole_of (tree.get row_cmp rows.now row.now)) }
{
    match rows.get(row) {
        Some(x) => x.came.is_whole(),
        None => false,
    }
}

// Takes a row away of which each chunk has come.
fn whole_row(rows: &mut BTreeMap<RowId, TornRow>, row: &RowId) -> Option<TornRow>
    ensures { MatchOption result
        ((is_row_whole (option_map whole_of (tree.get row_cmp rows.old row.now)) ≡ false) × (rows.new ≡ rows.old))
        (λ x. (tree.get row_cmp rows.old row.now ≡ Some x)
        × (is_row_whole (option_map whole_of (tree.get row_cmp rows.old row.now)) ≡ true)
        × ((q : _) → tree.get row_cmp rows.new q
        ≡ cond (is_at (row_cmp row.now) q) None (tree.get row_cmp rows.old q))) }
{
    if is_whole_row(rows, row) {
        rows.remove(row)
    } else {
        None
    }
}

impl TableParts {
    /// Nothing is kept.
    pub(crate) fn new(alloc: Global) -> TableParts
        ensures { (table : ℕ) (a : arrivals.Arriving) → HasNothing table a → KeepsTable table a result }
    {
        TableParts {
            pull: None,
            rows: BTreeMap::new(alloc),
            torn: BTreeSet::new(alloc),
        }
    }

    // Keeps or ends an answer to a pull, by what it comes to.
    fn settle_pull(&mut self, weighed: Weighed) -> Result<Taken, AllocError>
        ensures settled { (table : ℕ) (a : arrivals.Arriving) → KeepsTable table a self.old
            → list_all (is_of_table table) (weighed_of weighed).answerings ≡ true
            → IfOk result (IsTakenAt table (pull_settled table a (weighed_of weighed)) self.new) }
        ensures memory { (table : ℕ) (a : arrivals.Arriving) → KeepsTable table a self.old
            → OnErr result (KeepsTable table a self.new) }
    {
        match weighed {
            Weighed::Whole(message) => {
                self.pull = None;
                Ok(Taken::Whole(message))
            }
            Weighed::Tears(row) => {
                let _is_new = self.torn.insert(row)?;
                self.pull = None;
                Ok(Taken::Tears(row))
            }
            Weighed::Waits(x) => {
                self.pull = Some(x);
                Ok(Taken::Waits)
            }
        }
    }

    // Keeps or ends a row that was asked for whole, by what it comes to.
    fn settle_row(&mut self, row: RowId, weighed: RowWeighed) -> Result<Taken, AllocError>
        ensures settled { (table : ℕ) (a : arrivals.Arriving) → KeepsTable table a self.old
            → list_all (is_of_row table row) (row_weighed_of weighed).rows ≡ true
            → IfOk result (IsTakenAt table (row_settled table row a (row_weighed_of weighed)) self.new) }
        ensures memory { (table : ℕ) (a : arrivals.Arriving) → KeepsTable table a self.old
            → OnErr result (KeepsTable table a self.new) }
    {
        match weighed {
            RowWeighed::Whole(message) => {
                self.rows.remove(&row);
                self.torn.remove(&row);
                Ok(Taken::Whole(message))
            }
            RowWeighed::Waits(x) => {
                self.rows.insert(row, x)?;
                Ok(Taken::Waits)
            }
        }
    }

    // An answer to a pull, with a row.
    fn answer(
        &mut self,
        alloc: Global,
        held: &RowHeld,
        head: PullHead,
        row: RowHeader,
    ) -> Result<Taken, AllocError>
        requires chunk { 0 < held.now.chunk }
        requires places { has_places row.content ≡ true }
        ensures taken { (opened : TableDisk) (a : arrivals.Arriving) → KeepsTable head.table a self.old
            → IsHeldOf opened row.row held.now → IfOk result (IsTakenAt head.table (of_pull head.table a
            (at_client.answered opened a.pulls (pulled_head head row) (Some (row_head_of row)))) self.new) }
        ensures memory { (a : arrivals.Arriving) → KeepsTable head.table a self.old
            → OnErr result (KeepsTable head.table a self.new) }
    {
        if head.from != held.position {
            return Ok(Taken::Waits);
        }
        if !is_named(alloc, held.chunk, &row)? {
            return Ok(Taken::Waits);
        }
        let came = Gathered::new(alloc, held.chunk, Sent::Above(head.from), row)?;
        let weighed = pulls::weigh(alloc, held, Pulling { head, came })?;
        self.settle_pull(weighed)
    }

    // A row that was asked for whole.
    fn answer_torn(
        &mut self,
        alloc: Global,
        held: &RowHeld,
        head: RowAsked,
        row: RowHeader,
    ) -> Result<Taken, AllocError>
        requires chunk { 0 < held.now.chunk }
        requires places { has_places row.content ≡ true }
        ensures taken { (opened : TableDisk) (a : arrivals.Arriving) → KeepsTable head.table a self.old
            → IsHeldOf opened row.row held.now → IfOk result (IsTakenAt head.table (arrivals.answered opened a
            (torn_head head (Some (row_head_of row))) (Some (row_head_of row))) self.new) }
        ensures memory { (a : arrivals.Arriving) → KeepsTable head.table a self.old
            → OnErr result (KeepsTable head.table a self.new) }
    {
        if !is_named(alloc, held.chunk, &row)? {
            return Ok(Taken::Waits);
        }
        let came = Gathered::new(alloc, held.chunk, Sent::All, row)?;
        let weighed = rows::weigh(alloc, held.read, TornRow { head, came })?;
        self.settle_row(head.row, weighed)
    }

    // The Store has no such row.
    fn answer_gone(&mut self, head: RowAsked) -> Taken
        ensures { (opened : TableDisk) (a : arrivals.Arriving) → KeepsTable head.table a self.old → IsTakenAt head.table
            (arrivals.answered opened a (torn_head head None) None) self.new result }
    {
        self.rows.remove(&head.row);
        self.torn.remove(&head.row);
        Taken::Whole(rows::answer(head, None))
    }

    // What the answer to a pull comes to behind a fragment that it waited for.
    fn complete_pull(&mut self, alloc: Global, held: &RowHeld) -> Result<Taken, AllocError>
        requires chunk { 0 < held.now.chunk }
        ensures taken { (opened : TableDisk) (table : ℕ) (row : List ℕ) (a : arrivals.Arriving) (x : Answering) →
            KeepsTable table a self.old → find (is_of_table table) a.pulls ≡ Some x
            → (is_whole x.slots ≡ true → IsHeldOf opened row held.now)
            → IfOk result (IsTakenAt table (of_pull table a (grown_pull opened table row a.pulls x)) self.new) }
        ensures memory { (table : ℕ) (a : arrivals.Arriving) → KeepsTable table a self.old
            → OnErr result (KeepsTable table (record a { pulls = without_table table a.pulls }) self.new) }
    {
        match whole_pull(&mut self.pull) {
            None => Ok(Taken::Waits),
            Some(x) => {
                let weighed = pulls::weigh(alloc, held, x)?;
                self.settle_pull(weighed)
            }
        }
    }

    // What a row that was asked for whole comes to behind a fragment that it waited for.
    fn complete_row(
        &mut self,
        alloc: Global,
        held: &RowHeld,
        row: RowId,
    ) -> Result<Taken, AllocError>
        ensures taken { (opened : TableDisk) (table : ℕ) (a : arrivals.Arriving) (x : WholeRow) →
            KeepsTable table a self.old → find (is_of_row table row) a.rows ≡ Some x
            → (is_whole x.slots ≡ true → IsHeldOf opened row held.now)
            → IfOk result (IsTakenAt table (grown_row opened table row a x) self.new) }
        ensures memory { (table : ℕ) (a : arrivals.Arriving) → KeepsTable table a self.old
            → OnErr result (KeepsTable table (record a { rows = without_row table row a.rows }) self.new) }
    {
        match whole_row(&mut self.rows, &row) {
            None => Ok(Taken::Waits),
            Some(x) => {
                let weighed = rows::weigh(alloc, held.read, x)?;
                self.settle_row(row, weighed)
            }
        }
    }

    // Whether the answer to a pull is of the row and the version of a fragment.
    fn pulls(&self, f: &ObjectFragment) -> bool
        ensures { result ≡ is_pull_for (fragment_of f.now) (option_map answering_of self.now.pull) }
    {
        match &self.pull {
            Some(pull) => pull.came.is_for(&f.row, f.key),
            None => false,
        }
    }

    // Whether the answer to a pull is so, and lacks one chunk at most.
    fn may_complete(&self, f: &ObjectFragment) -> bool
        ensures { result ≡ may_complete (fragment_of f.now) (option_map answering_of self.now.pull) }
    {
        match &self.pull {
            Some(x) => x.came.is_for(&f.row, f.key) && x.came.lacks_few(),
            None => false,
        }
    }

    // Whether the row that was asked for whole is so.
    fn may_end(&self, f: &ObjectFragment) -> bool
        ensures { result ≡ may_end (fragment_of f.now)
            (option_map whole_of (tree.get row_cmp self.now.rows f.now.row)) }
    {
        match self.rows.get(&f.row) {
            Some(x) => x.came.is_for(&f.row, f.key) && x.came.lacks_few(),
            None => false,
        }
    }

    // Whether the row that was asked for whole is of the version of a fragment.
    fn is_of_version(&self, f: &ObjectFragment) -> bool
        ensures { result ≡ is_of_version (fragment_of f.now)
            (option_map whole_of (tree.get row_cmp self.now.rows f.now.row)) }
    {
        match self.rows.get(&f.row) {
            Some(x) => x.came.is_for(&f.row, f.key),
            None => false,
        }
    }

    // A copy of a fragment that the row may take where the answer to a pull doesn't.
    fn copy_for_row(&self, f: &ObjectFragment) -> Result<Option<ObjectFragment>, AllocError>
        ensures { IfOk result (λ made. MatchOption made (is_of_version (fragment_of f.now)
            (option_map whole_of (tree.get row_cmp self.now.rows f.now.row)) ≡ false) (λ g. g ≡ f.now)) }
    {
        if self.is_of_version(f) {
            Ok(Some(f.copy()?))
        } else {
            Ok(None)
        }
    }

    // A fragment to a row that was asked for whole.
    fn bring_row(
        &mut self,
        alloc: Global,
        held: &RowHeld,
        f: ObjectFragment,
    ) -> Result<Taken, AllocError>
        ensures taken { (opened : TableDisk) (a : arrivals.Arriving) → KeepsTable f.table a self.old
            → (may_end (fragment_of f) (find (is_of_row f.table f.row) a.rows) ≡ true
            → IsHeldOf opened f.row held.now) → IfOk result (IsTakenAt f.table
            (arrivals.brought_to opened a (fragment_of f) (find (is_of_row f.table f.row) a.rows)) self.new) }
        ensures memory { (a : arrivals.Arriving) → KeepsTable f.table a self.old → OnErr result
            (KeepsTable f.table (record a { rows = without_row f.table f.row a.rows }) self.new) }
    {
        let row = f.row;
        if !grow_row(&mut self.rows, f) {
            return Ok(Taken::Waits);
        }
        self.complete_row(alloc, held, row)
    }

    // A fragment of the row and the version of the answer to a pull.
    fn bring_pulled(
        &mut self,
        alloc: Global,
        held: &RowHeld,
        f: ObjectFragment,
    ) -> Result<Taken, AllocError>
        requires chunk { 0 < held.now.chunk }
        ensures taken { (opened : TableDisk) (a : arrivals.Arriving) → KeepsTable f.table a self.old
            → (needs_row a (BringsDown (fragment_of f)) ≡ true → IsHeldOf opened f.row held.now)
            → IfOk result (IsTakenAt f.table (arrived opened a (BringsDown (fragment_of f))) self.new) }
        ensures memory { (a : arrivals.Arriving) → KeepsTable f.table a self.old
            → OnErr result (IsLeft f.table a (BringsDown (fragment_of f)) self.new) }
    {
        let again = self.copy_for_row(&f)?;
        if grow_pull(&mut self.pull, f) {
            return self.complete_pull(alloc, held);
        }
        match again {
            Some(f) => self.bring_row(alloc, held, f),
            None => Ok(Taken::Waits),
        }
    }

    // A fragment to the client.
    fn bring(
        &mut self,
        alloc: Global,
        held: &RowHeld,
        f: ObjectFragment,
    ) -> Result<Taken, AllocError>
        requires chunk { 0 < held.now.chunk }
        ensures taken { (opened : TableDisk) (a : arrivals.Arriving) → KeepsTable f.table a self.old
            → (needs_row a (BringsDown (fragment_of f)) ≡ true → IsHeldOf opened f.row held.now)
            → IfOk result (IsTakenAt f.table (arrived opened a (BringsDown (fragment_of f))) self.new) }
        ensures memory { (a : arrivals.Arriving) → KeepsTable f.table a self.old
            → OnErr result (IsLeft f.table a (BringsDown (fragment_of f)) self.new) }
    {
        if self.pulls(&f) {
            self.bring_pulled(alloc, held, f)
        } else {
            self.bring_row(alloc, held, f)
        }
    }

    // An answer to a pull.
    fn take_pulled(
        &mut self,
        alloc: Global,
        held: &RowHeld,
        part: PullResponse,
    ) -> Result<Taken, AllocError>
        requires chunk { 0 < held.now.chunk }
        requires places { may_gather (part_of (Message.PullResponse part)) ≡ true }
        ensures taken { (opened : TableDisk) (a : arrivals.Arriving) (p : Part) → KeepsTable part.table a self.old
            → part_of (Message.PullResponse part) ≡ Some p
            → (needs_row a p ≡ true → IsHeldOf opened (row_of p) held.now)
            → IfOk result (IsTakenAt part.table (arrived opened a p) self.new) }
        ensures memory { (a : arrivals.Arriving) → KeepsTable part.table a self.old
            → OnErr result (KeepsTable part.table a self.new) }
    {
        let PullResponse {
            client,
            table,
            from,
            to,
            latest,
            header,
        } = part;
        let head = PullHead {
            client,
            table,
            from,
            to,
            latest,
        };
        match header {
            Some(row) => self.answer(alloc, held, head, row),
            None => Ok(Taken::Waits),
        }
    }

    // An answer to a client that asked for a row whole.
    fn take_torn(
        &mut self,
        alloc: Global,
        held: &RowHeld,
        part: TornRowResponse,
    ) -> Result<Taken, AllocError>
        requires chunk { 0 < held.now.chunk }
        requires places { may_gather (part_of (Message.TornRowResponse part)) ≡ true }
        ensures taken { (opened : TableDisk) (a : arrivals.Arriving) (p : Part) → KeepsTable part.table a self.old
            → part_of (Message.TornRowResponse part) ≡ Some p
            → (needs_row a p ≡ true → IsHeldOf opened (row_of p) held.now)
            → IfOk result (IsTakenAt part.table (arrived opened a p) self.new) }
        ensures memory { (a : arrivals.Arriving) → KeepsTable part.table a self.old
            → OnErr result (KeepsTable part.table a self.new) }
    {
        let TornRowResponse {
            client,
            table,
            row,
            header,
        } = part;
        let head = RowAsked { client, table, row };
        match header {
            Some(row) => self.answer_torn(alloc, held, head, row),
            None => Ok(self.answer_gone(head)),
        }
    }

    /// What a part of the table comes to.
    pub(crate) fn take(
        &mut self,
        alloc: Global,
        held: &RowHeld,
        part: Message,
    ) -> Result<Taken, AllocError>
        requires chunk { 0 < held.now.chunk }
        requires places { may_gather (part_of part) ≡ true }
        ensures taken { (opened : TableDisk) (a : arrivals.Arriving) (p : Part) → part_of part ≡ Some p
            → KeepsTable (table_of p) a self.old → (needs_row a p ≡ true → IsHeldOf opened (row_of p) held.now)
            → IfOk result (IsTakenAt (table_of p) (arrived opened a p) self.new) }
        ensures memory { (a : arrivals.Arriving) (p : Part) → part_of part ≡ Some p
            → KeepsTable (table_of p) a self.old → OnErr result (IsLeft (table_of p) a p self.new) }
    {
        match part {
            Message::SyncResponse(response) => {
                Ok(Taken::Whole(step_tables::Message::SyncResponse(whole(response))))
            }
            Message::PullResponse(part) => self.take_pulled(alloc, held, part),
            Message::ObjectFragment(f) => self.take_fragment(alloc, held, f),
            Message::TornRowResponse(part) => self.take_torn(alloc, held, part),
            Message::RegisterDevice(_)
            | Message::CreateTable(_)
            | Message::DropTable(_)
            | Message::SubscribeTable(_)
            | Message::UnsubscribeTable(_)
            | Message::Notify(_)
            | Message::PullRequest(_)
            | Message::SyncRequest(_)
            | Message::TornRowRequest(_)
            | Message::OperationResponse(_)
            | Message::SaveClientSubscription(_)
            | Message::RestoreClientSubscriptions(_)
            | Message::TableVersionUpdateNotification(_) => Ok(Taken::Waits),
        }
    }

    // A fragment, which may go to the Store.
    fn take_fragment(
        &mut self,
        alloc: Global,
        held: &RowHeld,
        f: ObjectFragment,
    ) -> Result<Taken, AllocError>
        requires chunk { 0 < held.now.chunk }
        ensures taken { (opened : TableDisk) (a : arrivals.Arriving) (p : Part)
            → part_of (Message.ObjectFragment f) ≡ Some p → KeepsTable f.table a self.old
            → (needs_row a p ≡ true → IsHeldOf opened (row_of p) held.now)
            → IfOk result (IsTakenAt f.table (arrived opened a p) self.new) }
        ensures memory { (a : arrivals.Arriving) (p : Part) → part_of (Message.ObjectFragment f) ≡ Some p
            → KeepsTable f.table a self.old → OnErr result (IsLeft f.table a p self.new) }
    {
        if f.down {
            self.bring(alloc, held, f)
        } else {
            Ok(Taken::Waits)
        }
    }

    /// Whether what the client holds of the row of a fragment decides what it comes to.
    pub(crate) fn fragment_needs_row(&self, f: &ObjectFragment) -> bool
        ensures { (a : arrivals.Arriving) → KeepsTable f.now.table a self.now
            → result ≡ needs_row a (BringsDown (fragment_of f.now)) }
    {
        self.may_complete(f) || self.may_end(f)
    }

    /// Notes a row as torn.
    pub(crate) fn tear(&mut self, row: RowId) -> Result<(), AllocError>
        ensures torn { (table : ℕ) (a : arrivals.Arriving) → KeepsTable table a self.old
            → OnOk result (KeepsTable table (record a { torn = with_torn table row a.torn }) self.new) }
        ensures memory { (table : ℕ) (a : arrivals.Arriving) → KeepsTable table a self.old
            → OnErr result (KeepsTable table a self.new) }
    {
        let _is_new = self.torn.insert(row)?;
        Ok(())
    }
}
