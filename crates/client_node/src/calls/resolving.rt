//! How a client resolves the conflict of a row.
ghost use Rattle.std.specs.Prelude.{◌≡◌, ◌∷◌, ℕ, Bool, [], true, IfSome, IfOk, IfErr, OnOk};
ghost use Rattle.value_codec.specs.SchemaSpelling.{HasSchemaSpelling};
ghost use Rattle.conflicts.specs.declared.pair.Choice.TheVariants as chosen;
ghost use Rattle.client_tables.specs.Transitions.{resolved};
ghost use Rattle.client_journal.specs.Standing.{devs as held_by, writes_of, AreUp, IsReady};
ghost use Rattle.step_tables.specs.ClientMoves.{Client, ClientDisk, Resolve, slots_of, seen as seen_disk};
ghost use Rattle.step_tables.specs.Facts.{Number};
ghost use Rattle.client_node.specs.Answers.{record_at};
ghost use Rattle.client_node.specs.Does.{Does};
ghost use Rattle.client_node.specs.Looks.{Looks};
ghost use Rattle.client_node.specs.Node.{StandsFor, IsClient, IsNode};
ghost use Rattle.client_node.specs.Phases.{KeepsPhases};
ghost use Rattle.client_node.specs.declared.waiting.Waiting.{Waiting};
ghost use Rattle.client_node.specs.Preparing.{IsOpenedRow, MakesChange, IsSpent, wrote, Prepares};
ghost use Rattle.client_node.specs.Resolving.{IsUnchosen, IsChosen, IsMineAgain, IsTheirsRead, IsNewOver, IsResolved};
ghost use Rattle.client_node.specs.Resolving.{IsUnresolved, IsNoneResolved, resolved_fact, write_over};
ghost use Rattle.client_node.specs.Resolving.{IsChosenBy, ArePairOf, IsByAnswer};

use crate::calls::choosing::{check_seen, choose_by, choose_with};
use crate::calls::phases::check_open;
use crate::fault::CallFault;
use crate::looking::check_idle;
use crate::node::ClientNode;
use crate::planning::Planned;
use crate::preparing::{
    Gate, OpenedRow, Prepared, hold_new, know_words, next_write, open_row, plan_for,
};
use crate::row_plan::last_write;
use crate::telling::read_content;
use client_journal::Journal;
use client_tables::{BroughtChunks, HeldChoice, plan_resolve};
use conflicts::{Choice, Resolver, Stored};
use disk_trait::Disk;
use held_contents::HeldNew;
use held_value::{Main, Shadow};
use row_value::{Content, fits};
use stab_base::{ClientNo, RowId, TableNo, Version, WriteNo};
use std::alloc::{AllocError, Global};
use table_model::{ClientFact, Fact, Write};

// ---- what is told

// That the conflict of a row is resolved.
fn tell_resolved(client: ClientNo, at: &OpenedRow, main: &Main, row: &Shadow) -> Fact
    ensures { result ≡ resolved_fact client at.now main.now row.now }
{
    Fact::Client(ClientFact::Resolved {
        client,
        number: main.number,
        table: at.table,
        row: at.row,
        version: row.version,
    })
}

// The write of a row over the one that it was in conflict with.
fn write_over(
    client: ClientNo,
    number: WriteNo,
    at: &OpenedRow,
    row: &Shadow,
    content: Content,
) -> Write
    ensures { result ≡ write_over client number at.now row.now content }
{
    Write {
        client,
        number,
        table: at.table,
        row: at.row,
        read: row.version,
        content,
    }
}

// ---- the plan

// The plan of a resolution under this last number, which tells these.
fn plan_choice(
    alloc: Global,
    at: &OpenedRow,
    last: WriteNo,
    number: WriteNo,
    choice: HeldChoice,
    brought: BroughtChunks,
    facts: Vec<Fact>,
) -> Result<Planned, AllocError>
    ensures makes { IfOk result (MakesChange at.now.slots (resolved at.now.slots number choice) brought at.now.table
        last at.now.row) }
    ensures facts { IfOk result (λ planned. planned.facts.items ≡ facts.items) }
    ensures messages { IfOk result (λ planned. planned.messages.items ≡ []) }
{
    let made = plan_resolve(alloc, &at.slots, number, choice, brought)?;
    Ok(Planned {
        plan: plan_for(at.table, last, at.row, made),
        facts,
        messages: Vec::new(alloc),
    })
}

// What is told of a resolution by a write.
fn tell_both(
    alloc: Global,
    client: ClientNo,
    at: &OpenedRow,
    main: &Main,
    row: &Shadow,
    write: Write,
) -> Result<Vec<Fact>, AllocError>
    ensures { IfOk result (λ facts. facts.items ≡ resolved_fact client at.now main.now row.now ∷ wrote write ∷ []) }
{
    Ok(vec![in alloc;
        tell_resolved(client, at, main, row),
        Fact::Client(ClientFact::Wrote(write)),
    ]?)
}

// By the client's own write, made again.
fn choose_mine<D: Disk + Drop>(
    alloc: Global,
    client: ClientNo,
    devs: &mut Journal<D>,
    at: &OpenedRow,
    main: &Main,
    row: &Shadow,
) -> Result<Prepared, CallFault>
    requires up { AreUp devs.old }
    requires ready { IsReady D.state devs.old (writes_of devs.old) }
    ensures looks { Looks D.state D.images devs.old devs.new result }
    ensures mine { IfOk result (IsMineAgain (held_by D.state devs.old) client at.now main.now row.now) }
    ensures refused { IfErr result (IsSpent (held_by D.state devs.old)) }
{
    let number = next_write(devs)?;
    let content = read_content(alloc, devs, &main.content)?;
    let write = write_over(client, number, at, row, content);
    let facts = tell_both(alloc, client, at, main, row, write)?;
    let none = BroughtChunks::new(alloc);
    let planned = plan_choice(alloc, at, number, number, HeldChoice::Mine, none, facts)?;
    Ok(Prepared { number, planned })
}

// By the Store's row.
fn choose_theirs<D: Disk + Drop>(
    alloc: Global,
    client: ClientNo,
    devs: &mut Journal<D>,
    at: &OpenedRow,
    main: &Main,
    row: &Shadow,
) -> Result<Prepared, CallFault>
    requires up { AreUp devs.old }
    requires ready { IsReady D.state devs.old (writes_of devs.old) }
    ensures looks { Looks D.state D.images devs.old devs.new result }
    ensures theirs { IfOk result (IsTheirsRead (held_by D.state devs.old) client at.now main.now row.now) }
    ensures refused { IfErr result (IsSpent (held_by D.state devs.old)) }
{
    let last = last_write(devs)?;
    let facts = vec![in alloc; tell_resolved(client, at, main, row)]?;
    let none = BroughtChunks::new(alloc);
    let planned = plan_choice(alloc, at, last, 0, HeldChoice::Theirs, none, facts)?;
    Ok(Prepared { number: 0, planned })
}

// By a new write of a content that fits.
fn choose_new<D: Disk + Drop>(
    alloc: Global,
    client: ClientNo,
    devs: &mut Journal<D>,
    at: &OpenedRow,
    main: &Main,
    row: &Shadow,
    content: Content,
) -> Result<Prepared, CallFault>
    requires up { AreUp devs.old }
    requires ready { IsReady D.state devs.old (writes_of devs.old) }
    requires spelled { HasSchemaSpelling at.now.opened.schema }
    ensures looks { Looks D.state D.images devs.old devs.new result }
    ensures new { IfOk result (IsNewOver (held_by D.state devs.old) client at.now main.now row.now content) }
    ensures refused { IfErr result (IsUnchosen (held_by D.state devs.old) (chosen.New content) at.now) }
{
    fits(&at.opened.schema, &content)?;
    let number = next_write(devs)?;
    let new = hold_new(alloc, devs, at.opened.schema.chunk, &at.slots, &content)?;
    know_words(&content);
    let write = write_over(client, number, at, row, content);
    let facts = tell_both(alloc, client, at, main, row, write)?;
    let HeldNew { content, brought } = new;
    let choice = HeldChoice::New(content);
    let planned = plan_choice(alloc, at, number, number, choice, brought, facts)?;
    Ok(Prepared { number, planned })
}

// ---- the call

fn choose<D: Disk + Drop>(
    alloc: Global,
    client: ClientNo,
    devs: &mut Journal<D>,
    at: &OpenedRow,
    main: &Main,
    row: &Shadow,
    choice: Choice,
) -> Result<Prepared, CallFault>
    requires up { AreUp devs.old }
    requires ready { IsReady D.state devs.old (writes_of devs.old) }
    requires spelled { HasSchemaSpelling at.now.opened.schema }
    ensures looks { Looks D.state D.images devs.old devs.new result }
    ensures chosen { IfOk result (IsChosen choice (held_by D.state devs.old) client at.now main.now row.now) }
    ensures refused { IfErr result (IsUnchosen (held_by D.state devs.old) choice at.now) }
{
    match choice {
        Choice::Mine => choose_mine(alloc, client, devs, at, main, row),
        Choice::Theirs => choose_theirs(alloc, client, devs, at, main, row),
        Choice::New(content) => choose_new(alloc, client, devs, at, main, row, content),
    }
}

// Resolves the conflict of a row with the version that was seen.
fn resolve_row<D: Disk + Drop>(
    alloc: Global,
    client: ClientNo,
    devs: &mut Journal<D>,
    at: &OpenedRow,
    seen: Version,
    choice: Choice,
) -> Result<Prepared, CallFault>
    requires up { AreUp devs.old }
    requires ready { IsReady D.state devs.old (writes_of devs.old) }
    requires spelled { HasSchemaSpelling at.now.opened.schema }
    ensures looks { Looks D.state D.images devs.old devs.new result }
    ensures resolved { IfOk result (IsResolved (held_by D.state devs.old) client at.now seen choice) }
    ensures refused { IfErr result (IsUnresolved (held_by D.state devs.old) at.now seen choice) }
{
    let Some(main) = &at.slots.main else {
        return Err(CallFault::NoConflict);
    };
    let Some(row) = &at.slots.conflict else {
        return Err(CallFault::NoConflict);
    };
    check_seen(row, seen)?;
    choose(alloc, client, devs, at, main, row, choice)
}

// A row of an opened table whose conflict may be resolved now.
fn open_contended<D: Disk + Drop>(
    devs: &mut Journal<D>,
    table: TableNo,
    row: RowId,
    is_open: bool,
) -> Result<OpenedRow, CallFault>
    requires up { AreUp devs.old }
    requires ready { IsReady D.state devs.old (writes_of devs.old) }
    ensures looks { Looks D.state D.images devs.old devs.new result }
    ensures opened { IfOk result (IsOpenedRow (held_by D.state devs.old) table row) }
    ensures idle { OnOk result (writes_of devs.old ≡ []) }
    ensures open { OnOk result (is_open ≡ true) }
    ensures refused { IfErr result (IsNoneResolved D.state devs.old table row is_open) }
{
    let at = open_row(devs, table, row)?;
    check_idle(devs)?;
    check_open(is_open)?;
    Ok(at)
}

// Prepares the resolution of a row's conflict.
fn prepare_resolve<D: Disk + Drop>(
    alloc: Global,
    client: ClientNo,
    gate: Gate,
    devs: &mut Journal<D>,
    table: TableNo,
    row: RowId,
    seen: Version,
    choice: Choice,
) -> Result<Prepared, CallFault>
    requires up { AreUp devs.old }
    requires ready { IsReady D.state devs.old (writes_of devs.old) }
    requires spelled { IfSome (record_at (held_by D.state devs.old) table) (λ opened. HasSchemaSpelling opened.schema) }
    ensures looks { Looks D.state D.images devs.old devs.new result }
    ensures prepares { (waiting : Waiting) (phase : ℕ → Bool) → phase table ≡ gate.is_open
        → Prepares D.state devs.old waiting phase gate.is_linked client (Resolve table row seen choice) result }
{
    let at = open_contended(devs, table, row, gate.is_open)?;
    resolve_row(alloc, client, devs, &at, seen, choice)
}

// Prepares it as a stored way chooses.
fn prepare_by<D: Disk + Drop>(
    alloc: Global,
    client: ClientNo,
    gate: Gate,
    devs: &mut Journal<D>,
    table: TableNo,
    row: RowId,
    seen: Version,
    by: Stored,
) -> Result<Prepared, CallFault>
    requires up { AreUp devs.old }
    requires ready { IsReady D.state devs.old (writes_of devs.old) }
    requires spelled { IfSome (record_at (held_by D.state devs.old) table) (λ opened. HasSchemaSpelling opened.schema) }
    ensures looks { Looks D.state D.images devs.old devs.new result }
    ensures prepares { (disk : ClientDisk) → StandsFor client (held_by D.state devs.old) disk
        → (choice : Choice) → IsChosenBy by row (slots_of (seen_disk disk) table row) choice
        → (waiting : Waiting) (phase : ℕ → Bool) → phase table ≡ gate.is_open
        → Prepares D.state devs.old waiting phase gate.is_linked client (Resolve table row seen choice) result }
{
    let at = open_contended(devs, table, row, gate.is_open)?;
    let choice = choose_by(alloc, devs, &at, seen, by)?;
    resolve_row(alloc, client, devs, &at, seen, choice)
}

// Prepares it as a resolver that was handed in answers.
fn prepare_with<D: Disk + Drop, R: Resolver>(
    alloc: Global,
    client: ClientNo,
    gate: Gate,
    devs: &mut Journal<D>,
    table: TableNo,
    row: RowId,
    seen: Version,
    by: &R,
) -> Result<Prepared, CallFault>
    requires up { AreUp devs.old }
    requires ready { IsReady D.state devs.old (writes_of devs.old) }
    requires spelled { IfSome (record_at (held_by D.state devs.old) table) (λ opened. HasSchemaSpelling opened.schema) }
    requires fits { (disk : ClientDisk) × StandsFor client (held_by D.state devs.old) disk
        × ArePairOf (R.schema_of by.now) row (slots_of (seen_disk disk) table row) }
    ensures looks { Looks D.state D.images devs.old devs.new result }
    ensures prepares { (disk : ClientDisk) → StandsFor client (held_by D.state devs.old) disk
        → (waiting : Waiting) (phase : ℕ → Bool) → phase table ≡ gate.is_open
        → IsByAnswer (R.answers by.now) row (slots_of (seen_disk disk) table row) result (λ choice.
        Prepares D.state devs.old waiting phase gate.is_linked client (Resolve table row seen choice) result) }
{
    let at = open_contended(devs, table, row, gate.is_open)?;
    let choice = choose_with(alloc, devs, &at, seen, by)?;
    resolve_row(alloc, client, devs, &at, seen, choice)
}

impl<D: Disk + Drop> ClientNode<D> {
    /// Resolves the conflict of a row with the version that was seen, in a phase of its table. With `Mine` and `New` the
    /// client writes again over the Store's row, and the answer is the number of that write; with `Theirs` it takes the
    /// row, and the answer is 0.
    ///
    /// # Errors
    ///
    /// `NoTable`, then `Busy`, then `NotInResolution`, then `NoConflict`, then `Moved`, then what is wrong with a new
    /// content, then `Spent`.
    pub fn resolve(
        &mut self,
        table: TableNo,
        row: RowId,
        seen: Version,
        choice: Choice,
    ) -> Result<WriteNo, CallFault>
        requires node { IsNode D.state self.old }
        requires up { self.old.is_up ≡ true }
        ensures does { (s : Client) → IsClient D.state self.old s
            → Does D.state D.images s (Resolve table row seen choice) (λ number. Number number)
            self.old self.new result }
        ensures node { IsNode D.state self.new }
        ensures declared { self.new.is_declared ≡ self.old.is_declared }
        ensures phases { KeepsPhases self.old self.new }
    {
        let gate = self.gate_of(table);
        let found = prepare_resolve(
            self.alloc,
            self.number,
            gate,
            &mut self.devs,
            table,
            row,
            seen,
            choice,
        );
        self.take_on(found)
    }

    /// Resolves the conflict of a row with the version that was seen, as this way chooses of the client's write and the
    /// Store's row, in a phase of its table. The answer is that of `resolve`.
    ///
    /// # Errors
    ///
    /// Those of `resolve`.
    pub fn resolve_by(
        &mut self,
        table: TableNo,
        row: RowId,
        seen: Version,
        by: Stored,
    ) -> Result<WriteNo, CallFault>
        requires node { IsNode D.state self.old }
        requires up { self.old.is_up ≡ true }
        ensures does { (s : Client) (choice : Choice) → IsClient D.state self.old s
            → IsChosenBy by row (slots_of (seen_disk s.disk) table row) choice
            → Does D.state D.images s (Resolve table row seen choice) (λ number. Number number)
            self.old self.new result }
        ensures node { IsNode D.state self.new }
        ensures declared { self.new.is_declared ≡ self.old.is_declared }
        ensures phases { KeepsPhases self.old self.new }
    {
        let gate = self.gate_of(table);
        let found = prepare_by(
            self.alloc,
            self.number,
            gate,
            &mut self.devs,
            table,
            row,
            seen,
            by,
        );
        self.take_on(found)
    }

    /// Resolves the conflict of a row with the version that was seen, as this resolver answers, in a phase of its table.
    /// It is asked about the client's write and the Store's row, both whole, where they are in conflict with this
    /// version. The answer is that of `resolve`.
    ///
    /// # Errors
    ///
    /// Those of `resolve`. `Memory` also where the resolver is refused memory.
    pub fn resolve_with<R: Resolver>(
        &mut self,
        table: TableNo,
        row: RowId,
        seen: Version,
        by: &R,
    ) -> Result<WriteNo, CallFault>
        requires node { IsNode D.state self.old }
        requires up { self.old.is_up ≡ true }
        requires fits { (s : Client) → IsClient D.state self.old s
            → ArePairOf (R.schema_of by.now) row (slots_of (seen_disk s.disk) table row) }
        ensures does { (s : Client) → IsClient D.state self.old s
            → IsByAnswer (R.answers by.now) row (slots_of (seen_disk s.disk) table row) result (λ choice.
            Does D.state D.images s (Resolve table row seen choice) (λ number. Number number)
            self.old self.new result) }
        ensures node { IsNode D.state self.new }
        ensures declared { self.new.is_declared ≡ self.old.is_declared }
        ensures phases { KeepsPhases self.old self.new }
    {
        let gate = self.gate_of(table);
        let found = prepare_with(
            self.alloc,
            self.number,
            gate,
            &mut self.devs,
            table,
            row,
            seen,
            by,
        );
        self.take_on(found)
    }
}
