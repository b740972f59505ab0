//! How a table's devices take a request.
ghost use Rattle.std.specs.Prelude.{◌≡◌, ◌<◌, ◌^◌, ◌==◌, List, [], ◌∷◌, length, Some, None, Ok, true};
ghost use Rattle.std.specs.Prelude.{option_copied, option_map, IfOk, OnOk, IfSome, IsErrOf};
ghost use Rattle.std.specs.List.{find};
ghost use Rattle.stab_base.specs.declared.limits.TheConstants.{NUMBER_MAX};
ghost use Rattle.row_value.specs.Fit.{fit_of};
ghost use Rattle.value_codec.specs.SchemaSpelling.{HasSchemaSpelling};
ghost use Rattle.row_store.specs.declared.stored.LastWrite.{LastWrite};
ghost use Rattle.row_store.specs.Data.{row_of};
ghost use Rattle.row_store.specs.Spelling.{IsClient, HasStoredSpelling};
ghost use Rattle.store_commit.specs.Standing.{devs, writes_of, AreUp, AreLookedAt, IsReady, NothingHidden};
ghost use Rattle.store_commit.specs.Update.{lasts_if};
ghost use Rattle.step_tables.specs.Chunks.{is_spelled};
ghost use Rattle.step_tables.specs.StoreMoves.{StoreDisk, keeps_there};
ghost use Rattle.step_tables.specs.Travels.{outcome_of};
ghost use Rattle.device_laws.specs.Stands.{Stands, HaveWords, pair_in, update_for};
ghost use Rattle.store_node.specs.Reading.{Only};
ghost use Rattle.store_node.specs.Taking.{held_if, refusal_of, version_if, Serves, pair_of, IsBegunBy, IsTaking};
ghost use Rattle.store_node.specs.Taking.{IsTakingNew, refused_by};
ghost use Rattle.store_node.specs.Update.{made_if, request_of};

use crate::reading::{HeldChunks, read_content};
use crate::update::{of_64_bits, update_of};
use disk_trait::Disk;
use row_store::{LastWrite, LastWrites, StoredRow};
use row_value::{Schema, Scheme};
use schemes::{Decision, decide};
use stab_base::{ClientNo, NUMBER_MAX, Version, WriteNo};
use std::alloc::Global;
use step_tables::{Outcome, SyncRequest, Yours};
use store_commit::{CommitFault, TableDevs, Update};

/// What a request came to: it was answered at once, or its writes are taken on under a version.
#[derive(Debug, Clone, Copy, PartialEq, Eq)]
pub(crate) enum Taken {
    Answered(Outcome),
    Begun(Version),
}

fn last_of(lasts: &[LastWrite], client: ClientNo) -> Option<&LastWrite>
    ensures { option_copied result ≡ find (λ (last : LastWrite). last.client == client) lasts.now }
{
    lasts.iter().find(|last| last.client == client)
}

/// A client's last write among these; zeros where there is none.
pub(crate) fn yours_in(lasts: &LastWrites, client: ClientNo) -> Yours
    ensures { pair_of result ≡ pair_in lasts.now client }
{
    match last_of(lasts.as_slice(), client) {
        Some(last) => Yours {
            number: last.number,
            version: last.version,
        },
        None => Yours {
            number: 0,
            version: 0,
        },
    }
}

fn yours_if(standing: &Option<StoredRow>, client: ClientNo) -> Yours
    ensures { pair_of result ≡ pair_in (lasts_if standing.now) client }
{
    match standing {
        Some(stored) => yours_in(&stored.pairs, client),
        None => Yours {
            number: 0,
            version: 0,
        },
    }
}

// The version of the row that stands, 0 where none does.
fn version_if(standing: &Option<StoredRow>) -> Version
    ensures { result ≡ version_if standing.now }
{
    match standing {
        Some(stored) => stored.version,
        None => 0,
    }
}

// What is answered to a write that isn't taken on, by the row's version and the client's last write on it.
fn refusal_of(
    scheme: Scheme,
    base: Version,
    current: Version,
    yours: Yours,
    number: WriteNo,
) -> Option<Outcome>
    ensures { option_map outcome_of result ≡ refusal_of scheme base current (pair_of yours) number }
{
    match decide(scheme, base, current, (yours.number, yours.version), number) {
        Decision::Again { version } => Some(Outcome::Again { version }),
        Decision::Late { last } => Some(Outcome::Late { last }),
        Decision::Accept => None,
        Decision::Stale { latest } => Some(Outcome::Stale { latest }),
        Decision::Conflict { latest } => Some(Outcome::Conflict { latest }),
    }
}

// The chunks of the row that stands, if one does.
fn read_standing<D: Disk + Drop>(
    alloc: Global,
    table: &mut TableDevs<D>,
    standing: &Option<StoredRow>,
) -> Result<HeldChunks, CommitFault>
    requires up { AreUp table.old }
    requires looked { AreLookedAt D.state table.old }
    ensures reads { Only D.state D.images table.old table.new result }
    ensures held { IfOk result (λ held. held ≡ held_if (devs D.state table.old) standing.now) }
{
    match standing {
        Some(stored) => read_content(alloc, table, &stored.content),
        None => Ok(HeldChunks::new(alloc)),
    }
}

// An answer whose version is known to have 64 bits.
fn known(answer: Result<Version, CommitFault>) -> Result<Version, CommitFault>
    ensures same { result ≡ answer }
    ensures few { IfOk result (λ version. version < 2 ^ 64) }
{
    match answer {
        Ok(version) => Ok(of_64_bits(version)),
        Err(fault) => Err(fault),
    }
}

// What a Store takes on for a request, over the row that stands; none where the row lacks a chunk that it keeps.
fn prepared<D: Disk + Drop>(
    alloc: Global,
    table: &mut TableDevs<D>,
    schema: &Schema,
    request: &SyncRequest,
    standing: &Option<StoredRow>,
) -> Result<Option<Update>, CommitFault>
    requires up { AreUp table.old }
    requires looked { AreLookedAt D.state table.old }
    requires hidden { NothingHidden table.old }
    requires size { 0 < schema.now.chunk }
    requires fits { fit_of schema.now request.now.content ≡ Ok tt }
    requires stands { (disk : StoreDisk) × Stands schema.now (devs D.state table.old) disk }
    requires standing { row_of (devs D.state table.old).held request.now.row ≡ standing.now }
    ensures reads { Only D.state D.images table.old table.new result }
    ensures update { (disk : StoreDisk) → Stands schema.now (devs D.state table.old) disk
        → IfOk result (λ made. made ≡ made_if (keeps_there schema.now.chunk disk.items (request_of request.now))
        (update_for schema.now.chunk (request_of request.now))) }
    ensures words { OnOk result (HaveWords request.now.content) }
    ensures number { OnOk result (request.now.number < 2 ^ 64) }
{
    let held = read_standing(alloc, table, standing)?;
    Ok(update_of(alloc, schema.chunk, &held, request)?)
}

// Takes a write on.
fn accept<D: Disk + Drop>(
    table: &mut TableDevs<D>,
    schema: &Schema,
    request: &SyncRequest,
    update: Update,
) -> Result<Version, CommitFault>
    requires up { AreUp table.old }
    requires ready { IsReady D.state table.old [] }
    requires idle { writes_of table.old ≡ [] }
    requires hidden { NothingHidden table.old }
    requires size { 0 < schema.now.chunk }
    requires spelled { HasSchemaSpelling schema.now }
    requires client { IsClient request.now.client }
    requires fits { fit_of schema.now request.now.content ≡ Ok tt }
    requires words { HaveWords request.now.content }
    requires number { request.now.number < 2 ^ 64 }
    requires pieces { is_spelled schema.now.chunk request.now.content request.now.pieces ≡ true }
    requires stands { (disk : StoreDisk) × Stands schema.now (devs D.state table.old) disk × (disk.pending ≡ None)
        × (keeps_there schema.now.chunk disk.items (request_of request.now) ≡ true) }
    requires standing_spelled { IfSome (row_of (devs D.state table.old).held request.now.row) HasStoredSpelling }
    requires update { update ≡ update_for schema.now.chunk (request_of request.now) }
    ensures serves { Serves D.state D.images table.old table.new result }
    ensures begun { (disk : StoreDisk) → Stands schema.now (devs D.state table.old) disk → disk.pending ≡ None
        → IfOk result (IsBegunBy schema.now.chunk (devs D.state table.old) disk request.now (writes_of table.new)) }
    ensures spent { (disk : StoreDisk) → Stands schema.now (devs D.state table.old) disk
        → IsErrOf result CommitFault.Spent → length disk.items ≡ NUMBER_MAX }
{
    if table.table_version()? == NUMBER_MAX {
        return Err(CommitFault::Spent);
    }
    known(table.begin(update))
}

// Takes a new write on, over the row that stands, where the row has each chunk that it keeps.
fn take_new<D: Disk + Drop>(
    alloc: Global,
    table: &mut TableDevs<D>,
    schema: &Schema,
    request: &SyncRequest,
    standing: &Option<StoredRow>,
) -> Result<Taken, CommitFault>
    requires up { AreUp table.old }
    requires ready { IsReady D.state table.old [] }
    requires idle { writes_of table.old ≡ [] }
    requires hidden { NothingHidden table.old }
    requires size { 0 < schema.now.chunk }
    requires spelled { HasSchemaSpelling schema.now }
    requires client { IsClient request.now.client }
    requires fits { fit_of schema.now request.now.content ≡ Ok tt }
    requires pieces { is_spelled schema.now.chunk request.now.content request.now.pieces ≡ true }
    requires stands { (disk : StoreDisk) × Stands schema.now (devs D.state table.old) disk × (disk.pending ≡ None) }
    requires standing { row_of (devs D.state table.old).held request.now.row ≡ standing.now }
    requires standing_spelled { IfSome standing.now HasStoredSpelling }
    ensures serves { Serves D.state D.images table.old table.new result }
    ensures taken { (disk : StoreDisk) → Stands schema.now (devs D.state table.old) disk → disk.pending ≡ None
        → IfOk result (IsTakingNew schema.now.chunk (devs D.state table.old) disk request.now (writes_of table.new)) }
    ensures spent { (disk : StoreDisk) → Stands schema.now (devs D.state table.old) disk
        → IsErrOf result CommitFault.Spent
        → (keeps_there schema.now.chunk disk.items (request_of request.now) ≡ true)
        × (length disk.items ≡ NUMBER_MAX) }
{
    match prepared(alloc, table, schema, request, standing)? {
        Some(update) => {
            let version = accept(table, schema, request, update)?;
            Ok(Taken::Begun(version))
        }
        None => Ok(Taken::Answered(Outcome::NeedWhole)),
    }
}

/// Takes a request: reads the row that stands, and answers a write that isn't new, or takes a new one on.
pub(crate) fn take_write<D: Disk + Drop>(
    alloc: Global,
    table: &mut TableDevs<D>,
    schema: &Schema,
    request: &SyncRequest,
) -> Result<Taken, CommitFault>
    requires up { AreUp table.old }
    requires ready { IsReady D.state table.old [] }
    requires idle { writes_of table.old ≡ [] }
    requires hidden { NothingHidden table.old }
    requires size { 0 < schema.now.chunk }
    requires spelled { HasSchemaSpelling schema.now }
    requires client { IsClient request.now.client }
    requires fits { fit_of schema.now request.now.content ≡ Ok tt }
    requires pieces { is_spelled schema.now.chunk request.now.content request.now.pieces ≡ true }
    requires stands { (disk : StoreDisk) × Stands schema.now (devs D.state table.old) disk × (disk.pending ≡ None) }
    ensures serves { Serves D.state D.images table.old table.new result }
    ensures taken { (disk : StoreDisk) → Stands schema.now (devs D.state table.old) disk → disk.pending ≡ None
        → IfOk result (IsTaking schema.now.scheme schema.now.chunk (devs D.state table.old) disk request.now
        (writes_of table.new)) }
    ensures spent { (disk : StoreDisk) → Stands schema.now (devs D.state table.old) disk
        → IsErrOf result CommitFault.Spent
        → (refused_by schema.now.scheme schema.now.chunk disk request.now ≡ None)
        × (length disk.items ≡ NUMBER_MAX) }
{
    let standing = table.row(&request.row)?;
    let yours = yours_if(&standing, request.client);
    let current = version_if(&standing);
    match refusal_of(schema.scheme, request.base, current, yours, request.number) {
        Some(outcome) => Ok(Taken::Answered(outcome)),
        None => take_new(alloc, table, schema, request, &standing),
    }
}
