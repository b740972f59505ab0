//! Intends, commits and ends of plans in payloads.
ghost use Rattle.std.specs.Prelude.{◌≡◌, ◌≤◌, length, drop, IfOk};
ghost use Rattle.std.specs.Int.{w64};
ghost use Rattle.value_codec.specs.Reading.{Gives, number_at};
ghost use Rattle.field_codec.specs.Fields.{byte_if, option_at};
ghost use Rattle.plan_log.specs.Reading.{is_plan, is_table, is_intend, is_commit, is_state, any_intend_at, intend_at};
ghost use Rattle.plan_log.specs.Reading.{row_change_at, record_change_at, head_at, updates_at, any_commit_at};
ghost use Rattle.plan_log.specs.Reading.{commit_at, plan_at, tag_at, intend_in, commit_in, done_in};

use crate::plan::{Commit, Intend, RecordChange, RowChange};
use held_codec::{take_locals, take_slots, take_tells};
use stab_base::{NUMBER_MAX, TableNo, Version, WriteNo};
use std::alloc::Global;
use value_codec::{SpellFault, take_byte, take_eight, take_flag, take_four, take_id, take_schema};

// The greatest number of a table. It is `tables_most` of the definitions.
const TABLE_MAX: TableNo = 64;

/// Which plan a commit is of, and where it is made.
#[derive(Clone, Copy)]
pub struct Head {
    plan: u64,
    last: WriteNo,
    table: TableNo,
}

/// What a commit updates.
#[derive(Drop)]
pub struct Updates {
    row: Option<RowChange>,
    position: Option<Version>,
    new_record: Option<RecordChange>,
}

fn is_plan(plan: u64) -> bool
    ensures { result ≡ is_plan plan }
{
    1 <= plan && plan <= NUMBER_MAX
}

fn is_table(table: TableNo) -> bool
    ensures { result ≡ is_table table }
{
    1 <= table && table <= TABLE_MAX
}

// ---- intends

#[tactic(auto, unfolding(crate::specs::Reading::any_intend_at))]
fn take_any_intend(bytes: &[u8], at: usize) -> Result<(Intend, usize), SpellFault>
    requires { at ≤ length bytes.now }
    ensures value { Gives bytes.now (λ x. (x.0, drop x.1 bytes.now)) result (any_intend_at (drop at bytes.now)) }
    ensures within { IfOk result (λ x. x.1 ≤ length bytes.now) }
{
    let (plan, behind) = take_eight(bytes, at)?;
    let (table, behind) = take_four(bytes, behind)?;
    let (row, behind) = take_id(bytes, behind)?;
    let (server, behind) = take_flag(bytes, behind)?;
    let (chunks, behind) = take_four(bytes, behind)?;
    let intend = Intend {
        plan,
        table,
        row,
        server,
        chunks,
    };
    Ok((intend, behind))
}

fn is_intend(intend: &Intend) -> bool
    ensures { result ≡ is_intend intend.now }
{
    is_plan(intend.plan) && is_table(intend.table)
}

#[tactic(auto, unfolding(crate::specs::Reading::intend_at))]
fn take_intend(bytes: &[u8], at: usize) -> Result<(Intend, usize), SpellFault>
    requires { at ≤ length bytes.now }
    ensures value { Gives bytes.now (λ x. (x.0, drop x.1 bytes.now)) result (intend_at (drop at bytes.now)) }
    ensures within { IfOk result (λ x. x.1 ≤ length bytes.now) }
{
    let (intend, behind) = take_any_intend(bytes, at)?;
    if is_intend(&intend) {
        Ok((intend, behind))
    } else {
        Err(SpellFault::Bad { at })
    }
}

// ---- what a commit updates

#[tactic(auto, unfolding(crate::specs::Reading::row_change_at))]
fn take_row_change(alloc: Global, bytes: &[u8], at: usize) -> Result<(RowChange, usize), SpellFault>
    requires { at ≤ length bytes.now }
    ensures value { Gives bytes.now (λ x. (x.0, drop x.1 bytes.now)) result (row_change_at (drop at bytes.now)) }
    ensures within { IfOk result (λ x. x.1 ≤ length bytes.now) }
{
    let (row, behind) = take_id(bytes, at)?;
    let (slots, behind) = take_slots(alloc, bytes, behind)?;
    Ok((RowChange { row, slots }, behind))
}

#[tactic(auto, unfolding(field_codec::specs::Fields::option_at))]
fn take_row(
    alloc: Global,
    bytes: &[u8],
    at: usize,
) -> Result<(Option<RowChange>, usize), SpellFault>
    requires { at ≤ length bytes.now }
    ensures value { Gives bytes.now (λ x. (x.0, drop x.1 bytes.now))
        result (option_at row_change_at (drop at bytes.now)) }
    ensures within { IfOk result (λ x. x.1 ≤ length bytes.now) }
{
    let (some, behind) = take_flag(bytes, at)?;
    if some {
        let (change, behind) = take_row_change(alloc, bytes, behind)?;
        Ok((Some(change), behind))
    } else {
        Ok((None, behind))
    }
}

#[tactic(auto, unfolding(field_codec::specs::Fields::option_at))]
fn take_position(bytes: &[u8], at: usize) -> Result<(Option<Version>, usize), SpellFault>
    requires { at ≤ length bytes.now }
    ensures value { Gives bytes.now (λ x. (x.0, drop x.1 bytes.now))
        result (option_at (number_at w64) (drop at bytes.now)) }
    ensures within { IfOk result (λ x. x.1 ≤ length bytes.now) }
{
    let (some, behind) = take_flag(bytes, at)?;
    if some {
        let (position, behind) = take_eight(bytes, behind)?;
        Ok((Some(position), behind))
    } else {
        Ok((None, behind))
    }
}

#[tactic(auto, unfolding(field_codec::specs::Fields::byte_if))]
fn take_state(bytes: &[u8], at: usize) -> Result<(u8, usize), SpellFault>
    requires { at ≤ length bytes.now }
    ensures value { Gives bytes.now (λ x. (x.0, drop x.1 bytes.now)) result (byte_if is_state (drop at bytes.now)) }
    ensures within { IfOk result (λ x. x.1 ≤ length bytes.now) }
{
    let (state, behind) = take_byte(bytes, at)?;
    if 1 <= state && state <= 2 {
        Ok((state, behind))
    } else {
        Err(SpellFault::Bad { at })
    }
}

#[tactic(auto, unfolding(crate::specs::Reading::record_change_at))]
fn take_record_change(
    alloc: Global,
    bytes: &[u8],
    at: usize,
) -> Result<(RecordChange, usize), SpellFault>
    requires { at ≤ length bytes.now }
    ensures value { Gives bytes.now (λ x. (x.0, drop x.1 bytes.now)) result (record_change_at (drop at bytes.now)) }
    ensures within { IfOk result (λ x. x.1 ≤ length bytes.now) }
{
    let (state, behind) = take_state(bytes, at)?;
    let (schema, behind) = take_schema(alloc, bytes, behind)?;
    Ok((RecordChange { state, schema }, behind))
}

#[tactic(auto, unfolding(field_codec::specs::Fields::option_at))]
fn take_new_record(
    alloc: Global,
    bytes: &[u8],
    at: usize,
) -> Result<(Option<RecordChange>, usize), SpellFault>
    requires { at ≤ length bytes.now }
    ensures value { Gives bytes.now (λ x. (x.0, drop x.1 bytes.now))
        result (option_at record_change_at (drop at bytes.now)) }
    ensures within { IfOk result (λ x. x.1 ≤ length bytes.now) }
{
    let (some, behind) = take_flag(bytes, at)?;
    if some {
        let (change, behind) = take_record_change(alloc, bytes, behind)?;
        Ok((Some(change), behind))
    } else {
        Ok((None, behind))
    }
}

// ---- commits

#[tactic(auto, unfolding(crate::specs::Reading::head_at))]
fn take_head(bytes: &[u8], at: usize) -> Result<(Head, usize), SpellFault>
    requires { at ≤ length bytes.now }
    ensures value { Gives bytes.now (λ x. (x.0, drop x.1 bytes.now)) result (head_at (drop at bytes.now)) }
    ensures within { IfOk result (λ x. x.1 ≤ length bytes.now) }
{
    let (plan, behind) = take_eight(bytes, at)?;
    let (last, behind) = take_eight(bytes, behind)?;
    let (table, behind) = take_four(bytes, behind)?;
    Ok((Head { plan, last, table }, behind))
}

#[tactic(auto, unfolding(crate::specs::Reading::updates_at))]
fn take_updates(alloc: Global, bytes: &[u8], at: usize) -> Result<(Updates, usize), SpellFault>
    requires { at ≤ length bytes.now }
    ensures value { Gives bytes.now (λ x. (x.0, drop x.1 bytes.now)) result (updates_at (drop at bytes.now)) }
    ensures within { IfOk result (λ x. x.1 ≤ length bytes.now) }
{
    let (row, behind) = take_row(alloc, bytes, at)?;
    let (position, behind) = take_position(bytes, behind)?;
    let (new_record, behind) = take_new_record(alloc, bytes, behind)?;
    let updates = Updates {
        row,
        position,
        new_record,
    };
    Ok((updates, behind))
}

#[tactic(auto, unfolding(crate::specs::Reading::any_commit_at))]
fn take_any_commit(alloc: Global, bytes: &[u8], at: usize) -> Result<(Commit, usize), SpellFault>
    requires { at ≤ length bytes.now }
    ensures value { Gives bytes.now (λ x. (x.0, drop x.1 bytes.now)) result (any_commit_at (drop at bytes.now)) }
    ensures within { IfOk result (λ x. x.1 ≤ length bytes.now) }
{
    let (head, behind) = take_head(bytes, at)?;
    let (updates, behind) = take_updates(alloc, bytes, behind)?;
    let (drops, behind) = take_locals(alloc, bytes, behind)?;
    let (tells, behind) = take_tells(alloc, bytes, behind)?;
    let commit = Commit {
        plan: head.plan,
        last: head.last,
        table: head.table,
        row: updates.row,
        position: updates.position,
        new_record: updates.new_record,
        drops,
        tells,
    };
    Ok((commit, behind))
}

fn is_commit(commit: &Commit) -> bool
    ensures { result ≡ is_commit commit.now }
{
    is_plan(commit.plan) && commit.last <= NUMBER_MAX && is_table(commit.table)
}

#[tactic(auto, unfolding(crate::specs::Reading::commit_at))]
fn take_commit(alloc: Global, bytes: &[u8], at: usize) -> Result<(Commit, usize), SpellFault>
    requires { at ≤ length bytes.now }
    ensures value { Gives bytes.now (λ x. (x.0, drop x.1 bytes.now)) result (commit_at (drop at bytes.now)) }
    ensures within { IfOk result (λ x. x.1 ≤ length bytes.now) }
{
    let (commit, behind) = take_any_commit(alloc, bytes, at)?;
    if is_commit(&commit) {
        Ok((commit, behind))
    } else {
        Err(SpellFault::Bad { at })
    }
}

// ---- ends

#[tactic(auto, unfolding(crate::specs::Reading::plan_at))]
fn take_plan(bytes: &[u8], at: usize) -> Result<(u64, usize), SpellFault>
    requires { at ≤ length bytes.now }
    ensures value { Gives bytes.now (λ x. (x.0, drop x.1 bytes.now)) result (plan_at (drop at bytes.now)) }
    ensures within { IfOk result (λ x. x.1 ≤ length bytes.now) }
{
    let (plan, behind) = take_eight(bytes, at)?;
    if is_plan(plan) {
        Ok((plan, behind))
    } else {
        Err(SpellFault::Bad { at })
    }
}

// ---- whole payloads

#[tactic(auto, unfolding(crate::specs::Reading::tag_at))]
fn skip_tag(payload: &[u8], tag: u8) -> Result<usize, SpellFault>
    ensures value { Gives payload.now (λ at. drop at payload.now) result (tag_at tag payload.now) }
    ensures within { IfOk result (λ at. at ≤ length payload.now) }
{
    let (first, at) = take_byte(payload, 0)?;
    if first == tag {
        Ok(at)
    } else {
        Err(SpellFault::Bad { at: 0 })
    }
}

/// The intend in a payload.
#[tactic(auto, unfolding(crate::specs::Reading::intend_in, value_codec::specs::Reading::whole))]
pub(crate) fn intend_in(payload: &[u8]) -> Result<Intend, SpellFault>
    ensures { Gives payload.now (λ x. x) result (intend_in payload.now) }
{
    let at = skip_tag(payload, 1)?;
    let (intend, end) = take_intend(payload, at)?;
    if end < payload.len() {
        return Err(SpellFault::Bad { at: end });
    }
    Ok(intend)
}

/// The commit in a payload.
#[tactic(auto, unfolding(crate::specs::Reading::commit_in, value_codec::specs::Reading::whole))]
pub(crate) fn commit_in(alloc: Global, payload: &[u8]) -> Result<Commit, SpellFault>
    ensures { Gives payload.now (λ x. x) result (commit_in payload.now) }
{
    let at = skip_tag(payload, 2)?;
    let (commit, end) = take_commit(alloc, payload, at)?;
    if end < payload.len() {
        return Err(SpellFault::Bad { at: end });
    }
    Ok(commit)
}

/// The plan whose end is in a payload.
#[tactic(auto, unfolding(crate::specs::Reading::done_in, value_codec::specs::Reading::whole))]
pub(crate) fn done_in(payload: &[u8]) -> Result<u64, SpellFault>
    ensures { Gives payload.now (λ x. x) result (done_in payload.now) }
{
    let at = skip_tag(payload, 3)?;
    let (plan, end) = take_plan(payload, at)?;
    if end < payload.len() {
        return Err(SpellFault::Bad { at: end });
    }
    Ok(plan)
}
