//! Payloads of intends, commits and ends of plans.
ghost use Rattle.std.specs.Prelude.{◌≡◌, ◌≤◌, ◌<◌, ◌+◌, ◌++◌, length, OnOk, OnErr, IfOk};
ghost use Rattle.std.specs.Vec.{vec_capacity, vec_len};
ghost use Rattle.field_codec.specs.Forms.{eight, IsOption, option_spelling};
ghost use Rattle.plan_log.specs.Spelling.{HasIntend, intend_payload, HasRowChange, row_change_spelling};
ghost use Rattle.plan_log.specs.Spelling.{HasRecordChange, record_change_spelling, head_spelling, updates_spelling};
ghost use Rattle.plan_log.specs.Spelling.{commit_payload, HasCommit, done_payload};

use crate::plan::{Commit, Intend, RecordChange, RowChange};
use field_codec::{put_eight, put_flag, put_four, put_id};
use held_codec::{put_locals, put_slots, put_tells};
use stab_base::{Version, put_u8};
use std::alloc::{AllocError, Global};
use value_codec::put_schema;

fn put_intend(out: &mut Vec<u8>, intend: &Intend) -> Result<(), AllocError>
    ensures ok { OnOk result (out.new.items ≡ out.old.items ++ intend_payload intend.now) }
    ensures full { OnErr result (vec_capacity out.old < vec_len out.old + length (intend_payload intend.now)) }
    ensures capacity { vec_capacity out.old ≤ vec_capacity out.new }
{
    put_u8(out, 1)?;
    put_eight(out, intend.plan)?;
    put_four(out, intend.table)?;
    put_id(out, &intend.row)?;
    put_flag(out, intend.server)?;
    put_four(out, intend.chunks)
}

fn put_row_change(out: &mut Vec<u8>, change: &RowChange) -> Result<(), AllocError>
    requires { HasRowChange change.now }
    ensures ok { OnOk result (out.new.items ≡ out.old.items ++ row_change_spelling change.now) }
    ensures full { OnErr result (vec_capacity out.old < vec_len out.old + length (row_change_spelling change.now)) }
    ensures capacity { vec_capacity out.old ≤ vec_capacity out.new }
{
    put_id(out, &change.row)?;
    put_slots(out, &change.slots)
}

fn put_row(out: &mut Vec<u8>, row: &Option<RowChange>) -> Result<(), AllocError>
    requires { IsOption HasRowChange row.now }
    ensures ok { OnOk result (out.new.items ≡ out.old.items ++ option_spelling row_change_spelling row.now) }
    ensures full { OnErr result (vec_capacity out.old
        < vec_len out.old + length (option_spelling row_change_spelling row.now)) }
    ensures capacity { vec_capacity out.old ≤ vec_capacity out.new }
{
    match row {
        None => put_u8(out, 0),
        Some(change) => {
            put_u8(out, 1)?;
            put_row_change(out, change)
        }
    }
}

fn put_position(out: &mut Vec<u8>, position: Option<Version>) -> Result<(), AllocError>
    ensures ok { OnOk result (out.new.items ≡ out.old.items ++ option_spelling eight position) }
    ensures full { OnErr result (vec_capacity out.old < vec_len out.old + length (option_spelling eight position)) }
    ensures capacity { vec_capacity out.old ≤ vec_capacity out.new }
{
    match position {
        None => put_u8(out, 0),
        Some(version) => {
            put_u8(out, 1)?;
            put_eight(out, version)
        }
    }
}

fn put_record_change(out: &mut Vec<u8>, change: &RecordChange) -> Result<(), AllocError>
    requires { HasRecordChange change.now }
    ensures ok { OnOk result (out.new.items ≡ out.old.items ++ record_change_spelling change.now) }
    ensures full { OnErr result (vec_capacity out.old < vec_len out.old + length (record_change_spelling change.now)) }
    ensures capacity { vec_capacity out.old ≤ vec_capacity out.new }
{
    put_u8(out, change.state)?;
    put_schema(out, &change.schema)
}

fn put_new_record(out: &mut Vec<u8>, change: &Option<RecordChange>) -> Result<(), AllocError>
    requires { IsOption HasRecordChange change.now }
    ensures ok { OnOk result (out.new.items ≡ out.old.items ++ option_spelling record_change_spelling change.now) }
    ensures full { OnErr result (vec_capacity out.old
        < vec_len out.old + length (option_spelling record_change_spelling change.now)) }
    ensures capacity { vec_capacity out.old ≤ vec_capacity out.new }
{
    match change {
        None => put_u8(out, 0),
        Some(change) => {
            put_u8(out, 1)?;
            put_record_change(out, change)
        }
    }
}

fn put_head(out: &mut Vec<u8>, commit: &Commit) -> Result<(), AllocError>
    ensures ok { OnOk result (out.new.items ≡ out.old.items ++ head_spelling commit.now) }
    ensures full { OnErr result (vec_capacity out.old < vec_len out.old + length (head_spelling commit.now)) }
    ensures capacity { vec_capacity out.old ≤ vec_capacity out.new }
{
    put_eight(out, commit.plan)?;
    put_eight(out, commit.last)?;
    put_four(out, commit.table)
}

fn put_updates(out: &mut Vec<u8>, commit: &Commit) -> Result<(), AllocError>
    requires { HasCommit commit.now }
    ensures ok { OnOk result (out.new.items ≡ out.old.items ++ updates_spelling commit.now) }
    ensures full { OnErr result (vec_capacity out.old < vec_len out.old + length (updates_spelling commit.now)) }
    ensures capacity { vec_capacity out.old ≤ vec_capacity out.new }
{
    put_row(out, &commit.row)?;
    put_position(out, commit.position)?;
    put_new_record(out, &commit.new_record)
}

fn put_commit(out: &mut Vec<u8>, commit: &Commit) -> Result<(), AllocError>
    requires { HasCommit commit.now }
    ensures ok { OnOk result (out.new.items ≡ out.old.items ++ commit_payload commit.now) }
    ensures full { OnErr result (vec_capacity out.old < vec_len out.old + length (commit_payload commit.now)) }
    ensures capacity { vec_capacity out.old ≤ vec_capacity out.new }
{
    put_u8(out, 2)?;
    put_head(out, commit)?;
    put_updates(out, commit)?;
    put_locals(out, commit.drops.as_slice())?;
    put_tells(out, commit.tells.as_slice())
}

/// How many bytes the payload of a commit has. It spells it once, in memory of its own.
pub fn commit_size(alloc: Global, commit: &Commit) -> Result<usize, AllocError>
    requires { HasCommit commit.now }
    ensures { IfOk result (λ size. size ≡ length (commit_payload commit.now)) }
{
    let mut payload = Vec::new(alloc);
    put_commit(&mut payload, commit)?;
    Ok(payload.len())
}

/// Writes an intend, in a buffer that has room for it.
pub(crate) fn write_intend(payload: &mut Vec<u8>, intend: &Intend)
    requires spelled { HasIntend intend.now }
    requires room { 34 ≤ vec_capacity payload.old }
    ensures items { payload.new.items ≡ intend_payload intend.now }
    ensures len { length payload.new.items ≡ 34 }
    ensures capacity { vec_capacity payload.old ≤ vec_capacity payload.new }
{
    payload.clear();
    put_intend(payload, intend).unwrap();
}

/// Writes a commit, in a buffer that has room for it.
pub(crate) fn write_commit(payload: &mut Vec<u8>, commit: &Commit)
    requires spelled { HasCommit commit.now }
    requires room { length (commit_payload commit.now) ≤ vec_capacity payload.old }
    ensures items { payload.new.items ≡ commit_payload commit.now }
    ensures capacity { vec_capacity payload.old ≤ vec_capacity payload.new }
{
    payload.clear();
    put_commit(payload, commit).unwrap();
}

/// Writes the end of a plan, in a buffer that has room for it.
#[tactic(auto, unfolding(field_codec::specs::Forms::eight))]
pub(crate) fn write_done(payload: &mut Vec<u8>, plan: u64)
    requires room { 9 ≤ vec_capacity payload.old }
    ensures items { payload.new.items ≡ done_payload plan }
    ensures len { length payload.new.items ≡ 9 }
    ensures capacity { vec_capacity payload.old ≤ vec_capacity payload.new }
{
    payload.clear();
    put_u8(payload, 3).unwrap();
    put_eight(payload, plan).unwrap();
}
