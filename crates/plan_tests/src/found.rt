//! What a journal finds on a disk.
ghost use Rattle.std.specs.Prelude.{IfOk};
ghost use Rattle.disk_kit.specs.Memory.{memory_state};
ghost use Rattle.plan_log.specs.Standing.{IsLookedAt};

use crate::disks::disk_of;
use disk_kit::MemDisk;
use disk_trait::Disk;
use held_value::{LocalName, Slots, Tell};
use plan_log::{Commit, Intend, PlanLog};
use row_value::Scheme;
use stab_base::{NUMBER_MAX, RowId};
use std::alloc::{AllocError, Global};
use std::test::Fail;

/// An intend of plan 7, which brings 3 chunks of a row of table 64 from the Store.
pub(crate) const INTEND: [u8; 34] = [
    1, 0, 0, 0, 0, 0, 0, 0, 7, 0, 0, 0, 64, 5, 5, 5, 5, 5, 5, 5, 5, 5, 5, 5, 5, 5, 5, 5, 5, 1, 0,
    0, 0, 3,
];

/// A commit of plan 7 behind write 9, in table 64: a row with no slots, position 4, a record that opens a causal table
/// "t" of one column "a" of numbers in chunks of 64 bytes, the drop of chunk 2 of plan 6, and the row's version 4.
pub(crate) const COMMIT: [u8; 102] = [
    2, 0, 0, 0, 0, 0, 0, 0, 7, 0, 0, 0, 0, 0, 0, 0, 9, 0, 0, 0, 64, 1, 5, 5, 5, 5, 5, 5, 5, 5, 5,
    5, 5, 5, 5, 5, 5, 5, 0, 0, 0, 0, 1, 0, 0, 0, 0, 0, 0, 0, 4, 1, 1, 0, 0, 0, 1, 116, 2, 0, 0, 0,
    64, 0, 0, 0, 1, 0, 0, 0, 1, 97, 1, 0, 0, 0, 1, 0, 0, 0, 0, 0, 0, 0, 6, 0, 0, 0, 2, 0, 0, 0, 1,
    6, 0, 0, 0, 0, 0, 0, 0, 4,
];

/// A commit of plan 7 behind no write, in table 1, of which nothing is put, dropped or told.
const SMALL: [u8; 32] = [
    2, 0, 0, 0, 0, 0, 0, 0, 7, 0, 0, 0, 0, 0, 0, 0, 0, 0, 0, 0, 1, 0, 0, 0, 0, 0, 0, 0, 0, 0, 0, 0,
];

/// The end of plan 7.
const DONE: [u8; 9] = [3, 0, 0, 0, 0, 0, 0, 0, 7];

/// The plan at work.
#[derive(Debug, Clone, Copy, PartialEq, Eq)]
pub(crate) enum At {
    Idle,
    Intended(u64),
    Committed(u64),
}

/// The plan at work.
pub(crate) fn at_work<D: Disk + Drop>(log: &PlanLog<D>) -> At
    requires { IsLookedAt D.state log.now }
{
    if let Some(intend) = log.intended() {
        return At::Intended(intend.plan);
    }
    match log.committed_plan() {
        Some(plan) => At::Committed(plan),
        None => At::Idle,
    }
}

// A journal that has looked at a disk with these payloads.
fn log_of(
    alloc: Global,
    first: &[u8],
    second: &[u8],
    third: &[u8],
) -> Result<PlanLog<MemDisk>, Fail>
    ensures { IfOk result (λ log. IsLookedAt memory_state log) }
{
    let mut log = PlanLog::new(alloc, disk_of(alloc, first, second, third)?);
    log.look()?;
    Ok(log)
}

// The greatest plan on a disk with these payloads, and the plan at work.
fn found(alloc: Global, first: &[u8], second: &[u8], third: &[u8]) -> Result<(u64, At), Fail> {
    let log = log_of(alloc, first, second, third)?;
    let at = at_work(&log);
    if log.is_idle() != (at == At::Idle) {
        return Err("idle and not idle".into());
    }
    Ok((log.greatest(), at))
}

// A payload with another byte at a place.
fn patched(alloc: Global, payload: &[u8], place: usize, byte: u8) -> Result<Vec<u8>, AllocError> {
    let mut bytes = Vec::from_slice(alloc, payload)?;
    if place < bytes.len() {
        bytes[place] = byte;
    }
    Ok(bytes)
}

// What is found behind an intend of plan 7, and of this payload with another byte at a place.
fn found_patched(
    alloc: Global,
    first: &[u8],
    second: &[u8],
    place: usize,
    byte: u8,
) -> Result<(u64, At), Fail> {
    let bytes = patched(alloc, second, place, byte)?;
    found(alloc, first, &bytes, &[])
}

#[test]
fn plans_are_intended_committed_and_done(rt: HostRuntime) -> Result<(), Fail> {
    let alloc = rt.alloc();
    assert_eq!(rt; found(alloc, &[], &[], &[])?, (0, At::Idle));
    assert_eq!(rt; found(alloc, &INTEND, &[], &[])?, (7, At::Intended(7)));
    assert_eq!(rt; found(alloc, &INTEND, &COMMIT, &[])?, (7, At::Committed(7)));
    assert_eq!(rt; found(alloc, &INTEND, &COMMIT, &DONE)?, (7, At::Idle));
    assert_eq!(rt; found(alloc, &SMALL, &[], &[])?, (7, At::Committed(7)));
    assert_eq!(rt; found(alloc, &SMALL, &DONE, &[])?, (7, At::Idle));
    Ok(())
}

#[test]
fn what_comes_too_late_is_passed_over(rt: HostRuntime) -> Result<(), Fail> {
    let alloc = rt.alloc();
    assert_eq!(rt; found(alloc, &DONE, &[], &[])?, (0, At::Idle));
    assert_eq!(rt; found(alloc, &INTEND, &DONE, &[])?, (7, At::Intended(7)));
    assert_eq!(rt; found(alloc, &INTEND, &INTEND, &[])?, (7, At::Intended(7)));
    assert_eq!(rt; found(alloc, &COMMIT, &INTEND, &[])?, (7, At::Committed(7)));
    assert_eq!(rt; found(alloc, &SMALL, &DONE, &SMALL)?, (7, At::Idle));
    assert_eq!(rt; found(alloc, &SMALL, &DONE, &INTEND)?, (7, At::Idle));
    Ok(())
}

#[test]
fn another_plan_counts_where_it_is_greater(rt: HostRuntime) -> Result<(), Fail> {
    let alloc = rt.alloc();
    for (byte, greatest, intended, committed) in [
        (6, 7, At::Intended(7), At::Intended(7)),
        (8, 8, At::Intended(8), At::Committed(8)),
    ] {
        let by_intend = found_patched(alloc, &INTEND, &INTEND, 8, byte)?;
        assert_eq!(rt; by_intend, (greatest, intended));
        let by_commit = found_patched(alloc, &INTEND, &COMMIT, 8, byte)?;
        assert_eq!(rt; by_commit, (greatest, committed));
        let by_end = found_patched(alloc, &COMMIT, &DONE, 8, byte)?;
        assert_eq!(rt; by_end, (7, At::Committed(7)));
    }
    Ok(())
}

#[test]
fn numbers_past_their_limits_are_passed_over(rt: HostRuntime) -> Result<(), Fail> {
    let alloc = rt.alloc();
    // Place and byte: plan 0; the first bytes of the limit of numbers and of those above it; tables 0, 1, 64 and 65.
    for (place, byte, counts) in [
        (8, 0, false),
        (1, 63, true),
        (1, 64, false),
        (1, 128, false),
    ] {
        let (greatest, _) = found_patched(alloc, &[], &INTEND, place, byte)?;
        assert_eq!(rt; greatest > 0, counts, "intend {place} {byte}");
        let (greatest, _) = found_patched(alloc, &[], &COMMIT, place, byte)?;
        assert_eq!(rt; greatest > 0, counts, "commit {place} {byte}");
    }
    for (byte, counts) in [(0, false), (1, true), (64, true), (65, false)] {
        let (greatest, _) = found_patched(alloc, &[], &INTEND, 12, byte)?;
        assert_eq!(rt; greatest > 0, counts, "table {byte} of an intend");
        let (greatest, _) = found_patched(alloc, &[], &COMMIT, 20, byte)?;
        assert_eq!(rt; greatest > 0, counts, "table {byte} of a commit");
    }
    // The last write of a commit, and the state of its record.
    for (place, byte, counts) in [
        (9, 63, true),
        (9, 64, false),
        (52, 0, false),
        (52, 2, true),
        (52, 3, false),
    ] {
        let (greatest, _) = found_patched(alloc, &[], &COMMIT, place, byte)?;
        assert_eq!(rt; greatest > 0, counts, "{place} {byte}");
    }
    Ok(())
}

#[test]
fn the_greatest_plan_is_the_limit_of_numbers(rt: HostRuntime) -> Result<(), Fail> {
    let alloc = rt.alloc();
    let most = patched(alloc, &patched(alloc, &INTEND, 8, 0)?, 1, 64)?;
    let at = found(alloc, &most, &[], &[])?;
    assert_eq!(rt; at, (NUMBER_MAX, At::Intended(NUMBER_MAX)));
    Ok(())
}

#[test]
fn cut_payloads_of_a_journal_are_passed_over(rt: HostRuntime) -> Result<(), Fail> {
    let alloc = rt.alloc();
    for len in 0..INTEND.len() {
        assert_eq!(rt;
            found(alloc, &INTEND[..len], &[], &[])?,
            (0, At::Idle),
            "{len}"
        );
    }
    for len in 0..COMMIT.len() {
        assert_eq!(rt;
            found(alloc, &INTEND, &COMMIT[..len], &[])?,
            (7, At::Intended(7)),
            "{len}"
        );
    }
    for len in 0..DONE.len() {
        assert_eq!(rt;
            found(alloc, &COMMIT, &DONE[..len], &[])?,
            (7, At::Committed(7)),
            "{len}"
        );
    }
    Ok(())
}

#[test]
fn longer_payloads_of_a_journal_are_passed_over(rt: HostRuntime) -> Result<(), Fail> {
    let alloc = rt.alloc();
    let mut longer = Vec::from_slice(alloc, &INTEND)?;
    longer.push(0)?;
    assert_eq!(rt; found(alloc, &longer, &[], &[])?, (0, At::Idle));
    let mut longer = Vec::from_slice(alloc, &SMALL)?;
    longer.push(0)?;
    assert_eq!(rt; found(alloc, &longer, &[], &[])?, (0, At::Idle));
    let mut longer = Vec::from_slice(alloc, &DONE)?;
    longer.push(0)?;
    assert_eq!(rt; found(alloc, &SMALL, &longer, &[])?, (7, At::Committed(7)));
    Ok(())
}

fn has_intend(intend: &Intend) -> bool {
    intend.table == 64
        && intend.row == RowId::from_bytes([5; 16])
        && intend.server
        && intend.chunks == 3
}

fn intend_is_whole(alloc: Global) -> Result<bool, Fail> {
    let log = log_of(alloc, &INTEND, &[], &[])?;
    Ok(log.intended().is_some_and(has_intend))
}

fn has_head(commit: &Commit) -> bool {
    commit.plan == 7 && commit.last == 9 && commit.table == 64 && commit.position == Some(4)
}

fn is_bare(slots: &Slots) -> bool {
    slots.main.is_none()
        && slots.shadow.is_none()
        && slots.out.is_none()
        && slots.conflict.is_none()
}

fn has_row(commit: &Commit) -> bool {
    match &commit.row {
        Some(change) => change.row == RowId::from_bytes([5; 16]) && is_bare(&change.slots),
        None => false,
    }
}

fn has_record(commit: &Commit) -> bool {
    match &commit.new_record {
        Some(change) => {
            change.state == 1
                && change.schema.scheme == Scheme::Causal
                && change.schema.chunk == 64
                && change.schema.columns.len() == 1
        }
        None => false,
    }
}

fn has_lists(commit: &Commit) -> bool {
    let drops = [LocalName {
        plan: 6,
        ordinal: 2,
    }];
    let tells = [Tell::New { version: 4 }];
    commit.drops.as_slice() == drops.as_slice() && commit.tells.as_slice() == tells.as_slice()
}

fn is_small(commit: &Commit) -> bool {
    commit.plan == 7
        && commit.last == 0
        && commit.table == 1
        && commit.row.is_none()
        && commit.position.is_none()
        && commit.new_record.is_none()
        && commit.drops.len() == 0
        && commit.tells.len() == 0
}

// Whether the commit at work is that of the payload above, or the small one.
fn commit_is_whole(alloc: Global, first: &[u8], second: &[u8], small: bool) -> Result<bool, Fail> {
    let mut log = log_of(alloc, first, second, &[])?;
    if log.committed_plan().is_none() {
        return Ok(false);
    }
    let commit = log.committed()?;
    if small {
        Ok(is_small(&commit))
    } else {
        Ok(has_head(&commit) && has_row(&commit) && has_record(&commit) && has_lists(&commit))
    }
}

#[test]
fn what_was_put_is_read_again(rt: HostRuntime) -> Result<(), Fail> {
    let alloc = rt.alloc();
    assert!(rt; intend_is_whole(alloc)?);
    assert!(rt; commit_is_whole(alloc, &COMMIT, &[], false)?);
    assert!(rt; commit_is_whole(alloc, &INTEND, &COMMIT, false)?);
    assert!(rt; commit_is_whole(alloc, &COMMIT, &INTEND, false)?);
    assert!(rt; commit_is_whole(alloc, &SMALL, &COMMIT, true)?);
    Ok(())
}
