//! Plans of each shape, stopped inside each of their writes, and recoveries stopped too.
ghost use Rattle.std.specs.Prelude.{OnOk};
ghost use Rattle.disk_trait.specs.Fuse.{behind};
ghost use Rattle.journal_tests.specs.Standing.{IsMoving, IsResting, IsCrashed, IsKnown};

use crate::calls::{crash, finish, format, look, recover, stop, work};
use crate::plans::{Shape, begin};
use crate::shown::{Shown, first_byte, shows};
use client_journal::{Journal, JournalFault, Rolled};
use disk_kit::MemDisk;
use disk_trait::{Disk, FuseDisk};
use held_value::LocalName;
use std::alloc::Global;
use std::process::Abort;
use std::test::Fail;

/// The plans in turn: how many writes each has, and which of these is its commit.
const PLANS: [(Shape, usize, usize); 6] = [
    (Shape::Open, 3, 0),
    (Shape::Position(4), 3, 0),
    (Shape::First(1, 5), 6, 2),
    (Shape::Other(2), 3, 0),
    (Shape::Second(3), 7, 3),
    (Shape::Close, 3, 0),
];

/// What is told before each plan, and behind the last.
const SHOWN: [Shown; 7] = [
    Shown {
        record: None,
        last: 0,
        writes: [None, None],
        chunks: &[],
    },
    Shown {
        record: Some((1, 0)),
        last: 0,
        writes: [None, None],
        chunks: &[],
    },
    Shown {
        record: Some((1, 4)),
        last: 0,
        writes: [None, None],
        chunks: &[],
    },
    Shown {
        record: Some((1, 5)),
        last: 1,
        writes: [Some(1), None],
        chunks: &[11],
    },
    Shown {
        record: Some((1, 5)),
        last: 2,
        writes: [Some(1), Some(2)],
        chunks: &[11],
    },
    Shown {
        record: Some((1, 5)),
        last: 3,
        writes: [Some(3), Some(2)],
        chunks: &[21, 22],
    },
    Shown {
        record: Some((2, 5)),
        last: 3,
        writes: [Some(3), Some(2)],
        chunks: &[21, 22],
    },
];

/// The chunk that the fifth plan drops; the third plan brought it.
const DROPPED: LocalName = LocalName {
    plan: 3,
    ordinal: 0,
};

/// Which plan is stopped, in which of its writes, after how many calls of the disk, and with how many bytes.
#[derive(Debug, Clone, Copy)]
struct Place {
    plan: usize,
    write: usize,
    calls: u32,
    pick: u64,
}

// Does these plans.
fn do_plans<D: Disk + Drop>(
    alloc: Global,
    client: &mut Journal<D>,
    plans: &[(Shape, usize, usize)],
) -> Result<(), Fail>
    requires { IsResting D.state client.old }
    ensures { OnOk result (IsResting D.state client.new) }
{
    for (shape, _, _) in plans {
        begin(alloc, client, *shape)?;
        finish(client)?;
    }
    Ok(())
}

// So many writes.
fn do_writes<D: Disk + Drop>(client: &mut Journal<D>, count: usize) -> Result<(), JournalFault>
    requires { IsMoving D.state client.old }
    ensures { OnOk result (IsMoving D.state client.new) }
{
    for _ in 0..count {
        work(client)?;
    }
    Ok(())
}

// Does the plans before the one that is stopped, and that one up to the crash.
fn cut<D: Disk + Drop>(
    alloc: Global,
    client: &mut Journal<FuseDisk<D>>,
    at: Place,
) -> Result<(), Fail>
    ensures { OnOk result (IsCrashed (behind D.state) client.new) }
{
    format(client)?;
    do_plans(alloc, client, &PLANS[..at.plan.min(5)])?;
    begin(alloc, client, PLANS[at.plan.min(5)].0)?;
    do_writes(client, at.write)?;
    stop(client, at.calls, at.pick);
    Ok(())
}

// The third call of a write opens its payload's gate, where it lands its one byte.
fn lands(calls: u32, pick: u64) -> bool {
    calls > 2 || (calls == 2 && pick > 0)
}

// What is to be told behind the crash.
fn wanted(at: Place) -> Shown {
    let plan = at.plan.min(5);
    let commit = PLANS[plan].2;
    if at.write > commit || (at.write == commit && lands(at.calls, at.pick)) {
        SHOWN[plan + 1]
    } else {
        SHOWN[plan]
    }
}

// Looks, and says whether the readers tell what they are to, and takes the recovery on.
fn start<D: Disk + Drop>(
    alloc: Global,
    client: &mut Journal<D>,
    wanted: &Shown,
) -> Result<(bool, Rolled), JournalFault>
    requires { IsCrashed D.state client.old }
    ensures { OnOk result (IsMoving D.state client.new) }
{
    look(client)?;
    let same = shows(alloc, client, wanted)?;
    let rolled = recover(client)?;
    Ok((same, rolled))
}

// Recovers to the end, and says whether the readers tell what they are to before and behind it, and whether the
// dropped chunk is there as long as it is named.
fn recovers<D: Disk + Drop>(
    alloc: Global,
    client: &mut Journal<D>,
    wanted: &Shown,
) -> Result<bool, JournalFault>
    requires { IsCrashed D.state client.old }
{
    let (before, _) = start(alloc, client, wanted)?;
    finish(client)?;
    crash(client);
    look(client)?;
    let behind = shows(alloc, client, wanted)?;
    let is_named = wanted.chunks == [11].as_slice();
    let is_there = first_byte(client, DROPPED)? == Some(11);
    Ok(before && behind && is_named == is_there)
}

fn client_with(alloc: Global) -> Journal<FuseDisk<MemDisk>> {
    Journal::new(
        alloc,
        FuseDisk::new(MemDisk::new(alloc)),
        FuseDisk::new(MemDisk::new(alloc)),
        FuseDisk::new(MemDisk::new(alloc)),
    )
}

fn is_whole(alloc: Global, at: Place) -> Result<bool, Fail> {
    let mut client = client_with(alloc);
    cut(alloc, &mut client, at)?;
    Ok(recovers(alloc, &mut client, &wanted(at))?)
}

#[test]
fn a_plan_cut_short_is_whole_or_not_there(rt: HostRuntime) -> Result<(), Fail> {
    for (plan, (_, writes, _)) in PLANS.iter().enumerate() {
        for write in 0..*writes {
            for calls in 0..5 {
                for pick in [0, 1, 1000] {
                    let at = Place {
                        plan,
                        write,
                        calls,
                        pick,
                    };
                    assert!(rt; is_whole(rt.alloc(), at)?, "{at:?}");
                }
            }
        }
    }
    Ok(())
}

// Starts, and stops one of the writes of the recovery.
fn cut_again<D: Disk + Drop>(
    alloc: Global,
    client: &mut Journal<FuseDisk<D>>,
    wanted: &Shown,
    again: usize,
    calls: u32,
    pick: u64,
) -> Result<bool, JournalFault>
    requires { IsCrashed (behind D.state) client.old }
    ensures { OnOk result (IsCrashed (behind D.state) client.new) }
{
    let (same, _) = start(alloc, client, wanted)?;
    do_writes(client, again)?;
    stop(client, calls, pick);
    Ok(same)
}

fn is_whole_again(
    alloc: Global,
    at: Place,
    again: usize,
    calls: u32,
    pick: u64,
) -> Result<bool, Fail> {
    let mut client = client_with(alloc);
    cut(alloc, &mut client, at)?;
    let before = cut_again(alloc, &mut client, &wanted(at), again, calls, pick)?;
    Ok(before && recovers(alloc, &mut client, &wanted(at))?)
}

#[test]
fn a_recovery_cut_short_is_recovered(rt: HostRuntime) -> Result<(), Fail> {
    for (plan, (_, writes, _)) in PLANS.iter().enumerate() {
        for write in 0..*writes {
            let at = Place {
                plan,
                write,
                calls: 4,
                pick: 0,
            };
            for again in 0..8 {
                for (calls, pick) in [(0, 1), (1, 0), (2, 0), (2, 1), (3, 0)] {
                    assert!(rt;
                        is_whole_again(rt.alloc(), at, again, calls, pick)?,
                        "{at:?} {again} {calls} {pick}"
                    );
                }
            }
        }
    }
    Ok(())
}

// Whether a start redoes the plan that was cut short, and whether it tells that its row is torn.
fn rolls<D: Disk + Drop>(
    alloc: Global,
    client: &mut Journal<D>,
    wanted: &Shown,
) -> Result<(bool, bool), JournalFault>
    requires { IsCrashed D.state client.old }
{
    let (_, rolled) = start(alloc, client, wanted)?;
    Ok((rolled.redone.is_some(), rolled.torn.is_some()))
}

fn rolls_at(alloc: Global, at: Place) -> Result<(bool, bool), Fail> {
    let mut client = client_with(alloc);
    cut(alloc, &mut client, at)?;
    Ok(rolls(alloc, &mut client, &wanted(at))?)
}

#[test]
fn a_start_redoes_what_is_committed_and_not_done(rt: HostRuntime) -> Result<(), Fail> {
    for (plan, (_, writes, commit)) in PLANS.iter().enumerate() {
        for write in 0..*writes {
            let at = Place {
                plan,
                write,
                calls: 4,
                pick: 0,
            };
            let is_redone = write >= *commit && write < writes.saturating_sub(1);
            assert_eq!(rt; rolls_at(rt.alloc(), at)?, (is_redone, false), "{at:?}");
        }
    }
    Ok(())
}
