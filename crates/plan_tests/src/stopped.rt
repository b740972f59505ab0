//! Journals whose disk stops in a put.
ghost use Rattle.std.specs.Prelude.{◌≤◌, OnOk, IfOk, length};
ghost use Rattle.disk_trait.specs.Fuse.{behind};
ghost use Rattle.stab_base.specs.declared.limits.TheConstants.{NUMBER_MAX};
ghost use Rattle.vault.specs.Limit.{payload_most};
ghost use Rattle.vault.specs.Standing.{IsUp};
ghost use Rattle.plan_log.specs.Spelling.{HasIntend, HasCommit, commit_payload};
ghost use Rattle.plan_log.specs.Standing.{vault_of, IsLookedAt};

use crate::disks::disk_of;
use crate::found::{At, COMMIT, at_work};
use disk_kit::MemDisk;
use disk_trait::{Disk, FuseDisk};
use plan_log::{Commit, Intend, PlanFault, PlanLog, commit_size};
use stab_base::{NUMBER_MAX, RowId};
use std::alloc::Global;
use std::process::Abort;
use std::test::Fail;

/// What is put in turn.
#[derive(Clone, Copy)]
enum Step {
    Intend(u64),
    Commit(u64),
    Done,
}

const STEPS: [Step; 12] = [
    Step::Done,
    Step::Intend(1),
    Step::Commit(1),
    Step::Intend(2),
    Step::Done,
    Step::Commit(1),
    Step::Commit(2),
    Step::Done,
    Step::Intend(4),
    Step::Intend(5),
    Step::Commit(NUMBER_MAX),
    Step::Done,
];

fn intend_with(plan: u64) -> Intend
    requires least { 1 ≤ plan }
    requires most { plan ≤ NUMBER_MAX }
    ensures { HasIntend result }
{
    Intend {
        plan,
        table: 1,
        row: RowId::from_bytes([9; 16]),
        server: false,
        chunks: u32::MAX,
    }
}

// The commit above, of this plan.
fn commit_with(alloc: Global, plan: u64) -> Result<Commit, Fail>
    ensures spelled { IfOk result HasCommit }
    ensures short { IfOk result (λ commit. length (commit_payload commit) ≤ payload_most) }
{
    let mut bytes = COMMIT;
    bytes[1..9].copy_from_slice(&plan.to_be_bytes());
    let mut log = PlanLog::new(alloc, disk_of(alloc, &bytes, &[], &[])?);
    log.look()?;
    if log.committed_plan().is_none() {
        return Err("no commit".into());
    }
    Ok(log.committed()?)
}

fn stop_intend<D: Disk + Drop>(
    log: &mut PlanLog<FuseDisk<D>>,
    intend: &Intend,
    calls: u32,
    pick: u64,
) -> Result<(), PlanFault>
    requires looked { IsLookedAt (behind D.state) log.old }
    requires spelled { HasIntend intend.now }
{
    log.reserve(1, 34)?;
    log.open_write()?;
    log.stop_after(calls, pick);
    if log.may_intend(intend.plan) {
        let _ = log.intend(intend);
    }
    Ok(())
}

fn stop_commit<D: Disk + Drop>(
    alloc: Global,
    log: &mut PlanLog<FuseDisk<D>>,
    commit: &Commit,
    calls: u32,
    pick: u64,
) -> Result<(), PlanFault>
    requires looked { IsLookedAt (behind D.state) log.old }
    requires spelled { HasCommit commit.now }
    requires short { length (commit_payload commit.now) ≤ payload_most }
{
    let size = commit_size(alloc, commit)?;
    log.reserve(1, size as u64)?;
    log.open_write()?;
    log.stop_after(calls, pick);
    if log.may_commit(commit.plan) {
        let _ = log.commit(commit);
    }
    Ok(())
}

fn stop_done<D: Disk + Drop>(
    log: &mut PlanLog<FuseDisk<D>>,
    calls: u32,
    pick: u64,
) -> Result<(), PlanFault>
    requires { IsLookedAt (behind D.state) log.old }
{
    log.reserve(1, 9)?;
    log.open_write()?;
    log.stop_after(calls, pick);
    if log.committed_plan().is_some() {
        let _ = log.done();
    }
    Ok(())
}

// Opens for puts, where a fuse stops it after so many calls of the disk; then crashes and looks.
fn stop_opening<D: Disk + Drop>(
    log: &mut PlanLog<FuseDisk<D>>,
    calls: u32,
    pick: u64,
) -> Result<(), PlanFault>
    requires { IsLookedAt (behind D.state) log.old }
    ensures { OnOk result (IsLookedAt (behind D.state) log.new) }
{
    log.reserve(0, 0)?;
    log.stop_after(calls, pick);
    let _ = log.open_write();
    log.restart(0);
    log.look()
}

// Does one step, where a fuse stops it after so many calls of the disk; then crashes and looks.
fn stop_step<D: Disk + Drop>(
    alloc: Global,
    log: &mut PlanLog<FuseDisk<D>>,
    step: Step,
    calls: u32,
    pick: u64,
) -> Result<(), Fail>
    requires { IsLookedAt (behind D.state) log.old }
    ensures { OnOk result (IsLookedAt (behind D.state) log.new) }
{
    stop_opening(log, calls, pick)?;
    match step {
        Step::Intend(plan) if 1 <= plan && plan <= NUMBER_MAX => {
            stop_intend(log, &intend_with(plan), calls, pick)?;
        }
        Step::Commit(plan) => {
            let commit = commit_with(alloc, plan)?;
            stop_commit(alloc, log, &commit, calls, pick)?;
        }
        _ => stop_done(log, calls, pick)?,
    }
    log.restart(0);
    log.look()?;
    Ok(())
}

// What is at work behind a step that counts.
fn stepped(greatest: u64, at: At, step: Step) -> (u64, At) {
    match (step, at) {
        (Step::Intend(_), At::Committed(_)) => (greatest, at),
        (Step::Intend(plan), _) if plan > greatest => (plan, At::Intended(plan)),
        (Step::Commit(plan), At::Intended(before)) if plan == before => {
            (greatest, At::Committed(plan))
        }
        (Step::Commit(plan), _) if plan > greatest => (plan, At::Committed(plan)),
        (Step::Done, At::Committed(_)) => (greatest, At::Idle),
        _ => (greatest, at),
    }
}

// Does all steps, where a fuse stops one of them after so many calls of the disk.
fn run_steps<D: Disk + Drop>(
    rt: &impl Abort,
    alloc: Global,
    log: &mut PlanLog<FuseDisk<D>>,
    stopped: usize,
    calls: u32,
    pick: u64,
) -> Result<(), Fail>
    requires { IsLookedAt (behind D.state) log.old }
{
    let mut model = (0, At::Idle);
    for (index, step) in STEPS.iter().enumerate() {
        let all = index != stopped;
        stop_step(alloc, log, *step, if all { 100 } else { calls }, pick)?;
        // The third call of a put opens the new payload's gate.
        if all || calls > 2 || (calls == 2 && pick > 0) {
            model = stepped(model.0, model.1, *step);
        }
        let found = (log.greatest(), at_work(log));
        assert_eq!(rt; found, model, "{stopped} {calls} {pick} {index}");
    }
    Ok(())
}

fn run<D: Disk + Drop>(
    rt: &impl Abort,
    alloc: Global,
    log: &mut PlanLog<FuseDisk<D>>,
    stopped: usize,
    calls: u32,
    pick: u64,
) -> Result<(), Fail>
    requires { IsUp (vault_of log.old) }
{
    log.format()?;
    run_steps(rt, alloc, log, stopped, calls, pick)
}

#[test]
fn plans_are_put_whole_or_not_at_all(rt: HostRuntime) -> Result<(), Fail> {
    for stopped in 0..STEPS.len() {
        for calls in 0..5 {
            for pick in [0, 1, 1000] {
                let mut log = PlanLog::new(rt.alloc(), FuseDisk::new(MemDisk::new(rt.alloc())));
                run(&rt, rt.alloc(), &mut log, stopped, calls, pick)?;
            }
        }
    }
    Ok(())
}
