//! A client that crashes inside each device write of its plans and of their recoveries. Expected are the rules that the
//! guide states: a plan that isn't committed is undone, and one that is is ended and told again; what was acknowledged
//! stays so.
use crate::client_plans::{CASES, PlanCase};
use crate::runs::texts;
use crate::stops::{Played, STOPS, Stop, add, lands};
use std::alloc::Global;
use std::process::Abort;
use std::test::Fail;

/// How far a plan is.
#[derive(Clone, Copy, PartialEq, Eq)]
enum Found {
    /// It isn't committed, and may have been begun; so many of the chunks that it brings are there.
    Undone { is_begun: bool, left: usize },
    /// It is committed and not done; so many of the chunks that it drops are there.
    Committed { left: usize },
    Done,
}

// How many writes stand before the commit: the intend and the chunks.
fn before_commit(case: &PlanCase) -> usize {
    if case.chunks == 0 {
        0
    } else {
        case.chunks.saturating_add(1)
    }
}

// How many puts stand between the commit and the drops.
fn puts(case: &PlanCase) -> usize {
    match (case.row, case.table) {
        (true, true) => 2,
        (false, false) => 0,
        _ => 1,
    }
}

fn plan_writes(case: &PlanCase) -> usize {
    let behind = puts(case).saturating_add(case.drops).saturating_add(1);
    before_commit(case).saturating_add(1).saturating_add(behind)
}

// The write at this place behind the commit.
fn step_behind(case: &PlanCase, place: usize, drops: usize) -> &'static str {
    if place == 0 && case.row {
        "slot-put"
    } else if place < puts(case) {
        "table-put"
    } else if place < puts(case).saturating_add(drops) {
        "chunk-drop"
    } else {
        "done"
    }
}

fn plan_step(case: &PlanCase, place: usize) -> &'static str {
    let before = before_commit(case);
    if place > before {
        step_behind(
            case,
            place.saturating_sub(before).saturating_sub(1),
            case.drops,
        )
    } else if place == before {
        "commit"
    } else if place == 0 {
        "intend"
    } else {
        "chunk-put"
    }
}

fn found_after(case: &PlanCase, writes: usize) -> Found {
    let before = before_commit(case);
    if writes <= before {
        return Found::Undone {
            is_begun: writes > 0,
            left: writes.saturating_sub(1),
        };
    }
    let behind = writes.saturating_sub(before).saturating_sub(1);
    let dropped = behind.saturating_sub(puts(case));
    if dropped > case.drops {
        Found::Done
    } else {
        Found::Committed {
            left: case.drops.saturating_sub(dropped),
        }
    }
}

// The same behind so many writes of a recovery: three openings, and then the drops, or the end of the plan.
fn found_behind(case: &PlanCase, found: Found, writes: usize) -> Found {
    let done = writes.saturating_sub(3);
    match found {
        Found::Undone { is_begun, left } => Found::Undone {
            is_begun,
            left: left.saturating_sub(done),
        },
        Found::Committed { left } => {
            let dropped = done.saturating_sub(puts(case));
            if dropped > left {
                Found::Done
            } else {
                Found::Committed {
                    left: left.saturating_sub(dropped),
                }
            }
        }
        Found::Done => Found::Done,
    }
}

fn recovery_writes(case: &PlanCase, found: Found) -> usize {
    match found {
        Found::Undone { left, .. } => left.saturating_add(3),
        Found::Committed { left } => puts(case).saturating_add(left).saturating_add(4),
        Found::Done => 3,
    }
}

fn recovery_step(case: &PlanCase, found: Found, place: usize) -> &'static str {
    match (place, found) {
        (0, _) => "open-journal",
        (1, _) => "open-slots",
        (2, _) => "open-chunks",
        (_, Found::Committed { left }) => step_behind(case, place.saturating_sub(3), left),
        _ => "chunk-drop",
    }
}

// A line of the script for the case's client.
fn ask(played: &mut Played, verb: &str, case: &PlanCase) -> Result<(), Fail> {
    add(&mut played.script, verb)?;
    add(&mut played.script, " ")?;
    add(&mut played.script, case.client)?;
    add(&mut played.script, "\n")
}

// The next write, by its name.
fn work(played: &mut Played, case: &PlanCase, step: &str) -> Result<(), Fail> {
    ask(played, "work", case)?;
    add(&mut played.transcript, "ok ")?;
    add(&mut played.transcript, step)?;
    add(&mut played.transcript, "\n")
}

// Up to the plan, and then so many of its writes, one by one.
fn begun(alloc: Global, case: &PlanCase, writes: usize) -> Result<Played, Fail> {
    let mut played = Played {
        script: texts(alloc, &[case.script])?,
        transcript: texts(alloc, &[case.told])?,
    };
    for place in 0..writes {
        let step = plan_step(case, place);
        work(&mut played, case, step)?;
        match step {
            "commit" => add_all(&mut played.transcript, "", case)?,
            "done" => add(&mut played.transcript, case.sent)?,
            _ => {}
        }
    }
    Ok(played)
}

// What the plan's commit tells, each fact behind this word.
fn add_all(text: &mut Vec<u8>, word: &str, case: &PlanCase) -> Result<(), Fail> {
    for fact in case.facts {
        if !fact.is_empty() {
            add(text, word)?;
            add(text, fact)?;
        }
    }
    Ok(())
}

// The client's row, as it is shown where the plan is found so.
fn show(played: &mut Played, case: &PlanCase, found: Found) -> Result<(), Fail> {
    let [old, new] = case.shows;
    add(&mut played.script, case.show)?;
    match found {
        Found::Undone { .. } => add(&mut played.transcript, old),
        _ => add(&mut played.transcript, new),
    }
}

// A crash and a start, which finds the plan so.
fn crash(
    played: &mut Played,
    alloc: Global,
    case: &PlanCase,
    stop: Stop,
    found: Found,
) -> Result<(), Fail> {
    let Stop { calls, pick } = stop;
    let client = case.client;
    let line = format!(in alloc; "crash {client} {calls} {pick}\n")?;
    add(&mut played.script, line.as_str())?;
    ask(played, "start", case)?;
    add(&mut played.transcript, "ok\nok\n")?;
    match found {
        Found::Undone { is_begun: true, .. } => add(&mut played.transcript, case.torn),
        Found::Committed { .. } => add_all(&mut played.transcript, "redone ", case),
        _ => Ok(()),
    }
}

fn recovered(played: &mut Played, case: &PlanCase) -> Result<(), Fail> {
    add(&mut played.transcript, "recovered ")?;
    add(&mut played.transcript, case.client)?;
    add(&mut played.transcript, "\n")
}

// So many writes of the recovery of what was found, one by one.
fn recover(played: &mut Played, case: &PlanCase, found: Found, writes: usize) -> Result<(), Fail> {
    for place in 0..writes {
        work(played, case, recovery_step(case, found, place))?;
    }
    if writes == recovery_writes(case, found) {
        recovered(played, case)?;
    }
    Ok(())
}

// All of the recovery, and then what the client shows and goes on with.
fn end(
    mut played: Played,
    rt: &impl Abort,
    alloc: Global,
    case: &PlanCase,
    found: Found,
) -> Result<(), Fail> {
    ask(&mut played, "do", case)?;
    let count = recovery_writes(case, found);
    let told = format!(in alloc; "ok {count}\n")?;
    add(&mut played.transcript, told.as_str())?;
    recovered(&mut played, case)?;
    show(&mut played, case, found)?;
    add(&mut played.script, case.tail)?;
    match found {
        Found::Undone { is_begun: true, .. } => add(&mut played.transcript, case.begun)?,
        Found::Undone { .. } => add(&mut played.transcript, case.undone)?,
        _ => add(&mut played.transcript, case.done)?,
    }
    played.check(rt, alloc)
}

fn check_plan(
    rt: &impl Abort,
    alloc: Global,
    case: &PlanCase,
    writes: usize,
    stop: Stop,
) -> Result<(), Fail> {
    let found = found_after(case, writes.saturating_add(lands(stop)));
    let mut played = begun(alloc, case, writes)?;
    show(&mut played, case, found_after(case, writes))?;
    crash(&mut played, alloc, case, stop, found)?;
    end(played, rt, alloc, case, found)
}

#[test]
fn a_plan_is_cut_short_at_each_call_of_each_write(rt: HostRuntime) -> Result<(), Fail> {
    for case in &CASES {
        for writes in 0..=plan_writes(case) {
            for stop in STOPS {
                check_plan(&rt, rt.alloc(), case, writes, stop)?;
            }
        }
    }
    Ok(())
}

// The plan is cut short behind so many writes, and its recovery inside the next one behind so many.
fn check_recovery(
    rt: &impl Abort,
    alloc: Global,
    case: &PlanCase,
    writes: usize,
    recovered: usize,
    stop: Stop,
) -> Result<(), Fail> {
    let first = found_after(case, writes);
    let second = found_behind(case, first, recovered.saturating_add(lands(stop)));
    let mut played = begun(alloc, case, writes)?;
    show(&mut played, case, first)?;
    crash(&mut played, alloc, case, Stop { calls: 0, pick: 0 }, first)?;
    recover(&mut played, case, first, recovered)?;
    show(&mut played, case, first)?;
    crash(&mut played, alloc, case, stop, second)?;
    end(played, rt, alloc, case, second)
}

fn check_recoveries(
    rt: &impl Abort,
    alloc: Global,
    case: &PlanCase,
    writes: usize,
) -> Result<(), Fail> {
    for recovered in 0..=recovery_writes(case, found_after(case, writes)) {
        for stop in STOPS {
            check_recovery(rt, alloc, case, writes, recovered, stop)?;
        }
    }
    Ok(())
}

#[test]
fn a_clients_recovery_is_cut_short_at_each_call_of_each_write(rt: HostRuntime) -> Result<(), Fail> {
    for case in &CASES {
        for writes in 0..=plan_writes(case) {
            check_recoveries(&rt, rt.alloc(), case, writes)?;
        }
    }
    Ok(())
}
