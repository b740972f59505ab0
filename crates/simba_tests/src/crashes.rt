//! A Store that crashes inside each device write of an update and of its recovery. Expected are the rules that the
//! guide states: of a write's four calls the first two and less leave it undone, but where a byte of the third lands.
use crate::runs::texts;
use crate::stops::{Played, STOPS, Stop, add, lands};
use std::alloc::Global;
use std::process::Abort;
use std::test::Fail;

// A row of one chunk is there. The update puts one of two chunks in its place: six device writes.
const BEGUN: &str = "store S1\n\
table T1 notes eventual 64 o:object\n\
client C1 - T1\n\
write C1 T1 00000000-0000-4000-8000-000000000001 h:00\n\
sync C1 T1\n\
deliver 0\n\
deliver 1\n\
deliver 2\n\
write C1 T1 00000000-0000-4000-8000-000000000001 r:65:01\n\
sync C1 T1\n\
hold S1\n\
deliver 3\n\
deliver 4\n\
deliver 5\n";

const UPDATE: [&str; 6] = [
    "log-open",
    "chunk-put",
    "chunk-put",
    "row-put",
    "chunk-drop",
    "log-close",
];

const OBJECT: &str =
    "0101010101010101010101010101010101010101010101010101010101010101010101010101010101010101010101010101010101010101010101010101010101";

/// How far an update is: how many of its writes are done.
#[derive(Clone, Copy, PartialEq, Eq)]
enum Found {
    /// It isn't open, and the row is the old one or the new one.
    Closed { is_new: bool },
    /// It is open and the row isn't put; so many of its chunks are there.
    Back { left: usize },
    /// It is open and the row is put; so many of the old chunks are there.
    Forward { left: usize },
}

fn found_after(writes: usize) -> Found {
    match writes {
        0 => Found::Closed { is_new: false },
        1 => Found::Back { left: 0 },
        2 => Found::Back { left: 1 },
        3 => Found::Back { left: 2 },
        4 => Found::Forward { left: 1 },
        5 => Found::Forward { left: 0 },
        _ => Found::Closed { is_new: true },
    }
}

// The same behind so many writes of a recovery: three openings, the drops, the close.
fn found_behind(found: Found, writes: usize) -> Found {
    let drops = writes.saturating_sub(3);
    match found {
        Found::Closed { is_new } => Found::Closed { is_new },
        Found::Back { left } if drops <= left => Found::Back { left: left - drops },
        Found::Forward { left } if drops <= left => Found::Forward { left: left - drops },
        Found::Back { .. } => Found::Closed { is_new: false },
        Found::Forward { .. } => Found::Closed { is_new: true },
    }
}

fn recovery_writes(found: Found) -> usize {
    match found {
        Found::Closed { .. } => 3,
        Found::Back { left } | Found::Forward { left } => left.saturating_add(4),
    }
}

fn recovery_step(found: Found, place: usize) -> &'static str {
    match place {
        0 => "open-chunks",
        1 => "open-rows",
        2 => "open-log",
        _ if place.saturating_add(1) < recovery_writes(found) => "chunk-drop",
        _ => "log-close",
    }
}

// What a start tells of it.
fn told(found: Found) -> &'static str {
    match found {
        Found::Closed { .. } => "",
        Found::Back { .. } => "back T1 2\n",
        Found::Forward { .. } => { "forward T1 2 00000000-0000-4000-8000-000000000001 C1 2 1\n" }
    }
}

fn is_new(found: Found) -> bool {
    match found {
        Found::Closed { is_new } => is_new,
        Found::Back { .. } => false,
        Found::Forward { .. } => true,
    }
}

const ROW: &str = "00000000-0000-4000-8000-000000000001";

impl Played {
    // Up to the update, of which no write is done.
    fn begun(alloc: Global) -> Result<Played, Fail> {
        let told = format!(in alloc;
            "ok 1\nwrote C1 1 T1 {ROW} 0 h:00\n\
            ok 1\nsent 0 C1 S1 syncRequest\nsent 1 C1 S1 objectFragment\n\
            ok\nok\naccepted T1 1 {ROW} C1 1 0\nsent 2 S1 C1 syncResponse\nok\nacked C1 1 T1 {ROW} 1\n\
            ok 2\nwrote C1 2 T1 {ROW} 1 h:{OBJECT}\n\
            ok 1\nsent 3 C1 S1 syncRequest\nsent 4 C1 S1 objectFragment\nsent 5 C1 S1 objectFragment\n\
            ok\nok\nok\nok\n"
        )?;
        Ok(Played {
            script: texts(alloc, &[BEGUN])?,
            transcript: texts(alloc, &[told.as_str()])?,
        })
    }

    // So many writes of the update, one by one.
    fn work(&mut self, writes: usize) -> Result<(), Fail> {
        for step in UPDATE.iter().take(writes) {
            add(&mut self.script, "work S1\n")?;
            add(&mut self.transcript, "ok ")?;
            add(&mut self.transcript, step)?;
            match *step {
                "row-put" => add(
                    &mut self.transcript,
                    "\naccepted T1 2 00000000-0000-4000-8000-000000000001 C1 2 1\n",
                )?,
                "log-close" => add(&mut self.transcript, "\nsent 6 S1 C1 syncResponse\n")?,
                _ => add(&mut self.transcript, "\n")?,
            }
        }
        Ok(())
    }

    // A crash and a start, which finds the update so.
    fn crash(&mut self, alloc: Global, stop: Stop, found: Found) -> Result<(), Fail> {
        let Stop { calls, pick } = stop;
        let line = format!(in alloc; "crash S1 {calls} {pick}\nstart S1\n")?;
        add(&mut self.script, line.as_str())?;
        add(&mut self.transcript, "ok\nok\n")?;
        add(&mut self.transcript, told(found))
    }

    // So many writes of the recovery of what was found, one by one.
    fn recover(&mut self, found: Found, writes: usize) -> Result<(), Fail> {
        for place in 0..writes {
            add(&mut self.script, "work S1\n")?;
            add(&mut self.transcript, "ok ")?;
            add(&mut self.transcript, recovery_step(found, place))?;
            add(&mut self.transcript, "\n")?;
        }
        if writes == recovery_writes(found) {
            add(&mut self.transcript, "recovered S1 T1\n")?;
        }
        Ok(())
    }

    // All of the recovery, and then what the Store has.
    fn end(&mut self, alloc: Global, found: Found) -> Result<(), Fail> {
        add(
            &mut self.script,
            "do S1\nchunks T1\nsshow T1 00000000-0000-4000-8000-000000000001\n",
        )?;
        let count = recovery_writes(found);
        let told = format!(in alloc; "ok {count}\nrecovered S1 T1\n")?;
        add(&mut self.transcript, told.as_str())?;
        if is_new(found) {
            let shown = format!(in alloc; "ok 2 2.0 2.1\nok 2 h:{OBJECT}\n")?;
            add(&mut self.transcript, shown.as_str())
        } else {
            add(&mut self.transcript, "ok 1 1.0\nok 1 h:00\n")
        }
    }
}

fn check_update(rt: &impl Abort, alloc: Global, writes: usize, stop: Stop) -> Result<(), Fail> {
    let found = found_after(writes.saturating_add(lands(stop)));
    let mut played = Played::begun(alloc)?;
    played.work(writes)?;
    played.crash(alloc, stop, found)?;
    played.end(alloc, found)?;
    played.check(rt, alloc)
}

#[test]
fn an_update_is_cut_short_at_each_call_of_each_write(rt: HostRuntime) -> Result<(), Fail> {
    for writes in 0..7 {
        for stop in STOPS {
            check_update(&rt, rt.alloc(), writes, stop)?;
        }
    }
    Ok(())
}

// The update is cut short behind so many writes, and its recovery inside the next one behind so many.
fn check_recovery(
    rt: &impl Abort,
    alloc: Global,
    writes: usize,
    recovered: usize,
    stop: Stop,
) -> Result<(), Fail> {
    let first = found_after(writes);
    let second = found_behind(first, recovered.saturating_add(lands(stop)));
    let mut played = Played::begun(alloc)?;
    played.work(writes)?;
    played.crash(alloc, Stop { calls: 0, pick: 0 }, first)?;
    played.recover(first, recovered)?;
    played.crash(alloc, stop, second)?;
    played.end(alloc, second)?;
    played.check(rt, alloc)
}

#[test]
fn a_recovery_is_cut_short_at_each_call_of_each_write(rt: HostRuntime) -> Result<(), Fail> {
    for writes in 0..7 {
        for recovered in 0..=recovery_writes(found_after(writes)) {
            for stop in STOPS {
                check_recovery(&rt, rt.alloc(), writes, recovered, stop)?;
            }
        }
    }
    Ok(())
}
