//! Tables that are made and dropped. Expected values come from another program.
use crate::runs::{check, texts};
use crate::stops::{Played, STOPS, Stop, add, lands};
use std::alloc::Global;
use std::process::Abort;
use std::test::Fail;

const DECLARED: &str = "store S1\n\
draft T1 notes causal 64 n:int o:object\n\
table T2 words strong 64 n:int\n\
gate G1\n\
client C1 - -\n\
client C2 - T1,T2\n\
client C3 G1 T2\n";

const CASES: [(&str, &str); 8] = [
    // A table from its draft to its end. It isn't made again.
    (
        "create C1 T1\n\
        deliver 0\n\
        deliver 1\n\
        write C1 T1 00000000-0000-4000-8000-000000000001 5 h:\n\
        drop C1 T1\n\
        deliver 2\n\
        deliver 3\n\
        show C1 T1 00000000-0000-4000-8000-000000000001\n\
        create C1 T1\n\
        deliver 4\n\
        deliver 5\n\
        history T1\n\
        chunks T1\n\
        sshow T1 00000000-0000-4000-8000-000000000001\n",
        "ok\n\
        sent 0 C1 S1 createTable\n\
        ok\n\
        made T1\n\
        sent 1 S1 C1 operationResponse\n\
        ok\n\
        opened C1 T1\n\
        ok 1\n\
        wrote C1 1 T1 00000000-0000-4000-8000-000000000001 0 5 h:\n\
        ok\n\
        sent 2 C1 S1 dropTable\n\
        ok\n\
        unmade T1\n\
        sent 3 S1 C1 operationResponse\n\
        ok\n\
        dropped C1 T1\n\
        no 18\n\
        ok\n\
        sent 4 C1 S1 createTable\n\
        ok\n\
        sent 5 S1 C1 operationResponse\n\
        ok\n\
        ok 0\n\
        ok 0\n\
        no 27\n",
    ),
    // A table that is live is made without a write, and one that is opened isn't opened again.
    (
        "create C2 T2\n\
        deliver 0\n\
        deliver 1\n\
        create C1 T2\n\
        deliver 2\n\
        deliver 3\n\
        deliver 3\n",
        "ok\n\
        sent 0 C2 S1 createTable\n\
        ok\n\
        sent 1 S1 C2 operationResponse\n\
        ok\n\
        ok\n\
        sent 2 C1 S1 createTable\n\
        ok\n\
        sent 3 S1 C1 operationResponse\n\
        ok\n\
        opened C1 T2\n\
        ok\n",
    ),
    // Whatever comes of a draft is answered, each fragment too. Its client closes it for good.
    (
        "write C2 T1 00000000-0000-4000-8000-000000000001 5 h:00\n\
        sync C2 T1\n\
        deliver 0\n\
        deliver 1\n\
        deliver 2\n\
        deliver 3\n\
        show C2 T1 00000000-0000-4000-8000-000000000001\n\
        create C2 T1\n\
        deliver 4\n\
        deliver 5\n\
        pull C2 T1\n\
        drop C2 T1\n",
        "ok 1\n\
        wrote C2 1 T1 00000000-0000-4000-8000-000000000001 0 5 h:00\n\
        ok 1\n\
        sent 0 C2 S1 syncRequest\n\
        sent 1 C2 S1 objectFragment\n\
        ok\n\
        sent 2 S1 C2 operationResponse\n\
        ok\n\
        sent 3 S1 C2 operationResponse\n\
        ok\n\
        dropped C2 T1\n\
        ok\n\
        no 18\n\
        ok\n\
        sent 4 C2 S1 createTable\n\
        ok\n\
        made T1\n\
        sent 5 S1 C2 operationResponse\n\
        ok\n\
        no 18\n\
        no 18\n",
    ),
    // A table at work takes nothing, a draft and a live one alike. A question for subscriptions waits for live ones
    // alone.
    (
        "link C3 up\n\
        deliver 0\n\
        hold S1\n\
        create C1 T1\n\
        deliver 3\n\
        deliver 3\n\
        deliver 2\n\
        drop C2 T2\n\
        deliver 5\n\
        deliver 2\n\
        work S1\n\
        deliver 2\n\
        work S1\n\
        deliver 2\n\
        work S1\n",
        "ok\n\
        sent 0 C3 G1 registerDevice\n\
        ok\n\
        sent 1 G1 C3 operationResponse\n\
        sent 2 G1 S1 restoreClientSubscriptions\n\
        ok\n\
        ok\n\
        sent 3 C1 S1 createTable\n\
        ok\n\
        no 17 0\n\
        ok\n\
        sent 4 S1 G1 restoreClientSubscriptions\n\
        ok\n\
        sent 5 C2 S1 dropTable\n\
        ok\n\
        no 17 0\n\
        ok table-put\n\
        made T1\n\
        sent 6 S1 C1 operationResponse\n\
        no 17 0\n\
        ok table-put\n\
        unmade T2\n\
        sent 7 S1 C2 operationResponse\n\
        ok\n\
        sent 8 S1 G1 restoreClientSubscriptions\n\
        ok idle\n",
    ),
    // What a client refuses before it asks.
    (
        "drop C1 T1\n\
        link C1 down\n\
        create C1 T1\n\
        drop C1 T1\n\
        link C2 down\n\
        drop C2 T2\n\
        create C3 T1\n\
        drop C3 T2\n\
        crash C1 0 0\n\
        create C1 T1\n\
        drop C1 T1\n",
        "no 18\n\
        ok\n\
        no 24\n\
        no 18\n\
        ok\n\
        no 24\n\
        no 24\n\
        no 24\n\
        ok\n\
        no 30 C1\n\
        no 30 C1\n",
    ),
    // A client at work refuses to ask, and to take what a table was answered.
    (
        "hold C2\n\
        write C2 T1 00000000-0000-4000-8000-000000000001 5 h:\n\
        create C2 T1\n\
        drop C2 T2\n\
        drop C2 T1\n\
        create C1 T1\n\
        deliver 0\n\
        deliver 1\n\
        do C2\n\
        create C2 T1\n\
        free C2\n\
        deliver 2\n\
        deliver 3\n\
        show C2 T1 00000000-0000-4000-8000-000000000001\n",
        "ok\n\
        ok 1\n\
        no 17 1\n\
        no 17 1\n\
        no 17 1\n\
        ok\n\
        sent 0 C1 S1 createTable\n\
        ok\n\
        made T1\n\
        sent 1 S1 C1 operationResponse\n\
        ok\n\
        opened C1 T1\n\
        ok 3\n\
        wrote C2 1 T1 00000000-0000-4000-8000-000000000001 0 5 h:\n\
        ok\n\
        sent 2 C2 S1 createTable\n\
        ok\n\
        ok\n\
        sent 3 S1 C2 operationResponse\n\
        ok\n\
        ok mine 1 5 h:\n",
    ),
    // By a gateway.
    (
        "link C3 up\n\
        deliver 0\n\
        deliver 1\n\
        create C3 T1\n\
        deliver 3\n\
        deliver 4\n\
        deliver 5\n\
        deliver 6\n\
        drop C3 T2\n\
        deliver 7\n\
        deliver 8\n\
        deliver 9\n\
        deliver 10\n\
        pull C2 T2\n\
        deliver 11\n\
        deliver 12\n\
        show C2 T2 00000000-0000-4000-8000-000000000001\n",
        "ok\n\
        sent 0 C3 G1 registerDevice\n\
        ok\n\
        sent 1 G1 C3 operationResponse\n\
        sent 2 G1 S1 restoreClientSubscriptions\n\
        ok\n\
        ok\n\
        sent 3 C3 G1 createTable\n\
        ok\n\
        sent 4 G1 S1 createTable\n\
        ok\n\
        made T1\n\
        sent 5 S1 G1 operationResponse\n\
        ok\n\
        sent 6 G1 C3 operationResponse\n\
        ok\n\
        opened C3 T1\n\
        ok\n\
        sent 7 C3 G1 dropTable\n\
        ok\n\
        sent 8 G1 S1 dropTable\n\
        ok\n\
        unmade T2\n\
        sent 9 S1 G1 operationResponse\n\
        ok\n\
        sent 10 G1 C3 operationResponse\n\
        ok\n\
        dropped C3 T2\n\
        ok\n\
        sent 11 C2 S1 pullRequest\n\
        ok\n\
        sent 12 S1 C2 operationResponse\n\
        ok\n\
        dropped C2 T2\n\
        no 18\n",
    ),
    // Drafts and dropped tables recover with the others.
    (
        "drop C2 T2\n\
        deliver 0\n\
        crash S1 0 0\n\
        deliver 0\n\
        start S1\n\
        deliver 0\n\
        hold S1\n\
        crash S1 0 0\n\
        start S1\n\
        do S1\n",
        "ok\n\
        sent 0 C2 S1 dropTable\n\
        ok\n\
        unmade T2\n\
        sent 1 S1 C2 operationResponse\n\
        ok\n\
        no 30 S1\n\
        ok\n\
        recovered S1 T1\n\
        recovered S1 T2\n\
        ok\n\
        sent 2 S1 C2 operationResponse\n\
        ok\n\
        ok\n\
        ok\n\
        ok 6\n\
        recovered S1 T1\n\
        recovered S1 T2\n",
    ),
];

#[test]
fn tables_are_made_and_dropped(rt: HostRuntime) -> Result<(), Fail> {
    for (script, output) in CASES {
        check(&rt, rt.alloc(), &[DECLARED, script], 0, &[output])?;
    }
    Ok(())
}

// The put of a table's state, which a crash cuts short.
const BEGUN: &str = "hold S1\n\
create C1 T1\n\
deliver 0\n";

// Behind the recovery the client asks again: a table that was made is live, and no write is needed.
const AGAIN: &str = "start S1\n\
do S1\n\
create C1 T1\n\
deliver 1\n\
do S1\n";

const RECOVERED: &str = "ok\n\
ok\n\
sent 0 C1 S1 createTable\n\
ok\n\
ok\n\
ok\n\
ok 6\n\
recovered S1 T1\n\
recovered S1 T2\n\
ok\n\
sent 1 C1 S1 createTable\n";

const UNDONE: &str = "ok\n\
ok 1\n\
made T1\n\
sent 2 S1 C1 operationResponse\n";

const MADE: &str = "ok\n\
sent 2 S1 C1 operationResponse\n\
ok 0\n";

fn check_put(rt: &impl Abort, alloc: Global, stop: Stop) -> Result<(), Fail> {
    let Stop { calls, pick } = stop;
    let crash = format!(in alloc; "crash S1 {calls} {pick}\n")?;
    let mut played = Played {
        script: texts(alloc, &[DECLARED, BEGUN, crash.as_str(), AGAIN])?,
        transcript: texts(alloc, &[RECOVERED])?,
    };
    match lands(stop) {
        0 => add(&mut played.transcript, UNDONE)?,
        _ => add(&mut played.transcript, MADE)?,
    }
    played.check(rt, alloc)
}

#[test]
fn the_put_of_a_state_is_cut_short_at_each_call(rt: HostRuntime) -> Result<(), Fail> {
    for stop in STOPS {
        check_put(&rt, rt.alloc(), stop)?;
    }
    Ok(())
}
