//! Clients with gateways, which forget every session in a crash.
use crate::runs::check;
use std::test::Fail;

// A gateway crashes while the answer to a write is on its way. The client registers again, and sends its write again.
const CRASHING: [&str; 24] = [
    "store S1\n",
    "gate G1\n",
    "table T1 notes causal 64 n:int\n",
    "client C1 G1 T1\n",
    "link C1 up\n",
    "deliver 0\n",
    "deliver 1\n",
    "write C1 T1 00000000-0000-4000-8000-000000000001 5\n",
    "sync C1 T1\n",
    "deliver 3\n",
    "deliver 4\n",
    "crash G1 0 0\n",
    "start G1\n",
    "deliver 5\n",
    "sync C1 T1\n",
    "deliver 6\n",
    "deliver 7\n",
    "deliver 8\n",
    "deliver 9\n",
    "sync C1 T1\n",
    "deliver 11\n",
    "deliver 12\n",
    "deliver 13\n",
    "deliver 14\n",
];

const CRASHED: [&str; 38] = [
    "ok\n",
    "sent 0 C1 G1 registerDevice\n",
    "ok\n",
    "sent 1 G1 C1 operationResponse\n",
    "sent 2 G1 S1 restoreClientSubscriptions\n",
    "ok\n",
    "ok 1\n",
    "wrote C1 1 T1 00000000-0000-4000-8000-000000000001 0 5\n",
    "ok 1\n",
    "sent 3 C1 G1 syncRequest\n",
    "ok\n",
    "sent 4 G1 S1 syncRequest\n",
    "ok\n",
    "accepted T1 1 00000000-0000-4000-8000-000000000001 C1 1 0\n",
    "sent 5 S1 G1 syncResponse\n",
    "ok\n",
    "ok\n",
    "ok\n",
    "ok 1\n",
    "sent 6 C1 G1 syncRequest\n",
    "ok\n",
    "sent 7 G1 C1 operationResponse\n",
    "ok\n",
    "sent 8 C1 G1 registerDevice\n",
    "ok\n",
    "sent 9 G1 C1 operationResponse\n",
    "sent 10 G1 S1 restoreClientSubscriptions\n",
    "ok\n",
    "ok 1\n",
    "sent 11 C1 G1 syncRequest\n",
    "ok\n",
    "sent 12 G1 S1 syncRequest\n",
    "ok\n",
    "sent 13 S1 G1 syncResponse\n",
    "ok\n",
    "sent 14 G1 C1 syncResponse\n",
    "ok\n",
    "acked C1 1 T1 00000000-0000-4000-8000-000000000001 1\n",
];

#[test]
fn a_client_registers_again_behind_a_crash_of_its_gateway(rt: HostRuntime) -> Result<(), Fail> {
    check(&rt, rt.alloc(), &CRASHING, 0, &CRASHED)
}

const DECLARED: &str =
    "store S1\ngate G2\ntable T1 notes strong 64 n:int\nclient C1 G2 T1\nclient C2 - T1\n";

// What is done to a gateway, and to a client that has no session.
const DONE: [(&str, &str); 12] = [
    (
        "hold G2\nwork G2\ndo G2\nfree G2\n",
        "ok\nok idle\nok 0\nok\n",
    ),
    ("start G2\n", "ok\n"),
    ("crash G2 4 1\ncrash G2 0 0\n", "ok\nno 30 G2\n"),
    (
        "crash G2 0 0\nhold G2\nfree G2\nwork G2\ndo G2\nstart G2\ndo G2\n",
        "ok\nno 30 G2\nno 30 G2\nno 30 G2\nno 30 G2\nok\nok 0\n",
    ),
    ("sync C1 T1\npull C1 T1\n", "no 24\nno 24\n"),
    (
        "link C1 up\nlink C1 up\nsync C1 T1\nlink C1 down\nlink C1 down\n",
        "ok\nsent 0 C1 G2 registerDevice\nok\nno 24\nok\nok\n",
    ),
    // The answer to a registration comes to a client whose link is down, is down itself, or is at work.
    (
        "link C1 up\ndeliver 0\nlink C1 down\ndeliver 1\nlink C1 up\npull C1 T1\n",
        "ok\nsent 0 C1 G2 registerDevice\nok\nsent 1 G2 C1 operationResponse\nsent 2 G2 S1 restoreClientSubscriptions\nok\nno 24\nok\nsent 3 C1 G2 registerDevice\nno 24\n",
    ),
    (
        "link C1 up\ndeliver 0\ncrash C1 0 0\ndeliver 1\nlink C1 down\nstart C1\ndeliver 1\npull C1 T1\n",
        "ok\nsent 0 C1 G2 registerDevice\nok\nsent 1 G2 C1 operationResponse\nsent 2 G2 S1 restoreClientSubscriptions\nok\nno 30 C1\nno 30 C1\nok\nrecovered C1\nsent 3 C1 G2 registerDevice\nok\nok\nsent 4 C1 G2 pullRequest\n",
    ),
    // A message that comes to a gateway that is down, or of which it knows no session.
    (
        "link C1 up\ncrash G2 0 0\ndeliver 0\nstart G2\ndeliver 0\n",
        "ok\nsent 0 C1 G2 registerDevice\nok\nno 30 G2\nok\nok\nsent 1 G2 C1 operationResponse\nsent 2 G2 S1 restoreClientSubscriptions\n",
    ),
    // A Store that is at work is asked for subscriptions.
    (
        "link C1 up\ndeliver 0\nhold S1\nwrite C2 T1 00000000-0000-4000-8000-000000000001 1\ndeliver 3\ndeliver 2\ndo S1\ndeliver 2\n",
        "ok\nsent 0 C1 G2 registerDevice\nok\nsent 1 G2 C1 operationResponse\nsent 2 G2 S1 restoreClientSubscriptions\nok\nok 1\nwrote C2 1 T1 00000000-0000-4000-8000-000000000001 0 1\nsent 3 C2 S1 syncRequest\nok\nno 17 1\nok 3\naccepted T1 1 00000000-0000-4000-8000-000000000001 C2 1 0\nsent 4 S1 C2 syncResponse\nok\nsent 5 S1 G2 restoreClientSubscriptions\n",
    ),
    ("link C2 down\npull C2 T1\nlink C2 up\n", "ok\nno 24\nok\n"),
    ("deliver 0\n", "no 29 0\n"),
];

#[test]
fn what_is_done_to_gateways_and_sessions(rt: HostRuntime) -> Result<(), Fail> {
    for (script, output) in DONE {
        check(&rt, rt.alloc(), &[DECLARED, script], 0, &[output])?;
    }
    Ok(())
}
