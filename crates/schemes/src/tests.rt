use crate::{Decision, decide};
use row_value::Scheme;
use stab_base::{Version, WriteNo};

const LATEST: u64 = u64::MAX;

// A scheme, the base, the row's version, the client's last pair and the number; and what is due.
type Case = (
    Scheme,
    Version,
    Version,
    (WriteNo, Version),
    WriteNo,
    Decision,
);

// A repeat is told before the base is looked at, and a base above the row's version is as wrong as one below.
const CASES: [Case; 11] = [
    (Scheme::Strong, 0, 0, (0, 0), 1, Decision::Accept),
    (
        Scheme::Strong,
        0,
        1,
        (0, 0),
        1,
        Decision::Stale { latest: 1 },
    ),
    (
        Scheme::Causal,
        0,
        1,
        (0, 0),
        1,
        Decision::Conflict { latest: 1 },
    ),
    (Scheme::Causal, 1, 1, (0, 0), 1, Decision::Accept),
    (Scheme::Eventual, 1, 1, (1, 1), 2, Decision::Accept),
    (
        Scheme::Eventual,
        0,
        2,
        (2, 2),
        1,
        Decision::Late { last: 2 },
    ),
    (
        Scheme::Causal,
        0,
        1,
        (1, 1),
        1,
        Decision::Again { version: 1 },
    ),
    (
        Scheme::Strong,
        7,
        9,
        (3, 8),
        3,
        Decision::Again { version: 8 },
    ),
    (
        Scheme::Causal,
        5,
        4,
        (3, 4),
        4,
        Decision::Conflict { latest: 4 },
    ),
    (
        Scheme::Strong,
        0,
        LATEST,
        (0, 0),
        LATEST,
        Decision::Stale { latest: LATEST },
    ),
    (
        Scheme::Eventual,
        0,
        LATEST,
        (LATEST, LATEST),
        1,
        Decision::Late { last: LATEST },
    ),
];

#[test]
fn each_decision_comes_where_it_is_due(rt: HostRuntime) {
    for (scheme, base, current, last, number, decision) in CASES {
        assert_eq!(rt; decide(scheme, base, current, last, number), decision);
    }
}
