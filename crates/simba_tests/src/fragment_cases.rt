//! Messages in parts, each part lost, repeated, early and late. Expected lines come from another program. An object
//! has four chunks, the last one of three bytes.

// A row of four chunks is at the Store, and its client sends a write that changes all of them: packets 6 to 10.
pub(crate) const UP: &str =
    "store S1\ntable T1 photos causal 64 o:object\nclient C1 - T1\nclient C2 - T1\n\
write C1 T1 00000000-0000-4000-8000-000000000001 r:195:0102030405\nsync C1 T1\ndeliver 0\ndeliver 1\ndeliver 2\n\
deliver 3\ndeliver 4\ndeliver 5\nwrite C1 T1 00000000-0000-4000-8000-000000000001 r:195:1112131415\nsync C1 T1\n";

pub(crate) const UP_TOLD: &str = "ok 1\n\
wrote C1 1 T1 00000000-0000-4000-8000-000000000001 0 h:0102030405010203040501020304050102030405010203040501020304050\
10203040501020304050102030405010203040501020304050102030405010203040501020304050102030405010203040501020304050102030\
40501020304050102030405010203040501020304050102030405010203040501020304050102030405010203040501020304050102030405010\
2030405010203040501020304050102030405010203040501020304050102030405010203040501020304050102030405\nok 1\n\
sent 0 C1 S1 syncRequest\nsent 1 C1 S1 objectFragment\nsent 2 C1 S1 objectFragment\nsent 3 C1 S1 objectFragment\n\
sent 4 C1 S1 objectFragment\nok\nok\nok\nok\nok\naccepted T1 1 00000000-0000-4000-8000-000000000001 C1 1 0\n\
sent 5 S1 C1 syncResponse\nok\nacked C1 1 T1 00000000-0000-4000-8000-000000000001 1\nok 2\n\
wrote C1 2 T1 00000000-0000-4000-8000-000000000001 1 h:1112131415111213141511121314151112131415111213141511121314151\
11213141511121314151112131415111213141511121314151112131415111213141511121314151112131415111213141511121314151112131\
41511121314151112131415111213141511121314151112131415111213141511121314151112131415111213141511121314151112131415111\
2131415111213141511121314151112131415111213141511121314151112131415111213141511121314151112131415\nok 1\n\
sent 6 C1 S1 syncRequest\nsent 7 C1 S1 objectFragment\nsent 8 C1 S1 objectFragment\nsent 9 C1 S1 objectFragment\n\
sent 10 C1 S1 objectFragment\n";

// What the Store has at the end of each case.
pub(crate) const AT_STORE: &str = "chunks T1\nsshow T1 00000000-0000-4000-8000-000000000001\n";

pub(crate) const AT_STORE_TOLD: &str = "ok 4 2.0 2.1 2.2 2.3\n\
ok 2 h:1112131415111213141511121314151112131415111213141511121314151112131415111213141511121314151112131415111213141\
51112131415111213141511121314151112131415111213141511121314151112131415111213141511121314151112131415111213141511121\
31415111213141511121314151112131415111213141511121314151112131415111213141511121314151112131415111213141511121314151\
1121314151112131415111213141511121314151112131415\n";

pub(crate) const UP_CASES: [(&str, &str); 14] = [
    // Each fragment is lost, and all are sent again.
    (
        "deliver 6\ndeliver 8\ndeliver 9\ndeliver 10\nchunks T1\nsync C1 T1\ndeliver 11\ndeliver 12\ndeliver 13\n\
        deliver 14\ndeliver 15\n",
        "ok\nok\nok\nok\nok 4 1.0 1.1 1.2 1.3\nok 1\nsent 11 C1 S1 syncRequest\nsent 12 C1 S1 objectFragment\n\
        sent 13 C1 S1 objectFragment\nsent 14 C1 S1 objectFragment\nsent 15 C1 S1 objectFragment\nok\nok\nok\nok\n\
        ok\naccepted T1 2 00000000-0000-4000-8000-000000000001 C1 2 1\nsent 16 S1 C1 syncResponse\n",
    ),
    (
        "deliver 6\ndeliver 7\ndeliver 9\ndeliver 10\nchunks T1\nsync C1 T1\ndeliver 11\ndeliver 12\ndeliver 13\n\
        deliver 14\ndeliver 15\n",
        "ok\nok\nok\nok\nok 4 1.0 1.1 1.2 1.3\nok 1\nsent 11 C1 S1 syncRequest\nsent 12 C1 S1 objectFragment\n\
        sent 13 C1 S1 objectFragment\nsent 14 C1 S1 objectFragment\nsent 15 C1 S1 objectFragment\nok\nok\nok\nok\n\
        ok\naccepted T1 2 00000000-0000-4000-8000-000000000001 C1 2 1\nsent 16 S1 C1 syncResponse\n",
    ),
    (
        "deliver 6\ndeliver 7\ndeliver 8\ndeliver 10\nchunks T1\nsync C1 T1\ndeliver 11\ndeliver 12\ndeliver 13\n\
        deliver 14\ndeliver 15\n",
        "ok\nok\nok\nok\nok 4 1.0 1.1 1.2 1.3\nok 1\nsent 11 C1 S1 syncRequest\nsent 12 C1 S1 objectFragment\n\
        sent 13 C1 S1 objectFragment\nsent 14 C1 S1 objectFragment\nsent 15 C1 S1 objectFragment\nok\nok\nok\nok\n\
        ok\naccepted T1 2 00000000-0000-4000-8000-000000000001 C1 2 1\nsent 16 S1 C1 syncResponse\n",
    ),
    (
        "deliver 6\ndeliver 7\ndeliver 8\ndeliver 9\nchunks T1\nsync C1 T1\ndeliver 11\ndeliver 12\ndeliver 13\n\
        deliver 14\ndeliver 15\n",
        "ok\nok\nok\nok\nok 4 1.0 1.1 1.2 1.3\nok 1\nsent 11 C1 S1 syncRequest\nsent 12 C1 S1 objectFragment\n\
        sent 13 C1 S1 objectFragment\nsent 14 C1 S1 objectFragment\nsent 15 C1 S1 objectFragment\nok\nok\nok\nok\n\
        ok\naccepted T1 2 00000000-0000-4000-8000-000000000001 C1 2 1\nsent 16 S1 C1 syncResponse\n",
    ),
    // Each comes again behind itself and behind each later one.
    (
        "deliver 6\ndeliver 7\ndeliver 7\ndeliver 8\ndeliver 7\ndeliver 9\ndeliver 7\ndeliver 10\ndeliver 7\n",
        "ok\nok\nok\nok\nok\nok\nok\nok\naccepted T1 2 00000000-0000-4000-8000-000000000001 C1 2 1\n\
        sent 11 S1 C1 syncResponse\nok\n",
    ),
    (
        "deliver 6\ndeliver 7\ndeliver 8\ndeliver 8\ndeliver 9\ndeliver 8\ndeliver 10\ndeliver 8\n",
        "ok\nok\nok\nok\nok\nok\nok\naccepted T1 2 00000000-0000-4000-8000-000000000001 C1 2 1\n\
        sent 11 S1 C1 syncResponse\nok\n",
    ),
    (
        "deliver 6\ndeliver 7\ndeliver 8\ndeliver 9\ndeliver 9\ndeliver 10\ndeliver 9\n",
        "ok\nok\nok\nok\nok\nok\naccepted T1 2 00000000-0000-4000-8000-000000000001 C1 2 1\n\
        sent 11 S1 C1 syncResponse\nok\n",
    ),
    (
        "deliver 6\ndeliver 7\ndeliver 8\ndeliver 9\ndeliver 10\ndeliver 10\n",
        "ok\nok\nok\nok\nok\naccepted T1 2 00000000-0000-4000-8000-000000000001 C1 2 1\n\
        sent 11 S1 C1 syncResponse\nok\n",
    ),
    // Last to first.
    (
        "deliver 6\ndeliver 10\ndeliver 9\ndeliver 8\ndeliver 7\n",
        "ok\nok\nok\nok\nok\naccepted T1 2 00000000-0000-4000-8000-000000000001 C1 2 1\n\
        sent 11 S1 C1 syncResponse\n",
    ),
    // A fragment that comes before its header is passed over.
    (
        "deliver 7\ndeliver 6\ndeliver 8\ndeliver 9\ndeliver 10\nchunks T1\ndeliver 7\n",
        "ok\nok\nok\nok\nok\nok 4 1.0 1.1 1.2 1.3\nok\naccepted T1 2 00000000-0000-4000-8000-000000000001 C1 2 1\n\
        sent 11 S1 C1 syncResponse\n",
    ),
    // A header that comes again begins anew.
    (
        "deliver 6\ndeliver 7\ndeliver 8\ndeliver 9\ndeliver 6\ndeliver 10\nchunks T1\ndeliver 9\ndeliver 8\n\
        deliver 7\n",
        "ok\nok\nok\nok\nok\nok\nok 4 1.0 1.1 1.2 1.3\nok\nok\nok\n\
        accepted T1 2 00000000-0000-4000-8000-000000000001 C1 2 1\nsent 11 S1 C1 syncResponse\n",
    ),
    // A Store that crashes forgets what has come.
    (
        "deliver 6\ndeliver 7\ndeliver 8\ndeliver 9\ncrash S1 0 0\nstart S1\ndeliver 10\nchunks T1\ndeliver 6\n\
        deliver 10\ndeliver 9\ndeliver 8\ndeliver 7\n",
        "ok\nok\nok\nok\nok\nok\nrecovered S1 T1\nok\nok 4 1.0 1.1 1.2 1.3\nok\nok\nok\nok\nok\n\
        accepted T1 2 00000000-0000-4000-8000-000000000001 C1 2 1\nsent 11 S1 C1 syncResponse\n",
    ),
    // Fragments of an earlier write stand at the places of these, and have their lengths.
    (
        "deliver 6\ndeliver 1\ndeliver 2\ndeliver 3\ndeliver 4\nchunks T1\ndeliver 7\ndeliver 8\ndeliver 1\n\
        deliver 9\ndeliver 10\n",
        "ok\nok\nok\nok\nok\nok 4 1.0 1.1 1.2 1.3\nok\nok\nok\nok\nok\n\
        accepted T1 2 00000000-0000-4000-8000-000000000001 C1 2 1\nsent 11 S1 C1 syncResponse\n",
    ),
    // What was lost may come behind the header that is sent again.
    (
        "deliver 6\ndeliver 7\ndeliver 8\ndeliver 10\nsync C1 T1\ndeliver 11\ndeliver 9\ndeliver 10\ndeliver 12\n\
        chunks T1\ndeliver 13\n",
        "ok\nok\nok\nok\nok 1\nsent 11 C1 S1 syncRequest\nsent 12 C1 S1 objectFragment\n\
        sent 13 C1 S1 objectFragment\nsent 14 C1 S1 objectFragment\nsent 15 C1 S1 objectFragment\nok\nok\nok\nok\n\
        ok 4 1.0 1.1 1.2 1.3\nok\naccepted T1 2 00000000-0000-4000-8000-000000000001 C1 2 1\n\
        sent 16 S1 C1 syncResponse\n",
    ),
];

// Two clients send a first write of one row: packets 0 to 4 and 5 to 9.
pub(crate) const TWO: &str =
    "store S1\ntable T1 photos eventual 64 o:object\nclient C1 - T1\nclient C2 - T1\n\
write C1 T1 00000000-0000-4000-8000-000000000001 r:195:0102030405\nsync C1 T1\n\
write C2 T1 00000000-0000-4000-8000-000000000001 r:195:1112131415\nsync C2 T1\n";

pub(crate) const TWO_TOLD: &str = "ok 1\n\
wrote C1 1 T1 00000000-0000-4000-8000-000000000001 0 h:0102030405010203040501020304050102030405010203040501020304050\
10203040501020304050102030405010203040501020304050102030405010203040501020304050102030405010203040501020304050102030\
40501020304050102030405010203040501020304050102030405010203040501020304050102030405010203040501020304050102030405010\
2030405010203040501020304050102030405010203040501020304050102030405010203040501020304050102030405\nok 1\n\
sent 0 C1 S1 syncRequest\nsent 1 C1 S1 objectFragment\nsent 2 C1 S1 objectFragment\nsent 3 C1 S1 objectFragment\n\
sent 4 C1 S1 objectFragment\nok 1\n\
wrote C2 1 T1 00000000-0000-4000-8000-000000000001 0 h:1112131415111213141511121314151112131415111213141511121314151\
11213141511121314151112131415111213141511121314151112131415111213141511121314151112131415111213141511121314151112131\
41511121314151112131415111213141511121314151112131415111213141511121314151112131415111213141511121314151112131415111\
2131415111213141511121314151112131415111213141511121314151112131415111213141511121314151112131415\nok 1\n\
sent 5 C2 S1 syncRequest\nsent 6 C2 S1 objectFragment\nsent 7 C2 S1 objectFragment\nsent 8 C2 S1 objectFragment\n\
sent 9 C2 S1 objectFragment\n";

pub(crate) const TWO_CASES: [(&str, &str); 2] = [
    // The fragments of the other's write come behind a header.
    (
        "deliver 0\ndeliver 6\ndeliver 7\ndeliver 8\ndeliver 9\nchunks T1\ndeliver 1\ndeliver 2\ndeliver 3\n\
        deliver 4\ndeliver 5\ndeliver 6\ndeliver 7\ndeliver 8\ndeliver 9\n",
        "ok\nok\nok\nok\nok\nok 0\nok\nok\nok\nok\naccepted T1 1 00000000-0000-4000-8000-000000000001 C1 1 0\n\
        sent 10 S1 C1 syncResponse\nok\nok\nok\nok\nok\n\
        accepted T1 2 00000000-0000-4000-8000-000000000001 C2 1 0\nsent 11 S1 C2 syncResponse\n",
    ),
    // Both headers wait, and their fragments come by turns.
    (
        "deliver 0\ndeliver 5\ndeliver 1\ndeliver 6\ndeliver 2\ndeliver 7\ndeliver 3\ndeliver 8\nchunks T1\n\
        deliver 4\ndeliver 9\n",
        "ok\nok\nok\nok\nok\nok\nok\nok\nok 0\nok\naccepted T1 1 00000000-0000-4000-8000-000000000001 C1 1 0\n\
        sent 10 S1 C1 syncResponse\nok\naccepted T1 2 00000000-0000-4000-8000-000000000001 C2 1 0\n\
        sent 11 S1 C2 syncResponse\n",
    ),
];

// Two clients have a row of four chunks.
pub(crate) const ONE: &str =
    "store S1\ntable T1 photos causal 64 o:object\nclient C1 - T1\nclient C2 - T1\n\
write C1 T1 00000000-0000-4000-8000-000000000001 r:195:0102030405\nsync C1 T1\ndeliver 0\ndeliver 1\ndeliver 2\n\
deliver 3\ndeliver 4\ndeliver 5\npull C2 T1\ndeliver 6\ndeliver 7\ndeliver 8\ndeliver 9\ndeliver 10\ndeliver 11\n";

pub(crate) const ONE_TOLD: &str = "ok 1\n\
wrote C1 1 T1 00000000-0000-4000-8000-000000000001 0 h:0102030405010203040501020304050102030405010203040501020304050\
10203040501020304050102030405010203040501020304050102030405010203040501020304050102030405010203040501020304050102030\
40501020304050102030405010203040501020304050102030405010203040501020304050102030405010203040501020304050102030405010\
2030405010203040501020304050102030405010203040501020304050102030405010203040501020304050102030405\nok 1\n\
sent 0 C1 S1 syncRequest\nsent 1 C1 S1 objectFragment\nsent 2 C1 S1 objectFragment\nsent 3 C1 S1 objectFragment\n\
sent 4 C1 S1 objectFragment\nok\nok\nok\nok\nok\naccepted T1 1 00000000-0000-4000-8000-000000000001 C1 1 0\n\
sent 5 S1 C1 syncResponse\nok\nacked C1 1 T1 00000000-0000-4000-8000-000000000001 1\nok\n\
sent 6 C2 S1 pullRequest\nok\nsent 7 S1 C2 pullResponse\nsent 8 S1 C2 objectFragment\n\
sent 9 S1 C2 objectFragment\nsent 10 S1 C2 objectFragment\nsent 11 S1 C2 objectFragment\nok\nok\nok\nok\nok\n\
new C2 T1 00000000-0000-4000-8000-000000000001 1\nposition C2 T1 1\n";

pub(crate) const ONE_CASES: [(&str, &str); 4] = [
    // A byte changes in each chunk.
    (
        "patch C1 T1 00000000-0000-4000-8000-000000000001 o 0 ff\nsync C1 T1\ndeliver 12\ndeliver 13\ndeliver 14\n\
        pull C2 T1\ndeliver 15\ndeliver 16\ndeliver 17\nchunks T1\n\
        sum C2 T1 00000000-0000-4000-8000-000000000001\n",
        "ok 2\n\
        wrote C1 2 T1 00000000-0000-4000-8000-000000000001 1 h:ff020304050102030405010203040501020304050102030405010\
        203040501020304050102030405010203040501020304050102030405010203040501020304050102030405010203040501020304050\
        102030405010203040501020304050102030405010203040501020304050102030405010203040501020304050102030405010203040\
        501020304050102030405010203040501020304050102030405010203040501020304050102030405010203040501020304050102030\
        4050102030405\nok 1\nsent 12 C1 S1 syncRequest\nsent 13 C1 S1 objectFragment\nok\nok\n\
        accepted T1 2 00000000-0000-4000-8000-000000000001 C1 2 1\nsent 14 S1 C1 syncResponse\nok\n\
        acked C1 2 T1 00000000-0000-4000-8000-000000000001 2\nok\nsent 15 C2 S1 pullRequest\nok\n\
        sent 16 S1 C2 pullResponse\nsent 17 S1 C2 objectFragment\nok\nok\n\
        new C2 T1 00000000-0000-4000-8000-000000000001 2\nposition C2 T1 2\nok 4 1.1 1.2 1.3 2.0\n\
        ok clean 2 o:195:43680ef29777a0d7779c1c875543186e88c349bd90bf9256e1800caf9798e310\n",
    ),
    (
        "patch C1 T1 00000000-0000-4000-8000-000000000001 o 64 ff\nsync C1 T1\ndeliver 12\ndeliver 13\n\
        deliver 14\npull C2 T1\ndeliver 15\ndeliver 16\ndeliver 17\nchunks T1\n\
        sum C2 T1 00000000-0000-4000-8000-000000000001\n",
        "ok 2\n\
        wrote C1 2 T1 00000000-0000-4000-8000-000000000001 1 h:01020304050102030405010203040501020304050102030405010\
        203040501020304050102030405010203040501020304050102030405010203040501020304ff0102030405010203040501020304050\
        102030405010203040501020304050102030405010203040501020304050102030405010203040501020304050102030405010203040\
        501020304050102030405010203040501020304050102030405010203040501020304050102030405010203040501020304050102030\
        4050102030405\nok 1\nsent 12 C1 S1 syncRequest\nsent 13 C1 S1 objectFragment\nok\nok\n\
        accepted T1 2 00000000-0000-4000-8000-000000000001 C1 2 1\nsent 14 S1 C1 syncResponse\nok\n\
        acked C1 2 T1 00000000-0000-4000-8000-000000000001 2\nok\nsent 15 C2 S1 pullRequest\nok\n\
        sent 16 S1 C2 pullResponse\nsent 17 S1 C2 objectFragment\nok\nok\n\
        new C2 T1 00000000-0000-4000-8000-000000000001 2\nposition C2 T1 2\nok 4 1.0 1.2 1.3 2.0\n\
        ok clean 2 o:195:d541d50d09882e4095aa3557a720a17feffd2648ce8b8ec2ede24634bdc4626a\n",
    ),
    (
        "patch C1 T1 00000000-0000-4000-8000-000000000001 o 191 ff\nsync C1 T1\ndeliver 12\ndeliver 13\n\
        deliver 14\npull C2 T1\ndeliver 15\ndeliver 16\ndeliver 17\nchunks T1\n\
        sum C2 T1 00000000-0000-4000-8000-000000000001\n",
        "ok 2\n\
        wrote C1 2 T1 00000000-0000-4000-8000-000000000001 1 h:01020304050102030405010203040501020304050102030405010\
        203040501020304050102030405010203040501020304050102030405010203040501020304050102030405010203040501020304050\
        102030405010203040501020304050102030405010203040501020304050102030405010203040501020304050102030405010203040\
        501020304050102030405010203040501020304050102030405010203040501020304050102030405010203040501020304050102030\
        40501ff030405\nok 1\nsent 12 C1 S1 syncRequest\nsent 13 C1 S1 objectFragment\nok\nok\n\
        accepted T1 2 00000000-0000-4000-8000-000000000001 C1 2 1\nsent 14 S1 C1 syncResponse\nok\n\
        acked C1 2 T1 00000000-0000-4000-8000-000000000001 2\nok\nsent 15 C2 S1 pullRequest\nok\n\
        sent 16 S1 C2 pullResponse\nsent 17 S1 C2 objectFragment\nok\nok\n\
        new C2 T1 00000000-0000-4000-8000-000000000001 2\nposition C2 T1 2\nok 4 1.0 1.1 1.3 2.0\n\
        ok clean 2 o:195:feefea4540842681039439a0673d1905ced39862e860d99cbbdfab05885bede8\n",
    ),
    (
        "patch C1 T1 00000000-0000-4000-8000-000000000001 o 192 ff\nsync C1 T1\ndeliver 12\ndeliver 13\n\
        deliver 14\npull C2 T1\ndeliver 15\ndeliver 16\ndeliver 17\nchunks T1\n\
        sum C2 T1 00000000-0000-4000-8000-000000000001\n",
        "ok 2\n\
        wrote C1 2 T1 00000000-0000-4000-8000-000000000001 1 h:01020304050102030405010203040501020304050102030405010\
        203040501020304050102030405010203040501020304050102030405010203040501020304050102030405010203040501020304050\
        102030405010203040501020304050102030405010203040501020304050102030405010203040501020304050102030405010203040\
        501020304050102030405010203040501020304050102030405010203040501020304050102030405010203040501020304050102030\
        4050102ff0405\nok 1\nsent 12 C1 S1 syncRequest\nsent 13 C1 S1 objectFragment\nok\nok\n\
        accepted T1 2 00000000-0000-4000-8000-000000000001 C1 2 1\nsent 14 S1 C1 syncResponse\nok\n\
        acked C1 2 T1 00000000-0000-4000-8000-000000000001 2\nok\nsent 15 C2 S1 pullRequest\nok\n\
        sent 16 S1 C2 pullResponse\nsent 17 S1 C2 objectFragment\nok\nok\n\
        new C2 T1 00000000-0000-4000-8000-000000000001 2\nposition C2 T1 2\nok 4 1.0 1.1 1.2 2.0\n\
        ok clean 2 o:195:d81f34329a28afd93ed2f4214bba4a6835e7031512510f8403ebc5402acea738\n",
    ),
];

// Two clients have a row of four chunks, one changes all of them, and the other pulls: packets 19 to 23.
pub(crate) const DOWN: &str =
    "store S1\ntable T1 photos causal 64 o:object\nclient C1 - T1\nclient C2 - T1\n\
write C1 T1 00000000-0000-4000-8000-000000000001 r:195:0102030405\nsync C1 T1\ndeliver 0\ndeliver 1\ndeliver 2\n\
deliver 3\ndeliver 4\ndeliver 5\npull C2 T1\ndeliver 6\ndeliver 7\ndeliver 8\ndeliver 9\ndeliver 10\ndeliver 11\n\
write C1 T1 00000000-0000-4000-8000-000000000001 r:195:1112131415\nsync C1 T1\ndeliver 12\ndeliver 13\n\
deliver 14\ndeliver 15\ndeliver 16\ndeliver 17\npull C2 T1\ndeliver 18\n";

pub(crate) const DOWN_TOLD: &str = "ok 1\n\
wrote C1 1 T1 00000000-0000-4000-8000-000000000001 0 h:0102030405010203040501020304050102030405010203040501020304050\
10203040501020304050102030405010203040501020304050102030405010203040501020304050102030405010203040501020304050102030\
40501020304050102030405010203040501020304050102030405010203040501020304050102030405010203040501020304050102030405010\
2030405010203040501020304050102030405010203040501020304050102030405010203040501020304050102030405\nok 1\n\
sent 0 C1 S1 syncRequest\nsent 1 C1 S1 objectFragment\nsent 2 C1 S1 objectFragment\nsent 3 C1 S1 objectFragment\n\
sent 4 C1 S1 objectFragment\nok\nok\nok\nok\nok\naccepted T1 1 00000000-0000-4000-8000-000000000001 C1 1 0\n\
sent 5 S1 C1 syncResponse\nok\nacked C1 1 T1 00000000-0000-4000-8000-000000000001 1\nok\n\
sent 6 C2 S1 pullRequest\nok\nsent 7 S1 C2 pullResponse\nsent 8 S1 C2 objectFragment\n\
sent 9 S1 C2 objectFragment\nsent 10 S1 C2 objectFragment\nsent 11 S1 C2 objectFragment\nok\nok\nok\nok\nok\n\
new C2 T1 00000000-0000-4000-8000-000000000001 1\nposition C2 T1 1\nok 2\n\
wrote C1 2 T1 00000000-0000-4000-8000-000000000001 1 h:1112131415111213141511121314151112131415111213141511121314151\
11213141511121314151112131415111213141511121314151112131415111213141511121314151112131415111213141511121314151112131\
41511121314151112131415111213141511121314151112131415111213141511121314151112131415111213141511121314151112131415111\
2131415111213141511121314151112131415111213141511121314151112131415111213141511121314151112131415\nok 1\n\
sent 12 C1 S1 syncRequest\nsent 13 C1 S1 objectFragment\nsent 14 C1 S1 objectFragment\n\
sent 15 C1 S1 objectFragment\nsent 16 C1 S1 objectFragment\nok\nok\nok\nok\nok\n\
accepted T1 2 00000000-0000-4000-8000-000000000001 C1 2 1\nsent 17 S1 C1 syncResponse\nok\n\
acked C1 2 T1 00000000-0000-4000-8000-000000000001 2\nok\nsent 18 C2 S1 pullRequest\nok\n\
sent 19 S1 C2 pullResponse\nsent 20 S1 C2 objectFragment\nsent 21 S1 C2 objectFragment\n\
sent 22 S1 C2 objectFragment\nsent 23 S1 C2 objectFragment\n";

// What the client shows at the end of each case.
pub(crate) const AT_CLIENT: &str = "sum C2 T1 00000000-0000-4000-8000-000000000001\n";

pub(crate) const AT_CLIENT_TOLD: &str =
    "ok clean 2 o:195:879aa71ab7600308924622d16c313c0dcca82a9ec87bfae0176e8824d13496a9\n";

pub(crate) const DOWN_CASES: [(&str, &str); 14] = [
    // Each fragment is lost: the next pull tells the row torn, and it comes whole.
    (
        "deliver 19\ndeliver 21\ndeliver 22\ndeliver 23\nsum C2 T1 00000000-0000-4000-8000-000000000001\n\
        pull C2 T1\ndeliver 24\ndeliver 25\ndeliver 26\ndeliver 27\ndeliver 28\ndeliver 29\ndeliver 30\n\
        deliver 31\n",
        "ok\nok\nok\nok\nok clean 1 o:195:b2e792cf5410f0ddef22f86a02906c4e073251825946266a0f5ecacc631cc90e\nok\n\
        torn C2 T1 00000000-0000-4000-8000-000000000001\nsent 24 C2 S1 tornRowRequest\nok\n\
        sent 25 S1 C2 tornRowResponse\nsent 26 S1 C2 objectFragment\nsent 27 S1 C2 objectFragment\n\
        sent 28 S1 C2 objectFragment\nsent 29 S1 C2 objectFragment\nok\nok\nok\nok\nok\n\
        new C2 T1 00000000-0000-4000-8000-000000000001 2\nsent 30 C2 S1 pullRequest\nok\n\
        sent 31 S1 C2 pullResponse\nsent 32 S1 C2 objectFragment\nsent 33 S1 C2 objectFragment\n\
        sent 34 S1 C2 objectFragment\nsent 35 S1 C2 objectFragment\nok\nposition C2 T1 2\n",
    ),
    (
        "deliver 19\ndeliver 20\ndeliver 22\ndeliver 23\nsum C2 T1 00000000-0000-4000-8000-000000000001\n\
        pull C2 T1\ndeliver 24\ndeliver 25\ndeliver 26\ndeliver 27\ndeliver 28\ndeliver 29\ndeliver 30\n\
        deliver 31\n",
        "ok\nok\nok\nok\nok clean 1 o:195:b2e792cf5410f0ddef22f86a02906c4e073251825946266a0f5ecacc631cc90e\nok\n\
        torn C2 T1 00000000-0000-4000-8000-000000000001\nsent 24 C2 S1 tornRowRequest\nok\n\
        sent 25 S1 C2 tornRowResponse\nsent 26 S1 C2 objectFragment\nsent 27 S1 C2 objectFragment\n\
        sent 28 S1 C2 objectFragment\nsent 29 S1 C2 objectFragment\nok\nok\nok\nok\nok\n\
        new C2 T1 00000000-0000-4000-8000-000000000001 2\nsent 30 C2 S1 pullRequest\nok\n\
        sent 31 S1 C2 pullResponse\nsent 32 S1 C2 objectFragment\nsent 33 S1 C2 objectFragment\n\
        sent 34 S1 C2 objectFragment\nsent 35 S1 C2 objectFragment\nok\nposition C2 T1 2\n",
    ),
    (
        "deliver 19\ndeliver 20\ndeliver 21\ndeliver 23\nsum C2 T1 00000000-0000-4000-8000-000000000001\n\
        pull C2 T1\ndeliver 24\ndeliver 25\ndeliver 26\ndeliver 27\ndeliver 28\ndeliver 29\ndeliver 30\n\
        deliver 31\n",
        "ok\nok\nok\nok\nok clean 1 o:195:b2e792cf5410f0ddef22f86a02906c4e073251825946266a0f5ecacc631cc90e\nok\n\
        torn C2 T1 00000000-0000-4000-8000-000000000001\nsent 24 C2 S1 tornRowRequest\nok\n\
        sent 25 S1 C2 tornRowResponse\nsent 26 S1 C2 objectFragment\nsent 27 S1 C2 objectFragment\n\
        sent 28 S1 C2 objectFragment\nsent 29 S1 C2 objectFragment\nok\nok\nok\nok\nok\n\
        new C2 T1 00000000-0000-4000-8000-000000000001 2\nsent 30 C2 S1 pullRequest\nok\n\
        sent 31 S1 C2 pullResponse\nsent 32 S1 C2 objectFragment\nsent 33 S1 C2 objectFragment\n\
        sent 34 S1 C2 objectFragment\nsent 35 S1 C2 objectFragment\nok\nposition C2 T1 2\n",
    ),
    (
        "deliver 19\ndeliver 20\ndeliver 21\ndeliver 22\nsum C2 T1 00000000-0000-4000-8000-000000000001\n\
        pull C2 T1\ndeliver 24\ndeliver 25\ndeliver 26\ndeliver 27\ndeliver 28\ndeliver 29\ndeliver 30\n\
        deliver 31\n",
        "ok\nok\nok\nok\nok clean 1 o:195:b2e792cf5410f0ddef22f86a02906c4e073251825946266a0f5ecacc631cc90e\nok\n\
        torn C2 T1 00000000-0000-4000-8000-000000000001\nsent 24 C2 S1 tornRowRequest\nok\n\
        sent 25 S1 C2 tornRowResponse\nsent 26 S1 C2 objectFragment\nsent 27 S1 C2 objectFragment\n\
        sent 28 S1 C2 objectFragment\nsent 29 S1 C2 objectFragment\nok\nok\nok\nok\nok\n\
        new C2 T1 00000000-0000-4000-8000-000000000001 2\nsent 30 C2 S1 pullRequest\nok\n\
        sent 31 S1 C2 pullResponse\nsent 32 S1 C2 objectFragment\nsent 33 S1 C2 objectFragment\n\
        sent 34 S1 C2 objectFragment\nsent 35 S1 C2 objectFragment\nok\nposition C2 T1 2\n",
    ),
    // Each comes again behind itself and behind each later one.
    (
        "deliver 19\ndeliver 20\ndeliver 20\ndeliver 21\ndeliver 20\ndeliver 22\ndeliver 20\ndeliver 23\n\
        deliver 20\n",
        "ok\nok\nok\nok\nok\nok\nok\nok\nnew C2 T1 00000000-0000-4000-8000-000000000001 2\nposition C2 T1 2\nok\n",
    ),
    (
        "deliver 19\ndeliver 20\ndeliver 21\ndeliver 21\ndeliver 22\ndeliver 21\ndeliver 23\ndeliver 21\n",
        "ok\nok\nok\nok\nok\nok\nok\nnew C2 T1 00000000-0000-4000-8000-000000000001 2\nposition C2 T1 2\nok\n",
    ),
    (
        "deliver 19\ndeliver 20\ndeliver 21\ndeliver 22\ndeliver 22\ndeliver 23\ndeliver 22\n",
        "ok\nok\nok\nok\nok\nok\nnew C2 T1 00000000-0000-4000-8000-000000000001 2\nposition C2 T1 2\nok\n",
    ),
    (
        "deliver 19\ndeliver 20\ndeliver 21\ndeliver 22\ndeliver 23\ndeliver 23\n",
        "ok\nok\nok\nok\nok\nnew C2 T1 00000000-0000-4000-8000-000000000001 2\nposition C2 T1 2\nok\n",
    ),
    // Last to first.
    (
        "deliver 19\ndeliver 23\ndeliver 22\ndeliver 21\ndeliver 20\n",
        "ok\nok\nok\nok\nok\nnew C2 T1 00000000-0000-4000-8000-000000000001 2\nposition C2 T1 2\n",
    ),
    // A fragment that comes before its header is passed over.
    (
        "deliver 20\ndeliver 19\ndeliver 21\ndeliver 22\ndeliver 23\n\
        sum C2 T1 00000000-0000-4000-8000-000000000001\ndeliver 20\n",
        "ok\nok\nok\nok\nok\nok clean 1 o:195:b2e792cf5410f0ddef22f86a02906c4e073251825946266a0f5ecacc631cc90e\n\
        ok\nnew C2 T1 00000000-0000-4000-8000-000000000001 2\nposition C2 T1 2\n",
    ),
    // A header that comes again begins anew.
    (
        "deliver 19\ndeliver 20\ndeliver 21\ndeliver 22\ndeliver 19\ndeliver 23\n\
        sum C2 T1 00000000-0000-4000-8000-000000000001\ndeliver 22\ndeliver 21\ndeliver 20\n",
        "ok\nok\nok\nok\nok\nok\n\
        ok clean 1 o:195:b2e792cf5410f0ddef22f86a02906c4e073251825946266a0f5ecacc631cc90e\nok\nok\nok\n\
        new C2 T1 00000000-0000-4000-8000-000000000001 2\nposition C2 T1 2\n",
    ),
    // A client that crashes forgets what has come, and its next pull asks for the next change.
    (
        "deliver 19\ndeliver 20\ndeliver 21\ndeliver 22\ncrash C2 0 0\nstart C2\ndeliver 23\npull C2 T1\n\
        deliver 24\ndeliver 25\ndeliver 26\ndeliver 27\ndeliver 28\ndeliver 29\n",
        "ok\nok\nok\nok\nok\nok\nrecovered C2\nok\nok\nsent 24 C2 S1 pullRequest\nok\nsent 25 S1 C2 pullResponse\n\
        sent 26 S1 C2 objectFragment\nsent 27 S1 C2 objectFragment\nsent 28 S1 C2 objectFragment\n\
        sent 29 S1 C2 objectFragment\nok\nok\nok\nok\nok\nnew C2 T1 00000000-0000-4000-8000-000000000001 2\n\
        position C2 T1 2\n",
    ),
    // Fragments of an earlier version stand at the places of these, and have their lengths.
    (
        "deliver 19\ndeliver 8\ndeliver 9\ndeliver 10\ndeliver 11\n\
        sum C2 T1 00000000-0000-4000-8000-000000000001\ndeliver 20\ndeliver 21\ndeliver 8\ndeliver 22\n\
        deliver 23\n",
        "ok\nok\nok\nok\nok\nok clean 1 o:195:b2e792cf5410f0ddef22f86a02906c4e073251825946266a0f5ecacc631cc90e\n\
        ok\nok\nok\nok\nok\nnew C2 T1 00000000-0000-4000-8000-000000000001 2\nposition C2 T1 2\n",
    ),
    // A client whose link is down takes no fragment.
    (
        "deliver 19\ndeliver 20\ndeliver 21\nlink C2 down\ndeliver 22\ndeliver 23\nlink C2 up\ndeliver 23\n\
        sum C2 T1 00000000-0000-4000-8000-000000000001\ndeliver 22\n",
        "ok\nok\nok\nok\nno 24\nno 24\nok\nok\n\
        ok clean 1 o:195:b2e792cf5410f0ddef22f86a02906c4e073251825946266a0f5ecacc631cc90e\nok\n\
        new C2 T1 00000000-0000-4000-8000-000000000001 2\nposition C2 T1 2\n",
    ),
];

// The same, and the last fragment is lost.
pub(crate) const TORN: &str =
    "store S1\ntable T1 photos causal 64 o:object\nclient C1 - T1\nclient C2 - T1\n\
write C1 T1 00000000-0000-4000-8000-000000000001 r:195:0102030405\nsync C1 T1\ndeliver 0\ndeliver 1\ndeliver 2\n\
deliver 3\ndeliver 4\ndeliver 5\npull C2 T1\ndeliver 6\ndeliver 7\ndeliver 8\ndeliver 9\ndeliver 10\ndeliver 11\n\
write C1 T1 00000000-0000-4000-8000-000000000001 r:195:1112131415\nsync C1 T1\ndeliver 12\ndeliver 13\n\
deliver 14\ndeliver 15\ndeliver 16\ndeliver 17\npull C2 T1\ndeliver 18\ndeliver 19\ndeliver 20\ndeliver 21\n\
deliver 22\n";

pub(crate) const TORN_TOLD: &str = "ok 1\n\
wrote C1 1 T1 00000000-0000-4000-8000-000000000001 0 h:0102030405010203040501020304050102030405010203040501020304050\
10203040501020304050102030405010203040501020304050102030405010203040501020304050102030405010203040501020304050102030\
40501020304050102030405010203040501020304050102030405010203040501020304050102030405010203040501020304050102030405010\
2030405010203040501020304050102030405010203040501020304050102030405010203040501020304050102030405\nok 1\n\
sent 0 C1 S1 syncRequest\nsent 1 C1 S1 objectFragment\nsent 2 C1 S1 objectFragment\nsent 3 C1 S1 objectFragment\n\
sent 4 C1 S1 objectFragment\nok\nok\nok\nok\nok\naccepted T1 1 00000000-0000-4000-8000-000000000001 C1 1 0\n\
sent 5 S1 C1 syncResponse\nok\nacked C1 1 T1 00000000-0000-4000-8000-000000000001 1\nok\n\
sent 6 C2 S1 pullRequest\nok\nsent 7 S1 C2 pullResponse\nsent 8 S1 C2 objectFragment\n\
sent 9 S1 C2 objectFragment\nsent 10 S1 C2 objectFragment\nsent 11 S1 C2 objectFragment\nok\nok\nok\nok\nok\n\
new C2 T1 00000000-0000-4000-8000-000000000001 1\nposition C2 T1 1\nok 2\n\
wrote C1 2 T1 00000000-0000-4000-8000-000000000001 1 h:1112131415111213141511121314151112131415111213141511121314151\
11213141511121314151112131415111213141511121314151112131415111213141511121314151112131415111213141511121314151112131\
41511121314151112131415111213141511121314151112131415111213141511121314151112131415111213141511121314151112131415111\
2131415111213141511121314151112131415111213141511121314151112131415111213141511121314151112131415\nok 1\n\
sent 12 C1 S1 syncRequest\nsent 13 C1 S1 objectFragment\nsent 14 C1 S1 objectFragment\n\
sent 15 C1 S1 objectFragment\nsent 16 C1 S1 objectFragment\nok\nok\nok\nok\nok\n\
accepted T1 2 00000000-0000-4000-8000-000000000001 C1 2 1\nsent 17 S1 C1 syncResponse\nok\n\
acked C1 2 T1 00000000-0000-4000-8000-000000000001 2\nok\nsent 18 C2 S1 pullRequest\nok\n\
sent 19 S1 C2 pullResponse\nsent 20 S1 C2 objectFragment\nsent 21 S1 C2 objectFragment\n\
sent 22 S1 C2 objectFragment\nsent 23 S1 C2 objectFragment\nok\nok\nok\nok\n";

pub(crate) const TORN_CASES: [(&str, &str); 6] = [
    // Of the whole answer a fragment is lost: the row is torn again.
    (
        "pull C2 T1\ndeliver 24\ndeliver 25\ndeliver 26\ndeliver 27\ndeliver 28\npull C2 T1\ndeliver 30\n\
        deliver 31\ndeliver 32\ndeliver 33\ndeliver 34\ndeliver 35\n\
        sum C2 T1 00000000-0000-4000-8000-000000000001\npull C2 T1\n",
        "ok\ntorn C2 T1 00000000-0000-4000-8000-000000000001\nsent 24 C2 S1 tornRowRequest\nok\n\
        sent 25 S1 C2 tornRowResponse\nsent 26 S1 C2 objectFragment\nsent 27 S1 C2 objectFragment\n\
        sent 28 S1 C2 objectFragment\nsent 29 S1 C2 objectFragment\nok\nok\nok\nok\nok\n\
        torn C2 T1 00000000-0000-4000-8000-000000000001\nsent 30 C2 S1 tornRowRequest\nok\n\
        sent 31 S1 C2 tornRowResponse\nsent 32 S1 C2 objectFragment\nsent 33 S1 C2 objectFragment\n\
        sent 34 S1 C2 objectFragment\nsent 35 S1 C2 objectFragment\nok\nok\nok\nok\nok\n\
        new C2 T1 00000000-0000-4000-8000-000000000001 2\nsent 36 C2 S1 pullRequest\n\
        ok clean 2 o:195:879aa71ab7600308924622d16c313c0dcca82a9ec87bfae0176e8824d13496a9\nok\n\
        sent 37 C2 S1 pullRequest\n",
    ),
    // Its fragments come last to first, and again.
    (
        "pull C2 T1\ndeliver 24\ndeliver 25\ndeliver 29\ndeliver 28\ndeliver 29\ndeliver 27\ndeliver 26\n\
        deliver 26\nsum C2 T1 00000000-0000-4000-8000-000000000001\npull C2 T1\n",
        "ok\ntorn C2 T1 00000000-0000-4000-8000-000000000001\nsent 24 C2 S1 tornRowRequest\nok\n\
        sent 25 S1 C2 tornRowResponse\nsent 26 S1 C2 objectFragment\nsent 27 S1 C2 objectFragment\n\
        sent 28 S1 C2 objectFragment\nsent 29 S1 C2 objectFragment\nok\nok\nok\nok\nok\nok\n\
        new C2 T1 00000000-0000-4000-8000-000000000001 2\nsent 30 C2 S1 pullRequest\nok\n\
        ok clean 2 o:195:879aa71ab7600308924622d16c313c0dcca82a9ec87bfae0176e8824d13496a9\nok\n\
        sent 31 C2 S1 pullRequest\n",
    ),
    // Fragments of the answer to the pull are of the same version, and stand for its own.
    (
        "pull C2 T1\ndeliver 24\ndeliver 25\ndeliver 20\ndeliver 21\ndeliver 28\ndeliver 29\n\
        sum C2 T1 00000000-0000-4000-8000-000000000001\npull C2 T1\n",
        "ok\ntorn C2 T1 00000000-0000-4000-8000-000000000001\nsent 24 C2 S1 tornRowRequest\nok\n\
        sent 25 S1 C2 tornRowResponse\nsent 26 S1 C2 objectFragment\nsent 27 S1 C2 objectFragment\n\
        sent 28 S1 C2 objectFragment\nsent 29 S1 C2 objectFragment\nok\nok\nok\nok\nok\n\
        new C2 T1 00000000-0000-4000-8000-000000000001 2\nsent 30 C2 S1 pullRequest\n\
        ok clean 2 o:195:879aa71ab7600308924622d16c313c0dcca82a9ec87bfae0176e8824d13496a9\nok\n\
        sent 31 C2 S1 pullRequest\n",
    ),
    // The header comes again while the row is torn: both answers wait, and a fragment goes to the first.
    (
        "pull C2 T1\ndeliver 24\ndeliver 19\ndeliver 25\ndeliver 26\ndeliver 27\ndeliver 28\ndeliver 29\n\
        sum C2 T1 00000000-0000-4000-8000-000000000001\npull C2 T1\n",
        "ok\ntorn C2 T1 00000000-0000-4000-8000-000000000001\nsent 24 C2 S1 tornRowRequest\nok\n\
        sent 25 S1 C2 tornRowResponse\nsent 26 S1 C2 objectFragment\nsent 27 S1 C2 objectFragment\n\
        sent 28 S1 C2 objectFragment\nsent 29 S1 C2 objectFragment\nok\nok\nok\nok\nok\nok\n\
        new C2 T1 00000000-0000-4000-8000-000000000001 2\nposition C2 T1 2\n\
        ok clean 2 o:195:879aa71ab7600308924622d16c313c0dcca82a9ec87bfae0176e8824d13496a9\nok\n\
        torn C2 T1 00000000-0000-4000-8000-000000000001\nsent 30 C2 S1 tornRowRequest\n",
    ),
    // The client writes the row meanwhile: it is in conflict with what comes.
    (
        "patch C2 T1 00000000-0000-4000-8000-000000000001 o 64 ff\npull C2 T1\ndeliver 24\ndeliver 25\n\
        deliver 26\ndeliver 27\ndeliver 28\ndeliver 29\nsum C2 T1 00000000-0000-4000-8000-000000000001\n\
        pull C2 T1\n",
        "ok 1\n\
        wrote C2 1 T1 00000000-0000-4000-8000-000000000001 1 h:01020304050102030405010203040501020304050102030405010\
        203040501020304050102030405010203040501020304050102030405010203040501020304ff0102030405010203040501020304050\
        102030405010203040501020304050102030405010203040501020304050102030405010203040501020304050102030405010203040\
        501020304050102030405010203040501020304050102030405010203040501020304050102030405010203040501020304050102030\
        4050102030405\nok\ntorn C2 T1 00000000-0000-4000-8000-000000000001\nsent 24 C2 S1 tornRowRequest\nok\n\
        sent 25 S1 C2 tornRowResponse\nsent 26 S1 C2 objectFragment\nsent 27 S1 C2 objectFragment\n\
        sent 28 S1 C2 objectFragment\nsent 29 S1 C2 objectFragment\nok\nok\nok\nok\nok\n\
        conflict C2 1 T1 00000000-0000-4000-8000-000000000001 2\nsent 30 C2 S1 pullRequest\n\
        ok conflict 1 2 o:195:d541d50d09882e4095aa3557a720a17feffd2648ce8b8ec2ede24634bdc4626a\nok\n\
        sent 31 C2 S1 pullRequest\n",
    ),
    // A torn row asks for the row as it is then.
    (
        "patch C1 T1 00000000-0000-4000-8000-000000000001 o 192 ff\nsync C1 T1\ndeliver 24\ndeliver 25\n\
        pull C2 T1\ndeliver 27\ndeliver 28\ndeliver 29\ndeliver 30\ndeliver 31\ndeliver 32\n\
        sum C2 T1 00000000-0000-4000-8000-000000000001\npull C2 T1\n",
        "ok 3\n\
        wrote C1 3 T1 00000000-0000-4000-8000-000000000001 2 h:11121314151112131415111213141511121314151112131415111\
        213141511121314151112131415111213141511121314151112131415111213141511121314151112131415111213141511121314151\
        112131415111213141511121314151112131415111213141511121314151112131415111213141511121314151112131415111213141\
        511121314151112131415111213141511121314151112131415111213141511121314151112131415111213141511121314151112131\
        4151112ff1415\nok 1\nsent 24 C1 S1 syncRequest\nsent 25 C1 S1 objectFragment\nok\nok\n\
        accepted T1 3 00000000-0000-4000-8000-000000000001 C1 3 2\nsent 26 S1 C1 syncResponse\nok\n\
        torn C2 T1 00000000-0000-4000-8000-000000000001\nsent 27 C2 S1 tornRowRequest\nok\n\
        sent 28 S1 C2 tornRowResponse\nsent 29 S1 C2 objectFragment\nsent 30 S1 C2 objectFragment\n\
        sent 31 S1 C2 objectFragment\nsent 32 S1 C2 objectFragment\nok\nok\nok\nok\nok\n\
        new C2 T1 00000000-0000-4000-8000-000000000001 3\nsent 33 C2 S1 pullRequest\n\
        ok clean 3 o:195:ac083170a1a2e0b3d4107056f740ea4416c7b1e26f94d29718f07d9536c9755c\nok\n\
        sent 34 C2 S1 pullRequest\n",
    ),
];

// A client pulls a row of one id from two tables, packets 15 to 19 and 20 to 24, and another client one of them:
// packets 25 to 29.
pub(crate) const OTHERS: &str =
    "store S1\ntable T1 photos eventual 64 o:object\ntable T2 films eventual 64 o:object\nclient C1 - T1,T2\n\
client C2 - T1,T2\nclient C3 - T1\nwrite C1 T1 00000000-0000-4000-8000-000000000001 r:195:0102030405\nsync C1 T1\n\
deliver 0\ndeliver 1\ndeliver 2\ndeliver 3\ndeliver 4\n\
write C1 T2 00000000-0000-4000-8000-000000000001 r:195:1112131415\nsync C1 T2\ndeliver 6\ndeliver 7\ndeliver 8\n\
deliver 9\ndeliver 10\npull C2 T1\npull C2 T2\npull C3 T1\ndeliver 12\ndeliver 13\ndeliver 14\n";

pub(crate) const OTHERS_TOLD: &str = "ok 1\n\
wrote C1 1 T1 00000000-0000-4000-8000-000000000001 0 h:0102030405010203040501020304050102030405010203040501020304050\
10203040501020304050102030405010203040501020304050102030405010203040501020304050102030405010203040501020304050102030\
40501020304050102030405010203040501020304050102030405010203040501020304050102030405010203040501020304050102030405010\
2030405010203040501020304050102030405010203040501020304050102030405010203040501020304050102030405\nok 1\n\
sent 0 C1 S1 syncRequest\nsent 1 C1 S1 objectFragment\nsent 2 C1 S1 objectFragment\nsent 3 C1 S1 objectFragment\n\
sent 4 C1 S1 objectFragment\nok\nok\nok\nok\nok\naccepted T1 1 00000000-0000-4000-8000-000000000001 C1 1 0\n\
sent 5 S1 C1 syncResponse\nok 2\n\
wrote C1 2 T2 00000000-0000-4000-8000-000000000001 0 h:1112131415111213141511121314151112131415111213141511121314151\
11213141511121314151112131415111213141511121314151112131415111213141511121314151112131415111213141511121314151112131\
41511121314151112131415111213141511121314151112131415111213141511121314151112131415111213141511121314151112131415111\
2131415111213141511121314151112131415111213141511121314151112131415111213141511121314151112131415\nok 1\n\
sent 6 C1 S1 syncRequest\nsent 7 C1 S1 objectFragment\nsent 8 C1 S1 objectFragment\nsent 9 C1 S1 objectFragment\n\
sent 10 C1 S1 objectFragment\nok\nok\nok\nok\nok\naccepted T2 1 00000000-0000-4000-8000-000000000001 C1 2 0\n\
sent 11 S1 C1 syncResponse\nok\nsent 12 C2 S1 pullRequest\nok\nsent 13 C2 S1 pullRequest\nok\n\
sent 14 C3 S1 pullRequest\nok\nsent 15 S1 C2 pullResponse\nsent 16 S1 C2 objectFragment\n\
sent 17 S1 C2 objectFragment\nsent 18 S1 C2 objectFragment\nsent 19 S1 C2 objectFragment\nok\n\
sent 20 S1 C2 pullResponse\nsent 21 S1 C2 objectFragment\nsent 22 S1 C2 objectFragment\n\
sent 23 S1 C2 objectFragment\nsent 24 S1 C2 objectFragment\nok\nsent 25 S1 C3 pullResponse\n\
sent 26 S1 C3 objectFragment\nsent 27 S1 C3 objectFragment\nsent 28 S1 C3 objectFragment\n\
sent 29 S1 C3 objectFragment\n";

// What both show at the end of each case.
pub(crate) const AT_BOTH: &str =
    "sum C2 T1 00000000-0000-4000-8000-000000000001\nsum C2 T2 00000000-0000-4000-8000-000000000001\n\
sum C3 T1 00000000-0000-4000-8000-000000000001\n";

pub(crate) const AT_BOTH_TOLD: &str =
    "ok clean 1 o:195:b2e792cf5410f0ddef22f86a02906c4e073251825946266a0f5ecacc631cc90e\n\
ok clean 1 o:195:879aa71ab7600308924622d16c313c0dcca82a9ec87bfae0176e8824d13496a9\n\
ok clean 1 o:195:b2e792cf5410f0ddef22f86a02906c4e073251825946266a0f5ecacc631cc90e\n";

pub(crate) const OTHERS_CASES: [(&str, &str); 3] = [
    // Behind a header come the fragments of another table's row, and of another client's packet.
    (
        "deliver 15\ndeliver 21\ndeliver 22\ndeliver 23\ndeliver 24\ndeliver 26\ndeliver 27\ndeliver 28\n\
        deliver 29\nsum C2 T1 00000000-0000-4000-8000-000000000001\n\
        sum C2 T2 00000000-0000-4000-8000-000000000001\nsum C3 T1 00000000-0000-4000-8000-000000000001\n\
        deliver 16\ndeliver 17\ndeliver 18\ndeliver 19\ndeliver 20\ndeliver 21\ndeliver 22\ndeliver 23\n\
        deliver 24\ndeliver 25\ndeliver 26\ndeliver 27\ndeliver 28\ndeliver 29\n",
        "ok\nok\nok\nok\nok\nok\nok\nok\nok\nno 27\nno 27\nno 27\nok\nok\nok\nok\n\
        new C2 T1 00000000-0000-4000-8000-000000000001 1\nposition C2 T1 1\nok\nok\nok\nok\nok\n\
        new C2 T2 00000000-0000-4000-8000-000000000001 1\nposition C2 T2 1\nok\nok\nok\nok\nok\n\
        new C3 T1 00000000-0000-4000-8000-000000000001 1\nposition C3 T1 1\n",
    ),
    // All headers wait, and their fragments come by turns.
    (
        "deliver 15\ndeliver 20\ndeliver 25\ndeliver 16\ndeliver 21\ndeliver 26\ndeliver 17\ndeliver 22\n\
        deliver 27\ndeliver 18\ndeliver 23\ndeliver 28\nsum C2 T1 00000000-0000-4000-8000-000000000001\n\
        sum C2 T2 00000000-0000-4000-8000-000000000001\nsum C3 T1 00000000-0000-4000-8000-000000000001\n\
        deliver 19\ndeliver 24\ndeliver 29\n",
        "ok\nok\nok\nok\nok\nok\nok\nok\nok\nok\nok\nok\nno 27\nno 27\nno 27\nok\n\
        new C2 T1 00000000-0000-4000-8000-000000000001 1\nposition C2 T1 1\nok\n\
        new C2 T2 00000000-0000-4000-8000-000000000001 1\nposition C2 T2 1\nok\n\
        new C3 T1 00000000-0000-4000-8000-000000000001 1\nposition C3 T1 1\n",
    ),
    // A packet goes to the client that it is for, and to no other.
    (
        "deliver 25\ndeliver 16\ndeliver 17\ndeliver 18\ndeliver 19\n\
        sum C2 T1 00000000-0000-4000-8000-000000000001\nsum C2 T2 00000000-0000-4000-8000-000000000001\n\
        sum C3 T1 00000000-0000-4000-8000-000000000001\ndeliver 26\ndeliver 27\ndeliver 28\ndeliver 29\n\
        deliver 20\ndeliver 24\ndeliver 23\ndeliver 22\ndeliver 21\ndeliver 15\ndeliver 19\ndeliver 18\n\
        deliver 17\ndeliver 16\n",
        "ok\nok\nok\nok\nok\nno 27\nno 27\nno 27\nok\nok\nok\nok\n\
        new C3 T1 00000000-0000-4000-8000-000000000001 1\nposition C3 T1 1\nok\nok\nok\nok\nok\n\
        new C2 T2 00000000-0000-4000-8000-000000000001 1\nposition C2 T2 1\nok\nok\nok\nok\nok\n\
        new C2 T1 00000000-0000-4000-8000-000000000001 1\nposition C2 T1 1\n",
    ),
];

// A client changes a row whose second chunk is another one at the Store by now: packets 15 and 16 keep the old one.
pub(crate) const NEED: &str =
    "store S1\ntable T1 photos eventual 64 o:object\nclient C1 - T1\nclient C2 - T1\n\
write C1 T1 00000000-0000-4000-8000-000000000001 r:195:0102030405\nsync C1 T1\ndeliver 0\ndeliver 1\ndeliver 2\n\
deliver 3\ndeliver 4\ndeliver 5\npull C2 T1\ndeliver 6\ndeliver 7\ndeliver 8\ndeliver 9\ndeliver 10\ndeliver 11\n\
patch C1 T1 00000000-0000-4000-8000-000000000001 o 64 ff\nsync C1 T1\ndeliver 12\ndeliver 13\ndeliver 14\n\
patch C2 T1 00000000-0000-4000-8000-000000000001 o 0 ff\nsync C2 T1\n";

pub(crate) const NEED_TOLD: &str = "ok 1\n\
wrote C1 1 T1 00000000-0000-4000-8000-000000000001 0 h:0102030405010203040501020304050102030405010203040501020304050\
10203040501020304050102030405010203040501020304050102030405010203040501020304050102030405010203040501020304050102030\
40501020304050102030405010203040501020304050102030405010203040501020304050102030405010203040501020304050102030405010\
2030405010203040501020304050102030405010203040501020304050102030405010203040501020304050102030405\nok 1\n\
sent 0 C1 S1 syncRequest\nsent 1 C1 S1 objectFragment\nsent 2 C1 S1 objectFragment\nsent 3 C1 S1 objectFragment\n\
sent 4 C1 S1 objectFragment\nok\nok\nok\nok\nok\naccepted T1 1 00000000-0000-4000-8000-000000000001 C1 1 0\n\
sent 5 S1 C1 syncResponse\nok\nacked C1 1 T1 00000000-0000-4000-8000-000000000001 1\nok\n\
sent 6 C2 S1 pullRequest\nok\nsent 7 S1 C2 pullResponse\nsent 8 S1 C2 objectFragment\n\
sent 9 S1 C2 objectFragment\nsent 10 S1 C2 objectFragment\nsent 11 S1 C2 objectFragment\nok\nok\nok\nok\nok\n\
new C2 T1 00000000-0000-4000-8000-000000000001 1\nposition C2 T1 1\nok 2\n\
wrote C1 2 T1 00000000-0000-4000-8000-000000000001 1 h:0102030405010203040501020304050102030405010203040501020304050\
1020304050102030405010203040501020304050102030405010203040501020304ff01020304050102030405010203040501020304050102030\
40501020304050102030405010203040501020304050102030405010203040501020304050102030405010203040501020304050102030405010\
2030405010203040501020304050102030405010203040501020304050102030405010203040501020304050102030405\nok 1\n\
sent 12 C1 S1 syncRequest\nsent 13 C1 S1 objectFragment\nok\nok\n\
accepted T1 2 00000000-0000-4000-8000-000000000001 C1 2 1\nsent 14 S1 C1 syncResponse\nok\n\
acked C1 2 T1 00000000-0000-4000-8000-000000000001 2\nok 1\n\
wrote C2 1 T1 00000000-0000-4000-8000-000000000001 1 h:ff02030405010203040501020304050102030405010203040501020304050\
10203040501020304050102030405010203040501020304050102030405010203040501020304050102030405010203040501020304050102030\
40501020304050102030405010203040501020304050102030405010203040501020304050102030405010203040501020304050102030405010\
2030405010203040501020304050102030405010203040501020304050102030405010203040501020304050102030405\nok 1\n\
sent 15 C2 S1 syncRequest\nsent 16 C2 S1 objectFragment\n";

// What the Store has at the end of each case.
pub(crate) const AT_STORE_WHOLE: &str =
    "chunks T1\nsshow T1 00000000-0000-4000-8000-000000000001\n";

pub(crate) const AT_STORE_WHOLE_TOLD: &str = "ok 4 3.0 3.1 3.2 3.3\n\
ok 3 h:ff02030405010203040501020304050102030405010203040501020304050102030405010203040501020304050102030405010203040\
50102030405010203040501020304050102030405010203040501020304050102030405010203040501020304050102030405010203040501020\
30405010203040501020304050102030405010203040501020304050102030405010203040501020304050102030405010203040501020304050\
1020304050102030405010203040501020304050102030405\n";

pub(crate) const NEED_CASES: [(&str, &str); 5] = [
    // The Store asks for the whole write, and its fragments follow.
    (
        "deliver 15\ndeliver 16\ndeliver 17\ndeliver 18\ndeliver 19\ndeliver 20\ndeliver 21\ndeliver 22\n",
        "ok\nsent 17 S1 C2 syncResponse\nok\nok\nsent 18 C2 S1 syncRequest\nsent 19 C2 S1 objectFragment\n\
        sent 20 C2 S1 objectFragment\nsent 21 C2 S1 objectFragment\nsent 22 C2 S1 objectFragment\nok\nok\nok\nok\n\
        ok\naccepted T1 3 00000000-0000-4000-8000-000000000001 C2 1 1\nsent 23 S1 C2 syncResponse\n",
    ),
    // The request and the answer come again.
    (
        "deliver 15\ndeliver 15\ndeliver 17\ndeliver 18\ndeliver 17\ndeliver 19\ndeliver 20\ndeliver 21\n\
        deliver 22\ndeliver 23\n",
        "ok\nsent 17 S1 C2 syncResponse\nok\nsent 18 S1 C2 syncResponse\nok\nsent 19 C2 S1 syncRequest\n\
        sent 20 C2 S1 objectFragment\nsent 21 C2 S1 objectFragment\nsent 22 C2 S1 objectFragment\n\
        sent 23 C2 S1 objectFragment\nok\nok\nok\nok\nok\nok\nok\n\
        accepted T1 3 00000000-0000-4000-8000-000000000001 C2 1 1\nsent 24 S1 C2 syncResponse\n",
    ),
    // A fragment of the whole write is lost, and it is sent whole again.
    (
        "deliver 15\ndeliver 17\ndeliver 18\ndeliver 19\ndeliver 21\ndeliver 22\nchunks T1\nsync C2 T1\n\
        deliver 23\ndeliver 24\ndeliver 25\ndeliver 26\ndeliver 27\n",
        "ok\nsent 17 S1 C2 syncResponse\nok\nsent 18 C2 S1 syncRequest\nsent 19 C2 S1 objectFragment\n\
        sent 20 C2 S1 objectFragment\nsent 21 C2 S1 objectFragment\nsent 22 C2 S1 objectFragment\nok\nok\nok\nok\n\
        ok 4 1.0 1.2 1.3 2.0\nok 1\nsent 23 C2 S1 syncRequest\nsent 24 C2 S1 objectFragment\n\
        sent 25 C2 S1 objectFragment\nsent 26 C2 S1 objectFragment\nsent 27 C2 S1 objectFragment\nok\nok\nok\nok\n\
        ok\naccepted T1 3 00000000-0000-4000-8000-000000000001 C2 1 1\nsent 28 S1 C2 syncResponse\n",
    ),
    // The first request comes behind the whole one: what has come of that is dropped.
    (
        "deliver 15\ndeliver 17\ndeliver 18\ndeliver 19\ndeliver 20\ndeliver 21\ndeliver 15\ndeliver 22\n\
        chunks T1\nsync C2 T1\ndeliver 24\ndeliver 25\ndeliver 26\ndeliver 27\ndeliver 28\n",
        "ok\nsent 17 S1 C2 syncResponse\nok\nsent 18 C2 S1 syncRequest\nsent 19 C2 S1 objectFragment\n\
        sent 20 C2 S1 objectFragment\nsent 21 C2 S1 objectFragment\nsent 22 C2 S1 objectFragment\nok\nok\nok\nok\n\
        ok\nsent 23 S1 C2 syncResponse\nok\nok 4 1.0 1.2 1.3 2.0\nok 1\nsent 24 C2 S1 syncRequest\n\
        sent 25 C2 S1 objectFragment\nsent 26 C2 S1 objectFragment\nsent 27 C2 S1 objectFragment\n\
        sent 28 C2 S1 objectFragment\nok\nok\nok\nok\nok\n\
        accepted T1 3 00000000-0000-4000-8000-000000000001 C2 1 1\nsent 29 S1 C2 syncResponse\n",
    ),
    // A client that crashes sends the write whole.
    (
        "deliver 15\ndeliver 17\ncrash C2 0 0\nstart C2\nsync C2 T1\ndeliver 23\ndeliver 24\ndeliver 25\n\
        deliver 26\ndeliver 27\n",
        "ok\nsent 17 S1 C2 syncResponse\nok\nsent 18 C2 S1 syncRequest\nsent 19 C2 S1 objectFragment\n\
        sent 20 C2 S1 objectFragment\nsent 21 C2 S1 objectFragment\nsent 22 C2 S1 objectFragment\nok\nok\n\
        recovered C2\nok 1\nsent 23 C2 S1 syncRequest\nsent 24 C2 S1 objectFragment\n\
        sent 25 C2 S1 objectFragment\nsent 26 C2 S1 objectFragment\nsent 27 C2 S1 objectFragment\nok\nok\nok\nok\n\
        ok\naccepted T1 3 00000000-0000-4000-8000-000000000001 C2 1 1\nsent 28 S1 C2 syncResponse\n",
    ),
];

pub(crate) const SCRIPTS: [(&str, &str); 2] = [
    // Two objects of two chunks each: a fragment is of its column.
    (
        "store S1\ntable T1 photos eventual 64 n:int o:object p:object\nclient C1 - T1\nclient C2 - T1\n\
        write C1 T1 00000000-0000-4000-8000-000000000001 5 r:128:0102030405 r:128:1112131415\nsync C1 T1\n\
        deliver 0\ndeliver 4\ndeliver 1\ndeliver 3\ndeliver 2\nchunks T1\npull C2 T1\ndeliver 6\ndeliver 7\n\
        deliver 10\ndeliver 9\ndeliver 11\ndeliver 8\nsum C1 T1 00000000-0000-4000-8000-000000000001\n\
        sum C2 T1 00000000-0000-4000-8000-000000000001\n",
        "ok 1\n\
        wrote C1 1 T1 00000000-0000-4000-8000-000000000001 0 5 h:010203040501020304050102030405010203040501020304050\
        102030405010203040501020304050102030405010203040501020304050102030405010203040501020304050102030405010203040\
        5010203040501020304050102030405010203040501020304050102030405010203040501020304050102030405010203 h:11121314\
        151112131415111213141511121314151112131415111213141511121314151112131415111213141511121314151112131415111213\
        141511121314151112131415111213141511121314151112131415111213141511121314151112131415111213141511121314151112\
        13141511121314151112131415111213\nok 1\nsent 0 C1 S1 syncRequest\nsent 1 C1 S1 objectFragment\n\
        sent 2 C1 S1 objectFragment\nsent 3 C1 S1 objectFragment\nsent 4 C1 S1 objectFragment\nok\nok\nok\nok\n\
        ok\naccepted T1 1 00000000-0000-4000-8000-000000000001 C1 1 0\nsent 5 S1 C1 syncResponse\n\
        ok 4 1.0 1.1 1.2 1.3\nok\nsent 6 C2 S1 pullRequest\nok\nsent 7 S1 C2 pullResponse\n\
        sent 8 S1 C2 objectFragment\nsent 9 S1 C2 objectFragment\nsent 10 S1 C2 objectFragment\n\
        sent 11 S1 C2 objectFragment\nok\nok\nok\nok\nok\nnew C2 T1 00000000-0000-4000-8000-000000000001 1\n\
        position C2 T1 1\n\
        ok mine 1 5 o:128:83abf0f721069b7cb2a64b664f58909e5d2cc857e915bd763bd04f04cc0870ab o:128:6a299170bd30ea83fdd\
        38d55620456a986f2efdef0a9f3d07e6fe230ca41b0e9\n\
        ok clean 1 5 o:128:83abf0f721069b7cb2a64b664f58909e5d2cc857e915bd763bd04f04cc0870ab o:128:6a299170bd30ea83fd\
        d38d55620456a986f2efdef0a9f3d07e6fe230ca41b0e9\n",
    ),
    // An answer keeps chunks that the client never held: the row is torn at once, and comes whole.
    (
        "store S1\ntable T1 photos causal 64 o:object\nclient C1 - T1\nclient C2 - T1\n\
        write C1 T1 00000000-0000-4000-8000-000000000001 r:195:0102030405\nsync C1 T1\ndeliver 0\ndeliver 1\n\
        deliver 2\ndeliver 3\ndeliver 4\ndeliver 5\nwrite C1 T1 00000000-0000-4000-8000-000000000002 h:\n\
        sync C1 T1\ndeliver 6\ndeliver 7\npatch C1 T1 00000000-0000-4000-8000-000000000001 o 64 ff\nsync C1 T1\n\
        deliver 8\ndeliver 9\ndeliver 10\npull C2 T1\ndeliver 11\ndeliver 12\ndeliver 13\ndeliver 14\ndeliver 15\n\
        deliver 16\ndeliver 17\ndeliver 18\ndeliver 19\ndeliver 20\ndeliver 21\ndeliver 22\ndeliver 23\n\
        sum C2 T1 00000000-0000-4000-8000-000000000001\n",
        "ok 1\n\
        wrote C1 1 T1 00000000-0000-4000-8000-000000000001 0 h:01020304050102030405010203040501020304050102030405010\
        203040501020304050102030405010203040501020304050102030405010203040501020304050102030405010203040501020304050\
        102030405010203040501020304050102030405010203040501020304050102030405010203040501020304050102030405010203040\
        501020304050102030405010203040501020304050102030405010203040501020304050102030405010203040501020304050102030\
        4050102030405\nok 1\nsent 0 C1 S1 syncRequest\nsent 1 C1 S1 objectFragment\nsent 2 C1 S1 objectFragment\n\
        sent 3 C1 S1 objectFragment\nsent 4 C1 S1 objectFragment\nok\nok\nok\nok\nok\n\
        accepted T1 1 00000000-0000-4000-8000-000000000001 C1 1 0\nsent 5 S1 C1 syncResponse\nok\n\
        acked C1 1 T1 00000000-0000-4000-8000-000000000001 1\nok 2\n\
        wrote C1 2 T1 00000000-0000-4000-8000-000000000002 0 h:\nok 1\nsent 6 C1 S1 syncRequest\nok\n\
        accepted T1 2 00000000-0000-4000-8000-000000000002 C1 2 0\nsent 7 S1 C1 syncResponse\nok\n\
        acked C1 2 T1 00000000-0000-4000-8000-000000000002 2\nok 3\n\
        wrote C1 3 T1 00000000-0000-4000-8000-000000000001 1 h:01020304050102030405010203040501020304050102030405010\
        203040501020304050102030405010203040501020304050102030405010203040501020304ff0102030405010203040501020304050\
        102030405010203040501020304050102030405010203040501020304050102030405010203040501020304050102030405010203040\
        501020304050102030405010203040501020304050102030405010203040501020304050102030405010203040501020304050102030\
        4050102030405\nok 1\nsent 8 C1 S1 syncRequest\nsent 9 C1 S1 objectFragment\nok\nok\n\
        accepted T1 3 00000000-0000-4000-8000-000000000001 C1 3 1\nsent 10 S1 C1 syncResponse\nok\n\
        acked C1 3 T1 00000000-0000-4000-8000-000000000001 3\nok\nsent 11 C2 S1 pullRequest\nok\n\
        sent 12 S1 C2 pullResponse\nok\nnew C2 T1 00000000-0000-4000-8000-000000000002 2\nposition C2 T1 2\n\
        sent 13 C2 S1 pullRequest\nok\nsent 14 S1 C2 pullResponse\nsent 15 S1 C2 objectFragment\nok\n\
        torn C2 T1 00000000-0000-4000-8000-000000000001\nsent 16 C2 S1 tornRowRequest\nok\nok\n\
        sent 17 S1 C2 tornRowResponse\nsent 18 S1 C2 objectFragment\nsent 19 S1 C2 objectFragment\n\
        sent 20 S1 C2 objectFragment\nsent 21 S1 C2 objectFragment\nok\nok\nok\nok\nok\n\
        new C2 T1 00000000-0000-4000-8000-000000000001 3\nsent 22 C2 S1 pullRequest\nok\n\
        sent 23 S1 C2 pullResponse\nsent 24 S1 C2 objectFragment\nok\nposition C2 T1 3\n\
        ok clean 3 o:195:d541d50d09882e4095aa3557a720a17feffd2648ce8b8ec2ede24634bdc4626a\n",
    ),
];
