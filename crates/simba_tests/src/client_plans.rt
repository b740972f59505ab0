//! Plans of every shape at a client, with what is told of each, and what is there where it is undone and where it is
//! done. Expected values come from another program.

/// A plan that a client on hold has begun.
#[derive(Clone, Copy)]
pub(crate) struct PlanCase {
    /// The lines up to the plan, of which no device write is done, and what they wrote.
    pub(crate) script: &'static str,
    pub(crate) told: &'static str,
    pub(crate) client: &'static str,
    /// How many chunks it brings, whether it puts a row and the table, and how many chunks it drops.
    pub(crate) chunks: usize,
    pub(crate) row: bool,
    pub(crate) table: bool,
    pub(crate) drops: usize,
    /// What its commit tells, a fact a line, and what its last write sends.
    pub(crate) facts: [&'static str; 2],
    pub(crate) sent: &'static str,
    /// What a start tells of it where it has been begun and isn't committed.
    pub(crate) torn: &'static str,
    /// The line that shows its row, and what is shown without the plan and with it.
    pub(crate) show: &'static str,
    pub(crate) shows: [&'static str; 2],
    /// Lines behind the client's recovery, and what they write where the plan had not been begun, where it had and was
    /// undone, and where it was done.
    pub(crate) tail: &'static str,
    pub(crate) undone: &'static str,
    pub(crate) begun: &'static str,
    pub(crate) done: &'static str,
}

pub(crate) const CASES: [PlanCase; 14] = [
    // A first write of an object of two chunks.
    PlanCase {
        script: "store S1\n\
        table T1 photos eventual 64 o:object\n\
        client C1 - T1\n\
        hold C1\n\
        write C1 T1 00000000-0000-4000-8000-000000000001 r:65:01\n",
        told: "ok\n\
        ok 1\n",
        client: "C1",
        chunks: 2,
        row: true,
        table: false,
        drops: 0,
        facts: [
            "wrote C1 1 T1 00000000-0000-4000-8000-000000000001 0 h:01010101010101010101010101010101010101010\
        10101010101010101010101010101010101010101010101010101010101010101010101010101010101010101\n",
            "",
        ],
        sent: "",
        torn: "",
        show: "show C1 T1 00000000-0000-4000-8000-000000000001\n",
        shows: [
            "no 27\n",
            "ok mine 1 h:010101010101010101010101010101010101010101010101010101010101010101010101010101010101\
        0101010101010101010101010101010101010101010101\n",
        ],
        tail: "write C1 T1 00000000-0000-4000-8000-000000000001 h:\n",
        undone: "ok 1\n",
        begun: "ok 1\n",
        done: "ok 2\n",
    },
    // A write over one that waits: its chunk takes the place of the old one.
    PlanCase {
        script: "store S1\n\
        table T1 photos eventual 64 o:object\n\
        client C1 - T1\n\
        write C1 T1 00000000-0000-4000-8000-000000000001 h:00\n\
        hold C1\n\
        write C1 T1 00000000-0000-4000-8000-000000000001 h:01\n",
        told: "ok 1\n\
        wrote C1 1 T1 00000000-0000-4000-8000-000000000001 0 h:00\n\
        ok\n\
        ok 2\n",
        client: "C1",
        chunks: 1,
        row: true,
        table: false,
        drops: 1,
        facts: [
            "wrote C1 2 T1 00000000-0000-4000-8000-000000000001 0 h:01\n",
            "",
        ],
        sent: "",
        torn: "",
        show: "show C1 T1 00000000-0000-4000-8000-000000000001\n",
        shows: ["ok mine 1 h:00\n", "ok mine 2 h:01\n"],
        tail: "write C1 T1 00000000-0000-4000-8000-000000000001 h:\n",
        undone: "ok 2\n",
        begun: "ok 2\n",
        done: "ok 3\n",
    },
    // A patch at the front of an object of two chunks: the first one changes.
    PlanCase {
        script: "store S1\n\
        table T1 photos eventual 64 o:object\n\
        client C1 - T1\n\
        write C1 T1 00000000-0000-4000-8000-000000000001 r:65:01\n\
        hold C1\n\
        patch C1 T1 00000000-0000-4000-8000-000000000001 o 0 02\n",
        told: "ok 1\n\
        wrote C1 1 T1 00000000-0000-4000-8000-000000000001 0 h:01010101010101010101010101010101010101010\
        10101010101010101010101010101010101010101010101010101010101010101010101010101010101010101\n\
        ok\n\
        ok 2\n",
        client: "C1",
        chunks: 1,
        row: true,
        table: false,
        drops: 1,
        facts: [
            "wrote C1 2 T1 00000000-0000-4000-8000-000000000001 0 h:02010101010101010101010101010101010101010\
        10101010101010101010101010101010101010101010101010101010101010101010101010101010101010101\n",
            "",
        ],
        sent: "",
        torn: "",
        show: "show C1 T1 00000000-0000-4000-8000-000000000001\n",
        shows: [
            "ok mine 1 h:010101010101010101010101010101010101010101010101010101010101010101010101010101010101\
        0101010101010101010101010101010101010101010101\n",
            "ok mine 2 h:020101010101010101010101010101010101010101010101010101010101010101010101010101010101\
        0101010101010101010101010101010101010101010101\n",
        ],
        tail: "write C1 T1 00000000-0000-4000-8000-000000000001 h:\n",
        undone: "ok 2\n",
        begun: "ok 2\n",
        done: "ok 3\n",
    },
    // A patch of its last byte: the second one changes.
    PlanCase {
        script: "store S1\n\
        table T1 photos eventual 64 o:object\n\
        client C1 - T1\n\
        write C1 T1 00000000-0000-4000-8000-000000000001 r:65:01\n\
        hold C1\n\
        patch C1 T1 00000000-0000-4000-8000-000000000001 o 64 02\n",
        told: "ok 1\n\
        wrote C1 1 T1 00000000-0000-4000-8000-000000000001 0 h:01010101010101010101010101010101010101010\
        10101010101010101010101010101010101010101010101010101010101010101010101010101010101010101\n\
        ok\n\
        ok 2\n",
        client: "C1",
        chunks: 1,
        row: true,
        table: false,
        drops: 1,
        facts: [
            "wrote C1 2 T1 00000000-0000-4000-8000-000000000001 0 h:01010101010101010101010101010101010101010\
        10101010101010101010101010101010101010101010101010101010101010101010101010101010101010102\n",
            "",
        ],
        sent: "",
        torn: "",
        show: "show C1 T1 00000000-0000-4000-8000-000000000001\n",
        shows: [
            "ok mine 1 h:010101010101010101010101010101010101010101010101010101010101010101010101010101010101\
        0101010101010101010101010101010101010101010101\n",
            "ok mine 2 h:010101010101010101010101010101010101010101010101010101010101010101010101010101010101\
        0101010101010101010101010101010101010101010102\n",
        ],
        tail: "write C1 T1 00000000-0000-4000-8000-000000000001 h:\n",
        undone: "ok 2\n",
        begun: "ok 2\n",
        done: "ok 3\n",
    },
    // A patch that goes past its end, behind one that begins there and is refused.
    PlanCase {
        script: "store S1\n\
        table T1 photos eventual 64 o:object\n\
        client C1 - T1\n\
        write C1 T1 00000000-0000-4000-8000-000000000001 r:65:01\n\
        hold C1\n\
        patch C1 T1 00000000-0000-4000-8000-000000000001 o 66 02\n\
        patch C1 T1 00000000-0000-4000-8000-000000000001 o 65 02\n",
        told: "ok 1\n\
        wrote C1 1 T1 00000000-0000-4000-8000-000000000001 0 h:01010101010101010101010101010101010101010\
        10101010101010101010101010101010101010101010101010101010101010101010101010101010101010101\n\
        ok\n\
        no 11 0 65\n\
        ok 2\n",
        client: "C1",
        chunks: 1,
        row: true,
        table: false,
        drops: 1,
        facts: [
            "wrote C1 2 T1 00000000-0000-4000-8000-000000000001 0 h:01010101010101010101010101010101010101010\
        1010101010101010101010101010101010101010101010101010101010101010101010101010101010101010102\n",
            "",
        ],
        sent: "",
        torn: "",
        show: "show C1 T1 00000000-0000-4000-8000-000000000001\n",
        shows: [
            "ok mine 1 h:010101010101010101010101010101010101010101010101010101010101010101010101010101010101\
        0101010101010101010101010101010101010101010101\n",
            "ok mine 2 h:010101010101010101010101010101010101010101010101010101010101010101010101010101010101\
        010101010101010101010101010101010101010101010102\n",
        ],
        tail: "write C1 T1 00000000-0000-4000-8000-000000000001 h:\n",
        undone: "ok 2\n",
        begun: "ok 2\n",
        done: "ok 3\n",
    },
    // A patch at the end of an object of one whole chunk: nothing is dropped.
    PlanCase {
        script: "store S1\n\
        table T1 photos eventual 64 o:object\n\
        client C1 - T1\n\
        write C1 T1 00000000-0000-4000-8000-000000000001 r:64:01\n\
        hold C1\n\
        patch C1 T1 00000000-0000-4000-8000-000000000001 o 64 02\n",
        told: "ok 1\n\
        wrote C1 1 T1 00000000-0000-4000-8000-000000000001 0 h:01010101010101010101010101010101010101010\
        101010101010101010101010101010101010101010101010101010101010101010101010101010101010101\n\
        ok\n\
        ok 2\n",
        client: "C1",
        chunks: 1,
        row: true,
        table: false,
        drops: 0,
        facts: [
            "wrote C1 2 T1 00000000-0000-4000-8000-000000000001 0 h:01010101010101010101010101010101010101010\
        10101010101010101010101010101010101010101010101010101010101010101010101010101010101010102\n",
            "",
        ],
        sent: "",
        torn: "",
        show: "show C1 T1 00000000-0000-4000-8000-000000000001\n",
        shows: [
            "ok mine 1 h:010101010101010101010101010101010101010101010101010101010101010101010101010101010101\
        01010101010101010101010101010101010101010101\n",
            "ok mine 2 h:010101010101010101010101010101010101010101010101010101010101010101010101010101010101\
        0101010101010101010101010101010101010101010102\n",
        ],
        tail: "write C1 T1 00000000-0000-4000-8000-000000000001 h:\n",
        undone: "ok 2\n",
        begun: "ok 2\n",
        done: "ok 3\n",
    },
    // A deletion of a row with two chunks.
    PlanCase {
        script: "store S1\n\
        table T1 photos eventual 64 o:object\n\
        client C1 - T1\n\
        write C1 T1 00000000-0000-4000-8000-000000000001 r:65:01\n\
        hold C1\n\
        delete C1 T1 00000000-0000-4000-8000-000000000001\n",
        told: "ok 1\n\
        wrote C1 1 T1 00000000-0000-4000-8000-000000000001 0 h:01010101010101010101010101010101010101010\
        10101010101010101010101010101010101010101010101010101010101010101010101010101010101010101\n\
        ok\n\
        ok 2\n",
        client: "C1",
        chunks: 0,
        row: true,
        table: false,
        drops: 2,
        facts: [
            "wrote C1 2 T1 00000000-0000-4000-8000-000000000001 0 gone\n",
            "",
        ],
        sent: "",
        torn: "",
        show: "show C1 T1 00000000-0000-4000-8000-000000000001\n",
        shows: [
            "ok mine 1 h:010101010101010101010101010101010101010101010101010101010101010101010101010101010101\
        0101010101010101010101010101010101010101010101\n",
            "ok mine 2 gone\n",
        ],
        tail: "write C1 T1 00000000-0000-4000-8000-000000000001 h:\n",
        undone: "ok 2\n",
        begun: "",
        done: "ok 3\n",
    },
    // A write that is about to be sent.
    PlanCase {
        script: "store S1\n\
        table T1 photos eventual 64 o:object\n\
        client C1 - T1\n\
        write C1 T1 00000000-0000-4000-8000-000000000001 h:00\n\
        hold C1\n\
        sync C1 T1\n",
        told: "ok 1\n\
        wrote C1 1 T1 00000000-0000-4000-8000-000000000001 0 h:00\n\
        ok\n\
        ok 1\n",
        client: "C1",
        chunks: 0,
        row: true,
        table: false,
        drops: 0,
        facts: ["", ""],
        sent: "sent 0 C1 S1 syncRequest\n\
        sent 1 C1 S1 objectFragment\n",
        torn: "",
        show: "show C1 T1 00000000-0000-4000-8000-000000000001\n",
        shows: ["ok mine 1 h:00\n", "ok mine 1 h:00\n"],
        tail: "write C1 T1 00000000-0000-4000-8000-000000000001 h:01\n\
        do C1\n",
        undone: "ok 2\n\
        ok 6\n\
        wrote C1 2 T1 00000000-0000-4000-8000-000000000001 0 h:01\n",
        begun: "",
        done: "ok 2\n\
        ok 5\n\
        wrote C1 2 T1 00000000-0000-4000-8000-000000000001 0 h:01\n",
    },
    // The answer to a write over a row that the client had read: the old chunk goes.
    PlanCase {
        script: "store S1\n\
        table T1 photos eventual 64 o:object\n\
        client C1 - T1\n\
        write C1 T1 00000000-0000-4000-8000-000000000001 h:00\n\
        sync C1 T1\n\
        deliver 0\n\
        deliver 1\n\
        deliver 2\n\
        write C1 T1 00000000-0000-4000-8000-000000000001 h:01\n\
        sync C1 T1\n\
        deliver 3\n\
        deliver 4\n\
        hold C1\n\
        deliver 5\n",
        told: "ok 1\n\
        wrote C1 1 T1 00000000-0000-4000-8000-000000000001 0 h:00\n\
        ok 1\n\
        sent 0 C1 S1 syncRequest\n\
        sent 1 C1 S1 objectFragment\n\
        ok\n\
        ok\n\
        accepted T1 1 00000000-0000-4000-8000-000000000001 C1 1 0\n\
        sent 2 S1 C1 syncResponse\n\
        ok\n\
        acked C1 1 T1 00000000-0000-4000-8000-000000000001 1\n\
        ok 2\n\
        wrote C1 2 T1 00000000-0000-4000-8000-000000000001 1 h:01\n\
        ok 1\n\
        sent 3 C1 S1 syncRequest\n\
        sent 4 C1 S1 objectFragment\n\
        ok\n\
        ok\n\
        accepted T1 2 00000000-0000-4000-8000-000000000001 C1 2 1\n\
        sent 5 S1 C1 syncResponse\n\
        ok\n\
        ok\n",
        client: "C1",
        chunks: 0,
        row: true,
        table: false,
        drops: 1,
        facts: ["acked C1 2 T1 00000000-0000-4000-8000-000000000001 2\n", ""],
        sent: "",
        torn: "",
        show: "show C1 T1 00000000-0000-4000-8000-000000000001\n",
        shows: ["ok mine 2 h:01\n", "ok clean 2 h:01\n"],
        tail: "sync C1 T1\n\
        deliver 5\n\
        do C1\n\
        show C1 T1 00000000-0000-4000-8000-000000000001\n",
        undone: "ok 1\n\
        sent 6 C1 S1 syncRequest\n\
        sent 7 C1 S1 objectFragment\n\
        ok\n\
        ok 4\n\
        acked C1 2 T1 00000000-0000-4000-8000-000000000001 2\n\
        ok clean 2 h:01\n",
        begun: "",
        done: "ok 0\n\
        ok\n\
        ok 0\n\
        ok clean 2 h:01\n",
    },
    // A row of two chunks that comes from the Store for the first time.
    PlanCase {
        script: "store S1\n\
        table T1 photos eventual 64 o:object\n\
        client C1 - T1\n\
        client C2 - T1\n\
        write C1 T1 00000000-0000-4000-8000-000000000001 r:65:01\n\
        sync C1 T1\n\
        deliver 0\n\
        deliver 1\n\
        deliver 2\n\
        pull C2 T1\n\
        deliver 4\n\
        hold C2\n\
        deliver 5\n\
        deliver 6\n\
        deliver 7\n",
        told: "ok 1\n\
        wrote C1 1 T1 00000000-0000-4000-8000-000000000001 0 h:0101010101010101010101010101010101010101010101010101010\
        101010101010101010101010101010101010101010101010101010101010101010101010101\n\
        ok 1\n\
        sent 0 C1 S1 syncRequest\n\
        sent 1 C1 S1 objectFragment\n\
        sent 2 C1 S1 objectFragment\n\
        ok\n\
        ok\n\
        ok\n\
        accepted T1 1 00000000-0000-4000-8000-000000000001 C1 1 0\n\
        sent 3 S1 C1 syncResponse\n\
        ok\n\
        sent 4 C2 S1 pullRequest\n\
        ok\n\
        sent 5 S1 C2 pullResponse\n\
        sent 6 S1 C2 objectFragment\n\
        sent 7 S1 C2 objectFragment\n\
        ok\n\
        ok\n\
        ok\n\
        ok\n",
        client: "C2",
        chunks: 2,
        row: true,
        table: true,
        drops: 0,
        facts: [
            "new C2 T1 00000000-0000-4000-8000-000000000001 1\n",
            "position C2 T1 1\n",
        ],
        sent: "",
        torn: "torn C2 T1 00000000-0000-4000-8000-000000000001\n",
        show: "show C2 T1 00000000-0000-4000-8000-000000000001\n",
        shows: [
            "no 27\n",
            "ok clean 1 h:01010101010101010101010101010101010101010101010101010101010101010101010101010101010\
        10101010101010101010101010101010101010101010101\n",
        ],
        tail: "free C2\n\
        pull C2 T1\n\
        deliver 8\n\
        deliver 9\n\
        deliver 10\n\
        deliver 11\n\
        show C2 T1 00000000-0000-4000-8000-000000000001\n",
        undone: "ok\n\
        ok\n\
        sent 8 C2 S1 pullRequest\n\
        ok\n\
        sent 9 S1 C2 pullResponse\n\
        sent 10 S1 C2 objectFragment\n\
        sent 11 S1 C2 objectFragment\n\
        ok\n\
        ok\n\
        ok\n\
        new C2 T1 00000000-0000-4000-8000-000000000001 1\n\
        position C2 T1 1\n\
        ok clean 1 h:0101010101010101010101010101010101010101010101010101010101010101010101010101010101010101010101010\
        101010101010101010101010101010101\n",
        begun: "ok\n\
        ok\n\
        sent 8 C2 S1 tornRowRequest\n\
        ok\n\
        sent 9 S1 C2 tornRowResponse\n\
        sent 10 S1 C2 objectFragment\n\
        sent 11 S1 C2 objectFragment\n\
        ok\n\
        ok\n\
        ok\n\
        new C2 T1 00000000-0000-4000-8000-000000000001 1\n\
        sent 12 C2 S1 pullRequest\n\
        ok clean 1 h:0101010101010101010101010101010101010101010101010101010101010101010101010101010101010101010101010\
        101010101010101010101010101010101\n",
        done: "ok\n\
        ok\n\
        sent 8 C2 S1 pullRequest\n\
        ok\n\
        sent 9 S1 C2 pullResponse\n\
        ok\n\
        no 29 10\n\
        no 29 10\n\
        ok clean 1 h:0101010101010101010101010101010101010101010101010101010101010101010101010101010101010101010101010\
        101010101010101010101010101010101\n",
    },
    // A newer version of a row that the client has: one chunk takes the place of another.
    PlanCase {
        script: "store S1\n\
        table T1 photos eventual 64 o:object\n\
        client C1 - T1\n\
        client C2 - T1\n\
        write C1 T1 00000000-0000-4000-8000-000000000001 h:00\n\
        sync C1 T1\n\
        deliver 0\n\
        deliver 1\n\
        pull C2 T1\n\
        deliver 3\n\
        deliver 4\n\
        deliver 5\n\
        deliver 2\n\
        write C1 T1 00000000-0000-4000-8000-000000000001 h:01\n\
        sync C1 T1\n\
        deliver 6\n\
        deliver 7\n\
        pull C2 T1\n\
        deliver 9\n\
        hold C2\n\
        deliver 10\n\
        deliver 11\n",
        told: "ok 1\n\
        wrote C1 1 T1 00000000-0000-4000-8000-000000000001 0 h:00\n\
        ok 1\n\
        sent 0 C1 S1 syncRequest\n\
        sent 1 C1 S1 objectFragment\n\
        ok\n\
        ok\n\
        accepted T1 1 00000000-0000-4000-8000-000000000001 C1 1 0\n\
        sent 2 S1 C1 syncResponse\n\
        ok\n\
        sent 3 C2 S1 pullRequest\n\
        ok\n\
        sent 4 S1 C2 pullResponse\n\
        sent 5 S1 C2 objectFragment\n\
        ok\n\
        ok\n\
        new C2 T1 00000000-0000-4000-8000-000000000001 1\n\
        position C2 T1 1\n\
        ok\n\
        acked C1 1 T1 00000000-0000-4000-8000-000000000001 1\n\
        ok 2\n\
        wrote C1 2 T1 00000000-0000-4000-8000-000000000001 1 h:01\n\
        ok 1\n\
        sent 6 C1 S1 syncRequest\n\
        sent 7 C1 S1 objectFragment\n\
        ok\n\
        ok\n\
        accepted T1 2 00000000-0000-4000-8000-000000000001 C1 2 1\n\
        sent 8 S1 C1 syncResponse\n\
        ok\n\
        sent 9 C2 S1 pullRequest\n\
        ok\n\
        sent 10 S1 C2 pullResponse\n\
        sent 11 S1 C2 objectFragment\n\
        ok\n\
        ok\n\
        ok\n",
        client: "C2",
        chunks: 1,
        row: true,
        table: true,
        drops: 1,
        facts: [
            "new C2 T1 00000000-0000-4000-8000-000000000001 2\n",
            "position C2 T1 2\n",
        ],
        sent: "",
        torn: "torn C2 T1 00000000-0000-4000-8000-000000000001\n",
        show: "show C2 T1 00000000-0000-4000-8000-000000000001\n",
        shows: ["ok clean 1 h:00\n", "ok clean 2 h:01\n"],
        tail: "free C2\n\
        pull C2 T1\n\
        deliver 12\n\
        deliver 13\n\
        deliver 14\n\
        show C2 T1 00000000-0000-4000-8000-000000000001\n",
        undone: "ok\n\
        ok\n\
        sent 12 C2 S1 pullRequest\n\
        ok\n\
        sent 13 S1 C2 pullResponse\n\
        sent 14 S1 C2 objectFragment\n\
        ok\n\
        ok\n\
        new C2 T1 00000000-0000-4000-8000-000000000001 2\n\
        position C2 T1 2\n\
        ok clean 2 h:01\n",
        begun: "ok\n\
        ok\n\
        sent 12 C2 S1 tornRowRequest\n\
        ok\n\
        sent 13 S1 C2 tornRowResponse\n\
        sent 14 S1 C2 objectFragment\n\
        ok\n\
        ok\n\
        new C2 T1 00000000-0000-4000-8000-000000000001 2\n\
        sent 15 C2 S1 pullRequest\n\
        ok clean 2 h:01\n",
        done: "ok\n\
        ok\n\
        sent 12 C2 S1 pullRequest\n\
        ok\n\
        sent 13 S1 C2 pullResponse\n\
        ok\n\
        no 29 14\n\
        ok clean 2 h:01\n",
    },
    // The client's own row, which it knows to be accepted: its position alone moves.
    PlanCase {
        script: "store S1\n\
        table T1 photos eventual 64 o:object\n\
        client C1 - T1\n\
        write C1 T1 00000000-0000-4000-8000-000000000001 h:00\n\
        sync C1 T1\n\
        deliver 0\n\
        deliver 1\n\
        deliver 2\n\
        pull C1 T1\n\
        deliver 3\n\
        hold C1\n\
        deliver 4\n",
        told: "ok 1\n\
        wrote C1 1 T1 00000000-0000-4000-8000-000000000001 0 h:00\n\
        ok 1\n\
        sent 0 C1 S1 syncRequest\n\
        sent 1 C1 S1 objectFragment\n\
        ok\n\
        ok\n\
        accepted T1 1 00000000-0000-4000-8000-000000000001 C1 1 0\n\
        sent 2 S1 C1 syncResponse\n\
        ok\n\
        acked C1 1 T1 00000000-0000-4000-8000-000000000001 1\n\
        ok\n\
        sent 3 C1 S1 pullRequest\n\
        ok\n\
        sent 4 S1 C1 pullResponse\n\
        sent 5 S1 C1 objectFragment\n\
        ok\n\
        ok\n",
        client: "C1",
        chunks: 0,
        row: false,
        table: true,
        drops: 0,
        facts: ["position C1 T1 1\n", ""],
        sent: "",
        torn: "",
        show: "show C1 T1 00000000-0000-4000-8000-000000000001\n",
        shows: ["ok clean 1 h:00\n", "ok clean 1 h:00\n"],
        tail: "free C1\n\
        pull C1 T1\n\
        deliver 6\n\
        deliver 7\n",
        undone: "ok\n\
        ok\n\
        sent 6 C1 S1 pullRequest\n\
        ok\n\
        sent 7 S1 C1 pullResponse\n\
        sent 8 S1 C1 objectFragment\n\
        ok\n\
        position C1 T1 1\n",
        begun: "",
        done: "ok\n\
        ok\n\
        sent 6 C1 S1 pullRequest\n\
        ok\n\
        sent 7 S1 C1 pullResponse\n\
        ok\n",
    },
    // A table that was made, which the client opens.
    PlanCase {
        script: "store S1\n\
        draft T1 photos eventual 64 o:object\n\
        client C1 - -\n\
        create C1 T1\n\
        deliver 0\n\
        hold C1\n\
        deliver 1\n",
        told: "ok\n\
        sent 0 C1 S1 createTable\n\
        ok\n\
        made T1\n\
        sent 1 S1 C1 operationResponse\n\
        ok\n\
        ok\n",
        client: "C1",
        chunks: 0,
        row: false,
        table: true,
        drops: 0,
        facts: ["opened C1 T1\n", ""],
        sent: "",
        torn: "",
        show: "show C1 T1 00000000-0000-4000-8000-000000000001\n",
        shows: ["no 18\n", "no 27\n"],
        tail: "free C1\n\
        deliver 1\n\
        write C1 T1 00000000-0000-4000-8000-000000000001 h:\n",
        undone: "ok\n\
        ok\n\
        opened C1 T1\n\
        ok 1\n\
        wrote C1 1 T1 00000000-0000-4000-8000-000000000001 0 h:\n",
        begun: "",
        done: "ok\n\
        ok\n\
        ok 1\n\
        wrote C1 1 T1 00000000-0000-4000-8000-000000000001 0 h:\n",
    },
    // A table that was dropped, which the client closes.
    PlanCase {
        script: "store S1\n\
        table T1 photos eventual 64 o:object\n\
        client C1 - T1\n\
        write C1 T1 00000000-0000-4000-8000-000000000001 h:00\n\
        drop C1 T1\n\
        deliver 0\n\
        hold C1\n\
        deliver 1\n",
        told: "ok 1\n\
        wrote C1 1 T1 00000000-0000-4000-8000-000000000001 0 h:00\n\
        ok\n\
        sent 0 C1 S1 dropTable\n\
        ok\n\
        unmade T1\n\
        sent 1 S1 C1 operationResponse\n\
        ok\n\
        ok\n",
        client: "C1",
        chunks: 0,
        row: false,
        table: true,
        drops: 0,
        facts: ["dropped C1 T1\n", ""],
        sent: "",
        torn: "",
        show: "show C1 T1 00000000-0000-4000-8000-000000000001\n",
        shows: ["ok mine 1 h:00\n", "no 18\n"],
        tail: "free C1\n\
        deliver 1\n\
        sync C1 T1\n",
        undone: "ok\n\
        ok\n\
        dropped C1 T1\n\
        no 18\n",
        begun: "",
        done: "ok\n\
        ok\n\
        no 18\n",
    },
];
