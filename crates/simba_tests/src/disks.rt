//! Disks and depots that fail.
ghost use Rattle.std.specs.Prelude.{◌≡◌, ℕ, None, false};
ghost use Rattle.disk_kit.specs.Depot.{depot_state};

use crate::runs::{ends_on, texts};
use disk_kit::{MemDepot, MemDisk};
use disk_trait::{Depot, DepotFault, FuseDisk};
use std::alloc::Global;
use std::process::Abort;
use std::test::Fail;

/// One of its disks lets so many writes, cuts and syncs pass, and then fails until it is started again.
#[derive(Drop)]
struct FusedDepot {
    depot: MemDepot,
    number: u32,
    calls: u32,
}

impl FusedDepot {
    fn new(alloc: Global, number: u32, calls: u32) -> FusedDepot
        ensures { (k : ℕ) → (depot_state result.depot).is_out k ≡ false }
    {
        FusedDepot {
            depot: MemDepot::new(alloc, Vec::new(alloc)),
            number,
            calls,
        }
    }
}

impl Depot for FusedDepot {
    type Disk = FuseDisk<MemDisk>;

    ghost state = { λ d. depot_state d.depot };

    ghost returned = { λ d. None };

    fn disk(&mut self, number: u32) -> Result<FuseDisk<MemDisk>, DepotFault> {
        let mut disk = FuseDisk::new(self.depot.disk(number)?);
        if number == self.number {
            disk.stop_after(self.calls, 0);
        }
        Ok(disk)
    }

    fn back(&mut self, number: u32, disk: FuseDisk<MemDisk>) {
        self.depot.back(number, disk.into_inner());
    }
}

// A write that is delivered three times, its header and its fragment, with a start of the Store before each.
const SCRIPT: &str = "store S1\n\
table T1 notes eventual 64 n:int o:object\n\
client C1 - T1\n\
write C1 T1 00000000-0000-4000-8000-000000000001 5 h:00\n\
sync C1 T1\n\
deliver 0\n\
deliver 1\n\
start S1\n\
start S1\n\
deliver 0\n\
deliver 1\n\
start S1\n\
deliver 0\n\
deliver 1\n\
sshow T1 00000000-0000-4000-8000-000000000001\n\
history T1\n";

const WROTE: &str = "ok 1\n\
wrote C1 1 T1 00000000-0000-4000-8000-000000000001 0 5 h:00\n\
ok 1\n\
sent 0 C1 S1 syncRequest\n\
sent 1 C1 S1 objectFragment\n";

const LAST: &str = "ok 1 5 h:00\n\
ok 1\n\
entry T1 1 00000000-0000-4000-8000-000000000001 C1 1 0\n";

// Whether a line of the text is this one.
fn has_line(text: &[u8], line: &[u8]) -> bool {
    text.split(|byte| *byte == b'\n').any(|other| other == line)
}

// Whether a call of the disk failed. The run goes on then, and the write is there at its end, once.
fn fails(rt: &impl Abort, alloc: Global, number: u32, calls: u32) -> Result<bool, Fail> {
    let mut depot = FusedDepot::new(alloc, number, calls);
    let (status, written) = ends_on(alloc, SCRIPT, &mut depot)?;
    assert_eq!(rt; status, 0, "{number} {calls}");
    assert!(rt;
        written.starts_with(&texts(alloc, &[WROTE])?),
        "{number} {calls}"
    );
    assert!(rt;
        written.ends_with(&texts(alloc, &[LAST])?),
        "{number} {calls}"
    );
    Ok(has_line(&written, b"no 6"))
}

#[test]
fn a_disk_that_fails_loses_nothing(rt: HostRuntime) -> Result<(), Fail> {
    for number in 0..3 {
        let mut failed = false;
        for calls in 0..24 {
            failed |= fails(&rt, rt.alloc(), number, calls)?;
        }
        assert!(rt; failed, "{number}");
    }
    Ok(())
}

// Where the depot has no disk the run ends, with nothing written.
#[test]
fn a_depot_that_fails_ends_the_run(rt: HostRuntime) -> Result<(), Fail> {
    for call in 0..7 {
        let mut depot = MemDepot::new(rt.alloc(), vec![in rt.alloc(); call]?);
        let (status, written) = ends_on(rt.alloc(), SCRIPT, &mut depot)?;
        assert_eq!(rt; status == 8, call < 6, "{call}");
        assert_eq!(rt; written.is_empty(), call < 6, "{call}");
    }
    Ok(())
}

// A table whose first disk fails where it is declared, and then a Store, which keeps it and `g`; `b` stays at S1.
const FAILED: &str = "store S1\n\
table T1 a eventual 64 n:int\n\
table T2 b eventual 64 n:int\n\
table T3 g eventual 64 n:int\n\
store S2\n\
history T1\n\
hold S2\n\
do S1\n\
sshow T2 00000000-0000-4000-8000-000000000001\n\
chunks T3\n\
start S2\n\
chunks T1\n\
chunks T3\n\
crash S1 0 0\n\
start S1\n";

const FAILED_LINES: &str = "ok 0\n\
no 30 S2\n\
ok 0\n\
no 27\n\
no 30 S2\n\
ok\n\
recovered S2 T1\n\
recovered S2 T3\n\
ok 0\n\
ok 0\n\
ok\n\
ok\n\
recovered S1 T2\n";

#[test]
fn a_declaration_that_fails_takes_its_owner_down(rt: HostRuntime) -> Result<(), Fail> {
    let mut depot = FusedDepot::new(rt.alloc(), 0, 0);
    let (status, written) = ends_on(rt.alloc(), FAILED, &mut depot)?;
    assert_eq!(rt; status, 0);
    assert!(rt; written.as_slice() == FAILED_LINES.as_bytes());
    Ok(())
}
