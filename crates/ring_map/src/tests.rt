use crate::Ring;
use std::alloc::{AllocError, Global};
use std::test::Fail;

// The tables `a`, `b` and `bar`, whose places are ca978112ca1bbdca, 3e23e8160039594a and fcde2b2edba56bf4. Those of the
// Stores 1, 2 and 3 are 6b86b273ff34fce1, d4735e3a265e16ee and 4e07408562bedb8b.
fn owners(ring: &Ring) -> (Option<u32>, Option<u32>, Option<u32>) {
    (ring.owner(b"a"), ring.owner(b"b"), ring.owner(b"bar"))
}

fn joined(alloc: Global, stores: &[u32]) -> Result<Ring, AllocError> {
    let mut ring = Ring::new(alloc);
    for store in stores {
        ring.join_node(*store)?;
    }
    Ok(ring)
}

#[test]
fn a_table_is_kept_by_the_first_store_at_or_after_its_place(rt: HostRuntime) -> Result<(), Fail> {
    let two = joined(rt.alloc(), &[2, 1])?;
    assert_eq!(rt; owners(&two), (Some(2), Some(1), Some(1)));
    let three = joined(rt.alloc(), &[1, 2, 3, 3])?;
    assert_eq!(rt; owners(&three), (Some(2), Some(3), Some(3)));
    Ok(())
}

#[test]
fn stores_leave(rt: HostRuntime) -> Result<(), Fail> {
    let mut ring = joined(rt.alloc(), &[1, 2, 3])?;
    ring.leave_node(4);
    assert_eq!(rt; owners(&ring), (Some(2), Some(3), Some(3)));
    ring.leave_node(3);
    assert_eq!(rt; owners(&ring), (Some(2), Some(1), Some(1)));
    ring.leave_node(2);
    ring.leave_node(2);
    assert_eq!(rt; owners(&ring), (Some(1), Some(1), Some(1)));
    ring.leave_node(1);
    assert_eq!(rt; owners(&ring), (None, None, None));
    assert_eq!(rt; ring.owner(b""), None);
    Ok(())
}

#[test]
fn names_and_numbers_may_be_any(rt: HostRuntime) -> Result<(), Fail> {
    // The places are 5feceb66ffc86f38 and f807212b6748a830, and those of the first two names e3b0c44298fc1c14 and
    // ea5dbf9596d187e9.
    let ring = joined(rt.alloc(), &[0, u32::MAX])?;
    assert_eq!(rt; ring.owner(b""), Some(u32::MAX));
    assert_eq!(rt; ring.owner(b"\xff\x00"), Some(u32::MAX));
    assert_eq!(rt; owners(&ring), (Some(u32::MAX), Some(0), Some(0)));
    Ok(())
}
