use crate::{
    put_local, put_locals, put_slots, put_tells, take_local, take_locals, take_slots, take_tells,
};
use held_value::LocalName;
use stab_base::Sequence;
use std::alloc::{AllocError, Global};
use std::test::Fail;
use value_codec::SpellFault;

// A deleted row as the last write, a row with an object of two chunks as it was read and sent, no conflict.
const SLOTS: [u8; 218] = [
    1, 0, 0, 0, 0, 0, 0, 0, 3, 0, 0, 0, 0, 0, 0, 0, 2, 0, 1, 0, 0, 0, 0, 0, 0, 0, 2, 1, 0, 0, 0, 2,
    1, 255, 255, 255, 255, 255, 255, 255, 251, 3, 0, 0, 0, 2, 195, 169, 0, 0, 0, 1, 0, 1, 17, 112,
    0, 0, 0, 2, 0, 0, 0, 0, 0, 0, 0, 1, 0, 0, 0, 0, 1, 0, 0, 0, 0, 0, 0, 0, 2, 0, 0, 0, 0, 0, 0, 0,
    0, 0, 0, 0, 7, 0, 0, 0, 1, 0, 1, 0, 0, 0, 0, 0, 0, 0, 2, 0, 0, 0, 0, 0, 0, 0, 1, 0, 0, 0, 0, 0,
    0, 0, 2, 1, 1, 0, 0, 0, 2, 1, 255, 255, 255, 255, 255, 255, 255, 251, 3, 0, 0, 0, 2, 195, 169,
    0, 0, 0, 1, 0, 1, 17, 112, 0, 0, 0, 2, 0, 0, 0, 0, 0, 0, 0, 1, 0, 0, 0, 0, 1, 0, 0, 0, 0, 0, 0,
    0, 2, 0, 0, 0, 0, 0, 0, 0, 0, 0, 0, 0, 7, 0, 0, 0, 1, 0, 0, 0, 0, 2, 0, 0, 0, 0, 0, 0, 0, 0, 2,
    0, 0, 0, 0, 1, 0, 0, 0, 0, 0,
];

// One tell of each kind.
const TELLS: [u8; 109] = [
    0, 0, 0, 9, 1, 0, 0, 0, 0, 0, 0, 0, 1, 0, 0, 0, 0, 0, 0, 0, 0, 2, 0, 0, 0, 0, 0, 0, 0, 1, 0, 0,
    0, 0, 0, 0, 0, 9, 6, 0, 0, 0, 0, 0, 0, 0, 9, 7, 0, 0, 0, 0, 0, 0, 0, 9, 8, 9, 3, 0, 0, 0, 0, 0,
    0, 0, 1, 0, 0, 0, 0, 0, 0, 0, 4, 4, 0, 0, 0, 0, 0, 0, 0, 1, 0, 0, 0, 0, 0, 0, 0, 4, 5, 0, 0, 0,
    0, 0, 0, 0, 1, 0, 0, 0, 0, 0, 0, 0, 4,
];

// Whether slots stand in all these bytes, and are spelled by them.
fn reads_slots(alloc: Global, bytes: &[u8]) -> Result<bool, Fail> {
    match take_slots(alloc, bytes, 0) {
        Ok((slots, end)) => {
            let mut out = Vec::new(alloc);
            put_slots(&mut out, &slots)?;
            Ok(end == bytes.len() && out.as_slice() == bytes)
        }
        Err(SpellFault::Bad { .. }) => Ok(false),
        Err(SpellFault::Memory) => Err(AllocError.into()),
    }
}

#[test]
fn slots_are_read_and_spelled_again(rt: HostRuntime) -> Result<(), Fail> {
    assert!(rt; reads_slots(rt.alloc(), &SLOTS)?);
    assert!(rt; reads_slots(rt.alloc(), &[0, 0, 0, 0])?);
    assert!(rt; !reads_slots(rt.alloc(), &[0, 0, 0, 2])?);
    Ok(())
}

#[test]
fn slots_cut_off_are_none(rt: HostRuntime) -> Result<(), Fail> {
    for len in 0..SLOTS.len() {
        assert!(rt; !reads_slots(rt.alloc(), &SLOTS[..len])?);
    }
    Ok(())
}

#[test]
fn tells_are_read_and_spelled_again(rt: HostRuntime) -> Result<(), Fail> {
    let Ok((tells, end)) = take_tells(rt.alloc(), &TELLS, 0) else {
        return Err(AllocError.into());
    };
    let mut out = Vec::new(rt.alloc());
    put_tells(&mut out, tells.as_slice())?;
    assert_eq!(rt; end, TELLS.len());
    assert_eq!(rt; out.as_slice(), TELLS.as_slice());
    for kind in [0u8, 10, 255] {
        let one = [
            0, 0, 0, 1, kind, 0, 0, 0, 0, 0, 0, 0, 1, 0, 0, 0, 0, 0, 0, 0, 0,
        ];
        assert!(rt; take_tells(rt.alloc(), &one, 0).is_err());
    }
    Ok(())
}

#[test]
fn local_names_are_spelled_by_plan_and_number(rt: HostRuntime) -> Result<(), Fail> {
    let name = LocalName {
        plan: 258,
        ordinal: 3,
    };
    let spelled = [0, 0, 0, 0, 0, 0, 1, 2, 0, 0, 0, 3];
    let mut out = Vec::new(rt.alloc());
    put_local(&mut out, name)?;
    assert_eq!(rt; out.as_slice(), spelled.as_slice());
    assert_eq!(rt; take_local(&spelled, 0), Ok((name, 12)));
    let mut names = Sequence::new(rt.alloc());
    names.push(name)?;
    let mut out = Vec::new(rt.alloc());
    put_locals(&mut out, names.as_slice())?;
    let Ok((found, end)) = take_locals(rt.alloc(), out.as_slice(), 0) else {
        return Err(AllocError.into());
    };
    assert_eq!(rt; end, 16);
    assert_eq!(rt; found.as_slice(), names.as_slice());
    Ok(())
}
