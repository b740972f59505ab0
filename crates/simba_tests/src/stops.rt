//! Scripts that crash inside a device write, and which of them are done.
use crate::runs::ends;
use std::alloc::Global;
use std::process::Abort;
use std::test::Fail;

/// Of the disk of the next write so many calls pass, and so many bytes of the next land.
#[derive(Clone, Copy)]
pub(crate) struct Stop {
    pub(crate) calls: u32,
    pub(crate) pick: u64,
}

pub(crate) const STOPS: [Stop; 9] = [
    Stop { calls: 0, pick: 0 },
    Stop { calls: 0, pick: 9 },
    Stop { calls: 1, pick: 0 },
    Stop { calls: 1, pick: 9 },
    Stop { calls: 2, pick: 0 },
    Stop { calls: 2, pick: 1 },
    Stop { calls: 3, pick: 0 },
    Stop { calls: 3, pick: 1 },
    Stop { calls: 4, pick: 0 },
];

// Whether the write is done: with three calls or more, or with two and a byte of the third.
pub(crate) fn lands(stop: Stop) -> usize {
    match stop {
        Stop { calls: 0 | 1, .. } | Stop { calls: 2, pick: 0 } => 0,
        _ => 1,
    }
}

/// A script, and beside it the transcript that is expected of it.
#[derive(Drop)]
pub(crate) struct Played {
    pub(crate) script: Vec<u8>,
    pub(crate) transcript: Vec<u8>,
}

pub(crate) fn add(text: &mut Vec<u8>, part: &str) -> Result<(), Fail> {
    text.extend_from_slice(part.as_bytes())?;
    Ok(())
}

impl Played {
    pub(crate) fn check(self, rt: &impl Abort, alloc: Global) -> Result<(), Fail> {
        let Played { script, transcript } = self;
        let (status, written) = ends(alloc, "run", script, &[], &[])?;
        assert_eq!(rt; status, 0);
        assert!(rt; written.as_slice() == transcript.as_slice());
        Ok(())
    }
}
