ghost use Rattle.std.specs.Prelude.{◌≡◌, ◌≤◌, ◌+◌, length, drop, IfOk};
ghost use Rattle.sim_frame.specs.Opening.{FirstIs, AreWhole};

use crate::frame::Frame;
use crate::opening::{Opening, opening_of};
use stab_base::Bytes;
use std::alloc::{AllocError, Global};

/// What a stream begins with.
#[derive(Drop)]
pub(crate) enum First {
    /// A whole frame, which has so many bytes with its length.
    Whole { frame: Frame, size: usize },
    /// The front of a frame.
    Front,
    /// A length that is that of no frame.
    Broken { len: u32 },
}

fn first_of(alloc: Global, bytes: &[u8]) -> Result<First, AllocError>
    ensures { IfOk result (FirstIs bytes.now) }
{
    match opening_of(bytes) {
        Opening::Short => Ok(First::Front),
        Opening::Bad { len } => Ok(First::Broken { len }),
        Opening::Sized { len } => {
            let size = len as usize + 4;
            if bytes.len() < size {
                return Ok(First::Front);
            }
            let frame = Frame {
                kind: bytes[4],
                body: Bytes::from_slice(alloc, &bytes[5..size])?,
            };
            Ok(First::Whole { frame, size })
        }
    }
}

/// The whole frames at the front of a stream.
#[derive(Drop)]
pub(crate) struct Wholes {
    pub(crate) frames: Vec<Frame>,
    /// The place behind them.
    pub(crate) behind: usize,
    /// The length that stands there and is that of no frame.
    pub(crate) broken: Option<u32>,
}

/// The whole frames at the front of these bytes.
pub(crate) fn whole_frames(alloc: Global, bytes: &[u8]) -> Result<Wholes, AllocError>
    ensures { IfOk result (λ found. AreWhole bytes.now found.frames.items found.behind found.broken) }
{
    let mut frames = Vec::new(alloc);
    let mut behind = 0;
    'frames: loop {
        match first_of(alloc, &bytes[behind..])? {
            First::Whole { frame, size } => {
                frames.push(frame)?;
                behind += size;
            }
            First::Front => {
                return Ok(Wholes {
                    frames,
                    behind,
                    broken: None,
                });
            }
            First::Broken { len } => {
                return Ok(Wholes {
                    frames,
                    behind,
                    broken: Some(len),
                });
            }
        }
    }
}
