ghost use Rattle.std.specs.Prelude.{◌≡◌, [], IfOk, IfErr};
ghost use Rattle.sim_frame.specs.Stream.{IsOpen, IsFed, IsRefused};
ghost use Rattle.sim_frame.specs.Stream.Left.{Open};
ghost use Rattle.sim_frame.specs.Opening.{IsBehind};

use crate::frame::{Frame, FrameFault};
use crate::part::{Next, Part};
use crate::whole::{Wholes, whole_frames};
use std::alloc::{AllocError, Global};
use std::marker::Model;

/// Takes a stream in pieces and gives its frames. Contracts see what it keeps: the front of a frame, or a length that
/// is that of no frame. Each byte is copied once, into the body that it belongs to. A body takes memory as its bytes
/// come, whatever length it is to have.
#[derive(Drop)]
pub struct Framer {
    alloc: Global,
    part: Part,
    broken: Option<u32>,
}

impl Model for Framer {
    ghost use Rattle.std.specs.Prelude.{MatchOption};
    ghost use Rattle.sim_frame.specs.Stream.{Left};
    ghost use Rattle.sim_frame.specs.Opening.{left_of, held_of, IsKept};

    ghost Value = { Left };

    ghost view = { λ a. left_of a.broken (held_of a.part) };

    ghost invariant = { λ a. MatchOption a.broken (IsKept a.part) (λ len. Unit {0}) };
}

fn rest_of(alloc: Global, bytes: &[u8], broken: Option<u32>) -> Result<Part, AllocError>
    ensures { IfOk result (IsBehind broken bytes.now) }
{
    match broken {
        Some(_) => Ok(Part::new(alloc)),
        None => Part::of(alloc, bytes),
    }
}

impl Framer {
    /// At the beginning of a stream.
    pub fn new(alloc: Global) -> Self
        ensures { result ≡ Open [] }
    {
        Framer {
            alloc,
            part: Part::new(alloc),
            broken: None,
        }
    }

    /// The frames that are whole with this piece of the stream and weren't before. Where a length that no frame has
    /// stands behind some of them, this call answers these, and the next one `BadLength`; after `BadLength` every
    /// call answers it again.
    pub fn feed(&mut self, piece: &[u8]) -> Result<Vec<Frame>, FrameFault>
        // They are the frames of what was kept and the piece, and what is kept is what stands behind them.
        ensures frames { IfOk result (λ frames. IsFed self.old piece.now frames.items self.new) }
        // A length that no frame has is told at once where no frame stands in front of it.
        ensures told { IfOk result (λ frames. frames.items ≡ [] → IsOpen self.new) }
        ensures refused { IfErr result (IsRefused self.old piece.now self.new) }
    {
        if let Some(len) = self.broken {
            return Err(FrameFault::BadLength { len });
        }
        match self.part.next(piece) {
            Next::Front => {
                self.part.keep(piece)?;
                Ok(Vec::new(self.alloc))
            }
            Next::Broken { len } => {
                self.broken = Some(len);
                Err(FrameFault::BadLength { len })
            }
            Next::Whole { need } => {
                let (front, behind) = piece.split_at(need);
                let Wholes {
                    mut frames,
                    behind: at,
                    broken,
                } = whole_frames(self.alloc, behind)?;
                frames.reserve(1)?;
                let next = rest_of(self.alloc, &behind[at..], broken)?;
                let first = self.part.complete(front, next)?;
                frames.insert(0, first).unwrap();
                self.broken = broken;
                Ok(frames)
            }
        }
    }
}
