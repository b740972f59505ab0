ghost use Rattle.std.specs.Prelude.{◌≡◌, ◌≤◌, ◌<◌, ◌+◌, ◌++◌, [], length, take, IfOk, OnOk, OnErr};
ghost use Rattle.sim_frame.specs.Stream.{frame_spelling, HasFrameSpelling};
ghost use Rattle.sim_frame.specs.Opening.{held_of, IsShaped, IsKept, IsWhole, Going};

use crate::frame::Frame;
use crate::opening::{Opening, opening_of};
use arrayvec::ArrayVec;
use stab_base::Bytes;
use std::alloc::{AllocError, Global};
use std::mem;

/// How many bytes stand in front of a frame's body.
const HEAD: usize = 5;

/// The front of a frame that isn't whole yet: its length and kind as far as they are there, and its body.
#[derive(Drop)]
pub(crate) struct Part {
    pub(crate) head: ArrayVec<u8, 5>,
    pub(crate) body: Vec<u8>,
}

/// What a piece makes of the front of a frame.
#[derive(Clone, Copy)]
pub(crate) enum Next {
    /// The frame isn't whole yet.
    Front,
    /// The length turns out to be that of no frame.
    Broken { len: u32 },
    /// The frame is whole with so many bytes of the piece.
    Whole { need: usize },
}

/// The first five bytes of two strings of bytes, one behind the other.
fn filled(head: &[u8], piece: &[u8]) -> ArrayVec<u8, 5>
    requires { length head.now ≤ 5 }
    ensures { result.items ≡ take 5 (head.now ++ piece.now) }
{
    let missing = (HEAD - head.len()).min(piece.len());
    let mut made = ArrayVec::new();
    made.try_extend_from_slice(head).unwrap();
    made.try_extend_from_slice(&piece[..missing]).unwrap();
    made
}

impl Part {
    /// Nothing of a frame.
    pub(crate) fn new(alloc: Global) -> Self
        ensures held { held_of result ≡ [] }
        ensures shape { IsShaped result }
    {
        Part {
            head: ArrayVec::new(),
            body: Vec::new(alloc),
        }
    }

    /// These bytes.
    pub(crate) fn of(alloc: Global, bytes: &[u8]) -> Result<Self, AllocError>
        ensures held { IfOk result (λ part. held_of part ≡ bytes.now) }
        ensures shape { IfOk result IsShaped }
    {
        let mut part = Part::new(alloc);
        part.keep(bytes)?;
        Ok(part)
    }

    /// What the frame is with a piece more.
    pub(crate) fn next(&self, piece: &[u8]) -> Next
        requires { IsKept self.now }
        ensures { Going (held_of self.now) piece.now result }
    {
        match opening_of(filled(self.head.as_slice(), piece).as_slice()) {
            Opening::Short => Next::Front,
            Opening::Bad { len } => Next::Broken { len },
            Opening::Sized { len } => {
                let need = len as usize + 4 - (self.head.len() + self.body.len());
                if piece.len() < need {
                    return Next::Front;
                }
                Next::Whole { need }
            }
        }
    }

    /// Adds a piece.
    pub(crate) fn keep(&mut self, piece: &[u8]) -> Result<(), AllocError>
        requires { IsShaped self.old }
        ensures ok { OnOk result (held_of self.new ≡ held_of self.old ++ piece.now) }
        ensures err { OnErr result (held_of self.new ≡ held_of self.old) }
        ensures shape { IsShaped self.new }
    {
        let missing = (HEAD - self.head.len()).min(piece.len());
        self.body.extend_from_slice(&piece[missing..])?;
        self.head.try_extend_from_slice(&piece[..missing]).unwrap();
        Ok(())
    }

    /// The frame, which is whole with a piece more. The next frame begins with the bytes of `next`.
    pub(crate) fn complete(&mut self, piece: &[u8], next: Part) -> Result<Frame, AllocError>
        requires shape { IsShaped self.old }
        requires whole { IsWhole (held_of self.old ++ piece.now) }
        ensures frame { IfOk result (λ frame. held_of self.old ++ piece.now ≡ frame_spelling frame) }
        ensures spelled { IfOk result HasFrameSpelling }
        ensures ok { OnOk result (self.new ≡ next) }
        ensures err { OnErr result (held_of self.new ≡ held_of self.old) }
        ensures shape { OnErr result (IsShaped self.new) }
    {
        self.keep(piece)?;
        let whole = mem::replace(self, next);
        Ok(Frame {
            kind: whole.head.as_slice()[4],
            body: Bytes::from_vec(whole.body),
        })
    }
}
