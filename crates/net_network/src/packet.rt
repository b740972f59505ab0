ghost use Rattle.std.specs.Prelude.{◌≡◌, List, Some, IfOk};
ghost use Rattle.table_model.specs.declared.message.Message.{Message};
ghost use Rattle.wire_tables.specs.Wire.{PartPacket};
ghost use Rattle.message_frames.specs.Frames.{IsFrameOf};
ghost use Rattle.net_network.specs.Packets.{IsKept, IsPartIf, whole_of};

use message_frames::{FrameError, message_in};
use std::alloc::{AllocError, Global};
use table_model::{Message, Node};

/// What the network keeps of a message.
#[derive(Drop)]
pub(crate) enum Kept {
    /// The number of the packet that has the part, and the token that goes with it.
    Part { number: u64, token: u64 },
    /// The frame of any other message.
    Frame(Vec<u8>),
}

/// A message that was sent.
#[derive(Drop)]
pub(crate) struct Packet {
    pub(crate) from: Node,
    pub(crate) to: Node,
    pub(crate) kept: Kept,
}

/// The parties of a message that was sent.
#[derive(Debug, Clone, Copy, PartialEq, Eq)]
pub struct Way {
    pub from: Node,
    pub to: Node,
    /// Of a part, the number of the packet that has it, and its token.
    pub part: Option<(u64, u64)>,
}

// The message of a frame, which is fed to a framer in one piece. None of other bytes, which no packet has.
fn message_of(alloc: Global, frame: &[u8]) -> Result<Option<Message>, AllocError>
    ensures { (message : Message) → IsFrameOf frame.now message → IfOk result (λ found. found ≡ Some message) }
{
    match message_in(alloc, frame) {
        Ok(message) => Ok(Some(message)),
        Err(FrameError::Memory) => Err(AllocError),
        Err(FrameError::NoMessage) => Ok(None),
    }
}

impl Kept {
    pub(crate) fn part(&self) -> Option<(u64, u64)>
        ensures { (ps : List PartPacket) (message : Message) → IsKept ps self.now message
            → IsPartIf ps result message }
    {
        match self {
            Kept::Part { number, token } => Some((*number, *token)),
            Kept::Frame(_) => None,
        }
    }

    /// The message, where it is no part.
    pub(crate) fn whole(&self, alloc: Global) -> Result<Option<Message>, AllocError>
        ensures { (ps : List PartPacket) (message : Message) → IsKept ps self.now message
            → IfOk result (λ found. found ≡ whole_of message) }
    {
        match self {
            Kept::Part { .. } => Ok(None),
            Kept::Frame(frame) => message_of(alloc, frame.as_slice()),
        }
    }
}
