ghost use Rattle.std.specs.Prelude.{◌≡◌, ◌≢◌, ◌+◌, List, [], ◌∷◌, length, None, IfOk, IfErr, IfSome};
ghost use Rattle.table_model.specs.declared.message.Message.{Message};
ghost use Rattle.sim_frame.specs.declared.frame.Frame.{Frame};
ghost use Rattle.sim_frame.specs.Stream.{Left, Reads};
ghost use Rattle.sync_msgs.specs.Spelling.{body_spelling, IsOfKind};
ghost use Rattle.message_frames.specs.Frames.{HasFrame, frame_of, IsFrameOf};
ghost use Rattle.message_frames.specs.declared.frames.FrameError.TheVariants as errors;

use sim_frame::{Frame, FrameFault, Framer, frame_bytes};
use std::alloc::{AllocError, Global};
use sync_msgs::{MessageFault, decode, encode};
use table_model::Message;
use thiserror::Error;

/// Why bytes give no message.
#[derive(Debug, Drop, Clone, Copy, PartialEq, Eq, Error)]
pub enum FrameError {
    /// They aren't the frame of a message, and nothing else.
    #[error("the bytes are no frame of a message")]
    NoMessage,
    /// Memory ran out.
    #[error("out of memory")]
    Memory,
}

/// The frame of a message: four bytes of length, big-endian, the byte of its kind, and its body.
pub fn frame_of(alloc: Global, message: &Message) -> Result<Vec<u8>, AllocError>
    requires { HasFrame message.now }
    ensures { IfOk result (λ made. made.items ≡ frame_of message.now) }
{
    let (kind, body) = encode(alloc, message)?;
    frame_bytes(alloc, kind, body.as_slice())
}

// The message of a frame.
fn message_of(alloc: Global, frame: &Frame) -> Result<Message, FrameError>
    ensures found { IfOk result (λ message. IsOfKind frame.now.kind message
        × (frame.now.body ≡ body_spelling message)) }
    ensures only { (message : Message) → IsOfKind frame.now.kind message → frame.now.body ≡ body_spelling message
        → IfOk result (λ found. found ≡ message) × IfErr result (λ error. error ≡ errors.Memory) }
{
    match decode(alloc, frame.kind, frame.body.as_slice()) {
        Ok(message) => Ok(message),
        Err(MessageFault::BadMessage { .. }) => Err(FrameError::NoMessage),
        Err(MessageFault::Memory) => Err(FrameError::Memory),
    }
}

// The frames that bytes begin with.
fn frames_in(alloc: Global, bytes: &[u8]) -> Result<Vec<Frame>, FrameError>
    ensures found { IfOk result (λ frames. (left : Left) × Reads bytes.now frames.items left) }
    ensures refused { (frames : List Frame) (left : Left) → Reads bytes.now frames left → frames ≢ []
        → IfErr result (λ error. error ≡ errors.Memory) }
{
    match Framer::new(alloc).feed(bytes) {
        Ok(frames) => Ok(frames),
        Err(FrameFault::BadLength { .. }) => Err(FrameError::NoMessage),
        Err(FrameFault::Memory) => Err(FrameError::Memory),
    }
}

// The frame among some, where there is one alone and it has so many bytes.
fn only_frame(frames: &[Frame], len: usize) -> Option<&Frame>
    ensures one { IfSome result (λ frame. (frames.now ≡ frame.now ∷ []) × (length frame.now.body + 5 ≡ len)) }
    ensures none { result ≡ None → (frame : Frame) → frames.now ≡ frame ∷ [] → length frame.body + 5 ≡ len → ⊥ }
{
    match frames {
        [frame] if len.checked_sub(5) == Some(frame.body.len()) => Some(frame),
        _ => None,
    }
}

/// The message whose frame these bytes are, where they are fed to a framer in one piece.
pub fn message_in(alloc: Global, bytes: &[u8]) -> Result<Message, FrameError>
    ensures found { IfOk result (IsFrameOf bytes.now) }
    ensures only { (message : Message) → IsFrameOf bytes.now message
        → IfOk result (λ found. found ≡ message) × IfErr result (λ error. error ≡ errors.Memory) }
{
    match frames_in(alloc, bytes) {
        Err(error) => Err(error),
        Ok(frames) => match only_frame(frames.as_slice(), bytes.len()) {
            None => Err(FrameError::NoMessage),
            Some(frame) => message_of(alloc, frame),
        },
    }
}
