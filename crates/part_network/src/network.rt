ghost use Rattle.std.specs.Prelude.{◌≡◌, ◌+◌, ◌≤◌, true, List, [], ◌++◌, length, map, slice_get};
ghost use Rattle.std.specs.Prelude.{option_map, option_copied, IfOk, IfErr, OnOk, OnErr};
ghost use Rattle.std.specs.List.{AllByRecursion};
ghost use Rattle.step_tables.specs.Lines.{line_of};
ghost use Rattle.step_tables.specs.Travels.{message_of};
ghost use Rattle.wire_tables.specs.Wire.{PartPacket, sent_lines};
ghost use Rattle.message_frames.specs.Frames.{HasFrame};
ghost use Rattle.message_parts.specs.Parts.{message_at};
ghost use Rattle.message_parts.specs.Splits.{may_split};
ghost use Rattle.part_network.specs.Packets.{packet_of, packet_with, frame_length, frame_lengths, most_bytes};
ghost use Rattle.part_network.specs.Packets.{bytes_of, HasFrames};
ghost use Rattle.part_network.specs.Packets.{HasPackets, read_of, part_in, part_with, sent_parts, told, IsFault};

use crate::fault::NetworkFault;
use crate::packet::Packet;
use crate::sending::{bytes_with, packets_with, tell};
use message_frames::{FrameError, message_in};
use message_parts::in_parts;
use stab_base::Sequence;
use std::alloc::{AllocError, Global};
use table_model::{Message, Node, TextLine};

/// How many bytes the frames of all packets may have.
pub const MOST_BYTES: u64 = 268_435_456;

/// The frames of all packets, by their numbers from 0. A packet stays: it may be delivered again, later than others, or
/// never.
#[derive(Drop)]
pub struct Network {
    packets: Vec<Packet>,
    bytes: u64,
}

impl Network {
    /// No packet was sent.
    pub fn new(alloc: Global) -> Network
        ensures { HasPackets result [] }
    {
        Network {
            packets: Vec::new(alloc),
            bytes: 0,
        }
    }

    /// How many packets were sent.
    pub fn sent(&self) -> u64
        ensures count { result ≡ length self.now.packets.items }
        ensures sent { (ps : List PartPacket) → HasPackets self.now ps → result ≡ length ps }
    {
        self.packets.len() as u64
    }

    /// How many bytes their frames have.
    pub fn bytes(&self) -> u64
        ensures { (ps : List PartPacket) → HasPackets self.now ps → result ≡ bytes_of ps }
    {
        self.bytes
    }

    fn get(&self, number: u64) -> Option<&Packet>
        ensures { option_copied result ≡ slice_get self.now.packets.items number }
    {
        self.packets.get(usize::try_from(number).ok()?)
    }

    /// Whom a packet is for.
    pub fn address(&self, number: u64) -> Option<Node>
        ensures { (ps : List PartPacket) → HasPackets self.now ps
            → result ≡ option_map (λ (p : PartPacket). p.to) (slice_get ps number) }
    {
        let packet = self.get(number)?;
        Some(packet.to)
    }

    /// The sender and the message of a packet. Its frame is fed to a framer in one piece.
    pub fn read(&self, alloc: Global, number: u64) -> Result<Option<(Node, Message)>, AllocError>
        ensures message { (ps : List PartPacket) → HasPackets self.now ps → IfOk result (λ found.
            found ≡ option_map read_of (slice_get ps number)) }
        ensures part { (ps : List PartPacket) → HasPackets self.now ps → IfOk result (λ found.
            option_map part_in found ≡ option_map part_with (slice_get ps number)) }
    {
        let Some(packet) = self.get(number) else {
            return Ok(None);
        };
        match message_in(alloc, packet.frame.as_slice()) {
            Ok(message) => Ok(Some((packet.from, message))),
            Err(FrameError::Memory) => Err(AllocError),
            Err(FrameError::NoMessage) => unreachable!(),
        }
    }

    /// The length of a packet's frame.
    pub fn frame_len(&self, number: u64) -> Option<u64>
        ensures { (ps : List PartPacket) → HasPackets self.now ps
            → result ≡ option_map (λ (p : PartPacket). frame_length (message_at p.part)) (slice_get ps number) }
    {
        let packet = self.get(number)?;
        Some(packet.frame.len() as u64)
    }

    // Sends these parts.
    fn send_parts(
        &mut self,
        from: Node,
        to: Node,
        parts: &[Message],
        lines: &mut Sequence<TextLine>,
    ) -> Result<(), NetworkFault>
        requires { AllByRecursion HasFrame parts.now }
        ensures packets { OnOk result (map packet_of self.new.packets.items
            ≡ map packet_of self.old.packets.items ++ map (λ part. packet_with from to part) parts.now) }
        ensures bytes { OnOk result (self.new.bytes ≡ self.old.bytes + frame_lengths parts.now) }
        ensures most { OnOk result (self.new.bytes ≤ most_bytes) }
        ensures lines { OnOk result (map line_of lines.new ≡ map line_of lines.old
            ++ told (length self.old.packets.items) from to parts.now) }
        ensures same { OnErr result (map packet_of self.new.packets.items ≡ map packet_of self.old.packets.items) }
        ensures as_many { OnErr result (self.new.bytes ≡ self.old.bytes) }
        ensures fault { IfErr result (IsFault (self.old.bytes + frame_lengths parts.now)) }
    {
        let mut packets = packets_with(*self.packets.allocator(), from, to, parts)?;
        let bytes = bytes_with(self.bytes, packets.as_slice());
        if bytes > MOST_BYTES {
            return Err(NetworkFault::Limit { bytes });
        }
        tell(from, to, self.sent(), parts, lines)?;
        self.packets.append(&mut packets)?;
        self.bytes = bytes;
        Ok(())
    }

    /// Sends a message in parts, in chunks of a size, and adds the line of each packet. Where it fails nothing is sent.
    pub fn send(
        &mut self,
        from: Node,
        to: Node,
        chunk: u32,
        message: step_tables::Message,
        lines: &mut Sequence<TextLine>,
    ) -> Result<(), NetworkFault>
        requires split { may_split (message_of message) ≡ true }
        requires frames { HasFrames chunk (message_of message) }
        ensures packets { (ps : List PartPacket) → HasPackets self.old ps
            → OnOk result (HasPackets self.new (ps ++ sent_parts from to chunk (message_of message))) }
        ensures lines { (ps : List PartPacket) → HasPackets self.old ps
            → OnOk result (map line_of lines.new ≡ map line_of lines.old
            ++ sent_lines (length ps) (sent_parts from to chunk (message_of message))) }
        ensures unchanged { (ps : List PartPacket) → HasPackets self.old ps → OnErr result (HasPackets self.new ps) }
        ensures limit { (ps : List PartPacket) → HasPackets self.old ps
            → IfErr result (IsFault (bytes_of (ps ++ sent_parts from to chunk (message_of message)))) }
    {
        let parts = in_parts(*self.packets.allocator(), chunk, &message)?;
        self.send_parts(from, to, parts.as_slice(), lines)
    }
}
