ghost use Rattle.std.specs.Prelude.{◌≡◌, List, [], ◌∷◌, ◌++◌, length, is_some, Some, None, slice_get};
ghost use Rattle.std.specs.Prelude.{option_map, option_copied, IfOk, IfErr, OnOk, OnErr};
ghost use Rattle.table_model.specs.declared.message.Message.{Message};
ghost use Rattle.wire_tables.specs.Wire.{PartPacket};
ghost use Rattle.message_frames.specs.Frames.{HasFrame};
ghost use Rattle.message_parts.specs.Parts.{part_of, message_at};
ghost use Rattle.part_network.specs.Packets.{frame_length, IsFault};
ghost use Rattle.gated_tables.specs.Devices.{stamped};
ghost use Rattle.gated_tables.specs.Net.{Sent};
ghost use Rattle.net_network.specs.Packets.{IsPacketOf, HasSent, IsWayAt, net_bytes, whole_in};

use crate::packet::{Kept, Packet, Way};
use message_frames::frame_of;
use part_network::{MOST_BYTES, NetworkFault};
use std::alloc::{AllocError, Global};
use table_model::{Message, Node};

/// Every message that was sent, by its number from 0. A packet stays: it may be delivered again, later than others, or
/// never.
#[derive(Drop)]
pub struct Network {
    packets: Vec<Packet>,
    bytes: u64,
}

impl Network {
    /// Nothing was sent.
    pub fn new(alloc: Global) -> Network
        ensures { (ps : List PartPacket) → HasSent result ps [] }
    {
        Network {
            packets: Vec::new(alloc),
            bytes: 0,
        }
    }

    /// How many messages were sent.
    pub fn sent(&self) -> u64
        ensures { (ps : List PartPacket) (sent : List Sent) → HasSent self.now ps sent → result ≡ length sent }
    {
        self.packets.len() as u64
    }

    /// How many bytes their frames have.
    pub fn bytes(&self) -> u64
        ensures { (ps : List PartPacket) (sent : List Sent) → HasSent self.now ps sent → result ≡ net_bytes sent }
    {
        self.bytes
    }

    fn get(&self, number: u64) -> Option<&Packet>
        ensures { option_copied result ≡ slice_get self.now.packets.items number }
    {
        self.packets.get(usize::try_from(number).ok()?)
    }

    /// From whom a message goes to whom, and which part it is.
    pub fn way(&self, number: u64) -> Option<Way>
        ensures way { (ps : List PartPacket) (sent : List Sent) → HasSent self.now ps sent
            → IsWayAt ps result (slice_get sent number) }
        ensures part { (ps : List PartPacket) (sent : List Sent) → HasSent self.now ps sent
            → option_map (λ way. is_some way.part) result
            ≡ option_map (λ (one : Sent). is_some (part_of one.message)) (slice_get sent number) }
    {
        let packet = self.get(number)?;
        Some(Way {
            from: packet.from,
            to: packet.to,
            part: packet.kept.part(),
        })
    }

    /// A message that is no part. None where the message of this number is a part, or there is none.
    pub fn read(&self, alloc: Global, number: u64) -> Result<Option<Message>, AllocError>
        ensures { (ps : List PartPacket) (sent : List Sent) → HasSent self.now ps sent
            → IfOk result (λ found. found ≡ whole_in (slice_get sent number)) }
    {
        let Some(packet) = self.get(number) else {
            return Ok(None);
        };
        packet.kept.whole(alloc)
    }

    // Adds a message whose frame has so many bytes.
    fn push(&mut self, packet: Packet, len: u64) -> Result<(), NetworkFault>
        ensures sent { (ps : List PartPacket) (sent : List Sent) (one : Sent) → HasSent self.old ps sent
            → IsPacketOf ps packet one → len ≡ frame_length one.message
            → OnOk result (HasSent self.new ps (sent ++ one ∷ [])) }
        ensures unchanged { (ps : List PartPacket) (sent : List Sent) → HasSent self.old ps sent
            → OnErr result (HasSent self.new ps sent) }
        ensures limit { (ps : List PartPacket) (sent : List Sent) (one : Sent) → HasSent self.old ps sent
            → len ≡ frame_length one.message → IfErr result (IsFault (net_bytes (sent ++ one ∷ []))) }
    {
        let bytes = self.bytes.saturating_add(len);
        if bytes > MOST_BYTES {
            return Err(NetworkFault::Limit { bytes });
        }
        self.packets.push(packet)?;
        self.bytes = bytes;
        Ok(())
    }

    /// Sends the part of the wire's packet of this number, with a token. Its frame has so many bytes. Where it fails
    /// nothing is sent.
    pub fn send_part(
        &mut self,
        from: Node,
        to: Node,
        number: u64,
        token: u64,
        len: u64,
    ) -> Result<(), NetworkFault>
        ensures sent { (ps : List PartPacket) (sent : List Sent) (p : PartPacket) → HasSent self.old ps sent
            → slice_get ps number ≡ Some p → HasFrame (message_at p.part) → len ≡ frame_length (message_at p.part)
            → OnOk result (HasSent self.new ps
            (sent ++ record { from = from; to = to; message = stamped token (message_at p.part) } ∷ [])) }
        ensures unchanged { (ps : List PartPacket) (sent : List Sent) → HasSent self.old ps sent
            → OnErr result (HasSent self.new ps sent) }
        ensures limit { (ps : List PartPacket) (sent : List Sent) (p : PartPacket) → HasSent self.old ps sent
            → slice_get ps number ≡ Some p → len ≡ frame_length (message_at p.part) → IfErr result (IsFault (net_bytes
            (sent ++ record { from = from; to = to; message = stamped token (message_at p.part) } ∷ []))) }
    {
        let kept = Kept::Part { number, token };
        self.push(Packet { from, to, kept }, len)
    }

    /// Sends a message that is no part. Where it fails nothing is sent.
    pub fn send(&mut self, from: Node, to: Node, message: &Message) -> Result<(), NetworkFault>
        requires frame { HasFrame message.now }
        requires whole { part_of message.now ≡ None }
        ensures sent { (ps : List PartPacket) (sent : List Sent) → HasSent self.old ps sent
            → OnOk result (HasSent self.new ps
            (sent ++ record { from = from; to = to; message = message.now } ∷ [])) }
        ensures unchanged { (ps : List PartPacket) (sent : List Sent) → HasSent self.old ps sent
            → OnErr result (HasSent self.new ps sent) }
        ensures limit { (ps : List PartPacket) (sent : List Sent) → HasSent self.old ps sent
            → IfErr result (IsFault (net_bytes
            (sent ++ record { from = from; to = to; message = message.now } ∷ []))) }
    {
        let frame = frame_of(*self.packets.allocator(), message)?;
        let len = frame.len() as u64;
        let packet = Packet {
            from,
            to,
            kept: Kept::Frame(frame),
        };
        self.push(packet, len)
    }
}
