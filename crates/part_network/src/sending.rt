//! The packets of a message that goes in parts.
ghost use Rattle.std.specs.Prelude.{◌≡◌, ◌+◌, ◌-◌, ◌^◌, ◌<◌, ◌++◌, length, map, min, IfOk, OnOk};
ghost use Rattle.std.specs.List.{AllByRecursion, sum_by};
ghost use Rattle.message_frames.specs.Frames.{HasFrame};
ghost use Rattle.step_tables.specs.Lines.{line_of};
ghost use Rattle.part_network.specs.Packets.{packet_of, length_of, packet_with, told};

use crate::packet::Packet;
use message_frames::frame_of;
use stab_base::Sequence;
use std::alloc::{AllocError, Global};
use table_model::{Fact, Message, Node, TextLine};

fn packet_with(alloc: Global, from: Node, to: Node, part: &Message) -> Result<Packet, AllocError>
    requires { HasFrame part.now }
    ensures { IfOk result (λ made. packet_of made ≡ packet_with from to part.now) }
{
    let frame = frame_of(alloc, part)?;
    Ok(Packet { from, to, frame })
}

/// A packet for each part.
pub(crate) fn packets_with(
    alloc: Global,
    from: Node,
    to: Node,
    parts: &[Message],
) -> Result<Vec<Packet>, AllocError>
    requires { AllByRecursion HasFrame parts.now }
    ensures { IfOk result (λ made. map packet_of made.items ≡ map (λ part. packet_with from to part) parts.now) }
{
    let mut packets = Vec::new(alloc);
    for part in parts {
        packets.push(packet_with(alloc, from, to, part)?)?;
    }
    Ok(packets)
}

/// So many bytes with those of these frames, or the greatest number.
pub(crate) fn bytes_with(bytes: u64, packets: &[Packet]) -> u64
    ensures { result ≡ min (bytes + sum_by length_of packets.now) (2 ^ 64 - 1) }
{
    let mut all = bytes;
    for packet in packets {
        all = all.saturating_add(packet.frame.len() as u64);
    }
    all
}

/// Adds the line of each part, whose packets are numbered from here on.
pub(crate) fn tell(
    from: Node,
    to: Node,
    first: u64,
    parts: &[Message],
    lines: &mut Sequence<TextLine>,
) -> Result<(), AllocError>
    requires { first + length parts.now < 2 ^ 64 }
    ensures { OnOk result (map line_of lines.new ≡ map line_of lines.old ++ told first from to parts.now) }
{
    for (number, part) in parts.iter().enumerate() {
        let fact = Fact::Sent {
            packet: first + number as u64,
            from,
            to,
            name: part.name(),
        };
        lines.push(TextLine::Fact(fact))?;
    }
    Ok(())
}
