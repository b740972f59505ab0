//! Answers alone, and messages that are sent beside the wire.
ghost use Rattle.std.specs.Prelude.{◌≡◌, ◌++◌, ◌∷◌, [], ℕ, List, map, Some, true, IfOk, IfErr, OnOk};
ghost use Rattle.step_tables.specs.Facts.{AnswerLine};
ghost use Rattle.step_tables.specs.Lines.{line_of, answer_of};
ghost use Rattle.row_store.specs.Spelling.{IsClient};
ghost use Rattle.wire_tables.specs.Wire.{PartPacket};
ghost use Rattle.gated_tables.specs.Net.{Sent, asks_again};
ghost use Rattle.net_network.specs.Packets.{HasSent};
ghost use Rattle.net_network.specs.Short.{IsShort};
ghost use Rattle.node_steps.specs.declared.fault.WorldFault.TheVariants.{Memory};
ghost use Rattle.wire_steps.specs.Sending.{IsSendFault, fault_of};
ghost use Rattle.net_steps.specs.Carrying.{AreSent, IsOverFault};
ghost use Rattle.net_steps.specs.Devices.{device_of};

use crate::device::Device;
use crate::world::World;
use disk_trait::Disk;
use net_network::know_frame;
use node_steps::{Lines, WorldFault};
use part_network::NetworkFault;
use stab_base::{ClientNo, Node, Sequence};
use table_model::{Answer, Fact, Message, RegisterDevice, TextLine};

pub(crate) fn fault_of(fault: NetworkFault) -> WorldFault
    ensures { result ≡ fault_of fault }
{
    match fault {
        NetworkFault::Limit { bytes } => WorldFault::Limit {
            code: 10,
            count: bytes,
        },
        NetworkFault::Memory => WorldFault::Memory,
    }
}

impl<D: Disk + Drop> World<D> {
    /// An answer alone.
    pub(crate) fn only(&self, answer: Answer) -> Result<Lines, WorldFault>
        ensures lines { IfOk result (λ lines. map line_of lines ≡ AnswerLine (answer_of answer) ∷ []) }
        ensures memory { IfErr result (λ e. e ≡ Memory) }
    {
        let mut lines = Sequence::new(self.alloc);
        lines.push(TextLine::Answer(answer))?;
        Ok(lines)
    }

    /// Sends a message that is no part, and adds its line.
    pub(crate) fn send(
        &mut self,
        from: Node,
        to: Node,
        message: &Message,
        lines: &mut Lines,
    ) -> Result<(), WorldFault>
        requires short { IsShort message.now }
        ensures sent { (ps : List PartPacket) (sent : List Sent) → HasSent self.old.network ps sent
            → OnOk result (AreSent ps sent (record { from = from; to = to; message = message.now } ∷ [])
            self.new.network lines.old lines.new) }
        ensures over { (ps : List PartPacket) (sent : List Sent) → HasSent self.old.network ps sent
            → IfErr result (IsOverFault (sent ++ record { from = from; to = to; message = message.now } ∷ [])) }
        ensures only { IfErr result IsSendFault }
        ensures same { self.new ≡ record self.old { network = self.new.network } }
    {
        know_frame(message);
        let packet = self.network.sent();
        if let Err(fault) = self.network.send(from, to, message) {
            return Err(fault_of(fault));
        }
        let name = message.name();
        lines.push(TextLine::Fact(Fact::Sent {
            packet,
            from,
            to,
            name,
        }))?;
        Ok(())
    }

    /// A client whose link is up asks its gateway for a session.
    pub(crate) fn ask(
        &mut self,
        client: ClientNo,
        device: Device,
        lines: &mut Lines,
    ) -> Result<(), WorldFault>
        requires client { IsClient client }
        ensures sent { (ps : List PartPacket) (sent : List Sent) → HasSent self.old.network ps sent
            → OnOk result (AreSent ps sent (asks_again client (Some (device_of device))) self.new.network lines.old
            lines.new) }
        ensures over { (ps : List PartPacket) (sent : List Sent) → HasSent self.old.network ps sent
            → IfErr result (IsOverFault (sent ++ asks_again client (Some (device_of device)))) }
        ensures only { IfErr result IsSendFault }
        ensures same { self.new ≡ record self.old { network = self.new.network } }
    {
        if !device.linked {
            return Ok(());
        }
        let message = Message::RegisterDevice(RegisterDevice { client });
        self.send(
            Node::Client(client),
            Node::Gate(device.gate),
            &message,
            lines,
        )
    }
}
