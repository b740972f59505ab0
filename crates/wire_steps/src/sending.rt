//! What moves of Stores and of clients told and sent, as lines, and as parts on the network.
ghost use Rattle.std.specs.Prelude.{◌≡◌, ◌++◌, ℕ, List, map, IfErr, OnOk};
ghost use Rattle.step_tables.specs.Facts.{FactLine};
ghost use Rattle.step_tables.specs.Lines.{line_of};
ghost use Rattle.step_tables.specs.Lines as lines_told;
ghost use Rattle.step_tables.specs.Members.{Among};
ghost use Rattle.step_tables.specs.Messages.{table_of};
ghost use Rattle.step_tables.specs.Travels.{message_of};
ghost use Rattle.store_node.specs.Due.{fact_of};
ghost use Rattle.store_host.specs.Holds as stores;
ghost use Rattle.journal_host.specs.Holds as hosts;
ghost use Rattle.world_tables.specs.World.{World as AWorld, schema_at, chunk_in, scheme_in, owner_of, address};
ghost use Rattle.wire_tables.specs.Wire.{PartPacket, split};
ghost use Rattle.part_network.specs.Packets.{HasPackets};
ghost use Rattle.node_steps.specs.declared.fault.WorldFault.TheVariants.{Memory};
ghost use Rattle.node_steps.specs.Fits.{packet_with};
ghost use Rattle.node_steps.specs.Holds.{Holds as NodesHold};
ghost use Rattle.wire_steps.specs.Sending.{AllSent, AllOutsSent, IsSender, AreSent, IsToldOne, AreTold, IsSendFault};
ghost use Rattle.wire_steps.specs.Sending.{IsOverFault, fault_of, parts_of, parts_in, outs_of, owners_for, packets_by};

use disk_trait::Disk;
use journal_host::ClientOut;
use node_steps::{Lines, Outs, World as Nodes, WorldFault};
use part_network::{Network, NetworkFault};
use row_value::Scheme;
use send_laws::know_widths;
use stab_base::{Node, Sequence, StoreNo, TableNo};
use step_tables::{Addressed, Message, Out};
use store_host::TableOut;
use store_node::{StoreFact, StoreOut};
use table_model::{Fact, Facts, TextLine};

/// The size of a table's chunks, 0 where it isn't declared.
pub(crate) fn chunk_of<D: Disk + Drop>(nodes: &Nodes<D>, table: TableNo) -> u32
    ensures { (w : AWorld) → NodesHold D.state w nodes.now → result ≡ chunk_in (schema_at w table) }
{
    match nodes.schema(table) {
        Some(schema) => schema.chunk,
        None => 0,
    }
}

/// The scheme of a table.
pub(crate) fn scheme_of<D: Disk + Drop>(nodes: &Nodes<D>, table: TableNo) -> Scheme
    ensures { (w : AWorld) → NodesHold D.state w nodes.now → result ≡ scheme_in (schema_at w table) }
{
    match nodes.schema(table) {
        Some(schema) => schema.scheme,
        None => Scheme::Eventual,
    }
}

fn fault_of(fault: NetworkFault) -> WorldFault
    ensures { result ≡ fault_of fault }
{
    match fault {
        NetworkFault::Limit { bytes } => WorldFault::Limit {
            code: 10,
            count: bytes,
        },
        NetworkFault::Memory => WorldFault::Memory,
    }
}

// The Store that a message without an address is for: the one that keeps its table. What a Store sends has an address.
fn keeper<D: Disk + Drop>(nodes: &Nodes<D>, from: Node, table: TableNo) -> StoreNo
    ensures { (w : AWorld) → NodesHold D.state w nodes.now → result ≡ owners_for w from table }
{
    match from {
        Node::Store(number) => number,
        Node::Client(_) | Node::Gate(_) => nodes.owner(table),
    }
}

// The node that a message is for.
fn address<D: Disk + Drop>(
    nodes: &Nodes<D>,
    from: Node,
    to: Option<Node>,
    message: &Message,
) -> Node
    ensures { (w : AWorld) → NodesHold D.state w nodes.now
        → result ≡ address (owners_for w from) to (message_of message.now) }
{
    match to {
        Some(node) => node,
        None => Node::Store(keeper(nodes, from, message.table())),
    }
}

// Sends a message in parts, and adds the line of each.
fn send<D: Disk + Drop>(
    nodes: &Nodes<D>,
    network: &mut Network,
    from: Node,
    to: Node,
    message: Message,
    lines: &mut Lines,
) -> Result<(), WorldFault>
    requires sent { (w : AWorld) × IsSender D.state nodes.now w × Among w.packets (packet_with from to message) }
    ensures sent { (w : AWorld) (ps : List PartPacket) → NodesHold D.state w nodes.now → HasPackets network.old ps
        → OnOk result (AreSent ps (split w (packet_with from to message)) network.new lines.old lines.new) }
    ensures over { (w : AWorld) (ps : List PartPacket) → NodesHold D.state w nodes.now → HasPackets network.old ps
        → IfErr result (IsOverFault (ps ++ split w (packet_with from to message))) }
    ensures only { IfErr result IsSendFault }
{
    know_widths(&message);
    let chunk = chunk_of(nodes, message.table());
    match network.send(from, to, chunk, message, lines) {
        Ok(()) => Ok(()),
        Err(fault) => Err(fault_of(fault)),
    }
}

// Sends messages from a party, in order.
fn send_all<D: Disk + Drop>(
    nodes: &Nodes<D>,
    network: &mut Network,
    from: Node,
    messages: Sequence<Addressed>,
    lines: &mut Lines,
) -> Result<(), WorldFault>
    requires sent { (w : AWorld) × IsSender D.state nodes.now w × AllSent w (packets_by w from messages) }
    ensures sent { (w : AWorld) (ps : List PartPacket) → NodesHold D.state w nodes.now → HasPackets network.old ps
        → OnOk result (AreSent ps (parts_of w (packets_by w from messages)) network.new lines.old
        lines.new) }
    ensures over { (w : AWorld) (ps : List PartPacket) → NodesHold D.state w nodes.now → HasPackets network.old ps
        → IfErr result (IsOverFault (ps ++ parts_of w (packets_by w from messages))) }
    ensures only { IfErr result IsSendFault }
{
    for (to, message) in messages.into_vec() {
        let to = address(nodes, from, to, &message);
        send(nodes, network, from, to, message, lines)?;
    }
    Ok(())
}

fn told(fact: StoreFact) -> Fact
    ensures { lines_told.fact_of result ≡ fact_of fact }
{
    match fact {
        StoreFact::Accepted { table, entry } => Fact::Accepted { table, entry },
        StoreFact::Forward { table, entry } => Fact::Forward { table, entry },
        StoreFact::Back { table, version } => Fact::Back { table, version },
        StoreFact::Recovered { store, table } => Fact::StoreRecovered { store, table },
        StoreFact::Made { table } => Fact::Made { table },
        StoreFact::Unmade { table } => Fact::Unmade { table },
        StoreFact::Saved { table } => Fact::Saved { table },
    }
}

fn tell_store_facts(facts: Sequence<StoreFact>, lines: &mut Lines) -> Result<(), WorldFault>
    ensures lines { OnOk result (map line_of lines.new ≡ map line_of lines.old ++ map FactLine (map fact_of facts)) }
    ensures memory { IfErr result (λ e. e ≡ Memory) }
{
    for fact in facts.into_vec() {
        lines.push(TextLine::Fact(told(fact)))?;
    }
    Ok(())
}

fn tell_facts(facts: Facts, lines: &mut Lines) -> Result<(), WorldFault>
    ensures lines { OnOk result (map line_of lines.new
        ≡ map line_of lines.old ++ map FactLine (map lines_told.fact_of facts)) }
    ensures memory { IfErr result (λ e. e ≡ Memory) }
{
    for fact in facts.into_vec() {
        lines.push(TextLine::Fact(fact))?;
    }
    Ok(())
}

// The facts of one move of a Store, and then its packets.
fn tell_store_move<D: Disk + Drop>(
    nodes: &Nodes<D>,
    network: &mut Network,
    out: TableOut,
    lines: &mut Lines,
) -> Result<(), WorldFault>
    requires sent { (w : AWorld) × IsSender D.state nodes.now w × AllSent w (stores.outbox_of out).packets }
    ensures told { (w : AWorld) (ps : List PartPacket) → NodesHold D.state w nodes.now → HasPackets network.old ps
        → OnOk result (IsToldOne w ps (stores.outbox_of out) network.new lines.old lines.new) }
    ensures over { (w : AWorld) (ps : List PartPacket) → NodesHold D.state w nodes.now → HasPackets network.old ps
        → IfErr result (IsOverFault (ps ++ parts_of w (stores.outbox_of out).packets)) }
    ensures only { IfErr result IsSendFault }
{
    let TableOut { store, out } = out;
    let StoreOut { messages, facts } = out;
    tell_store_facts(facts, lines)?;
    send_all(nodes, network, Node::Store(store), messages, lines)
}

// Adds the facts of each move of Stores, and then its packets, each with its line.
fn tell_store<D: Disk + Drop>(
    nodes: &Nodes<D>,
    network: &mut Network,
    outs: Sequence<TableOut>,
    lines: &mut Lines,
) -> Result<(), WorldFault>
    requires sent { (w : AWorld) × IsSender D.state nodes.now w × AllOutsSent w (stores.outs_in outs) }
    ensures told { (w : AWorld) (ps : List PartPacket) → NodesHold D.state w nodes.now → HasPackets network.old ps
        → OnOk result (AreTold w ps (stores.outs_in outs) network.new lines.old lines.new) }
    ensures over { (w : AWorld) (ps : List PartPacket) → NodesHold D.state w nodes.now → HasPackets network.old ps
        → IfErr result (IsOverFault (ps ++ parts_in w (stores.outs_in outs))) }
    ensures only { IfErr result IsSendFault }
{
    for out in outs.into_vec() {
        tell_store_move(nodes, network, out, lines)?;
    }
    Ok(())
}

// The facts of one move of a client, and then its packets.
fn tell_client_move<D: Disk + Drop>(
    nodes: &Nodes<D>,
    network: &mut Network,
    out: ClientOut,
    lines: &mut Lines,
) -> Result<(), WorldFault>
    requires sent { (w : AWorld) × IsSender D.state nodes.now w × AllSent w (hosts.outbox_of (owner_of w) out).packets }
    ensures told { (w : AWorld) (ps : List PartPacket) → NodesHold D.state w nodes.now → HasPackets network.old ps
        → OnOk result (IsToldOne w ps (hosts.outbox_of (owner_of w) out) network.new lines.old lines.new) }
    ensures over { (w : AWorld) (ps : List PartPacket) → NodesHold D.state w nodes.now → HasPackets network.old ps
        → IfErr result (IsOverFault (ps ++ parts_of w (hosts.outbox_of (owner_of w) out).packets)) }
    ensures only { IfErr result IsSendFault }
{
    let ClientOut { client, out } = out;
    let Out { messages, facts } = out;
    tell_facts(facts, lines)?;
    send_all(nodes, network, Node::Client(client), messages, lines)
}

// The same of clients' moves.
fn tell_clients<D: Disk + Drop>(
    nodes: &Nodes<D>,
    network: &mut Network,
    outs: Sequence<ClientOut>,
    lines: &mut Lines,
) -> Result<(), WorldFault>
    requires sent { (w : AWorld) × IsSender D.state nodes.now w × AllOutsSent w (hosts.outs_in (owner_of w) outs) }
    ensures told { (w : AWorld) (ps : List PartPacket) → NodesHold D.state w nodes.now → HasPackets network.old ps
        → OnOk result (AreTold w ps (hosts.outs_in (owner_of w) outs) network.new lines.old lines.new) }
    ensures over { (w : AWorld) (ps : List PartPacket) → NodesHold D.state w nodes.now → HasPackets network.old ps
        → IfErr result (IsOverFault (ps ++ parts_in w (hosts.outs_in (owner_of w) outs))) }
    ensures only { IfErr result IsSendFault }
{
    for out in outs.into_vec() {
        tell_client_move(nodes, network, out, lines)?;
    }
    Ok(())
}

/// What any moves told and sent.
pub(crate) fn tell_outs<D: Disk + Drop>(
    nodes: &Nodes<D>,
    network: &mut Network,
    outs: Outs,
    lines: &mut Lines,
) -> Result<(), WorldFault>
    requires sent { (w : AWorld) × IsSender D.state nodes.now w × AllOutsSent w (outs_of (owner_of w) outs) }
    ensures told { (w : AWorld) (ps : List PartPacket) → NodesHold D.state w nodes.now → HasPackets network.old ps
        → OnOk result (AreTold w ps (outs_of (owner_of w) outs) network.new lines.old lines.new) }
    ensures over { (w : AWorld) (ps : List PartPacket) → NodesHold D.state w nodes.now → HasPackets network.old ps
        → IfErr result (IsOverFault (ps ++ parts_in w (outs_of (owner_of w) outs))) }
    ensures only { IfErr result IsSendFault }
{
    match outs {
        Outs::Nothing => Ok(()),
        Outs::OfStore(outs) => tell_store(nodes, network, outs, lines),
        Outs::OfClients(outs) => tell_clients(nodes, network, outs, lines),
    }
}
