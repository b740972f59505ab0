//! Deliveries of parts of messages.
ghost use Rattle.std.specs.Prelude.{◌≡◌, ◌∷◌, [], ℕ, List, suc, length, map, IfOk, IfErr};
ghost use Rattle.stab_base.specs.declared.node.Node.TheVariants as nodes;
ghost use Rattle.step_tables.specs.Facts as facts;
ghost use Rattle.step_tables.specs.Facts.{AnswerLine};
ghost use Rattle.step_tables.specs.Lines.{line_of};
ghost use Rattle.table_model.specs.declared.event.Event.TheVariants as events;
ghost use Rattle.world_tables.specs.World.{World as AWorld};
ghost use Rattle.wire_tables.specs.Wire.{PartPacket, Wire, wire_step};
ghost use Rattle.part_network.specs.Packets.{HasPackets};
ghost use Rattle.node_steps.specs.declared.fault.WorldFault.TheVariants.{Memory};
ghost use Rattle.node_steps.specs.Holds.{Holds as NodesHold};
ghost use Rattle.wire_steps.specs.Holds.{Holds};
ghost use Rattle.wire_steps.specs.Reached.{IsReached};
ghost use Rattle.wire_steps.specs.Steps.{HavePlansBelow};
ghost use Rattle.wire_steps.specs.Calls.{Comes, Ends, IsLimited};
ghost use Rattle.wire_steps.specs.Delivering.{IsBrought, IsOfTable, IsSeenOf, IsGatheredAs, IsOfClient, IsOfOpened};
ghost use Rattle.wire_steps.specs.Delivering.{IsHeldOfPart, IsArrivedAs, delivery, takes_at};

use crate::memory::{arrive, gather};
use crate::parts::{any_of, table_of};
use crate::sending::{chunk_of, scheme_of};
use crate::world::World;
use disk_trait::Disk;
use node_steps::{Lines, Read, WorldFault};
use part_client::RowHeld;
use part_store::RowView;
use stab_base::{ClientNo, Node, RowId, Sequence, StoreNo, TableNo};
use table_model::{Answer, Message, Refusal};

impl<D: Disk + Drop> World<D> {
    /// Delivers a part of a message.
    pub(crate) fn deliver(&mut self, number: u64) -> Result<Lines, WorldFault>
        requires held { (v : Wire) × IsReached v × Holds D.state v self.old }
        ensures done { (v : Wire) → IsReached v → Holds D.state v self.old
            → Comes D.state D.images v (wire_step v (events.Deliver number)) result self.old self.new }
        ensures ends { (v : Wire) → IsReached v → Holds D.state v self.old
            → Ends D.state D.images v (wire_step v (events.Deliver number)) result self.old self.new }
        ensures limit { (v : Wire) (n : ℕ) → IsReached v → Holds D.state v self.old → HavePlansBelow D.state n self.old
            → IsLimited (suc (suc n)) v.world result }
        ensures plans { (n : ℕ) → HavePlansBelow D.state n self.old
            → HavePlansBelow D.state (suc (suc (suc n))) self.new }
    {
        let Some(to) = self.network.address(number) else {
            return self.no_packet();
        };
        let Some((from, part)) = self.network.read(self.alloc, number)? else {
            return self.no_packet();
        };
        self.bring_part(from, to, part)
    }

    // No packet of this number was sent.
    fn no_packet(&self) -> Result<Lines, WorldFault>
        ensures lines { (ps : List PartPacket) → HasPackets self.now.network ps → IfOk result (λ lines.
            map line_of lines ≡ AnswerLine (facts.Refuses (facts.NoPacket (length ps))) ∷ []) }
        ensures memory { IfErr result (λ e. e ≡ Memory) }
    {
        let sent = self.network.sent();
        self.only(Answer::Refused(Refusal::NoPacket { sent }))
    }

    // Brings a part to the node it is for.
    fn bring_part(&mut self, from: Node, to: Node, part: Message) -> Result<Lines, WorldFault>
        requires brought { IsBrought D.state self.old from to part }
        ensures done { (x : IsBrought D.state self.old from to part)
            → Comes D.state D.images x.v (delivery x.v x.sent) result self.old self.new }
        ensures ends { (x : IsBrought D.state self.old from to part)
            → Ends D.state D.images x.v (delivery x.v x.sent) result self.old self.new }
        ensures limit { (x : IsBrought D.state self.old from to part) (n : ℕ) → HavePlansBelow D.state n self.old
            → IsLimited (suc (suc n)) x.v.world result }
        ensures plans { (n : ℕ) → HavePlansBelow D.state n self.old
            → HavePlansBelow D.state (suc (suc (suc n))) self.new }
    {
        match to {
            Node::Store(store) => self.bring_to_store(store, from, part),
            Node::Client(client) => self.bring_to_client(client, from, part),
            Node::Gate(_) => self.bring(from, to, any_of(table_of(&part))),
        }
    }

    // ---- to a table at a Store

    // Whether the Store keeps the table, and this takes a message now.
    fn takes_at(&self, store: StoreNo, table: TableNo) -> bool
        ensures { (w : AWorld) → NodesHold D.state w self.now.nodes → result ≡ takes_at w store table }
    {
        if self.nodes.owner(table) != store {
            return false;
        }
        self.nodes.is_table_ready(table)
    }

    fn bring_to_store(
        &mut self,
        store: StoreNo,
        from: Node,
        part: Message,
    ) -> Result<Lines, WorldFault>
        requires brought { IsBrought D.state self.old from (nodes.Store store) part }
        ensures done { (x : IsBrought D.state self.old from (nodes.Store store) part)
            → Comes D.state D.images x.v (delivery x.v x.sent) result self.old self.new }
        ensures ends { (x : IsBrought D.state self.old from (nodes.Store store) part)
            → Ends D.state D.images x.v (delivery x.v x.sent) result self.old self.new }
        ensures limit { (x : IsBrought D.state self.old from (nodes.Store store) part) (n : ℕ)
            → HavePlansBelow D.state n self.old → IsLimited n x.v.world result }
        ensures plans { (n : ℕ) → HavePlansBelow D.state n self.old → HavePlansBelow D.state (suc n) self.new }
    {
        let table = table_of(&part);
        if !self.takes_at(store, table) {
            return self.bring(from, Node::Store(store), any_of(table));
        }
        self.bring_to_table(store, from, table, part)
    }

    // To one that takes messages now.
    fn bring_to_table(
        &mut self,
        store: StoreNo,
        from: Node,
        table: TableNo,
        part: Message,
    ) -> Result<Lines, WorldFault>
        requires brought { IsOfTable D.state self.old store from table part }
        ensures done { (x : IsOfTable D.state self.old store from table part)
            → Comes D.state D.images x.brought.v (delivery x.brought.v x.brought.sent) result self.old self.new }
        ensures ends { (x : IsOfTable D.state self.old store from table part)
            → Ends D.state D.images x.brought.v (delivery x.brought.v x.brought.sent) result self.old self.new }
        ensures limit { (x : IsOfTable D.state self.old store from table part) (n : ℕ)
            → HavePlansBelow D.state n self.old → IsLimited n x.brought.v.world result }
        ensures plans { (n : ℕ) → HavePlansBelow D.state n self.old → HavePlansBelow D.state (suc n) self.new }
    {
        match self.view(table, &part)? {
            Read::Found(view) => self.gather_part(store, from, table, &view, part),
            Read::Fallen(told) => self.tell(told),
        }
    }

    // What the table has of the row is known, as far as it decides what the part comes to.
    fn gather_part(
        &mut self,
        store: StoreNo,
        from: Node,
        table: TableNo,
        view: &RowView,
        part: Message,
    ) -> Result<Lines, WorldFault>
        requires seen { IsSeenOf D.state self.old store from table view.now part }
        ensures done { (x : IsSeenOf D.state self.old store from table view.now part) → Comes D.state D.images
            x.of_table.brought.v (delivery x.of_table.brought.v x.of_table.brought.sent) result self.old self.new }
        ensures ends { (x : IsSeenOf D.state self.old store from table view.now part) → Ends D.state D.images
            x.of_table.brought.v (delivery x.of_table.brought.v x.of_table.brought.sent) result self.old self.new }
        ensures limit { (x : IsSeenOf D.state self.old store from table view.now part) (n : ℕ)
            → HavePlansBelow D.state n self.old → IsLimited n x.of_table.brought.v.world result }
        ensures plans { (n : ℕ) → HavePlansBelow D.state n self.old → HavePlansBelow D.state (suc n) self.new }
    {
        let scheme = scheme_of(&self.nodes, table);
        let chunk = chunk_of(&self.nodes, table);
        let taken = gather(
            &mut self.gathered,
            self.alloc,
            table,
            scheme,
            chunk,
            view,
            part,
        )?;
        self.end_gathering(store, from, taken)
    }

    // A whole message is handed to the table; else the part is kept or dropped.
    fn end_gathering(
        &mut self,
        store: StoreNo,
        from: Node,
        taken: part_store::Taken,
    ) -> Result<Lines, WorldFault>
        requires taken { IsGatheredAs D.state self.old store from taken }
        ensures done { (x : IsGatheredAs D.state self.old store from taken)
            → Comes D.state D.images x.v (delivery x.v x.sent) result self.old self.new }
        ensures ends { (x : IsGatheredAs D.state self.old store from taken)
            → Ends D.state D.images x.v (delivery x.v x.sent) result self.old self.new }
        ensures limit { (x : IsGatheredAs D.state self.old store from taken) (n : ℕ)
            → HavePlansBelow D.state n self.old → IsLimited n x.v.world result }
        ensures plans { (n : ℕ) → HavePlansBelow D.state n self.old → HavePlansBelow D.state (suc n) self.new }
    {
        match taken {
            part_store::Taken::Whole(message) => self.bring(from, Node::Store(store), message),
            part_store::Taken::Waits => self.only(Answer::Done),
        }
    }

    // ---- to a client

    fn bring_to_client(
        &mut self,
        client: ClientNo,
        from: Node,
        part: Message,
    ) -> Result<Lines, WorldFault>
        requires brought { IsBrought D.state self.old from (nodes.Client client) part }
        ensures done { (x : IsBrought D.state self.old from (nodes.Client client) part)
            → Comes D.state D.images x.v (delivery x.v x.sent) result self.old self.new }
        ensures ends { (x : IsBrought D.state self.old from (nodes.Client client) part)
            → Ends D.state D.images x.v (delivery x.v x.sent) result self.old self.new }
        ensures limit { (x : IsBrought D.state self.old from (nodes.Client client) part) (n : ℕ)
            → HavePlansBelow D.state n self.old → IsLimited (suc (suc n)) x.v.world result }
        ensures plans { (n : ℕ) → HavePlansBelow D.state n self.old
            → HavePlansBelow D.state (suc (suc (suc n))) self.new }
    {
        let table = table_of(&part);
        if !self.nodes.is_client_ready(client) {
            return self.bring(from, Node::Client(client), any_of(table));
        }
        self.bring_to_ready(client, from, table, part)
    }

    // To one that takes messages now.
    fn bring_to_ready(
        &mut self,
        client: ClientNo,
        from: Node,
        table: TableNo,
        part: Message,
    ) -> Result<Lines, WorldFault>
        requires brought { IsOfClient D.state self.old client from table part }
        ensures done { (x : IsOfClient D.state self.old client from table part)
            → Comes D.state D.images x.brought.v (delivery x.brought.v x.brought.sent) result self.old self.new }
        ensures ends { (x : IsOfClient D.state self.old client from table part)
            → Ends D.state D.images x.brought.v (delivery x.brought.v x.brought.sent) result self.old self.new }
        ensures limit { (x : IsOfClient D.state self.old client from table part) (n : ℕ)
            → HavePlansBelow D.state n self.old → IsLimited (suc (suc n)) x.brought.v.world result }
        ensures plans { (n : ℕ) → HavePlansBelow D.state n self.old
            → HavePlansBelow D.state (suc (suc (suc n))) self.new }
    {
        match self.nodes.has_opened(client, table)? {
            Read::Found(true) => self.bring_to_opened(client, from, table, part),
            Read::Found(false) => self.bring(from, Node::Client(client), any_of(table)),
            Read::Fallen(told) => self.tell(told),
        }
    }

    // That has the table opened.
    fn bring_to_opened(
        &mut self,
        client: ClientNo,
        from: Node,
        table: TableNo,
        part: Message,
    ) -> Result<Lines, WorldFault>
        requires brought { IsOfOpened D.state self.old client from table part }
        ensures done { (x : IsOfOpened D.state self.old client from table part) → Comes D.state D.images
            x.of_client.brought.v (delivery x.of_client.brought.v x.of_client.brought.sent) result self.old self.new }
        ensures ends { (x : IsOfOpened D.state self.old client from table part) → Ends D.state D.images
            x.of_client.brought.v (delivery x.of_client.brought.v x.of_client.brought.sent) result self.old self.new }
        ensures limit { (x : IsOfOpened D.state self.old client from table part) (n : ℕ)
            → HavePlansBelow D.state n self.old → IsLimited (suc n) x.of_client.brought.v.world result }
        ensures plans { (n : ℕ) → HavePlansBelow D.state n self.old → HavePlansBelow D.state (suc (suc n)) self.new }
    {
        match self.held(client, table, &part)? {
            Read::Found(held) => self.arrive_part(client, from, table, &held, part),
            Read::Fallen(told) => self.tell(told),
        }
    }

    // What the client holds of the row is known, as far as it decides what the part comes to.
    fn arrive_part(
        &mut self,
        client: ClientNo,
        from: Node,
        table: TableNo,
        held: &RowHeld,
        part: Message,
    ) -> Result<Lines, WorldFault>
        requires held { IsHeldOfPart D.state self.old client from table held.now part }
        ensures done { (x : IsHeldOfPart D.state self.old client from table held.now part)
            → Comes D.state D.images x.of_opened.of_client.brought.v
            (delivery x.of_opened.of_client.brought.v x.of_opened.of_client.brought.sent) result self.old self.new }
        ensures ends { (x : IsHeldOfPart D.state self.old client from table held.now part)
            → Ends D.state D.images x.of_opened.of_client.brought.v
            (delivery x.of_opened.of_client.brought.v x.of_opened.of_client.brought.sent) result self.old self.new }
        ensures limit { (x : IsHeldOfPart D.state self.old client from table held.now part) (n : ℕ)
            → HavePlansBelow D.state n self.old → IsLimited n x.of_opened.of_client.brought.v.world result }
        ensures plans { (n : ℕ) → HavePlansBelow D.state n self.old → HavePlansBelow D.state (suc n) self.new }
    {
        let taken = arrive(&mut self.arriving, self.alloc, client, held, part)?;
        self.end_arrival(client, from, table, taken)
    }

    // A whole message is handed to the client, which asks for a row that is torn; else the part is kept or dropped.
    fn end_arrival(
        &mut self,
        client: ClientNo,
        from: Node,
        table: TableNo,
        taken: part_client::Taken,
    ) -> Result<Lines, WorldFault>
        requires taken { IsArrivedAs D.state self.old client from table taken }
        ensures done { (x : IsArrivedAs D.state self.old client from table taken)
            → Comes D.state D.images x.v (delivery x.v x.sent) result self.old self.new }
        ensures ends { (x : IsArrivedAs D.state self.old client from table taken)
            → Ends D.state D.images x.v (delivery x.v x.sent) result self.old self.new }
        ensures limit { (x : IsArrivedAs D.state self.old client from table taken) (n : ℕ)
            → HavePlansBelow D.state n self.old → IsLimited n x.v.world result }
        ensures plans { (n : ℕ) → HavePlansBelow D.state n self.old → HavePlansBelow D.state (suc n) self.new }
    {
        match taken {
            part_client::Taken::Whole(message) => self.bring(from, Node::Client(client), message),
            part_client::Taken::Tears(row) => self.tear(client, table, row),
            part_client::Taken::Waits => self.only(Answer::Done),
        }
    }
}
