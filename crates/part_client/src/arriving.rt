//! What a client keeps of what comes in parts.
ghost use Rattle.std.specs.Prelude.{◌≡◌, ◌<◌, ℕ, true, false, Some, is_some, option_map, IfOk, OnOk, OnErr};
ghost use Rattle.std.specs.BTreeMap as tree;
ghost use Rattle.std.specs.Ordering.{nat_cmp};
ghost use Rattle.step_tables.specs.ClientMoves.{TableDisk};
ghost use Rattle.part_tables.specs.Parts.{Part, BringsDown};
ghost use Rattle.part_tables.specs.Arriving.{nothing_arriving, arrived, asking, with_torn};
ghost use Rattle.part_tables.specs.Arriving as arrivals;
ghost use Rattle.message_parts.specs.Parts.{part_of, row_head_of, fragment_of};
ghost use Rattle.part_client.specs.Held.{IsHeldOf};
ghost use Rattle.part_client.specs.Keeping.{Keeps, IsTaken, IsKept};
ghost use Rattle.part_client.specs.Calls.{table_of, row_of, row_has_places, may_gather, needs_row};
ghost use Rattle.part_client.specs.Asking.{AreAsks};

use crate::asking;
use crate::held::RowHeld;
use crate::table::TableParts;
use crate::taken::{Asks, Taken};
use assemblies::has_places;
use stab_base::{RowId, TableNo};
use std::alloc::{AllocError, Global};
use std::collections::BTreeMap;
use table_model::{Message, ObjectFragment, RowHeader};

/// What a client keeps in memory of what comes in parts.
#[derive(Drop)]
pub struct Arriving {
    tables: BTreeMap<TableNo, TableParts>,
    alloc: Global,
}

// The table of a part.
fn table_of(part: &Message) -> TableNo
    ensures { (p : Part) → part_of part.now ≡ Some p → result ≡ table_of p }
{
    match part {
        Message::ObjectFragment(m) => m.table,
        Message::PullRequest(m) => m.table,
        Message::PullResponse(m) => m.table,
        Message::SyncRequest(m) => m.table,
        Message::SyncResponse(m) => m.table,
        Message::TornRowRequest(m) => m.table,
        Message::TornRowResponse(m) => m.table,
        Message::RegisterDevice(_)
        | Message::CreateTable(_)
        | Message::DropTable(_)
        | Message::SubscribeTable(_)
        | Message::UnsubscribeTable(_)
        | Message::Notify(_)
        | Message::OperationResponse(_)
        | Message::SaveClientSubscription(_)
        | Message::RestoreClientSubscriptions(_)
        | Message::TableVersionUpdateNotification(_) => 0,
    }
}

fn row_has_places(row: &Option<RowHeader>) -> bool
    ensures { result ≡ row_has_places (option_map row_head_of row.now) }
{
    match row {
        Some(row) => has_places(&row.content),
        None => true,
    }
}

/// Whether each column and each place of what has to be gathered of a part has a number of 32 bits.
pub fn may_gather(part: &Message) -> bool
    ensures gather { result ≡ may_gather (part_of part.now) }
{
    match part {
        Message::PullResponse(part) => row_has_places(&part.header),
        Message::TornRowResponse(part) => row_has_places(&part.header),
        Message::RegisterDevice(_)
        | Message::CreateTable(_)
        | Message::DropTable(_)
        | Message::SubscribeTable(_)
        | Message::UnsubscribeTable(_)
        | Message::Notify(_)
        | Message::ObjectFragment(_)
        | Message::PullRequest(_)
        | Message::SyncRequest(_)
        | Message::SyncResponse(_)
        | Message::TornRowRequest(_)
        | Message::OperationResponse(_)
        | Message::SaveClientSubscription(_)
        | Message::RestoreClientSubscriptions(_)
        | Message::TableVersionUpdateNotification(_) => true,
    }
}

impl Arriving {
    /// Nothing is kept.
    pub fn new(alloc: Global) -> Arriving
        ensures nothing { Keeps result nothing_arriving }
    {
        Arriving {
            tables: BTreeMap::new(alloc),
            alloc,
        }
    }

    fn fragment_needs_row(&self, f: &ObjectFragment) -> bool
        ensures { (a : arrivals.Arriving) → Keeps self.now a
            → result ≡ needs_row a (BringsDown (fragment_of f.now)) }
    {
        match self.tables.get(&f.table) {
            Some(it) => it.fragment_needs_row(f),
            None => false,
        }
    }

    /// Whether what the client holds of the row of a part decides what it comes to.
    pub fn needs_row(&self, part: &Message) -> bool
        ensures needs { (a : arrivals.Arriving) (p : Part) → Keeps self.now a → part_of part.now ≡ Some p
            → result ≡ needs_row a p }
    {
        match part {
            Message::PullResponse(part) => part.header.is_some(),
            Message::ObjectFragment(f) => f.down && self.fragment_needs_row(f),
            Message::TornRowResponse(part) => part.header.is_some(),
            Message::RegisterDevice(_)
            | Message::CreateTable(_)
            | Message::DropTable(_)
            | Message::SubscribeTable(_)
            | Message::UnsubscribeTable(_)
            | Message::Notify(_)
            | Message::PullRequest(_)
            | Message::SyncRequest(_)
            | Message::SyncResponse(_)
            | Message::TornRowRequest(_)
            | Message::OperationResponse(_)
            | Message::SaveClientSubscription(_)
            | Message::RestoreClientSubscriptions(_)
            | Message::TableVersionUpdateNotification(_) => false,
        }
    }

    // Of a table of which nothing is kept.
    fn take_first(
        &mut self,
        held: &RowHeld,
        table: TableNo,
        part: Message,
    ) -> Result<Taken, AllocError>
        requires chunk { 0 < held.now.chunk }
        requires places { may_gather (part_of part) ≡ true }
        ensures taken { (opened : TableDisk) (a : arrivals.Arriving) (p : Part) → Keeps self.old a
            → is_some (tree.get nat_cmp self.old.tables table) ≡ false → part_of part ≡ Some p → table ≡ table_of p
            → (needs_row a p ≡ true → IsHeldOf opened (row_of p) held.now)
            → IfOk result (IsTaken (arrived opened a p) self.new) }
        ensures memory { (a : arrivals.Arriving) → Keeps self.old a → OnErr result (Keeps self.new a) }
    {
        let mut it = TableParts::new(self.alloc);
        let taken = it.take(self.alloc, held, part)?;
        self.tables.insert(table, it)?;
        Ok(taken)
    }

    /// What a part for an opened table comes to. What is held of its row is looked at only where `needs_row`.
    pub fn take(&mut self, held: &RowHeld, part: Message) -> Result<Taken, AllocError>
        requires chunk { 0 < held.now.chunk }
        requires places { may_gather (part_of part) ≡ true }
        ensures taken { (opened : TableDisk) (a : arrivals.Arriving) (p : Part) → Keeps self.old a
            → part_of part ≡ Some p → (needs_row a p ≡ true → IsHeldOf opened (row_of p) held.now)
            → IfOk result (IsTaken (arrived opened a p) self.new) }
        ensures memory { (a : arrivals.Arriving) (p : Part) → Keeps self.old a → part_of part ≡ Some p
            → OnErr result (IsKept a p self.new) }
    {
        let table = table_of(&part);
        match self.tables.get_mut(&table) {
            Some(it) => it.take(self.alloc, held, part),
            None => self.take_first(held, table, part),
        }
    }

    /// A client that starts has found this row torn.
    pub fn tear(&mut self, table: TableNo, row: RowId) -> Result<(), AllocError>
        ensures torn { (a : arrivals.Arriving) → Keeps self.old a
            → OnOk result (Keeps self.new (record a { torn = with_torn table row a.torn })) }
        ensures memory { (a : arrivals.Arriving) → Keeps self.old a → OnErr result (Keeps self.new a) }
    {
        if let Some(it) = self.tables.get_mut(&table) {
            return it.tear(row);
        }
        let mut it = TableParts::new(self.alloc);
        it.tear(row)?;
        self.tables.insert(table, it)?;
        Ok(())
    }

    /// What a pull of a table tells as torn, and what it asks for whole, each by rising row; none where the next change
    /// is asked for. An answer to a pull is waited for no longer.
    pub fn ask(&mut self, table: TableNo) -> Result<Asks, AllocError>
        ensures asks { (a : arrivals.Arriving) → Keeps self.old a → IfOk result (AreAsks table a) }
        ensures kept { (a : arrivals.Arriving) → Keeps self.old a → OnOk result (Keeps self.new (asking table a)) }
        ensures memory { (a : arrivals.Arriving) → Keeps self.old a → OnErr result (Keeps self.new a) }
    {
        match self.tables.get_mut(&table) {
            Some(it) => asking::ask(self.alloc, it),
            None => Ok(Asks {
                tears: Vec::new(self.alloc),
                asks: Vec::new(self.alloc),
            }),
        }
    }

    /// Nothing is kept any longer.
    pub fn clear(&mut self)
        ensures nothing { Keeps self.new nothing_arriving }
    {
        self.tables.clear();
    }
}
