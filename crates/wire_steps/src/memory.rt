//! What nodes keep in memory of messages that come in parts, table by table and client by client.
ghost use Rattle.std.specs.Prelude.{◌≡◌, ◌≢◌, ◌<◌, ℕ, List, None, Some, true, IfOk, OnOk};
ghost use Rattle.std.specs.BTreeMap as tree;
ghost use Rattle.std.specs.Ordering.{nat_cmp};
ghost use Rattle.step_tables.specs.ClientMoves.{TableDisk};
ghost use Rattle.step_tables.specs.Store.{Stored};
ghost use Rattle.message_parts.specs.Parts.{part_of};
ghost use Rattle.part_tables.specs.Parts.{Part};
ghost use Rattle.part_tables.specs.StoreParts.{Gathering, parted};
ghost use Rattle.part_tables.specs.Arriving.{arrived, asking};
ghost use Rattle.part_tables.specs.Arriving as arrivals;
ghost use Rattle.part_store.specs.Calls as at_store;
ghost use Rattle.part_store.specs.View.{IsViewOf};
ghost use Rattle.part_client.specs.Asking.{AreAsks};
ghost use Rattle.part_client.specs.Calls as at_client;
ghost use Rattle.part_client.specs.Held.{IsHeldOf};
ghost use Rattle.wire_steps.specs.Holds.{HasGatheredThere, KeepsThere};
ghost use Rattle.wire_steps.specs.Delivering.{IsGatheredThere, IsKeptThere};

use part_client::{Arriving, Asks, RowHeld};
use part_store::{Gatherings, RowView};
use row_value::Scheme;
use stab_base::{ClientNo, TableNo};
use std::alloc::{AllocError, Global};
use std::collections::BTreeMap;
use table_model::Message;

// ---- tables at the Store

/// Whether what a table has of the row of a part decides what it comes to.
pub(crate) fn asks_for_row(
    gathered: &BTreeMap<TableNo, Gatherings>,
    alloc: Global,
    table: TableNo,
    part: &Message,
) -> bool
    ensures { (gs : List Gathering) (p : Part) → HasGatheredThere gs (tree.get nat_cmp gathered.now table)
        → part_of part.now ≡ Some p → result ≡ at_store.needs_row gs p }
{
    match gathered.get(&table) {
        Some(it) => it.needs_row(part),
        None => Gatherings::new(alloc).needs_row(part),
    }
}

// Of a table that has gathered nothing.
fn gather_first(
    gathered: &mut BTreeMap<TableNo, Gatherings>,
    alloc: Global,
    table: TableNo,
    scheme: Scheme,
    chunk: u32,
    view: &RowView,
    part: Message,
) -> Result<part_store::Taken, AllocError>
    requires chunk { 0 < chunk }
    requires places { at_store.may_gather (part_of part) ≡ true }
    ensures taken { (items : List Stored) (gs : List Gathering) (p : Part) → HasGatheredThere gs None
        → part_of part ≡ Some p
        → (at_store.needs_row gs p ≡ true → IsViewOf chunk items (at_store.client_of p) (at_store.row_of p) view.now)
        → IfOk result (IsGatheredThere (parted scheme chunk items gs p) (tree.get nat_cmp gathered.new table)) }
    ensures others { (q : ℕ) → q ≢ table → OnOk result (tree.get nat_cmp gathered.new q
        ≡ tree.get nat_cmp gathered.old q) }
{
    let mut it = Gatherings::new(alloc);
    let taken = it.take(scheme, chunk, view, part)?;
    gathered.insert(table, it)?;
    Ok(taken)
}

/// What a part comes to at a table.
pub(crate) fn gather(
    gathered: &mut BTreeMap<TableNo, Gatherings>,
    alloc: Global,
    table: TableNo,
    scheme: Scheme,
    chunk: u32,
    view: &RowView,
    part: Message,
) -> Result<part_store::Taken, AllocError>
    requires chunk { 0 < chunk }
    requires places { at_store.may_gather (part_of part) ≡ true }
    ensures taken { (items : List Stored) (gs : List Gathering) (p : Part)
        → HasGatheredThere gs (tree.get nat_cmp gathered.old table) → part_of part ≡ Some p
        → (at_store.needs_row gs p ≡ true → IsViewOf chunk items (at_store.client_of p) (at_store.row_of p) view.now)
        → IfOk result (IsGatheredThere (parted scheme chunk items gs p) (tree.get nat_cmp gathered.new table)) }
    ensures others { (q : ℕ) → q ≢ table → OnOk result (tree.get nat_cmp gathered.new q
        ≡ tree.get nat_cmp gathered.old q) }
{
    match gathered.get_mut(&table) {
        Some(it) => it.take(scheme, chunk, view, part),
        None => gather_first(gathered, alloc, table, scheme, chunk, view, part),
    }
}

// ---- clients

/// Whether what a client holds of the row of a part decides what it comes to.
pub(crate) fn asks_for_held(
    arriving: &BTreeMap<ClientNo, Arriving>,
    alloc: Global,
    client: ClientNo,
    part: &Message,
) -> bool
    ensures { (a : arrivals.Arriving) (p : Part) → KeepsThere a (tree.get nat_cmp arriving.now client)
        → part_of part.now ≡ Some p → result ≡ at_client.needs_row a p }
{
    match arriving.get(&client) {
        Some(it) => it.needs_row(part),
        None => Arriving::new(alloc).needs_row(part),
    }
}

// At a client that keeps nothing.
fn arrive_first(
    arriving: &mut BTreeMap<ClientNo, Arriving>,
    alloc: Global,
    client: ClientNo,
    held: &RowHeld,
    part: Message,
) -> Result<part_client::Taken, AllocError>
    requires chunk { 0 < held.now.chunk }
    requires places { at_client.may_gather (part_of part) ≡ true }
    ensures taken { (opened : TableDisk) (a : arrivals.Arriving) (p : Part) → KeepsThere a None
        → part_of part ≡ Some p → (at_client.needs_row a p ≡ true → IsHeldOf opened (at_client.row_of p) held.now)
        → IfOk result (IsKeptThere (arrived opened a p) (tree.get nat_cmp arriving.new client)) }
    ensures others { (q : ℕ) → q ≢ client → OnOk result (tree.get nat_cmp arriving.new q
        ≡ tree.get nat_cmp arriving.old q) }
{
    let mut it = Arriving::new(alloc);
    let taken = it.take(held, part)?;
    arriving.insert(client, it)?;
    Ok(taken)
}

/// What a part comes to at a client.
pub(crate) fn arrive(
    arriving: &mut BTreeMap<ClientNo, Arriving>,
    alloc: Global,
    client: ClientNo,
    held: &RowHeld,
    part: Message,
) -> Result<part_client::Taken, AllocError>
    requires chunk { 0 < held.now.chunk }
    requires places { at_client.may_gather (part_of part) ≡ true }
    ensures taken { (opened : TableDisk) (a : arrivals.Arriving) (p : Part)
        → KeepsThere a (tree.get nat_cmp arriving.old client) → part_of part ≡ Some p
        → (at_client.needs_row a p ≡ true → IsHeldOf opened (at_client.row_of p) held.now)
        → IfOk result (IsKeptThere (arrived opened a p) (tree.get nat_cmp arriving.new client)) }
    ensures others { (q : ℕ) → q ≢ client → OnOk result (tree.get nat_cmp arriving.new q
        ≡ tree.get nat_cmp arriving.old q) }
{
    match arriving.get_mut(&client) {
        Some(it) => it.take(held, part),
        None => arrive_first(arriving, alloc, client, held, part),
    }
}

// A client that keeps nothing.
fn ask_first(
    arriving: &mut BTreeMap<ClientNo, Arriving>,
    alloc: Global,
    client: ClientNo,
    table: TableNo,
) -> Result<Asks, AllocError>
    ensures asks { (a : arrivals.Arriving) → KeepsThere a None → IfOk result (AreAsks table a) }
    ensures kept { (a : arrivals.Arriving) → KeepsThere a None
        → OnOk result (KeepsThere (asking table a) (tree.get nat_cmp arriving.new client)) }
    ensures others { (q : ℕ) → q ≢ client → OnOk result (tree.get nat_cmp arriving.new q
        ≡ tree.get nat_cmp arriving.old q) }
{
    let mut it = Arriving::new(alloc);
    let asks = it.ask(table)?;
    arriving.insert(client, it)?;
    Ok(asks)
}

/// What a client's pull of a table tells as torn, and what it asks for whole.
pub(crate) fn ask(
    arriving: &mut BTreeMap<ClientNo, Arriving>,
    alloc: Global,
    client: ClientNo,
    table: TableNo,
) -> Result<Asks, AllocError>
    ensures asks { (a : arrivals.Arriving) → KeepsThere a (tree.get nat_cmp arriving.old client)
        → IfOk result (AreAsks table a) }
    ensures kept { (a : arrivals.Arriving) → KeepsThere a (tree.get nat_cmp arriving.old client)
        → OnOk result (KeepsThere (asking table a) (tree.get nat_cmp arriving.new client)) }
    ensures others { (q : ℕ) → q ≢ client → OnOk result (tree.get nat_cmp arriving.new q
        ≡ tree.get nat_cmp arriving.old q) }
{
    match arriving.get_mut(&client) {
        Some(it) => it.ask(table),
        None => ask_first(arriving, alloc, client, table),
    }
}
