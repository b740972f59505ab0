//! The events of a world's clients.
ghost use Rattle.std.specs.Prelude.{◌≡◌, ◌≢◌, ℕ, suc, [], IfErr};
ghost use Rattle.stab_base.specs.declared.node.Node.TheVariants as nodes;
ghost use Rattle.step_tables.specs.ClientMoves.{Alter, Opens, Closes, Conflicts, Next};
ghost use Rattle.step_tables.specs.Travels.{message_of};
ghost use Rattle.client_node.specs.Node.{IsToOpen};
ghost use Rattle.world_tables.specs.World as calls;
ghost use Rattle.world_tables.specs.World.{World as AWorld, to_there, started, client_at, has_node};
ghost use Rattle.journal_host.specs.Asks.{move_of};
ghost use Rattle.journal_host.specs.declared.fault.ClientFault.TheVariants.{Spent, Memory};
ghost use Rattle.journal_host.specs.Calls.{Comes, Lists, Stays, HasCause, IsNumberCause};
ghost use Rattle.journal_host.specs.Holds.{HoldsClients, AreClients, HavePlansBelow};
ghost use Rattle.client_events.specs.Fits.{FitsMessage};

use crate::follow::follow;
use disk_trait::Disk;
use journal_host::{Ask, ClientFault, ClientHost};
use row_value::Schema;
use stab_base::{ClientNo, RowId, Sequence, TableNo};
use step_tables::Message;
use table_model::{Answer, RowPairs};

/// Asks a client, and does the work that follows.
///
/// # Errors
///
/// `Spent` where no number of a write or of a plan is left, and nothing has changed; and `Memory`, where the move may
/// be done, and some of its work.
pub fn call<D: Disk + Drop>(
    clients: &mut ClientHost<D>,
    is_held: bool,
    client: ClientNo,
    ask: Ask,
) -> Result<Answer, ClientFault>
    requires { AreClients D.state clients.old }
    ensures called { (w : AWorld) → HoldsClients D.state w clients.old
        → is_held ≡ has_node w.holds (nodes.Client client)
        → Comes D.state clients.old clients.new (calls.call w client (move_of ask)) result }
    ensures spent { (w : AWorld) (n : ℕ) → HoldsClients D.state w clients.old
        → HavePlansBelow D.state n clients.old.clients
        → IfErr result (IsNumberCause n (client_at w client)) }
    ensures kept { (w : AWorld) → HoldsClients D.state w clients.old
        → IfErr result (λ e. e ≡ Spent → Stays D.state w clients.old clients.new) }
    ensures cause { HasCause D.state client clients.old.clients clients.new.clients result }
    ensures plans { (n : ℕ) → HavePlansBelow D.state n clients.old.clients
        → HavePlansBelow D.state (suc n) clients.new.clients }
{
    let was_busy = clients.is_busy(client);
    let found = clients.ask(client, ask);
    follow(clients, is_held, was_busy, client, found)
}

// Has a client that tells rows as torn ask for some rows whole, and does the work that follows.
fn ask_whole<D: Disk + Drop>(
    clients: &mut ClientHost<D>,
    is_held: bool,
    client: ClientNo,
    table: TableNo,
    tears: Sequence<RowId>,
    asks: Sequence<RowId>,
) -> Result<Answer, ClientFault>
    requires clients { AreClients D.state clients.old }
    requires some { asks ≢ [] }
    ensures called { (w : AWorld) → HoldsClients D.state w clients.old
        → is_held ≡ has_node w.holds (nodes.Client client)
        → Comes D.state clients.old clients.new (calls.call w client (Next table tears asks)) result }
    ensures spent { (w : AWorld) (n : ℕ) → HoldsClients D.state w clients.old
        → HavePlansBelow D.state n clients.old.clients
        → IfErr result (IsNumberCause n (client_at w client)) }
    ensures kept { (w : AWorld) → HoldsClients D.state w clients.old
        → IfErr result (λ e. e ≡ Spent → Stays D.state w clients.old clients.new) }
    ensures cause { HasCause D.state client clients.old.clients clients.new.clients result }
    ensures plans { (n : ℕ) → HavePlansBelow D.state n clients.old.clients
        → HavePlansBelow D.state (suc n) clients.new.clients }
{
    let was_busy = clients.is_busy(client);
    let found = clients.ask_whole(client, table, tears, asks);
    follow(clients, is_held, was_busy, client, found)
}

/// Has a client tell rows of a table as torn, and ask for rows whole, in these orders; where it asks for none, for the
/// table's next change. It does the work that follows.
///
/// # Errors
///
/// Those of `call`.
pub fn pull<D: Disk + Drop>(
    clients: &mut ClientHost<D>,
    is_held: bool,
    client: ClientNo,
    table: TableNo,
    tears: Sequence<RowId>,
    asks: Sequence<RowId>,
) -> Result<Answer, ClientFault>
    requires clients { AreClients D.state clients.old }
    requires none { asks ≡ [] → tears ≡ [] }
    ensures called { (w : AWorld) → HoldsClients D.state w clients.old
        → is_held ≡ has_node w.holds (nodes.Client client)
        → Comes D.state clients.old clients.new (calls.call w client (Next table tears asks)) result }
    ensures spent { (w : AWorld) (n : ℕ) → HoldsClients D.state w clients.old
        → HavePlansBelow D.state n clients.old.clients
        → IfErr result (IsNumberCause n (client_at w client)) }
    ensures kept { (w : AWorld) → HoldsClients D.state w clients.old
        → IfErr result (λ e. e ≡ Spent → Stays D.state w clients.old clients.new) }
    ensures cause { HasCause D.state client clients.old.clients clients.new.clients result }
    ensures plans { (n : ℕ) → HavePlansBelow D.state n clients.old.clients
        → HavePlansBelow D.state (suc n) clients.new.clients }
{
    if asks.len() == 0 {
        return call(clients, is_held, client, Ask::Pull { table });
    }
    ask_whole(clients, is_held, client, table, tears, asks)
}

/// Opens a table at a client, and does the work that follows: one that is there, open or closed, stays as it is.
///
/// # Errors
///
/// Those of `call`.
pub fn open<D: Disk + Drop>(
    clients: &mut ClientHost<D>,
    is_held: bool,
    client: ClientNo,
    table: TableNo,
    schema: Schema,
) -> Result<Answer, ClientFault>
    requires clients { AreClients D.state clients.old }
    requires opens { IsToOpen (table, schema) }
    ensures called { (w : AWorld) → HoldsClients D.state w clients.old
        → is_held ≡ has_node w.holds (nodes.Client client)
        → Comes D.state clients.old clients.new (calls.call w client (Alter table (Opens schema))) result }
    ensures spent { (w : AWorld) (n : ℕ) → HoldsClients D.state w clients.old
        → HavePlansBelow D.state n clients.old.clients
        → IfErr result (IsNumberCause n (client_at w client)) }
    ensures kept { (w : AWorld) → HoldsClients D.state w clients.old
        → IfErr result (λ e. e ≡ Spent → Stays D.state w clients.old clients.new) }
    ensures cause { HasCause D.state client clients.old.clients clients.new.clients result }
    ensures plans { (n : ℕ) → HavePlansBelow D.state n clients.old.clients
        → HavePlansBelow D.state (suc n) clients.new.clients }
{
    let was_busy = clients.is_busy(client);
    let found = clients.open(client, table, schema);
    follow(clients, is_held, was_busy, client, found)
}

/// Closes a table at a client for good, and does the work that follows; one that isn't there stays so.
///
/// # Errors
///
/// Those of `call`.
pub fn close<D: Disk + Drop>(
    clients: &mut ClientHost<D>,
    is_held: bool,
    client: ClientNo,
    table: TableNo,
) -> Result<Answer, ClientFault>
    requires { AreClients D.state clients.old }
    ensures called { (w : AWorld) → HoldsClients D.state w clients.old
        → is_held ≡ has_node w.holds (nodes.Client client)
        → Comes D.state clients.old clients.new (calls.call w client (Alter table Closes)) result }
    ensures spent { (w : AWorld) (n : ℕ) → HoldsClients D.state w clients.old
        → HavePlansBelow D.state n clients.old.clients
        → IfErr result (IsNumberCause n (client_at w client)) }
    ensures kept { (w : AWorld) → HoldsClients D.state w clients.old
        → IfErr result (λ e. e ≡ Spent → Stays D.state w clients.old clients.new) }
    ensures cause { HasCause D.state client clients.old.clients clients.new.clients result }
    ensures plans { (n : ℕ) → HavePlansBelow D.state n clients.old.clients
        → HavePlansBelow D.state (suc n) clients.new.clients }
{
    let was_busy = clients.is_busy(client);
    let found = clients.close(client, table);
    follow(clients, is_held, was_busy, client, found)
}

/// Lists the rows in conflict of a table whose conflicts the client resolves: how many there are. They are handed over
/// by rising id. No work follows.
///
/// # Errors
///
/// Those of `call`.
pub fn conflicts<D: Disk + Drop>(
    clients: &mut ClientHost<D>,
    client: ClientNo,
    table: TableNo,
    pairs: &mut RowPairs,
) -> Result<Answer, ClientFault>
    requires clients { AreClients D.state clients.old }
    requires none { pairs.old ≡ [] }
    ensures called { (w : AWorld) → HoldsClients D.state w clients.old
        → Lists D.state clients.old clients.new (calls.call w client (Conflicts table)) pairs.new result }
    ensures spent { (w : AWorld) (n : ℕ) → HoldsClients D.state w clients.old
        → HavePlansBelow D.state n clients.old.clients
        → IfErr result (IsNumberCause n (client_at w client)) }
    ensures kept { (w : AWorld) → HoldsClients D.state w clients.old
        → IfErr result (λ e. e ≡ Spent → Stays D.state w clients.old clients.new) }
    ensures cause { HasCause D.state client clients.old.clients clients.new.clients result }
    ensures plans { (n : ℕ) → HavePlansBelow D.state n clients.old.clients
        → HavePlansBelow D.state (suc n) clients.new.clients }
{
    clients.conflicts(client, table, pairs)
}

/// Takes a message, and does the work that follows. One for a client that hasn't joined is lost, and so is a row that
/// doesn't fit its table.
///
/// # Errors
///
/// Those of `call`.
pub fn deliver<D: Disk + Drop>(
    clients: &mut ClientHost<D>,
    is_held: bool,
    client: ClientNo,
    message: Message,
) -> Result<Answer, ClientFault>
    requires { AreClients D.state clients.old }
    ensures called { (w : AWorld) → HoldsClients D.state w clients.old
        → is_held ≡ has_node w.holds (nodes.Client client)
        → FitsMessage w client message
        → Comes D.state clients.old clients.new
        (λ shape lucks. to_there w client (message_of message) shape lucks (client_at w client)) result }
    ensures spent { (w : AWorld) (n : ℕ) → HoldsClients D.state w clients.old
        → HavePlansBelow D.state n clients.old.clients → FitsMessage w client message
        → IfErr result (IsNumberCause n (client_at w client)) }
    ensures kept { (w : AWorld) → HoldsClients D.state w clients.old
        → IfErr result (λ e. e ≡ Spent → Stays D.state w clients.old clients.new) }
    ensures cause { HasCause D.state client clients.old.clients clients.new.clients result }
    ensures plans { (n : ℕ) → HavePlansBelow D.state n clients.old.clients
        → HavePlansBelow D.state (suc n) clients.new.clients }
{
    let was_busy = clients.is_busy(client);
    let found = clients.deliver(client, message);
    follow(clients, is_held, was_busy, client, found)
}

/// Starts the client, and does the work that follows; one that is up goes on.
///
/// # Errors
///
/// `Memory` alone; the client may be started, and some of its work done.
pub fn start<D: Disk + Drop>(
    clients: &mut ClientHost<D>,
    is_held: bool,
    client: ClientNo,
) -> Result<Answer, ClientFault>
    requires { AreClients D.state clients.old }
    ensures called { (w : AWorld) → HoldsClients D.state w clients.old
        → is_held ≡ has_node w.holds (nodes.Client client)
        → Comes D.state clients.old clients.new
        (λ shape lucks. started w shape lucks (nodes.Client client)) result }
    ensures cause { HasCause D.state client clients.old.clients clients.new.clients result }
    ensures plans { (n : ℕ) → HavePlansBelow D.state n clients.old.clients
        → HavePlansBelow D.state n clients.new.clients }
    ensures memory { IfErr result (λ e. e ≡ Memory) }
{
    let was_busy = clients.is_busy(client);
    let started = clients.start(client);
    follow(clients, is_held, was_busy, client, started)
}
