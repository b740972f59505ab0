//! Whose a part is, and of which table and row.
ghost use Rattle.std.specs.Prelude.{◌≡◌, List, Some, true};
ghost use Rattle.step_tables.specs.Travels.{message_of};
ghost use Rattle.message_parts.specs.Parts.{part_of};
ghost use Rattle.part_tables.specs.Parts.{Part};
ghost use Rattle.part_tables.specs.StoreParts.{Gathering};
ghost use Rattle.part_tables.specs.Arriving as arrivals;
ghost use Rattle.part_store.specs.Calls as at_store;
ghost use Rattle.part_client.specs.Calls as at_client;
ghost use Rattle.wire_tables.specs.Wire.{part_table, any_of};
ghost use Rattle.wire_steps.specs.Views.{row_in};

use stab_base::{ClientNo, RowId, TableNo};
use table_model::{Message, RowHeader};

/// The table of a part.
pub(crate) fn table_of(part: &Message) -> TableNo
    ensures { (p : Part) → part_of part.now ≡ Some p → result ≡ part_table p }
{
    match part {
        Message::ObjectFragment(m) => m.table,
        Message::PullRequest(m) => m.table,
        Message::PullResponse(m) => m.table,
        Message::SyncRequest(m) => m.table,
        Message::SyncResponse(m) => m.table,
        Message::TornRowRequest(m) => m.table,
        Message::TornRowResponse(m) => m.table,
        Message::RegisterDevice(_)
        | Message::CreateTable(_)
        | Message::DropTable(_)
        | Message::SubscribeTable(_)
        | Message::UnsubscribeTable(_)
        | Message::Notify(_)
        | Message::OperationResponse(_)
        | Message::SaveClientSubscription(_)
        | Message::RestoreClientSubscriptions(_)
        | Message::TableVersionUpdateNotification(_) => 0,
    }
}

/// The client of a part.
pub(crate) fn client_of(part: &Message) -> ClientNo
    ensures { (p : Part) → part_of part.now ≡ Some p → result ≡ at_store.client_of p }
{
    match part {
        Message::ObjectFragment(m) => m.client,
        Message::PullRequest(m) => m.client,
        Message::PullResponse(m) => m.client,
        Message::SyncRequest(m) => m.client,
        Message::SyncResponse(m) => m.client,
        Message::TornRowRequest(m) => m.client,
        Message::TornRowResponse(m) => m.client,
        Message::RegisterDevice(_)
        | Message::CreateTable(_)
        | Message::DropTable(_)
        | Message::SubscribeTable(_)
        | Message::UnsubscribeTable(_)
        | Message::Notify(_)
        | Message::OperationResponse(_)
        | Message::SaveClientSubscription(_)
        | Message::RestoreClientSubscriptions(_)
        | Message::TableVersionUpdateNotification(_) => 0,
    }
}

/// The row that a request or a chunk of one is of.
pub(crate) fn row_asked(part: &Message) -> Option<RowId>
    ensures { (gs : List Gathering) (p : Part) → part_of part.now ≡ Some p → at_store.needs_row gs p ≡ true
        → result ≡ Some (at_store.row_of p) }
{
    match part {
        Message::SyncRequest(m) => Some(m.row),
        Message::ObjectFragment(m) => Some(m.row),
        Message::RegisterDevice(_)
        | Message::CreateTable(_)
        | Message::DropTable(_)
        | Message::SubscribeTable(_)
        | Message::UnsubscribeTable(_)
        | Message::Notify(_)
        | Message::PullRequest(_)
        | Message::PullResponse(_)
        | Message::SyncResponse(_)
        | Message::TornRowRequest(_)
        | Message::TornRowResponse(_)
        | Message::OperationResponse(_)
        | Message::SaveClientSubscription(_)
        | Message::RestoreClientSubscriptions(_)
        | Message::TableVersionUpdateNotification(_) => None,
    }
}

fn row_in(header: &Option<RowHeader>) -> Option<RowId>
    ensures { result ≡ row_in header.now }
{
    match header {
        Some(header) => Some(header.row),
        None => None,
    }
}

/// The row of an answer with a row, or of a chunk of one.
pub(crate) fn row_answered(part: &Message) -> Option<RowId>
    ensures { (a : arrivals.Arriving) (p : Part) → part_of part.now ≡ Some p → at_client.needs_row a p ≡ true
        → result ≡ Some (at_client.row_of p) }
{
    match part {
        Message::PullResponse(m) => row_in(&m.header),
        Message::ObjectFragment(m) => Some(m.row),
        Message::TornRowResponse(m) => row_in(&m.header),
        Message::RegisterDevice(_)
        | Message::CreateTable(_)
        | Message::DropTable(_)
        | Message::SubscribeTable(_)
        | Message::UnsubscribeTable(_)
        | Message::Notify(_)
        | Message::PullRequest(_)
        | Message::SyncRequest(_)
        | Message::SyncResponse(_)
        | Message::TornRowRequest(_)
        | Message::OperationResponse(_)
        | Message::SaveClientSubscription(_)
        | Message::RestoreClientSubscriptions(_)
        | Message::TableVersionUpdateNotification(_) => None,
    }
}

/// A message of a table, where it isn't looked at which one.
pub(crate) fn any_of(table: TableNo) -> step_tables::Message
    ensures { message_of result ≡ any_of table }
{
    step_tables::Message::PullRequest(step_tables::PullRequest {
        client: 0,
        token: 0,
        table,
        position: 0,
    })
}
