ghost use Rattle.std.specs.Prelude.{◌≡◌};
ghost use Rattle.gate_tables.specs.Gate.{ask_of, asked, client_of};

use crate::timer::{Asked, Wish};
use stab_base::{ClientNo, TableNo};
use table_model::Message;

fn ask_of(client: ClientNo, token: u64, table: TableNo, kind: u8, wish: Wish) -> Option<Asked>
    ensures { result ≡ ask_of client token table kind wish }
{
    Some(Asked {
        client,
        token,
        table,
        kind,
        wish,
    })
}

/// What a client's message asks of the owner of a table. None of every other message.
pub fn asked_of(message: &Message) -> Option<Asked>
    ensures { result ≡ asked message.now }
{
    match message {
        Message::RegisterDevice(_) => None,
        Message::CreateTable(m) => ask_of(m.client, m.token, m.table, 2, Wish::Pass),
        Message::DropTable(m) => ask_of(m.client, m.token, m.table, 3, Wish::Pass),
        Message::SubscribeTable(m) => ask_of(
            m.client,
            m.token,
            m.table,
            4,
            Wish::Subscribe {
                period: m.period,
                tolerance: m.tolerance,
            },
        ),
        Message::UnsubscribeTable(m) => ask_of(m.client, m.token, m.table, 5, Wish::Unsubscribe),
        Message::Notify(_) => None,
        Message::ObjectFragment(m) => {
            if m.down {
                None
            } else {
                ask_of(m.client, m.token, m.table, 7, Wish::Pass)
            }
        }
        Message::PullRequest(m) => ask_of(m.client, m.token, m.table, 8, Wish::Pass),
        Message::PullResponse(_) => None,
        Message::SyncRequest(m) => ask_of(m.client, m.token, m.table, 10, Wish::Pass),
        Message::SyncResponse(_) => None,
        Message::TornRowRequest(m) => ask_of(m.client, m.token, m.table, 12, Wish::Pass),
        Message::TornRowResponse(_) => None,
        Message::OperationResponse(_) => None,
        Message::SaveClientSubscription(_) => None,
        Message::RestoreClientSubscriptions(_) => None,
        Message::TableVersionUpdateNotification(_) => None,
    }
}

/// The client that a Store's message is for. None of every other message.
pub fn client_of(message: &Message) -> Option<ClientNo>
    ensures { result ≡ client_of message.now }
{
    match message {
        Message::RegisterDevice(_) => None,
        Message::CreateTable(_) => None,
        Message::DropTable(_) => None,
        Message::SubscribeTable(_) => None,
        Message::UnsubscribeTable(_) => None,
        Message::Notify(_) => None,
        Message::ObjectFragment(m) => { if m.down { Some(m.client) } else { None } }
        Message::PullRequest(_) => None,
        Message::PullResponse(m) => Some(m.client),
        Message::SyncRequest(_) => None,
        Message::SyncResponse(m) => Some(m.client),
        Message::TornRowRequest(_) => None,
        Message::TornRowResponse(m) => Some(m.client),
        Message::OperationResponse(m) => Some(m.client),
        Message::SaveClientSubscription(_) => None,
        Message::RestoreClientSubscriptions(_) => None,
        Message::TableVersionUpdateNotification(_) => None,
    }
}
