//! Messages and their tokens.
ghost use Rattle.std.specs.Prelude.{◌≡◌, is_some};
ghost use Rattle.message_parts.specs.Parts.{part_of};
ghost use Rattle.gated_tables.specs.Devices.{stamped};
ghost use Rattle.net_network.specs.Packets.{token_in};

use table_model::Message;

/// The token in a message, 0 where it has none.
pub fn token_in(message: &Message) -> u64
    ensures { result ≡ token_in message.now }
{
    match message {
        Message::CreateTable(m) => m.token,
        Message::DropTable(m) => m.token,
        Message::SubscribeTable(m) => m.token,
        Message::UnsubscribeTable(m) => m.token,
        Message::ObjectFragment(m) => m.token,
        Message::PullRequest(m) => m.token,
        Message::SyncRequest(m) => m.token,
        Message::TornRowRequest(m) => m.token,
        Message::OperationResponse(m) => m.token,
        _ => 0,
    }
}

/// A message of a client with this token.
pub fn stamp(token: u64, message: Message) -> Message
    ensures { result ≡ stamped token message }
{
    match message {
        Message::ObjectFragment(mut m) => {
            m.token = token;
            Message::ObjectFragment(m)
        }
        Message::PullRequest(mut m) => {
            m.token = token;
            Message::PullRequest(m)
        }
        Message::SyncRequest(mut m) => {
            m.token = token;
            Message::SyncRequest(m)
        }
        Message::TornRowRequest(mut m) => {
            m.token = token;
            Message::TornRowRequest(m)
        }
        other => other,
    }
}

/// Whether a message is a part of a whole message.
pub fn is_part(message: &Message) -> bool
    ensures { result ≡ is_some (part_of message.now) }
{
    match message {
        Message::ObjectFragment(_) => true,
        Message::PullRequest(_) => true,
        Message::PullResponse(_) => true,
        Message::SyncRequest(_) => true,
        Message::SyncResponse(_) => true,
        Message::TornRowRequest(_) => true,
        Message::TornRowResponse(_) => true,
        _ => false,
    }
}
