ghost use Rattle.std.specs.Prelude.{◌≡◌, ◌≢◌, MatchOption};
ghost use Rattle.sync_msgs.specs.Spelling.{kind_code};
ghost use Rattle.table_model.specs.declared.message_name.MessageName.{MessageName};

use table_model::MessageName;

/// The number of a kind, from 1 to 17.
pub fn kind_code(name: MessageName) -> u8
    ensures { result ≡ kind_code name }
{
    match name {
        MessageName::RegisterDevice => 1,
        MessageName::CreateTable => 2,
        MessageName::DropTable => 3,
        MessageName::SubscribeTable => 4,
        MessageName::UnsubscribeTable => 5,
        MessageName::Notify => 6,
        MessageName::ObjectFragment => 7,
        MessageName::PullRequest => 8,
        MessageName::PullResponse => 9,
        MessageName::SyncRequest => 10,
        MessageName::SyncResponse => 11,
        MessageName::TornRowRequest => 12,
        MessageName::TornRowResponse => 13,
        MessageName::OperationResponse => 14,
        MessageName::SaveClientSubscription => 15,
        MessageName::RestoreClientSubscriptions => 16,
        MessageName::TableVersionUpdateNotification => 17,
    }
}

/// The kind of a number. None where no kind has it.
pub fn name_of_kind(kind: u8) -> Option<MessageName>
    ensures { MatchOption result ((name : MessageName) → kind_code name ≢ kind) (λ name. kind_code name ≡ kind) }
{
    match kind {
        1 => Some(MessageName::RegisterDevice),
        2 => Some(MessageName::CreateTable),
        3 => Some(MessageName::DropTable),
        4 => Some(MessageName::SubscribeTable),
        5 => Some(MessageName::UnsubscribeTable),
        6 => Some(MessageName::Notify),
        7 => Some(MessageName::ObjectFragment),
        8 => Some(MessageName::PullRequest),
        9 => Some(MessageName::PullResponse),
        10 => Some(MessageName::SyncRequest),
        11 => Some(MessageName::SyncResponse),
        12 => Some(MessageName::TornRowRequest),
        13 => Some(MessageName::TornRowResponse),
        14 => Some(MessageName::OperationResponse),
        15 => Some(MessageName::SaveClientSubscription),
        16 => Some(MessageName::RestoreClientSubscriptions),
        17 => Some(MessageName::TableVersionUpdateNotification),
        _ => None,
    }
}
