ghost use Rattle.std.specs.Prelude.{◌≡◌, ◌≤◌, length, drop, IfOk, IfErr};
ghost use Rattle.value_codec.specs.Reading.{Gives, whole};
ghost use Rattle.table_model.specs.declared.message.Message.{Message};
ghost use Rattle.sync_msgs.specs.Spelling.{kind_of, body_spelling, HasSpelling, IsOfKind};
ghost use Rattle.sync_msgs.specs.Reading.{message_at};
ghost use Rattle.sync_msgs.specs.Refusing.{IsBad, IsBadOrMemory};
ghost use Rattle.sync_msgs.specs.declared.codec.MessageFault.TheVariants as faults;

use crate::kinds::{kind_code, name_of_kind};
use crate::message_writer::put_message;
use crate::notices_reader::{
    take_notify, take_restore_client_subscriptions, take_save_client_subscription,
    take_subscribe_table, take_table_version_update_notification, take_unsubscribe_table,
};
use crate::pulls_reader::{
    take_pull_request, take_pull_response, take_torn_row_request, take_torn_row_response,
};
use crate::rows_reader::{take_object_fragment, take_sync_request, take_sync_response};
use crate::tables_reader::{
    take_create_table, take_drop_table, take_operation_response, take_register_device,
};
use stab_base::Bytes;
use std::alloc::{AllocError, Global};
use table_model::{Message, MessageName};
use thiserror::Error;
use value_codec::SpellFault;

/// Why bytes are no message.
#[derive(Debug, Drop, Clone, Copy, PartialEq, Eq, Error)]
pub enum MessageFault {
    /// 16: the body is that of no message of this kind. At this place, counted from the body's first byte, is the
    /// first byte with which no body of the kind goes on; where bytes are missing, it is the place behind the last
    /// byte. It is 0 where there is no such kind.
    #[error("no message of kind {kind} goes on at byte {at}")]
    BadMessage { kind: u8, at: usize },
    /// Memory ran out.
    #[error("out of memory")]
    Memory,
}

fn take_message(
    alloc: Global,
    name: MessageName,
    bytes: &[u8],
    at: usize,
) -> Result<(Message, usize), SpellFault>
    requires { at ≤ length bytes.now }
    ensures value { Gives bytes.now (λ x. (x.0, drop x.1 bytes.now)) result (message_at name (drop at bytes.now)) }
    ensures within { IfOk result (λ x. x.1 ≤ length bytes.now) }
{
    match name {
        MessageName::RegisterDevice => take_register_device(bytes, at),
        MessageName::CreateTable => take_create_table(alloc, bytes, at),
        MessageName::DropTable => take_drop_table(bytes, at),
        MessageName::SubscribeTable => take_subscribe_table(bytes, at),
        MessageName::UnsubscribeTable => take_unsubscribe_table(bytes, at),
        MessageName::Notify => take_notify(bytes, at),
        MessageName::ObjectFragment => take_object_fragment(alloc, bytes, at),
        MessageName::PullRequest => take_pull_request(bytes, at),
        MessageName::PullResponse => take_pull_response(alloc, bytes, at),
        MessageName::SyncRequest => take_sync_request(alloc, bytes, at),
        MessageName::SyncResponse => take_sync_response(bytes, at),
        MessageName::TornRowRequest => take_torn_row_request(bytes, at),
        MessageName::TornRowResponse => take_torn_row_response(alloc, bytes, at),
        MessageName::OperationResponse => take_operation_response(alloc, bytes, at),
        MessageName::SaveClientSubscription => take_save_client_subscription(bytes, at),
        MessageName::RestoreClientSubscriptions => take_restore_client_subscriptions(
            alloc, bytes, at,
        ),
        MessageName::TableVersionUpdateNotification => take_table_version_update_notification(
            bytes, at,
        ),
    }
}

#[tactic(auto, unfolding(value_codec::specs::Reading::whole))]
fn whole_message(alloc: Global, name: MessageName, bytes: &[u8]) -> Result<Message, SpellFault>
    ensures { Gives bytes.now (λ x. x) result (whole (message_at name bytes.now)) }
{
    let (message, end) = take_message(alloc, name, bytes, 0)?;
    if end < bytes.len() {
        return Err(SpellFault::Bad { at: end });
    }
    Ok(message)
}

/// The message that a frame of this kind and body spells.
pub fn decode(alloc: Global, kind: u8, body: &[u8]) -> Result<Message, MessageFault>
    // What is found is spelled so.
    ensures found { IfOk result (λ message. IsOfKind kind message × (body.now ≡ body_spelling message)) }
    // What is spelled is found, unless memory runs out.
    ensures only { (message : Message) → IsOfKind kind message → body.now ≡ body_spelling message
        → IfOk result (λ found. found ≡ message) × IfErr result (λ fault. fault ≡ faults.Memory) }
    // A fault tells the first place at which no body of the kind goes on.
    ensures refused { IfErr result (IsBadOrMemory kind body.now) }
{
    let Some(name) = name_of_kind(kind) else {
        return Err(MessageFault::BadMessage { kind, at: 0 });
    };
    match whole_message(alloc, name, body) {
        Ok(message) => Ok(message),
        Err(SpellFault::Bad { at }) => Err(MessageFault::BadMessage { kind, at }),
        Err(SpellFault::Memory) => Err(MessageFault::Memory),
    }
}

/// The kind of a message and its body.
pub fn encode(alloc: Global, message: &Message) -> Result<(u8, Bytes), AllocError>
    requires { HasSpelling message.now }
    ensures kind { IfOk result (λ made. made.0 ≡ kind_of message.now) }
    ensures body { IfOk result (λ made. made.1 ≡ body_spelling message.now) }
{
    let mut out = Vec::new(alloc);
    put_message(&mut out, message)?;
    Ok((kind_code(message.name()), Bytes::from_vec(out)))
}
