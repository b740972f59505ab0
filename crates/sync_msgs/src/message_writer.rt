ghost use Rattle.std.specs.Prelude.{◌≡◌, ◌++◌, OnOk};
ghost use Rattle.sync_msgs.specs.Spelling.{register_device_spelling, HasRegisterDevice, create_table_spelling};
ghost use Rattle.sync_msgs.specs.Spelling.{HasCreateTable, drop_table_spelling, HasDropTable, subscribe_table_spelling};
ghost use Rattle.sync_msgs.specs.Spelling.{HasSubscribeTable, unsubscribe_table_spelling, HasUnsubscribeTable};
ghost use Rattle.sync_msgs.specs.Spelling.{notify_spelling, HasNotify, object_fragment_spelling, HasObjectFragment};
ghost use Rattle.sync_msgs.specs.Spelling.{pull_request_spelling, HasPullRequest, pull_response_spelling};
ghost use Rattle.sync_msgs.specs.Spelling.{HasPullResponse, sync_request_spelling, HasSyncRequest};
ghost use Rattle.sync_msgs.specs.Spelling.{sync_response_spelling, HasSyncResponse, torn_row_request_spelling};
ghost use Rattle.sync_msgs.specs.Spelling.{HasTornRowRequest, torn_row_response_spelling, HasTornRowResponse};
ghost use Rattle.sync_msgs.specs.Spelling.{operation_response_spelling, HasOperationResponse};
ghost use Rattle.sync_msgs.specs.Spelling.{save_client_subscription_spelling, HasSaveClientSubscription};
ghost use Rattle.sync_msgs.specs.Spelling.{restore_client_subscriptions_spelling, HasRestoreClientSubscriptions};
ghost use Rattle.sync_msgs.specs.Spelling.{table_version_update_notification_spelling};
ghost use Rattle.field_codec.specs.Forms.{four, eight};
ghost use Rattle.sync_msgs.specs.Spelling.{HasTableVersionUpdateNotification, body_spelling, HasSpelling};
ghost use Rattle.sync_msgs.specs.Spelling.{IsChunk, chunk_spelling};
ghost use Rattle.value_codec.specs.Spelling.{flag_spelling};

use crate::part_writer::{
    put_chunk, put_header_option, put_outcome, put_schema_option, put_subscriptions,
};
use field_codec::{put_eight, put_flag, put_four, put_id};
use stab_base::put_u8;
use std::alloc::AllocError;
use table_model::{
    CreateTable, DropTable, Message, Notify, ObjectFragment, OperationResponse, PullRequest,
    PullResponse, RegisterDevice, RestoreClientSubscriptions, SaveClientSubscription,
    SubscribeTable, SyncRequest, SyncResponse, TableVersionUpdateNotification, TornRowRequest,
    TornRowResponse, UnsubscribeTable,
};
use value_codec::{put_content, put_schema};

fn put_register_device(out: &mut Vec<u8>, m: &RegisterDevice) -> Result<(), AllocError>
    requires { HasRegisterDevice m.now }
    ensures { OnOk result (out.new.items ≡ out.old.items ++ register_device_spelling m.now) }
{
    put_four(out, m.client)
}

fn put_create_table(out: &mut Vec<u8>, m: &CreateTable) -> Result<(), AllocError>
    requires { HasCreateTable m.now }
    ensures { OnOk result (out.new.items ≡ out.old.items ++ create_table_spelling m.now) }
{
    put_four(out, m.client)?;
    put_eight(out, m.token)?;
    put_four(out, m.table)?;
    put_schema(out, &m.schema)
}

fn put_drop_table(out: &mut Vec<u8>, m: &DropTable) -> Result<(), AllocError>
    requires { HasDropTable m.now }
    ensures { OnOk result (out.new.items ≡ out.old.items ++ drop_table_spelling m.now) }
{
    put_four(out, m.client)?;
    put_eight(out, m.token)?;
    put_four(out, m.table)
}

fn put_subscribe_table(out: &mut Vec<u8>, m: &SubscribeTable) -> Result<(), AllocError>
    requires { HasSubscribeTable m.now }
    ensures { OnOk result (out.new.items ≡ out.old.items ++ subscribe_table_spelling m.now) }
{
    put_four(out, m.client)?;
    put_eight(out, m.token)?;
    put_four(out, m.table)?;
    put_four(out, m.period)?;
    put_four(out, m.tolerance)
}

fn put_unsubscribe_table(out: &mut Vec<u8>, m: &UnsubscribeTable) -> Result<(), AllocError>
    requires { HasUnsubscribeTable m.now }
    ensures { OnOk result (out.new.items ≡ out.old.items ++ unsubscribe_table_spelling m.now) }
{
    put_four(out, m.client)?;
    put_eight(out, m.token)?;
    put_four(out, m.table)
}

fn put_notify(out: &mut Vec<u8>, m: &Notify) -> Result<(), AllocError>
    requires { HasNotify m.now }
    ensures { OnOk result (out.new.items ≡ out.old.items ++ notify_spelling m.now) }
{
    put_four(out, m.client)?;
    put_eight(out, m.bitmap)
}

/// What stands behind the row's id.
fn put_fragment_end(out: &mut Vec<u8>, m: &ObjectFragment) -> Result<(), AllocError>
    requires { IsChunk m.now.bytes }
    ensures { OnOk result (out.new.items ≡ out.old.items ++ (flag_spelling m.now.down ++ (eight m.now.key
        ++ (four m.now.column ++ (four m.now.place ++ chunk_spelling m.now.bytes))))) }
{
    put_flag(out, m.down)?;
    put_eight(out, m.key)?;
    put_four(out, m.column)?;
    put_four(out, m.place)?;
    put_chunk(out, m.bytes.as_slice())
}

fn put_object_fragment(out: &mut Vec<u8>, m: &ObjectFragment) -> Result<(), AllocError>
    requires { HasObjectFragment m.now }
    ensures { OnOk result (out.new.items ≡ out.old.items ++ object_fragment_spelling m.now) }
{
    put_four(out, m.client)?;
    put_eight(out, m.token)?;
    put_four(out, m.table)?;
    put_id(out, &m.row)?;
    put_fragment_end(out, m)
}

fn put_pull_request(out: &mut Vec<u8>, m: &PullRequest) -> Result<(), AllocError>
    requires { HasPullRequest m.now }
    ensures { OnOk result (out.new.items ≡ out.old.items ++ pull_request_spelling m.now) }
{
    put_four(out, m.client)?;
    put_eight(out, m.token)?;
    put_four(out, m.table)?;
    put_eight(out, m.position)
}

fn put_pull_response(out: &mut Vec<u8>, m: &PullResponse) -> Result<(), AllocError>
    requires { HasPullResponse m.now }
    ensures { OnOk result (out.new.items ≡ out.old.items ++ pull_response_spelling m.now) }
{
    put_four(out, m.client)?;
    put_four(out, m.table)?;
    put_eight(out, m.from)?;
    put_eight(out, m.to)?;
    put_eight(out, m.latest)?;
    put_header_option(out, &m.header)
}

fn put_sync_request(out: &mut Vec<u8>, m: &SyncRequest) -> Result<(), AllocError>
    requires { HasSyncRequest m.now }
    ensures { OnOk result (out.new.items ≡ out.old.items ++ sync_request_spelling m.now) }
{
    put_four(out, m.client)?;
    put_eight(out, m.token)?;
    put_four(out, m.table)?;
    put_id(out, &m.row)?;
    put_eight(out, m.number)?;
    put_eight(out, m.base)?;
    put_content(out, &m.content)
}

fn put_sync_response(out: &mut Vec<u8>, m: &SyncResponse) -> Result<(), AllocError>
    requires { HasSyncResponse m.now }
    ensures { OnOk result (out.new.items ≡ out.old.items ++ sync_response_spelling m.now) }
{
    put_four(out, m.client)?;
    put_four(out, m.table)?;
    put_id(out, &m.row)?;
    put_eight(out, m.number)?;
    put_outcome(out, &m.outcome)
}

fn put_torn_row_request(out: &mut Vec<u8>, m: &TornRowRequest) -> Result<(), AllocError>
    requires { HasTornRowRequest m.now }
    ensures { OnOk result (out.new.items ≡ out.old.items ++ torn_row_request_spelling m.now) }
{
    put_four(out, m.client)?;
    put_eight(out, m.token)?;
    put_four(out, m.table)?;
    put_id(out, &m.row)
}

fn put_torn_row_response(out: &mut Vec<u8>, m: &TornRowResponse) -> Result<(), AllocError>
    requires { HasTornRowResponse m.now }
    ensures { OnOk result (out.new.items ≡ out.old.items ++ torn_row_response_spelling m.now) }
{
    put_four(out, m.client)?;
    put_four(out, m.table)?;
    put_id(out, &m.row)?;
    put_header_option(out, &m.header)
}

fn put_operation_response(out: &mut Vec<u8>, m: &OperationResponse) -> Result<(), AllocError>
    requires { HasOperationResponse m.now }
    ensures { OnOk result (out.new.items ≡ out.old.items ++ operation_response_spelling m.now) }
{
    put_four(out, m.client)?;
    put_four(out, m.table)?;
    put_u8(out, m.answered)?;
    put_four(out, m.status)?;
    put_eight(out, m.token)?;
    put_schema_option(out, &m.schema)
}

fn put_save_client_subscription(
    out: &mut Vec<u8>,
    m: &SaveClientSubscription,
) -> Result<(), AllocError>
    requires { HasSaveClientSubscription m.now }
    ensures { OnOk result (out.new.items ≡ out.old.items ++ save_client_subscription_spelling m.now) }
{
    put_four(out, m.client)?;
    put_four(out, m.gate)?;
    put_four(out, m.table)?;
    put_flag(out, m.on)?;
    put_four(out, m.period)?;
    put_four(out, m.tolerance)
}

fn put_restore_client_subscriptions(
    out: &mut Vec<u8>,
    m: &RestoreClientSubscriptions,
) -> Result<(), AllocError>
    requires { HasRestoreClientSubscriptions m.now }
    ensures { OnOk result (out.new.items ≡ out.old.items ++ restore_client_subscriptions_spelling m.now) }
{
    put_four(out, m.client)?;
    put_four(out, m.gate)?;
    put_flag(out, m.reply)?;
    put_subscriptions(out, m.subscriptions.as_slice())
}

fn put_table_version_update_notification(
    out: &mut Vec<u8>,
    m: &TableVersionUpdateNotification,
) -> Result<(), AllocError>
    requires { HasTableVersionUpdateNotification m.now }
    ensures { OnOk result (out.new.items ≡ out.old.items ++ table_version_update_notification_spelling m.now) }
{
    put_four(out, m.gate)?;
    put_four(out, m.table)?;
    put_eight(out, m.version)
}

/// Appends the message's body.
pub(crate) fn put_message(out: &mut Vec<u8>, message: &Message) -> Result<(), AllocError>
    requires { HasSpelling message.now }
    ensures { OnOk result (out.new.items ≡ out.old.items ++ body_spelling message.now) }
{
    match message {
        Message::RegisterDevice(m) => put_register_device(out, m),
        Message::CreateTable(m) => put_create_table(out, m),
        Message::DropTable(m) => put_drop_table(out, m),
        Message::SubscribeTable(m) => put_subscribe_table(out, m),
        Message::UnsubscribeTable(m) => put_unsubscribe_table(out, m),
        Message::Notify(m) => put_notify(out, m),
        Message::ObjectFragment(m) => put_object_fragment(out, m),
        Message::PullRequest(m) => put_pull_request(out, m),
        Message::PullResponse(m) => put_pull_response(out, m),
        Message::SyncRequest(m) => put_sync_request(out, m),
        Message::SyncResponse(m) => put_sync_response(out, m),
        Message::TornRowRequest(m) => put_torn_row_request(out, m),
        Message::TornRowResponse(m) => put_torn_row_response(out, m),
        Message::OperationResponse(m) => put_operation_response(out, m),
        Message::SaveClientSubscription(m) => put_save_client_subscription(out, m),
        Message::RestoreClientSubscriptions(m) => put_restore_client_subscriptions(out, m),
        Message::TableVersionUpdateNotification(m) => put_table_version_update_notification(out, m),
    }
}
