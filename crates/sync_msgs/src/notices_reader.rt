ghost use Rattle.std.specs.Prelude.{◌≡◌, ◌≤◌, length, drop, IfOk};
ghost use Rattle.value_codec.specs.Reading.{Gives};
ghost use Rattle.sync_msgs.specs.Reading.{subscribe_table_at, unsubscribe_table_at, notify_at};
ghost use Rattle.sync_msgs.specs.Reading.{save_client_subscription_at, restore_client_subscriptions_at};
ghost use Rattle.sync_msgs.specs.Reading.{table_version_update_notification_at};

use crate::field_reader::{take_client, take_period};
use crate::part_reader::take_subscriptions;
use std::alloc::Global;
use table_model::{
    Message, Notify, RestoreClientSubscriptions, SaveClientSubscription, SubscribeTable,
    TableVersionUpdateNotification, UnsubscribeTable,
};
use value_codec::{SpellFault, take_eight, take_flag, take_four};

#[tactic(auto, unfolding(crate::specs::Reading::subscribe_table_at))]
pub(crate) fn take_subscribe_table(bytes: &[u8], at: usize) -> Result<(Message, usize), SpellFault>
    requires { at ≤ length bytes.now }
    ensures value { Gives bytes.now (λ x. (x.0, drop x.1 bytes.now)) result (subscribe_table_at (drop at bytes.now)) }
    ensures within { IfOk result (λ x. x.1 ≤ length bytes.now) }
{
    let (client, behind) = take_client(bytes, at)?;
    let (token, behind) = take_eight(bytes, behind)?;
    let (table, behind) = take_four(bytes, behind)?;
    let (period, behind) = take_period(bytes, behind, true)?;
    let (tolerance, behind) = take_four(bytes, behind)?;
    let message = SubscribeTable {
        client,
        token,
        table,
        period,
        tolerance,
    };
    Ok((Message::SubscribeTable(message), behind))
}

#[tactic(auto, unfolding(crate::specs::Reading::unsubscribe_table_at))]
pub(crate) fn take_unsubscribe_table(
    bytes: &[u8],
    at: usize,
) -> Result<(Message, usize), SpellFault>
    requires { at ≤ length bytes.now }
    ensures value { Gives bytes.now (λ x. (x.0, drop x.1 bytes.now)) result (unsubscribe_table_at (drop at bytes.now)) }
    ensures within { IfOk result (λ x. x.1 ≤ length bytes.now) }
{
    let (client, behind) = take_client(bytes, at)?;
    let (token, behind) = take_eight(bytes, behind)?;
    let (table, behind) = take_four(bytes, behind)?;
    let message = UnsubscribeTable {
        client,
        token,
        table,
    };
    Ok((Message::UnsubscribeTable(message), behind))
}

#[tactic(auto, unfolding(crate::specs::Reading::notify_at))]
pub(crate) fn take_notify(bytes: &[u8], at: usize) -> Result<(Message, usize), SpellFault>
    requires { at ≤ length bytes.now }
    ensures value { Gives bytes.now (λ x. (x.0, drop x.1 bytes.now)) result (notify_at (drop at bytes.now)) }
    ensures within { IfOk result (λ x. x.1 ≤ length bytes.now) }
{
    let (client, behind) = take_client(bytes, at)?;
    let (bitmap, behind) = take_eight(bytes, behind)?;
    let message = Notify { client, bitmap };
    Ok((Message::Notify(message), behind))
}

#[tactic(auto, unfolding(crate::specs::Reading::save_client_subscription_at))]
pub(crate) fn take_save_client_subscription(
    bytes: &[u8],
    at: usize,
) -> Result<(Message, usize), SpellFault>
    requires { at ≤ length bytes.now }
    ensures value { Gives bytes.now (λ x. (x.0, drop x.1 bytes.now)) result
        (save_client_subscription_at (drop at bytes.now)) }
    ensures within { IfOk result (λ x. x.1 ≤ length bytes.now) }
{
    let (client, behind) = take_client(bytes, at)?;
    let (gate, behind) = take_four(bytes, behind)?;
    let (table, behind) = take_four(bytes, behind)?;
    let (on, behind) = take_flag(bytes, behind)?;
    let (period, behind) = take_period(bytes, behind, on)?;
    let (tolerance, behind) = take_four(bytes, behind)?;
    let message = SaveClientSubscription {
        client,
        gate,
        table,
        on,
        period,
        tolerance,
    };
    Ok((Message::SaveClientSubscription(message), behind))
}

#[tactic(auto, unfolding(crate::specs::Reading::restore_client_subscriptions_at))]
pub(crate) fn take_restore_client_subscriptions(
    alloc: Global,
    bytes: &[u8],
    at: usize,
) -> Result<(Message, usize), SpellFault>
    requires { at ≤ length bytes.now }
    ensures value { Gives bytes.now (λ x. (x.0, drop x.1 bytes.now)) result
        (restore_client_subscriptions_at (drop at bytes.now)) }
    ensures within { IfOk result (λ x. x.1 ≤ length bytes.now) }
{
    let (client, behind) = take_client(bytes, at)?;
    let (gate, behind) = take_four(bytes, behind)?;
    let (reply, behind) = take_flag(bytes, behind)?;
    let (subscriptions, behind) = take_subscriptions(alloc, bytes, behind)?;
    let message = RestoreClientSubscriptions {
        client,
        gate,
        reply,
        subscriptions,
    };
    Ok((Message::RestoreClientSubscriptions(message), behind))
}

#[tactic(auto, unfolding(crate::specs::Reading::table_version_update_notification_at))]
pub(crate) fn take_table_version_update_notification(
    bytes: &[u8],
    at: usize,
) -> Result<(Message, usize), SpellFault>
    requires { at ≤ length bytes.now }
    ensures value { Gives bytes.now (λ x. (x.0, drop x.1 bytes.now)) result
        (table_version_update_notification_at (drop at bytes.now)) }
    ensures within { IfOk result (λ x. x.1 ≤ length bytes.now) }
{
    let (gate, behind) = take_four(bytes, at)?;
    let (table, behind) = take_four(bytes, behind)?;
    let (version, behind) = take_eight(bytes, behind)?;
    let message = TableVersionUpdateNotification {
        gate,
        table,
        version,
    };
    Ok((Message::TableVersionUpdateNotification(message), behind))
}
