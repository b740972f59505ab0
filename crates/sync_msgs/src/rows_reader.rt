ghost use Rattle.std.specs.Prelude.{◌≡◌, ◌≤◌, length, drop, IfOk};
ghost use Rattle.value_codec.specs.Reading.{Gives};
ghost use Rattle.sync_msgs.specs.Reading.{object_fragment_at, sync_request_at, sync_response_at};

use crate::field_reader::{take_chunk, take_client};
use crate::part_reader::take_outcome;
use std::alloc::Global;
use table_model::{Message, ObjectFragment, SyncRequest, SyncResponse};
use value_codec::{SpellFault, take_content, take_eight, take_flag, take_four, take_id};

#[tactic(auto, unfolding(crate::specs::Reading::object_fragment_at))]
pub(crate) fn take_object_fragment(
    alloc: Global,
    bytes: &[u8],
    at: usize,
) -> Result<(Message, usize), SpellFault>
    requires { at ≤ length bytes.now }
    ensures value { Gives bytes.now (λ x. (x.0, drop x.1 bytes.now)) result (object_fragment_at (drop at bytes.now)) }
    ensures within { IfOk result (λ x. x.1 ≤ length bytes.now) }
{
    let (client, behind) = take_client(bytes, at)?;
    let (token, behind) = take_eight(bytes, behind)?;
    let (table, behind) = take_four(bytes, behind)?;
    let (row, behind) = take_id(bytes, behind)?;
    let (down, behind) = take_flag(bytes, behind)?;
    let (key, behind) = take_eight(bytes, behind)?;
    let (column, behind) = take_four(bytes, behind)?;
    let (place, behind) = take_four(bytes, behind)?;
    let (bytes, behind) = take_chunk(alloc, bytes, behind)?;
    let message = ObjectFragment {
        client,
        token,
        table,
        row,
        down,
        key,
        column,
        place,
        bytes,
    };
    Ok((Message::ObjectFragment(message), behind))
}

#[tactic(auto, unfolding(crate::specs::Reading::sync_request_at))]
pub(crate) fn take_sync_request(
    alloc: Global,
    bytes: &[u8],
    at: usize,
) -> Result<(Message, usize), SpellFault>
    requires { at ≤ length bytes.now }
    ensures value { Gives bytes.now (λ x. (x.0, drop x.1 bytes.now)) result (sync_request_at (drop at bytes.now)) }
    ensures within { IfOk result (λ x. x.1 ≤ length bytes.now) }
{
    let (client, behind) = take_client(bytes, at)?;
    let (token, behind) = take_eight(bytes, behind)?;
    let (table, behind) = take_four(bytes, behind)?;
    let (row, behind) = take_id(bytes, behind)?;
    let (number, behind) = take_eight(bytes, behind)?;
    let (base, behind) = take_eight(bytes, behind)?;
    let (content, behind) = take_content(alloc, bytes, behind)?;
    let message = SyncRequest {
        client,
        token,
        table,
        row,
        number,
        base,
        content,
    };
    Ok((Message::SyncRequest(message), behind))
}

#[tactic(auto, unfolding(crate::specs::Reading::sync_response_at))]
pub(crate) fn take_sync_response(bytes: &[u8], at: usize) -> Result<(Message, usize), SpellFault>
    requires { at ≤ length bytes.now }
    ensures value { Gives bytes.now (λ x. (x.0, drop x.1 bytes.now)) result (sync_response_at (drop at bytes.now)) }
    ensures within { IfOk result (λ x. x.1 ≤ length bytes.now) }
{
    let (client, behind) = take_client(bytes, at)?;
    let (table, behind) = take_four(bytes, behind)?;
    let (row, behind) = take_id(bytes, behind)?;
    let (number, behind) = take_eight(bytes, behind)?;
    let (outcome, behind) = take_outcome(bytes, behind)?;
    let message = SyncResponse {
        client,
        table,
        row,
        number,
        outcome,
    };
    Ok((Message::SyncResponse(message), behind))
}
