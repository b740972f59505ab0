ghost use Rattle.std.specs.Prelude.{◌≡◌, ◌≤◌, length, drop, IfOk};
ghost use Rattle.value_codec.specs.Reading.{Gives};
ghost use Rattle.sync_msgs.specs.Reading.{pull_request_at, pull_response_at, torn_row_request_at, torn_row_response_at};

use crate::field_reader::take_client;
use crate::part_reader::take_header_option;
use std::alloc::Global;
use table_model::{Message, PullRequest, PullResponse, TornRowRequest, TornRowResponse};
use value_codec::{SpellFault, take_eight, take_four, take_id};

#[tactic(auto, unfolding(crate::specs::Reading::pull_request_at))]
pub(crate) fn take_pull_request(bytes: &[u8], at: usize) -> Result<(Message, usize), SpellFault>
    requires { at ≤ length bytes.now }
    ensures value { Gives bytes.now (λ x. (x.0, drop x.1 bytes.now)) result (pull_request_at (drop at bytes.now)) }
    ensures within { IfOk result (λ x. x.1 ≤ length bytes.now) }
{
    let (client, behind) = take_client(bytes, at)?;
    let (token, behind) = take_eight(bytes, behind)?;
    let (table, behind) = take_four(bytes, behind)?;
    let (position, behind) = take_eight(bytes, behind)?;
    let message = PullRequest {
        client,
        token,
        table,
        position,
    };
    Ok((Message::PullRequest(message), behind))
}

#[tactic(auto, unfolding(crate::specs::Reading::pull_response_at))]
pub(crate) fn take_pull_response(
    alloc: Global,
    bytes: &[u8],
    at: usize,
) -> Result<(Message, usize), SpellFault>
    requires { at ≤ length bytes.now }
    ensures value { Gives bytes.now (λ x. (x.0, drop x.1 bytes.now)) result (pull_response_at (drop at bytes.now)) }
    ensures within { IfOk result (λ x. x.1 ≤ length bytes.now) }
{
    let (client, behind) = take_client(bytes, at)?;
    let (table, behind) = take_four(bytes, behind)?;
    let (from, behind) = take_eight(bytes, behind)?;
    let (to, behind) = take_eight(bytes, behind)?;
    let (latest, behind) = take_eight(bytes, behind)?;
    let (header, behind) = take_header_option(alloc, bytes, behind)?;
    let message = PullResponse {
        client,
        table,
        from,
        to,
        latest,
        header,
    };
    Ok((Message::PullResponse(message), behind))
}

#[tactic(auto, unfolding(crate::specs::Reading::torn_row_request_at))]
pub(crate) fn take_torn_row_request(bytes: &[u8], at: usize) -> Result<(Message, usize), SpellFault>
    requires { at ≤ length bytes.now }
    ensures value { Gives bytes.now (λ x. (x.0, drop x.1 bytes.now)) result (torn_row_request_at (drop at bytes.now)) }
    ensures within { IfOk result (λ x. x.1 ≤ length bytes.now) }
{
    let (client, behind) = take_client(bytes, at)?;
    let (token, behind) = take_eight(bytes, behind)?;
    let (table, behind) = take_four(bytes, behind)?;
    let (row, behind) = take_id(bytes, behind)?;
    let message = TornRowRequest {
        client,
        token,
        table,
        row,
    };
    Ok((Message::TornRowRequest(message), behind))
}

#[tactic(auto, unfolding(crate::specs::Reading::torn_row_response_at))]
pub(crate) fn take_torn_row_response(
    alloc: Global,
    bytes: &[u8],
    at: usize,
) -> Result<(Message, usize), SpellFault>
    requires { at ≤ length bytes.now }
    ensures value { Gives bytes.now (λ x. (x.0, drop x.1 bytes.now)) result (torn_row_response_at (drop at bytes.now)) }
    ensures within { IfOk result (λ x. x.1 ≤ length bytes.now) }
{
    let (client, behind) = take_client(bytes, at)?;
    let (table, behind) = take_four(bytes, behind)?;
    let (row, behind) = take_id(bytes, behind)?;
    let (header, behind) = take_header_option(alloc, bytes, behind)?;
    let message = TornRowResponse {
        client,
        table,
        row,
        header,
    };
    Ok((Message::TornRowResponse(message), behind))
}
