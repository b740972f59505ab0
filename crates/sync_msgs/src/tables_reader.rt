ghost use Rattle.std.specs.Prelude.{◌≡◌, ◌≤◌, length, drop, IfOk};
ghost use Rattle.value_codec.specs.Reading.{Gives};
ghost use Rattle.sync_msgs.specs.Reading.{register_device_at, create_table_at, drop_table_at, operation_response_at};

use crate::field_reader::take_client;
use crate::part_reader::{has_schema, take_schema_if};
use std::alloc::Global;
use table_model::{CreateTable, DropTable, Message, OperationResponse, RegisterDevice};
use value_codec::{SpellFault, take_byte, take_eight, take_four, take_schema};

#[tactic(auto, unfolding(crate::specs::Reading::register_device_at))]
pub(crate) fn take_register_device(bytes: &[u8], at: usize) -> Result<(Message, usize), SpellFault>
    requires { at ≤ length bytes.now }
    ensures value { Gives bytes.now (λ x. (x.0, drop x.1 bytes.now)) result (register_device_at (drop at bytes.now)) }
    ensures within { IfOk result (λ x. x.1 ≤ length bytes.now) }
{
    let (client, behind) = take_client(bytes, at)?;
    let message = RegisterDevice { client };
    Ok((Message::RegisterDevice(message), behind))
}

#[tactic(auto, unfolding(crate::specs::Reading::create_table_at))]
pub(crate) fn take_create_table(
    alloc: Global,
    bytes: &[u8],
    at: usize,
) -> Result<(Message, usize), SpellFault>
    requires { at ≤ length bytes.now }
    ensures value { Gives bytes.now (λ x. (x.0, drop x.1 bytes.now)) result (create_table_at (drop at bytes.now)) }
    ensures within { IfOk result (λ x. x.1 ≤ length bytes.now) }
{
    let (client, behind) = take_client(bytes, at)?;
    let (token, behind) = take_eight(bytes, behind)?;
    let (table, behind) = take_four(bytes, behind)?;
    let (schema, behind) = take_schema(alloc, bytes, behind)?;
    let message = CreateTable {
        client,
        token,
        table,
        schema,
    };
    Ok((Message::CreateTable(message), behind))
}

#[tactic(auto, unfolding(crate::specs::Reading::drop_table_at))]
pub(crate) fn take_drop_table(bytes: &[u8], at: usize) -> Result<(Message, usize), SpellFault>
    requires { at ≤ length bytes.now }
    ensures value { Gives bytes.now (λ x. (x.0, drop x.1 bytes.now)) result (drop_table_at (drop at bytes.now)) }
    ensures within { IfOk result (λ x. x.1 ≤ length bytes.now) }
{
    let (client, behind) = take_client(bytes, at)?;
    let (token, behind) = take_eight(bytes, behind)?;
    let (table, behind) = take_four(bytes, behind)?;
    let message = DropTable {
        client,
        token,
        table,
    };
    Ok((Message::DropTable(message), behind))
}

#[tactic(auto, unfolding(crate::specs::Reading::operation_response_at))]
pub(crate) fn take_operation_response(
    alloc: Global,
    bytes: &[u8],
    at: usize,
) -> Result<(Message, usize), SpellFault>
    requires { at ≤ length bytes.now }
    ensures value { Gives bytes.now (λ x. (x.0, drop x.1 bytes.now)) result
        (operation_response_at (drop at bytes.now)) }
    ensures within { IfOk result (λ x. x.1 ≤ length bytes.now) }
{
    let (client, behind) = take_client(bytes, at)?;
    let (table, behind) = take_four(bytes, behind)?;
    let (answered, behind) = take_byte(bytes, behind)?;
    let (status, behind) = take_four(bytes, behind)?;
    let (token, behind) = take_eight(bytes, behind)?;
    let (schema, behind) = take_schema_if(alloc, bytes, behind, has_schema(answered, status))?;
    let message = OperationResponse {
        client,
        table,
        answered,
        status,
        token,
        schema,
    };
    Ok((Message::OperationResponse(message), behind))
}
