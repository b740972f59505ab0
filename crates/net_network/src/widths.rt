//! The widths of a message's numbers, as the types of the program say them.
ghost use Rattle.std.specs.Prelude.{◌<◌, ◌^◌};
ghost use Rattle.message_frames.specs.Frames.{HasFrame};
ghost use Rattle.net_network.specs.Short.{IsShort, HasWidths};

use table_model::{CreateTable, DropTable, Message, OperationResponse, RestoreClientSubscriptions};

fn know_create(m: &CreateTable)
    ensures { (m.now.token < 2 ^ 64) × (m.now.table < 2 ^ 32) }
{
    let _token: u64 = m.token;
    let _table: u32 = m.table;
}

fn know_drop(m: &DropTable)
    ensures { (m.now.token < 2 ^ 64) × (m.now.table < 2 ^ 32) }
{
    let _token: u64 = m.token;
    let _table: u32 = m.table;
}

fn know_response(m: &OperationResponse)
    ensures { (m.now.table < 2 ^ 32) × (m.now.answered < 256) × (m.now.status < 2 ^ 32) × (m.now.token < 2 ^ 64) }
{
    let _table: u32 = m.table;
    let _answered: u8 = m.answered;
    let _status: u32 = m.status;
    let _token: u64 = m.token;
}

fn know_restoring(m: &RestoreClientSubscriptions)
    ensures { m.now.gate < 2 ^ 32 }
{
    let _gate: u32 = m.gate;
}

fn know_widths(message: &Message)
    ensures { HasWidths message.now }
{
    match message {
        Message::CreateTable(m) => know_create(m),
        Message::DropTable(m) => know_drop(m),
        Message::OperationResponse(m) => know_response(m),
        Message::RestoreClientSubscriptions(m) => know_restoring(m),
        _ => {}
    }
}

/// Tells that a message without a list, whose schema is short, has a frame. (Does nothing.)
pub fn know_frame(message: &Message)
    ensures { IsShort message.now → HasFrame message.now }
{
    know_widths(message);
}
