//! A row that was asked for whole, with what has come of it.
ghost use Rattle.std.specs.Prelude.{◌≡◌, option_map, IfOk};
ghost use Rattle.step_tables.specs.Travels.{message_of, header_of};
ghost use Rattle.part_client.specs.Weighing.{whole_of, whole_answer, row_weighed_of, row_weighed, row_came};

use crate::gathered::Gathered;
use assemblies::Sent;
use stab_base::{ClientNo, RowId, TableNo, Version};
use std::alloc::{AllocError, Global};
use step_tables::Message;

/// Which row was asked for.
#[derive(Clone, Copy)]
pub(crate) struct RowAsked {
    pub(crate) client: ClientNo,
    pub(crate) table: TableNo,
    pub(crate) row: RowId,
}

/// A row that was asked for whole, with what has come of it.
#[derive(Drop)]
pub(crate) struct TornRow {
    pub(crate) head: RowAsked,
    pub(crate) came: Gathered,
}

/// What a row that was asked for whole comes to.
#[derive(Drop)]
pub(crate) enum RowWeighed {
    Whole(Message),
    Waits(TornRow),
}

/// The answer with this header.
pub(crate) fn answer(head: RowAsked, header: Option<step_tables::RowHeader>) -> Message
    ensures { message_of result ≡ whole_answer head (option_map header_of header) }
{
    Message::TornRowResponse(step_tables::TornRowResponse {
        client: head.client,
        table: head.table,
        row: head.row,
        header,
    })
}

// A row whose bytes matter: it is complete, or waits.
fn weigh_came(alloc: Global, x: TornRow) -> Result<RowWeighed, AllocError>
    ensures { IfOk result (λ weighed. row_weighed_of weighed ≡ row_came (whole_of x)) }
{
    if !x.came.is_whole() {
        return Ok(RowWeighed::Waits(x));
    }
    let TornRow { head, came } = x;
    let header = came.joined_header(alloc, &[], Sent::All)?;
    Ok(RowWeighed::Whole(answer(head, Some(header))))
}

/// What a row that was asked for whole comes to, where the client has read this version of it.
pub(crate) fn weigh(alloc: Global, read: Version, x: TornRow) -> Result<RowWeighed, AllocError>
    ensures { IfOk result (λ weighed. row_weighed_of weighed ≡ row_weighed read (whole_of x)) }
{
    if x.came.version() <= read {
        let header = x.came.sized_header(alloc)?;
        return Ok(RowWeighed::Whole(answer(x.head, Some(header))));
    }
    weigh_came(alloc, x)
}
