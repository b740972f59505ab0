//! An answer to a pull, with what has come of its row.
ghost use Rattle.std.specs.Prelude.{◌≡◌, ◌<◌, IfOk};
ghost use Rattle.assemblies.specs.Places.{has_places};
ghost use Rattle.step_tables.specs.Travels.{message_of, header_of};
ghost use Rattle.part_client.specs.Weighing.{answering_of, pull_answer, weighed_of, pull_weighed, came_weighed};

use crate::gathered::Gathered;
use crate::held::RowHeld;
use assemblies::Sent;
use stab_base::{ClientNo, RowId, TableNo, Version};
use std::alloc::{AllocError, Global};
use step_tables::Message;

/// What an answer to a pull says beside its row.
#[derive(Clone, Copy)]
pub(crate) struct PullHead {
    pub(crate) client: ClientNo,
    pub(crate) table: TableNo,
    pub(crate) from: Version,
    pub(crate) to: Version,
    pub(crate) latest: Version,
}

/// An answer to a pull, with what has come of its row.
#[derive(Drop)]
pub(crate) struct Pulling {
    pub(crate) head: PullHead,
    pub(crate) came: Gathered,
}

/// What an answer to a pull comes to.
#[derive(Drop)]
pub(crate) enum Weighed {
    Whole(Message),
    Tears(RowId),
    Waits(Pulling),
}

fn answer(head: PullHead, header: step_tables::RowHeader) -> Message
    ensures { message_of result ≡ pull_answer head (header_of header) }
{
    Message::PullResponse(step_tables::PullResponse {
        client: head.client,
        table: head.table,
        from: head.from,
        to: head.to,
        latest: head.latest,
        header: Some(header),
    })
}

// An answer whose bytes matter, and that keeps only what is held: it is complete, or waits.
fn weigh_came(alloc: Global, held: &RowHeld, x: Pulling) -> Result<Weighed, AllocError>
    ensures { IfOk result (λ weighed. weighed_of weighed ≡ came_weighed held.now.held.items (answering_of x)) }
{
    if !x.came.is_whole() {
        return Ok(Weighed::Waits(x));
    }
    let Pulling { head, came } = x;
    let header = came.joined_header(alloc, held.held.as_slice(), Sent::Above(head.from))?;
    Ok(Weighed::Whole(answer(head, header)))
}

/// What an answer to a pull comes to by what is held of its row.
pub(crate) fn weigh(alloc: Global, held: &RowHeld, x: Pulling) -> Result<Weighed, AllocError>
    requires { 0 < held.now.chunk }
    ensures { IfOk result (λ weighed. weighed_of weighed
        ≡ pull_weighed held.now.chunk held.now.read held.now.held.items (answering_of x)) }
{
    if x.came.version() <= held.read {
        let header = x.came.sized_header(alloc)?;
        return Ok(Weighed::Whole(answer(x.head, header)));
    }
    let sent = Sent::Above(x.head.from);
    if !x
        .came
        .has_held(alloc, held.held.as_slice(), sent, held.chunk)?
    {
        return Ok(Weighed::Tears(x.came.row()));
    }
    weigh_came(alloc, held, x)
}
