ghost use Rattle.std.specs.Prelude.{◌≡◌, ◌↔◌, IsTrue, IfOk};
ghost use Rattle.client_tables.specs.Transitions.{without, accepted, refused, sent_whole, by_outcome, answered};
ghost use Rattle.client_tables.specs.Change.{IsCountable, AreCountable};

use crate::change::{Change, Sending, one_tell, unchanged};
use crate::names::{all_fresh, named};
use held_value::{Main, Out, Shadow, Slots, Tell, copy_main, copy_shadow};
use stab_base::{Sequence, Version, WriteNo};
use std::alloc::{AllocError, Global};
use table_model::Outcome;

/// The last write, without the one of this number.
pub(crate) fn without(number: WriteNo, main: &Option<Main>) -> Result<Option<Main>, AllocError>
    ensures { IfOk result (λ kept. kept ≡ without number main.now) }
{
    match main {
        Some(main) if main.number != number => Ok(Some(main.copy()?)),
        _ => Ok(None),
    }
}

fn accepted(alloc: Global, slots: &Slots, out: &Out, version: Version) -> Result<Change, AllocError>
    ensures { IfOk result (λ change. change ≡ accepted slots.now out.now version) }
{
    Ok(Change {
        slots: Some(Slots {
            main: without(out.number, &slots.main)?,
            shadow: Some(Shadow {
                version,
                content: named(alloc, version, out.pieces.as_slice(), &out.content)?,
            }),
            out: None,
            conflict: copy_shadow(&slots.conflict)?,
        }),
        tells: one_tell(
            alloc,
            Tell::Acked {
                number: out.number,
                version,
            },
        )?,
        sends: Sending::Nothing,
    })
}

fn refused(alloc: Global, slots: &Slots, out: &Out, latest: Version) -> Result<Change, AllocError>
    ensures { IfOk result (λ change. change ≡ refused slots.now out.now latest) }
{
    Ok(Change {
        slots: Some(Slots {
            main: copy_main(&slots.main)?,
            shadow: copy_shadow(&slots.shadow)?,
            out: None,
            conflict: copy_shadow(&slots.conflict)?,
        }),
        tells: one_tell(
            alloc,
            Tell::Refused {
                number: out.number,
                latest,
            },
        )?,
        sends: Sending::Pull,
    })
}

fn sent_whole(alloc: Global, slots: &Slots, out: &Out) -> Result<Change, AllocError>
    requires { IsCountable out.now }
    ensures { IfOk result (λ change. change ≡ sent_whole slots.now out.now) }
{
    if out.whole {
        return Ok(unchanged(alloc, Sending::Nothing));
    }
    Ok(Change {
        slots: Some(Slots {
            main: copy_main(&slots.main)?,
            shadow: copy_shadow(&slots.shadow)?,
            out: Some(Out {
                number: out.number,
                read: out.read,
                base: out.base,
                whole: true,
                content: out.content.copy()?,
                pieces: all_fresh(alloc, out.pieces.as_slice())?,
            }),
            conflict: copy_shadow(&slots.conflict)?,
        }),
        tells: Sequence::new(alloc),
        sends: Sending::Request,
    })
}

fn by_outcome(
    alloc: Global,
    slots: &Slots,
    out: &Out,
    outcome: Outcome,
) -> Result<Change, AllocError>
    requires { IsCountable out.now }
    ensures { IfOk result (λ change. change ≡ by_outcome slots.now out.now outcome) }
{
    match outcome {
        Outcome::Accepted { version } => accepted(alloc, slots, out, version),
        Outcome::Again { version } => accepted(alloc, slots, out, version),
        Outcome::Late { last: _ } => Ok(unchanged(alloc, Sending::Nothing)),
        Outcome::Stale { latest } => refused(alloc, slots, out, latest),
        Outcome::Conflict { latest: _ } => Ok(unchanged(alloc, Sending::Pull)),
        Outcome::NeedWhole => sent_whole(alloc, slots, out),
    }
}

/// Whether the chunks of the write that waits, if there is one, can be numbered: a row has far fewer than 2^32.
pub fn is_countable(slots: &Slots) -> bool
    ensures { IsTrue result ↔ AreCountable slots.now }
{
    match &slots.out {
        None => true,
        Some(out) => out.pieces.len() < 1 << 32,
    }
}

/// The Store answers the request of the write of this number. An answer to another write than the one that waits
/// changes nothing.
pub fn take_response(
    alloc: Global,
    slots: &Slots,
    number: WriteNo,
    outcome: Outcome,
) -> Result<Change, AllocError>
    requires { AreCountable slots.now }
    ensures { IfOk result (λ change. change ≡ answered slots.now number outcome) }
{
    match &slots.out {
        Some(out) if out.number == number => by_outcome(alloc, slots, out, outcome),
        _ => Ok(unchanged(alloc, Sending::Nothing)),
    }
}
