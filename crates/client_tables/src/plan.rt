ghost use Rattle.std.specs.Prelude.{◌≡◌, ℕ, IfOk, true, []};
ghost use Rattle.row_value.specs.declared.schema.Scheme.{Scheme};
ghost use Rattle.held_value.specs.declared.slots.Slots.{Slots};
ghost use Rattle.client_tables.specs.Change.{AreCountable};
ghost use Rattle.client_tables.specs.Drops.{names_in};
ghost use Rattle.client_tables.specs.Kept.{SlotEvent, slots_behind};
ghost use Rattle.client_tables.specs.Plan.{IsPlan, AreKnown, names_with};
ghost use Rattle.client_tables.specs.Transitions.{written, written_strong, can_send, sent, answered, taken, resolved};

use crate::change::Change;
use crate::drops::dropped;
use crate::header::take_header;
use crate::resolving::{HeldChoice, resolve};
use crate::response::take_response;
use crate::writes::{send, write, write_strong};
use held_value::{HeldContent, LocalNames, Shadow, Slots};
use row_value::{Pieces, Scheme};
use stab_base::{Bytes, Sequence, WriteNo};
use std::alloc::{AllocError, Global};
use table_model::{Outcome, Yours};

/// Chunks that a plan brings, by ordinal: a local name of plan 0 in the plan's slots stands for the one of its ordinal.
pub type BroughtChunks = Sequence<Bytes>;

/// What a plan carries out for a row.
#[derive(Debug, Drop)]
pub struct RowPlan {
    /// The slots behind it, what is told and what is sent.
    pub change: Change,
    /// The chunks that it brings; none where no slot changes.
    pub chunks: BroughtChunks,
    /// The chunks that no slot of the row names any more, by rising name.
    pub drops: LocalNames,
}

fn plan(
    alloc: Global,
    slots: &Slots,
    change: Change,
    chunks: BroughtChunks,
) -> Result<RowPlan, AllocError>
    ensures { IfOk result (IsPlan slots.now change chunks) }
{
    match &change.slots {
        None => Ok(RowPlan {
            change,
            chunks: Sequence::new(alloc),
            drops: dropped(alloc, slots, slots)?,
        }),
        Some(behind) => {
            let drops = dropped(alloc, slots, behind)?;
            Ok(RowPlan {
                change,
                chunks,
                drops,
            })
        }
    }
}

/// The plan of a write in a causal or an eventual table, with the chunks that its content brings.
pub fn plan_write(
    alloc: Global,
    slots: &Slots,
    number: WriteNo,
    content: HeldContent,
    chunks: BroughtChunks,
) -> Result<RowPlan, AllocError>
    ensures { IfOk result (IsPlan slots.now (written slots.now number content) chunks) }
{
    plan(alloc, slots, write(alloc, slots, number, content)?, chunks)
}

/// The plan of a write in a strong table, with the chunks that its content brings.
pub fn plan_write_strong(
    alloc: Global,
    slots: &Slots,
    number: WriteNo,
    content: HeldContent,
    pieces: Pieces,
    chunks: BroughtChunks,
) -> Result<RowPlan, AllocError>
    ensures { IfOk result (IsPlan slots.now (written_strong slots.now number content pieces) chunks) }
{
    plan(
        alloc,
        slots,
        write_strong(alloc, slots, number, content, pieces)?,
        chunks,
    )
}

/// The plan of a sending, which brings nothing.
pub fn plan_send(alloc: Global, slots: &Slots, pieces: Pieces) -> Result<RowPlan, AllocError>
    requires { can_send slots.now ≡ true }
    ensures { IfOk result (IsPlan slots.now (sent slots.now pieces) []) }
{
    plan(
        alloc,
        slots,
        send(alloc, slots, pieces)?,
        Sequence::new(alloc),
    )
}

/// The plan of an answer to a request, which brings nothing.
pub fn plan_response(
    alloc: Global,
    slots: &Slots,
    number: WriteNo,
    outcome: Outcome,
) -> Result<RowPlan, AllocError>
    requires { AreCountable slots.now }
    ensures { IfOk result (IsPlan slots.now (answered slots.now number outcome) []) }
{
    plan(
        alloc,
        slots,
        take_response(alloc, slots, number, outcome)?,
        Sequence::new(alloc),
    )
}

/// The plan of a row from the Store, with the chunks that it brings.
pub fn plan_header(
    alloc: Global,
    scheme: Scheme,
    slots: &Slots,
    yours: Yours,
    row: Shadow,
    chunks: BroughtChunks,
) -> Result<RowPlan, AllocError>
    ensures { IfOk result (IsPlan slots.now (taken scheme slots.now yours row) chunks) }
{
    plan(
        alloc,
        slots,
        take_header(alloc, scheme, slots, yours, row)?,
        chunks,
    )
}

/// The plan of a resolution, with the chunks that a new content brings.
pub fn plan_resolve(
    alloc: Global,
    slots: &Slots,
    number: WriteNo,
    choice: HeldChoice,
    chunks: BroughtChunks,
) -> Result<RowPlan, AllocError>
    ensures { IfOk result (IsPlan slots.now (resolved slots.now number choice) chunks) }
{
    plan(alloc, slots, resolve(alloc, slots, number, choice)?, chunks)
}

/// Each local name in the slots behind an event is one that the slots before it name, or one of the content that comes
/// with the event; so it is known where those of that content are. (Does nothing: its clause is a law.)
pub fn plans_name_known_chunks()
    ensures { (scheme : Scheme) (slots : Slots) (event : SlotEvent) (count : ℕ)
        → AreKnown slots count (names_with event) → AreKnown slots count (names_in (slots_behind scheme slots event)) }
{}
