//! What is to be noted of a payload.
ghost use Rattle.std.specs.Prelude.{◌≡◌, IfOk};
ghost use Rattle.plan_log.specs.Memory.{Says};

use crate::plan::Intend;
use crate::reader::{commit_in, done_in, intend_in};
use std::alloc::{AllocError, Global};
use value_codec::SpellFault;

/// What a payload does.
#[derive(Clone, Copy)]
pub enum Change {
    /// A plan is about to bring chunks.
    Intend(Intend),
    /// The plan of this number is committed, and stands in this payload.
    Commit(u64),
    /// The plan of this number is done.
    Done(u64),
    /// The payload is passed over.
    Nothing,
}

/// What this payload does.
#[tactic(auto, unfolding(crate::specs::Reading::said_by))]
pub(crate) fn change_in(alloc: Global, payload: &[u8]) -> Result<Change, AllocError>
    ensures { IfOk result (Says payload.now) }
{
    match intend_in(payload) {
        Ok(intend) => return Ok(Change::Intend(intend)),
        Err(SpellFault::Memory) => return Err(AllocError),
        Err(SpellFault::Bad { .. }) => {}
    }
    match commit_in(alloc, payload) {
        Ok(commit) => return Ok(Change::Commit(commit.plan)),
        Err(SpellFault::Memory) => return Err(AllocError),
        Err(SpellFault::Bad { .. }) => {}
    }
    match done_in(payload) {
        Ok(plan) => Ok(Change::Done(plan)),
        Err(SpellFault::Memory) => Err(AllocError),
        Err(SpellFault::Bad { .. }) => Ok(Change::Nothing),
    }
}
