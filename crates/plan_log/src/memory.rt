//! What a journal keeps in memory.
ghost use Rattle.std.specs.Prelude.{◌≡◌};
ghost use Rattle.plan_log.specs.Memory.{is_intended_work, is_committed_work};

use crate::change::{Change, change_in};
use crate::plan::Intend;
use std::alloc::{AllocError, Global};
use vault::Fold;

/// The plan at work.
#[derive(Clone, Copy)]
pub enum Work {
    /// None is.
    Idle,
    /// It is about to bring chunks.
    Intended(Intend),
    /// It is committed, and its commit stands in the payload of this index.
    Committed(u64),
}

/// The greatest number of a plan, 0 where there is none, and the plan at work.
#[derive(Drop)]
pub struct PlanMemory {
    pub(crate) greatest: u64,
    pub(crate) work: Work,
}

pub(crate) fn is_intended(work: &Work) -> bool
    ensures { result ≡ is_intended_work work.now }
{
    match work {
        Work::Intended(_) => true,
        Work::Idle | Work::Committed(_) => false,
    }
}

pub(crate) fn is_committed(work: &Work) -> bool
    ensures { result ≡ is_committed_work work.now }
{
    match work {
        Work::Committed(_) => true,
        Work::Idle | Work::Intended(_) => false,
    }
}

impl PlanMemory {
    ghost use Rattle.std.specs.Prelude.{◌≡◌};
    ghost use Rattle.plan_log.specs.Memory.{memory_takes_commit, memory_takes_done};
    ghost use Rattle.plan_log.specs.Memory.{keeping_intend, keeping_commit, keeping_done};

    // A plan is about to bring chunks.
    fn intend(&mut self, intend: Intend)
        ensures { self.new ≡ keeping_intend self.old intend }
    {
        if self.greatest < intend.plan {
            self.greatest = intend.plan;
            self.work = Work::Intended(intend);
        }
    }

    /// Whether a commit of this plan counts.
    pub(crate) fn takes_commit(&self, plan: u64) -> bool
        ensures { result ≡ memory_takes_commit self.now plan }
    {
        self.greatest < plan || (plan == self.greatest && is_intended(&self.work))
    }

    // A plan is committed.
    fn commit(&mut self, plan: u64, index: u64)
        ensures { self.new ≡ keeping_commit self.old plan index }
    {
        if self.takes_commit(plan) {
            self.greatest = plan;
            self.work = Work::Committed(index);
        }
    }

    // Whether the end of this plan counts.
    fn takes_done(&self, plan: u64) -> bool
        ensures { result ≡ memory_takes_done self.now plan }
    {
        plan == self.greatest && is_committed(&self.work)
    }

    // A plan is done.
    fn done(&mut self, plan: u64)
        ensures { self.new ≡ keeping_done self.old plan }
    {
        if self.takes_done(plan) {
            self.work = Work::Idle;
        }
    }
}

impl Fold for PlanMemory {
    type Change = Change;

    ghost use Rattle.plan_log.specs.Memory.{Fits, HasSpare, Says};

    ghost fits = { Fits };

    ghost has_spare = { HasSpare };

    ghost says = { Says };

    #[tactic(auto, unfolding(crate::specs::Journal::journal_of))]
    fn start(_alloc: Global) -> Self {
        PlanMemory {
            greatest: 0,
            work: Work::Idle,
        }
    }

    fn reserve(&mut self, _payloads: u64, _bytes: u64) -> Result<(), AllocError> {
        Ok(())
    }

    fn read(alloc: Global, payload: &[u8]) -> Result<Change, AllocError> {
        change_in(alloc, payload)
    }

    fn note(&mut self, change: Change, _payload: &[u8], index: u64) -> Result<(), AllocError> {
        match change {
            Change::Intend(intend) => self.intend(intend),
            Change::Commit(plan) => self.commit(plan, index),
            Change::Done(plan) => self.done(plan),
            Change::Nothing => {}
        }
        Ok(())
    }
}
