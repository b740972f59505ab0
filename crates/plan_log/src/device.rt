//! The journal: what its calls promise of the plan at work.
ghost use Rattle.std.specs.Prelude.{◌≡◌, ◌*◌, ◌<◌, ◌≤◌, false, ℕ, List, length, None, Some, OnOk, IfOk, IsTrue, Ok};
ghost use Rattle.std.specs.Prelude.{IsSome, option_map};
ghost use Rattle.std.specs.Bool.{MatchBool};
ghost use Rattle.disk_trait.specs.Calls.{Elapses};
ghost use Rattle.vault.specs.Limit.{payload_most};
ghost use Rattle.vault.specs.Standing.{gets, one_more, disk_of, IsDown, IsUp, IsSynced, IsRestarted};
ghost use Rattle.stab_base.specs.declared.limits.TheConstants.{NUMBER_MAX};
ghost use Rattle.plan_log.specs.Spelling.{HasIntend, HasCommit, commit_payload};
ghost use Rattle.plan_log.specs.declared.plan.Commit.{Commit};
ghost use Rattle.plan_log.specs.Reading.{commit_in};
ghost use Rattle.plan_log.specs.Journal.{Committed, is_idle, intend_of, committed_plan, intended, committed, rested};
ghost use Rattle.plan_log.specs.Journal.{with_intend, takes_commit, with_commit, with_done, may_intend};
ghost use Rattle.plan_log.specs.Memory.{is_committed_work};
ghost use Rattle.plan_log.specs.declared.memory.Work.TheVariants as works;
ghost use Rattle.plan_log.specs.Standing.{vault_of, held, IsLookedAt, IsOpened, HasRoom, Formats, Looks, Restarts};
ghost use Rattle.plan_log.specs.Standing.{OpensWrite, Reserves, Puts, Gets};

use crate::change::Change;
use crate::fault::{PlanFault, told};
use crate::memory::{PlanMemory, Work, is_committed};
use crate::plan::{Commit, Intend};
use crate::reader::commit_in;
use crate::writer::{write_commit, write_done, write_intend};
use disk_trait::Disk;
use std::alloc::{AllocError, Global};
use value_codec::SpellFault;
use vault::Folded;

/// The plan at work, if one is, on a disk of its own.
///
/// A plan is what a client does to its devices as one. On the disk stands a vault, each payload of which is an intend,
/// a commit or the end of a plan. Numbers are big-endian. An intend is byte 1, plan (8 bytes), table (4), row (16), a
/// byte that says whether the chunks come from the Store (1) or not (0), and how many chunks the plan brings (4). A
/// commit is byte 2, plan (8), the number of the client's last write (8), table (4), an option of the row (16) and its
/// slots, an option of the table's position (8), an option of the table's state (1 opened, 2 closed) and schema, the
/// list of the local names that are dropped, and the list of what the plan tells. An end is byte 3 and the plan (8).
///
/// The plan of the greatest number alone counts. An intend or a commit of a greater number stands in place of what was
/// at work; a commit of the greatest number stands where an intend was at work; the end of the greatest plan counts
/// where it is committed. Other payloads are passed over, and so are those whose plan is 0 or above `NUMBER_MAX`, whose
/// last write is above it, or whose table isn't from 1 to 64.
///
/// After a fault of the disk a journal is down: each call answers `Down`, until the disk has been restarted and looked
/// at again.
#[derive(Drop)]
pub struct PlanLog<D: Disk> {
    pub(crate) inner: Folded<D, PlanMemory>,
    alloc: Global,
}

// The commit that stands in a payload.
fn committed_in(alloc: Global, payload: &[u8]) -> Result<Commit, AllocError>
    requires { (commit : Commit) × (commit_in payload.now ≡ Ok commit) }
    ensures commit { IfOk result (λ commit. commit_in payload.now ≡ Ok commit) }
    ensures spelled { IfOk result HasCommit }
    ensures same { IfOk result (λ commit. commit_payload commit ≡ payload.now) }
{
    match commit_in(alloc, payload) {
        Ok(commit) => Ok(commit),
        Err(SpellFault::Bad { .. }) => unreachable!(),
        Err(SpellFault::Memory) => Err(AllocError),
    }
}

// The index of the payload in which the commit at work stands.
fn index_of(work: &Work) -> u64
    requires { IsTrue (is_committed_work work.now) }
    ensures { work.now ≡ works.Committed result }
{
    match work {
        Work::Committed(index) => *index,
        Work::Idle | Work::Intended(_) => unreachable!(),
    }
}

impl<D: Disk + Drop> PlanLog<D> {
    /// A journal that hasn't been looked at.
    pub fn new(alloc: Global, disk: D) -> PlanLog<D>
        ensures disk { disk_of (vault_of result) ≡ disk }
        ensures up { IsUp (vault_of result) }
    {
        PlanLog {
            inner: Folded::new(alloc, disk),
            alloc,
        }
    }

    pub fn into_disk(self) -> D
        ensures { result ≡ disk_of (vault_of self) }
    {
        let PlanLog { inner, .. } = self;
        inner.into_disk()
    }

    /// Whether the disk has failed, and has not been restarted since.
    pub fn is_down(&self) -> bool
        ensures { MatchBool result (IsDown (vault_of self.now)) (IsUp (vault_of self.now)) }
    {
        self.inner.is_down()
    }

    /// Makes the disk that of no plan. The journal is then ready for puts.
    pub fn format(&mut self) -> Result<(), PlanFault>
        ensures { Formats D.state D.images self.old self.new result }
    {
        told(self.inner.format())
    }

    /// Finds the plan at work on the disk, whatever its bytes are. It reads each payload once and writes nothing. The
    /// journal is then not ready for puts.
    pub fn look(&mut self) -> Result<(), PlanFault>
        requires synced { IsSynced D.state (vault_of self.old) }
        ensures { Looks D.state D.images self.old self.new result }
    {
        told(self.inner.look())
    }

    /// Crashes the disk and starts it again. What the journal holds is known once it is looked at.
    pub fn restart(&mut self, pick: u64)
        ensures restarts { Restarts D.state D.images self.old self.new }
        ensures image { IsRestarted D.state (vault_of self.old) (vault_of self.new) }
        ensures time { Elapses (D.state (disk_of (vault_of self.old))) (D.state (disk_of (vault_of self.new)))
            (D.images (disk_of (vault_of self.old))) (D.images (disk_of (vault_of self.new))) }
    {
        self.inner.restart(pick);
    }

    /// Takes away what a put has left that was cut short, and makes the journal ready for puts.
    pub fn open_write(&mut self) -> Result<(), PlanFault>
        requires ready { IsUp (vault_of self.old) → IsLookedAt D.state self.old }
        requires room { IsUp (vault_of self.old) → HasRoom D.state self.old 1 0 0 }
        ensures { OpensWrite D.state D.images self.old self.new result }
    {
        told(self.inner.open_write())
    }

    /// Makes room for so many puts, whose payloads have so many bytes in all, and for one opening: they take no memory.
    /// An intend's payload is 34 bytes, an end's is 9, and `commit_size` tells a commit's.
    pub fn reserve(&mut self, puts: u64, bytes: u64) -> Result<(), PlanFault>
        requires ready { IsUp (vault_of self.old) → IsLookedAt D.state self.old }
        requires puts { puts ≤ 16777216 }
        requires bytes { bytes ≤ 8388608 * puts }
        ensures { Reserves D.state D.images puts bytes self.old self.new result }
    {
        told(self.inner.reserve(puts, bytes))
    }

    /// Puts an intend of a new plan. It is on the disk before `Ok`.
    pub fn intend(&mut self, intend: &Intend) -> Result<(), PlanFault>
        requires ready { IsUp (vault_of self.old) → IsOpened D.state self.old }
        requires spelled { HasIntend intend.now }
        requires next { IsUp (vault_of self.old) → IsTrue (may_intend (held D.state self.old) intend.now.plan) }
        requires room { IsUp (vault_of self.old) → HasRoom D.state self.old 0 1 34 }
        ensures puts { Puts D.state D.images 34 (with_intend (held D.state self.old) intend.now)
            self.old self.new result }
        ensures at_work { OnOk result (held D.state self.new ≡ intended intend.now) }
    {
        if self.inner.is_down() {
            return Err(PlanFault::Down);
        }
        write_intend(&mut self.inner.payload, intend);
        told(self.inner.append(Change::Intend(*intend)))
    }

    /// Puts the commit of a new plan, or of the one that is intended. It is on the disk before `Ok`.
    pub fn commit(&mut self, commit: &Commit) -> Result<(), PlanFault>
        requires ready { IsUp (vault_of self.old) → IsOpened D.state self.old }
        requires spelled { HasCommit commit.now }
        requires short { length (commit_payload commit.now) ≤ payload_most }
        requires next { IsUp (vault_of self.old) → IsTrue (takes_commit (held D.state self.old) commit.now.plan) }
        requires room { IsUp (vault_of self.old)
            → HasRoom D.state self.old 0 1 (length (commit_payload commit.now)) }
        ensures puts { Puts D.state D.images (length (commit_payload commit.now))
            (with_commit (held D.state self.old) commit.now) self.old self.new result }
        ensures at_work { OnOk result (held D.state self.new ≡ committed commit.now) }
    {
        if self.inner.is_down() {
            return Err(PlanFault::Down);
        }
        write_commit(&mut self.inner.payload, commit);
        told(self.inner.append(Change::Commit(commit.plan)))
    }

    /// Puts the end of the plan that is committed. It is on the disk before `Ok`.
    pub fn done(&mut self) -> Result<(), PlanFault>
        requires ready { IsUp (vault_of self.old) → IsOpened D.state self.old }
        requires next { IsUp (vault_of self.old) → IsSome (committed_plan (held D.state self.old).at_work) }
        requires room { IsUp (vault_of self.old) → HasRoom D.state self.old 0 1 9 }
        ensures puts { Puts D.state D.images 9 (with_done (held D.state self.old) (held D.state self.old).greatest)
            self.old self.new result }
        ensures at_work { OnOk result (held D.state self.new ≡ rested (held D.state self.old).greatest) }
    {
        if self.inner.is_down() {
            return Err(PlanFault::Down);
        }
        let plan = self.inner.memory.greatest;
        write_done(&mut self.inner.payload, plan);
        told(self.inner.append(Change::Done(plan)))
    }

    /// The greatest number of a plan, 0 where there is none.
    pub fn greatest(&self) -> u64
        requires ready { IsUp (vault_of self.now) → IsLookedAt D.state self.now }
        ensures greatest { IsUp (vault_of self.now) → result ≡ (held D.state self.now).greatest }
        ensures most { IsUp (vault_of self.now) → result ≤ NUMBER_MAX }
    {
        self.inner.memory.greatest
    }

    /// Whether no plan is at work.
    pub fn is_idle(&self) -> bool
        requires ready { IsUp (vault_of self.now) → IsLookedAt D.state self.now }
        ensures { IsUp (vault_of self.now) → result ≡ is_idle (held D.state self.now).at_work }
    {
        match self.inner.memory.work {
            Work::Idle => true,
            Work::Intended(_) | Work::Committed(_) => false,
        }
    }

    /// The intend at work.
    pub fn intended(&self) -> Option<&Intend>
        requires ready { IsUp (vault_of self.now) → IsLookedAt D.state self.now }
        ensures { IsUp (vault_of self.now)
            → option_map (λ intend. intend.now) result ≡ intend_of (held D.state self.now).at_work }
    {
        match &self.inner.memory.work {
            Work::Intended(intend) => Some(intend),
            Work::Idle | Work::Committed(_) => None,
        }
    }

    /// The plan of the commit at work.
    pub fn committed_plan(&self) -> Option<u64>
        requires ready { IsUp (vault_of self.now) → IsLookedAt D.state self.now }
        ensures { IsUp (vault_of self.now) → result ≡ committed_plan (held D.state self.now).at_work }
    {
        if is_committed(&self.inner.memory.work) {
            Some(self.inner.memory.greatest)
        } else {
            None
        }
    }

    /// Whether an intend of this plan may be put: its number is new, and no plan is committed.
    pub fn may_intend(&self, plan: u64) -> bool
        requires ready { IsUp (vault_of self.now) → IsLookedAt D.state self.now }
        ensures { IsUp (vault_of self.now) → result ≡ may_intend (held D.state self.now) plan }
    {
        self.inner.memory.greatest < plan && !is_committed(&self.inner.memory.work)
    }

    /// Whether a commit of this plan may be put: its number is new, or that of the intend at work.
    pub fn may_commit(&self, plan: u64) -> bool
        requires ready { IsUp (vault_of self.now) → IsLookedAt D.state self.now }
        ensures { IsUp (vault_of self.now) → result ≡ takes_commit (held D.state self.now) plan }
    {
        self.inner.memory.takes_commit(plan)
    }

    /// The commit at work. It is one read of the disk.
    pub fn committed(&mut self) -> Result<Commit, PlanFault>
        requires ready { IsUp (vault_of self.old) → IsLookedAt D.state self.old }
        requires at_work { IsUp (vault_of self.old) → IsSome (committed_plan (held D.state self.old).at_work) }
        ensures commit { IfOk result (λ commit. (held D.state self.old).at_work ≡ Committed commit) }
        ensures spelled { IfOk result HasCommit }
        ensures short { IfOk result (λ commit. length (commit_payload commit) ≤ payload_most) }
        ensures reads { Gets D.state D.images self.old self.new result }
        ensures counted { IsUp (vault_of self.old) → gets (vault_of self.new) ≡ one_more (gets (vault_of self.old)) }
    {
        if self.inner.is_down() {
            return Err(PlanFault::Down);
        }
        let index = index_of(&self.inner.memory.work);
        self.inner.read(index)?;
        let commit = committed_in(self.alloc, &self.inner.found)?;
        Ok(commit)
    }
}
