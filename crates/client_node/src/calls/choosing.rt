//! What a choice goes by: the version that was seen, and both contents of a row in conflict.
ghost use Rattle.std.specs.Prelude.{◌≡◌, ◌==◌, Ok as Answered, false, IfOk, IfErr, OnOk};
ghost use Rattle.conflicts.specs.Stored.{chosen as chosen_by};
ghost use Rattle.client_journal.specs.Standing.{devs as held_by, writes_of, AreUp, IsReady};
ghost use Rattle.client_node.specs.Looks.{Looks};
ghost use Rattle.client_node.specs.Resolving.{IsPairRead, IsUnread, ChoosesSo, MayBeAsked};

use crate::fault::CallFault;
use crate::preparing::OpenedRow;
use crate::telling::read_content;
use client_journal::Journal;
use conflicts::{Choice, Pair, Resolver, Stored};
use disk_trait::Disk;
use held_value::Shadow;
use stab_base::Version;
use std::alloc::Global;

/// Whether the version that was seen is the one that a row is in conflict with.
pub(crate) fn check_seen(row: &Shadow, seen: Version) -> Result<(), CallFault>
    ensures same { OnOk result (row.now.version ≡ seen) }
    ensures moved { IfErr result (λ e. ((row.now.version == seen) ≡ false) × (e ≡ CallFault.Moved seen row.now.version)) }
{
    if row.version == seen {
        Ok(())
    } else {
        Err(CallFault::Moved {
            seen,
            now: row.version,
        })
    }
}

// The pair of a row in conflict with the version that was seen, both contents whole.
fn read_pair<D: Disk + Drop>(
    alloc: Global,
    devs: &mut Journal<D>,
    at: &OpenedRow,
    seen: Version,
) -> Result<Pair, CallFault>
    requires up { AreUp devs.old }
    requires ready { IsReady D.state devs.old (writes_of devs.old) }
    ensures looks { Looks D.state D.images devs.old devs.new result }
    ensures pair { IfOk result (IsPairRead (held_by D.state devs.old) at.now seen) }
    ensures refused { IfErr result (IsUnread at.now seen) }
{
    let Some(main) = &at.slots.main else {
        return Err(CallFault::NoConflict);
    };
    let Some(row) = &at.slots.conflict else {
        return Err(CallFault::NoConflict);
    };
    check_seen(row, seen)?;
    let mine = read_content(alloc, devs, &main.content)?;
    let theirs = read_content(alloc, devs, &row.content)?;
    Ok(Pair {
        row: at.row,
        number: main.number,
        version: row.version,
        mine,
        theirs,
    })
}

/// How a stored way resolves the conflict of a row. It reads no contents where it doesn't go by them.
pub(crate) fn choose_by<D: Disk + Drop>(
    alloc: Global,
    devs: &mut Journal<D>,
    at: &OpenedRow,
    seen: Version,
    by: Stored,
) -> Result<Choice, CallFault>
    requires up { AreUp devs.old }
    requires ready { IsReady D.state devs.old (writes_of devs.old) }
    ensures looks { Looks D.state D.images devs.old devs.new result }
    ensures chosen { IfOk result (ChoosesSo (held_by D.state devs.old) at.now (λ pair choice. choice ≡ chosen_by by pair)) }
    ensures refused { IfErr result (IsUnread at.now seen) }
{
    match by {
        Stored::Mine => Ok(Choice::Mine),
        Stored::Theirs => Ok(Choice::Theirs),
        Stored::Larger { .. } => {
            let pair = read_pair(alloc, devs, at, seen)?;
            Ok(by.choose(&pair))
        }
    }
}

/// How a resolver that was handed in resolves the conflict of a row.
pub(crate) fn choose_with<D: Disk + Drop, R: Resolver>(
    alloc: Global,
    devs: &mut Journal<D>,
    at: &OpenedRow,
    seen: Version,
    by: &R,
) -> Result<Choice, CallFault>
    requires up { AreUp devs.old }
    requires ready { IsReady D.state devs.old (writes_of devs.old) }
    requires fits { MayBeAsked (held_by D.state devs.old) at.now (R.schema_of by.now) }
    ensures looks { Looks D.state D.images devs.old devs.new result }
    ensures answers { IfOk result (ChoosesSo (held_by D.state devs.old) at.now
        (λ pair choice. R.answers by.now pair (Answered choice))) }
    ensures refused { IfErr result (IsUnread at.now seen) }
{
    let pair = read_pair(alloc, devs, at, seen)?;
    Ok(by.choose(&pair)?)
}
