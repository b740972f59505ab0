//! What a start finds of an update that was cut short.
ghost use Rattle.std.specs.Prelude.{◌≡◌, ◌++◌, ◌∷◌, [], List, is_some, IfOk, OnOk};
ghost use Rattle.std.specs.BTreeSet.{keys};
ghost use Rattle.std.specs.List.Sorted.{IsStrictlySortedBy};
ghost use Rattle.vault.specs.Standing.{IsUp};
ghost use Rattle.chunk_store.specs.Payload.{name_cmp};
ghost use Rattle.chunk_store.specs.Standing.{vault_of, chunks, IsLookedAt};
ghost use Rattle.stab_base.specs.declared.chunk_name.ChunkName.{ChunkName};
ghost use Rattle.status_log.specs.Entry.{entry_of};
ghost use Rattle.store_commit.specs.Devs.{Devs};
ghost use Rattle.store_commit.specs.Recover.{AreStillThere, IsRecovery};

use chunk_store::{ChunkDev, ChunkName, Names};
use disk_trait::Disk;
use stab_base::Version;
use status_log::LogEntry;
use std::alloc::{AllocError, Global};
use std::collections::BTreeSet;

/// What a start makes of the update that was at work.
#[derive(Debug, Drop)]
pub enum Recovery {
    /// None was at work.
    Nothing,
    /// Its row was put: the old chunks of this entry go.
    Forward(LogEntry),
    /// Its row wasn't put: the new chunks of this version go.
    Back(Version),
}

impl Recovery {
    /// Whether an update was at work.
    pub(crate) fn is_open(&self) -> bool
        ensures { (d : Devs) → IsRecovery d self.now → result ≡ is_some d.pending }
    {
        !matches!(self, Recovery::Nothing)
    }
}

/// A copy of an entry.
pub(crate) fn copied(alloc: Global, entry: &LogEntry) -> Result<LogEntry, AllocError>
    ensures { IfOk result (λ copy. entry_of copy ≡ entry_of entry.now) }
{
    let old = entry.old.to_vec(alloc)?;
    Ok(LogEntry {
        version: entry.version,
        row: entry.row,
        client: entry.client,
        number: entry.number,
        base: entry.base,
        fresh: entry.fresh,
        old,
    })
}

// Notes a name that has a chunk.
fn note_there<D: Disk + Drop>(
    device: &ChunkDev<D>,
    name: ChunkName,
    found: &mut BTreeSet<ChunkName>,
) -> Result<(), AllocError>
    requires up { IsUp (vault_of device.now) }
    requires looked { IsLookedAt D.state device.now }
    ensures { OnOk result ((old : List ChunkName) → AreStillThere (chunks D.state device.now) old (keys found.old)
        → AreStillThere (chunks D.state device.now) (old ++ name ∷ []) (keys found.new)) }
{
    if device.has(name) {
        found.insert(name)?;
    }
    Ok(())
}

/// Those of these names that have a chunk, each once, in rising order.
pub(crate) fn still_there<D: Disk + Drop>(
    alloc: Global,
    device: &ChunkDev<D>,
    old: &[ChunkName],
) -> Result<Names, AllocError>
    requires up { IsUp (vault_of device.now) }
    requires looked { IsLookedAt D.state device.now }
    ensures names { IfOk result (AreStillThere (chunks D.state device.now) old.now) }
    ensures rising { IfOk result (λ names. IsStrictlySortedBy name_cmp names) }
{
    let mut found = BTreeSet::new(alloc);
    for name in old {
        note_there(device, *name, &mut found)?;
    }
    let names: Vec<ChunkName> = found.iter().copied().collect(alloc)?;
    Ok(Names::from_vec(names))
}
