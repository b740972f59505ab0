//! Taking in all payloads of a vault, from the first to the last.
ghost use Rattle.std.specs.Prelude.{◌≡◌, ◌+◌, ◌<◌, List, ℕ, length, take, OnOk, IfOk, IsErrOf};
ghost use Rattle.disk_trait.specs.Calls.{IsCounted};
ghost use Rattle.vault.specs.Standing as vaults;

use crate::fold::Fold;
use crate::{Vault, VaultFault};
use disk_trait::Disk;
use std::alloc::Global;

// Takes the payload of this index in.
fn note_next<D: Disk + Drop, F: Fold>(
    alloc: Global,
    vault: &mut Vault<D>,
    memory: &mut F,
    found: &mut Vec<u8>,
    index: u64,
) -> Result<(), VaultFault>
    requires looked { vaults.IsLookedAt D.state vault.old }
    requires index { index < length (vaults.payloads D.state vault.old) }
    ensures noted { OnOk result (F.fits memory.old (take index (vaults.payloads D.state vault.old))
        → F.fits memory.new (take (index + 1) (vaults.payloads D.state vault.old))) }
    ensures stays { OnOk result (vaults.Stays D.state vault.old vault.new) }
    ensures memory { IsErrOf result VaultFault.Memory → vaults.Stays D.state vault.old vault.new }
    ensures disk { IsErrOf result VaultFault.Disk → vaults.IsDown vault.new }
    ensures up { IsErrOf result VaultFault.Down → ⊥ }
    ensures any_moment { vaults.IsSound D.state vault.old
        → vaults.Leaves D.state D.images vault.old vault.new (λ list. list ≡ vaults.payloads D.state vault.old) }
    ensures cause { IsCounted VaultFault.Disk (vaults.faults D.state vault.old)
        (vaults.faults D.state vault.new) result }
    ensures fuse { vaults.SameFuse D.state vault.old vault.new }
{
    vault.get(index, found)?;
    let change = F::read(alloc, found)?;
    memory.note(change, found, index)?;
    Ok(())
}

/// What is kept of all payloads. Each is read once.
pub(crate) fn note_all<D: Disk + Drop, F: Fold + Drop>(
    vault: &mut Vault<D>,
    found: &mut Vec<u8>,
    alloc: Global,
) -> Result<F, VaultFault>
    requires looked { vaults.IsLookedAt D.state vault.old }
    ensures fits { IfOk result (λ memory. F.fits memory (vaults.payloads D.state vault.old)) }
    ensures stays { OnOk result (vaults.Stays D.state vault.old vault.new) }
    ensures memory { IsErrOf result VaultFault.Memory → vaults.Stays D.state vault.old vault.new }
    ensures disk { IsErrOf result VaultFault.Disk → vaults.IsDown vault.new }
    ensures up { IsErrOf result VaultFault.Down → ⊥ }
    ensures any_moment { vaults.IsSound D.state vault.old
        → vaults.Leaves D.state D.images vault.old vault.new (λ list. list ≡ vaults.payloads D.state vault.old) }
    ensures cause { IsCounted VaultFault.Disk (vaults.faults D.state vault.old)
        (vaults.faults D.state vault.new) result }
    ensures fuse { vaults.SameFuse D.state vault.old vault.new }
{
    let count = vault.records();
    let mut memory = F::start(alloc);
    for index in 0..count {
        note_next(alloc, vault, &mut memory, found, index)?;
    }
    Ok(memory)
}
