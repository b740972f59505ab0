//! Disks that hold vaults of any payloads.
ghost use Rattle.std.specs.Prelude.{◌≡◌, OnOk, IfOk};
ghost use Rattle.disk_trait.specs.Image.{settled};
ghost use Rattle.disk_kit.specs.Memory.{memory_state};
ghost use Rattle.vault.specs.Standing.{IsOpened};

use disk_kit::MemDisk;
use disk_trait::Disk;
use std::alloc::Global;
use std::test::Fail;
use vault::{Vault, VaultFault};

// Adds a payload of at most 1,000 bytes.
fn add<D: Disk + Drop>(vault: &mut Vault<D>, payload: &[u8]) -> Result<(), VaultFault>
    requires { IsOpened D.state vault.old }
    ensures { OnOk result (IsOpened D.state vault.new) }
{
    if payload.len() > 1000 {
        return Ok(());
    }
    vault.reserve(1, payload.len() as u64)?;
    vault.open_write()?;
    vault.append(payload)
}

/// A disk whose vault holds these payloads.
pub(crate) fn disk_of(
    alloc: Global,
    first: &[u8],
    second: &[u8],
    third: &[u8],
) -> Result<MemDisk, Fail>
    ensures { IfOk result (λ disk. (memory_state disk).pending ≡ settled (memory_state disk).seen) }
{
    let mut vault = Vault::new(alloc, MemDisk::new(alloc));
    vault.format()?;
    add(&mut vault, first)?;
    add(&mut vault, second)?;
    add(&mut vault, third)?;
    Ok(vault.into_disk())
}
