ghost use Rattle.std.specs.Prelude.{◌≤◌, length, OnOk};
ghost use Rattle.vault.specs.Standing.{IsUp, IsOpened};
ghost use Rattle.vault.specs.declared.record.TheConstants.{PAYLOAD_MAX};

use disk_kit::MemDisk;
use disk_trait::Disk;
use std::alloc::Global;
use vault::{Vault, VaultFault};

/// How many payloads a look finds after so many appends of so many bytes, or of 1,048,576 if that is less. No contract
/// pins the number: it is printed beside a time for a person to see that the work was done, and nothing rests on it.
pub fn fill_and_look(alloc: Global, count: u64, bytes: u32) -> Result<u64, VaultFault> {
    let mut payload = Vec::new(alloc);
    payload.resize(bytes.min(1_048_576) as usize, b'x')?;
    let mut vault = Vault::new(alloc, MemDisk::new(alloc));
    vault.format()?;
    fill(&mut vault, count, &payload)?;
    vault.look()?;
    Ok(vault.records())
}

fn fill<D: Disk + Drop>(vault: &mut Vault<D>, count: u64, payload: &[u8]) -> Result<(), VaultFault>
    requires opened { IsOpened D.state vault.old }
    requires short { length payload.now ≤ 1048576 }
    ensures { OnOk result (IsOpened D.state vault.new) }
{
    for _ in 0..count {
        append_one(vault, payload)?;
    }
    Ok(())
}

fn append_one<D: Disk + Drop>(vault: &mut Vault<D>, payload: &[u8]) -> Result<(), VaultFault>
    requires opened { IsOpened D.state vault.old }
    requires short { length payload.now ≤ 1048576 }
    ensures { OnOk result (IsOpened D.state vault.new) }
{
    vault.reserve(1, payload.len() as u64)?;
    vault.append(payload)
}
