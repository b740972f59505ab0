//! Disks that hold vaults of any payloads.
ghost use Rattle.std.specs.Prelude.{◌≡◌, IfOk};
ghost use Rattle.disk_trait.specs.Image.{settled};
ghost use Rattle.disk_kit.specs.Memory.{memory_state};

use disk_kit::MemDisk;
use disk_trait::Disk;
use std::alloc::Global;
use std::test::Fail;

// A disk that holds these bytes.
fn disk_with(alloc: Global, bytes: &[u8]) -> Result<MemDisk, Fail>
    ensures { IfOk result (λ disk. (memory_state disk).pending ≡ settled (memory_state disk).seen) }
{
    let mut disk = MemDisk::new(alloc);
    let len = u32::try_from(bytes.len())? as u64;
    disk.room(len, 2, len)?;
    disk.write_at(0, bytes)?;
    disk.sync()?;
    Ok(disk)
}

/// Adds a record to those of a vault: an open gate, the payload's length in four bytes, and the payload.
pub(crate) fn put_record(bytes: &mut Vec<u8>, payload: &[u8]) -> Result<(), Fail> {
    let len = u32::try_from(payload.len())?;
    bytes.push(0xa5)?;
    bytes.extend_from_slice(&len.to_be_bytes())?;
    bytes.extend_from_slice(payload)?;
    Ok(())
}

/// A disk whose vault holds these records.
pub(crate) fn disk_of(alloc: Global, records: &[u8]) -> Result<MemDisk, Fail>
    ensures { IfOk result (λ disk. (memory_state disk).pending ≡ settled (memory_state disk).seen) }
{
    let mut bytes = Vec::new(alloc);
    bytes.extend_from_slice(records)?;
    bytes.push(0)?;
    disk_with(alloc, &bytes)
}
