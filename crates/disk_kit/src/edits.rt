// Edits of a vector that take no memory once there is room.
ghost use Rattle.std.specs.Prelude.{◌≡◌, ◌+◌, ◌-◌, ◌<◌, ◌≤◌, ◌++◌, ℕ, min, length, take, drop, OnOk};
ghost use Rattle.std.specs.Vec.{vec_capacity, vec_len};
ghost use Rattle.disk_trait.specs.Image.{overwritten};
ghost use Rattle.disk_kit.specs.Record.{covered};

use std::alloc::AllocError;

// Makes room up to a length.
pub(crate) fn reserve_to(v: &mut Vec<u8>, len: usize) -> Result<(), AllocError>
    ensures room { OnOk result (len ≤ vec_capacity v.new) }
    ensures items { v.new.items ≡ v.old.items }
    ensures len { vec_len v.new ≡ vec_len v.old }
    ensures capacity { vec_capacity v.old ≤ vec_capacity v.new }
{
    if len > v.len() {
        v.reserve(len - v.len())?;
    }
    Ok(())
}

// Writes over what is there, and past the end. What stood there goes behind the pool.
pub(crate) fn overwrite(file: &mut Vec<u8>, pool: &mut Vec<u8>, at: usize, bytes: &[u8]) -> usize
    requires start { at ≤ length file.old.items }
    requires room { at + length bytes.now ≤ vec_capacity file.old }
    requires pool { vec_len pool.old + length bytes.now ≤ vec_capacity pool.old }
    ensures items { file.new.items ≡ overwritten file.old.items at bytes.now }
    ensures saved { pool.new.items ≡ pool.old.items ++ covered at (length bytes.now) file.old.items }
    ensures over { result ≡ length (covered at (length bytes.now) file.old.items) }
    ensures capacity { vec_capacity file.old ≤ vec_capacity file.new }
    ensures pool_capacity { vec_capacity pool.old ≤ vec_capacity pool.new }
    ensures pool_len { vec_len pool.new ≤ vec_len pool.old + length bytes.now }
{
    let over = bytes.len().min(file.len() - at);
    pool.extend_from_slice(&file[at..at + over]).unwrap();
    file[at..at + over].copy_from_slice(&bytes[..over]);
    file.extend_from_slice(&bytes[over..]).unwrap();
    over
}
