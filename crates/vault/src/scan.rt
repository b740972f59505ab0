//! Reading a file from front to back: where its records are. Only the head of each record is read.
ghost use Rattle.std.specs.Prelude.{◌≡◌, ◌+◌, ◌^◌, ◌<◌, ◌≤◌, ℕ, List, [], length, take, drop, slice_index};
ghost use Rattle.std.specs.Prelude.{slice_index_or, OnOk, IfOk, IsErrOf};
ghost use Rattle.std.specs.Vec.{vec_capacity};
ghost use Rattle.disk_trait.specs.Calls.{HasCause, IsCounted, SameFile, Elapses};
ghost use Rattle.vault.specs.File.{payloads_of, places_from, EndsAt};
ghost use Rattle.vault.specs.Scan.{Finds};

use crate::VaultFault;
use crate::record::record_len;
use disk_trait::{Disk, DiskFault};

/// The length of the record that begins at this place, or None where no record is there.
fn record_at<D: Disk>(disk: &mut D, gate: u64) -> Result<Option<u64>, DiskFault>
    requires { gate ≤ length (D.state disk.old).seen }
    ensures finds { IfOk result (Finds (drop gate (D.state disk.old).seen)) }
    ensures same { SameFile (D.state disk.old) (D.state disk.new) }
    ensures time { Elapses (D.state disk.old) (D.state disk.new) (D.images disk.old) (D.images disk.new) }
    ensures cause { HasCause (D.state disk.old) (D.state disk.new) result }
{
    let left = disk.len() - gate;
    if left < 6 {
        return Ok(None);
    }
    let mut head = [0u8; 5];
    disk.read_at(gate, &mut head)?;
    Ok(record_len(&head, left))
}

/// Where the standing gate is. Before it, the places of the gates of all records are appended to the empty list.
pub(crate) fn find_records<D: Disk>(disk: &mut D, places: &mut Vec<u64>) -> Result<u64, VaultFault>
    requires { places.old.items ≡ [] }
    ensures ends { IfOk result (λ gate. EndsAt (D.state disk.old).seen gate (payloads_of (D.state disk.old).seen)) }
    ensures within { IfOk result (λ gate. gate ≤ length (D.state disk.old).seen) }
    ensures places { OnOk result (places.new.items ≡ places_from 0 (payloads_of (D.state disk.old).seen)) }
    ensures same { SameFile (D.state disk.old) (D.state disk.new) }
    ensures time { Elapses (D.state disk.old) (D.state disk.new) (D.images disk.old) (D.images disk.new) }
    ensures cause { IsCounted VaultFault.Disk (D.state disk.old).faults (D.state disk.new).faults result }
    ensures up { IsErrOf result VaultFault.Down → ⊥ }
{
    let mut gate = 0;
    'records: loop {
        let Some(len) = record_at(disk, gate)? else {
            return Ok(gate);
        };
        places.push(gate)?;
        gate += len;
    }
}

/// Makes room for the calls of an opening, and finds the records.
pub(crate) fn look_through<D: Disk>(disk: &mut D, places: &mut Vec<u64>) -> Result<u64, VaultFault>
    requires { places.old.items ≡ [] }
    ensures ends { IfOk result (λ gate. EndsAt (D.state disk.old).seen gate (payloads_of (D.state disk.old).seen)) }
    ensures within { IfOk result (λ gate. gate ≤ length (D.state disk.old).seen) }
    ensures fits { IfOk result (λ gate. gate + 1 ≤ 2 ^ 62) }
    ensures places { OnOk result (places.new.items ≡ places_from 0 (payloads_of (D.state disk.old).seen)) }
    ensures room { IfOk result (λ gate. gate + 1 ≤ (D.state disk.new).room) }
    ensures calls { OnOk result (4 ≤ (D.state disk.new).calls) }
    ensures bytes { OnOk result (1 ≤ (D.state disk.new).bytes) }
    ensures same { SameFile (D.state disk.old) (D.state disk.new) }
    ensures time { Elapses (D.state disk.old) (D.state disk.new) (D.images disk.old) (D.images disk.new) }
    ensures cause { IsCounted VaultFault.Disk (D.state disk.old).faults (D.state disk.new).faults result }
    ensures up { IsErrOf result VaultFault.Down → ⊥ }
{
    let len = disk.len();
    disk.room(len + 1, 4, 1)?;
    find_records(disk, places)
}

/// Keeps the places that were found, and the room that was there.
pub(crate) fn keep_places(kept: &mut Vec<u64>, found: Vec<u64>)
    ensures items { kept.new.items ≡ found.items }
    ensures capacity { vec_capacity kept.old ≤ vec_capacity kept.new }
{
    if found.len() <= kept.capacity() {
        kept.clear();
        kept.extend_from_slice(&found).unwrap();
    } else {
        *kept = found;
    }
}

/// Where the payload of this index begins, and its length.
pub(crate) fn span(places: &[u64], gate: u64, index: u64) -> (u64, u64)
    requires index { index < length places.now }
    requires fits { slice_index places.now index + 5 ≤ slice_index_or places.now (index + 1) gate }
    requires small { slice_index_or places.now (index + 1) gate < 2 ^ 62 }
    ensures at { result.0 ≡ slice_index places.now index + 5 }
    ensures len { result.0 + result.1 ≡ slice_index_or places.now (index + 1) gate }
{
    let index = index as usize;
    let at = places[index] + 5;
    let end = if index + 1 < places.len() {
        places[index + 1]
    } else {
        gate
    };
    (at, end - at)
}

/// Puts so many bytes from there on into `out`, in place of what is there.
pub(crate) fn read_payload<D: Disk>(
    disk: &mut D,
    at: u64,
    len: u64,
    out: &mut Vec<u8>,
) -> Result<(), VaultFault>
    requires { at + len ≤ length (D.state disk.old).seen }
    ensures bytes { OnOk result (out.new.items ≡ take len (drop at (D.state disk.old).seen)) }
    ensures memory { IsErrOf result VaultFault.Memory → out.new.items ≡ out.old.items }
    ensures emptied { IsErrOf result VaultFault.Disk → out.new.items ≡ [] }
    ensures same { SameFile (D.state disk.old) (D.state disk.new) }
    ensures time { Elapses (D.state disk.old) (D.state disk.new) (D.images disk.old) (D.images disk.new) }
    ensures cause { IsCounted VaultFault.Disk (D.state disk.old).faults (D.state disk.new).faults result }
    ensures up { IsErrOf result VaultFault.Down → ⊥ }
{
    let len = len as usize;
    let missing = len.saturating_sub(out.len());
    out.reserve(missing)?;
    out.clear();
    out.resize(len, 0).unwrap();
    match disk.read_at(at, out) {
        Ok(()) => Ok(()),
        Err(_) => {
            out.clear();
            Err(VaultFault::Disk)
        }
    }
}
