ghost use Rattle.std.specs.Prelude.{◌≡◌, OnOk, IfOk};
ghost use Rattle.disk_trait.specs.Image.{settled};
ghost use Rattle.disk_trait.specs.Fuse.{behind};
ghost use Rattle.disk_kit.specs.Memory.{memory_state};
ghost use Rattle.vault.specs.Standing.{IsUp, IsDown, IsLookedAt};

use disk_kit::MemDisk;
use disk_trait::{Disk, FuseDisk};
use std::alloc::{AllocError, Global};
use std::process::Abort;
use std::test::Fail;
use vault::{Vault, VaultFault};

// A disk that holds these bytes.
fn disk_with(alloc: Global, bytes: &[u8]) -> Result<MemDisk, Fail>
    ensures { IfOk result (λ disk. (memory_state disk).pending ≡ settled (memory_state disk).seen) }
{
    let mut disk = MemDisk::new(alloc);
    let len = u32::try_from(bytes.len())? as u64;
    disk.room(len, 2, len)?;
    disk.write_at(0, bytes)?;
    disk.sync()?;
    Ok(disk)
}

// The payload of this index and a semicolon, if there is such an index.
fn show_one<D: Disk + Drop>(
    vault: &mut Vault<D>,
    index: u64,
    one: &mut Vec<u8>,
    shown: &mut Vec<u8>,
) -> Result<(), VaultFault>
    requires { IsLookedAt D.state vault.old }
    ensures { OnOk result (IsLookedAt D.state vault.new) }
{
    if index < vault.records() {
        vault.get(index, one)?;
        shown.extend_from_slice(one)?;
        shown.push(b';')?;
    }
    Ok(())
}

// The first payloads, each with a semicolon behind it.
fn show<D: Disk + Drop>(alloc: Global, vault: &mut Vault<D>) -> Result<Vec<u8>, VaultFault>
    requires { IsLookedAt D.state vault.old }
    ensures { OnOk result (IsLookedAt D.state vault.new) }
{
    let mut one = Vec::new(alloc);
    let mut shown = Vec::new(alloc);
    show_one(vault, 0, &mut one, &mut shown)?;
    show_one(vault, 1, &mut one, &mut shown)?;
    show_one(vault, 2, &mut one, &mut shown)?;
    show_one(vault, 3, &mut one, &mut shown)?;
    Ok(shown)
}

// Opens the vault, and appends where the disk is stopped after so many calls; then crashes and looks.
fn stop_append<D: Disk + Drop>(
    vault: &mut Vault<FuseDisk<D>>,
    calls: u32,
    pick: u64,
) -> Result<bool, VaultFault>
    requires { IsLookedAt (behind D.state) vault.old }
    ensures { OnOk result (IsLookedAt (behind D.state) vault.new) }
{
    vault.reserve(1, 5)?;
    vault.open_write()?;
    vault.stop_after(calls, pick);
    let answer = vault.append(b"defgh");
    vault.restart(0);
    vault.look()?;
    Ok(answer.is_ok())
}

// Opens the vault where the disk is stopped after so many calls; then crashes and looks.
fn stop_open<D: Disk + Drop>(
    vault: &mut Vault<FuseDisk<D>>,
    calls: u32,
    pick: u64,
) -> Result<bool, VaultFault>
    requires { IsLookedAt (behind D.state) vault.old }
    ensures { OnOk result (IsLookedAt (behind D.state) vault.new) }
{
    vault.reserve(0, 0)?;
    vault.stop_after(calls, pick);
    let answer = vault.open_write();
    vault.restart(0);
    vault.look()?;
    Ok(answer.is_ok())
}

// Makes a vault of one payload.
fn begin<D: Disk + Drop>(vault: &mut Vault<D>) -> Result<(), VaultFault>
    requires { IsUp vault.old }
    ensures { OnOk result (IsLookedAt D.state vault.new) }
{
    vault.format()?;
    vault.reserve(1, 3)?;
    vault.append(b"abc")
}

// The bytes of a file after an opening and an append of one byte.
fn reopened(alloc: Global, disk: MemDisk) -> Result<MemDisk, VaultFault>
    requires { (memory_state disk).pending ≡ settled (memory_state disk).seen }
{
    let mut vault = Vault::new(alloc, disk);
    vault.look()?;
    vault.reserve(1, 1)?;
    vault.open_write()?;
    vault.append(b"z")?;
    Ok(vault.into_disk())
}

#[test]
fn an_append_puts_a_record_behind_the_gate(rt: HostRuntime) -> Result<(), Fail> {
    let mut vault = Vault::new(rt.alloc(), MemDisk::new(rt.alloc()));
    vault.format()?;
    assert_eq!(rt; vault.records(), 0);
    let mut vault = Vault::new(rt.alloc(), MemDisk::new(rt.alloc()));
    begin(&mut vault)?;
    assert_eq!(rt; vault.records(), 1);
    assert_eq!(rt;
        show(rt.alloc(), &mut vault)?.as_slice(),
        b"abc;".as_slice()
    );
    let disk = vault.into_disk();
    assert_eq!(rt;
        disk.bytes(),
        [0xa5, 0, 0, 0, 3, 0x61, 0x62, 0x63, 0].as_slice()
    );
    Ok(())
}

#[test]
fn an_empty_vault_is_a_closed_gate(rt: HostRuntime) -> Result<(), Fail> {
    let mut vault = Vault::new(rt.alloc(), disk_with(rt.alloc(), b"anything")?);
    vault.format()?;
    let disk = vault.into_disk();
    assert_eq!(rt; disk.bytes(), [0].as_slice());
    Ok(())
}

#[test]
fn a_stopped_append_is_there_wholly_or_not_at_all(rt: HostRuntime) -> Result<(), Fail> {
    let cases: [(u32, u64, &[u8]); 13] = [
        (0, 0, b"abc;"),
        (0, 1, b"abc;"),
        (0, 100, b"abc;"),
        (1, 0, b"abc;"),
        (1, 1, b"abc;"),
        (1, 100, b"abc;"),
        (2, 0, b"abc;"),
        (2, 1, b"abc;defgh;"),
        (2, 100, b"abc;defgh;"),
        (3, 0, b"abc;defgh;"),
        (3, 1, b"abc;defgh;"),
        (3, 100, b"abc;defgh;"),
        (4, 0, b"abc;defgh;"),
    ];
    for (calls, pick, want) in cases {
        let mut vault = Vault::new(rt.alloc(), FuseDisk::new(MemDisk::new(rt.alloc())));
        begin(&mut vault)?;
        // The opening makes four calls of its own.
        assert_eq!(rt; stop_append(&mut vault, calls, pick)?, calls >= 4);
        assert_eq!(rt;
            show(rt.alloc(), &mut vault)?.as_slice(),
            want,
            "{calls} {pick}"
        );
    }
    Ok(())
}

#[test]
fn a_second_stop_leaves_the_list_or_adds_to_it(rt: HostRuntime) -> Result<(), Fail> {
    let cases: [(u32, u64, &[u8]); 7] = [
        (0, 0, b"abc;"),
        (0, 1, b"abc;"),
        (0, 100, b"abc;"),
        (1, 1, b"abc;"),
        (2, 0, b"abc;"),
        (2, 1, b"abc;defgh;defgh;"),
        (3, 1, b"abc;defgh;defgh;"),
    ];
    for (calls, pick, want) in cases {
        let mut vault = Vault::new(rt.alloc(), FuseDisk::new(MemDisk::new(rt.alloc())));
        begin(&mut vault)?;
        assert!(rt; !stop_append(&mut vault, calls, pick)?);
        assert!(rt; !stop_append(&mut vault, calls, pick)?);
        assert_eq!(rt;
            show(rt.alloc(), &mut vault)?.as_slice(),
            want,
            "{calls} {pick}"
        );
    }
    Ok(())
}

#[test]
fn a_stopped_opening_changes_nothing(rt: HostRuntime) -> Result<(), Fail> {
    for torn in [0, 1, 3, 100] {
        for calls in 0..5 {
            for pick in [0, 1, 100] {
                let mut vault = Vault::new(rt.alloc(), FuseDisk::new(MemDisk::new(rt.alloc())));
                begin(&mut vault)?;
                assert!(rt; !stop_append(&mut vault, 0, torn)?);
                assert_eq!(rt; stop_open(&mut vault, calls, pick)?, calls >= 4);
                assert_eq!(rt; stop_open(&mut vault, calls, pick)?, calls >= 4);
                assert_eq!(rt;
                    show(rt.alloc(), &mut vault)?.as_slice(),
                    b"abc;".as_slice(),
                    "{torn} {calls} {pick}"
                );
            }
        }
    }
    Ok(())
}

// What a file holds that may be anything, and that the vault goes on from there.
fn go_on_from(rt: &impl Abort, alloc: Global, bytes: &[u8], want: &[u8]) -> Result<(), Fail> {
    let disk = disk_with(alloc, bytes)?;
    let mut vault = Vault::new(alloc, disk);
    vault.look()?;
    assert_eq!(rt; show(alloc, &mut vault)?.as_slice(), want, "{bytes:?}");
    let disk = vault.into_disk();
    assert_eq!(rt; disk.bytes(), bytes);
    let disk = reopened(alloc, disk_with(alloc, bytes)?)?;
    let mut vault = Vault::new(alloc, disk_with(alloc, disk.bytes())?);
    vault.look()?;
    let mut both = Vec::from_slice(alloc, want)?;
    both.extend_from_slice(b"z;")?;
    assert_eq!(rt;
        show(alloc, &mut vault)?.as_slice(),
        both.as_slice(),
        "{bytes:?}"
    );
    Ok(())
}

// The file of this length whose bytes are the digits of a number to the base of the alphabet's length.
fn spelled(alloc: Global, len: u32, number: usize) -> Result<Vec<u8>, AllocError> {
    let alphabet = [0x00, 0x01, 0xa5];
    let mut number = number;
    let mut bytes = Vec::new(alloc);
    for _ in 0..len {
        bytes.push(alphabet[number % 3])?;
        number /= 3;
    }
    Ok(bytes)
}

#[test]
fn a_short_file_has_no_records(rt: HostRuntime) -> Result<(), Fail> {
    for (len, count) in [(0, 1), (1, 3), (2, 9), (3, 27), (4, 81)] {
        for number in 0..count {
            let bytes = spelled(rt.alloc(), len, number)?;
            go_on_from(&rt, rt.alloc(), &bytes, b"")?;
        }
    }
    Ok(())
}

#[test]
fn a_file_of_any_bytes_has_the_records_in_front(rt: HostRuntime) -> Result<(), Fail> {
    let cases: [(&[u8], &[u8]); 14] = [
        // whole records
        (&[0xa5, 0, 0, 0, 3, 0x61, 0x62, 0x63, 0], b"abc;"),
        (&[0xa5, 0, 0, 0, 0, 0], b";"),
        (
            &[0xa5, 0, 0, 0, 1, 0x61, 0xa5, 0, 0, 0, 1, 0x62, 0],
            b"a;b;",
        ),
        // the last byte is any gate
        (&[0xa5, 0, 0, 0, 1, 0x61, 0xa5], b"a;"),
        (&[0xa5, 0, 0, 0, 1, 0x61, 0xff], b"a;"),
        // no byte behind the record
        (&[0xa5, 0, 0, 0, 1, 0x61], b""),
        (&[0xa5, 0, 0, 0, 0], b""),
        // cut short
        (&[0xa5, 0, 0, 0, 5, 0x61, 0x62], b""),
        (&[0xa5, 0, 0, 0, 1, 0x61, 0xa5, 0, 0, 0, 9, 0x62, 0], b"a;"),
        // a record behind a gate that isn't open
        (&[0, 0, 0, 0, 1, 0x61, 0], b""),
        (&[0xa4, 0, 0, 0, 1, 0x61, 0], b""),
        (&[0xa5, 0, 0, 0, 1, 0x61, 0, 0, 0, 0, 1, 0x62, 0], b"a;"),
        // a length above the limit
        (&[0xa5, 0, 0x80, 0, 1, 0x61, 0], b""),
        (&[0xa5, 0xff, 0xff, 0xff, 0xff, 0x61, 0], b""),
    ];
    for (bytes, want) in cases {
        go_on_from(&rt, rt.alloc(), bytes, want)?;
    }
    Ok(())
}

// Appends where the first sync of the disk is stopped.
fn break_down<D: Disk + Drop>(vault: &mut Vault<FuseDisk<D>>) -> Result<VaultFault, Fail>
    requires { IsUp vault.old }
    ensures { IfOk result (λ fault. IsDown vault.new) }
{
    vault.format()?;
    vault.reserve(1, 1)?;
    vault.stop_after(1, 0);
    match vault.append(b"a") {
        Ok(()) => Err("the append was not stopped")?,
        Err(fault) => Ok(fault),
    }
}

#[test]
fn a_vault_is_down_after_a_fault(rt: HostRuntime) -> Result<(), Fail> {
    let mut vault = Vault::new(rt.alloc(), FuseDisk::new(MemDisk::new(rt.alloc())));
    assert_eq!(rt; break_down(&mut vault)?, VaultFault::Disk);
    let mut out = Vec::new(rt.alloc());
    let appended = vault.append(b"a");
    let opened = vault.open_write();
    let reserved = vault.reserve(0, 0);
    let got = vault.get(0, &mut out);
    let looked = vault.look();
    let formatted = vault.format();
    for answer in [appended, opened, reserved, got, looked, formatted] {
        assert_eq!(rt; answer, Err(VaultFault::Down));
    }
    vault.restart(0);
    vault.look()?;
    assert_eq!(rt; vault.records(), 0);
    Ok(())
}
