//! Names, twelve bytes each.
ghost use Rattle.std.specs.Prelude.{◌≡◌, ◌+◌, ◌*◌, ◌<◌, ◌≤◌, ◌++◌, length, drop};
ghost use Rattle.std.specs.Vec.{vec_capacity, vec_len};
ghost use Rattle.value_codec.specs.Spelling.{name_spelling, list_spelling};
ghost use Rattle.status_log.specs.Payload.{name_in, names_in};

use stab_base::{ChunkName, put_u32, put_u64, take_u32, take_u64};

fn name_at(bytes: &[u8], at: usize) -> ChunkName
    requires { at + 12 ≤ length bytes.now }
    ensures { result ≡ name_in (drop at bytes.now) }
{
    let (version, at) = take_u64(bytes, at).unwrap();
    let (ordinal, _) = take_u32(bytes, at).unwrap();
    ChunkName { version, ordinal }
}

/// Puts the names that these bytes spell in place of those in the list, which has room for them.
#[tactic(auto, using(crate::proofs::Twelves::names_in_push))]
pub(crate) fn read_names(names: &mut Vec<ChunkName>, bytes: &[u8], count: usize)
    requires size { 12 * count ≤ length bytes.now }
    requires room { count ≤ vec_capacity names.old }
    ensures items { names.new.items ≡ names_in count bytes.now }
    ensures capacity { vec_capacity names.old ≤ vec_capacity names.new }
{
    names.clear();
    for index in 0..count {
        names.push(name_at(bytes, 12 * index)).unwrap();
    }
}

fn write_name(payload: &mut Vec<u8>, name: ChunkName)
    requires room { vec_len payload.old + 12 ≤ vec_capacity payload.old }
    ensures items { payload.new.items ≡ payload.old.items ++ name_spelling name }
    ensures len { vec_len payload.new ≡ vec_len payload.old + 12 }
    ensures capacity { vec_capacity payload.old ≤ vec_capacity payload.new }
{
    put_u64(payload, name.version).unwrap();
    put_u32(payload, name.ordinal).unwrap();
}

/// Appends the names and how many there are, to a buffer that has room for them.
pub(crate) fn write_names(payload: &mut Vec<u8>, names: &[ChunkName])
    requires room { vec_len payload.old + (4 + 12 * length names.now) ≤ vec_capacity payload.old }
    requires count { length names.now < 4294967296 }
    ensures items { payload.new.items ≡ payload.old.items ++ list_spelling name_spelling names.now }
    ensures capacity { vec_capacity payload.old ≤ vec_capacity payload.new }
{
    put_u32(payload, names.len() as u32).unwrap();
    for name in names {
        write_name(payload, *name);
    }
}
