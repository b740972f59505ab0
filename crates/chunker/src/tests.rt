ghost use Rattle.std.specs.Prelude.{◌<◌};

use super::*;
use stab_base::Bytes;
use std::alloc::Global;
use std::test::Fail;

/// The length of an object, the size of a chunk, how many chunks it has, and the bytes of the last one.
const CUTS: [(usize, u32, usize, usize); 6] = [
    (0, 64, 0, 0),
    (1, 64, 1, 1),
    (192, 64, 3, 64),
    (65_536, 65_536, 1, 65_536),
    (65_537, 65_536, 2, 1),
    (2_500_000, 65_536, 39, 9_632),
];

fn last_len(chunks: &Chunks) -> usize {
    match chunks.as_slice().last() {
        None => 0,
        Some(chunk) => chunk.len(),
    }
}

fn measured(alloc: Global, len: usize, size: u32) -> Result<(usize, usize, bool), Fail>
    requires { 0 < size }
{
    let object = vec![in alloc; 7u8; len]?;
    let chunks = cut(alloc, &object, size)?;
    let joined = join(alloc, &chunks)?;
    Ok((
        chunks.len(),
        last_len(&chunks),
        joined.as_slice() == object.as_slice(),
    ))
}

#[test]
fn objects_are_cut_and_joined(rt: HostRuntime) -> Result<(), Fail> {
    for (len, size, count, last) in CUTS {
        if size > 0 {
            let cut = measured(rt.alloc(), len, size)?;
            assert_eq!(rt; cut, (count, last, true));
        }
    }
    Ok(())
}

/// The pieces of the chunks `ab` and `cd` against old ones of these bytes, which are named 1.0 and 1.1.
fn against(alloc: Global, old: [&[u8]; 2], first: u32) -> Result<[Option<Piece>; 3], Fail>
    requires { first < 1000 }
{
    let mut named = NamedChunks::new(alloc);
    for (ordinal, bytes) in [0u32, 1].into_iter().zip(old) {
        let name = ChunkName {
            version: 1,
            ordinal,
        };
        named.push((name, Bytes::from_slice(alloc, bytes)?))?;
    }
    let chunks = cut(alloc, b"abcd", 2)?;
    if chunks.len() > 1000 {
        return Ok([None; 3]);
    }
    let pieces = pieces_against(alloc, &named, &chunks, first)?;
    Ok([
        pieces.get(0).copied(),
        pieces.get(1).copied(),
        pieces.get(2).copied(),
    ])
}

#[test]
fn equal_chunks_are_kept_and_new_ones_are_numbered(rt: HostRuntime) -> Result<(), Fail> {
    let kept = Some(Piece::Keep(ChunkName {
        version: 1,
        ordinal: 1,
    }));
    let changed = against(rt.alloc(), [b"ax", b"cd"], 0)?;
    assert_eq!(rt; changed, [Some(Piece::Fresh(0)), kept, None]);
    let swapped = against(rt.alloc(), [b"cd", b"ab"], 5)?;
    assert_eq!(rt;
        swapped,
        [Some(Piece::Fresh(5)), Some(Piece::Fresh(6)), None]
    );
    Ok(())
}
