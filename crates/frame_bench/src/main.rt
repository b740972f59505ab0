//! Measures framing and decoding. `frame_bench PIECE` reads a stream of frames from standard input, feeds it to a
//! framer in pieces of so many bytes, decodes each frame, and prints how many there were.
#![tactic(auto)]

use anyhow::{Context, Result};
use sim_frame::Framer;
use std::alloc::Global;
use std::env;
use std::io::Read;
use sync_msgs::decode;

/// How many frames become whole with these bytes, in pieces of so many. No contract pins the number: it is printed
/// beside a time for a person to see that the work was done, and nothing rests on it.
fn feed_pieces(alloc: Global, framer: &mut Framer, bytes: &[u8], piece: usize) -> Result<u64> {
    let mut count: u64 = 0;
    let mut place = 0;
    while place < bytes.len() {
        let end = bytes.len().min(place.saturating_add(piece.max(1)));
        for frame in framer.feed(&bytes[place..end])? {
            let _message = decode(alloc, frame.kind, frame.body.as_slice())?;
            count = count.saturating_add(1);
        }
        place = end;
    }
    Ok(count)
}

fn main(rt: HostRuntime) -> Result<()> {
    let mut words = env::args(&rt)?;
    let _program = words.next();
    let piece = words.next().context("no size of a piece")?;
    let piece = piece.parse::<usize>().context("the size of a piece")?;
    let alloc = rt.alloc();
    let mut source = rt.stdin();
    let mut framer = Framer::new(alloc);
    let mut buffer = [0u8; 65_536];
    let mut count: u64 = 0;
    for _ in 0..u64::MAX {
        let taken = source.read(&mut buffer)?;
        if taken == 0 {
            break;
        }
        let bytes = &buffer[..taken.min(buffer.len())];
        count = count.saturating_add(feed_pieces(alloc, &mut framer, bytes, piece)?);
    }
    println!(rt; "{count} frames")?;
    Ok(())
}
