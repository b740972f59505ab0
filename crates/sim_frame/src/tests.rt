use super::*;
use std::test::Fail;

/// The frame of an `unsubscribeTable` of client 1, token 0, table 2.
const UNSUBSCRIBE: [u8; 21] = [
    0, 0, 0, 17, 5, 0, 0, 0, 1, 0, 0, 0, 0, 0, 0, 0, 0, 0, 0, 0, 2,
];

#[test]
fn a_frame_is_its_length_its_kind_and_its_body(rt: HostRuntime) -> Result<(), Fail> {
    let made = frame_bytes(rt.alloc(), 5, &UNSUBSCRIBE[5..])?;
    assert_eq!(rt; made.as_slice(), UNSUBSCRIBE.as_slice());
    Ok(())
}

#[test]
fn a_frame_comes_whole(rt: HostRuntime) -> Result<(), Fail> {
    let mut framer = Framer::new(rt.alloc());
    let frames = framer.feed(&UNSUBSCRIBE)?;
    assert_eq!(rt; frames.len(), 1);
    assert_eq!(rt; frames[0].kind, 5);
    assert_eq!(rt; frames[0].body.as_slice(), &UNSUBSCRIBE[5..]);
    Ok(())
}

#[test]
fn a_frame_comes_byte_by_byte(rt: HostRuntime) -> Result<(), Fail> {
    let mut framer = Framer::new(rt.alloc());
    for place in 0..20 {
        let frames = framer.feed(&UNSUBSCRIBE[place..place + 1])?;
        assert_eq!(rt; frames.len(), 0);
    }
    let frames = framer.feed(&UNSUBSCRIBE[20..])?;
    assert_eq!(rt; frames.len(), 1);
    assert_eq!(rt; frames[0].body.as_slice(), &UNSUBSCRIBE[5..]);
    Ok(())
}

#[test]
fn a_frame_comes_in_two_pieces(rt: HostRuntime) -> Result<(), Fail> {
    for cut in 1..21 {
        let mut framer = Framer::new(rt.alloc());
        let none = framer.feed(&UNSUBSCRIBE[..cut])?;
        assert_eq!(rt; none.len(), 0);
        let frames = framer.feed(&UNSUBSCRIBE[cut..])?;
        assert_eq!(rt; frames.len(), 1);
        assert_eq!(rt; frames[0].kind, 5);
        assert_eq!(rt; frames[0].body.as_slice(), &UNSUBSCRIBE[5..]);
    }
    Ok(())
}

#[test]
fn bad_lengths_are_told_and_told_again(rt: HostRuntime) {
    let table: [([u8; 4], u32); 3] = [
        ([0, 0, 0, 0], 0),
        ([0, 16, 0, 1], 1_048_577),
        ([255, 255, 255, 255], 4_294_967_295),
    ];
    for (bytes, len) in &table {
        let bad = Some(FrameFault::BadLength { len: *len });
        let mut framer = Framer::new(rt.alloc());
        assert_eq!(rt; framer.feed(&bytes[..3]).err(), None);
        assert_eq!(rt; framer.feed(&bytes[3..]).err(), bad);
        assert_eq!(rt; framer.feed(&UNSUBSCRIBE).err(), bad);
        assert_eq!(rt; framer.feed(&[]).err(), bad);
    }
}

#[test]
fn frames_before_a_bad_length_are_given_first(rt: HostRuntime) -> Result<(), Fail> {
    let bytes = [0, 0, 0, 1, 9, 0, 0, 0, 2, 8, 7, 0, 0, 0, 0, 1];
    let mut framer = Framer::new(rt.alloc());
    let frames = framer.feed(&bytes)?;
    assert_eq!(rt; frames.len(), 2);
    assert_eq!(rt; frames[0].kind, 9);
    assert_eq!(rt; frames[0].body.len(), 0);
    assert_eq!(rt; frames[1].body.as_slice(), [7].as_slice());
    let bad = Some(FrameFault::BadLength { len: 0 });
    assert_eq!(rt; framer.feed(&[]).err(), bad);
    Ok(())
}

#[test]
fn the_longest_frame_passes(rt: HostRuntime) -> Result<(), Fail> {
    let piece = [7; 4096];
    let mut framer = Framer::new(rt.alloc());
    let none = framer.feed(&[0, 16, 0, 0, 3])?;
    assert_eq!(rt; none.len(), 0);
    for _ in 0..255 {
        let none = framer.feed(&piece)?;
        assert_eq!(rt; none.len(), 0);
    }
    let frames = framer.feed(&piece[1..])?;
    assert_eq!(rt; frames.len(), 1);
    assert_eq!(rt; frames[0].body.len(), 1_048_575);
    Ok(())
}
