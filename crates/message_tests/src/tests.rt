use crate::vectors::{BAD, SPELLED};
use sim_frame::{Frame, FrameFault, Framer, frame_bytes};
use std::alloc::Global;
use std::test::Fail;
use sync_msgs::{MessageFault, decode, encode};
use table_model::{Message, MessageName, Outcome};

fn again(alloc: Global, kind: u8, body: &[u8]) -> Result<bool, Fail> {
    let message = decode(alloc, kind, body)?;
    let (code, bytes) = encode(alloc, &message)?;
    Ok(code == kind && bytes.as_slice() == body)
}

#[test]
fn each_message_is_read_and_put_again(rt: HostRuntime) -> Result<(), Fail> {
    for (kind, body) in &SPELLED {
        assert!(rt; again(rt.alloc(), *kind, body)?);
    }
    Ok(())
}

fn fault(alloc: Global, kind: u8, body: &[u8]) -> Option<MessageFault> {
    decode(alloc, kind, body).err()
}

#[test]
fn each_cut_is_refused_at_its_end(rt: HostRuntime) {
    for (kind, body) in &SPELLED {
        for at in 0..body.len() {
            let bad = MessageFault::BadMessage { kind: *kind, at };
            assert_eq!(rt; fault(rt.alloc(), *kind, &body[..at]), Some(bad));
        }
    }
}

#[test]
fn bodies_are_refused_at_the_first_bad_byte(rt: HostRuntime) {
    for (kind, body, at) in &BAD {
        let bad = MessageFault::BadMessage {
            kind: *kind,
            at: *at,
        };
        assert_eq!(rt; fault(rt.alloc(), *kind, body), Some(bad));
    }
}

fn name_of(alloc: Global, kind: u8, body: &[u8]) -> Result<MessageName, Fail> {
    let message = decode(alloc, kind, body)?;
    Ok(message.name())
}

#[test]
fn kinds_have_their_names(rt: HostRuntime) -> Result<(), Fail> {
    let table = [
        (0, MessageName::RegisterDevice),
        (5, MessageName::UnsubscribeTable),
        (9, MessageName::PullRequest),
        (32, MessageName::TableVersionUpdateNotification),
    ];
    for (place, name) in &table {
        let (kind, body) = SPELLED[*place];
        assert_eq!(rt; name_of(rt.alloc(), kind, body)?, *name);
    }
    Ok(())
}

fn unsubscribed(message: &Message) -> Option<(u32, u64, u32)> {
    match message {
        Message::UnsubscribeTable(m) => Some((m.client, m.token, m.table)),
        _ => None,
    }
}

fn unsubscribed_in(alloc: Global, body: &[u8]) -> Option<(u32, u64, u32)> {
    match decode(alloc, 5, body) {
        Ok(message) => unsubscribed(&message),
        Err(_) => None,
    }
}

#[test]
fn an_unsubscribe_has_its_fields(rt: HostRuntime) {
    let (_kind, body) = SPELLED[5];
    assert_eq!(rt; unsubscribed_in(rt.alloc(), body), Some((1, 0, 2)));
}

fn outcome(message: &Message) -> Option<(u64, Outcome)> {
    match message {
        Message::SyncResponse(m) => Some((m.number, m.outcome)),
        _ => None,
    }
}

fn outcome_in(alloc: Global, body: &[u8]) -> Option<(u64, Outcome)> {
    match decode(alloc, 11, body) {
        Ok(message) => outcome(&message),
        Err(_) => None,
    }
}

#[test]
fn a_response_has_its_outcome(rt: HostRuntime) {
    let (_kind, body) = SPELLED[18];
    let stale = Outcome::Stale { latest: 5 };
    assert_eq!(rt; outcome_in(rt.alloc(), body), Some((4, stale)));
}

fn stream(alloc: Global) -> Result<Vec<u8>, Fail> {
    let mut out = Vec::new(alloc);
    for (kind, body) in &SPELLED {
        if body.len() < 1_048_576 {
            let frame = frame_bytes(alloc, *kind, body)?;
            out.extend_from_slice(&frame)?;
        }
    }
    Ok(out)
}

fn is_vector(frame: &Frame, place: usize) -> bool {
    match SPELLED.get(place) {
        Some((kind, body)) => frame.kind == *kind && frame.body.as_slice() == *body,
        None => false,
    }
}

fn are_vectors(frames: &[Frame], from: usize) -> bool {
    frames.iter().enumerate().all(|(place, frame)| is_vector(frame, from.saturating_add(place)))
}

/// How many frames a stream gives, fed in two pieces, where they are those of the table.
fn cut_in_two(alloc: Global, bytes: &[u8], cut: usize) -> Result<usize, FrameFault> {
    let mut framer = Framer::new(alloc);
    let (front, behind) = bytes.split_at(cut.min(bytes.len()));
    let first = framer.feed(front)?;
    let second = framer.feed(behind)?;
    if are_vectors(&first, 0) && are_vectors(&second, first.len()) {
        Ok(first.len().saturating_add(second.len()))
    } else {
        Ok(0)
    }
}

#[test]
fn a_stream_of_all_kinds_is_cut_anywhere(rt: HostRuntime) -> Result<(), Fail> {
    let bytes = stream(rt.alloc())?;
    assert_eq!(rt; bytes.len(), 1505);
    for cut in 0..1505 {
        assert_eq!(rt; cut_in_two(rt.alloc(), &bytes, cut)?, 33);
    }
    Ok(())
}
