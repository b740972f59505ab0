use super::*;
use std::alloc::Global;
use std::test::Fail;
use table_model::{Message, UnsubscribeTable};

/// The frame of an `unsubscribeTable` of client 1, token 0, table 2.
const UNSUBSCRIBE: [u8; 21] = [
    0, 0, 0, 17, 5, 0, 0, 0, 1, 0, 0, 0, 0, 0, 0, 0, 0, 0, 0, 0, 2,
];

#[test]
fn a_message_is_put_into_its_frame(rt: HostRuntime) -> Result<(), Fail> {
    let message = Message::UnsubscribeTable(UnsubscribeTable {
        client: 1,
        token: 0,
        table: 2,
    });
    let frame = frame_of(rt.alloc(), &message)?;
    assert_eq!(rt; frame.as_slice(), UNSUBSCRIBE.as_slice());
    Ok(())
}

fn fault(alloc: Global, bytes: &[u8]) -> Option<FrameError> {
    message_in(alloc, bytes).err()
}

#[test]
fn a_frame_gives_its_message(rt: HostRuntime) -> Result<(), Fail> {
    let read = match message_in(rt.alloc(), &UNSUBSCRIBE)? {
        Message::UnsubscribeTable(read) => Some(read),
        _ => None,
    };
    let expected = UnsubscribeTable {
        client: 1,
        token: 0,
        table: 2,
    };
    assert_eq!(rt; read, Some(expected));
    Ok(())
}

#[test]
fn other_bytes_give_none(rt: HostRuntime) {
    for end in 0..UNSUBSCRIBE.len() {
        assert_eq!(rt;
            fault(rt.alloc(), &UNSUBSCRIBE[..end]),
            Some(FrameError::NoMessage)
        );
    }
    let mut behind = [0; 22];
    behind[..21].copy_from_slice(&UNSUBSCRIBE);
    assert_eq!(rt; fault(rt.alloc(), &behind), Some(FrameError::NoMessage));
    // no kind 18; a kind with another body; a length of 0
    assert_eq!(rt;
        fault(rt.alloc(), &[0, 0, 0, 1, 18]),
        Some(FrameError::NoMessage)
    );
    assert_eq!(rt;
        fault(rt.alloc(), &[0, 0, 0, 1, 5]),
        Some(FrameError::NoMessage)
    );
    assert_eq!(rt;
        fault(rt.alloc(), &[0, 0, 0, 0, 5]),
        Some(FrameError::NoMessage)
    );
}
