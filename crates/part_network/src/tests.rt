use super::*;
use stab_base::Sequence;
use std::alloc::{AllocError, Global};
use std::test::Fail;
use step_tables::{PullRequest, PullResponse};
use table_model::{Fact, Message, MessageName, Node, TextLine};

const CLIENT: Node = Node::Client(3);

const STORE: Node = Node::Store(1);

/// A pull to the Store, and an answer to a client: packets 0 and 1.
fn send_both(network: &mut Network, lines: &mut Sequence<TextLine>) -> Result<(), NetworkFault> {
    let pull = PullRequest {
        client: 3,
        token: 0,
        table: 2,
        position: 7,
    };
    network.send(
        CLIENT,
        STORE,
        2,
        step_tables::Message::PullRequest(pull),
        lines,
    )?;
    let answer = PullResponse {
        client: 3,
        table: 2,
        from: 7,
        to: 7,
        latest: 7,
        header: None,
    };
    network.send(
        STORE,
        CLIENT,
        2,
        step_tables::Message::PullResponse(answer),
        lines,
    )
}

/// The number, the parties and the name that a line tells.
fn sent_in(line: Option<&TextLine>) -> Option<(u64, Node, Node, MessageName)> {
    match line {
        Some(
            TextLine::Fact(
                Fact::Sent {
                    packet,
                    from,
                    to,
                    name,
                },
            ),
        ) => Some((*packet, *from, *to, *name)),
        _ => None,
    }
}

#[test]
fn packets_have_numbers_from_0(rt: HostRuntime) -> Result<(), Fail> {
    let mut network = Network::new(rt.alloc());
    let mut lines = Sequence::new(rt.alloc());
    send_both(&mut network, &mut lines)?;
    let first = (0, CLIENT, STORE, MessageName::PullRequest);
    let second = (1, STORE, CLIENT, MessageName::PullResponse);
    assert_eq!(rt; lines.len(), 2);
    assert_eq!(rt; sent_in(lines.get(0)), Some(first));
    assert_eq!(rt; sent_in(lines.get(1)), Some(second));
    Ok(())
}

#[test]
fn packets_are_counted(rt: HostRuntime) -> Result<(), Fail> {
    let mut network = Network::new(rt.alloc());
    let mut lines = Sequence::new(rt.alloc());
    send_both(&mut network, &mut lines)?;
    assert_eq!(rt; network.sent(), 2);
    // 5 bytes of length and kind, and 24 or 33 of the body
    assert_eq!(rt; network.bytes(), 67);
    assert_eq!(rt; network.frame_len(0), Some(29));
    assert_eq!(rt; network.frame_len(1), Some(38));
    assert_eq!(rt; network.frame_len(2), None);
    assert_eq!(rt; network.address(0), Some(STORE));
    assert_eq!(rt; network.address(1), Some(CLIENT));
    assert_eq!(rt; network.address(2), None);
    Ok(())
}

/// The sender of a packet, and the name of its message.
fn read(
    alloc: Global,
    network: &Network,
    number: u64,
) -> Result<Option<(Node, MessageName)>, AllocError> {
    match network.read(alloc, number)? {
        Some((from, message)) => Ok(Some((from, message.name()))),
        None => Ok(None),
    }
}

/// The position that a pull asks for.
fn position(alloc: Global, network: &Network, number: u64) -> Result<Option<u64>, AllocError> {
    match network.read(alloc, number)? {
        Some((_, Message::PullRequest(pull))) => Ok(Some(pull.position)),
        _ => Ok(None),
    }
}

#[test]
fn a_packet_is_read_again(rt: HostRuntime) -> Result<(), Fail> {
    let mut network = Network::new(rt.alloc());
    let mut lines = Sequence::new(rt.alloc());
    send_both(&mut network, &mut lines)?;
    assert_eq!(rt;
        read(rt.alloc(), &network, 0)?,
        Some((CLIENT, MessageName::PullRequest))
    );
    assert_eq!(rt; position(rt.alloc(), &network, 0)?, Some(7));
    assert_eq!(rt;
        read(rt.alloc(), &network, 1)?,
        Some((STORE, MessageName::PullResponse))
    );
    assert_eq!(rt;
        read(rt.alloc(), &network, 0)?,
        Some((CLIENT, MessageName::PullRequest))
    );
    assert_eq!(rt; read(rt.alloc(), &network, 2)?, None);
    Ok(())
}
