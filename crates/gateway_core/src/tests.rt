use super::*;
use ring_map::Ring;
use row_value::Scheme;
use stab_base::{Bytes, ClientNo, Node, Sequence, StoreNo, TableNo, Version};
use std::alloc::Global;
use std::test::Fail;
use table_model::{
    Message, OperationResponse, PullRequest, RegisterDevice, RestoreClientSubscriptions,
    SubscribeTable, TableSubscription, TableVersionUpdateNotification, UnsubscribeTable,
};

/// A message that was sent, in short.
#[derive(Debug, Clone, Copy, PartialEq, Eq)]
enum Seen {
    Nothing,
    Several(usize),
    /// To a client: the table, the kind that is answered, the status and the token.
    Answer(ClientNo, TableNo, u8, u32, u64),
    /// To a client: the bits of the tables.
    Notify(ClientNo, u64),
    /// To a Store: the client whose subscriptions are asked for.
    Asks(StoreNo, ClientNo),
    /// To a Store: the client, the table, whether it is on, the period and the tolerance.
    Saves(StoreNo, ClientNo, TableNo, bool, u32, u32),
    /// To a Store: the token, the table and the position.
    Pull(StoreNo, u64, TableNo, Version),
    Other,
}

fn seen_in(sent: &Sent) -> Seen {
    match sent {
        (Node::Client(client), Message::OperationResponse(m)) => {
            Seen::Answer(*client, m.table, m.answered, m.status, m.token)
        }
        (Node::Client(client), Message::Notify(m)) => Seen::Notify(*client, m.bitmap),
        (Node::Store(store), Message::RestoreClientSubscriptions(m)) => {
            Seen::Asks(*store, m.client)
        }
        (Node::Store(store), Message::SaveClientSubscription(m)) => {
            Seen::Saves(*store, m.client, m.table, m.on, m.period, m.tolerance)
        }
        (Node::Store(store), Message::PullRequest(m)) => {
            Seen::Pull(*store, m.token, m.table, m.position)
        }
        _ => Seen::Other,
    }
}

/// What was gathered: one message, or how many there are.
fn gathered(gateway: &mut Gateway) -> Seen {
    let out = gateway.take_out();
    match out.messages.as_slice() {
        [] => Seen::Nothing,
        [sent] => seen_in(sent),
        more => Seen::Several(more.len()),
    }
}

/// What was gathered, as three messages.
fn three_gathered(gateway: &mut Gateway) -> Option<(Seen, Seen, Seen)> {
    let out = gateway.take_out();
    match out.messages.as_slice() {
        [first, second, third] => Some((seen_in(first), seen_in(second), seen_in(third))),
        _ => None,
    }
}

fn named(alloc: Global, table: TableNo, scheme: Scheme, name: &str) -> Result<NamedTable, Fail> {
    Ok(NamedTable {
        table,
        scheme,
        name: Bytes::from_slice(alloc, name.as_bytes())?,
    })
}

/// Gateway 7 before the Stores 1 and 2. Table 1 is causal and at Store 2; table 2 is strong and at Store 1; table 64 is
/// eventual and at Store 1.
fn gateway(alloc: Global) -> Result<Gateway, Fail> {
    let mut ring = Ring::new(alloc);
    ring.join_node(2)?;
    ring.join_node(1)?;
    let tables = vec![in alloc;
        named(alloc, 64, Scheme::Eventual, "bar")?,
        named(alloc, 1, Scheme::Causal, "a")?,
        named(alloc, 2, Scheme::Strong, "b")?,
    ]?;
    let directory = Directory::new(alloc, tables.as_slice(), &ring)?;
    Ok(Gateway::new(alloc, 7, directory)?)
}

/// What happens at the gateway. Messages are client 3's, and the answers to it.
#[derive(Debug, Clone, Copy, PartialEq, Eq)]
enum Step {
    Register(ClientNo),
    /// The token and the table.
    Pull(u64, TableNo),
    /// The table, the period and the tolerance, with token 1.
    Subscribe(TableNo, u32, u32),
    /// With token 1.
    Unsubscribe(TableNo),
    /// Store 1 tells of a change of the table.
    Change(TableNo),
    /// Store 2 answers about table 1: the kind that is answered, and the status.
    Respond(u8, u32),
    /// Store 2 has kept a subscription of table 1: the period and the tolerance.
    Restore(u32, u32),
    Tick,
    Crash,
    Start(u32),
}

fn register(client: ClientNo) -> Message {
    Message::RegisterDevice(RegisterDevice { client })
}

fn subscribe(client: ClientNo, token: u64, table: TableNo, period: u32, tolerance: u32) -> Message {
    Message::SubscribeTable(SubscribeTable {
        client,
        token,
        table,
        period,
        tolerance,
    })
}

fn change(table: TableNo) -> Message {
    Message::TableVersionUpdateNotification(TableVersionUpdateNotification {
        gate: 7,
        table,
        version: 1,
    })
}

fn restore(alloc: Global, period: u32, tolerance: u32) -> Result<Message, GateFault> {
    let mut subscriptions = Sequence::new(alloc);
    subscriptions.push(TableSubscription {
        table: 1,
        period,
        tolerance,
    })?;
    Ok(Message::RestoreClientSubscriptions(RestoreClientSubscriptions {
        client: 3,
        gate: 7,
        reply: true,
        subscriptions,
    }))
}

fn pull(token: u64, table: TableNo) -> Message {
    Message::PullRequest(PullRequest {
        client: 3,
        token,
        table,
        position: 5,
    })
}

fn respond(answered: u8, status: u32) -> Message {
    Message::OperationResponse(OperationResponse {
        client: 3,
        table: 1,
        answered,
        status,
        token: 0,
        schema: None,
    })
}

/// Lets a message come in. Nothing happens where the gateway is down.
fn take(gateway: &mut Gateway, from: Node, message: &Message) -> Result<(), GateFault> {
    if gateway.is_up() {
        gateway.deliver(from, message)?;
    }
    Ok(())
}

fn tick(gateway: &mut Gateway) -> Result<(), GateFault> {
    if gateway.is_up() {
        gateway.tick()?;
    }
    Ok(())
}

fn act(alloc: Global, gateway: &mut Gateway, step: Step) -> Result<(), GateFault> {
    let client = Node::Client(3);
    match step {
        Step::Register(client) => take(gateway, Node::Client(client), &register(client)),
        Step::Pull(token, table) => take(gateway, client, &pull(token, table)),
        Step::Subscribe(table, period, tolerance) => {
            take(gateway, client, &subscribe(3, 1, table, period, tolerance))
        }
        Step::Unsubscribe(table) => {
            let message = UnsubscribeTable {
                client: 3,
                token: 1,
                table,
            };
            take(gateway, client, &Message::UnsubscribeTable(message))
        }
        Step::Change(table) => take(gateway, Node::Store(1), &change(table)),
        Step::Respond(answered, status) => {
            take(gateway, Node::Store(2), &respond(answered, status))
        }
        Step::Restore(period, tolerance) => {
            take(gateway, Node::Store(2), &restore(alloc, period, tolerance)?)
        }
        Step::Tick => tick(gateway),
        Step::Crash => {
            gateway.crash();
            Ok(())
        }
        Step::Start(starts) => {
            gateway.start(starts);
            Ok(())
        }
    }
}

/// The place of the first step behind which something else was gathered than told.
fn first_other(alloc: Global, steps: &[(Step, Seen)]) -> Result<Option<usize>, Fail> {
    let mut gateway = gateway(alloc)?;
    for (place, (step, told)) in steps.iter().enumerate() {
        act(alloc, &mut gateway, *step)?;
        if gathered(&mut gateway) != *told {
            return Ok(Some(place));
        }
    }
    Ok(None)
}

/// Token 1 counts until the client registers again or the gateway crashes.
const TOKENS: [(Step, Seen); 12] = [
    (Step::Pull(0, 1), Seen::Answer(3, 1, 8, 19, 0)),
    (Step::Register(3), Seen::Several(3)),
    (Step::Pull(1, 1), Seen::Pull(2, 1, 1, 5)),
    (Step::Pull(1, 3), Seen::Answer(3, 3, 8, 18, 1)),
    (Step::Register(3), Seen::Several(3)),
    (Step::Pull(1, 1), Seen::Answer(3, 1, 8, 19, 1)),
    (Step::Pull(2, 64), Seen::Pull(1, 2, 64, 5)),
    (Step::Crash, Seen::Nothing),
    (Step::Start(1), Seen::Nothing),
    (Step::Respond(2, 0), Seen::Nothing),
    (Step::Register(3), Seen::Several(3)),
    (Step::Pull(2, 1), Seen::Answer(3, 1, 8, 19, 2)),
];

/// A timer of period 2 and tolerance 1 fires at the third tick, once for each mark.
const WAITING: [(Step, Seen); 12] = [
    (Step::Register(3), Seen::Several(3)),
    (Step::Subscribe(1, 2, 1), Seen::Saves(2, 3, 1, true, 2, 1)),
    (Step::Change(1), Seen::Nothing),
    (Step::Tick, Seen::Nothing),
    (Step::Tick, Seen::Nothing),
    (Step::Tick, Seen::Notify(3, 1)),
    (Step::Tick, Seen::Nothing),
    (Step::Tick, Seen::Nothing),
    (Step::Tick, Seen::Nothing),
    (Step::Change(64), Seen::Nothing),
    (Step::Change(1), Seen::Nothing),
    (Step::Tick, Seen::Notify(3, 1)),
];

/// A strong table is told at once, with each marked one.
const AT_ONCE: [(Step, Seen); 8] = [
    (Step::Register(3), Seen::Several(3)),
    (Step::Subscribe(64, 9, 9), Seen::Saves(1, 3, 64, true, 9, 9)),
    (Step::Subscribe(2, 9, 9), Seen::Saves(1, 3, 2, true, 9, 9)),
    (Step::Change(64), Seen::Nothing),
    (Step::Change(2), Seen::Notify(3, 0x8000000000000002)),
    (Step::Change(2), Seen::Notify(3, 2)),
    (Step::Unsubscribe(2), Seen::Saves(1, 3, 2, false, 0, 0)),
    (Step::Change(2), Seen::Nothing),
];

/// A subscription that was refused has no timer; one that a Store has kept is marked.
const ANSWERS: [(Step, Seen); 12] = [
    (Step::Register(3), Seen::Several(3)),
    (Step::Subscribe(1, 1, 0), Seen::Saves(2, 3, 1, true, 1, 0)),
    (Step::Change(1), Seen::Nothing),
    (Step::Respond(4, 0), Seen::Answer(3, 1, 4, 0, 0)),
    (Step::Respond(2, 18), Seen::Answer(3, 1, 2, 18, 0)),
    (Step::Tick, Seen::Notify(3, 1)),
    (Step::Change(1), Seen::Nothing),
    (Step::Respond(4, 18), Seen::Answer(3, 1, 4, 18, 0)),
    (Step::Tick, Seen::Nothing),
    (Step::Restore(1, 1), Seen::Nothing),
    (Step::Tick, Seen::Nothing),
    (Step::Tick, Seen::Notify(3, 1)),
];

#[test]
fn a_token_counts_until_the_next_registration_or_crash(rt: HostRuntime) -> Result<(), Fail> {
    assert_eq!(rt; first_other(rt.alloc(), &TOKENS)?, None);
    Ok(())
}

#[test]
fn a_marked_timer_fires_at_its_period_and_tolerance(rt: HostRuntime) -> Result<(), Fail> {
    assert_eq!(rt; first_other(rt.alloc(), &WAITING)?, None);
    Ok(())
}

#[test]
fn a_change_of_a_strong_table_is_told_at_once(rt: HostRuntime) -> Result<(), Fail> {
    assert_eq!(rt; first_other(rt.alloc(), &AT_ONCE)?, None);
    Ok(())
}

#[test]
fn refused_subscriptions_have_no_timer_and_restored_ones_are_marked(
    rt: HostRuntime,
) -> Result<(), Fail> {
    assert_eq!(rt; first_other(rt.alloc(), &ANSWERS)?, None);
    Ok(())
}

#[test]
fn a_client_that_registers_gets_a_token_and_the_stores_are_asked(
    rt: HostRuntime,
) -> Result<(), Fail> {
    let mut gateway = gateway(rt.alloc())?;
    gateway.start(1);
    take(&mut gateway, Node::Client(3), &register(3))?;
    let told = (
        Seen::Answer(3, 0, 1, 0, 0x100000001),
        Seen::Asks(1, 3),
        Seen::Asks(2, 3),
    );
    assert_eq!(rt; three_gathered(&mut gateway), Some(told));
    Ok(())
}

#[test]
fn messages_that_no_rule_takes_are_dropped(rt: HostRuntime) -> Result<(), Fail> {
    let mut gateway = gateway(rt.alloc())?;
    take(&mut gateway, Node::Store(1), &register(3))?;
    take(&mut gateway, Node::Gate(7), &register(3))?;
    take(&mut gateway, Node::Client(3), &change(2))?;
    assert_eq!(rt; gathered(&mut gateway), Seen::Nothing);
    Ok(())
}

/// The bits of the notifies that were gathered, joined by `&`, and how many there are.
fn notified(gateway: &mut Gateway) -> (u64, usize) {
    let out = gateway.take_out();
    let mut bits = u64::MAX;
    for sent in out.messages.as_slice() {
        bits &= match seen_in(sent) {
            Seen::Notify(_, bitmap) => bitmap,
            _ => 0,
        };
    }
    (bits, out.messages.len())
}

/// A gateway before one Store that owns the tables 1 to 64, of which the last one is strong.
fn full_gateway(alloc: Global) -> Result<Gateway, Fail> {
    let mut ring = Ring::new(alloc);
    ring.join_node(1)?;
    let mut tables = Vec::new(alloc);
    for table in 1..65 {
        let scheme = if table == 64 {
            Scheme::Strong
        } else {
            Scheme::Causal
        };
        tables.push(named(alloc, table, scheme, "notes")?)?;
    }
    let directory = Directory::new(alloc, tables.as_slice(), &ring)?;
    Ok(Gateway::new(alloc, 1, directory)?)
}

fn subscribe_to_all(gateway: &mut Gateway, client: ClientNo) -> Result<(), GateFault> {
    let from = Node::Client(client);
    take(gateway, from, &register(client))?;
    for table in 1..65 {
        take(
            gateway,
            from,
            &subscribe(client, u64::from(client), table, 9, 0),
        )?;
    }
    Ok(())
}

/// Each client has subscribed to each table, and each causal table has changed, eight ticks ago.
fn nearly_due(gateway: &mut Gateway) -> Result<(), GateFault> {
    for client in 1..65 {
        subscribe_to_all(gateway, client)?;
    }
    for table in 1..64 {
        take(gateway, Node::Store(1), &change(table))?;
    }
    for _ in 0..8 {
        tick(gateway)?;
    }
    Ok(())
}

#[test]
fn each_client_may_subscribe_to_each_table(rt: HostRuntime) -> Result<(), Fail> {
    let mut gateway = full_gateway(rt.alloc())?;
    nearly_due(&mut gateway)?;
    assert_eq!(rt; notified(&mut gateway), (0, 64 * 66));
    tick(&mut gateway)?;
    assert_eq!(rt; notified(&mut gateway), (0x7fffffffffffffff, 64));
    take(&mut gateway, Node::Store(1), &change(64))?;
    assert_eq!(rt; notified(&mut gateway), (0x8000000000000000, 64));
    Ok(())
}
