use super::*;
use gateway_core::{GateFault, Sent};
use row_value::{Schema, Scheme};
use stab_base::{Bytes, GateNo, Node, Sequence, StoreNo, TableNo};
use std::alloc::{AllocError, Global};
use std::test::Fail;
use table_model::{
    Message, PullRequest, RegisterDevice, RestoreClientSubscriptions, TableSubscription,
};

/// What is declared of the gateways and done to them. Messages are client 3's.
#[derive(Debug, Clone, Copy, PartialEq, Eq)]
enum Step {
    Store(StoreNo),
    /// A causal table, and the letter that is its name.
    Table(TableNo, u8),
    Gate(GateNo),
    Crash(GateNo),
    Start(GateNo),
    Register(GateNo),
    /// The gateway, the token and the table.
    Pull(GateNo, u64, TableNo),
    /// Store 1 answers that it keeps a subscription to table 1, with this period.
    Kept(GateNo, u32),
    Tick(GateNo),
}

/// What a gateway sends, in short.
#[derive(Debug, Clone, Copy, PartialEq, Eq)]
enum Seen {
    Nothing,
    /// The gateway isn't up.
    Down,
    Several(usize),
    /// To the client: the table, the kind that is answered, the status and the token.
    Answer(TableNo, u8, u32, u64),
    /// To a Store: the token and the table.
    Pull(StoreNo, u64, TableNo),
    /// To the client: the tables that changed.
    Notify(u64),
    Other,
}

fn message_in_short(sent: &Sent) -> Seen {
    match sent {
        (Node::Client(3), Message::OperationResponse(m)) => {
            Seen::Answer(m.table, m.answered, m.status, m.token)
        }
        (Node::Store(store), Message::PullRequest(m)) => Seen::Pull(*store, m.token, m.table),
        (Node::Client(3), Message::Notify(m)) => Seen::Notify(m.bitmap),
        _ => Seen::Other,
    }
}

fn in_short(sent: &[Sent]) -> Seen {
    match sent {
        [] => Seen::Nothing,
        [one] => message_in_short(one),
        more => Seen::Several(more.len()),
    }
}

fn schema(alloc: Global, name: u8) -> Result<Schema, AllocError> {
    let name = Bytes::from_slice(alloc, &[name])?;
    Ok(Schema {
        name,
        scheme: Scheme::Causal,
        chunk: 1024,
        columns: Sequence::new(alloc),
    })
}

fn declare(alloc: Global, gates: &mut Gates, table: TableNo, name: u8) -> Result<Seen, AllocError> {
    let schema = schema(alloc, name)?;
    gates.add_table(table, &schema)?;
    Ok(Seen::Nothing)
}

fn pull(token: u64, table: TableNo) -> Message {
    Message::PullRequest(PullRequest {
        client: 3,
        token,
        table,
        position: 0,
    })
}

fn kept(alloc: Global, period: u32) -> Result<Message, AllocError> {
    let mut subscriptions = Sequence::new(alloc);
    subscriptions.push(TableSubscription {
        table: 1,
        period,
        tolerance: 0,
    })?;
    Ok(Message::RestoreClientSubscriptions(RestoreClientSubscriptions {
        client: 3,
        gate: 1,
        reply: true,
        subscriptions,
    }))
}

fn take(gates: &mut Gates, gate: GateNo, from: Node, message: &Message) -> Result<Seen, GateFault> {
    if !gates.is_up(gate) {
        return Ok(Seen::Down);
    }
    let sent = gates.deliver(gate, from, message)?;
    Ok(in_short(sent.as_slice()))
}

fn tick(gates: &mut Gates, gate: GateNo) -> Result<Seen, AllocError> {
    if !gates.is_up(gate) {
        return Ok(Seen::Down);
    }
    let sent = gates.tick(gate)?;
    Ok(in_short(sent.as_slice()))
}

fn act(alloc: Global, gates: &mut Gates, step: Step) -> Result<Seen, GateFault> {
    match step {
        Step::Store(store) => gates.add_store(store)?,
        Step::Table(table, name) => return Ok(declare(alloc, gates, table, name)?),
        Step::Gate(gate) => gates.add_gate(gate)?,
        Step::Crash(gate) => gates.crash(gate),
        Step::Start(gate) => gates.start(gate)?,
        Step::Register(gate) => {
            let message = Message::RegisterDevice(RegisterDevice { client: 3 });
            return take(gates, gate, Node::Client(3), &message);
        }
        Step::Pull(gate, token, table) => {
            return take(gates, gate, Node::Client(3), &pull(token, table));
        }
        Step::Kept(gate, period) => {
            return take(gates, gate, Node::Store(1), &kept(alloc, period)?);
        }
        Step::Tick(gate) => return Ok(tick(gates, gate)?),
    }
    Ok(Seen::Nothing)
}

/// The place of the first step at which something else was sent than told.
fn first_other(alloc: Global, steps: &[(Step, Seen)]) -> Result<Option<usize>, Fail> {
    let mut gates = Gates::new(alloc);
    for (place, (step, told)) in steps.iter().enumerate() {
        if act(alloc, &mut gates, *step)? != *told {
            return Ok(Some(place));
        }
    }
    Ok(None)
}

/// A session stays as Stores and tables are declared, and goes at a crash: the start behind it has other tokens.
const TOKENS: [(Step, Seen); 18] = [
    (Step::Gate(1), Seen::Nothing),
    (Step::Register(1), Seen::Answer(0, 1, 0, 1)),
    (Step::Pull(1, 1, 1), Seen::Answer(1, 8, 18, 1)),
    (Step::Table(1, b'a'), Seen::Nothing),
    (Step::Pull(1, 1, 1), Seen::Answer(1, 8, 18, 1)),
    (Step::Store(1), Seen::Nothing),
    (Step::Pull(1, 1, 1), Seen::Pull(1, 1, 1)),
    (Step::Pull(1, 1, 2), Seen::Answer(2, 8, 18, 1)),
    (Step::Gate(1), Seen::Nothing),
    (Step::Start(1), Seen::Nothing),
    (Step::Pull(1, 1, 1), Seen::Pull(1, 1, 1)),
    (Step::Crash(1), Seen::Nothing),
    (Step::Pull(1, 1, 1), Seen::Down),
    (Step::Start(1), Seen::Nothing),
    (Step::Pull(1, 1, 1), Seen::Answer(1, 8, 19, 1)),
    (Step::Register(1), Seen::Several(2)),
    (Step::Pull(1, 1, 1), Seen::Answer(1, 8, 19, 1)),
    (Step::Pull(1, 0x100000001, 1), Seen::Pull(1, 0x100000001, 1)),
];

/// Each gateway has the directory of all that was declared before and behind it. The tables `a` and `b` are at the
/// Stores 2 and 1 of two, and at the Stores 2 and 3 of three.
const PLACES: [(Step, Seen); 22] = [
    (Step::Gate(1), Seen::Nothing),
    (Step::Gate(2), Seen::Nothing),
    (Step::Store(1), Seen::Nothing),
    (Step::Table(1, b'a'), Seen::Nothing),
    (Step::Register(1), Seen::Several(2)),
    (Step::Register(2), Seen::Several(2)),
    (Step::Pull(1, 1, 1), Seen::Pull(1, 1, 1)),
    (Step::Store(2), Seen::Nothing),
    (Step::Pull(1, 1, 1), Seen::Pull(2, 1, 1)),
    (Step::Pull(2, 1, 1), Seen::Pull(2, 1, 1)),
    (Step::Table(2, b'b'), Seen::Nothing),
    (Step::Pull(2, 1, 2), Seen::Pull(1, 1, 2)),
    (Step::Table(1, b'b'), Seen::Nothing),
    (Step::Pull(1, 1, 1), Seen::Pull(2, 1, 1)),
    (Step::Crash(2), Seen::Nothing),
    (Step::Pull(1, 1, 2), Seen::Pull(1, 1, 2)),
    (Step::Store(3), Seen::Nothing),
    (Step::Start(2), Seen::Nothing),
    (Step::Register(2), Seen::Several(3)),
    (Step::Pull(2, 0x100000001, 2), Seen::Pull(3, 0x100000001, 2)),
    (Step::Gate(3), Seen::Nothing),
    (Step::Register(3), Seen::Several(3)),
];

/// A restored timer is marked: it fires at its period, and then no more. A crash takes it away.
const TICKS: [(Step, Seen); 16] = [
    (Step::Store(1), Seen::Nothing),
    (Step::Table(1, b'a'), Seen::Nothing),
    (Step::Tick(1), Seen::Down),
    (Step::Gate(1), Seen::Nothing),
    (Step::Tick(1), Seen::Nothing),
    (Step::Register(1), Seen::Several(2)),
    (Step::Kept(1, 2), Seen::Nothing),
    (Step::Tick(1), Seen::Nothing),
    (Step::Tick(1), Seen::Notify(1)),
    (Step::Tick(1), Seen::Nothing),
    (Step::Tick(1), Seen::Nothing),
    (Step::Kept(1, 1), Seen::Nothing),
    (Step::Crash(1), Seen::Nothing),
    (Step::Tick(1), Seen::Down),
    (Step::Start(1), Seen::Nothing),
    (Step::Tick(1), Seen::Nothing),
];

#[test]
fn a_session_stays_until_its_gateway_crashes(rt: HostRuntime) -> Result<(), Fail> {
    assert_eq!(rt; first_other(rt.alloc(), &TOKENS)?, None);
    Ok(())
}

#[test]
fn each_gateway_knows_where_all_declared_tables_are(rt: HostRuntime) -> Result<(), Fail> {
    assert_eq!(rt; first_other(rt.alloc(), &PLACES)?, None);
    Ok(())
}

#[test]
fn a_marked_timer_fires_once_at_its_period(rt: HostRuntime) -> Result<(), Fail> {
    assert_eq!(rt; first_other(rt.alloc(), &TICKS)?, None);
    Ok(())
}

/// Whether the gateways 1 and 2 are there, and whether they are up.
fn known(gates: &Gates) -> (bool, bool, bool, bool) {
    (gates.has(1), gates.is_up(1), gates.has(2), gates.is_up(2))
}

#[test]
fn a_gateway_that_is_there_may_be_down(rt: HostRuntime) -> Result<(), Fail> {
    let mut gates = Gates::new(rt.alloc());
    gates.crash(1);
    gates.start(1)?;
    assert_eq!(rt; known(&gates), (false, false, false, false));
    gates.add_gate(1)?;
    gates.add_gate(2)?;
    gates.crash(2);
    gates.add_gate(2)?;
    assert_eq!(rt; known(&gates), (true, true, true, false));
    gates.start(2)?;
    assert_eq!(rt; known(&gates), (true, true, true, true));
    Ok(())
}
