use crate::{
    Change, HeldChoice, HeldChunks, Sending, ShownAs, can_send, dropped, held_against,
    is_countable, plan_header, plan_write, resolve, send, shown_as, take_header, take_response,
    write, write_strong,
};
use held_value::{HeldContent, HeldObject, HeldPiece, LocalName, Main, Shadow, Slots, Tell};
use row_value::{Piece, Pieces, Scheme};
use stab_base::{Bytes, ChunkName, Sequence, Version, WriteNo};
use std::alloc::{AllocError, Global};
use std::test::Fail;
use table_model::{Outcome, Yours};

#[derive(Clone, Copy)]
enum Step {
    Write(WriteNo),
    WriteStrong(WriteNo),
    Send,
    Answer(WriteNo, Outcome),
    // A row of this version, with the number and the version of the client's last accepted write.
    Row(Version, WriteNo, Version),
    Mine(WriteNo),
    Theirs,
    New(WriteNo),
}

// What the last of some steps did: what it told, what it sent, whether a slot changed; and how the row is shown behind
// it.
#[derive(Debug, Clone, Copy, PartialEq, Eq)]
struct Seen {
    tells: (Option<Tell>, Option<Tell>, Option<Tell>),
    sends: Sending,
    changed: bool,
    shown: ShownAs,
}

const KEPT: Piece = Piece::Keep(ChunkName {
    version: 1,
    ordinal: 1,
});

fn pieces(alloc: Global) -> Result<Pieces, AllocError> {
    let mut pieces = Sequence::new(alloc);
    pieces.push(Piece::Fresh(0))?;
    pieces.push(KEPT)?;
    Ok(pieces)
}

fn nothing(alloc: Global) -> Change {
    Change {
        slots: None,
        tells: Sequence::new(alloc),
        sends: Sending::Nothing,
    }
}

fn sent(alloc: Global, slots: &Slots) -> Result<Change, AllocError> {
    if can_send(slots) {
        send(alloc, slots, pieces(alloc)?)
    } else {
        Ok(nothing(alloc))
    }
}

fn answered(
    alloc: Global,
    slots: &Slots,
    number: WriteNo,
    outcome: Outcome,
) -> Result<Change, AllocError> {
    if is_countable(slots) {
        take_response(alloc, slots, number, outcome)
    } else {
        Ok(nothing(alloc))
    }
}

fn done(alloc: Global, scheme: Scheme, slots: &Slots, step: Step) -> Result<Change, AllocError> {
    match step {
        Step::Write(number) => write(alloc, slots, number, HeldContent::Gone),
        Step::WriteStrong(number) => {
            write_strong(alloc, slots, number, HeldContent::Gone, pieces(alloc)?)
        }
        Step::Send => sent(alloc, slots),
        Step::Answer(number, outcome) => answered(alloc, slots, number, outcome),
        Step::Row(version, number, accepted) => take_header(
            alloc,
            scheme,
            slots,
            Yours {
                number,
                version: accepted,
            },
            Shadow {
                version,
                content: HeldContent::Gone,
            },
        ),
        Step::Mine(number) => resolve(alloc, slots, number, HeldChoice::Mine),
        Step::Theirs => resolve(alloc, slots, 0, HeldChoice::Theirs),
        Step::New(number) => resolve(alloc, slots, number, HeldChoice::New(HeldContent::Gone)),
    }
}

fn seen_of(change: &Change, shown: ShownAs) -> Seen {
    Seen {
        tells: (
            change.tells.get(0).copied(),
            change.tells.get(1).copied(),
            change.tells.get(2).copied(),
        ),
        sends: change.sends,
        changed: change.slots.is_some(),
        shown,
    }
}

fn behind(slots: Slots, change: Change) -> Slots {
    let Change {
        slots: changed,
        tells: _,
        sends: _,
    } = change;
    match changed {
        Some(changed) => changed,
        None => slots,
    }
}

fn run(alloc: Global, scheme: Scheme, steps: &[Step]) -> Result<(Slots, Seen), AllocError> {
    let mut slots = Slots::EMPTY;
    let mut last = seen_of(&nothing(alloc), ShownAs::Nothing);
    for step in steps {
        let change = done(alloc, scheme, &slots, *step)?;
        last = seen_of(&change, ShownAs::Nothing);
        slots = behind(slots, change);
        last.shown = shown_as(&slots);
    }
    Ok((slots, last))
}

fn seen_behind(alloc: Global, scheme: Scheme, steps: &[Step]) -> Result<Seen, AllocError> {
    let (_slots, seen) = run(alloc, scheme, steps)?;
    Ok(seen)
}

const CASES: [(Scheme, &[Step], Seen); 25] = [
    // a causal write, its conflict, and its resolving
    (
        Scheme::Causal,
        &[Step::Write(1)],
        Seen {
            tells: (Some(Tell::Wrote { number: 1, read: 0 }), None, None),
            sends: Sending::Nothing,
            changed: true,
            shown: ShownAs::Mine { number: 1 },
        },
    ),
    (
        Scheme::Causal,
        &[Step::Write(1), Step::Send],
        Seen {
            tells: (None, None, None),
            sends: Sending::Request,
            changed: true,
            shown: ShownAs::Mine { number: 1 },
        },
    ),
    (
        Scheme::Causal,
        &[
            Step::Write(1),
            Step::Send,
            Step::Answer(1, Outcome::Conflict { latest: 1 }),
        ],
        Seen {
            tells: (None, None, None),
            sends: Sending::Pull,
            changed: false,
            shown: ShownAs::Mine { number: 1 },
        },
    ),
    (
        Scheme::Causal,
        &[
            Step::Write(1),
            Step::Send,
            Step::Answer(1, Outcome::Conflict { latest: 1 }),
            Step::Row(1, 0, 0),
        ],
        Seen {
            tells: (
                Some(Tell::Conflict {
                    number: 1,
                    version: 1,
                }),
                None,
                None,
            ),
            sends: Sending::Nothing,
            changed: true,
            shown: ShownAs::Conflict {
                number: 1,
                version: 1,
            },
        },
    ),
    (
        Scheme::Causal,
        &[
            Step::Write(1),
            Step::Send,
            Step::Answer(1, Outcome::Conflict { latest: 1 }),
            Step::Row(1, 0, 0),
            Step::Row(2, 0, 0),
        ],
        Seen {
            tells: (
                Some(Tell::Conflict {
                    number: 1,
                    version: 2,
                }),
                None,
                None,
            ),
            sends: Sending::Nothing,
            changed: true,
            shown: ShownAs::Conflict {
                number: 1,
                version: 2,
            },
        },
    ),
    (
        Scheme::Causal,
        &[
            Step::Write(1),
            Step::Send,
            Step::Answer(1, Outcome::Conflict { latest: 1 }),
            Step::Row(1, 0, 0),
            Step::Row(1, 0, 0),
        ],
        Seen {
            tells: (None, None, None),
            sends: Sending::Nothing,
            changed: false,
            shown: ShownAs::Conflict {
                number: 1,
                version: 1,
            },
        },
    ),
    (
        Scheme::Causal,
        &[
            Step::Write(1),
            Step::Send,
            Step::Answer(1, Outcome::Conflict { latest: 1 }),
            Step::Row(1, 0, 0),
            Step::New(2),
        ],
        Seen {
            tells: (
                Some(Tell::Resolved {
                    number: 1,
                    version: 1,
                }),
                Some(Tell::Wrote { number: 2, read: 1 }),
                None,
            ),
            sends: Sending::Nothing,
            changed: true,
            shown: ShownAs::Mine { number: 2 },
        },
    ),
    (
        Scheme::Causal,
        &[
            Step::Write(1),
            Step::Send,
            Step::Answer(1, Outcome::Conflict { latest: 1 }),
            Step::Row(1, 0, 0),
            Step::Mine(2),
            Step::Send,
            Step::Answer(2, Outcome::Accepted { version: 3 }),
        ],
        Seen {
            tells: (
                Some(Tell::Acked {
                    number: 2,
                    version: 3,
                }),
                None,
                None,
            ),
            sends: Sending::Nothing,
            changed: true,
            shown: ShownAs::Clean { version: 3 },
        },
    ),
    (
        Scheme::Causal,
        &[
            Step::Write(1),
            Step::Send,
            Step::Answer(1, Outcome::Conflict { latest: 1 }),
            Step::Row(1, 0, 0),
            Step::Theirs,
        ],
        Seen {
            tells: (
                Some(Tell::Resolved {
                    number: 1,
                    version: 1,
                }),
                None,
                None,
            ),
            sends: Sending::Nothing,
            changed: true,
            shown: ShownAs::Clean { version: 1 },
        },
    ),
    // an answer that was lost comes with a row
    (
        Scheme::Causal,
        &[Step::Write(1), Step::Send, Step::Row(2, 1, 1)],
        Seen {
            tells: (
                Some(Tell::Acked {
                    number: 1,
                    version: 1,
                }),
                Some(Tell::New { version: 2 }),
                None,
            ),
            sends: Sending::Nothing,
            changed: true,
            shown: ShownAs::Clean { version: 2 },
        },
    ),
    // a later write stands over one that was accepted, and the row of another is in conflict with it
    (
        Scheme::Causal,
        &[
            Step::Write(1),
            Step::Send,
            Step::Write(2),
            Step::Row(2, 1, 1),
        ],
        Seen {
            tells: (
                Some(Tell::Acked {
                    number: 1,
                    version: 1,
                }),
                Some(Tell::Conflict {
                    number: 2,
                    version: 2,
                }),
                None,
            ),
            sends: Sending::Nothing,
            changed: true,
            shown: ShownAs::Conflict {
                number: 2,
                version: 2,
            },
        },
    ),
    (
        Scheme::Causal,
        &[
            Step::Write(1),
            Step::Send,
            Step::Write(2),
            Step::Row(1, 1, 1),
        ],
        Seen {
            tells: (
                Some(Tell::Acked {
                    number: 1,
                    version: 1,
                }),
                Some(Tell::New { version: 1 }),
                None,
            ),
            sends: Sending::Nothing,
            changed: true,
            shown: ShownAs::Mine { number: 2 },
        },
    ),
    (
        Scheme::Causal,
        &[
            Step::Write(1),
            Step::Send,
            Step::Write(2),
            Step::Answer(1, Outcome::Accepted { version: 1 }),
        ],
        Seen {
            tells: (
                Some(Tell::Acked {
                    number: 1,
                    version: 1,
                }),
                None,
                None,
            ),
            sends: Sending::Nothing,
            changed: true,
            shown: ShownAs::Mine { number: 2 },
        },
    ),
    // a strong write is shown when it was accepted
    (
        Scheme::Strong,
        &[Step::WriteStrong(1)],
        Seen {
            tells: (Some(Tell::Wrote { number: 1, read: 0 }), None, None),
            sends: Sending::Request,
            changed: true,
            shown: ShownAs::Nothing,
        },
    ),
    (
        Scheme::Strong,
        &[
            Step::WriteStrong(1),
            Step::Answer(1, Outcome::Accepted { version: 1 }),
        ],
        Seen {
            tells: (
                Some(Tell::Acked {
                    number: 1,
                    version: 1,
                }),
                None,
                None,
            ),
            sends: Sending::Nothing,
            changed: true,
            shown: ShownAs::Clean { version: 1 },
        },
    ),
    (
        Scheme::Strong,
        &[
            Step::WriteStrong(1),
            Step::Answer(1, Outcome::Stale { latest: 1 }),
        ],
        Seen {
            tells: (
                Some(Tell::Refused {
                    number: 1,
                    latest: 1,
                }),
                None,
                None,
            ),
            sends: Sending::Pull,
            changed: true,
            shown: ShownAs::Nothing,
        },
    ),
    // an eventual row is read under an open write
    (
        Scheme::Eventual,
        &[Step::Write(1), Step::Send, Step::Row(4, 0, 0)],
        Seen {
            tells: (Some(Tell::New { version: 4 }), None, None),
            sends: Sending::Nothing,
            changed: true,
            shown: ShownAs::Mine { number: 1 },
        },
    ),
    (
        Scheme::Eventual,
        &[
            Step::Write(1),
            Step::Send,
            Step::Row(4, 0, 0),
            Step::Answer(1, Outcome::Again { version: 5 }),
        ],
        Seen {
            tells: (
                Some(Tell::Acked {
                    number: 1,
                    version: 5,
                }),
                None,
                None,
            ),
            sends: Sending::Nothing,
            changed: true,
            shown: ShownAs::Clean { version: 5 },
        },
    ),
    // all is sent once, and answers to other writes change nothing
    (
        Scheme::Eventual,
        &[
            Step::Write(1),
            Step::Send,
            Step::Answer(1, Outcome::NeedWhole),
        ],
        Seen {
            tells: (None, None, None),
            sends: Sending::Request,
            changed: true,
            shown: ShownAs::Mine { number: 1 },
        },
    ),
    (
        Scheme::Eventual,
        &[
            Step::Write(1),
            Step::Send,
            Step::Answer(1, Outcome::NeedWhole),
            Step::Answer(1, Outcome::NeedWhole),
        ],
        Seen {
            tells: (None, None, None),
            sends: Sending::Nothing,
            changed: false,
            shown: ShownAs::Mine { number: 1 },
        },
    ),
    (
        Scheme::Eventual,
        &[
            Step::Write(1),
            Step::Send,
            Step::Answer(2, Outcome::Accepted { version: 9 }),
        ],
        Seen {
            tells: (None, None, None),
            sends: Sending::Nothing,
            changed: false,
            shown: ShownAs::Mine { number: 1 },
        },
    ),
    (
        Scheme::Eventual,
        &[
            Step::Write(1),
            Step::Send,
            Step::Answer(1, Outcome::Late { last: 2 }),
        ],
        Seen {
            tells: (None, None, None),
            sends: Sending::Nothing,
            changed: false,
            shown: ShownAs::Mine { number: 1 },
        },
    ),
    (
        Scheme::Eventual,
        &[Step::Answer(1, Outcome::Accepted { version: 1 })],
        Seen {
            tells: (None, None, None),
            sends: Sending::Nothing,
            changed: false,
            shown: ShownAs::Nothing,
        },
    ),
    (
        Scheme::Eventual,
        &[Step::Theirs],
        Seen {
            tells: (None, None, None),
            sends: Sending::Nothing,
            changed: false,
            shown: ShownAs::Nothing,
        },
    ),
    (
        Scheme::Eventual,
        &[Step::Send],
        Seen {
            tells: (None, None, None),
            sends: Sending::Nothing,
            changed: false,
            shown: ShownAs::Nothing,
        },
    ),
];

#[test]
fn each_step_tells_sends_and_shows(rt: HostRuntime) -> Result<(), Fail> {
    for (place, (scheme, steps, seen)) in CASES.iter().enumerate() {
        assert_eq!(rt;
            seen_behind(rt.alloc(), *scheme, steps)?,
            *seen,
            "case {place}"
        );
    }
    Ok(())
}

fn local(plan: u64, ordinal: u32) -> HeldPiece {
    HeldPiece {
        local: LocalName { plan, ordinal },
        name: None,
    }
}

// The chunks `a` and `b` are shown; the new object's are `a`, which the Store has as 2.0, then `c` and `b`.
fn held(alloc: Global) -> Result<HeldChunks, AllocError> {
    let mut shown = Sequence::new(alloc);
    shown.push((local(3, 0), Bytes::from_slice(alloc, b"a")?))?;
    shown.push((local(3, 1), Bytes::from_slice(alloc, b"b")?))?;
    let name = ChunkName {
        version: 2,
        ordinal: 0,
    };
    let mut new = Sequence::new(alloc);
    new.push((Some(name), Bytes::from_slice(alloc, b"a")?))?;
    new.push((None, Bytes::from_slice(alloc, b"c")?))?;
    new.push((None, Bytes::from_slice(alloc, b"b")?))?;
    held_against(alloc, &shown, new, 0)
}

fn held_names(alloc: Global) -> Result<(Option<HeldPiece>, Option<HeldPiece>, usize), AllocError> {
    let held = held(alloc)?;
    Ok((
        held.pieces.get(0).copied(),
        held.pieces.get(2).copied(),
        held.brought.len(),
    ))
}

#[test]
fn equal_chunks_keep_their_local_names(rt: HostRuntime) -> Result<(), Fail> {
    let kept = HeldPiece {
        local: LocalName {
            plan: 3,
            ordinal: 0,
        },
        name: Some(ChunkName {
            version: 2,
            ordinal: 0,
        }),
    };
    assert_eq!(rt; held_names(rt.alloc())?, (Some(kept), Some(local(0, 1)), 2));
    Ok(())
}

fn main_of(alloc: Global, first: u32, last: u32) -> Result<Slots, AllocError> {
    let mut pieces = Sequence::new(alloc);
    pieces.push(local(3, first))?;
    pieces.push(local(3, last))?;
    let mut objects = Sequence::new(alloc);
    objects.push(HeldObject { len: 128, pieces })?;
    let content = HeldContent::Row {
        cells: Sequence::new(alloc),
        objects,
    };
    Ok(Slots {
        main: Some(Main {
            number: 1,
            read: 0,
            content,
        }),
        shadow: None,
        out: None,
        conflict: None,
    })
}

fn first_dropped(alloc: Global) -> Result<(Option<LocalName>, usize), AllocError> {
    let drops = dropped(alloc, &main_of(alloc, 2, 1)?, &main_of(alloc, 1, 4)?)?;
    Ok((drops.get(0).copied(), drops.len()))
}

#[test]
fn chunks_that_no_slot_names_are_dropped(rt: HostRuntime) -> Result<(), Fail> {
    assert_eq!(rt; first_dropped(rt.alloc())?, (Some(local(3, 2).local), 1));
    Ok(())
}

fn content_of(main: &Slots) -> Result<HeldContent, AllocError> {
    match &main.main {
        Some(main) => main.content.copy(),
        None => Ok(HeldContent::Gone),
    }
}

// A write of another content over a row: the chunks that are brought and dropped, and the first that is dropped.
fn write_planned(alloc: Global) -> Result<(usize, usize, Option<LocalName>), AllocError> {
    let content = content_of(&main_of(alloc, 1, 4)?)?;
    let mut chunks = Sequence::new(alloc);
    chunks.push(Bytes::from_slice(alloc, b"c")?)?;
    let plan = plan_write(alloc, &main_of(alloc, 2, 1)?, 2, content, chunks)?;
    Ok((
        plan.chunks.len(),
        plan.drops.len(),
        plan.drops.get(0).copied(),
    ))
}

// A row that was seen before: it brings nothing.
fn old_row_planned(alloc: Global) -> Result<(bool, usize, usize), AllocError> {
    let row = Shadow {
        version: 0,
        content: HeldContent::Gone,
    };
    let mut chunks = Sequence::new(alloc);
    chunks.push(Bytes::from_slice(alloc, b"c")?)?;
    let yours = Yours {
        number: 0,
        version: 0,
    };
    let plan = plan_header(
        alloc,
        Scheme::Causal,
        &main_of(alloc, 2, 1)?,
        yours,
        row,
        chunks,
    )?;
    Ok((
        plan.change.slots.is_none(),
        plan.chunks.len(),
        plan.drops.len(),
    ))
}

#[test]
fn plans_bring_and_drop_chunks(rt: HostRuntime) -> Result<(), Fail> {
    assert_eq!(rt; write_planned(rt.alloc())?, (1, 1, Some(local(3, 2).local)));
    assert_eq!(rt; old_row_planned(rt.alloc())?, (true, 0, 0));
    Ok(())
}
