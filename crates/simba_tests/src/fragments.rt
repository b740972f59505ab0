//! Messages that come in parts to the Store and to clients: a write is accepted, and a row is taken, with its last
//! part, not before, and with no part of another.
use crate::fragment_cases::{
    AT_BOTH, AT_BOTH_TOLD, AT_CLIENT, AT_CLIENT_TOLD, AT_STORE, AT_STORE_TOLD, AT_STORE_WHOLE,
    AT_STORE_WHOLE_TOLD, DOWN, DOWN_CASES, DOWN_TOLD, NEED, NEED_CASES, NEED_TOLD, ONE, ONE_CASES,
    ONE_TOLD, OTHERS, OTHERS_CASES, OTHERS_TOLD, SCRIPTS, TORN, TORN_CASES, TORN_TOLD, TWO,
    TWO_CASES, TWO_TOLD, UP, UP_CASES, UP_TOLD,
};
use crate::runs::check;
use std::process::Abort;
use std::test::Fail;

#[test]
fn parts_of_a_request_are_lost_repeated_and_late(rt: HostRuntime) -> Result<(), Fail> {
    for (lines, written) in UP_CASES {
        check(
            &rt,
            rt.alloc(),
            &[UP, lines, AT_STORE],
            0,
            &[UP_TOLD, written, AT_STORE_TOLD],
        )?;
    }
    Ok(())
}

#[test]
fn a_fragment_is_of_one_clients_write(rt: HostRuntime) -> Result<(), Fail> {
    for (lines, written) in TWO_CASES {
        check(
            &rt,
            rt.alloc(),
            &[TWO, lines, AT_STORE],
            0,
            &[TWO_TOLD, written, AT_STORE_TOLD],
        )?;
    }
    Ok(())
}

#[test]
fn only_the_changed_chunk_travels(rt: HostRuntime) -> Result<(), Fail> {
    for (lines, written) in ONE_CASES {
        check(&rt, rt.alloc(), &[ONE, lines], 0, &[ONE_TOLD, written])?;
    }
    Ok(())
}

#[test]
fn parts_of_an_answer_are_lost_repeated_and_late(rt: HostRuntime) -> Result<(), Fail> {
    for (lines, written) in DOWN_CASES {
        check(
            &rt,
            rt.alloc(),
            &[DOWN, lines, AT_CLIENT],
            0,
            &[DOWN_TOLD, written, AT_CLIENT_TOLD],
        )?;
    }
    Ok(())
}

#[test]
fn a_torn_row_is_asked_for_until_it_is_whole(rt: HostRuntime) -> Result<(), Fail> {
    for (lines, written) in TORN_CASES {
        check(&rt, rt.alloc(), &[TORN, lines], 0, &[TORN_TOLD, written])?;
    }
    Ok(())
}

#[test]
fn a_fragment_is_of_one_row_of_one_table(rt: HostRuntime) -> Result<(), Fail> {
    for (lines, written) in OTHERS_CASES {
        check(
            &rt,
            rt.alloc(),
            &[OTHERS, lines, AT_BOTH],
            0,
            &[OTHERS_TOLD, written, AT_BOTH_TOLD],
        )?;
    }
    Ok(())
}

#[test]
fn a_kept_chunk_that_is_gone_needs_the_whole_write(rt: HostRuntime) -> Result<(), Fail> {
    for (lines, written) in NEED_CASES {
        check(
            &rt,
            rt.alloc(),
            &[NEED, lines, AT_STORE_WHOLE],
            0,
            &[NEED_TOLD, written, AT_STORE_WHOLE_TOLD],
        )?;
    }
    Ok(())
}

#[test]
fn columns_and_chunks_that_were_never_held(rt: HostRuntime) -> Result<(), Fail> {
    for (script, written) in SCRIPTS {
        check(&rt, rt.alloc(), &[script], 0, &[written])?;
    }
    Ok(())
}
