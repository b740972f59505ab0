ghost use Rattle.std.specs.Prelude.{◌≡◌, IfOk};
ghost use Rattle.client_tables.specs.Change.{seen_in};
ghost use Rattle.client_tables.specs.Transitions.{acknowledged, read_row, number_in, in_conflict, is_eventual, is_read};
ghost use Rattle.client_tables.specs.Transitions.{taken};

use crate::change::{Change, Sending, one_tell, unchanged};
use crate::response::without;
use crate::writes::version_in;
use held_value::{Main, Out, Shadow, Slots, Tell, Tells, copy_main, copy_out, copy_shadow};
use row_value::Scheme;
use stab_base::{Sequence, Version, WriteNo};
use std::alloc::{AllocError, Global};
use table_model::Yours;

/// The version that the client has seen: that of the conflict, else the one that was read.
fn seen_in(conflict: &Option<Shadow>, shadow: &Option<Shadow>) -> Version
    ensures { result ≡ seen_in conflict.now shadow.now }
{
    match conflict {
        None => version_in(shadow),
        Some(row) => row.version,
    }
}

/// What is left of the client's writes once a header has told which was accepted, and what is told of it.
#[derive(Drop)]
pub(crate) struct Acknowledged {
    main: Option<Main>,
    out: Option<Out>,
    tells: Tells,
}

fn take_yours(alloc: Global, yours: Yours, slots: &Slots) -> Result<Acknowledged, AllocError>
    ensures { IfOk result (λ acked. acked ≡ acknowledged yours slots.now) }
{
    match &slots.out {
        Some(out) if out.number <= yours.number => Ok(Acknowledged {
            main: without(out.number, &slots.main)?,
            out: None,
            tells: one_tell(
                alloc,
                Tell::Acked {
                    number: out.number,
                    version: yours.version,
                },
            )?,
        }),
        _ => Ok(Acknowledged {
            main: copy_main(&slots.main)?,
            out: copy_out(&slots.out)?,
            tells: Sequence::new(alloc),
        }),
    }
}

fn read_row(slots: &Slots, mut acked: Acknowledged, row: Shadow) -> Result<Change, AllocError>
    ensures { IfOk result (λ change. change ≡ read_row slots.now acked row) }
{
    let tell = Tell::New {
        version: row.version,
    };
    acked.tells.push(tell)?;
    Ok(Change {
        slots: Some(Slots {
            main: acked.main,
            shadow: Some(row),
            out: acked.out,
            conflict: copy_shadow(&slots.conflict)?,
        }),
        tells: acked.tells,
        sends: Sending::Nothing,
    })
}

fn number_in(main: &Option<Main>) -> WriteNo
    ensures { result ≡ number_in main.now }
{
    match main {
        None => 0,
        Some(main) => main.number,
    }
}

fn in_conflict(slots: &Slots, mut acked: Acknowledged, row: Shadow) -> Result<Change, AllocError>
    ensures { IfOk result (λ change. change ≡ in_conflict slots.now acked row) }
{
    let tell = Tell::Conflict {
        number: number_in(&acked.main),
        version: row.version,
    };
    acked.tells.push(tell)?;
    Ok(Change {
        slots: Some(Slots {
            main: acked.main,
            shadow: copy_shadow(&slots.shadow)?,
            out: None,
            conflict: Some(row),
        }),
        tells: acked.tells,
        sends: Sending::Nothing,
    })
}

fn is_eventual(scheme: Scheme) -> bool
    ensures { result ≡ is_eventual scheme }
{
    match scheme {
        Scheme::Eventual => true,
        Scheme::Strong | Scheme::Causal => false,
    }
}

fn is_read(scheme: Scheme, slots: &Slots, acked: &Acknowledged, yours: Yours, row: &Shadow) -> bool
    ensures { result ≡ is_read scheme slots.now acked.now yours row.now }
{
    acked.main.is_none()
        || is_eventual(scheme)
        || slots.conflict.is_none() && yours.version == row.version
}

/// The row comes from the Store with the client's last accepted write on it, `yours`. A row that isn't newer than what
/// the client has seen changes nothing.
pub fn take_header(
    alloc: Global,
    scheme: Scheme,
    slots: &Slots,
    yours: Yours,
    row: Shadow,
) -> Result<Change, AllocError>
    ensures { IfOk result (λ change. change ≡ taken scheme slots.now yours row) }
{
    if row.version <= seen_in(&slots.conflict, &slots.shadow) {
        return Ok(unchanged(alloc, Sending::Nothing));
    }
    let acked = take_yours(alloc, yours, slots)?;
    if is_read(scheme, slots, &acked, yours, &row) {
        read_row(slots, acked, row)
    } else {
        in_conflict(slots, acked, row)
    }
}
