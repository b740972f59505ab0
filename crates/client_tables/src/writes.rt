ghost use Rattle.std.specs.Prelude.{◌≡◌, IfOk, true};
ghost use Rattle.client_tables.specs.Change.{version_in, seen_in};
ghost use Rattle.client_tables.specs.Transitions.{written, written_strong, can_send, sent};

use crate::change::{Change, Sending, one_tell, unchanged};
use held_value::{HeldContent, Main, Out, Shadow, Slots, Tell, copy_main, copy_out, copy_shadow};
use row_value::Pieces;
use stab_base::{Sequence, Version, WriteNo};
use std::alloc::{AllocError, Global};

/// The version of the row that was read, 0 where there is none.
pub(crate) fn version_in(shadow: &Option<Shadow>) -> Version
    ensures { result ≡ version_in shadow.now }
{
    match shadow {
        None => 0,
        Some(shadow) => shadow.version,
    }
}

/// A write of this number in a causal or an eventual table: it is the row's last write, and is sent when the table is
/// synchronized.
pub fn write(
    alloc: Global,
    slots: &Slots,
    number: WriteNo,
    content: HeldContent,
) -> Result<Change, AllocError>
    ensures { IfOk result (λ change. change ≡ written slots.now number content) }
{
    let read = version_in(&slots.shadow);
    Ok(Change {
        slots: Some(Slots {
            main: Some(Main {
                number,
                read,
                content,
            }),
            shadow: copy_shadow(&slots.shadow)?,
            out: copy_out(&slots.out)?,
            conflict: copy_shadow(&slots.conflict)?,
        }),
        tells: one_tell(alloc, Tell::Wrote { number, read })?,
        sends: Sending::Nothing,
    })
}

/// A write of this number in a strong table: it is sent at once, with its chunks spelled by `pieces`, and is shown when
/// it was accepted.
pub fn write_strong(
    alloc: Global,
    slots: &Slots,
    number: WriteNo,
    content: HeldContent,
    pieces: Pieces,
) -> Result<Change, AllocError>
    ensures { IfOk result (λ change. change ≡ written_strong slots.now number content pieces) }
{
    let read = version_in(&slots.shadow);
    Ok(Change {
        slots: Some(Slots {
            main: copy_main(&slots.main)?,
            shadow: copy_shadow(&slots.shadow)?,
            out: Some(Out {
                number,
                read,
                base: read,
                whole: false,
                content,
                pieces,
            }),
            conflict: copy_shadow(&slots.conflict)?,
        }),
        tells: one_tell(alloc, Tell::Wrote { number, read })?,
        sends: Sending::Request,
    })
}

/// Whether the row has a write that can be sent: its last one, where none waits for an answer and it isn't in conflict.
pub fn can_send(slots: &Slots) -> bool
    ensures { result ≡ can_send slots.now }
{
    slots.main.is_some() && slots.out.is_none() && slots.conflict.is_none()
}

/// The row's last write is sent over the version that was read, with its chunks spelled by `pieces`.
pub fn send(alloc: Global, slots: &Slots, pieces: Pieces) -> Result<Change, AllocError>
    requires { can_send slots.now ≡ true }
    ensures { IfOk result (λ change. change ≡ sent slots.now pieces) }
{
    let Some(main) = &slots.main else {
        return Ok(unchanged(alloc, Sending::Nothing));
    };
    Ok(Change {
        slots: Some(Slots {
            main: Some(main.copy()?),
            shadow: copy_shadow(&slots.shadow)?,
            out: Some(Out {
                number: main.number,
                read: main.read,
                base: version_in(&slots.shadow),
                whole: false,
                content: main.content.copy()?,
                pieces,
            }),
            conflict: copy_shadow(&slots.conflict)?,
        }),
        tells: Sequence::new(alloc),
        sends: Sending::Request,
    })
}
