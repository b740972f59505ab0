ghost use Rattle.std.specs.Prelude.{◌≡◌, IfOk, None};
ghost use Rattle.client_tables.specs.Transitions.{settled, rewritten, by_choice, resolved};

use crate::change::{Change, Sending, one_tell, two_tells, unchanged};
use held_value::{HeldContent, Main, Shadow, Slots, Tell, Tells, copy_out};
use stab_base::WriteNo;
use std::alloc::{AllocError, Global};

/// How a conflict is resolved.
#[derive(Debug, Drop)]
pub enum HeldChoice {
    /// By the client's own write, made again.
    Mine,
    /// By the Store's row.
    Theirs,
    /// By another content.
    New(HeldContent),
}

fn settled(
    slots: &Slots,
    row: &Shadow,
    main: Option<Main>,
    tells: Tells,
) -> Result<Change, AllocError>
    ensures { IfOk result (λ change. change ≡ settled slots.now row.now main tells) }
{
    Ok(Change {
        slots: Some(Slots {
            main,
            shadow: Some(row.copy()?),
            out: copy_out(&slots.out)?,
            conflict: None,
        }),
        tells,
        sends: Sending::Nothing,
    })
}

fn rewritten(
    alloc: Global,
    slots: &Slots,
    row: &Shadow,
    main: &Main,
    number: WriteNo,
    content: HeldContent,
) -> Result<Change, AllocError>
    ensures { IfOk result (λ change. change ≡ rewritten slots.now row.now main.now number content) }
{
    let read = row.version;
    let tells = two_tells(
        alloc,
        Tell::Resolved {
            number: main.number,
            version: read,
        },
        Tell::Wrote { number, read },
    )?;
    let written = Main {
        number,
        read,
        content,
    };
    settled(slots, row, Some(written), tells)
}

fn by_choice(
    alloc: Global,
    slots: &Slots,
    row: &Shadow,
    main: &Main,
    number: WriteNo,
    choice: HeldChoice,
) -> Result<Change, AllocError>
    ensures { IfOk result (λ change. change ≡ by_choice slots.now row.now main.now number choice) }
{
    match choice {
        HeldChoice::Theirs => {
            let tell = Tell::Resolved {
                number: main.number,
                version: row.version,
            };
            settled(slots, row, None, one_tell(alloc, tell)?)
        }
        HeldChoice::Mine => rewritten(alloc, slots, row, main, number, main.content.copy()?),
        HeldChoice::New(content) => rewritten(alloc, slots, row, main, number, content),
    }
}

/// The conflict is resolved. With `Mine` and `New` the client writes again, with this number. Where the row isn't in
/// conflict nothing changes.
pub fn resolve(
    alloc: Global,
    slots: &Slots,
    number: WriteNo,
    choice: HeldChoice,
) -> Result<Change, AllocError>
    ensures { IfOk result (λ change. change ≡ resolved slots.now number choice) }
{
    match (&slots.conflict, &slots.main) {
        (Some(row), Some(main)) => by_choice(alloc, slots, row, main, number, choice),
        _ => Ok(unchanged(alloc, Sending::Nothing)),
    }
}
