ghost use Rattle.std.specs.Prelude.{◌≡◌, option_copied};
ghost use Rattle.client_tables.specs.Shown.{shown_as, shown_content};

use held_value::{HeldContent, Slots};
use stab_base::{Version, WriteNo};

/// As what a client shows a row.
#[derive(Debug, Clone, Copy, PartialEq, Eq)]
pub enum ShownAs {
    /// Nothing is shown.
    Nothing,
    /// The row as it was read from the Store at this version.
    Clean { version: Version },
    /// The client's own write of this number.
    Mine { number: WriteNo },
    /// The client's own write of this number, which is in conflict with the Store's row at this version.
    Conflict { number: WriteNo, version: Version },
}

/// As what the row is shown.
pub fn shown_as(slots: &Slots) -> ShownAs
    ensures { result ≡ shown_as slots.now }
{
    match (&slots.main, &slots.shadow, &slots.conflict) {
        (Some(main), _, Some(row)) => ShownAs::Conflict {
            number: main.number,
            version: row.version,
        },
        (Some(main), _, None) => ShownAs::Mine {
            number: main.number,
        },
        (None, Some(shadow), _) => ShownAs::Clean {
            version: shadow.version,
        },
        (None, None, _) => ShownAs::Nothing,
    }
}

/// The content that is shown. None where nothing is shown.
pub fn shown_content(slots: &Slots) -> Option<&HeldContent>
    ensures { option_copied result ≡ shown_content slots.now }
{
    match (&slots.main, &slots.shadow) {
        (Some(main), _) => Some(&main.content),
        (None, Some(shadow)) => Some(&shadow.content),
        (None, None) => None,
    }
}
