ghost use Rattle.std.specs.Prelude.{◌≡◌, option_copied};
ghost use Rattle.table_model.specs.History.{last_entry, current};

use row_value::{ClientNo, RowId, Sequence, Version, WriteNo};

/// A write that the Store accepted: its version in its table's history, from 1, and the version that it rests on.
#[derive(Debug, Clone, Copy, PartialEq, Eq)]
pub struct Entry {
    pub row: RowId,
    pub version: Version,
    pub client: ClientNo,
    pub number: WriteNo,
    pub base: Version,
}

/// The entries of a table, in the order in which they were accepted.
pub type History = Sequence<Entry>;

fn last_entry<'a>(history: &'a [Entry], row: &RowId) -> Option<&'a Entry>
    ensures { option_copied result ≡ last_entry history.now row.now }
{
    history
        .iter()
        .rev()
        .find(|entry| entry.row.cmp(row).is_eq())
}

/// The version of the row's last entry in a history, 0 where it has none. It looks at the whole history.
pub fn current(history: &[Entry], row: &RowId) -> Version
    ensures { result ≡ current history.now row.now }
{
    match last_entry(history, row) {
        Some(entry) => entry.version,
        None => 0,
    }
}
