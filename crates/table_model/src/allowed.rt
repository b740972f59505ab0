ghost use Rattle.std.specs.Prelude.{◌≡◌, ◌↔◌, IsTrue};
ghost use Rattle.std.specs.List.{list_all, list_any};
ghost use Rattle.table_model.specs.Allowed.{entry_allowed, is_read_or_own, is_entry_at, IsAllowed};

use crate::entry::{Entry, current};
use row_value::Scheme;
use stab_base::{RowId, Version};

fn is_read_or_own(before: &Entry, entry: &Entry, read: Version) -> bool
    ensures { result ≡ is_read_or_own entry.now read before.now }
{
    before.row.cmp(&entry.row).is_ne()
        || before.version <= read
        || before.client == entry.client && before.number < entry.number
}

fn is_entry_at(before: &Entry, row: &RowId, version: Version) -> bool
    ensures { result ≡ is_entry_at row.now version before.now }
{
    before.row.cmp(row).is_eq() && before.version == version
}

fn all_read_or_own(history: &[Entry], entry: &Entry, read: Version) -> bool
    ensures { result ≡ list_all (is_read_or_own entry.now read) history.now }
{
    history
        .iter()
        .all(|before| is_read_or_own(before, entry, read))
}

fn has_entry_at(history: &[Entry], row: &RowId, version: Version) -> bool
    ensures { result ≡ list_any (is_entry_at row.now version) history.now }
{
    history
        .iter()
        .any(|before| is_entry_at(before, row, version))
}

fn allowed_by(scheme: Scheme, history: &[Entry], entry: &Entry, read: Version) -> bool
    ensures { result ≡ entry_allowed scheme history.now entry.now read }
{
    match scheme {
        Scheme::Strong => entry.base == read && entry.base == current(history, &entry.row),
        Scheme::Causal => {
            entry.base == current(history, &entry.row) && all_read_or_own(history, entry, read)
        }
        Scheme::Eventual => entry.base == 0 || has_entry_at(history, &entry.row, entry.base),
    }
}

/// Whether a table of this scheme may accept the entry behind this history, where its write was made by a client that
/// had read the version `read` of the row. It looks at the whole history.
pub fn entry_allowed(scheme: Scheme, history: &[Entry], entry: &Entry, read: Version) -> bool
    ensures value { result ≡ entry_allowed scheme history.now entry.now read }
    ensures allowed { IsTrue result ↔ IsAllowed scheme history.now entry.now read }
{
    allowed_by(scheme, history, entry, read)
}
