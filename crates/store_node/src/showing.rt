//! A row as a node reads it whole from its devices, and shows it.
ghost use Rattle.std.specs.Prelude.{◌≡◌, option_map, IfOk};
ghost use Rattle.store_commit.specs.Standing.{devs, AreUp, AreLookedAt, NothingHidden};
ghost use Rattle.device_laws.specs.Stands.{pair_in};
ghost use Rattle.store_node.specs.Reading.{Only, whole_row, whole_at, shown_row};
ghost use Rattle.store_node.specs.Taking.{pair_of};

use crate::reading::{names_held, read_content, whole};
use crate::taking::yours_in;
use disk_trait::Disk;
use row_store::{LastWrites, StoredRow};
use row_value::Content;
use stab_base::{ClientNo, RowId, Version};
use std::alloc::Global;
use step_tables::{ObjectNames, Yours};
use store_commit::{CommitFault, TableDevs};

/// A row with its content whole, the names of its chunks, and the last write of each client on it.
#[derive(Debug, Drop)]
pub struct WholeRow {
    pub row: RowId,
    pub version: Version,
    pub content: Content,
    pub names: ObjectNames,
    pub pairs: LastWrites,
}

impl WholeRow {
    /// A client's last write on the row; zeros where there is none.
    pub fn yours(&self, client: ClientNo) -> Yours
        ensures { pair_of result ≡ pair_in self.now.pairs client }
    {
        yours_in(&self.pairs, client)
    }
}

/// What a table at the Store shows of a row.
#[derive(Debug, Drop)]
pub struct ShownRow {
    pub version: Version,
    pub content: Content,
}

// A row with its content whole.
fn read_whole<D: Disk + Drop>(
    alloc: Global,
    table: &mut TableDevs<D>,
    stored: StoredRow,
) -> Result<WholeRow, CommitFault>
    requires up { AreUp table.old }
    requires looked { AreLookedAt D.state table.old }
    ensures reads { Only D.state D.images table.old table.new result }
    ensures row { IfOk result (λ found. found ≡ whole_row (devs D.state table.old) stored) }
{
    let held = read_content(alloc, table, &stored.content)?;
    let names = names_held(alloc, &held)?;
    Ok(WholeRow {
        row: stored.row,
        version: stored.version,
        content: whole(alloc, stored.content, &held)?,
        names,
        pairs: stored.pairs,
    })
}

/// The row of an id with its content whole, if it is there.
pub(crate) fn read_row<D: Disk + Drop>(
    alloc: Global,
    table: &mut TableDevs<D>,
    row: &RowId,
) -> Result<Option<WholeRow>, CommitFault>
    requires up { AreUp table.old }
    requires looked { AreLookedAt D.state table.old }
    requires hidden { NothingHidden table.old }
    ensures reads { Only D.state D.images table.old table.new result }
    ensures row { IfOk result (λ found. found ≡ whole_at (devs D.state table.old) row.now) }
{
    match table.row(row)? {
        Some(stored) => Ok(Some(read_whole(alloc, table, stored)?)),
        None => Ok(None),
    }
}

/// What is shown of a row that was read.
pub(crate) fn shown(found: Option<WholeRow>) -> Option<ShownRow>
    ensures { result ≡ option_map shown_row found }
{
    match found {
        Some(found) => Some(ShownRow {
            version: found.version,
            content: found.content,
        }),
        None => None,
    }
}
