//! What a table's devices tell of a row that is asked for whole, and of the next change.
ghost use Rattle.std.specs.Prelude.{◌≡◌, option_map, IfOk};
ghost use Rattle.store_commit.specs.Standing.{devs, AreUp, AreLookedAt, NothingHidden};
ghost use Rattle.step_tables.specs.Travels.{header_of};
ghost use Rattle.store_node.specs.Reading.{Only};
ghost use Rattle.store_node.specs.Taking.{header_by, header_at, version_or, IsPulled};
ghost use Rattle.store_node.specs.Taking.{IsTornPulled};

use crate::showing::{WholeRow, read_row};
use crate::taking::yours_in;
use disk_trait::Disk;
use stab_base::{ClientNo, RowVersion, Version};
use std::alloc::Global;
use step_tables::{PullRequest, PullResponse, RowHeader, TornRowRequest, TornRowResponse};
use store_commit::{CommitFault, TableDevs};

fn header(client: ClientNo, found: WholeRow) -> RowHeader
    ensures { header_of result ≡ header_by client found }
{
    RowHeader {
        row: found.row,
        version: found.version,
        yours: yours_in(&found.pairs, client),
        content: found.content,
        names: found.names,
    }
}

fn header_if(client: ClientNo, found: Option<WholeRow>) -> Option<RowHeader>
    ensures { option_map header_of result ≡ option_map (header_by client) found }
{
    match found {
        Some(found) => Some(header(client, found)),
        None => None,
    }
}

// The row of the next change as a client is told of it.
fn read_header<D: Disk + Drop>(
    alloc: Global,
    table: &mut TableDevs<D>,
    client: ClientNo,
    next: &Option<RowVersion>,
) -> Result<Option<RowHeader>, CommitFault>
    requires up { AreUp table.old }
    requires looked { AreLookedAt D.state table.old }
    requires hidden { NothingHidden table.old }
    ensures reads { Only D.state D.images table.old table.new result }
    ensures header { IfOk result (λ made.
        option_map header_of made ≡ header_at (devs D.state table.old) client next.now) }
{
    match next {
        Some(next) => {
            let found = read_row(alloc, table, &next.row)?;
            Ok(header_if(client, found))
        }
        None => Ok(None),
    }
}

// The version of the next change, else the position.
fn version_or(position: Version, next: &Option<RowVersion>) -> Version
    ensures { result ≡ version_or position next.now }
{
    match next {
        Some(next) => next.version,
        None => position,
    }
}

/// The answer to a pull.
pub(crate) fn pull<D: Disk + Drop>(
    alloc: Global,
    table: &mut TableDevs<D>,
    request: &PullRequest,
) -> Result<PullResponse, CommitFault>
    requires up { AreUp table.old }
    requires looked { AreLookedAt D.state table.old }
    requires hidden { NothingHidden table.old }
    ensures reads { Only D.state D.images table.old table.new result }
    ensures answer { IfOk result (IsPulled (devs D.state table.old) request.now) }
{
    let latest = table.table_version()?;
    let next = table.next_changed(request.position)?;
    let header = read_header(alloc, table, request.client, &next)?;
    Ok(PullResponse {
        client: request.client,
        table: request.table,
        from: request.position,
        to: version_or(request.position, &next),
        latest,
        header,
    })
}

/// The answer to a client that asks for a row whole: the row as it is now, none where nothing was written to it.
pub(crate) fn pull_torn<D: Disk + Drop>(
    alloc: Global,
    table: &mut TableDevs<D>,
    request: &TornRowRequest,
) -> Result<TornRowResponse, CommitFault>
    requires up { AreUp table.old }
    requires looked { AreLookedAt D.state table.old }
    requires hidden { NothingHidden table.old }
    ensures reads { Only D.state D.images table.old table.new result }
    ensures answer { IfOk result (IsTornPulled (devs D.state table.old) request.now) }
{
    let found = read_row(alloc, table, &request.row)?;
    Ok(TornRowResponse {
        client: request.client,
        table: request.table,
        row: request.row,
        header: header_if(request.client, found),
    })
}
