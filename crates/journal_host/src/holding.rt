//! What one client's node holds of tables that it hasn't closed.
ghost use Rattle.std.specs.Prelude.{◌≡◌, true, is_some, option_map};
ghost use Rattle.client_node.specs.HeldRows.{row_held};
ghost use Rattle.client_node.specs.Node.{IsNode};
ghost use Rattle.journal_host.specs.NodeCalls.{LooksAt};

use client_node::{CallFault, ClientNode, RowHeld};
use disk_trait::Disk;
use stab_base::{RowId, TableNo};

/// What a node that is up holds of a row under the Store's names: none where the table isn't opened, or is closed.
pub(crate) fn open_row<D: Disk + Drop>(
    node: &mut ClientNode<D>,
    table: TableNo,
    row: &RowId,
) -> Result<Option<RowHeld>, CallFault>
    requires node { IsNode D.state node.old }
    requires up { node.old.is_up ≡ true }
    ensures { LooksAt D.state table (option_map (row_held row.now)) node.old node.new result }
{
    let closed = node.has_closed(table)?;
    if closed {
        return Ok(None);
    }
    node.held_row(table, row)
}

/// Whether a node that is up has a table opened, and hasn't closed it.
pub(crate) fn has_open<D: Disk + Drop>(
    node: &mut ClientNode<D>,
    table: TableNo,
) -> Result<bool, CallFault>
    requires node { IsNode D.state node.old }
    requires up { node.old.is_up ≡ true }
    ensures { LooksAt D.state table (λ opened. is_some opened) node.old node.new result }
{
    let closed = node.has_closed(table)?;
    if closed {
        return Ok(false);
    }
    node.has_opened(table)
}
