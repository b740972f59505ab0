//! The calls among the events of a script, but for pulls.
ghost use Rattle.std.specs.Prelude.{◌≡◌, IfOk, IfErr};
ghost use Rattle.node_steps.specs.declared.fault.WorldFault.TheVariants.{Memory};
ghost use Rattle.node_steps.specs.Asked.{ask_of};

use crate::fault::WorldFault;
use conflicts::Choice;
use journal_host::Ask;
use row_edits::Edit;
use row_value::{ClientNo, Content, RowId, TableNo, Version};
use table_model::Event;

fn write_of(table: TableNo, row: RowId, content: &Content) -> Result<Ask, WorldFault>
    ensures same { IfOk result (λ ask. ask ≡ Ask.Write table row content.now) }
    ensures memory { IfErr result (λ e. e ≡ Memory) }
{
    let content = content.copy()?;
    Ok(Ask::Write {
        table,
        row,
        content,
    })
}

fn edit_of(table: TableNo, row: RowId, edit: &Edit) -> Result<Ask, WorldFault>
    ensures same { IfOk result (λ ask. ask ≡ Ask.Edit table row edit.now) }
    ensures memory { IfErr result (λ e. e ≡ Memory) }
{
    let edit = edit.clone()?;
    Ok(Ask::Edit { table, row, edit })
}

fn copied(choice: &Choice) -> Result<Choice, WorldFault>
    ensures same { IfOk result (λ made. made ≡ choice.now) }
    ensures memory { IfErr result (λ e. e ≡ Memory) }
{
    match choice {
        Choice::Mine => Ok(Choice::Mine),
        Choice::Theirs => Ok(Choice::Theirs),
        Choice::New(content) => Ok(Choice::New(content.copy()?)),
    }
}

fn resolve_of(table: TableNo, row: RowId, seen: Version, choice: &Choice) -> Result<Ask, WorldFault>
    ensures same { IfOk result (λ ask. ask ≡ Ask.Resolve table row seen choice.now) }
    ensures memory { IfErr result (λ e. e ≡ Memory) }
{
    let choice = copied(choice)?;
    Ok(Ask::Resolve {
        table,
        row,
        seen,
        choice,
    })
}

/// What an event asks of which client, if it is a call.
pub(crate) fn asked(event: &Event) -> Result<Option<(ClientNo, Ask)>, WorldFault>
    ensures asked { IfOk result (λ found. found ≡ ask_of event.now) }
    ensures memory { IfErr result (λ e. e ≡ Memory) }
{
    let found = match event {
        Event::Write {
            client,
            table,
            row,
            content,
        } => (*client, write_of(*table, *row, content)?),
        Event::Edit {
            client,
            table,
            row,
            edit,
        } => (*client, edit_of(*table, *row, edit)?),
        Event::Show { client, table, row } => (
            *client,
            Ask::Show {
                table: *table,
                row: *row,
            },
        ),
        Event::Sum { client, table, row } => (
            *client,
            Ask::Sum {
                table: *table,
                row: *row,
            },
        ),
        Event::Sync { client, table } => (*client, Ask::Sync { table: *table }),
        Event::BeginCr { client, table } => (*client, Ask::BeginCr { table: *table }),
        Event::EndCr { client, table } => (*client, Ask::EndCr { table: *table }),
        Event::Resolve {
            client,
            table,
            row,
            seen,
            choice,
        } => (*client, resolve_of(*table, *row, *seen, choice)?),
        _ => return Ok(None),
    };
    Ok(Some(found))
}
