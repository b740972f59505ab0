//! What the tells of a plan are as facts.
ghost use Rattle.std.specs.Prelude.{◌≡◌, ◌++◌, map, IfOk, OnOk, option_map, option_to_list};
ghost use Rattle.step_tables.specs.Lines.{fact_of};
ghost use Rattle.client_node.specs.Tells.{told_fact, facts_told};

use held_value::Tell;
use stab_base::{ClientNo, RowId, TableNo};
use std::alloc::{AllocError, Global};
use table_model::{ClientFact, Fact};

// What a tell says of a client's row, where no content comes with it.
fn fact_told(client: ClientNo, table: TableNo, row: &RowId, tell: Tell) -> Option<Fact>
    ensures { option_map fact_of result ≡ told_fact client table row.now tell }
{
    let row = *row;
    let fact = match tell {
        Tell::Acked { number, version } => ClientFact::Acked {
            client,
            number,
            table,
            row,
            version,
        },
        Tell::Refused { number, latest } => ClientFact::Refused {
            client,
            number,
            table,
            row,
            latest,
        },
        Tell::Conflict { number, version } => ClientFact::Conflict {
            client,
            number,
            table,
            row,
            version,
        },
        Tell::Resolved { number, version } => ClientFact::Resolved {
            client,
            number,
            table,
            row,
            version,
        },
        Tell::New { version } => ClientFact::New {
            client,
            table,
            row,
            version,
        },
        Tell::Position { position } => ClientFact::Position {
            client,
            table,
            position,
        },
        Tell::Wrote { .. } | Tell::Opened | Tell::Dropped => return None,
    };
    Some(Fact::Client(fact))
}

fn add_fact(
    facts: &mut Vec<Fact>,
    client: ClientNo,
    table: TableNo,
    row: &RowId,
    tell: Tell,
) -> Result<(), AllocError>
    ensures { OnOk result (map fact_of facts.new.items
        ≡ map fact_of facts.old.items ++ option_to_list (told_fact client table row.now tell)) }
{
    match fact_told(client, table, row, tell) {
        None => Ok(()),
        Some(fact) => {
            facts.push(fact)?;
            Ok(())
        }
    }
}

/// What these tells say of a client's row.
pub(crate) fn facts_told(
    alloc: Global,
    client: ClientNo,
    table: TableNo,
    row: &RowId,
    tells: &[Tell],
) -> Result<Vec<Fact>, AllocError>
    ensures { IfOk result (λ facts. map fact_of facts.items ≡ facts_told client table row.now tells.now) }
{
    let mut facts = Vec::new(alloc);
    for tell in tells {
        add_fact(&mut facts, client, table, row, *tell)?;
    }
    Ok(facts)
}
