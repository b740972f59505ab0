//! How a table's devices take on the put of what stands beside the rows.
ghost use Rattle.std.specs.Prelude.{◌≡◌, ◌≤◌, [], ◌∷◌, length};
ghost use Rattle.vault.specs.Limit.{payload_most};
ghost use Rattle.value_codec.specs.SchemaSpelling.{HasSchemaSpelling};
ghost use Rattle.row_store.specs.Spelling.{IsClient, table_payload};
ghost use Rattle.store_commit.specs.Standing.{writes_of, AreUp, IsReady};
ghost use Rattle.store_commit.specs.TakesOn.{TakesOn};
ghost use Rattle.store_node.specs.Sides.{IsOfClient, sub_write, write_beside};

use crate::live::number_of;
use crate::side_put::SidePut;
use disk_trait::Disk;
use row_value::Schema;
use stab_base::ClientNo;
use store_commit::{CommitFault, TableDevs};
use table_model::SubTerms;

// Takes on the put of a client's subscription, or that it has none.
fn begin_sub<D: Disk + Drop>(
    table: &mut TableDevs<D>,
    client: ClientNo,
    terms: Option<SubTerms>,
) -> Result<(), CommitFault>
    requires ready { AreUp table.old → IsReady D.state table.old (writes_of table.old) }
    requires client { IsClient client }
    ensures takes { TakesOn D.state D.images ⊥ (λ _. sub_write client terms ∷ []) table.old table.new result }
    ensures scanned { table.new.scanned ≡ table.old.scanned }
{
    match terms {
        Some(terms) => table.begin_sub(client, true, terms.gate, terms.period, terms.tolerance),
        None => table.begin_sub(client, false, 0, 0, 0),
    }
}

/// Takes the put on. Its one write is then to be done.
pub(crate) fn begin_beside<D: Disk + Drop>(
    table: &mut TableDevs<D>,
    schema: &Schema,
    put: SidePut,
) -> Result<(), CommitFault>
    requires ready { AreUp table.old → IsReady D.state table.old (writes_of table.old) }
    requires spelled { HasSchemaSpelling schema.now }
    requires short { length (table_payload schema.now 2) ≤ payload_most }
    requires client { IsOfClient put }
    ensures takes { TakesOn D.state D.images ⊥ (λ _. write_beside schema.now put ∷ [])
        table.old table.new result }
    ensures scanned { table.new.scanned ≡ table.old.scanned }
{
    match put {
        SidePut::State(state) => table.begin_table(schema, number_of(state)),
        SidePut::Sub { client, terms } => begin_sub(table, client, terms),
    }
}
