//! What a write tells and sends once it is done.
ghost use Rattle.std.specs.Prelude.{◌≡◌, map, option_to_list};
ghost use Rattle.step_tables.specs.Travels.{send_of};
ghost use Rattle.step_tables.specs.StoreMoves.{told_beside};
ghost use Rattle.store_node.specs.Due.{fact_of, told_at, sent_at, facts_found, state_at};
ghost use Rattle.store_node.specs.Sides.{put_of, state_behind};

use crate::owed::Owed;
use crate::side_put::SidePut;
use crate::told::StoreFact;
use stab_base::{Step, TableNo};
use step_tables::{Addressed, Message, Outcome, SyncResponse};
use store_commit::Recovery;
use table_model::{Entry, TableState};

// What a put beside the rows tells: that the table is live, or dropped, or keeps a subscription.
fn placed(table: TableNo, put: SidePut) -> Option<StoreFact>
    ensures { map fact_of (option_to_list result) ≡ told_beside table (put_of put) }
{
    match put {
        SidePut::State(TableState::Live) => Some(StoreFact::Made { table }),
        SidePut::State(TableState::Dropped) => Some(StoreFact::Unmade { table }),
        SidePut::State(TableState::Draft) => None,
        SidePut::Sub { .. } => Some(StoreFact::Saved { table }),
    }
}

fn state_put(put: SidePut, state: TableState) -> TableState
    ensures { result ≡ state_behind (put_of put) state }
{
    match put {
        SidePut::State(state) => state,
        SidePut::Sub { .. } => state,
    }
}

/// The table's state behind a write, where it was put there.
pub(crate) fn state_behind(owed: &Owed, state: TableState) -> TableState
    ensures { result ≡ state_at owed.now state }
{
    match owed {
        Owed::Place { put } => state_put(*put, state),
        _ => state,
    }
}

/// What a write tells: the put of a row that its entry was accepted, the last write of a start that the table has
/// recovered, a put of the table's state what it is now.
pub(crate) fn fact_due(table: TableNo, owed: &Owed, step: Step, is_last: bool) -> Option<StoreFact>
    ensures { map fact_of (option_to_list result) ≡ told_at table owed.now step is_last }
{
    match owed {
        Owed::Nothing => None,
        Owed::Update { entry, .. } => match step {
            Step::RowPut => Some(StoreFact::Accepted {
                table,
                entry: *entry,
            }),
            _ => None,
        },
        Owed::Start { store } => {
            if is_last {
                Some(StoreFact::Recovered {
                    store: *store,
                    table,
                })
            } else {
                None
            }
        }
        Owed::Place { put } => placed(table, *put),
    }
}

/// What it sends: the close of an entry answers its request.
pub(crate) fn answer_due(table: TableNo, owed: &Owed, step: Step) -> Option<Addressed>
    ensures { map send_of (option_to_list result) ≡ sent_at table owed.now step }
{
    match owed {
        Owed::Update { to, entry } => match step {
            Step::LogClose => Some((
                Some(*to),
                Message::SyncResponse(SyncResponse {
                    client: entry.client,
                    table,
                    row: entry.row,
                    number: entry.number,
                    outcome: Outcome::Accepted {
                        version: entry.version,
                    },
                }),
            )),
            _ => None,
        },
        _ => None,
    }
}

/// What a start tells of the write that was at work, if one was.
pub(crate) fn found(table: TableNo, recovery: &Recovery) -> Option<StoreFact>
    ensures { map fact_of (option_to_list result) ≡ facts_found table recovery.now }
{
    match recovery {
        Recovery::Nothing => None,
        Recovery::Forward(entry) => Some(StoreFact::Forward {
            table,
            entry: Entry {
                row: entry.row,
                version: entry.version,
                client: entry.client,
                number: entry.number,
                base: entry.base,
            },
        }),
        Recovery::Back(version) => Some(StoreFact::Back {
            table,
            version: *version,
        }),
    }
}
