//! What a node shows of its rows.
ghost use Rattle.std.specs.Prelude.{◌≡◌, ◌⊎◌, ℕ, List, Some, None, option_map, IfOk, IfErr};
ghost use Rattle.held_value.specs.declared.local_name.LocalName.{LocalName};
ghost use Rattle.client_tables.specs.declared.shown.ShownAs.TheVariants.{Nothing};
ghost use Rattle.client_tables.specs.Shown.{shown_as, shown_content};
ghost use Rattle.client_journal.specs.Standing.{devs as held_by, writes_of, AreUp, IsReady};
ghost use Rattle.step_tables.specs.ClientMoves.{ClientDisk, table_at, seen, show_in};
ghost use Rattle.step_tables.specs.Lines.{shown_of};
ghost use Rattle.step_tables.specs.Facts.{Shows};
ghost use Rattle.journal_laws.specs.Moves.{shown_with};
ghost use Rattle.journal_laws.specs.Whole.{whole};
ghost use Rattle.held_contents.specs.Reading.{AreThereIf};
ghost use Rattle.client_node.specs.Answers.{IsFault, IsAnswered};
ghost use Rattle.client_node.specs.Looks.{Looks};
ghost use Rattle.client_node.specs.Node.{StandsFor};

use crate::fault::CallFault;
use crate::looking::{open_table, row_slots};
use client_journal::Journal;
use client_tables::{ShownAs, shown_as, shown_content};
use disk_trait::Disk;
use held_contents::read_whole;
use held_value::Slots;
use stab_base::{RowId, TableNo};
use std::alloc::Global;
use table_model::Shown;

/// What is shown of a row, its content whole.
pub(crate) fn read_shown<D: Disk + Drop>(
    alloc: Global,
    devs: &mut Journal<D>,
    slots: &Slots,
) -> Result<Shown, CallFault>
    requires up { AreUp devs.old }
    requires ready { IsReady D.state devs.old (writes_of devs.old) }
    ensures looks { Looks D.state D.images devs.old devs.new result }
    ensures shown { IfOk result (λ shown. (meaning : LocalName → List ℕ)
        → AreThereIf meaning (held_by D.state devs.old) (shown_content slots.now)
        → shown_with (shown_as slots.now) (option_map (whole meaning) (shown_content slots.now))
        ≡ Some (shown_of shown)) }
    ensures refused { IfErr result (λ e. ((e ≡ CallFault.NoRow) × (shown_as slots.now ≡ Nothing)) ⊎ IsFault e) }
{
    let Some(held) = shown_content(slots) else {
        return Err(CallFault::NoRow);
    };
    let content = read_whole(alloc, devs, held)?;
    match shown_as(slots) {
        ShownAs::Nothing => Err(CallFault::NoRow),
        ShownAs::Clean { version } => Ok(Shown::Clean { version, content }),
        ShownAs::Mine { number } => Ok(Shown::Mine { number, content }),
        ShownAs::Conflict { number, version } => Ok(Shown::Conflict {
            number,
            version,
            content,
        }),
    }
}

/// What is shown of a row of a table.
pub(crate) fn show<D: Disk + Drop>(
    alloc: Global,
    devs: &mut Journal<D>,
    table: TableNo,
    row: &RowId,
) -> Result<Shown, CallFault>
    requires up { AreUp devs.old }
    requires ready { IsReady D.state devs.old (writes_of devs.old) }
    ensures looks { Looks D.state D.images devs.old devs.new result }
    ensures answered { (c : ℕ) (disk : ClientDisk) → StandsFor c (held_by D.state devs.old) disk
        → IsAnswered (λ shown. Shows (shown_of shown)) (show_in row.now (table_at (seen disk) table)) result }
    ensures refused { IfErr result (λ e. (e ≡ CallFault.NoTable) ⊎ ((e ≡ CallFault.NoRow) ⊎ IsFault e)) }
{
    let _opened = open_table(devs, table)?;
    let slots = row_slots(devs, table, row)?;
    read_shown(alloc, devs, &slots)
}
