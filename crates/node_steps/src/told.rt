//! What the nodes tell in an event, and what a read of their disks finds.
ghost use Rattle.std.specs.Prelude.{◌≡◌, ◌++◌, map, IfErr, OnOk};
ghost use Rattle.step_tables.specs.Facts.{PairLine};
ghost use Rattle.step_tables.specs.Lines.{line_of};
ghost use Rattle.node_steps.specs.declared.fault.WorldFault.TheVariants.{Memory};
ghost use Rattle.node_steps.specs.Told.{IsOnly};

use crate::fault::WorldFault;
use journal_host::ClientOut;
use row_value::Sequence;
use store_host::TableOut;
use table_model::{RowPairs, TextLine};

/// The answer of an event, with the lines that it counts.
pub type Lines = Sequence<TextLine>;

/// What the moves of an event told and sent, move by move. Whoever gets it tells and sends it, in this order.
#[derive(Drop)]
pub enum Outs {
    Nothing,
    OfStore(Sequence<TableOut>),
    OfClients(Sequence<ClientOut>),
}

/// What an event comes to at the nodes: its answer, and behind it what was told and sent.
#[derive(Drop)]
pub struct Told {
    pub lines: Lines,
    pub outs: Outs,
}

/// What a read of a node's disks comes to.
#[derive(Drop)]
pub enum Read<T> {
    /// This was read, and nothing has changed.
    Found(T),
    /// A disk has failed, and the node is down. This is told then.
    Fallen(Told),
}

/// These lines alone.
pub(crate) fn only_lines(lines: Lines) -> Told
    ensures { IsOnly (map line_of lines) result }
{
    Told {
        lines,
        outs: Outs::Nothing,
    }
}

/// Adds a line for each row in conflict.
pub(crate) fn list(pairs: RowPairs, lines: &mut Sequence<TextLine>) -> Result<(), WorldFault>
    ensures lines { OnOk result (map line_of lines.new ≡ map line_of lines.old ++ map PairLine pairs) }
    ensures memory { IfErr result (λ e. e ≡ Memory) }
{
    for pair in pairs.into_vec() {
        lines.push(TextLine::Pair(pair))?;
    }
    Ok(())
}
