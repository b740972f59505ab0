//! What is shown of the tables: a row, a history, the names of chunks.
ghost use Rattle.std.specs.Prelude.{◌≡◌, ◌∷◌, [], length, Some, true, IsSome, IfOk, IfErr};
ghost use Rattle.std.specs.Ordering.{nat_cmp};
ghost use Rattle.std.specs.BTreeMap as tree;
ghost use Rattle.stab_base.specs.declared.node.Node.TheVariants as nodes;
ghost use Rattle.step_tables.specs.Facts as moves;
ghost use Rattle.step_tables.specs.Facts.{AnswerLine};
ghost use Rattle.step_tables.specs.Lines.{answer_of};
ghost use Rattle.table_model.specs.declared.event.Event.TheVariants as events;
ghost use Rattle.world_tables.specs.World.{World as AWorld, Hosted as AHosted, step, entry_lines, names_answer};
ghost use Rattle.world_tables.specs.World.{names_on, row_read, owner_of, hosted_at, first_luck, answered, chunk_in};
ghost use Rattle.world_tables.specs.World.{schema_at, unless_down};
ghost use Rattle.store_host.specs.Holds.{IsStore, AreLeft, is_up_for};
ghost use Rattle.node_steps.specs.declared.fault.WorldFault.TheVariants.{Memory};
ghost use Rattle.node_steps.specs.Calls.{Comes};
ghost use Rattle.node_steps.specs.Faults.{AreCounted};
ghost use Rattle.node_steps.specs.Holds.{Holds};
ghost use Rattle.node_steps.specs.Told.{IsOnly};

use crate::fault::WorldFault;
use crate::moves::show;
use crate::told::{Told, only_lines};
use crate::world::World;
use disk_trait::Disk;
use row_value::{RowId, TableNo};
use stab_base::{Names, Node};
use table_model::{Answer, History, Refusal, TextLine};

fn names_answered(names: Names) -> Answer
    ensures { answer_of result ≡ names_answer names }
{
    if names.len() == 0 {
        return Answer::Number(0);
    }
    Answer::Names(names)
}

impl<D: Disk + Drop> World<D> {
    /// The history of a table.
    pub(crate) fn history(&self, table: TableNo) -> Result<Told, WorldFault>
        ensures done { (w : AWorld) → Holds D.state w self.now
            → Comes D.state w (step w (events.History table)) result self.now }
        ensures memory { IfErr result (λ e. e ≡ Memory) }
    {
        match self.store.history(table) {
            Some(history) => self.listed(table, history),
            None => self.only(Answer::Refused(Refusal::NoTable)),
        }
    }

    // How many entries a history has, and then each.
    fn listed(&self, table: TableNo, history: &History) -> Result<Told, WorldFault>
        ensures lines { IfOk result (IsOnly (AnswerLine (moves.Number (length history.now))
            ∷ entry_lines table history.now)) }
        ensures memory { IfErr result (λ e. e ≡ Memory) }
    {
        let mut lines = self.answer_line(Answer::Number(history.len() as u64))?;
        for entry in history.as_slice() {
            lines.push(TextLine::Entry {
                table,
                entry: *entry,
            })?;
        }
        Ok(only_lines(lines))
    }

    /// A table's owner shows a row.
    pub(crate) fn store_show(&mut self, table: TableNo, row: &RowId) -> Result<Told, WorldFault>
        requires held { (w : AWorld) × Holds D.state w self.old }
        ensures done { (w : AWorld) → Holds D.state w self.old
            → Comes D.state w (step w (events.StoreShow table row.now)) result self.new }
        ensures counted { AreCounted D.state result self.old self.new }
        ensures rows { (w : AWorld) → Holds D.state w self.old → IfOk result (λ told.
            AreLeft D.state D.images w self.old.store.tables self.new.store.tables) }
        ensures clients { self.new.clients ≡ self.old.clients }
        ensures memory { IfErr result (λ e. e ≡ Memory) }
    {
        if self.store.has(table) {
            return self.show_there(table, row);
        }
        self.only(Answer::Refused(Refusal::NoTable))
    }

    fn show_there(&mut self, table: TableNo, row: &RowId) -> Result<Told, WorldFault>
        requires held { (w : AWorld) × Holds D.state w self.old }
        requires there { IsSome (tree.get nat_cmp self.old.store.tables table) }
        ensures done { (w : AWorld) (hosted : AHosted) → Holds D.state w self.old → hosted_at w table ≡ Some hosted
            → Comes D.state w (λ lucks. unless_down w (nodes.Store (owner_of w table))
            (row_read w table hosted row.now (first_luck lucks.calls))) result self.new }
        ensures counted { AreCounted D.state result self.old self.new }
        ensures rows { (w : AWorld) → Holds D.state w self.old → IfOk result (λ told.
            AreLeft D.state D.images w self.old.store.tables self.new.store.tables) }
        ensures clients { self.new.clients ≡ self.old.clients }
        ensures memory { IfErr result (λ e. e ≡ Memory) }
    {
        let store = Node::Store(self.store.owner(table));
        if self.is_down(store) {
            return self.refuse(store);
        }
        self.show_stored(table, row)
    }

    fn show_stored(&mut self, table: TableNo, row: &RowId) -> Result<Told, WorldFault>
        requires held { (w : AWorld) × Holds D.state w self.old }
        requires up { is_up_for self.old.store table ≡ true }
        requires there { IsSome (tree.get nat_cmp self.old.store.tables table) }
        ensures done { (w : AWorld) (hosted : AHosted) → Holds D.state w self.old → hosted_at w table ≡ Some hosted
            → Comes D.state w (λ lucks. row_read w table hosted row.now (first_luck lucks.calls)) result self.new }
        ensures counted { AreCounted D.state result self.old self.new }
        ensures rows { (w : AWorld) → Holds D.state w self.old → IfOk result (λ told.
            AreLeft D.state D.images w self.old.store.tables self.new.store.tables) }
        ensures clients { self.new.clients ≡ self.old.clients }
        ensures memory { IfErr result (λ e. e ≡ Memory) }
    {
        let answer = show(&mut self.store, table, row)?;
        self.tell(answer)
    }

    /// The names of the chunks that its owner keeps for a table.
    pub(crate) fn chunks(&self, table: TableNo) -> Result<Told, WorldFault>
        requires held { IsStore D.state self.now.store }
        ensures done { (w : AWorld) → Holds D.state w self.now
            → Comes D.state w (step w (events.Chunks table)) result self.now }
        ensures memory { IfErr result (λ e. e ≡ Memory) }
    {
        if self.store.has(table) {
            return self.chunks_there(table);
        }
        self.only(Answer::Refused(Refusal::NoTable))
    }

    fn chunks_there(&self, table: TableNo) -> Result<Told, WorldFault>
        requires held { IsStore D.state self.now.store }
        requires there { IsSome (tree.get nat_cmp self.now.store.tables table) }
        ensures done { (w : AWorld) (hosted : AHosted) → Holds D.state w self.now → hosted_at w table ≡ Some hosted
            → Comes D.state w (λ lucks. unless_down w (nodes.Store (owner_of w table)) (answered w
            (names_answer (names_on (chunk_in (schema_at w table)) hosted.store.disk)))) result self.now }
        ensures memory { IfErr result (λ e. e ≡ Memory) }
    {
        let store = Node::Store(self.store.owner(table));
        if self.is_down(store) {
            return self.refuse(store);
        }
        self.names(table)
    }

    fn names(&self, table: TableNo) -> Result<Told, WorldFault>
        requires held { IsStore D.state self.now.store }
        requires up { is_up_for self.now.store table ≡ true }
        requires there { IsSome (tree.get nat_cmp self.now.store.tables table) }
        ensures lines { (w : AWorld) (hosted : AHosted) → Holds D.state w self.now → hosted_at w table ≡ Some hosted
            → IfOk result (IsOnly (AnswerLine
            (names_answer (names_on (chunk_in (schema_at w table)) hosted.store.disk)) ∷ [])) }
        ensures memory { IfErr result (λ e. e ≡ Memory) }
    {
        match self.store.chunk_names(table) {
            Ok(names) => self.only(names_answered(names)),
            Err(_) => Err(WorldFault::Memory),
        }
    }
}
