//! Pulls of clients, which ask for torn rows.
ghost use Rattle.std.specs.Prelude.{◌≡◌, ◌∷◌, [], ℕ, suc, true, IfErr, IfOk};
ghost use Rattle.table_model.specs.declared.event.Event.TheVariants as events;
ghost use Rattle.world_tables.specs.Ready.{is_client_ready};
ghost use Rattle.wire_tables.specs.Wire.{Wire, wire_step};
ghost use Rattle.wire_steps.specs.Holds.{Holds};
ghost use Rattle.wire_steps.specs.Reached.{IsReached};
ghost use Rattle.wire_steps.specs.Steps.{HavePlansBelow};
ghost use Rattle.node_steps.specs.Steps.{SpendsNumber};
ghost use Rattle.wire_steps.specs.Calls.{Comes, Ends, IsLimitedBy, IsToPull, pull_step};

use crate::memory::ask as ask_torn;
use crate::world::World;
use disk_trait::Disk;
use node_steps::{Lines, WorldFault};
use stab_base::{ClientNo, RowId, Sequence, TableNo};
use std::alloc::{AllocError, Global};

fn one_row(alloc: Global, row: RowId) -> Result<Sequence<RowId>, AllocError>
    ensures { IfOk result (λ rows. rows ≡ row ∷ []) }
{
    let mut rows = Sequence::new(alloc);
    rows.push(row)?;
    Ok(rows)
}

impl<D: Disk + Drop> World<D> {
    /// A client tells a row as torn, and asks for it whole.
    pub(crate) fn tear(
        &mut self,
        client: ClientNo,
        table: TableNo,
        row: RowId,
    ) -> Result<Lines, WorldFault>
        requires held { IsToPull D.state self.old }
        ensures done { (x : IsToPull D.state self.old) → Comes D.state D.images x.kept
            (pull_step x.kept client table (row ∷ []) (row ∷ [])) result self.old self.new }
        ensures ends { (x : IsToPull D.state self.old) → Ends D.state D.images x.kept
            (pull_step x.kept client table (row ∷ []) (row ∷ [])) result self.old self.new }
        ensures limit { (x : IsToPull D.state self.old) (n : ℕ) → HavePlansBelow D.state n self.old
            → IsLimitedBy (SpendsNumber n x.kept.world client) result }
        ensures plans { (n : ℕ) → HavePlansBelow D.state n self.old → HavePlansBelow D.state (suc n) self.new }
    {
        let tears = one_row(self.alloc, row)?;
        let asks = one_row(self.alloc, row)?;
        self.pull_rows(client, table, tears, asks)
    }

    /// A client asks for the next change of a table, or for its torn rows.
    pub(crate) fn pull(&mut self, client: ClientNo, table: TableNo) -> Result<Lines, WorldFault>
        requires held { (v : Wire) × IsReached v × Holds D.state v self.old }
        ensures done { (v : Wire) → IsReached v → Holds D.state v self.old
            → Comes D.state D.images v (wire_step v (events.Pull client table)) result self.old self.new }
        ensures ends { (v : Wire) → IsReached v → Holds D.state v self.old
            → Ends D.state D.images v (wire_step v (events.Pull client table)) result self.old self.new }
        ensures limit { (v : Wire) (n : ℕ) → IsReached v → Holds D.state v self.old → HavePlansBelow D.state n self.old
            → IsLimitedBy (SpendsNumber n v.world client) result }
        ensures plans { (n : ℕ) → HavePlansBelow D.state n self.old → HavePlansBelow D.state (suc n) self.new }
    {
        if self.nodes.is_client_ready(client) {
            return self.pull_torn(client, table);
        }
        self.ask(client, table)
    }

    /// A client asks for the next change of a table, whatever rows of it are torn.
    pub(crate) fn ask(&mut self, client: ClientNo, table: TableNo) -> Result<Lines, WorldFault>
        requires held { (v : Wire) × IsReached v × Holds D.state v self.old }
        ensures done { (v : Wire) → IsReached v → Holds D.state v self.old
            → Comes D.state D.images v (wire_step v (events.Ask client table)) result self.old self.new }
        ensures ends { (v : Wire) → IsReached v → Holds D.state v self.old
            → Ends D.state D.images v (wire_step v (events.Ask client table)) result self.old self.new }
        ensures limit { (v : Wire) (n : ℕ) → IsReached v → Holds D.state v self.old → HavePlansBelow D.state n self.old
            → IsLimitedBy (SpendsNumber n v.world client) result }
        ensures plans { (n : ℕ) → HavePlansBelow D.state n self.old → HavePlansBelow D.state (suc n) self.new }
    {
        let none = Sequence::new(self.alloc);
        let next = Sequence::new(self.alloc);
        self.pull_rows(client, table, none, next)
    }

    // One that takes messages now, and so asks for its torn rows.
    fn pull_torn(&mut self, client: ClientNo, table: TableNo) -> Result<Lines, WorldFault>
        requires held { (v : Wire) × IsReached v × Holds D.state v self.old × (is_client_ready v.world client ≡ true) }
        ensures done { (v : Wire) → IsReached v → Holds D.state v self.old → is_client_ready v.world client ≡ true
            → Comes D.state D.images v (wire_step v (events.Pull client table)) result self.old self.new }
        ensures ends { (v : Wire) → IsReached v → Holds D.state v self.old → is_client_ready v.world client ≡ true
            → Ends D.state D.images v (wire_step v (events.Pull client table)) result self.old self.new }
        ensures limit { (v : Wire) (n : ℕ) → IsReached v → Holds D.state v self.old → HavePlansBelow D.state n self.old
            → is_client_ready v.world client ≡ true → IsLimitedBy (SpendsNumber n v.world client) result }
        ensures plans { (n : ℕ) → HavePlansBelow D.state n self.old → HavePlansBelow D.state (suc n) self.new }
    {
        let asked = ask_torn(&mut self.arriving, self.alloc, client, table)?;
        let tears = Sequence::from_vec(asked.tears);
        let asks = Sequence::from_vec(asked.asks);
        self.pull_rows(client, table, tears, asks)
    }
}
