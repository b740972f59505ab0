//! What a world above needs of this one beside its events: a link that is set, and the refusals of Stores and tables at
//! work.
ghost use Rattle.std.specs.Prelude.{◌≡◌, ℕ, Some, None, map, option_map, IfOk, IfErr, if◌then◌else◌};
ghost use Rattle.step_tables.specs.ClientMoves.{Client as AClient};
ghost use Rattle.step_tables.specs.Lines.{line_of};
ghost use Rattle.world_tables.specs.World.{World as AWorld, client_at, busy_live, is_at_work};
ghost use Rattle.wire_tables.specs.Wire.{Wire};
ghost use Rattle.node_steps.specs.declared.fault.WorldFault.TheVariants.{Memory};
ghost use Rattle.node_steps.specs.Holds.{Holds as NodesHold};
ghost use Rattle.node_steps.specs.Links.{link_set as nodes_link_set};
ghost use Rattle.wire_steps.specs.Holds.{Holds};
ghost use Rattle.wire_steps.specs.Links.{link_set, busy_lines};
ghost use Rattle.wire_steps.specs.Steps.{HavePlansBelow, all_faults};

use crate::world::World;
use disk_trait::Disk;
use node_steps::{Lines, WorldFault};
use stab_base::{ClientNo, StoreNo, TableNo};
use table_model::{Answer, Refusal};

impl<D: Disk + Drop> World<D> {
    /// Takes the link of a client that is up up or down, without an answer. It takes no memory.
    pub fn set_link(&mut self, client: ClientNo, up: bool)
        ensures held { (v : Wire) (node : AClient) → Holds D.state v self.old → client_at v.world client ≡ Some node
            → Holds D.state (link_set client up v) self.new }
        ensures nodes { (w : AWorld) (node : AClient) → NodesHold D.state w self.old.nodes
            → client_at w client ≡ Some node → NodesHold D.state (nodes_link_set client up w) self.new.nodes }
        ensures store { self.new.nodes.store ≡ self.old.nodes.store }
        ensures faults { all_faults D.state self.new ≡ all_faults D.state self.old }
        ensures rest { self.new ≡ record self.old { nodes = self.new.nodes } }
        ensures plans { (n : ℕ) → HavePlansBelow D.state n self.old → HavePlansBelow D.state n self.new }
    {
        self.nodes.set_link(client, up);
    }

    // That a table is busy, with the version of its next write, if there is one.
    fn refuse_at(&self, busy: Option<TableNo>) -> Result<Option<Lines>, WorldFault>
        requires { (v : Wire) × Holds D.state v self.now }
        ensures lines { (v : Wire) → Holds D.state v self.now → IfOk result (λ found.
            option_map (map line_of) found ≡ option_map (busy_lines v.world) busy) }
        ensures memory { IfErr result (λ e. e ≡ Memory) }
    {
        match busy {
            Some(table) => {
                let with = self.nodes.busy_version(table);
                let lines = self.only(Answer::Refused(Refusal::Busy { with }))?;
                Ok(Some(lines))
            }
            None => Ok(None),
        }
    }

    /// What a Store answers whose live tables have writes to do: that it is busy, with the version of the next write of
    /// its live table of least number that has any. None where no live table has any.
    pub fn refuse_busy_live(&self, store: StoreNo) -> Result<Option<Lines>, WorldFault>
        requires { (v : Wire) × Holds D.state v self.now }
        ensures lines { (v : Wire) → Holds D.state v self.now → IfOk result (λ found.
            option_map (map line_of) found ≡ option_map (busy_lines v.world) (busy_live v.world store)) }
        ensures memory { IfErr result (λ e. e ≡ Memory) }
    {
        let busy = self.nodes.busy_live(store);
        self.refuse_at(busy)
    }

    /// What a table answers that has writes to do: that it is busy, with the version of its next write. None where it
    /// has none.
    pub fn refuse_busy_table(&self, table: TableNo) -> Result<Option<Lines>, WorldFault>
        requires { (v : Wire) × Holds D.state v self.now }
        ensures lines { (v : Wire) → Holds D.state v self.now → IfOk result (λ found.
            option_map (map line_of) found
            ≡ (if is_at_work v.world table then Some (busy_lines v.world table) else None)) }
        ensures memory { IfErr result (λ e. e ≡ Memory) }
    {
        if self.nodes.is_busy(table) {
            return self.refuse_at(Some(table));
        }
        Ok(None)
    }
}
