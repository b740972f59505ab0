//! Reads of the world.
ghost use Rattle.std.specs.Prelude.{◌≡◌, option_copied, option_map};
ghost use Rattle.world_tables.specs.World.{World as AWorld, Hosted as AHosted, hosted_at, schema_at};
ghost use Rattle.node_steps.specs.Holds as nodes;

use crate::world::World;
use disk_trait::Disk;
use row_value::Schema;
use stab_base::TableNo;
use table_model::History;

impl<D: Disk + Drop> World<D> {
    /// The schema of a declared table.
    pub fn schema(&self, table: TableNo) -> Option<&Schema>
        ensures { (w : AWorld) → nodes.Holds D.state w self.now.wire.nodes
            → option_copied result ≡ schema_at w table }
    {
        self.wire.schema(table)
    }

    /// What a declared table has told, in order.
    pub fn entries(&self, table: TableNo) -> Option<&History>
        ensures { (w : AWorld) → nodes.Holds D.state w self.now.wire.nodes
            → option_copied result ≡ option_map (λ (hosted : AHosted). hosted.history) (hosted_at w table) }
    {
        self.wire.entries(table)
    }
}
