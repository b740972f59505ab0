//! A gateway asks a Store for the subscriptions that it has kept of a client, of which there are none yet.
ghost use Rattle.std.specs.Prelude.{◌≡◌, ℕ, Bool, None, [], ◌∷◌};
ghost use Rattle.sync_msgs.specs.Spelling.{IsClient};
ghost use Rattle.stab_base.specs.declared.node.Node.TheVariants as nodes;
ghost use Rattle.world_tables.specs.World.{busy_live};
ghost use Rattle.gated_tables.specs.Net.{Net, Sent, restored, restoring, sending};
ghost use Rattle.net_steps.specs.Delivering.{Delivers, IsUpIn};

use crate::world::World;
use disk_trait::Disk;
use node_steps::{Lines, WorldFault};
use stab_base::{Node, Sequence, StoreNo};
use table_model::{Answer, Message, RestoreClientSubscriptions};

impl<D: Disk + Drop> World<D> {
    // A Store that isn't at work sends its answer.
    fn send_restored(
        &mut self,
        store: StoreNo,
        from: Node,
        asked: RestoreClientSubscriptions,
    ) -> Result<Lines, WorldFault>
        requires here { (is_out : ℕ → Bool) × (n : Net) × IsUpIn D.state is_out (nodes.Store store) n self.old }
        requires client { IsClient asked.client }
        ensures { (is_out : ℕ → Bool) (n : Net) (p : Sent) → IsUpIn D.state is_out (nodes.Store store) n self.old
            → p.from ≡ from → Delivers D.state D.images n
            (λ lucks. sending n (restoring store p asked ∷ [])) result is_out self.old self.new }
    {
        let mut lines = self.only(Answer::Done)?;
        let message = Message::RestoreClientSubscriptions(RestoreClientSubscriptions {
            client: asked.client,
            gate: asked.gate,
            reply: true,
            subscriptions: Sequence::new(self.alloc),
        });
        self.send(Node::Store(store), from, &message, &mut lines)?;
        Ok(lines)
    }

    // An answer of another is taken.
    fn restore_idle(
        &mut self,
        store: StoreNo,
        from: Node,
        asked: RestoreClientSubscriptions,
    ) -> Result<Lines, WorldFault>
        requires here { (is_out : ℕ → Bool) × (n : Net) × IsUpIn D.state is_out (nodes.Store store) n self.old }
        requires client { IsClient asked.client }
        ensures { (is_out : ℕ → Bool) (n : Net) (p : Sent) → IsUpIn D.state is_out (nodes.Store store) n self.old
            → p.from ≡ from → Delivers D.state D.images n
            (λ lucks. restored n store p asked None) result is_out self.old self.new }
    {
        if asked.reply {
            return self.only(Answer::Done);
        }
        self.send_restored(store, from, asked)
    }

    /// A Store whose live tables have nothing to do answers.
    pub(crate) fn restore(
        &mut self,
        store: StoreNo,
        from: Node,
        asked: RestoreClientSubscriptions,
    ) -> Result<Lines, WorldFault>
        requires here { (is_out : ℕ → Bool) × (n : Net) × IsUpIn D.state is_out (nodes.Store store) n self.old }
        requires client { IsClient asked.client }
        ensures { (is_out : ℕ → Bool) (n : Net) (p : Sent) → IsUpIn D.state is_out (nodes.Store store) n self.old
            → p.from ≡ from → Delivers D.state D.images n
            (λ lucks. restored n store p asked (busy_live n.wire.world store)) result is_out self.old self.new }
    {
        let found = self.wire.refuse_busy_live(store)?;
        match found {
            Some(lines) => Ok(lines),
            None => self.restore_idle(store, from, asked),
        }
    }
}
