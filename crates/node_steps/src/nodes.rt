//! Sets of nodes.
ghost use Rattle.std.specs.Prelude.{◌≡◌, ◌==◌, ◌||◌, ◌&&◌, not, [], ℕ, IfErr, OnOk};
ghost use Rattle.std.specs.Ordering.{nat_cmp};
ghost use Rattle.std.specs.BTreeSet.{contains};
ghost use Rattle.stab_base.specs.declared.node.Node.{Node as ANode};
ghost use Rattle.world_tables.specs.World.{same_node};
ghost use Rattle.node_steps.specs.declared.fault.WorldFault.TheVariants.{Memory};
ghost use Rattle.node_steps.specs.Nodes.{HasNodes, is_in};

use crate::fault::WorldFault;
use stab_base::Node;
use std::alloc::Global;
use std::collections::BTreeSet;

/// Some nodes: the numbers of Stores, gateways and clients.
#[derive(Drop)]
pub(crate) struct NodeSet {
    stores: BTreeSet<u32>,
    gates: BTreeSet<u32>,
    clients: BTreeSet<u32>,
}

fn put(numbers: &mut BTreeSet<u32>, number: u32) -> Result<(), WorldFault>
    ensures added { OnOk result ((q : ℕ) → contains nat_cmp numbers.new q
        ≡ ((q == number) || contains nat_cmp numbers.old q)) }
    ensures memory { IfErr result (λ e. e ≡ Memory) }
{
    numbers.insert(number)?;
    Ok(())
}

fn take(numbers: &mut BTreeSet<u32>, number: u32)
    ensures { (q : ℕ) → contains nat_cmp numbers.new q ≡ (not (number == q) && contains nat_cmp numbers.old q) }
{
    numbers.remove(&number);
}

impl NodeSet {
    /// No nodes.
    pub(crate) fn new(alloc: Global) -> NodeSet
        ensures { HasNodes [] result }
    {
        NodeSet {
            stores: BTreeSet::new(alloc),
            gates: BTreeSet::new(alloc),
            clients: BTreeSet::new(alloc),
        }
    }

    pub(crate) fn has(&self, node: Node) -> bool
        ensures { result ≡ is_in self.now node }
    {
        match node {
            Node::Store(number) => self.stores.contains(&number),
            Node::Gate(number) => self.gates.contains(&number),
            Node::Client(number) => self.clients.contains(&number),
        }
    }

    /// Adds a node, which may be there.
    pub(crate) fn add(&mut self, node: Node) -> Result<(), WorldFault>
        ensures added { OnOk result ((q : ANode) → is_in self.new q ≡ (same_node q node || is_in self.old q)) }
        ensures memory { IfErr result (λ e. e ≡ Memory) }
    {
        match node {
            Node::Store(number) => put(&mut self.stores, number),
            Node::Gate(number) => put(&mut self.gates, number),
            Node::Client(number) => put(&mut self.clients, number),
        }
    }

    /// Removes a node, which needn't be there.
    pub(crate) fn remove(&mut self, node: Node)
        ensures { (q : ANode) → is_in self.new q ≡ (not (same_node node q) && is_in self.old q) }
    {
        match node {
            Node::Store(number) => take(&mut self.stores, number),
            Node::Gate(number) => take(&mut self.gates, number),
            Node::Client(number) => take(&mut self.clients, number),
        }
    }
}
