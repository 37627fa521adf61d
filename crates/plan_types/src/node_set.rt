ghost use Rattle.std.specs.Prelude.{◌≡◌, ◌<◌, ◌↔◌, length, IfOk, IsTrue};
ghost use Rattle.plan_types.specs.Sets.{no_numbers, is_in, with_number, IsUnion, Meet};

use crate::number_set::NumberSet;
use cfix_base::{NoMemory, NodeId};
use std::alloc::Global;
use std::marker::Model;

/// A set of nodes whose numbers are below its size.
#[derive(Debug, Drop)]
pub struct NodeSet {
    numbers: NumberSet,
}

impl Model for NodeSet {
    ghost use Rattle.std.specs.Prelude.{List, Bool};

    ghost Value = { List Bool };

    ghost view = { λ set. set.numbers };
}

impl NodeSet {
    /// The nodes with these numbers.
    pub fn of(numbers: NumberSet) -> NodeSet
        ensures { result ≡ numbers }
    {
        NodeSet { numbers }
    }

    /// Their numbers.
    pub fn numbers(&self) -> &NumberSet
        ensures { result.now ≡ self.now }
    {
        &self.numbers
    }

    /// The empty set of this size.
    pub fn empty(alloc: Global, size: u32) -> Result<NodeSet, NoMemory>
        ensures { IfOk result (λ set. set ≡ no_numbers size) }
    {
        let numbers = NumberSet::empty(alloc, size)?;
        Ok(NodeSet { numbers })
    }

    /// Adds a node. It takes no memory.
    pub fn insert(&mut self, id: NodeId)
        requires { id.number < length self.old }
        ensures { self.new ≡ with_number self.old id.number }
    {
        self.numbers.insert(id.number);
    }

    /// Whether the node is in the set.
    pub fn contains(&self, id: NodeId) -> bool
        ensures { result ≡ is_in self.now id.number }
    {
        self.numbers.contains(id.number)
    }

    /// The size, below which all numbers are.
    pub fn size(&self) -> u32
        ensures { result ≡ length self.now }
    {
        self.numbers.size()
    }

    /// Adds the nodes of another set of the same size. It takes no memory.
    pub fn unite(&mut self, other: &NodeSet)
        requires { length self.old ≡ length other.now }
        ensures { IsUnion self.old other.now self.new }
    {
        self.numbers.unite(&other.numbers);
    }

    /// Whether some node is in both sets.
    pub fn meets(&self, other: &NodeSet) -> bool
        ensures { IsTrue result ↔ Meet self.now other.now }
    {
        self.numbers.meets(&other.numbers)
    }
}
