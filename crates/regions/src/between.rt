ghost use Rattle.std.specs.Prelude.{◌≡◌, ◌<◌, length, IfOk};
ghost use Rattle.regions.specs.Between.{one_number, two_numbers, is_between, with_if, IsGathered};

use cfix_base::{NoMemory, NodeId};
use plan_types::NodeSet;
use std::alloc::Global;

/// The set of one node.
pub fn one_node(alloc: Global, size: u32, node: NodeId) -> Result<NodeSet, NoMemory>
    requires { node.number < size }
    ensures { IfOk result (λ set. set ≡ one_number size node.number) }
{
    let mut set = NodeSet::empty(alloc, size)?;
    set.insert(node);
    Ok(set)
}

/// The set of two nodes.
pub fn two_nodes(alloc: Global, size: u32, one: NodeId, other: NodeId) -> Result<NodeSet, NoMemory>
    requires one { one.number < size }
    requires other { other.number < size }
    ensures { IfOk result (λ set. set ≡ two_numbers size one.number other.number) }
{
    let mut set = one_node(alloc, size, one)?;
    set.insert(other);
    Ok(set)
}

// Whether a node is on a path from one node to another, where `ahead` and `behind` are the ends of
// the paths from the one, and the beginnings of those into the other, between which neither stands.
fn is_between(ahead: &NodeSet, behind: &NodeSet, from: NodeId, to: NodeId, node: NodeId) -> bool
    ensures { result ≡ is_between ahead.now behind.now from.number to.number node.number }
{
    if node.number == from.number || node.number == to.number {
        ahead.contains(to)
    } else {
        ahead.contains(node) && behind.contains(node)
    }
}

fn insert_if(set: &mut NodeSet, node: NodeId, is_member: bool)
    requires { node.number < length set.old }
    ensures { set.new ≡ with_if is_member set.old node.number }
{
    if is_member {
        set.insert(node);
    }
}

/// The nodes on the paths from one node to another.
pub fn gather(
    alloc: Global,
    ahead: &NodeSet,
    behind: &NodeSet,
    from: NodeId,
    to: NodeId,
) -> Result<NodeSet, NoMemory>
    ensures { IfOk result (λ set. IsGathered ahead.now behind.now from.number to.number (length ahead.now) set) }
{
    let size = ahead.size();
    let mut set = NodeSet::empty(alloc, size)?;
    for number in 0..size {
        let node = NodeId { number };
        insert_if(&mut set, node, is_between(ahead, behind, from, to, node));
    }
    Ok(set)
}
