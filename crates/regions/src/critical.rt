ghost use Rattle.std.specs.Prelude.{◌<◌, IfOk};
ghost use Rattle.regions.specs.Region.{IsRegion, IsBetween};

use crate::between::{gather, one_node, two_nodes};
use cfix_base::NoMemory;
use flow_graph::Flow;
use plan_types::{Atom, NodeSet};
use std::alloc::Global;

fn between(alloc: Global, flow: &Flow, atom: &Atom) -> Result<NodeSet, NoMemory>
    requires np { atom.now.np.number < flow.now.size }
    requires nc { atom.now.nc.number < flow.now.size }
    ensures { IfOk result (λ set. IsBetween flow.now atom.now set) }
{
    let ends = two_nodes(alloc, flow.size(), atom.np, atom.nc)?;
    let last = one_node(alloc, flow.size(), atom.nc)?;
    let ahead = flow.reach(alloc, atom.np, &ends)?;
    let behind = flow.back(alloc, &last, &ends)?;
    gather(alloc, &ahead, &behind, atom.np, atom.nc)
}

/// The critical region of a bound atomicity violation in the flow of its function: np alone where p
/// and c are in one visit of it, and else the nodes of the paths from np to nc of at least one edge
/// between whose ends neither stands.
pub fn region(alloc: Global, flow: &Flow, atom: &Atom) -> Result<NodeSet, NoMemory>
    requires np { atom.now.np.number < flow.now.size }
    requires nc { atom.now.nc.number < flow.now.size }
    ensures { IfOk result (λ set. IsRegion flow.now atom.now set) }
{
    if atom.same_visit {
        one_node(alloc, flow.size(), atom.np)
    } else {
        between(alloc, flow, atom)
    }
}
