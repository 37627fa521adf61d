ghost use Rattle.std.specs.Prelude.{◌≡◌, ◌≤◌, Some, IfOk, length, drop};
ghost use Rattle.std.specs.Option.{option_copied};
ghost use Rattle.call_graph.specs.Sites.{calls_of};
ghost use Rattle.report_bind.specs.Places.{common, is_node, start_of, before_by, visit_by, atom_of};
ghost use Rattle.report_bind.specs.Found.{AreTraced};

use crate::found::Found;
use crate::sites::same_kind;
use c_prog::AccessItem;
use c_source::Source;
use call_graph::Calls;
use cfix_base::{Access, List, NoMemory, NodeId};
use plan_types::Atom;
use report_json::Site;
use std::alloc::Global;

fn is_node(found: Option<&NodeId>, node: NodeId) -> bool
    ensures { result ≡ is_node (option_copied found.entry) node }
{
    match found {
        None => false,
        Some(other) => other.number == node.number,
    }
}

// How many nodes two lists have in common at their front.
fn common(nodes: &[NodeId], others: &[NodeId]) -> usize
    ensures { result ≡ common nodes.now others.now }
{
    for place in 0..nodes.len() {
        if !is_node(others.get(place), nodes[place]) {
            return place;
        }
    }
    nodes.len()
}

fn start_of(path: &[NodeId], own: NodeId) -> NodeId
    ensures { result ≡ start_of path.now own }
{
    match path {
        [] => own,
        [call, ..] => *call,
    }
}

fn comes_before(p_path: &[NodeId], p: AccessItem, c_path: &[NodeId], c: AccessItem) -> bool
    ensures { result ≡ before_by p_path.now p c_path.now c }
{
    match p_path {
        [] => match c_path {
            [] => p.id.index < c.id.index,
            [_, ..] => same_kind(p.access, Access::Read),
        },
        [_, ..] => match c_path {
            [] => same_kind(c.access, Access::Write),
            [_, ..] => false,
        },
    }
}

fn in_one_visit(p_path: &[NodeId], p: AccessItem, c_path: &[NodeId], c: AccessItem) -> bool
    ensures { result ≡ visit_by p_path.now p c_path.now c }
{
    let np = start_of(p_path, p.id.node);
    let nc = start_of(c_path, c.id.node);
    np.number == nc.number && comes_before(p_path, p, c_path, c)
}

fn rest_of(alloc: Global, nodes: &List<NodeId>, count: usize) -> Result<List<NodeId>, NoMemory>
    requires { count ≤ length nodes.now }
    ensures { IfOk result (λ rest. rest ≡ drop count nodes.now) }
{
    let rest = &nodes.as_slice()[count..];
    Ok(List::from_vec(Vec::from_slice(alloc, rest)?))
}

/// Where p and c lie, whose accesses and calls are found.
pub fn place(
    alloc: Global,
    source: &Source,
    calls: &Calls,
    p: &Site,
    c: &Site,
    found: &Found,
) -> Result<Atom, NoMemory>
    requires own { calls.now ≡ calls_of source.now.tree }
    requires traced { AreTraced source.now p.now c.now found.now }
    ensures { IfOk result (λ atom. atom ≡ atom_of source.now.tree found.now.sites found.now.p.function found.now.p.calls found.now.c.calls) }
{
    let sites = found.sites;
    let count = common(found.p.calls.as_slice(), found.c.calls.as_slice());
    let p_path = rest_of(alloc, &found.p.calls, count)?;
    let c_path = rest_of(alloc, &found.c.calls, count)?;
    let np = start_of(p_path.as_slice(), sites.p.id.node);
    let nc = start_of(c_path.as_slice(), sites.c.id.node);
    let same_visit = in_one_visit(p_path.as_slice(), sites.p, c_path.as_slice(), sites.c);
    Ok(Atom {
        of: calls.function_of(np),
        np,
        nc,
        p: sites.p.id,
        c: sites.c.id,
        r: sites.r.id,
        p_path,
        c_path,
        same_visit,
    })
}
