ghost use Rattle.std.specs.Prelude.{◌≡◌, ◌<◌, ◌⊎◌, Bool, Ok, Err, Some, IsTrue, IfOk, IfErr, length};
ghost use Rattle.call_graph.specs.Calls.{IsRoot};
ghost use Rattle.call_graph.specs.Sites.{calls_of};
ghost use Rattle.plan_types.specs.declared.bound.Bound.{Bound};
ghost use Rattle.thread_roots.specs.Graphs.{graphs_in};
ghost use Rattle.report_bind.specs.Binds.{is_empty, is_stacked, ByRegion, ByRoot, ByStacks, BySites, IsAnswer, Binds, Refuses, IsAtomicity};
ghost use Rattle.report_bind.specs.Fits.{Fits};
ghost use Rattle.report_bind.specs.Found.{AreFound, AreTraced};
ghost use Rattle.report_bind.specs.Places.{atom_of};
ghost use Rattle.report_bind.specs.Sites.{site_of};
ghost use Rattle.report_bind.specs.Stacks.{stack_of};
ghost use Rattle.report_bind.specs.declared.fault.BindFault.{BindFault};

use crate::fault::{BindFault, Role};
use crate::found::{Found, Sites};
use crate::placing::place;
use crate::sites::find_site;
use crate::stacks::find_stack;
use c_access::tree_accesses;
use c_source::Source;
use plan_types::{Atom, Bound};
use regions::region;
use report_json::{Report, Site};
use std::alloc::Global;
use thread_roots::Graphs;

// The last rule: the region is not empty. It has np wherever it has a node.
fn bind_region(
    alloc: Global,
    source: &Source,
    graphs: &Graphs,
    atom: Atom,
) -> Result<Bound, BindFault>
    requires own { graphs.now ≡ graphs_in source.now.tree }
    requires of { atom.of.number < length graphs.now.flows }
    requires np { atom.np.number < length graphs.now.calls.sites }
    requires nc { atom.nc.number < length graphs.now.calls.sites }
    ensures { (result ≡ Err BindFault.NoMemory) ⊎ ByRegion source.now atom result }
{
    let flow = graphs.flows.at(atom.of.number as usize);
    let region = region(alloc, flow, &atom)?;
    if region.contains(atom.np) {
        Ok(Bound::Atom(atom))
    } else {
        Err(BindFault::NoPath(atom.np, atom.nc))
    }
}

fn is_stacked(p: &Site, c: &Site) -> bool
    ensures { result ≡ is_stacked p.now c.now }
{
    p.stack.len() != 0 || c.stack.len() != 0
}

// Where a stack has a call, its outermost function is to be a root.
fn bind_calls(
    alloc: Global,
    source: &Source,
    graphs: &Graphs,
    p: &Site,
    c: &Site,
    found: &Found,
) -> Result<Bound, BindFault>
    requires own { graphs.now ≡ graphs_in source.now.tree }
    requires traced { AreTraced source.now p.now c.now found.now }
    ensures { (result ≡ Err BindFault.NoMemory) ⊎ ByRoot source.now (is_stacked p.now c.now) found.now.sites found.now.p found.now.c result }
{
    let function = found.p.function;
    if is_stacked(p, c) && !graphs.calls.is_root(function) {
        return Err(BindFault::NotRoot(function));
    }
    let atom = place(alloc, source, &graphs.calls, p, c, found)?;
    bind_region(alloc, source, graphs, atom)
}

fn bind_stacks(
    alloc: Global,
    source: &Source,
    graphs: &Graphs,
    p: &Site,
    c: &Site,
    sites: Sites,
) -> Result<Bound, BindFault>
    requires own { graphs.now ≡ graphs_in source.now.tree }
    requires sites { AreFound source.now p.now c.now sites }
    ensures { (result ≡ Err BindFault.NoMemory) ⊎ ByStacks source.now (is_stacked p.now c.now) sites (stack_of source.now p.now.stack sites.p.id) (stack_of source.now c.now.stack sites.c.id) result }
{
    let calls = &graphs.calls;
    let p_stack = find_stack(alloc, source, calls, p.stack.as_slice(), sites.p.id)?;
    let Some(p_stack) = p_stack else {
        return Err(BindFault::StackBroken(Role::P));
    };
    let c_stack = find_stack(alloc, source, calls, c.stack.as_slice(), sites.c.id)?;
    let Some(c_stack) = c_stack else {
        return Err(BindFault::StackBroken(Role::C));
    };
    if p_stack.function.number != c_stack.function.number {
        return Err(BindFault::StackBroken(Role::C));
    }
    let found = Found {
        sites,
        p: p_stack,
        c: c_stack,
    };
    bind_calls(alloc, source, graphs, p, c, &found)
}

fn bind_sites(
    alloc: Global,
    source: &Source,
    graphs: &Graphs,
    p: &Site,
    c: &Site,
    r: &Site,
) -> Result<Bound, BindFault>
    requires { graphs.now ≡ graphs_in source.now.tree }
    ensures { (result ≡ Err BindFault.NoMemory) ⊎ BySites source.now p.now c.now (site_of source.now p.now) (site_of source.now c.now) (site_of source.now r.now) result }
{
    let items = tree_accesses(alloc, source.program())?;
    let items = items.as_slice();
    let Some(p_item) = find_site(source, p, items) else {
        return Err(BindFault::NoSite(Role::P));
    };
    let Some(c_item) = find_site(source, c, items) else {
        return Err(BindFault::NoSite(Role::C));
    };
    let Some(r_item) = find_site(source, r, items) else {
        return Err(BindFault::NoSite(Role::R));
    };
    let sites = Sites {
        p: p_item,
        c: c_item,
        r: r_item,
    };
    bind_stacks(alloc, source, graphs, p, c, sites)
}

fn answer(
    alloc: Global,
    source: &Source,
    graphs: &Graphs,
    report: &Report,
) -> Result<Bound, BindFault>
    requires own { graphs.now ≡ graphs_in source.now.tree }
    requires kind { IsAtomicity report.now }
    ensures { (result ≡ Err BindFault.NoMemory) ⊎ IsAnswer source.now report.now result }
{
    match report {
        Report::Atomicity { p, c, r } => bind_sites(alloc, source, graphs, p, c, r),
        Report::AllBefore { .. } | Report::FirstBefore { .. } => unreachable!(),
    }
}

/// Binds a report to a program, or says which rule refuses it: the first, in this order, that it does
/// not keep. The sites of p, c and r are accesses of the program (else `NoSite`); the stack of p, and
/// that of c, are calls of it, and both begin in one function (else `StackBroken`); where one of them
/// has a call, threads begin in that function (else `NotRoot`); and the region is not empty (else
/// `NoPath`). One walk of the program lists its accesses, and each site costs one pass over them and
/// their lines.
pub fn bind(
    alloc: Global,
    source: &Source,
    graphs: &Graphs,
    report: &Report,
) -> Result<Bound, BindFault>
    requires own { graphs.now ≡ graphs_in source.now.tree }
    requires kind { IsAtomicity report.now }
    ensures bound { IfOk result (λ bound. Binds source.now report.now bound) }
    ensures fits { IfOk result (λ bound. Fits source.now.tree bound) }
    ensures refused { IfErr result (λ fault. (fault ≡ BindFault.NoMemory) ⊎ Refuses source.now report.now fault) }

    // Both ways: what the report is fixes the answer, but for want of memory.
    ensures binds { (bound : Bound) → Binds source.now report.now bound → (result ≡ Ok bound) ⊎ (result ≡ Err BindFault.NoMemory) }
    ensures refuses { (fault : BindFault) → Refuses source.now report.now fault → (result ≡ Err fault) ⊎ (result ≡ Err BindFault.NoMemory) }
{
    answer(alloc, source, graphs, report)
}
