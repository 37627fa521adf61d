ghost use Rattle.std.specs.Prelude.{◌≡◌, true, IfOk, IfErr};
ghost use Rattle.cfix_core.specs.OneReport.{is_bare};
ghost use Rattle.cfix_core.specs.Failures.{FailsBy};
ghost use Rattle.cfix_core.specs.Repair.{Breaks, IsBound, HasRefusal, failure_for, region_of_atom, region_of};

use crate::failure::{Failure, Refusal};
use c_source::Source;
use first_form::Region;
use plan_types::{Atom, Bound};
use report_bind::{BindFault, bind};
use report_json::Report;
use std::alloc::Global;
use thread_roots::graphs;

/// The failure for the rule that a report does not keep.
fn failure_for(fault: BindFault) -> Failure
    requires { HasRefusal fault }
    ensures { result ≡ failure_for fault }
{
    match fault {
        BindFault::NoMemory => Failure::NoMemory,
        BindFault::NoSite(role) => Failure::Refused(Refusal::NoSite(role)),
        BindFault::StackBroken(role) => Failure::Refused(Refusal::StackBroken(role)),
        BindFault::NoPath(np, nc) => Failure::Refused(Refusal::NoPath(np, nc)),
        BindFault::NotRoot(_) | BindFault::MaybeAccess | BindFault::OrderCycle(_) => unreachable!(),
    }
}

/// The report bound in the program.
pub fn bound_of(alloc: Global, source: &Source, report: &Report) -> Result<Bound, Failure>
    requires { is_bare report.now ≡ true }
    ensures bound { IfOk result (IsBound source.now report.now) }
    ensures refused { IfErr result (FailsBy (λ refusal. Breaks refusal source.now report.now)) }
{
    let graphs = graphs(alloc, source.program())?;
    match bind(alloc, source, &graphs, report) {
        Ok(bound) => Ok(bound),
        Err(fault) => Err(failure_for(fault)),
    }
}

fn region_of_atom(atom: &Atom) -> Option<Region>
    ensures { result ≡ region_of_atom atom.now }
{
    if atom.same_visit {
        Some(Region {
            here: atom.np.number,
            there: atom.r.node.number,
        })
    } else {
        None
    }
}

/// The nodes of p and r, where p and c lie in one visit of a node.
pub fn region_of(bound: &Bound) -> Option<Region>
    ensures { result ≡ region_of bound.now }
{
    match bound {
        Bound::Atom(atom) => region_of_atom(atom),
        _ => None,
    }
}
