ghost use Rattle.std.specs.Prelude.{◌≡◌, IfOk};
ghost use Rattle.call_graph.specs.Sites.{calls_of};

use crate::callers::callers;
use crate::created::created;
use crate::mains::mains;
use crate::sites::sites;
use crate::table::Calls;
use c_prog::Program;
use cfix_base::NoMemory;
use std::alloc::Global;

/// The calls of a program, in time linear in its nodes and functions.
pub fn calls(alloc: Global, program: &Program) -> Result<Calls, NoMemory>
    ensures { IfOk result (λ calls. calls ≡ calls_of program.now) }
{
    let functions = program.tree().functions.as_slice();
    let count = functions.len();
    let sites = sites(alloc, functions)?;
    let callers = callers(alloc, sites.as_slice(), count)?;
    let mains = mains(alloc, functions)?;
    let created = created(alloc, sites.as_slice(), count as u32)?;
    Ok(Calls::of(sites, callers, mains, created))
}
