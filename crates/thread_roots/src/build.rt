ghost use Rattle.std.specs.Prelude.{◌≡◌, IfOk};
ghost use Rattle.thread_roots.specs.Graphs.{graphs_in};

use crate::control::Graphs;
use c_prog::Program;
use call_graph::calls;
use cfix_base::NoMemory;
use flow_graph::flows;
use std::alloc::Global;

/// Control flow of all functions of a program, and its calls. It takes time linear in
/// the program's nodes and calls.
pub fn graphs(alloc: Global, program: &Program) -> Result<Graphs, NoMemory>
    ensures { IfOk result (λ graphs. graphs ≡ graphs_in program.now) }
{
    let flows = flows(alloc, program)?;
    let calls = calls(alloc, program)?;
    Ok(Graphs { flows, calls })
}
