ghost use Rattle.std.specs.Prelude.{◌≡◌, ◌+◌, ◌<◌, ◌^◌};
ghost use Rattle.c_prog.specs.Nodes.{step_nodes, function_nodes, functions_nodes};
ghost use Rattle.flow_graph.specs.Flow.{flow, parts_of, size_of};

use c_prog::{Function, Step, Stmt};

/// How many nodes a step has: one, if there is a step.
pub fn step_size(step: &Option<Step>) -> u32
    ensures { result ≡ step_nodes step.now }
{
    match step {
        None => 0,
        Some(_) => 1,
    }
}

/// How many nodes a statement has.
#[cycle(size)]
fn size(stmt: &Stmt) -> u32
    requires { (flow stmt.now).size < 2 ^ 32 }
    ensures { result ≡ (flow stmt.now).size }
{
    match stmt {
        Stmt::Simple { .. } | Stmt::Jump { .. } => 1,
        Stmt::If { yes, no, .. } => 1 + size_all(yes.as_slice()) + size_all(no.as_slice()),
        Stmt::Loop { step, body, .. } => 1 + step_size(step) + size_all(body.as_slice()),
        Stmt::Block(body) => size_all(body.as_slice()),
    }
}

/// How many nodes statements have, one after another.
#[cycle(size)]
fn size_all(list: &[Stmt]) -> u32
    requires { size_of (parts_of list.now) < 2 ^ 32 }
    ensures { result ≡ size_of (parts_of list.now) }
{
    let mut count = 0;
    for stmt in list {
        count += size(stmt);
    }
    count
}

/// How many nodes a function has.
#[tactic(auto, using(crate::proofs::NodeCounts::size_is_nodes))]
pub fn function_size(function: &Function) -> u32
    requires { function_nodes function.now < 2 ^ 32 }
    ensures { result ≡ function_nodes function.now }
{
    size_all(function.body.as_slice())
}

/// How many nodes functions have.
pub fn functions_size(list: &[Function]) -> u32
    requires { functions_nodes list.now < 2 ^ 32 }
    ensures { result ≡ functions_nodes list.now }
{
    let mut count = 0;
    for function in list {
        count += function_size(function);
    }
    count
}
