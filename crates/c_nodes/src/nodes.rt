ghost use Rattle.std.specs.Prelude.{◌≡◌, ◌<◌, ◌^◌};
ghost use Rattle.c_prog.specs.Nodes.{nodes, nodes_of, functions_nodes, step_nodes, tree_nodes};

use c_prog::{Function, Program, Step, Stmt};

fn step_nodes(step: &Option<Step>) -> u32
    ensures { result ≡ step_nodes step.now }
{
    match step {
        None => 0,
        Some(_) => 1,
    }
}

#[cycle(count)]
fn nodes(stmt: &Stmt) -> u32
    requires { nodes stmt.now < 2 ^ 32 }
    ensures { result ≡ nodes stmt.now }
{
    match stmt {
        Stmt::Simple { .. } | Stmt::Jump { .. } => 1,
        Stmt::If { yes, no, .. } => 1 + nodes_of(yes.as_slice()) + nodes_of(no.as_slice()),
        Stmt::Loop { step, body, .. } => 1 + step_nodes(step) + nodes_of(body.as_slice()),
        Stmt::Block(body) => nodes_of(body.as_slice()),
    }
}

#[cycle(count)]
fn nodes_of(list: &[Stmt]) -> u32
    requires { nodes_of list.now < 2 ^ 32 }
    ensures { result ≡ nodes_of list.now }
{
    let mut count = 0;
    for stmt in list {
        count += nodes(stmt);
    }
    count
}

/// How many nodes functions have.
fn functions_nodes(list: &[Function]) -> u32
    requires { functions_nodes list.now < 2 ^ 32 }
    ensures { result ≡ functions_nodes list.now }
{
    let mut count = 0;
    for function in list {
        count += nodes_of(function.body.as_slice());
    }
    count
}

/// How many nodes the program has.
pub fn node_count(program: &Program) -> u32
    ensures { result ≡ tree_nodes program.now }
{
    functions_nodes(program.tree().functions.as_slice())
}
