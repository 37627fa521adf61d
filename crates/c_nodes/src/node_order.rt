ghost use Rattle.std.specs.Prelude.{◌≡◌, ◌<◌, ◌^◌, ◌++◌, true, nat_lt, map, length, OnOk, IfOk};
ghost use Rattle.std.specs.List.{list_all};
ghost use Rattle.c_prog.specs.Accesses.{touches};
ghost use Rattle.c_prog.specs.Order.{order, order_of, functions_order, step_order, tree_order};
ghost use Rattle.c_prog.specs.View.{seen};

use c_prog::{Function, NodeView, Program, Step, Stmt};
use cfix_base::NoMemory;
use std::alloc::Global;

fn add_step<'a>(nodes: &mut Vec<NodeView<'a>>, step: &'a Option<Step>) -> Result<(), NoMemory>
    ensures { OnOk result (map seen nodes.new.items ≡ map seen nodes.old.items ++ step_order step.now) }
{
    if let Some(step) = step {
        nodes.push(NodeView::Step(step))?;
    }
    Ok(())
}

#[cycle(order)]
fn add_nodes<'a>(nodes: &mut Vec<NodeView<'a>>, stmt: &'a Stmt) -> Result<(), NoMemory>
    ensures { OnOk result (map seen nodes.new.items ≡ map seen nodes.old.items ++ order stmt.now) }
{
    match stmt {
        Stmt::Simple { act, after } => {
            let after = after.as_slice();
            nodes.push(NodeView::Act { act, after })?;
            Ok(())
        }
        Stmt::Jump { jump, after } => {
            let after = after.as_slice();
            nodes.push(NodeView::Jump { jump, after })?;
            Ok(())
        }
        Stmt::If { cond, yes, no } => {
            nodes.push(NodeView::Cond(cond))?;
            add_list(nodes, yes.as_slice())?;
            add_list(nodes, no.as_slice())
        }
        Stmt::Loop { cond, step, body } => {
            nodes.push(NodeView::Cond(cond))?;
            add_step(nodes, step)?;
            add_list(nodes, body.as_slice())
        }
        Stmt::Block(body) => add_list(nodes, body.as_slice()),
    }
}

#[cycle(order)]
fn add_list<'a>(nodes: &mut Vec<NodeView<'a>>, list: &'a [Stmt]) -> Result<(), NoMemory>
    ensures { OnOk result (map seen nodes.new.items ≡ map seen nodes.old.items ++ order_of list.now) }
{
    for stmt in list {
        add_nodes(nodes, stmt)?;
    }
    Ok(())
}

// The nodes of functions in their order.
fn nodes_in(alloc: Global, functions: &[Function]) -> Result<Vec<NodeView<'_>>, NoMemory>
    ensures { IfOk result (λ nodes. map seen nodes.items ≡ functions_order functions.now) }
{
    let mut nodes = Vec::new(alloc);
    for function in functions {
        add_list(&mut nodes, function.body.as_slice())?;
    }
    Ok(nodes)
}

/// The nodes of a program in their order; they are few, and so are the accesses of each.
pub fn all_nodes(alloc: Global, program: &Program) -> Result<Vec<NodeView<'_>>, NoMemory>
    ensures seen { IfOk result (λ nodes. map seen nodes.items ≡ tree_order program.now) }
    ensures count { IfOk result (λ nodes. length nodes.items < 2 ^ 32) }
    ensures few { IfOk result (λ nodes. list_all (λ node. nat_lt (length (touches node)) (2 ^ 32)) (map seen nodes.items) ≡ true) }
{
    let tree = program.tree();
    let nodes = nodes_in(alloc, tree.functions.as_slice())?;
    Ok(nodes)
}
