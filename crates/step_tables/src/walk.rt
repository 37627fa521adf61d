ghost use Rattle.std.specs.Prelude.{◌≡◌, ◌++◌, map, IfOk, OnOk};
ghost use Rattle.c_prog.specs.Order.{function_order, order, order_of, step_order};
ghost use Rattle.c_prog.specs.View.{seen};

use c_prog::{Function, NodeView, Step, Stmt};
use cfix_base::{List, NoMemory};
use std::alloc::Global;

fn add_step<'a>(nodes: &mut List<NodeView<'a>>, step: &'a Option<Step>) -> Result<(), NoMemory>
    ensures { OnOk result (map seen nodes.new ≡ map seen nodes.old ++ step_order step.now) }
{
    match step {
        None => Ok(()),
        Some(step) => nodes.push(NodeView::Step(step)),
    }
}

// Adds the nodes of a statement.
#[cycle(walk)]
fn add_stmt<'a>(nodes: &mut List<NodeView<'a>>, stmt: &'a Stmt) -> Result<(), NoMemory>
    ensures { OnOk result (map seen nodes.new ≡ map seen nodes.old ++ order stmt.now) }
{
    match stmt {
        Stmt::Simple { act, after } => {
            let after = after.as_slice();
            nodes.push(NodeView::Act { act, after })
        }
        Stmt::Jump { jump, after } => {
            let after = after.as_slice();
            nodes.push(NodeView::Jump { jump, after })
        }
        Stmt::If { cond, yes, no } => {
            nodes.push(NodeView::Cond(cond))?;
            add_all(nodes, yes.as_slice())?;
            add_all(nodes, no.as_slice())
        }
        Stmt::Loop { cond, step, body } => {
            nodes.push(NodeView::Cond(cond))?;
            add_step(nodes, step)?;
            add_all(nodes, body.as_slice())
        }
        Stmt::Block(body) => add_all(nodes, body.as_slice()),
    }
}

// Adds the nodes of statements, one after another.
#[cycle(walk)]
fn add_all<'a>(nodes: &mut List<NodeView<'a>>, list: &'a [Stmt]) -> Result<(), NoMemory>
    ensures { OnOk result (map seen nodes.new ≡ map seen nodes.old ++ order_of list.now) }
{
    for stmt in list {
        add_stmt(nodes, stmt)?;
    }
    Ok(())
}

/// The nodes of a function, in their order.
pub fn nodes_of<'a>(alloc: Global, function: &'a Function) -> Result<List<NodeView<'a>>, NoMemory>
    ensures { IfOk result (λ nodes. map seen nodes ≡ function_order function.now) }
{
    let mut nodes = List::new(alloc);
    add_all(&mut nodes, function.body.as_slice())?;
    Ok(nodes)
}
