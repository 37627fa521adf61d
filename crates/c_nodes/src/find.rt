ghost use Rattle.c_prog.specs.Order.{order, order_of, functions_order, step_order};
ghost use Rattle.c_nodes.specs.Finding.{Finds};

use crate::found::Found;
use c_prog::{Function, NodeView, Step, Stmt};

fn find_step(step: &Option<Step>, number: u32) -> Found<'_>
    ensures { Finds result (step_order step.now) number }
{
    match step {
        None => Found::Left(number),
        Some(step) => {
            if number == 0 {
                Found::Node(NodeView::Step(step))
            } else {
                Found::Left(number - 1)
            }
        }
    }
}

#[cycle(find)]
fn find(stmt: &Stmt, number: u32) -> Found<'_>
    ensures { Finds result (order stmt.now) number }
{
    match stmt {
        Stmt::Simple { act, after } => {
            let after = after.as_slice();
            if number == 0 {
                Found::Node(NodeView::Act { act, after })
            } else {
                Found::Left(number - 1)
            }
        }
        Stmt::Jump { jump, after } => {
            let after = after.as_slice();
            if number == 0 {
                Found::Node(NodeView::Jump { jump, after })
            } else {
                Found::Left(number - 1)
            }
        }
        Stmt::If { cond, yes, no } => {
            if number == 0 {
                return Found::Node(NodeView::Cond(cond));
            }
            match find_in(yes.as_slice(), number - 1) {
                Found::Node(node) => Found::Node(node),
                Found::Left(left) => find_in(no.as_slice(), left),
            }
        }
        Stmt::Loop { cond, step, body } => {
            if number == 0 {
                return Found::Node(NodeView::Cond(cond));
            }
            match find_step(step, number - 1) {
                Found::Node(node) => Found::Node(node),
                Found::Left(left) => find_in(body.as_slice(), left),
            }
        }
        Stmt::Block(body) => find_in(body.as_slice(), number),
    }
}

#[cycle(find)]
pub fn find_in(list: &[Stmt], number: u32) -> Found<'_>
    ensures { Finds result (order_of list.now) number }
{
    let mut left = number;
    for stmt in list {
        match find(stmt, left) {
            Found::Node(node) => return Found::Node(node),
            Found::Left(rest) => left = rest,
        }
    }
    Found::Left(left)
}

/// The node with this number among those of functions.
pub fn find_node(list: &[Function], number: u32) -> Found<'_>
    ensures { Finds result (functions_order list.now) number }
{
    let mut left = number;
    for function in list {
        match find_in(function.body.as_slice(), left) {
            Found::Node(node) => return Found::Node(node),
            Found::Left(rest) => left = rest,
        }
    }
    Found::Left(left)
}
