ghost use Rattle.std.specs.Prelude.{◌≡◌, ◌<◌, length, slice_get, Some, option_map, IsSome};
ghost use Rattle.std.specs.Option.{option_copied};
ghost use Rattle.c_prog.specs.Nodes.{tree_nodes};
ghost use Rattle.c_prog.specs.Order.{node_at};
ghost use Rattle.c_prog.specs.Places.{ops, start_ops, after_ops, true_ops, false_ops};
ghost use Rattle.c_prog.specs.View.{seen, seen_in};

use crate::find::find_node;
use crate::found::Found;
use c_prog::{NodeView, Program};
use cfix_base::{FnId, NodeId, Op, Place};

pub fn node_of(program: &Program, node: NodeId) -> Option<NodeView<'_>>
    ensures { seen_in result ≡ node_at program.now node.number }
{
    match find_node(program.tree().functions.as_slice(), node.number) {
        Found::Node(node) => Some(node),
        Found::Left(_) => None,
    }
}

fn after_ops(node: Option<NodeView<'_>>) -> Option<&[Op]>
    ensures { option_copied result ≡ after_ops (seen_in node.entry) }
{
    match node {
        None | Some(NodeView::Cond(_)) => None,
        Some(NodeView::Act { after, .. }) | Some(NodeView::Jump { after, .. }) => Some(after),
        Some(NodeView::Step(step)) => Some(step.after.as_slice()),
    }
}

fn true_ops(node: Option<NodeView<'_>>) -> Option<&[Op]>
    ensures { option_copied result ≡ true_ops (seen_in node.entry) }
{
    match node {
        Some(NodeView::Cond(cond)) => Some(cond.on_true.as_slice()),
        _ => None,
    }
}

fn false_ops(node: Option<NodeView<'_>>) -> Option<&[Op]>
    ensures { option_copied result ≡ false_ops (seen_in node.entry) }
{
    match node {
        Some(NodeView::Cond(cond)) => Some(cond.on_false.as_slice()),
        _ => None,
    }
}

fn start_ops(program: &Program, function: FnId) -> Option<&[Op]>
    ensures { option_copied result ≡ start_ops (slice_get program.now.functions function.number) }
{
    let function = program
        .tree()
        .functions
        .as_slice()
        .get(function.number as usize)?;
    Some(function.start.as_slice())
}

fn ops_at(program: &Program, place: Place) -> Option<&[Op]>
    ensures { option_copied result ≡ ops program.now place }
{
    match place {
        Place::Start(function) => start_ops(program, function),
        Place::After(node) => after_ops(node_of(program, node)),
        Place::True(node) => true_ops(node_of(program, node)),
        Place::False(node) => false_ops(node_of(program, node)),
    }
}

/// The operations at a place of the program.
pub fn ops(program: &Program, place: Place) -> &[Op]
    requires { IsSome (ops program.now place) }
    ensures { ops program.now place ≡ Some result.now }
{
    ops_at(program, place).unwrap()
}
