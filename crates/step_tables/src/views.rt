ghost use Rattle.std.specs.Prelude.{◌≡◌, Some};
ghost use Rattle.c_prog.specs.Places.{after_ops, true_ops, false_ops};
ghost use Rattle.c_prog.specs.View.{seen};
ghost use Rattle.step_state.specs.Items.{act_text, gives, some_ops, text_of};
ghost use Rattle.step_tables.specs.Rows.{is_cond};

use c_prog::{Act, Jump, NodeView};
use cfix_base::Op;

/// Whether a node is a condition.
pub fn is_condition(node: NodeView<'_>) -> bool
    ensures { result ≡ is_cond (seen node.entry) }
{
    match node {
        NodeView::Cond(_) => true,
        _ => false,
    }
}

/// The operations behind a node that is no condition; none behind a condition.
pub fn after_ops(node: NodeView<'_>) -> &[Op]
    ensures { result.now ≡ some_ops (after_ops (Some (seen node.entry))) }
{
    match node {
        NodeView::Cond(_) => &[],
        NodeView::Act { after, .. } | NodeView::Jump { after, .. } => after,
        NodeView::Step(step) => step.after.as_slice(),
    }
}

/// The operations where a condition is not 0; none at any other node.
pub fn true_ops(node: NodeView<'_>) -> &[Op]
    ensures { result.now ≡ some_ops (true_ops (Some (seen node.entry))) }
{
    match node {
        NodeView::Cond(cond) => cond.on_true.as_slice(),
        _ => &[],
    }
}

/// The operations where a condition is 0; none at any other node.
pub fn false_ops(node: NodeView<'_>) -> &[Op]
    ensures { result.now ≡ some_ops (false_ops (Some (seen node.entry))) }
{
    match node {
        NodeView::Cond(cond) => cond.on_false.as_slice(),
        _ => &[],
    }
}

fn act_text(act: &Act) -> &[u8]
    ensures { result.now ≡ act_text act.now }
{
    match act {
        Act::Print { text, .. } => text.as_slice(),
        _ => &[],
    }
}

/// The string of a printf; empty at any other node.
pub fn node_text(node: NodeView<'_>) -> &[u8]
    ensures { result.now ≡ text_of (Some (seen node.entry)) }
{
    match node {
        NodeView::Act { act, .. } => act_text(act),
        NodeView::Step(step) => act_text(&step.act),
        _ => &[],
    }
}

/// Whether a node is a `return` with a value.
pub fn node_gives(node: NodeView<'_>) -> bool
    ensures { result ≡ gives (Some (seen node.entry)) }
{
    match node {
        NodeView::Jump { jump, .. } => match jump {
            Jump::ReturnValue(_) => true,
            _ => false,
        },
        _ => false,
    }
}
