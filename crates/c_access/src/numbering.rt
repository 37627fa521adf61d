ghost use Rattle.std.specs.Prelude.{◌≡◌, ◌<◌, ◌^◌, ◌++◌, true, nat_lt, map, length, OnOk, IfOk};
ghost use Rattle.std.specs.List.{list_all};
ghost use Rattle.c_prog.specs.Accesses.{numbered, touches};
ghost use Rattle.c_prog.specs.Calls.{has_callee, value_callee, act_callee, jump_callee, callee};
ghost use Rattle.c_prog.specs.Lines.{if_call, accesses_from, calls_from, tree_accesses, tree_calls};
ghost use Rattle.c_prog.specs.View.{seen};

use crate::node_accesses::numbered;
use crate::touches::touches;
use c_nodes::all_nodes;
use c_prog::{AccessItem, Act, Jump, NodeView, Program, Value};
use cfix_base::{List, NoMemory, NodeId};
use std::alloc::Global;

fn add_accesses(
    alloc: Global,
    items: &mut List<AccessItem>,
    number: NodeId,
    node: NodeView<'_>,
) -> Result<(), NoMemory>
    requires few { length (touches (seen node)) < 2 ^ 32 }
    ensures { OnOk result (items.new ≡ items.old ++ numbered number 0 (touches (seen node.entry))) }
{
    let touched = touches(alloc, node)?;
    let own = numbered(alloc, number, touched.as_slice())?;
    for item in own.as_slice() {
        items.push(*item)?;
    }
    Ok(())
}

// The accesses of nodes, of which this many at most stand in one.
fn accesses_of(alloc: Global, nodes: &[NodeView<'_>]) -> Result<List<AccessItem>, NoMemory>
    requires few { list_all (λ node. nat_lt (length (touches node)) (2 ^ 32)) (map seen nodes.now) ≡ true }
    requires count { length nodes.now < 2 ^ 32 }
    ensures { IfOk result (λ items. items ≡ accesses_from 0 (map seen nodes.now)) }
{
    let mut items = List::new(alloc);
    let mut number = 0;
    for node in nodes {
        add_accesses(alloc, &mut items, NodeId { number }, *node)?;
        number += 1;
    }
    Ok(items)
}

/// The accesses of a program to global `int` variables, node after node and in evaluation order.
pub fn tree_accesses(alloc: Global, program: &Program) -> Result<List<AccessItem>, NoMemory>
    ensures { IfOk result (λ items. items ≡ tree_accesses program.now) }
{
    let nodes = all_nodes(alloc, program)?;
    accesses_of(alloc, nodes.as_slice())
}

fn value_calls(value: &Value) -> bool
    ensures { result ≡ has_callee (value_callee value.now) }
{
    match value {
        Value::Call(_) => true,
        Value::Expr(_) => false,
    }
}

fn act_calls(act: &Act) -> bool
    ensures { result ≡ has_callee (act_callee act.now) }
{
    match act {
        Act::Declare {
            value: Some(value),
            ..
        } => value_calls(value),
        Act::Assign { value, .. } => value_calls(value),
        Act::Call(_) => true,
        _ => false,
    }
}

fn jump_calls(jump: &Jump) -> bool
    ensures { result ≡ has_callee (jump_callee jump.now) }
{
    match jump {
        Jump::ReturnValue(value) => value_calls(value),
        _ => false,
    }
}

fn node_calls(node: NodeView<'_>) -> bool
    ensures { result ≡ has_callee (callee (seen node.entry)) }
{
    match node {
        NodeView::Act { act, .. } => act_calls(act),
        NodeView::Cond(_) => false,
        NodeView::Step(step) => act_calls(&step.act),
        NodeView::Jump { jump, .. } => jump_calls(jump),
    }
}

fn add_call(calls: &mut List<NodeId>, number: NodeId, node: NodeView<'_>) -> Result<(), NoMemory>
    ensures { OnOk result (calls.new ≡ calls.old ++ if_call number (callee (seen node.entry))) }
{
    if node_calls(node) {
        calls.push(number)?;
    }
    Ok(())
}

fn calls_of(alloc: Global, nodes: &[NodeView<'_>]) -> Result<List<NodeId>, NoMemory>
    requires count { length nodes.now < 2 ^ 32 }
    ensures { IfOk result (λ calls. calls ≡ calls_from 0 (map seen nodes.now)) }
{
    let mut calls = List::new(alloc);
    let mut number = 0;
    for node in nodes {
        add_call(&mut calls, NodeId { number }, *node)?;
        number += 1;
    }
    Ok(calls)
}

/// The nodes of a program that call a function, in their order.
pub fn tree_calls(alloc: Global, program: &Program) -> Result<List<NodeId>, NoMemory>
    ensures { IfOk result (λ calls. calls ≡ tree_calls program.now) }
{
    let nodes = all_nodes(alloc, program)?;
    calls_of(alloc, nodes.as_slice())
}
