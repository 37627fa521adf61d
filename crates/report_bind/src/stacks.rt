ghost use Rattle.std.specs.Prelude.{◌≡◌, ◌<◌, ◌^◌, Some, IfOk, filter, length, slice_get};
ghost use Rattle.c_prog.specs.Lines.{call_line, tree_calls};
ghost use Rattle.call_graph.specs.Calls.{function_of};
ghost use Rattle.call_graph.specs.Sites.{calls_of};
ghost use Rattle.report_bind.specs.Stacks.{named_from, function_named, is_function, is_call, call_in, outermost, calls_in, stack_of};

use crate::found::Stack;
use c_prog::Function;
use c_source::Source;
use call_graph::Calls;
use cfix_base::{AccessId, FnId, List, NoMemory, NodeId};
use report_json::CallSite;
use std::alloc::Global;

fn named_in(functions: &[Function], name: &[u8]) -> Option<FnId>
    requires { length functions.now < 2 ^ 32 }
    ensures { result ≡ named_from 0 functions.now name.now }
{
    let mut number = 0;
    for function in functions {
        if function.name.as_slice() == name {
            return Some(FnId { number });
        }
        number += 1;
    }
    None
}

fn function_named(source: &Source, name: &[u8]) -> Option<FnId>
    ensures { result ≡ function_named source.now.tree name.now }
{
    named_in(source.program().tree().functions.as_slice(), name)
}

fn is_function(found: Option<FnId>, function: FnId) -> bool
    ensures { result ≡ is_function found function }
{
    match found {
        None => false,
        Some(other) => other.number == function.number,
    }
}

// Whether a node of one function, whose called name stands on the line of `entry`, calls another on
// `line`.
fn is_call(
    source: &Source,
    calls: &Calls,
    between: (FnId, FnId),
    line: u32,
    entry: (NodeId, u32),
) -> bool
    requires own { calls.now ≡ calls_of source.now.tree }
    requires exists { entry.0.number < length calls.now.sites }
    requires lined { call_line source.now.lines entry.0 ≡ Some entry.1 }
    ensures { result ≡ is_call source.now between.0 between.1 line entry.0 }
{
    let (outer, inner) = between;
    let (node, own_line) = entry;
    let function = calls.function_of(node);
    let callee = calls.callee(node);
    let on_line = own_line == line;
    function.number == outer.number && (is_function(callee, inner) && on_line)
}

fn find_call(
    source: &Source,
    calls: &Calls,
    call: &CallSite,
    between: (FnId, FnId),
) -> Option<NodeId>
    requires { calls.now ≡ calls_of source.now.tree }
    ensures { result ≡ slice_get (filter (is_call source.now between.0 between.1 call.now.line) (tree_calls source.now.tree)) call.now.nth }
{
    let entries = source.lines().calls();
    let mut left = call.nth;
    for entry in entries {
        if is_call(source, calls, between, call.line, *entry) {
            if left == 0 {
                return Some(entry.0);
            }
            left -= 1;
        }
    }
    None
}

fn call_in(source: &Source, calls: &Calls, call: &CallSite, inner: Option<FnId>) -> Option<NodeId>
    requires { calls.now ≡ calls_of source.now.tree }
    ensures { result ≡ call_in source.now call.now (function_named source.now.tree call.now.of) inner }
{
    let outer = function_named(source, call.of.as_slice())?;
    let inner = inner?;
    find_call(source, calls, call, (outer, inner))
}

fn outermost(source: &Source, stack: &[CallSite], own: FnId) -> Option<FnId>
    ensures { result ≡ outermost source.now.tree stack.now (Some own) }
{
    match stack {
        [] => Some(own),
        [call, ..] => function_named(source, call.of.as_slice()),
    }
}

fn calls_in(
    alloc: Global,
    source: &Source,
    calls: &Calls,
    stack: &[CallSite],
    own: FnId,
) -> Result<Option<List<NodeId>>, NoMemory>
    requires { calls.now ≡ calls_of source.now.tree }
    ensures { IfOk result (λ found. found ≡ calls_in source.now stack.now (Some own)) }
{
    let mut nodes = List::new(alloc);
    for (place, call) in stack.iter().enumerate() {
        let inner = outermost(source, &stack[place + 1..], own);
        let Some(node) = call_in(source, calls, call, inner) else {
            return Ok(None);
        };
        nodes.push(node)?;
    }
    Ok(Some(nodes))
}

/// What a stack of an access means; none if it is broken.
pub fn find_stack(
    alloc: Global,
    source: &Source,
    calls: &Calls,
    stack: &[CallSite],
    access: AccessId,
) -> Result<Option<Stack>, NoMemory>
    requires own { calls.now ≡ calls_of source.now.tree }
    requires exists { access.node.number < length calls.now.sites }
    ensures { IfOk result (λ found. found ≡ stack_of source.now stack.now access) }
{
    let own = calls.function_of(access.node);
    let Some(function) = outermost(source, stack, own) else {
        return Ok(None);
    };
    let Some(calls) = calls_in(alloc, source, calls, stack, own)? else {
        return Ok(None);
    };
    Ok(Some(Stack { function, calls }))
}
