ghost use Rattle.std.specs.Prelude.{◌≡◌, ◌<◌, ◌^◌, length, slice_get, Some, IfOk};
ghost use Rattle.c_prog.specs.Accesses.{accesses, numbered, touches_of};
ghost use Rattle.c_prog.specs.View.{seen_in};

use crate::access_list::AccessList;
use crate::touches::touches;
use c_nodes::node_of;
use c_prog::{AccessItem, NodeView, Program, Touch};
use cfix_base::{AccessId, List, NoMemory, NodeId};
use std::alloc::Global;

pub fn numbered(
    alloc: Global,
    node: NodeId,
    touches: &[Touch],
) -> Result<List<AccessItem>, NoMemory>
    requires { length touches.now < 2 ^ 32 }
    ensures { IfOk result (λ items. items ≡ numbered node 0 touches.now) }
{
    let mut items = List::new(alloc);
    let mut index = 0;
    for touch in touches {
        items.push(AccessItem {
            id: AccessId { node, index },
            var: touch.var,
            access: touch.access,
            certain: touch.certain,
        })?;
        index += 1;
    }
    Ok(items)
}

fn touches_of(alloc: Global, node: Option<NodeView<'_>>) -> Result<List<Touch>, NoMemory>
    ensures { IfOk result (λ items. items ≡ touches_of (seen_in node.entry)) }
{
    match node {
        None => Ok(List::new(alloc)),
        Some(node) => touches(alloc, node),
    }
}

/// The accesses of a node to global `int` variables, in evaluation order; none where the program
/// has no such node.
pub fn accesses(alloc: Global, program: &Program, node: NodeId) -> Result<AccessList, NoMemory>
    ensures { IfOk result (λ list. list ≡ accesses program.now node) }
{
    let _tree = program.tree();
    let touches = touches_of(alloc, node_of(program, node))?;
    let items = numbered(alloc, node, touches.as_slice())?;
    Ok(AccessList::of(items))
}
