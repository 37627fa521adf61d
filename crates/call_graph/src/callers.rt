ghost use Rattle.std.specs.Prelude.{◌≡◌, ◌<◌, ◌^◌, ◌++◌, ◌∷◌, [], length, take, replicate, IfOk, OnOk};
ghost use Rattle.call_graph.specs.Kept.{HaveCallers, with_caller};

use crate::site::Site;
use cfix_base::{FnId, List, NoMemory, NodeId};
use std::alloc::Global;

fn no_callers(alloc: Global, count: usize) -> Result<Vec<List<NodeId>>, NoMemory>
    ensures { IfOk result (λ lists. lists.items ≡ replicate count []) }
{
    let mut lists = Vec::new(alloc);
    for _ in 0..count {
        lists.push(List::new(alloc))?;
    }
    Ok(lists)
}

// Adds a node to the list of the function that it calls.
fn add_caller(
    lists: &mut Vec<List<NodeId>>,
    callee: Option<FnId>,
    node: NodeId,
) -> Result<(), NoMemory>
    ensures { OnOk result (lists.new.items ≡ with_caller lists.old.items callee node) }
{
    let Some(callee) = callee else {
        return Ok(());
    };
    let place = callee.number as usize;
    if place < lists.len() {
        lists[place].push(node)?;
    }
    Ok(())
}

/// Of each of so many functions, the nodes that call it, in rising order.
pub fn callers(
    alloc: Global,
    sites: &[Site],
    functions: usize,
) -> Result<List<List<NodeId>>, NoMemory>
    requires { length sites.now < 2 ^ 32 }
    ensures sized { IfOk result (λ lists. length lists ≡ functions) }
    ensures kept { IfOk result (λ lists. HaveCallers sites.now lists) }
{
    let mut lists = no_callers(alloc, functions)?;
    let mut number = 0;
    for site in sites {
        add_caller(&mut lists, site.callee, NodeId { number })?;
        number += 1;
    }
    Ok(List::from_vec(lists))
}
