ghost use Rattle.std.specs.Prelude.{◌≡◌, ◌++◌, map, false, OnOk, IfOk};
ghost use Rattle.flow_graph.specs.Links.{met, out_targets};

use crate::table::{Out, Side};
use cfix_base::{List, NoMemory};
use std::alloc::Global;

fn add_next(list: &mut List<u32>, next: Option<u32>) -> Result<(), NoMemory>
    ensures { OnOk result (list.new ≡ list.old ++ met false next) }
{
    match next {
        None => Ok(()),
        Some(node) => list.push(node),
    }
}

fn add_side(list: &mut List<u32>, side: Side) -> Result<(), NoMemory>
    ensures { OnOk result (list.new ≡ list.old ++ met side.is_dead side.next) }
{
    if side.is_dead {
        Ok(())
    } else {
        add_next(list, side.next)
    }
}

fn out_targets(alloc: Global, out: Out) -> Result<List<u32>, NoMemory>
    ensures { IfOk result (λ list. list ≡ out_targets out) }
{
    let mut list = List::new(alloc);
    match out {
        Out::After(next) => add_next(&mut list, next)?,
        Out::Branch { on_true, on_false } => {
            add_side(&mut list, on_true)?;
            add_side(&mut list, on_false)?;
        }
    }
    Ok(list)
}

/// For each node the nodes to which its edges lead.
pub fn onward(alloc: Global, outs: &[Out]) -> Result<List<List<u32>>, NoMemory>
    ensures { IfOk result (λ lists. lists ≡ map out_targets outs.now) }
{
    let mut lists = List::new(alloc);
    for out in outs {
        lists.push(out_targets(alloc, *out)?)?;
    }
    Ok(lists)
}
