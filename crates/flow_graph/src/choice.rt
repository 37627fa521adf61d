ghost use Rattle.std.specs.Prelude.{◌≡◌, ◌+◌, ◌<◌, ◌^◌, ◌++◌, OnOk, IfOk};
ghost use Rattle.plan_types.specs.Sets.{is_in};
ghost use Rattle.flow_graph.specs.Links.{members, one_if};

use cfix_base::{NoMemory, NodeId};
use plan_types::NodeSet;
use std::alloc::Global;

fn add_member(numbers: &mut Vec<u32>, set: &NodeSet, number: u32) -> Result<(), NoMemory>
    ensures { OnOk result (numbers.new.items ≡ numbers.old.items ++ one_if (is_in set.now number) number) }
{
    if set.contains(NodeId { number }) {
        numbers.push(number)?;
    }
    Ok(())
}

/// Those of the `count` numbers from `first` on that are in the set.
pub fn members(alloc: Global, set: &NodeSet, first: u32, count: u32) -> Result<Vec<u32>, NoMemory>
    requires { first + count < 2 ^ 32 }
    ensures { IfOk result (λ numbers. numbers.items ≡ members set.now first count) }
{
    let mut numbers = Vec::new(alloc);
    for at in 0..count {
        add_member(&mut numbers, set, first + at)?;
    }
    Ok(numbers)
}
