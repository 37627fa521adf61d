ghost use Rattle.std.specs.Prelude.{◌≡◌, ◌++◌, map, IfOk, OnOk};
ghost use Rattle.flow_graph.specs.Flow.{number_of};
ghost use Rattle.step_state.specs.Code.{arrive, go_to};
ghost use Rattle.step_state.specs.declared.item.Item.TheVariants as item;
ghost use Rattle.step_tables.specs.TreeCode.{tree_code};

use cfix_base::{NoMemory, NodeId, Op, Place};
use std::alloc::Global;
use step_state::{Item, Move, Stack};
use step_tables::Tables;

/// What a frame does when control is at this node, or at the exit.
fn go_to(next: Option<NodeId>) -> Item
    ensures { result ≡ go_to (number_of next) }
{
    match next {
        None => Item::Go(Move::Exit),
        Some(node) => Item::Go(Move::Node(node)),
    }
}

/// Puts operations before the work.
#[tactic(auto, using(crate::proofs::Works::drop_at, crate::proofs::Works::mapped_all))]
fn push_ops(work: &mut Stack<Item>, ops: &[Op]) -> Result<(), NoMemory>
    ensures { OnOk result (work.new ≡ map item.Op ops.now ++ work.old) }
{
    let mut left = ops.len();
    while left > 0 {
        left -= 1;
        let op = ops[left];
        work.push(Item::Op(op))?;
    }
    Ok(())
}

/// The work after a place.
pub fn work_after(alloc: Global, tables: &Tables, place: Place) -> Result<Stack<Item>, NoMemory>
    ensures { IfOk result (λ work. work ≡ arrive (tree_code tables.now) place) }
{
    let mut work = Stack::new(alloc);
    work.push(go_to(tables.next(place)))?;
    push_ops(&mut work, tables.ops(place))?;
    Ok(work)
}

/// The work that these items are.
#[tactic(auto, using(crate::proofs::Works::and_nothing))]
pub fn work_of(alloc: Global, items: &[Item]) -> Result<Stack<Item>, NoMemory>
    ensures { IfOk result (λ work. work ≡ items.now) }
{
    let mut work = Stack::new(alloc);
    work.push_all(items)?;
    Ok(work)
}
