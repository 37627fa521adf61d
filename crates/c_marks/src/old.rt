ghost use Rattle.std.specs.Prelude.{◌≡◌, IfOk};
ghost use Rattle.c_prog.specs.Marks.{is_new, is_new_start, old_of, old_ops};

use cfix_base::{List, Marks, NoMemory, Op, OrderId};
use std::alloc::Global;

fn is_new(marks: Marks, op: Op) -> bool
    ensures { result ≡ is_new marks op }
{
    match op {
        Op::Leave(lock) | Op::Enter(lock) => lock.number >= marks.lock,
        Op::First(order) | Op::Done(order) | Op::Wait(order) | Op::Add(order) => {
            order.number >= marks.order
        }
    }
}

/// The operations that are not new.
pub fn old_ops(alloc: Global, list: &[Op], marks: Marks) -> Result<List<Op>, NoMemory>
    ensures { IfOk result (λ copy. copy ≡ old_ops marks list.now) }
{
    let mut copy = List::new(alloc);
    for op in list {
        if !is_new(marks, *op) {
            copy.push(*op)?;
        }
    }
    Ok(copy)
}

fn is_new_start(marks: Marks, order: OrderId) -> bool
    ensures { result ≡ is_new_start marks order }
{
    order.number >= marks.order
}

/// The orders that are not new.
pub fn old_starts(alloc: Global, list: &[OrderId], marks: Marks) -> Result<List<OrderId>, NoMemory>
    ensures { IfOk result (λ copy. copy ≡ old_of (is_new_start marks) list.now) }
{
    let mut copy = List::new(alloc);
    for order in list {
        if !is_new_start(marks, *order) {
            copy.push(*order)?;
        }
    }
    Ok(copy)
}
