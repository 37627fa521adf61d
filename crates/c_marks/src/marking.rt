ghost use Rattle.std.specs.Prelude.{◌≡◌, max};
ghost use Rattle.c_prog.specs.Marks.{above_lock, above_order, above_start, all_of, all_ops, cond_ops, function_all, functions_all, greatest, step_ops, tree_marks};

use c_prog::{Cond, Function, Program, Step, Stmt};
use cfix_base::{Marks, Op, OrderId};

/// The least numbers above those of some locks and orders, which always fit here.
#[derive(Clone, Copy)]
struct Above {
    lock: u64,
    order: u64,
}

fn greater(a: u64, b: u64) -> u64
    ensures { result ≡ max a b }
{
    if a < b { b } else { a }
}

fn higher(a: Above, b: Above) -> Above
    ensures lock { result.lock ≡ max a.lock b.lock }
    ensures order { result.order ≡ max a.order b.order }
{
    Above {
        lock: greater(a.lock, b.lock),
        order: greater(a.order, b.order),
    }
}

fn above_op(op: Op) -> Above
    ensures lock { result.lock ≡ above_lock op }
    ensures order { result.order ≡ above_order op }
{
    match op {
        Op::Leave(lock) | Op::Enter(lock) => Above {
            lock: lock.number as u64 + 1,
            order: 0,
        },
        Op::First(order) | Op::Done(order) | Op::Wait(order) | Op::Add(order) => Above {
            lock: 0,
            order: order.number as u64 + 1,
        },
    }
}

#[tactic(auto, using(crate::proofs::Greatest::greatest_steps))]
fn above_ops(list: &[Op]) -> Above
    ensures lock { result.lock ≡ greatest above_lock list.now }
    ensures order { result.order ≡ greatest above_order list.now }
{
    let mut above = Above { lock: 0, order: 0 };
    for op in list {
        above = higher(above, above_op(*op));
    }
    above
}

#[tactic(auto, using(crate::proofs::Greatest::greatest_steps))]
fn above_cond(cond: &Cond) -> Above
    ensures lock { result.lock ≡ greatest above_lock (cond_ops cond.now) }
    ensures order { result.order ≡ greatest above_order (cond_ops cond.now) }
{
    higher(
        above_ops(cond.on_true.as_slice()),
        above_ops(cond.on_false.as_slice()),
    )
}

fn above_step(step: &Option<Step>) -> Above
    ensures lock { result.lock ≡ greatest above_lock (step_ops step.now) }
    ensures order { result.order ≡ greatest above_order (step_ops step.now) }
{
    match step {
        None => Above { lock: 0, order: 0 },
        Some(step) => above_ops(step.after.as_slice()),
    }
}

#[cycle(above)]
#[tactic(auto, using(crate::proofs::Greatest::greatest_steps))]
fn above_stmt(stmt: &Stmt) -> Above
    ensures lock { result.lock ≡ greatest above_lock (all_ops stmt.now) }
    ensures order { result.order ≡ greatest above_order (all_ops stmt.now) }
{
    match stmt {
        Stmt::Simple { after, .. } | Stmt::Jump { after, .. } => above_ops(after.as_slice()),
        Stmt::If { cond, yes, no } => {
            let inside = higher(above_stmts(yes.as_slice()), above_stmts(no.as_slice()));
            higher(above_cond(cond), inside)
        }
        Stmt::Loop { cond, step, body } => {
            let inside = higher(above_step(step), above_stmts(body.as_slice()));
            higher(above_cond(cond), inside)
        }
        Stmt::Block(body) => above_stmts(body.as_slice()),
    }
}

#[cycle(above)]
#[tactic(auto, using(crate::proofs::Greatest::greatest_steps))]
fn above_stmts(list: &[Stmt]) -> Above
    ensures lock { result.lock ≡ greatest above_lock (all_of list.now) }
    ensures order { result.order ≡ greatest above_order (all_of list.now) }
{
    let mut above = Above { lock: 0, order: 0 };
    for stmt in list {
        above = higher(above, above_stmt(stmt));
    }
    above
}

#[tactic(auto, using(crate::proofs::Greatest::greatest_steps))]
fn above_function(function: &Function) -> Above
    ensures lock { result.lock ≡ greatest above_lock (function_all function.now) }
    ensures order { result.order ≡ greatest above_order (function_all function.now) }
{
    higher(
        above_ops(function.start.as_slice()),
        above_stmts(function.body.as_slice()),
    )
}

#[tactic(auto, using(crate::proofs::Greatest::greatest_steps))]
fn above_functions(list: &[Function]) -> Above
    ensures lock { result.lock ≡ greatest above_lock (functions_all list.now) }
    ensures order { result.order ≡ greatest above_order (functions_all list.now) }
{
    let mut above = Above { lock: 0, order: 0 };
    for function in list {
        above = higher(above, above_function(function));
    }
    above
}

#[tactic(auto, using(crate::proofs::Greatest::greatest_steps))]
fn above_starts(list: &[OrderId]) -> u64
    ensures { result ≡ greatest above_start list.now }
{
    let mut above = 0;
    for order in list {
        above = greater(above, order.number as u64 + 1);
    }
    above
}

/// The marks of a program: 1 plus the greatest number of a lock in its operations, or 0 where they
/// have none, and the same of orders, in its operations and among those that begin with a token.
/// It takes no memory.
pub fn marks(program: &Program) -> Marks
    ensures { result ≡ tree_marks program.now }
{
    let tree = program.tree();
    let above = above_functions(tree.functions.as_slice());
    let order = greater(above.order, above_starts(tree.starts.as_slice()));
    Marks {
        lock: above.lock as u32,
        order: order as u32,
    }
}
