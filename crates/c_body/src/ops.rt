ghost use Rattle.std.specs.Prelude.{◌≡◌, IfOk};
ghost use Rattle.c_raw.specs.Ops.{op_view, ops_view, more_ops_view};
ghost use Rattle.c_names.specs.Faults.{noted_all};
ghost use Rattle.c_names.specs.Simples.{op_faults, ops_faults, more_ops_faults};
ghost use Rattle.c_names.specs.SpelledStatements.{op_of, ops_of, more_ops_of};

use c_names::{Fault, FaultKind};
use c_raw::Verb;
use c_scope::note_if;
use cfix_base::{List, LockId, MAX_OPERATION_NUMBER, NoMemory, Op, OrderId, Spot};
use std::alloc::Global;

/// The operation.
pub fn op_of(raw: &c_raw::Op) -> Op
    ensures { result ≡ op_of (op_view raw.now) }
{
    let number = raw.number.value.unsigned_abs();
    match raw.verb {
        Verb::Enter => Op::Enter(LockId { number }),
        Verb::Leave => Op::Leave(LockId { number }),
        Verb::Wait => Op::Wait(OrderId { number }),
        Verb::Done => Op::Done(OrderId { number }),
        Verb::First => Op::First(OrderId { number }),
        Verb::Add => Op::Add(OrderId { number }),
    }
}

/// Notes an operation with a number above the limit.
pub fn note_op(least: &mut Option<Fault>, raw: &c_raw::Op)
    ensures { least.new ≡ noted_all least.old (op_faults (op_view raw.now)) }
{
    let is_over = MAX_OPERATION_NUMBER < raw.number.value.unsigned_abs();
    note_if(least, is_over, raw.at, FaultKind::Limit);
}

/// The operations, each with the token behind it.
pub fn ops_of(alloc: Global, raw: &[(c_raw::Op, Spot)]) -> Result<List<Op>, NoMemory>
    ensures { IfOk result (λ l. l ≡ ops_of (ops_view raw.now)) }
{
    let mut ops = List::new(alloc);
    for next in raw {
        ops.push(op_of(&next.0))?;
    }
    Ok(ops)
}

/// Notes the faults of operations, each with the token behind it.
#[tactic(auto, using(c_scope::proofs::Faults::faults))]
pub fn note_ops(least: &mut Option<Fault>, raw: &[(c_raw::Op, Spot)])
    ensures { least.new ≡ noted_all least.old (ops_faults (ops_view raw.now)) }
{
    for next in raw {
        note_op(least, &next.0);
    }
}

/// The operations, each with the comma before it.
pub fn more_ops_of(alloc: Global, raw: &[(Spot, c_raw::Op)]) -> Result<List<Op>, NoMemory>
    ensures { IfOk result (λ l. l ≡ more_ops_of (more_ops_view raw.now)) }
{
    let mut ops = List::new(alloc);
    for next in raw {
        ops.push(op_of(&next.1))?;
    }
    Ok(ops)
}

/// Notes the faults of operations, each with the comma before it.
#[tactic(auto, using(c_scope::proofs::Faults::faults))]
pub fn note_more_ops(least: &mut Option<Fault>, raw: &[(Spot, c_raw::Op)])
    ensures { least.new ≡ noted_all least.old (more_ops_faults (more_ops_view raw.now)) }
{
    for next in raw {
        note_op(least, &next.1);
    }
}
