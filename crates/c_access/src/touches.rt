ghost use Rattle.std.specs.Prelude.{◌≡◌, ◌++◌, OnOk, IfOk};
ghost use Rattle.c_prog.specs.Accesses.{stops_early, right_certain, marked, touched, kept_accesses, expr_accesses, read_accesses, index_accesses, args_accesses, value_accesses, initial_accesses, act_accesses, jump_accesses, touches};
ghost use Rattle.c_prog.specs.View.{seen};

use c_prog::{Act, BinOp, Expr, How, Jump, NodeView, Target, Touch, Value, Var};
use cfix_base::{Access, List, NoMemory};
use sqlite_items::Boxed;
use std::alloc::Global;

fn right_certain(certain: bool, op: BinOp) -> bool
    ensures { result ≡ right_certain certain op }
{
    certain && !matches!(op, BinOp::And | BinOp::Or)
}

#[tactic(auto, using(crate::proofs::Certain::certain_steps))]
fn add_touch(
    items: &mut List<Touch>,
    access: Access,
    var: Var,
    certain: bool,
) -> Result<(), NoMemory>
    ensures { OnOk result (items.new ≡ items.old ++ marked certain (touched access var)) }
{
    match var {
        Var::Global(var) => items.push(Touch {
            var,
            access,
            certain,
        }),
        Var::Local(_) => Ok(()),
    }
}

#[cycle(expr)]
#[tactic(auto, using(crate::proofs::Certain::certain_steps))]
fn add_expr(items: &mut List<Touch>, expr: &Expr, certain: bool) -> Result<(), NoMemory>
    ensures { OnOk result (items.new ≡ items.old ++ marked certain (expr_accesses expr.now)) }
{
    match expr {
        Expr::Number(_) | Expr::Cast(_) => Ok(()),
        Expr::Read(target) => add_read(items, target, certain),
        Expr::Neg(inner) | Expr::Not(inner) => add_expr(items, inner.get(), certain),
        Expr::Binary { op, left, right } => {
            add_expr(items, left.get(), certain)?;
            add_expr(items, right.get(), right_certain(certain, *op))
        }
    }
}

#[cycle(expr)]
#[tactic(auto, using(crate::proofs::Certain::certain_steps))]
fn add_read(items: &mut List<Touch>, target: &Target, certain: bool) -> Result<(), NoMemory>
    ensures { OnOk result (items.new ≡ items.old ++ marked certain (read_accesses target.now)) }
{
    add_index(items, &target.index, certain)?;
    add_touch(items, Access::Read, target.var, certain)
}

#[cycle(expr)]
#[tactic(auto, using(crate::proofs::Certain::certain_steps))]
fn add_index(
    items: &mut List<Touch>,
    index: &Option<Boxed<Expr>>,
    certain: bool,
) -> Result<(), NoMemory>
    ensures { OnOk result (items.new ≡ items.old ++ marked certain (index_accesses index.now)) }
{
    match index {
        None => Ok(()),
        Some(index) => add_expr(items, index.get(), certain),
    }
}

fn add_args(items: &mut List<Touch>, args: &[Expr]) -> Result<(), NoMemory>
    ensures { OnOk result (items.new ≡ items.old ++ args_accesses args.now) }
{
    for expr in args {
        add_expr(items, expr, true)?;
    }
    Ok(())
}

fn add_value(items: &mut List<Touch>, value: &Value) -> Result<(), NoMemory>
    ensures { OnOk result (items.new ≡ items.old ++ value_accesses value.now) }
{
    match value {
        Value::Expr(expr) => add_expr(items, expr, true),
        Value::Call(call) => add_args(items, call.args.as_slice()),
    }
}

fn add_initial(items: &mut List<Touch>, value: &Option<Value>) -> Result<(), NoMemory>
    ensures { OnOk result (items.new ≡ items.old ++ initial_accesses value.now) }
{
    match value {
        None => Ok(()),
        Some(value) => add_value(items, value),
    }
}

fn add_kept(items: &mut List<Touch>, how: How, var: Var) -> Result<(), NoMemory>
    ensures { OnOk result (items.new ≡ items.old ++ kept_accesses how var) }
{
    match how {
        How::Set => Ok(()),
        _ => add_touch(items, Access::Read, var, true),
    }
}

#[tactic(auto, using(crate::proofs::Certain::certain_steps))]
fn add_act(items: &mut List<Touch>, act: &Act) -> Result<(), NoMemory>
    ensures { OnOk result (items.new ≡ items.old ++ act_accesses act.now) }
{
    match act {
        Act::Declare { value, .. } => add_initial(items, value),
        Act::Assign { target, how, value } => {
            add_index(items, &target.index, true)?;
            add_kept(items, *how, target.var)?;
            add_value(items, value)?;
            add_touch(items, Access::Write, target.var, true)
        }
        Act::Up(target) | Act::Down(target) => {
            add_index(items, &target.index, true)?;
            add_touch(items, Access::Read, target.var, true)?;
            add_touch(items, Access::Write, target.var, true)
        }
        Act::Call(call) => add_args(items, call.args.as_slice()),
        Act::Create { target, arg, .. } => {
            add_index(items, &target.index, true)?;
            add_expr(items, arg, true)
        }
        Act::Join(target) => add_index(items, &target.index, true),
        Act::Lock(_) | Act::Unlock(_) => Ok(()),
        Act::Print { args, .. } => add_args(items, args.as_slice()),
        Act::Scan(target) => {
            add_index(items, &target.index, true)?;
            add_touch(items, Access::Write, target.var, true)
        }
        Act::Wait { .. } | Act::Signal(_) | Act::Broadcast(_) => Ok(()),
    }
}

fn add_jump(items: &mut List<Touch>, jump: &Jump) -> Result<(), NoMemory>
    ensures { OnOk result (items.new ≡ items.old ++ jump_accesses jump.now) }
{
    match jump {
        Jump::ReturnValue(value) => add_value(items, value),
        _ => Ok(()),
    }
}

/// The accesses of a node in evaluation order, before they are numbered.
pub fn touches(alloc: Global, node: NodeView<'_>) -> Result<List<Touch>, NoMemory>
    ensures { IfOk result (λ items. items ≡ touches (seen node.entry)) }
{
    let mut items = List::new(alloc);
    match node {
        NodeView::Act { act, .. } => add_act(&mut items, act)?,
        NodeView::Cond(cond) => add_expr(&mut items, &cond.test, true)?,
        NodeView::Step(step) => add_act(&mut items, &step.act)?,
        NodeView::Jump { jump, .. } => add_jump(&mut items, jump)?,
    }
    Ok(items)
}
