ghost use Rattle.std.specs.Prelude.{◌≡◌, IfOk};

use c_prog::{CallForm, Expr, Target, Value};
use cfix_base::{List, NoMemory};
use sqlite_items::Boxed;
use std::alloc::Global;

/// An equal list.
pub fn copy_list<T: Copy + Drop>(alloc: Global, list: &List<T>) -> Result<List<T>, NoMemory>
    ensures { IfOk result (λ copy. copy ≡ list.now) }
{
    let mut copy = List::new(alloc);
    for item in list.as_slice() {
        copy.push(*item)?;
    }
    Ok(copy)
}

/// An equal expression.
#[cycle(copy)]
pub fn copy_expr(alloc: Global, expr: &Expr) -> Result<Expr, NoMemory>
    ensures { IfOk result (λ copy. copy ≡ expr.now) }
{
    match expr {
        Expr::Number(number) => Ok(Expr::Number(*number)),
        Expr::Read(target) => Ok(Expr::Read(copy_target(alloc, target)?)),
        Expr::Cast(local) => Ok(Expr::Cast(*local)),
        Expr::Neg(inner) => Ok(Expr::Neg(copy_boxed(alloc, inner)?)),
        Expr::Not(inner) => Ok(Expr::Not(copy_boxed(alloc, inner)?)),
        Expr::Binary { op, left, right } => {
            let left = copy_boxed(alloc, left)?;
            let right = copy_boxed(alloc, right)?;
            Ok(Expr::Binary {
                op: *op,
                left,
                right,
            })
        }
    }
}

#[cycle(copy)]
fn copy_boxed(alloc: Global, expr: &Boxed<Expr>) -> Result<Boxed<Expr>, NoMemory>
    ensures { IfOk result (λ copy. copy ≡ expr.now) }
{
    let inner = copy_expr(alloc, expr.get())?;
    Ok(Boxed::new(alloc, inner)?)
}

/// An equal variable or element.
#[cycle(copy)]
pub fn copy_target(alloc: Global, target: &Target) -> Result<Target, NoMemory>
    ensures { IfOk result (λ copy. copy ≡ target.now) }
{
    let index = match &target.index {
        None => None,
        Some(index) => Some(copy_boxed(alloc, index)?),
    };
    Ok(Target {
        var: target.var,
        index,
    })
}

/// Equal arguments.
pub fn copy_args(alloc: Global, list: &List<Expr>) -> Result<List<Expr>, NoMemory>
    ensures { IfOk result (λ copy. copy ≡ list.now) }
{
    let mut copy = List::new(alloc);
    for expr in list.as_slice() {
        copy.push(copy_expr(alloc, expr)?)?;
    }
    Ok(copy)
}

/// An equal call.
pub fn copy_call(alloc: Global, call: &CallForm) -> Result<CallForm, NoMemory>
    ensures { IfOk result (λ copy. copy ≡ call.now) }
{
    Ok(CallForm {
        of: call.of,
        args: copy_args(alloc, &call.args)?,
    })
}

/// An equal value.
pub fn copy_value(alloc: Global, value: &Value) -> Result<Value, NoMemory>
    ensures { IfOk result (λ copy. copy ≡ value.now) }
{
    match value {
        Value::Expr(expr) => Ok(Value::Expr(copy_expr(alloc, expr)?)),
        Value::Call(call) => Ok(Value::Call(copy_call(alloc, call)?)),
    }
}
