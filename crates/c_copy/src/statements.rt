ghost use Rattle.std.specs.Prelude.{◌≡◌, IfOk};

use crate::acts::{copy_act, copy_jump};
use crate::expressions::{copy_expr, copy_list};
use c_prog::{Cond, Step, Stmt};
use cfix_base::NoMemory;
use sqlite_items::Items;
use std::alloc::Global;

fn copy_cond(alloc: Global, cond: &Cond) -> Result<Cond, NoMemory>
    ensures { IfOk result (λ copy. copy ≡ cond.now) }
{
    let test = copy_expr(alloc, &cond.test)?;
    let on_true = copy_list(alloc, &cond.on_true)?;
    let on_false = copy_list(alloc, &cond.on_false)?;
    Ok(Cond {
        test,
        on_true,
        on_false,
    })
}

fn copy_step(alloc: Global, step: &Option<Step>) -> Result<Option<Step>, NoMemory>
    ensures { IfOk result (λ copy. copy ≡ step.now) }
{
    match step {
        None => Ok(None),
        Some(step) => {
            let act = copy_act(alloc, &step.act)?;
            let after = copy_list(alloc, &step.after)?;
            Ok(Some(Step { act, after }))
        }
    }
}

#[cycle(copy)]
fn copy_stmt(alloc: Global, stmt: &Stmt) -> Result<Stmt, NoMemory>
    ensures { IfOk result (λ copy. copy ≡ stmt.now) }
{
    match stmt {
        Stmt::Simple { act, after } => {
            let act = copy_act(alloc, act)?;
            let after = copy_list(alloc, after)?;
            Ok(Stmt::Simple { act, after })
        }
        Stmt::Jump { jump, after } => {
            let jump = copy_jump(alloc, jump)?;
            let after = copy_list(alloc, after)?;
            Ok(Stmt::Jump { jump, after })
        }
        Stmt::If { cond, yes, no } => {
            let cond = copy_cond(alloc, cond)?;
            let yes = copy_stmts(alloc, yes.as_slice())?;
            let no = copy_stmts(alloc, no.as_slice())?;
            Ok(Stmt::If { cond, yes, no })
        }
        Stmt::Loop { cond, step, body } => {
            let cond = copy_cond(alloc, cond)?;
            let step = copy_step(alloc, step)?;
            let body = copy_stmts(alloc, body.as_slice())?;
            Ok(Stmt::Loop { cond, step, body })
        }
        Stmt::Block(body) => Ok(Stmt::Block(copy_stmts(alloc, body.as_slice())?)),
    }
}

/// Equal statements.
#[cycle(copy)]
pub fn copy_stmts(alloc: Global, list: &[Stmt]) -> Result<Items<Stmt>, NoMemory>
    ensures { IfOk result (λ copy. copy ≡ list.now) }
{
    let mut copy = Items::new(alloc);
    for stmt in list {
        copy.push(copy_stmt(alloc, stmt)?)?;
    }
    Ok(copy)
}
