ghost use Rattle.std.specs.Prelude.{◌+◌, ◌<◌, ◌^◌, false, length, OnOk};
ghost use Rattle.c_prog.specs.Accesses.{args_accesses, expr_accesses, index_accesses, read_accesses};
ghost use Rattle.step_state.specs.Parts.{args_part, expr_part, target_index};
ghost use Rattle.step_state.proofs.PartEquations.{read_part};
ghost use Rattle.step_tables.specs.Adds.{Adds};

use crate::sheet::{Sheet, add_use, begin_operand};
use crate::uses::{Operator, Use, operator_of};
use c_prog::{Expr, Target};
use cfix_base::{List, NoMemory};
use sqlite_items::Boxed;
use std::alloc::Global;
use step_state::{Item, LocalSite, Reduction, Unary};

/// Adds the items of an expression.
#[cycle(expr)]
pub fn add_expr(
    alloc: Global,
    items: &mut List<Item>,
    sheet: &mut Sheet,
    expr: &Expr,
) -> Result<(), NoMemory>
    requires { length sheet.old.variables + length (expr_accesses expr.now) < 2 ^ 32 }
    ensures { OnOk result (Adds (expr_part expr.now) (expr_accesses expr.now) items.old sheet.old items.new sheet.new) }
{
    match expr {
        Expr::Number(value) => items.push(Item::Reduce(Reduction::Push(*value)))?,
        Expr::Read(target) => add_read(alloc, items, sheet, target)?,
        Expr::Cast(local) => {
            let site = LocalSite {
                local: *local,
                indexed: false,
            };
            items.push(Item::Reduce(Reduction::Local(site)))?;
        }
        Expr::Neg(inner) => {
            add_expr(alloc, items, sheet, inner.get())?;
            items.push(Item::Reduce(Reduction::Un(Unary::Neg)))?;
        }
        Expr::Not(inner) => {
            add_expr(alloc, items, sheet, inner.get())?;
            items.push(Item::Reduce(Reduction::Un(Unary::Not)))?;
        }
        Expr::Binary { op, left, right } => {
            add_expr(alloc, items, sheet, left.get())?;
            match operator_of(*op) {
                Operator::Strict(op) => {
                    add_expr(alloc, items, sheet, right.get())?;
                    items.push(Item::Reduce(Reduction::Bin(op)))?;
                }
                Operator::Early(op) => {
                    let number = begin_operand(alloc, items, sheet, op)?;
                    let mut inner = List::new(alloc);
                    add_expr(alloc, &mut inner, sheet, right.get())?;
                    sheet.operands.set(number, inner);
                }
            }
        }
    }
    Ok(())
}

#[cycle(expr)]
fn add_read(
    alloc: Global,
    items: &mut List<Item>,
    sheet: &mut Sheet,
    target: &Target,
) -> Result<(), NoMemory>
    requires { length sheet.old.variables + length (read_accesses target.now) < 2 ^ 32 }
    ensures { OnOk result (Adds (read_part target.now) (read_accesses target.now) items.old sheet.old items.new sheet.new) }
{
    add_index(alloc, items, sheet, &target.index)?;
    let indexed = target.index.is_some();
    add_use(items, sheet, Use::Read, target.var, indexed)?;
    Ok(())
}

/// Adds the items of an index, if there is one.
#[cycle(expr)]
pub fn add_index(
    alloc: Global,
    items: &mut List<Item>,
    sheet: &mut Sheet,
    index: &Option<Boxed<Expr>>,
) -> Result<(), NoMemory>
    requires { length sheet.old.variables + length (index_accesses index.now) < 2 ^ 32 }
    ensures { OnOk result (Adds (target_index index.now) (index_accesses index.now) items.old sheet.old items.new sheet.new) }
{
    match index {
        None => Ok(()),
        Some(index) => add_expr(alloc, items, sheet, index.get()),
    }
}

/// Adds the items of arguments, one after another.
pub fn add_args(
    alloc: Global,
    items: &mut List<Item>,
    sheet: &mut Sheet,
    args: &[Expr],
) -> Result<(), NoMemory>
    requires { length sheet.old.variables + length (args_accesses args.now) < 2 ^ 32 }
    ensures { OnOk result (Adds (args_part args.now) (args_accesses args.now) items.old sheet.old items.new sheet.new) }
{
    for expr in args {
        add_expr(alloc, items, sheet, expr)?;
    }
    Ok(())
}
