ghost use Rattle.std.specs.Prelude.{◌≡◌, IfOk};
ghost use Rattle.c_prog.specs.Strip.{strip, strip_all, strip_cond, strip_step, strip_function, strip_functions, strip_tree};

use c_copy::{copy_act, copy_expr, copy_globals, copy_jump, copy_list, copy_names};
use c_marks::{old_ops, old_starts};
use c_prog::{Cond, Function, Program, Step, Stmt, Tree};
use cfix_base::{List, Marks, NoMemory};
use sqlite_items::Items;
use std::alloc::Global;

fn strip_cond(alloc: Global, cond: &Cond, marks: Marks) -> Result<Cond, NoMemory>
    ensures { IfOk result (λ copy. copy ≡ strip_cond marks cond.now) }
{
    Ok(Cond {
        test: copy_expr(alloc, &cond.test)?,
        on_true: old_ops(alloc, cond.on_true.as_slice(), marks)?,
        on_false: old_ops(alloc, cond.on_false.as_slice(), marks)?,
    })
}

fn strip_step(alloc: Global, step: &Option<Step>, marks: Marks) -> Result<Option<Step>, NoMemory>
    ensures { IfOk result (λ copy. copy ≡ strip_step marks step.now) }
{
    match step {
        None => Ok(None),
        Some(step) => Ok(Some(Step {
            act: copy_act(alloc, &step.act)?,
            after: old_ops(alloc, step.after.as_slice(), marks)?,
        })),
    }
}

#[cycle(strip)]
fn strip_stmt(alloc: Global, stmt: &Stmt, marks: Marks) -> Result<Stmt, NoMemory>
    ensures { IfOk result (λ copy. copy ≡ strip marks stmt.now) }
{
    match stmt {
        Stmt::Simple { act, after } => Ok(Stmt::Simple {
            act: copy_act(alloc, act)?,
            after: old_ops(alloc, after.as_slice(), marks)?,
        }),
        Stmt::Jump { jump, after } => Ok(Stmt::Jump {
            jump: copy_jump(alloc, jump)?,
            after: old_ops(alloc, after.as_slice(), marks)?,
        }),
        Stmt::If { cond, yes, no } => {
            let cond = strip_cond(alloc, cond, marks)?;
            let yes = strip_stmts(alloc, yes.as_slice(), marks)?;
            let no = strip_stmts(alloc, no.as_slice(), marks)?;
            Ok(Stmt::If { cond, yes, no })
        }
        Stmt::Loop { cond, step, body } => {
            let cond = strip_cond(alloc, cond, marks)?;
            let step = strip_step(alloc, step, marks)?;
            let body = strip_stmts(alloc, body.as_slice(), marks)?;
            Ok(Stmt::Loop { cond, step, body })
        }
        Stmt::Block(body) => Ok(Stmt::Block(strip_stmts(alloc, body.as_slice(), marks)?)),
    }
}

#[cycle(strip)]
fn strip_stmts(alloc: Global, list: &[Stmt], marks: Marks) -> Result<Items<Stmt>, NoMemory>
    ensures { IfOk result (λ copy. copy ≡ strip_all marks list.now) }
{
    let mut copy = Items::new(alloc);
    for stmt in list {
        copy.push(strip_stmt(alloc, stmt, marks)?)?;
    }
    Ok(copy)
}

fn strip_function(alloc: Global, function: &Function, marks: Marks) -> Result<Function, NoMemory>
    ensures { IfOk result (λ copy. copy ≡ strip_function marks function.now) }
{
    let name = copy_list(alloc, &function.name)?;
    let params = copy_names(alloc, &function.params)?;
    let start = old_ops(alloc, function.start.as_slice(), marks)?;
    let body = strip_stmts(alloc, function.body.as_slice(), marks)?;
    Ok(Function {
        name,
        kind: function.kind,
        params,
        start,
        body,
    })
}

fn strip_functions(
    alloc: Global,
    list: &[Function],
    marks: Marks,
) -> Result<List<Function>, NoMemory>
    ensures { IfOk result (λ copy. copy ≡ strip_functions marks list.now) }
{
    let mut copy = List::new(alloc);
    for function in list {
        copy.push(strip_function(alloc, function, marks)?)?;
    }
    Ok(copy)
}

fn strip_tree(alloc: Global, tree: &Tree, marks: Marks) -> Result<Tree, NoMemory>
    ensures { IfOk result (λ copy. copy ≡ strip_tree marks tree.now) }
{
    let globals = copy_globals(alloc, &tree.globals)?;
    let functions = strip_functions(alloc, tree.functions.as_slice(), marks)?;
    let starts = old_starts(alloc, tree.starts.as_slice(), marks)?;
    Ok(Tree {
        globals,
        functions,
        starts,
    })
}

/// The same program without its new operations, which are those of locks and orders from the marks
/// on, and without the new orders that begin with a token.
pub fn strip(alloc: Global, program: &Program, marks: Marks) -> Result<Program, NoMemory>
    ensures { IfOk result (λ copy. copy ≡ strip_tree marks program.now) }
{
    let tree = strip_tree(alloc, program.tree(), marks)?;
    Ok(Program::of(tree))
}
