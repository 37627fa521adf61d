ghost use Rattle.std.specs.Prelude.{◌≡◌, ◌↔◌, false};
ghost use Rattle.c_prog.specs.Marks.{all_new};
ghost use Rattle.c_prog.specs.Patched.{has_some, cond_patched, step_patched, patched, patched_of, function_patched, functions_patched, tree_patched};
ghost use Rattle.c_prog.specs.Strip.{strip_tree};

use c_prog::{Cond, Function, Program, Step, Stmt, Tree};
use cfix_base::List;

fn has_some<T>(list: &List<T>) -> bool
    ensures { result ≡ has_some list.now }
{
    list.len() > 0
}

fn cond_patched(cond: &Cond) -> bool
    ensures { result ≡ cond_patched cond.now }
{
    has_some(&cond.on_true) || has_some(&cond.on_false)
}

fn step_patched(step: &Option<Step>) -> bool
    ensures { result ≡ step_patched step.now }
{
    match step {
        None => false,
        Some(step) => has_some(&step.after),
    }
}

#[cycle(patched)]
fn stmt_patched(stmt: &Stmt) -> bool
    ensures { result ≡ patched stmt.now }
{
    match stmt {
        Stmt::Simple { after, .. } | Stmt::Jump { after, .. } => has_some(after),
        Stmt::If { cond, yes, no } => {
            cond_patched(cond) || list_patched(yes.as_slice()) || list_patched(no.as_slice())
        }
        Stmt::Loop { cond, step, body } => {
            cond_patched(cond) || step_patched(step) || list_patched(body.as_slice())
        }
        Stmt::Block(body) => list_patched(body.as_slice()),
    }
}

#[cycle(patched)]
fn list_patched(list: &[Stmt]) -> bool
    ensures { result ≡ patched_of list.now }
{
    for stmt in list {
        if stmt_patched(stmt) {
            return true;
        }
    }
    false
}

fn function_patched(function: &Function) -> bool
    ensures { result ≡ function_patched function.now }
{
    has_some(&function.start) || list_patched(function.body.as_slice())
}

fn functions_patched(list: &[Function]) -> bool
    ensures { result ≡ functions_patched list.now }
{
    for function in list {
        if function_patched(function) {
            return true;
        }
    }
    false
}

fn tree_patched(tree: &Tree) -> bool
    ensures { result ≡ tree_patched tree.now }
{
    has_some(&tree.starts) || functions_patched(tree.functions.as_slice())
}

/// Whether the program has an operation at some place, dead places too, or an order that begins
/// with a token: whether it changes without all those from the marks 0 and 0 on.
pub fn is_patched(program: &Program) -> bool
    ensures patched { result ≡ tree_patched program.now }
    ensures changes { (result ≡ false) ↔ (strip_tree all_new program.now ≡ program.now) }
{
    tree_patched(program.tree())
}
