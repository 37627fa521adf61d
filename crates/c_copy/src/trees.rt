ghost use Rattle.std.specs.Prelude.{◌≡◌, IfOk};

use crate::expressions::copy_list;
use crate::statements::copy_stmts;
use c_prog::{Function, Global as Variable, Program, Tree};
use cfix_base::{List, NoMemory};
use std::alloc::Global;

/// Equal names.
pub fn copy_names(alloc: Global, names: &List<List<u8>>) -> Result<List<List<u8>>, NoMemory>
    ensures { IfOk result (λ copy. copy ≡ names.now) }
{
    let mut copy = List::new(alloc);
    for name in names.as_slice() {
        copy.push(copy_list(alloc, name)?)?;
    }
    Ok(copy)
}

/// Equal global variables.
pub fn copy_globals(alloc: Global, globals: &List<Variable>) -> Result<List<Variable>, NoMemory>
    ensures { IfOk result (λ copy. copy ≡ globals.now) }
{
    let mut copy = List::new(alloc);
    for global in globals.as_slice() {
        let name = copy_list(alloc, &global.name)?;
        let kind = global.kind;
        copy.push(Variable { name, kind })?;
    }
    Ok(copy)
}

fn copy_function(alloc: Global, function: &Function) -> Result<Function, NoMemory>
    ensures { IfOk result (λ copy. copy ≡ function.now) }
{
    let name = copy_list(alloc, &function.name)?;
    let params = copy_names(alloc, &function.params)?;
    let start = copy_list(alloc, &function.start)?;
    let body = copy_stmts(alloc, function.body.as_slice())?;
    Ok(Function {
        name,
        kind: function.kind,
        params,
        start,
        body,
    })
}

fn copy_functions(alloc: Global, functions: &List<Function>) -> Result<List<Function>, NoMemory>
    ensures { IfOk result (λ copy. copy ≡ functions.now) }
{
    let mut copy = List::new(alloc);
    for function in functions.as_slice() {
        copy.push(copy_function(alloc, function)?)?;
    }
    Ok(copy)
}

fn copy_tree(alloc: Global, tree: &Tree) -> Result<Tree, NoMemory>
    ensures { IfOk result (λ copy. copy ≡ tree.now) }
{
    let globals = copy_globals(alloc, &tree.globals)?;
    let functions = copy_functions(alloc, &tree.functions)?;
    let starts = copy_list(alloc, &tree.starts)?;
    Ok(Tree {
        globals,
        functions,
        starts,
    })
}

/// An equal program.
pub fn copy(alloc: Global, program: &Program) -> Result<Program, NoMemory>
    ensures { IfOk result (λ copy. copy ≡ program.now) }
{
    let tree = copy_tree(alloc, program.tree())?;
    Ok(Program::of(tree))
}
