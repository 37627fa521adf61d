ghost use Rattle.std.specs.Prelude.{◌≡◌, length, IfOk};
ghost use Rattle.std.specs.List.{filter_map, list_all};
ghost use Rattle.straight_laws.specs.Straight.{begins_with_zero};
ghost use Rattle.c_prog.specs.Valid.Functions.{is_main};
ghost use Rattle.first_form.specs.Form.{is_plain, is_plain_main, is_only_main, is_first_form, plain_of, first_body, plains_of};

use crate::plain::{Plain, has_some, plain_of};
use c_prog::{FnKind, Function, Global as Variable, GlobalKind, Program, Stmt};
use cfix_base::NoMemory;
use std::alloc::Global;

fn begins_with_zero(kind: GlobalKind) -> bool
    ensures { result ≡ begins_with_zero kind }
{
    match kind {
        GlobalKind::Int(number) => number == 0,
        _ => false,
    }
}

fn are_zeros(globals: &[Variable]) -> bool
    ensures { result ≡ list_all (λ global. begins_with_zero global.kind) globals.now }
{
    for global in globals {
        if !begins_with_zero(global.kind) {
            return false;
        }
    }
    true
}

fn are_plain(count: usize, body: &[Stmt]) -> bool
    ensures { result ≡ list_all (is_plain count) body.now }
{
    for stmt in body {
        if plain_of(count, stmt).is_none() {
            return false;
        }
    }
    true
}

/// `int main` without parameters.
fn is_main(function: &Function) -> bool
    ensures { result ≡ is_main function.now }
{
    function.name.as_slice() == b"main".as_slice()
        && function.kind == FnKind::Int
        && function.params.len() == 0
}

fn is_plain_main(count: usize, function: &Function) -> bool
    ensures { result ≡ is_plain_main count function.now }
{
    is_main(function) && (!has_some(&function.start) && are_plain(count, function.body.as_slice()))
}

fn is_only_main(count: usize, functions: &[Function]) -> bool
    ensures { result ≡ is_only_main count functions.now }
{
    match functions {
        [function] => is_plain_main(count, function),
        _ => false,
    }
}

/// Whether a program is of the first form.
pub fn is_first_form(program: &Program) -> bool
    ensures { result ≡ is_first_form program.now }
{
    let tree = program.tree();
    let globals = tree.globals.as_slice();
    !has_some(&tree.starts)
        && (are_zeros(globals) && is_only_main(globals.len(), tree.functions.as_slice()))
}

fn collect(alloc: Global, count: usize, body: &[Stmt]) -> Result<Vec<Plain>, NoMemory>
    ensures { IfOk result (λ plains. plains.items ≡ filter_map (plain_of count) body.now) }
{
    let mut plains = Vec::new(alloc);
    for stmt in body {
        if let Some(plain) = plain_of(count, stmt) {
            plains.push(plain)?;
        }
    }
    Ok(plains)
}

fn first_body(functions: &[Function]) -> &[Stmt]
    ensures { result.now ≡ first_body functions.now }
{
    match functions {
        [] => &[],
        [function, ..] => function.body.as_slice(),
    }
}

/// The statements of a program of the first form.
pub fn plains_of(alloc: Global, program: &Program) -> Result<Vec<Plain>, NoMemory>
    ensures { IfOk result (λ plains. plains.items ≡ plains_of program.now) }
{
    let tree = program.tree();
    collect(
        alloc,
        tree.globals.len(),
        first_body(tree.functions.as_slice()),
    )
}
