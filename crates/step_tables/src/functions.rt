ghost use Rattle.std.specs.Prelude.{◌≡◌, ◌<◌, ◌^◌, length, map, IfOk};
ghost use Rattle.c_prog.specs.Valid.{IsValid};
ghost use Rattle.c_prog.specs.Valid.Functions.{is_main};
ghost use Rattle.c_prog.specs.Valid.Locals.{locals_of};
ghost use Rattle.step_state.specs.Items.{main_of};
ghost use Rattle.step_tables.specs.Kept.{kept, kept_tree};

use crate::keep::keep_function;
use crate::row::Row;
use c_prog::{FnKind, Function, LocalKind, Tree};
use cfix_base::{FnId, List, NoMemory};
use std::alloc::Global;

/// The rows of the nodes of a program, and what each function declares.
#[derive(Drop)]
pub struct Nodes<'a> {
    pub rows: List<Row<'a>>,
    pub locals: List<List<LocalKind>>,
}

/// Keeps the nodes of a program in one walk over its tree.
pub fn keep_tree<'a>(alloc: Global, tree: &'a Tree) -> Result<Nodes<'a>, NoMemory>
    requires { IsValid tree.now }
    ensures rows { IfOk result (λ nodes. map kept nodes.rows ≡ kept_tree tree.now) }
    ensures locals { IfOk result (λ nodes. nodes.locals ≡ map (λ f. locals_of f.body) tree.now.functions) }
{
    let mut rows = List::new(alloc);
    let mut locals = List::new(alloc);
    let mut number = 0;
    for function in tree.functions.as_slice() {
        let kinds = keep_function(alloc, &mut rows, FnId { number }, function)?;
        locals.push(kinds)?;
        number += 1;
    }
    Ok(Nodes { rows, locals })
}

// Whether a function is `int main` without parameters.
fn is_main(function: &Function) -> bool
    ensures { result ≡ is_main function.now }
{
    function.name.as_slice() == b"main".as_slice()
        && function.kind == FnKind::Int
        && function.params.len() == 0
}

/// The number of the first function that is main.
pub fn main_number(list: &[Function]) -> u32
    requires { length list.now < 2 ^ 32 }
    ensures { result ≡ main_of list.now }
{
    let mut number = 0;
    for function in list {
        if is_main(function) {
            return number;
        }
        number += 1;
    }
    number
}
