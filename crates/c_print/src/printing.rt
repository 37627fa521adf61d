ghost use Rattle.std.specs.Prelude.{◌≡◌, ◌++◌, map, OnOk, IfOk};
ghost use Rattle.c_prog.specs.Order.{joined};
ghost use Rattle.c_prog.specs.Patched.{tree_patched};
ghost use Rattle.c_print.specs.Text.Canonical.{canonical, global_line, prototype_lines};
ghost use Rattle.c_print.specs.Text.Pieces.{spaced, text_of};

use crate::functions::add_functions;
use crate::heads::{
    add_global_gap, add_global_lines, add_header, add_prototype_gap, add_prototypes,
};
use crate::names::{NameTable, names_of_functions, names_of_globals};
use c_patched::is_patched;
use c_prog::{Function, Global as Variable, Program, Tree};
use cfix_base::{List, NoMemory};
use std::alloc::Global;

fn names_of(
    alloc: Global,
    globals: &[Variable],
    functions: &[Function],
) -> Result<NameTable, NoMemory>
    ensures globals { IfOk result (λ names. names.globals ≡ map (λ g. g.name) globals.now) }
    ensures functions { IfOk result (λ names. names.functions ≡ map (λ f. f.name) functions.now) }
{
    let globals = names_of_globals(alloc, globals)?;
    let functions = names_of_functions(alloc, functions)?;
    Ok(NameTable {
        globals,
        functions,
        locals: List::new(alloc),
    })
}

fn add_globals(text: &mut Vec<u8>, globals: &[Variable]) -> Result<(), NoMemory>
    ensures { OnOk result (text.new.items ≡ text.old.items ++ text_of (spaced (map global_line globals.now))) }
{
    add_global_lines(text, globals)?;
    add_global_gap(text, globals)?;
    Ok(())
}

fn add_all_prototypes(text: &mut Vec<u8>, functions: &[Function]) -> Result<(), NoMemory>
    ensures { OnOk result (text.new.items
        ≡ text.old.items ++ text_of (spaced (joined (map prototype_lines functions.now)))) }
{
    add_prototypes(text, functions)?;
    add_prototype_gap(text, functions)?;
    Ok(())
}

/// The canonical text of a tree, told whether it has an operation or a start.
pub fn print_tree(alloc: Global, tree: &Tree, patched: bool) -> Result<Vec<u8>, NoMemory>
    ensures { patched ≡ tree_patched tree.now → IfOk result (λ text. text.items ≡ canonical tree.now) }
{
    let globals = tree.globals.as_slice();
    let functions = tree.functions.as_slice();
    let mut names = names_of(alloc, globals, functions)?;
    let mut text = Vec::new(alloc);
    add_header(&mut text, patched, tree.starts.as_slice())?;
    add_globals(&mut text, globals)?;
    add_all_prototypes(&mut text, functions)?;
    add_functions(alloc, &mut text, &mut names, functions)?;
    Ok(text)
}

/// The canonical text of a program, in time linear in its length and the size of the program.
pub fn print(alloc: Global, program: &Program) -> Result<Vec<u8>, NoMemory>
    ensures { IfOk result (λ text. text.items ≡ canonical program.now) }
{
    print_tree(alloc, program.tree(), is_patched(program))
}
