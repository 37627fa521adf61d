ghost use Rattle.std.specs.Prelude.{◌≡◌, ◌++◌, map, OnOk, IfOk};
ghost use Rattle.c_prog.specs.Order.{joined};
ghost use Rattle.c_print.specs.Text.Names.{act_names, step_names, declared_names, local_names};

use c_prog::{Act, Function, Global as Variable, Step, Stmt};
use cfix_base::{List, NoMemory};
use std::alloc::Global;

/// The names of the global variables and functions of a program, and of the locals of one of its
/// functions, each in the order of their numbers.
#[derive(Drop)]
pub struct NameTable {
    pub globals: List<List<u8>>,
    pub functions: List<List<u8>>,
    pub locals: List<List<u8>>,
}

fn copy_name(alloc: Global, name: &List<u8>) -> Result<List<u8>, NoMemory>
    ensures { IfOk result (λ copy. copy ≡ name.now) }
{
    Ok(List::from_vec(Vec::from_slice(alloc, name.as_slice())?))
}

fn copy_names(alloc: Global, names: &List<List<u8>>) -> Result<List<List<u8>>, NoMemory>
    ensures { IfOk result (λ copy. copy ≡ names.now) }
{
    let mut copy = List::new(alloc);
    for name in names.as_slice() {
        copy.push(copy_name(alloc, name)?)?;
    }
    Ok(copy)
}

fn add_act_names(alloc: Global, names: &mut List<List<u8>>, act: &Act) -> Result<(), NoMemory>
    ensures { OnOk result (names.new ≡ names.old ++ act_names act.now) }
{
    match act {
        Act::Declare { name, .. } => names.push(copy_name(alloc, name)?),
        _ => Ok(()),
    }
}

fn add_step_names(
    alloc: Global,
    names: &mut List<List<u8>>,
    step: &Option<Step>,
) -> Result<(), NoMemory>
    ensures { OnOk result (names.new ≡ names.old ++ step_names step.now) }
{
    match step {
        None => Ok(()),
        Some(step) => add_act_names(alloc, names, &step.act),
    }
}

#[cycle(declared)]
fn add_declared(alloc: Global, names: &mut List<List<u8>>, stmt: &Stmt) -> Result<(), NoMemory>
    ensures { OnOk result (names.new ≡ names.old ++ declared_names stmt.now) }
{
    match stmt {
        Stmt::Simple { act, .. } => add_act_names(alloc, names, act),
        Stmt::Jump { .. } => Ok(()),
        Stmt::If { yes, no, .. } => {
            add_all_declared(alloc, names, yes.as_slice())?;
            add_all_declared(alloc, names, no.as_slice())
        }
        Stmt::Loop { step, body, .. } => {
            add_step_names(alloc, names, step)?;
            add_all_declared(alloc, names, body.as_slice())
        }
        Stmt::Block(body) => add_all_declared(alloc, names, body.as_slice()),
    }
}

#[cycle(declared)]
fn add_all_declared(
    alloc: Global,
    names: &mut List<List<u8>>,
    list: &[Stmt],
) -> Result<(), NoMemory>
    ensures { OnOk result (names.new ≡ names.old ++ joined (map declared_names list.now)) }
{
    for stmt in list {
        add_declared(alloc, names, stmt)?;
    }
    Ok(())
}

/// The names of the locals of a function: its parameters, then its declarations.
pub fn names_of_locals(alloc: Global, function: &Function) -> Result<List<List<u8>>, NoMemory>
    ensures { IfOk result (λ names. names ≡ local_names function.now) }
{
    let mut names = copy_names(alloc, &function.params)?;
    add_all_declared(alloc, &mut names, function.body.as_slice())?;
    Ok(names)
}

/// The names of global variables.
pub fn names_of_globals(alloc: Global, globals: &[Variable]) -> Result<List<List<u8>>, NoMemory>
    ensures { IfOk result (λ names. names ≡ map (λ g. g.name) globals.now) }
{
    let mut names = List::new(alloc);
    for global in globals {
        names.push(copy_name(alloc, &global.name)?)?;
    }
    Ok(names)
}

/// The names of functions.
pub fn names_of_functions(alloc: Global, functions: &[Function]) -> Result<List<List<u8>>, NoMemory>
    ensures { IfOk result (λ names. names ≡ map (λ f. f.name) functions.now) }
{
    let mut names = List::new(alloc);
    for function in functions {
        names.push(copy_name(alloc, &function.name)?)?;
    }
    Ok(names)
}
