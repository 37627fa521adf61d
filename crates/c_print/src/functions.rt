ghost use Rattle.std.specs.Prelude.{◌≡◌, ◌++◌, codes, map, OnOk};
ghost use Rattle.c_prog.specs.Order.{joined};
ghost use Rattle.c_print.specs.Text.Pieces.{apart, text_of};
ghost use Rattle.c_print.specs.Table.{named};
ghost use Rattle.c_print.specs.Written.{function_with, lines_with};

use crate::heads::add_head;
use crate::names::{NameTable, names_of_locals};
use crate::operations::add_op_lines;
use crate::pieces::add;
use crate::statements::add_list;
use c_prog::Function;
use cfix_base::NoMemory;
use std::alloc::Global;

fn add_body(
    alloc: Global,
    text: &mut Vec<u8>,
    names: &NameTable,
    function: &Function,
) -> Result<(), NoMemory>
    ensures { OnOk result (text.new.items ≡ text.old.items ++ text_of (lines_with (named names.now) function.now)) }
{
    add_head(text, function)?;
    add(text, b" {\n")?;
    add_op_lines(text, b"    ", function.start.as_slice())?;
    add_list(alloc, text, names, b"    ", function.body.as_slice())?;
    add(text, b"}\n")?;
    Ok(())
}

/// Adds a function; the table's names of locals become its own.
fn add_function(
    alloc: Global,
    text: &mut Vec<u8>,
    names: &mut NameTable,
    function: &Function,
) -> Result<(), NoMemory>
    ensures text { OnOk result (text.new.items ≡ text.old.items
        ++ text_of (function_with names.old.globals names.old.functions function.now)) }
    ensures globals { names.new.globals ≡ names.old.globals }
    ensures functions { names.new.functions ≡ names.old.functions }
{
    names.locals = names_of_locals(alloc, function)?;
    add_body(alloc, text, names, function)
}

fn add_more_functions(
    alloc: Global,
    text: &mut Vec<u8>,
    names: &mut NameTable,
    functions: &[Function],
) -> Result<(), NoMemory>
    ensures { OnOk result (text.new.items ≡ text.old.items
        ++ joined (map (λ f. codes "\n" ++ text_of (function_with names.old.globals names.old.functions f)) functions.now)) }
{
    for function in functions {
        add(text, b"\n")?;
        add_function(alloc, text, names, function)?;
    }
    Ok(())
}

/// Adds functions with an empty line between each two.
pub fn add_functions(
    alloc: Global,
    text: &mut Vec<u8>,
    names: &mut NameTable,
    functions: &[Function],
) -> Result<(), NoMemory>
    ensures { OnOk result (text.new.items ≡ text.old.items
        ++ text_of (apart (map (function_with names.old.globals names.old.functions) functions.now))) }
{
    match functions {
        [] => Ok(()),
        [first, more @ ..] => {
            add_function(alloc, text, names, first)?;
            add_more_functions(alloc, text, names, more)?;
            Ok(())
        }
    }
}
