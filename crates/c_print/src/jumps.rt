ghost use Rattle.std.specs.Prelude.{◌≡◌, [], ◌∷◌, ◌++◌, codes, OnOk};
ghost use Rattle.c_print.specs.Table.{named};
ghost use Rattle.c_print.specs.Text.Acts.{value_text, act_text};
ghost use Rattle.c_print.specs.Text.Operations.{op_lines};
ghost use Rattle.c_print.specs.Text.Pieces.{ended, braced};
ghost use Rattle.c_print.specs.Text.Statements.{jump_text, block_lines, jump_lines};
ghost use Rattle.c_print.specs.Written.{at};

use crate::acts::{add_act, add_value};
use crate::names::NameTable;
use crate::operations::add_op_lines;
use crate::pieces::{add, deeper};
use c_prog::{Act, Jump, Value};
use cfix_base::{NoMemory, Op};
use std::alloc::Global;

/// Adds a simple statement with the operations behind it.
pub fn add_simple(
    text: &mut Vec<u8>,
    names: &NameTable,
    indent: &[u8],
    act: &Act,
    after: &[Op],
) -> Result<(), NoMemory>
    ensures { OnOk result (text.new.items
        ≡ text.old.items ++ at indent.now (ended (act_text (named names.now) act.now) ∷ op_lines after.now)) }
{
    add(text, indent)?;
    add_act(text, names, act)?;
    add(text, b";\n")?;
    add_op_lines(text, indent, after)?;
    Ok(())
}

fn add_jump_text(text: &mut Vec<u8>, names: &NameTable, jump: &Jump) -> Result<(), NoMemory>
    ensures { OnOk result (text.new.items ≡ text.old.items ++ jump_text (named names.now) jump.now) }
{
    match jump {
        Jump::Break => add(text, b"break"),
        Jump::Continue => add(text, b"continue"),
        Jump::Return => add(text, b"return"),
        Jump::ReturnNull => add(text, b"return NULL"),
        Jump::ReturnValue(value) => {
            add(text, b"return ")?;
            add_value(text, names, value)
        }
    }
}

fn add_jump_line(
    text: &mut Vec<u8>,
    names: &NameTable,
    indent: &[u8],
    jump: &Jump,
) -> Result<(), NoMemory>
    ensures { OnOk result (text.new.items ≡ text.old.items ++ at indent.now (ended (jump_text (named names.now) jump.now) ∷ [])) }
{
    add(text, indent)?;
    add_jump_text(text, names, jump)?;
    add(text, b";\n")?;
    Ok(())
}

/// Adds the line that takes the value of a `return`, and the operations behind it.
fn add_taken(
    text: &mut Vec<u8>,
    names: &NameTable,
    indent: &[u8],
    value: &Value,
    ops: &[Op],
) -> Result<(), NoMemory>
    ensures { OnOk result (text.new.items ≡ text.old.items
        ++ at indent.now (ended (codes "int cfix_value = " ++ value_text (named names.now) value.now) ∷ op_lines ops.now)) }
{
    add(text, indent)?;
    add(text, b"int cfix_value = ")?;
    add_value(text, names, value)?;
    add(text, b";\n")?;
    add_op_lines(text, indent, ops)?;
    Ok(())
}

fn add_taken_return(
    text: &mut Vec<u8>,
    names: &NameTable,
    indent: &[u8],
    value: &Value,
    ops: &[Op],
) -> Result<(), NoMemory>
    ensures { OnOk result (text.new.items ≡ text.old.items
        ++ at indent.now ((ended (codes "int cfix_value = " ++ value_text (named names.now) value.now) ∷ op_lines ops.now)
        ++ codes "return cfix_value;" ∷ [])) }
{
    add_taken(text, names, indent, value, ops)?;
    add(text, indent)?;
    add(text, b"return cfix_value;\n")?;
    Ok(())
}

fn add_plain_jump(
    text: &mut Vec<u8>,
    names: &NameTable,
    indent: &[u8],
    jump: &Jump,
    ops: &[Op],
) -> Result<(), NoMemory>
    ensures { OnOk result (text.new.items ≡ text.old.items
        ++ at indent.now (op_lines ops.now ++ ended (jump_text (named names.now) jump.now) ∷ [])) }
{
    add_op_lines(text, indent, ops)?;
    add_jump_line(text, names, indent, jump)?;
    Ok(())
}

/// Adds what stands in the block of a jump that has operations.
fn add_jump_block(
    text: &mut Vec<u8>,
    names: &NameTable,
    indent: &[u8],
    jump: &Jump,
    ops: &[Op],
) -> Result<(), NoMemory>
    ensures { OnOk result (text.new.items ≡ text.old.items ++ at indent.now (block_lines (named names.now) jump.now ops.now)) }
{
    match jump {
        Jump::ReturnValue(value) => add_taken_return(text, names, indent, value, ops),
        _ => add_plain_jump(text, names, indent, jump, ops),
    }
}

fn add_braced_jump(
    alloc: Global,
    text: &mut Vec<u8>,
    names: &NameTable,
    indent: &[u8],
    jump: &Jump,
    ops: &[Op],
) -> Result<(), NoMemory>
    ensures { OnOk result (text.new.items ≡ text.old.items
        ++ at indent.now (braced [] (block_lines (named names.now) jump.now ops.now))) }
{
    let more = deeper(alloc, indent)?;
    add(text, indent)?;
    add(text, b"{\n")?;
    add_jump_block(text, names, more.as_slice(), jump, ops)?;
    add(text, indent)?;
    add(text, b"}\n")?;
    Ok(())
}

/// Adds a jump with its operations.
pub fn add_jump(
    alloc: Global,
    text: &mut Vec<u8>,
    names: &NameTable,
    indent: &[u8],
    jump: &Jump,
    ops: &[Op],
) -> Result<(), NoMemory>
    ensures { OnOk result (text.new.items ≡ text.old.items ++ at indent.now (jump_lines (named names.now) jump.now ops.now)) }
{
    match ops {
        [] => add_jump_line(text, names, indent, jump),
        [_, ..] => add_braced_jump(alloc, text, names, indent, jump, ops),
    }
}
