ghost use Rattle.std.specs.Prelude.{◌≡◌, ◌∷◌, ◌++◌, codes, decimal, map, OnOk};
ghost use Rattle.c_prog.specs.Order.{joined};
ghost use Rattle.c_print.specs.Table.{named};
ghost use Rattle.c_print.specs.Text.Expressions.{expr_text};
ghost use Rattle.c_print.specs.Text.Operations.{op_text, op_lines, with_true, cond_text};
ghost use Rattle.c_print.specs.Text.Pieces.{ended, closed, in_parentheses};
ghost use Rattle.c_print.specs.Written.{at, guard_start, guard_end};

use crate::expressions::add_expr;
use crate::names::NameTable;
use crate::pieces::{add, add_argument};
use c_prog::Cond;
use cfix_base::{NoMemory, Op};

fn add_operation(text: &mut Vec<u8>, word: &[u8], number: u32) -> Result<(), NoMemory>
    ensures { OnOk result (text.new.items ≡ text.old.items ++ (word.now ++ in_parentheses (decimal number))) }
{
    add(text, word)?;
    add_argument(text, number)
}

/// Adds an operation.
pub fn add_op(text: &mut Vec<u8>, op: Op) -> Result<(), NoMemory>
    ensures { OnOk result (text.new.items ≡ text.old.items ++ op_text op) }
{
    match op {
        Op::Leave(lock) => add_operation(text, b"cfix_leave", lock.number),
        Op::First(order) => add_operation(text, b"cfix_first", order.number),
        Op::Done(order) => add_operation(text, b"cfix_done", order.number),
        Op::Wait(order) => add_operation(text, b"cfix_wait", order.number),
        Op::Enter(lock) => add_operation(text, b"cfix_enter", lock.number),
        Op::Add(order) => add_operation(text, b"cfix_add", order.number),
    }
}

fn add_op_line(text: &mut Vec<u8>, indent: &[u8], op: Op) -> Result<(), NoMemory>
    ensures { OnOk result (text.new.items ≡ text.old.items ++ (indent.now ++ closed (ended (op_text op)))) }
{
    add(text, indent)?;
    add_op(text, op)?;
    add(text, b";\n")?;
    Ok(())
}

/// Adds operations as statements, one a line.
pub fn add_op_lines(text: &mut Vec<u8>, indent: &[u8], ops: &[Op]) -> Result<(), NoMemory>
    ensures { OnOk result (text.new.items ≡ text.old.items ++ at indent.now (op_lines ops.now)) }
{
    for op in ops {
        add_op_line(text, indent, *op)?;
    }
    Ok(())
}

/// Adds operations with a comma behind each.
fn add_op_list(text: &mut Vec<u8>, ops: &[Op]) -> Result<(), NoMemory>
    ensures { OnOk result (text.new.items ≡ text.old.items ++ joined (map (λ o. op_text o ++ codes ", ") ops.now)) }
{
    for op in ops {
        add_op(text, *op)?;
        add(text, b", ")?;
    }
    Ok(())
}

/// Adds operations with a comma before each.
pub fn add_more_ops(text: &mut Vec<u8>, ops: &[Op]) -> Result<(), NoMemory>
    ensures { OnOk result (text.new.items ≡ text.old.items ++ joined (map (λ o. codes ", " ++ op_text o) ops.now)) }
{
    for op in ops {
        add(text, b", ")?;
        add_op(text, *op)?;
    }
    Ok(())
}

/// Adds the parenthesis before a test that operations follow.
fn add_guard_start(text: &mut Vec<u8>, ops: &[Op]) -> Result<(), NoMemory>
    ensures { OnOk result (text.new.items ≡ text.old.items ++ guard_start ops.now) }
{
    match ops {
        [] => Ok(()),
        [_, ..] => add(text, b"("),
    }
}

/// Adds the operations of one way out of a condition: behind `sign`, with a value.
fn add_guard(text: &mut Vec<u8>, sign: &[u8], ops: &[Op], value: &[u8]) -> Result<(), NoMemory>
    ensures { OnOk result (text.new.items ≡ text.old.items ++ guard_end sign.now ops.now value.now) }
{
    if ops.is_empty() {
        return Ok(());
    }
    add(text, sign)?;
    add_op_list(text, ops)?;
    add(text, value)?;
    Ok(())
}

fn add_true_test(text: &mut Vec<u8>, names: &NameTable, cond: &Cond) -> Result<(), NoMemory>
    ensures { OnOk result (text.new.items
        ≡ text.old.items ++ with_true (expr_text (named names.now) cond.now.test) cond.now.on_true) }
{
    add_guard_start(text, cond.on_true.as_slice())?;
    add_expr(text, names, &cond.test)?;
    add_guard(text, b") && (", cond.on_true.as_slice(), b"1)")?;
    Ok(())
}

/// Adds a condition with its operations.
pub fn add_cond(text: &mut Vec<u8>, names: &NameTable, cond: &Cond) -> Result<(), NoMemory>
    ensures { OnOk result (text.new.items ≡ text.old.items ++ cond_text (named names.now) cond.now) }
{
    add_guard_start(text, cond.on_false.as_slice())?;
    add_true_test(text, names, cond)?;
    add_guard(text, b") || (", cond.on_false.as_slice(), b"0)")?;
    Ok(())
}
