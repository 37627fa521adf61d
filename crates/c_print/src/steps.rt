ghost use Rattle.std.specs.Prelude.{◌≡◌, ◌++◌, None, Some, OnOk};
ghost use Rattle.c_print.specs.Table.{named};
ghost use Rattle.c_print.specs.Text.Statements.{step_text, loop_head};

use crate::acts::add_act;
use crate::names::NameTable;
use crate::operations::{add_cond, add_more_ops};
use crate::pieces::add;
use c_prog::{Cond, Step};
use cfix_base::NoMemory;

/// Adds a step with its operations.
fn add_step(text: &mut Vec<u8>, names: &NameTable, step: &Step) -> Result<(), NoMemory>
    ensures { OnOk result (text.new.items ≡ text.old.items ++ step_text (named names.now) step.now) }
{
    add_act(text, names, &step.act)?;
    add_more_ops(text, step.after.as_slice())?;
    Ok(())
}

fn add_while(text: &mut Vec<u8>, names: &NameTable, cond: &Cond) -> Result<(), NoMemory>
    ensures { OnOk result (text.new.items ≡ text.old.items ++ loop_head (named names.now) cond.now None) }
{
    add(text, b"while (")?;
    add_cond(text, names, cond)?;
    add(text, b") ")?;
    Ok(())
}

fn add_for(text: &mut Vec<u8>, names: &NameTable, cond: &Cond, step: &Step) -> Result<(), NoMemory>
    ensures { OnOk result (text.new.items ≡ text.old.items ++ loop_head (named names.now) cond.now (Some step.now)) }
{
    add(text, b"for (; ")?;
    add_cond(text, names, cond)?;
    add(text, b"; ")?;
    add_step(text, names, step)?;
    add(text, b") ")?;
    Ok(())
}

/// Adds the head of a loop: a `for` where it has a step.
pub fn add_loop_head(
    text: &mut Vec<u8>,
    names: &NameTable,
    cond: &Cond,
    step: &Option<Step>,
) -> Result<(), NoMemory>
    ensures { OnOk result (text.new.items ≡ text.old.items ++ loop_head (named names.now) cond.now step.now) }
{
    match step {
        None => add_while(text, names, cond),
        Some(step) => add_for(text, names, cond, step),
    }
}
