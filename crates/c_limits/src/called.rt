ghost use Rattle.std.specs.Prelude.{◌≡◌, ◌++◌, map, option_map, OnOk};
ghost use Rattle.c_grammar.specs.Marks.{each};
ghost use Rattle.c_raw.specs.Simples.{value_view, simple_view};
ghost use Rattle.c_raw.specs.Decls.{local_int_view, more_local_ints_view, decl_view};
ghost use Rattle.c_raw.specs.Stmts.{jump_view, else_from, stmt_view, else_view, item_view, items_view};
ghost use Rattle.c_names.specs.LinesExpressions.{value_calls, simple_calls};
ghost use Rattle.c_names.specs.LinesStatements.{local_int_calls, decl_calls, jump_calls, stmt_calls, else_calls, item_calls, items_calls};

use c_raw::{Decl, Else, Item, Jump, LocalInt, Simple, Stmt, Value};
use cfix_base::{List, NoMemory, Spot};

fn push_value(lines: &mut List<u32>, raw: &Value) -> Result<(), NoMemory>
    ensures { OnOk result (lines.new ≡ lines.old ++ value_calls (value_view raw.now)) }
{
    match raw {
        Value::Computed(_) => Ok(()),
        Value::Called(call) => lines.push(call.name.spot.line),
    }
}

fn push_simple(lines: &mut List<u32>, raw: &Simple) -> Result<(), NoMemory>
    ensures { OnOk result (lines.new ≡ lines.old ++ simple_calls (simple_view raw.now)) }
{
    match raw {
        Simple::Plain(_) | Simple::Library(_) => Ok(()),
        Simple::SetCall { call, .. } => lines.push(call.name.spot.line),
        Simple::Call(call) => lines.push(call.name.spot.line),
    }
}

fn push_int(lines: &mut List<u32>, raw: &LocalInt) -> Result<(), NoMemory>
    ensures { OnOk result (lines.new ≡ lines.old ++ local_int_calls (local_int_view raw.now)) }
{
    match raw {
        LocalInt::OneLocal(_) | LocalInt::LocalArray { .. } => Ok(()),
        LocalInt::SetLocal { value, .. } => push_value(lines, value),
    }
}

fn push_ints(lines: &mut List<u32>, more: &[(Spot, LocalInt)]) -> Result<(), NoMemory>
    ensures { OnOk result (lines.new ≡ lines.old ++ each local_int_calls (map (λ y. y.1) (more_local_ints_view more.now))) }
{
    for next in more {
        push_int(lines, &next.1)?;
    }
    Ok(())
}

fn push_decl(lines: &mut List<u32>, raw: &Decl) -> Result<(), NoMemory>
    ensures { OnOk result (lines.new ≡ lines.old ++ decl_calls (decl_view raw.now)) }
{
    match raw {
        Decl::Ints { first, more, .. } => {
            push_int(lines, first)?;
            push_ints(lines, more.as_slice())
        }
        Decl::Holds { .. } => Ok(()),
    }
}

fn push_jump(lines: &mut List<u32>, raw: &Jump) -> Result<(), NoMemory>
    ensures { OnOk result (lines.new ≡ lines.old ++ jump_calls (jump_view raw.now)) }
{
    match raw {
        Jump::Bare { .. } | Jump::BareBlock(_) => Ok(()),
        Jump::ReturnValue { value, .. } => push_value(lines, value),
        Jump::ValueBlock(block) => push_value(lines, &block.get().value),
    }
}

#[cycle(called)]
#[tactic(auto, using(c_raw::proofs::Equations::stmts))]
fn push_stmt(lines: &mut List<u32>, raw: &Stmt) -> Result<(), NoMemory>
    ensures { OnOk result (lines.new ≡ lines.old ++ stmt_calls (stmt_view raw.now)) }
{
    match raw {
        Stmt::Block { items, .. } => push_calls(lines, items.as_slice()),
        Stmt::Nothing(_) => Ok(()),
        Stmt::Simply { simple, .. } => push_simple(lines, simple.get()),
        Stmt::Jumps(jump) => push_jump(lines, jump.get()),
        Stmt::If {
            then,
            otherwise,
            ..
        } => {
            push_stmt(lines, then.get())?;
            push_else(lines, otherwise)
        }
        Stmt::While { body, .. } | Stmt::For { body, .. } => push_stmt(lines, body.get()),
    }
}

#[cycle(called)]
#[tactic(auto, using(c_raw::proofs::Equations::stmts))]
fn push_else(lines: &mut List<u32>, raw: &Option<Else>) -> Result<(), NoMemory>
    ensures { OnOk result (lines.new ≡ lines.old ++ else_calls (else_from (option_map else_view raw.now))) }
{
    match raw {
        None => Ok(()),
        Some(other) => push_stmt(lines, other.body.get()),
    }
}

#[cycle(called)]
#[tactic(auto, using(c_raw::proofs::Equations::stmts))]
fn push_item(lines: &mut List<u32>, raw: &Item) -> Result<(), NoMemory>
    ensures { OnOk result (lines.new ≡ lines.old ++ item_calls (item_view raw.now)) }
{
    match raw {
        Item::Declares { decl, .. } => push_decl(lines, decl.get()),
        Item::Does(stmt) => push_stmt(lines, stmt),
    }
}

/// Adds the line of each called name of a body, in the order of the text.
#[cycle(called)]
pub fn push_calls(lines: &mut List<u32>, list: &[Item]) -> Result<(), NoMemory>
    ensures { OnOk result (lines.new ≡ lines.old ++ items_calls (items_view list.now)) }
{
    for raw in list {
        push_item(lines, raw)?;
    }
    Ok(())
}
