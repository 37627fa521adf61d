ghost use Rattle.std.specs.Prelude.{◌≡◌, [], ◌∷◌, ◌++◌, map, false, OnOk};
ghost use Rattle.c_print.specs.Table.{named};
ghost use Rattle.c_print.specs.Text.Operations.{cond_text};
ghost use Rattle.c_print.specs.Text.Statements.{stmt_part, body_lines, else_lines};
ghost use Rattle.c_print.specs.Written.{at, if_start, braces};

use crate::jumps::{add_jump, add_simple};
use crate::names::NameTable;
use crate::operations::add_cond;
use crate::pieces::{add, deeper};
use crate::steps::add_loop_head;
use c_prog::{Cond, Stmt};
use cfix_base::NoMemory;
use std::alloc::Global;

/// Adds a statement with its lines indented.
#[cycle(lines)]
fn add_stmt(
    alloc: Global,
    text: &mut Vec<u8>,
    names: &NameTable,
    indent: &[u8],
    stmt: &Stmt,
) -> Result<(), NoMemory>
    ensures { OnOk result (text.new.items ≡ text.old.items ++ at indent.now (stmt_part (named names.now) stmt.now).lines) }
{
    match stmt {
        Stmt::Simple { act, after } => add_simple(text, names, indent, act, after.as_slice()),
        Stmt::Jump { jump, after } => {
            add_jump(alloc, text, names, indent, jump, after.as_slice())
        }
        Stmt::If { cond, yes, no } => {
            add(text, indent)?;
            add_if_start(alloc, text, names, indent, cond, yes.as_slice())?;
            add_else(alloc, text, names, indent, no.as_slice())?;
            Ok(())
        }
        Stmt::Loop { cond, step, body } => {
            add(text, indent)?;
            add_loop_head(text, names, cond, step)?;
            add_braces(alloc, text, names, indent, body.as_slice())?;
            Ok(())
        }
        Stmt::Block(body) => {
            add(text, indent)?;
            add_braces(alloc, text, names, indent, body.as_slice())?;
            Ok(())
        }
    }
}

/// Adds an `if` up to its first list, where its indentation stands already.
#[cycle(lines)]
fn add_if_start(
    alloc: Global,
    text: &mut Vec<u8>,
    names: &NameTable,
    indent: &[u8],
    cond: &Cond,
    list: &[Stmt],
) -> Result<(), NoMemory>
    ensures { OnOk result (text.new.items ≡ text.old.items
        ++ if_start indent.now (cond_text (named names.now) cond.now) (body_lines (named names.now) list.now)) }
{
    let more = deeper(alloc, indent)?;
    add(text, b"if (")?;
    add_cond(text, names, cond)?;
    add(text, b") {\n")?;
    add_list(alloc, text, names, more.as_slice(), list)?;
    Ok(())
}

/// Adds the `else` of an `if`, from the brace that closes its first list on.
#[cycle(lines)]
fn add_else(
    alloc: Global,
    text: &mut Vec<u8>,
    names: &NameTable,
    indent: &[u8],
    list: &[Stmt],
) -> Result<(), NoMemory>
    ensures { OnOk result (text.new.items ≡ text.old.items ++ at indent.now (else_lines (map (stmt_part (named names.now)) list.now))) }
{
    match list {
        [] => {
            add(text, indent)?;
            add(text, b"}\n")?;
            Ok(())
        }
        [only] => {
            add_only_else(alloc, text, names, indent, only)?;
            Ok(())
        }
        [_, _, ..] => {
            add(text, indent)?;
            add(text, b"} else ")?;
            add_braces(alloc, text, names, indent, list)?;
            Ok(())
        }
    }
}

/// Adds an `else` of one statement: an `if` stands on its line.
#[cycle(lines)]
fn add_only_else(
    alloc: Global,
    text: &mut Vec<u8>,
    names: &NameTable,
    indent: &[u8],
    only: &Stmt,
) -> Result<(), NoMemory>
    ensures { OnOk result (text.new.items ≡ text.old.items ++ at indent.now (else_lines (stmt_part (named names.now) only.now ∷ []))) }
{
    match only {
        Stmt::If { cond, yes, no } => {
            add(text, indent)?;
            add(text, b"} else ")?;
            add_if_start(alloc, text, names, indent, cond, yes.as_slice())?;
            add_else(alloc, text, names, indent, no.as_slice())?;
            Ok(())
        }
        _ => add_only_braces(alloc, text, names, indent, only),
    }
}

/// Adds an `else` of one statement that is no `if`.
#[cycle(lines)]
fn add_only_braces(
    alloc: Global,
    text: &mut Vec<u8>,
    names: &NameTable,
    indent: &[u8],
    only: &Stmt,
) -> Result<(), NoMemory>
    requires { (stmt_part (named names.now) only.now).is_if ≡ false }
    ensures { OnOk result (text.new.items ≡ text.old.items ++ at indent.now (else_lines (stmt_part (named names.now) only.now ∷ []))) }
{
    let more = deeper(alloc, indent)?;
    add(text, indent)?;
    add(text, b"} else ")?;
    add(text, b"{\n")?;
    add_stmt(alloc, text, names, more.as_slice(), only)?;
    add(text, indent)?;
    add(text, b"}\n")?;
    Ok(())
}

/// Adds statements in braces, from the opening brace on.
#[cycle(lines)]
fn add_braces(
    alloc: Global,
    text: &mut Vec<u8>,
    names: &NameTable,
    indent: &[u8],
    list: &[Stmt],
) -> Result<(), NoMemory>
    ensures { OnOk result (text.new.items ≡ text.old.items ++ braces indent.now (body_lines (named names.now) list.now)) }
{
    let more = deeper(alloc, indent)?;
    add(text, b"{\n")?;
    add_list(alloc, text, names, more.as_slice(), list)?;
    add(text, indent)?;
    add(text, b"}\n")?;
    Ok(())
}

/// Adds statements, one after another.
#[cycle(lines)]
pub fn add_list(
    alloc: Global,
    text: &mut Vec<u8>,
    names: &NameTable,
    indent: &[u8],
    list: &[Stmt],
) -> Result<(), NoMemory>
    ensures { OnOk result (text.new.items ≡ text.old.items ++ at indent.now (body_lines (named names.now) list.now)) }
{
    for stmt in list {
        add_stmt(alloc, text, names, indent, stmt)?;
    }
    Ok(())
}
